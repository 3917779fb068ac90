//! Comments: what a line says after its first `#`.
//!
//! Finding the comment takes time linear in the length of the line, and no memory: the bytes stay where they are.

ghost use Rattle.std.specs.Prelude.{◌≡◌};
ghost use Rattle.std.specs.List.{prefix_len};
ghost use Rattle.wq_names.specs.Comments.{comment_body, is_lead, without_lead};

use wq_text::Line;

/// Whether a byte is a `#` or a blank.
fn is_lead(byte: u8) -> bool
    ensures { result ≡ is_lead byte }
{
    byte == b'#' || byte == b' ' || byte == b'\t'
}

/// How many bytes at the front are a `#` or a blank.
fn lead(bytes: &[u8]) -> usize
    ensures { result ≡ prefix_len is_lead bytes.now }
{
    for (len, byte) in bytes.iter().enumerate() {
        if !is_lead(*byte) {
            return len;
        }
    }
    bytes.len()
}

/// The bytes from the first one that isn't a `#` or a blank.
fn without_lead(bytes: &[u8]) -> &[u8]
    ensures { result.now ≡ without_lead bytes.now }
{
    bytes.split_at(lead(bytes)).1
}

/// The comment of a line: what follows its first `#`, from the first byte that is neither a `#` nor a blank, as `x` in
/// `item a ## x`. Empty if the line has no comment.
pub fn comment_body<'a>(line: &Line<'a>) -> &'a [u8]
    ensures { result.now ≡ comment_body line.now.bytes }
{
    let bytes = line.bytes();
    let after = &bytes[line.content().len()..];
    without_lead(after)
}
