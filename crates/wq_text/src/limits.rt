//! The limit of a line's length: whether some line is longer, and which line is the first.
//!
//! A text whose lines keep the limit isn't cut into lines for this. From the start of a line, the search jumps past the
//! last line feed among the next `limit + 1` bytes; no line that it jumps over is too long. So it looks at about one
//! line per jump, and at each byte at most three times. Only if a line is too long are the lines up to it cut, to count
//! them.

ghost use Rattle.std.specs.Prelude.{◌≡◌, ◌<◌, ◌^◌, length, is_some, option_map};
ghost use Rattle.wq_text.specs.Lines.{LineView, lines_of};
ghost use Rattle.wq_text.specs.Limits.{first_long_line};

use crate::line::{Lines, first_cut, line_bytes};
use memchr::memrchr;

/// Whether some line has more than `limit` bytes, including its comment.
fn has_long_line(text: &[u8], limit: u32) -> bool
    ensures { result ≡ is_some (first_long_line limit (lines_of text.now)) }
{
    let limit = limit as usize;
    let mut rest = text;
    while rest.len() > limit {
        match memrchr(b'\n', &rest[..=limit]) {
            Some(feed) => rest = &rest[feed + 1..],
            // The line is too long, unless it ends here with a CR that is no part of it.
            None => {
                let cut = first_cut(rest);
                if line_bytes(cut.piece, cut.ended).len() > limit {
                    return true;
                }
                rest = cut.rest;
            }
        }
    }
    false
}

/// The number of the first line with more than `limit` bytes, including its comment.
pub(crate) fn first_long_line(text: &[u8], limit: u32) -> Option<u32>
    requires { length text.now < 2 ^ 32 }
    ensures { result ≡ option_map (λ (line : LineView). line.no) (first_long_line limit (lines_of text.now)) }
{
    if has_long_line(text, limit) {
        Lines::of(text).first_longer_than(limit)
    } else {
        None
    }
}
