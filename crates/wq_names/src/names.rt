//! The names of the workqueues in the text of an assignment.
//!
//! The rule is that of "Names of workqueues" in docs/FORMAT.md. Reading the names takes time linear in the length of
//! the text, and memory linear in the number of workqueues: the bytes stay where they are.

ghost use Rattle.std.specs.Prelude.{◌≡◌, ◌==◌, [], IfOk, None, filter, map, slice_index_or};
ghost use Rattle.std.specs.List.{before_first, list_all};
ghost use Rattle.wq_text.specs.Limits.{limit_fault};
ghost use Rattle.wq_text.specs.Lines.{LineView};
ghost use Rattle.wq_cert.specs.Texts.{max_certificate, max_certificate_line};
ghost use Rattle.wq_names.specs.Names.{is_name, is_printable, is_workqueue_line, name_on, names_of, without_end};

use crate::comment::comment_body;
use memchr::memchr;
use std::alloc::{AllocError, Allocator};
use wq_cert::{MAX_CERTIFICATE, MAX_CERTIFICATE_LINE};
use wq_text::{Line, Lines, Text};

/// The most bytes that a name may have.
pub const MAX_NAME: usize = 63;

/// The bytes before the first comma; all of them if there is none.
fn before_comma(bytes: &[u8]) -> &[u8]
    ensures { result.now ≡ before_first (λ b. b == 44) bytes.now }
{
    match memchr(b',', bytes) {
        Some(comma) => &bytes[..comma],
        None => bytes,
    }
}

/// The bytes without trailing blanks.
fn without_end(bytes: &[u8]) -> &[u8]
    ensures { result.now ≡ without_end bytes.now }
{
    let mut len = bytes.len();
    while len > 0 && (bytes[len - 1] == b' ' || bytes[len - 1] == b'\t') {
        len -= 1;
    }
    &bytes[..len]
}

/// Whether a byte is printable ASCII.
fn is_printable(byte: u8) -> bool
    ensures { result ≡ is_printable byte }
{
    b' ' <= byte && byte <= b'~'
}

/// Whether each byte is printable ASCII.
fn are_printable(bytes: &[u8]) -> bool
    ensures { result ≡ list_all is_printable bytes.now }
{
    bytes.iter().all(|byte| is_printable(*byte))
}

/// Whether these bytes can be the name of a workqueue: 1 to 63 bytes of printable ASCII.
fn is_name(bytes: &[u8]) -> bool
    ensures { result ≡ is_name bytes.now }
{
    !bytes.is_empty() && bytes.len() <= MAX_NAME && are_printable(bytes)
}

/// The name that the line of a workqueue gives it, as `nvme-wq` in `wq 0 a # nvme-wq, for resets`; empty if it gives
/// none.
pub fn name_on<'a>(line: &Line<'a>) -> &'a [u8]
    ensures { result.now ≡ name_on line.now.bytes }
{
    let called = without_end(before_comma(comment_body(line)));
    if is_name(called) { called } else { &[] }
}

/// Whether a line is that of a workqueue, with a rescuer or without.
fn is_workqueue_line(line: &Line<'_>) -> bool
    ensures { result ≡ is_workqueue_line line.now }
{
    match line.words().next() {
        Some(word) => word.bytes() == b"wq".as_slice() || word.bytes() == b"norescuer".as_slice(),
        None => false,
    }
}

/// The names on those of these lines that are lines of workqueues.
fn names_on<'a, A: Allocator>(alloc: A, lines: Lines<'a>) -> Result<Vec<&'a [u8], A>, AllocError>
    ensures { IfOk result (λ names. map (λ n. n.now) names.items
        ≡ map (λ (line : LineView). name_on line.bytes) (filter is_workqueue_line lines.entry)) }
{
    let mut names = Vec::new(alloc);
    for line in lines {
        if is_workqueue_line(&line) {
            names.push(name_on(&line))?;
        }
    }
    Ok(names)
}

/// The names of the workqueues in the text of an assignment, from workqueue 0 on, empty for a workqueue without a name.
/// A text above the limits of a certificate has no workqueues. The only error is out of memory.
pub fn workqueue_names<A: Allocator>(alloc: A, text: &[u8]) -> Result<Vec<&[u8], A>, AllocError>
    ensures { limit_fault max_certificate max_certificate_line text.now ≡ None
        → IfOk result (λ names. map (λ n. n.now) names.items ≡ names_of text.now) }
{
    match Text::new(text, MAX_CERTIFICATE, MAX_CERTIFICATE_LINE) {
        Ok(text) => names_on(alloc, text.lines()),
        Err(_) => Ok(Vec::new(alloc)),
    }
}

/// The name of the workqueue with this number; empty if it has none.
pub fn name_at<'a>(names: &[&'a [u8]], number: u16) -> &'a [u8]
    ensures { result.now ≡ slice_index_or (map (λ n. n.now) names.now) number [] }
{
    match names.get(usize::from(number)) {
        Some(name) => name,
        None => &[],
    }
}
