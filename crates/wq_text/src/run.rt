//! Runs of bytes of one kind, sixteen at a time: bytes greater than `#`, and bytes other than a line feed.
//!
//! All bytes of a name are greater than `#`, and so are those of most words. A space, a TAB, a line feed and the `#`
//! itself aren't (docs/FORMAT.md, "Lines, words and numbers"). A run of n bytes takes n / 16 steps.

ghost use Rattle.std.specs.Prelude.{◌≡◌, ◌+◌, ◌<◌, ◌≤◌, ◌==◌, ◌∷◌, ◌++◌, ℕ, true, false, nat_le, length};
ghost use Rattle.std.specs.Prelude.{take, slice_index, IfSome};
ghost use Rattle.memchr.specs.Find.{IsFirstByte, is_byte};
ghost use Rattle.wq_text.specs.Runs.{first_set, AllGreater};

use std::simd::prelude::*;

/// How many bytes a vector holds.
const LANES: usize = 16;

/// The index of the lowest bit that is set, or 16 if none is.
fn first_set(mask: u64) -> usize
    ensures { result ≡ first_set mask }
{
    if mask == 0 {
        LANES
    } else {
        mask.trailing_zeros() as usize
    }
}

/// How many of the sixteen bytes from index `at` on come before the first that isn't greater than `#`.
fn greater_of_sixteen(text: &[u8], at: usize) -> usize
    requires { at + 16 ≤ length text.now }
    ensures short { result ≤ 16 }
    ensures greater { (k : ℕ) → at ≤ k → k < at + result → nat_le (slice_index text.now k) 35 ≡ false }
{
    let others = u8x16::from_slice(&text[at..]).simd_le(u8x16::splat(b'#'));
    first_set(others.to_bitmask())
}

/// How many of the sixteen bytes from index `at` on come before the first line feed.
fn feedless_of_sixteen(text: &[u8], at: usize) -> usize
    requires { at + 16 ≤ length text.now }
    ensures short { result ≤ 16 }
    ensures feedless { (k : ℕ) → at ≤ k → k < at + result → (slice_index text.now k == 10) ≡ false }
    ensures feed { result < 16 → (slice_index text.now (at + result) == 10) ≡ true }
{
    let feeds = u8x16::from_slice(&text[at..]).simd_eq(u8x16::splat(b'\n'));
    first_set(feeds.to_bitmask())
}

/// A lower bound of how many bytes from index `at` on are greater than `#`: at most 16, and 0 if fewer than sixteen
/// bytes are left.
pub(crate) fn greater_at(text: &[u8], at: usize) -> usize
    requires { at ≤ length text.now }
    ensures within { at + result ≤ length text.now }
    ensures greater { (k : ℕ) → at ≤ k → k < at + result → nat_le (slice_index text.now k) 35 ≡ false }
{
    if text.len() - at < LANES {
        return 0;
    }
    greater_of_sixteen(text, at)
}

/// How many bytes at the front are greater than `#`, if one that isn't comes before the last fifteen bytes.
fn greater_in_front(text: &[u8]) -> Option<usize>
    ensures within { IfSome result (λ len. len < length text.now) }
    ensures greater { IfSome result (λ len. AllGreater (take len text.now)) }
{
    let mut len = 0;
    while LANES <= text.len() - len {
        let run = greater_of_sixteen(text, len);
        len += run;
        if run < LANES {
            return Some(len);
        }
    }
    None
}

/// The bytes before the first that isn't greater than `#`, and those after it, if it is `end` and isn't the first byte.
/// `None` also if fewer than sixteen bytes are left where it is looked for.
#[inline(always)]
pub(crate) fn cut_at(text: &[u8], end: u8) -> Option<(&[u8], &[u8])>
    ensures whole { IfSome result (λ parts. text.now ≡ parts.0.now ++ (end ∷ parts.1.now)) }
    ensures greater { IfSome result (λ parts. AllGreater parts.0.now) }
    ensures some { IfSome result (λ parts. 0 < length parts.0.now) }
{
    let len = greater_in_front(text)?;
    if len == 0 || text[len] != end {
        return None;
    }
    Some((&text[..len], &text[len + 1..]))
}

/// The index of the first line feed.
pub(crate) fn first_feed(text: &[u8]) -> Option<usize>
    ensures { IsFirstByte (is_byte 10) text.now result }
{
    let mut at = 0;
    while LANES <= text.len() - at {
        let run = feedless_of_sixteen(text, at);
        at += run;
        if run < LANES {
            return Some(at);
        }
    }
    for place in at..text.len() {
        if text[place] == b'\n' {
            return Some(place);
        }
    }
    None
}
