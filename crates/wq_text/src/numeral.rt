//! 32-bit numbers in decimal digits, each with one spelling.
//!
//! The spelling is that of "Lines, words and numbers" in docs/FORMAT.md. Reading takes time linear in the length of the
//! word.

ghost use Rattle.std.specs.Int.{IsInRange};
ghost use Rattle.std.specs.Prelude.{◌≡◌, ◌<◌, ◌↔◌, ℕ, IfSome, IfNone, IsTrue, length, slice_index};
ghost use Rattle.wq_text.specs.Numbers.{Spells};

use std::str;

/// Whether the bytes begin as a number does: with a digit, and not with a `0` before another digit.
fn begins_number(bytes: &[u8]) -> bool
    ensures { IsTrue result
        ↔ ((0 < length bytes.now) × IsInRange 48 57 (slice_index bytes.now 0)
        × (slice_index bytes.now 0 ≡ 48 → length bytes.now ≡ 1)) }
{
    matches!(bytes, [b'0'] | [b'1'..=b'9', ..])
}

/// The number that the bytes spell: `0`, or a digit from 1 to 9 followed by digits, at most 4,294,967,295.
///
/// `None` for any other bytes: none at all, a leading zero, a sign, a byte that isn't a digit, or a larger number.
pub fn number(bytes: &[u8]) -> Option<u32>
    ensures some { IfSome result (λ n. Spells bytes.now n) }
    ensures none { IfNone result ((n : ℕ) → Spells bytes.now n → ⊥) }
{
    if !begins_number(bytes) {
        return None;
    }
    let Ok(digits) = str::from_utf8(bytes) else {
        return None;
    };
    digits.parse().ok()
}
