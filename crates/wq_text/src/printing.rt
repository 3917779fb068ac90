//! A line, word by word: one space between two words, and a line feed after the last.
//!
//! The lines of "Plan texts", "Circle texts" and "Run texts" in docs/FORMAT.md and the answers of the commands are
//! printed this way. A call takes time linear in what it appends, and no memory for anything else. If memory runs out,
//! a part may have been appended.

ghost use Rattle.std.specs.Prelude.{◌≡◌, ◌++◌, ◌∷◌, [], OnErr, OnOk, decimal};
ghost use Rattle.wq_text.specs.LineText.{IsBegun, spaced};

use itoa::Buffer;
use std::alloc::{AllocError, Allocator};

/// Appends bytes. The only error is out of memory (20).
pub fn put<A: Allocator + Copy>(out: &mut Vec<u8, A>, bytes: &[u8]) -> Result<(), AllocError>
    ensures added { OnOk result (out.new.items ≡ out.old.items ++ bytes.now) }
    ensures part { OnErr result (IsBegun bytes.now out.old.items out.new.items) }
{
    out.extend_from_slice(bytes)?;
    Ok(())
}

/// Appends a space and a word. The only error is out of memory (20).
pub fn put_word<A: Allocator + Copy>(out: &mut Vec<u8, A>, word: &[u8]) -> Result<(), AllocError>
    ensures added { OnOk result (out.new.items ≡ out.old.items ++ spaced word.now) }
    ensures part { OnErr result (IsBegun (spaced word.now) out.old.items out.new.items) }
{
    out.push(b' ')?;
    out.extend_from_slice(word)?;
    Ok(())
}

/// Appends a space and a number. The only error is out of memory (20).
pub fn put_number<A: Allocator + Copy>(out: &mut Vec<u8, A>, number: u32) -> Result<(), AllocError>
    ensures added { OnOk result (out.new.items ≡ out.old.items ++ spaced (decimal number)) }
    ensures part { OnErr result (IsBegun (spaced (decimal number)) out.old.items out.new.items) }
{
    let mut digits = Buffer::new();
    put_word(out, digits.format(number).as_bytes())
}

/// Appends a space and a count, a number of up to 64 bits. The only error is out of memory (20).
pub fn put_count<A: Allocator + Copy>(out: &mut Vec<u8, A>, count: u64) -> Result<(), AllocError>
    ensures added { OnOk result (out.new.items ≡ out.old.items ++ spaced (decimal count)) }
    ensures part { OnErr result (IsBegun (spaced (decimal count)) out.old.items out.new.items) }
{
    let mut digits = Buffer::new();
    put_word(out, digits.format(count).as_bytes())
}

/// Ends a line. The only error is out of memory (20).
pub fn put_end<A: Allocator + Copy>(out: &mut Vec<u8, A>) -> Result<(), AllocError>
    ensures added { OnOk result (out.new.items ≡ out.old.items ++ (10 ∷ [])) }
    ensures part { OnErr result (IsBegun (10 ∷ []) out.old.items out.new.items) }
{
    out.push(b'\n')?;
    Ok(())
}
