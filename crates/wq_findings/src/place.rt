//! The place of a finding in a text, as in the first line of a diagnosis: the numbers of the line and of the column.
//!
//! Printing it takes time and memory linear in the number of digits.

ghost use Rattle.std.specs.Prelude.{◌≡◌, ◌++◌, ◌∷◌, OnErr, OnOk, decimal};
ghost use Rattle.wq_text.specs.LineText.{IsBegun};
ghost use Rattle.wq_findings.specs.Shown.{place_text};

use std::alloc::{AllocError, Allocator};

/// Appends the numbers of a place, each after a colon, as `:12:3`. The only error is out of memory (20).
pub fn put_place<A: Allocator + Copy>(
    alloc: A,
    out: &mut Vec<u8, A>,
    place: &[u32],
) -> Result<(), AllocError>
    ensures added { OnOk result (out.new.items ≡ out.old.items ++ place_text place.now) }
    ensures part { OnErr result (IsBegun (place_text place.now) out.old.items out.new.items) }
{
    for number in place {
        put_part(alloc, out, *number)?;
    }
    Ok(())
}

/// Appends a number after a colon.
fn put_part<A: Allocator + Copy>(
    alloc: A,
    out: &mut Vec<u8, A>,
    number: u32,
) -> Result<(), AllocError>
    ensures added { OnOk result (out.new.items ≡ out.old.items ++ (58 ∷ decimal number)) }
    ensures part { OnErr result (IsBegun (58 ∷ decimal number) out.old.items out.new.items) }
{
    let digits = number.to_string(alloc)?;
    out.push(b':')?;
    out.extend_from_slice(digits.as_bytes())?;
    Ok(())
}
