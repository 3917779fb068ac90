//! What is printed if a text is refused.
//!
//! Each call takes constant time.

ghost use Rattle.std.specs.Prelude.{◌≡◌, IfOk};
ghost use Rattle.wq_commands.specs.Answer.{refusal_text, PrintsRefusal};

use crate::end::End;
use std::alloc::{AllocError, Allocator};
use wq_text::{put, put_end, put_number, put_word};

/// The number of the refusal of a plan that has too many workqueues to run.
pub const TOO_MANY_LANES: u32 = 69;

/// `refused CODE line N`.
pub(crate) fn refusal_text<A: Allocator + Copy>(
    alloc: A,
    code: u32,
    line: u32,
) -> Result<Vec<u8, A>, AllocError>
    ensures { IfOk result (λ text. text.items ≡ refusal_text (record { code = code; line = line })) }
{
    let mut out = Vec::new(alloc);
    put(&mut out, b"refused")?;
    put_number(&mut out, code)?;
    put_word(&mut out, b"line")?;
    put_number(&mut out, line)?;
    put_end(&mut out)?;
    Ok(out)
}

/// How a run whose text is refused ends, and what it prints. The only error is out of memory (20).
pub fn refuse<A: Allocator + Copy>(
    alloc: A,
    code: u32,
    line: u32,
) -> Result<(End, Vec<u8, A>), AllocError>
    ensures { IfOk result (λ printed. PrintsRefusal (record { code = code; line = line }) printed.0 printed.1.items) }
{
    let text = refusal_text(alloc, code, line)?;
    Ok((End::Refused, text))
}
