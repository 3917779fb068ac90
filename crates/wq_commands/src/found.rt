//! What a command finds: the first text behind the declaration that is refused, or what the command looked for.
//!
//! Each call takes constant time.

ghost use Rattle.std.specs.Prelude.{◌≡◌, IfOk};
ghost use Rattle.wq_commands.specs.Answer.{PrintsRefusal};
ghost use Rattle.wq_commands.specs.Found.{IsUnread};

use crate::refusal::refuse;
use crate::shell::Answered;
use std::alloc::{AllocError, Allocator};
use wq_cert::CertError;

/// One of the texts behind a declaration.
#[derive(Clone, Copy, Debug, PartialEq, Eq)]
pub enum Which {
    /// The second text of a command: a certificate, or an assignment.
    Certificate,
    /// The third one: a run.
    Run,
}

/// What is found in the texts behind a declaration.
#[derive(Drop)]
pub enum Found<T> {
    /// This text is refused, for the fault of this number on this line. The line is 0 if no line is meant.
    Refused { which: Which, code: u32, line: u32 },
    /// All are read, and this is what the command looks for.
    Read(T),
}

impl<A: Allocator + Copy, T> Answered<A, Found<T>> {
    /// The answer if a text can't be read, because of this fault. The only error is out of memory (20), which the fault
    /// may be, too.
    pub fn unread(alloc: A, which: Which, fault: CertError) -> Result<Self, AllocError>
        ensures { IfOk result (λ a. IsUnread which fault a.found a.end a.text.items) }
    {
        match fault {
            CertError::OutOfMemory => Err(AllocError),
            fault => {
                let (code, line) = (fault.code(), fault.line());
                let (end, text) = refuse(alloc, code, line)?;
                Ok(Answered {
                    found: Found::Refused { which, code, line },
                    end,
                    text,
                })
            }
        }
    }
}
