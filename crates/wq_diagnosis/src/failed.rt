//! What standard error says about a file that can't be opened, read or written.
//!
//! The form is that of "Faults and exit statuses" in docs/FORMAT.md. It takes the time and the memory of the line.

ghost use Rattle.std.specs.Prelude.{◌≡◌, ◌∷◌, [], IfOk};
ghost use Rattle.wq_names.specs.Messages.{failed};
ghost use Rattle.wq_diagnosis.specs.Diagnosis.{shown_lines};

use crate::layout::put_line;
use std::alloc::{AllocError, Allocator};
use wq_names::messages;

/// The line that names a file that can't be opened, read or written, and says why. Its bytes are shown as in a
/// diagnosis.
///
/// The only error is out of memory (20).
pub fn of_failed<A: Allocator + Copy>(
    alloc: A,
    file: &str,
    why: &str,
) -> Result<Vec<u8, A>, AllocError>
    ensures { IfOk result (λ said. said.items ≡ shown_lines (failed file.now why.now ∷ [])) }
{
    let line = messages::failed(alloc, file.as_bytes(), why.as_bytes())?;
    let mut said = Vec::new(alloc);
    put_line(&mut said, &line)?;
    Ok(said)
}
