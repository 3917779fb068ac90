//! What is said beside the answer of `dot`: the diagnosis of a text that is refused, or that a declaration has no item.
//!
//! A drawing needs no reason: it shows what hangs. A call takes the time and the memory of the diagnosis or of the
//! note.

ghost use Rattle.std.specs.Prelude.{IfOk, option_map};
ghost use Rattle.wq_dot.specs.Saying.{SaysDot};

use crate::dot::DotCommand;
use crate::dotting::Drawn;
use std::alloc::{AllocError, Allocator};
use wq_commands::{Found, Texts, Voice};
use wq_diagnosis::{CertificateKind, of_no_item};
use wq_groups::Declaration;
use wq_voice::{FileNames, say_refused_text};

/// What is said beside a drawing, or about the text that is refused.
fn say_dot<A: Allocator + Copy>(
    alloc: A,
    names: &FileNames<'_>,
    declared: &Declaration<'_, A>,
    texts: &Texts<A>,
    found: &Found<Drawn<A>>,
) -> Result<Option<Vec<u8, A>>, AllocError>
    ensures { IfOk result (λ said. SaysDot names.now.declaration.now names.now.second.now names.now.run.now
        declared.now found.now (option_map (λ text. text.items) said)) }
{
    match found {
        Found::Refused { which, code, line } => {
            let kind = CertificateKind::Assignment;
            say_refused_text(alloc, names, kind, declared, texts, *which, *code, *line)
        }
        Found::Read(_) => of_no_item(alloc, declared, names.declaration),
    }
}

impl<A: Allocator + Copy> Voice<DotCommand, A> for FileNames<'_> {
    ghost use Rattle.wq_dot.specs.Saying.{SaysDot};

    ghost says = { λ names _ s _ found said.
        SaysDot names.declaration.now names.second.now names.run.now s found said };

    fn say(
        &self,
        alloc: A,
        _seed: u64,
        _command: &DotCommand,
        declared: &Declaration<'_, A>,
        texts: &Texts<A>,
        found: &Found<Drawn<A>>,
    ) -> Result<Option<Vec<u8, A>>, AllocError> {
        say_dot(alloc, self, declared, texts, found)
    }
}
