//! What is said beside the answer of `hang`: beside `safe`, which items are on workqueues without a rescuer; beside a
//! run, the waits of its walk; and beside both, whether unsure flushes matter.
//!
//! Nothing is searched for: the answer has the walk beside its run. A call takes the time and the memory of the words.

ghost use Rattle.std.specs.Prelude.{◌≡◌, ℕ, IfOk, List, Ok, option_map};
ghost use Rattle.wq_hang.specs.Answer.{IsAnswer};
ghost use Rattle.wq_cert.specs.Texts.{workqueues_of_text};
ghost use Rattle.wq_groups.specs.DeclaredGroups.{declared_waits};
ghost use Rattle.wq_commands.specs.declared.end.End.{End};
ghost use Rattle.wq_hang_command.specs.Hanging.{HangsText};
ghost use Rattle.wq_hang_command.specs.Saying.{SaysHang, SaysHangOf};

use crate::hang::HangCommand;
use crate::hanging::Hanging;
use std::alloc::{AllocError, Allocator};
use wq_commands::{Found, Texts, Voice};
use wq_core::Assigned;
use wq_diagnosis::Source;
use wq_groups::Declaration;
use wq_hang::Answer;
use wq_voice::{CertificateKind, FileNames, assigned_of, say_hops, say_refused_text, say_safe};

/// What is said of this answer to the workqueues in the second text.
fn say_answer<A: Allocator + Copy>(
    alloc: A,
    names: &FileNames<'_>,
    assigned: &Assigned<'_, '_, A>,
    texts: &Texts<A>,
    answer: &Answer<A>,
) -> Result<Option<Vec<u8, A>>, AllocError>
    requires read { workqueues_of_text assigned.now.declared.table.names assigned.now.declared.partition
        texts.now.second ≡ Ok assigned.now.workqueues }
    requires answer { IsAnswer (declared_waits assigned.now.declared) assigned.now.workqueues answer.now }
    ensures { IfOk result (λ said. SaysHang names.now.declaration.now names.now.second.now texts.now.second
        assigned.now.declared assigned.now.workqueues answer.now (option_map (λ text. text.items) said)) }
{
    let assignment = Source {
        file: names.second,
        text: texts.second(),
    };
    match answer {
        Answer::Safe => say_safe(alloc, names.declaration, assignment, assigned),
        Answer::Hang(hops, _) => {
            let declaration = Source {
                file: names.declaration,
                text: texts.first(),
            };
            let said = say_hops(alloc, declaration, assignment, assigned, hops)?;
            Ok(Some(said))
        }
    }
}

/// What is said of what `hang` found.
fn say_hang<A: Allocator + Copy>(
    alloc: A,
    names: &FileNames<'_>,
    declared: &Declaration<'_, A>,
    texts: &Texts<A>,
    found: &Found<Hanging<A>>,
) -> Result<Option<Vec<u8, A>>, AllocError>
    requires { (end : End) × (out : List ℕ) × HangsText declared.now texts.now.second found.now end out }
    ensures { IfOk result (λ said. SaysHangOf names.now.declaration.now names.now.second.now names.now.run.now
        declared.now texts.now found.now (option_map (λ text. text.items) said)) }
{
    match found {
        Found::Refused { which, code, line } => {
            let kind = CertificateKind::Assignment;
            say_refused_text(alloc, names, kind, declared, texts, *which, *code, *line)
        }
        Found::Read(hanging) => {
            let assigned = assigned_of(declared, &hanging.workqueues);
            say_answer(alloc, names, &assigned, texts, &hanging.answer)
        }
    }
}

impl<A: Allocator + Copy> Voice<HangCommand, A> for FileNames<'_> {
    ghost use Rattle.wq_hang_command.specs.Saying.{SaysHangOf};

    ghost says = { λ names _ s texts found said.
        SaysHangOf names.declaration.now names.second.now names.run.now s texts found said };

    fn say(
        &self,
        alloc: A,
        _seed: u64,
        _command: &HangCommand,
        declared: &Declaration<'_, A>,
        texts: &Texts<A>,
        found: &Found<Hanging<A>>,
    ) -> Result<Option<Vec<u8, A>>, AllocError> {
        say_hang(alloc, self, declared, texts, found)
    }
}
