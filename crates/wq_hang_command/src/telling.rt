//! What is said beside the answer of `hang` where items must go on: beside a run, by which waits one of them is held
//! up; beside `safe`, what that doesn't say.
//!
//! The walk is that of the answer. A call takes the time and the memory of the words, and beside `safe` of the search
//! for a shortest hang.

ghost use Rattle.std.specs.Prelude.{◌≡◌, ◌<◌, ℕ, IfOk, List, Ok, length, map, option_map};
ghost use Rattle.std.specs.List.{All};
ghost use Rattle.wq_hang.specs.AnswerFor.{IsAnswerFor};
ghost use Rattle.wq_cert.specs.Texts.{workqueues_of_text};
ghost use Rattle.wq_groups.specs.DeclaredGroups.{declared_waits};
ghost use Rattle.wq_commands.specs.declared.end.End.{End};
ghost use Rattle.wq_hang_command.specs.Holding.{HoldsText};
ghost use Rattle.wq_hang_command.specs.Telling.{SaysHoldOf};
ghost use Rattle.wq_commands.specs.declared.found.Found.TheVariants.{Read};
ghost use Rattle.wq_voice.specs.VoiceFor.{SaysHeld, SaysNamed};

use crate::hold::HoldCommand;
use crate::holding::Holding;
use std::alloc::{AllocError, Allocator};
use wq_commands::{Found, Texts, Voice};
use wq_core::Assigned;
use wq_diagnosis::Source;
use wq_groups::Declaration;
use wq_hang::Held;
use wq_items::ItemId;
use wq_voice::{
    CertificateKind, FileNames, assigned_of, say_held, say_not_held, say_refused_text, say_unknown,
};

/// What is said of this answer to workqueues whose text is the second, where these items must go on.
fn say_answer<A: Allocator + Copy>(
    alloc: A,
    names: &FileNames<'_>,
    assigned: &Assigned<'_, '_, A>,
    texts: &Texts<A>,
    named: &[ItemId],
    answer: &Held<A>,
) -> Result<Option<Vec<u8, A>>, AllocError>
    requires read { workqueues_of_text assigned.now.declared.table.names assigned.now.declared.partition
        texts.now.second ≡ Ok assigned.now.workqueues }
    requires named { All (λ i. i < length assigned.now.declared.table.names) named.now }
    requires answer { IsAnswerFor (declared_waits assigned.now.declared) assigned.now.workqueues
        named.now answer.now }
    ensures { IfOk result (λ said. SaysHeld names.now.declaration.now names.now.second.now texts.now.second
        assigned.now.declared assigned.now.workqueues named.now answer.now
        (option_map (λ text. text.items) said)) }
{
    let assignment = Source {
        file: names.second,
        text: texts.second(),
    };
    match answer {
        Held::Safe => say_not_held(alloc, names.declaration, assignment, assigned, named),
        Held::HeldUp(item, hops, _) => {
            let declaration = Source {
                file: names.declaration,
                text: texts.first(),
            };
            let said = say_held(alloc, declaration, assignment, assigned, named, *item, hops)?;
            Ok(Some(said))
        }
    }
}

/// What is said of an answer that was found, or of a name that is that of no item.
fn say_read_for<A: Allocator + Copy>(
    alloc: A,
    files: &FileNames<'_>,
    names: &[&str],
    declared: &Declaration<'_, A>,
    texts: &Texts<A>,
    read: &Option<Holding<A>>,
) -> Result<Option<Vec<u8, A>>, AllocError>
    requires { (end : End) × (out : List ℕ) × HoldsText declared.now (map (λ n. n.now) names.now) texts.now.second
        (Read read.now) end out }
    ensures { IfOk result (λ said. SaysNamed files.now.declaration.now (map (λ n. n.now) names.now) declared.now
        (λ r said. SaysHeld files.now.declaration.now files.now.second.now texts.now.second declared.now r.workqueues
        r.named.items r.answer said) read.now
        (option_map (λ text. text.items) said)) }
{
    match read {
        None => {
            let declaration = Source {
                file: files.declaration,
                text: texts.first(),
            };
            say_unknown(alloc, declaration, declared, names)
        }
        Some(holding) => {
            let assigned = assigned_of(declared, &holding.workqueues);
            say_answer(
                alloc,
                files,
                &assigned,
                texts,
                holding.named.as_slice(),
                &holding.answer,
            )
        }
    }
}

/// What is said of what `hang` found where the items with these names must go on.
fn say_hold<A: Allocator + Copy>(
    alloc: A,
    files: &FileNames<'_>,
    names: &[&str],
    declared: &Declaration<'_, A>,
    texts: &Texts<A>,
    found: &Found<Option<Holding<A>>>,
) -> Result<Option<Vec<u8, A>>, AllocError>
    requires { (end : End) × (out : List ℕ) × HoldsText declared.now (map (λ n. n.now) names.now)
        texts.now.second found.now end out }
    ensures { IfOk result (λ said. SaysHoldOf files.now.declaration.now files.now.second.now files.now.run.now
        (map (λ n. n.now) names.now) declared.now texts.now found.now (option_map (λ text. text.items) said)) }
{
    match found {
        Found::Refused { which, code, line } => {
            let kind = CertificateKind::Assignment;
            say_refused_text(alloc, files, kind, declared, texts, *which, *code, *line)
        }
        Found::Read(read) => say_read_for(alloc, files, names, declared, texts, read),
    }
}

impl<A: Allocator + Copy> Voice<HoldCommand<'_>, A> for FileNames<'_> {
    ghost use Rattle.std.specs.Prelude.{map};
    ghost use Rattle.wq_hang_command.specs.Telling.{SaysHoldOf};

    ghost says = { λ names command s texts found said.
        SaysHoldOf names.declaration.now names.second.now names.run.now (map (λ n. n.now) command.names.now) s texts
        found said };

    fn say(
        &self,
        alloc: A,
        _seed: u64,
        command: &HoldCommand<'_>,
        declared: &Declaration<'_, A>,
        texts: &Texts<A>,
        found: &Found<Option<Holding<A>>>,
    ) -> Result<Option<Vec<u8, A>>, AllocError> {
        say_hold(alloc, self, command.names, declared, texts, found)
    }
}
