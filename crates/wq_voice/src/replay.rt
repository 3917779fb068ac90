//! What is said beside the answer of `replay`: why the first step that isn't lawful isn't; or, beside a run that ends
//! stuck, how the workqueues hang soonest.
//!
//! A call takes the time and the memory of making the steps again up to that one, or of the search for a shortest run.

ghost use Rattle.std.specs.Prelude.{◌≡◌, ℕ, IfOk, List, Ok, Option, option_map};
ghost use Rattle.wq_cert.specs.Texts.{workqueues_of_text};
ghost use Rattle.wq_cert.specs.Part.{made_of};
ghost use Rattle.wq_items.specs.declared.target.Target.{Target};
ghost use Rattle.wq_names.specs.Names.{names_of};
ghost use Rattle.wq_commands.specs.Commands.{ReplaysTexts};
ghost use Rattle.wq_commands.specs.declared.end.End.{End};
ghost use Rattle.wq_diagnosis.specs.Reasons.{SaysStep};
ghost use Rattle.wq_voice.specs.Voice.{declared_read, SaysEnd, SaysEndOf};

use crate::file_names::FileNames;
use crate::reason::say_reason;
use crate::refused::say_refused_text;
use crate::was_read::assigned_of;
use std::alloc::{AllocError, Allocator};
use wq_checker::RunEnd;
use wq_commands::{Found, ReplayCommand, Replayed, Texts, Voice};
use wq_core::{Assigned, Step};
use wq_diagnosis::{CertificateKind, Source, of_no_item, of_unlawful};
use wq_groups::Declaration;
use wq_names::workqueue_names;

/// Why the step with this number isn't lawful on the workqueues in this text.
fn say_unlawful<A: Allocator + Copy>(
    alloc: A,
    assigned: &Assigned<'_, '_, A>,
    assignment: &[u8],
    steps: &[Step],
    run: Source<'_>,
    number: u32,
) -> Result<Option<Vec<u8, A>>, AllocError>
    requires read { workqueues_of_text assigned.now.declared.table.names assigned.now.declared.partition assignment.now
        ≡ Ok assigned.now.workqueues }
    requires run { (waits : List (List Target)) × (kept : Option (List ℕ))
        × (made_of assigned.now.declared.table.names waits run.text.now ≡ Ok (kept, steps.now)) }
    ensures { IfOk result (λ said. SaysStep run.entry.file.now assigned.now.declared assigned.now.workqueues
        (names_of assignment.now) steps.now number (option_map (λ text. text.items) said)) }
{
    let names = workqueue_names(alloc, assignment)?;
    of_unlawful(alloc, assigned, &names, steps, run, number)
}

/// Why a step of a run isn't lawful, if the run was made in a reading, or with all flushes.
pub(crate) fn say_unlawful_in_reading<A: Allocator + Copy>(
    alloc: A,
    assigned: &Assigned<'_, '_, A>,
    assignment: &[u8],
    replayed: &Replayed<A>,
    run: Source<'_>,
    number: u32,
) -> Result<Option<Vec<u8, A>>, AllocError>
    requires read { workqueues_of_text assigned.now.declared.table.names assigned.now.declared.partition assignment.now
        ≡ Ok assigned.now.workqueues }
    requires run { made_of assigned.now.declared.table.names assigned.now.declared.table.waits run.text.now
        ≡ Ok (option_map (λ places. places.items) replayed.now.kept, replayed.now.steps.items) }
    ensures { IfOk result (λ said. SaysStep run.entry.file.now
        (declared_read assigned.now.declared (option_map (λ places. places.items) replayed.now.kept))
        assigned.now.workqueues (names_of assignment.now) replayed.now.steps.items number
        (option_map (λ text. text.items) said)) }
{
    match &replayed.kept {
        Some(kept) => {
            let reading = assigned.declared.reading(alloc, kept.as_slice())?;
            let read = Assigned::new(&reading, assigned.workqueues());
            say_unlawful(alloc, &read, assignment, &replayed.steps, run, number)
        }
        None => say_unlawful(alloc, assigned, assignment, &replayed.steps, run, number),
    }
}

/// What is said of a run that was made. The workqueues are in the second text, and the steps in the third.
fn say_replayed<A: Allocator + Copy>(
    alloc: A,
    names: &FileNames<'_>,
    assigned: &Assigned<'_, '_, A>,
    texts: &Texts<A>,
    replayed: &Replayed<A>,
) -> Result<Option<Vec<u8, A>>, AllocError>
    requires read { workqueues_of_text assigned.now.declared.table.names assigned.now.declared.partition
        texts.now.second ≡ Ok assigned.now.workqueues }
    requires run { made_of assigned.now.declared.table.names assigned.now.declared.table.waits texts.now.third
        ≡ Ok (option_map (λ places. places.items) replayed.now.kept, replayed.now.steps.items) }
    ensures { IfOk result (λ said. SaysEnd names.now.declaration.now names.now.run.now texts.now.second
        assigned.now.declared assigned.now.workqueues (option_map (λ places. places.items) replayed.now.kept)
        replayed.now.steps.items replayed.now.end
        (option_map (λ text. text.items) said)) }
{
    match replayed.end {
        RunEnd::Free => of_no_item(alloc, assigned.declared, names.declaration),
        RunEnd::Deadlock | RunEnd::Stuck => {
            let declaration = Source {
                file: names.declaration,
                text: texts.first(),
            };
            let assignment = Source {
                file: names.second,
                text: texts.second(),
            };
            say_reason(alloc, declaration, assignment, assigned)
        }
        RunEnd::NotLawful(number) => {
            let run = Source {
                file: names.run,
                text: texts.third(),
            };
            say_unlawful_in_reading(alloc, assigned, texts.second(), replayed, run, number)
        }
    }
}

/// What is said of what `replay` found.
fn say_replay<A: Allocator + Copy>(
    alloc: A,
    names: &FileNames<'_>,
    declared: &Declaration<'_, A>,
    texts: &Texts<A>,
    found: &Found<Replayed<A>>,
) -> Result<Option<Vec<u8, A>>, AllocError>
    requires { (end : End) × (out : List ℕ)
        × ReplaysTexts declared.now texts.now.second texts.now.third found.now end out }
    ensures { IfOk result (λ said. SaysEndOf names.now.declaration.now names.now.second.now names.now.run.now
        declared.now texts.now found.now (option_map (λ text. text.items) said)) }
{
    match found {
        Found::Refused { which, code, line } => {
            let kind = CertificateKind::Assignment;
            say_refused_text(alloc, names, kind, declared, texts, *which, *code, *line)
        }
        Found::Read(replayed) => {
            let assigned = assigned_of(declared, &replayed.workqueues);
            say_replayed(alloc, names, &assigned, texts, replayed)
        }
    }
}

impl<A: Allocator + Copy> Voice<ReplayCommand, A> for FileNames<'_> {
    ghost use Rattle.wq_voice.specs.Voice.{SaysEndOf};

    ghost says = { λ names _ s texts found said.
        SaysEndOf names.declaration.now names.second.now names.run.now s texts found said };

    fn say(
        &self,
        alloc: A,
        _seed: u64,
        _command: &ReplayCommand,
        declared: &Declaration<'_, A>,
        texts: &Texts<A>,
        found: &Found<Replayed<A>>,
    ) -> Result<Option<Vec<u8, A>>, AllocError> {
        say_replay(alloc, self, declared, texts, found)
    }
}
