//! What is said beside the answer of `replay` where items must go on: why the first step that isn't lawful isn't; or,
//! beside a run that ends stuck for them, how one of them is held up soonest.
//!
//! A call takes the time and the memory of making the steps again up to that one, or of the search for a shortest run.

ghost use Rattle.std.specs.Prelude.{◌≡◌, ◌<◌, ℕ, IfOk, List, Ok, length, map, option_map};
ghost use Rattle.std.specs.List.{All};
ghost use Rattle.wq_cert.specs.Texts.{workqueues_of_text};
ghost use Rattle.wq_cert.specs.Part.{made_of};
ghost use Rattle.wq_commands.specs.ReplayingFor.{ReplaysTextsFor};
ghost use Rattle.wq_commands.specs.declared.end.End.{End};
ghost use Rattle.wq_commands.specs.declared.found.Found.TheVariants.{Read};
ghost use Rattle.wq_voice.specs.VoiceFor.{SaysEndFor, SaysEndOfFor, SaysNamed};

use crate::file_names::FileNames;
use crate::held::say_soonest;
use crate::refused::say_refused_text;
use crate::replay::say_unlawful_in_reading;
use crate::unknown::say_unknown;
use crate::was_read::assigned_of;
use std::alloc::{AllocError, Allocator};
use wq_checker::RunEnd;
use wq_commands::{Found, ReplayForCommand, ReplayedFor, Texts, Voice};
use wq_core::Assigned;
use wq_diagnosis::{CertificateKind, Source, of_no_item};
use wq_groups::Declaration;

/// What is said of a run that was made, of workqueues whose text is the second and of steps whose text is the third.
fn say_replayed_for<A: Allocator + Copy>(
    alloc: A,
    names: &FileNames<'_>,
    assigned: &Assigned<'_, '_, A>,
    texts: &Texts<A>,
    made: &ReplayedFor<A>,
) -> Result<Option<Vec<u8, A>>, AllocError>
    requires read { workqueues_of_text assigned.now.declared.table.names assigned.now.declared.partition
        texts.now.second ≡ Ok assigned.now.workqueues }
    requires named { All (λ i. i < length assigned.now.declared.table.names) made.now.named.items }
    requires run { made_of assigned.now.declared.table.names assigned.now.declared.table.waits texts.now.third
        ≡ Ok (option_map (λ places. places.items) made.now.replayed.kept, made.now.replayed.steps.items) }
    ensures { IfOk result (λ said. SaysEndFor names.now.declaration.now names.now.second.now names.now.run.now
        texts.now.second assigned.now.declared assigned.now.workqueues made.now.named.items
        (option_map (λ places. places.items) made.now.replayed.kept) made.now.replayed.steps.items
        made.now.replayed.end (option_map (λ text. text.items) said)) }
{
    match made.replayed.end {
        RunEnd::Free => of_no_item(alloc, assigned.declared, names.declaration),
        RunEnd::Deadlock | RunEnd::Stuck => {
            let declaration = Source {
                file: names.declaration,
                text: texts.first(),
            };
            let assignment = Source {
                file: names.second,
                text: texts.second(),
            };
            say_soonest(
                alloc,
                declaration,
                assignment,
                assigned,
                made.named.as_slice(),
            )
        }
        RunEnd::NotLawful(number) => {
            let run = Source {
                file: names.run,
                text: texts.third(),
            };
            say_unlawful_in_reading(alloc, assigned, texts.second(), &made.replayed, run, number)
        }
    }
}

/// What is said of a run that was made, or of a name that is that of no item.
fn say_read_for<A: Allocator + Copy>(
    alloc: A,
    files: &FileNames<'_>,
    names: &[&str],
    declared: &Declaration<'_, A>,
    texts: &Texts<A>,
    read: &Option<ReplayedFor<A>>,
) -> Result<Option<Vec<u8, A>>, AllocError>
    requires { (end : End) × (out : List ℕ) × ReplaysTextsFor declared.now (map (λ n. n.now) names.now)
        texts.now.second texts.now.third (Read read.now) end out }
    ensures { IfOk result (λ said. SaysNamed files.now.declaration.now (map (λ n. n.now) names.now) declared.now
        (λ r said. SaysEndFor files.now.declaration.now files.now.second.now files.now.run.now texts.now.second
        declared.now r.replayed.workqueues r.named.items (option_map (λ places. places.items) r.replayed.kept)
        r.replayed.steps.items r.replayed.end said) read.now
        (option_map (λ text. text.items) said)) }
{
    match read {
        None => {
            let declaration = Source {
                file: files.declaration,
                text: texts.first(),
            };
            say_unknown(alloc, declaration, declared, names)
        }
        Some(made) => {
            let assigned = assigned_of(declared, &made.replayed.workqueues);
            say_replayed_for(alloc, files, &assigned, texts, made)
        }
    }
}

/// What is said of what `replay` found where the items with these names must go on.
fn say_replay_for<A: Allocator + Copy>(
    alloc: A,
    files: &FileNames<'_>,
    names: &[&str],
    declared: &Declaration<'_, A>,
    texts: &Texts<A>,
    found: &Found<Option<ReplayedFor<A>>>,
) -> Result<Option<Vec<u8, A>>, AllocError>
    requires { (end : End) × (out : List ℕ) × ReplaysTextsFor declared.now (map (λ n. n.now) names.now)
        texts.now.second texts.now.third found.now end out }
    ensures { IfOk result (λ said. SaysEndOfFor files.now.declaration.now files.now.second.now files.now.run.now
        (map (λ n. n.now) names.now) declared.now texts.now found.now (option_map (λ text. text.items) said)) }
{
    match found {
        Found::Refused { which, code, line } => {
            let kind = CertificateKind::Assignment;
            say_refused_text(alloc, files, kind, declared, texts, *which, *code, *line)
        }
        Found::Read(read) => say_read_for(alloc, files, names, declared, texts, read),
    }
}

impl<A: Allocator + Copy> Voice<ReplayForCommand<'_>, A> for FileNames<'_> {
    ghost use Rattle.std.specs.Prelude.{map};
    ghost use Rattle.wq_voice.specs.VoiceFor.{SaysEndOfFor};

    ghost says = { λ names command s texts found said.
        SaysEndOfFor names.declaration.now names.second.now names.run.now (map (λ n. n.now) command.names.now) s texts
        found said };

    fn say(
        &self,
        alloc: A,
        _seed: u64,
        command: &ReplayForCommand<'_>,
        declared: &Declaration<'_, A>,
        texts: &Texts<A>,
        found: &Found<Option<ReplayedFor<A>>>,
    ) -> Result<Option<Vec<u8, A>>, AllocError> {
        say_replay_for(alloc, self, command.names, declared, texts, found)
    }
}
