//! What is said beside the verdict of `deadlock`: beside `safe`, which items are on workqueues without a rescuer;
//! beside a run, how the workqueues hang soonest; and beside both, whether unsure flushes matter.
//!
//! Beside a run with unsure flushes, the words are about the walk that was found with them. Beside any other run, a
//! shortest one is searched for. A call takes the time and the memory of that search and of the words.

ghost use Rattle.std.specs.Prelude.{◌≡◌, ℕ, IfOk, IfSome, List, Ok, option_map};
ghost use Rattle.wq_cert.specs.Texts.{workqueues_of_text};
ghost use Rattle.wq_core.specs.declared.step.Step.{Step};
ghost use Rattle.wq_groups.specs.DeclaredGroups.{declared_waits};
ghost use Rattle.wq_hang.specs.Answer.{IsHangOf};
ghost use Rattle.wq_commands.specs.Commands.{JudgesText};
ghost use Rattle.wq_commands.specs.declared.end.End.{End};
ghost use Rattle.wq_voice.specs.Voice.{SaysVerdict, SaysVerdictOf, SaysWalk};

use crate::file_names::FileNames;
use crate::reason::{say_hops, say_reason};
use crate::refused::say_refused_text;
use crate::safe::say_safe;
use crate::was_read::assigned_of;
use std::alloc::{AllocError, Allocator};
use wq_commands::{DeadlockCommand, End, Found, Texts, Verdict, Voice};
use wq_core::Assigned;
use wq_diagnosis::{CertificateKind, Source};
use wq_groups::Declaration;
use wq_hang::Hop;

/// How these workqueues hang by the waits of this walk, or, if no walk was found, how they hang soonest. The second
/// text is theirs.
fn say_walk<A: Allocator + Copy>(
    alloc: A,
    names: &FileNames<'_>,
    assigned: &Assigned<'_, '_, A>,
    texts: &Texts<A>,
    hops: &Option<Vec<Hop, A>>,
) -> Result<Option<Vec<u8, A>>, AllocError>
    requires read { workqueues_of_text assigned.now.declared.table.names assigned.now.declared.partition
        texts.now.second ≡ Ok assigned.now.workqueues }
    requires hang { IfSome hops.now (λ walk. (steps : List Step) × IsHangOf (declared_waits assigned.now.declared)
        assigned.now.workqueues walk.items steps) }
    ensures { IfOk result (λ said. SaysWalk names.now.declaration.now texts.now.second assigned.now.declared
        assigned.now.workqueues (option_map (λ walk. walk.items) hops.now)
        (option_map (λ text. text.items) said)) }
{
    let declaration = Source {
        file: names.declaration,
        text: texts.first(),
    };
    let assignment = Source {
        file: names.second,
        text: texts.second(),
    };
    match hops {
        Some(hops) => {
            let said = say_hops(alloc, declaration, assignment, assigned, hops.as_slice())?;
            Ok(Some(said))
        }
        None => say_reason(alloc, declaration, assignment, assigned),
    }
}

/// What is said of this verdict on the workqueues in the second text.
fn say_verdict<A: Allocator + Copy>(
    alloc: A,
    names: &FileNames<'_>,
    assigned: &Assigned<'_, '_, A>,
    texts: &Texts<A>,
    verdict: &Verdict<A>,
) -> Result<Option<Vec<u8, A>>, AllocError>
    requires read { workqueues_of_text assigned.now.declared.table.names assigned.now.declared.partition
        texts.now.second ≡ Ok assigned.now.workqueues }
    requires hang { IfSome verdict.now.hops (λ walk. (steps : List Step)
        × IsHangOf (declared_waits assigned.now.declared) assigned.now.workqueues walk.items steps) }
    ensures { IfOk result (λ said. SaysVerdict names.now.declaration.now names.now.second.now texts.now.second
        assigned.now.declared assigned.now.workqueues (option_map (λ walk. walk.items) verdict.now.hops)
        verdict.now.end (option_map (λ text. text.items) said)) }
{
    match verdict.end {
        End::Bad => say_walk(alloc, names, assigned, texts, &verdict.hops),
        End::Good | End::Refused => {
            let assignment = Source {
                file: names.second,
                text: texts.second(),
            };
            say_safe(alloc, names.declaration, assignment, assigned)
        }
    }
}

/// What is said of what `deadlock` found.
fn say_deadlock<A: Allocator + Copy>(
    alloc: A,
    names: &FileNames<'_>,
    declared: &Declaration<'_, A>,
    texts: &Texts<A>,
    found: &Found<Verdict<A>>,
) -> Result<Option<Vec<u8, A>>, AllocError>
    requires { (end : End) × (out : List ℕ) × JudgesText declared.now texts.now.second found.now end out }
    ensures { IfOk result (λ said. SaysVerdictOf names.now.declaration.now names.now.second.now names.now.run.now
        declared.now texts.now found.now (option_map (λ text. text.items) said)) }
{
    match found {
        Found::Refused { which, code, line } => {
            let kind = CertificateKind::Assignment;
            say_refused_text(alloc, names, kind, declared, texts, *which, *code, *line)
        }
        Found::Read(verdict) => {
            let assigned = assigned_of(declared, &verdict.workqueues);
            say_verdict(alloc, names, &assigned, texts, verdict)
        }
    }
}

impl<A: Allocator + Copy> Voice<DeadlockCommand, A> for FileNames<'_> {
    ghost use Rattle.wq_voice.specs.Voice.{SaysVerdictOf};

    ghost says = { λ names _ s texts found said.
        SaysVerdictOf names.declaration.now names.second.now names.run.now s texts found said };

    fn say(
        &self,
        alloc: A,
        _seed: u64,
        _command: &DeadlockCommand,
        declared: &Declaration<'_, A>,
        texts: &Texts<A>,
        found: &Found<Verdict<A>>,
    ) -> Result<Option<Vec<u8, A>>, AllocError> {
        say_deadlock(alloc, self, declared, texts, found)
    }
}
