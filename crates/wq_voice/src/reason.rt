//! How workqueues can hang: the waits of a walk whose run is a shortest of all that end stuck.
//!
//! The rule is that of "Reasons" in docs/FORMAT.md. A call takes the time and the memory of the words and, if the walk
//! isn't given, of the search for it.

ghost use Rattle.std.specs.Prelude.{◌≡◌, IfOk, List, Ok, map, option_map};
ghost use Rattle.wq_core.specs.declared.step.Step.{Step};
ghost use Rattle.wq_hang.specs.Answer.{IsAnswer, IsHangOf};
ghost use Rattle.wq_cert.specs.Texts.{workqueues_of_text};
ghost use Rattle.wq_names.specs.Names.{names_of};
ghost use Rattle.wq_groups.specs.DeclaredGroups.{declared_waits};
ghost use Rattle.wq_voice.specs.Reasons.{can_hang_lead, told, AreSaid, GivesReason, GivesReasonOf, GivesReasonOfGroups};
ghost use Rattle.wq_voice.specs.Reasons.{GivesReasonOn};
ghost use Rattle.wq_voice.specs.Unsure.{TellsHang};
ghost use Rattle.wq_voice.specs.Waits.{words_of};
ghost use Rattle.wq_voice.specs.declared.waits.Wording.TheVariants.{OnWorkqueues};

use crate::flush_lines::FlushLines;
use crate::lead::Lead;
use crate::subject::{Subject, put_walk};
use crate::unsure::of_hang;
use crate::waits::Wording;
use std::alloc::{AllocError, Allocator};
use wq_cert::CertError;
use wq_commands::{own_workqueues, workqueues_of};
use wq_core::Assigned;
use wq_diagnosis::Source;
use wq_groups::Declaration;
use wq_hang::{Answer, Hop, hang};
use wq_names::workqueue_names;
use wq_text::put;

/// What is said of the waits by which these workqueues hang.
fn of_hops<A: Allocator + Copy>(
    alloc: A,
    subject: &Subject<'_, '_, '_, A>,
    lead: &Lead,
    hops: &[Hop],
) -> Result<Vec<u8, A>, AllocError>
    requires hang { (steps : List Step)
        × IsHangOf (declared_waits subject.now.assigned.now.declared) subject.now.assigned.now.workqueues hops.now
        steps }
    ensures { IfOk result (λ said. AreSaid subject.now.declaration.file.now (told lead.now
        (λ h. words_of subject.now.wording subject.now.assigned.now.declared subject.now.assigned.now.workqueues
        (map (λ n. n.now) subject.now.names.now) h) hops.now) said.items) }
{
    // What holds of what is declared.
    let _table = subject.assigned.table();
    let mut said = Vec::new(alloc);
    put_walk(alloc, &mut said, subject, lead, hops)?;
    Ok(said)
}

/// What is said of this answer; nothing if no run ends stuck.
fn of_answer<A: Allocator + Copy>(
    alloc: A,
    subject: &Subject<'_, '_, '_, A>,
    lead: &Lead,
    answer: &Answer<A>,
) -> Result<Option<Vec<u8, A>>, AllocError>
    requires answer { IsAnswer
        (declared_waits subject.now.assigned.now.declared) subject.now.assigned.now.workqueues
        answer.now }
    ensures { IfOk result (λ said.
        GivesReason subject.now.declaration.file.now lead.now (λ h. words_of subject.now.wording
        subject.now.assigned.now.declared subject.now.assigned.now.workqueues (map (λ n. n.now) subject.now.names.now)
        h) (declared_waits subject.now.assigned.now.declared) subject.now.assigned.now.workqueues
        (option_map (λ text. text.items) said)) }
{
    match answer {
        Answer::Safe => Ok(None),
        Answer::Hang(hops, _) => {
            let said = of_hops(alloc, subject, lead, hops)?;
            Ok(Some(said))
        }
    }
}

/// How these workqueues hang soonest; nothing if they can't.
pub fn of_subject<A: Allocator + Copy>(
    alloc: A,
    subject: &Subject<'_, '_, '_, A>,
    lead: &Lead,
) -> Result<Option<Vec<u8, A>>, AllocError>
    ensures { IfOk result (λ said.
        GivesReason subject.now.declaration.file.now lead.now (λ h. words_of subject.now.wording
        subject.now.assigned.now.declared subject.now.assigned.now.workqueues (map (λ n. n.now) subject.now.names.now)
        h) (declared_waits subject.now.assigned.now.declared) subject.now.assigned.now.workqueues
        (option_map (λ text. text.items) said)) }
{
    let answer = hang(alloc, subject.assigned)?;
    of_answer(alloc, subject, lead, &answer)
}

/// How these workqueues hang by these waits, and which unsure flushes matter. `assignment` is the text of the
/// workqueues.
///
/// The only error is out of memory (20).
pub fn say_hops<'a, A: Allocator + Copy>(
    alloc: A,
    declaration: Source<'a>,
    assignment: Source<'a>,
    assigned: &Assigned<'_, 'a, A>,
    hops: &[Hop],
) -> Result<Vec<u8, A>, AllocError>
    requires read { workqueues_of_text assigned.now.declared.table.names assigned.now.declared.partition
        assignment.text.now ≡ Ok assigned.now.workqueues }
    requires hang { (steps : List Step) × IsHangOf (declared_waits assigned.now.declared) assigned.now.workqueues
        hops.now steps }
    ensures { IfOk result (λ said. TellsHang declaration.entry.file.now (λ h. words_of OnWorkqueues
        assigned.now.declared assigned.now.workqueues (names_of assignment.entry.text.now) h)
        assigned.now.declared assigned.now.workqueues hops.now said.items) }
{
    let names = workqueue_names(alloc, assignment.text)?;
    let flushes = FlushLines::new(alloc, declaration.text)?;
    let subject = Subject {
        declaration,
        assignment,
        wording: Wording::OnWorkqueues,
        assigned,
        flushes: &flushes,
        names: &names,
    };
    let mut said = of_hops(alloc, &subject, &Lead::can_hang(), hops)?;
    let notes = of_hang(alloc, &subject, hops)?;
    put(&mut said, &notes)?;
    Ok(said)
}

/// How these workqueues hang soonest; nothing if they can't. `assignment` is their text.
pub(crate) fn say_reason<'a, A: Allocator + Copy>(
    alloc: A,
    declaration: Source<'a>,
    assignment: Source<'a>,
    assigned: &Assigned<'_, 'a, A>,
) -> Result<Option<Vec<u8, A>>, AllocError>
    requires read { workqueues_of_text assigned.now.declared.table.names assigned.now.declared.partition
        assignment.text.now ≡ Ok assigned.now.workqueues }
    ensures { IfOk result (λ said. GivesReasonOn declaration.entry.file.now assignment.entry.text.now
        assigned.now.declared assigned.now.workqueues (option_map (λ text. text.items) said)) }
{
    let names = workqueue_names(alloc, assignment.text)?;
    let flushes = FlushLines::new(alloc, declaration.text)?;
    let subject = Subject {
        declaration,
        assignment,
        wording: Wording::OnWorkqueues,
        assigned,
        flushes: &flushes,
        names: &names,
    };
    of_subject(alloc, &subject, &Lead::can_hang())
}

/// How the workqueues with this text hang soonest; nothing if they can't, or if the text is refused.
pub(crate) fn of_declared<'a, A: Allocator + Copy>(
    alloc: A,
    declaration: Source<'a>,
    assignment: Source<'a>,
    declared: &Declaration<'a, A>,
) -> Result<Option<Vec<u8, A>>, AllocError>
    ensures { IfOk result (λ said. GivesReasonOf declaration.entry.file.now assignment.entry.text.now
        declared.now (option_map (λ text. text.items) said)) }
{
    match workqueues_of(alloc, declared, assignment.text) {
        Ok(workqueues) => {
            let assigned = Assigned::new(declared, &workqueues);
            say_reason(alloc, declaration, assignment, &assigned)
        }
        Err(CertError::OutOfMemory) => Err(AllocError),
        Err(_) => Ok(None),
    }
}

/// How these groups hang soonest if each has a workqueue of its own; nothing if they can't.
pub(crate) fn of_groups<'a, A: Allocator + Copy>(
    alloc: A,
    declaration: Source<'a>,
    declared: &Declaration<'a, A>,
) -> Result<Option<Vec<u8, A>>, AllocError>
    ensures { IfOk result (λ said. GivesReasonOfGroups declaration.entry.file.now
        declared.now (option_map (λ text. text.items) said)) }
{
    let workqueues = own_workqueues(alloc, declared)?;
    let assigned = Assigned::new(declared, &workqueues);
    let flushes = FlushLines::new(alloc, declaration.text)?;
    let subject = Subject {
        declaration,
        assignment: Source {
            file: "",
            text: b"",
        },
        wording: Wording::OfGroups,
        assigned: &assigned,
        flushes: &flushes,
        names: &[],
    };
    of_subject(alloc, &subject, &Lead::can_hang_on_any())
}
