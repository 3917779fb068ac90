//! What is said of what can be done about workqueues: beside a repair its changes, and else why no change is made or
//! helps.
//!
//! The form is that of "Changes" in docs/FORMAT.md. A call takes the time and the memory of what is said: for each of
//! the first changes, and for workqueues that hang, that of a search for a shortest run.

ghost use Rattle.std.specs.Prelude.{◌≡◌, ◌≤◌, ℕ, IfOk, List, None, Ok, length, option_map};
ghost use Rattle.wq_text.specs.Limits.{limit_fault};
ghost use Rattle.wq_cert.specs.Texts.{max_certificate, max_certificate_line, workqueues_of_text};
ghost use Rattle.wq_names.specs.Names.{names_of};
ghost use Rattle.wq_repair.specs.Repair.{IsAnswer};
ghost use Rattle.wq_groups.specs.DeclaredGroups.{declared_waits};
ghost use Rattle.wq_changes.specs.Few.{TellsFew};
ghost use Rattle.wq_changes.specs.Told.{TellsChanges};
ghost use Rattle.wq_changes.specs.Voice.{SaysAnswer};

use crate::circle::of_circle;
use crate::few::of_few;
use crate::places::Places;
use crate::telling::{Repair, of_changes};
use std::alloc::{AllocError, Allocator};
use wq_core::{Assigned, Workqueues};
use wq_diagnosis::Source;
use wq_names::workqueue_names;
use wq_repair::Answer;
use wq_voice::{FlushLines, say_safe};

/// What is said of the changes from the old workqueues, which are those in the text of the assignment, to the new ones.
fn of_repaired<'a, A: Allocator + Copy>(
    alloc: A,
    declaration: Source<'a>,
    assignment: Source<'a>,
    old: &Assigned<'_, 'a, A>,
    new: &Workqueues<A>,
) -> Result<Vec<u8, A>, AllocError>
    requires read { workqueues_of_text old.now.declared.table.names old.now.declared.partition assignment.text.now
        ≡ Ok old.now.workqueues }
    requires new { length new.now.assignment.lane_of_group ≡ old.now.declared.partition.groups }
    requires lanes { old.now.workqueues.assignment.lanes ≤ new.now.assignment.lanes }
    ensures { IfOk result (λ text. TellsChanges declaration.entry.file.now assignment.entry.file.now
        old.now.declared (names_of assignment.entry.text.now) old.now.workqueues new.now text.items) }
{
    let names = workqueue_names(alloc, assignment.text)?;
    let flushes = FlushLines::new(alloc, declaration.text)?;
    let places = Places::new(alloc, old.table(), assignment.text)?;
    let repair = Repair {
        declaration,
        assignment,
        old,
        new,
        flushes: &flushes,
        places: &places,
        names: &names,
    };
    of_changes(alloc, &repair)
}

/// What is said, if too few items may move, of the workqueues on which they hang. The names of the workqueues are in
/// the text of the assignment.
fn of_start<'a, A: Allocator + Copy>(
    alloc: A,
    declaration: Source<'a>,
    assignment: Source<'a>,
    start: &Assigned<'_, 'a, A>,
) -> Result<Vec<u8, A>, AllocError>
    requires { limit_fault max_certificate max_certificate_line assignment.text.now ≡ None }
    ensures { IfOk result (λ text. TellsFew declaration.entry.file.now assignment.entry.file.now
        start.now.declared (names_of assignment.entry.text.now) start.now.workqueues text.items) }
{
    let names = workqueue_names(alloc, assignment.text)?;
    of_few(alloc, declaration, assignment, start, &names)
}

/// What is said of this answer to the workqueues with the text of the assignment.
pub(crate) fn say_answer<'a, A: Allocator + Copy>(
    alloc: A,
    declaration: Source<'a>,
    assignment: Source<'a>,
    assigned: &Assigned<'_, 'a, A>,
    answer: &Answer<A>,
) -> Result<Option<Vec<u8, A>>, AllocError>
    requires read { workqueues_of_text assigned.now.declared.table.names assigned.now.declared.partition
        assignment.text.now ≡ Ok assigned.now.workqueues }
    requires answer { (moving : List ℕ)
        × IsAnswer (declared_waits assigned.now.declared) assigned.now.workqueues moving answer.now }
    ensures { IfOk result (λ said. SaysAnswer declaration.entry.file.now assignment.entry.file.now
        assignment.entry.text.now assigned.now.declared assigned.now.workqueues answer.now
        (option_map (λ text. text.items) said)) }
{
    // What holds of what is declared.
    let _table = assigned.table();
    match answer {
        Answer::Safe => say_safe(alloc, declaration.file, assignment, assigned),
        Answer::Repaired(new) => {
            let said = of_repaired(alloc, declaration, assignment, assigned, new)?;
            Ok(Some(said))
        }
        Answer::TooFewNames(start, _) => {
            let start = Assigned::new(assigned.declared, start);
            let said = of_start(alloc, declaration, assignment, &start)?;
            Ok(Some(said))
        }
        Answer::Circle(arcs) => {
            let said = of_circle(alloc, declaration, assigned.declared, arcs)?;
            Ok(Some(said))
        }
    }
}
