//! What is said beside `safe` about workqueues.
//!
//! A call takes the time and the memory of reading the names of the workqueues, and of the words; and time linear in
//! the number of items.

ghost use Rattle.std.specs.Prelude.{◌≡◌, IfOk, Ok, option_map};
ghost use Rattle.wq_cert.specs.Texts.{workqueues_of_text};
ghost use Rattle.wq_voice.specs.Note.{NotesBare};
ghost use Rattle.wq_voice.specs.Unsure.{NotesSafe, NotesSafeGroups};

use crate::note::{bare_items, of_items, placed_items};
use crate::unsure::{above, safe_note};
use std::alloc::{AllocError, Allocator};
use wq_core::Assigned;
use wq_diagnosis::{Source, of_no_item};
use wq_groups::Declaration;
use wq_names::workqueue_names;

/// What is said beside `safe` of groups, of which each has a workqueue of its own: that they are safe whatever the
/// unsure flushes turn out to be, if there are any; or what is said in this file of a declaration without an item.
pub(crate) fn say_safe_groups<A: Allocator + Copy>(
    alloc: A,
    declared: &Declaration<'_, A>,
    file: &str,
) -> Result<Option<Vec<u8, A>>, AllocError>
    ensures { IfOk result (λ said.
        NotesSafeGroups file.now declared.now (option_map (λ text. text.items) said)) }
{
    let said = of_no_item(alloc, declared, file)?;
    let note = safe_note(alloc, declared, file)?;
    above(note, said)
}

/// Which items are on workqueues without a rescuer; if there are none, what is said of a declaration without an item.
/// `assignment` is the text of the workqueues.
fn say_bare<A: Allocator + Copy>(
    alloc: A,
    file: &str,
    assignment: Source<'_>,
    assigned: &Assigned<'_, '_, A>,
) -> Result<Option<Vec<u8, A>>, AllocError>
    requires read { workqueues_of_text assigned.now.declared.table.names assigned.now.declared.partition
        assignment.text.now ≡ Ok assigned.now.workqueues }
    ensures { IfOk result (λ said. NotesBare file.now assignment.entry.file.now assignment.entry.text.now
        assigned.now.declared assigned.now.workqueues (option_map (λ text. text.items) said)) }
{
    let names = workqueue_names(alloc, assignment.text)?;
    let items = bare_items(alloc, assigned)?;
    let placed = placed_items(alloc, assigned, &names, &items)?;
    of_items(alloc, assigned.declared, file, assignment.file, &placed)
}

/// What is said beside `safe`: which items are on workqueues without a rescuer; if there are none, what is said of a
/// declaration without an item. If some flushes are unsure, a line above says that the workqueues are safe whatever
/// these turn out to be. `assignment` is the text of the workqueues.
///
/// The only error is out of memory (20).
pub fn say_safe<A: Allocator + Copy>(
    alloc: A,
    file: &str,
    assignment: Source<'_>,
    assigned: &Assigned<'_, '_, A>,
) -> Result<Option<Vec<u8, A>>, AllocError>
    requires read { workqueues_of_text assigned.now.declared.table.names assigned.now.declared.partition
        assignment.text.now ≡ Ok assigned.now.workqueues }
    ensures { IfOk result (λ said. NotesSafe file.now assignment.entry.file.now assignment.entry.text.now
        assigned.now.declared assigned.now.workqueues (option_map (λ text. text.items) said)) }
{
    let said = say_bare(alloc, file, assignment, assigned)?;
    let note = safe_note(alloc, assigned.declared, file)?;
    above(note, said)
}
