//! What is said of changes: for each in turn what is changed, and for the first ones how the workqueues hang without
//! it.
//!
//! The form is that of "Changes" in docs/FORMAT.md. A call takes the time of a search for a shortest run for each of
//! the first changes.

ghost use Rattle.std.specs.Prelude.{◌≡◌, ◌≤◌, [], ◌∷◌, IfOk, length, map, option_map, unwrap_or};
ghost use Rattle.std.specs.List.{All};
ghost use Rattle.wq_diagnosis.specs.Diagnosis.{shown_lines};
ghost use Rattle.wq_voice.specs.Reasons.{plain_head};
ghost use Rattle.wq_changes.specs.Changes.{IsOf};
ghost use Rattle.wq_changes.specs.Told.{AddsEach, AreEach, GivesWhy, IsTold, IsToldWhy, TellsChanges, most_reasons};

use crate::change::{Change, changes};
use crate::places::Places;
use crate::without::without_change;
use crate::words::{change_words, lead_of};
use std::alloc::{AllocError, Allocator};
use wq_core::{Assigned, Workqueues};
use wq_diagnosis::{Source, place_words, put_line};
use wq_names::messages;
use wq_text::put;
use wq_voice::{FlushLines, Subject, Wording, of_subject};

/// For how many changes it is said, at most, why they are needed, if this many items are declared: each reason takes a
/// search for a shortest run.
fn most_reasons(items: u16) -> usize
    ensures { result ≡ most_reasons items }
{
    if items > 512 { 1 } else { 10 }
}

/// Workqueues that are repaired, and the texts that say so.
#[derive(Clone, Copy)]
pub(crate) struct Repair<'a, 's, 't, A: Allocator> {
    /// The text of the declaration.
    pub(crate) declaration: Source<'a>,
    /// The text of the old workqueues.
    pub(crate) assignment: Source<'a>,
    /// What is declared, and the old workqueues.
    pub(crate) old: &'s Assigned<'t, 'a, A>,
    /// The new ones.
    pub(crate) new: &'s Workqueues<A>,
    /// Where the flushes are declared.
    pub(crate) flushes: &'s FlushLines<'a, A>,
    /// Where the old workqueues and their items are.
    pub(crate) places: &'s Places<A>,
    /// The old workqueues' names.
    pub(crate) names: &'s [&'a [u8]],
}

/// One line that says this of a place in a file.
fn line_at<A: Allocator + Copy>(
    alloc: A,
    file: &str,
    place: &[u32],
    what: &[u8],
) -> Result<Vec<u8, A>, AllocError>
    ensures { IfOk result (λ text. text.items ≡ shown_lines (plain_head file.now place.now what.now ∷ [])) }
{
    let place = place_words(alloc, place)?;
    let line = messages::at_place(alloc, file.as_bytes(), &place, what)?;
    let mut text = Vec::new(alloc);
    put_line(&mut text, &line)?;
    Ok(text)
}

/// What is changed.
fn told<A: Allocator + Copy>(
    alloc: A,
    repair: &Repair<'_, '_, '_, A>,
    change: &Change,
) -> Result<Vec<u8, A>, AllocError>
    requires change { IsOf repair.now.old.now.declared.partition.groups change.now }
    requires new { length repair.now.new.now.assignment.lane_of_group ≡ repair.now.old.now.declared.partition.groups }
    ensures { IfOk result (λ text. IsTold repair.now.assignment.file.now
        repair.now.old.now.declared (map (λ n. n.now) repair.now.names.now) repair.now.old.now.workqueues
        repair.now.new.now change.now text.items) }
{
    let Repair {
        assignment,
        old,
        new,
        places,
        names,
        ..
    } = *repair;
    let what = change_words(alloc, names, old, new, change)?;
    let place = places.of_change(old.declared, change);
    line_at(alloc, assignment.file, &[place.line, place.column], &what)
}

/// The text that is given, or an empty one.
fn or_nothing<A: Allocator>(alloc: A, said: Option<Vec<u8, A>>) -> Vec<u8, A>
    ensures { result.items ≡ unwrap_or (option_map (λ s. s.items) said) [] }
{
    match said {
        Some(said) => said,
        None => Vec::new(alloc),
    }
}

/// How the workqueues hang without a change.
fn why<A: Allocator + Copy>(
    alloc: A,
    repair: &Repair<'_, '_, '_, A>,
    change: &Change,
) -> Result<Vec<u8, A>, AllocError>
    requires new { length repair.now.new.now.assignment.lane_of_group ≡ repair.now.old.now.declared.partition.groups }
    requires lanes { repair.now.old.now.workqueues.assignment.lanes ≤ repair.now.new.now.assignment.lanes }
    ensures { IfOk result (λ text. GivesWhy repair.now.declaration.file.now
        repair.now.old.now.declared (map (λ n. n.now) repair.now.names.now) repair.now.old.now.workqueues
        repair.now.new.now change.now text.items) }
{
    let old = repair.old;
    let groups = old.groups().len();
    let workqueues = without_change(alloc, old.workqueues(), repair.new, change, groups)?;
    let assigned = Assigned::new(old.declared, &workqueues);
    let subject = Subject {
        declaration: repair.declaration,
        assignment: repair.assignment,
        wording: Wording::OnWorkqueues,
        assigned: &assigned,
        flushes: repair.flushes,
        names: repair.names,
    };
    let said = of_subject(alloc, &subject, &lead_of(change))?;
    Ok(or_nothing(alloc, said))
}

/// What is changed, and how the workqueues hang without it.
fn told_why<A: Allocator + Copy>(
    alloc: A,
    repair: &Repair<'_, '_, '_, A>,
    change: &Change,
) -> Result<Vec<u8, A>, AllocError>
    requires change { IsOf repair.now.old.now.declared.partition.groups change.now }
    requires new { length repair.now.new.now.assignment.lane_of_group ≡ repair.now.old.now.declared.partition.groups }
    requires lanes { repair.now.old.now.workqueues.assignment.lanes ≤ repair.now.new.now.assignment.lanes }
    ensures { IfOk result (λ text. IsToldWhy repair.now.declaration.file.now repair.now.assignment.file.now
        repair.now.old.now.declared (map (λ n. n.now) repair.now.names.now) repair.now.old.now.workqueues
        repair.now.new.now change.now text.items) }
{
    let why = why(alloc, repair, change)?;
    let mut text = told(alloc, repair, change)?;
    put(&mut text, &why)?;
    Ok(text)
}

/// Why each of these changes is needed.
fn all_whys<A: Allocator + Copy>(
    alloc: A,
    repair: &Repair<'_, '_, '_, A>,
    changes: &[Change],
) -> Result<Vec<u8, A>, AllocError>
    requires changes { All (IsOf repair.now.old.now.declared.partition.groups) changes.now }
    requires new { length repair.now.new.now.assignment.lane_of_group ≡ repair.now.old.now.declared.partition.groups }
    requires lanes { repair.now.old.now.workqueues.assignment.lanes ≤ repair.now.new.now.assignment.lanes }
    ensures { IfOk result (λ text. AreEach (IsToldWhy repair.now.declaration.file.now repair.now.assignment.file.now
        repair.now.old.now.declared (map (λ n. n.now) repair.now.names.now) repair.now.old.now.workqueues
        repair.now.new.now) changes.now text.items) }
{
    let mut text = Vec::new(alloc);
    for change in changes {
        let one = told_why(alloc, repair, change)?;
        put(&mut text, &one)?;
    }
    Ok(text)
}

/// A text, and behind it what each of these changes is.
fn with_all_told<A: Allocator + Copy>(
    alloc: A,
    repair: &Repair<'_, '_, '_, A>,
    changes: &[Change],
    mut text: Vec<u8, A>,
) -> Result<Vec<u8, A>, AllocError>
    requires changes { All (IsOf repair.now.old.now.declared.partition.groups) changes.now }
    requires new { length repair.now.new.now.assignment.lane_of_group ≡ repair.now.old.now.declared.partition.groups }
    ensures { IfOk result (λ all. AddsEach (IsTold repair.now.assignment.file.now
        repair.now.old.now.declared (map (λ n. n.now) repair.now.names.now) repair.now.old.now.workqueues
        repair.now.new.now) changes.now
        text.items all.items) }
{
    for change in changes {
        let one = told(alloc, repair, change)?;
        put(&mut text, &one)?;
    }
    Ok(text)
}

/// What is said of the changes from the old workqueues to the new ones.
pub(crate) fn of_changes<A: Allocator + Copy>(
    alloc: A,
    repair: &Repair<'_, '_, '_, A>,
) -> Result<Vec<u8, A>, AllocError>
    requires new { length repair.now.new.now.assignment.lane_of_group ≡ repair.now.old.now.declared.partition.groups }
    requires lanes { repair.now.old.now.workqueues.assignment.lanes ≤ repair.now.new.now.assignment.lanes }
    ensures { IfOk result (λ text. TellsChanges repair.now.declaration.file.now repair.now.assignment.file.now
        repair.now.old.now.declared (map (λ n. n.now) repair.now.names.now) repair.now.old.now.workqueues
        repair.now.new.now text.items) }
{
    let old = repair.old;
    let groups = old.groups().len();
    let all = changes(alloc, old.workqueues(), repair.new, groups)?;
    let list = all.as_slice();
    let items = old.table().len();
    let (first, others) = list.split_at(list.len().min(most_reasons(items)));
    let whys = all_whys(alloc, repair, first)?;
    let text = with_all_told(alloc, repair, others, whys)?;
    Ok(text)
}
