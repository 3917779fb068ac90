//! What is said of items that must go on: by which waits one of them is held up; or, beside `safe`, that nothing on
//! their workqueues waits, and that other items can hang.
//!
//! The words are those of "Who is held up" in docs/MESSAGES.md. A call takes the time and the memory of the words; if
//! unsure flushes may make no difference, that of finding all that can hold the items up; and beside `safe` that of the
//! search for a shortest hang.

ghost use Rattle.std.specs.Prelude.{◌≡◌, ◌∷◌, ◌++◌, ◌<◌, [], ℕ, List, IfOk, Ok, length, map, option_map};
ghost use Rattle.std.specs.List.{All, range_with_len};
ghost use Rattle.wq_items.specs.Readings.{is_among};
ghost use Rattle.wq_core.specs.declared.step.Step.{Step};
ghost use Rattle.wq_cert.specs.Part.{has_unsure};
ghost use Rattle.wq_cert.specs.Texts.{workqueues_of_text};
ghost use Rattle.wq_groups.specs.DeclaredGroups.{declared_waits};
ghost use Rattle.wq_hang.specs.AnswerFor.{IsAnswerFor, IsHeldBy};
ghost use Rattle.wq_names.specs.Messages.{held_bare, nothing_flushes_on_these, to_what_is_named};
ghost use Rattle.wq_names.specs.Names.{names_of};
ghost use Rattle.wq_diagnosis.specs.Diagnosis.{shown_lines};
ghost use Rattle.wq_diagnosis.specs.Words.{item_words, workqueue_of};
ghost use Rattle.wq_voice.specs.Held.{AreHeldNotes, AreNotesFor, GivesHeld, MakeNoDifferenceTo, NotesNotHeld};
ghost use Rattle.wq_voice.specs.Held.{NotesOthers, TellsHeld, TellsWalk, behind_rest, behind_words, below};
ghost use Rattle.wq_voice.specs.Held.{flushing_items, held_words, no_flush_note, no_flush_words, rest_of_bare};
ghost use Rattle.wq_voice.specs.Held.{rest_of_behind, rest_of_next, rest_of_whole, rest_words, waits_for_it};
ghost use Rattle.wq_voice.specs.Held.{waits_words, without_flushes};
ghost use Rattle.wq_voice.specs.Note.{listed};
ghost use Rattle.wq_voice.specs.Reasons.{IsSaidOf};
ghost use Rattle.wq_voice.specs.Unsure.{IsNoDifference};
ghost use Rattle.wq_voice.specs.Waits.{home_words};
ghost use Rattle.wq_voice.specs.declared.waits.Wording.TheVariants.{OnWorkqueues};

use crate::block::{Spot, said_at};
use crate::flush_lines::FlushLines;
use crate::note::listed;
use crate::safe::say_safe;
use crate::subject::{Subject, put_first, put_further};
use crate::unsure::{line_of, of_idle, sure_note, undecided_note};
use crate::waits::{Wording, home_words};
use std::alloc::{AllocError, Allocator};
use wq_cert::has_unsure;
use wq_circles::{HeldCircles, held_circles};
use wq_core::Assigned;
use wq_deadlock::is_on_bare;
use wq_diagnosis::{Source, item_words, workqueue_of};
use wq_hang::{Answer, Held, Hop, hang, held_up, needed_places};
use wq_items::ItemId;
use wq_names::{messages, workqueue_names};
use wq_text::put;

/// For what an item waits that is on a workqueue without a rescuer, behind words that name it.
fn rest_of_bare<A: Allocator + Copy>(
    alloc: A,
    assigned: &Assigned<'_, '_, A>,
    names: &[&[u8]],
    hop: &Hop,
) -> Result<Vec<u8, A>, AllocError>
    requires target { hop.now.flush.item < length assigned.now.declared.partition.group_of }
    ensures { IfOk result (λ words. words.items
        ≡ rest_of_bare assigned.now.declared assigned.now.workqueues (map (λ n. n.now) names.now) hop.now) }
{
    let target = item_words(alloc, assigned.declared, hop.flush.item)?;
    let other = home_words(alloc, assigned, names, hop.flush.item)?;
    if hop.flush.whole {
        messages::rest_all_of_bare(alloc, &target, &other)
    } else {
        messages::rest_bare(alloc, &target, &other)
    }
}

/// That an item waits for a whole workqueue, behind words that name it.
fn rest_of_whole<A: Allocator + Copy>(
    alloc: A,
    assigned: &Assigned<'_, '_, A>,
    names: &[&[u8]],
    hop: &Hop,
) -> Result<Vec<u8, A>, AllocError>
    requires target { hop.now.flush.item < length assigned.now.declared.partition.group_of }
    ensures { IfOk result (λ words. words.items
        ≡ rest_of_whole assigned.now.declared assigned.now.workqueues (map (λ n. n.now) names.now) hop.now) }
{
    if hop.next == hop.item {
        return Vec::from_slice(alloc, messages::REST_ALL_OF_ITS_OWN);
    }
    let other = home_words(alloc, assigned, names, hop.flush.item)?;
    let next = item_words(alloc, assigned.declared, hop.next)?;
    messages::rest_all(alloc, &other, &next)
}

/// That an item waits for the one that waits next, behind words that name it.
fn rest_of_next<A: Allocator + Copy>(
    alloc: A,
    assigned: &Assigned<'_, '_, A>,
    names: &[&[u8]],
    hop: &Hop,
) -> Result<Vec<u8, A>, AllocError>
    requires target { hop.now.flush.item < length assigned.now.declared.partition.group_of }
    ensures { IfOk result (λ words. words.items
        ≡ rest_of_next assigned.now.declared assigned.now.workqueues (map (λ n. n.now) names.now) hop.now) }
{
    if hop.next == hop.item {
        return Vec::from_slice(alloc, messages::REST_ITSELF);
    }
    let target = item_words(alloc, assigned.declared, hop.flush.item)?;
    let other = home_words(alloc, assigned, names, hop.flush.item)?;
    messages::rest_next(alloc, &target, &other)
}

/// That an item waits for one behind the one that waits next, behind words that name it.
fn rest_of_behind<A: Allocator + Copy>(
    alloc: A,
    assigned: &Assigned<'_, '_, A>,
    names: &[&[u8]],
    hop: &Hop,
) -> Result<Vec<u8, A>, AllocError>
    requires target { hop.now.flush.item < length assigned.now.declared.partition.group_of }
    ensures { IfOk result (λ words. words.items
        ≡ rest_of_behind assigned.now.declared assigned.now.workqueues (map (λ n. n.now) names.now) hop.now) }
{
    let target = item_words(alloc, assigned.declared, hop.flush.item)?;
    if hop.next == hop.item {
        return messages::rest_behind_it(alloc, &target);
    }
    let other = home_words(alloc, assigned, names, hop.flush.item)?;
    let next = item_words(alloc, assigned.declared, hop.next)?;
    messages::rest_behind(alloc, &target, &next, &other)
}

/// For what an item waits, behind words that name it.
fn rest_words<A: Allocator + Copy>(
    alloc: A,
    assigned: &Assigned<'_, '_, A>,
    names: &[&[u8]],
    hop: &Hop,
) -> Result<Vec<u8, A>, AllocError>
    requires target { hop.now.flush.item < length assigned.now.declared.partition.group_of }
    ensures { IfOk result (λ words. words.items
        ≡ rest_words assigned.now.declared assigned.now.workqueues (map (λ n. n.now) names.now) hop.now) }
{
    if is_on_bare(assigned, hop.flush.item) {
        rest_of_bare(alloc, assigned, names, hop)
    } else if hop.flush.whole {
        rest_of_whole(alloc, assigned, names, hop)
    } else if hop.flush.item == hop.next {
        rest_of_next(alloc, assigned, names, hop)
    } else {
        rest_of_behind(alloc, assigned, names, hop)
    }
}

/// Whether an item waits for this one alone, which is on a workqueue with a rescuer.
fn waits_for_it<A: Allocator + Copy>(
    assigned: &Assigned<'_, '_, A>,
    item: ItemId,
    hop: &Hop,
) -> bool
    requires target { hop.now.flush.item < length assigned.now.declared.partition.group_of }
    ensures { result ≡ waits_for_it assigned.now.declared assigned.now.workqueues item hop.now }
{
    !hop.flush.whole && hop.flush.item == item && !is_on_bare(assigned, hop.flush.item)
}

/// That an item waits itself, and is held up.
fn waits_words<A: Allocator + Copy>(
    alloc: A,
    assigned: &Assigned<'_, '_, A>,
    names: &[&[u8]],
    hop: &Hop,
) -> Result<Vec<u8, A>, AllocError>
    requires item { hop.now.item < length assigned.now.declared.partition.group_of }
    requires target { hop.now.flush.item < length assigned.now.declared.partition.group_of }
    ensures { IfOk result (λ words. words.items
        ≡ waits_words assigned.now.declared assigned.now.workqueues (map (λ n. n.now) names.now) hop.now) }
{
    let item = item_words(alloc, assigned.declared, hop.item)?;
    let workqueue = home_words(alloc, assigned, names, hop.item)?;
    let rest = rest_words(alloc, assigned, names, hop)?;
    if hop.flush.unsure {
        messages::held_on_if(alloc, &item, &workqueue, &rest)
    } else {
        messages::held_on(alloc, &item, &workqueue, &rest)
    }
}

/// For what the first that waits does, behind words that an item is behind it.
fn behind_rest<A: Allocator + Copy>(
    alloc: A,
    assigned: &Assigned<'_, '_, A>,
    names: &[&[u8]],
    item: ItemId,
    hop: &Hop,
) -> Result<Vec<u8, A>, AllocError>
    requires target { hop.now.flush.item < length assigned.now.declared.partition.group_of }
    ensures { IfOk result (λ words. words.items
        ≡ behind_rest assigned.now.declared assigned.now.workqueues (map (λ n. n.now) names.now) item hop.now) }
{
    if waits_for_it(assigned, item, hop) {
        Vec::from_slice(alloc, messages::REST_FOR_IT)
    } else {
        rest_words(alloc, assigned, names, hop)
    }
}

/// That an item is held up behind the one that waits.
fn behind_words<A: Allocator + Copy>(
    alloc: A,
    assigned: &Assigned<'_, '_, A>,
    names: &[&[u8]],
    item: ItemId,
    hop: &Hop,
) -> Result<Vec<u8, A>, AllocError>
    requires item { item < length assigned.now.declared.partition.group_of }
    requires target { hop.now.flush.item < length assigned.now.declared.partition.group_of }
    ensures { IfOk result (λ words. words.items
        ≡ behind_words assigned.now.declared assigned.now.workqueues (map (λ n. n.now) names.now) item hop.now) }
{
    let words = item_words(alloc, assigned.declared, item)?;
    let first = item_words(alloc, assigned.declared, hop.item)?;
    let workqueue = home_words(alloc, assigned, names, item)?;
    let rest = behind_rest(alloc, assigned, names, item, hop)?;
    if hop.flush.unsure {
        messages::held_behind_if(alloc, &words, &first, &workqueue, &rest)
    } else {
        messages::held_behind(alloc, &words, &first, &workqueue, &rest)
    }
}

/// That an item is held up: it waits itself, or is behind the first that waits.
fn held_words<A: Allocator + Copy>(
    alloc: A,
    assigned: &Assigned<'_, '_, A>,
    names: &[&[u8]],
    item: ItemId,
    hop: &Hop,
) -> Result<Vec<u8, A>, AllocError>
    requires item { item < length assigned.now.declared.partition.group_of }
    requires first { hop.now.item < length assigned.now.declared.partition.group_of }
    requires target { hop.now.flush.item < length assigned.now.declared.partition.group_of }
    ensures { IfOk result (λ words. words.items
        ≡ held_words assigned.now.declared assigned.now.workqueues (map (λ n. n.now) names.now) item hop.now) }
{
    if hop.item == item {
        waits_words(alloc, assigned, names, hop)
    } else {
        behind_words(alloc, assigned, names, item, hop)
    }
}

/// That an item is on a workqueue without a rescuer.
fn bare_words<A: Allocator + Copy>(
    alloc: A,
    assigned: &Assigned<'_, '_, A>,
    names: &[&[u8]],
    item: ItemId,
) -> Result<Vec<u8, A>, AllocError>
    requires item { item < length assigned.now.declared.partition.group_of }
    ensures { IfOk result (λ words. words.items ≡ held_bare (item_words assigned.now.declared item)
        (home_words assigned.now.declared assigned.now.workqueues (map (λ n. n.now) names.now) item)) }
{
    let words = item_words(alloc, assigned.declared, item)?;
    let workqueue = home_words(alloc, assigned, names, item)?;
    messages::held_bare(alloc, &words, &workqueue)
}

/// That an item is on a workqueue without a rescuer, and the line of this workqueue.
fn bare_block<A: Allocator + Copy>(
    alloc: A,
    subject: &Subject<'_, '_, '_, A>,
    item: ItemId,
) -> Result<Vec<u8, A>, AllocError>
    requires item { item < length subject.now.assigned.now.declared.partition.group_of }
    ensures { IfOk result (λ said. IsSaidOf subject.now.assignment.file.now
        (held_bare (item_words subject.now.assigned.now.declared item)
        (home_words subject.now.assigned.now.declared subject.now.assigned.now.workqueues
        (map (λ n. n.now) subject.now.names.now) item)) said.items) }
{
    let Subject {
        assignment,
        assigned,
        names,
        ..
    } = *subject;
    let what = bare_words(alloc, assigned, names, item)?;
    let spot = Spot::of_workqueue(assignment.text, workqueue_of(assigned, item));
    let mut lines = Vec::new(alloc);
    spot.push(alloc, &mut lines)?;
    said_at(
        alloc,
        assignment.file,
        spot.line,
        spot.column,
        &what,
        &lines,
    )
}

/// What is said of the waits of a walk that holds up an item; without a wait, that its workqueue has no rescuer.
fn of_walk<A: Allocator + Copy>(
    alloc: A,
    subject: &Subject<'_, '_, '_, A>,
    item: ItemId,
    hops: &[Hop],
) -> Result<Vec<u8, A>, AllocError>
    requires wording { subject.now.wording ≡ OnWorkqueues }
    requires item { item < length subject.now.assigned.now.declared.partition.group_of }
    requires items { All (λ h. h.item < length subject.now.assigned.now.declared.partition.group_of) hops.now }
    requires targets { All (λ h. h.flush.item < length subject.now.assigned.now.declared.partition.group_of) hops.now }
    ensures { IfOk result (λ said. TellsWalk subject.now.declaration.file.now subject.now.assignment.file.now
        subject.now.assigned.now.declared subject.now.assigned.now.workqueues
        (map (λ n. n.now) subject.now.names.now) item hops.now said.items) }
{
    match hops {
        [] => bare_block(alloc, subject, item),
        [first, more @ ..] => {
            let what = held_words(alloc, subject.assigned, subject.names, item, first)?;
            let mut said = Vec::new(alloc);
            put_first(alloc, &mut said, subject, first, &what)?;
            put_further(alloc, &mut said, subject, more)?;
            Ok(said)
        }
    }
}

/// Which unsure flushes are in nothing of what can hold items up, and so make no difference to them.
fn of_held<A: Allocator + Copy>(
    alloc: A,
    subject: &Subject<'_, '_, '_, A>,
    held: &HeldCircles<A>,
) -> Result<Vec<u8, A>, AllocError>
    ensures { IfOk result (λ note. IsNoDifference subject.now.declaration.file.now to_what_is_named
        subject.now.assigned.now.declared (map (λ l. l.items) held.now.components.items)
        (held.now.waits.items ++ held.now.ways.items) note.items) }
{
    let mut arcs = Vec::from_slice(alloc, held.waits.as_slice())?;
    arcs.extend_from_slice(held.ways.as_slice())?;
    of_idle(
        alloc,
        subject,
        messages::TO_WHAT_IS_NAMED,
        held.components.as_slice(),
        arcs.as_slice(),
    )
}

/// Which unsure flushes make no difference to these items.
fn of_named<A: Allocator + Copy>(
    alloc: A,
    subject: &Subject<'_, '_, '_, A>,
    named: &[ItemId],
) -> Result<Vec<u8, A>, AllocError>
    requires named { All (λ i. i < length subject.now.assigned.now.declared.table.names) named.now }
    ensures { IfOk result (λ note. MakeNoDifferenceTo subject.now.declaration.file.now
        subject.now.assigned.now.declared subject.now.assigned.now.workqueues named.now note.items) }
{
    let held = held_circles(alloc, subject.assigned, named)?;
    of_held(alloc, subject, &held)
}

/// What is said beside a run that needs these unsure flushes, by which one of these items is held up.
fn of_needed<A: Allocator + Copy>(
    alloc: A,
    subject: &Subject<'_, '_, '_, A>,
    named: &[ItemId],
    kept: &[u32],
) -> Result<Vec<u8, A>, AllocError>
    requires named { All (λ i. i < length subject.now.assigned.now.declared.table.names) named.now }
    ensures { IfOk result (λ notes. AreNotesFor subject.now.declaration.file.now
        subject.now.assigned.now.declared subject.now.assigned.now.workqueues named.now kept.now notes.items) }
{
    let file = subject.declaration.file;
    if kept.is_empty() {
        return sure_note(alloc, file);
    }
    let mut notes = undecided_note(alloc, file, kept.len())?;
    let idle = of_named(alloc, subject, named)?;
    put(&mut notes, &idle)?;
    Ok(notes)
}

/// What is said of unsure flushes beside a run by which one of these items is held up.
fn notes_of<A: Allocator + Copy>(
    alloc: A,
    subject: &Subject<'_, '_, '_, A>,
    named: &[ItemId],
    hops: &[Hop],
) -> Result<Vec<u8, A>, AllocError>
    requires { All (λ i. i < length subject.now.assigned.now.declared.table.names) named.now }
    ensures { IfOk result (λ notes. AreHeldNotes (has_unsure subject.now.assigned.now.declared.table.waits)
        subject.now.declaration.file.now subject.now.assigned.now.declared subject.now.assigned.now.workqueues
        named.now hops.now notes.items) }
{
    if !has_unsure(subject.assigned.table()) {
        return Ok(Vec::new(alloc));
    }
    let kept = needed_places(alloc, hops)?;
    of_needed(alloc, subject, named, kept.as_slice())
}

/// How an item, one of these, is held up by these waits on workqueues whose text is that one; and which of the unsure
/// flushes matter.
///
/// The only error is out of memory (20).
pub fn say_held<'a, A: Allocator + Copy>(
    alloc: A,
    declaration: Source<'a>,
    assignment: Source<'a>,
    assigned: &Assigned<'_, 'a, A>,
    named: &[ItemId],
    item: ItemId,
    hops: &[Hop],
) -> Result<Vec<u8, A>, AllocError>
    requires read { workqueues_of_text assigned.now.declared.table.names assigned.now.declared.partition
        assignment.text.now ≡ Ok assigned.now.workqueues }
    requires named { All (λ i. i < length assigned.now.declared.table.names) named.now }
    requires held { (steps : List Step) × IsHeldBy (declared_waits assigned.now.declared) assigned.now.workqueues
        named.now item hops.now steps }
    ensures { IfOk result (λ said. TellsHeld declaration.entry.file.now assignment.entry.file.now
        assignment.entry.text.now assigned.now.declared assigned.now.workqueues named.now item hops.now
        said.items) }
{
    // What holds of what is declared.
    let _table = assigned.table();
    let names = workqueue_names(alloc, assignment.text)?;
    let flushes = FlushLines::new(alloc, declaration.text)?;
    let subject = Subject {
        declaration,
        assignment,
        wording: Wording::OnWorkqueues,
        assigned,
        flushes: &flushes,
        names: &names,
    };
    let mut said = of_walk(alloc, &subject, item, hops)?;
    let notes = notes_of(alloc, &subject, named, hops)?;
    put(&mut said, &notes)?;
    Ok(said)
}

/// How an item, one of these, is held up by these waits on workqueues whose text is that one.
fn say_waits<'a, A: Allocator + Copy>(
    alloc: A,
    declaration: Source<'a>,
    assignment: Source<'a>,
    assigned: &Assigned<'_, 'a, A>,
    item: ItemId,
    hops: &[Hop],
) -> Result<Vec<u8, A>, AllocError>
    requires read { workqueues_of_text assigned.now.declared.table.names assigned.now.declared.partition
        assignment.text.now ≡ Ok assigned.now.workqueues }
    requires held { (named : List ℕ) × (steps : List Step) × IsHeldBy (declared_waits assigned.now.declared)
        assigned.now.workqueues named item hops.now steps }
    ensures { IfOk result (λ said. TellsWalk declaration.entry.file.now assignment.entry.file.now
        assigned.now.declared assigned.now.workqueues (names_of assignment.entry.text.now) item hops.now said.items) }
{
    // What holds of what is declared.
    let _table = assigned.table();
    let names = workqueue_names(alloc, assignment.text)?;
    let flushes = FlushLines::new(alloc, declaration.text)?;
    let subject = Subject {
        declaration,
        assignment,
        wording: Wording::OnWorkqueues,
        assigned,
        flushes: &flushes,
        names: &names,
    };
    of_walk(alloc, &subject, item, hops)
}

/// By which waits one of these items is held up, by this answer; nothing if none can be.
fn of_answer<'a, A: Allocator + Copy>(
    alloc: A,
    declaration: Source<'a>,
    assignment: Source<'a>,
    assigned: &Assigned<'_, 'a, A>,
    named: &[ItemId],
    answer: &Held<A>,
) -> Result<Option<Vec<u8, A>>, AllocError>
    requires read { workqueues_of_text assigned.now.declared.table.names assigned.now.declared.partition
        assignment.text.now ≡ Ok assigned.now.workqueues }
    requires answer { IsAnswerFor (declared_waits assigned.now.declared) assigned.now.workqueues
        named.now answer.now }
    ensures { IfOk result (λ said. GivesHeld declaration.entry.file.now assignment.entry.file.now
        assignment.entry.text.now assigned.now.declared assigned.now.workqueues named.now
        (option_map (λ text. text.items) said)) }
{
    match answer {
        Held::Safe => Ok(None),
        Held::HeldUp(item, hops, _) => {
            let said = say_waits(alloc, declaration, assignment, assigned, *item, hops)?;
            Ok(Some(said))
        }
    }
}

/// How one of these items is held up soonest on workqueues whose text is that one; nothing if none can be.
pub(crate) fn say_soonest<'a, A: Allocator + Copy>(
    alloc: A,
    declaration: Source<'a>,
    assignment: Source<'a>,
    assigned: &Assigned<'_, 'a, A>,
    named: &[ItemId],
) -> Result<Option<Vec<u8, A>>, AllocError>
    requires read { workqueues_of_text assigned.now.declared.table.names assigned.now.declared.partition
        assignment.text.now ≡ Ok assigned.now.workqueues }
    requires named { All (λ i. i < length assigned.now.declared.table.names) named.now }
    ensures { IfOk result (λ said. GivesHeld declaration.entry.file.now assignment.entry.file.now
        assignment.entry.text.now assigned.now.declared assigned.now.workqueues named.now
        (option_map (λ text. text.items) said)) }
{
    let answer = held_up(alloc, assigned, named)?;
    of_answer(alloc, declaration, assignment, assigned, named, &answer)
}

/// Which unsure flushes are in nothing of what can hold items up, and so make no difference to them.
pub(crate) fn say_idle<'a, A: Allocator + Copy>(
    alloc: A,
    declaration: Source<'a>,
    assignment: Source<'a>,
    assigned: &Assigned<'_, 'a, A>,
    held: &HeldCircles<A>,
) -> Result<Vec<u8, A>, AllocError>
    ensures { IfOk result (λ note. IsNoDifference declaration.entry.file.now to_what_is_named
        assigned.now.declared (map (λ l. l.items) held.now.components.items)
        (held.now.waits.items ++ held.now.ways.items) note.items) }
{
    let flushes = FlushLines::new(alloc, declaration.text)?;
    let subject = Subject {
        declaration,
        assignment,
        wording: Wording::OnWorkqueues,
        assigned,
        flushes: &flushes,
        names: &[],
    };
    of_held(alloc, &subject, held)
}

/// For each workqueue whether an item on it declares a flush.
fn lanes_with_flushes<A: Allocator + Copy>(
    alloc: A,
    assigned: &Assigned<'_, '_, A>,
) -> Result<Vec<bool, A>, AllocError>
    ensures { IfOk result (λ marks. marks.items ≡ map
        (is_among (map (workqueue_of assigned.now.declared assigned.now.workqueues)
        (flushing_items assigned.now.declared)))
        (range_with_len 0 assigned.now.workqueues.assignment.lanes)) }
{
    let count = assigned.workqueues().assignment().lanes();
    let mut marks = vec![in alloc; false; usize::from(count)]?;
    for number in 0..assigned.table().len() {
        let item = ItemId::new(number);
        if !assigned.table().waits(item).is_empty() {
            marks[usize::from(workqueue_of(assigned, item).get())] = true;
        }
    }
    Ok(marks)
}

/// For each item, of so many, whether it is one of these.
fn marks_of<A: Allocator + Copy>(
    alloc: A,
    count: u16,
    items: &[ItemId],
) -> Result<Vec<bool, A>, AllocError>
    requires { All (λ i. i < count) items.now }
    ensures { IfOk result (λ marks. marks.items ≡ map (is_among items.now) (range_with_len 0 count)) }
{
    let mut marks = vec![in alloc; false; usize::from(count)]?;
    for item in items {
        marks[usize::from(item.get())] = true;
    }
    Ok(marks)
}

/// Those of these items on whose workqueues nothing declares a flush, in the order of their declaration.
fn without_flushes<A: Allocator + Copy>(
    alloc: A,
    assigned: &Assigned<'_, '_, A>,
    named: &[ItemId],
) -> Result<Vec<ItemId, A>, AllocError>
    requires { All (λ i. i < length assigned.now.declared.table.names) named.now }
    ensures { IfOk result (λ items. items.items
        ≡ without_flushes assigned.now.declared assigned.now.workqueues named.now) }
{
    let flushing = lanes_with_flushes(alloc, assigned)?;
    let count = assigned.table().len();
    let named = marks_of(alloc, count, named)?;
    let mut items = Vec::new(alloc);
    for number in 0..count {
        let item = ItemId::new(number);
        let is_named = named[usize::from(number)];
        let has_flush = flushing[usize::from(workqueue_of(assigned, item).get())];
        if is_named && !has_flush {
            items.push(item)?;
        }
    }
    Ok(items)
}

/// That nothing on the workqueues of several items with these words declares a flush.
fn no_flush_on_these<A: Allocator + Copy>(
    alloc: A,
    file: &str,
    items: &[Vec<u8, A>],
) -> Result<Vec<u8, A>, AllocError>
    ensures { IfOk result (λ note. note.items
        ≡ shown_lines (nothing_flushes_on_these file.now (listed (map (λ words. words.items) items.now)) ∷ [])) }
{
    let all = listed(alloc, items)?;
    let note = messages::nothing_flushes_on_these(alloc, file.as_bytes(), &all)?;
    line_of(alloc, &note)
}

/// That nothing on the workqueues of items with these words declares a flush; nothing if there are none.
fn no_flush_words<A: Allocator + Copy>(
    alloc: A,
    file: &str,
    items: &[Vec<u8, A>],
) -> Result<Vec<u8, A>, AllocError>
    ensures { IfOk result (λ note. note.items ≡ no_flush_words file.now (map (λ words. words.items) items.now)) }
{
    match items {
        [] => Ok(Vec::new(alloc)),
        [one] => {
            let note = messages::nothing_flushes_on(alloc, file.as_bytes(), one)?;
            line_of(alloc, &note)
        }
        more => no_flush_on_these(alloc, file, more),
    }
}

/// That nothing on the workqueues of these items declares a flush; nothing if there are none.
fn no_flush_note<A: Allocator + Copy>(
    alloc: A,
    assigned: &Assigned<'_, '_, A>,
    file: &str,
    items: &[ItemId],
) -> Result<Vec<u8, A>, AllocError>
    ensures { IfOk result (λ note. note.items ≡ no_flush_note file.now assigned.now.declared items.now) }
{
    let mut words = Vec::new(alloc);
    for item in items {
        words.push(item_words(alloc, assigned.declared, *item)?)?;
    }
    no_flush_words(alloc, file, words.as_slice())
}

/// That other items can hang, if they can.
fn others_note<A: Allocator + Copy>(
    alloc: A,
    assigned: &Assigned<'_, '_, A>,
    file: &str,
) -> Result<Vec<u8, A>, AllocError>
    ensures { IfOk result (λ note. NotesOthers file.now assigned.now.declared assigned.now.workqueues note.items) }
{
    match hang(alloc, assigned)? {
        Answer::Safe => Ok(Vec::new(alloc)),
        Answer::Hang(..) => {
            let note = messages::others_can_hang(alloc, file.as_bytes())?;
            line_of(alloc, &note)
        }
    }
}

/// What is said, and below it these notes.
fn below<A: Allocator + Copy>(
    said: Option<Vec<u8, A>>,
    notes: Vec<u8, A>,
) -> Result<Option<Vec<u8, A>>, AllocError>
    ensures { IfOk result (λ both. option_map (λ text. text.items) both
        ≡ below (option_map (λ text. text.items) said) notes.items) }
{
    if notes.is_empty() {
        return Ok(said);
    }
    match said {
        Some(mut said) => {
            put(&mut said, &notes)?;
            Ok(Some(said))
        }
        None => Ok(Some(notes)),
    }
}

/// What is said beside `safe` of these items on workqueues whose text is that one: what is said beside every `safe` of
/// these workqueues; then on which workqueues of theirs nothing declares a flush, and whether other items can hang.
///
/// The only error is out of memory (20).
pub fn say_not_held<A: Allocator + Copy>(
    alloc: A,
    file: &str,
    assignment: Source<'_>,
    assigned: &Assigned<'_, '_, A>,
    named: &[ItemId],
) -> Result<Option<Vec<u8, A>>, AllocError>
    requires read { workqueues_of_text assigned.now.declared.table.names assigned.now.declared.partition
        assignment.text.now ≡ Ok assigned.now.workqueues }
    requires named { All (λ i. i < length assigned.now.declared.table.names) named.now }
    ensures { IfOk result (λ said. NotesNotHeld file.now assignment.entry.file.now assignment.entry.text.now
        assigned.now.declared assigned.now.workqueues named.now
        (option_map (λ text. text.items) said)) }
{
    let said = say_safe(alloc, file, assignment, assigned)?;
    let items = without_flushes(alloc, assigned, named)?;
    let mut notes = no_flush_note(alloc, assigned, file, items.as_slice())?;
    let others = others_note(alloc, assigned, file)?;
    put(&mut notes, &others)?;
    below(said, notes)
}
