//! The notes on unsure flushes: whether they matter, and which don't.
//!
//! The words are those of "What isn't sure" in docs/FORMAT.md. A call takes time linear in the number of items and
//! flushes, the time and the memory of the words, and, if flushes may make no difference, the time of finding all
//! flushes on circles.

ghost use Rattle.std.specs.Prelude.{◌≡◌, ◌∷◌, ◌++◌, [], ◌<◌, ◌≤◌, ◌&&◌, ◌||◌, ℕ, false, not, length, map, filter};
ghost use Rattle.std.specs.Prelude.{flat_map, decimal, slice_index_or, IfOk, option_map};
ghost use Rattle.std.specs.List.{All, count_by, range_with_len};
ghost use Rattle.wq_items.specs.declared.target.Target.{Target};
ghost use Rattle.wq_items.specs.Readings.{is_among, unsure_places};
ghost use Rattle.wq_items.specs.Table.{flush_count};
ghost use Rattle.wq_graph.specs.declared.arc.WaitArc.{WaitArc};
ghost use Rattle.wq_voice.specs.Unsure.{above, all_words, idle_places, is_idle, no_difference_note, safe_note};
ghost use Rattle.wq_voice.specs.Unsure.{safe_words, undecided_note, undecided_words, unsure_count, AreHangNotes};
ghost use Rattle.wq_voice.specs.Unsure.{AreNotesOf, IsNoDifference, MakeNoDifference};
ghost use Rattle.wq_voice.specs.Note.{listed};
ghost use Rattle.wq_names.specs.Messages.{hangs_for_sure, make_no_difference, makes_no_difference};
ghost use Rattle.wq_diagnosis.specs.Diagnosis.{shown_lines};
ghost use Rattle.wq_cert.specs.Part.{has_unsure};

use crate::flush_lines::FlushLines;
use crate::note::listed;
use crate::subject::Subject;
use std::alloc::{AllocError, Allocator};
use wq_cert::has_unsure;
use wq_circles::components;
use wq_deadlock::bare_waits;
use wq_diagnosis::put_line;
use wq_graph::WaitArc;
use wq_groups::Declaration;
use wq_hang::{Hop, needed_places};
use wq_items::{ItemId, ItemTable, Target};
use wq_names::messages;
use wq_text::put;

/// How many of these flushes are unsure.
fn unsure_among(targets: &[Target]) -> usize
    ensures { result ≡ length (filter (λ (t : Target). t.unsure) targets.now) }
{
    targets.iter().filter(|target| target.unsure).count()
}

/// How many flushes are unsure.
pub fn unsure_count<A: Allocator + Copy>(table: &ItemTable<'_, A>) -> u32
    ensures { result ≡ unsure_count table.now.waits }
{
    let mut count: usize = 0;
    for number in 0..table.len() {
        count += unsure_among(table.waits(ItemId::new(number)));
    }
    count as u32
}

/// How many unsure lines there are, in words.
fn all_words<A: Allocator + Copy>(alloc: A, count: u32) -> Result<Vec<u8, A>, AllocError>
    ensures { IfOk result (λ words. words.items ≡ all_words count) }
{
    if count == 1 {
        return Vec::from_slice(alloc, messages::UNSURE_LINE);
    }
    let count = count.to_string(alloc)?;
    messages::unsure_lines(alloc, count.as_bytes())
}

/// One line, as it is shown.
pub(crate) fn line_of<A: Allocator + Copy>(alloc: A, line: &[u8]) -> Result<Vec<u8, A>, AllocError>
    ensures { IfOk result (λ text. text.items ≡ shown_lines (line.now ∷ [])) }
{
    let mut out = Vec::new(alloc);
    put_line(&mut out, line)?;
    Ok(out)
}

/// Says that workqueues are safe whatever this many unsure flushes turn out to be.
fn safe_words<A: Allocator + Copy>(
    alloc: A,
    file: &str,
    count: u32,
) -> Result<Vec<u8, A>, AllocError>
    ensures { IfOk result (λ words. words.items ≡ safe_words file.now count) }
{
    if count == 1 {
        return messages::safe_whatever_one(alloc, file.as_bytes());
    }
    let all = count.to_string(alloc)?;
    messages::safe_whatever(alloc, file.as_bytes(), all.as_bytes())
}

/// What is said beside `safe` in this file: that it is so whatever the unsure flushes turn out to be, if there are any.
pub(crate) fn safe_note<A: Allocator + Copy>(
    alloc: A,
    declared: &Declaration<'_, A>,
    file: &str,
) -> Result<Vec<u8, A>, AllocError>
    ensures { IfOk result (λ note. note.items ≡ safe_note file.now declared.now) }
{
    let count = unsure_count(&declared.table);
    if count == 0 {
        return Ok(Vec::new(alloc));
    }
    let words = safe_words(alloc, file, count)?;
    line_of(alloc, &words)
}

/// This note, and below it the rest of what is said.
pub(crate) fn above<A: Allocator + Copy>(
    note: Vec<u8, A>,
    said: Option<Vec<u8, A>>,
) -> Result<Option<Vec<u8, A>>, AllocError>
    ensures { IfOk result (λ both. option_map (λ text. text.items) both
        ≡ above note.items (option_map (λ text. text.items) said)) }
{
    if note.is_empty() {
        return Ok(said);
    }
    let mut both = note;
    if let Some(said) = said {
        put(&mut both, &said)?;
    }
    Ok(Some(both))
}

/// Clears the marks at the places of these flushes.
fn unmark(marks: &mut [bool], arcs: &[WaitArc])
    ensures len { length marks.new ≡ length marks.old }
    ensures marks { (p : ℕ) → slice_index_or marks.new p false
        ≡ (slice_index_or marks.old p false && not (is_among (map (λ (a : WaitArc). a.place) arcs.now) p)) }
{
    for arc in arcs {
        let place = arc.place as usize;
        if place < marks.len() {
            marks[place] = false;
        }
    }
}

/// Clears the marks at the places of the flushes in these components.
fn unmark_components<A: Allocator>(marks: &mut [bool], components: &[Vec<WaitArc, A>])
    ensures len { length marks.new ≡ length marks.old }
    ensures marks { (p : ℕ) → slice_index_or marks.new p false
        ≡ (slice_index_or marks.old p false && not (is_among (map (λ (a : WaitArc). a.place)
        (flat_map (λ arcs. arcs) (map (λ l. l.items) components.now))) p)) }
{
    for arcs in components {
        unmark(marks, arcs.as_slice());
    }
}

/// Marks the places of the unsure ones of these flushes.
fn mark_unsure(marks: &mut [bool], targets: &[Target])
    requires { All (λ (t : Target). t.place < length marks.old) targets.now }
    ensures len { length marks.new ≡ length marks.old }
    ensures marks { (p : ℕ) → slice_index_or marks.new p false ≡ (slice_index_or marks.old p false
        || is_among (map (λ (t : Target). t.place) (filter (λ (t : Target). t.unsure) targets.now)) p) }
{
    for target in targets {
        if target.unsure {
            marks[target.place as usize] = true;
        }
    }
}

/// For each place whether the flush there is unsure.
fn unsure_marks<A: Allocator + Copy>(
    alloc: A,
    table: &ItemTable<'_, A>,
) -> Result<Vec<bool, A>, AllocError>
    ensures { IfOk result (λ marks. marks.items
        ≡ map (is_among (unsure_places table.now.waits)) (range_with_len 0 (flush_count table.now.waits))) }
{
    let mut marks = vec![in alloc; false; table.flushes() as usize]?;
    for number in 0..table.len() {
        mark_unsure(marks.as_mut_slice(), table.waits(ItemId::new(number)));
    }
    Ok(marks)
}

/// For each place, whether the flush there is unsure and `circles` doesn't print it: it is neither in one of these
/// components nor one of these flushes to no rescuer.
fn idle_marks<A: Allocator + Copy>(
    alloc: A,
    table: &ItemTable<'_, A>,
    components: &[Vec<WaitArc, A>],
    waits: &[WaitArc],
) -> Result<Vec<bool, A>, AllocError>
    ensures { IfOk result (λ marks. marks.items
        ≡ map (is_idle table.now.waits (map (λ l. l.items) components.now) waits.now)
        (range_with_len 0 (flush_count table.now.waits))) }
{
    let mut marks = unsure_marks(alloc, table)?;
    unmark_components(marks.as_mut_slice(), components);
    unmark(marks.as_mut_slice(), waits);
    Ok(marks)
}

/// The lines of the flushes whose places are marked.
fn marked_lines<A: Allocator + Copy>(
    alloc: A,
    flushes: &FlushLines<'_, A>,
    marks: &[bool],
) -> Result<Vec<u32, A>, AllocError>
    requires { length marks.now ≤ 16384 }
    ensures { IfOk result (λ lines. length lines.items ≡ count_by (λ mark. mark) marks.now) }
{
    let mut lines = Vec::new(alloc);
    for (place, is_marked) in marks.iter().enumerate() {
        if *is_marked {
            lines.push(flushes.line_no(place as u32))?;
        }
    }
    Ok(lines)
}

/// The lines of the unsure flushes that are neither in one of these components nor among these flushes to no rescuer.
fn idle_lines<A: Allocator + Copy>(
    alloc: A,
    table: &ItemTable<'_, A>,
    flushes: &FlushLines<'_, A>,
    components: &[Vec<WaitArc, A>],
    waits: &[WaitArc],
) -> Result<Vec<u32, A>, AllocError>
    ensures { IfOk result (λ lines. length lines.items
        ≡ length (idle_places table.now.waits (map (λ l. l.items) components.now) waits.now)) }
{
    // At most so many flushes are declared.
    let _flushes = table.flushes();
    let marks = idle_marks(alloc, table, components, waits)?;
    marked_lines(alloc, flushes, marks.as_slice())
}

/// These numbers, with a comma between each two.
fn listed_numbers<A: Allocator + Copy>(alloc: A, numbers: &[u32]) -> Result<Vec<u8, A>, AllocError>
    ensures { IfOk result (λ words. words.items ≡ listed (map decimal numbers.now)) }
{
    let mut words = Vec::new(alloc);
    for number in numbers {
        let word = number.to_string(alloc)?;
        words.push(Vec::from_slice(alloc, word.as_bytes())?)?;
    }
    listed(alloc, words.as_slice())
}

/// Says that the one unsure flush on this line makes no difference there; `count` is how many flushes are unsure.
fn one_idle_note<A: Allocator + Copy>(
    alloc: A,
    file: &str,
    place: &[u8],
    count: u32,
    line: u32,
) -> Result<Vec<u8, A>, AllocError>
    ensures { IfOk result (λ note. note.items
        ≡ shown_lines (makes_no_difference file.now (all_words count) place.now (decimal line) ∷ [])) }
{
    let all = all_words(alloc, count)?;
    let line = line.to_string(alloc)?;
    let words = messages::makes_no_difference(
        alloc,
        file.as_bytes(),
        &all,
        place,
        line.as_bytes(),
    )?;
    line_of(alloc, &words)
}

/// Says that the unsure flushes on these lines make no difference there; `count` is how many flushes are unsure.
fn idle_note<A: Allocator + Copy>(
    alloc: A,
    file: &str,
    place: &[u8],
    count: u32,
    lines: &[u32],
) -> Result<Vec<u8, A>, AllocError>
    ensures { IfOk result (λ note. note.items
        ≡ shown_lines (make_no_difference file.now (decimal (length lines.now)) (all_words count) place.now
        (listed (map decimal lines.now)) ∷ [])) }
{
    let all = all_words(alloc, count)?;
    let some = lines.len().to_string(alloc)?;
    let listed = listed_numbers(alloc, lines)?;
    let words = messages::make_no_difference(
        alloc,
        file.as_bytes(),
        some.as_bytes(),
        &all,
        place,
        &listed,
    )?;
    line_of(alloc, &words)
}

/// Says that the unsure flushes on these lines make no difference there; nothing if there are no such lines.
fn no_difference_note<A: Allocator + Copy>(
    alloc: A,
    file: &str,
    place: &[u8],
    count: u32,
    lines: &[u32],
) -> Result<Vec<u8, A>, AllocError>
    ensures { IfOk result (λ note. note.items ≡ no_difference_note file.now place.now count lines.now) }
{
    match lines {
        [] => Ok(Vec::new(alloc)),
        [line] => one_idle_note(alloc, file, place, count, *line),
        more => idle_note(alloc, file, place, count, more),
    }
}

/// Which unsure flushes make no difference on these workqueues, with these components and flushes to no rescuer.
pub(crate) fn of_idle<A: Allocator + Copy>(
    alloc: A,
    subject: &Subject<'_, '_, '_, A>,
    place: &[u8],
    components: &[Vec<WaitArc, A>],
    waits: &[WaitArc],
) -> Result<Vec<u8, A>, AllocError>
    ensures { IfOk result (λ note. IsNoDifference subject.now.declaration.file.now place.now
        subject.now.assigned.now.declared (map (λ l. l.items) components.now) waits.now note.items) }
{
    let table = subject.assigned.table();
    let count = unsure_count(table);
    if count == 0 {
        return Ok(Vec::new(alloc));
    }
    let lines = idle_lines(alloc, table, subject.flushes, components, waits)?;
    no_difference_note(
        alloc,
        subject.declaration.file,
        place,
        count,
        lines.as_slice(),
    )
}

/// The words that this many waits aren't decided.
fn undecided_words<A: Allocator + Copy>(
    alloc: A,
    file: &str,
    count: usize,
) -> Result<Vec<u8, A>, AllocError>
    ensures { IfOk result (λ words. words.items ≡ undecided_words file.now count) }
{
    if count == 1 {
        return messages::isnt_decided(alloc, file.as_bytes());
    }
    let count = count.to_string(alloc)?;
    messages::arent_decided(alloc, file.as_bytes(), count.as_bytes())
}

/// The note that this many waits aren't decided.
pub(crate) fn undecided_note<A: Allocator + Copy>(
    alloc: A,
    file: &str,
    count: usize,
) -> Result<Vec<u8, A>, AllocError>
    ensures { IfOk result (λ note. note.items ≡ undecided_note file.now count) }
{
    let words = undecided_words(alloc, file, count)?;
    line_of(alloc, &words)
}

/// The note that these workqueues hang for sure.
pub(crate) fn sure_note<A: Allocator + Copy>(alloc: A, file: &str) -> Result<Vec<u8, A>, AllocError>
    ensures { IfOk result (λ note. note.items ≡ shown_lines (hangs_for_sure file.now ∷ [])) }
{
    let words = messages::hangs_for_sure(alloc, file.as_bytes())?;
    line_of(alloc, &words)
}

/// Which unsure flushes make no difference on these workqueues.
fn of_workqueues<A: Allocator + Copy>(
    alloc: A,
    subject: &Subject<'_, '_, '_, A>,
) -> Result<Vec<u8, A>, AllocError>
    ensures { IfOk result (λ note. MakeNoDifference subject.now.declaration.file.now
        subject.now.assigned.now.declared subject.now.assigned.now.workqueues note.items) }
{
    let components = components(alloc, subject.assigned)?;
    let waits = bare_waits(alloc, subject.assigned)?;
    of_idle(
        alloc,
        subject,
        messages::ON_THESE,
        components.as_slice(),
        waits.as_slice(),
    )
}

/// What is said beside a run that needs these unsure flushes.
fn of_needed<A: Allocator + Copy>(
    alloc: A,
    subject: &Subject<'_, '_, '_, A>,
    kept: &[u32],
) -> Result<Vec<u8, A>, AllocError>
    ensures { IfOk result (λ notes. AreNotesOf subject.now.declaration.file.now
        subject.now.assigned.now.declared subject.now.assigned.now.workqueues kept.now notes.items) }
{
    let file = subject.declaration.file;
    if kept.is_empty() {
        return sure_note(alloc, file);
    }
    let mut notes = undecided_note(alloc, file, kept.len())?;
    let idle = of_workqueues(alloc, subject)?;
    put(&mut notes, &idle)?;
    Ok(notes)
}

/// What is said of unsure flushes beside a run by which these workqueues hang: that none is needed, or how many waits
/// aren't decided and which flushes make no difference. Nothing if no flush is unsure.
pub(crate) fn of_hang<A: Allocator + Copy>(
    alloc: A,
    subject: &Subject<'_, '_, '_, A>,
    hops: &[Hop],
) -> Result<Vec<u8, A>, AllocError>
    ensures { IfOk result (λ notes. AreHangNotes (has_unsure subject.now.assigned.now.declared.table.waits)
        subject.now.declaration.file.now subject.now.assigned.now.declared subject.now.assigned.now.workqueues
        hops.now notes.items) }
{
    if !has_unsure(subject.assigned.table()) {
        return Ok(Vec::new(alloc));
    }
    let kept = needed_places(alloc, hops)?;
    of_needed(alloc, subject, kept.as_slice())
}
