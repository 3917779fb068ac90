//! Reading runs that may have an unsure part: which unsure flushes the run keeps, and then its steps.
//!
//! The text is that of "Run texts" in docs/FORMAT.md. Reading takes time linear in the length of the text and, for each
//! line of the part, in the number of flushes of its item. It takes memory linear in the number of flushes and of the
//! steps that are there.

ghost use Rattle.std.specs.Prelude.{◌≡◌, ◌<◌, ◌∷◌, [], ℕ, List, Ok, Err, None, IfOk, IfErr, IfSome, IsTrue, length};
ghost use Rattle.std.specs.Prelude.{map, not, option_map, slice_index_or, true};
ghost use Rattle.std.specs.List.{range_with_len};
ghost use Rattle.wq_text.specs.Limits.{limit_fault};
ghost use Rattle.wq_items.specs.Readings.{is_among};
ghost use Rattle.wq_items.specs.Table.{flush_count};
ghost use Rattle.wq_cert.specs.Lines.{bytes_of, cert_line};
ghost use Rattle.wq_cert.specs.Part.{is_declared_so, made_of, made_reading, next_unsure, part_reading, stood_for};
ghost use Rattle.wq_cert.specs.Part.{unsure_count_reading, unsure_form, unsure_kind, unsure_reading};
ghost use Rattle.wq_cert.specs.Texts.{max_certificate, max_certificate_line, IsCertFaultOf};
ghost use Rattle.wq_cert.specs.declared.fault.CertError.TheVariants.{OutOfMemory};

use crate::fault::CertError;
use crate::form::{begins_with, count_form};
use crate::opening::open;
use crate::run_reading::read_run_lines;
use crate::view::CertLines;
use std::alloc::Allocator;
use wq_core::Step;
use wq_items::{ItemId, ItemTable, Target};
use wq_text::{Line, Words};

/// The most flushes that a declaration may have.
const MOST: u32 = 16384;

/// What the text of a run says.
#[derive(Drop)]
pub struct ReadRun<A: Allocator> {
    /// The places of the unsure flushes that the run keeps, if the text has an unsure part. If it has none, all flushes
    /// count.
    pub kept: Option<Vec<u32, A>>,
    /// The steps.
    pub steps: Vec<Step, A>,
}

/// What a line of a part says: whether the flush is of a whole workqueue, the item, and the target.
#[derive(Clone, Copy)]
struct UnsureForm {
    whole: bool,
    item: ItemId,
    target: ItemId,
}

/// If this word begins a line of a part, whether the flush is of a whole workqueue.
fn unsure_kind(word: &[u8]) -> Option<bool>
    ensures { result ≡ unsure_kind word.now }
{
    if word == b"flush?".as_slice() {
        Some(false)
    } else if word == b"flushwq?".as_slice() {
        Some(true)
    } else {
        None
    }
}

/// Reads `flush? NAME TARGET` or `flushwq? NAME ITEM`.
fn unsure_form<A: Allocator + Copy>(
    table: &ItemTable<'_, A>,
    mut words: Words<'_>,
) -> Option<UnsureForm>
    ensures { option_map (λ f. (f.whole, (f.item, f.target))) result
        ≡ unsure_form table.now.names (bytes_of words.entry) }
{
    let word = words.next()?;
    let item = words.next()?;
    let target = words.next()?;
    if words.next().is_some() {
        return None;
    }
    let whole = unsure_kind(word.bytes())?;
    let item = table.find(item.bytes())?;
    let target = table.find(target.bytes())?;
    Some(UnsureForm {
        whole,
        item,
        target,
    })
}

/// Whether a flush is unsure and declared in this form.
fn is_declared_so(form: &UnsureForm, target: Target) -> bool
    ensures { result ≡ is_declared_so (form.now.whole, (form.now.item, form.now.target)) target }
{
    target.unsure && target.item == form.target && target.whole == form.whole
}

/// Whether the place isn't marked.
fn is_free(marks: &[bool], place: u32) -> bool
    ensures free { result ≡ not (slice_index_or marks.now place true) }
    ensures within { IsTrue result → place < length marks.now }
{
    match marks.get(place as usize) {
        Some(mark) => !*mark,
        None => false,
    }
}

/// The place of the unsure flush that a line of this form stands for, if the places of the lines before it are marked.
fn stood_for<A: Allocator + Copy>(
    table: &ItemTable<'_, A>,
    marks: &[bool],
    form: &UnsureForm,
) -> Option<u32>
    ensures place { (taken : List ℕ) →
        marks.now ≡ map (is_among taken) (range_with_len 0 (flush_count table.now.waits)) →
        result ≡ stood_for table.now.waits taken (form.now.whole, (form.now.item, form.now.target)) }
    ensures marked { IfSome result (λ place. place < length marks.now) }
{
    if form.item.get() >= table.len() {
        return None;
    }
    for target in table.waits(form.item) {
        if is_declared_so(form, *target) && is_free(marks, target.place) {
            return Some(target.place);
        }
    }
    None
}

/// Reads a line of a part, if the places that the lines before it stand for are marked.
fn read_unsure<A: Allocator + Copy>(
    table: &ItemTable<'_, A>,
    marks: &[bool],
    line: &Line<'_>,
) -> Result<u32, CertError>
    ensures place { (taken : List ℕ) →
        marks.now ≡ map (is_among taken) (range_with_len 0 (flush_count table.now.waits)) →
        result ≡ unsure_reading table.now.names table.now.waits taken (cert_line line.now) }
    ensures marked { IfOk result (λ place. place < length marks.now) }
{
    let bad = CertError::BadCertLine { line: line.no() };
    let Some(form) = unsure_form(table, line.words()) else {
        return Err(bad);
    };
    match stood_for(table, marks, &form) {
        Some(place) => Ok(place),
        None => Err(bad),
    }
}

/// Reads `unsure M`: M is at most 16,384.
fn read_unsure_count(line: &Line<'_>) -> Result<u32, CertError>
    ensures { result ≡ unsure_count_reading (cert_line line.now) }
{
    let Some(count) = count_form(b"unsure", line.words()) else {
        return Err(CertError::BadCertLine { line: line.no() });
    };
    if count > MOST {
        return Err(CertError::NumberOutOfRange { line: line.no() });
    }
    Ok(count)
}

/// Reads `count` lines of a part: the places that they stand for.
fn read_unsure_lines<A: Allocator + Copy>(
    alloc: A,
    table: &ItemTable<'_, A>,
    count: u32,
    lines: &mut CertLines<'_>,
) -> Result<Vec<u32, A>, CertError>
    ensures places { IfOk result (λ places.
        next_unsure table.now.names table.now.waits count [] (map cert_line lines.old)
        ≡ Ok (places.items, map cert_line lines.new)) }
    ensures fault { IfErr result (λ e.
        IsCertFaultOf e (next_unsure table.now.names table.now.waits count [] (map cert_line lines.old))) }
{
    let mut marks = vec![in alloc; false; table.flushes() as usize]?;
    let mut places = Vec::new(alloc);
    for i in 0..count {
        let Some(line) = lines.next() else {
            return Err(CertError::BadCertLine { line: 0 });
        };
        let place = read_unsure(table, marks.as_slice(), &line)?;
        marks[place as usize] = true;
        places.push(place)?;
    }
    Ok(places)
}

/// Reads the run with an unsure part that begins on the line `first` and ends with the last of `lines`.
fn read_part_from<A: Allocator + Copy>(
    alloc: A,
    table: &ItemTable<'_, A>,
    first: &Line<'_>,
    mut lines: CertLines<'_>,
) -> Result<ReadRun<A>, CertError>
    ensures run { IfOk result (λ run.
        part_reading table.now.names table.now.waits (cert_line first.now ∷ map cert_line lines.entry)
        ≡ Ok (option_map (λ places. places.items) run.kept, run.steps.items)) }
    ensures fault { IfErr result (λ e. IsCertFaultOf e
        (part_reading table.now.names table.now.waits (cert_line first.now ∷ map cert_line lines.entry))) }
{
    let count = read_unsure_count(first)?;
    let kept = read_unsure_lines(alloc, table, count, &mut lines)?;
    let steps = read_run_lines(alloc, table, lines)?;
    Ok(ReadRun {
        kept: Some(kept),
        steps,
    })
}

/// Reads the run on these lines, which may have an unsure part.
fn read_made_lines<A: Allocator + Copy>(
    alloc: A,
    table: &ItemTable<'_, A>,
    lines: CertLines<'_>,
    mut again: CertLines<'_>,
) -> Result<ReadRun<A>, CertError>
    requires { again ≡ lines }
    ensures run { IfOk result (λ run. made_reading table.now.names table.now.waits (map cert_line lines.entry)
        ≡ Ok (option_map (λ places. places.items) run.kept, run.steps.items)) }
    ensures fault { IfErr result (λ e.
        IsCertFaultOf e (made_reading table.now.names table.now.waits (map cert_line lines.entry))) }
{
    if let Some(first) = again.next() {
        if begins_with(&first, b"unsure") {
            return read_part_from(alloc, table, &first, again);
        }
    }
    let steps = read_run_lines(alloc, table, lines)?;
    Ok(ReadRun { kept: None, steps })
}

/// Reads the text of a run, for the items of a table: its steps and, if it has an unsure part, the unsure flushes that
/// it keeps. Whether the steps are lawful isn't judged.
///
/// The errors are those of `read_run`. A line of the part that stands for no unsure flush of the table is `BadCertLine`
/// (40), and a count above 16,384 is `NumberOutOfRange` (43).
pub fn read_made<A: Allocator + Copy>(
    alloc: A,
    text: &[u8],
    table: &ItemTable<'_, A>,
) -> Result<ReadRun<A>, CertError>
    ensures run { IfOk result (λ run. made_of table.now.names table.now.waits text.now
        ≡ Ok (option_map (λ places. places.items) run.kept, run.steps.items)) }
    ensures fault { IfErr result (λ e. IsCertFaultOf e (made_of table.now.names table.now.waits text.now)) }
    // No memory is needed to judge the limits.
    ensures memory { result ≡ Err OutOfMemory → limit_fault max_certificate max_certificate_line text.now ≡ None }
{
    let view = open(text)?;
    read_made_lines(alloc, table, view.lines(), view.lines())
}
