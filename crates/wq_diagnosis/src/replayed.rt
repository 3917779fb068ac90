//! What standard error says about a run with a step that isn't lawful.
//!
//! The form is that of "Diagnoses" in docs/FORMAT.md. It takes the time of making the steps, and the memory of the
//! machine that makes them.

ghost use Rattle.std.specs.Prelude.{◌≡◌, ◌∷◌, ◌<◌, ℕ, List, Ok, Option, IfNone, IfOk, IfSome, length, map, option_map};
ghost use Rattle.wq_core.specs.Runs.{HasNoHelp};
ghost use Rattle.wq_core.specs.State.{empty_state};
ghost use Rattle.wq_checker.specs.RunEnds.{IsFirstUnlawful};
ghost use Rattle.wq_cert.specs.Part.{made_of};
ghost use Rattle.wq_items.specs.declared.target.Target.{Target};
ghost use Rattle.wq_diagnosis.specs.Diagnosis.{shown_lines};
ghost use Rattle.wq_diagnosis.specs.Reasons.{IsUnlawfulText, SaysStep, reason_words, unlawful_head};
ghost use Rattle.wq_diagnosis.specs.Unlawful.{IsFirstFor};

use crate::diagnosis::Source;
use crate::layout::{lines_of, place_words, put_line, put_lines};
use crate::reasons::reason_words;
use crate::unlawful::{Unlawful, reason_of};
use std::alloc::{AllocError, Allocator};
use wq_core::{Assigned, Core, Step};
use wq_findings::{Excerpt, Hint, Mark, Marks};
use wq_names::messages;
use wq_text::{Line, Text};

/// The first step that isn't lawful: its number, counted from 1, the step, and why it isn't.
#[derive(Clone, Copy)]
struct UnlawfulStep {
    number: u32,
    step: Step,
    why: Unlawful,
}

/// Makes the steps up to the first that isn't lawful, on a machine without helpers on which nothing has been queued
/// yet, and says why that step isn't; `None` if all are made.
fn find<A: Allocator>(core: &mut Core<A>, steps: &[Step]) -> Option<UnlawfulStep>
    requires helpers { core.old.wiring.helpers ≡ 0 }
    requires empty { core.old.state ≡ empty_state core.old.wiring }
    requires few { length steps.now < 4294967295 }
    requires no_help { HasNoHelp steps.now }
    ensures some { IfSome result (λ first. IsFirstFor core.old.wiring steps.now first.number first.step first.why) }
    ensures none { IfNone result ((n : ℕ) → ¬ IsFirstUnlawful core.old.wiring steps.now n) }
{
    let Err(error) = core.run(steps) else {
        return None;
    };
    let step = *steps.get(error.at as usize)?;
    let why = reason_of(core, step)?;
    Some(UnlawfulStep {
        number: error.at + 1,
        step,
        why,
    })
}

/// Whether a line has the number of steps.
fn is_run_line(line: &Line<'_>) -> bool {
    match line.words().next() {
        Some(word) => word.bytes() == b"run".as_slice(),
        None => false,
    }
}

/// The line of the step with this number, counted from 1: only lines with words count, below the line with the number
/// of steps. Above that line there may be an unsure part.
fn step_line<'a>(text: &Text<'a>, number: u32) -> Option<Line<'a>> {
    let mut left = number;
    let mut is_below = false;
    for line in text.lines() {
        if is_below && line.words().next().is_some() {
            left = left.saturating_sub(1);
            if left == 0 {
                return Some(line);
            }
        }
        is_below = is_below || is_run_line(&line);
    }
    None
}

/// The last word of a line, which names the item of a step.
fn last_mark(line: &Line<'_>) -> Mark {
    let mut mark = Mark { at: 0, len: 1 };
    for word in line.words() {
        let span = word.span();
        mark = Mark {
            at: span.start.saturating_sub(line.span().start) as usize,
            len: span.end.saturating_sub(span.start) as usize,
        };
    }
    mark
}

/// The first line of what is said.
fn head<A: Allocator + Copy>(
    alloc: A,
    file: &str,
    place: &[u32],
    what: &[u8],
    number: u32,
) -> Result<Vec<u8, A>, AllocError>
    ensures { IfOk result (λ line. line.items ≡ unlawful_head file.now place.now what.now number) }
{
    let place = place_words(alloc, place)?;
    let number = number.to_string(alloc)?;
    messages::answered_unlawful(alloc, file.as_bytes(), &place, what, number.as_bytes())
}

/// All lines about the step with this number, with `details` below the first one.
fn whole_text<A: Allocator + Copy>(
    alloc: A,
    file: &str,
    place: &[u32],
    what: &[u8],
    number: u32,
    details: &[Vec<u8, A>],
) -> Result<Vec<u8, A>, AllocError>
    ensures { IfOk result (λ said. said.items
        ≡ shown_lines (unlawful_head file.now place.now what.now number ∷ map (λ line. line.items) details.now)) }
{
    let head = head(alloc, file, place, what, number)?;
    let mut out = Vec::new(alloc);
    put_line(&mut out, &head)?;
    put_lines(&mut out, details)?;
    Ok(out)
}

/// What is said about the step with this number, at this place.
fn said_at<A: Allocator + Copy>(
    alloc: A,
    file: &str,
    place: &[u32],
    what: &[u8],
    number: u32,
    details: &[Vec<u8, A>],
) -> Result<Vec<u8, A>, AllocError>
    ensures { IfOk result (λ said. IsUnlawfulText file.now what.now number said.items) }
{
    whole_text(alloc, file, place, what, number, details)
}

/// The line of the step, and a mark below its last word.
fn details<A: Allocator + Copy>(
    alloc: A,
    bytes: &[u8],
    mark: Mark,
) -> Result<Vec<Vec<u8, A>, A>, AllocError> {
    let marks = Marks::of(bytes.len(), mark, Hint::Nothing);
    let mut details = Vec::new(alloc);
    details.push(Excerpt::of(bytes, mark).to_string(alloc)?.into_bytes())?;
    details.push(marks.to_string(alloc)?.into_bytes())?;
    Ok(details)
}

/// The line of the step with this number, the number of the line, and the mark of its last word.
fn place_of<'a>(text: &'a [u8], number: u32) -> (&'a [u8], u32, Mark) {
    match step_line(&lines_of(text), number) {
        Some(line) => (line.bytes(), line.no(), last_mark(&line)),
        None => (b"", 0, Mark { at: 0, len: 1 }),
    }
}

/// What is said about the step with this number, which isn't lawful for the reason `what`.
fn said_of<A: Allocator + Copy>(
    alloc: A,
    run: Source<'_>,
    what: &[u8],
    number: u32,
) -> Result<Vec<u8, A>, AllocError>
    ensures { IfOk result (λ said. IsUnlawfulText run.entry.file.now what.now number said.items) }
{
    let (bytes, no, mark) = place_of(run.text, number);
    let column = u32::try_from(mark.at).unwrap_or(u32::MAX).saturating_add(1);
    let details = details(alloc, bytes, mark)?;
    said_at(alloc, run.file, &[no, column], what, number, &details)
}

/// What is said about the first of these steps that isn't lawful.
fn of_first<A: Allocator + Copy>(
    alloc: A,
    assigned: &Assigned<'_, '_, A>,
    names: &[&[u8]],
    run: Source<'_>,
    first: &UnlawfulStep,
) -> Result<Vec<u8, A>, AllocError>
    ensures { IfOk result (λ said. IsUnlawfulText run.entry.file.now
        (reason_words assigned.now.declared assigned.now.workqueues (map (λ n. n.now) names.now) first.now.step
        first.now.why)
        first.now.number said.items) }
{
    let what = reason_words(alloc, assigned, names, first.step, first.why)?;
    said_of(alloc, run, &what, first.number)
}

/// What is said about these steps on these workqueues; `None` unless the step with this number is the first that isn't
/// lawful.
fn of_steps<A: Allocator + Copy>(
    alloc: A,
    assigned: &Assigned<'_, '_, A>,
    names: &[&[u8]],
    steps: &[Step],
    run: Source<'_>,
    number: u32,
) -> Result<Option<Vec<u8, A>>, AllocError>
    requires few { length steps.now < 4294967295 }
    requires no_help { HasNoHelp steps.now }
    ensures { IfOk result (λ said. SaysStep run.entry.file.now assigned.now.declared assigned.now.workqueues
        (map (λ n. n.now) names.now) steps.now number (option_map (λ text. text.items) said)) }
{
    let mut core = Core::on_workqueues(
        alloc,
        assigned.table(),
        assigned.groups(),
        assigned.workqueues(),
    )?;
    let Some(first) = find(&mut core, steps) else {
        return Ok(None);
    };
    if first.number != number {
        return Ok(None);
    }
    let said = of_first(alloc, assigned, names, run, &first)?;
    Ok(Some(said))
}

/// Says why the step with this number, counted from 1, isn't lawful, in a run on workqueues with these names. `None` if
/// another step is the first that isn't lawful, or if all are.
///
/// The only error is out of memory (20).
pub fn of_unlawful<A: Allocator + Copy>(
    alloc: A,
    assigned: &Assigned<'_, '_, A>,
    names: &[&[u8]],
    steps: &[Step],
    run: Source<'_>,
    number: u32,
) -> Result<Option<Vec<u8, A>>, AllocError>
    requires read { (waits : List (List Target)) × (kept : Option (List ℕ))
        × (made_of assigned.now.declared.table.names waits run.text.now ≡ Ok (kept, steps.now)) }
    ensures { IfOk result (λ said. SaysStep run.entry.file.now assigned.now.declared assigned.now.workqueues
        (map (λ n. n.now) names.now) steps.now number (option_map (λ text. text.items) said)) }
{
    of_steps(alloc, assigned, names, steps, run, number)
}
