//! The answer to a declaration, an assignment and a run, built in full in memory.
//!
//! A call takes the time and the memory of reading the three texts and of making the steps.

ghost use Rattle.std.specs.Prelude.{◌≡◌, ◌∷◌, [], ◌<◌, IfOk, length, codes, decimal, option_map};
ghost use Rattle.wq_core.specs.Workqueues.{wiring_of};
ghost use Rattle.wq_text.specs.LineText.{line_text};
ghost use Rattle.wq_checker.specs.RunEnds.{EndsAs};
ghost use Rattle.wq_groups.specs.DeclaredGroups.{declared_waits};
ghost use Rattle.wq_commands.specs.Commands.{FindsEnd, ReplaysOn, ReplaysTexts};
ghost use Rattle.wq_commands.specs.Replaying.{replay_words, replay_end, wiring_read};

use crate::assigned::workqueues_of;
use crate::end::End;
use crate::found::{Found, Which};
use crate::shell::Answered;
use std::alloc::{AllocError, Allocator};
use wq_cert::{ReadRun, read_made};
use wq_checker::{RunEnd, check_run_on};
use wq_core::{Assigned, Step, Workqueues};
use wq_groups::Declaration;
use wq_text::{put, put_end, put_number};

/// A run that was made on workqueues, and how it ends.
#[derive(Drop)]
pub struct Replayed<A: Allocator> {
    pub workqueues: Workqueues<A>,
    /// The places of the unsure flushes of the reading in which the steps were made; nothing if all flushes count.
    pub kept: Option<Vec<u32, A>>,
    pub steps: Vec<Step, A>,
    pub end: RunEnd,
}

/// `not lawful N`.
fn unlawful_text<A: Allocator + Copy>(alloc: A, number: u32) -> Result<Vec<u8, A>, AllocError>
    ensures { IfOk result (λ text. text.items ≡ line_text (codes "not" ∷ codes "lawful" ∷ decimal number ∷ [])) }
{
    let mut out = Vec::new(alloc);
    put(&mut out, b"not lawful")?;
    put_number(&mut out, number)?;
    put_end(&mut out)?;
    Ok(out)
}

/// One word.
fn word_text<A: Allocator + Copy>(alloc: A, word: &[u8]) -> Result<Vec<u8, A>, AllocError>
    ensures { IfOk result (λ text. text.items ≡ line_text (word.now ∷ [])) }
{
    let mut out = Vec::new(alloc);
    put(&mut out, word)?;
    put_end(&mut out)?;
    Ok(out)
}

/// The line that says how a run ends.
pub(crate) fn replay_text<A: Allocator + Copy>(
    alloc: A,
    end: RunEnd,
) -> Result<Vec<u8, A>, AllocError>
    ensures { IfOk result (λ text. text.items ≡ line_text (replay_words end)) }
{
    match end {
        RunEnd::Free => word_text(alloc, b"open"),
        RunEnd::Deadlock => word_text(alloc, b"deadlock"),
        RunEnd::Stuck => word_text(alloc, b"stuck"),
        RunEnd::NotLawful(number) => unlawful_text(alloc, number),
    }
}

/// How the program ends after a run that ends in this way: well, if the run isn't stuck.
pub(crate) fn replay_end(end: RunEnd) -> End
    ensures { result ≡ replay_end end }
{
    match end {
        RunEnd::Free => End::Good,
        RunEnd::Deadlock | RunEnd::Stuck | RunEnd::NotLawful(_) => End::Bad,
    }
}

/// The answer to a run that was read, on workqueues of the declared groups.
fn replay_run<A: Allocator + Copy>(
    alloc: A,
    declared: &Declaration<'_, A>,
    workqueues: Workqueues<A>,
    run: ReadRun<A>,
) -> Result<Answered<A, Found<Replayed<A>>>, AllocError>
    requires assigned { length workqueues.assignment.lane_of_group ≡ declared.now.partition.groups }
    requires few { length run.steps.items < 4294967295 }
    ensures { IfOk result (λ a. FindsEnd declared.now workqueues (option_map (λ places. places.items) run.kept)
        run.steps.items a.found a.end a.text.items) }
{
    let ReadRun { kept, steps } = run;
    let end = end_in_reading(alloc, declared, &workqueues, &kept, steps.as_slice())?;
    let text = replay_text(alloc, end)?;
    Ok(Answered {
        found: Found::Read(Replayed {
            workqueues,
            kept,
            steps,
            end,
        }),
        end: replay_end(end),
        text,
    })
}

/// How these steps end on these workqueues of the declared groups.
fn end_of_steps<A: Allocator + Copy>(
    alloc: A,
    assigned: &Assigned<'_, '_, A>,
    steps: &[Step],
) -> Result<RunEnd, AllocError>
    requires { length steps.now < 4294967295 }
    ensures { IfOk result (EndsAs
        (wiring_of (declared_waits assigned.now.declared) assigned.now.workqueues) steps.now) }
{
    check_run_on(
        alloc,
        assigned.table(),
        assigned.groups(),
        assigned.workqueues(),
        steps,
    )
}

/// How these steps end on workqueues of the declared groups, in the reading that keeps the unsure flushes at these
/// places, or with all flushes.
fn end_in_reading<A: Allocator + Copy>(
    alloc: A,
    declared: &Declaration<'_, A>,
    workqueues: &Workqueues<A>,
    kept: &Option<Vec<u32, A>>,
    steps: &[Step],
) -> Result<RunEnd, AllocError>
    requires assigned { length workqueues.now.assignment.lane_of_group ≡ declared.now.partition.groups }
    requires few { length steps.now < 4294967295 }
    ensures { IfOk result (EndsAs
        (wiring_read declared.now workqueues.now (option_map (λ places. places.items) kept.now)) steps.now) }
{
    match kept {
        Some(kept) => {
            let reading = declared.reading(alloc, kept.as_slice())?;
            end_of_steps(alloc, &Assigned::new(&reading, workqueues), steps)
        }
        None => end_of_steps(alloc, &Assigned::new(declared, workqueues), steps),
    }
}

/// The answer to workqueues of the declared groups and the text of a run.
fn replay_on<A: Allocator + Copy>(
    alloc: A,
    declared: &Declaration<'_, A>,
    workqueues: Workqueues<A>,
    text: &[u8],
) -> Result<Answered<A, Found<Replayed<A>>>, AllocError>
    requires { length workqueues.assignment.lane_of_group ≡ declared.now.partition.groups }
    ensures { IfOk result (λ a. ReplaysOn declared.now workqueues text.now a.found a.end a.text.items) }
{
    match read_made(alloc, text, &declared.table) {
        Ok(read) => replay_run(alloc, declared, workqueues, read),
        Err(fault) => {
            let answer = Answered::unread(alloc, Which::Run, fault);
            // Written as a call, so that the proof has one step for it.
            drop(workqueues);
            answer
        }
    }
}

/// The answer to the texts of an assignment of the declared groups and of a run.
pub(crate) fn replay_declared<A: Allocator + Copy>(
    alloc: A,
    declared: &Declaration<'_, A>,
    assignment: &[u8],
    text: &[u8],
) -> Result<Answered<A, Found<Replayed<A>>>, AllocError>
    ensures { IfOk result (λ a. ReplaysTexts declared.now assignment.now text.now a.found a.end a.text.items) }
{
    match workqueues_of(alloc, declared, assignment) {
        Ok(workqueues) => replay_on(alloc, declared, workqueues, text),
        Err(fault) => Answered::unread(alloc, Which::Certificate, fault),
    }
}
