//! The answer to a declaration and an assignment, built in full in memory.
//!
//! The rules are those of "Deadlocking runs" and "Unsure lines" in docs/FORMAT.md. The answer takes the time and the
//! memory of reading the two texts and of the verdict, whose run has 45,056 steps at most. If a flush is unsure, the
//! search for the fewest that are enough comes on top.

ghost use Rattle.std.specs.Prelude.{◌≡◌, true, false, length, IfOk, option_map};
ghost use Rattle.wq_cert.specs.Part.{has_unsure};
ghost use Rattle.wq_cert.specs.RunText.{run_text};
ghost use Rattle.wq_core.specs.Deadlock.{IsSafe};
ghost use Rattle.wq_core.specs.Readings.{reading};
ghost use Rattle.wq_core.specs.Workqueues.{wiring_of};
ghost use Rattle.wq_deadlock.specs.Judging.{IsHang, IsJudged};
ghost use Rattle.wq_groups.specs.DeclaredGroups.{declared_waits, reading_with_names};
ghost use Rattle.wq_commands.specs.Commands.{FindsVerdict, JudgesText};
ghost use Rattle.wq_commands.specs.Deadlocking.{safe_text, JudgesBy};

use crate::assigned::workqueues_of;
use crate::end::End;
use crate::found::{Found, Which};
use crate::shell::Answered;
use std::alloc::{AllocError, Allocator};
use wq_cert::{has_unsure, reading_text, run_text};
use wq_core::{Assigned, Step, Workqueues};
use wq_deadlock::{Judged, judge as judge_workqueues};
use wq_groups::Declaration;
use wq_hang::{Answer, Hop, hang, needed_places};
use wq_text::{put, put_end};

/// Workqueues, and the verdict on them: good if they are safe, and bad if they can hang.
#[derive(Drop)]
pub struct Verdict<A: Allocator> {
    pub workqueues: Workqueues<A>,
    pub end: End,
    /// The waits of the walk whose unsure flushes are printed; nothing if the workqueues are safe, or if no flush is
    /// unsure.
    pub hops: Option<Vec<Hop, A>>,
}

/// `safe`.
///
/// The only error is out of memory (20).
pub fn safe_text<A: Allocator + Copy>(alloc: A) -> Result<Vec<u8, A>, AllocError>
    ensures { IfOk result (λ text. text.items ≡ safe_text) }
{
    let mut out = Vec::new(alloc);
    put(&mut out, b"safe")?;
    put_end(&mut out)?;
    Ok(out)
}

/// The text of the run by which workqueues hang.
fn deadlock_text<A: Allocator + Copy>(
    alloc: A,
    assigned: &Assigned<'_, '_, A>,
    steps: &[Step],
) -> Result<Vec<u8, A>, AllocError>
    requires { IsHang (declared_waits assigned.now.declared) assigned.now.workqueues steps.now }
    ensures { IfOk result (λ text. text.items ≡ run_text assigned.now.declared.table.names steps.now) }
{
    run_text(alloc, assigned.table(), steps)
}

/// The deadlocking run of the reading that keeps the unsure flushes at these places; no step if it is safe.
fn deadlock_of_reading<A: Allocator + Copy>(
    alloc: A,
    assigned: &Assigned<'_, '_, A>,
    kept: &[u32],
) -> Result<Vec<Step, A>, AllocError>
    requires { ¬ IsSafe (reading (wiring_of (declared_waits assigned.now.declared) assigned.now.workqueues) kept.now) }
    ensures { IfOk result (λ steps. IsHang (declared_waits (reading_with_names assigned.now.declared kept.now))
        assigned.now.workqueues steps.items) }
{
    let declared = assigned.declared.reading(alloc, kept)?;
    match judge_workqueues(alloc, &Assigned::new(&declared, assigned.workqueues()))? {
        Judged::Safe => Ok(Vec::new(alloc)),
        Judged::Deadlock(steps) => Ok(steps),
    }
}

/// What is printed if some group declares an unsure flush: the fewest unsure flushes that are enough, and the
/// deadlocking run of the reading that keeps them. The walk that needs them is what is found.
fn judge_unsure<A: Allocator + Copy>(
    alloc: A,
    assigned: &Assigned<'_, '_, A>,
) -> Result<Answered<A, Option<Vec<Hop, A>>>, AllocError>
    requires { has_unsure assigned.now.declared.table.waits ≡ true }
    ensures { IfOk result (λ a. JudgesBy assigned.now.declared assigned.now.workqueues
        (option_map (λ hops. hops.items) a.found) a.end a.text.items) }
{
    match hang(alloc, assigned)? {
        Answer::Safe => {
            let text = safe_text(alloc)?;
            Ok(Answered {
                found: None,
                end: End::Good,
                text,
            })
        }
        Answer::Hang(hops, _) => {
            let kept = needed_places(alloc, hops.as_slice())?;
            let steps = deadlock_of_reading(alloc, assigned, kept.as_slice())?;
            let text = reading_text(alloc, assigned.table(), kept.as_slice(), steps.as_slice())?;
            Ok(Answered {
                found: Some(hops),
                end: End::Bad,
                text,
            })
        }
    }
}

/// What is printed of this verdict on workqueues. No walk is looked for.
fn print_verdict<A: Allocator + Copy>(
    alloc: A,
    assigned: &Assigned<'_, '_, A>,
    judged: &Judged<A>,
) -> Result<Answered<A, Option<Vec<Hop, A>>>, AllocError>
    requires judged { IsJudged (declared_waits assigned.now.declared) assigned.now.workqueues judged.now }
    requires sure { has_unsure assigned.now.declared.table.waits ≡ false }
    ensures { IfOk result (λ a. JudgesBy assigned.now.declared assigned.now.workqueues
        (option_map (λ hops. hops.items) a.found) a.end a.text.items) }
{
    match judged {
        Judged::Safe => {
            let text = safe_text(alloc)?;
            Ok(Answered {
                found: None,
                end: End::Good,
                text,
            })
        }
        Judged::Deadlock(steps) => {
            let text = deadlock_text(alloc, assigned, steps)?;
            Ok(Answered {
                found: None,
                end: End::Bad,
                text,
            })
        }
    }
}

/// The verdict on workqueues of the declared groups: its text, and the walk whose unsure flushes are printed, if there
/// is one.
fn judge_assigned<A: Allocator + Copy>(
    alloc: A,
    assigned: &Assigned<'_, '_, A>,
) -> Result<Answered<A, Option<Vec<Hop, A>>>, AllocError>
    ensures { IfOk result (λ a. JudgesBy assigned.now.declared assigned.now.workqueues
        (option_map (λ hops. hops.items) a.found) a.end a.text.items) }
{
    if has_unsure(assigned.table()) {
        return judge_unsure(alloc, assigned);
    }
    let judged = judge_workqueues(alloc, assigned)?;
    print_verdict(alloc, assigned, &judged)
}

/// The answer to workqueues of the declared groups.
fn find_verdict<A: Allocator + Copy>(
    alloc: A,
    declared: &Declaration<'_, A>,
    workqueues: Workqueues<A>,
) -> Result<Answered<A, Found<Verdict<A>>>, AllocError>
    requires { length workqueues.assignment.lane_of_group ≡ declared.now.partition.groups }
    ensures { IfOk result (λ a. FindsVerdict declared.now workqueues a.found a.end a.text.items) }
{
    let assigned = Assigned::new(declared, &workqueues);
    let Answered { found, end, text } = judge_assigned(alloc, &assigned)?;
    Ok(Answered {
        found: Found::Read(Verdict {
            workqueues,
            end,
            hops: found,
        }),
        end,
        text,
    })
}

/// The verdict on the text of an assignment of the declared groups.
pub(crate) fn judge_declared<A: Allocator + Copy>(
    alloc: A,
    declared: &Declaration<'_, A>,
    text: &[u8],
) -> Result<Answered<A, Found<Verdict<A>>>, AllocError>
    ensures { IfOk result (λ a. JudgesText declared.now text.now a.found a.end a.text.items) }
{
    match workqueues_of(alloc, declared, text) {
        Ok(workqueues) => find_verdict(alloc, declared, workqueues),
        Err(fault) => Answered::unread(alloc, Which::Certificate, fault),
    }
}
