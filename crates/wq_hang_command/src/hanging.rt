//! The answer to a declaration and an assignment, built in full in memory.
//!
//! The rule is that of "The command `hang`" in docs/FORMAT.md. A call takes the time and the memory of reading the
//! assignment and of the search for the shortest run.

ghost use Rattle.std.specs.Prelude.{◌≡◌, length, IfOk};
ghost use Rattle.wq_hang.specs.Answer.{IsAnswer, IsHangOf};
ghost use Rattle.wq_hang.specs.Walk.{needs};
ghost use Rattle.wq_cert.specs.Part.{reading_text};
ghost use Rattle.wq_groups.specs.DeclaredGroups.{declared_waits};
ghost use Rattle.wq_hang_command.specs.Hanging.{FindsHang, HangsText, PrintsAnswer};

use std::alloc::{AllocError, Allocator};
use wq_cert::reading_text;
use wq_commands::{Answered, End, Found, Which, safe_text, workqueues_of};
use wq_core::{Assigned, Step, Workqueues};
use wq_groups::Declaration;
use wq_hang::{Answer, Hop, hang as shortest_hang, needed_places};

/// Workqueues, and how they hang soonest, if they can.
#[derive(Drop)]
pub struct Hanging<A: Allocator> {
    pub workqueues: Workqueues<A>,
    pub answer: Answer<A>,
}

/// The text of the run of these waits. If a flush is unsure, the unsure flushes among the waits come first.
fn hang_text<A: Allocator + Copy>(
    alloc: A,
    assigned: &Assigned<'_, '_, A>,
    hops: &[Hop],
    steps: &[Step],
) -> Result<Vec<u8, A>, AllocError>
    requires { IsHangOf (declared_waits assigned.now.declared) assigned.now.workqueues hops.now steps.now }
    ensures { IfOk result (λ text. text.items ≡ reading_text assigned.now.declared.table.names
        assigned.now.declared.table.waits (needs hops.now) steps.now) }
{
    let kept = needed_places(alloc, hops)?;
    reading_text(alloc, assigned.table(), kept.as_slice(), steps)
}

/// What is printed of this answer.
fn print_answer<A: Allocator + Copy>(
    alloc: A,
    assigned: &Assigned<'_, '_, A>,
    answer: &Answer<A>,
) -> Result<(End, Vec<u8, A>), AllocError>
    requires { IsAnswer (declared_waits assigned.now.declared) assigned.now.workqueues answer.now }
    ensures { IfOk result (λ printed.
        PrintsAnswer assigned.now.declared answer.now printed.0 printed.1.items) }
{
    match answer {
        Answer::Safe => {
            let text = safe_text(alloc)?;
            Ok((End::Good, text))
        }
        Answer::Hang(hops, steps) => {
            let text = hang_text(alloc, assigned, hops, steps)?;
            Ok((End::Bad, text))
        }
    }
}

/// The answer to workqueues of the declared groups.
fn hang_workqueues<A: Allocator + Copy>(
    alloc: A,
    declared: &Declaration<'_, A>,
    workqueues: Workqueues<A>,
) -> Result<Answered<A, Found<Hanging<A>>>, AllocError>
    requires { length workqueues.assignment.lane_of_group ≡ declared.now.partition.groups }
    ensures { IfOk result (λ a. FindsHang declared.now workqueues a.found a.end a.text.items) }
{
    let assigned = Assigned::new(declared, &workqueues);
    let answer = shortest_hang(alloc, &assigned)?;
    let (end, text) = print_answer(alloc, &assigned, &answer)?;
    Ok(Answered {
        found: Found::Read(Hanging { workqueues, answer }),
        end,
        text,
    })
}

/// The answer to the text of an assignment of the declared groups.
pub(crate) fn hang_declared<A: Allocator + Copy>(
    alloc: A,
    declared: &Declaration<'_, A>,
    text: &[u8],
) -> Result<Answered<A, Found<Hanging<A>>>, AllocError>
    ensures { IfOk result (λ a. HangsText declared.now text.now a.found a.end a.text.items) }
{
    match workqueues_of(alloc, declared, text) {
        Ok(workqueues) => hang_workqueues(alloc, declared, workqueues),
        Err(fault) => Answered::unread(alloc, Which::Certificate, fault),
    }
}
