//! The answer to a declaration, built in full in memory.
//!
//! A call takes time linear in the length of the text, and for a circle also the time of its run (`wq_deadlock`). It
//! takes memory in the length of the text.

ghost use Rattle.std.specs.Prelude.{◌≡◌, IfOk};
ghost use Rattle.wq_core.specs.Wiring.{wiring, own_lanes};
ghost use Rattle.wq_core.specs.Deadlock.{DeadlocksBy};
ghost use Rattle.wq_deadlock.specs.CircleRun.{IsCircleRun};
ghost use Rattle.wq_plan.specs.Solve.{IsPlanned, IsCircled, Solves};
ghost use Rattle.wq_groups.specs.DeclaredGroups.{declared_waits};
ghost use Rattle.wq_commands.specs.Answer.{PrintsCircle, text_of_plan};
ghost use Rattle.wq_commands.specs.Commands.{FindsPlan};

use crate::arc_ends::ends_of;
use crate::end::End;
use crate::shell::Answered;
use std::alloc::{AllocError, Allocator};
use wq_cert::{circle_text, plan_text};
use wq_core::Step;
use wq_deadlock::run_round;
use wq_graph::WaitArc;
use wq_groups::{Assignment, Declaration};
use wq_plan::{Answer, solve};

/// The text of the plan of the declared items, with the chain that `solve` gave with it.
fn text_of_plan<A: Allocator + Copy>(
    alloc: A,
    declared: &Declaration<'_, A>,
    assignment: &Assignment<A>,
    chain: &[WaitArc],
) -> Result<Vec<u8, A>, AllocError>
    requires planned { IsPlanned (declared_waits declared.now) assignment.now chain.now }
    ensures { IfOk result (λ text. text.items ≡ text_of_plan declared.now assignment.now) }
{
    let Declaration { table, groups } = declared;
    let chain = ends_of(alloc, chain)?;
    plan_text(alloc, table, groups, assignment, &chain)
}

/// The run of this circle of groups if each group has a workqueue of its own. By it all items of the circle hang.
fn run_of_circle<A: Allocator + Copy>(
    alloc: A,
    declared: &Declaration<'_, A>,
    arcs: &[WaitArc],
) -> Result<Vec<Step, A>, AllocError>
    requires circled { IsCircled (declared_waits declared.now) arcs.now }
    ensures run { IfOk result (λ steps. IsCircleRun
        (wiring (declared_waits declared.now) (own_lanes declared.now.partition.groups)) arcs.now steps.items) }
    ensures deadlocks { IfOk result (λ steps. DeadlocksBy
        (wiring (declared_waits declared.now) (own_lanes declared.now.partition.groups)) steps.items) }
{
    run_round(alloc, &declared.table, &declared.groups, arcs)
}

/// The text of the circle in which the declared groups wait, with its run.
///
/// The only error is out of memory (20).
pub fn text_of_circle<A: Allocator + Copy>(
    alloc: A,
    declared: &Declaration<'_, A>,
    arcs: &[WaitArc],
) -> Result<Vec<u8, A>, AllocError>
    requires circled { IsCircled (declared_waits declared.now) arcs.now }
    ensures { IfOk result (λ text. PrintsCircle declared.now text.items) }
{
    let ends = ends_of(alloc, arcs)?;
    let steps = run_of_circle(alloc, declared, arcs)?;
    circle_text(alloc, &declared.table, &ends, Some(steps.as_slice()))
}

/// What is printed of this answer to a declaration.
fn print_answer<A: Allocator + Copy>(
    alloc: A,
    declared: &Declaration<'_, A>,
    answer: &Answer<A>,
) -> Result<Answered<A, End>, AllocError>
    requires solved { Solves (declared_waits declared.now) answer.now }
    ensures { IfOk result (λ a. FindsPlan declared.now a.found a.end a.text.items) }
{
    match answer {
        Answer::Plan { assignment, chain } => {
            let text = text_of_plan(alloc, declared, assignment, chain)?;
            Ok(Answered::ended(End::Good, text))
        }
        Answer::Circle { arcs } => {
            let text = text_of_circle(alloc, declared, arcs)?;
            Ok(Answered::ended(End::Bad, text))
        }
    }
}

/// The answer to a declaration: its plan, or the circle in which its groups wait.
pub(crate) fn answer_declared<A: Allocator + Copy>(
    alloc: A,
    declared: &Declaration<'_, A>,
) -> Result<Answered<A, End>, AllocError>
    ensures { IfOk result (λ a. FindsPlan declared.now a.found a.end a.text.items) }
{
    let answer = solve(alloc, &declared.table, &declared.groups)?;
    print_answer(alloc, declared, &answer)
}
