//! The answer to a declaration and fixed workqueues, built in full in memory.
//!
//! It takes the time and the memory of reading both texts, of the plan, and, where there is none, of the deadlocking
//! run of the start.

ghost use Rattle.std.specs.Prelude.{◌≡◌, IfOk, List, Some, length, map};
ghost use Rattle.wq_groups.specs.Assignment.{item_lanes};
ghost use Rattle.wq_groups.specs.DeclaredGroups.{declared_waits};
ghost use Rattle.wq_core.specs.declared.step.Step.{Step};
ghost use Rattle.wq_core.specs.Deadlock.{IsSafe};
ghost use Rattle.wq_core.specs.Workqueues.{wiring_of};
ghost use Rattle.wq_deadlock.specs.Judging.{IsHang};
ghost use Rattle.wq_fixed.specs.Fixed.{Fixed as FixedView, IsFixed, fixed_lanes, start as start_of};
ghost use Rattle.wq_cert.specs.AroundText.{around_text, norescuer_text};
ghost use Rattle.wq_cert.specs.CircleText.{circle_text};
ghost use Rattle.wq_around.specs.Around.{IsCircledAround, IsHeldByNone, IsPlannedAround, PlansAround};
ghost use Rattle.wq_commands.specs.Answer.{ends_of};
ghost use Rattle.wq_around_command.specs.Planning.{FindsAround, FindsPlanned, PlansText, PrintsAround};

use std::alloc::{AllocError, Allocator};
use wq_around::{Around, plan_around};
use wq_cert::{around_text, circle_text, norescuer_text, read_fixed};
use wq_commands::{Answered, Command, End, Found, PlanCommand, Texts, Which, ends_of};
use wq_core::{Assigned, Step, Workqueues};
use wq_deadlock::{Judged, judge};
use wq_fixed::{Fixed, start};
use wq_graph::WaitArc;
use wq_groups::{Declaration, LaneId};

/// What `plan` finds around fixed workqueues.
#[derive(Drop)]
pub enum Planned<A: Allocator> {
    /// There is none of these: this is how `plan` ends.
    Plain(End),
    /// The workqueues of the start, and the plan, or what is in the way of each.
    Around(Workqueues<A>, Around<A>),
}

/// The text of a plan.
fn text_of_plan<A: Allocator + Copy>(
    alloc: A,
    declared: &Declaration<'_, A>,
    fixed: &Fixed<A>,
    workqueues: &Workqueues<A>,
    order: &[LaneId],
    chain: &[WaitArc],
) -> Result<Vec<u8, A>, AllocError>
    requires fixed { IsFixed declared.now.partition.groups fixed.now }
    requires planned { IsPlannedAround (declared_waits declared.now) fixed.now workqueues.now order.now chain.now }
    ensures { IfOk result (λ text. text.items ≡ around_text declared.now.table.names (fixed_lanes fixed.now)
        workqueues.now.assignment.lanes (item_lanes workqueues.now.assignment declared.now.partition.group_of)
        order.now (map ends_of chain.now)) }
{
    let Declaration { table, groups } = declared;
    let chain = ends_of(alloc, chain)?;
    around_text(
        alloc,
        table,
        groups,
        fixed.lanes(),
        workqueues.assignment(),
        order,
        chain.as_slice(),
    )
}

/// The deadlocking run of the start, which hangs.
fn run_of_start<A: Allocator + Copy>(
    alloc: A,
    start: &Assigned<'_, '_, A>,
) -> Result<Vec<Step, A>, AllocError>
    requires { ¬ IsSafe (wiring_of (declared_waits start.now.declared) start.now.workqueues) }
    ensures { IfOk result (λ steps. IsHang (declared_waits start.now.declared) start.now.workqueues steps.items) }
{
    match judge(alloc, start)? {
        Judged::Deadlock(steps) => Ok(steps),
        Judged::Safe => Ok(Vec::new(alloc)),
    }
}

/// The text of this circle, in which workqueues of the start wait, with the deadlocking run of the start.
fn circle_of_start<A: Allocator + Copy>(
    alloc: A,
    start: &Assigned<'_, '_, A>,
    arcs: &[WaitArc],
) -> Result<Vec<u8, A>, AllocError>
    requires { (f : FixedView) × IsFixed start.now.declared.partition.groups f × (start.now.workqueues ≡ start_of f)
        × IsCircledAround (declared_waits start.now.declared) f arcs.now }
    ensures { IfOk result (λ text. (steps : List Step)
        × IsHang (declared_waits start.now.declared) start.now.workqueues steps
        × (text.items ≡ circle_text start.now.declared.table.names (map ends_of arcs.now) (Some steps))) }
{
    let table = start.table();
    let ends = ends_of(alloc, arcs)?;
    let steps = run_of_start(alloc, start)?;
    circle_text(alloc, table, &ends, Some(steps.as_slice()))
}

/// The text of this flush, which leads in the start to no rescuer, with the deadlocking run of the start.
fn norescuer_of_start<A: Allocator + Copy>(
    alloc: A,
    start: &Assigned<'_, '_, A>,
    arc: &WaitArc,
) -> Result<Vec<u8, A>, AllocError>
    requires { (f : FixedView) × IsFixed start.now.declared.partition.groups f × (start.now.workqueues ≡ start_of f)
        × IsHeldByNone (declared_waits start.now.declared) f arc.now }
    ensures { IfOk result (λ text. (steps : List Step)
        × IsHang (declared_waits start.now.declared) start.now.workqueues steps
        × (text.items ≡ norescuer_text start.now.declared.table.names (ends_of arc.now) steps)) }
{
    let table = start.table();
    let steps = run_of_start(alloc, start)?;
    norescuer_text(alloc, table, (arc.src, arc.dst), &steps)
}

/// How `plan` ends with this answer, and what is printed.
fn print_around<A: Allocator + Copy>(
    alloc: A,
    start: &Assigned<'_, '_, A>,
    fixed: &Fixed<A>,
    around: &Around<A>,
) -> Result<(End, Vec<u8, A>), AllocError>
    requires fixed { IsFixed start.now.declared.partition.groups fixed.now }
    requires start { start.now.workqueues ≡ start_of fixed.now }
    requires plans { PlansAround (declared_waits start.now.declared) fixed.now around.now }
    ensures { IfOk result (λ printed.
        PrintsAround start.now.declared fixed.now around.now printed.0 printed.1.items) }
{
    match around {
        Around::Plan {
            workqueues,
            order,
            chain,
        } => {
            let text = text_of_plan(alloc, start.declared, fixed, workqueues, order, chain)?;
            Ok((End::Good, text))
        }
        Around::Circle { arcs } => {
            let text = circle_of_start(alloc, start, arcs.as_slice())?;
            Ok((End::Bad, text))
        }
        Around::NoRescuer { arc } => {
            let text = norescuer_of_start(alloc, start, arc)?;
            Ok((End::Bad, text))
        }
    }
}

/// The answer to a declaration around these workqueues.
fn plan_fixed<A: Allocator + Copy>(
    alloc: A,
    declared: &Declaration<'_, A>,
    fixed: &Fixed<A>,
) -> Result<Answered<A, Found<Planned<A>>>, AllocError>
    requires { IsFixed declared.now.partition.groups fixed.now }
    ensures { IfOk result (λ a. FindsAround declared.now fixed.now a.found a.end a.text.items) }
{
    let workqueues = start(alloc, fixed)?;
    let assigned = Assigned::new(declared, &workqueues);
    let around = plan_around(alloc, &assigned, fixed)?;
    let (end, text) = print_around(alloc, &assigned, fixed, &around)?;
    Ok(Answered {
        found: Found::Read(Planned::Around(workqueues, around)),
        end,
        text,
    })
}

/// The answer to a declaration and these workqueues. If there is none, it is that without them.
fn plan_behind<A: Allocator + Copy>(
    alloc: A,
    declared: &Declaration<'_, A>,
    texts: &Texts<A>,
    fixed: &Fixed<A>,
) -> Result<Answered<A, Found<Planned<A>>>, AllocError>
    requires { length fixed.now.lane_of_group ≡ declared.now.partition.groups }
    ensures { IfOk result (λ a. FindsPlanned declared.now fixed.now a.found a.end a.text.items) }
{
    if fixed.lanes() == 0 {
        let Answered { found, end, text } = PlanCommand.answer(alloc, declared, texts)?;
        Ok(Answered {
            found: Found::Read(Planned::Plain(found)),
            end,
            text,
        })
    } else {
        plan_fixed(alloc, declared, fixed)
    }
}

/// The answer to a declaration and the text of fixed workqueues.
pub(crate) fn plan_text<A: Allocator + Copy>(
    alloc: A,
    declared: &Declaration<'_, A>,
    texts: &Texts<A>,
) -> Result<Answered<A, Found<Planned<A>>>, AllocError>
    ensures { IfOk result (λ a. PlansText declared.now texts.now.second a.found a.end a.text.items) }
{
    match read_fixed(alloc, texts.second(), &declared.table, &declared.groups) {
        Ok(fixed) => {
            let answer = plan_behind(alloc, declared, texts, &fixed);
            // Written as a call, so that the proof has one step for it.
            drop(fixed);
            answer
        }
        Err(fault) => Answered::unread(alloc, Which::Certificate, fault),
    }
}
