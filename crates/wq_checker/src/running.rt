//! How a list of steps ends.
//!
//! The ends are those of "The command `replay`" in docs/FORMAT.md. The steps are made on the core machine from the
//! empty state, by the rules of "Steps". This takes the time of the machine's steps and, beside it,
//!
//!   O(items + flushes + workqueues) time and memory.

ghost use Rattle.std.specs.Prelude.{◌≡◌, ◌<◌, ◌↔◌, IsTrue, IfOk, OnErr, IfErr, length};
ghost use Rattle.wq_groups.specs.Declaration.{declaration_of};
ghost use Rattle.wq_core.specs.Wiring.{wiring};
ghost use Rattle.wq_core.specs.Workqueues.{wiring_of};
ghost use Rattle.wq_core.specs.State.{empty_state};
ghost use Rattle.wq_core.specs.Rules.{Lawful};
ghost use Rattle.wq_core.specs.Runs.{KeepsOrder};
ghost use Rattle.wq_core.specs.Deadlock.{IsStuck};
ghost use Rattle.wq_core.specs.Played.{IsDeclaredStep};
ghost use Rattle.wq_core.specs.MustGoOn.{IsStuckFor};
ghost use Rattle.wq_checker.specs.RunEnds.{IsFirstUnlawful, EndsAs, EndsFor};
ghost use Rattle.wq_checker.specs.Searching.{HasOneLeft, IsPlayed};

use crate::once::is_once;
use crate::run::RunEnd;
use std::alloc::{AllocError, Allocator};
use wq_core::{Core, Step, Workqueues};
use wq_groups::{Assignment, Groups, LaneId};
use wq_items::{ItemId, ItemTable};

/// Whether the step is the one that the lane can make if what it runs flushes as declared.
fn is_declared<A: Allocator>(core: &Core<A>, q: LaneId, step: Step) -> bool
    ensures { IsTrue result ↔ IsDeclaredStep core.now.wiring core.now.state q step }
{
    match core.declared(q) {
        Some(declared) => declared == step,
        None => false,
    }
}

/// Whether a lawful step keeps to the order of the declaration. There are no helpers, so none of their steps is lawful.
fn keeps_order<A: Allocator>(core: &Core<A>, step: Step) -> bool
    requires { core.now.wiring.helpers ≡ 0 }
    ensures { Lawful core.now.wiring core.now.state step
        → IsTrue result ↔ KeepsOrder core.now.wiring core.now.state step }
{
    match step {
        Step::Queue(_) | Step::Cancel(_) | Step::Start(..) | Step::Over(..) | Step::OverAll(..) =>
            true,
        Step::Wait(q, _) | Step::WaitAll(q, _) | Step::Finish(q, _) => is_declared(core, q, step),
        Step::Help(..) => false,
    }
}

/// Makes the steps on a machine without helpers on which nothing has been queued yet, and tells whether what ran
/// flushed as declared. The error is the number, counted from 1, of the first step that isn't lawful.
fn play<A: Allocator>(core: &mut Core<A>, steps: &[Step]) -> Result<bool, u32>
    requires helpers { core.old.wiring.helpers ≡ 0 }
    requires empty { core.old.state ≡ empty_state core.old.wiring }
    requires few { length steps.now < 4294967295 }
    ensures played { IfOk result (λ in_order. IsPlayed core.old.wiring steps.now in_order core.new) }
    ensures unlawful { IfErr result (λ n. IsFirstUnlawful core.old.wiring steps.now n) }
{
    let mut in_order = true;
    let mut made = 0;
    for step in steps {
        made += 1;
        let keeps = keeps_order(core, *step);
        if core.step(*step).is_err() {
            return Err(made);
        }
        in_order = in_order && keeps;
    }
    Ok(in_order)
}

/// Whether an entry is unfinished on a lane that has a rescuer, and no lane can move.
fn is_stuck<A: Allocator>(core: &Core<A>) -> bool
    ensures { IsTrue result ↔ IsStuck core.now.wiring core.now.state }
{
    core.enabled().is_none() && !core.is_at_rest()
}

/// How a run without helpers ends that leaves the machine in this state.
fn end_of<A: Allocator + Copy>(
    alloc: A,
    core: &Core<A>,
    steps: &[Step],
    in_order: bool,
) -> Result<RunEnd, AllocError>
    requires helpers { core.now.wiring.helpers ≡ 0 }
    requires few { length steps.now < 4294967295 }
    requires played { IsPlayed core.now.wiring steps.now in_order core.now }
    ensures end { IfOk result (λ end. EndsAs core.now.wiring steps.now end) }
    ensures memory { OnErr result (0 < core.now.wiring.lanes) }
{
    if !is_stuck(core) {
        return Ok(RunEnd::Free);
    }
    if in_order && is_once(alloc, core, steps)? {
        Ok(RunEnd::Deadlock)
    } else {
        Ok(RunEnd::Stuck)
    }
}

/// How a list of steps ends, made on a machine without helpers on which nothing has been queued yet.
fn ends<A: Allocator + Copy>(
    alloc: A,
    mut core: Core<A>,
    steps: &[Step],
) -> Result<RunEnd, AllocError>
    requires helpers { core.wiring.helpers ≡ 0 }
    requires empty { core.state ≡ empty_state core.wiring }
    requires few { length steps.now < 4294967295 }
    ensures end { IfOk result (λ end. EndsAs core.wiring steps.now end) }
    ensures memory { OnErr result (0 < core.wiring.lanes) }
{
    match play(&mut core, steps) {
        Ok(in_order) => end_of(alloc, &core, steps, in_order),
        Err(at) => Ok(RunEnd::NotLawful(at)),
    }
}

/// How a list of fewer than 4,294,967,295 steps ends under an assignment of the groups. The only error is out of memory
/// (20), which can't occur if there is no lane.
pub fn check_run<A: Allocator + Copy>(
    alloc: A,
    table: &ItemTable<'_, A>,
    groups: &Groups<A>,
    assignment: &Assignment<A>,
    steps: &[Step],
) -> Result<RunEnd, AllocError>
    requires grouped { length groups.now.group_of ≡ length table.now.names }
    requires assigned { length assignment.now.lane_of_group ≡ groups.now.groups }
    requires few { length steps.now < 4294967295 }
    ensures end { IfOk result (λ end.
        EndsAs (wiring (declaration_of table.now groups.now) assignment.now) steps.now end) }
    ensures memory { OnErr result (0 < assignment.now.lanes) }
{
    let core = Core::new(alloc, table, groups, assignment)?;
    ends(alloc, core, steps)
}

/// As `check_run`, on workqueues of which some may have no rescuer.
pub fn check_run_on<A: Allocator + Copy>(
    alloc: A,
    table: &ItemTable<'_, A>,
    groups: &Groups<A>,
    workqueues: &Workqueues<A>,
    steps: &[Step],
) -> Result<RunEnd, AllocError>
    requires grouped { length groups.now.group_of ≡ length table.now.names }
    requires assigned { length workqueues.now.assignment.lane_of_group ≡ groups.now.groups }
    requires few { length steps.now < 4294967295 }
    ensures end { IfOk result (λ end.
        EndsAs (wiring_of (declaration_of table.now groups.now) workqueues.now) steps.now end) }
    ensures memory { OnErr result (0 < workqueues.now.assignment.lanes) }
{
    let core = Core::on_workqueues(alloc, table, groups, workqueues)?;
    ends(alloc, core, steps)
}

/// Whether an entry of one of these items is unfinished.
fn has_one_left<A: Allocator>(core: &Core<A>, named: &[ItemId]) -> bool
    ensures { IsTrue result ↔ HasOneLeft core.now.state named.now }
{
    for item in named {
        if core.has_unfinished(*item) {
            return true;
        }
    }
    false
}

/// Whether an entry of one of these items is unfinished, and no lane can move.
fn is_stuck_for<A: Allocator>(core: &Core<A>, named: &[ItemId]) -> bool
    ensures { IsTrue result ↔ IsStuckFor core.now.wiring named.now core.now.state }
{
    core.enabled().is_none() && has_one_left(core, named)
}

/// How a run without helpers that leaves this machine ends, where these items must go on.
fn end_for<A: Allocator + Copy>(
    alloc: A,
    core: &Core<A>,
    named: &[ItemId],
    steps: &[Step],
    in_order: bool,
) -> Result<RunEnd, AllocError>
    requires helpers { core.now.wiring.helpers ≡ 0 }
    requires few { length steps.now < 4294967295 }
    requires played { IsPlayed core.now.wiring steps.now in_order core.now }
    ensures end { IfOk result (λ end. EndsFor core.now.wiring named.now steps.now end) }
    ensures memory { OnErr result (0 < core.now.wiring.lanes) }
{
    if !is_stuck_for(core, named) {
        return Ok(RunEnd::Free);
    }
    if in_order && is_once(alloc, core, steps)? {
        Ok(RunEnd::Deadlock)
    } else {
        Ok(RunEnd::Stuck)
    }
}

/// How a list of steps ends that are made on a machine without helpers on which nothing was queued yet, where these
/// items must go on.
fn ends_for<A: Allocator + Copy>(
    alloc: A,
    mut core: Core<A>,
    named: &[ItemId],
    steps: &[Step],
) -> Result<RunEnd, AllocError>
    requires helpers { core.wiring.helpers ≡ 0 }
    requires empty { core.state ≡ empty_state core.wiring }
    requires few { length steps.now < 4294967295 }
    ensures end { IfOk result (λ end. EndsFor core.wiring named.now steps.now end) }
    ensures memory { OnErr result (0 < core.wiring.lanes) }
{
    match play(&mut core, steps) {
        Ok(in_order) => end_for(alloc, &core, named, steps, in_order),
        Err(at) => Ok(RunEnd::NotLawful(at)),
    }
}

/// How a list of fewer than 4,294,967,295 steps ends on workqueues of the groups, where these items must go on. The
/// only error is out of memory (20), which can't occur if there is no lane.
pub fn check_run_for<A: Allocator + Copy>(
    alloc: A,
    table: &ItemTable<'_, A>,
    groups: &Groups<A>,
    workqueues: &Workqueues<A>,
    named: &[ItemId],
    steps: &[Step],
) -> Result<RunEnd, AllocError>
    requires grouped { length groups.now.group_of ≡ length table.now.names }
    requires assigned { length workqueues.now.assignment.lane_of_group ≡ groups.now.groups }
    requires few { length steps.now < 4294967295 }
    ensures end { IfOk result (λ end. EndsFor (wiring_of (declaration_of table.now groups.now) workqueues.now)
        named.now steps.now end) }
    ensures memory { OnErr result (0 < workqueues.now.assignment.lanes) }
{
    let machine = Core::on_workqueues(alloc, table, groups, workqueues)?;
    ends_for(alloc, machine, named, steps)
}
