//! Workqueues of declared groups, with what holds of them, and others of the same groups.
//!
//! Nothing is searched here. Each function takes the time of the call that it makes.

ghost use Rattle.std.specs.Prelude.{◌≡◌, ◌≤◌, length, IfOk, IsTrue};
ghost use Rattle.wq_groups.specs.Assignment.{IsAssignmentOf};
ghost use Rattle.wq_groups.specs.Declaration.{IsDeclaration};
ghost use Rattle.wq_groups.specs.DeclaredGroups.{declared_waits};
ghost use Rattle.wq_graph.specs.Graph.{group_graph};
ghost use Rattle.wq_deadlock.specs.Judging.{AreSafe, IsJudged};

use std::alloc::{AllocError, Allocator};
use wq_core::{Assigned, Workqueues};
use wq_deadlock::{Judged, are_safe, judge};
use wq_graph::WaitGraph;

/// The workqueues, with what holds of them and of what is declared.
pub(crate) fn workqueues_of<'s, A: Allocator>(
    assigned: &'s Assigned<'_, '_, A>,
) -> &'s Workqueues<A>
    ensures is { result.now ≡ assigned.now.workqueues }
    ensures declaration { IsDeclaration (declared_waits assigned.now.declared) }
    ensures assignment { IsAssignmentOf assigned.now.declared.partition.groups result.now.assignment }
    ensures few { assigned.now.declared.partition.groups ≤ 4096 }
{
    assigned.workqueues()
}

/// These workqueues of the same groups.
pub(crate) fn with_workqueues<'s, 'a, A: Allocator>(
    assigned: &'s Assigned<'_, 'a, A>,
    workqueues: &'s Workqueues<A>,
) -> Assigned<'s, 'a, A>
    requires { length workqueues.now.assignment.lane_of_group ≡ assigned.now.declared.partition.groups }
    ensures { result ≡ record { declared = assigned.now.declared; workqueues = workqueues.now } }
{
    Assigned::new(assigned.declared, workqueues)
}

/// Whether these workqueues of the same groups are safe.
pub(crate) fn judge_others<A: Allocator + Copy>(
    alloc: A,
    assigned: &Assigned<'_, '_, A>,
    workqueues: &Workqueues<A>,
) -> Result<Judged<A>, AllocError>
    requires { length workqueues.now.assignment.lane_of_group ≡ assigned.now.declared.partition.groups }
    ensures { IfOk result (IsJudged (declared_waits assigned.now.declared) workqueues.now) }
{
    let others = with_workqueues(assigned, workqueues);
    judge(alloc, &others)
}

/// Whether these workqueues of the same groups are safe, without a run.
pub(crate) fn others_are_safe<A: Allocator + Copy>(
    alloc: A,
    assigned: &Assigned<'_, '_, A>,
    workqueues: &Workqueues<A>,
) -> Result<bool, AllocError>
    requires { length workqueues.now.assignment.lane_of_group ≡ assigned.now.declared.partition.groups }
    ensures { IfOk result (λ safe. IsTrue safe → AreSafe (declared_waits assigned.now.declared) workqueues.now) }
{
    let others = with_workqueues(assigned, workqueues);
    are_safe(alloc, &others)
}

/// The wait graph of the groups.
pub(crate) fn graph_of_groups<A: Allocator + Copy>(
    alloc: A,
    assigned: &Assigned<'_, '_, A>,
) -> Result<WaitGraph<A>, AllocError>
    ensures { IfOk result (λ graph. graph ≡ group_graph (declared_waits assigned.now.declared)) }
{
    WaitGraph::of_groups(alloc, assigned.table(), assigned.groups())
}
