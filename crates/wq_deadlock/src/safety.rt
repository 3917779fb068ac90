//! Whether an assignment, or workqueues of which some have no rescuer, are safe: no run of them ends stuck.
//!
//! The rule is that of Documentation/core-api/workqueue.rst, "Guidelines": work items that are used during reclaim and
//! depend on one another belong on separate workqueues with WQ_MEM_RECLAIM. If the workqueues have ranks that fall
//! along every declared flush, a chain of workqueues can always move at its end. If they wait in a circle, some run
//! ends stuck. A runtime asks this once, when it is made; no run and no machine is made for it. It takes
//!
//!   O(items + workqueues + flushes) time.

ghost use Rattle.std.specs.Prelude.{◌≡◌, ◌<◌, ◌↔◌, [], false, length, IfOk, OnErr, IsTrue};
ghost use Rattle.wq_groups.specs.Declaration.{declaration_of};
ghost use Rattle.wq_groups.specs.DeclaredGroups.{declared_waits};
ghost use Rattle.wq_core.specs.Wiring.{wiring};
ghost use Rattle.wq_core.specs.Workqueues.{wiring_of};
ghost use Rattle.wq_core.specs.Deadlock.{Deadlocks, IsSafe};
ghost use Rattle.wq_deadlock.specs.Judging.{AreSafe, bare_waits};

use crate::bare::bare_waits;
use crate::workqueues::rescued_graph;
use std::alloc::{AllocError, Allocator};
use wq_core::Assigned;
use wq_graph::WaitGraph;
use wq_groups::{Assignment, Groups};
use wq_items::ItemTable;
use wq_levels::{Ranked, rank};

/// Whether an assignment of a table's items is safe. The groups must be those of this table, and the assignment must
/// have a workqueue for each of them.
///
/// The only error is out of memory (20), which can't occur if there is no workqueue.
pub fn is_safe<A: Allocator + Copy>(
    alloc: A,
    table: &ItemTable<'_, A>,
    groups: &Groups<A>,
    assignment: &Assignment<A>,
) -> Result<bool, AllocError>
    requires grouped { length groups.now.group_of ≡ length table.now.names }
    requires assigned { length assignment.now.lane_of_group ≡ groups.now.groups }
    ensures safe { IfOk result (λ safe. IsTrue safe
        ↔ IsSafe (wiring (declaration_of table.now groups.now) assignment.now)) }
    ensures memory { OnErr result (0 < assignment.now.lanes) }
{
    // Each group has a member.
    prove!(groups.len() <= table.len());
    prove!(assignment.lanes() <= 4096);
    let graph = WaitGraph::of_lanes(alloc, table, groups, assignment)?;
    match rank(alloc, &graph)? {
        Ranked::Ranks(_) => Ok(true),
        Ranked::Circle(_) => Ok(false),
    }
}

/// Whether workqueues are safe, if no flush leads from one that has a rescuer to one that has none.
fn rescued_are_safe<A: Allocator + Copy>(
    alloc: A,
    assigned: &Assigned<'_, '_, A>,
) -> Result<bool, AllocError>
    requires none { bare_waits (declared_waits assigned.now.declared) assigned.now.workqueues ≡ [] }
    ensures yes { IfOk result (λ safe. IsTrue safe →
        AreSafe (declared_waits assigned.now.declared) assigned.now.workqueues) }
    ensures no { IfOk result (λ safe. safe ≡ false →
        Deadlocks (wiring_of (declared_waits assigned.now.declared) assigned.now.workqueues)) }
    ensures some { IfOk result (λ safe. safe ≡ false → 0 < assigned.now.workqueues.assignment.lanes) }
    ensures memory { OnErr result (0 < assigned.now.workqueues.assignment.lanes) }
{
    let graph = rescued_graph(alloc, assigned)?;
    match rank(alloc, &graph)? {
        Ranked::Ranks(_) => Ok(true),
        Ranked::Circle(_) => Ok(false),
    }
}

/// Whether the workqueues of declared groups are safe.
///
/// The only error is out of memory (20), which can't occur if there is no workqueue.
pub fn are_safe<A: Allocator + Copy>(
    alloc: A,
    assigned: &Assigned<'_, '_, A>,
) -> Result<bool, AllocError>
    ensures yes { IfOk result (λ safe. IsTrue safe →
        AreSafe (declared_waits assigned.now.declared) assigned.now.workqueues) }
    ensures no { IfOk result (λ safe. safe ≡ false →
        Deadlocks (wiring_of (declared_waits assigned.now.declared) assigned.now.workqueues)) }
    ensures some { IfOk result (λ safe. safe ≡ false → 0 < assigned.now.workqueues.assignment.lanes) }
    ensures memory { OnErr result (0 < assigned.now.workqueues.assignment.lanes) }
{
    let waits = bare_waits(alloc, assigned)?;
    if waits.is_empty() {
        rescued_are_safe(alloc, assigned)
    } else {
        Ok(false)
    }
}
