//! Flushes that lead to a workqueue without a rescuer.
//!
//! If an item whose workqueue has a rescuer waits for one whose workqueue has none, nothing guarantees that the wait
//! ever ends. Finding these flushes takes O(items + flushes) time and memory.

ghost use Rattle.std.specs.Prelude.{◌≡◌, ◌<◌, length, filter, IfOk, IfErr, OnErr};
ghost use Rattle.std.specs.List.{All};
ghost use Rattle.wq_groups.specs.DeclaredGroups.{declared_waits};
ghost use Rattle.wq_core.specs.Assigned.{IsAssigned};
ghost use Rattle.wq_deadlock.specs.Judging.{is_on_bare, leads_to_bare, bare_waits};

use std::alloc::{AllocError, Allocator};
use wq_core::Assigned;
use wq_graph::{WaitArc, group_arcs_by_place};
use wq_items::ItemId;

/// Whether an item is on a workqueue without a rescuer.
pub fn is_on_bare<A: Allocator + Copy>(assigned: &Assigned<'_, '_, A>, item: ItemId) -> bool
    requires item { item < length assigned.now.declared.partition.group_of }
    ensures { result ≡ is_on_bare assigned.now.workqueues assigned.now.declared.partition.group_of item }
{
    let group = assigned.groups().of(item);
    let workqueues = assigned.workqueues();
    workqueues.is_bare(workqueues.assignment().lane(group))
}

/// Whether a flush leads from a workqueue that has a rescuer to one that has none.
fn leads_to_bare<A: Allocator + Copy>(assigned: &Assigned<'_, '_, A>, arc: &WaitArc) -> bool
    requires src { arc.now.src < length assigned.now.declared.partition.group_of }
    requires dst { arc.now.dst < length assigned.now.declared.partition.group_of }
    ensures { result ≡ leads_to_bare assigned.now.workqueues assigned.now.declared.partition.group_of arc.now }
{
    !is_on_bare(assigned, arc.src) && is_on_bare(assigned, arc.dst)
}

/// Those of these flushes that lead from a workqueue that has a rescuer to one that has none.
fn bare_among<A: Allocator + Copy>(
    alloc: A,
    assigned: &Assigned<'_, '_, A>,
    arcs: &[WaitArc],
) -> Result<Vec<WaitArc, A>, AllocError>
    requires src { All (λ a. a.src < length assigned.now.declared.partition.group_of) arcs.now }
    requires dst { All (λ a. a.dst < length assigned.now.declared.partition.group_of) arcs.now }
    ensures waits { IfOk result (λ waits. waits.items
        ≡ filter (leads_to_bare assigned.now.workqueues assigned.now.declared.partition.group_of) arcs.now) }
    ensures memory { IfErr result (λ _. 0 < length arcs.now) }
{
    let mut waits = Vec::new(alloc);
    for arc in arcs {
        if leads_to_bare(assigned, arc) {
            waits.push(*arc)?;
        }
    }
    Ok(waits)
}

/// The flushes that lead from a workqueue that has a rescuer to one that has none, in order of place; and what holds
/// for each declaration with workqueues.
///
/// The only error is out of memory (20), which can't occur if there is no workqueue.
pub fn bare_waits<A: Allocator + Copy>(
    alloc: A,
    assigned: &Assigned<'_, '_, A>,
) -> Result<Vec<WaitArc, A>, AllocError>
    ensures arcs { IfOk result (λ arcs.
        arcs.items ≡ bare_waits (declared_waits assigned.now.declared) assigned.now.workqueues) }
    ensures assigned { IsAssigned assigned.now }
    ensures memory { OnErr result (0 < assigned.now.workqueues.assignment.lanes) }
{
    let all = group_arcs_by_place(alloc, assigned.table(), assigned.groups())?;
    bare_among(alloc, assigned, all.as_slice())
}
