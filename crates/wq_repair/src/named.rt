//! Which groups may move, and which lanes may be given a rescuer.
//!
//! A group moves as a whole, so one item is enough. It takes time in the number of groups and names.

ghost use Rattle.std.specs.Prelude.{◌≡◌, ◌<◌, ◌≤◌, false, length, slice_index_or, IfOk};
ghost use Rattle.std.specs.List.{All};
ghost use Rattle.wq_groups.specs.DeclaredGroups.{declared_waits};
ghost use Rattle.wq_repair.specs.Changes.{IsNamed};
ghost use Rattle.wq_repair.specs.Marks.{Marks};
ghost use Rattle.wq_repair.specs.Steps.{AreNamed, HoldsMarked};

use crate::assigned::workqueues_of;
use crate::listing::is_marked;
use std::alloc::{AllocError, Allocator};
use std::marker::Model;
use wq_core::{Assigned, Workqueues};
use wq_groups::{GroupId, LaneId};
use wq_items::ItemId;

/// Which groups may move, and which lanes may be given a rescuer.
#[derive(Drop)]
pub(crate) struct Named<A: Allocator> {
    /// For each group whether it may move.
    pub(crate) groups: Vec<bool, A>,
    /// For each lane whether it may be given a rescuer.
    pub(crate) lanes: Vec<bool, A>,
}

impl<A: Allocator> Model for Named<A> {
    ghost use Rattle.wq_repair.specs.Steps.{Named as NamedView};

    ghost Value = { NamedView };

    ghost view = { λ n. record { groups = n.groups.items; lanes = n.lanes.items } };
}

impl<A: Allocator> Named<A> {
    /// Whether a group may move.
    pub(crate) fn has_group(&self, group: GroupId) -> bool
        ensures { result ≡ slice_index_or self.now.groups group false }
    {
        is_marked(self.groups.as_slice(), usize::from(group.get()))
    }

    /// Whether a lane may be given a rescuer.
    pub(crate) fn has_lane(&self, lane: LaneId) -> bool
        ensures { result ≡ slice_index_or self.now.lanes lane false }
    {
        is_marked(self.lanes.as_slice(), usize::from(lane.get()))
    }
}

/// For each group, whether one of these items is in it.
fn named_groups<A: Allocator + Copy>(
    alloc: A,
    assigned: &Assigned<'_, '_, A>,
    names: &[ItemId],
) -> Result<Vec<bool, A>, AllocError>
    requires { All (λ i. i < length assigned.now.declared.table.names) names.now }
    ensures { IfOk result (λ named. Marks (IsNamed (declared_waits assigned.now.declared) names.now)
        assigned.now.declared.partition.groups named.items) }
{
    let groups = assigned.groups();
    let mut named = vec![in alloc; false; usize::from(groups.len())]?;
    for item in names {
        named[usize::from(groups.of(*item).get())] = true;
    }
    Ok(named)
}

/// For each lane, whether a group is on it that may move.
pub(crate) fn named_lanes<A: Allocator + Copy>(
    alloc: A,
    workqueues: &Workqueues<A>,
    named: &[bool],
) -> Result<Vec<bool, A>, AllocError>
    requires one_each { length named.now ≡ length workqueues.now.assignment.lane_of_group }
    requires few { length named.now ≤ 4096 }
    ensures { IfOk result (λ lanes.
        Marks (HoldsMarked workqueues.now named.now) workqueues.now.assignment.lanes lanes.items) }
{
    let mut lanes = vec![in alloc; false; usize::from(workqueues.assignment().lanes())]?;
    for (group, is_named) in named.iter().enumerate() {
        if !*is_named {
            continue;
        }
        let lane = workqueues.assignment().lane(GroupId::new(group as u16));
        lanes[usize::from(lane.get())] = true;
    }
    Ok(lanes)
}

/// Which groups may move if only those of these items may, and which lanes may be given a rescuer then.
pub(crate) fn named_by<A: Allocator + Copy>(
    alloc: A,
    assigned: &Assigned<'_, '_, A>,
    names: &[ItemId],
) -> Result<Named<A>, AllocError>
    requires { All (λ i. i < length assigned.now.declared.table.names) names.now }
    ensures { IfOk result
        (AreNamed (declared_waits assigned.now.declared) assigned.now.workqueues names.now) }
{
    let groups = named_groups(alloc, assigned, names)?;
    let lanes = named_lanes(alloc, workqueues_of(assigned), groups.as_slice())?;
    Ok(Named { groups, lanes })
}
