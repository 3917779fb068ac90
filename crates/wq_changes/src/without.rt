//! Workqueues without one of their changes, but with all others.
//!
//! Making them takes time and memory linear in the number of groups and lanes.

ghost use Rattle.std.specs.Prelude.{◌≡◌, ◌<◌, ◌≤◌, IfOk, length, map};
ghost use Rattle.std.specs.List.{range_with_len};
ghost use Rattle.wq_changes.specs.Without.{bare_without, gives, lane_without, moves, without_change};

use crate::change::{Change, lane_in};
use std::alloc::{AllocError, Allocator};
use wq_core::Workqueues;
use wq_groups::{Assignment, GroupId, LaneId};

/// Whether a change is that this group moved.
fn moves(change: &Change, group: GroupId) -> bool
    ensures { result ≡ moves change.now group }
{
    match change {
        Change::Moved(moved) => group == *moved,
        Change::Given(_) => false,
    }
}

/// Whether a change is that this lane is given a rescuer.
fn gives(change: &Change, lane: LaneId) -> bool
    ensures { result ≡ gives change.now lane }
{
    match change {
        Change::Moved(_) => false,
        Change::Given(given) => lane == *given,
    }
}

/// The lane of a group without this change.
fn lane_without<A: Allocator>(
    old: &Workqueues<A>,
    new: &Workqueues<A>,
    change: &Change,
    group: GroupId,
) -> LaneId
    requires old { group < length old.now.assignment.lane_of_group }
    requires new { group < length new.now.assignment.lane_of_group }
    ensures { result ≡ lane_without old.now new.now change.now group }
{
    if moves(change, group) {
        lane_in(old, group)
    } else {
        lane_in(new, group)
    }
}

/// Whether a lane has no rescuer without this change.
fn bare_without<A: Allocator>(new: &Workqueues<A>, change: &Change, lane: LaneId) -> bool
    ensures { result ≡ bare_without new.now change.now lane }
{
    gives(change, lane) || new.is_bare(lane)
}

/// The lane of each group without this change.
fn lanes_without<A: Allocator + Copy>(
    alloc: A,
    old: &Workqueues<A>,
    new: &Workqueues<A>,
    change: &Change,
    groups: u16,
) -> Result<Vec<LaneId, A>, AllocError>
    requires old { length old.now.assignment.lane_of_group ≡ groups }
    requires new { length new.now.assignment.lane_of_group ≡ groups }
    ensures { IfOk result (λ lanes. lanes.items
        ≡ map (lane_without old.now new.now change.now) (range_with_len 0 groups)) }
{
    let mut lanes = Vec::new(alloc);
    for number in 0..groups {
        lanes.push(lane_without(old, new, change, GroupId::new(number)))?;
    }
    Ok(lanes)
}

/// For each lane whether it has no rescuer without this change.
fn bares_without<A: Allocator + Copy>(
    alloc: A,
    new: &Workqueues<A>,
    change: &Change,
) -> Result<Vec<bool, A>, AllocError>
    ensures { IfOk result (λ bare. bare.items
        ≡ map (bare_without new.now change.now) (range_with_len 0 new.now.assignment.lanes)) }
{
    let mut bare = Vec::new(alloc);
    for number in 0..new.assignment().lanes() {
        bare.push(bare_without(new, change, LaneId::new(number)))?;
    }
    Ok(bare)
}

/// The new workqueues without this change from the old ones; `groups` is the number of groups.
pub(crate) fn without_change<A: Allocator + Copy>(
    alloc: A,
    old: &Workqueues<A>,
    new: &Workqueues<A>,
    change: &Change,
    groups: u16,
) -> Result<Workqueues<A>, AllocError>
    requires old { length old.now.assignment.lane_of_group ≡ groups }
    requires new { length new.now.assignment.lane_of_group ≡ groups }
    requires lanes { old.now.assignment.lanes ≤ new.now.assignment.lanes }
    ensures { IfOk result (λ ws. ws ≡ without_change old.now new.now change.now) }
{
    // What holds of the old lanes, too.
    let _old = old.assignment().lanes();
    let count = new.assignment().lanes();
    let lanes = lanes_without(alloc, old, new, change, groups)?;
    let bare = bares_without(alloc, new, change)?;
    let assignment = Assignment::new(count, lanes).unwrap();
    Ok(Workqueues::new(assignment, bare))
}
