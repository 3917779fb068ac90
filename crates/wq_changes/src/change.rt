//! Changes of workqueues: which there are.
//!
//! A call takes O(groups + lanes) time, and O(groups) more for each lane that is given a rescuer.

ghost use Rattle.std.specs.Prelude.{◌≡◌, ◌<◌, ◌≤◌, ◌++◌, IfOk, OnOk, filter, length, map};
ghost use Rattle.std.specs.List.{list_any, range_with_len};
ghost use Rattle.wq_repair.specs.Changes.{lane_in};
ghost use Rattle.wq_changes.specs.Changes.{changes_of, has_moved, is_given, stays_on};
ghost use Rattle.wq_changes.specs.declared.change.Change.TheVariants as kind;

use std::alloc::{AllocError, Allocator};
use wq_core::Workqueues;
use wq_groups::{GroupId, LaneId};

/// A change of workqueues.
#[derive(Clone, Copy, Debug, PartialEq, Eq)]
pub enum Change {
    /// This lane had no rescuer and is given one, and a group stays on it.
    Given(LaneId),
    /// This group is on another lane.
    Moved(GroupId),
}

/// The lane of a group.
pub(crate) fn lane_in<A: Allocator>(workqueues: &Workqueues<A>, group: GroupId) -> LaneId
    requires { group < length workqueues.now.assignment.lane_of_group }
    ensures { result ≡ lane_in workqueues.now group }
{
    workqueues.assignment().lane(group)
}

/// Whether a group is on this lane, and was.
fn stays_on<A: Allocator>(
    old: &Workqueues<A>,
    new: &Workqueues<A>,
    lane: LaneId,
    group: GroupId,
) -> bool
    requires old { group < length old.now.assignment.lane_of_group }
    requires new { group < length new.now.assignment.lane_of_group }
    ensures { result ≡ stays_on old.now new.now lane group }
{
    lane_in(old, group) == lane && lane_in(new, group) == lane
}

/// Whether one of the groups is on this lane in both assignments.
fn has_stayed<A: Allocator>(
    old: &Workqueues<A>,
    new: &Workqueues<A>,
    groups: u16,
    lane: LaneId,
) -> bool
    requires old { length old.now.assignment.lane_of_group ≡ groups }
    requires new { length new.now.assignment.lane_of_group ≡ groups }
    ensures { result ≡ list_any (stays_on old.now new.now lane) (range_with_len 0 groups) }
{
    for number in 0..groups {
        if stays_on(old, new, lane, GroupId::new(number)) {
            return true;
        }
    }
    false
}

/// Whether a lane is given a rescuer, and one of the groups stays on it.
fn is_given<A: Allocator>(
    old: &Workqueues<A>,
    new: &Workqueues<A>,
    groups: u16,
    lane: LaneId,
) -> bool
    requires old { length old.now.assignment.lane_of_group ≡ groups }
    requires new { length new.now.assignment.lane_of_group ≡ groups }
    ensures { result ≡ is_given groups old.now new.now lane }
{
    old.is_bare(lane) && !new.is_bare(lane) && has_stayed(old, new, groups, lane)
}

/// Whether a group is on another lane.
fn has_moved<A: Allocator>(old: &Workqueues<A>, new: &Workqueues<A>, group: GroupId) -> bool
    requires old { group < length old.now.assignment.lane_of_group }
    requires new { group < length new.now.assignment.lane_of_group }
    ensures { result ≡ has_moved old.now new.now group }
{
    lane_in(new, group) != lane_in(old, group)
}

/// Adds the lanes that are given a rescuer, by number.
fn push_given<A: Allocator + Copy>(
    changes: &mut Vec<Change, A>,
    old: &Workqueues<A>,
    new: &Workqueues<A>,
    groups: u16,
) -> Result<(), AllocError>
    requires old { length old.now.assignment.lane_of_group ≡ groups }
    requires new { length new.now.assignment.lane_of_group ≡ groups }
    ensures { OnOk result (changes.new.items ≡ changes.old.items
        ++ map (λ q. kind.Given q) (filter (is_given groups old.now new.now)
        (range_with_len 0 old.now.assignment.lanes))) }
{
    for number in 0..old.assignment().lanes() {
        let lane = LaneId::new(number);
        if is_given(old, new, groups, lane) {
            changes.push(Change::Given(lane))?;
        }
    }
    Ok(())
}

/// Adds the groups that are on another lane, by number.
fn push_moved<A: Allocator + Copy>(
    changes: &mut Vec<Change, A>,
    old: &Workqueues<A>,
    new: &Workqueues<A>,
    groups: u16,
) -> Result<(), AllocError>
    requires old { length old.now.assignment.lane_of_group ≡ groups }
    requires new { length new.now.assignment.lane_of_group ≡ groups }
    ensures { OnOk result (changes.new.items ≡ changes.old.items
        ++ map (λ g. kind.Moved g) (filter (has_moved old.now new.now) (range_with_len 0 groups))) }
{
    for number in 0..groups {
        let group = GroupId::new(number);
        if has_moved(old, new, group) {
            changes.push(Change::Moved(group))?;
        }
    }
    Ok(())
}

/// The changes from the old workqueues of these groups to the new ones: first the lanes that are given a rescuer, and
/// then the groups that are on another lane, each by number.
///
/// The only error is out of memory (20).
pub(crate) fn changes<A: Allocator + Copy>(
    alloc: A,
    old: &Workqueues<A>,
    new: &Workqueues<A>,
    groups: u16,
) -> Result<Vec<Change, A>, AllocError>
    requires old { length old.now.assignment.lane_of_group ≡ groups }
    requires new { length new.now.assignment.lane_of_group ≡ groups }
    ensures { IfOk result (λ changes. changes.items ≡ changes_of groups old.now new.now) }
{
    let mut changes = Vec::new(alloc);
    push_given(&mut changes, old, new, groups)?;
    push_moved(&mut changes, old, new, groups)?;
    Ok(changes)
}
