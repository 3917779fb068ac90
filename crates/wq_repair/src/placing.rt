//! Where the groups go that aren't put back: to lanes of their rank.
//!
//! Ranks fall along every wait, and lanes that hold groups of the same rank can be put together. So a group goes to a
//! lane on which a group of its rank stays, if a movable group was on it; and else all of that rank go to an empty
//! lane, or to a new one. (All groups need a rescuer on a lane to which groups go. So a movable group was on it
//! exactly if it is named.) It takes time and memory in the number of groups and lanes.

ghost use Rattle.std.specs.Prelude.{◌≡◌, ◌<◌, ◌≤◌, ℕ, length, slice_index, IfOk, IsSome, IsTrue};
ghost use Rattle.wq_repair.specs.Changes.{IsRescued};
ghost use Rattle.wq_repair.specs.Marks.{IsMarked, Marks};
ghost use Rattle.wq_repair.specs.Steps.{ArePlacedBy};
ghost use Rattle.wq_repair.specs.Together.{AreListed, Lists};
ghost use Rattle.wq_repair.specs.Lanes.{AreFree};
ghost use Rattle.wq_repair.specs.Placing.{HasNoLane, AreLanesOfRanks, HasRanked, AreEmpty, AreTaken, AreRankedLanes};
ghost use Rattle.wq_repair.specs.Placing.{AreHosted, CanBePlaced};

use crate::lanes::{bare_now, lanes_with, nth_lane};
use crate::named::named_lanes;
use crate::start::free_lanes;
use std::alloc::{AllocError, Allocator};
use wq_core::Workqueues;
use wq_groups::{Assignment, GroupId, LaneId};

/// Whether there is a lane, and it isn't above another.
fn is_at_most(lane: Option<LaneId>, other: LaneId) -> bool
    ensures { IsTrue result → IsSome lane }
{
    match lane {
        Some(lane) => lane.get() <= other.get(),
        None => false,
    }
}

/// The lowest named lane of each rank, of the groups that need a rescuer and stay.
fn lanes_by_rank<A: Allocator + Copy>(
    alloc: A,
    old: &Workqueues<A>,
    stays: &[bool],
    named: &[bool],
    ranks: &[u16],
    most: usize,
) -> Result<Vec<Option<LaneId>, A>, AllocError>
    requires stays { length stays.now ≡ length old.now.assignment.lane_of_group }
    requires named { length named.now ≡ old.now.assignment.lanes }
    requires one_each { length ranks.now ≡ length old.now.assignment.lane_of_group }
    requires few { length stays.now ≤ 4096 }
    requires below { (g : ℕ) → g < length ranks.now → slice_index ranks.now g < most }
    ensures { IfOk result (λ lanes.
        AreLanesOfRanks old.now stays.now named.now ranks.now most (length stays.now) lanes.items) }
{
    let _lanes = old.assignment().lanes();
    let mut lanes: Vec<Option<LaneId>, A> = vec![in alloc; None; most]?;
    for (group, does_stay) in stays.iter().enumerate() {
        if !*does_stay {
            continue;
        }
        let lane = old.assignment().lane(GroupId::new(group as u16));
        if !named[usize::from(lane.get())] {
            continue;
        }
        let rank = usize::from(ranks[group]);
        if is_at_most(lanes[rank], lane) {
            continue;
        }
        lanes[rank] = Some(lane);
    }
    Ok(lanes)
}

/// For each rank, whether a group of that rank leaves.
fn ranks_that_leave<A: Allocator + Copy>(
    alloc: A,
    leaves: &[bool],
    ranks: &[u16],
    most: usize,
) -> Result<Vec<bool, A>, AllocError>
    requires one_each { length ranks.now ≡ length leaves.now }
    requires below { (g : ℕ) → g < length ranks.now → slice_index ranks.now g < most }
    ensures { IfOk result (λ leave. Marks (HasRanked leaves.now ranks.now) most leave.items) }
{
    let mut leave = vec![in alloc; false; most]?;
    for (group, does_leave) in leaves.iter().enumerate() {
        if !*does_leave {
            continue;
        }
        leave[usize::from(ranks[group])] = true;
    }
    Ok(leave)
}

/// Of these lanes, those that have a rescuer, upwards.
fn rescued_of<A: Allocator + Copy>(
    alloc: A,
    workqueues: &Workqueues<A>,
    lanes: &[bool],
) -> Result<Vec<LaneId, A>, AllocError>
    requires { length lanes.now ≤ 4096 }
    ensures { IfOk result (λ listed. AreListed (λ q. IsMarked lanes.now q × IsRescued workqueues.now q) listed.items) }
{
    let mut listed = Vec::new(alloc);
    for (lane, is_one) in lanes.iter().enumerate() {
        if !*is_one {
            continue;
        }
        let lane = LaneId::new(lane as u16);
        if workqueues.is_bare(lane) {
            continue;
        }
        listed.push(lane)?;
    }
    Ok(listed)
}

/// Puts those of these lanes behind that have no rescuer, upwards.
fn with_bare_of<A: Allocator + Copy>(
    workqueues: &Workqueues<A>,
    lanes: &[bool],
    mut listed: Vec<LaneId, A>,
) -> Result<Vec<LaneId, A>, AllocError>
    requires few { length lanes.now ≤ 4096 }
    requires listed { AreListed (λ q. IsMarked lanes.now q × IsRescued workqueues.now q) listed.items }
    ensures { IfOk result (λ all. Lists lanes.now all.items) }
{
    for (lane, is_one) in lanes.iter().enumerate() {
        if !*is_one {
            continue;
        }
        let lane = LaneId::new(lane as u16);
        if !workqueues.is_bare(lane) {
            continue;
        }
        listed.push(lane)?;
    }
    Ok(listed)
}

/// The lanes on which no group is, upwards: those that have a rescuer, and then those that have none.
fn empty_lanes<A: Allocator + Copy>(
    alloc: A,
    workqueues: &Workqueues<A>,
    groups: u16,
) -> Result<Vec<LaneId, A>, AllocError>
    requires assigned { length workqueues.now.assignment.lane_of_group ≡ groups }
    requires few { groups ≤ 4096 }
    ensures free { IfOk result (λ empty. AreFree workqueues.now.assignment.lanes empty.items) }
    ensures empty { IfOk result (λ empty. AreEmpty workqueues.now empty.items) }
{
    let _lanes = workqueues.assignment().lanes();
    let none = vec![in alloc; false; usize::from(groups)]?;
    let is_empty = free_lanes(alloc, workqueues, none.as_slice())?;
    let rescued = rescued_of(alloc, workqueues, is_empty.as_slice())?;
    with_bare_of(workqueues, is_empty.as_slice(), rescued)
}

/// Takes a lane for each rank of which a group leaves and none stays. The answer says how many are taken.
fn take_lanes(of_rank: &mut [Option<LaneId>], leave: &[bool], empty: &[LaneId], there: u16) -> u16
    requires one_each { length of_rank.old ≡ length leave.now }
    requires few { length leave.now ≤ 4096 }
    requires there { there ≤ 4096 }
    requires free { AreFree there empty.now }
    ensures { AreTaken leave.now empty.now there (length leave.now) of_rank.old of_rank.new result }
{
    let mut taken = 0;
    for (rank, does_leave) in leave.iter().enumerate() {
        if !*does_leave {
            continue;
        }
        if of_rank[rank].is_some() {
            continue;
        }
        of_rank[rank] = Some(nth_lane(empty, there, taken));
        taken += 1;
    }
    taken
}

/// Each group that leaves on the lane of its rank, and all others on theirs.
fn lanes_of_groups<A: Allocator + Copy>(
    alloc: A,
    old: &Workqueues<A>,
    leaves: &[bool],
    ranks: &[u16],
    of_rank: &[Option<LaneId>],
) -> Result<Vec<LaneId, A>, AllocError>
    requires leaves { length leaves.now ≡ length old.now.assignment.lane_of_group }
    requires one_each { length ranks.now ≡ length leaves.now }
    requires few { length leaves.now ≤ 4096 }
    requires below { (g : ℕ) → g < length ranks.now → slice_index ranks.now g < length of_rank.now }
    requires some { (g : ℕ) → IsMarked leaves.now g → ¬ HasNoLane of_rank.now (slice_index ranks.now g) }
    ensures { IfOk result (λ lane_of.
        AreRankedLanes old.now leaves.now ranks.now of_rank.now (length leaves.now) lane_of.items) }
{
    let mut lane_of = Vec::with_capacity(alloc, leaves.len())?;
    for (group, does_leave) in leaves.iter().enumerate() {
        if !*does_leave {
            lane_of.push(old.assignment().lane(GroupId::new(group as u16)))?;
            continue;
        }
        let lane = of_rank[usize::from(ranks[group])];
        lane_of.push(lane.unwrap())?;
    }
    Ok(lane_of)
}

/// The workqueues on which each group that leaves is on a lane of its rank, and all others stay. Of the lanes that hold
/// groups, they go only to those that hold one that may move. Lanes to which groups go have a rescuer, and so have
/// those that are given one. `most` is above all ranks.
pub(crate) fn place<A: Allocator + Copy>(
    alloc: A,
    old: &Workqueues<A>,
    given: &[bool],
    stays: &[bool],
    leaves: &[bool],
    ranks: &[u16],
    most: usize,
    movable: &[bool],
) -> Result<Workqueues<A>, AllocError>
    requires given { length given.now ≡ old.now.assignment.lanes }
    requires stays { length stays.now ≡ length old.now.assignment.lane_of_group }
    requires leaves { length leaves.now ≡ length old.now.assignment.lane_of_group }
    requires one_each { length ranks.now ≡ length old.now.assignment.lane_of_group }
    requires few { length leaves.now ≤ 4096 }
    requires ranks_few { most ≤ 4096 }
    requires movable { length movable.now ≡ length old.now.assignment.lane_of_group }
    requires can { CanBePlaced old.now given.now stays.now leaves.now ranks.now most }
    ensures { IfOk result (λ new. ArePlacedBy old.now given.now stays.now leaves.now ranks.now new
        × AreHosted old.now movable.now leaves.now new) }
{
    let assignment = old.assignment();
    let named = named_lanes(alloc, old, movable)?;
    let mut of_rank = lanes_by_rank(alloc, old, stays, named.as_slice(), ranks, most)?;
    let leave = ranks_that_leave(alloc, leaves, ranks, most)?;
    let empty = empty_lanes(alloc, old, leaves.len() as u16)?;
    let taken = take_lanes(
        of_rank.as_mut_slice(),
        leave.as_slice(),
        empty.as_slice(),
        assignment.lanes(),
    );
    let lane_of = lanes_of_groups(alloc, old, leaves, ranks, of_rank.as_slice())?;
    let bare = bare_now(alloc, old, leaves, given, lane_of.as_slice())?;
    let lanes = lanes_with(empty.as_slice(), assignment.lanes(), taken);
    let assignment = Assignment::new(lanes, lane_of).unwrap();
    Ok(Workqueues::new(assignment, bare))
}
