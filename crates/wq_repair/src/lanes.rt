//! Lanes that are taken one after the other: first old ones, then new ones; and which groups have a rescuer then.
//!
//! A lane takes constant time, and all rescuers time in the number of groups and lanes.

ghost use Rattle.std.specs.Prelude.{◌≡◌, ◌+◌, ◌-◌, ◌<◌, ◌≤◌, length, IfOk};
ghost use Rattle.wq_repair.specs.Changes.{IsBare};
ghost use Rattle.wq_repair.specs.Marks.{Marks};
ghost use Rattle.wq_repair.specs.Lanes.{nth_lane, AreFree, AreOwnLanes, AreBareNow};

use crate::listing::either;
use std::alloc::{AllocError, Allocator};
use wq_core::Workqueues;
use wq_groups::{Assignment, GroupId, LaneId};

/// Of these lanes, and then of new ones behind the `there` lanes that there are, the one with this number, from 0.
pub(crate) fn nth_lane(free: &[LaneId], there: u16, nth: u16) -> LaneId
    requires there { there ≤ 4096 }
    requires few { nth ≤ 4096 }
    ensures { result ≡ nth_lane free.now there nth }
{
    if usize::from(nth) < free.len() {
        free[usize::from(nth)]
    } else {
        LaneId::new(there + (nth - free.len() as u16))
    }
}

/// How many lanes there are once so many are taken.
pub(crate) fn lanes_with(free: &[LaneId], there: u16, taken: u16) -> u16
    requires there { there ≤ 4096 }
    requires few { taken ≤ 4096 }
    ensures { result ≡ there + (taken - length free.now) }
{
    if usize::from(taken) < free.len() {
        there
    } else {
        there + (taken - free.len() as u16)
    }
}

/// Each marked group on a lane of its own, by number, and all others on theirs; and how many lanes are taken.
pub(crate) fn own_lanes<A: Allocator + Copy>(
    alloc: A,
    old: &Assignment<A>,
    marks: &[bool],
    free: &[LaneId],
) -> Result<(Vec<LaneId, A>, u16), AllocError>
    requires one_each { length marks.now ≡ length old.now.lane_of_group }
    requires few { length marks.now ≤ 4096 }
    requires free { AreFree old.now.lanes free.now }
    ensures { IfOk result (λ own.
        AreOwnLanes old.now marks.now free.now (length marks.now) own.0.items own.1) }
{
    let there = old.lanes();
    let mut lane_of = Vec::with_capacity(alloc, marks.len())?;
    let mut taken = 0;
    for (group, is_marked) in marks.iter().enumerate() {
        if !*is_marked {
            lane_of.push(old.lane(GroupId::new(group as u16)))?;
            continue;
        }
        lane_of.push(nth_lane(free, there, taken))?;
        taken += 1;
    }
    Ok((lane_of, taken))
}

/// For each lane whether it has no rescuer.
fn bare_lanes<A: Allocator + Copy>(
    alloc: A,
    old: &Workqueues<A>,
) -> Result<Vec<bool, A>, AllocError>
    ensures { IfOk result (λ bare. Marks (IsBare old.now) old.now.assignment.lanes bare.items) }
{
    let lanes = old.assignment().lanes();
    let mut bare = Vec::with_capacity(alloc, usize::from(lanes))?;
    for lane in 0..lanes {
        bare.push(old.is_bare(LaneId::new(lane)))?;
    }
    Ok(bare)
}

/// Which lanes are bare, where groups are on these lanes now. A lane has a rescuer if it had one, if one of those that
/// came is on it, or if one is on it whose old lane is given one.
pub(crate) fn bare_now<A: Allocator + Copy>(
    alloc: A,
    old: &Workqueues<A>,
    comes: &[bool],
    given: &[bool],
    lane_of: &[LaneId],
) -> Result<Vec<bool, A>, AllocError>
    requires comes { length comes.now ≡ length old.now.assignment.lane_of_group }
    requires lane_of { length lane_of.now ≡ length comes.now }
    requires given { length given.now ≡ old.now.assignment.lanes }
    requires few { length comes.now ≤ 4096 }
    ensures { IfOk result (λ bare.
        AreBareNow old.now comes.now given.now lane_of.now (length comes.now) bare.items) }
{
    let _lanes = old.assignment().lanes();
    let mut bare = bare_lanes(alloc, old)?;
    for (group, does_come) in comes.iter().enumerate() {
        let own = old.assignment().lane(GroupId::new(group as u16));
        let is_given = given[usize::from(own.get())];
        let lane = usize::from(lane_of[group].get());
        if !either(*does_come, is_given) {
            continue;
        }
        if bare.len() <= lane {
            continue;
        }
        bare[lane] = false;
    }
    Ok(bare)
}
