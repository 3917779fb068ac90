//! Where groups go: each that isn't free stays, and a free one goes to the new workqueue of its height.
//!
//! The rule is that of "Planning around workqueues" in docs/FORMAT.md. It takes time and memory in the number of groups
//! and workqueues.

ghost use Rattle.std.specs.Prelude.{◌≡◌, ◌+◌, ◌<◌, ◌≤◌, ℕ, length, map, slice_index, IfOk};
ghost use Rattle.std.specs.List.{All};
ghost use Rattle.wq_fixed.specs.Fixed.{fixed_lanes, start as start_of};
ghost use Rattle.wq_around.specs.Down.{IsTop};
ghost use Rattle.wq_around.specs.Planned.{planned_lane, planned};

use std::alloc::{AllocError, Allocator};
use wq_core::Workqueues;
use wq_fixed::Fixed;
use wq_groups::{Assignment, LaneId};

/// The greatest height of a new workqueue of the start, where those from this number on are new; 0 where there is none.
pub(crate) fn most_needed(heights: &[u16], new: u16) -> u16
    ensures above { (q : ℕ) → new ≤ q → q < length heights.now → slice_index heights.now q ≤ result }
    ensures some { 0 < result → (q : ℕ) × IsTop new heights.now result q }
{
    let mut most = 0;
    for (lane, height) in heights.iter().enumerate() {
        if lane >= usize::from(new) {
            most = most.max(*height);
        }
    }
    most
}

/// The workqueue of a group that is on this one in the start.
fn planned_lane(heights: &[u16], new: u16, lane: u16) -> LaneId
    requires lane { lane < length heights.now }
    requires new { new ≤ 4096 }
    requires few { All (λ n. n ≤ 4096) heights.now }
    requires some { new ≤ lane → 0 < slice_index heights.now lane }
    ensures { result ≡ planned_lane heights.now new lane }
{
    if lane < new {
        LaneId::new(lane)
    } else {
        LaneId::new(new + heights[usize::from(lane)] - 1)
    }
}

/// The workqueue of each group.
fn planned_lanes<A: Allocator + Copy>(
    alloc: A,
    start: &[u16],
    heights: &[u16],
    new: u16,
) -> Result<Vec<LaneId, A>, AllocError>
    requires lanes { All (λ q. q < length heights.now) start.now }
    requires new { new ≤ 4096 }
    requires few { All (λ n. n ≤ 4096) heights.now }
    requires some { (q : ℕ) → new ≤ q → q < length heights.now → 0 < slice_index heights.now q }
    ensures { IfOk result (λ lanes. lanes.items ≡ map (planned_lane heights.now new) start.now) }
{
    let mut lanes = Vec::with_capacity(alloc, start.len())?;
    for lane in start {
        lanes.push(planned_lane(heights, new, *lane))?;
    }
    Ok(lanes)
}

/// The fixed workqueues and this many new ones, on which free groups are by the heights of the start.
pub(crate) fn place<A: Allocator + Copy>(
    alloc: A,
    fixed: &Fixed<A>,
    start: &Assignment<A>,
    heights: &[u16],
    most: u16,
) -> Result<Workqueues<A>, AllocError>
    requires start { start.now ≡ (start_of fixed.now).assignment }
    requires one_each { length heights.now ≡ (start_of fixed.now).assignment.lanes }
    requires few { All (λ n. n ≤ 4096) heights.now }
    requires some { (q : ℕ) → fixed_lanes fixed.now ≤ q → q < length heights.now → 0 < slice_index heights.now q }
    requires most { (q : ℕ) → fixed_lanes fixed.now ≤ q → q < length heights.now → slice_index heights.now q ≤ most }
    requires lanes { fixed_lanes fixed.now + most ≤ 4096 }
    ensures plan { IfOk result (λ ws. ws ≡ planned fixed.now heights.now most) }
    ensures assigned { IfOk result (λ ws. length ws.assignment.lane_of_group ≡ length start.now.lane_of_group) }
{
    let new = fixed.lanes();
    let start = start.lanes_of_groups(alloc)?;
    let lanes = planned_lanes(alloc, start.as_slice(), heights, new)?;
    let mut bare = Vec::with_capacity(alloc, fixed.bare().len())?;
    bare.extend_from_slice(fixed.bare())?;
    let assignment = Assignment::new(new + most, lanes).unwrap();
    Ok(Workqueues::new(assignment, bare))
}
