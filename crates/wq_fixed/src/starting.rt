//! The start: each group that is on none of the fixed workqueues has a workqueue for itself.
//!
//! The rule is that of "Planning around workqueues" in docs/FORMAT.md. It takes time and memory in the number of groups
//! and workqueues.

ghost use Rattle.std.specs.Prelude.{◌≡◌, ◌+◌, ◌<◌, ◌≤◌, length, IfOk, OnErr};
ghost use Rattle.std.specs.List.{count_by};
ghost use Rattle.wq_fixed.specs.Fixed.{IsFixed, fixed_lanes, has_none, start, start_lanes};

use crate::fixed::Fixed;
use std::alloc::{AllocError, Allocator};
use wq_core::Workqueues;
use wq_groups::{Assignment, LaneId};

/// How many groups are free.
fn count_free(lane_of_group: &[Option<LaneId>]) -> u16
    requires { count_by has_none lane_of_group.now ≤ 4096 }
    ensures { result ≡ count_by has_none lane_of_group.now }
{
    let mut free = 0;
    for lane in lane_of_group {
        if lane.is_none() {
            free += 1;
        }
    }
    free
}

/// The lane of each group in the start, where free ones get lanes from this one on.
fn start_lanes<A: Allocator + Copy>(
    alloc: A,
    lane_of_group: &[Option<LaneId>],
    first: u16,
) -> Result<Vec<LaneId, A>, AllocError>
    requires { first + count_by has_none lane_of_group.now ≤ 4096 }
    ensures lanes { IfOk result (λ lanes. lanes.items ≡ start_lanes first lane_of_group.now) }
    ensures memory { OnErr result (0 < length lane_of_group.now) }
{
    let mut lanes = Vec::with_capacity(alloc, lane_of_group.len())?;
    let mut next = first;
    for lane in lane_of_group {
        match lane {
            Some(lane) => lanes.push(*lane)?,
            None => {
                lanes.push(LaneId::new(next))?;
                next += 1;
            }
        }
    }
    Ok(lanes)
}

/// The workqueues of the start.
///
/// The only error is out of memory (20), which can't occur where there is neither a group nor a workqueue.
pub fn start<A: Allocator + Copy>(alloc: A, fixed: &Fixed<A>) -> Result<Workqueues<A>, AllocError>
    ensures start { IfOk result (λ ws. ws ≡ start fixed.now) }
    ensures assigned { IfOk result (λ ws. length ws.assignment.lane_of_group ≡ length fixed.now.lane_of_group) }
    ensures memory { OnErr result (0 < length fixed.now.lane_of_group + fixed_lanes fixed.now) }
{
    let first = fixed.lanes();
    let lanes = first + count_free(fixed.lane_of_group());
    let of_group = start_lanes(alloc, fixed.lane_of_group(), first)?;
    let mut bare = Vec::with_capacity(alloc, fixed.bare().len())?;
    bare.extend_from_slice(fixed.bare())?;
    Ok(Workqueues::new(Assignment::new(lanes, of_group).unwrap(), bare))
}
