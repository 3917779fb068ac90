//! Which workqueue serves each group.
//!
//! An assignment is what the author of a driver decides: one `alloc_workqueue` with WQ_MEM_RECLAIM for each lane, and
//! one lane for each group (Documentation/core-api/workqueue.rst, "Guidelines"). Making an assignment takes time linear
//! in the number of groups, a list of lanes time and memory linear in its length; each other call takes constant time.

ghost use Rattle.std.specs.Prelude.{◌≡◌, ◌<◌, ◌≤◌, ◌↔◌, length, slice_get, Some, IsSome, IsTrue, IfSome, IfOk, OnErr};
ghost use Rattle.std.specs.List.{All};
ghost use Rattle.wq_groups.specs.Assignment.{item_lanes};
ghost use Rattle.wq_groups.specs.Partition.{IsPartition};

use crate::group_id::GroupId;
use crate::groups::Groups;
use crate::lane_id::LaneId;
use std::alloc::{AllocError, Allocator};
use std::marker::Model;

/// The most lanes that an assignment may have: as many as a declaration may have items, since no plan needs more. A
/// runtime takes fewer.
pub const MAX_ASSIGNED_LANES: u16 = 4096;

/// An assignment puts each group on a lane, which is a workqueue. Contracts see how many lanes there are, and the lane
/// of each group. A lane may serve no group.
#[derive(Drop)]
pub struct Assignment<A: Allocator> {
    lanes: u16,
    of_group: Vec<LaneId, A>,
}

impl<A: Allocator> Model for Assignment<A> {
    ghost use Rattle.std.specs.Prelude.{◌<◌, ◌≤◌};
    ghost use Rattle.std.specs.List.{All};
    ghost use Rattle.wq_groups.specs.Assignment.{Assignment as AssignmentView};

    ghost Value = { AssignmentView };

    ghost view = { λ a. record { lanes = a.lanes; lane_of_group = a.of_group.items } };

    ghost invariant = { λ a. (a.lanes ≤ 4096) × All (λ l. l < a.lanes) a.of_group.items };
}

/// Whether each lane is below `lanes`.
fn are_below(of_group: &[LaneId], lanes: u16) -> bool
    ensures { IsTrue result ↔ All (λ l. l < lanes) of_group.now }
{
    of_group.iter().all(|lane| lane.get() < lanes)
}

impl<A: Allocator> Assignment<A> {
    /// The assignment with this many lanes that puts group g on lane `of_group[g]`.
    ///
    /// `None` if a lane isn't below `lanes`, or `lanes` is above 4,096. The list is then dropped.
    pub fn new(lanes: u16, of_group: Vec<LaneId, A>) -> Option<Self>
        ensures some { IfSome result (λ a. (a.lanes ≡ lanes) × (a.lane_of_group ≡ of_group.items)) }
        ensures exactly { IsSome result ↔ ((lanes ≤ 4096) × All (λ l. l < lanes) of_group.items) }
    {
        if lanes > MAX_ASSIGNED_LANES || !are_below(of_group.as_slice(), lanes) {
            return None;
        }
        Some(Assignment { lanes, of_group })
    }

    /// How many lanes there are, at most 4,096.
    pub fn lanes(&self) -> u16
        ensures lanes { result ≡ self.now.lanes }
        ensures few { result ≤ 4096 }
        ensures within { All (λ l. l < self.now.lanes) self.now.lane_of_group }
    {
        self.lanes
    }

    /// How many groups have a lane.
    pub fn groups(&self) -> usize
        ensures { result ≡ length self.now.lane_of_group }
    {
        self.of_group.len()
    }

    /// The lane of a group below `groups()`.
    pub fn lane(&self, group: GroupId) -> LaneId
        requires { group < length self.now.lane_of_group }
        ensures { slice_get self.now.lane_of_group group ≡ Some result }
    {
        self.of_group[usize::from(group.get())]
    }
}

impl<A: Allocator + Copy> Assignment<A> {
    /// The number of each group's lane, in group order.
    ///
    /// The only error is out of memory (20), which can't occur if there is no group.
    pub fn lanes_of_groups(&self, alloc: A) -> Result<Vec<u16, A>, AllocError>
        ensures lanes { IfOk result (λ lanes. lanes.items ≡ self.now.lane_of_group) }
        ensures memory { OnErr result (0 < length self.now.lane_of_group) }
    {
        let mut lanes = Vec::with_capacity(alloc, self.of_group.len())?;
        for lane in &self.of_group {
            lanes.push(lane.get())?;
        }
        Ok(lanes)
    }

    /// The number of each item's lane, in item order: that of its group. Each group must have a lane.
    ///
    /// The only error is out of memory (20), which can't occur if there is no item.
    pub fn item_lanes(&self, alloc: A, groups: &Groups<A>) -> Result<Vec<u16, A>, AllocError>
        requires { length self.now.lane_of_group ≡ groups.now.groups }
        ensures lanes { IfOk result (λ lanes. lanes.items ≡ item_lanes self.now groups.now.group_of) }
        ensures memory { OnErr result (0 < length groups.now.group_of) }
        ensures partition { IsPartition groups.now }
    {
        let numbers = groups.numbers();
        let mut lanes = Vec::with_capacity(alloc, numbers.len())?;
        for number in numbers {
            lanes.push(self.lane(GroupId::new(*number)).get())?;
        }
        Ok(lanes)
    }
}
