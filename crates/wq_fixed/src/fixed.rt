//! Workqueues that stay as they are, and the groups that are on them.
//!
//! A driver has workqueues already, and somebody else decides what is on them. Each call takes constant time.

ghost use Rattle.std.specs.Prelude.{◌≡◌, ◌+◌, ◌<◌, ◌≤◌, ℕ, length, slice_get, slice_index_or, false, Some};
ghost use Rattle.std.specs.Prelude.{MatchOption, ⊤};
ghost use Rattle.wq_fixed.specs.Fixed.{IsFixed, fixed_lanes};

use std::alloc::Allocator;
use std::marker::Model;
use wq_groups::{GroupId, LaneId};

/// For each group the workqueue where it stays, if it has one; and for each workqueue whether it has no rescuer.
/// Contracts see only these.
#[derive(Drop)]
pub struct Fixed<A: Allocator> {
    lane_of_group: Vec<Option<LaneId>, A>,
    bare: Vec<bool, A>,
}

impl<A: Allocator> Model for Fixed<A> {
    ghost use Rattle.std.specs.Prelude.{length};
    ghost use Rattle.wq_fixed.specs.Fixed.{Fixed as FixedView, IsFixed};

    ghost Value = { FixedView };

    ghost view = { λ f. record { lane_of_group = f.lane_of_group.items; bare = f.bare.items } };

    ghost invariant = { λ f. IsFixed (length f.lane_of_group.items)
        (record { lane_of_group = f.lane_of_group.items; bare = f.bare.items }) };
}

impl<A: Allocator> Fixed<A> {
    /// The workqueues for which `bare` says whether they have no rescuer, and each group where `lane_of_group` says.
    pub fn new(lane_of_group: Vec<Option<LaneId>, A>, bare: Vec<bool, A>) -> Self
        requires { IsFixed (length lane_of_group.items)
            (record { lane_of_group = lane_of_group.items; bare = bare.items }) }
        ensures { result ≡ record { lane_of_group = lane_of_group.items; bare = bare.items } }
    {
        Fixed {
            lane_of_group,
            bare,
        }
    }

    /// How many workqueues there are, at most 4,096; and what holds of each value of this type.
    pub fn lanes(&self) -> u16
        ensures lanes { result ≡ fixed_lanes self.now }
        ensures fixed { IsFixed (length self.now.lane_of_group) self.now }
    {
        self.bare.len() as u16
    }

    /// For each group in turn the workqueue where it stays; `None` where it is free.
    pub fn lane_of_group(&self) -> &[Option<LaneId>]
        ensures { result.now ≡ self.now.lane_of_group }
    {
        self.lane_of_group.as_slice()
    }

    /// For each workqueue in turn whether it has no rescuer.
    pub fn bare(&self) -> &[bool]
        ensures { result.now ≡ self.now.bare }
    {
        self.bare.as_slice()
    }
}
