//! All lanes. They are changed one at a time.
//!
//! The machine holds its lanes only here, so that a change of one lane is seen to leave the others as they are. `new`
//! and `are_idle` take time in the number of lanes. Each other call takes constant time. Only `new` takes memory.

ghost use Rattle.std.specs.Prelude.{◌≡◌, ◌<◌, ◌≤◌, ◌↔◌, length, map, slice_get, Some, IfOk, OnErr, IsTrue};
ghost use Rattle.std.specs.List.{All};
ghost use Rattle.std.specs.Borrow.{sem};
ghost use Rattle.wq_core.specs.Wiring.{max_helpers};
ghost use Rattle.wq_core.specs.State.{IsBusy};
ghost use Rattle.wq_core.specs.Held.{HeldLane};
ghost use Rattle.wq_core.specs.Building.{idle_of_shape};
ghost use Rattle.wq_core.specs.Lending.{LendsLane};

use crate::lane::{Lane, LaneShape};
use std::alloc::{AllocError, Allocator};
use std::marker::Model;
use wq_groups::LaneId;

/// The lanes in turn. Contracts see the list of them.
#[derive(Drop)]
pub struct Lanes<A: Allocator> {
    lanes: Vec<Lane<A>, A>,
}

impl<A: Allocator> Model for Lanes<A> {
    ghost use Rattle.std.specs.Prelude.{List};
    ghost use Rattle.wq_core.specs.Held.{HeldLane};

    ghost Value = { List HeldLane };

    ghost view = { λ l. l.lanes.items };
}

/// Whether each of these is idle.
fn all_idle<A: Allocator>(lanes: &[Lane<A>]) -> bool
    ensures { IsTrue result ↔ All (λ (h : HeldLane). ¬ IsBusy h.lane) lanes.now }
{
    for lane in lanes {
        if !lane.is_idle() {
            return false;
        }
    }
    true
}

impl<A: Allocator + Copy> Lanes<A> {
    /// Idle lanes of these shapes, each with this many helpers unless it is ordered. The only error is out of memory
    /// (20), which can't occur if there is no lane.
    pub fn new(alloc: A, shapes: &[LaneShape], helpers: u8) -> Result<Self, AllocError>
        requires { helpers ≤ max_helpers }
        ensures lanes { IfOk result (λ lanes. lanes ≡ map (idle_of_shape helpers) shapes.now) }
        ensures memory { OnErr result (0 < length shapes.now) }
    {
        let mut lanes = Vec::with_capacity(alloc, shapes.len())?;
        for shape in shapes {
            lanes.push(Lane::new(alloc, *shape, helpers)?)?;
        }
        Ok(Lanes { lanes })
    }
}

impl<A: Allocator> Lanes<A> {
    /// How many lanes there are.
    pub fn len(&self) -> usize
        ensures { result ≡ length self.now }
    {
        self.lanes.len()
    }

    /// Whether each lane is idle.
    pub fn are_idle(&self) -> bool
        ensures { IsTrue result ↔ All (λ (h : HeldLane). ¬ IsBusy h.lane) self.now }
    {
        all_idle(self.lanes.as_slice())
    }

    /// The lane with a number below `len()`.
    pub fn lane(&self, q: LaneId) -> &Lane<A>
        requires { q < length self.now }
        ensures { slice_get self.now q ≡ Some result.now }
    {
        &self.lanes[usize::from(q.get())]
    }

    /// The lane with a number below `len()`, for writing. What is written changes this lane and no other.
    pub fn lane_mut(&mut self, q: LaneId) -> &mut Lane<A>
        requires { q < length self.old }
        ensures* writes_back { sem 𝓛 (LendsLane A.row A.Allocator self.entry q result) }
        ensures value { slice_get self.old q ≡ Some result.now }
    {
        &mut self.lanes[usize::from(q.get())]
    }
}
