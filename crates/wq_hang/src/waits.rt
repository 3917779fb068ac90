//! The waits of which rounds are made: items on lanes, with their flushes.
//!
//! Lanes may be left out. They count as bare, so no round goes by way of them. Each question takes constant time.

ghost use Rattle.std.specs.Prelude.{◌≡◌, ◌<◌, ◌≤◌, ◌↔◌, length, slice_index_or, false, IsTrue};
ghost use Rattle.wq_core.specs.Wiring.{IsWiring, HasRescuer, items, lane_of, declared_by};
ghost use Rattle.wq_core.specs.Workqueues.{with_bare};

use crate::wires::Wires;
use std::alloc::Allocator;
use std::marker::Model;
use wq_groups::LaneId;
use wq_items::{ItemId, Target};

/// Items and the lanes on which rounds may be. Contracts see the wiring in which the others are bare.
#[derive(Drop)]
pub(crate) struct Waits<'a, A: Allocator> {
    wires: &'a Wires<'a, 'a, A>,
    bare: &'a [bool],
}

impl<'a, A: Allocator> Model for Waits<'a, A> {
    ghost use Rattle.wq_core.specs.Wiring.{Wiring};
    ghost use Rattle.wq_core.specs.Workqueues.{with_bare};

    ghost Value = { Wiring };

    ghost view = { λ w. with_bare w.wires.now w.bare.now };
}

impl<'a, A: Allocator + Copy> Waits<'a, A> {
    /// These items and flushes, and for each lane whether it is bare.
    pub(crate) fn new(wires: &'a Wires<'a, 'a, A>, bare: &'a [bool]) -> Self
        ensures { result ≡ with_bare wires.now bare.now }
    {
        Waits { wires, bare }
    }

    /// How many items there are, at most 4,096.
    pub(crate) fn items(&self) -> usize
        ensures items { result ≡ items self.now }
        ensures wiring { IsWiring self.now }
        ensures few { result ≤ 4096 }
        ensures few_lanes { self.now.lanes ≤ 4096 }
    {
        self.wires.items()
    }

    /// How many lanes there are, at most 4,096.
    pub(crate) fn lanes(&self) -> usize
        ensures lanes { result ≡ self.now.lanes }
        ensures few { result ≤ 4096 }
    {
        self.wires.lanes()
    }

    /// The lane of an item.
    pub(crate) fn lane_of(&self, item: ItemId) -> LaneId
        requires { item < items self.now }
        ensures lane { result ≡ lane_of self.now item }
        ensures within { result < self.now.lanes }
    {
        self.wires.lane_of(item)
    }

    /// Whether a lane has a rescuer and isn't left out.
    pub(crate) fn has_rescuer(&self, q: LaneId) -> bool
        ensures { IsTrue result ↔ HasRescuer self.now q }
    {
        match self.bare.get(usize::from(q.get())) {
            Some(is_bare) => !*is_bare,
            None => true,
        }
    }

    /// The targets that an item declares, in order.
    pub(crate) fn flushes(&self, item: ItemId) -> &[Target]
        requires { item < items self.now }
        ensures { result.now ≡ declared_by self.now item }
    {
        self.wires.flushes(item)
    }
}
