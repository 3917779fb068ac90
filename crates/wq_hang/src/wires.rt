//! Items on lanes, with their flushes: what a search for waits that hold one another up has to know.
//!
//! A machine knows them, too, and has memory for what is queued and what runs, which no search needs. The flushes are
//! those of the table itself, so only the lane of each item takes memory. Making it takes time in the number of items;
//! each question takes constant time.

ghost use Rattle.std.specs.Prelude.{◌≡◌, ◌<◌, ◌≤◌, ◌↔◌, IfOk, IsTrue};
ghost use Rattle.wq_groups.specs.DeclaredGroups.{declared_waits};
ghost use Rattle.wq_core.specs.Wiring.{IsWiring, HasRescuer, items, lane_of, declared_by};
ghost use Rattle.wq_core.specs.Workqueues.{wiring_of};

use std::alloc::{AllocError, Allocator};
use std::marker::Model;
use wq_core::Assigned;
use wq_groups::LaneId;
use wq_items::{ItemId, Target};

/// The items of declared groups, and workqueues that they are on. Contracts see the wiring.
#[derive(Drop)]
pub(crate) struct Wires<'t, 'a, A: Allocator> {
    assigned: Assigned<'t, 'a, A>,
    lane_of_item: Vec<u16, A>,
}

impl<'t, 'a, A: Allocator> Model for Wires<'t, 'a, A> {
    ghost use Rattle.wq_core.specs.Wiring.{Wiring, IsWiring};
    ghost use Rattle.wq_hang.specs.Wires.{wires};

    ghost Value = { Wiring };

    ghost view = { λ w. wires w.assigned w.lane_of_item.items };

    ghost invariant = { λ w. IsWiring (wires w.assigned w.lane_of_item.items) };
}

impl<'t, 'a, A: Allocator + Copy> Wires<'t, 'a, A> {
    /// Those of declared groups and their workqueues.
    pub(crate) fn new(alloc: A, assigned: &Assigned<'t, 'a, A>) -> Result<Self, AllocError>
        ensures { IfOk result (λ w. w
            ≡ wiring_of (declared_waits assigned.now.declared) assigned.now.workqueues) }
    {
        let assigned = Assigned::new(assigned.declared, assigned.workqueues);
        let lane_of_item = assigned
            .workqueues()
            .assignment()
            .item_lanes(alloc, assigned.groups())?;
        Ok(Wires {
            assigned,
            lane_of_item,
        })
    }

    /// How many items there are, at most 4,096.
    pub(crate) fn items(&self) -> usize
        ensures items { result ≡ items self.now }
        ensures wiring { IsWiring self.now }
        ensures few { result ≤ 4096 }
        ensures few_lanes { self.now.lanes ≤ 4096 }
    {
        usize::from(self.assigned.table().len())
    }

    /// How many lanes there are, at most 4,096.
    pub(crate) fn lanes(&self) -> usize
        ensures lanes { result ≡ self.now.lanes }
        ensures wiring { IsWiring self.now }
        ensures few { result ≤ 4096 }
    {
        usize::from(self.assigned.workqueues().assignment().lanes())
    }

    /// The lane of an item.
    pub(crate) fn lane_of(&self, item: ItemId) -> LaneId
        requires { item < items self.now }
        ensures lane { result ≡ lane_of self.now item }
        ensures within { result < self.now.lanes }
    {
        LaneId::new(self.lane_of_item[usize::from(item.get())])
    }

    /// Whether a lane has a rescuer.
    pub(crate) fn has_rescuer(&self, q: LaneId) -> bool
        ensures { IsTrue result ↔ HasRescuer self.now q }
    {
        !self.assigned.workqueues().is_bare(q)
    }

    /// The targets that an item declares, in order.
    pub(crate) fn flushes(&self, item: ItemId) -> &[Target]
        requires { item < items self.now }
        ensures { result.now ≡ declared_by self.now item }
    {
        self.assigned.table().waits(item)
    }
}
