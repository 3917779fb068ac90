//! What it costs to come to where somebody waits for an item alone.
//!
//! Whoever waits so for the same item waits for one entry, which is queued once. So a way and a round may meet there,
//! and that is 1 less than if they met at an item that waits. It takes time and memory in the number of items and
//! flushes.

ghost use Rattle.std.specs.Prelude.{◌≡◌, ◌+◌, ◌<◌, ◌≤◌, length, replicate, slice_index, slice_index_or, IfOk, IfSome};
ghost use Rattle.std.specs.Prelude.{IfNone};
ghost use Rattle.std.specs.List.{All};
ghost use Rattle.wq_core.specs.Wiring.{items};
ghost use Rattle.wq_hang.specs.declared.hop.Hop.{Hop};
ghost use Rattle.wq_hang.specs.Walk.{max_walk_cost};
ghost use Rattle.wq_hang.specs.Search.{step};
ghost use Rattle.wq_hang.specs.WaysFor.{ArePending, AreLatest, wait_alone};

use crate::hop::Hop;
use crate::hop_back::unsure_part;
use crate::search::Search;
use crate::waits::Waits;
use std::alloc::{AllocError, Allocator};
use std::marker::Model;
use wq_items::{ItemId, Target};

/// For each item what it costs to come to where somebody waits for it alone, and by which hop.
#[derive(Drop)]
pub(crate) struct Pending<A: Allocator> {
    costs: Vec<u32, A>,
    by: Vec<Hop, A>,
}

impl<A: Allocator> Model for Pending<A> {
    ghost use Rattle.wq_hang.specs.WaysFor.{PendingFound};

    ghost Value = { PendingFound };

    ghost view = { λ t. record { costs = t.costs.items; by = t.by.items } };
}

/// What it costs to wait by a flush, where it costs so much to come to the item that waits.
pub(crate) fn cost_to_wait(cost: u32, flush: &Target) -> u32
    requires { cost ≤ max_walk_cost }
    ensures { result ≡ cost + step flush.now }
{
    cost + unsure_part(flush) + 3
}

impl<A: Allocator + Copy> Pending<A> {
    /// Nobody waits for an item yet; it costs as much as the limit.
    fn none(alloc: A, items: usize, limit: u32) -> Result<Self, AllocError>
        ensures costs { IfOk result (λ pending. pending.costs ≡ replicate items limit) }
        ensures by { IfOk result (λ pending. length pending.by ≡ items) }
    {
        let none = ItemId::new(0);
        let unset = Hop {
            item: none,
            flush: Target::default(),
            next: none,
        };
        Ok(Pending {
            costs: vec![in alloc; limit; items]?,
            by: vec![in alloc; unset; items]?,
        })
    }

    /// An item waits for a target alone, at this cost.
    fn reach(&mut self, cost: u32, item: ItemId, flush: &Target)
        requires costs { flush.now.item < length self.old.costs }
        requires by { flush.now.item < length self.old.by }
        ensures { self.new ≡ wait_alone cost self.old item flush.now }
    {
        let at = usize::from(flush.item.get());
        if cost < self.costs[at] {
            self.costs[at] = cost;
            self.by[at] = Hop {
                item,
                flush: *flush,
                next: flush.item,
            };
        }
    }

    /// Those to which these ways lead. The items at which the ways begin are queued: to come there costs nothing.
    pub(crate) fn of_ways(
        alloc: A,
        waits: &Waits<'_, A>,
        ways: &Search<A>,
        starts: &[ItemId],
        limit: u32,
    ) -> Result<Self, AllocError>
        requires starts { All (λ i. i < items waits.now) starts.now }
        requires low { (0 < limit) × (limit ≤ max_walk_cost) }
        requires one_each { length ways.now.costs ≡ items waits.now }
        ensures { IfOk result (ArePending waits.now starts.now limit ways.now) }
    {
        let mut pending = Pending::none(alloc, waits.items(), limit)?;
        for i in 0..waits.items() as u16 {
            let item = ItemId::new(i);
            let cost = ways.cost(item);
            if cost < limit {
                for flush in waits.flushes(item) {
                    if !flush.whole && waits.has_rescuer(waits.lane_of(flush.item)) {
                        pending.reach(cost_to_wait(cost, flush), item, flush);
                    }
                }
            }
        }
        for item in starts {
            pending.costs[usize::from(item.get())] = 0;
        }
        Ok(pending)
    }

    /// What it costs to come to where somebody waits for an item alone.
    pub(crate) fn cost(&self, item: ItemId) -> u32
        requires { item < length self.now.costs }
        ensures { result ≡ slice_index self.now.costs item }
    {
        self.costs[usize::from(item.get())]
    }

    /// The hop that waits for an item alone; nothing if ways begin at the item.
    pub(crate) fn hop_to(&self, item: ItemId) -> Option<Hop>
        requires costs { item < length self.now.costs }
        requires by { item < length self.now.by }
        ensures some { IfSome result (λ h. (0 < slice_index self.now.costs item)
            × ((d : Hop) → h ≡ slice_index_or self.now.by item d)) }
        ensures none { IfNone result (slice_index self.now.costs item ≡ 0) }
    {
        let at = usize::from(item.get());
        if self.costs[at] == 0 {
            return None;
        }
        Some(self.by[at])
    }
}

/// For each item what it costs most to come to an item that waits for it alone, and 1 more; 0 if there is none.
pub(crate) fn latest<A: Allocator + Copy>(
    alloc: A,
    waits: &Waits<'_, A>,
    ways: &Search<A>,
    limit: u32,
) -> Result<Vec<u32, A>, AllocError>
    requires low { limit ≤ max_walk_cost }
    requires one_each { length ways.now.costs ≡ items waits.now }
    ensures len { IfOk result (λ latest. length latest.items ≡ items waits.now) }
    ensures latest { IfOk result (λ latest. AreLatest waits.now limit ways.now.costs latest.items) }
{
    let mut latest = vec![in alloc; 0; waits.items()]?;
    for i in 0..waits.items() as u16 {
        let item = ItemId::new(i);
        let cost = ways.cost(item);
        if cost < limit {
            for flush in waits.flushes(item) {
                let at = usize::from(flush.item.get());
                if !flush.whole && cost + 1 > latest[at] {
                    latest[at] = cost + 1;
                }
            }
        }
    }
    Ok(latest)
}
