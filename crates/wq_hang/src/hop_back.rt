//! The cheapest round of one hop from an item: a flush that leads straight back to the item's own lane.
//!
//! A further hop costs 3 at least. So if a round is known that costs no more than the item's cheapest hop and 3, only a
//! round of one hop can be cheaper, and it is found without a search. It takes time in the number of the item's
//! flushes.

ghost use Rattle.std.specs.Prelude.{◌≡◌, ◌<◌, ◌≤◌, not, IfSome, IfNone};
ghost use Rattle.std.specs.List.{list_any};
ghost use Rattle.wq_items.specs.declared.target.Target.{Target};
ghost use Rattle.wq_core.specs.Wiring.{HasRescuer, items, lane_of};
ghost use Rattle.wq_hang.specs.declared.hop.Hop.{Hop};
ghost use Rattle.wq_hang.specs.Walk.{unsure_part};
ghost use Rattle.wq_hang.specs.Search.{IsHopBack, IsCheapestBack, hop_cost, hop_to, least_hop};

use crate::hop::Hop;
use crate::waits::Waits;
use std::alloc::Allocator;
use wq_items::{ItemId, Target};

/// What a hop costs more if it is by an unsure flush: more than the steps of any walk.
pub(crate) const UNSURE: u32 = 32768;

/// What this flush makes a hop cost more.
pub(crate) fn unsure_part(flush: &Target) -> u32
    ensures { result ≡ unsure_part flush.now }
{
    if flush.unsure { UNSURE } else { 0 }
}

/// Whether one of these flushes is sure.
fn has_sure(flushes: &[Target]) -> bool
    ensures { result ≡ list_any (λ (t : Target). not t.unsure) flushes.now }
{
    flushes.iter().any(|flush| !flush.unsure)
}

/// What each hop of an item costs at least: 3, and more if the item declares no sure flush.
pub(crate) fn least_hop<A: Allocator + Copy>(waits: &Waits<'_, A>, item: ItemId) -> u32
    requires { item < items waits.now }
    ensures { result ≡ least_hop waits.now item }
{
    if has_sure(waits.flushes(item)) {
        3
    } else {
        UNSURE + 3
    }
}

/// What a hop of an item back to itself costs: 3, and 1 more if the target is another item, which is queued beside it;
/// and what its flush makes it cost more.
pub(crate) fn cost_back(item: ItemId, flush: &Target) -> u32
    ensures { result ≡ hop_cost (hop_to item flush.now item) }
{
    let steps = if flush.whole || flush.item == item {
        3
    } else {
        4
    };
    unsure_part(flush) + steps
}

/// The cheapest hop of an item back to itself, the first of those, if one costs less than the limit.
pub(crate) fn hop_back<A: Allocator + Copy>(
    waits: &Waits<'_, A>,
    item: ItemId,
    limit: u32,
) -> Option<Hop>
    requires item { item < items waits.now }
    requires rescuer { HasRescuer waits.now (lane_of waits.now item) }
    ensures some { IfSome result (λ h. IsCheapestBack waits.now item limit h) }
    ensures none { IfNone result ((h : Hop) → IsHopBack waits.now item h → limit ≤ hop_cost h) }
{
    let _items = waits.items();
    let own = waits.lane_of(item);
    let mut least = limit;
    let mut found = None;
    for flush in waits.flushes(item) {
        let cost = cost_back(item, flush);
        if cost < least && waits.lane_of(flush.item) == own {
            least = cost;
            found = Some(Hop {
                item,
                flush: *flush,
                next: item,
            });
        }
    }
    found
}
