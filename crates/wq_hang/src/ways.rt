//! Ways from items that must go on: what it costs to come from them to each item.
//!
//! An item that must go on is queued, and so is whoever waits. What is held up behind an item costs 1 more than the
//! item itself, as does a target that doesn't wait. The search is that for a round, but from several items at once, and
//! it has no round to look out for. It takes time in the number of items, lanes and flushes.

ghost use Rattle.std.specs.Prelude.{◌≡◌, ◌<◌, ◌≤◌, ℕ, List, length, slice_index, IfOk, OnOk};
ghost use Rattle.std.specs.List.{All};
ghost use Rattle.wq_core.specs.Wiring.{HasRescuer, items, lane_of};
ghost use Rattle.wq_hang.specs.declared.hop.Hop.{Hop};
ghost use Rattle.wq_hang.specs.Walk.{max_walk_cost};
ghost use Rattle.wq_hang.specs.Search.{AreItemsOn};
ghost use Rattle.wq_hang.specs.WaysFor.{AreWays, AreWaysSoFar, IsReachFrom, IsWay, expand_below};

use crate::hop::Hop;
use crate::search::Search;
use crate::waits::Waits;
use std::alloc::{AllocError, Allocator};
use wq_buckets::Buckets;
use wq_items::ItemId;

/// Begins at these items, whose lanes have rescuers.
fn begin<A: Allocator + Copy>(
    waits: &Waits<'_, A>,
    on: &Buckets<A>,
    search: &mut Search<A>,
    starts: &[ItemId],
    limit: u32,
) -> Result<(), AllocError>
    requires on { AreItemsOn waits.now on.now }
    requires starts { All (λ i. (i < items waits.now) × HasRescuer waits.now (lane_of waits.now i)) starts.now }
    requires low { (1 < limit) × (limit ≤ max_walk_cost) }
    ensures { OnOk result (AreWaysSoFar waits.now starts.now limit search.new) }
{
    search.begin(waits.items(), waits.lanes(), limit)?;
    for item in starts {
        search.start(*item)?;
    }
    for item in starts {
        let lane = waits.lane_of(*item);
        search.start_lane(lane, on.places(lane.get()))?;
    }
    Ok(())
}

/// The flushes of an item lead on, where that costs less than the limit.
fn expand<A: Allocator + Copy>(
    waits: &Waits<'_, A>,
    on: &Buckets<A>,
    search: &mut Search<A>,
    item: ItemId,
    limit: u32,
) -> Result<(), AllocError>
    requires on { AreItemsOn waits.now on.now }
    requires item { item < items waits.now }
    requires one_each { length search.old.costs ≡ items waits.now }
    requires by_each { length search.old.by ≡ items waits.now }
    requires lanes_each { length search.old.lane_costs ≡ waits.now.lanes }
    requires low { slice_index search.old.costs item ≤ max_walk_cost }
    ensures { IfOk result (λ _. search.new ≡ expand_below waits.now on.now limit item search.old) }
{
    let _items = waits.items();
    let cost = search.cost(item);
    for flush in waits.flushes(item) {
        if waits.has_rescuer(waits.lane_of(flush.item)) {
            search.lead_on(waits, on, limit, item, cost, flush)?;
        }
    }
    Ok(())
}

/// The ways from these items, whose lanes have rescuers, that cost less than the limit.
pub(crate) fn search_ways<A: Allocator + Copy>(
    waits: &Waits<'_, A>,
    on: &Buckets<A>,
    search: &mut Search<A>,
    starts: &[ItemId],
    limit: u32,
) -> Result<(), AllocError>
    requires on { AreItemsOn waits.now on.now }
    requires starts { All (λ i. (i < items waits.now) × HasRescuer waits.now (lane_of waits.now i)) starts.now }
    requires low { (1 < limit) × (limit ≤ max_walk_cost) }
    ensures { OnOk result (AreWays waits.now starts.now limit search.new) }
{
    let _items = waits.items();
    begin(waits, on, search, starts, limit)?;
    while let Some(item) = search.take() {
        expand(waits, on, search, item, limit)?;
    }
    Ok(())
}

/// The hops of the way to an item, the first one first: none if the way begins there.
pub(crate) fn way_to<A: Allocator + Copy>(
    alloc: A,
    waits: &Waits<'_, A>,
    ways: &Search<A>,
    item: ItemId,
) -> Result<Vec<Hop, A>, AllocError>
    requires item { item < items waits.now }
    requires one_each { length ways.now.costs ≡ items waits.now }
    requires by_each { length ways.now.by ≡ items waits.now }
    requires reached { (starts : List ℕ) × (limit : ℕ) × IsReachFrom waits.now starts limit ways.now
        × (slice_index ways.now.costs item < limit) }
    ensures { IfOk result (λ hops. (starts : List ℕ) (limit : ℕ) → IsReachFrom waits.now starts limit ways.now
        → slice_index ways.now.costs item < limit → IsWay waits.now starts ways.now item hops.items) }
{
    let _items = waits.items();
    let mut hops = Vec::new(alloc);
    let mut at = item;
    while ways.cost(at) > 1 {
        let hop = ways.hop_to(at);
        at = hop.item;
        hops.push(hop)?;
    }
    hops.reverse();
    Ok(hops)
}
