//! A least round: waits that hold one another up, at the least cost.
//!
//! A round is searched for from each of some items in turn, for less than the best one so far costs. If the bound of
//! the item's lane isn't less, there is none; and if two hops from the item cost no less, only the item's own flushes
//! are looked at. Each round passes one of these items. It takes the time of a search for each of them, and memory in
//! the number of items and lanes.

ghost use Rattle.std.specs.Prelude.{◌≡◌, ◌+◌, ◌<◌, ◌≤◌, ℕ, List, length, slice_index, Contains, IfOk, IfSome};
ghost use Rattle.std.specs.Prelude.{IfNone};
ghost use Rattle.std.specs.List.{All};
ghost use Rattle.wq_core.specs.Wiring.{HasRescuer, items, lane_of};
ghost use Rattle.wq_hang.specs.declared.hop.Hop.{Hop};
ghost use Rattle.wq_hang.specs.Walk.{AreFirstAlike, BeginsUnsure, IsPath, IsRound, max_walk_cost};
ghost use Rattle.wq_hang.specs.Search.{AreItemsOn, ArePassed, IsReach, IsBetter, IsNoBetter, IsLeastRound, hops_cost};
ghost use Rattle.wq_hang.specs.Search.{AreBounds, least_hop};

use crate::bounds::{bounds_to, no_bounds};
use crate::hop::Hop;
use crate::hop_back::{UNSURE, cost_back, hop_back, least_hop};
use crate::search::{Search, search_from};
use crate::settling::settle;
use crate::waits::Waits;
use std::alloc::{AllocError, Allocator};
use wq_buckets::Buckets;
use wq_items::ItemId;

/// No round costs as much that meets no lane twice: there are at most 4,096 lanes, each costs at most 4 and `UNSURE`,
/// and as much more.
pub(crate) const MOST: u32 = 4097 * (UNSURE + 4);

/// So many searches share their bounds.
pub(crate) const AT_A_TIME: usize = 128;

/// The round that a search from an item found, the item's own hop first.
fn round<A: Allocator + Copy>(
    alloc: A,
    waits: &Waits<'_, A>,
    search: &Search<A>,
    first: ItemId,
    limit: u32,
) -> Result<Vec<Hop, A>, AllocError>
    requires reach { IsReach waits.now first limit search.now }
    requires first { first < items waits.now }
    requires less { slice_index search.now.costs first < limit }
    ensures round { IfOk result (λ hops. IsRound waits.now hops.items) }
    ensures path { IfOk result (λ hops. IsPath waits.now first hops.items first) }
    ensures cost { IfOk result (λ hops. hops_cost hops.items ≤ slice_index search.now.costs first) }
{
    let _items = waits.items();
    let mut hop = search.hop_to(first);
    let mut hops = Vec::new(alloc);
    hops.push(hop)?;
    while hop.item != first {
        hop = search.hop_to(hop.item);
        hops.push(hop)?;
    }
    hops.reverse();
    Ok(hops)
}

/// The same as `better_round`, if the least so far is no more than what two hops from the item cost.
fn better_hop<A: Allocator + Copy>(
    alloc: A,
    waits: &Waits<'_, A>,
    first: ItemId,
    least: u32,
) -> Result<Option<(u32, Vec<Hop, A>)>, AllocError>
    requires first { first < items waits.now }
    requires rescuer { HasRescuer waits.now (lane_of waits.now first) }
    requires low { least ≤ least_hop waits.now first + 3 }
    ensures some { IfOk result (λ found.
        IfSome found (λ better. IsBetter waits.now first least better.0 better.1.items)) }
    ensures none { IfOk result (λ found. IfNone found (IsNoBetter waits.now first least)) }
{
    match hop_back(waits, first, least) {
        Some(hop) => Ok(Some((cost_back(first, &hop.flush), vec![in alloc; hop]?))),
        None => Ok(None),
    }
}

/// A round from an item that costs less than the least so far, and what it costs at most, if there is one.
pub(crate) fn better_round<A: Allocator + Copy>(
    alloc: A,
    waits: &Waits<'_, A>,
    on: &Buckets<A>,
    bounds: &[u32],
    search: &mut Search<A>,
    first: ItemId,
    least: u32,
) -> Result<Option<(u32, Vec<Hop, A>)>, AllocError>
    requires on { AreItemsOn waits.now on.now }
    requires one_each { length bounds.now ≡ waits.now.lanes }
    requires bounds { HasRescuer waits.now (lane_of waits.now first) → AreBounds waits.now bounds.now first }
    requires first { first < items waits.now }
    requires low { least ≤ max_walk_cost }
    ensures some { IfOk result (λ found.
        IfSome found (λ better. IsBetter waits.now first least better.0 better.1.items)) }
    ensures none { IfOk result (λ found. IfNone found (IsNoBetter waits.now first least)) }
{
    if waits.flushes(first).is_empty() {
        return Ok(None);
    }
    if !waits.has_rescuer(waits.lane_of(first)) {
        return Ok(None);
    }
    if least <= bounds[usize::from(waits.lane_of(first).get())] {
        return Ok(None);
    }
    // A second hop costs 3.
    if least <= least_hop(waits, first) + 3 {
        return better_hop(alloc, waits, first, least);
    }
    search_from(waits, on, bounds, search, first, least)?;
    let cost = search.cost(first);
    if cost >= least {
        return Ok(None);
    }
    let hops = round(alloc, waits, search, first, least)?;
    Ok(Some((cost, hops)))
}

/// A round that costs less than the limit and no more than any other, if there is one that costs less. Each round
/// passes one of these items. The order of lanes is that in which bounds are made.
pub(crate) fn least_round<A: Allocator + Copy>(
    alloc: A,
    waits: &Waits<'_, A>,
    on: &Buckets<A>,
    order: &[u16],
    search: &mut Search<A>,
    passed: &[u32],
    limit: u32,
) -> Result<Option<Vec<Hop, A>>, AllocError>
    requires on { AreItemsOn waits.now on.now }
    requires items { All (λ i. i < items waits.now) passed.now }
    requires passed { ArePassed waits.now passed.now }
    requires low { limit ≤ max_walk_cost }
    ensures some { IfOk result (λ found. IfSome found (λ hops. IsLeastRound waits.now limit hops.items)) }
    ensures none { IfOk result (λ found.
        IfNone found ((hops : List Hop) → IsRound waits.now hops → limit ≤ hops_cost hops)) }
{
    let _items = waits.items();
    let mut least = limit;
    let mut found = None;
    let mut from = 0;
    while from < passed.len() {
        let to = passed.len().min(from + AT_A_TIME);
        let few = &passed[from..to];
        let mut bounds = no_bounds(alloc, waits.lanes())?;
        let mut are_made = false;
        let begun = search.gone_on();
        for i in few {
            // Bounds take about as long as to go on once from each item.
            if !are_made && search.gone_on().saturating_sub(begun) > waits.items() {
                bounds = bounds_to(alloc, waits, on, order, few)?;
                are_made = true;
            }
            let first = ItemId::new(*i as u16);
            if let Some((cost, hops)) = better_round(
                alloc, waits, on, &bounds, search, first, least,
            )? {
                least = cost;
                found = Some(hops);
            }
        }
        from = to;
    }
    Ok(found)
}

/// The same, such that it begins with an unsure flush if it has one, and that of the flushes of an item with the same
/// words it has the one that is declared first.
pub(crate) fn least_round_settled<A: Allocator + Copy>(
    alloc: A,
    waits: &Waits<'_, A>,
    on: &Buckets<A>,
    order: &[u16],
    search: &mut Search<A>,
    passed: &[u32],
    limit: u32,
) -> Result<Option<Vec<Hop, A>>, AllocError>
    requires on { AreItemsOn waits.now on.now }
    requires items { All (λ i. i < items waits.now) passed.now }
    requires passed { ArePassed waits.now passed.now }
    requires low { limit ≤ max_walk_cost }
    ensures some { IfOk result (λ found. IfSome found (λ hops. IsLeastRound waits.now limit hops.items)) }
    ensures none { IfOk result (λ found.
        IfNone found ((hops : List Hop) → IsRound waits.now hops → limit ≤ hops_cost hops)) }
    ensures begins { IfOk result (λ found. IfSome found (λ hops. BeginsUnsure hops.items)) }
    ensures alike { IfOk result (λ found. IfSome found (λ hops. AreFirstAlike waits.now hops.items)) }
{
    match least_round(alloc, waits, on, order, search, passed, limit)? {
        Some(mut hops) => {
            settle(waits, hops.as_mut_slice());
            Ok(Some(hops))
        }
        None => Ok(None),
    }
}
