//! A least walk for items that must go on: by which one of them is held up, at the least cost.
//!
//! What it costs to come to each item is found first. A walk then ends in one of three ways: by a flush that leads to a
//! bare lane; by a round from an item; or by a round from where somebody waits for an item alone, back to there, which
//! waits for the same entry: that is queued once. Rounds from items are looked for from the nearest items first, as
//! far as they can be better than the best end so far. After the first few, if others may be better, the least of all
//! rounds is found: none costs less, so from most of the others none is looked for; and a round from its nearest item
//! ends a walk, too. One from where somebody waits for an item alone is better than those from its items only if all
//! these are farther away: so few are looked for. It takes the time of a least round, of a search for each of the items
//! that are left, and of two for each of the last kind.

ghost use Rattle.std.specs.Prelude.{◌≡◌, ◌≢◌, ◌+◌, ◌<◌, ◌≤◌, ◌⊎◌, ℕ, List, Contains, false, length, slice_index};
ghost use Rattle.std.specs.Prelude.{map, IfOk, OnOk, IfSome, IfNone, MatchOption, Some};
ghost use Rattle.std.specs.List.{All};
ghost use Rattle.wq_core.specs.Wiring.{HasRescuer, items, lane_of};
ghost use Rattle.wq_hang.specs.declared.hop.Hop.{Hop};
ghost use Rattle.wq_hang.specs.Walk.{AreFirstAlike, max_walk_cost};
ghost use Rattle.wq_hang.specs.WalkFor.{IsLeastWalkFor, IsWalkFor};
ghost use Rattle.wq_hang.specs.WaysFor.{AreLatest, AreNear};
ghost use Rattle.wq_hang.specs.EndsFor.{EndsAlone, IsBest, IsBestEnd, IsEnd, IsLedTo, IsRoundAlone, IsWalkAt};
ghost use Rattle.wq_hang.specs.EndsFor.{IsBelowRounds, NoneAlone, NoneBare, NoneFrom, first_or};
ghost use Rattle.wq_hang.specs.Search.{AreBounds, ArePassed, IsNoBetter, hop_cost, hops_cost};

use crate::bounds::{bounds_to, by_falling_numbers, no_bounds};
use crate::hop::Hop;
use crate::hop_back::unsure_part;
use crate::least::{AT_A_TIME, MOST, better_round, least_round};
use crate::marks::marked_lanes;
use crate::on_lanes::{items_on_lanes, marked_items};
use crate::pending::{Pending, cost_to_wait, latest};
use crate::search::Search;
use crate::settling::settle_held;
use crate::waits::Waits;
use crate::ways::{search_ways, way_to};
use std::alloc::{AllocError, Allocator};
use std::marker::Model;
use wq_buckets::Buckets;
use wq_items::ItemId;

/// No hop costs less.
const LEAST_HOP: u32 = 3;

/// From so many items rounds are looked for before the least of all rounds is.
const FIRST: usize = 8;

/// A walk that holds up an item.
#[derive(Drop)]
pub(crate) struct WalkFor<A: Allocator> {
    pub(crate) named: ItemId,
    pub(crate) hops: Vec<Hop, A>,
}

/// How a walk ends.
#[derive(Drop)]
enum End<A: Allocator> {
    /// This hop leads from an item to a bare lane.
    Bare(Hop),
    /// From this item there is a round.
    Round(ItemId, Vec<Hop, A>),
    /// From where somebody waits for this item alone there is a round back to there.
    Alone(ItemId, Vec<Hop, A>),
}

/// The best end so far, and what a walk to it costs.
#[derive(Drop)]
struct Best<A: Allocator> {
    cost: u32,
    end: Option<End<A>>,
}

impl<A: Allocator> Best<A> {
    /// This end is better, at this cost.
    fn becomes(&mut self, cost: u32, end: End<A>)
        ensures cost { self.new.cost ≡ cost }
        ensures end { self.new.end ≡ Some end }
    {
        self.cost = cost;
        self.end = Some(end);
    }
}

/// What is searched through. Contracts don't see the order.
#[derive(Drop)]
struct Field<'a, 'w, A: Allocator> {
    waits: &'a Waits<'w, A>,
    on: &'a Buckets<A>,
    /// The lanes, in the order in which bounds are made.
    order: &'a [u16],
    /// The items at which ways begin.
    starts: &'a [ItemId],
    ways: &'a Search<A>,
    pending: &'a Pending<A>,
}

impl<'a, 'w, A: Allocator> Model for Field<'a, 'w, A> {
    ghost use Rattle.wq_hang.specs.EndsFor.{Field, IsField};

    ghost Value = { Field };

    ghost view = { λ f. record {
      wiring = f.waits.now;
      starts = f.starts.now;
      ways = f.ways.now;
      pending = f.pending.now;
    } };

    ghost invariant = { λ f. IsField f.on.now (record {
      wiring = f.waits.now;
      starts = f.starts.now;
      ways = f.ways.now;
      pending = f.pending.now;
    }) };
}

/// The first item that waits by these hops, or this one if there is none.
fn first_or(hops: &[Hop], item: ItemId) -> ItemId
    ensures { result ≡ first_or item hops.now }
{
    match hops.first() {
        Some(first) => first.item,
        None => item,
    }
}

/// What a hop costs.
fn hop_cost(hop: &Hop) -> u32
    ensures { result ≡ hop_cost hop.now }
{
    let is_beside = !hop.flush.whole && hop.flush.item != hop.next;
    unsure_part(&hop.flush) + if is_beside { 4 } else { 3 }
}

/// What hops cost.
fn hops_cost(hops: &[Hop]) -> u32
    ensures { result ≤ hops_cost hops.now }
{
    let mut cost: u32 = 0;
    for hop in hops {
        cost = cost.saturating_add(hop_cost(hop));
    }
    cost
}

/// The numbers behind these costs, those with the least cost first.
fn cheapest_first<A: Allocator + Copy>(
    alloc: A,
    mut keys: Vec<(u32, u32), A>,
) -> Result<Vec<u32, A>, AllocError>
    ensures all { IfOk result (λ list. (i : ℕ) → Contains (map (λ key. key.1) keys.items) i →
        Contains list.items i) }
    ensures no_others { IfOk result (λ list. (i : ℕ) → Contains list.items i →
        Contains (map (λ key. key.1) keys.items) i) }
{
    keys.sort_unstable_by_key(|key| *key);
    let mut list = Vec::with_capacity(alloc, keys.len())?;
    for key in keys.iter() {
        list.push(key.1)?;
    }
    Ok(list)
}

/// The items to which there are ways that cost less than the limit, the nearest first.
fn by_cost<A: Allocator + Copy>(
    alloc: A,
    waits: &Waits<'_, A>,
    ways: &Search<A>,
    limit: u32,
) -> Result<Vec<u32, A>, AllocError>
    requires { length ways.now.costs ≡ items waits.now }
    ensures { IfOk result (λ near. AreNear limit ways.now.costs near.items) }
{
    let mut keys = Vec::new(alloc);
    for i in 0..waits.items() as u16 {
        let cost = ways.cost(ItemId::new(i));
        if cost < limit {
            keys.push((cost, u32::from(i)))?;
        }
    }
    cheapest_first(alloc, keys)
}

impl<A: Allocator + Copy> Field<'_, '_, A> {
    /// The best of the ends by a hop to a bare lane.
    fn to_bare(&self) -> Best<A>
        ensures best { IsBest self.now result.cost result.end }
        ensures bare { NoneBare self.now result.cost }
    {
        let mut best = Best {
            cost: MOST,
            end: None,
        };
        for i in 0..self.waits.items() as u16 {
            let item = ItemId::new(i);
            let cost = self.ways.cost(item);
            for flush in self.waits.flushes(item) {
                let all = cost_to_wait(cost, flush) + 1;
                if all < best.cost && !self.waits.has_rescuer(self.waits.lane_of(flush.item)) {
                    let hop = Hop {
                        item,
                        flush: *flush,
                        next: flush.item,
                    };
                    best.becomes(all, End::Bare(hop));
                }
            }
        }
        best
    }

    /// Whether a round from one of these items may be better than the best end so far, if none costs less than this.
    fn may_be_better(&self, few: &[u32], least: u32, best: u32) -> bool
        requires few { All (λ i. i < length self.now.ways.costs) few.now }
        requires low { least ≤ max_walk_cost }
        ensures { result ≡ false → (i : ℕ) → Contains few.now i → best ≤ slice_index self.now.ways.costs i + least }
    {
        let _items = self.waits.items();
        for item in few {
            if self.ways.cost(ItemId::new(*item as u16)) + least < best {
                return true;
            }
        }
        false
    }

    /// Looks for rounds from these few items. No round costs less than `least`.
    fn look_from(
        &self,
        alloc: A,
        search: &mut Search<A>,
        few: &[u32],
        least: u32,
        best: &mut Best<A>,
    ) -> Result<(), AllocError>
        requires few { All (λ i. i < items self.now.wiring) few.now }
        requires least { IsBelowRounds self.now.wiring least × (least ≤ max_walk_cost) }
        requires best { IsBest self.now best.old.cost best.old.end }
        ensures best { OnOk result (IsBest self.now best.new.cost best.new.end) }
        ensures less { OnOk result (best.new.cost ≤ best.old.cost) }
        ensures none { OnOk result ((i : ℕ) → Contains few.now i → NoneFrom self.now best.new.cost i) }
    {
        let _items = self.waits.items();
        let bounds = bounds_to(alloc, self.waits, self.on, self.order, few)?;
        for i in few {
            let item = ItemId::new(*i as u16);
            let cost = self.ways.cost(item);
            if cost + least < best.cost {
                let limit = best.cost - cost;
                if let Some((more, hops)) = better_round(
                    alloc, self.waits, self.on, &bounds, search, item, limit,
                )? {
                    best.becomes(cost + more, End::Round(item, hops));
                }
            }
        }
        Ok(())
    }

    /// Looks for rounds from these items, a few at a time. No round costs less than `least`.
    fn look_from_items(
        &self,
        alloc: A,
        search: &mut Search<A>,
        near: &[u32],
        least: u32,
        best: &mut Best<A>,
    ) -> Result<(), AllocError>
        requires near { All (λ i. i < items self.now.wiring) near.now }
        requires least { IsBelowRounds self.now.wiring least × (least ≤ max_walk_cost) }
        requires best { IsBest self.now best.old.cost best.old.end }
        ensures best { OnOk result (IsBest self.now best.new.cost best.new.end) }
        ensures less { OnOk result (best.new.cost ≤ best.old.cost) }
        ensures none { OnOk result ((i : ℕ) → Contains near.now i → NoneFrom self.now best.new.cost i) }
    {
        let _items = self.waits.items();
        let mut from = 0;
        while from < near.len() {
            let to = near.len().min(from + AT_A_TIME);
            let few = &near[from..to];
            if self.may_be_better(few, least, best.cost) {
                self.look_from(alloc, search, few, least, best)?;
            }
            from = to;
        }
        Ok(())
    }

    /// Of the items that wait by these hops the nearest.
    fn nearest(&self, hops: &[Hop]) -> ItemId
        requires some { 0 < length hops.now }
        requires items { All (λ (h : Hop). h.item < items self.now.wiring) hops.now }
        ensures { result < items self.now.wiring }
    {
        let mut nearest = hops[0].item;
        for hop in hops {
            if self.ways.cost(hop.item) < self.ways.cost(nearest) {
                nearest = hop.item;
            }
        }
        nearest
    }

    /// Takes a round from an item for the best end so far, as if it cost 1 more: so an end that costs as much is found
    /// where it is looked for.
    fn look_from_one(
        &self,
        alloc: A,
        search: &mut Search<A>,
        item: ItemId,
        best: &mut Best<A>,
    ) -> Result<(), AllocError>
        requires item { item < items self.now.wiring }
        requires best { IsBest self.now best.old.cost best.old.end }
        ensures best { OnOk result (IsBest self.now best.new.cost best.new.end) }
        ensures less { OnOk result (best.new.cost ≤ best.old.cost) }
    {
        let _items = self.waits.items();
        let cost = self.ways.cost(item) + 1;
        if cost < best.cost {
            let bounds = no_bounds(alloc, self.waits.lanes())?;
            let limit = best.cost - cost;
            if let Some((more, hops)) = better_round(
                alloc, self.waits, self.on, &bounds, search, item, limit,
            )? {
                best.becomes(cost + more, End::Round(item, hops));
            }
        }
        Ok(())
    }

    /// Finds less than which no round costs, if a round from one of these other items may be better than the best end
    /// so far: what a least round costs, as far as it is less than that end. The nearest of its items ends a way, too.
    /// Each round passes one of the items `passed`.
    fn least_of_others(
        &self,
        alloc: A,
        search: &mut Search<A>,
        passed: &[u32],
        others: &[u32],
        best: &mut Best<A>,
    ) -> Result<u32, AllocError>
        requires others { All (λ i. i < items self.now.wiring) others.now }
        requires passed { ArePassed self.now.wiring passed.now }
        requires items { All (λ i. i < items self.now.wiring) passed.now }
        requires best { IsBest self.now best.old.cost best.old.end }
        ensures best { OnOk result (IsBest self.now best.new.cost best.new.end) }
        ensures less { OnOk result (best.new.cost ≤ best.old.cost) }
        ensures least { IfOk result (λ least. IsBelowRounds self.now.wiring least × (least ≤ max_walk_cost)) }
    {
        let _items = self.waits.items();
        if !self.may_be_better(others, LEAST_HOP, best.cost) {
            return Ok(LEAST_HOP);
        }
        let found = least_round(
            alloc, self.waits, self.on, self.order, search, passed, best.cost,
        )?;
        match found {
            Some(hops) => {
                let item = self.nearest(hops.as_slice());
                self.look_from_one(alloc, search, item, best)?;
                Ok(hops_cost(hops.as_slice()))
            }
            None => Ok(best.cost),
        }
    }

    /// Looks for rounds from all items that are near, and finds less than which no round costs.
    fn look_from_near(
        &self,
        alloc: A,
        search: &mut Search<A>,
        passed: &[u32],
        near: &[u32],
        best: &mut Best<A>,
    ) -> Result<u32, AllocError>
        requires near { AreNear best.old.cost self.now.ways.costs near.now }
        requires passed { ArePassed self.now.wiring passed.now }
        requires items { All (λ i. i < items self.now.wiring) passed.now }
        requires best { IsBest self.now best.old.cost best.old.end }
        ensures best { OnOk result (IsBest self.now best.new.cost best.new.end) }
        ensures less { OnOk result (best.new.cost ≤ best.old.cost) }
        ensures none { OnOk result ((i : ℕ) → NoneFrom self.now best.new.cost i) }
        ensures least { IfOk result (λ least. IsBelowRounds self.now.wiring least × (least ≤ max_walk_cost)) }
    {
        let _items = self.waits.items();
        let to = near.len().min(FIRST);
        self.look_from_items(alloc, search, &near[..to], LEAST_HOP, best)?;
        let least = self.least_of_others(alloc, search, passed, &near[to..], best)?;
        self.look_from_items(alloc, search, &near[to..], least, best)?;
        Ok(least)
    }

    /// Whether another item is on the lane of this one, and to come to it costs 1 more than this.
    fn has_one_before(&self, item: ItemId, cost: u32) -> bool
        requires item { item < items self.now.wiring }
        requires low { cost ≤ max_walk_cost }
        ensures { result ≡ false → (i : ℕ) → i < items self.now.wiring → i ≢ item →
            lane_of self.now.wiring i ≡ lane_of self.now.wiring item → slice_index self.now.ways.costs i ≢ cost + 1 }
    {
        let _items = self.waits.items();
        let lane = self.waits.lane_of(item).get();
        for other in self.on.places(lane) {
            let other = ItemId::new(*other as u16);
            if other != item && self.ways.cost(other) == cost + 1 {
                return true;
            }
        }
        false
    }

    /// The round from where somebody waits for an item alone, if it costs less than the limit, and what it costs.
    fn round_alone(
        &self,
        alloc: A,
        search: &mut Search<A>,
        item: ItemId,
        limit: u32,
    ) -> Result<Option<(u32, Vec<Hop, A>)>, AllocError>
        requires item { item < items self.now.wiring }
        requires rescuer { HasRescuer self.now.wiring (lane_of self.now.wiring item) }
        requires low { (1 < limit) × (limit ≤ max_walk_cost) }
        ensures some { IfOk result (λ found. IfSome found (λ alone. (alone.0 < limit)
            × (cost : ℕ) × IsRoundAlone self.now.wiring item alone.1.items cost × (cost ≤ alone.0))) }
        ensures least { IfOk result (λ found. IfSome found (λ alone. (hops : List Hop) (cost : ℕ) →
            IsRoundAlone self.now.wiring item hops cost → alone.0 ≤ cost)) }
        ensures none { IfOk result (λ found. IfNone found ((hops : List Hop) (cost : ℕ) →
            IsRoundAlone self.now.wiring item hops cost → limit ≤ cost)) }
    {
        let _items = self.waits.items();
        search_ways(self.waits, self.on, search, &[item], limit)?;
        let mut least = limit;
        let mut last = None;
        for i in 0..self.waits.items() as u16 {
            let waiting = ItemId::new(i);
            let cost = search.cost(waiting);
            if cost + 3 < least {
                for flush in self.waits.flushes(waiting) {
                    if !flush.whole && flush.item == item && cost_to_wait(cost, flush) < least {
                        least = cost_to_wait(cost, flush);
                        last = Some(Hop {
                            item: waiting,
                            flush: *flush,
                            next: item,
                        });
                    }
                }
            }
        }
        match last {
            Some(mut last) => {
                let mut hops = way_to(alloc, self.waits, search, last.item)?;
                last.next = first_or(hops.as_slice(), last.item);
                hops.push(last)?;
                Ok(Some((least, hops)))
            }
            None => Ok(None),
        }
    }

    /// Whether a round from where somebody waits for an item alone may be better than the best end so far, and than
    /// those from its items, if no round costs less than this.
    fn may_begin_alone(&self, latest: &[u32], item: ItemId, least: u32, best: u32) -> bool
        requires item { item < items self.now.wiring }
        requires len { length latest.now ≡ items self.now.wiring }
        requires low { least ≤ max_walk_cost }
        ensures { result ≡ false → (best ≤ slice_index self.now.pending.costs item + least)
            ⊎ ((slice_index latest.now item ≤ slice_index self.now.pending.costs item + 1)
            ⊎ ((i : ℕ) → i < items self.now.wiring → i ≢ item →
            lane_of self.now.wiring i ≡ lane_of self.now.wiring item →
            slice_index self.now.ways.costs i ≢ slice_index self.now.pending.costs item + 1)) }
    {
        let cost = self.pending.cost(item);
        cost + least < best
            && latest[usize::from(item.get())] > cost + 1
            && self.has_one_before(item, cost)
    }

    /// Whether there is a round, for less than the limit, from another item on the lane of this one, to come to which
    /// costs 1 more than this.
    fn has_round_before(
        &self,
        alloc: A,
        bounds: &[u32],
        search: &mut Search<A>,
        item: ItemId,
        cost: u32,
        limit: u32,
    ) -> Result<bool, AllocError>
        requires one_each { length bounds.now ≡ self.now.wiring.lanes }
        requires bounds { (i : ℕ) → lane_of self.now.wiring i ≡ lane_of self.now.wiring item →
            HasRescuer self.now.wiring (lane_of self.now.wiring i) → AreBounds self.now.wiring bounds.now i }
        requires item { item < items self.now.wiring }
        requires low { (cost ≤ max_walk_cost) × (limit ≤ max_walk_cost) }
        ensures { IfOk result (λ found. found ≡ false → (i : ℕ) → i < items self.now.wiring → i ≢ item →
            lane_of self.now.wiring i ≡ lane_of self.now.wiring item →
            slice_index self.now.ways.costs i ≡ cost + 1 → IsNoBetter self.now.wiring i limit) }
    {
        let _items = self.waits.items();
        let lane = self.waits.lane_of(item).get();
        for other in self.on.places(lane) {
            let other = ItemId::new(*other as u16);
            if other != item && self.ways.cost(other) == cost + 1 {
                let found = better_round(alloc, self.waits, self.on, bounds, search, other, limit)?;
                if found.is_some() {
                    return Ok(true);
                }
            }
        }
        Ok(false)
    }

    /// The items from where somebody waits for which alone rounds are looked for, the nearest first. No round costs
    /// less than `least`.
    fn begin_alone(
        &self,
        alloc: A,
        latest: &[u32],
        least: u32,
        best: u32,
    ) -> Result<Vec<u32, A>, AllocError>
        requires len { length latest.now ≡ items self.now.wiring }
        requires least { IsBelowRounds self.now.wiring least × (least ≤ max_walk_cost) }
        requires latest { AreLatest self.now.wiring max_walk_cost self.now.ways.costs latest.now }
        requires round { (i : ℕ) → NoneFrom self.now best i }
        requires most { best ≤ max_walk_cost }
        ensures within { IfOk result (λ few. All (λ i. i < items self.now.wiring) few.items) }
        ensures others { IfOk result (λ few. (t : ℕ) → Contains few.items t ⊎ NoneAlone self.now best t) }
    {
        let mut keys = Vec::new(alloc);
        for i in 0..self.waits.items() as u16 {
            let item = ItemId::new(i);
            if self.may_begin_alone(latest, item, least, best) {
                keys.push((self.pending.cost(item), u32::from(i)))?;
            }
        }
        cheapest_first(alloc, keys)
    }

    /// Looks for a round from where somebody waits for one of these few items alone. If there is one, a round from an
    /// item before it costs as much. That is looked for first, since bounds make it quick. None is better by more than
    /// 1 than those from its items, so the first one that is found will do.
    fn look_from_alone(
        &self,
        alloc: A,
        search: &mut Search<A>,
        few: &[u32],
        best: &mut Best<A>,
    ) -> Result<(), AllocError>
        requires few { All (λ i. i < items self.now.wiring) few.now }
        requires best { IsBest self.now best.old.cost best.old.end }
        requires round { (i : ℕ) → NoneFrom self.now best.old.cost i }
        ensures best { OnOk result (IsBest self.now best.new.cost best.new.end) }
        ensures less { OnOk result (best.new.cost ≤ best.old.cost) }
        ensures none { OnOk result ((t : ℕ) → Contains few.now t → NoneAlone self.now best.new.cost t) }
    {
        let _items = self.waits.items();
        let bounds = bounds_to(alloc, self.waits, self.on, self.order, few)?;
        for i in few {
            let item = ItemId::new(*i as u16);
            let cost = self.pending.cost(item);
            // One before the item costs 1, and its hop 3.
            if cost + 4 < best.cost {
                let limit = best.cost - cost;
                if self.has_round_before(alloc, &bounds, search, item, cost, limit)? {
                    if let Some((more, hops)) = self.round_alone(alloc, search, item, limit)? {
                        best.becomes(cost + more, End::Alone(item, hops));
                        return Ok(());
                    }
                }
            }
        }
        Ok(())
    }

    /// Looks for a round from where somebody waits for one of these items alone, from a few at a time.
    fn look_from_pending(
        &self,
        alloc: A,
        search: &mut Search<A>,
        near: &[u32],
        best: &mut Best<A>,
    ) -> Result<(), AllocError>
        requires near { All (λ i. i < items self.now.wiring) near.now }
        requires best { IsBest self.now best.old.cost best.old.end }
        requires round { (i : ℕ) → NoneFrom self.now best.old.cost i }
        ensures best { OnOk result (IsBest self.now best.new.cost best.new.end) }
        ensures less { OnOk result (best.new.cost ≤ best.old.cost) }
        ensures none { OnOk result ((t : ℕ) → Contains near.now t → NoneAlone self.now best.new.cost t) }
    {
        let _items = self.waits.items();
        let before = best.cost;
        let mut from = 0;
        while from < near.len() && best.cost == before {
            let to = near.len().min(from + AT_A_TIME);
            self.look_from_alone(alloc, search, &near[from..to], best)?;
            from = to;
        }
        Ok(())
    }

    /// The best end. Each round passes one of the items `passed`.
    fn best_end(
        &self,
        alloc: A,
        search: &mut Search<A>,
        passed: &[u32],
    ) -> Result<Option<End<A>>, AllocError>
        requires passed { ArePassed self.now.wiring passed.now }
        requires items { All (λ i. i < items self.now.wiring) passed.now }
        ensures { IfOk result (λ found. IsBestEnd self.now found) }
    {
        let mut best = self.to_bare();
        let near = by_cost(alloc, self.waits, self.ways, best.cost)?;
        let least = self.look_from_near(alloc, search, passed, near.as_slice(), &mut best)?;
        let latest = latest(alloc, self.waits, self.ways, MOST)?;
        let alone = self.begin_alone(alloc, latest.as_slice(), least, best.cost)?;
        self.look_from_pending(alloc, search, alone.as_slice(), &mut best)?;
        Ok(best.end)
    }

    /// The walk of a way to an item and these hops. The ways begin at these items.
    fn with_way(
        &self,
        alloc: A,
        item: ItemId,
        hops: &[Hop],
    ) -> Result<Option<WalkFor<A>>, AllocError>
        requires item { item < items self.now.wiring }
        requires reached { slice_index self.now.ways.costs item < max_walk_cost }
        ensures { IfOk result (λ found. MatchOption found ⊥ (λ walk.
            IsLedTo self.now item hops.now walk.named walk.hops.items)) }
    {
        let mut all = way_to(alloc, self.waits, self.ways, item)?;
        let first = first_or(all.as_slice(), item);
        all.extend_from_slice(hops)?;
        match one_held_by(self.waits, self.starts, first) {
            Some(named) => Ok(Some(WalkFor { named, hops: all })),
            None => Ok(None),
        }
    }

    /// The walk to where somebody waits for an item alone, with a round from there.
    fn with_way_alone(
        &self,
        alloc: A,
        item: ItemId,
        hops: Vec<Hop, A>,
    ) -> Result<Option<WalkFor<A>>, AllocError>
        requires { (cost : ℕ) × EndsAlone self.now cost item hops.items × (cost ≤ max_walk_cost) }
        ensures { (cost : ℕ) → EndsAlone self.now cost item hops.items → cost ≤ max_walk_cost →
            IfOk result (λ found. MatchOption found ⊥ (λ walk. IsWalkAt self.now cost walk.named walk.hops.items)) }
    {
        let Some(mut hop) = self.pending.hop_to(item) else {
            return Ok(Some(WalkFor { named: item, hops }));
        };
        hop.next = first_or(hops.as_slice(), hop.next);
        let waiting = hop.item;
        let mut all = Vec::new(alloc);
        all.push(hop)?;
        all.extend_from_slice(hops.as_slice())?;
        self.with_way(alloc, waiting, all.as_slice())
    }

    /// The walk with this end.
    fn walk_to(&self, alloc: A, end: End<A>) -> Result<Option<WalkFor<A>>, AllocError>
        requires { (cost : ℕ) × IsBest self.now cost (Some end) }
        ensures { (cost : ℕ) → IsBest self.now cost (Some end) →
            IfOk result (λ found. MatchOption found ⊥ (λ walk. IsWalkAt self.now cost walk.named walk.hops.items)) }
    {
        let _items = self.waits.items();
        match end {
            End::Bare(hop) => self.with_way(alloc, hop.item, &[hop]),
            End::Round(item, hops) => self.with_way(alloc, item, hops.as_slice()),
            End::Alone(item, hops) => self.with_way_alone(alloc, item, hops),
        }
    }
}

/// Of these items the one that waits first, or else the first that is on its lane.
fn one_held_by<A: Allocator + Copy>(
    waits: &Waits<'_, A>,
    named: &[ItemId],
    first: ItemId,
) -> Option<ItemId>
    requires first { first < items waits.now }
    requires named { All (λ i. i < items waits.now) named.now }
    ensures some { IfSome result (λ x. Contains named.now x × (lane_of waits.now x ≡ lane_of waits.now first)
        × (Contains named.now first → x ≡ first)) }
    ensures none { IfNone result ((i : ℕ) → Contains named.now i → lane_of waits.now i ≢ lane_of waits.now first) }
{
    for item in named {
        if *item == first {
            return Some(first);
        }
    }
    let lane = waits.lane_of(first);
    for item in named {
        if waits.lane_of(*item) == lane {
            return Some(*item);
        }
    }
    None
}

/// A least walk for these items, whose lanes have rescuers, if there is one.
fn least_rescued<A: Allocator + Copy>(
    alloc: A,
    waits: &Waits<'_, A>,
    numbers: &[u16],
    named: &[ItemId],
) -> Result<Option<WalkFor<A>>, AllocError>
    requires numbers { length numbers.now ≡ waits.now.lanes }
    requires named { All (λ i. (i < items waits.now) × HasRescuer waits.now (lane_of waits.now i)) named.now }
    ensures some { IfOk result (λ found.
        IfSome found (λ walk. IsLeastWalkFor waits.now named.now walk.named walk.hops.items)) }
    ensures none { IfOk result (λ found. IfNone found
        ((x : ℕ) (hops : List Hop) → ¬ IsWalkFor waits.now named.now x hops)) }
{
    let _items = waits.items();
    let on = items_on_lanes(alloc, waits)?;
    let order = by_falling_numbers(alloc, numbers)?;
    let mut ways = Search::new(alloc);
    search_ways(waits, &on, &mut ways, named, MOST)?;
    let pending = Pending::of_ways(alloc, waits, &ways, named, MOST)?;
    let field = Field {
        waits,
        on: &on,
        order: order.as_slice(),
        starts: named,
        ways: &ways,
        pending: &pending,
    };
    let marks = marked_lanes(alloc, waits, numbers)?;
    let passed = marked_items(alloc, waits, marks.as_slice())?;
    let mut search = Search::new(alloc);
    match field.best_end(alloc, &mut search, passed.as_slice())? {
        Some(end) => field.walk_to(alloc, end),
        None => Ok(None),
    }
}

/// A least walk for these items, if there is one. Of the flushes of an item with the same words it has the one that is
/// declared first.
pub(crate) fn least_walk_for<A: Allocator + Copy>(
    alloc: A,
    waits: &Waits<'_, A>,
    numbers: &[u16],
    named: &[ItemId],
) -> Result<Option<WalkFor<A>>, AllocError>
    requires numbers { length numbers.now ≡ waits.now.lanes }
    requires named { All (λ i. i < items waits.now) named.now }
    ensures some { IfOk result (λ found.
        IfSome found (λ walk. IsLeastWalkFor waits.now named.now walk.named walk.hops.items)) }
    ensures alike { IfOk result (λ found. IfSome found (λ walk. AreFirstAlike waits.now walk.hops.items)) }
    ensures none { IfOk result (λ found. IfNone found
        ((x : ℕ) (hops : List Hop) → ¬ IsWalkFor waits.now named.now x hops)) }
{
    let _items = waits.items();
    for item in named {
        if !waits.has_rescuer(waits.lane_of(*item)) {
            return Ok(Some(WalkFor {
                named: *item,
                hops: Vec::new(alloc),
            }));
        }
    }
    match least_rescued(alloc, waits, numbers, named)? {
        Some(mut walk) => {
            settle_held(waits, walk.named, walk.hops.as_mut_slice());
            Ok(Some(walk))
        }
        None => Ok(None),
    }
}
