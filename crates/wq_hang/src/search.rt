//! A search from one item: what it costs to come from it to each other item, and back to itself.
//!
//! A flush of an item leads on to its target, and for one more to any other item on the lane of its target; a flush of
//! the whole lane leads to all its items alike. What costs less than before is gone on from, the cheapest first: hops
//! cost 3 or 4, and 32,768 more by an unsure flush, so four queues, one for each, are in order by themselves
//! (E. W. Dijkstra, "A note on two problems in connexion with graphs", Numerische Mathematik 1, 1959). The first item
//! costs nothing to begin with and is then left out, so what it costs in the end is the cheapest way round. What costs
//! as much as the limit isn't gone on from; nor does a flush lead on to a lane from which it can't come back for less
//! than the cheapest way round so far. It takes time in the number of items, lanes and flushes.

ghost use Rattle.std.specs.Prelude.{◌≡◌, ◌<◌, ◌≤◌, ◌⊎◌, [], true, false, length, replicate, slice_index};
ghost use Rattle.std.specs.Prelude.{slice_index_or, IfOk, OnOk, IfSome, IfNone, IsTrue, if◌then◌else◌};
ghost use Rattle.std.specs.List.{All};
ghost use Rattle.wq_core.specs.Wiring.{HasRescuer, items, lane_of};
ghost use Rattle.wq_hang.specs.declared.hop.Hop.{Hop};
ghost use Rattle.wq_hang.specs.Walk.{max_walk_cost};
ghost use Rattle.wq_hang.specs.Search.{AreItemsOn, IsTaken, IsSearched, with_todo, reach, reach_all, reach_lane};
ghost use Rattle.wq_hang.specs.Search.{most_of_use, to_both, follow, expand, hop_to, AreBounds};
ghost use Rattle.wq_hang.specs.WaysFor.{begin_at, begin_all, start_lane};

use crate::hop::Hop;
use crate::hop_back::unsure_part;
use crate::waits::Waits;
use std::alloc::{AllocError, Allocator};
use std::collections::VecDeque;
use std::marker::Model;
use wq_buckets::Buckets;
use wq_groups::LaneId;
use wq_items::{ItemId, Target};

/// What was found so far.
#[derive(Drop)]
pub(crate) struct Search<A: Allocator> {
    costs: Vec<u32, A>,
    lane_costs: Vec<u32, A>,
    by: Vec<Hop, A>,
    near: VecDeque<ItemId, A>,
    far: VecDeque<ItemId, A>,
    near_unsure: VecDeque<ItemId, A>,
    far_unsure: VecDeque<ItemId, A>,
    gone_on: usize,
}

impl<A: Allocator> Model for Search<A> {
    ghost use Rattle.wq_hang.specs.Search.{Reach};

    ghost Value = { Reach };

    ghost view = { λ s.
        record {
          costs = s.costs.items;
          lane_costs = s.lane_costs.items;
          by = s.by.items;
          near = s.near.items;
          far = s.far.items;
          near_unsure = s.near_unsure.items;
          far_unsure = s.far_unsure.items;
        } };
}

/// Makes a list this long, each number of which is this one.
fn set_all<A: Allocator>(list: &mut Vec<u32, A>, len: usize, number: u32) -> Result<(), AllocError>
    ensures { OnOk result (list.new.items ≡ replicate len number) }
{
    list.resize(len, number)?;
    list.fill(number);
    Ok(())
}

impl<A: Allocator + Copy> Search<A> {
    /// Nothing is searched for yet. No memory is taken.
    pub(crate) fn new(alloc: A) -> Self {
        Search {
            costs: Vec::new(alloc),
            lane_costs: Vec::new(alloc),
            by: Vec::new(alloc),
            near: VecDeque::new(alloc),
            far: VecDeque::new(alloc),
            near_unsure: VecDeque::new(alloc),
            far_unsure: VecDeque::new(alloc),
            gone_on: 0,
        }
    }

    /// Begins anew: each of this many items costs as much as the limit. Memory is taken only the first time.
    pub(crate) fn begin(&mut self, items: usize, lanes: usize, limit: u32) -> Result<(), AllocError>
        ensures costs { OnOk result (self.new.costs ≡ replicate items limit) }
        ensures lane_costs { OnOk result (self.new.lane_costs ≡ replicate lanes limit) }
        ensures by { OnOk result (length self.new.by ≡ items) }
        ensures near { OnOk result (self.new.near ≡ []) }
        ensures far { OnOk result (self.new.far ≡ []) }
        ensures near_unsure { OnOk result (self.new.near_unsure ≡ []) }
        ensures far_unsure { OnOk result (self.new.far_unsure ≡ []) }
    {
        let none = ItemId::new(0);
        let unset = Hop {
            item: none,
            flush: Target::default(),
            next: none,
        };
        set_all(&mut self.costs, items, limit)?;
        set_all(&mut self.lane_costs, lanes, limit)?;
        self.by.resize(items, unset)?;
        self.near.clear();
        self.far.clear();
        self.near_unsure.clear();
        self.far_unsure.clear();
        Ok(())
    }

    /// An item is to be gone on from, which was reached at the least cost or at 1 more, and by a sure flush or an
    /// unsure one.
    #[inline(always)]
    fn push(&mut self, near: bool, unsure: bool, item: ItemId) -> Result<(), AllocError>
        ensures { IfOk result (λ _. self.new ≡ with_todo near unsure item self.old) }
    {
        match (near, unsure) {
            (true, false) => self.near.push_back(item)?,
            (false, false) => self.far.push_back(item)?,
            (true, true) => self.near_unsure.push_back(item)?,
            (false, true) => self.far_unsure.push_back(item)?,
        }
        Ok(())
    }

    /// A flush of an item leads to this one next at this cost. The hop is made only if it is the cheapest so far: most
    /// hops aren't.
    #[inline(always)]
    fn reach(
        &mut self,
        near: bool,
        cost: u32,
        item: ItemId,
        flush: &Target,
        next: ItemId,
    ) -> Result<(), AllocError>
        requires next { next < length self.old.costs }
        requires one_each { length self.old.by ≡ length self.old.costs }
        ensures { IfOk result (λ _. self.new ≡ reach near cost self.old (hop_to item flush.now next)) }
    {
        let at = usize::from(next.get());
        if cost < self.costs[at] {
            self.costs[at] = cost;
            self.by[at] = Hop {
                item,
                flush: *flush,
                next,
            };
            self.push(near, flush.unsure, next)?;
        }
        Ok(())
    }

    /// A flush of an item leads to each of these items at this cost.
    fn reach_all(
        &mut self,
        near: bool,
        cost: u32,
        item: ItemId,
        flush: &Target,
        on: &[u32],
    ) -> Result<(), AllocError>
        requires on { All (λ j. j < length self.old.costs) on.now }
        requires few { length self.old.costs ≤ 4096 }
        requires one_each { length self.old.by ≡ length self.old.costs }
        ensures { IfOk result (λ _. self.new ≡ reach_all near cost item flush.now on.now self.old) }
    {
        for next in on {
            self.reach(near, cost, item, flush, ItemId::new(*next as u16))?;
        }
        Ok(())
    }

    /// A flush of an item leads to each item of the target's lane at this cost. The items are looked up only if the
    /// lane wasn't reached as cheaply before.
    #[inline(always)]
    fn reach_lane(
        &mut self,
        near: bool,
        cost: u32,
        item: ItemId,
        flush: &Target,
        lane: u16,
        on: &Buckets<A>,
    ) -> Result<(), AllocError>
        requires lane { lane < length self.old.lane_costs }
        requires listed { lane < length on.now }
        requires on { All (λ j. j < length self.old.costs) (slice_index_or on.now lane []) }
        requires few { length self.old.costs ≤ 4096 }
        requires one_each { length self.old.by ≡ length self.old.costs }
        ensures { IfOk result (λ _. self.new
            ≡ reach_lane near cost item flush.now lane (slice_index_or on.now lane []) self.old) }
    {
        if cost < self.lane_costs[usize::from(lane)] {
            self.reach_all(near, cost, item, flush, on.places(lane))?;
            self.lane_costs[usize::from(lane)] = cost;
        }
        Ok(())
    }

    /// It has to cost less than this to come to a lane, so that a round by way of it can cost less than the cheapest so
    /// far.
    #[inline(always)]
    fn most_of_use(&self, waits: &Waits<'_, A>, bounds: &[u32], first: ItemId, lane: LaneId) -> u32
        requires first { first < length self.now.costs }
        requires one_each { length self.now.costs ≡ items waits.now }
        requires lane { lane < length bounds.now }
        ensures { result ≡ most_of_use waits.now bounds.now first self.now lane }
    {
        let _items = waits.items();
        let least = self.cost(first);
        if lane == waits.lane_of(first) {
            least
        } else {
            least.saturating_sub(bounds[usize::from(lane.get())])
        }
    }

    /// A flush of an item, which costs so much, leads on to its target, and to each item of that lane, where that costs
    /// less than the most that is of use.
    #[inline(always)]
    pub(crate) fn lead_on(
        &mut self,
        waits: &Waits<'_, A>,
        on: &Buckets<A>,
        most: u32,
        item: ItemId,
        cost: u32,
        flush: &Target,
    ) -> Result<(), AllocError>
        requires on { AreItemsOn waits.now on.now }
        requires one_each { length self.old.costs ≡ items waits.now }
        requires by_each { length self.old.by ≡ items waits.now }
        requires lanes_each { length self.old.lane_costs ≡ waits.now.lanes }
        requires target { flush.now.item < items waits.now }
        requires low { cost ≤ max_walk_cost }
        ensures { IfOk result (λ _. self.new ≡ to_both waits.now on.now most item cost self.old flush.now) }
    {
        let _items = waits.items();
        let lane = waits.lane_of(flush.item);
        let cost = cost + unsure_part(flush);
        if cost + 3 < most {
            self.reach(true, cost + 3, item, flush, flush.item)?;
        }
        let step = if flush.whole { 3 } else { 4 };
        if cost + step < most {
            self.reach_lane(flush.whole, cost + step, item, flush, lane.get(), on)?;
        }
        Ok(())
    }

    /// A flush of an item, which costs so much, leads on, as far as it is of use.
    fn follow(
        &mut self,
        waits: &Waits<'_, A>,
        on: &Buckets<A>,
        bounds: &[u32],
        first: ItemId,
        item: ItemId,
        cost: u32,
        flush: &Target,
    ) -> Result<(), AllocError>
        requires on { AreItemsOn waits.now on.now }
        requires bounds { length bounds.now ≡ waits.now.lanes }
        requires first { first < items waits.now }
        requires one_each { length self.old.costs ≡ items waits.now }
        requires by_each { length self.old.by ≡ items waits.now }
        requires lanes_each { length self.old.lane_costs ≡ waits.now.lanes }
        requires target { flush.now.item < items waits.now }
        requires low { cost ≤ max_walk_cost }
        ensures { IfOk result (λ _.
            self.new ≡ follow waits.now on.now bounds.now first item cost self.old flush.now) }
    {
        let _items = waits.items();
        let lane = waits.lane_of(flush.item);
        if !waits.has_rescuer(lane) {
            return Ok(());
        }
        let most = self.most_of_use(waits, bounds, first, lane);
        self.lead_on(waits, on, most, item, cost, flush)
    }

    /// It costs so much to come to an item, if that is less than before. It is reached by no hop.
    fn begin_at(&mut self, near: bool, cost: u32, item: ItemId) -> Result<(), AllocError>
        requires { item < length self.old.costs }
        ensures { IfOk result (λ _. self.new ≡ begin_at near cost self.old item) }
    {
        let at = usize::from(item.get());
        if cost < self.costs[at] {
            self.costs[at] = cost;
            self.push(near, false, item)?;
        }
        Ok(())
    }

    /// It costs 1 to come to each of these items.
    fn begin_all(&mut self, on: &[u32]) -> Result<(), AllocError>
        requires on { All (λ j. j < length self.old.costs) on.now }
        requires few { length self.old.costs ≤ 4096 }
        ensures { IfOk result (λ _. self.new ≡ begin_all on.now self.old) }
    {
        for item in on {
            self.begin_at(false, 1, ItemId::new(*item as u16))?;
        }
        Ok(())
    }

    /// It costs nothing to come to an item: it is queued, and may wait.
    pub(crate) fn start(&mut self, item: ItemId) -> Result<(), AllocError>
        requires { item < length self.old.costs }
        ensures { IfOk result (λ _. self.new ≡ begin_at true 0 self.old item) }
    {
        self.begin_at(true, 0, item)
    }

    /// It costs 1 to come to each of these items, which are those of a lane: one that is queued is behind them.
    pub(crate) fn start_lane(&mut self, lane: LaneId, on: &[u32]) -> Result<(), AllocError>
        requires lane { lane < length self.old.lane_costs }
        requires on { All (λ j. j < length self.old.costs) on.now }
        requires few { length self.old.costs ≤ 4096 }
        ensures { IfOk result (λ _. self.new ≡ start_lane lane on.now self.old) }
    {
        if self.lane_costs[usize::from(lane.get())] > 1 {
            self.begin_all(on)?;
            self.lane_costs[usize::from(lane.get())] = 1;
        }
        Ok(())
    }

    /// The flushes of an item, which costs so much, lead on, as far as that is of use.
    fn expand(
        &mut self,
        waits: &Waits<'_, A>,
        on: &Buckets<A>,
        bounds: &[u32],
        first: ItemId,
        item: ItemId,
        cost: u32,
    ) -> Result<(), AllocError>
        requires on { AreItemsOn waits.now on.now }
        requires bounds { length bounds.now ≡ waits.now.lanes }
        requires first { first < items waits.now }
        requires one_each { length self.old.costs ≡ items waits.now }
        requires by_each { length self.old.by ≡ items waits.now }
        requires lanes_each { length self.old.lane_costs ≡ waits.now.lanes }
        requires item { item < items waits.now }
        requires low { cost ≤ max_walk_cost }
        ensures { IfOk result (λ _. self.new ≡ expand waits.now on.now bounds.now first item cost self.old) }
    {
        let _items = waits.items();
        for flush in waits.flushes(item) {
            self.follow(waits, on, bounds, first, item, cost, flush)?;
        }
        Ok(())
    }

    /// How often all searches have gone on.
    pub(crate) fn gone_on(&self) -> usize {
        self.gone_on
    }

    /// What it costs to come to an item.
    pub(crate) fn cost(&self, item: ItemId) -> u32
        requires { item < length self.now.costs }
        ensures { result ≡ slice_index self.now.costs item }
    {
        self.costs[usize::from(item.get())]
    }

    /// The hop by which an item is reached.
    pub(crate) fn hop_to(&self, item: ItemId) -> Hop
        requires { item < length self.now.by }
        ensures { (d : Hop) → result ≡ slice_index_or self.now.by item d }
    {
        self.by[usize::from(item.get())]
    }

    /// What it costs to come to an item, as far as is known.
    #[inline(always)]
    fn cost_so_far(&self, item: ItemId) -> u32 {
        let cost = self.costs.get(usize::from(item.get())).copied();
        cost.unwrap_or(u32::MAX)
    }

    /// Whether the first item of one queue comes before that of another, by what it costs to come there.
    #[inline(always)]
    fn comes_first(&self, one: &VecDeque<ItemId, A>, other: &VecDeque<ItemId, A>) -> bool
        ensures one { IsTrue result → 0 < length one.now.items }
        ensures other { result ≡ false → (length one.now.items ≡ 0) ⊎ (0 < length other.now.items) }
    {
        let Some(first) = one.get(0) else {
            return false;
        };
        match other.get(0) {
            Some(second) => self.cost_so_far(*first) <= self.cost_so_far(*second),
            None => true,
        }
    }

    /// Whether the next item to go on from is the first of those that were reached by a sure flush, where the cheapest
    /// of these was reached at the least cost, and so was that of the others.
    fn sure_comes_first(&self, near: bool, near_unsure: bool) -> bool
        ensures sure { IsTrue result → 0 < length (if near then self.now.near else self.now.far) }
        ensures unsure { result ≡ false → (length (if near then self.now.near else self.now.far) ≡ 0)
            ⊎ (0 < length (if near_unsure then self.now.near_unsure else self.now.far_unsure)) }
    {
        let sure = if near { &self.near } else { &self.far };
        if near_unsure {
            self.comes_first(sure, &self.near_unsure)
        } else {
            self.comes_first(sure, &self.far_unsure)
        }
    }

    /// The next item to go on from, the cheapest.
    pub(crate) fn take(&mut self) -> Option<ItemId>
        ensures some { IfSome result (λ i. IsTaken self.old i self.new) }
        ensures none { IfNone result (self.new ≡ self.old) }
        ensures near { IfNone result (length self.old.near ≡ 0) }
        ensures far { IfNone result (length self.old.far ≡ 0) }
        ensures near_unsure { IfNone result (length self.old.near_unsure ≡ 0) }
        ensures far_unsure { IfNone result (length self.old.far_unsure ≡ 0) }
    {
        self.gone_on = self.gone_on.saturating_add(1);
        let near = self.comes_first(&self.near, &self.far);
        if self.near_unsure.is_empty() && self.far_unsure.is_empty() {
            return if near {
                self.near.pop_front()
            } else {
                self.far.pop_front()
            };
        }
        let near_unsure = self.comes_first(&self.near_unsure, &self.far_unsure);
        match (self.sure_comes_first(near, near_unsure), near, near_unsure) {
            (true, true, _) => self.near.pop_front(),
            (true, false, _) => self.far.pop_front(),
            (false, _, true) => self.near_unsure.pop_front(),
            (false, _, false) => self.far_unsure.pop_front(),
        }
    }
}

/// The search from an item, whose lane has a rescuer, for rounds that cost less than the limit.
pub(crate) fn search_from<A: Allocator + Copy>(
    waits: &Waits<'_, A>,
    on: &Buckets<A>,
    bounds: &[u32],
    search: &mut Search<A>,
    first: ItemId,
    limit: u32,
) -> Result<(), AllocError>
    requires on { AreItemsOn waits.now on.now }
    requires one_each { length bounds.now ≡ waits.now.lanes }
    requires bounds { AreBounds waits.now bounds.now first }
    requires first { first < items waits.now }
    requires rescuer { HasRescuer waits.now (lane_of waits.now first) }
    requires low { limit ≤ max_walk_cost }
    ensures { OnOk result (IsSearched waits.now first limit search.new) }
{
    search.begin(waits.items(), waits.lanes(), limit)?;
    search.expand(waits, on, bounds, first, first, 0)?;
    while let Some(item) = search.take() {
        let cost = search.cost(item);
        search.expand(waits, on, bounds, first, item, cost)?;
    }
    Ok(())
}
