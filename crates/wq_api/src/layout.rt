//! What never changes of a runtime: the workqueue of each item, and how many helpers each workqueue has.
//!
//! It stands beside the lock. So whoever only asks for it doesn't take the lock, and can change nothing. It takes 2
//! bytes for each item and one for each workqueue; `new` takes time in their numbers, and all else constant time.

ghost use Rattle.std.specs.Prelude.{◌≡◌, ◌<◌, ◌≤◌, ◌↔◌, ◌⊎◌, length, map, IsTrue, IfOk, OnErr, IfSome, IfNone};
ghost use Rattle.std.specs.List.{range_with_len};
ghost use Rattle.wq_core.specs.Wiring.{items as items_of, helpers_of, HasContext};
ghost use Rattle.wq_held.specs.Locked.{max_runtime_lanes, IsOnLane};

use crate::runtime::WqRuntime;
use std::alloc::{AllocError, Allocator};
use std::marker::PhantomData;
use wq_groups::LaneId;
use wq_held::{Held, Naming};
use wq_items::ItemId;

/// What never changes of a runtime.
#[derive(Drop)]
pub(crate) struct Layout<N: Naming, A: Allocator> {
    /// The workqueue of each item.
    lane_of_item: Vec<LaneId, A>,
    /// How many helpers each workqueue has.
    helpers: Vec<u8, A>,
    of: PhantomData<N>,
    ghost lane_of_each: { lane_of_item.items ≡ N.wiring.lane_of_item },
    ghost a_lane_each: { length N.wiring.lane_of_item ≡ items_of N.wiring },
    ghost helpers_of_each: { helpers.items ≡ map (helpers_of N.wiring) (range_with_len 0 N.wiring.lanes) },
    ghost an_order_each: { length N.wiring.ordered ≡ N.wiring.lanes },
    ghost few_lanes: { N.wiring.lanes ≤ max_runtime_lanes },
}

/// The workqueue of each of this many items. The only error is out of memory, which can't occur if there are none.
fn lanes_of_items<N: Naming, A: Allocator>(
    alloc: A,
    held: &Held<N, A>,
    count: u16,
) -> Result<Vec<LaneId, A>, AllocError>
    requires { count ≡ items_of N.wiring }
    ensures lanes { IfOk result (λ lanes. lanes.items ≡ N.wiring.lane_of_item) }
    ensures memory { OnErr result (0 < count) }
{
    held.holds();
    let mut lanes = Vec::with_capacity(alloc, usize::from(count))?;
    for i in 0..count {
        let Some(q) = held.lane_of(ItemId::new(i)) else {
            unreachable!()
        };
        lanes.push_reserved(q);
    }
    Ok(lanes)
}

/// How many helpers each of this many workqueues has. The only error is out of
/// memory, which can't occur if there are none.
fn helpers_of_lanes<N: Naming, A: Allocator>(
    alloc: A,
    held: &Held<N, A>,
    count: u16,
) -> Result<Vec<u8, A>, AllocError>
    ensures helpers { IfOk result (λ helpers. helpers.items ≡ map (helpers_of N.wiring) (range_with_len 0 count)) }
    ensures memory { OnErr result (0 < count) }
{
    let mut helpers = Vec::with_capacity(alloc, usize::from(count))?;
    for q in 0..count {
        helpers.push_reserved(held.helpers_of(LaneId::new(q)));
    }
    Ok(helpers)
}

impl<N: Naming, A: Allocator + Copy> Layout<N, A> {
    /// That of a runtime with this many items and workqueues. The only error is out
    /// of memory (20), which can't occur if there are neither.
    pub(crate) fn new(
        alloc: A,
        held: &Held<N, A>,
        items: u16,
        lanes: u16,
    ) -> Result<Self, AllocError>
        requires few_lanes { N.wiring.lanes ≤ max_runtime_lanes }
        requires counts { (items ≡ items_of N.wiring) × (lanes ≡ N.wiring.lanes) }
        ensures memory { OnErr result ((0 < lanes) ⊎ (0 < items)) }
    {
        held.holds();
        let lane_of_item = lanes_of_items(alloc, held, items)?;
        let helpers = helpers_of_lanes(alloc, held, lanes)?;
        Ok(Layout {
            lane_of_item,
            helpers,
            of: PhantomData,
        })
    }
}

impl<N: Naming, A: Allocator> WqRuntime<N, A> {
    /// The number of workqueues, at most 256.
    pub fn lanes(&self) -> u16
        ensures lanes { result ≡ N.wiring.lanes }
        ensures few { result ≤ max_runtime_lanes }
    {
        self.layout.helpers.len() as u16
    }

    /// The workqueue of an item, if there is such an item.
    pub fn lane_of(&self, item: ItemId) -> Option<LaneId>
        ensures some { IfSome result (λ q. IsOnLane N.wiring q item) }
        ensures none { IfNone result (items_of N.wiring ≤ item) }
    {
        match self.layout.lane_of_item.get(usize::from(item.get())) {
            Some(q) => Some(*q),
            None => None,
        }
    }

    /// How many helpers a workqueue has; 0 for one that is ordered or doesn't exist.
    pub fn helpers_of(&self, q: LaneId) -> u8
        ensures { result ≡ helpers_of N.wiring q }
    {
        match self.layout.helpers.get(usize::from(q.get())) {
            Some(helpers) => *helpers,
            None => 0,
        }
    }

    /// Whether there is such an item.
    pub(crate) fn has_item(&self, item: ItemId) -> bool
        ensures { IsTrue result ↔ (item < items_of N.wiring) }
    {
        usize::from(item.get()) < self.layout.lane_of_item.len()
    }

    /// Whether there is such a workqueue.
    pub(crate) fn has_lane(&self, q: LaneId) -> bool
        ensures { IsTrue result ↔ (q < N.wiring.lanes) }
    {
        q.get() < self.lanes()
    }

    /// Whether there is such a context: the rescuer of a workqueue that exists, or one of the helpers that it has.
    pub fn has_context(&self, q: LaneId, helper: u8) -> bool
        ensures { IsTrue result ↔ HasContext N.wiring q helper }
    {
        self.has_lane(q) && helper <= self.helpers_of(q)
    }
}
