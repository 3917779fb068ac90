//! Lanes that are known to be stuck while a machine is played.
//!
//! A lane that can't move has nothing to start, or waits, and some item holds its wait back: an unfinished entry of
//! that item is waited for. If nothing is queued meanwhile, the lane can move again only once that item is finished, so
//! it isn't asked before. Each call takes constant time, but `new` takes O(lanes + items), and `release` time linear in
//! the number of lanes that are released. Memory is taken once for all lanes and once for all items; after that only if
//! one item is found to hold back more than eight lanes.

ghost use Rattle.std.specs.Prelude.{◌≡◌, ◌<◌, ◌≤◌, ◌↔◌, ℕ, length, map, replicate, slice_index_or, true, false, []};
ghost use Rattle.std.specs.Prelude.{Contains, IfOk, OnOk, IfSome, IsTrue};
ghost use Rattle.wq_deadlock.specs.Stuck.{IsKnown, IsReleased, StayKnownBelow, with_stuck};

use smallvec::SmallVec;
use std::alloc::{AllocError, Allocator};
use std::marker::Model;
use wq_groups::LaneId;
use wq_items::ItemId;

/// The numbers of the lanes that one item was found to hold back: nearly always none or a few. Up to eight are stored
/// in the list itself, which is no larger than one with room for four. They are plain numbers, since an unused slot
/// holds a default. A list keeps its allocator, whose size must be known: that of a reference is.
type Waiting<'a, A> = SmallVec<u16, 8, &'a A>;

/// For each lane, whether it is known to be stuck; and for each item, the lanes whose wait it was found to hold back.
#[derive(Drop)]
pub(crate) struct Stuck<'a, A: Allocator> {
    known: Vec<bool, &'a A>,
    waiting: Vec<Waiting<'a, A>, &'a A>,
}

impl<'a, A: Allocator> Model for Stuck<'a, A> {
    ghost use Rattle.std.specs.Prelude.{map};
    ghost use Rattle.wq_deadlock.specs.Stuck.{StuckLanes};

    ghost Value = { StuckLanes };

    ghost view = { λ s. record { known = s.known.items; waiting = map (λ l. l.items) s.waiting.items } };
}

/// This many empty lists.
fn empty_lists<A: Allocator>(alloc: &A, items: u16) -> Result<Vec<Waiting<'_, A>, &A>, AllocError>
    ensures { IfOk result (λ lists. map (λ l. l.items) lists.items ≡ replicate items []) }
{
    let mut lists = Vec::with_capacity(alloc, usize::from(items))?;
    for _ in 0..items {
        lists.push(SmallVec::new(alloc))?;
    }
    Ok(lists)
}

/// Forgets that any of these lanes was known to be stuck. Returns the lowest of them and `from`.
fn forget<A: Allocator>(known: &mut Vec<bool, A>, lanes: &[u16], from: u16) -> u16
    ensures known { (q : ℕ) → slice_index_or known.new.items q false ≡ true
        → (slice_index_or known.old.items q false ≡ true) × (¬ Contains lanes.now q) }
    ensures len { length known.new.items ≡ length known.old.items }
    ensures from { result ≤ from }
    ensures stay { (q : ℕ) → q < result → slice_index_or known.old.items q false ≡ true
        → slice_index_or known.new.items q false ≡ true }
{
    let mut lowest = from;
    for q in lanes {
        lowest = lowest.min(*q);
        if let Some(known) = known.get_mut(usize::from(*q)) {
            *known = false;
        }
    }
    lowest
}

impl<'a, A: Allocator> Stuck<'a, A> {
    /// A record for this many lanes and items. No lane is known to be stuck.
    pub(crate) fn new(alloc: &'a A, lanes: u16, items: u16) -> Result<Self, AllocError>
        ensures known { IfOk result (λ stuck. stuck.known ≡ replicate lanes false) }
        ensures waiting { IfOk result (λ stuck. stuck.waiting ≡ replicate items []) }
    {
        let mut known = Vec::with_capacity(alloc, usize::from(lanes))?;
        known.resize(usize::from(lanes), false)?;
        let waiting = empty_lists(alloc, items)?;
        Ok(Stuck { known, waiting })
    }

    /// Whether a lane is known to be stuck.
    pub(crate) fn has(&self, q: LaneId) -> bool
        requires { q < length self.now.known }
        ensures { IsTrue result ↔ IsKnown self.now q }
    {
        self.known[usize::from(q.get())]
    }

    /// Notes that a lane was found to be stuck, and which item holds back its wait, if it waits.
    pub(crate) fn note(&mut self, q: LaneId, holder: Option<ItemId>) -> Result<(), AllocError>
        requires lane { q < length self.old.known }
        requires item { IfSome holder (λ i. i < length self.old.waiting) }
        ensures { OnOk result (self.new ≡ with_stuck self.old q holder) }
    {
        self.known[usize::from(q.get())] = true;
        if let Some(item) = holder {
            self.waiting[usize::from(item.get())].push(q.get())?;
        }
        Ok(())
    }

    /// Notes that an item is finished: the lanes whose wait it was found to hold back may be asked again. Returns the
    /// lowest of them and `from`.
    pub(crate) fn release(&mut self, item: ItemId, from: LaneId) -> u16
        requires { item < length self.old.waiting }
        ensures released { IsReleased self.old item self.new }
        ensures len { length self.new.known ≡ length self.old.known }
        ensures from { result ≤ from }
        ensures stay { StayKnownBelow result self.old self.new }
    {
        let place = usize::from(item.get());
        let lowest = forget(&mut self.known, self.waiting[place].as_slice(), from.get());
        self.waiting[place].clear();
        lowest
    }
}
