//! Flushes that lead to a bare lane.
//!
//! Where an item whose lane has a rescuer waits for one whose lane has none, nothing guarantees that the wait is ever
//! over. A sure flush comes before an unsure one, and else the one that is declared first. It takes time in the number
//! of items and flushes.

ghost use Rattle.std.specs.Prelude.{◌≡◌, ◌<◌, ◌+◌, ◌⊎◌, false, Some, IfSome, IfNone, IsTrue};
ghost use Rattle.wq_core.specs.Wiring.{HasRescuer, items, lane_of};
ghost use Rattle.wq_hang.specs.declared.hop.Hop.{Hop};
ghost use Rattle.wq_hang.specs.Walk.{ComesNoLater, IsHop, IsFirstToBare};
ghost use Rattle.wq_hang.specs.Bare.{IsFirstBelow};

use crate::hop::Hop;
use crate::waits::Waits;
use std::alloc::Allocator;
use wq_items::{ItemId, Target};

/// Whether a flush comes before another one: it is sure and that one isn't, or it is declared first.
fn comes_before(flush: &Target, other: &Target) -> bool
    ensures before { IsTrue result → ComesNoLater flush.now other.now }
    ensures after { result ≡ false → ComesNoLater other.now flush.now }
{
    if flush.unsure == other.unsure {
        flush.place < other.place
    } else {
        other.unsure
    }
}

/// Of two hops, if there are two, the one whose flush comes first.
fn earlier(found: Option<Hop>, hop: Hop) -> Hop
    ensures either { (result ≡ hop) ⊎ (found ≡ Some result) }
    ensures first { ComesNoLater result.flush hop.flush }
    ensures found { IfSome found (λ f. ComesNoLater result.flush f.flush) }
{
    match found {
        Some(found) if comes_before(&found.flush, &hop.flush) => found,
        _ => hop,
    }
}

/// The first hop that leads to a bare lane, of those found so far and those of an item whose lane has a rescuer.
fn first_with<A: Allocator + Copy>(
    waits: &Waits<'_, A>,
    item: ItemId,
    found: Option<Hop>,
) -> Option<Hop>
    requires item { item < items waits.now }
    requires rescuer { HasRescuer waits.now (lane_of waits.now item) }
    requires found { IsFirstBelow waits.now item found }
    ensures { IsFirstBelow waits.now (item + 1) result }
{
    let _items = waits.items();
    let mut first = found;
    for flush in waits.flushes(item) {
        if !waits.has_rescuer(waits.lane_of(flush.item)) {
            let hop = Hop {
                item,
                flush: *flush,
                next: flush.item,
            };
            first = Some(earlier(first, hop));
        }
    }
    first
}

/// Of the flushes that lead from a lane that has a rescuer to a bare lane the first: of the sure ones, if there are
/// any, the one that is declared first.
pub(crate) fn first_to_bare<A: Allocator + Copy>(waits: &Waits<'_, A>) -> Option<Hop>
    ensures some { IfSome result (IsFirstToBare waits.now) }
    ensures none { IfNone result ((h : Hop) → IsHop waits.now h
        → HasRescuer waits.now (lane_of waits.now h.flush.item)) }
{
    let mut first = None;
    for i in 0..waits.items() as u16 {
        let item = ItemId::new(i);
        if waits.has_rescuer(waits.lane_of(item)) {
            first = first_with(waits, item, first);
        }
    }
    first
}
