//! Which of several rounds that cost the same is answered.
//!
//! Of the flushes of an item with the same words the one that is declared first counts, so that a text can say which it
//! is; and a round with an unsure flush begins with one, which is a question that has to be decided. Choosing takes
//! time linear in the number of hops and of the flushes of their items.

ghost use Rattle.std.specs.Prelude.{◌≡◌, ◌↔◌, ◌<◌, ◌≤◌, length, position, Contains, IsTrue};
ghost use Rattle.wq_items.specs.declared.target.Target.{Target};
ghost use Rattle.wq_core.specs.Wiring.{items, declared_by};
ghost use Rattle.wq_hang.specs.declared.hop.Hop.{Hop};
ghost use Rattle.wq_hang.specs.Walk.{AreAlike, AreFirstAlike, BeginsUnsure, IsRound};
ghost use Rattle.wq_hang.specs.WalkFor.{HoldsUp, cost_for};
ghost use Rattle.wq_hang.specs.Search.{hops_cost};

use crate::hop::Hop;
use crate::waits::Waits;
use std::alloc::Allocator;
use wq_items::{ItemId, Target};

/// Whether two flushes have the same words in a text, if they are of one item.
fn are_alike(flush: &Target, other: &Target) -> bool
    ensures { IsTrue result ↔ AreAlike flush.now other.now }
{
    flush.item == other.item && flush.whole == other.whole && flush.unsure == other.unsure
}

/// Of the flushes of the hop's item with the words of its flush the one that is declared first.
fn first_alike<A: Allocator + Copy>(waits: &Waits<'_, A>, hop: &Hop) -> Target
    requires item { hop.now.item < items waits.now }
    requires declared { Contains (declared_by waits.now hop.now.item) hop.now.flush }
    ensures alike { AreAlike result hop.now.flush }
    ensures declared { Contains (declared_by waits.now hop.now.item) result }
    ensures first { (t : Target) → Contains (declared_by waits.now hop.now.item) t → AreAlike t hop.now.flush →
        result.place ≤ t.place }
{
    let mut first = hop.flush;
    for flush in waits.flushes(hop.item) {
        if flush.place < first.place && are_alike(flush, &hop.flush) {
            first = *flush;
        }
    }
    first
}

/// Each hop waits by the first flush with its words.
fn put_first_alike<A: Allocator + Copy>(waits: &Waits<'_, A>, hops: &mut [Hop])
    requires { IsRound waits.now hops.old }
    ensures round { IsRound waits.now hops.new }
    ensures cost { hops_cost hops.new ≡ hops_cost hops.old }
    ensures len { length hops.new ≡ length hops.old }
    ensures alike { AreFirstAlike waits.now hops.new }
{
    for at in 0..hops.len() {
        let mut hop = hops[at];
        hop.flush = first_alike(waits, &hop);
        hops[at] = hop;
    }
}

/// Each hop of a walk that holds up an item waits by the first flush with its words.
pub(crate) fn settle_held<A: Allocator + Copy>(
    waits: &Waits<'_, A>,
    named: ItemId,
    hops: &mut [Hop],
)
    requires { HoldsUp waits.now named hops.old }
    ensures walk { HoldsUp waits.now named hops.new }
    ensures cost { cost_for waits.now named hops.new ≡ cost_for waits.now named hops.old }
    ensures len { length hops.new ≡ length hops.old }
    ensures alike { AreFirstAlike waits.now hops.new }
{
    for at in 0..hops.len() {
        let mut hop = hops[at];
        hop.flush = first_alike(waits, &hop);
        hops[at] = hop;
    }
}

/// The number of the first of these hops that waits by an unsure flush, if there is one.
fn first_unsure(hops: &[Hop]) -> Option<usize>
    ensures { result ≡ position (λ (h : Hop). h.flush.unsure) hops.now }
{
    hops.iter().position(|hop| hop.flush.unsure)
}

/// The same round: it begins with an unsure flush if it has one, and of the flushes of an item with the same words it
/// has the one that is declared first.
pub(crate) fn settle<A: Allocator + Copy>(waits: &Waits<'_, A>, hops: &mut [Hop])
    requires { IsRound waits.now hops.old }
    ensures round { IsRound waits.now hops.new }
    ensures cost { hops_cost hops.new ≡ hops_cost hops.old }
    ensures len { length hops.new ≡ length hops.old }
    ensures begins { BeginsUnsure hops.new }
    ensures alike { AreFirstAlike waits.now hops.new }
{
    put_first_alike(waits, hops);
    if let Some(first) = first_unsure(hops) {
        hops.rotate_left(first);
    }
}
