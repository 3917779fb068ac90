//! Seats: the counts of what the calls of one thread did.
//!
//! A seat belongs to one caller at a time, which lends it to each of its calls. It holds one part of the runtime's
//! ledger. So what all seats count together is known when they come back. Every call takes constant time.

ghost use Rattle.std.specs.Prelude.{◌≡◌, ℕ, ◌<◌, ◌≤◌, ◌↔◌, sum, true, IsTrue};
ghost use Rattle.wq_counts.specs.Counting.{HasCountsOf, made, asked_lane, told_lane};
ghost use Rattle.wq_held.specs.Locked.{slots, seat_rows};
ghost use Rattle.wq_counts.specs.declared.kind.Kind.TheVariants.{Queue, Cancel, Finish};

use crate::naming::Naming;
use std::alloc::Allocator;
use std::marker::Model;
use std::sync::ledger::Share;
use wq_counts::{Counts, Kind};
use wq_groups::LaneId;
use wq_items::ItemId;

/// How many rows a seat counts before calls are refused: 33,554,432.
pub const SEAT_ROWS: u64 = 33_554_432;

/// The counts of one caller of one runtime. Contracts see its counts.
///
/// It can't be copied. A runtime is closed only when all of its seats come back.
#[derive(Drop)]
pub struct Seat<N: Naming, A: Allocator> {
    pub(crate) counts: Counts<A>,
    pub(crate) share: Share<N>,
}

impl<N: Naming, A: Allocator> Model for Seat<N, A> {
    ghost use Rattle.std.specs.Prelude.{ℕ, List};
    ghost use Rattle.wq_held.specs.Locked.{IsSeat};

    ghost Value = { List ℕ };

    ghost view = { λ s. s.counts };

    ghost invariant = { λ s. IsSeat N.wiring s.counts s.share.parts s.share.amount };
}

impl<N: Naming, A: Allocator> Seat<N, A> {
    /// How many rows of an item and a kind, with this answer, its holder's calls
    /// made; 0 for an item that doesn't exist.
    pub fn made(&self, item: ItemId, kind: Kind, yes: bool) -> u64
        ensures { result ≡ made self.now item kind yes }
    {
        self.counts.made(item, kind, yes)
    }

    /// How many asks about a whole workqueue, with this answer, its holder's calls
    /// made; 0 for a workqueue that doesn't exist.
    pub fn asked_lane(&self, q: LaneId, yes: bool) -> u64
        ensures { result ≡ asked_lane self.now q yes }
    {
        self.counts.asked_lane(q, yes)
    }

    /// How many times its holder was told that its wait for a whole workqueue is
    /// over; 0 for a workqueue that doesn't exist.
    pub fn told_lane(&self, q: LaneId) -> u64
        ensures { result ≡ told_lane self.now q }
    {
        self.counts.told_lane(q)
    }

    /// How many rows its holder's calls made in all.
    pub fn total(&self) -> u64
        ensures { result ≡ sum self.now }
    {
        self.counts.total()
    }

    /// How many queueings of an item were accepted.
    pub fn queued(&self, item: ItemId) -> u64
        ensures { result ≡ made self.now item Queue true }
    {
        self.counts.made(item, Kind::Queue, true)
    }

    /// How many cancellations of an item removed an entry.
    pub fn cancelled(&self, item: ItemId) -> u64
        ensures { result ≡ made self.now item Cancel true }
    {
        self.counts.made(item, Kind::Cancel, true)
    }

    /// How many executions of an item were finished.
    pub fn finished(&self, item: ItemId) -> u64
        ensures { result ≡ made self.now item Finish true }
    {
        self.counts.made(item, Kind::Finish, true)
    }

    /// States what holds of every seat: it has 22 counts for each slot, of an item and of a lane.
    pub fn holds(&self)
        ensures { HasCountsOf (slots N.wiring) self.now }
    {
        self.counts.total();
    }

    /// Whether it has counted so many rows that calls are refused (60).
    pub fn is_full(&self) -> bool
        ensures { IsTrue result ↔ (seat_rows ≤ sum self.now) }
    {
        self.total() >= SEAT_ROWS
    }
}
