//! What the lock protects: the book, its tallies, and the parts of the ledger that no seat holds.
//!
//! Whoever calls holds the lock. Each call takes constant time and no memory, but `seat`: it takes time and memory in
//! the number of items or lanes, whichever are more, 176 bytes for each.

ghost use Rattle.std.specs.Prelude.{◌≡◌, ◌+◌, ◌<◌, ◌≤◌, sum, replicate, ◌*◌, IfOk, IfErr, OnOk, IfSome};
ghost use Rattle.std.specs.Prelude.{IfNone};
ghost use Rattle.wq_core.specs.Wiring.{items, helpers_of};
ghost use Rattle.wq_counts.specs.Counting.{counts_each, counted_rows};
ghost use Rattle.wq_held.specs.Locked.{slots, IsOnLane, Holds, RefusesClose, Closes};
ghost use Rattle.wq_held.specs.declared.fault.SeatError.TheVariants.{TooManySeats, OutOfMemory as SeatOutOfMemory};

use crate::fault::{CloseWhy, SeatError};
use crate::naming::Naming;
use crate::receipts::{NoSeat, Unclosed};
use crate::seat::Seat;
use crate::tallies::Tallies;
use std::alloc::Allocator;
use std::marker::Model;
use std::sync::ledger::Share;
use wq_counts::Counts;
use wq_groups::LaneId;
use wq_history::Book;
use wq_items::ItemId;

/// The most seats that a runtime makes: 65,535. One part of the ledger is never given out.
pub const MAX_SEATS: u32 = 65_535;

/// What the lock of a runtime protects. Contracts see its book and how many seats were made: as many as parts of the
/// ledger were given out.
#[derive(Drop)]
pub struct Held<N: Naming, A: Allocator> {
    pub(crate) book: Book<A>,
    pub(crate) tallies: Tallies<N, A>,
    pub(crate) sums: Counts<A>,
    pub(crate) seats: u32,
    pub(crate) rest: Share<N>,
}

impl<N: Naming, A: Allocator> Model for Held<N, A> {
    ghost use Rattle.std.specs.Prelude.{◌-◌};
    ghost use Rattle.wq_held.specs.Locked.{HeldView, IsProtected};

    ghost Value = { HeldView };

    ghost view = { λ h. record { book = h.book; seats = N.parts - h.rest.parts } };

    ghost invariant = { λ h.
        IsProtected N.wiring N.rows N.parts h.book h.tallies h.sums h.seats h.rest.parts h.rest.amount };
}

/// How many slots of counts there are for a book: as many as items or lanes, whichever are more.
pub(crate) fn slots_of<A: Allocator>(book: &Book<A>) -> usize
    ensures { result ≡ slots book.now.wiring }
{
    book.items().max(book.lanes())
}

impl<N: Naming, A: Allocator + Copy> Held<N, A> {
    /// Makes a seat, with no counts.
    ///
    /// The error is `TooManySeats` (70) exactly if 65,535 were made. Otherwise it is out of memory (20), which can't
    /// occur if there are no items and no lanes. After an error nothing is changed, and no seat counts as made.
    pub fn seat(&mut self, alloc: A) -> Result<Seat<N, A>, NoSeat<N>>
        ensures seat { IfOk result (λ s. s ≡ replicate (counts_each * slots N.wiring) 0) }
        ensures made { OnOk result ((self.old.seats < 65535)
            × (self.new ≡ record self.old { seats = self.old.seats + 1 })) }
        ensures refused { IfErr result (λ e. self.new ≡ self.old) }
        ensures limit { result ≡ Err TooManySeats → self.old.seats ≡ 65535 }
        ensures memory { result ≡ Err SeatOutOfMemory → (self.old.seats < 65535) × (0 < slots N.wiring) }
    {
        if self.seats >= MAX_SEATS {
            return Err(NoSeat::by(SeatError::TooManySeats));
        }
        let Ok(counts) = Counts::new(alloc, slots_of(&self.book)) else {
            return Err(NoSeat::by(SeatError::OutOfMemory));
        };
        let share = self.rest.split_off(1, 0);
        self.seats += 1;
        Ok(Seat { counts, share })
    }
}

impl<N: Naming, A: Allocator> Held<N, A> {
    /// States what holds whenever the lock is taken.
    pub fn holds(&self)
        ensures { Holds N.wiring N.rows self.now.book }
    {
        self.book.legal();
    }

    /// Shows, by the ledger, that a seat counts no more rows than the history has. Nothing is changed.
    pub fn audit(&mut self, seat: &mut Seat<N, A>)
        ensures bound { sum seat.old ≤ counted_rows self.old.book.rows }
        ensures same { (self.new ≡ self.old) × (seat.new ≡ seat.old) }
    {
        self.tallies.ledger.audit(&mut seat.share);
    }

    /// The workqueue of an item, if there is such an item.
    pub fn lane_of(&self, item: ItemId) -> Option<LaneId>
        ensures some { IfSome result (λ q. IsOnLane N.wiring q item) }
        ensures none { IfNone result (items N.wiring ≤ item) }
    {
        self.book.lane_of(item)
    }

    /// How many helpers a workqueue has; 0 for one that is ordered or doesn't exist.
    pub fn helpers_of(&self, q: LaneId) -> u8
        ensures { result ≡ helpers_of N.wiring q }
    {
        self.book.helpers_of(q)
    }

    /// Whether the runtime can be closed with this many seats.
    ///
    /// The error is `NotIdle` (71) exactly if an entry is unfinished or a caller waits. Otherwise it is
    /// `SeatsMissing` (72), exactly if not this many seats were made.
    pub fn closable(&self, seats: usize) -> Result<(), Unclosed<N>>
        ensures closes { OnOk result (Closes self.now seats) }
        ensures refused { IfErr result (λ e. (e.seats ≡ seats) × RefusesClose self.now seats e.why) }
    {
        self.book.legal();
        if !self.book.is_idle() || self.book.has_waiting_asks() {
            return Err(Unclosed::by(seats, CloseWhy::NotIdle));
        }
        if seats != self.seats as usize {
            return Err(Unclosed::by(seats, CloseWhy::SeatsMissing));
        }
        Ok(())
    }
}
