//! What is handed back when a runtime is closed: its history, and the sums of all that its callers counted.
//!
//! If the sums agree with the tallies of the history, all callers together counted, for each item or lane, kind and
//! answer, as many rows as were written. Starts aren't counted. Closing takes time in the number of all counts, which
//! are 22 for each seat and slot (there are as many slots as items or lanes, whichever are more), and no memory.

ghost use Rattle.std.specs.Prelude.{◌≡◌, vec_len, IfOk, IfErr};
ghost use Rattle.wq_held.specs.Locked.{slots, RefusesClose};
ghost use Rattle.wq_held.specs.Closing.{MayBeGathered, AreGathered, IsClosed};

use crate::held::Held;
use crate::naming::Naming;
use crate::receipts::Unclosed;
use crate::seat::Seat;
use crate::tallies::Tallies;
use std::alloc::Allocator;
use std::marker::PhantomData;
use std::sync::ledger;
use std::sync::ledger::Share;
use wq_counts::Counts;
use wq_history::Book;

/// A runtime that was closed.
#[derive(Drop)]
pub struct Closed<N: Naming, A: Allocator> {
    /// Its book: all that happened.
    pub book: Book<A>,
    /// The sums of the counts of all its seats.
    pub counts: Counts<A>,
    /// Whether each sum is the number of rows that it counts.
    pub agree: bool,
    was_closed: bool,
    of: PhantomData<N>,
    ghost as_it_was: { book.closed ≡ was_closed },
}

/// Adds the counts of all seats to sums that are empty, and joins their parts of the ledger to those that are left.
fn gather<N: Naming, A: Allocator>(
    sums: &mut Counts<A>,
    ledger: &mut ledger::Book<N>,
    rest: &mut Share<N>,
    mut seats: Vec<Seat<N, A>, A>,
)
    requires { MayBeGathered (slots N.wiring) N.parts (vec_len seats) sums.old ledger.old.total rest.old.parts
        rest.old.amount }
    ensures { AreGathered (slots N.wiring) seats.items sums.new ledger.old.total }
{
    while let Some(seat) = seats.pop() {
        let Seat { counts, share } = seat;
        rest.merge(share);
        ledger.audit(rest);
        sums.add(&counts);
    }
    ledger.audit(rest);
}

impl<N: Naming, A: Allocator> Held<N, A> {
    /// Closes an idle runtime, given all of its seats, and gives its book and the sums of their counts.
    ///
    /// The error is `NotIdle` (71) if an entry is unfinished or a caller waits, or else `SeatsMissing` (72) if
    /// not all seats are handed in. It comes with what the lock protects and with the seats, as they were.
    pub fn close(
        self,
        seats: Vec<Seat<N, A>, A>,
    ) -> Result<Closed<N, A>, (Self, Vec<Seat<N, A>, A>, Unclosed<N>)>
        ensures closed { IfOk result (λ c. IsClosed N.wiring N.rows seats.items c.book c.counts c.agree) }
        ensures book { IfOk result (λ c. c.book ≡ self.book) }
        ensures refused { IfErr result (λ e. (e.2.seats ≡ vec_len seats) × RefusesClose self (vec_len seats) e.2.why) }
        ensures kept { IfErr result (λ e. (e.0 ≡ self) × (e.1 ≡ seats)) }
    {
        if let Err(why) = self.closable(seats.len()) {
            return Err((self, seats, why));
        }
        self.book.legal();
        let Held {
            book,
            tallies,
            mut sums,
            seats: _,
            mut rest,
        } = self;
        let Tallies { counts, mut ledger } = tallies;
        gather(&mut sums, &mut ledger, &mut rest, seats);
        let was_closed = book.is_closed();
        Ok(Closed {
            agree: sums.is_same(&counts),
            book,
            counts: sums,
            was_closed,
            of: PhantomData,
        })
    }
}
