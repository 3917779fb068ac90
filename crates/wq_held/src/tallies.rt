//! The tallies of the history, and the ledger in which all seats count.
//!
//! Each counted row is counted twice: here, for the history, and in the seat of the caller whose call wrote it. The
//! ledger shows that both grow by one together. A count takes constant time and no memory.

ghost use Rattle.std.specs.Prelude.{◌≡◌, ◌+◌, ◌<◌, ◌≤◌, sum};
ghost use Rattle.wq_counts.specs.Counting.{noted};
ghost use Rattle.wq_history.specs.Events.{subject_in};
ghost use Rattle.wq_history.specs.History.{IsThere};
ghost use Rattle.wq_held.specs.Calls.{AreThere, counts_after};

use crate::naming::Naming;
use crate::seat::Seat;
use std::alloc::Allocator;
use std::marker::Model;
use std::sync::ledger;
use wq_counts::Counts;
use wq_history::{CallError, Reply};
use wq_rows::Row;

/// The tallies. Contracts see the counts.
#[derive(Drop)]
pub struct Tallies<N: Naming, A: Allocator> {
    pub(crate) counts: Counts<A>,
    pub(crate) ledger: ledger::Book<N>,
}

impl<N: Naming, A: Allocator> Model for Tallies<N, A> {
    ghost use Rattle.std.specs.Prelude.{ℕ, List};
    ghost use Rattle.wq_held.specs.Locked.{IsLedgered};

    ghost Value = { List ℕ };

    ghost view = { λ t. t.counts };

    ghost invariant = { λ t. IsLedgered N.wiring t.counts t.ledger.total };
}

impl<N: Naming, A: Allocator> Tallies<N, A> {
    /// Counts a row, unless it is of a start: here, and in the seat of the caller whose call wrote it.
    #[inline(always)]
    fn count_row(&mut self, seat: &mut Seat<N, A>, row: &Row)
        requires there { IsThere N.wiring (subject_in row.now.event) }
        requires few { sum self.old < 4294967295 }
        ensures { (self.new ≡ noted self.old row.now) × (seat.new ≡ noted seat.old row.now)
            × (sum self.new ≤ sum self.old + 1) }
    {
        self.ledger.audit(&mut seat.share);
        let before = seat.counts.total();
        self.counts.note_as(&row.event, row.yes);
        seat.counts.note_as(&row.event, row.yes);
        self.ledger
            .add(&mut seat.share, seat.counts.total() - before);
    }

    /// Counts the rows of an answer.
    #[inline(always)]
    pub fn count_answer(&mut self, seat: &mut Seat<N, A>, answer: &Result<Reply, CallError>)
        requires there { AreThere N.wiring answer.now }
        requires few { sum self.old < 4294967294 }
        ensures { (self.new ≡ counts_after self.old answer.now) × (seat.new ≡ counts_after seat.old answer.now) }
    {
        match answer {
            Ok(Reply::Wrote(row)) => self.count_row(seat, row),
            Ok(Reply::WroteTwo(ask, taken)) => {
                self.count_row(seat, ask);
                self.count_row(seat, taken);
            }
            Ok(Reply::Done) => {}
            Ok(Reply::NotYet) => {}
            Err(_) => {}
        }
    }
}
