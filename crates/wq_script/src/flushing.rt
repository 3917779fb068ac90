//! Scripted bodies: the body of an item flushes what the item declares, in order, and nothing else.
//!
//! This is all that a declaration lets a work function wait for: `flush_work` of each target, or `flush_workqueue` of
//! its whole workqueue, once for each declared flush ("Guidelines" in Documentation/core-api/workqueue.rst;
//! `flush_work` and `flush_workqueue` in kernel/workqueue.c). Apart from what it waits for, a run takes time in the
//! number of its item's flushes. `new` takes time and memory in the number of items, 4 bytes for each. How often an
//! item ran is answered in constant time.

ghost use Rattle.std.specs.Prelude.{◌≡◌, ◌<◌, ◌≤◌, ℕ, List, Result, length, sum, IfOk, IfErr, OnOk, OnErr};
ghost use Rattle.wq_items.specs.Table.{targets_of};
ghost use Rattle.wq_core.specs.Wiring.{items};
ghost use Rattle.wq_held.specs.Locked.{seat_rows};
ghost use Rattle.wq_api.specs.Refusals.{RefusesWaitIn};
ghost use Rattle.wq_api.specs.WaitingCalls.{waited_for, RefusedWaitIn};
ghost use Rattle.wq_rescuer.specs.declared.body.BodyFault.{BodyFault as Fault};
ghost use Rattle.wq_rescuer.specs.Executing.{NeverRan, RanOnce, SameFinished};
ghost use Rattle.wq_script.specs.Scripts.{runs_of, CountsWaits, CountsFirstWaits, CountsOnlyWaits, CountsRun};
ghost use Rattle.wq_script.specs.Scripts.{IsFlushCode, IsCodeOf};

use std::alloc::{AllocError, Allocator};
use std::marker::Model;
use std::sync::Wait;
use wq_api::{CallError, Naming};
use wq_items::{ItemId, ItemTable, Target};
use wq_rescuer::{Body, BodyFault, Work};

/// The body of the items of a table, with a count of the runs of each. Contracts see the targets and the runs of each
/// item.
#[derive(Drop)]
pub struct ScriptBody<'t, 'a, A: Allocator> {
    table: &'t ItemTable<'a, A>,
    counts: Vec<u32, A>,
}

impl<'t, 'a, A: Allocator> Model for ScriptBody<'t, 'a, A> {
    ghost use Rattle.std.specs.Prelude.{◌≡◌, length};
    ghost use Rattle.wq_script.specs.Scripts.{Script};

    ghost Value = { Script };

    ghost view = { λ b. record { waits = b.table.now.waits; runs = b.counts.items } };

    ghost invariant = { λ b. length b.counts.items ≡ length b.table.now.names };
}

impl<'t, 'a, A: Allocator + Copy> ScriptBody<'t, 'a, A> {
    /// Makes the body of the items of a table. None of them has run. The only error is out of memory (20), which can't
    /// occur if there is no item.
    pub fn new(alloc: A, table: &'t ItemTable<'a, A>) -> Result<Self, AllocError>
        ensures waits { IfOk result (λ b. b.waits ≡ table.now.waits) }
        ensures width { IfOk result (λ b. length b.runs ≡ length table.now.names) }
        ensures never_ran { IfOk result (λ b. NeverRan (runs_of b)) }
        ensures memory { OnErr result (0 < length table.now.names) }
    {
        let items = usize::from(table.len());
        let mut counts = Vec::with_capacity(alloc, items)?;
        counts.resize(items, 0)?;
        Ok(ScriptBody { table, counts })
    }
}

/// Flushes the item of a target, or its whole workqueue, as the target says: true if that had an unfinished entry
/// when the wait began. The error is that of the flush.
fn flush_target<N: Naming, S: Allocator, R: Wait>(
    rt: &R,
    target: &Target,
    work: &mut Work<'_, N, S>,
) -> Result<bool, CallError>
    ensures counted { IfOk result (λ unfinished. (target.now.item < items N.wiring)
        × (work.new.seat.now ≡ waited_for work.old.seat.now target.now.whole target.now.item unfinished)) }
    ensures refused { IfErr result (λ e.
        RefusesWaitIn N.wiring work.old.seat.now work.old.context.lane work.old.context.number e
        × RefusedWaitIn N.wiring work.old.seat.now work.new.seat.now work.old.context.lane work.old.context.number
        target.now.whole target.now.item e) }
    ensures finished { SameFinished work.old.seat.now work.new.seat.now }
    ensures same_seat { work.new.seat.ghost_name ≡ work.old.seat.ghost_name }
    ensures flushed { work.new.flushed ≡ result }
{
    if target.whole {
        work.flush_wq(rt, target.item)
    } else {
        work.flush(rt, target.item)
    }
}

/// Makes the flushes of the targets, in order, until one is refused. The number of
/// the refusal is the code of the fault.
fn flush_each<N: Naming, S: Allocator, R: Wait>(
    rt: &R,
    targets: &[Target],
    work: &mut Work<'_, N, S>,
) -> Result<(), BodyFault>
    ensures flushed { OnOk result (CountsWaits work.old.seat.now work.new.seat.now targets.now) }
    ensures cut_off { OnErr result (CountsFirstWaits work.old.seat.now work.new.seat.now targets.now) }
    ensures only_waits { CountsOnlyWaits work.old.seat.now work.new.seat.now }
    ensures code { IfErr result (λ f. IsFlushCode f.code) }
    ensures full { IfErr result (λ f. f.code ≡ 60 → seat_rows ≤ sum work.new.seat.now) }
    ensures finished { SameFinished work.old.seat.now work.new.seat.now }
    ensures same_seat { work.new.seat.ghost_name ≡ work.old.seat.ghost_name }
    ensures cause { IfErr result (λ f. IsCodeOf work.new.flushed f.code) }
    ensures run { CountsRun targets.now result work.old.seat.now work.new.seat.now }
{
    for target in targets {
        work.holds();
        if let Err(e) = flush_target(rt, target, work) {
            return Err(BodyFault { code: e.code() });
        }
    }
    Ok(())
}

impl<'t, 'a, A: Allocator + Copy> Body for ScriptBody<'t, 'a, A> {
    ghost use Rattle.std.specs.Prelude.{length};
    ghost use Rattle.wq_items.specs.Table.{targets_of};
    ghost use Rattle.wq_script.specs.Scripts.{CountsRun, runs_of};

    ghost width = { λ b. length b.runs };

    ghost runs = { runs_of };

    ghost may = { λ w b i answer old new. CountsRun (targets_of b.waits i) answer old new };

    /// Counts a run of the item, and flushes what it declares, items and whole
    /// workqueues, in order and each as often as it is declared.
    ///
    /// The error is the first refusal of a flush, and its number is the code of the fault:
    /// `HistoryFull` (60), if the seat is full; `Undeclared` (62) or `TooManyWaits` (63),
    /// if the runtime isn't of this table; `WrongLane` (64), if another caller drives
    /// the same rescuer or helper. The flushes before it are made, and those after it aren't.
    fn run<N: Naming, S: Allocator, R: Wait>(
        &mut self,
        rt: &R,
        item: ItemId,
        work: &mut Work<'_, N, S>,
    ) -> Result<(), BodyFault>
        requires known { item < length self.old.runs }
        requires few { runs_of self.old item < 4294967295 }
        ensures ran { RanOnce (runs_of self.old) (runs_of self.new) item }
        ensures width { length self.new.runs ≡ length self.old.runs }
        ensures finished { SameFinished work.old.seat.now work.new.seat.now }
        ensures same_seat { work.new.seat.ghost_name ≡ work.old.seat.ghost_name }
        ensures waits { self.new.waits ≡ self.old.waits }
        ensures flushed { OnOk result
            (CountsWaits work.old.seat.now work.new.seat.now (targets_of self.old.waits item)) }
        ensures cut_off { OnErr result
            (CountsFirstWaits work.old.seat.now work.new.seat.now (targets_of self.old.waits item)) }
        ensures only_waits { CountsOnlyWaits work.old.seat.now work.new.seat.now }
        ensures code { IfErr result (λ f. IsFlushCode f.code) }
        ensures full { IfErr result (λ f. f.code ≡ 60 → seat_rows ≤ sum work.new.seat.now) }
        ensures cause { IfErr result (λ f. IsCodeOf work.new.flushed f.code) }
        ensures may { CountsRun (targets_of self.old.waits item) result work.old.seat.now work.new.seat.now }
        ensures no_more { (i : ℕ) (answer : Result (Unit {0}) Fault) (before : List ℕ) (after : List ℕ)
            → CountsRun (targets_of self.new.waits i) answer before after
            → CountsRun (targets_of self.old.waits i) answer before after }
    {
        self.counts[usize::from(item.get())] += 1;
        let table = self.table;
        flush_each(rt, table.waits(item), work)
    }

    /// How often an item ran; 0 for an item that doesn't exist.
    fn ran(&self, item: ItemId) -> u32 {
        match self.counts.get(usize::from(item.get())) {
            Some(count) => *count,
            None => 0,
        }
    }
}
