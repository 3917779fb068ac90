//! The body of a rescuer or a helper. In a measured load it counts its runs, and sleeps if it should. In a stress it
//! makes some calls at random.
//!
//! A run takes constant time in a measured load, and a millisecond if it sleeps; in a stress it takes the time of the
//! calls, whose number is that of the item's flushes at most, and two more.

ghost use Rattle.std.specs.Prelude.{◌≡◌, vec_len, replicate, length, IfOk};
ghost use Rattle.wq_rescuer.specs.Executing.{SameFinished};

use crate::loads::load::{CallerTask, Load};
use crate::loads::random::Random;
use crate::loads::tally::{TalliedCall, Tally};
use std::alloc::{AllocError, Allocator, Global};
use std::sync::Wait;
use std::thread::Parker;
use std::time::Duration;
use wq_api::Naming;
use wq_items::{ItemId, ItemTable, Target};
use wq_rescuer::{Body, BodyFault, Work};

/// How many milliseconds a body sleeps.
const NAP: u64 = 1;

/// A body.
#[derive(Drop)]
pub(crate) struct Server<'t, 'a> {
    table: &'t ItemTable<'a, Global>,
    task: CallerTask,
    random: Random,
    /// What it sleeps on. Nobody wakes it.
    parker: Parker,
    runs: Vec<u32>,
    /// What it was answered.
    pub(crate) tally: Tally,
}

impl<'t, 'a> Server<'t, 'a> {
    /// Makes the body of the context with this number, which can count the runs of all items of a table.
    pub(crate) fn new(
        alloc: Global,
        load: Load,
        table: &'t ItemTable<'a, Global>,
        number: usize,
    ) -> Result<Self, AllocError>
        ensures width { IfOk result (λ s. vec_len s.runs ≡ length table.now.names) }
        ensures never_ran { IfOk result (λ s. s.runs.items ≡ replicate (length table.now.names) 0) }
    {
        let items = usize::from(table.len());
        let mut runs = Vec::with_capacity(alloc, items)?;
        runs.resize(items, 0)?;
        Ok(Server {
            table,
            task: load.task,
            random: Random::new(
                load.seed,
                u32::from(load.callers).saturating_add(u32::try_from(number).unwrap_or(u32::MAX)),
            ),
            parker: Parker::new(),
            runs,
            tally: Tally::new(),
        })
    }
}

/// Makes a call at random, or none: it waits for a target or for its whole lane, or for what the item doesn't declare,
/// or queues or cancels an item.
fn call_any<N: Naming, A: Allocator, R: Wait>(
    rt: &R,
    items: u16,
    targets: &[Target],
    random: &mut Random,
    tally: &mut Tally,
    work: &mut Work<'_, N, A>,
)
    ensures finished { SameFinished work.old.seat.now work.new.seat.now }
    ensures same_seat { work.new.seat.ghost_name ≡ work.old.seat.ghost_name }
{
    let (call, answer) = match random.below(16) {
        0..=9 => match random.any_target(targets) {
            (item, false) => (TalliedCall::Wait, work.flush(rt, item)),
            (item, true) => (TalliedCall::WaitAll, work.flush_wq(rt, item)),
        },
        10 => (TalliedCall::Queue, work.queue(rt, random.any_item(items))),
        11 => (TalliedCall::Cancel, work.cancel(rt, random.any_item(items))),
        _ => return,
    };
    tally.note(call, answer);
}

/// Makes some calls at random.
fn call_some<N: Naming, A: Allocator, R: Wait>(
    rt: &R,
    items: u16,
    targets: &[Target],
    random: &mut Random,
    tally: &mut Tally,
    work: &mut Work<'_, N, A>,
)
    ensures finished { SameFinished work.old.seat.now work.new.seat.now }
    ensures same_seat { work.new.seat.ghost_name ≡ work.old.seat.ghost_name }
{
    for _ in 0..targets.len().saturating_add(2) {
        call_any(rt, items, targets, random, tally, work);
    }
}

impl Body for Server<'_, '_> {
    ghost use Rattle.std.specs.Prelude.{vec_len, slice_index};

    ghost width = { λ s. vec_len s.runs };

    ghost runs = { λ s i. slice_index s.runs.items i };

    ghost may = { λ w s i answer old new. Unit {0} };

    fn run<N: Naming, A: Allocator, R: Wait>(
        &mut self,
        rt: &R,
        item: ItemId,
        work: &mut Work<'_, N, A>,
    ) -> Result<(), BodyFault> {
        self.runs[usize::from(item.get())] += 1;
        let table = self.table;
        if self.task == CallerTask::Sleep {
            self.parker.park_timeout(rt, Duration::from_millis(NAP));
        }
        if self.task == CallerTask::Stress && item.get() < table.len() {
            let targets = table.waits(item);
            call_some(
                rt,
                table.len(),
                targets,
                &mut self.random,
                &mut self.tally,
                work,
            );
        }
        Ok(())
    }

    fn ran(&self, item: ItemId) -> u32 {
        match self.runs.get(usize::from(item.get())) {
            Some(runs) => *runs,
            None => 0,
        }
    }
}
