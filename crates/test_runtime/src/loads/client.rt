//! A caller. A caller takes the time of its calls, including what they wait for, and no memory.

use crate::loads::load::{CallerTask, Load};
use crate::loads::random::Random;
use crate::loads::tally::{TalliedCall, Tally};
use std::alloc::Allocator;
use std::sync::Wait;
use std::sync::atomic::{AtomicU32, Ordering};
use wq_api::{CallError, Naming, Seat, WqRuntime};
use wq_groups::LaneId;
use wq_items::ItemId;
use wq_rescuer::Caller;

/// A caller.
#[derive(Drop)]
pub(crate) struct Client<'c> {
    load: Load,
    /// How many items and lanes there are.
    items: u16,
    lanes: u16,
    /// The number of its own item.
    own: u16,
    random: Random,
    /// How many callers of a stress haven't ended.
    working: &'c AtomicU32,
    /// What it was answered, and what after the runtime was destroyed.
    pub(crate) tally: Tally,
    pub(crate) late: Tally,
}

impl<'c> Client<'c> {
    /// Makes the caller with this number, from 0, of a runtime of this many items and lanes.
    pub(crate) fn new(
        load: Load,
        items: u16,
        lanes: u16,
        number: u16,
        working: &'c AtomicU32,
    ) -> Self {
        Client {
            load,
            items,
            lanes,
            own: number,
            random: Random::new(load.seed, u32::from(number)),
            working,
            tally: Tally::new(),
            late: Tally::new(),
        }
    }

    /// The item of its next round.
    fn next_item(&mut self) -> u16 {
        match self.load.task {
            CallerTask::Storm => self.random.item(self.items).get(),
            _ => self.own,
        }
    }

    /// Queues an item. The items are on the lanes in turn.
    fn queue_in_turn<N: Naming, A: Allocator, R: Wait>(
        &self,
        rt: &R,
        runtime: &WqRuntime<N, A>,
        seat: &mut Seat<N, A>,
        item: u16,
    ) -> Result<bool, CallError> {
        let q = item.checked_rem(self.lanes).unwrap_or(0);
        runtime.queue_work(rt, seat, LaneId::new(q), ItemId::new(item))
    }

    /// Queues an item and flushes it.
    fn make_round<N: Naming, A: Allocator, R: Wait>(
        &self,
        rt: &R,
        runtime: &WqRuntime<N, A>,
        seat: &mut Seat<N, A>,
        item: u16,
    ) -> Result<(), CallError> {
        self.queue_in_turn(rt, runtime, seat, item)?;
        runtime.flush_work(rt, seat, ItemId::new(item))?;
        Ok(())
    }

    /// Makes all rounds.
    fn make_rounds<N: Naming, A: Allocator, R: Wait>(
        &mut self,
        rt: &R,
        runtime: &WqRuntime<N, A>,
        seat: &mut Seat<N, A>,
    ) -> Result<(), CallError> {
        for _ in 0..self.load.count {
            let item = self.next_item();
            self.make_round(rt, runtime, seat, item)?;
        }
        Ok(())
    }

    /// Queues all items, and then flushes each of them.
    fn make_wave<N: Naming, A: Allocator, R: Wait>(
        &self,
        rt: &R,
        runtime: &WqRuntime<N, A>,
        seat: &mut Seat<N, A>,
    ) -> Result<(), CallError> {
        for item in 0..self.items {
            self.queue_in_turn(rt, runtime, seat, item)?;
        }
        for item in 0..self.items {
            runtime.flush_work(rt, seat, ItemId::new(item))?;
        }
        Ok(())
    }

    /// Queues and flushes all items as often as there are to be rounds.
    fn make_waves<N: Naming, A: Allocator, R: Wait>(
        &self,
        rt: &R,
        runtime: &WqRuntime<N, A>,
        seat: &mut Seat<N, A>,
    ) -> Result<(), CallError> {
        for _ in 0..self.load.count {
            self.make_wave(rt, runtime, seat)?;
        }
        Ok(())
    }

    /// Cancels its own item, which isn't pending, until there is no row for that.
    fn fill<N: Naming, A: Allocator, R: Wait>(
        &self,
        rt: &R,
        runtime: &WqRuntime<N, A>,
        seat: &mut Seat<N, A>,
    ) -> Result<(), CallError> {
        for _ in 0..self.load.count {
            runtime.cancel_work(rt, seat, ItemId::new(self.own))?;
        }
        Ok(())
    }

    /// Makes a call at random, of an item or a lane at random, which may be pending, run or be idle. An item is mostly
    /// queued on its lane, and now and then on any, or on one that doesn't exist.
    fn call_any<N: Naming, A: Allocator, R: Wait>(
        &mut self,
        rt: &R,
        runtime: &WqRuntime<N, A>,
        seat: &mut Seat<N, A>,
    ) {
        let item = self.random.any_item(self.items);
        let (call, answer) = match self.random.below(16) {
            0 => {
                let q = LaneId::new(self.random.below(usize::from(self.lanes) + 1) as u16);
                (TalliedCall::Queue, runtime.queue_work(rt, seat, q, item))
            }
            1..=7 => (TalliedCall::Queue, queue(rt, runtime, seat, item)),
            8..=9 => (TalliedCall::Cancel, runtime.cancel_work(rt, seat, item)),
            10..=11 => (TalliedCall::Flush, runtime.flush_work(rt, seat, item)),
            12..=13 => {
                let q = self.random.any_lane(self.lanes);
                let flushed = runtime.flush_workqueue(rt, seat, q);
                (TalliedCall::FlushLane, flushed.and(Ok(true)))
            }
            _ => (
                TalliedCall::CancelSync,
                runtime.cancel_work_sync(rt, seat, item),
            ),
        };
        self.tally.note(call, answer);
    }

    /// Destroys the runtime, and then queues an item, and flushes all items and all lanes.
    fn destroy<N: Naming, A: Allocator, R: Wait>(
        &mut self,
        rt: &R,
        runtime: &WqRuntime<N, A>,
        seat: &mut Seat<N, A>,
    ) {
        let _destroyed = runtime.destroy(rt);
        let queued = queue(rt, runtime, seat, ItemId::new(0));
        self.late.note(TalliedCall::Queue, queued);
        for item in 0..self.items {
            let flushed = runtime.flush_work(rt, seat, ItemId::new(item));
            self.late.note(TalliedCall::Flush, flushed);
        }
        for q in 0..self.lanes {
            let flushed = runtime.flush_workqueue(rt, seat, LaneId::new(q));
            self.late
                .note(TalliedCall::FlushLane, flushed.and(Ok(true)));
        }
    }

    /// Makes all calls of a stress. The last caller to end destroys the runtime.
    fn make_calls<N: Naming, A: Allocator, R: Wait>(
        &mut self,
        rt: &R,
        runtime: &WqRuntime<N, A>,
        seat: &mut Seat<N, A>,
    ) {
        for _ in 0..self.load.count {
            self.call_any(rt, runtime, seat);
        }
        if self.working.fetch_sub(1, Ordering::SeqCst) == 1 {
            self.destroy(rt, runtime, seat);
        }
    }
}

/// Queues an item on its lane.
fn queue<N: Naming, A: Allocator, R: Wait>(
    rt: &R,
    runtime: &WqRuntime<N, A>,
    seat: &mut Seat<N, A>,
    item: ItemId,
) -> Result<bool, CallError> {
    let q = runtime.lane_of(item).unwrap_or(LaneId::new(0));
    runtime.queue_work(rt, seat, q, item)
}

/// An answer, but no refusal because the history is full.
fn until_full(answer: Result<(), CallError>) -> Result<(), CallError> {
    match answer {
        Err(CallError::HistoryFull) => Ok(()),
        answer => answer,
    }
}

impl Caller for Client<'_> {
    ghost did = { λ w before after result old new. Unit {0} };

    fn call<N: Naming, A: Allocator, R: Wait>(
        &mut self,
        rt: &R,
        runtime: &WqRuntime<N, A>,
        seat: &mut Seat<N, A>,
    ) -> Result<(), CallError> {
        match self.load.task {
            CallerTask::Stress => {
                self.make_calls(rt, runtime, seat);
                Ok(())
            }
            CallerTask::Rounds | CallerTask::Storm => self.make_rounds(rt, runtime, seat),
            CallerTask::Sleep => self.make_waves(rt, runtime, seat),
            CallerTask::Fill => {
                until_full(self.make_rounds(rt, runtime, seat))?;
                until_full(self.fill(rt, runtime, seat))
            }
        }
    }
}
