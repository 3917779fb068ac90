//! Acts: the calls that a scripted caller makes, each with its item or its workqueue.
//!
//! They are the calls of kernel/workqueue.c that a driver makes outside its work functions. Each takes the time of the
//! runtime's call, including what that waits for.

ghost use Rattle.std.specs.Prelude.{◌≡◌, ◌<◌, IfOk, IfErr, OnOk};
ghost use Rattle.wq_core.specs.Wiring.{items};
ghost use Rattle.wq_counts.specs.declared.kind.Kind.TheVariants.{Queue};
ghost use Rattle.wq_counts.specs.Counting.{raised};
ghost use Rattle.wq_rescuer.specs.Executing.{RefusesQueueByBody};
ghost use Rattle.wq_script.specs.Acts.{CountsAct, RefusedAct};

use std::alloc::Allocator;
use std::sync::Wait;
use wq_api::{CallError, Naming, Seat, WqRuntime};
use wq_groups::LaneId;
use wq_items::ItemId;

/// One call of a scripted caller.
#[derive(Clone, Copy, Debug, PartialEq, Eq)]
pub enum Act {
    /// Queues the item on its own workqueue (`queue_work`).
    Queue(ItemId),
    /// Waits for the item (`flush_work`).
    Flush(ItemId),
    /// Waits for the whole workqueue (`flush_workqueue`).
    FlushLane(LaneId),
    /// Removes the pending entry of the item (`cancel_work`).
    Cancel(ItemId),
    /// Removes the pending entry of the item, and waits for the item (`cancel_work_sync`).
    CancelSync(ItemId),
}

/// Queues an item on its own workqueue: true if it wasn't pending, false if it was.
///
/// The error is the first of these that holds: `NoItem` (66); `HistoryFull` (60), if the seat is full; `Closed`
/// (61); `HistoryFull` (60), if fewer rows are free than it needs: 1 if the item is pending, else 3, and 2 more
/// for each flush that it declares. After an error nothing is changed or counted.
fn queue<N: Naming, A: Allocator, R: Wait>(
    rt: &R,
    runtime: &WqRuntime<N, A>,
    seat: &mut Seat<N, A>,
    item: ItemId,
) -> Result<bool, CallError>
    ensures counted { IfOk result (λ accepted. (item < items N.wiring)
        × (seat.new ≡ raised seat.old item Queue accepted)) }
    ensures refused { IfErr result (λ e. RefusesQueueByBody N.wiring seat.old item e × (seat.new ≡ seat.old)) }
{
    runtime.queue_item(rt, seat, item)
}

impl Act {
    /// Makes the call. The error is that of the call.
    pub(crate) fn make<N: Naming, A: Allocator, R: Wait>(
        &self,
        rt: &R,
        runtime: &WqRuntime<N, A>,
        seat: &mut Seat<N, A>,
    ) -> Result<(), CallError>
        ensures counted { OnOk result (CountsAct N.wiring seat.old seat.new self.now) }
        ensures refused { IfErr result (λ e. RefusedAct N.wiring seat.old seat.new self.now e) }
    {
        match self {
            Act::Queue(item) => {
                queue(rt, runtime, seat, *item)?;
                Ok(())
            }
            Act::Flush(item) => {
                runtime.flush_work(rt, seat, *item)?;
                Ok(())
            }
            Act::FlushLane(q) => runtime.flush_workqueue(rt, seat, *q),
            Act::Cancel(item) => {
                runtime.cancel_work(rt, seat, *item)?;
                Ok(())
            }
            Act::CancelSync(item) => {
                runtime.cancel_work_sync(rt, seat, *item)?;
                Ok(())
            }
        }
    }
}
