//! What contexts do, as events, and questions about a machine. Each call takes constant time.

ghost use Rattle.std.specs.Prelude.{◌≡◌, ◌<◌, ◌↔◌, IsTrue};
ghost use Rattle.wq_core.specs.Wiring.{items};
ghost use Rattle.wq_core.specs.State.{lane_at, IsBusy};
ghost use Rattle.wq_history.specs.Events.{event_in};

use std::alloc::Allocator;
use wq_core::{Context, Core, HelpStep};
use wq_groups::LaneId;
use wq_items::ItemId;
use wq_rows::Event;

/// The event of what a lane's rescuer does.
fn rescuer_event(q: LaneId, deed: &HelpStep) -> Event
    ensures { result ≡ event_in q 0 deed.now }
{
    match *deed {
        HelpStep::Start(item) => Event::Start(q, item),
        HelpStep::Wait(target) => Event::Wait(q, target),
        HelpStep::WaitAll(target) => Event::WaitAll(q, target),
        HelpStep::Over(target) => Event::Over(q, target),
        HelpStep::OverAll(target) => Event::OverAll(q, target),
        HelpStep::Finish(item) => Event::Finish(q, item),
    }
}

/// The event of what a context does.
#[inline(always)]
pub(crate) fn event_of(context: &Context, deed: &HelpStep) -> Event
    ensures { result ≡ event_in context.now.lane context.now.number deed.now }
{
    if context.number == 0 {
        rescuer_event(context.lane, deed)
    } else {
        Event::Help(context.lane, context.number, *deed)
    }
}

/// Whether there is such an item.
pub(crate) fn is_item<A: Allocator>(core: &Core<A>, item: ItemId) -> bool
    ensures { IsTrue result ↔ (item < items core.now.wiring) }
{
    usize::from(item.get()) < core.items()
}

/// Whether there is such a lane.
pub(crate) fn is_lane<A: Allocator>(core: &Core<A>, q: LaneId) -> bool
    ensures { IsTrue result ↔ (q < core.now.wiring.lanes) }
{
    usize::from(q.get()) < core.lanes()
}

/// Whether a lane has an unfinished entry; false if there is no such lane.
pub(crate) fn is_busy<A: Allocator>(core: &Core<A>, q: LaneId) -> bool
    ensures { IsTrue result ↔ IsBusy (lane_at core.now.state q) }
{
    core.lane_unfinished_below(q, core.next_number())
}
