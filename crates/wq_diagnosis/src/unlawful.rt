//! Why a step of a run isn't lawful.
//!
//! The rules are those of "Steps" in docs/FORMAT.md, as `wq_core` has them. A reason rules out its step: whatever is
//! declared and whatever the state is, the step isn't lawful if the reason holds. A call takes the time of a few
//! queries to the machine.

ghost use Rattle.std.specs.Prelude.{◌≡◌, IfNone, IfSome, length};
ghost use Rattle.wq_core.specs.Held.{IsMachine};
ghost use Rattle.wq_core.specs.Rules.{Lawful, over_of, wait_of};
ghost use Rattle.wq_core.specs.Runs.{IsHelp};
ghost use Rattle.wq_core.specs.declared.step.Step.TheVariants.{Queue, Cancel, Start, Finish};
ghost use Rattle.wq_diagnosis.specs.Unlawful.{Forbids, named_item, named_workqueue};

use std::alloc::Allocator;
use wq_core::{Core, Step, Waiting};
use wq_groups::LaneId;
use wq_items::ItemId;

/// What keeps a step from being lawful. The item and the workqueue are those of the step, unless another one is named.
#[derive(Clone, Copy, Debug, PartialEq, Eq)]
pub enum Unlawful {
    /// There is no such item.
    NoItem,
    /// An entry of the item is pending already.
    Pending,
    /// No entry of the item is pending.
    NotPending,
    /// The workqueue runs an entry of this item.
    Runs(ItemId),
    /// Nothing is pending on the workqueue.
    NothingPending,
    /// The first pending entry of the workqueue is of this item, which doesn't run.
    First(ItemId),
    /// Nothing runs on the workqueue.
    NothingRuns,
    /// An entry of this item runs on the workqueue, and waits for this.
    Waits(ItemId, Waiting),
    /// This item runs on the workqueue, and declares no flush of the item of the step or, if the flag is set, of its
    /// whole workqueue.
    Undeclared(ItemId, bool),
    /// This item runs on the workqueue, and has made as many waits as it declares flushes.
    AllMade(ItemId),
    /// This item runs on the workqueue, and doesn't wait.
    Awake(ItemId),
    /// An entry that was queued before the wait is unfinished: one of the item or, if the flag is set, one on its
    /// workqueue.
    Unfinished(bool),
}

/// Why the item can't be queued, if it can't.
fn queue_reason<A: Allocator>(core: &Core<A>, item: ItemId) -> Option<Unlawful>
    ensures some { IfSome result (λ why. Forbids core.now.wiring core.now.state why (Queue item)) }
    ensures none { IfNone result (Lawful core.now.wiring core.now.state (Queue item)) }
{
    if item.get() as usize >= core.items() {
        return Some(Unlawful::NoItem);
    }
    if core.is_pending(item) {
        return Some(Unlawful::Pending);
    }
    None
}

/// Why the item can't be cancelled, if it can't.
fn cancel_reason<A: Allocator>(core: &Core<A>, item: ItemId) -> Option<Unlawful>
    ensures some { IfSome result (λ why. Forbids core.now.wiring core.now.state why (Cancel item)) }
    ensures none { IfNone result (Lawful core.now.wiring core.now.state (Cancel item)) }
{
    if core.is_pending(item) {
        None
    } else {
        Some(Unlawful::NotPending)
    }
}

/// Why the workqueue can't start the item, if it can't.
fn start_reason<A: Allocator>(core: &Core<A>, q: LaneId, item: ItemId) -> Option<Unlawful>
    requires { core.now.wiring.helpers ≡ 0 }
    ensures some { IfSome result (λ why. Forbids core.now.wiring core.now.state why (Start q item)) }
    ensures none { IfNone result (Lawful core.now.wiring core.now.state (Start q item)) }
{
    if let Some(running) = core.running_on(q) {
        return Some(Unlawful::Runs(running.entry.item));
    }
    let Some(first) = core.first_on(q) else {
        return Some(Unlawful::NothingPending);
    };
    if first.item == item {
        None
    } else {
        Some(Unlawful::First(first.item))
    }
}

/// Why what the workqueue runs can't begin to wait for the target or, if `whole`, for its workqueue, if it can't.
fn wait_reason<A: Allocator>(
    core: &Core<A>,
    q: LaneId,
    whole: bool,
    target: ItemId,
) -> Option<Unlawful>
    ensures some { IfSome result (λ why. Forbids core.now.wiring core.now.state why (wait_of whole q target)) }
    ensures none { IfNone result (Lawful core.now.wiring core.now.state (wait_of whole q target)) }
{
    let Some(running) = core.running_on(q) else {
        return Some(Unlawful::NothingRuns);
    };
    let item = running.entry.item;
    if let Some(flush) = running.waiting {
        return Some(Unlawful::Waits(item, flush));
    }
    if !core.declares(item, whole, target) {
        return Some(Unlawful::Undeclared(item, whole));
    }
    if running.made as usize >= core.waits(item).len() {
        return Some(Unlawful::AllMade(item));
    }
    None
}

/// Why the wait of what the workqueue runs for the target or, if `whole`, for its workqueue can't be over, if it can't.
fn over_reason<A: Allocator>(
    core: &Core<A>,
    q: LaneId,
    whole: bool,
    target: ItemId,
) -> Option<Unlawful>
    ensures some { IfSome result (λ why. Forbids core.now.wiring core.now.state why (over_of whole q target)) }
    ensures none { IfNone result (Lawful core.now.wiring core.now.state (over_of whole q target)) }
{
    let Some(running) = core.running_on(q) else {
        return Some(Unlawful::NothingRuns);
    };
    let item = running.entry.item;
    let Some(flush) = running.waiting else {
        return Some(Unlawful::Awake(item));
    };
    if flush.whole != whole || flush.target != target {
        return Some(Unlawful::Waits(item, flush));
    }
    core.holder(whole, target, flush.mark)?;
    Some(Unlawful::Unfinished(whole))
}

/// Why the workqueue can't finish the item, if it can't.
fn finish_reason<A: Allocator>(core: &Core<A>, q: LaneId, item: ItemId) -> Option<Unlawful>
    ensures some { IfSome result (λ why. Forbids core.now.wiring core.now.state why (Finish q item)) }
    ensures none { IfNone result (Lawful core.now.wiring core.now.state (Finish q item)) }
{
    let Some(running) = core.running_on(q) else {
        return Some(Unlawful::NothingRuns);
    };
    if running.entry.item != item {
        return Some(Unlawful::Runs(running.entry.item));
    }
    let flush = running.waiting?;
    Some(Unlawful::Waits(item, flush))
}

/// The workqueue that a step names; 0 if it names none.
pub(crate) fn named_workqueue(step: Step) -> LaneId
    ensures { result ≡ named_workqueue step }
{
    match step {
        Step::Queue(_) | Step::Cancel(_) => LaneId::new(0),
        Step::Start(q, _)
        | Step::Wait(q, _)
        | Step::Over(q, _)
        | Step::WaitAll(q, _)
        | Step::OverAll(q, _)
        | Step::Finish(q, _)
        | Step::Help(q, _, _) => q,
    }
}

/// The item that a step names.
pub(crate) fn named_item(step: Step) -> ItemId
    ensures { result ≡ named_item step }
{
    match step {
        Step::Queue(item)
        | Step::Cancel(item)
        | Step::Start(_, item)
        | Step::Wait(_, item)
        | Step::Over(_, item)
        | Step::WaitAll(_, item)
        | Step::OverAll(_, item)
        | Step::Finish(_, item) => item,
        Step::Help(_, _, deed) => deed.item(),
    }
}

/// What keeps the step from being lawful, on a machine without helpers; `None` if it is lawful. If there are several
/// reasons, it is the first one in the order of the rules. About a helper's step nothing is said: no text of a run
/// holds one.
pub(crate) fn reason_of<A: Allocator>(core: &Core<A>, step: Step) -> Option<Unlawful>
    requires { core.now.wiring.helpers ≡ 0 }
    ensures some { IfSome result (λ why. Forbids core.now.wiring core.now.state why step) }
    ensures none { IfNone result ((¬ IsHelp step) → Lawful core.now.wiring core.now.state step) }
{
    match step {
        Step::Queue(item) => queue_reason(core, item),
        Step::Cancel(item) => cancel_reason(core, item),
        Step::Start(q, item) => start_reason(core, q, item),
        Step::Wait(q, target) => wait_reason(core, q, false, target),
        Step::Over(q, target) => over_reason(core, q, false, target),
        Step::WaitAll(q, target) => wait_reason(core, q, true, target),
        Step::OverAll(q, target) => over_reason(core, q, true, target),
        Step::Finish(q, item) => finish_reason(core, q, item),
        Step::Help(..) => None,
    }
}
