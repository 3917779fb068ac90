//! Playing a machine to its end: again and again the lowest lane that can move moves, and flushes as declared.
//!
//! This is "Played" in the specs of `wq_core`. A lane that was found to be stuck is skipped until an item that holds
//! back its wait is finished. If it waits for a whole workqueue, that is the item of the last entry that is waited for:
//! a workqueue finishes its entries in order, so the wait is over then. All lanes below the one that moves are known to
//! be stuck. So the search for the lowest lane goes on from the lane that moved or, after a finish, from the lowest
//! lane that the finish released. Each lane is asked at most twice for each of its own steps, and once more.

ghost use Rattle.std.specs.Prelude.{◌≡◌, ◌<◌, ◌≤◌, ℕ, length, IfOk, IfSome, OnOk, [], ◌∷◌, ◌++◌};
ghost use Rattle.wq_core.specs.declared.entry.Waiting.{Waiting};
ghost use Rattle.wq_core.specs.declared.step.Step.TheVariants.{Finish};
ghost use Rattle.wq_core.specs.Wiring.{items};
ghost use Rattle.wq_core.specs.Held.{machine_after};
ghost use Rattle.wq_core.specs.Played.{IsPlayedFrom};
ghost use Rattle.wq_core.specs.Rules.{Lawful};
ghost use Rattle.wq_core.specs.Runs.{IsRescuerStep};
ghost use Rattle.wq_deadlock.specs.Stuck.{Awaits, IsHeldBackBy, IsAfter, StayKnownBelow};

use crate::stuck::Stuck;
use std::alloc::{AllocError, Allocator};
use wq_core::{Core, Step};
use wq_groups::LaneId;
use wq_items::ItemId;

/// Makes the machine take a step of a rescuer, which must be possible, and notes the step.
fn make<A: Allocator + Copy>(
    core: &mut Core<A>,
    steps: &mut Vec<Step, A>,
    step: &Step,
) -> Result<(), AllocError>
    requires lawful { Lawful core.old.wiring core.old.state step.now }
    requires rescuer { IsRescuerStep step.now }
    ensures made { OnOk result (core.new ≡ machine_after core.old step.now) }
    ensures noted { OnOk result (steps.new.items ≡ steps.old.items ++ (step.now ∷ [])) }
{
    core.step(*step).unwrap();
    steps.push(*step)?;
    Ok(())
}

/// An item that holds back the wait of a lane, if the lane waits: an unfinished entry of this item is waited for.
fn holder<A: Allocator>(core: &Core<A>, q: LaneId) -> Option<ItemId>
    ensures item { IfSome result (λ i. i < items core.now.wiring) }
    ensures holder { (flush : Waiting) → Awaits core.now.state q flush
        → IsHeldBackBy core.now.wiring core.now.state flush result }
{
    let running = core.running_on(q)?;
    let flush = running.waiting?;
    core.holder(flush.whole, flush.target, flush.mark)
}

/// Marks the lanes that a step of lane `q` may let move as no longer known to be stuck. Returns the lowest of them and
/// `q`.
fn release_after<A: Allocator>(stuck: &mut Stuck<'_, A>, q: LaneId, step: &Step) -> u16
    requires { (p i : ℕ) → step.now ≡ Finish p i → i < length stuck.old.waiting }
    ensures after { IsAfter stuck.old step.now stuck.new }
    ensures len { length stuck.new.known ≡ length stuck.old.known }
    ensures from { result ≤ q }
    ensures stay { StayKnownBelow result stuck.old stuck.new }
{
    match *step {
        Step::Queue(_)
        | Step::Cancel(_)
        | Step::Start(..)
        | Step::Wait(..)
        | Step::Over(..)
        | Step::WaitAll(..)
        | Step::OverAll(..)
        | Step::Help(..) => q.get(),
        Step::Finish(_, item) => stuck.release(item, q),
    }
}

/// Plays the machine to its end, and returns the steps.
pub(crate) fn play<A: Allocator + Copy>(
    alloc: A,
    core: &mut Core<A>,
) -> Result<Vec<Step, A>, AllocError>
    ensures { IfOk result (λ steps. IsPlayedFrom core.old.wiring core.old.state steps.items) }
{
    let lanes = core.lanes() as u16;
    let mut stuck = Stuck::new(&alloc, lanes, core.items() as u16)?;
    let mut steps = Vec::new(alloc);
    let mut q = 0;
    while q < lanes {
        let lane = LaneId::new(q);
        if stuck.has(lane) {
            q += 1;
        } else if let Some(step) = core.declared(lane) {
            make(core, &mut steps, &step)?;
            q = release_after(&mut stuck, lane, &step);
        } else {
            stuck.note(lane, holder(core, lane))?;
            q += 1;
        }
    }
    Ok(steps)
}
