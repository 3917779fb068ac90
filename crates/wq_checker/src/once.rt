//! Whether each item is queued exactly once, and none is cancelled.
//!
//! This is so in a run that deadlocks, by "Steps" in docs/FORMAT.md. The queueings of all items are counted in one
//! pass. It takes O(items + steps) time and O(items) memory.

ghost use Rattle.std.specs.Prelude.{◌≡◌, ◌<◌, ◌↔◌, ℕ, IsTrue, IfOk, OnErr, length, replicate, slice_index};
ghost use Rattle.std.specs.List.{All, count_by};
ghost use Rattle.wq_core.specs.declared.step.Step.{Step};
ghost use Rattle.wq_core.specs.Runs.{queues, IsCancel, IsOnce};

use std::alloc::{AllocError, Allocator};
use wq_core::{Core, Step};

/// Whether a step isn't a cancellation.
fn cancels_none(step: Step) -> bool
    ensures { IsTrue result ↔ (¬ IsCancel step) }
{
    match step {
        Step::Cancel(_) => false,
        Step::Queue(_)
        | Step::Start(..)
        | Step::Wait(..)
        | Step::Over(..)
        | Step::WaitAll(..)
        | Step::OverAll(..)
        | Step::Finish(..)
        | Step::Help(..) => true,
    }
}

/// Whether none of the steps is a cancellation.
fn none_cancels(steps: &[Step]) -> bool
    ensures { IsTrue result ↔ All (λ (step : Step). ¬ IsCancel step) steps.now }
{
    steps.iter().all(|step| cancels_none(*step))
}

/// A list of `items` zeros.
fn no_counts<A: Allocator + Copy>(alloc: A, items: usize) -> Result<Vec<u32, A>, AllocError>
    ensures counts { IfOk result (λ counts. counts.items ≡ replicate items 0) }
    ensures memory { OnErr result (0 < items) }
{
    let mut counts = Vec::with_capacity(alloc, items)?;
    counts.resize(items, 0)?;
    Ok(counts)
}

/// How often each of this many items is queued, in item order.
fn count_queueings<A: Allocator + Copy>(
    alloc: A,
    items: usize,
    steps: &[Step],
) -> Result<Vec<u32, A>, AllocError>
    requires { length steps.now < 4294967295 }
    ensures len { IfOk result (λ counts. length counts.items ≡ items) }
    ensures counts { IfOk result (λ counts. (i : ℕ) → i < items
        → slice_index counts.items i ≡ count_by (λ (step : Step). queues i step) steps.now) }
    ensures memory { OnErr result (0 < items) }
{
    let mut counts = no_counts(alloc, items)?;
    for step in steps {
        if let Step::Queue(item) = step {
            let item = usize::from(item.get());
            if item < items {
                counts[item] += 1;
            }
        }
    }
    Ok(counts)
}

/// Whether each number is 1.
fn are_one(counts: &[u32]) -> bool
    ensures { IsTrue result ↔ All (λ n. n ≡ 1) counts.now }
{
    counts.iter().all(|n| *n == 1)
}

/// Whether each item is queued exactly once, and none is cancelled.
pub(crate) fn is_once<A: Allocator + Copy>(
    alloc: A,
    core: &Core<A>,
    steps: &[Step],
) -> Result<bool, AllocError>
    requires { length steps.now < 4294967295 }
    ensures once { IfOk result (λ b. IsTrue b ↔ IsOnce core.now.wiring steps.now) }
    ensures memory { OnErr result (0 < core.now.wiring.lanes) }
{
    if !none_cancels(steps) {
        return Ok(false);
    }
    let counts = count_queueings(alloc, core.items(), steps)?;
    Ok(are_one(counts.as_slice()))
}
