//! The contexts of a runtime: workqueue by workqueue, the rescuer and then its helpers.
//!
//! To count or to list them takes time in the number of workqueues and contexts. The
//! list takes memory in the number of contexts.

ghost use Rattle.std.specs.Prelude.{◌≡◌, ℕ, ◌<◌, ◌≤◌, ◌∷◌, ◌++◌, length, map, IfOk, OnOk, OnErr};
ghost use Rattle.std.specs.List.{range_with_len};
ghost use Rattle.wq_rescuer.specs.Contexts.{context_at, contexts_of};

use std::alloc::{AllocError, Allocator};
use wq_api::{Naming, WqRuntime};
use wq_core::Context;
use wq_groups::LaneId;

/// How many contexts a runtime has: for each workqueue one more than it has helpers. So many bodies `run_all` wants.
pub fn count_contexts<N: Naming, A: Allocator>(runtime: &WqRuntime<N, A>) -> usize
    ensures count { result ≡ length (contexts_of N.wiring) }
    ensures few { result ≤ 65536 }
{
    let mut count = 0usize;
    for q in 0..runtime.lanes() {
        count += 1 + usize::from(runtime.helpers_of(LaneId::new(q)));
    }
    count
}

/// Adds the contexts of a workqueue that has this many helpers. The only error is out of memory (20).
fn add_contexts_on<A: Allocator>(
    contexts: &mut Vec<Context, A>,
    lane: LaneId,
    helpers: u8,
) -> Result<(), AllocError>
    ensures { OnOk result (contexts.new.items
        ≡ contexts.old.items ++ (context_at lane 0 ∷ map (context_at lane) (range_with_len 1 helpers))) }
{
    contexts.push(Context { lane, number: 0 })?;
    for h in 0..helpers {
        contexts.push(Context {
            lane,
            number: h + 1,
        })?;
    }
    Ok(())
}

/// Lists the contexts of a runtime, workqueue by workqueue: the rescuer, then its helpers. The only error is out of
/// memory (20), and never if there is none.
pub fn contexts_of<N: Naming, A: Allocator>(
    alloc: A,
    runtime: &WqRuntime<N, A>,
) -> Result<Vec<Context, A>, AllocError>
    ensures contexts { IfOk result (λ r. r.items ≡ contexts_of N.wiring) }
    ensures memory { OnErr result (0 < length (contexts_of N.wiring)) }
{
    let mut contexts = Vec::with_capacity(alloc, count_contexts(runtime))?;
    for q in 0..runtime.lanes() {
        let lane = LaneId::new(q);
        add_contexts_on(&mut contexts, lane, runtime.helpers_of(lane))?;
    }
    Ok(contexts)
}
