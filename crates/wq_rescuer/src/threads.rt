//! Threads: one for each context, and then one for each caller.
//!
//! The callers are joined first, and after `destroy` the contexts, of either the one that was started last first. If a
//! thread can't be made, no further one is started, and what it was to take is lost. There was room for all threads
//! before, so the stack doesn't grow with them.

ghost use Rattle.std.specs.Prelude.{◌≡◌, ℕ, ◌+◌, ◌≤◌, [], reverse, vec_len, vec_capacity, IsTrue, false};
ghost use Rattle.wq_rescuer.specs.Executing.{HasWorked, no_counts};
ghost use Rattle.wq_rescuer.specs.Serving.{AreDone, IsOneLost};

use crate::board::{Board, CallerJobs, Unstarted};
use crate::body::Body;
use crate::calling::{Caller, CallerEnd, CallerJob, EndOfCaller};
use crate::context_job::{ContextEnd, ContextJob, EndOfContext};
use std::alloc::Allocator;
use std::snapshot::Snapshot;
use std::sync::Wait;
use std::thread;
use std::thread::{Promise, PromisedHandle, Scope, Threads};
use wq_api::{Naming, WqRuntime};

/// Joins threads, the latest first, and puts together what came back of them.
fn join_all<R: Threads, E: Drop, P: Promise<E>, A: Allocator>(
    rt: &R,
    threads: &mut Vec<PromisedHandle<E, P>, A>,
    ends: &mut Vec<E, A>,
)
    requires none { ends.old.items ≡ [] }
    requires room { vec_len threads.old ≤ vec_capacity ends.old }
    ensures kept { AreDone (λ thread end. P.kept_by thread.promise end) (reverse threads.old.items) ends.new.items }
    ensures back { (vec_len ends.new ≡ vec_len threads.old) × (vec_len threads.new ≡ 0) }
    ensures room { (vec_capacity ends.new ≡ vec_capacity ends.old)
        × (vec_capacity threads.new ≡ vec_capacity threads.old) }
{
    while let Some(thread) = threads.pop() {
        ends.push_reserved(thread.join(rt));
    }
}

/// Starts a thread for each caller that waits, the last one first. It says whether each has one; if one can't be made,
/// its caller is lost, and no further one is started.
fn start_callers<
    's,
    E,
    N: Naming + Send + Sync + 's,
    A: Allocator + Send + Sync + 's,
    R: Threads + Wait + Sync + 's,
    C: Caller + Send + Drop + 's,
>(
    scope: &Scope<'s, E>,
    rt: &'s R,
    runtime: &'s WqRuntime<N, A>,
    waiting: &mut Vec<CallerJob<N, A, C>, A>,
    threads: &mut Vec<PromisedHandle<CallerEnd<N, A, C>, EndOfCaller<C>>, A>,
) -> bool
    requires none { threads.old.items ≡ [] }
    requires room { vec_len waiting.old ≤ vec_capacity threads.old }
    ensures all { IsTrue result → AreDone (λ job thread. thread.promise.0.value ≡ job.caller) waiting.old.items
        (reverse threads.new.items) }
    ensures each { IsTrue result → vec_len threads.new ≡ vec_len waiting.old }
    ensures lost { result ≡ false → vec_len waiting.new + vec_len threads.new + 1 ≡ vec_len waiting.old }
    ensures left { vec_len waiting.new + vec_len threads.new ≤ vec_len waiting.old }
    ensures room { vec_capacity threads.new ≡ vec_capacity threads.old }
{
    while let Some(job) = waiting.pop() {
        let promise = EndOfCaller(Snapshot::of(&job.caller));
        match scope.spawn_with(promise, move || job.make_calls(rt, runtime)) {
            Ok(thread) => threads.push_reserved(thread),
            Err(_) => return false,
        }
    }
    true
}

/// Starts a thread for each context that waits, the last one first. It says whether each has one; if one can't be made,
/// its context is lost, and no further one is started.
fn start_contexts<
    's,
    E,
    N: Naming + Send + Sync + 's,
    A: Allocator + Send + Sync + 's,
    R: Threads + Wait + Sync + 's,
    B: Body + Send + Drop + 's,
>(
    scope: &Scope<'s, E>,
    rt: &'s R,
    runtime: &'s WqRuntime<N, A>,
    waiting: &mut Vec<ContextJob<N, A, B>, A>,
    threads: &mut Vec<PromisedHandle<ContextEnd<N, A, B>, EndOfContext<B>>, A>,
) -> bool
    requires none { threads.old.items ≡ [] }
    requires room { vec_len waiting.old ≤ vec_capacity threads.old }
    ensures all { IsTrue result → AreDone (λ job thread. (thread.promise.context ≡ job.context)
        × (thread.promise.body.value ≡ job.body)) waiting.old.items (reverse threads.new.items) }
    ensures each { IsTrue result → vec_len threads.new ≡ vec_len waiting.old }
    ensures lost { result ≡ false → vec_len waiting.new + vec_len threads.new + 1 ≡ vec_len waiting.old }
    ensures left { vec_len waiting.new + vec_len threads.new ≤ vec_len waiting.old }
    ensures room { vec_capacity threads.new ≡ vec_capacity threads.old }
{
    while let Some(job) = waiting.pop() {
        let promise = EndOfContext {
            context: job.context,
            body: Snapshot::of(&job.body),
        };
        match scope.spawn_with(promise, move || job.serve(rt, runtime)) {
            Ok(thread) => threads.push_reserved(thread),
            Err(_) => return false,
        }
    }
    true
}

/// Starts the callers, and waits until all that were started have made their calls. It says whether each has had a
/// thread; if one hasn't, it is lost.
fn run_callers<
    's,
    E,
    N: Naming + Send + Sync + 's,
    A: Allocator + Send + Sync + 's,
    R: Threads + Wait + Sync + 's,
    C: Caller + Send + Drop + 's,
>(
    scope: &Scope<'s, E>,
    rt: &'s R,
    runtime: &'s WqRuntime<N, A>,
    jobs: &mut CallerJobs<N, A, C>,
) -> bool
    requires none { (jobs.old.ends.items ≡ []) × (jobs.old.threads.items ≡ []) }
    ensures all { IsTrue result → AreDone (λ job end. C.did N.wiring job.caller end.caller end.result
        (no_counts N.wiring) end.seat) jobs.old.waiting.items jobs.new.ends.items }
    ensures all_back { IsTrue result → vec_len jobs.new.ends ≡ vec_len jobs.old.waiting }
    ensures lost { result ≡ false → vec_len jobs.new.waiting + vec_len jobs.new.ends + 1 ≡ vec_len jobs.old.waiting }
{
    let all = start_callers(scope, rt, runtime, &mut jobs.waiting, &mut jobs.threads);
    join_all(rt, &mut jobs.threads, &mut jobs.ends);
    all
}

/// Starts the contexts, and then, if each has a thread, runs the callers. It says whether each context and each caller
/// has had a thread; if one hasn't, it is lost.
fn start_all<
    's,
    E,
    N: Naming + Send + Sync + 's,
    A: Allocator + Send + Sync + 's,
    R: Threads + Wait + Sync + 's,
    B: Body + Send + Drop + 's,
    C: Caller + Send + Drop + 's,
>(
    scope: &Scope<'s, E>,
    rt: &'s R,
    runtime: &'s WqRuntime<N, A>,
    board: &mut Board<N, A, B, C>,
) -> bool
    requires no_contexts { (board.old.contexts.ends.items ≡ []) × (board.old.contexts.threads.items ≡ []) }
    requires no_callers { (board.old.callers.ends.items ≡ []) × (board.old.callers.threads.items ≡ []) }
    ensures started { IsTrue result → AreDone (λ job thread. (thread.promise.context ≡ job.context)
        × (thread.promise.body.value ≡ job.body)) board.old.contexts.waiting.items
        (reverse board.new.contexts.threads.items) }
    ensures each { IsTrue result → vec_len board.new.contexts.threads ≡ vec_len board.old.contexts.waiting }
    ensures called { IsTrue result → AreDone (λ job end. C.did N.wiring job.caller end.caller end.result
        (no_counts N.wiring) end.seat) board.old.callers.waiting.items board.new.callers.ends.items }
    ensures callers_back { IsTrue result → vec_len board.new.callers.ends ≡ vec_len board.old.callers.waiting }
    ensures lost { result ≡ false → IsOneLost (vec_len board.old.contexts.waiting) (vec_len board.old.callers.waiting)
        (vec_len board.new.contexts.waiting + vec_len board.new.contexts.threads)
        (vec_len board.new.callers.waiting + vec_len board.new.callers.ends) }
    ensures none { board.new.contexts.ends.items ≡ [] }
{
    let contexts = &mut board.contexts;
    if !start_contexts(
        scope,
        rt,
        runtime,
        &mut contexts.waiting,
        &mut contexts.threads,
    ) {
        return false;
    }
    run_callers(scope, rt, runtime, &mut board.callers)
}

/// Runs the callers while the contexts serve, and waits until these have nothing left to do. It says whether each
/// context and each caller has had a thread; if one hasn't, it is lost.
fn run_contexts<
    's,
    E,
    N: Naming + Send + Sync + 's,
    A: Allocator + Send + Sync + 's,
    R: Threads + Wait + Sync + 's,
    B: Body + Send + Drop + 's,
    C: Caller + Send + Drop + 's,
>(
    scope: &Scope<'s, E>,
    rt: &'s R,
    runtime: &'s WqRuntime<N, A>,
    board: &mut Board<N, A, B, C>,
) -> bool
    requires no_contexts { (board.old.contexts.ends.items ≡ []) × (board.old.contexts.threads.items ≡ []) }
    requires no_callers { (board.old.callers.ends.items ≡ []) × (board.old.callers.threads.items ≡ []) }
    ensures served { IsTrue result → AreDone (λ job end. (end.context ≡ job.context)
        × HasWorked N.wiring N.rows job.context (B.may N.wiring job.body) end.seat end.rescued)
        board.old.contexts.waiting.items board.new.contexts.ends.items }
    ensures called { IsTrue result → AreDone (λ job end. C.did N.wiring job.caller end.caller end.result
        (no_counts N.wiring) end.seat) board.old.callers.waiting.items board.new.callers.ends.items }
    ensures contexts_back { IsTrue result → vec_len board.new.contexts.ends ≡ vec_len board.old.contexts.waiting }
    ensures callers_back { IsTrue result → vec_len board.new.callers.ends ≡ vec_len board.old.callers.waiting }
    ensures lost { result ≡ false → IsOneLost (vec_len board.old.contexts.waiting) (vec_len board.old.callers.waiting)
        (vec_len board.new.contexts.waiting + vec_len board.new.contexts.ends)
        (vec_len board.new.callers.waiting + vec_len board.new.callers.ends) }
{
    let all = start_all(scope, rt, runtime, board);
    let _destroyed = runtime.destroy(rt);
    join_all(rt, &mut board.contexts.threads, &mut board.contexts.ends);
    all
}

/// Starts all threads, and waits for all of them. It hands back the board, and says whether each context and each
/// caller has had a thread; if one hasn't, it is lost.
pub(crate) fn run_threads<
    N: Naming + Send + Sync,
    A: Allocator + Send + Sync,
    R: Threads + Wait + Sync,
    B: Body + Send + Drop,
    C: Caller + Send + Drop,
>(rt: &R, runtime: &WqRuntime<N, A>, jobs: Unstarted<N, A, B, C>) -> (Board<N, A, B, C>, bool)
    ensures served { IsTrue result.1 → AreDone
        (λ job end. (end.context ≡ job.context)
        × HasWorked N.wiring N.rows job.context (B.may N.wiring job.body) end.seat end.rescued)
        jobs.board.contexts.waiting.items result.0.contexts.ends.items }
    ensures called { IsTrue result.1 → AreDone
        (λ job end. C.did N.wiring job.caller end.caller end.result (no_counts N.wiring) end.seat)
        jobs.board.callers.waiting.items result.0.callers.ends.items }
    ensures contexts_back { IsTrue result.1 → vec_len result.0.contexts.ends ≡ vec_len jobs.board.contexts.waiting }
    ensures callers_back { IsTrue result.1 → vec_len result.0.callers.ends ≡ vec_len jobs.board.callers.waiting }
    ensures lost { result.1 ≡ false → IsOneLost (vec_len jobs.board.contexts.waiting)
        (vec_len jobs.board.callers.waiting)
        (vec_len result.0.contexts.waiting + vec_len result.0.contexts.ends)
        (vec_len result.0.callers.waiting + vec_len result.0.callers.ends) }
{
    thread::scope(
        thread::scope_env(),
        rt,
        move |scope| -> (Board<N, A, B, C>, bool)
            ensures served { IsTrue result.1 → AreDone
                (λ job end. (end.context ≡ job.context)
                × HasWorked N.wiring N.rows job.context (B.may N.wiring job.body) end.seat end.rescued)
                jobs.board.contexts.waiting.items result.0.contexts.ends.items }
            ensures called { IsTrue result.1 → AreDone
                (λ job end. C.did N.wiring job.caller end.caller end.result (no_counts N.wiring) end.seat)
                jobs.board.callers.waiting.items result.0.callers.ends.items }
            ensures contexts_back { IsTrue result.1
                → vec_len result.0.contexts.ends ≡ vec_len jobs.board.contexts.waiting }
            ensures callers_back { IsTrue result.1
                → vec_len result.0.callers.ends ≡ vec_len jobs.board.callers.waiting }
            ensures lost { result.1 ≡ false → IsOneLost
                (vec_len jobs.board.contexts.waiting) (vec_len jobs.board.callers.waiting)
                (vec_len result.0.contexts.waiting + vec_len result.0.contexts.ends)
                (vec_len result.0.callers.waiting + vec_len result.0.callers.ends) }
        {
            // (the closure is to own all of it, and so to know that nothing has come back)
            let jobs = jobs;
            let Unstarted { mut board } = jobs;
            let all = run_contexts(scope, rt, runtime, &mut board);
            (board, all)
        },
    )
}
