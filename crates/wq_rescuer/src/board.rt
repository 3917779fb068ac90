//! The jobs of all threads, the threads themselves, and what they hand back.
//!
//! Making the jobs takes time in the number of contexts and callers. It takes no
//! memory, since room for them was made before.

ghost use Rattle.std.specs.Prelude.{◌≡◌, ℕ, ◌+◌, ◌<◌, ◌≤◌, [], map, reverse, vec_len, vec_capacity, IfOk, OnErr};
ghost use Rattle.std.specs.List.{All};
ghost use Rattle.wq_core.specs.Wiring.{items};
ghost use Rattle.wq_rescuer.specs.Executing.{NeverRan, no_counts};
ghost use Rattle.wq_rescuer.specs.Serving.{HasRoomFor};

use crate::body::Body;
use crate::calling::{Caller, CallerEnd, CallerJob, EndOfCaller};
use crate::context_job::{ContextEnd, ContextJob, EndOfContext};
use std::alloc::{AllocError, Allocator};
use std::thread::{Promise, PromisedHandle};
use wq_api::{Naming, Seat};
use wq_core::Context;

/// Jobs, their threads, and what comes back of them.
#[derive(Drop)]
pub(crate) struct Jobs<J: Drop, E: Drop, P: Promise<E>, A: Allocator> {
    /// Those that no thread has taken yet. The next one is last.
    pub(crate) waiting: Vec<J, A>,
    /// The threads that aren't joined yet. The latest is last.
    pub(crate) threads: Vec<PromisedHandle<E, P>, A>,
    /// What came back. The latest is last.
    pub(crate) ends: Vec<E, A>,
    ghost room: { vec_len waiting + vec_len threads + vec_len ends ≤ vec_capacity ends },
    ghost thread_room: { vec_len waiting + vec_len threads ≤ vec_capacity threads },
}

impl<J: Drop, E: Drop, P: Promise<E>, A: Allocator + Copy> Jobs<J, E, P, A> {
    /// Room for this many jobs and their threads, of which there is none yet. The only error is out of memory (20), and
    /// never if there is to be no job.
    pub(crate) fn new(alloc: A, count: usize) -> Result<Self, AllocError>
        ensures room { IfOk result (λ r. HasRoomFor count (vec_len r.waiting) (vec_capacity r.waiting)
            × HasRoomFor count (vec_len r.ends) (vec_capacity r.ends)
            × HasRoomFor count (vec_len r.threads) (vec_capacity r.threads)) }
        ensures memory { OnErr result (0 < count) }
    {
        Ok(Jobs {
            waiting: Vec::with_capacity(alloc, count)?,
            threads: Vec::with_capacity(alloc, count)?,
            ends: Vec::with_capacity(alloc, count)?,
        })
    }
}

/// Those of the contexts.
pub(crate) type ContextJobs<N, A, B> = Jobs<
    ContextJob<N, A, B>,
    ContextEnd<N, A, B>,
    EndOfContext<B>,
    A,
>;

/// Those of the callers.
pub(crate) type CallerJobs<N, A, C> = Jobs<
    CallerJob<N, A, C>,
    CallerEnd<N, A, C>,
    EndOfCaller<C>,
    A,
>;

/// All jobs.
#[derive(Drop)]
pub(crate) struct Board<N: Naming, A: Allocator, B: Body + Drop, C: Caller + Drop> {
    pub(crate) contexts: ContextJobs<N, A, B>,
    pub(crate) callers: CallerJobs<N, A, C>,
}

impl<N: Naming, A: Allocator + Copy, B: Body + Drop, C: Caller + Drop> Board<N, A, B, C> {
    /// Room for the jobs of this many contexts and callers, of which there is none yet. The only error is out of memory
    /// (20), and never if there is to be no job.
    pub(crate) fn new(alloc: A, contexts: usize, callers: usize) -> Result<Self, AllocError>
        ensures contexts { IfOk result (λ r.
            HasRoomFor contexts (vec_len r.contexts.waiting) (vec_capacity r.contexts.waiting)
            × HasRoomFor contexts (vec_len r.contexts.ends) (vec_capacity r.contexts.ends)
            × HasRoomFor contexts (vec_len r.contexts.threads) (vec_capacity r.contexts.threads)) }
        ensures callers { IfOk result (λ r.
            HasRoomFor callers (vec_len r.callers.waiting) (vec_capacity r.callers.waiting)
            × HasRoomFor callers (vec_len r.callers.ends) (vec_capacity r.callers.ends)
            × HasRoomFor callers (vec_len r.callers.threads) (vec_capacity r.callers.threads)) }
        ensures memory { OnErr result (0 < contexts + callers) }
    {
        Ok(Board {
            contexts: Jobs::new(alloc, contexts)?,
            callers: Jobs::new(alloc, callers)?,
        })
    }
}

/// All jobs, before any of them is started: nothing has come back.
#[derive(Drop)]
pub(crate) struct Unstarted<N: Naming, A: Allocator, B: Body + Drop, C: Caller + Drop> {
    pub(crate) board: Board<N, A, B, C>,
    ghost no_contexts: { (board.contexts.ends.items ≡ []) × (board.contexts.threads.items ≡ []) },
    ghost no_callers: { (board.callers.ends.items ≡ []) × (board.callers.threads.items ≡ []) },
}

/// Makes the jobs of these contexts, that of the first one last. Each job takes the last seat that is left. No context
/// and no body is left.
pub(crate) fn add_contexts<N: Naming, A: Allocator, B: Body + Drop>(
    jobs: &mut Vec<ContextJob<N, A, B>, A>,
    seats: &mut Vec<Seat<N, A>, A>,
    bodies: &mut Vec<B, A>,
    contexts: &mut Vec<Context, A>,
)
    requires none { jobs.old.items ≡ [] }
    requires a_body_each { vec_len bodies.old ≡ vec_len contexts.old }
    requires room { vec_len jobs.old + vec_len bodies.old ≤ vec_capacity jobs.old }
    requires seats { vec_len bodies.old ≤ vec_len seats.old }
    requires no_counts { All (λ seat. seat ≡ no_counts N.wiring) seats.old.items }
    requires width { All (λ body. items N.wiring ≤ B.width body) bodies.old.items }
    requires never_ran { All (λ body. NeverRan (B.runs body)) bodies.old.items }
    ensures contexts { map (λ job. job.context) jobs.new.items ≡ reverse contexts.old.items }
    ensures bodies { map (λ job. job.body) jobs.new.items ≡ reverse bodies.old.items }
    ensures jobs { vec_len jobs.new ≡ vec_len jobs.old + vec_len bodies.old }
    ensures seats { vec_len seats.new + vec_len bodies.old ≡ vec_len seats.old }
    ensures seat_room { vec_capacity seats.new ≡ vec_capacity seats.old }
    ensures no_bodies { vec_len bodies.new ≡ 0 }
    ensures body_room { vec_capacity bodies.new ≡ vec_capacity bodies.old }
{
    while let Some(body) = bodies.pop() {
        let Some(context) = contexts.pop() else {
            unreachable!()
        };
        let Some(seat) = seats.pop() else {
            unreachable!()
        };
        jobs.push_reserved(ContextJob::new(context, seat, body));
    }
}

/// Makes the jobs of the callers, that of the first caller last. Each job takes the
/// last seat that is left. No caller is left.
pub(crate) fn add_callers<N: Naming, A: Allocator, C: Caller + Drop>(
    jobs: &mut Vec<CallerJob<N, A, C>, A>,
    seats: &mut Vec<Seat<N, A>, A>,
    callers: &mut Vec<C, A>,
)
    requires none { jobs.old.items ≡ [] }
    requires room { vec_len jobs.old + vec_len callers.old ≤ vec_capacity jobs.old }
    requires seats { vec_len callers.old ≤ vec_len seats.old }
    requires no_counts { All (λ seat. seat ≡ no_counts N.wiring) seats.old.items }
    ensures callers { map (λ job. job.caller) jobs.new.items ≡ reverse callers.old.items }
    ensures jobs { vec_len jobs.new ≡ vec_len jobs.old + vec_len callers.old }
    ensures seats { vec_len seats.new + vec_len callers.old ≡ vec_len seats.old }
    ensures seat_room { vec_capacity seats.new ≡ vec_capacity seats.old }
    ensures no_counts { All (λ seat. seat ≡ no_counts N.wiring) seats.new.items }
    ensures no_callers { vec_len callers.new ≡ 0 }
    ensures caller_room { vec_capacity callers.new ≡ vec_capacity callers.old }
{
    while let Some(caller) = callers.pop() {
        let Some(seat) = seats.pop() else {
            unreachable!()
        };
        jobs.push_reserved(CallerJob::new(seat, caller));
    }
}
