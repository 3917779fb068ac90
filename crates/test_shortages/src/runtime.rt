//! A runtime, its seats, and `run_all`, with each of their requests for memory refused in turn.
//!
//! The part that is tried has the heap that refuses requests; all other parts have a heap that refuses none. This takes
//! as long as all the runs together.

ghost use Rattle.std.specs.Prelude.{◌≡◌, length};
ghost use Rattle.wq_core.specs.Wiring.{wiring};
ghost use Rattle.wq_groups.specs.DeclaredGroups.{declared_waits};

use crate::calls::sit;
use crate::crew::serve;
use crate::trial::{TrialEnd, put_trial};
use std::alloc::{Allocator, Global};
use std::io;
use std::marker::Brand;
use std::sync::Wait;
use std::sync::ledger::Blank;
use std::thread::Threads;
use test_cases::{RefusingHeap, SEED, TWO};
use wq_api::{Naming, NewError, WqRuntime};
use wq_commands::read_declaration;
use wq_groups::{Assignment, Declaration};
use wq_plan::{Answer, solve};

/// Room for the history.
const ROWS: u32 = 100;

/// What takes its memory of the heap that refuses requests.
#[derive(Clone, Copy)]
enum Part {
    /// A runtime, and a seat with which calls are made in one thread.
    Calls,
    /// `run_all`, which has rescuers and callers run in threads.
    Crew,
}

/// Makes the runtime of this name, and tries a part of it.
fn run<N: Naming + Send + Sync, R: Threads + Wait + Sync, A: Allocator + Copy + Send + Sync>(
    rt: &R,
    part: Part,
    ample: A,
    heap: A,
    blank: Blank,
    declared: &Declaration<'_, A>,
    plan: &Assignment<A>,
) -> TrialEnd
    requires name { blank.name ≡ N.name }
    requires parts { blank.parts ≡ N.parts }
    requires all_parts { N.parts ≡ 65536 }
    requires assigned { length plan.now.lane_of_group ≡ declared.now.partition.groups }
    requires of_wiring { N.wiring ≡ wiring (declared_waits declared.now) plan.now }
    requires of_rows { N.rows ≡ ROWS }
{
    let Declaration { table, groups } = declared;
    let alloc = match part {
        Part::Calls => heap,
        Part::Crew => ample,
    };
    let made = WqRuntime::<N, A>::new(alloc, blank, table, groups, plan, ROWS);
    match (part, made) {
        (Part::Calls, Ok(runtime)) => sit(rt, ample, heap, runtime),
        (Part::Crew, Ok(runtime)) => serve(rt, ample, heap, runtime, table),
        (Part::Calls, Err(NewError::OutOfMemory)) => TrialEnd::Refused,
        (_, Err(_)) => TrialEnd::Wrong,
    }
}

/// Makes a runtime that is named here, and tries a part of it.
fn play<R: Threads + Wait + Sync, A: Allocator + Copy + Send + Sync>(
    rt: &R,
    part: Part,
    ample: A,
    heap: A,
    declared: &Declaration<'_, A>,
    plan: &Assignment<A>,
) -> TrialEnd
    requires assigned { length plan.now.lane_of_group ≡ declared.now.partition.groups }
{
    run::<Brand, R, A>(rt, part, ample, heap, Blank::new(65_536), declared, plan)
}

/// Makes a runtime of a declaration and its plan, and tries a part of it.
fn play_declared<R: Threads + Wait + Sync, A: Allocator + Copy + Send + Sync>(
    rt: &R,
    part: Part,
    ample: A,
    heap: A,
    declared: &Declaration<'_, A>,
) -> TrialEnd {
    match solve(ample, &declared.table, &declared.groups) {
        Ok(Answer::Plan { assignment, .. }) => {
            play(rt, part, ample, heap, declared, &assignment)
        }
        Ok(Answer::Circle { .. }) | Err(_) => TrialEnd::Wrong,
    }
}

/// How a part ends with this heap.
fn outcome<R: Threads + Wait + Sync>(
    rt: &R,
    alloc: Global,
    heap: &RefusingHeap<Global>,
    part: Part,
) -> TrialEnd {
    let ample = RefusingHeap::ample(alloc);
    match read_declaration(&ample, SEED, TWO.as_bytes()) {
        Ok(declared) => play_declared(rt, part, &ample, heap, &declared),
        Err(_) => TrialEnd::Wrong,
    }
}

/// Tries a part. Gives whether all runs ended as they should.
fn put_part<R: Print + AllocGlobal + Threads + Wait + Sync>(
    rt: &R,
    name: &str,
    part: Part,
) -> io::Result<bool> {
    let alloc = rt.alloc();
    put_trial(
        rt,
        "a runtime",
        name,
        &|heap: &RefusingHeap<Global>| { outcome(rt, alloc, heap, part) },
    )
}

/// Tries each part. Gives whether all runs ended as they should.
pub(crate) fn put_runtime<R: Print + AllocGlobal + Threads + Wait + Sync>(
    rt: &R,
) -> io::Result<bool> {
    let calls = put_part(rt, "a seat and its calls", Part::Calls)?;
    let crew = put_part(rt, "its rescuers and callers", Part::Crew)?;
    Ok(calls && crew)
}
