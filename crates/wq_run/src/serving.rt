//! Running a plan on a runtime of it: its crew runs, the runtime is closed, and what happened is reported.
//!
//! The crew is that of `wq_script`: a body for each rescuer and each helper, which makes the declared flushes, and two
//! callers. A call takes the time of all executions and of writing the text, and O(bodies * items) time and memory
//! besides.

ghost use Rattle.std.specs.Prelude.{◌≡◌, ◌≤◌, ℕ, List, length, map, take, drop, IfOk, IfErr, is_ok, IsTrue, true};
ghost use Rattle.std.specs.List.{All};
ghost use Rattle.wq_core.specs.Wiring.{items, wiring, with_helpers, max_helpers};
ghost use Rattle.wq_plan.specs.Plan.{IsPlan};
ghost use Rattle.wq_counts.specs.Counting.{made};
ghost use Rattle.wq_history.specs.Book.{BookView};
ghost use Rattle.wq_held.specs.Locked.{max_runtime_lanes};
ghost use Rattle.wq_held.specs.Closing.{IsClosed};
ghost use Rattle.wq_rescuer.specs.Executing.{NeverRan};
ghost use Rattle.wq_rescuer.specs.Contexts.{contexts_of};
ghost use Rattle.wq_rescuer.specs.Serving.{IsRan};
ghost use Rattle.wq_script.specs.Scripts.{runs_of};
ghost use Rattle.wq_script.specs.Crews.{shared_by_two};
ghost use Rattle.wq_groups.specs.DeclaredGroups.{declared_waits};
ghost use Rattle.wq_run.specs.Fault.{Stops};
ghost use Rattle.wq_run.specs.Report.{report_text};
ghost use Rattle.wq_run.specs.Running.{PrintsRun, HasRuntime, HaveMade, QueuesNothing, rows_for};

use crate::fault::RunStop;
use crate::report::report_text;
use std::alloc::{AllocError, Allocator};
use std::mem;
use std::sync::Wait;
use std::thread::Threads;
use wq_api::{CallError, Closed, Naming, Seat, WqRuntime};
use wq_groups::{Assignment, Declaration};
use wq_items::ItemTable;
use wq_rescuer::{Body, Caller, Ran, count_contexts, run_all};
use wq_script::{ScriptBody, ScriptCaller, script_bodies, script_callers};

/// The threads that run a plan.
#[derive(Drop)]
struct Crew<'t, 'a, A: Allocator> {
    /// A body for each rescuer and each helper.
    bodies: Vec<ScriptBody<'t, 'a, A>, A>,
    /// Two callers that share the items.
    callers: Vec<ScriptCaller<A>, A>,
}

/// What the threads of a crew left.
type CrewRan<'t, 'a, N, A> = Ran<N, A, ScriptBody<'t, 'a, A>, ScriptCaller<A>>;

/// Makes a crew with this many bodies. Each item of the table is queued and then flushed by one of the callers.
fn make_crew<'t, 'a, A: Allocator + Copy>(
    alloc: A,
    table: &'t ItemTable<'a, A>,
    bodies: usize,
) -> Result<Crew<'t, 'a, A>, AllocError>
    ensures waits { IfOk result (λ crew. All (λ b. b.waits ≡ table.now.waits) crew.bodies.items) }
    ensures width { IfOk result (λ crew. All (λ b. length b.runs ≡ length table.now.names) crew.bodies.items) }
    ensures never_ran { IfOk result (λ crew. All (λ b. NeverRan (runs_of b)) crew.bodies.items) }
    ensures callers { IfOk result (λ crew. crew.callers.items ≡ shared_by_two (length table.now.names)) }
{
    let bodies = script_bodies(alloc, table, bodies)?;
    match script_callers(alloc, table.len()) {
        Ok(callers) => Ok(Crew { bodies, callers }),
        Err(error) => {
            drop(bodies);
            Err(error)
        }
    }
}

/// Whether none of these callers was refused.
fn are_answered(results: &[Result<(), CallError>]) -> bool
    ensures { IsTrue result → All (λ r. IsTrue (is_ok r)) results.now }
{
    results.iter().all(|answer| answer.is_ok())
}

/// Runs the crew of a plan on the workqueues of a runtime, and hands back what the threads left. The error is `Tally`,
/// too, if a caller was refused.
fn run_crew<
    't,
    'a,
    N: Naming + Send + Sync,
    A: Allocator + Copy + Send + Sync,
    R: Threads + Wait + Sync,
>(
    rt: &R,
    alloc: A,
    runtime: &WqRuntime<N, A>,
    table: &'t ItemTable<'a, A>,
) -> Result<CrewRan<'t, 'a, N, A>, RunStop>
    requires items { items N.wiring ≡ length table.now.names }
    ensures ran { IfOk result (λ r.
        IsRan N.wiring 2 r.seats.items (map runs_of r.bodies.items) 2 2 r.rescued.items r.finished r.faults) }
    ensures called { IfOk result (λ r. HaveMade N.wiring (shared_by_two (length table.now.names))
        (drop (length (contexts_of N.wiring)) r.seats.items)) }
    ensures served { IfOk result (λ r. QueuesNothing (take (length (contexts_of N.wiring)) r.seats.items)) }
{
    let Crew { bodies, callers } = make_crew(alloc, table, count_contexts(runtime))?;
    let ran = match run_all(rt, alloc, runtime, bodies, callers) {
        Ok(ran) => ran,
        Err(refused) => return Err(RunStop::from(refused.why)),
    };
    if !are_answered(ran.results.as_slice()) {
        return Err(RunStop::Tally);
    }
    Ok(ran)
}

/// Closes a runtime with all its seats, whose counts agree with its history. The error is `Tally` if the runtime can't
/// be closed or they don't agree; then all is dropped.
fn close<N: Naming, A: Allocator>(
    runtime: WqRuntime<N, A>,
    seats: Vec<Seat<N, A>, A>,
) -> Result<Closed<N, A>, RunStop>
    ensures closed { IfOk result (λ c. IsClosed N.wiring N.rows seats.items c.book c.counts true) }
{
    match runtime.close(seats) {
        Ok(closed) => {
            if !closed.agree {
                drop(closed);
                return Err(RunStop::Tally);
            }
            Ok(closed)
        }
        Err(refused) => {
            drop(refused);
            Err(RunStop::Tally)
        }
    }
}

/// Closes a runtime with the seats of what ran on it, and reports on both.
fn conclude<N: Naming, A: Allocator + Copy, B: Body + Drop, C: Caller + Drop>(
    alloc: A,
    runtime: WqRuntime<N, A>,
    declared: &Declaration<'_, A>,
    assignment: &Assignment<A>,
    mut ran: Ran<N, A, B, C>,
) -> Result<Vec<u8, A>, RunStop>
    requires assigned { length assignment.now.lane_of_group ≡ declared.now.partition.groups }
    ensures reported { IfOk result (λ text. (book : BookView)
        × (counts : List ℕ) × IsClosed N.wiring N.rows ran.seats.items book counts true
        × (text.items ≡ report_text declared.now assignment.now (λ i kind. made counts i kind true) ran.faults)) }
{
    let seats = mem::replace(&mut ran.seats, Vec::new(alloc));
    match close(runtime, seats) {
        Ok(closed) => {
            let text = report_text(alloc, declared, assignment, &closed, &ran);
            drop(closed);
            drop(ran);
            Ok(text?)
        }
        Err(stop) => {
            drop(ran);
            Err(stop)
        }
    }
}

/// Runs the crew of a plan on a runtime of it, closes the runtime with the seats of this run, and reports on both.
pub(crate) fn serve<
    N: Naming + Send + Sync,
    A: Allocator + Copy + Send + Sync,
    R: Threads + Wait + Sync,
>(
    rt: &R,
    alloc: A,
    runtime: WqRuntime<N, A>,
    declared: &Declaration<'_, A>,
    assignment: &Assignment<A>,
) -> Result<Vec<u8, A>, RunStop>
    requires assigned { length assignment.now.lane_of_group ≡ declared.now.partition.groups }
    requires plan { IsPlan (declared_waits declared.now) assignment.now }
    requires few { assignment.now.lanes ≤ max_runtime_lanes }
    requires few_helpers { N.wiring.helpers ≤ max_helpers }
    requires items { items N.wiring ≡ length declared.now.table.names }
    requires of_wiring { N.wiring
        ≡ with_helpers (wiring (declared_waits declared.now) assignment.now) N.wiring.helpers }
    requires of_rows { N.rows ≡ rows_for declared.now }
    ensures ran { IfOk result (λ text. PrintsRun N.wiring.helpers declared.now text.items) }
    ensures stopped { IfErr result (Stops (HasRuntime declared.now)) }
{
    match run_crew(rt, alloc, &runtime, &declared.table) {
        Ok(ran) => conclude(alloc, runtime, declared, assignment, ran),
        Err(stop) => {
            drop(runtime);
            Err(stop)
        }
    }
}
