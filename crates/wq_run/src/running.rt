//! The answer of `run` to a declaration, built in full in memory: the declaration is planned, and its plan is run.
//!
//! The runtime is named here, in the call of the function that makes it and works with it. A call takes the time of
//! planning and of all executions, and, besides the rows of the history, O((rescuers + helpers) * items) memory: for
//! each item, a seat has 176 bytes and a body 4.

ghost use Rattle.std.specs.Prelude.{◌≡◌, ◌≢◌, ◌≤◌, ◌+◌, ◌*◌, ℕ, IfOk, IfErr, length};
ghost use Rattle.wq_core.specs.Wiring.{wiring, with_helpers, max_helpers};
ghost use Rattle.wq_plan.specs.Plan.{IsPlan};
ghost use Rattle.wq_items.specs.Table.{flush_count};
ghost use Rattle.wq_plan.specs.Solve.{IsCircled};
ghost use Rattle.wq_held.specs.declared.fault.NewError.TheVariants.{OutOfMemory as NoMemory};
ghost use Rattle.wq_held.specs.Errors.{new_code};
ghost use Rattle.wq_groups.specs.DeclaredGroups.{declared_waits};
ghost use Rattle.wq_commands.specs.Answer.{PrintsRefusal};
ghost use Rattle.wq_run.specs.declared.fault.RunStop.TheVariants.{OutOfMemory};
ghost use Rattle.wq_run.specs.Fault.{Stops};
ghost use Rattle.wq_run.specs.Running.{RunsDeclared, HasRuntime, rows_for};

use crate::fault::RunStop;
use crate::serving::serve;
use std::alloc::Allocator;
use std::marker::Brand;
use std::sync::Wait;
use std::sync::ledger::Blank;
use std::thread::Threads;
use wq_api::{Naming, NewError, WqRuntime};
use wq_commands::{End, refuse, text_of_circle};
use wq_graph::WaitArc;
use wq_groups::{Assignment, Declaration};
use wq_items::ItemTable;
use wq_plan::{Answer, solve};

/// How many rows a history needs if each item is queued, flushed by a caller and executed once.
fn rows_for<A: Allocator + Copy>(table: &ItemTable<'_, A>) -> u32
    ensures { result ≡ 5 * length table.now.names + 2 * flush_count table.now.waits }
{
    5 * u32::from(table.len()) + 2 * table.flushes()
}

/// Refuses a plan for which no runtime can be made, by the number of the refusal.
fn refuse_runtime<A: Allocator + Copy>(
    alloc: A,
    error: NewError,
) -> Result<(End, Vec<u8, A>), RunStop>
    ensures refused { IfOk result (λ printed. (error ≢ NoMemory)
        × PrintsRefusal (record { code = new_code error; line = 0 }) printed.0 printed.1.items) }
    ensures stopped { IfErr result (λ stop. stop ≡ OutOfMemory) }
{
    if error == NewError::OutOfMemory {
        return Err(RunStop::OutOfMemory);
    }
    let printed = refuse(alloc, error.code(), 0)?;
    Ok(printed)
}

/// Runs a plan in the runtime of this name, which has this many helpers, or refuses
/// it if a runtime can't have this many workqueues.
fn run_named<N: Naming + Send + Sync, A: Allocator + Copy + Send + Sync, R: Threads + Wait + Sync>(
    rt: &R,
    alloc: A,
    blank: Blank,
    declared: &Declaration<'_, A>,
    assignment: &Assignment<A>,
    rows: u32,
    helpers: u8,
) -> Result<(End, Vec<u8, A>), RunStop>
    requires name { blank.name ≡ N.name }
    requires parts { blank.parts ≡ N.parts }
    requires all_parts { N.parts ≡ 65536 }
    requires plan { IsPlan (declared_waits declared.now) assignment.now }
    requires of_wiring { N.wiring ≡ with_helpers (wiring (declared_waits declared.now) assignment.now) helpers }
    requires few_helpers { helpers ≤ max_helpers }
    requires few_rows { rows ≡ rows_for declared.now }
    requires of_rows { N.rows ≡ rows }
    ensures ran { IfOk result (λ printed. RunsDeclared helpers declared.now printed.0 printed.1.items) }
    ensures stopped { IfErr result (Stops (HasRuntime declared.now)) }
{
    let Declaration { table, groups } = declared;
    match WqRuntime::<N, A>::with_helpers(alloc, blank, table, groups, assignment, rows, helpers) {
        Ok(runtime) => {
            let text = serve(rt, alloc, runtime, declared, assignment)?;
            Ok((End::Good, text))
        }
        Err(error) => refuse_runtime(alloc, error),
    }
}

/// Runs a plan, or refuses it if a runtime can't have this many workqueues.
fn run_plan<A: Allocator + Copy + Send + Sync, R: Threads + Wait + Sync>(
    rt: &R,
    alloc: A,
    declared: &Declaration<'_, A>,
    assignment: &Assignment<A>,
    helpers: u8,
) -> Result<(End, Vec<u8, A>), RunStop>
    requires plan { IsPlan (declared_waits declared.now) assignment.now }
    requires few_helpers { helpers ≤ max_helpers }
    ensures ran { IfOk result (λ printed. RunsDeclared helpers declared.now printed.0 printed.1.items) }
    ensures stopped { IfErr result (Stops (HasRuntime declared.now)) }
{
    let blank = Blank::new(65_536);
    let rows = rows_for(&declared.table);
    run_named::<Brand, A, R>(rt, alloc, blank, declared, assignment, rows, helpers)
}

/// Makes the text of the circle in which the declared groups wait.
fn print_circle<A: Allocator + Copy>(
    alloc: A,
    declared: &Declaration<'_, A>,
    arcs: &[WaitArc],
) -> Result<(End, Vec<u8, A>), RunStop>
    requires circled { IsCircled (declared_waits declared.now) arcs.now }
    ensures printed { (helpers : ℕ)
        → IfOk result (λ printed. RunsDeclared helpers declared.now printed.0 printed.1.items) }
    ensures stopped { IfErr result (Stops (HasRuntime declared.now)) }
{
    let text = text_of_circle(alloc, declared, arcs)?;
    Ok((End::Bad, text))
}

/// How `run` ends that is given a declaration, and what it prints.
pub(crate) fn run_declared<A: Allocator + Copy + Send + Sync, R: Threads + Wait + Sync>(
    rt: &R,
    alloc: A,
    declared: &Declaration<'_, A>,
    helpers: u8,
) -> Result<(End, Vec<u8, A>), RunStop>
    requires few_helpers { helpers ≤ max_helpers }
    ensures ran { IfOk result (λ printed. RunsDeclared helpers declared.now printed.0 printed.1.items) }
    ensures stopped { IfErr result (Stops (HasRuntime declared.now)) }
{
    let answer = solve(alloc, &declared.table, &declared.groups)?;
    let printed = match &answer {
        Answer::Plan { assignment, .. } => run_plan(rt, alloc, declared, assignment, helpers),
        Answer::Circle { arcs } => print_circle(alloc, declared, arcs),
    };
    drop(answer);
    printed
}
