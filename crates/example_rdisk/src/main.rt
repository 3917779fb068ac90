//! `example_rdisk`: the driver of docs/GUIDE.md, run by its plan. It is an example, and never installed.
//!
//! `rdisk`, `disk` and `writer` are the driver: its work functions and the bodies that run them,
//! its disk, and its callers. Here its declaration is planned and a runtime made under the plan;
//! a rescuer for each workqueue and two callers run, and the runtime is closed. It prints what
//! doesn't depend on the order in which the threads ran. docs/RUNTIME.md explains it.
#![tactic(auto)]

mod disk;
mod rdisk;
mod writer;

ghost use Rattle.std.specs.Prelude.{◌≡◌, length};
ghost use Rattle.wq_core.specs.Wiring.{wiring};
ghost use Rattle.wq_groups.specs.DeclaredGroups.{declared_waits};

use anyhow::{Context, Error, Result, anyhow, bail};
use disk::REQUESTS;
use rdisk::{Rdisk, RdiskBody, make_bodies};
use std::alloc::Global;
use std::marker::Brand;
use std::sync::Wait;
use std::sync::ledger::Blank;
use std::thread::Threads;
use wq_api::{Counts, Kind, Naming, Seat, WqRuntime};
use wq_commands::read_declaration;
use wq_groups::{Assignment, Declaration};
use wq_items::ItemId;
use wq_plan::{Answer, solve};
use wq_rescuer::{Body, Ran, run_all};
use writer::{Writer, make_writers};

/// The declaration of `rdisk.c`.
const DECLARATION: &[u8] = b"\
item send       # rdisk_send
item log        # rdisk_log
item reconnect  # rdisk_reconnect
item receive    # rdisk_receive
flush send log        # rdisk_send: wait_for_completion, ended by rdisk_log
flush reconnect send  # rdisk_reconnect: flush_work
";

/// The seed with which names are hashed. No answer depends on it.
const SEED: u64 = 0;

/// Room for the history.
const ROWS: u32 = 4_096;

/// Prints what became of the requests.
fn put_disk<R: Wait + Print>(rt: &R, rdisk: &Rdisk, faults: u64) -> Result<()> {
    let disk = rdisk.disk.lock(rt);
    println!(rt;
        "requests {REQUESTS} noted {} sent {} faults {faults}",
        disk.noted, disk.sent
    )?;
    if let Some(error) = disk.warning {
        println!(rt; "receive flushes send: {} {error}", error.code())?;
    }
    Ok(())
}

/// Prints what the closed book counts of an item, if the order of the threads doesn't change it.
fn put_item(
    rt: &impl Print,
    name: &str,
    item: ItemId,
    counts: &Counts<Global>,
    bodies: &[RdiskBody<'_>],
) -> Result<()> {
    let queued = counts.made(item, Kind::Queue, true);
    let cancelled = counts.made(item, Kind::Cancel, true);
    let finished = counts.made(item, Kind::Finish, true);
    let is_done = queued.checked_sub(cancelled) == Some(finished);
    let has_run = bodies
        .iter()
        .any(|body| u64::from(body.ran(item)) == finished);
    println!(rt; "{name}: all done {is_done}, a run for each {has_run}")?;
    Ok(())
}

/// Prints what the closed book counts, and whether the seats agree with it.
fn put_closed(
    rt: &impl Print,
    rdisk: &Rdisk,
    counts: &Counts<Global>,
    bodies: &[RdiskBody<'_>],
    agree: bool,
) -> Result<()> {
    put_item(rt, "send", rdisk.send, counts, bodies)?;
    put_item(rt, "log", rdisk.log, counts, bodies)?;
    put_item(rt, "reconnect", rdisk.reconnect, counts, bodies)?;
    put_item(rt, "receive", rdisk.receive, counts, bodies)?;
    println!(rt;
        "reconnect cancelled {}",
        counts.made(rdisk.reconnect, Kind::Cancel, true)
    )?;
    println!(rt; "agree {agree}")?;
    Ok(())
}

/// Prints what two calls answer after `destroy` was called.
fn put_destroyed<N: Naming, R: Wait + Print>(
    rt: &R,
    runtime: &WqRuntime<N, Global>,
    seat: &mut Seat<N, Global>,
    rdisk: &Rdisk,
) -> Result<()> {
    let send_wq = runtime.lane_of(rdisk.send).context("an item is missing")?;
    if let Err(error) = runtime.queue_work(rt, seat, send_wq, rdisk.send) {
        println!(rt; "queue_work after destroy: {} {error}", error.code())?;
    }
    let was_pending = runtime.cancel_work_sync(rt, seat, rdisk.receive)?;
    println!(rt; "cancel_work_sync after destroy: {was_pending}")?;
    Ok(())
}

/// Prints the results of the calls and of the requests, and the answers after `destroy`. The seat of these answers is
/// added to the others.
fn put_ran<N: Naming, R: Wait + Print + AllocGlobal>(
    rt: &R,
    runtime: &WqRuntime<N, Global>,
    rdisk: &Rdisk,
    ran: &mut Ran<N, Global, RdiskBody<'_>, Writer<'_>>,
) -> Result<()> {
    for result in ran.results.as_slice() {
        (*result)?;
    }
    put_disk(rt, rdisk, ran.faults)?;
    let mut seat = runtime
        .seat(rt, rt.alloc())
        .map_err(|refused| refused.why())?;
    put_destroyed(rt, runtime, &mut seat, rdisk)?;
    ran.seats.push(seat)?;
    Ok(())
}

/// Prints what all threads left, closes the runtime with all of its seats, and prints what its book counts.
fn conclude<N: Naming, R: Wait + Print + AllocGlobal>(
    rt: &R,
    runtime: WqRuntime<N, Global>,
    rdisk: &Rdisk,
    mut ran: Ran<N, Global, RdiskBody<'_>, Writer<'_>>,
) -> Result<()> {
    put_ran(rt, &runtime, rdisk, &mut ran)?;
    let closed = runtime.close(ran.seats).map_err(|refused| refused.why)?;
    put_closed(rt, rdisk, &closed.counts, &ran.bodies, closed.agree)
}

/// Runs the driver: a rescuer for each workqueue runs its work functions, while two callers make their requests.
fn serve<'a, N: Naming + Send + Sync, R: Threads + Wait + Sync + AllocGlobal>(
    rt: &R,
    runtime: &WqRuntime<N, Global>,
    rdisk: &'a Rdisk,
    items: u16,
) -> Result<Ran<N, Global, RdiskBody<'a>, Writer<'a>>>
    requires { length N.wiring.waits ≡ items }
{
    let alloc = rt.alloc();
    let bodies = make_bodies(alloc, rdisk, runtime.lanes(), items)?;
    let writers = make_writers(alloc, rdisk)?;
    match run_all(rt, alloc, runtime, bodies, writers) {
        Ok(ran) => Ok(ran),
        Err(refused) => Err(Error::from(refused.why)),
    }
}

/// Makes a runtime under a plan, has it served, closes it, and prints what came of it.
fn run<N: Naming + Send + Sync, R: Threads + Wait + Sync + Print + AllocGlobal>(
    rt: &R,
    blank: Blank,
    declared: &Declaration<'_, Global>,
    plan: &Assignment<Global>,
) -> Result<()>
    requires name { blank.name ≡ N.name }
    requires parts { blank.parts ≡ N.parts }
    requires all_parts { N.parts ≡ 65536 }
    requires assigned { length plan.now.lane_of_group ≡ declared.now.partition.groups }
    requires of_wiring { N.wiring ≡ wiring (declared_waits declared.now) plan.now }
    requires of_rows { N.rows ≡ ROWS }
{
    let Declaration { table, groups } = declared;
    let rdisk = Rdisk::new(table).context("an item is missing")?;
    let runtime = WqRuntime::<N, Global>::new(rt.alloc(), blank, table, groups, plan, ROWS)?;
    let ran = serve(rt, &runtime, &rdisk, table.len())?;
    conclude(rt, runtime, &rdisk, ran)
}

/// Runs a plan in a runtime that is named here.
fn run_plan<R: Threads + Wait + Sync + Print + AllocGlobal>(
    rt: &R,
    declared: &Declaration<'_, Global>,
    plan: &Assignment<Global>,
) -> Result<()>
    requires assigned { length plan.now.lane_of_group ≡ declared.now.partition.groups }
{
    run::<Brand, R>(rt, Blank::new(65_536), declared, plan)
}

/// Plans a declaration, and runs the plan.
fn run_declared<R: Threads + Wait + Sync + Print + AllocGlobal>(
    rt: &R,
    declared: &Declaration<'_, Global>,
) -> Result<()> {
    match solve(rt.alloc(), &declared.table, &declared.groups)? {
        Answer::Plan { assignment, .. } => run_plan(rt, declared, &assignment),
        Answer::Circle { .. } => bail!("the items wait in a circle"),
    }
}

fn main(rt: HostRuntime) -> Result<()> {
    let declared = read_declaration(rt.alloc(), SEED, DECLARATION).map_err(|stop| anyhow!(
        "{stop:?}"
    ))?;
    run_declared(&rt, &declared)
}
