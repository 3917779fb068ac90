//! What is printed once all threads have ended. A call takes time linear in the number of seats, items and rows.

use crate::loads::client::Client;
use crate::loads::load::{CallerTask, Load};
use crate::loads::server::Server;
use crate::sessions::put_contexts;
use crate::testbed::{fault, kind_word, put_done, put_item, put_made, put_rows};
use std::alloc::{AllocError, Global};
use std::time::Duration;
use wq_api::{CallError, Closed, Kind, Naming, Seat, WqRuntime};
use wq_core::Context;
use wq_groups::LaneId;
use wq_items::{ItemId, ItemTable};
use wq_rescuer::{Body, Caller, Ran, RunFault};

/// Prints that not everything was run. Returns the status.
pub(crate) fn put_unrun<N: Naming, B: Body + Drop, C: Caller + Drop>(
    out: &mut String,
    refused: &RunFault<N, Global, B, C>,
) -> Result<u8, AllocError> {
    writeln!(out, "refused {}", refused.why.code())?;
    Ok(1)
}

/// Prints what the callers answered.
fn put_results(out: &mut String, results: &[Result<(), CallError>]) -> Result<(), AllocError> {
    for result in results {
        out.push_str("caller ")?;
        put_done(out, *result)?;
        out.push('\n')?;
    }
    Ok(())
}

/// Prints what the bodies were answered, and then the callers.
fn put_answers(
    out: &mut String,
    servers: &[Server<'_, '_>],
    clients: &[Client<'_>],
) -> Result<(), AllocError> {
    for (seat, server) in servers.iter().enumerate() {
        server.tally.put(out, seat, "said")?;
    }
    for (number, client) in clients.iter().enumerate() {
        let seat = servers.len().saturating_add(number);
        client.tally.put(out, seat, "said")?;
        client.late.put(out, seat, "late")?;
    }
    Ok(())
}

/// Prints what a seat counted of an item, kind by kind.
fn put_seat<N: Naming>(
    out: &mut String,
    table: &ItemTable<'_, Global>,
    number: usize,
    seat: &Seat<N, Global>,
    item: ItemId,
) -> Result<(), AllocError> {
    for kind in Kind::ALL {
        let (yes, no) = (seat.made(item, kind, true), seat.made(item, kind, false));
        if yes != 0 || no != 0 {
            write!(out, "seat {number} made ")?;
            put_item(out, table, item)?;
            writeln!(out, " {} {yes} {no}", kind_word(kind))?;
        }
    }
    Ok(())
}

/// Prints what a seat counted of a lane.
fn put_seat_of_lane<N: Naming>(
    out: &mut String,
    number: usize,
    seat: &Seat<N, Global>,
    q: LaneId,
) -> Result<(), AllocError> {
    let (yes, no) = (seat.asked_lane(q, true), seat.asked_lane(q, false));
    if yes != 0 || no != 0 {
        writeln!(
            out,
            "seat {number} made lane {} asklane {yes} {no}",
            q.get()
        )?;
    }
    let told = seat.told_lane(q);
    if told != 0 {
        writeln!(out, "seat {number} made lane {} toldlane {told} 0", q.get())?;
    }
    Ok(())
}

/// Prints what each seat counted, of each item and of each lane.
fn put_seats<N: Naming>(
    out: &mut String,
    table: &ItemTable<'_, Global>,
    lanes: u16,
    seats: &[Seat<N, Global>],
) -> Result<(), AllocError> {
    for (number, seat) in seats.iter().enumerate() {
        for i in 0..table.len() {
            put_seat(out, table, number, seat, ItemId::new(i))?;
        }
        for q in 0..lanes {
            put_seat_of_lane(out, number, seat, LaneId::new(q))?;
        }
    }
    Ok(())
}

/// Prints what a closed runtime hands back, with each row after a stress. Returns the status.
fn put_closed<N: Naming>(
    out: &mut String,
    table: &ItemTable<'_, Global>,
    load: Load,
    closed: &Closed<N, Global>,
) -> Result<u8, AllocError> {
    writeln!(out, "agree {}", closed.agree)?;
    put_made(out, table, closed.book.lanes(), &closed.counts)?;
    writeln!(out, "idle {}", closed.book.is_idle())?;
    writeln!(out, "free {}", closed.book.free_rows())?;
    if load.task == CallerTask::Stress {
        put_rows(out, closed.book.packed())?;
    } else {
        writeln!(out, "rows {}", closed.book.packed().len() / 12)?;
    }
    Ok(0)
}

/// Closes a runtime, and prints what it hands back. Returns the status.
fn close<N: Naming>(
    out: &mut String,
    table: &ItemTable<'_, Global>,
    load: Load,
    runtime: WqRuntime<N, Global>,
    seats: Vec<Seat<N, Global>>,
) -> Result<u8, AllocError> {
    match runtime.close(seats) {
        Ok(closed) => put_closed(out, table, load, &closed),
        Err(_) => fault(out, "close"),
    }
}

/// Prints what all threads left, and how long they took. Of a stress it prints what
/// each of them was answered and counted.
fn put_left<N: Naming>(
    out: &mut String,
    table: &ItemTable<'_, Global>,
    load: Load,
    lanes: u16,
    contexts: &[Context],
    ran: &Ran<N, Global, Server<'_, '_>, Client<'_>>,
    took: Duration,
) -> Result<(), AllocError> {
    writeln!(out, "nanoseconds {}", took.as_nanos())?;
    put_contexts(out, contexts, &ran.rescued)?;
    put_results(out, &ran.results)?;
    if load.task == CallerTask::Stress {
        put_answers(out, &ran.bodies, &ran.callers)?;
        put_seats(out, table, lanes, &ran.seats)?;
    }
    Ok(())
}

/// Prints what all threads left, and closes the runtime. Returns the status.
pub(crate) fn conclude<N: Naming>(
    out: &mut String,
    table: &ItemTable<'_, Global>,
    load: Load,
    runtime: WqRuntime<N, Global>,
    lanes: u16,
    contexts: &[Context],
    ran: Ran<N, Global, Server<'_, '_>, Client<'_>>,
    took: Duration,
) -> Result<u8, AllocError> {
    let printed = put_left(out, table, load, lanes, contexts, &ran, took);
    let Ran { seats, .. } = ran;
    let status = close(out, table, load, runtime, seats);
    printed.and(status)
}
