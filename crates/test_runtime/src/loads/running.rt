//! Makes a runtime, in which rescuers and helpers serve the lanes and callers call. This takes the time of the calls.

ghost use Rattle.std.specs.Prelude.{◌≡◌, length, vec_len, slice_index, IfOk};
ghost use Rattle.std.specs.List.{All};
ghost use Rattle.wq_core.specs.Wiring.{wiring, with_helpers};
ghost use Rattle.wq_rescuer.specs.Executing.{NeverRan};
ghost use Rattle.wq_groups.specs.DeclaredGroups.{declared_waits};

use crate::loads::client::Client;
use crate::loads::load::Load;
use crate::loads::printing::{conclude, put_unrun};
use crate::loads::server::Server;
use crate::testbed::{Bed, fault, make};
use std::alloc::{AllocError, Global};
use std::marker::Brand;
use std::sync::Wait;
use std::sync::atomic::AtomicU32;
use std::sync::ledger::Blank;
use std::thread::Threads;
use std::time::{Clock, Instant};
use wq_api::{Naming, WqRuntime};
use wq_items::ItemTable;
use wq_rescuer::{contexts_of, run_all};

/// Makes this many bodies. Each can count all items of a table, and has run nothing.
fn make_servers<'t, 'a>(
    alloc: Global,
    load: Load,
    table: &'t ItemTable<'a, Global>,
    count: usize,
) -> Result<Vec<Server<'t, 'a>>, AllocError>
    ensures width { IfOk result (λ ss. All (λ s. vec_len s.runs ≡ length table.now.names) ss.items) }
    ensures never_ran { IfOk result (λ ss. All (λ s. NeverRan (slice_index s.runs.items)) ss.items) }
{
    let mut servers = Vec::new(alloc);
    for number in 0..count {
        let server = Server::new(alloc, load, table, number)?;
        servers.push(server)?;
    }
    Ok(servers)
}

/// The callers of a load, for a runtime of this many items and lanes.
fn make_clients<'c>(
    alloc: Global,
    load: Load,
    items: u16,
    lanes: u16,
    working: &'c AtomicU32,
) -> Result<Vec<Client<'c>>, AllocError> {
    let mut clients = Vec::new(alloc);
    for number in 0..load.callers {
        clients.push(Client::new(load, items, lanes, number, working))?;
    }
    Ok(clients)
}

/// Has a runtime's lanes served while the callers of a load call, closes it, and
/// prints what came of it. Returns the status.
fn run_counted<N: Naming + Send + Sync, R: Threads + Wait + Clock + Sync>(
    rt: &R,
    alloc: Global,
    runtime: WqRuntime<N, Global>,
    bed: &Bed<'_>,
    load: Load,
    working: &AtomicU32,
    out: &mut String,
) -> Result<u8, AllocError>
    requires { N.wiring
        ≡ with_helpers
        (wiring (declared_waits bed.now.declared.now) bed.now.assignment.now) bed.now.helpers }
{
    let lanes = runtime.lanes();
    let contexts = contexts_of(alloc, &runtime)?;
    let declared = bed.declared;
    let servers = make_servers(alloc, load, &declared.table, contexts.len())?;
    let clients = make_clients(alloc, load, declared.table.len(), lanes, working)?;
    let Ok(begun) = Instant::now(rt) else {
        return fault(out, "clock");
    };
    let ran = match run_all(rt, alloc, &runtime, servers, clients) {
        Ok(ran) => ran,
        Err(refused) => return put_unrun(out, &refused),
    };
    let Ok(took) = begun.elapsed(rt) else {
        return fault(out, "clock");
    };
    conclude(
        out,
        &declared.table,
        load,
        runtime,
        lanes,
        &contexts,
        ran,
        took,
    )
}

/// Makes the runtime of this name and runs a load on it. Returns the status.
fn run_named<N: Naming + Send + Sync, R: Threads + Wait + Clock + Sync>(
    rt: &R,
    alloc: Global,
    blank: Blank,
    bed: &Bed<'_>,
    load: Load,
    out: &mut String,
) -> Result<u8, AllocError>
    requires name { blank.name ≡ N.name }
    requires parts { blank.parts ≡ N.parts }
    requires all_parts { N.parts ≡ 65536 }
    requires of_wiring { N.wiring
        ≡ with_helpers
        (wiring (declared_waits bed.now.declared.now) bed.now.assignment.now) bed.now.helpers }
    requires of_rows { N.rows ≡ bed.now.rows }
{
    let Some(runtime) = make::<N>(alloc, blank, bed, out)? else {
        return Ok(2);
    };
    let working = AtomicU32::new(u32::from(load.callers));
    run_counted(rt, alloc, runtime, bed, load, &working, out)
}

/// Makes a runtime and runs a load on it. Returns the status.
pub(crate) fn run<R: Threads + Wait + Clock + Sync>(
    rt: &R,
    alloc: Global,
    bed: &Bed<'_>,
    load: Load,
    out: &mut String,
) -> Result<u8, AllocError> {
    let blank = Blank::new(65_536);
    run_named::<Brand, R>(rt, alloc, blank, bed, load, out)
}
