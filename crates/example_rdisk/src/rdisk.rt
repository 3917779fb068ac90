//! The driver: its work items, their work functions, and the body that runs them.
//!
//! A work function takes the time of what it waits for, and no memory.

ghost use Rattle.std.specs.Prelude.{◌≡◌, vec_len, replicate, slice_index, IfOk};
ghost use Rattle.std.specs.List.{All};
ghost use Rattle.wq_rescuer.specs.Executing.{NeverRan, SameFinished};

use crate::disk::Disk;
use std::alloc::{AllocError, Allocator, Global};
use std::sync::{Mutex, Wait};
use wq_api::{CallError, Naming};
use wq_items::{ItemId, ItemTable};
use wq_rescuer::{Body, BodyFault, Work};

/// What the work functions and the callers share (`struct rdisk`): the work items and the disk.
#[derive(Drop)]
pub(crate) struct Rdisk {
    pub(crate) send: ItemId,
    pub(crate) log: ItemId,
    pub(crate) reconnect: ItemId,
    pub(crate) receive: ItemId,
    pub(crate) disk: Mutex<Disk>,
}

/// The answer of a work function.
type Done = Result<(), CallError>;

impl Rdisk {
    /// The driver whose items have these names in the declaration.
    pub(crate) fn new(table: &ItemTable<'_, Global>) -> Option<Rdisk> {
        Some(Rdisk {
            send: table.find(b"send")?,
            log: table.find(b"log")?,
            reconnect: table.find(b"reconnect")?,
            receive: table.find(b"receive")?,
            disk: Mutex::new(Disk::new()),
        })
    }

    /// Sends the requests that are waiting. Each is noted in the log first.
    fn send(&self, rt: &impl Wait, work: &mut Work<'_, impl Naming, impl Allocator>) -> Done
        ensures finished { SameFinished work.old.seat.now work.new.seat.now }
        ensures same_seat { work.new.seat.ghost_name ≡ work.old.seat.ghost_name }
    {
        work.queue(rt, self.log)?;
        work.flush(rt, self.log)?;
        self.disk.lock(rt).transmit();
        // The server's answers come in.
        work.queue(rt, self.receive)?;
        Ok(())
    }

    /// Answers have come in.
    fn receive(&self, rt: &impl Wait, work: &mut Work<'_, impl Naming, impl Allocator>) -> Done
        ensures finished { SameFinished work.old.seat.now work.new.seat.now }
        ensures same_seat { work.new.seat.ghost_name ≡ work.old.seat.ghost_name }
    {
        // A mistake, to show what happens: no line says `flush receive send`.
        if let Err(error) = work.flush(rt, self.send) {
            self.disk.lock(rt).warning = Some(error);
        }
        let is_lost = self.disk.lock(rt).end_requests();
        if is_lost {
            work.queue(rt, self.reconnect)?;
        }
        Ok(())
    }

    /// The connection is lost. Waits until nothing is being sent, and connects again.
    fn reconnect(&self, rt: &impl Wait, work: &mut Work<'_, impl Naming, impl Allocator>) -> Done
        ensures finished { SameFinished work.old.seat.now work.new.seat.now }
        ensures same_seat { work.new.seat.ghost_name ≡ work.old.seat.ghost_name }
    {
        // Runs again if this run gives up. While it runs, the next entry can't start.
        work.queue(rt, self.reconnect)?;
        work.flush(rt, self.send)?;
        self.disk.lock(rt).connect();
        work.cancel(rt, self.reconnect)?;
        work.queue(rt, self.send)?;
        Ok(())
    }
}

/// The body of one rescuer. It counts how often each item ran.
#[derive(Drop)]
pub(crate) struct RdiskBody<'a> {
    rdisk: &'a Rdisk,
    runs: Vec<u32>,
}

impl<'a> RdiskBody<'a> {
    /// A body that has run nothing, for this many items.
    fn new(alloc: Global, rdisk: &'a Rdisk, items: u16) -> Result<Self, AllocError>
        ensures width { IfOk result (λ b. vec_len b.runs ≡ items) }
        ensures never_ran { IfOk result (λ b. b.runs.items ≡ replicate items 0) }
    {
        let runs = vec![in alloc; 0; usize::from(items)]?;
        Ok(RdiskBody { rdisk, runs })
    }
}

/// Makes a body for each of this many workqueues.
pub(crate) fn make_bodies<'a>(
    alloc: Global,
    rdisk: &'a Rdisk,
    lanes: u16,
    items: u16,
) -> Result<Vec<RdiskBody<'a>>, AllocError>
    ensures width { IfOk result (λ bs. All (λ b. vec_len b.runs ≡ items) bs.items) }
    ensures never_ran { IfOk result (λ bs. All (λ b. NeverRan (slice_index b.runs.items)) bs.items) }
{
    let mut bodies = Vec::new(alloc);
    for _ in 0..lanes {
        let body = RdiskBody::new(alloc, rdisk, items)?;
        bodies.push(body)?;
    }
    Ok(bodies)
}

impl Body for RdiskBody<'_> {
    ghost use Rattle.std.specs.Prelude.{vec_len, slice_index};

    ghost width = { λ b. vec_len b.runs };

    ghost runs = { λ b i. slice_index b.runs.items i };

    ghost may = { λ w b i answer old new. Unit {0} };

    fn run<N: Naming, A: Allocator, R: Wait>(
        &mut self,
        rt: &R,
        item: ItemId,
        work: &mut Work<'_, N, A>,
    ) -> Result<(), BodyFault> {
        self.runs[usize::from(item.get())] += 1;
        let rdisk = self.rdisk;
        let done = if item == rdisk.send {
            rdisk.send(rt, work)
        } else if item == rdisk.receive {
            rdisk.receive(rt, work)
        } else if item == rdisk.reconnect {
            rdisk.reconnect(rt, work)
        } else {
            rdisk.disk.lock(rt).note();
            Ok(())
        };
        done.map_err(|error| BodyFault { code: error.code() })
    }

    fn ran(&self, item: ItemId) -> u32 {
        self.runs.get(usize::from(item.get())).copied().unwrap_or(0)
    }
}
