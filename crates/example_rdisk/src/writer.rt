//! The callers: each makes requests, and waits until they are answered.
//!
//! A caller takes the time of what it waits for, and no memory.

use crate::disk::REQUESTS;
use crate::rdisk::Rdisk;
use std::alloc::{AllocError, Allocator, Global};
use std::sync::Wait;
use wq_api::{CallError, Naming, Seat, WqRuntime};
use wq_rescuer::Caller;

/// A caller that makes the requests from `first` on, up to `end`.
#[derive(Drop)]
pub(crate) struct Writer<'a> {
    rdisk: &'a Rdisk,
    first: usize,
    end: usize,
}

/// Makes two callers, each for half of the requests.
pub(crate) fn make_writers<'a>(
    alloc: Global,
    rdisk: &'a Rdisk,
) -> Result<Vec<Writer<'a>>, AllocError> {
    let middle = REQUESTS / 2;
    let mut writers = Vec::with_capacity(alloc, 2)?;
    for (first, end) in [(0, middle), (middle, REQUESTS)] {
        writers.push(Writer { rdisk, first, end })?;
    }
    Ok(writers)
}

impl Caller for Writer<'_> {
    ghost did = { λ w before after result old new. Unit {0} };

    fn call<N: Naming, A: Allocator, R: Wait>(
        &mut self,
        rt: &R,
        runtime: &WqRuntime<N, A>,
        seat: &mut Seat<N, A>,
    ) -> Result<(), CallError> {
        let rdisk = self.rdisk;
        let send_wq = runtime.lane_of(rdisk.send).ok_or(CallError::NoItem)?;
        for request in self.first..self.end {
            rdisk.disk.lock(rt).submit(request);
            runtime.queue_work(rt, seat, send_wq, rdisk.send)?;
        }
        for _ in rt.forever() {
            let is_done = rdisk.disk.lock(rt).are_answered(self.first, self.end);
            // Whoever queues others comes first, so that after the last answer nothing is left.
            for item in [rdisk.reconnect, rdisk.send, rdisk.receive] {
                runtime.flush_work(rt, seat, item)?;
            }
            if is_done {
                return Ok(());
            }
        }
        unreachable!()
    }
}
