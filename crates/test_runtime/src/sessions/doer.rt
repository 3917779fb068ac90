//! A body or a caller that does what a text says, one deed after the other, up to the first that is refused.
//!
//! This takes the time of its deeds, which may wait for other threads.

ghost use Rattle.std.specs.Prelude.{◌≡◌, vec_len, replicate, IfOk};
ghost use Rattle.wq_rescuer.specs.Executing.{SameFinished};

use crate::sessions::deed::Deed;
use crate::sessions::meeting::Flags;
use crate::sessions::ran::Shown;
use std::alloc::{AllocError, Allocator, Global};
use std::sync::Wait;
use wq_api::{CallError, Naming, Seat, WqRuntime};
use wq_items::ItemId;
use wq_rescuer::{Body, BodyFault, Caller, Work};

/// A body or a caller.
#[derive(Drop)]
pub(crate) struct Doer<'a> {
    flags: &'a Flags,
    number: usize,
    deeds: &'a [Deed],
    runs: Vec<u32>,
    /// The code of its last fault; 0 if there was none.
    code: u32,
    /// Whether it has seen all that it looked for.
    has_seen: bool,
}

impl<'a> Doer<'a> {
    /// Makes a doer that does these things, and can count this many items.
    pub(crate) fn new(
        alloc: Global,
        flags: &'a Flags,
        number: usize,
        items: u16,
        deeds: &'a [Deed],
    ) -> Result<Self, AllocError>
        ensures width { IfOk result (λ d. vec_len d.runs ≡ items) }
        ensures never_ran { IfOk result (λ d. d.runs.items ≡ replicate items 0) }
    {
        let mut runs = Vec::with_capacity(alloc, usize::from(items))?;
        runs.resize(usize::from(items), 0)?;
        Ok(Doer {
            flags,
            number,
            deeds,
            runs,
            code: 0,
            has_seen: true,
        })
    }
}

/// Does one thing in a body, and tells whether it has seen what it looked for.
fn do_in_body<N: Naming, A: Allocator, R: Wait>(
    rt: &R,
    flags: &Flags,
    number: usize,
    deed: Deed,
    work: &mut Work<'_, N, A>,
) -> Result<bool, BodyFault>
    ensures finished { SameFinished work.old.seat.now work.new.seat.now }
    ensures same_seat { work.new.seat.ghost_name ≡ work.old.seat.ghost_name }
{
    let answer = match deed {
        Deed::Flush(item) => work.flush(rt, item),
        Deed::FlushAll(item) => work.flush_wq(rt, item),
        Deed::Queue(item) => work.queue(rt, item),
        Deed::Cancel(item) => work.cancel(rt, item),
        Deed::CancelSync(_) | Deed::FlushLane(_) | Deed::Destroy => return Ok(true),
        Deed::GiveUp(code) => return Err(BodyFault { code }),
        Deed::Meet => return Ok(flags.meet(number)),
        Deed::Linger => return Ok(flags.linger()),
        Deed::Dawdle => return Ok(flags.dawdle()),
        Deed::Seen(count) => return Ok(flags.have_dawdled(count)),
        Deed::Alone => return Ok(flags.run_alone(work.item())),
    };
    match answer {
        Ok(_) => Ok(true),
        Err(error) => Err(BodyFault { code: error.code() }),
    }
}

/// Does all things in a body, up to the first that is refused. If it looked for
/// something that it didn't see, this is noted.
fn do_all_in_body<N: Naming, A: Allocator, R: Wait>(
    rt: &R,
    flags: &Flags,
    number: usize,
    deeds: &[Deed],
    has_seen: &mut bool,
    work: &mut Work<'_, N, A>,
) -> Result<(), BodyFault>
    ensures finished { SameFinished work.old.seat.now work.new.seat.now }
    ensures same_seat { work.new.seat.ghost_name ≡ work.old.seat.ghost_name }
{
    for deed in deeds {
        if !do_in_body(rt, flags, number, *deed, work)? {
            *has_seen = false;
        }
    }
    Ok(())
}

impl Body for Doer<'_> {
    ghost use Rattle.std.specs.Prelude.{vec_len, slice_index};

    ghost width = { λ d. vec_len d.runs };

    ghost runs = { λ d i. slice_index d.runs.items i };

    ghost may = { λ w d i answer old new. Unit {0} };

    fn run<N: Naming, A: Allocator, R: Wait>(
        &mut self,
        rt: &R,
        item: ItemId,
        work: &mut Work<'_, N, A>,
    ) -> Result<(), BodyFault> {
        self.runs[usize::from(item.get())] += 1;
        let answer = do_all_in_body(
            rt,
            self.flags,
            self.number,
            self.deeds,
            &mut self.has_seen,
            work,
        );
        if let Err(fault) = answer {
            self.code = fault.code;
        }
        answer
    }

    fn ran(&self, item: ItemId) -> u32 {
        match self.runs.get(usize::from(item.get())) {
            Some(runs) => *runs,
            None => 0,
        }
    }
}

/// Does one thing in a caller, and tells whether it has seen what it looked for.
fn do_in_caller<N: Naming, A: Allocator, R: Wait>(
    rt: &R,
    flags: &Flags,
    number: usize,
    deed: Deed,
    runtime: &WqRuntime<N, A>,
    seat: &mut Seat<N, A>,
) -> Result<bool, CallError> {
    let answer = match deed {
        Deed::Flush(item) => runtime.flush_work(rt, seat, item),
        Deed::Queue(item) => runtime.queue_item(rt, seat, item),
        Deed::Cancel(item) => runtime.cancel_work(rt, seat, item),
        Deed::CancelSync(item) => runtime.cancel_work_sync(rt, seat, item),
        Deed::FlushLane(q) => runtime.flush_workqueue(rt, seat, q).and(Ok(true)),
        Deed::FlushAll(_) | Deed::GiveUp(_) | Deed::Alone => return Ok(true),
        Deed::Meet => return Ok(flags.meet(number)),
        Deed::Linger => return Ok(flags.linger()),
        Deed::Dawdle => return Ok(flags.dawdle()),
        Deed::Seen(count) => return Ok(flags.have_dawdled(count)),
        Deed::Destroy => {
            flags.end();
            let _destroyed = runtime.destroy(rt);
            return Ok(flags.has_lingered());
        }
    };
    answer.and(Ok(true))
}

impl Caller for Doer<'_> {
    ghost did = { λ w before after result old new. Unit {0} };

    fn call<N: Naming, A: Allocator, R: Wait>(
        &mut self,
        rt: &R,
        runtime: &WqRuntime<N, A>,
        seat: &mut Seat<N, A>,
    ) -> Result<(), CallError> {
        for deed in self.deeds {
            if !do_in_caller(rt, self.flags, self.number, *deed, runtime, seat)? {
                self.has_seen = false;
            }
        }
        Ok(())
    }
}

impl Shown for Doer<'_> {
    fn shown(&self) -> Option<(u32, bool)> {
        Some((self.code, self.has_seen))
    }
}
