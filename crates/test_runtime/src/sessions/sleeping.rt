//! Calls that sleep, each in a thread of its own, until a call of this thread wakes them.
//!
//! A session takes a tenth of a second, in which the calls fall asleep, and the time of the calls. If nothing wakes
//! them, it never ends. No call is made before all threads exist, so it ends if one can't be made.

use crate::sessions::asking::RuntimeCall;
use crate::sessions::seats::Seats;
use std::alloc::{AllocError, Global};
use std::sync::{Condvar, Mutex, Wait};
use std::thread;
use std::thread::Threads;
use std::time::{Clock, Duration};
use wq_api::{Naming, WqRuntime};
use wq_items::ItemTable;

/// How many milliseconds the threads have to fall asleep.
const NAP: u64 = 100;

/// Where the threads wait until all of them are there, or one can't be made.
#[derive(Drop)]
struct Gate {
    /// Whether they are to make their calls, once that is known.
    go: Mutex<Option<bool>>,
    known: Condvar,
}

impl Gate {
    fn new() -> Self {
        Gate {
            go: Mutex::new(None),
            known: Condvar::new(),
        }
    }

    /// Lets the threads make their calls, or has them end without.
    fn open<R: Wait>(&self, rt: &R, go: bool) {
        *self.go.lock(rt) = Some(go);
        self.known.notify_all();
    }

    /// Waits until it is known whether to make a call.
    fn pass<R: Wait>(&self, rt: &R) -> bool {
        let mut go = self.go.lock(rt);
        for _ in rt.forever() {
            if let Some(go) = *go {
                return go;
            }
            go = self.known.wait(rt, go);
        }
        unreachable!()
    }
}

/// A call that is to sleep.
#[derive(Drop)]
pub(crate) struct Sleeper<N: Naming> {
    /// The seat in which it counts, if there was one more.
    pub(crate) seats: Seats<N>,
    pub(crate) call: RuntimeCall,
    /// The words of its line, and then its answer.
    pub(crate) said: String,
}

impl<N: Naming> Sleeper<N> {
    /// Makes the call, and adds the answer.
    fn make<R: Wait>(
        &mut self,
        rt: &R,
        alloc: Global,
        runtime: &WqRuntime<N, Global>,
        table: &ItemTable<'_, Global>,
    ) -> Result<(), AllocError> {
        self.seats
            .ask(rt, alloc, runtime, table, self.call, &mut self.said)
    }

    /// Makes the call in the thread that has taken the sleeper, once all threads are
    /// there, and hands it back.
    fn made<R: Wait>(
        mut self,
        rt: &R,
        alloc: Global,
        runtime: &WqRuntime<N, Global>,
        table: &ItemTable<'_, Global>,
        gate: &Gate,
    ) -> Result<Self, AllocError> {
        if !gate.pass(rt) {
            return Err(AllocError);
        }
        self.make(rt, alloc, runtime, table)?;
        Ok(self)
    }
}

/// Makes calls that sleep, each in a thread of its own; a tenth of a second later
/// makes the call that wakes them, and adds its answer; and waits until all of them
/// are answered. If a thread can't be made, no call is made, and this counts as
/// out of memory.
pub(crate) fn wake<N: Naming + Send + Sync, R: Threads + Wait + Clock + Sync>(
    rt: &R,
    alloc: Global,
    runtime: &WqRuntime<N, Global>,
    table: &ItemTable<'_, Global>,
    sleepers: Vec<Sleeper<N>>,
    seats: &mut Seats<N>,
    call: RuntimeCall,
    out: &mut String,
) -> Result<Vec<Sleeper<N>>, AllocError> {
    let gate = Gate::new();
    let gate = &gate;
    thread::scope(
        thread::scope_env(),
        rt,
        move |scope| -> Result<Vec<Sleeper<N>>, AllocError> {
            let mut threads = Vec::new(alloc);
            for sleeper in sleepers {
                let is_kept = match scope.spawn(move || sleeper.made(
                    rt, alloc, runtime, table, gate,
                )) {
                    Ok(thread) => threads.push(thread).is_ok(),
                    Err(_) => false,
                };
                if !is_kept {
                    gate.open(rt, false);
                    return Err(AllocError);
                }
            }
            gate.open(rt, true);
            thread::sleep(rt, Duration::from_millis(NAP));
            let made = seats.ask(rt, alloc, runtime, table, call, out);
            let mut woken = Vec::new(alloc);
            for thread in threads {
                woken.push(thread.join(rt)?)?;
            }
            made.and(Ok(woken))
        },
    )
}
