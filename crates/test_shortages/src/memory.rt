//! Commands with a heap that refuses one request for memory, or that request and all after it. This takes as long as
//! all the runs together.

use crate::asked::Wanted;
use crate::devices::{DeviceRun, Devices, WHOLE, run_over};
use crate::trial::{TrialEnd, put_trial};
use std::alloc::Global;
use std::io;
use std::sync::Wait;
use std::thread::Threads;
use test_cases::RefusingHeap;
use wq_commands::Fault;
use wq_run::CommandFault;

/// What came of a command. A thread may lack the memory, too.
fn judged(ran: &DeviceRun, asked: &Wanted<'_, '_>) -> TrialEnd {
    match ran.end {
        _ if ran.is_whole(asked) => TrialEnd::Answered,
        Ok(_) if ran.is_answered(asked) && ran.is_silent() => TrialEnd::Unsaid,
        Err(CommandFault::Common(Fault::Memory) | CommandFault::Thread) if ran.is_untouched() => {
            TrialEnd::Refused
        }
        _ => TrialEnd::Wrong,
    }
}

/// How a command ends with this heap. What is written and said is of another one.
fn outcome<R: Threads + Wait + Sync>(
    rt: &R,
    alloc: Global,
    heap: &RefusingHeap<Global>,
    asked: Wanted<'_, '_>,
) -> TrialEnd {
    let devices = Devices::new(alloc, asked.texts, WHOLE);
    let ran = run_over(rt, heap, asked.order, devices);
    judged(&ran, &asked)
}

/// Tries a command with each request refused in turn, alone and with all after it,
/// and prints a line. Gives whether all runs ended as they should.
pub(crate) fn put_memory<R: Print + AllocGlobal + Threads + Wait + Sync>(
    rt: &R,
    name: &str,
    asked: Wanted<'_, '_>,
) -> io::Result<bool> {
    let alloc = rt.alloc();
    put_trial(
        rt,
        asked.order.words(),
        name,
        &|heap: &RefusingHeap<Global>| { outcome(rt, alloc, heap, asked) },
    )
}
