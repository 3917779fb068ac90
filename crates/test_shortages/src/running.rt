//! The command `run` of a plan that has too many workqueues, and `run_cmd`, which no program calls. This takes as long
//! as all the runs together.

use crate::asked::{AnyCommand, Wanted};
use crate::memory::put_memory;
use std::alloc::{AllocError, Global};
use std::io;
use std::sync::Wait;
use std::thread::Threads;
use test_cases::{SEED, TWO};
use wq_commands::{End, Metered};
use wq_run::run_cmd;

/// What is printed of the plan of two items.
const RAN: &[u8] =
    b"workqueues 2\nitem a wq 1 queued 1 cancelled 0 finished 1\nitem b wq 0 queued 1 cancelled 0 finished 1\nfaults 0\n";

/// A chain of 257 items, whose plan has one workqueue more than can be run.
fn chain(alloc: Global) -> Result<String, AllocError> {
    let mut text = String::new(alloc);
    for i in 0..257u32 {
        writeln!(text, "item i{i}")?;
    }
    for i in 0..256u32 {
        writeln!(text, "flush i{i} i{}", i + 1)?;
    }
    Ok(text)
}

/// Runs a plan that is too large with each request refused in turn. Gives whether all runs ended as they should.
pub(crate) fn put_too_many<R: Print + AllocGlobal + Threads + Wait + Sync>(
    rt: &R,
) -> io::Result<bool> {
    let text = chain(rt.alloc())?;
    let asked = Wanted {
        order: AnyCommand::Run,
        texts: [text.as_bytes(), b"", b""],
        end: End::Refused,
        answer: b"refused 69 line 0\n",
        said: b"d: the plan has more than 256 workqueues, each of which takes a thread [refused 69, `wqplan explain 69`]\n",
    };
    put_memory(rt, "a plan of 257 workqueues", asked)
}

/// Calls `run_cmd` with ample memory and two helpers, and prints a line. Gives whether it answers as `run` does.
pub(crate) fn put_run_cmd<R: Print + AllocGlobal + Threads + Wait + Sync>(
    rt: &R,
) -> io::Result<bool> {
    let mut writer = Metered::new(Vec::new(rt.alloc()));
    let ended = run_cmd(
        rt,
        rt.alloc(),
        SEED,
        2,
        &mut Metered::new(TWO.as_bytes()),
        &mut writer,
    );
    let is_right = ended == Ok(End::Good) && writer.into_inner().as_slice() == RAN;
    println!(rt;
        "run_cmd, a plan with two helpers: {}",
        if is_right { "answered" } else { "WRONG" }
    )?;
    Ok(is_right)
}
