//! Each command on the largest declaration of examples/. With enough memory it answers and says what it should. Its
//! answer is the certificate of the commands after it. This takes as long as all the runs together.

use crate::asked::{AnyCommand, Wanted};
use crate::devices::answered;
use crate::memory::put_memory;
use std::io;
use std::sync::Wait;
use std::thread::Threads;
use test_cases::{LARGEST, LARGEST_LANES, LARGEST_ON_ONE, PlainCommand};

/// Tries a command on these texts: the largest declaration, and two more. Gives its
/// answer, if all runs ended as they should.
fn put_largest<'t, R: Print + AllocGlobal + Threads + Wait + Sync>(
    rt: &R,
    order: AnyCommand,
    name: &str,
    first: &'t [u8],
    second: &'t [u8],
    third: &'t [u8],
) -> io::Result<Option<Vec<u8>>> {
    let texts = [first, second, third];
    let Ok((end, answer, said)) = answered(rt, rt.alloc(), order, texts) else {
        return Ok(None);
    };
    let asked = Wanted {
        order,
        texts,
        end,
        answer: &answer,
        said: &said,
    };
    let is_right = put_memory(rt, name, asked)?;
    Ok(if is_right { Some(answer) } else { None })
}

/// Tries a command on the largest declaration and another text. Gives whether all runs ended as they should.
fn put_with<R: Print + AllocGlobal + Threads + Wait + Sync>(
    rt: &R,
    command: PlainCommand,
    name: &str,
    second: &[u8],
) -> io::Result<bool> {
    let answer = put_largest(
        rt,
        AnyCommand::Of(command),
        name,
        LARGEST.as_bytes(),
        second,
        b"",
    )?;
    Ok(answer.is_some())
}

/// Tries the commands that read an assignment. Gives whether all runs ended as they should.
fn put_assigned<R: Print + AllocGlobal + Threads + Wait + Sync>(
    rt: &R,
    name: &str,
    lanes: &[u8],
) -> io::Result<bool> {
    let deadlock = put_with(rt, PlainCommand::Deadlock, name, lanes)?;
    let hang = put_with(rt, PlainCommand::Hang, name, lanes)?;
    let repair = put_with(rt, PlainCommand::Repair, name, lanes)?;
    let circles = put_with(rt, PlainCommand::Circles, name, lanes)?;
    let dot = put_with(rt, PlainCommand::Dot, name, lanes)?;
    Ok(deadlock && hang && repair && circles && dot)
}

/// Checks the plan. Gives whether all runs ended as they should.
fn put_plan<R: Print + AllocGlobal + Threads + Wait + Sync>(rt: &R) -> io::Result<bool> {
    let plan = AnyCommand::Of(PlainCommand::Plan);
    let Some(plan) = put_largest(rt, plan, "xfs", LARGEST.as_bytes(), b"", b"")? else {
        return Ok(false);
    };
    put_with(rt, PlainCommand::Check, "xfs and its plan", &plan)
}

/// Makes the run by which all items on one workqueue hang. Gives whether all runs ended as they should.
fn put_hanging<R: Print + AllocGlobal + Threads + Wait + Sync>(rt: &R) -> io::Result<bool> {
    let (one, deadlock) = (
        LARGEST_ON_ONE.as_bytes(),
        AnyCommand::Of(PlainCommand::Deadlock),
    );
    let Some(hangs) = put_largest(
        rt,
        deadlock,
        "xfs on one workqueue",
        LARGEST.as_bytes(),
        one,
        b"",
    )?
    else {
        return Ok(false);
    };
    let replay = AnyCommand::Of(PlainCommand::Replay);
    let answer = put_largest(
        rt,
        replay,
        "xfs and its run on one workqueue",
        LARGEST.as_bytes(),
        one,
        &hangs,
    )?;
    Ok(answer.is_some())
}

/// Runs the plan. Gives whether all runs ended as they should.
fn put_run<R: Print + AllocGlobal + Threads + Wait + Sync>(rt: &R) -> io::Result<bool> {
    let answer = put_largest(rt, AnyCommand::Run, "xfs", LARGEST.as_bytes(), b"", b"")?;
    Ok(answer.is_some())
}

/// Tries each command. Gives whether all runs ended as they should.
pub(crate) fn put_all_largest<R: Print + AllocGlobal + Threads + Wait + Sync>(
    rt: &R,
) -> io::Result<bool> {
    let one = LARGEST_ON_ONE.as_bytes();
    let plan = put_plan(rt)?;
    let hanging = put_hanging(rt)?;
    let assigned = put_assigned(rt, "xfs and its workqueues", LARGEST_LANES.as_bytes())?;
    let repair = put_with(rt, PlainCommand::Repair, "xfs on one workqueue", one)?;
    let circles = put_with(rt, PlainCommand::Circles, "xfs on one workqueue", one)?;
    let dot = put_with(rt, PlainCommand::Dot, "xfs on one workqueue", one)?;
    let own_circles = put_with(rt, PlainCommand::OwnCircles, "xfs", b"")?;
    let own_dot = put_with(rt, PlainCommand::OwnDot, "xfs", b"")?;
    let run = put_run(rt)?;
    Ok(plan && hanging && assigned && repair && circles && dot && own_circles && own_dot && run)
}
