//! Rescuers and callers in threads: `run_all` of a runtime, its bodies and its
//! callers; and then `rescue` and `help`, for which nothing is left.
//!
//! It takes the time that the threads take.

ghost use Rattle.std.specs.Prelude.{◌≡◌, length};
ghost use Rattle.wq_core.specs.Wiring.{items};

use crate::closing::closes;
use crate::trial::TrialEnd;
use std::alloc::Allocator;
use std::sync::Wait;
use std::thread::Threads;
use wq_api::{CallError, Naming, Seat, WqRuntime};
use wq_groups::LaneId;
use wq_items::ItemTable;
use wq_rescuer::{Ran, RunFault, RunWhy, count_contexts, help, rescue, run_all};
use wq_script::{ScriptBody, script_bodies, script_callers};

/// Whether `rescue`, or for a helper `help`, so answers of a runtime that was destroyed.
fn is_answered<N: Naming, R: Wait, A: Allocator + Copy>(
    rt: &R,
    ample: A,
    runtime: &WqRuntime<N, A>,
    table: &ItemTable<'_, A>,
    seat: &mut Seat<N, A>,
    context: (u16, u8),
    wanted: Result<(u32, u32), CallError>,
) -> bool
    requires { items N.wiring ≡ length table.now.waits }
{
    let (q, helper) = context;
    let _items = table.len();
    let Ok(mut body) = ScriptBody::new(ample, table) else {
        return false;
    };
    let q = LaneId::new(q);
    let answered = if helper == 0 {
        rescue(rt, runtime, q, seat, &mut body)
    } else {
        help(rt, runtime, q, helper, seat, &mut body)
    };
    answered.map(|rescued| (rescued.finished, rescued.faults)) == wanted
}

/// Whether nothing is left for the rescuers of both lanes, and there is neither a helper nor a third lane.
fn is_done<N: Naming, R: Wait, A: Allocator + Copy>(
    rt: &R,
    ample: A,
    runtime: &WqRuntime<N, A>,
    table: &ItemTable<'_, A>,
    seat: &mut Seat<N, A>,
) -> bool
    requires { items N.wiring ≡ length table.now.waits }
{
    let nothing = Ok((0, 0));
    for (context, wanted) in [
        ((0, 0), nothing),
        ((1, 0), nothing),
        ((0, 1), Err(CallError::WrongLane)),
        ((2, 0), Err(CallError::WrongLane)),
    ] {
        if !is_answered(rt, ample, runtime, table, seat, context, wanted) {
            return false;
        }
    }
    true
}

/// Runs all on a runtime of two lanes, and closes it. If there is no memory for it, both bodies and both callers are
/// handed back, and the runtime is closed with the seats that were made.
pub(crate) fn serve<
    N: Naming + Send + Sync,
    R: Threads + Wait + Sync,
    A: Allocator + Copy + Send + Sync,
>(rt: &R, ample: A, heap: A, runtime: WqRuntime<N, A>, table: &ItemTable<'_, A>) -> TrialEnd
    requires { items N.wiring ≡ length table.now.waits }
{
    let Ok(bodies) = script_bodies(ample, table, count_contexts(&runtime)) else {
        return TrialEnd::Wrong;
    };
    let Ok(callers) = script_callers(ample, table.len()) else {
        return TrialEnd::Wrong;
    };
    match run_all(rt, heap, &runtime, bodies, callers) {
        Ok(
            Ran {
                mut seats,
                finished,
                faults,
                ..
            },
        ) => {
            let is_done = match seats.get_mut(0) {
                Some(seat) => is_done(rt, ample, &runtime, table, seat),
                None => false,
            };
            if closes(runtime, seats) && is_done && (finished, faults) == (2, 0) {
                TrialEnd::Answered
            } else {
                TrialEnd::Wrong
            }
        }
        Err(
            RunFault {
                seats,
                bodies,
                callers,
                why,
                ..
            },
        ) => {
            let handed_back = (bodies.len(), callers.len());
            if closes(runtime, seats) && (why, handed_back) == (RunWhy::OutOfMemory, (2, 2)) {
                TrialEnd::Refused
            } else {
                TrialEnd::Wrong
            }
        }
    }
}
