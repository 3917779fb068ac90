//! Callers of the runtime: what the thread of one is given, and what it hands back.
//!
//! The thread is started with a promise of what it hands back: that this very caller did what it says of its calls.

ghost use Rattle.std.specs.Prelude.{◌≡◌};
ghost use Rattle.wq_rescuer.specs.Executing.{no_counts};

use std::alloc::Allocator;
use std::snapshot::Snapshot;
use std::sync::Wait;
use std::thread::Promise;
use wq_api::{CallError, Naming, Seat, WqRuntime};

/// A caller of a runtime, in a thread of its own.
pub trait Caller {
    ghost use Rattle.std.specs.Prelude.{ℕ, List, Result};
    ghost use Rattle.wq_core.specs.Wiring.{Wiring};
    ghost use Rattle.wq_history.specs.declared.fault.CallError.{CallError as Refusal};

    // in a runtime of this wiring, calls with this result that this caller made, and what it was afterwards; they
    // turned these counts of its seat into those
    ghost did: { Wiring → Self → Self → Result (Unit {0}) Refusal → List ℕ → List ℕ → Type 0 };

    /// Makes the calls. The error is the first refusal that the caller doesn't handle.
    fn call<N: Naming, A: Allocator, R: Wait>(
        &mut self,
        rt: &R,
        runtime: &WqRuntime<N, A>,
        seat: &mut Seat<N, A>,
    ) -> Result<(), CallError>
        ensures did { did N.wiring self.old self.new result seat.old seat.new };
}

/// A caller that is to make its calls, with a seat that has no counts.
#[derive(Drop)]
pub(crate) struct CallerJob<N: Naming, A: Allocator, C: Caller + Drop> {
    pub(crate) seat: Seat<N, A>,
    pub(crate) caller: C,
    ghost fresh: { seat ≡ no_counts N.wiring },
}

/// A caller that has made its calls.
#[derive(Drop)]
pub(crate) struct CallerEnd<N: Naming, A: Allocator, C: Caller + Drop> {
    pub(crate) seat: Seat<N, A>,
    pub(crate) caller: C,
    pub(crate) result: Result<(), CallError>,
}

/// What is promised of the end of a caller: that it is the end of this one.
#[derive(Drop)]
pub(crate) struct EndOfCaller<C: Caller + Drop>(pub(crate) Snapshot<C>);

impl<N: Naming, A: Allocator, C: Caller + Drop> Promise<CallerEnd<N, A, C>> for EndOfCaller<C> {
    ghost use Rattle.wq_rescuer.specs.Executing.{no_counts};

    ghost kept_by = { λ p end. C.did N.wiring p.0.value end.caller end.result (no_counts N.wiring) end.seat };
}

impl<N: Naming, A: Allocator, C: Caller + Drop> CallerJob<N, A, C> {
    /// A caller and its seat.
    pub(crate) fn new(seat: Seat<N, A>, caller: C) -> Self
        requires { seat ≡ no_counts N.wiring }
        ensures caller { result.caller ≡ caller }
    {
        CallerJob { seat, caller }
    }

    /// Makes the calls.
    pub(crate) fn make_calls<R: Wait>(self, rt: &R, runtime: &WqRuntime<N, A>) -> CallerEnd<N, A, C>
        ensures { C.did N.wiring self.caller result.caller result.result (no_counts N.wiring) result.seat }
    {
        let CallerJob {
            mut seat,
            mut caller,
        } = self;
        let result = caller.call(rt, runtime, &mut seat);
        CallerEnd {
            seat,
            caller,
            result,
        }
    }
}
