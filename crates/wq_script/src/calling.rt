//! Scripted callers: they make the calls of a list, one after the other, up to the first that is refused.
//!
//! A caller takes the time of its calls, including what they wait for, and no memory.

ghost use Rattle.std.specs.Prelude.{◌≡◌, IfErr, OnOk};
ghost use Rattle.wq_script.specs.Acts.{CountsActs, CountsCalls, RefusedActs};

use crate::acting::Act;
use std::alloc::Allocator;
use std::marker::Model;
use std::sync::Wait;
use wq_api::{CallError, Naming, Seat, WqRuntime};
use wq_rescuer::Caller;

/// A caller that makes the calls of a list. Contracts see the list.
#[derive(Drop)]
pub struct ScriptCaller<A: Allocator> {
    acts: Vec<Act, A>,
}

impl<A: Allocator> Model for ScriptCaller<A> {
    ghost use Rattle.std.specs.Prelude.{List};
    ghost use Rattle.wq_script.specs.declared.acting.Act.{Act};

    ghost Value = { List Act };

    ghost view = { λ c. c.acts.items };
}

impl<A: Allocator> ScriptCaller<A> {
    /// Makes the caller that makes these calls, in order.
    pub fn new(acts: Vec<Act, A>) -> Self
        ensures { result ≡ acts.items }
    {
        ScriptCaller { acts }
    }

    /// Its calls, in order.
    pub fn acts(&self) -> &[Act]
        ensures { result.now ≡ self.now }
    {
        self.acts.as_slice()
    }
}

/// Makes the calls in order, until one is refused. The error is its refusal.
fn make_each<N: Naming, S: Allocator, R: Wait>(
    rt: &R,
    runtime: &WqRuntime<N, S>,
    seat: &mut Seat<N, S>,
    acts: &[Act],
) -> Result<(), CallError>
    ensures made { OnOk result (CountsActs N.wiring seat.old seat.new acts.now) }
    ensures refused { IfErr result (λ e. RefusedActs N.wiring seat.old seat.new acts.now e) }
    ensures calls { CountsCalls N.wiring acts.now result seat.old seat.new }
{
    for act in acts {
        act.make(rt, runtime, seat)?;
    }
    Ok(())
}

impl<A: Allocator> Caller for ScriptCaller<A> {
    ghost use Rattle.std.specs.Prelude.{◌≡◌};
    ghost use Rattle.wq_script.specs.Acts.{CountsCalls};

    ghost did = { λ w before after result old new. CountsCalls w before result old new × (after ≡ before) };

    /// Makes its calls in order, each as the runtime makes it. An item is queued on its own workqueue.
    ///
    /// The error is the first refusal: `HistoryFull` (60), `Closed` (61), `WrongLane` (64), if there is no such
    /// workqueue to flush, or `NoItem` (66). The calls before it are made, and those after it aren't.
    fn call<N: Naming, S: Allocator, R: Wait>(
        &mut self,
        rt: &R,
        runtime: &WqRuntime<N, S>,
        seat: &mut Seat<N, S>,
    ) -> Result<(), CallError>
        ensures made { OnOk result (CountsActs N.wiring seat.old seat.new self.old) }
        ensures refused { IfErr result (λ e. RefusedActs N.wiring seat.old seat.new self.old e) }
        ensures same { self.new ≡ self.old }
        ensures did { CountsCalls N.wiring self.old result seat.old seat.new × (self.new ≡ self.old) }
    {
        make_each(rt, runtime, seat, self.acts.as_slice())
    }
}
