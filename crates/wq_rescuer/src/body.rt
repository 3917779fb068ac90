//! What runs when an item is executed.
//!
//! A body belongs to one context, a rescuer or a helper, which calls it for each item
//! of its workqueue that it executes (`work_func_t` in include/linux/workqueue.h).
//! The body counts its runs, and the context's seat is compared with these counts.

ghost use Rattle.std.specs.Prelude.{◌≡◌, ◌<◌};
ghost use Rattle.wq_rescuer.specs.Executing.{RanOnce, SameFinished};

use crate::work::Work;
use std::alloc::Allocator;
use std::sync::Wait;
use thiserror::Error;
use wq_api::Naming;
use wq_items::ItemId;

/// Why a body gave up. A fault ends its execution, which counts as finished.
#[derive(Clone, Copy, Debug, PartialEq, Eq, Error)]
#[error("the work failed with code {code}")]
pub struct BodyFault {
    /// A number of the body's own.
    pub code: u32,
}

/// What a rescuer or a helper runs.
pub trait Body {
    ghost use Rattle.std.specs.Prelude.{ℕ, List, Result};
    ghost use Rattle.wq_core.specs.Wiring.{Wiring};
    ghost use Rattle.wq_held.specs.Locked.{IsOnLane};
    ghost use Rattle.wq_rescuer.specs.declared.body.BodyFault.{BodyFault as Fault};

    // for how many items it can count the runs
    ghost width: { Self → ℕ };

    // how often an item ran
    ghost runs: { Self → ℕ → ℕ };

    // in a runtime of this wiring, a run of this item that is answered so may turn these counts of its seat into those
    ghost may: { Wiring → Self → ℕ → Result (Unit {0}) Fault → List ℕ → List ℕ → Type 0 };

    /// Runs an item once. It may take any time, and wait by the calls of `Work`, which is that of this item, on its
    /// workqueue.
    ///
    /// It counts one run of this item, whether it succeeds or gives up. What its seat counts as finished it leaves as
    /// it is, and what else the seat counts it changes as it may. What it may do then, it might before.
    fn run<N: Naming, A: Allocator, R: Wait>(
        &mut self,
        rt: &R,
        item: ItemId,
        work: &mut Work<'_, N, A>,
    ) -> Result<(), BodyFault>
        requires known { item < width self.old }
        requires few { runs self.old item < 4294967295 }
        requires of_item { work.old.item ≡ item }
        requires on_lane { IsOnLane N.wiring work.old.context.lane item }
        ensures ran { RanOnce (runs self.old) (runs self.new) item }
        ensures width { width self.new ≡ width self.old }
        ensures finished { SameFinished work.old.seat.now work.new.seat.now }
        ensures same_seat { work.new.seat.ghost_name ≡ work.old.seat.ghost_name }
        ensures may { may N.wiring self.old item result work.old.seat.now work.new.seat.now }
        ensures no_more { (i : ℕ) (answer : Result (Unit {0}) Fault) (before : List ℕ) (after : List ℕ)
            → may N.wiring self.new i answer before after → may N.wiring self.old i answer before after };

    /// How often an item ran.
    fn ran(&self, item: ItemId) -> u32
        ensures { result ≡ runs self.now item };
}
