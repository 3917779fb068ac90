//! The lock, taken, and that it was given back, as values.
//!
//! A thread that took the lock takes one turn. If that is too early, it sleeps where those are woken whom the turn
//! named, and gives the lock back meanwhile; then it takes another. Otherwise it leaves. A lock that was taken can't be
//! let go by other means. A thread that is woken while the lock is held runs into it, and sleeps again. So a thread
//! that wakes others shows that it gave the lock back. All of this takes no memory, and the time of taking the lock and
//! of giving it back.

ghost use Rattle.std.specs.Prelude.{◌≡◌, min};
ghost use Rattle.wq_held.specs.Turns.{IfSleeps, Wakes};
ghost use Rattle.wq_api.specs.declared.entered.Phase.TheVariants.{Fresh, Answered};
ghost use Rattle.wq_api.specs.Locking.{max_item_condvars, phase_after, MaySleepAt};

use crate::bells::Bell;
use crate::lock::{Turns, Watched};
use std::sync::{Mutex, MutexGuard, Wait};
use wq_held::Turn;
use wq_history::Sleepers;

/// What became of the turn that may be taken once the lock was.
#[derive(Clone, Copy)]
pub(crate) enum Phase {
    /// None was taken.
    Fresh,
    /// It was answered.
    Answered,
    /// It was too early, and named these.
    Early(Sleepers),
}

/// The lock, taken. It isn't `Drop`: only `sleep` and `leave` give it back.
pub(crate) struct Entered<'a, H> {
    held: MutexGuard<'a, H>,
    phase: Phase,
}

/// The lock was given back after an answer, by whoever has this. Nothing else makes one.
#[derive(Drop)]
pub(crate) struct Unlocked(());

/// Takes the lock.
pub(crate) fn enter<'a, H, R: Wait>(rt: &R, held: &'a Mutex<H>) -> Entered<'a, H>
    ensures { result.phase ≡ Fresh }
{
    Entered {
        held: held.lock(rt),
        phase: Phase::Fresh,
    }
}

impl<'a, H: Watched> Entered<'a, H> {
    /// Takes a turn for a call.
    #[inline(always)]
    pub(crate) fn take<S, C, T>(&mut self, own: &mut S, call: C) -> Turn<T>
    where
        H: Turns<S, C, T>,
        requires { self.old.phase ≡ Fresh }
        ensures { (old : H) × (new : H) × H.takes old own.old call result new own.new
            × Wakes H.lanes H.items H.wakes_enough old new result × IfSleeps result (λ _. own.new ≡ own.old)
            × (self.new.phase ≡ phase_after result) }
    {
        let turn = self.held.take(own, call);
        self.phase = match &turn {
            Turn::Answers(_, _) => Phase::Answered,
            Turn::Sleeps(among) => Phase::Early(*among),
        };
        turn
    }

    /// Sleeps until the bell is rung, which is that of whom the turn named, and takes the lock again.
    #[inline(always)]
    pub(crate) fn sleep<R: Wait>(self, rt: &R, bell: &Bell) -> Entered<'a, H>
        requires { MaySleepAt (min H.items max_item_condvars) self.phase bell.now.of }
        ensures { result.phase ≡ Fresh }
    {
        let Entered { held, phase: _ } = self;
        Entered {
            held: bell.condvar.wait(rt, held),
            phase: Phase::Fresh,
        }
    }

    /// Gives the lock back, once a call was answered.
    #[inline(always)]
    pub(crate) fn leave(self) -> Unlocked
        requires { self.phase ≡ Answered }
    {
        let Entered { held, phase: _ } = self;
        drop(held);
        Unlocked(())
    }
}
