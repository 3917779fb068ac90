//! The lock of a runtime, and the threads that sleep until what it protects has changed.
//!
//! Nothing else in this crate takes the lock. `call` takes it, hands over the call, and wakes the sleepers that the
//! answer names; if the call is too early, its caller sleeps in the group that it names. `Lock` knows of what it
//! protects that it takes turns, and of a call that it can be copied. So it hands over just the call that it was
//! handed. No caller sleeps with the lock held.

ghost use Rattle.std.specs.Prelude.{◌≡◌, ℕ, min, vec_len, Result, Ok, Err, IfOk, IfErr};
ghost use Rattle.wq_history.specs.declared.sleepers.Wake.{Wake};
ghost use Rattle.wq_held.specs.declared.turn.Turn.TheVariants.{Answers};
ghost use Rattle.wq_api.specs.Locking.{max_item_condvars, AreWoken};

use crate::condvars::{Condvars, Woken};
use crate::entered::enter;
use std::alloc::Allocator;
use std::sync::{Mutex, Wait};
use wq_held::Turn;

/// What a lock protects, as callers that sleep see it.
pub(crate) trait Watched {
    ghost use Rattle.std.specs.Prelude.{ℕ};
    ghost use Rattle.wq_history.specs.declared.sleepers.Wake.{Wake};

    // how many lanes there are, on which somebody may sleep
    ghost lanes: { ℕ };

    // how many items there are, for whose entries a caller may wait
    ghost items: { ℕ };

    // nothing has happened yet
    ghost is_fresh: { Self → Type 0 };

    // by what has happened, enough are woken
    ghost wakes_enough: { Self → Self → Wake → Type 0 };
}

/// What takes turns under a lock, for calls of one kind, with something of the caller's own.
pub(crate) trait Turns<S, C, T>: Watched {
    ghost use Rattle.wq_held.specs.declared.turn.Turn.{Turn};
    ghost use Rattle.wq_held.specs.Turns.{IfSleeps, Wakes};

    // a call came to this: what is protected, and what is the caller's own, before and after
    ghost takes: { Self → S → C → Turn T → Self → S → Type 0 };

    /// Takes a turn for a call.
    fn take(&mut self, own: &mut S, call: C) -> Turn<T>
        ensures takes { takes self.old own.old call result self.new own.new }
        ensures wakes { Wakes Self.lanes Self.items Self.wakes_enough self.old self.new result }
        ensures sleeps { IfSleeps result (λ _. own.new ≡ own.old) };
}

/// What a lock protects that may come to an end, with something of the caller's own.
pub(crate) trait Ends<S, T, E> {
    ghost use Rattle.wq_api.specs.Locking.{EndsSo};

    // it ended, and this is what is left of it
    ghost ends: { Self → S → T → Type 0 };

    // it can't end yet, for this cause
    ghost refuses: { Self → S → E → Type 0 };

    /// Ends, or gives both back as they were, with the cause.
    fn end(self, own: S) -> Result<T, (Self, S, E)>
        ensures { EndsSo ends refuses self own result };
}

/// Something under a lock, and the condition variables of the threads that sleep until it has changed.
#[derive(Drop)]
pub(crate) struct Lock<H: Watched, A: Allocator> {
    held: Mutex<H>,
    condvars: Condvars<A>,
}

impl<H: Watched, A: Allocator> Lock<H, A> {
    /// Puts something under a lock to which nothing has happened yet, with these condition variables.
    pub(crate) fn new(held: H, condvars: Condvars<A>) -> Self
        requires { H.is_fresh held }
        ensures { result.condvars ≡ condvars }
    {
        Lock {
            held: Mutex::new(held),
            condvars,
        }
    }

    /// Takes the lock, hands over the call, releases the lock, and wakes whom the answer names, as it shows. If the
    /// call is too early, its caller sleeps among those whom it names, and the call is handed over again when one of
    /// them is woken. There is a condition variable for each group of sleepers, which groups that wait for items may
    /// share.
    pub(crate) fn call<R: Wait, S, C: Copy, T>(&self, rt: &R, own: &mut S, call: C) -> (T, Woken)
    where
        H: Turns<S, C, T>,
        requires { (vec_len self.now.condvars.lanes ≡ H.lanes)
            × (vec_len self.now.condvars.items ≡ min H.items max_item_condvars) }
        ensures { (old : H) × (new : H) × (wake : Wake) × H.takes old own.old call (Answers result.0 wake) new own.new
            × AreWoken (vec_len self.now.condvars.lanes) (vec_len self.now.condvars.items) wake result.1 }
    {
        let mut entered = enter(rt, &self.held);
        for _ in rt.forever() {
            match entered.take(own, call) {
                Turn::Answers(answer, wake) => {
                    let woken = self.condvars.wake(entered.leave(), &wake);
                    return (answer, woken);
                }
                Turn::Sleeps(among) => {
                    entered = entered.sleep(rt, self.condvars.of(among));
                }
            }
        }
        unreachable!()
    }

    /// Ends what the lock protects, with what is the caller's own. If it can't end, what is the caller's own comes
    /// back as it was, and the lock with the same condition variables.
    pub(crate) fn end<S, T, E>(self, own: S) -> Result<T, (Self, S, E)>
    where
        H: Ends<S, T, E>,
        ensures ended { IfOk result (λ left. (held : H) × H.ends held own left) }
        ensures refused { IfErr result (λ e. ((held : H) × H.refuses held own e.2)
            × (e.0.condvars ≡ self.condvars) × (e.1 ≡ own)) }
    {
        let Lock { held, condvars } = self;
        match held.into_inner().end(own) {
            Ok(left) => Ok(left),
            Err((held, own, why)) => Err((
                Lock {
                    held: Mutex::new(held),
                    condvars,
                },
                own,
                why,
            )),
        }
    }
}
