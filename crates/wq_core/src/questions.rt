//! Questions about a lane: whether it can move, its next step where what runs
//! flushes as declared, and what holds a wait back.
//!
//! A lane moves by the steps of its contexts, by the rules of "Rules" in the specs of this crate: an idle rescuer
//! starts what is queued and doesn't run, what waits goes on once its wait is over, and anything else that runs can
//! finish. A helper needn't start anything, so a start of a helper isn't counted. What flushes as declared waits for
//! the targets of its item in their order, and finishes after the last one. `declared` takes constant time, `enabled`
//! takes time in the number of lanes and of helpers, and `holder` in the logarithm of the number of entries that are
//! pending on a lane. Nothing takes memory.

ghost use Rattle.std.specs.Prelude.{◌≡◌, ◌<◌, ◌↔◌, ℕ, IsTrue, IfSome, IfNone, None, Some, slice_get};
ghost use Rattle.wq_core.specs.declared.step.Step.{Step};
ghost use Rattle.wq_core.specs.Wiring.{HasRescuer, items, declared_by};
ghost use Rattle.wq_core.specs.State.{lane_at, next_of, Runs};
ghost use Rattle.wq_core.specs.Rules.{IsHeldBack, IsHolder};
ghost use Rattle.wq_core.specs.Held.{IsMachine};
ghost use Rattle.wq_core.specs.Played.{RescuerCanMove, HelperGoesOn, CanMove, HasNoDeclaredStep, IsDeclaredStep};

use crate::entry::{Entry, Running};
use crate::machine::Core;
use crate::step::{Context, Step};
use std::alloc::Allocator;
use wq_groups::LaneId;
use wq_items::{ItemId, Target};

impl<A: Allocator> Core<A> {
    /// The entry that an idle rescuer starts next. A bare lane has no rescuer, so nobody is sure to start one there.
    fn starts_next(&self, q: LaneId) -> Option<Entry>
        ensures some { IfSome result (λ e. HasRescuer self.now.wiring q
            × (next_of (lane_at self.now.state q) ≡ Some e)) }
        ensures none { IfNone result (HasRescuer self.now.wiring q → next_of (lane_at self.now.state q) ≡ None) }
    {
        if self.has_rescuer(q) {
            self.next_on(q)
        } else {
            None
        }
    }

    /// Whether the rescuer of a lane can make a step, or on a bare lane what its first context runs can go on.
    fn rescuer_can_move(&self, q: LaneId) -> bool
        ensures { IsTrue result ↔ RescuerCanMove self.now.wiring self.now.state q }
    {
        let Some(running) = self.running_on(q) else {
            return self.starts_next(q).is_some();
        };
        let Some(flush) = running.waiting else {
            return true;
        };
        !self.is_held_back(flush.whole, flush.target, flush.mark)
    }

    /// Whether a helper can go on with what it runs.
    fn helper_goes_on(&self, helper: Context) -> bool
        requires { 0 < helper.number }
        ensures { IsTrue result ↔ HelperGoesOn self.now.wiring self.now.state helper.lane helper.number }
    {
        let Some(running) = self.running_in(helper) else {
            return false;
        };
        let Some(flush) = running.waiting else {
            return true;
        };
        !self.is_held_back(flush.whole, flush.target, flush.mark)
    }

    /// Whether a helper of a lane can go on with what it runs.
    fn a_helper_goes_on(&self, q: LaneId) -> bool
        ensures { IsTrue result ↔ ((h : ℕ) × HelperGoesOn self.now.wiring self.now.state q h) }
    {
        let count = self.helpers_of(q);
        for before in 0..count {
            let number = before + 1;
            if self.helper_goes_on(Context { lane: q, number }) {
                return true;
            }
        }
        false
    }

    /// Whether a lane can make a step other than a helper's start and a start on a bare lane.
    fn can_move(&self, q: LaneId) -> bool
        ensures { IsTrue result ↔ CanMove self.now.wiring self.now.state q }
    {
        self.rescuer_can_move(q) || self.a_helper_goes_on(q)
    }

    /// An item that holds back a wait for an item or for its whole lane, with this mark: an unfinished entry of it has
    /// a number below the mark, and is waited for. It is the item that is waited for, or that of the last such entry
    /// that is pending on its lane, or of one that runs there. None only if nothing holds the wait back.
    pub fn holder(&self, whole: bool, target: ItemId, mark: u32) -> Option<ItemId>
        requires { target < items self.now.wiring }
        ensures some { IfSome result (λ i. IsHolder self.now.wiring self.now.state whole target mark i) }
        ensures item { IfSome result (λ i. i < items self.now.wiring) }
        ensures none { IfNone result (¬ IsHeldBack self.now.wiring self.now.state whole target mark) }
    {
        let _items = self.items();
        if whole {
            let last = self.lane(self.lane_of(target)).last_below(mark)?;
            Some(last.item)
        } else if self.unfinished_below(target, mark) {
            Some(target)
        } else {
            None
        }
    }

    /// The lowest lane that can make a step: a start of its rescuer, if it has one, or a wait, the end of a wait or a
    /// finish of any of its contexts. None only if no lane can.
    pub fn enabled(&self) -> Option<LaneId>
        ensures some { IfSome result (λ q. CanMove self.now.wiring self.now.state q
            × ((p : ℕ) → p < q → ¬ CanMove self.now.wiring self.now.state p)) }
        ensures none { IfNone result ((q : ℕ) → ¬ CanMove self.now.wiring self.now.state q) }
        ensures machine { IsMachine self.now }
    {
        let lanes = self.lanes() as u16;
        for number in 0..lanes {
            let q = LaneId::new(number);
            if self.can_move(q) {
                return Some(q);
            }
        }
        None
    }

    /// The target of the next wait of an item's execution that has made this many waits; none after the last.
    fn next_target(&self, item: ItemId, made: u32) -> Option<Target>
        requires { item < items self.now.wiring }
        ensures { result ≡ slice_get (declared_by self.now.wiring item) made }
    {
        self.waits(item).get(made as usize).copied()
    }

    /// The step of an idle rescuer: it starts the first pending entry whose item
    /// isn't running, if there is one. A bare lane has no such step.
    fn declared_idle(&self, q: LaneId) -> Option<Step>
        requires { (lane_at self.now.state q).running ≡ None }
        ensures some { IfSome result (λ step. IsDeclaredStep self.now.wiring self.now.state q step) }
        ensures none { IfNone result (HasNoDeclaredStep self.now.wiring self.now.state q) }
    {
        let next = self.starts_next(q)?;
        Some(Step::Start(q, next.item))
    }

    /// The step of a rescuer that runs something. If it waits, that is the end of the wait, if the wait is over.
    /// Otherwise it is the next wait, or, after the last one, the finish.
    fn declared_running(&self, q: LaneId, running: Running) -> Option<Step>
        requires machine { IsMachine self.now }
        requires runs { Runs (lane_at self.now.state q) running }
        ensures some { IfSome result (λ step. IsDeclaredStep self.now.wiring self.now.state q step) }
        ensures none { IfNone result (HasNoDeclaredStep self.now.wiring self.now.state q) }
    {
        let item = running.entry.item;
        let made = running.made;
        let Some(flush) = running.waiting else {
            return match self.next_target(item, made) {
                Some(target) => Some(Step::wait_of(target.whole, q, target.item)),
                None => Some(Step::Finish(q, item)),
            };
        };
        if self.is_held_back(flush.whole, flush.target, flush.mark) {
            None
        } else {
            Some(Step::over_of(flush.whole, q, flush.target))
        }
    }

    /// The step that the rescuer of a lane can make where what it runs flushes as declared: each execution waits for
    /// the targets of its item in their order, and finishes after the last one. None only if it can make no such
    /// step, for example where there is no such lane.
    pub fn declared(&self, q: LaneId) -> Option<Step>
        ensures some { IfSome result (λ step. IsDeclaredStep self.now.wiring self.now.state q step) }
        ensures none { IfNone result (HasNoDeclaredStep self.now.wiring self.now.state q) }
        ensures machine { IsMachine self.now }
    {
        match self.running_on(q) {
            Some(running) => self.declared_running(q, running),
            None => self.declared_idle(q),
        }
    }
}
