//! The work left: how many steps of rescuers and helpers can still come at most, where nothing more is queued.
//!
//! It is that of "Work" in the specs of this crate: for each unfinished entry a start, a finish, and a wait and its end
//! for each declared flush, less the steps that were made for it. `work_left` takes time in the number of contexts and
//! of pending entries. `work_after`, which goes on from an earlier answer, takes constant time. Nothing takes memory.

ghost use Rattle.std.specs.Prelude.{◌≡◌, ◌<◌, ◌≤◌, ◌+◌, ◌*◌, sum_by};
ghost use Rattle.wq_core.specs.declared.entry.Entry.{Entry};
ghost use Rattle.wq_core.specs.Wiring.{items};
ghost use Rattle.wq_core.specs.State.{lane_at, run_by};
ghost use Rattle.wq_core.specs.Rules.{Lawful, effect};
ghost use Rattle.wq_core.specs.Work.{whole_work, waits_over, running_work, lane_work, work_left, deed_work};

use crate::entry::Waiting;
use crate::machine::Core;
use crate::step::{Context, HelpStep, Step};
use std::alloc::Allocator;
use wq_groups::LaneId;
use wq_items::ItemId;

/// How many waits of an entry are over that has made this many, and that waits for this, if it waits.
fn waits_over(made: u32, waiting: Option<Waiting>) -> u32
    ensures { result ≡ waits_over made waiting }
{
    match waiting {
        None => made,
        Some(_) => made.saturating_sub(1),
    }
}

impl<A: Allocator> Core<A> {
    /// How many steps an execution of an item takes at most.
    fn whole_work(&self, item: ItemId) -> u64
        requires { item < items self.now.wiring }
        ensures work { result ≡ whole_work self.now.wiring item }
        ensures few { result ≤ 32770 }
    {
        let _items = self.items();
        2 + 2 * self.waits(item).len() as u64
    }

    /// What is left of the pending entries of a lane.
    fn pending_work(&self, q: LaneId) -> u64
        requires { q < self.now.wiring.lanes }
        ensures work { result
            ≡ sum_by (λ (e : Entry). whole_work self.now.wiring e.item) (lane_at self.now.state q).pending }
        ensures few { result ≤ 4096 * 32770 }
    {
        let _items = self.items();
        let mut work = 0;
        for entry in self.lane(q).pending() {
            work += self.whole_work(entry.item);
        }
        work
    }

    /// What is left of what a context runs.
    fn running_work(&self, context: Context) -> u64
        ensures work { result
            ≡ running_work self.now.wiring (run_by (lane_at self.now.state context.lane) context.number) }
        ensures few { result ≤ 32770 }
    {
        let Some(running) = self.running_in(context) else {
            return 0;
        };
        let made = u64::from(running.made);
        let over = u64::from(waits_over(running.made, running.waiting));
        self.whole_work(running.entry.item) - (1 + made + over)
    }

    /// What is left of what the helpers of a lane run.
    fn helping_work(&self, q: LaneId) -> u64
        ensures work { result ≡ sum_by (running_work self.now.wiring) (lane_at self.now.state q).helping }
        ensures few { result ≤ 8 * 32770 }
    {
        let count = self.helpers_of(q);
        let mut work = 0;
        for before in 0..count {
            let number = before + 1;
            work += self.running_work(Context { lane: q, number });
        }
        work
    }

    /// What is left on a lane.
    fn lane_work(&self, q: LaneId) -> u64
        requires { q < self.now.wiring.lanes }
        ensures work { result ≡ lane_work self.now.wiring (lane_at self.now.state q) }
        ensures few { result ≤ 4105 * 32770 }
    {
        self.pending_work(q) + (self.running_work(Context::rescuer(q)) + self.helping_work(q))
    }

    /// The number of starts, waits, ends of waits and finishes that can still be made
    /// at most, where nothing more is queued. It is at most that of an execution of
    /// 32,770 steps for each of 4,096 items that are queued and 4,096 that run.
    pub fn work_left(&self) -> u64
        ensures work { result ≡ work_left self.now.wiring self.now.state }
        ensures few { result ≤ 8192 * 32770 }
    {
        let mut work = 0;
        for q in 0..self.lanes() {
            work += self.lane_work(LaneId::new(q as u16));
        }
        work
    }

    /// How much less is left after what a context does: one step, or all that is left of what it finishes.
    fn deed_work(&self, context: Context, deed: HelpStep) -> u64
        ensures work { result
            ≡ deed_work self.now.wiring (lane_at self.now.state context.lane) context.number deed }
    {
        match deed {
            HelpStep::Start(_)
            | HelpStep::Wait(_)
            | HelpStep::WaitAll(_)
            | HelpStep::Over(_)
            | HelpStep::OverAll(_) => 1,
            HelpStep::Finish(_) => self.running_work(context),
        }
    }

    /// The work that is left after a lawful step, from the work before it. A queueing adds all steps of an execution,
    /// and a cancellation subtracts them. A start, a wait and the end of a wait subtract one. A finish subtracts itself
    /// and the waits that weren't made, with their ends.
    #[inline(always)]
    pub fn work_after(&self, step: &Step, work: u64) -> u64
        requires lawful { Lawful self.now.wiring self.now.state step.now }
        requires work { work ≡ work_left self.now.wiring self.now.state }
        ensures work { result ≡ work_left self.now.wiring (effect self.now.wiring self.now.state step.now) }
        ensures few { result ≤ 8192 * 32770 }
    {
        let _items = self.items();
        match *step {
            Step::Queue(item) => work + self.whole_work(item),
            Step::Cancel(item) => work - self.whole_work(item),
            Step::Start(_, _)
            | Step::Wait(_, _)
            | Step::Over(_, _)
            | Step::WaitAll(_, _)
            | Step::OverAll(_, _) => work - 1,
            Step::Finish(q, _) => work - self.running_work(Context::rescuer(q)),
            Step::Help(lane, number, deed) => work - self.deed_work(Context { lane, number }, deed),
        }
    }
}
