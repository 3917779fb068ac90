//! How many asks are waiting, for each item, for each lane, and in total.
//!
//! The counts of an item and of the lane with the same number stand side by side. Every call takes constant time. Only
//! `new` takes memory: two counts for each item or each lane, whichever are more.

ghost use Rattle.std.specs.Prelude.{◌≡◌, ℕ, ◌*◌, ◌<◌, ◌≤◌, ◌⊎◌, max, length, replicate, slice_index, IfOk, OnErr};
ghost use Rattle.wq_history.specs.declared.asking.Subject.{Subject as SubjectValue};
ghost use Rattle.wq_history.specs.Events.{ask_event, told_event};
ghost use Rattle.wq_history.specs.Counts.{AskView, ask_place};
ghost use Rattle.wq_history.specs.Judging.{with_ask, without_ask, counted};

use crate::asking::Subject;
use std::alloc::{AllocError, Allocator};
use std::marker::Model;
use wq_rows::Event;

/// The counts. Contracts see them by place, and their sum.
#[derive(Drop)]
pub struct AskCounts<A: Allocator> {
    counts: Vec<u32, A>,
    all: u32,
}

impl<A: Allocator> Model for AskCounts<A> {
    ghost use Rattle.wq_history.specs.Counts.{AskView, CountsAll};

    ghost Value = { AskView };

    ghost view = { λ c. record { counts = c.counts.items; all = c.all } };

    ghost invariant = { λ c. CountsAll (record { counts = c.counts.items; all = c.all }) };
}

/// Where the count of the asks about an item or a lane is.
fn place(subject: Subject) -> usize
    ensures { result ≡ ask_place subject }
{
    match subject {
        Subject::Item(item) => 2 * usize::from(item.get()),
        Subject::Lane(q) => 2 * usize::from(q.get()) + 1,
    }
}

impl<A: Allocator> AskCounts<A> {
    /// Counts for this many items and lanes; no ask is waiting. The only error is out of memory (20), which can't occur
    /// if there is no item and no lane.
    pub fn new(alloc: A, items: usize, lanes: usize) -> Result<Self, AllocError>
        requires items { items ≤ 65536 }
        requires lanes { lanes ≤ 65536 }
        ensures counts { IfOk result (λ c. c ≡ record { counts = replicate (2 * max items lanes) 0; all = 0 }) }
        ensures memory { OnErr result ((0 < items) ⊎ (0 < lanes)) }
    {
        let places = 2 * items.max(lanes);
        let mut counts = Vec::with_capacity(alloc, places)?;
        counts.resize(places, 0)?;
        Ok(AskCounts { counts, all: 0 })
    }

    /// How many asks about an item or a lane wait; 0 for one that doesn't exist.
    pub fn of(&self, subject: Subject) -> u32
        ensures { result ≡ slice_index self.now.counts (ask_place subject) }
    {
        match self.counts.get(place(subject)) {
            Some(count) => *count,
            None => 0,
        }
    }

    /// How many asks wait in total.
    pub fn all(&self) -> u32
        ensures { result ≡ self.now.all }
    {
        self.all
    }

    /// Counts another ask that waits.
    fn add(&mut self, subject: Subject)
        requires place { ask_place subject < length self.old.counts }
        requires few { self.old.all < 4294967295 }
        ensures { self.new ≡ with_ask subject self.old }
    {
        self.counts[place(subject)] += 1;
        self.all += 1;
    }

    /// Counts that one of the asks about an item or a lane waits no longer.
    fn take_off(&mut self, subject: Subject)
        requires { 0 < slice_index self.old.counts (ask_place subject) }
        ensures { self.new ≡ without_ask subject self.old }
    {
        self.counts[place(subject)] -= 1;
        self.all -= 1;
    }

    /// Counts the ask that waits from this event on, or that is told by it.
    #[inline(always)]
    pub fn count(&mut self, event: &Event, yes: bool)
        requires place { (x : SubjectValue) → event.now ≡ ask_event x → ask_place x < length self.old.counts }
        requires some { (x : SubjectValue) → event.now ≡ told_event x
            → 0 < slice_index self.old.counts (ask_place x) }
        requires few { self.old.all < 4294967295 }
        ensures { self.new ≡ counted self.old event.now yes }
    {
        match *event {
            Event::Ask(item) => {
                if yes {
                    self.add(Subject::Item(item));
                }
            }
            Event::AskLane(q) => {
                if yes {
                    self.add(Subject::Lane(q));
                }
            }
            Event::Told(item) => self.take_off(Subject::Item(item)),
            Event::ToldLane(q) => self.take_off(Subject::Lane(q)),
            _ => {}
        }
    }
}
