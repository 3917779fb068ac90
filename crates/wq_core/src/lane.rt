//! A lane: what is queued on it, and what its contexts run.
//!
//! It changes as "Rules" in the specs of this crate says, in terms of one lane alone. `cancel`, `start` and
//! `last_below` find an entry in time in the logarithm of the number of pending entries, `start` the first one in
//! constant time. `cancel` and `start` then move those before or after it, whichever are fewer. Each other call takes
//! constant time, since a lane has few contexts. Only `new` takes memory.

ghost use Rattle.std.specs.Prelude.{◌≡◌, ◌≢◌, ◌<◌, ◌≤◌, ◌+◌, ◌^◌, ◌↔◌, Option, None, Some, length, replicate, AllPairs};
ghost use Rattle.std.specs.Prelude.{IfOk, OnErr, IfSome, IfNone, IsTrue, slice_get};
ghost use Rattle.std.specs.List.{All, list_any};
ghost use Rattle.std.specs.VecDeque.Iter.{deque_iter_rest};
ghost use Rattle.wq_core.specs.declared.entry.Entry.{Entry};
ghost use Rattle.wq_core.specs.declared.entry.Running.{Running};
ghost use Rattle.wq_core.specs.Wiring.{max_helpers};
ghost use Rattle.wq_core.specs.State.{run_by, with_run_by, runs_item, is_running, next_of, IsPendingOn, IsRunOn};
ghost use Rattle.wq_core.specs.State.{IsUnfinishedOn, IsBusy, IsBusyBelow};
ghost use Rattle.wq_core.specs.Held.{IsRising, IsRunAmong, runs_below, lane_runs_below};
ghost use Rattle.wq_core.specs.Building.{idle_of_shape};
ghost use Rattle.wq_core.specs.Rules.{with_queued, with_cancelled, with_started, with_wait, with_over, with_finished};

use crate::entry::{Entry, Running, Waiting};
use std::alloc::{AllocError, Allocator};
use std::collections::VecDeque;
use std::collections::vec_deque::Iter;
use std::marker::Model;
use wq_items::ItemId;

/// How many helpers a lane may have.
pub const MAX_HELPERS: u8 = 8;

/// What a lane is made for.
#[derive(Clone, Copy, Debug, PartialEq, Eq)]
pub struct LaneShape {
    /// How many items are on it.
    pub items: usize,
    /// Whether it runs one item at a time, and has no helpers.
    pub ordered: bool,
}

/// What is queued on a lane, the next one first, and what runs. Contracts see these, how many entries there is room
/// for, and how many helpers there are.
#[derive(Drop)]
pub struct Lane<A: Allocator> {
    pending: VecDeque<Entry, A>,
    running: Option<Running>,
    helping: Vec<Option<Running>, A>,
    ordered: bool,
}

impl<A: Allocator> Model for Lane<A> {
    ghost use Rattle.std.specs.Prelude.{length};
    ghost use Rattle.wq_core.specs.Held.{HeldLane, padded};
    ghost use Rattle.std.specs.VecDeque.{deque_capacity};

    ghost Value = { HeldLane };

    ghost view = { λ l. record {
      lane = record { pending = l.pending.items; running = l.running; helping = padded l.helping.items };
      room = deque_capacity l.pending;
      ordered = l.ordered;
      helpers = length l.helping.items;
    } };
}

/// Whether this is an entry of an item.
fn runs_item(item: ItemId, running: &Option<Running>) -> bool
    ensures { result ≡ runs_item item running.now }
{
    match running {
        Some(r) => r.entry.item == item,
        None => false,
    }
}

/// Whether one of these is an entry of an item.
fn any_runs(item: ItemId, helping: &[Option<Running>]) -> bool
    ensures { result ≡ list_any (runs_item item) helping.now }
{
    for running in helping {
        if runs_item(item, running) {
            return true;
        }
    }
    false
}

/// Whether this is an entry of an item with a number below the mark.
fn runs_below(item: ItemId, mark: u32, running: &Option<Running>) -> bool
    ensures { result ≡ runs_below item mark running.now }
{
    match running {
        Some(r) => r.entry.item == item && r.entry.number < mark,
        None => false,
    }
}

/// Whether one of these is an entry of an item with a number below the mark.
fn any_runs_below(item: ItemId, mark: u32, helping: &[Option<Running>]) -> bool
    ensures { result ≡ list_any (runs_below item mark) helping.now }
{
    for running in helping {
        if runs_below(item, mark, running) {
            return true;
        }
    }
    false
}

/// The first of these entries that has a number below the mark.
fn first_below(mark: u32, helping: &[Option<Running>]) -> Option<Entry>
    ensures some { IfSome result (λ e. IsRunAmong helping.now e × (e.number < mark)) }
    ensures none { IfNone result ((e : Entry) → IsRunAmong helping.now e → ¬ (e.number < mark)) }
{
    for running in helping {
        if let Some(r) = running {
            if r.entry.number < mark {
                return Some(r.entry);
            }
        }
    }
    None
}

/// Whether none of these runs anything.
fn are_idle(helping: &[Option<Running>]) -> bool
    ensures { IsTrue result ↔ All (λ (o : Option Running). o ≡ None) helping.now }
{
    for running in helping {
        if running.is_some() {
            return false;
        }
    }
    true
}

/// Places for what this many helpers run, which run nothing.
fn idle_places<A: Allocator + Copy>(
    alloc: A,
    helpers: u8,
) -> Result<Vec<Option<Running>, A>, AllocError>
    ensures places { IfOk result (λ places. places.items ≡ replicate helpers None) }
    ensures memory { OnErr result (0 < helpers) }
{
    let mut places = Vec::with_capacity(alloc, usize::from(helpers))?;
    places.resize(usize::from(helpers), None)?;
    Ok(places)
}

impl<A: Allocator + Copy> Lane<A> {
    /// An idle lane of this shape, with this many helpers unless it is ordered. The only error is out of memory (20),
    /// which can't occur if there are no items and no helpers.
    pub fn new(alloc: A, shape: LaneShape, helpers: u8) -> Result<Self, AllocError>
        requires { helpers ≤ max_helpers }
        ensures lane { IfOk result (λ l. l ≡ idle_of_shape helpers shape) }
        ensures memory { OnErr result (0 < shape.items + helpers) }
    {
        let count = if shape.ordered { 0 } else { helpers };
        let pending = VecDeque::with_capacity(alloc, shape.items)?;
        let helping = idle_places(alloc, count)?;
        Ok(Lane {
            pending,
            running: None,
            helping,
            ordered: shape.ordered,
        })
    }
}

impl<A: Allocator> Lane<A> {
    /// Whether nothing is queued and nothing runs.
    pub fn is_idle(&self) -> bool
        ensures { IsTrue result ↔ (¬ IsBusy self.now.lane) }
    {
        if self.first().is_some() {
            return false;
        }
        if self.running.is_some() {
            return false;
        }
        are_idle(self.helping.as_slice())
    }

    /// Whether it runs one item at a time, and has no helpers.
    pub fn is_ordered(&self) -> bool
        ensures { result ≡ self.now.ordered }
    {
        self.ordered
    }

    /// What the rescuer runs.
    pub fn running(&self) -> Option<Running>
        ensures { result ≡ self.now.lane.running }
    {
        self.running
    }

    /// What a context runs: the rescuer, 0, or a helper by its number, from 1.
    pub fn run_by(&self, context: u8) -> Option<Running>
        ensures { result ≡ run_by self.now.lane context }
    {
        if context == 0 {
            self.running
        } else {
            *self.helping.get(usize::from(context) - 1)?
        }
    }

    /// Whether a context runs an entry of an item.
    pub(crate) fn is_running(&self, item: ItemId) -> bool
        ensures { result ≡ is_running self.now.lane item }
    {
        runs_item(item, &self.running) || any_runs(item, self.helping.as_slice())
    }

    /// The first pending entry.
    pub fn first(&self) -> Option<Entry>
        ensures { result ≡ slice_get self.now.lane.pending 0 }
    {
        self.pending.front().copied()
    }

    /// The entry that is started next: the first pending one whose item isn't running.
    pub fn next(&self) -> Option<Entry>
        ensures { result ≡ next_of self.now.lane }
    {
        for entry in self.pending.iter() {
            if !self.is_running(entry.item) {
                return Some(*entry);
            }
        }
        None
    }

    /// The pending entries, the first one first.
    pub fn pending(&self) -> Iter<'_, Entry>
        ensures { deque_iter_rest result ≡ self.now.lane.pending }
    {
        self.pending.iter()
    }

    /// Whether a context runs an entry of an item with a number below the mark.
    pub(crate) fn runs_below(&self, item: ItemId, mark: u32) -> bool
        ensures { result ≡ lane_runs_below item mark self.now.lane }
    {
        runs_below(item, mark, &self.running) || any_runs_below(item, mark, self.helping.as_slice())
    }

    /// What runs with a number below the mark: what the rescuer runs, or else what the first such helper runs.
    fn running_below(&self, mark: u32) -> Option<Entry>
        ensures some { IfSome result (λ e. IsRunOn self.now.lane e × (e.number < mark)) }
        ensures none { IfNone result ((e : Entry) → IsRunOn self.now.lane e → ¬ (e.number < mark)) }
    {
        if let Some(r) = self.running {
            if r.entry.number < mark {
                return Some(r.entry);
            }
        }
        first_below(mark, self.helping.as_slice())
    }

    /// Whether an unfinished entry has a number below the mark. The numbers of the
    /// pending ones rise, so the first one tells.
    pub(crate) fn is_busy_below(&self, mark: u32) -> bool
        requires { IsRising self.now.lane.pending }
        ensures { IsTrue result ↔ IsBusyBelow self.now.lane mark }
    {
        if let Some(first) = self.first() {
            if first.number < mark {
                return true;
            }
        }
        self.running_below(mark).is_some()
    }

    /// The last pending entry with a number below the mark, or one that runs if none has one. None if no
    /// unfinished entry has a number below the mark.
    pub(crate) fn last_below(&self, mark: u32) -> Option<Entry>
        requires { IsRising self.now.lane.pending }
        ensures some { IfSome result (λ e. IsUnfinishedOn self.now.lane e × (e.number < mark)) }
        ensures none { IfNone result (¬ IsBusyBelow self.now.lane mark) }
    {
        let below = self.pending.partition_point(|e| e.number < mark);
        if below > 0 {
            return Some(self.pending[below - 1]);
        }
        self.running_below(mark)
    }

    /// Queues an entry, as the last one.
    pub fn queue(&mut self, entry: Entry)
        requires { length self.old.lane.pending < self.old.room }
        ensures lane { self.new.lane ≡ with_queued entry self.old.lane }
        ensures room { self.new.room ≡ self.old.room }
        ensures ordered { self.new.ordered ≡ self.old.ordered }
        ensures helpers { self.new.helpers ≡ self.old.helpers }
    {
        self.pending.push_back_reserved(entry);
    }

    /// The place of a pending entry. It is found by its number, since numbers rise.
    fn place_of(&self, entry: &Entry) -> usize
        requires pending { IsPendingOn self.now.lane entry.now }
        requires rising { IsRising self.now.lane.pending }
        ensures { slice_get self.now.lane.pending result ≡ Some entry.now }
    {
        if let Some(first) = self.first() {
            if first.number == entry.number {
                return 0;
            }
        }
        self.pending.partition_point(|e| e.number < entry.number)
    }

    /// Removes a pending entry, the only one of its item.
    pub(crate) fn cancel(&mut self, entry: &Entry)
        requires pending { IsPendingOn self.old.lane entry.now }
        requires once { AllPairs (λ (e f : Entry). e.item ≢ f.item) self.old.lane.pending }
        requires rising { IsRising self.old.lane.pending }
        ensures lane { self.new.lane ≡ with_cancelled entry.now.item self.old.lane }
        ensures room { self.new.room ≡ self.old.room }
        ensures ordered { self.new.ordered ≡ self.old.ordered }
        ensures helpers { self.new.helpers ≡ self.old.helpers }
    {
        let at = self.place_of(entry);
        self.pending.remove(at);
    }

    /// Makes a context run this, or nothing.
    fn set(&mut self, context: u8, running: Option<Running>)
        requires { context ≤ self.old.helpers }
        ensures lane { self.new.lane ≡ with_run_by self.old.lane context running }
        ensures room { self.new.room ≡ self.old.room }
        ensures ordered { self.new.ordered ≡ self.old.ordered }
        ensures helpers { self.new.helpers ≡ self.old.helpers }
    {
        if context == 0 {
            self.running = running;
        } else {
            self.helping[usize::from(context) - 1] = running;
        }
    }

    /// Starts a pending entry, the only one of its item, in a context.
    pub(crate) fn start(&mut self, context: u8, entry: Entry)
        requires context { context ≤ self.old.helpers }
        requires pending { IsPendingOn self.old.lane entry }
        requires once { AllPairs (λ (e f : Entry). e.item ≢ f.item) self.old.lane.pending }
        requires rising { IsRising self.old.lane.pending }
        ensures lane { self.new.lane ≡ with_started context entry.item self.old.lane }
        ensures room { self.new.room ≡ self.old.room }
        ensures ordered { self.new.ordered ≡ self.old.ordered }
        ensures helpers { self.new.helpers ≡ self.old.helpers }
    {
        self.cancel(&entry);
        let begun = Running {
            entry,
            made: 0,
            waiting: None,
        };
        self.set(context, Some(begun));
    }

    /// Makes what a context runs begin to wait for an item, or for the whole lane of the item.
    pub fn wait(&mut self, context: u8, whole: bool, target: ItemId, mark: u32)
        requires context { context ≤ self.old.helpers }
        requires made { IfSome (run_by self.old.lane context) (λ r. r.made + 1 < 2 ^ 32) }
        ensures lane { self.new.lane ≡ with_wait context whole target mark self.old.lane }
        ensures room { self.new.room ≡ self.old.room }
        ensures ordered { self.new.ordered ≡ self.old.ordered }
        ensures helpers { self.new.helpers ≡ self.old.helpers }
    {
        let waits = self.run_by(context).map(|r| Running {
            entry: r.entry,
            made: r.made + 1,
            waiting: Some(Waiting {
                target,
                whole,
                mark,
            }),
        });
        self.set(context, waits);
    }

    /// Ends the wait of what a context runs.
    pub fn over(&mut self, context: u8)
        requires { context ≤ self.old.helpers }
        ensures lane { self.new.lane ≡ with_over context self.old.lane }
        ensures room { self.new.room ≡ self.old.room }
        ensures ordered { self.new.ordered ≡ self.old.ordered }
        ensures helpers { self.new.helpers ≡ self.old.helpers }
    {
        let awake = self.run_by(context).map(|r| Running {
            entry: r.entry,
            made: r.made,
            waiting: None,
        });
        self.set(context, awake);
    }

    /// Finishes what a context runs.
    pub fn finish(&mut self, context: u8)
        requires { context ≤ self.old.helpers }
        ensures lane { self.new.lane ≡ with_finished context self.old.lane }
        ensures room { self.new.room ≡ self.old.room }
        ensures ordered { self.new.ordered ≡ self.old.ordered }
        ensures helpers { self.new.helpers ≡ self.old.helpers }
    {
        self.set(context, None);
    }
}
