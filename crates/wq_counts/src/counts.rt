//! Counts of rows by item or lane, kind and answer, and in total.
//!
//! Counts are kept in slots of 22: for each kind two, no before yes. A slot has the counts of the item with its number,
//! for each of the 9 kinds of an item, and then those of the lane with its number, for each of the 2 kinds of a lane.
//! So there are as many slots as items or lanes, whichever are more. `new`, `add` and `is_same` take time linear in the
//! number of slots, each other call constant time. Only `new` allocates: 8 bytes for each count.

ghost use Rattle.std.specs.Prelude.{◌≡◌, ℕ, ◌+◌, ◌*◌, ◌<◌, ◌≤◌, ◌↔◌, IsTrue, length, replicate, sum, slice_index};
ghost use Rattle.std.specs.Prelude.{if◌then◌else◌, IfOk, OnErr, true};
ghost use Rattle.wq_counts.specs.declared.kind.Kind.TheVariants.{Queue, Cancel, Finish};
ghost use Rattle.wq_counts.specs.Counting.{counts_each, place as place_of, lane_place as lane_place_of};
ghost use Rattle.wq_counts.specs.Counting.{help_place as help_place_of, counted_place as counted_place_of, slot_in};
ghost use Rattle.wq_counts.specs.Counting.{made, asked_lane, told_lane, raised_at, noted_as, is_counted};

use crate::kind::{Kind, LaneKind};
use std::alloc::{AllocError, Allocator};
use std::marker::Model;
use wq_core::HelpStep;
use wq_groups::LaneId;
use wq_items::ItemId;
use wq_rows::Event;

/// How many counts a slot has: one for each kind, of an item or of a lane, and answer.
pub const COUNTS_EACH: usize = 22;

/// The counts. Contracts see them as a list, 22 for each slot in turn.
#[derive(Drop)]
pub struct Counts<A: Allocator> {
    counts: Vec<u64, A>,
    total: u64,
}

impl<A: Allocator> Model for Counts<A> {
    ghost use Rattle.std.specs.Prelude.{◌≡◌, ℕ, List, sum};

    ghost Value = { List ℕ };

    ghost view = { λ c. c.counts.items };

    ghost invariant = { λ c. sum c.counts.items ≡ c.total };
}

/// The index of the count of an item, a kind and an answer.
fn place(item: ItemId, kind: Kind, yes: bool) -> usize
    ensures { result ≡ place_of item kind yes }
{
    COUNTS_EACH * usize::from(item.get()) + 2 * kind.place() + usize::from(yes)
}

/// The index of the count of a lane, a kind and an answer.
fn lane_place(lane: LaneId, kind: LaneKind, yes: bool) -> usize
    ensures { result ≡ lane_place_of lane kind yes }
{
    COUNTS_EACH * usize::from(lane.get()) + 2 * kind.place() + usize::from(yes)
}

/// The index of the count of a helper's step and an answer: that of the rescuer's step; `None` for a start.
#[inline(always)]
fn help_place(step: &HelpStep, yes: bool) -> Option<usize>
    ensures { result ≡ help_place_of step.now yes }
{
    let kind = Kind::of_help(step)?;
    Some(place(step.item(), kind, yes))
}

/// The index of the count of an event and an answer; `None` for a start.
#[inline(always)]
fn counted_place(event: &Event, yes: bool) -> Option<usize>
    ensures { result ≡ counted_place_of event.now yes }
{
    match *event {
        Event::Queue(item) => Some(place(item, Kind::Queue, yes)),
        Event::Cancel(item) => Some(place(item, Kind::Cancel, yes)),
        Event::Start(..) => None,
        Event::Wait(_, target) => Some(place(target, Kind::Wait, yes)),
        Event::Over(_, target) => Some(place(target, Kind::Over, yes)),
        Event::Finish(_, item) => Some(place(item, Kind::Finish, yes)),
        Event::Ask(item) => Some(place(item, Kind::Ask, yes)),
        Event::Told(item) => Some(place(item, Kind::Told, yes)),
        Event::WaitAll(_, target) => Some(place(target, Kind::WaitAll, yes)),
        Event::OverAll(_, target) => Some(place(target, Kind::OverAll, yes)),
        Event::AskLane(lane) => Some(lane_place(lane, LaneKind::Ask, yes)),
        Event::ToldLane(lane) => Some(lane_place(lane, LaneKind::Told, yes)),
        Event::Help(_, _, step) => help_place(&step, yes),
    }
}

/// Adds to each number the one at the same index of the other slice.
fn add_each(counts: &mut [u64], more: &[u64])
    requires items { length counts.old ≡ length more.now }
    requires few { sum counts.old + sum more.now < 18446744073709551616 }
    ensures each { (p : ℕ) → slice_index counts.new p ≡ slice_index counts.old p + slice_index more.now p }
    ensures total { sum counts.new ≡ sum counts.old + sum more.now }
{
    for (i, count) in counts.iter_mut().enumerate() {
        *count += more[i];
    }
}

impl<A: Allocator> Counts<A> {
    /// Counts of this many slots, all 0. The only error is out of memory, which can't occur if there is no slot.
    pub fn new(alloc: A, slots: usize) -> Result<Self, AllocError>
        ensures counts { IfOk result (λ c. c ≡ replicate (counts_each * slots) 0) }
        ensures memory { OnErr result (0 < slots) }
    {
        let count = slots.checked_mul(COUNTS_EACH).ok_or(AllocError)?;
        let mut counts = Vec::with_capacity(alloc, count)?;
        counts.resize(count, 0)?;
        Ok(Counts { counts, total: 0 })
    }

    /// The count at an index; 0 if there is no such index.
    fn at(&self, place: usize) -> u64
        ensures { result ≡ slice_index self.now place }
    {
        match self.counts.get(place) {
            Some(count) => *count,
            None => 0,
        }
    }

    /// How many rows of an item and a kind have this answer; 0 for an item that doesn't exist.
    pub fn made(&self, item: ItemId, kind: Kind, yes: bool) -> u64
        ensures { result ≡ made self.now item kind yes }
    {
        self.at(place(item, kind, yes))
    }

    /// How many asks about a lane have this answer; 0 for a lane that doesn't exist.
    pub fn asked_lane(&self, lane: LaneId, yes: bool) -> u64
        ensures { result ≡ asked_lane self.now lane yes }
    {
        self.at(lane_place(lane, LaneKind::Ask, yes))
    }

    /// How many callers that waited for a lane were told that their wait is over; 0 for a lane that doesn't exist.
    pub fn told_lane(&self, lane: LaneId) -> u64
        ensures { result ≡ told_lane self.now lane }
    {
        self.at(lane_place(lane, LaneKind::Told, true))
    }

    /// How many rows there are in total.
    pub fn total(&self) -> u64
        ensures { result ≡ sum self.now }
    {
        self.total
    }

    /// Counts another row at an index.
    #[inline(always)]
    fn raise_at(&mut self, place: usize)
        requires place { place < length self.old }
        requires few { sum self.old < 18446744073709551615 }
        ensures counts { self.new ≡ raised_at self.old place }
        ensures total { sum self.new ≡ sum self.old + 1 }
        ensures length { length self.new ≡ length self.old }
    {
        self.counts[place] += 1;
        self.total += 1;
    }

    /// Counts another row of an event, with an answer. A start raises no count.
    #[inline(always)]
    pub fn note_as(&mut self, event: &Event, yes: bool)
        requires slot { counts_each * slot_in event.now + counts_each ≤ length self.old }
        requires few { sum self.old < 18446744073709551615 }
        ensures counts { self.new ≡ noted_as self.old event.now yes }
        ensures total { sum self.new ≡ sum self.old + (if is_counted event.now then 1 else 0) }
        ensures length { length self.new ≡ length self.old }
    {
        if let Some(place) = counted_place(event, yes) {
            self.raise_at(place);
        }
    }

    /// Adds the counts of other rows of the same items and lanes.
    pub fn add(&mut self, other: &Self)
        requires items { length self.old ≡ length other.now }
        requires few { sum self.old + sum other.now < 18446744073709551616 }
        ensures each { (p : ℕ) → slice_index self.new p ≡ slice_index self.old p + slice_index other.now p }
        ensures total { sum self.new ≡ sum self.old + sum other.now }
        ensures length { length self.new ≡ length self.old }
    {
        add_each(self.counts.as_mut_slice(), other.counts.as_slice());
        self.total += other.total;
    }

    /// Whether both have the same number of slots and the same counts.
    pub fn is_same(&self, other: &Self) -> bool
        ensures { IsTrue result ↔ (self.now ≡ other.now) }
    {
        self.counts.as_slice() == other.counts.as_slice()
    }

    /// How many queueings of an item were accepted.
    pub fn queued(&self, item: ItemId) -> u64
        ensures { result ≡ made self.now item Queue true }
    {
        self.made(item, Kind::Queue, true)
    }

    /// How many entries of an item were removed.
    pub fn cancelled(&self, item: ItemId) -> u64
        ensures { result ≡ made self.now item Cancel true }
    {
        self.made(item, Kind::Cancel, true)
    }

    /// How many entries of an item were finished.
    pub fn finished(&self, item: ItemId) -> u64
        ensures { result ≡ made self.now item Finish true }
    {
        self.made(item, Kind::Finish, true)
    }
}
