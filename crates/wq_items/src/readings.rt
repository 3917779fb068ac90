//! The readings of a table: what is declared once each unsure flush is decided.
//!
//! Readings are defined in "Unsure lines" in docs/FORMAT.md. A reading is a table of its own: it has the sure flushes
//! and those unsure ones that are kept, and their places are counted anew. With k places kept, making a reading takes
//!
//!   O(items + flushes + k) time and O(items + flushes) memory.

ghost use Rattle.std.specs.Prelude.{◌≡◌, ◌++◌, ◌≢◌, ℕ, false, map, filter, slice_index_or, IfOk, AllPairs};
ghost use Rattle.std.specs.List.{range_with_len};
ghost use Rattle.wq_items.specs.declared.target.Target.{Target};
ghost use Rattle.wq_items.specs.Readings.{is_among, is_marked, moved, places_before, table_reading};

use crate::table::ItemTable;
use crate::target::{ItemId, Target};
use crate::waits::Waits;
use std::alloc::{AllocError, Allocator};
use wq_buckets::PiecesBuilder;

/// For each of `count` places, whether it is one of `places`.
fn marked<A: Allocator + Copy>(
    alloc: A,
    count: u32,
    places: &[u32],
) -> Result<Vec<bool, A>, AllocError>
    ensures { IfOk result (λ marks. marks.items ≡ map (is_among places.now) (range_with_len 0 count)) }
{
    let mut marks = vec![in alloc; false; count as usize]?;
    for place in places {
        if *place < count {
            marks[*place as usize] = true;
        }
    }
    Ok(marks)
}

/// Whether this place is marked.
fn is_set(marks: &[bool], place: u32) -> bool
    ensures { result ≡ slice_index_or marks.now place false }
{
    match marks.get(place as usize) {
        Some(mark) => *mark,
        None => false,
    }
}

/// Whether a reading has this flush, if the places that it keeps are marked.
fn is_kept(marks: &[bool], target: Target) -> bool
    ensures { result ≡ is_marked marks.now target }
{
    !target.unsure || is_set(marks, target.place)
}

/// The flush at its new place, where `places` has the new place of each old one.
fn moved(places: &[u32], target: Target) -> Target
    ensures { result ≡ moved places.now target }
{
    let place = match places.get(target.place as usize) {
        Some(place) => *place,
        None => 0,
    };
    Target {
        item: target.item,
        whole: target.whole,
        unsure: false,
        place,
    }
}

/// The places of the flushes that a reading has, if the places that it keeps are marked.
fn kept_places<A: Allocator + Copy>(
    alloc: A,
    targets: &[Target],
    marks: &[bool],
) -> Result<Vec<u32, A>, AllocError>
    ensures { IfOk result (λ places. places.items
        ≡ map (λ (t : Target). t.place) (filter (is_marked marks.now) targets.now)) }
{
    let mut places = Vec::with_capacity(alloc, targets.len())?;
    for target in targets {
        if is_kept(marks, *target) {
            places.push(target.place)?;
        }
    }
    Ok(places)
}

/// For each of `count` places, how many of the places `kept`, which differ, are before it.
fn new_places<A: Allocator + Copy>(
    alloc: A,
    count: u32,
    kept: &[u32],
) -> Result<Vec<u32, A>, AllocError>
    requires { AllPairs (λ (a b : ℕ). a ≢ b) kept.now }
    ensures { IfOk result (λ places. places.items ≡ map (places_before kept.now) (range_with_len 0 count)) }
{
    let marks = marked(alloc, count, kept)?;
    let mut places = Vec::with_capacity(alloc, marks.len())?;
    let mut before = 0u32;
    for mark in marks.as_slice() {
        places.push(before)?;
        if *mark {
            before += 1;
        }
    }
    Ok(places)
}

/// Appends the flushes of an item that a reading has, at their new places, if the places that it keeps are marked.
fn push_kept<A: Allocator + Copy>(
    pieces: &mut PiecesBuilder<Target, A>,
    targets: &[Target],
    marks: &[bool],
    places: &[u32],
) -> Result<(), AllocError>
    ensures pieces { IfOk result (λ _. pieces.new.pieces ≡ pieces.old.pieces) }
    ensures next { IfOk result (λ _. pieces.new.next
        ≡ pieces.old.next ++ map (moved places.now) (filter (is_marked marks.now) targets.now)) }
{
    for target in targets {
        if is_kept(marks, *target) {
            pieces.push(moved(places, *target))?;
        }
    }
    Ok(())
}

impl<'a, A: Allocator + Copy> ItemTable<'a, A> {
    /// The table of the reading that keeps the unsure flushes at the places `kept`. Any other place is ignored.
    pub fn reading(&self, alloc: A, kept: &[u32]) -> Result<Self, AllocError>
        ensures { IfOk result (λ t. t ≡ table_reading self.now kept.now) }
    {
        let items = self.len();
        let count = self.flushes();
        let marks = marked(alloc, count, kept)?;
        let left = kept_places(alloc, self.all_waits(), marks.as_slice())?;
        let places = new_places(alloc, count, left.as_slice())?;
        let mut pieces = PiecesBuilder::with_room(alloc, left.len(), items)?;
        for i in 0..items {
            let targets = self.waits(ItemId::new(i));
            push_kept(&mut pieces, targets, marks.as_slice(), places.as_slice())?;
            pieces.end_piece()?;
        }
        self.with_waits(alloc, Waits::of(pieces.finish()), left.len() as u32)
    }
}
