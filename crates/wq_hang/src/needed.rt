//! Which unsure flushes a walk needs.
//!
//! It takes time and memory in the number of hops and places, and none where no flush is unsure.

ghost use Rattle.std.specs.Prelude.{◌≡◌, ◌<◌, ◌≤◌, ℕ, map, filter, false, IfOk, length, slice_index_or};
ghost use Rattle.std.specs.List.{list_any, range_with_len};
ghost use Rattle.wq_items.specs.Readings.{is_among};
ghost use Rattle.wq_hang.specs.declared.hop.Hop.{Hop};
ghost use Rattle.wq_hang.specs.Walk.{needs, unsure_hops};

use crate::hop::Hop;
use std::alloc::{AllocError, Allocator};

/// How many flushes a declaration may have.
const PLACES: usize = 16384;

/// Whether one of these hops waits by an unsure flush.
fn some_unsure(hops: &[Hop]) -> bool
    ensures { result ≡ list_any (λ (h : Hop). h.flush.unsure) hops.now }
{
    hops.iter().any(|hop| hop.flush.unsure)
}

/// For each of so many places whether one of these hops waits by the unsure flush there.
fn marked<A: Allocator + Copy>(
    alloc: A,
    hops: &[Hop],
    count: usize,
) -> Result<Vec<bool, A>, AllocError>
    ensures len { IfOk result (λ marks. length marks.items ≡ count) }
    ensures marked { IfOk result (λ marks. (p : ℕ) → p < count → slice_index_or marks.items p false
        ≡ is_among (map (λ (h : Hop). h.flush.place) (unsure_hops hops.now)) p) }
{
    let mut marks = vec![in alloc; false; count]?;
    for hop in hops {
        let place = hop.flush.place as usize;
        if hop.flush.unsure && place < count {
            marks[place] = true;
        }
    }
    Ok(marks)
}

/// The places that are marked, in order.
fn marked_places<A: Allocator + Copy>(alloc: A, marks: &[bool]) -> Result<Vec<u32, A>, AllocError>
    requires { length marks.now ≤ 16384 }
    ensures { IfOk result (λ places. places.items
        ≡ filter (λ p. slice_index_or marks.now p false) (range_with_len 0 (length marks.now))) }
{
    let mut places = Vec::new(alloc);
    for place in 0..marks.len() as u32 {
        if marks[place as usize] {
            places.push(place)?;
        }
    }
    Ok(places)
}

/// The places of the unsure flushes by which these hops wait, in order of place.
///
/// The only error is out of memory (20), which can't occur where none of them is unsure.
pub fn needed_places<A: Allocator + Copy>(alloc: A, hops: &[Hop]) -> Result<Vec<u32, A>, AllocError>
    ensures { IfOk result (λ places. places.items ≡ needs hops.now) }
{
    if !some_unsure(hops) {
        return Ok(Vec::new(alloc));
    }
    let marks = marked(alloc, hops, PLACES)?;
    marked_places(alloc, &marks)
}
