//! Lists that say of each number whether something holds of it.
//!
//! It takes time in their length.

ghost use Rattle.std.specs.Prelude.{◌≡◌, ◌≤◌, ◌↔◌, ◌⊎◌, true, false, length, slice_index, slice_index_or, IfOk, IsTrue};
ghost use Rattle.wq_repair.specs.Together.{Lists};

use std::alloc::{AllocError, Allocator};
use wq_groups::{GroupId, LaneId};

/// The lanes that are marked, upwards.
pub(crate) fn listed<A: Allocator + Copy>(
    alloc: A,
    marks: &[bool],
) -> Result<Vec<LaneId, A>, AllocError>
    requires { length marks.now ≤ 4096 }
    ensures { IfOk result (λ listed. Lists marks.now listed.items) }
{
    let mut listed = Vec::new(alloc);
    for (number, is_marked) in marks.iter().enumerate() {
        if !*is_marked {
            continue;
        }
        listed.push(LaneId::new(number as u16))?;
    }
    Ok(listed)
}

/// Whether one of the two holds.
pub(crate) fn either(one: bool, other: bool) -> bool
    ensures { IsTrue result ↔ ((one ≡ true) ⊎ (other ≡ true)) }
{
    one || other
}

/// Whether a number is marked. Past the end of the list none is.
pub(crate) fn is_marked(marks: &[bool], number: usize) -> bool
    ensures { result ≡ slice_index_or marks.now number false }
{
    match marks.get(number) {
        Some(is_marked) => *is_marked,
        None => false,
    }
}

/// The rank of a group, or 0 past the end of the list.
pub(crate) fn rank_at(ranks: &[u16], group: GroupId) -> u16
    ensures { result ≡ slice_index ranks.now group }
{
    match ranks.get(usize::from(group.get())) {
        Some(rank) => *rank,
        None => 0,
    }
}

/// The vertex of a group, or that with number 0 past the end of the list.
pub(crate) fn vertex_at(vertex_of: &[GroupId], group: GroupId) -> GroupId
    ensures { result ≡ slice_index vertex_of.now group }
{
    match vertex_of.get(usize::from(group.get())) {
        Some(vertex) => *vertex,
        None => GroupId::new(0),
    }
}

/// The word of a vertex, or 0 past the end of the list.
pub(crate) fn word_at(words: &[u64], vertex: GroupId) -> u64
    ensures { result ≡ slice_index words.now vertex }
{
    match words.get(usize::from(vertex.get())) {
        Some(word) => *word,
        None => 0,
    }
}
