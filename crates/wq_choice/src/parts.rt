//! Vertices that become one, part by part, and which of some lead to one another.
//!
//! A merged part waits for everything that any of its members waits for. Which vertices lead to a part is found along
//! all waits, for 256 vertices at a time, with a bit for each. The parts are gone through in a topological order, as in
//! A. B. Kahn, "Topological sorting of large networks" (Communications of the ACM 5, 1962).
//!
//! With v vertices, w waits and n vertices asked about this takes time in (v + w) * (n / 256 + 1), and memory in v + w.

use crate::bits::{Numbers, empty_sets};
use crate::vertex_lists::{Filling, VertexLists, count_one};
use std::alloc::{AllocError, Allocator};
use wq_graph::WaitGraph;
use wq_groups::GroupId;

/// How many words a row has.
const WORDS: usize = 4;

/// How many vertices a row is of: there is a bit for each.
const AT_A_TIME: usize = 64 * WORDS;

/// Of some vertices those that lead to a part, or are in it: a bit for each.
type Row = [u64; WORDS];

/// The waits of parts.
#[derive(Drop)]
pub(crate) struct Ordered<A: Allocator> {
    /// For each part those for which its vertices wait.
    pub(crate) waits: VertexLists<A>,
    /// The parts, each before those to which it leads.
    pub(crate) downwards: Vec<GroupId, A>,
}

/// Which vertices have become one.
#[derive(Drop)]
pub(crate) struct Parts<A: Allocator> {
    /// For each vertex the one that stands for its part.
    part_of: Vec<GroupId, A>,
}

impl<A: Allocator + Copy> Parts<A> {
    /// The parts of these vertices. A part has the number of one of its vertices.
    pub(crate) fn new(part_of: Vec<GroupId, A>) -> Self {
        Parts { part_of }
    }

    /// The same parts.
    pub(crate) fn copy(&self, alloc: A) -> Result<Self, AllocError> {
        let mut part_of = Vec::new(alloc);
        part_of.extend_from_slice(&self.part_of)?;
        Ok(Parts { part_of })
    }

    /// How many vertices there are.
    pub(crate) fn len(&self) -> usize {
        self.part_of.len()
    }

    /// For each part those for which its vertices wait.
    pub(crate) fn waits(
        &self,
        alloc: A,
        graph: &WaitGraph<A>,
    ) -> Result<VertexLists<A>, AllocError> {
        let mut counts = vec![in alloc; 0u32; self.part_of.len()]?;
        for vertex in 0..graph.vertices() {
            let part = self.part(GroupId::new(vertex));
            for _ in graph.arcs(vertex) {
                count_one(counts.as_mut_slice(), part.get());
            }
        }
        let mut waits = Filling::new(alloc, counts.as_slice())?;
        for vertex in 0..graph.vertices() {
            let part = self.part(GroupId::new(vertex));
            for arc in graph.arcs(vertex) {
                waits.put(part.get(), self.part(GroupId::new(arc.head)));
            }
        }
        Ok(waits.lists())
    }

    /// The waits of the parts, with an order of the parts.
    pub(crate) fn ordered(&self, alloc: A, graph: &WaitGraph<A>) -> Result<Ordered<A>, AllocError> {
        let waits = self.waits(alloc, graph)?;
        let downwards = downwards(alloc, &waits)?;
        Ok(Ordered { waits, downwards })
    }

    /// The part of a vertex.
    fn part(&self, vertex: GroupId) -> GroupId {
        match self.part_of.get(usize::from(vertex.get())) {
            Some(part) => *part,
            None => vertex,
        }
    }

    /// Makes these vertices one part, that of the first. Each of the others was alone.
    pub(crate) fn unite(&mut self, vertices: &[GroupId]) {
        let Some(first) = vertices.first() else {
            return;
        };
        for vertex in vertices {
            if let Some(part) = self.part_of.get_mut(usize::from(vertex.get())) {
                *part = *first;
            }
        }
    }

    /// For each vertex the rank of its part: how many waits there are on a longest chain from it.
    pub(crate) fn ranks(&self, alloc: A, graph: &WaitGraph<A>) -> Result<Vec<u16, A>, AllocError> {
        let Ordered { waits, downwards } = self.ordered(alloc, graph)?;
        let mut of_parts = vec![in alloc; 0u16; self.part_of.len()]?;
        for place in (0..downwards.len()).rev() {
            let part = downwards[place];
            let rank = rank_above(of_parts.as_slice(), waits.of(part.get()));
            if let Some(own) = of_parts.get_mut(usize::from(part.get())) {
                *own = rank;
            }
        }
        let mut ranks = Vec::with_capacity(alloc, self.part_of.len())?;
        for part in &self.part_of {
            ranks.push(rank_of(of_parts.as_slice(), *part))?;
        }
        Ok(ranks)
    }

    /// For each part which of these vertices, at most 256, lead to it or are in it.
    fn told(
        &self,
        alloc: A,
        of_parts: &Ordered<A>,
        vertices: &[GroupId],
    ) -> Result<Vec<Row, A>, AllocError> {
        let mut rows = vec![in alloc; [0; WORDS]; self.part_of.len()]?;
        for (place, vertex) in vertices.iter().enumerate() {
            if let Some(row) = rows.get_mut(usize::from(self.part(*vertex).get())) {
                row[place / 64 % WORDS] |= 1 << (place % 64);
            }
        }
        for part in &of_parts.downwards {
            let row = row_of(rows.as_slice(), *part);
            if row.iter().all(|word| *word == 0) {
                continue;
            }
            for target in of_parts.waits.of(part.get()) {
                if let Some(told) = rows.get_mut(usize::from(target.get())) {
                    add_row(told, &row);
                }
            }
        }
        Ok(rows)
    }

    /// For each of these vertices, each of another part, the places of those of them that lead to it.
    pub(crate) fn leading(
        &self,
        alloc: A,
        of_parts: &Ordered<A>,
        vertices: &[GroupId],
    ) -> Result<Vec<Numbers<A>, A>, AllocError> {
        let mut sets = empty_sets(alloc, vertices.len())?;
        let mut first: usize = 0;
        for some in vertices.chunks(AT_A_TIME) {
            let rows = self.told(alloc, of_parts, some)?;
            for (set, vertex) in sets.iter_mut().zip(vertices.iter()) {
                set.set_words(first, &row_of(rows.as_slice(), self.part(*vertex)));
            }
            first = first.saturating_add(WORDS);
        }
        let mut place: u16 = 0;
        for set in sets.iter_mut() {
            set.remove(place);
            place = place.wrapping_add(1);
        }
        Ok(sets)
    }
}

/// The parts for which no other part waits.
fn none_waits_for<A: Allocator + Copy>(
    alloc: A,
    counts: &[u32],
) -> Result<Vec<GroupId, A>, AllocError> {
    let mut free = Vec::with_capacity(alloc, counts.len())?;
    let mut part: u16 = 0;
    for count in counts {
        if *count == 0 {
            free.push(GroupId::new(part))?;
        }
        part = part.wrapping_add(1);
    }
    Ok(free)
}

/// The parts, each before those to which it leads. `targets` has for each part those for which it waits.
pub(crate) fn downwards<A: Allocator + Copy>(
    alloc: A,
    targets: &VertexLists<A>,
) -> Result<Vec<GroupId, A>, AllocError> {
    let mut waits = targets.counts(alloc)?;
    let mut free = none_waits_for(alloc, waits.as_slice())?;
    for place in 0..targets.len() {
        let Some(part) = free.get(place) else {
            break;
        };
        let part = *part;
        for target in targets.of(part.get()) {
            if let Some(left) = waits.get_mut(usize::from(target.get())) {
                *left = left.saturating_sub(1);
                if *left == 0 {
                    free.push(*target)?;
                }
            }
        }
    }
    Ok(free)
}

/// The rank of a part.
fn rank_of(ranks: &[u16], part: GroupId) -> u16 {
    match ranks.get(usize::from(part.get())) {
        Some(rank) => *rank,
        None => 0,
    }
}

/// The rank of a part that waits for these.
fn rank_above(ranks: &[u16], targets: &[GroupId]) -> u16 {
    let mut rank: u16 = 0;
    for target in targets {
        rank = rank.max(rank_of(ranks, *target).saturating_add(1));
    }
    rank
}

/// The row of a part.
fn row_of(rows: &[Row], part: GroupId) -> Row {
    match rows.get(usize::from(part.get())) {
        Some(row) => *row,
        None => [0; WORDS],
    }
}

/// ORs another row into a row.
fn add_row(row: &mut Row, other: &Row) {
    for (word, more) in row.iter_mut().zip(other.iter()) {
        *word |= *more;
    }
}
