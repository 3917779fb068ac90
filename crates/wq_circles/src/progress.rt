//! What a search has found so far: a mark for each vertex, and the marked vertices in the order in which they were
//! found.
//!
//! Noting a vertex takes constant time. Making the marks takes time and memory linear in the number of vertices.

ghost use Rattle.std.specs.Prelude.{◌≡◌, ◌<◌, ◌≤◌, length, drop, replicate, false, [], slice_get, IfOk};
ghost use Rattle.std.specs.List.{All};
ghost use Rattle.wq_circles.specs.Searching.{is_marked, with_found, with_all_found};

use std::alloc::{AllocError, Allocator};
use std::marker::Model;

/// A search in progress.
#[derive(Drop)]
pub(crate) struct FoundVertices<A: Allocator> {
    marks: Vec<bool, A>,
    order: Vec<u16, A>,
}

impl<A: Allocator> Model for FoundVertices<A> {
    ghost use Rattle.wq_circles.specs.Searching.{Search};

    ghost Value = { Search };

    ghost view = { λ p. record { marks = p.marks.items; order = p.order.items } };
}

impl<A: Allocator + Copy> FoundVertices<A> {
    /// A search among this many vertices that has found none yet.
    pub(crate) fn none(alloc: A, vertices: usize) -> Result<Self, AllocError>
        ensures marks { IfOk result (λ p. p.marks ≡ replicate vertices false) }
        ensures order { IfOk result (λ p. p.order ≡ []) }
    {
        let marks = vec![in alloc; false; vertices]?;
        let order = Vec::new(alloc);
        Ok(FoundVertices { marks, order })
    }

    /// Whether a vertex has been found.
    pub(crate) fn has(&self, vertex: u16) -> bool
        requires { vertex < length self.now.marks }
        ensures { result ≡ is_marked self.now.marks vertex }
    {
        self.marks[usize::from(vertex)]
    }

    /// Notes that a vertex has been found.
    pub(crate) fn note(&mut self, vertex: u16) -> Result<(), AllocError>
        requires { vertex < length self.old.marks }
        ensures { IfOk result (λ _. self.new ≡ with_found self.old vertex) }
    {
        let at = usize::from(vertex);
        if !self.marks[at] {
            self.marks[at] = true;
            self.order.push(vertex)?;
        }
        Ok(())
    }

    /// Notes that each of these vertices has been found.
    pub(crate) fn note_all(&mut self, vertices: &[u16]) -> Result<(), AllocError>
        requires { All (λ w. w < length self.old.marks) vertices.now }
        ensures { IfOk result (λ _. self.new ≡ with_all_found self.old vertices.now) }
    {
        for vertex in vertices {
            self.note(*vertex)?;
        }
        Ok(())
    }

    /// How many vertices have been found.
    pub(crate) fn count(&self) -> usize
        ensures { result ≡ length self.now.order }
    {
        self.order.len()
    }

    /// The vertex at index `place` of the order, if that many have been found.
    pub(crate) fn nth(&self, place: usize) -> Option<u16>
        ensures { result ≡ slice_get self.now.order place }
    {
        self.order.get(place).copied()
    }

    /// The vertices that have been found from index `place` of the order on.
    pub(crate) fn since(&self, place: usize) -> &[u16]
        requires { place ≤ length self.now.order }
        ensures { result.now ≡ drop place self.now.order }
    {
        &self.order[place..]
    }
}
