//! The steps of a depth-first search in progress.
//!
//! Each vertex is visited once and finished once, and each place of its list is passed once. Apart from the places that
//! it passes, a step takes constant time.

ghost use Rattle.std.specs.Prelude.{◌≡◌, ℕ, ◌+◌, ◌-◌, ◌<◌, ◌≤◌, length, map, replicate, true, false, [], slice_get};
ghost use Rattle.std.specs.Prelude.{slice_index, Some, IfOk};
ghost use Rattle.std.specs.List.{All};
ghost use Rattle.wq_circles.specs.Searching.{is_marked};
ghost use Rattle.wq_circles.specs.Finishing.{Follows, IsWalkSoFar, WentOn, steps_to, with_vertex_finished};
ghost use Rattle.wq_circles.specs.Finishing.{with_followed, with_visited};

use std::alloc::{AllocError, Allocator};
use std::marker::Model;

/// A depth-first search in progress.
#[derive(Drop)]
pub(crate) struct Walk<A: Allocator> {
    visited: Vec<bool, A>,
    followed: Vec<usize, A>,
    path: Vec<u16, A>,
    finished: Vec<u16, A>,
}

impl<A: Allocator> Model for Walk<A> {
    ghost use Rattle.wq_circles.specs.Finishing as finishing;

    ghost Value = { finishing.Walk };

    ghost view = { λ w. record {
      visited = w.visited.items;
      followed = w.followed.items;
      path = w.path.items;
      finished = w.finished.items;
    } };
}

/// The first index of `heads`, from `from` on, with an unvisited vertex, or the length of the list.
fn next_unvisited(heads: &[u16], visited: &[bool], from: usize) -> usize
    requires { All (λ w. w < length visited.now) heads.now }
    ensures passed { (k : ℕ) → from ≤ k → k < result → k < length heads.now
        → is_marked visited.now (slice_index heads.now k) ≡ true }
    ensures next { result < length heads.now → is_marked visited.now (slice_index heads.now result) ≡ false }
{
    for place in from..heads.len() {
        if !visited[usize::from(heads[place])] {
            return place;
        }
    }
    heads.len()
}

impl<A: Allocator + Copy> Walk<A> {
    /// A search among this many vertices that has visited none yet.
    pub(crate) fn none(alloc: A, vertices: usize) -> Result<Self, AllocError>
        ensures visited { IfOk result (λ w. w.visited ≡ replicate vertices false) }
        ensures followed { IfOk result (λ w. w.followed ≡ replicate vertices 0) }
        ensures path { IfOk result (λ w. w.path ≡ []) }
        ensures finished { IfOk result (λ w. w.finished ≡ []) }
    {
        let visited = vec![in alloc; false; vertices]?;
        let followed = vec![in alloc; 0; vertices]?;
        let path = Vec::new(alloc);
        let finished = Vec::new(alloc);
        Ok(Walk {
            visited,
            followed,
            path,
            finished,
        })
    }

    /// Whether a vertex has been visited.
    pub(crate) fn has(&self, vertex: u16) -> bool
        requires { vertex < length self.now.visited }
        ensures { result ≡ is_marked self.now.visited vertex }
    {
        self.visited[usize::from(vertex)]
    }

    /// The vertex where the search is: the last of its path.
    pub(crate) fn top(&self) -> Option<u16>
        ensures { result ≡ slice_get self.now.path (length self.now.path - 1) }
    {
        self.path.last().copied()
    }

    /// Visits a vertex, the next of the path.
    pub(crate) fn visit(&mut self, vertex: u16) -> Result<(), AllocError>
        requires { vertex < length self.old.visited }
        ensures { IfOk result (λ _. self.new ≡ with_visited self.old vertex) }
    {
        self.visited[usize::from(vertex)] = true;
        self.path.push(vertex)?;
        Ok(())
    }

    /// Finishes the vertex where the search is, and goes back.
    fn finish(&mut self, vertex: u16) -> Result<(), AllocError>
        ensures { IfOk result (λ _. self.new ≡ with_vertex_finished self.old vertex) }
    {
        let _ = self.path.pop();
        self.finished.push(vertex)?;
        Ok(())
    }

    /// Passes the places of the list that hold visited vertices, and returns the first unvisited vertex.
    fn follow(&mut self, heads: &[u16], vertex: u16) -> Option<u16>
        requires vertex { vertex < length self.old.followed }
        requires within { All (λ w. w < length self.old.visited) heads.now }
        ensures { Follows self.old heads.now vertex result self.new }
    {
        let at = usize::from(vertex);
        let place = next_unvisited(heads, &self.visited, self.followed[at]);
        self.followed[at] = place;
        heads.get(place).copied()
    }

    /// Visits the next unvisited vertex or, if there is none, goes back.
    pub(crate) fn step(&mut self, lists: &[Vec<u16, A>], vertex: u16) -> Result<(), AllocError>
        requires walk { IsWalkSoFar (map (λ l. l.items) lists.now) self.old }
        requires top { slice_get self.old.path (length self.old.path - 1) ≡ Some vertex }
        requires within { All (λ list. All (λ w. w < length lists.now) list.items) lists.now }
        ensures goes_on { IfOk result (λ _. WentOn (map (λ l. l.items) lists.now) self.old self.new) }
        ensures counts { IfOk result (λ _. steps_to self.new ≡ steps_to self.old + 1) }
    {
        match self.follow(&lists[usize::from(vertex)], vertex) {
            Some(head) => self.visit(head),
            None => self.finish(vertex),
        }
    }

    /// The finished vertices, in the order in which they were finished.
    pub(crate) fn into_finished(self) -> Vec<u16, A>
        ensures { result.items ≡ self.finished }
    {
        self.finished
    }
}
