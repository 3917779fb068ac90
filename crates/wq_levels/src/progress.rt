//! How far the removal of vertices has come: for each vertex, how many of its arcs remain and its rank so far; and the
//! vertices that wait to be removed.
//!
//! Removing an arc takes constant time. Setting up takes time and memory linear in the number of vertices.

ghost use Rattle.std.specs.Prelude.{◌≡◌, ◌<◌, ◌≤◌, ℕ, length, map, replicate, slice_index, slice_get, IfOk};
ghost use Rattle.std.specs.List.{All};
ghost use Rattle.wq_levels.specs.Taking.{AreFree, times, with_arc_gone, with_arcs_gone};

use std::alloc::{AllocError, Allocator};
use std::marker::Model;
use wq_graph::WaitGraph;

/// The removal of vertices, in progress.
#[derive(Drop)]
pub(crate) struct Progress<A: Allocator> {
    remaining: Vec<usize, A>,
    ranks: Vec<u16, A>,
    order: Vec<u16, A>,
}

impl<A: Allocator> Model for Progress<A> {
    ghost use Rattle.wq_levels.specs.Taking.{Taking};

    ghost Value = { Taking };

    ghost view = { λ p. record { remaining = p.remaining.items; ranks = p.ranks.items; order = p.order.items } };
}

/// How many arcs leave each vertex.
fn arc_counts<A: Allocator + Copy>(
    alloc: A,
    graph: &WaitGraph<A>,
) -> Result<Vec<usize, A>, AllocError>
    ensures { IfOk result (λ counts. counts.items ≡ map length graph.now) }
{
    let vertices = graph.vertices();
    let mut counts = Vec::with_capacity(alloc, usize::from(vertices))?;
    for v in 0..vertices {
        counts.push_reserved(graph.arcs(v).len());
    }
    Ok(counts)
}

/// Those of `vertices` vertices that have no arc left, with room for all vertices.
fn free<A: Allocator + Copy>(
    alloc: A,
    remaining: &[usize],
    vertices: u16,
) -> Result<Vec<u16, A>, AllocError>
    requires { length remaining.now ≡ vertices }
    ensures { IfOk result (λ order. AreFree vertices remaining.now order.items) }
{
    let mut order = Vec::with_capacity(alloc, usize::from(vertices))?;
    for v in 0..vertices {
        if remaining[usize::from(v)] == 0 {
            order.push(v)?;
        }
    }
    Ok(order)
}

impl<A: Allocator + Copy> Progress<A> {
    /// The start of the removal: no arc has been removed.
    pub(crate) fn new(alloc: A, graph: &WaitGraph<A>) -> Result<Self, AllocError>
        ensures remaining { IfOk result (λ p. p.remaining ≡ map length graph.now) }
        ensures ranks { IfOk result (λ p. p.ranks ≡ replicate (length graph.now) 0) }
        ensures order { IfOk result (λ p. AreFree (length graph.now) p.remaining p.order) }
    {
        let vertices = graph.vertices();
        let remaining = arc_counts(alloc, graph)?;
        let ranks = vec![in alloc; 0; usize::from(vertices)]?;
        let order = free(alloc, &remaining, vertices)?;
        Ok(Progress {
            remaining,
            ranks,
            order,
        })
    }

    /// The vertex at index `place` of the order, if the order is that long.
    pub(crate) fn nth(&self, place: usize) -> Option<u16>
        ensures { result ≡ slice_get self.now.order place }
    {
        self.order.get(place).copied()
    }

    /// Removes an arc of `vertex`, to a vertex of rank `rank`.
    #[inline(always)]
    fn lose_arc(&mut self, vertex: u16, rank: u16) -> Result<(), AllocError>
        requires one_each { length self.old.ranks ≡ length self.old.remaining }
        requires some { 0 < slice_index self.old.remaining vertex }
        requires low { rank < 4096 }
        ensures { IfOk result (λ _. self.new ≡ with_arc_gone rank self.old vertex) }
    {
        let at = usize::from(vertex);
        self.ranks[at] = self.ranks[at].max(rank + 1);
        self.remaining[at] -= 1;
        if self.remaining[at] == 0 {
            self.order.push(vertex)?;
        }
        Ok(())
    }

    /// Removes a vertex, and with it the arcs at these places. `tails` has the vertex that each arc leaves.
    pub(crate) fn take_off(
        &mut self,
        vertex: u16,
        places: &[u32],
        tails: &[u16],
    ) -> Result<(), AllocError>
        requires one_each { length self.old.ranks ≡ length self.old.remaining }
        requires vertex { vertex < length self.old.ranks }
        requires low { slice_index self.old.ranks vertex < 4096 }
        requires places { All (λ p. p < length tails.now) places.now }
        requires some { (v : ℕ) → times (map (slice_index tails.now) places.now) v ≤ slice_index self.old.remaining v }
        ensures { IfOk result (λ _.
            self.new
            ≡ with_arcs_gone (slice_index self.old.ranks vertex) self.old
            (map (slice_index tails.now) places.now)) }
    {
        let rank = self.ranks[usize::from(vertex)];
        for place in places {
            self.lose_arc(tails[*place as usize], rank)?;
        }
        Ok(())
    }

    /// For each vertex, how many of its arcs remain, and its rank.
    pub(crate) fn into_parts(self) -> (Vec<usize, A>, Vec<u16, A>)
        ensures remaining { result.0.items ≡ self.remaining }
        ensures ranks { result.1.items ≡ self.ranks }
    {
        (self.remaining, self.ranks)
    }
}
