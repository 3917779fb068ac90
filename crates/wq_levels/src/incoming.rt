//! The arcs of a wait graph by the vertices that they lead to: those that go when a vertex is removed (`ranking.rt`).
//!
//! All arcs are numbered vertex by vertex, and `wq_buckets` sorts them by the vertex that they lead to. So there are a
//! few vectors, and not one for each vertex. It takes
//!
//!   O(vertices + arcs) time and memory.

ghost use Rattle.std.specs.Prelude.{◌≡◌, ◌++◌, length, map, replicate, IfOk};
ghost use Rattle.wq_buckets.specs.Places.{buckets_of};
ghost use Rattle.wq_levels.specs.Taking.{heads_of, tails_of};

use std::alloc::{AllocError, Allocator};
use wq_buckets::Buckets;
use wq_graph::{WaitArc, WaitGraph};

/// The arcs that lead to each vertex.
#[derive(Drop)]
pub(crate) struct Incoming<A: Allocator> {
    /// For each vertex, the places of the arcs that lead to it.
    pub(crate) places: Buckets<A>,
    /// The vertex that each arc leaves, in the order of the arcs.
    pub(crate) tails: Vec<u16, A>,
}

/// The vertex that each of these arcs leads to, in the order of the arcs.
fn heads<A: Allocator + Copy>(alloc: A, arcs: &[WaitArc]) -> Result<Vec<u16, A>, AllocError>
    ensures { IfOk result (λ heads. heads.items ≡ map (λ a. a.head) arcs.now) }
{
    let mut heads = Vec::with_capacity(alloc, arcs.len())?;
    for arc in arcs {
        heads.push_reserved(arc.head);
    }
    Ok(heads)
}

/// Appends a vertex this many times.
#[inline(always)]
fn add_times<A: Allocator + Copy>(
    list: &mut Vec<u16, A>,
    vertex: u16,
    times: usize,
) -> Result<(), AllocError>
    ensures { IfOk result (λ _. list.new.items ≡ list.old.items ++ replicate times vertex) }
{
    list.reserve(times)?;
    for _ in 0..times {
        list.push_reserved(vertex);
    }
    Ok(())
}

/// The vertex that each arc of a graph leaves, in the order of the arcs.
fn tails<A: Allocator + Copy>(alloc: A, graph: &WaitGraph<A>) -> Result<Vec<u16, A>, AllocError>
    ensures { IfOk result (λ tails. tails.items ≡ tails_of graph.now) }
{
    let mut tails = Vec::with_capacity(alloc, graph.all().len())?;
    for v in 0..graph.vertices() {
        add_times(&mut tails, v, graph.arcs(v).len())?;
    }
    Ok(tails)
}

impl<A: Allocator + Copy> Incoming<A> {
    /// The arcs of a graph. The only error is out of memory (20).
    pub(crate) fn new(alloc: A, graph: &WaitGraph<A>) -> Result<Self, AllocError>
        ensures places { IfOk result (λ i. i.places ≡ buckets_of (heads_of graph.now) (length graph.now)) }
        ensures tails { IfOk result (λ i. i.tails.items ≡ tails_of graph.now) }
    {
        let heads = heads(alloc, graph.all())?;
        let places = Buckets::new(alloc, &heads, graph.vertices())?;
        let tails = tails(alloc, graph)?;
        Ok(Incoming { places, tails })
    }
}
