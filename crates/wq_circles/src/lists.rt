//! For each vertex, the heads of its arcs, and the vertices whose arcs lead to it. Both take
//!
//!   O(vertices + arcs) time and memory.

ghost use Rattle.std.specs.Prelude.{◌≡◌, ◌<◌, length, map, replicate, [], IfOk};
ghost use Rattle.std.specs.List.{All};
ghost use Rattle.wq_circles.specs.Lists.{AreTurned, HasTails, head_lists};

use std::alloc::{AllocError, Allocator};
use wq_graph::{WaitArc, WaitGraph};

/// The heads of these arcs, in the order of the arcs.
fn arc_heads<A: Allocator + Copy>(alloc: A, arcs: &[WaitArc]) -> Result<Vec<u16, A>, AllocError>
    ensures { IfOk result (λ heads. heads.items ≡ map (λ a. a.head) arcs.now) }
{
    let mut heads = Vec::with_capacity(alloc, arcs.len())?;
    for arc in arcs {
        heads.push(arc.head)?;
    }
    Ok(heads)
}

/// The heads of each vertex's arcs, in vertex order.
pub(crate) fn heads<A: Allocator + Copy>(
    alloc: A,
    graph: &WaitGraph<A>,
) -> Result<Vec<Vec<u16, A>, A>, AllocError>
    ensures { IfOk result (λ lists. map (λ l. l.items) lists.items ≡ head_lists graph.now) }
{
    let vertices = graph.vertices();
    let mut lists = Vec::with_capacity(alloc, usize::from(vertices))?;
    for v in 0..vertices {
        lists.push(arc_heads(alloc, graph.arcs(v))?)?;
    }
    Ok(lists)
}

/// This many empty lists.
fn empty_lists<A: Allocator + Copy>(alloc: A, count: u16) -> Result<Vec<Vec<u16, A>, A>, AllocError>
    ensures { IfOk result (λ lists. map (λ l. l.items) lists.items ≡ replicate count []) }
{
    let mut lists = Vec::with_capacity(alloc, usize::from(count))?;
    for _ in 0..count {
        lists.push(Vec::new(alloc))?;
    }
    Ok(lists)
}

/// Appends a vertex to the list of each of these heads.
fn add_tail<A: Allocator + Copy>(
    lists: &mut Vec<Vec<u16, A>, A>,
    vertex: u16,
    heads: &[u16],
) -> Result<(), AllocError>
    requires { All (λ w. w < length lists.old.items) heads.now }
    ensures { IfOk result (λ _.
        HasTails (map (λ l. l.items) lists.old.items) (map (λ l. l.items) lists.new.items) vertex heads.now) }
{
    for head in heads {
        let list = &mut lists[usize::from(*head)];
        list.push(vertex)?;
    }
    Ok(())
}

/// For each vertex, those that have it in their lists.
pub(crate) fn tails<A: Allocator + Copy>(
    alloc: A,
    heads: &[Vec<u16, A>],
    vertices: u16,
) -> Result<Vec<Vec<u16, A>, A>, AllocError>
    requires one_each { length heads.now ≡ vertices }
    requires within { All (λ list. All (λ w. w < vertices) list.items) heads.now }
    ensures { IfOk result (λ lists. AreTurned (map (λ l. l.items) heads.now) (map (λ l. l.items) lists.items)) }
{
    let mut lists = empty_lists(alloc, vertices)?;
    for v in 0..vertices {
        add_tail(&mut lists, v, &heads[usize::from(v)])?;
    }
    Ok(lists)
}
