//! A wait graph without some of its vertices: those of workqueues on which nothing is waited for.
//!
//! The vertices keep their numbers, but lose the arcs that leave them or lead to them. It takes time linear in the
//! number of vertices and arcs, and memory linear in the number of vertices and kept arcs.

ghost use Rattle.std.specs.Prelude.{◌≡◌, ◌<◌, ◌++◌, length, IfOk, IfErr};
ghost use Rattle.wq_graph.specs.Graph.{IsGraph, is_left_out, arcs_kept, arcs_without, without};

use crate::arc::WaitArc;
use crate::graph::WaitGraph;
use std::alloc::{AllocError, Allocator};
use wq_buckets::{Pieces, PiecesBuilder};

/// Whether a vertex is left out.
fn is_left_out(left_out: &[bool], vertex: u16) -> bool
    ensures { result ≡ is_left_out left_out.now vertex }
{
    match left_out.get(usize::from(vertex)) {
        Some(is_left_out) => *is_left_out,
        None => false,
    }
}

/// Appends those of these arcs that don't lead to a vertex that is left out.
fn add_kept<A: Allocator + Copy>(
    kept: &mut PiecesBuilder<WaitArc, A>,
    left_out: &[bool],
    arcs: &[WaitArc],
) -> Result<(), AllocError>
    ensures pieces { IfOk result (λ _. kept.new.pieces ≡ kept.old.pieces) }
    ensures next { IfOk result (λ _. kept.new.next ≡ kept.old.next ++ arcs_kept left_out.now arcs.now) }
{
    for arc in arcs {
        if !is_left_out(left_out, arc.head) {
            kept.push(*arc)?;
        }
    }
    Ok(())
}

/// Appends the arcs that leave a vertex and are kept.
fn add_from<A: Allocator + Copy>(
    kept: &mut PiecesBuilder<WaitArc, A>,
    left_out: &[bool],
    graph: &WaitGraph<A>,
    vertex: u16,
) -> Result<(), AllocError>
    requires { vertex < length graph.now }
    ensures pieces { IfOk result (λ _. kept.new.pieces ≡ kept.old.pieces) }
    ensures next { IfOk result (λ _. kept.new.next ≡ kept.old.next ++ arcs_without left_out.now graph.now vertex) }
{
    if is_left_out(left_out, vertex) {
        return Ok(());
    }
    add_kept(kept, left_out, graph.arcs(vertex))
}

/// The arcs that are kept, by the vertices that they leave.
pub(crate) fn kept_arcs<A: Allocator + Copy>(
    alloc: A,
    graph: &WaitGraph<A>,
    left_out: &[bool],
) -> Result<Pieces<WaitArc, A>, AllocError>
    ensures arcs { IfOk result (λ kept. kept ≡ without left_out.now graph.now) }
    ensures memory { IfErr result (λ _. 0 < length graph.now) }
    ensures graph { IsGraph graph.now }
{
    let vertices = graph.vertices();
    let mut kept = PiecesBuilder::with_room(alloc, 0, vertices)?;
    for vertex in 0..vertices {
        add_from(&mut kept, left_out, graph, vertex)?;
        kept.end_piece()?;
    }
    Ok(kept.finish())
}
