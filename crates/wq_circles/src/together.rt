//! Strongly connected components: for each vertex, the lowest-numbered vertex of its component.
//!
//! A depth-first search gives the order in which the vertices are finished. They are then taken in the reverse of that
//! order: each vertex that hasn't been found yet finds its component by a search against the arcs, and the
//! lowest-numbered vertex found is the result for all of them (S. R. Kosaraju; M. Sharir, "A strong-connectivity
//! algorithm and its applications in data flow analysis", Computers and Mathematics with Applications 7, 1981). It
//! takes
//!
//!   O(vertices + arcs) time and memory.

ghost use Rattle.std.specs.Prelude.{◌≡◌, ◌<◌, ◌≤◌, length, map, false, MatchOption, IfOk, IfErr};
ghost use Rattle.std.specs.List.{All};
ghost use Rattle.wq_graph.specs.Graph.{HasArc};
ghost use Rattle.wq_circles.specs.Leading.{AreLowest};
ghost use Rattle.wq_circles.specs.Lists.{NextBack};
ghost use Rattle.wq_circles.specs.Searching.{AreFound, AreSettled, IsLeastOf, Spreads, is_marked};
ghost use Rattle.wq_circles.specs.Finishing.{IsFinishing};

use crate::finishing::finishing_order;
use crate::lists::{heads, tails};
use crate::progress::FoundVertices;
use std::alloc::{AllocError, Allocator};
use wq_graph::WaitGraph;

/// Finds the unfound vertex `root` and all that it leads to, from list to list, by way of unfound vertices.
pub(crate) fn spread<A: Allocator + Copy>(
    found: &mut FoundVertices<A>,
    lists: &[Vec<u16, A>],
    root: u16,
) -> Result<(), AllocError>
    requires one_each { length found.old.marks ≡ length lists.now }
    requires found { AreFound found.old }
    requires root { root < length lists.now }
    requires new { is_marked found.old.marks root ≡ false }
    requires within { All (λ list. All (λ w. w < length lists.now) list.items) lists.now }
    ensures { IfOk result (λ _. Spreads (map (λ l. l.items) lists.now) found.old root found.new) }
{
    let mut place = found.count();
    found.note(root)?;
    while let Some(vertex) = found.nth(place) {
        found.note_all(&lists[usize::from(vertex)])?;
        place += 1;
    }
    Ok(())
}

/// The lowest of these vertices.
fn least(vertices: &[u16]) -> Option<u16>
    ensures { MatchOption result (length vertices.now ≡ 0) (IsLeastOf vertices.now) }
{
    vertices.iter().copied().min()
}

/// Sets the result for each of these vertices to the lowest of them.
fn settle(lowest: &mut [u16], vertices: &[u16])
    requires { All (λ v. v < length lowest.old) vertices.now }
    ensures { AreSettled vertices.now lowest.old lowest.new }
{
    if let Some(least) = least(vertices) {
        for vertex in vertices {
            lowest[usize::from(*vertex)] = least;
        }
    }
}

/// For each vertex, the lowest-numbered one of its strongly connected component. `tails` has the tails of the arcs that
/// lead to each vertex; `finished` is the order in which a depth-first search along the arcs finishes the vertices.
fn lowest_of_components<A: Allocator + Copy>(
    alloc: A,
    tails: &[Vec<u16, A>],
    finished: &[u16],
) -> Result<Vec<u16, A>, AllocError>
    requires finished { IsFinishing (NextBack (map (λ l. l.items) tails.now)) (length tails.now) finished.now }
    requires within { All (λ list. All (λ w. w < length tails.now) list.items) tails.now }
    ensures { IfOk result (λ lowest.
        AreLowest (NextBack (map (λ l. l.items) tails.now)) (length tails.now) lowest.items) }
{
    let mut found = FoundVertices::none(alloc, tails.len())?;
    let mut lowest = vec![in alloc; 0; tails.len()]?;
    for place in (0..finished.len()).rev() {
        let root = finished[place];
        if !found.has(root) {
            let before = found.count();
            spread(&mut found, tails, root)?;
            settle(lowest.as_mut_slice(), found.since(before));
        }
    }
    Ok(lowest)
}

/// For each vertex, the lowest-numbered one that is together with it. Two vertices are together if they are the same or
/// each leads to the other: if they are in one strongly connected component.
///
/// The only error is out of memory (20), which can't occur for a graph without vertices.
pub(crate) fn lowest<A: Allocator + Copy>(
    alloc: A,
    graph: &WaitGraph<A>,
) -> Result<Vec<u16, A>, AllocError>
    ensures lowest { IfOk result (λ lowest. AreLowest (HasArc graph.now) (length graph.now) lowest.items) }
    ensures memory { IfErr result (λ _. 0 < length graph.now) }
{
    let vertices = graph.vertices();
    if vertices == 0 {
        return Ok(Vec::new(alloc));
    }
    let heads = heads(alloc, graph)?;
    let finished = finishing_order(alloc, &heads, vertices)?;
    let tails = tails(alloc, &heads, vertices)?;
    lowest_of_components(alloc, &tails, &finished)
}
