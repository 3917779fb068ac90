//! The vertices in the order in which a depth-first search finishes them (a postorder).
//!
//! A vertex is finished when all vertices that its arcs lead to have been visited. It takes
//!
//!   O(vertices + arcs) time and O(vertices) memory.
//!
//! `walk` has the steps, two for each vertex.

ghost use Rattle.std.specs.Prelude.{◌≡◌, ◌<◌, length, map, false, [], IfOk};
ghost use Rattle.std.specs.List.{All};
ghost use Rattle.wq_circles.specs.Lists.{Next};
ghost use Rattle.wq_circles.specs.Searching.{is_marked};
ghost use Rattle.wq_circles.specs.Finishing.{IsFinishing, IsVisited, IsWalkSoFar, WentOn};

use crate::walk::Walk;
use std::alloc::{AllocError, Allocator};

/// Visits and finishes a vertex and all vertices that it leads to by way of unvisited ones.
fn walk_from<A: Allocator + Copy>(
    walk: &mut Walk<A>,
    lists: &[Vec<u16, A>],
    root: u16,
) -> Result<(), AllocError>
    requires walk { IsWalkSoFar (map (λ l. l.items) lists.now) walk.old }
    requires at_rest { walk.old.path ≡ [] }
    requires root { root < length lists.now }
    requires new { is_marked walk.old.visited root ≡ false }
    requires within { All (λ list. All (λ w. w < length lists.now) list.items) lists.now }
    ensures goes_on { IfOk result (λ _. WentOn (map (λ l. l.items) lists.now) walk.old walk.new) }
    ensures at_rest { IfOk result (λ _. walk.new.path ≡ []) }
    ensures root { IfOk result (λ _. IsVisited walk.new root) }
{
    walk.visit(root)?;
    while let Some(vertex) = walk.top() {
        walk.step(lists, vertex)?;
    }
    Ok(())
}

/// The vertices in the order in which they are finished. `lists` has the heads of the arcs of each vertex.
pub(crate) fn finishing_order<A: Allocator + Copy>(
    alloc: A,
    lists: &[Vec<u16, A>],
    vertices: u16,
) -> Result<Vec<u16, A>, AllocError>
    requires one_each { length lists.now ≡ vertices }
    requires within { All (λ list. All (λ w. w < length lists.now) list.items) lists.now }
    ensures { IfOk result (λ finished. IsFinishing (Next (map (λ l. l.items) lists.now)) vertices finished.items) }
{
    let mut walk = Walk::none(alloc, lists.len())?;
    for root in 0..vertices {
        if !walk.has(root) {
            walk_from(&mut walk, lists, root)?;
        }
    }
    Ok(walk.into_finished())
}
