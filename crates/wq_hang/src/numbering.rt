//! Numbers of the vertices of a wait graph, such that few arcs lead to a vertex whose number isn't higher.
//!
//! A vertex gets the next number once all vertices from which arcs lead to it have theirs (A. B. Kahn, "Topological
//! sorting of large networks", Communications of the ACM 5, 1962). Where there is none, the next one gets it in the
//! order in which a search by breadth comes to them. Which numbers these are is promised nowhere: only the time of the
//! search for a round depends on them. It takes time and memory in the number of vertices and arcs.

ghost use Rattle.std.specs.Prelude.{◌≡◌, ◌<◌, ◌≤◌, length, IfOk, OnOk};
ghost use Rattle.std.specs.List.{All};
ghost use Rattle.wq_graph.specs.declared.arc.WaitArc.{WaitArc};
ghost use Rattle.wq_hang.specs.Numbering.{AreGiven};

use std::alloc::{AllocError, Allocator};
use std::marker::Model;
use wq_core::Assigned;
use wq_graph::{WaitArc, WaitGraph};

/// Comes to a vertex, if it is for the first time.
fn visit<A: Allocator>(
    seen: &mut [bool],
    order: &mut Vec<u16, A>,
    vertex: u16,
) -> Result<(), AllocError>
    requires vertex { vertex < length seen.old }
    requires below { All (λ v. v < length seen.old) order.old.items }
    ensures below { OnOk result (All (λ v. v < length seen.old) order.new.items) }
    ensures len { length seen.new ≡ length seen.old }
{
    let at = usize::from(vertex);
    if !seen[at] {
        seen[at] = true;
        order.push(vertex)?;
    }
    Ok(())
}

/// Comes to the vertices to which these arcs lead.
fn visit_all<A: Allocator>(
    seen: &mut [bool],
    order: &mut Vec<u16, A>,
    arcs: &[WaitArc],
) -> Result<(), AllocError>
    requires heads { All (λ (a : WaitArc). a.head < length seen.old) arcs.now }
    requires below { All (λ v. v < length seen.old) order.old.items }
    ensures below { OnOk result (All (λ v. v < length seen.old) order.new.items) }
    ensures len { length seen.new ≡ length seen.old }
{
    for arc in arcs {
        visit(seen, order, arc.head)?;
    }
    Ok(())
}

/// Goes on from the vertices of the order, from this place on, to its end.
fn go_on<A: Allocator + Copy>(
    graph: &WaitGraph<A>,
    seen: &mut [bool],
    order: &mut Vec<u16, A>,
    from: usize,
) -> Result<usize, AllocError>
    requires seen { length seen.old ≡ length graph.now }
    requires below { All (λ v. v < length graph.now) order.old.items }
    ensures below { OnOk result (All (λ v. v < length graph.now) order.new.items) }
    ensures len { length seen.new ≡ length seen.old }
{
    let mut at = from;
    for _ in 0..graph.vertices() {
        let Some(vertex) = order.get(at).copied() else {
            break;
        };
        visit_all(seen, order, graph.arcs(vertex))?;
        at += 1;
    }
    Ok(at)
}

/// The vertices in the order in which a search by breadth comes to them.
fn breadth_order<A: Allocator + Copy>(
    alloc: A,
    graph: &WaitGraph<A>,
) -> Result<Vec<u16, A>, AllocError>
    ensures { IfOk result (λ order. All (λ v. v < length graph.now) order.items) }
{
    let mut seen = vec![in alloc; false; usize::from(graph.vertices())]?;
    let mut order = Vec::new(alloc);
    let mut at = 0;
    for root in 0..graph.vertices() {
        visit(seen.as_mut_slice(), &mut order, root)?;
        at = go_on(graph, seen.as_mut_slice(), &mut order, at)?;
    }
    Ok(order)
}

/// Numbers, while they are given.
#[derive(Drop)]
struct Numbering<A: Allocator> {
    numbers: Vec<u16, A>,
    next: u16,
    left: Vec<u16, A>,
    ready: Vec<u16, A>,
}

impl<A: Allocator> Model for Numbering<A> {
    ghost use Rattle.wq_hang.specs.Numbering.{Given};

    ghost Value = { Given };

    ghost view = { λ s.
        record { numbers = s.numbers.items; next = s.next; left = s.left.items; ready = s.ready.items } };
}

/// Counts the arcs that lead to each vertex.
fn count_arcs(left: &mut [u16], arcs: &[WaitArc])
    requires { All (λ (a : WaitArc). a.head < length left.old) arcs.now }
    ensures { length left.new ≡ length left.old }
{
    for arc in arcs {
        let head = usize::from(arc.head);
        left[head] = left[head].saturating_add(1);
    }
}

/// How many arcs lead to each vertex.
fn arcs_to<A: Allocator + Copy>(alloc: A, graph: &WaitGraph<A>) -> Result<Vec<u16, A>, AllocError>
    ensures { IfOk result (λ left. length left.items ≡ length graph.now) }
{
    let mut left = vec![in alloc; 0; usize::from(graph.vertices())]?;
    for v in 0..graph.vertices() {
        count_arcs(left.as_mut_slice(), graph.arcs(v));
    }
    Ok(left)
}

/// The vertices to which no arc leads.
fn first_ready<A: Allocator + Copy>(alloc: A, left: &[u16]) -> Result<Vec<u16, A>, AllocError>
    requires { length left.now ≤ 4096 }
    ensures { IfOk result (λ ready. All (λ v. v < length left.now) ready.items) }
{
    let mut ready = Vec::new(alloc);
    for v in 0..left.len() as u16 {
        if left[usize::from(v)] == 0 {
            ready.push(v)?;
        }
    }
    Ok(ready)
}

impl<A: Allocator + Copy> Numbering<A> {
    /// No vertex has a number.
    fn new(alloc: A, graph: &WaitGraph<A>) -> Result<Self, AllocError>
        ensures { IfOk result (AreGiven (length graph.now)) }
    {
        let vertices = usize::from(graph.vertices());
        let left = arcs_to(alloc, graph)?;
        let ready = first_ready(alloc, &left)?;
        Ok(Numbering {
            numbers: vec![in alloc; u16::MAX; vertices]?,
            next: 0,
            left,
            ready,
        })
    }

    /// The vertex from which an arc leads to this one has a number.
    fn lose_arc(&mut self, head: u16) -> Result<(), AllocError>
        requires head { head < length self.old.left }
        requires given { AreGiven (length self.old.left) self.old }
        ensures { OnOk result (AreGiven (length self.old.left) self.new) }
    {
        let at = usize::from(head);
        self.left[at] = self.left[at].saturating_sub(1);
        if self.left[at] == 0 {
            self.ready.push(head)?;
        }
        Ok(())
    }

    /// Gives a vertex the next number, if it has none.
    fn give(&mut self, graph: &WaitGraph<A>, vertex: u16) -> Result<(), AllocError>
        requires vertex { vertex < length graph.now }
        requires given { AreGiven (length graph.now) self.old }
        ensures { OnOk result (AreGiven (length graph.now) self.new) }
    {
        let _vertices = graph.vertices();
        let at = usize::from(vertex);
        if self.numbers[at] == u16::MAX {
            self.numbers[at] = self.next;
            self.next = self.next.saturating_add(1);
            for arc in graph.arcs(vertex) {
                self.lose_arc(arc.head)?;
            }
        }
        Ok(())
    }

    /// Gives numbers to the vertices to which no arc leads from one that has none.
    fn give_ready(&mut self, graph: &WaitGraph<A>) -> Result<(), AllocError>
        requires { AreGiven (length graph.now) self.old }
        ensures { OnOk result (AreGiven (length graph.now) self.new) }
    {
        for _ in 0..graph.vertices() {
            let Some(vertex) = self.ready.pop() else {
                break;
            };
            self.give(graph, vertex)?;
        }
        Ok(())
    }
}

/// A number for each vertex.
pub(crate) fn vertex_numbers<A: Allocator + Copy>(
    alloc: A,
    graph: &WaitGraph<A>,
) -> Result<Vec<u16, A>, AllocError>
    ensures { IfOk result (λ numbers. length numbers.items ≡ length graph.now) }
{
    let order = breadth_order(alloc, graph)?;
    let mut numbering = Numbering::new(alloc, graph)?;
    numbering.give_ready(graph)?;
    for vertex in &order {
        numbering.give(graph, *vertex)?;
        numbering.give_ready(graph)?;
    }
    Ok(numbering.numbers)
}

/// A number for each lane.
pub(crate) fn lane_numbers<A: Allocator + Copy>(
    alloc: A,
    assigned: &Assigned<'_, '_, A>,
) -> Result<Vec<u16, A>, AllocError>
    ensures { IfOk result (λ numbers. length numbers.items ≡ assigned.now.workqueues.assignment.lanes) }
{
    let workqueues = assigned.workqueues();
    let graph = WaitGraph::of_lanes(
        alloc,
        assigned.table(),
        assigned.groups(),
        workqueues.assignment(),
    )?;
    let kept = graph.without(alloc, workqueues.bare())?;
    let numbers = vertex_numbers(alloc, &kept)?;
    Ok(numbers)
}
