//! What can hold up items that must go on: components, flushes to workqueues without a rescuer, and the ways to both.
//!
//! The rule is that of "Circles that hold up NAMEs" in docs/FORMAT.md. Two searches from workqueue to workqueue are
//! made, one along the arcs from those of the items, and one against them. It takes the time and the memory of the
//! components, and of these.

ghost use Rattle.std.specs.Prelude.{◌≡◌, ◌<◌, ◌&&◌, not, [], ◌∷◌, IfOk, length, map, filter, slice_index_or, false};
ghost use Rattle.std.specs.List.{All};
ghost use Rattle.wq_graph.specs.declared.arc.WaitArc.{WaitArc};
ghost use Rattle.wq_groups.specs.DeclaredGroups.{declared_waits};
ghost use Rattle.wq_groups.specs.Assignment.{item_lane};
ghost use Rattle.wq_graph.specs.Graph.{arcs_by_place};
ghost use Rattle.wq_core.specs.Assigned.{IsAssigned};
ghost use Rattle.wq_deadlock.specs.Judging.{bare_waits, rescued_graph};
ghost use Rattle.wq_circles.specs.Components.{AreComponents};
ghost use Rattle.wq_circles.specs.Held.{AreHeldCircles, AreMarksOf, ArePlacesMarked, CanBeHeld, FindsAll, HasMarked};
ghost use Rattle.wq_circles.specs.Held.{LeadsToFound, IsLedTo, beginnings, begins_marked, ends_marked};
ghost use Rattle.wq_circles.specs.Held.{is_marked_component, is_way, places_of};
ghost use Rattle.wq_circles.specs.Lists.{AreTurned, head_lists};
ghost use Rattle.wq_circles.specs.Searching.{AreFound};

use crate::joining::components;
use crate::lists::{heads, tails};
use crate::progress::FoundVertices;
use crate::together::spread;
use std::alloc::{AllocError, Allocator};
use wq_core::Assigned;
use wq_deadlock::{bare_waits, is_on_bare, rescued_graph};
use wq_graph::{WaitArc, WaitGraph, group_arcs_by_place};
use wq_items::ItemId;

/// What can hold up items that must go on.
#[derive(Drop)]
pub struct HeldCircles<A: Allocator> {
    /// The components whose workqueues are led to, each as its flushes.
    pub components: Vec<Vec<WaitArc, A>, A>,
    /// The flushes from workqueues that are led to, to workqueues without a rescuer, in order of place.
    pub waits: Vec<WaitArc, A>,
    /// The other flushes by which workqueues that are led to lead to these, in order of place.
    pub ways: Vec<WaitArc, A>,
}

/// The workqueue of an item; and what holds for each declaration with workqueues.
fn lane_of<A: Allocator + Copy>(assigned: &Assigned<'_, '_, A>, item: ItemId) -> u16
    requires { item < length assigned.now.declared.partition.group_of }
    ensures lane { result ≡ item_lane assigned.now.workqueues.assignment assigned.now.declared.partition.group_of item }
    ensures assigned { IsAssigned assigned.now }
{
    let group = assigned.groups().of(item);
    assigned.workqueues().assignment().lane(group).get()
}

/// Finds a vertex and all that it leads to, unless it was found. What a found vertex leads to was found with it.
fn find<A: Allocator + Copy>(
    found: &mut FoundVertices<A>,
    lists: &[Vec<u16, A>],
    vertex: u16,
) -> Result<(), AllocError>
    requires one_each { length found.old.marks ≡ length lists.now }
    requires found { AreFound found.old }
    requires closed { LeadsToFound (map (λ l. l.items) lists.now) found.old }
    requires vertex { vertex < length lists.now }
    requires within { All (λ list. All (λ w. w < length lists.now) list.items) lists.now }
    ensures { IfOk result (λ _. FindsAll (map (λ l. l.items) lists.now) found.old (vertex ∷ []) found.new) }
{
    if found.has(vertex) {
        return Ok(());
    }
    spread(found, lists, vertex)
}

/// Finds the workqueues on which these flushes begin, and all that these lead to by the lists.
fn find_beginnings<A: Allocator + Copy>(
    found: &mut FoundVertices<A>,
    assigned: &Assigned<'_, '_, A>,
    lists: &[Vec<u16, A>],
    arcs: &[WaitArc],
) -> Result<(), AllocError>
    requires one_each { length found.old.marks ≡ length lists.now }
    requires found { AreFound found.old }
    requires closed { LeadsToFound (map (λ l. l.items) lists.now) found.old }
    requires lanes { length lists.now ≡ assigned.now.workqueues.assignment.lanes }
    requires within { All (λ list. All (λ w. w < length lists.now) list.items) lists.now }
    requires items { All (λ (a : WaitArc). a.src < length assigned.now.declared.partition.group_of) arcs.now }
    ensures { IfOk result (λ _. FindsAll (map (λ l. l.items) lists.now) found.old
        (beginnings (declared_waits assigned.now.declared) assigned.now.workqueues arcs.now) found.new) }
{
    for arc in arcs {
        find(found, lists, lane_of(assigned, arc.src))?;
    }
    Ok(())
}

/// For each workqueue whether it is led to from these items: along these lists of heads.
fn led_to<A: Allocator + Copy>(
    alloc: A,
    assigned: &Assigned<'_, '_, A>,
    heads: &[Vec<u16, A>],
    named: &[ItemId],
) -> Result<FoundVertices<A>, AllocError>
    requires heads { map (λ l. l.items) heads.now
        ≡ head_lists (rescued_graph (declared_waits assigned.now.declared) assigned.now.workqueues) }
    requires named { All (λ i. i < length assigned.now.declared.table.names) named.now }
    ensures { IfOk result (λ found. AreMarksOf (declared_waits assigned.now.declared) assigned.now.workqueues
        (IsLedTo (declared_waits assigned.now.declared) assigned.now.workqueues named.now) found.marks) }
{
    // What holds for each declaration with workqueues.
    let _table = assigned.table();
    let mut found = FoundVertices::none(alloc, heads.len())?;
    for item in named {
        if !is_on_bare(assigned, *item) {
            find(&mut found, heads, lane_of(assigned, *item))?;
        }
    }
    Ok(found)
}

/// For each workqueue whether it can be held up: against the arcs, along these lists of tails, from where these
/// flushes of components and to workqueues without a rescuer begin.
fn can_be_held<A: Allocator + Copy>(
    alloc: A,
    assigned: &Assigned<'_, '_, A>,
    tails: &[Vec<u16, A>],
    components: &[Vec<WaitArc, A>],
    waits: &[WaitArc],
) -> Result<FoundVertices<A>, AllocError>
    requires tails { AreTurned
        (head_lists (rescued_graph (declared_waits assigned.now.declared) assigned.now.workqueues))
        (map (λ l. l.items) tails.now) }
    requires components { AreComponents (declared_waits assigned.now.declared) assigned.now.workqueues
        (map (λ l. l.items) components.now) }
    requires waits { waits.now ≡ bare_waits (declared_waits assigned.now.declared) assigned.now.workqueues }
    ensures { IfOk result (λ found. AreMarksOf (declared_waits assigned.now.declared) assigned.now.workqueues
        (CanBeHeld (declared_waits assigned.now.declared) assigned.now.workqueues (map (λ l. l.items) components.now))
        found.marks) }
{
    // What holds for each declaration with workqueues.
    let _table = assigned.table();
    let mut found = FoundVertices::none(alloc, tails.len())?;
    for arcs in components {
        find_beginnings(&mut found, assigned, tails, arcs)?;
    }
    find_beginnings(&mut found, assigned, tails, waits)?;
    Ok(found)
}

/// Those of these flushes that begin on workqueues that are led to.
fn led_among<A: Allocator + Copy>(
    alloc: A,
    assigned: &Assigned<'_, '_, A>,
    led: &FoundVertices<A>,
    arcs: &[WaitArc],
) -> Result<Vec<WaitArc, A>, AllocError>
    requires marks { length led.now.marks ≡ assigned.now.workqueues.assignment.lanes }
    requires items { All (λ (a : WaitArc). a.src < length assigned.now.declared.partition.group_of) arcs.now }
    ensures { IfOk result (λ some. some.items ≡ filter
        (begins_marked (declared_waits assigned.now.declared) assigned.now.workqueues led.now.marks) arcs.now) }
{
    let mut some = Vec::new(alloc);
    for arc in arcs {
        if led.has(lane_of(assigned, arc.src)) {
            some.push(*arc)?;
        }
    }
    Ok(some)
}

/// Marks a place, if there is a mark for it.
fn mark_place(marks: &mut [bool], place: u32)
    ensures { HasMarked (place ∷ []) marks.old marks.new }
{
    let at = place as usize;
    if at < marks.len() {
        marks[at] = true;
    }
}

/// Marks the places of these flushes.
fn mark_places(marks: &mut [bool], arcs: &[WaitArc])
    ensures { HasMarked (map (λ a. a.place) arcs.now) marks.old marks.new }
{
    for arc in arcs {
        mark_place(marks, arc.place);
    }
}

/// For each place whether the flush there is in one of these components.
fn in_components<A: Allocator + Copy>(
    alloc: A,
    components: &[Vec<WaitArc, A>],
    flushes: usize,
) -> Result<Vec<bool, A>, AllocError>
    ensures { IfOk result (λ marks. ArePlacesMarked flushes
        (places_of (map (λ l. l.items) components.now)) marks.items) }
{
    let mut marks = vec![in alloc; false; flushes]?;
    for arcs in components {
        mark_places(marks.as_mut_slice(), arcs);
    }
    Ok(marks)
}

/// Whether a flush is a way: it leads from a workqueue that is led to, to one that can be held up, and its place isn't
/// marked.
fn is_way<A: Allocator + Copy>(
    assigned: &Assigned<'_, '_, A>,
    led: &FoundVertices<A>,
    held: &FoundVertices<A>,
    in_one: &[bool],
    arc: &WaitArc,
) -> bool
    requires led { length led.now.marks ≡ assigned.now.workqueues.assignment.lanes }
    requires held { length held.now.marks ≡ assigned.now.workqueues.assignment.lanes }
    requires src { arc.now.src < length assigned.now.declared.partition.group_of }
    requires dst { arc.now.dst < length assigned.now.declared.partition.group_of }
    requires place { arc.now.place < length in_one.now }
    ensures { result
        ≡ (begins_marked (declared_waits assigned.now.declared) assigned.now.workqueues led.now.marks arc.now
        && ends_marked (declared_waits assigned.now.declared) assigned.now.workqueues held.now.marks arc.now
        && not (slice_index_or in_one.now arc.now.place false)) }
{
    led.has(lane_of(assigned, arc.src))
        && held.has(lane_of(assigned, arc.dst))
        && !in_one[arc.place as usize]
}

/// The ways: of all flushes those from workqueues that are led to, to workqueues that can be held up, which are in no
/// component.
fn ways_among<A: Allocator + Copy>(
    alloc: A,
    assigned: &Assigned<'_, '_, A>,
    led: &FoundVertices<A>,
    held: &FoundVertices<A>,
    components: &[Vec<WaitArc, A>],
) -> Result<Vec<WaitArc, A>, AllocError>
    requires led { length led.now.marks ≡ assigned.now.workqueues.assignment.lanes }
    requires held { length held.now.marks ≡ assigned.now.workqueues.assignment.lanes }
    ensures { IfOk result (λ ways. ways.items ≡ filter
        (is_way (declared_waits assigned.now.declared) assigned.now.workqueues led.now.marks held.now.marks
        (map (λ l. l.items) components.now))
        (arcs_by_place assigned.now.declared.table.waits assigned.now.declared.partition.group_of)) }
{
    let all = group_arcs_by_place(alloc, assigned.table(), assigned.groups())?;
    let in_one = in_components(alloc, components, all.len())?;
    let mut ways = Vec::new(alloc);
    for arc in &all {
        if is_way(assigned, led, held, &in_one, arc) {
            ways.push(*arc)?;
        }
    }
    Ok(ways)
}

/// Whether the workqueues of a component are led to: one of them is, so all are.
fn is_led<A: Allocator + Copy>(
    assigned: &Assigned<'_, '_, A>,
    led: &FoundVertices<A>,
    arcs: &[WaitArc],
) -> bool
    requires marks { length led.now.marks ≡ assigned.now.workqueues.assignment.lanes }
    requires items { All (λ (a : WaitArc). a.src < length assigned.now.declared.partition.group_of) arcs.now }
    ensures { result ≡ is_marked_component (declared_waits assigned.now.declared) assigned.now.workqueues
        led.now.marks arcs.now }
{
    match arcs.first() {
        Some(arc) => led.has(lane_of(assigned, arc.src)),
        None => false,
    }
}

/// The same flushes.
fn copy_of<A: Allocator + Copy>(alloc: A, arcs: &[WaitArc]) -> Result<Vec<WaitArc, A>, AllocError>
    ensures { IfOk result (λ copy. copy.items ≡ arcs.now) }
{
    let mut copy = Vec::with_capacity(alloc, arcs.len())?;
    for arc in arcs {
        copy.push(*arc)?;
    }
    Ok(copy)
}

/// Those of these components whose workqueues are led to.
fn led_components<A: Allocator + Copy>(
    alloc: A,
    assigned: &Assigned<'_, '_, A>,
    led: &FoundVertices<A>,
    components: &[Vec<WaitArc, A>],
) -> Result<Vec<Vec<WaitArc, A>, A>, AllocError>
    requires marks { length led.now.marks ≡ assigned.now.workqueues.assignment.lanes }
    requires components { AreComponents (declared_waits assigned.now.declared) assigned.now.workqueues
        (map (λ l. l.items) components.now) }
    ensures { IfOk result (λ some. map (λ l. l.items) some.items ≡ filter
        (is_marked_component (declared_waits assigned.now.declared) assigned.now.workqueues led.now.marks)
        (map (λ l. l.items) components.now)) }
{
    // What holds for each declaration with workqueues.
    let _table = assigned.table();
    let mut some = Vec::new(alloc);
    for arcs in components {
        if is_led(assigned, led, arcs) {
            let copy = copy_of(alloc, arcs)?;
            some.push(copy)?;
        }
    }
    Ok(some)
}

/// What can hold up these items, by the wait graph of the workqueues that have a rescuer.
fn held_in_graph<A: Allocator + Copy>(
    alloc: A,
    assigned: &Assigned<'_, '_, A>,
    graph: &WaitGraph<A>,
    named: &[ItemId],
) -> Result<HeldCircles<A>, AllocError>
    requires graph { graph.now ≡ rescued_graph (declared_waits assigned.now.declared) assigned.now.workqueues }
    requires named { All (λ i. i < length assigned.now.declared.table.names) named.now }
    ensures { IfOk result (λ held. AreHeldCircles (declared_waits assigned.now.declared) assigned.now.workqueues
        named.now (map (λ l. l.items) held.components.items) held.waits.items held.ways.items) }
{
    let heads = heads(alloc, graph)?;
    let tails = tails(alloc, heads.as_slice(), graph.vertices())?;
    let all = components(alloc, assigned)?;
    let all_waits = bare_waits(alloc, assigned)?;
    let led = led_to(alloc, assigned, heads.as_slice(), named)?;
    let held = can_be_held(
        alloc,
        assigned,
        tails.as_slice(),
        all.as_slice(),
        all_waits.as_slice(),
    )?;
    let ways = ways_among(alloc, assigned, &led, &held, all.as_slice())?;
    let waits = led_among(alloc, assigned, &led, all_waits.as_slice())?;
    let components = led_components(alloc, assigned, &led, all.as_slice())?;
    Ok(HeldCircles {
        components,
        waits,
        ways,
    })
}

/// What can hold up these items on the workqueues of declared groups.
///
/// The only error is out of memory (20).
pub fn held_circles<A: Allocator + Copy>(
    alloc: A,
    assigned: &Assigned<'_, '_, A>,
    named: &[ItemId],
) -> Result<HeldCircles<A>, AllocError>
    requires { All (λ i. i < length assigned.now.declared.table.names) named.now }
    ensures { IfOk result (λ held. AreHeldCircles (declared_waits assigned.now.declared) assigned.now.workqueues
        named.now (map (λ l. l.items) held.components.items) held.waits.items held.ways.items) }
{
    let graph = rescued_graph(alloc, assigned)?;
    held_in_graph(alloc, assigned, &graph, named)
}
