//! How many lanes ranks take, and the longest waiting chain that is printed.
//!
//! The rule is that of "Plan texts" in docs/FORMAT.md: of the longest chains, the one with the fewest unsure flushes is
//! printed. Among several of these, it begins at the lowest-numbered group on the last lane, and leaves each group by
//! the first arc, in order of place, that leads to the next lane. The fewest unsure flushes on a chain down from each
//! group (its doubts) are found from the lowest lane up. An arc may be declared by any item of its group. It takes
//!
//!   O(groups + arcs) time and O(groups) memory.
ghost use Rattle.std.specs.Prelude.{◌≡◌, ◌+◌, ◌-◌, ◌<◌, ◌≤◌, ◌==◌, ◌^◌, ℕ, false, length, slice_index, slice_index_or};
ghost use Rattle.std.specs.Prelude.{◌&&◌, if◌then◌else◌, filter, map, IfOk, OnErr};
ghost use Rattle.std.specs.List.{All, find, range_with_len};
ghost use Rattle.std.specs.Option.{option_copied};
ghost use Rattle.wq_graph.specs.declared.arc.WaitArc.{WaitArc};
ghost use Rattle.wq_graph.specs.Graph.{IsGraph};
ghost use Rattle.wq_plan.specs.Plan.{lanes_of, chain_from, chain_of, least_doubts, least_of};

use std::alloc::{AllocError, Allocator};
use wq_buckets::Buckets;
use wq_graph::{WaitArc, WaitGraph};

/// How many lanes these ranks take.
pub(crate) fn lanes_used(lane: &[u16]) -> u16
    requires { All (λ l. l + 1 < 2 ^ 16) lane.now }
    ensures { result ≡ lanes_of lane.now }
{
    let mut lanes = 0;
    for l in lane {
        lanes = lanes.max(*l + 1);
    }
    lanes
}

/// Whether the flush of an arc is unsure, where `unsure` tells so of each place.
fn is_unsure(unsure: &[bool], arc: &WaitArc) -> bool
    ensures { result ≡ slice_index_or unsure.now arc.now.place false }
{
    match unsure.get(arc.place as usize) {
        Some(is_unsure) => *is_unsure,
        None => false,
    }
}

/// The fewest unsure flushes on a chain down that begins with this arc, where `doubts` has those of all vertices below.
fn doubts_by(unsure: &[bool], doubts: &[u16], arc: &WaitArc) -> u16
    requires vertex { arc.now.head < length doubts.now }
    requires few { slice_index doubts.now arc.now.head < 4096 }
    ensures { result ≡ slice_index doubts.now arc.now.head
        + (if slice_index_or unsure.now arc.now.place false then 1 else 0) }
{
    doubts[usize::from(arc.head)] + u16::from(is_unsure(unsure, arc))
}

/// The fewest unsure flushes on a chain down from a vertex with these arcs, where `on` is the next lane.
fn fewest_doubts(unsure: &[bool], doubts: &[u16], arcs: &[WaitArc], lane: &[u16], on: u16) -> u16
    requires one_each { length doubts.now ≡ length lane.now }
    requires vertices { All (λ (a : WaitArc). a.head < length lane.now) arcs.now }
    requires few { All (λ n. n < 4096) doubts.now }
    ensures { result ≡ least_of (map (λ (a : WaitArc). slice_index doubts.now a.head
        + (if slice_index_or unsure.now a.place false then 1 else 0))
        (filter (λ (a : WaitArc). slice_index lane.now a.head == on) arcs.now)) }
{
    let mut fewest = None;
    for arc in arcs {
        if lane[usize::from(arc.head)] == on {
            let doubts = doubts_by(unsure, doubts, arc);
            fewest = Some(match fewest {
                Some(least) if least <= doubts => least,
                _ => doubts,
            });
        }
    }
    fewest.unwrap_or(0)
}

/// Whether any flush is unsure.
fn is_any(unsure: &[bool]) -> bool
    ensures { result ≡ false → (place : ℕ) → slice_index_or unsure.now place false ≡ false }
{
    unsure.contains(&true)
}

/// For each vertex, the fewest unsure flushes on a chain from it down to lane 0. If no flush is unsure, there are none.
fn all_doubts<A: Allocator + Copy>(
    alloc: A,
    graph: &WaitGraph<A>,
    unsure: &[bool],
    lane: &[u16],
    lanes: u16,
) -> Result<Vec<u16, A>, AllocError>
    requires graph { IsGraph graph.now }
    requires one_each { length lane.now ≡ length graph.now }
    requires lanes { lanes ≡ lanes_of lane.now }
    requires few { lanes ≤ 4096 }
    ensures doubts { IfOk result (λ doubts. doubts.items ≡ map (λ v.
        least_doubts (λ place. slice_index_or unsure.now place false) graph.now lane.now (slice_index lane.now v) v)
        (range_with_len 0 (length lane.now))) }
    ensures few { IfOk result (λ doubts. All (λ n. n < 4096) doubts.items) }
{
    let mut doubts = vec![in alloc; 0; lane.len()]?;
    if !is_any(unsure) {
        return Ok(doubts);
    }
    let on = Buckets::new(alloc, lane, lanes)?;
    for above in 1..lanes {
        for vertex in on.places(above) {
            let arcs = graph.arcs(*vertex as u16);
            let fewest = fewest_doubts(unsure, doubts.as_slice(), arcs, lane, above - 1);
            doubts[*vertex as usize] = fewest;
        }
    }
    Ok(doubts)
}

/// The vertex on the last lane with the fewest doubts, the first one if there are several.
fn first_on_last(doubts: &[u16], lane: &[u16], lanes: u16) -> Option<usize>
    requires one_each { length doubts.now ≡ length lane.now }
    requires few { All (λ n. n < 4096) doubts.now }
    ensures { let last = filter (λ v. slice_index lane.now v + 1 == lanes) (range_with_len 0 (length lane.now)) in
        result ≡ find (λ v. slice_index doubts.now v == least_of (map (slice_index doubts.now) last)) last }
{
    let mut first = None;
    let mut fewest = u16::MAX;
    for (vertex, on) in lane.iter().enumerate() {
        if u32::from(*on) + 1 == u32::from(lanes) && doubts[vertex] < fewest {
            first = Some(vertex);
            fewest = doubts[vertex];
        }
    }
    first
}

/// The first arc that leads to lane `on` with as few doubts as the vertex has.
fn first_on<'g>(
    unsure: &[bool],
    doubts: &[u16],
    arcs: &'g [WaitArc],
    lane: &[u16],
    on: u16,
    fewest: u16,
) -> Option<&'g WaitArc>
    requires vertices { All (λ (a : WaitArc). a.head < length lane.now) arcs.now }
    requires one_each { length doubts.now ≡ length lane.now }
    requires few { All (λ n. n < 4096) doubts.now }
    ensures { option_copied result ≡ find (λ (a : WaitArc). (slice_index lane.now a.head == on)
        && (slice_index doubts.now a.head + (if slice_index_or unsure.now a.place false then 1 else 0) == fewest))
        arcs.now }
{
    arcs.iter().find(|a| {
        lane[usize::from(a.head)] == on && doubts_by(unsure, doubts, a) == fewest
    })
}

/// The arcs of the chain from a vertex that has `below` lanes below it. They end early only if some vertex has no arc
/// to the next lane, which never happens in a plan.
fn follow<A: Allocator + Copy>(
    alloc: A,
    graph: &WaitGraph<A>,
    unsure: &[bool],
    doubts: &[u16],
    lane: &[u16],
    below: u16,
    first: u16,
) -> Result<Vec<WaitArc, A>, AllocError>
    requires graph { IsGraph graph.now }
    requires one_each { length lane.now ≡ length graph.now }
    requires doubts { doubts.now ≡ map (λ v.
        least_doubts (λ place. slice_index_or unsure.now place false) graph.now lane.now (slice_index lane.now v) v)
        (range_with_len 0 (length lane.now)) }
    requires few { All (λ n. n < 4096) doubts.now }
    requires vertex { first < length graph.now }
    requires lane { slice_index lane.now first ≡ below }
    ensures chain { IfOk result (λ chain.
        chain.items ≡ chain_from (λ place. slice_index_or unsure.now place false) graph.now lane.now below first) }
    ensures memory { OnErr result (0 < below) }
{
    let mut chain = Vec::new(alloc);
    let mut vertex = first;
    for on in (0..below).rev() {
        let fewest = doubts[usize::from(vertex)];
        let arcs = graph.arcs(vertex);
        let Some(arc) = first_on(unsure, doubts, arcs, lane, on, fewest) else {
            return Ok(chain);
        };
        chain.push(*arc)?;
        vertex = arc.head;
    }
    Ok(chain)
}

/// The arcs of a longest waiting chain with as few unsure flushes as possible, where `unsure` tells of each place
/// whether the flush there is unsure.
pub(crate) fn longest_chain<A: Allocator + Copy>(
    alloc: A,
    graph: &WaitGraph<A>,
    unsure: &[bool],
    lane: &[u16],
    lanes: u16,
) -> Result<Vec<WaitArc, A>, AllocError>
    requires graph { IsGraph graph.now }
    requires one_each { length lane.now ≡ length graph.now }
    requires lanes { lanes ≡ lanes_of lane.now }
    requires few { lanes ≤ 4096 }
    ensures chain { IfOk result (λ chain.
        chain.items ≡ chain_of (λ place. slice_index_or unsure.now place false) graph.now lane.now) }
    ensures memory { OnErr result (0 < length lane.now) }
{
    if lanes == 0 {
        return Ok(Vec::new(alloc));
    }
    let doubts = all_doubts(alloc, graph, unsure, lane, lanes)?;
    match first_on_last(doubts.as_slice(), lane, lanes) {
        Some(first) => follow(
            alloc,
            graph,
            unsure,
            doubts.as_slice(),
            lane,
            lanes - 1,
            first as u16,
        ),
        None => Ok(Vec::new(alloc)),
    }
}
