//! The chain that is printed: a chain of the start with the most new workqueues, and as few unsure flushes as can be.
//!
//! The rule is that of "Planning around workqueues" in docs/FORMAT.md. With how few unsure flushes a chain leads on
//! from each workqueue is found by their ranks, from below; then the chain is followed. It takes time in the number
//! of workqueues and arcs, and memory in the number of workqueues.

ghost use Rattle.std.specs.Prelude.{◌≡◌, ◌+◌, ◌<◌, ◌≤◌, ◌==◌, ◌&&◌, nat_le, false, ℕ, List, length, slice_index};
ghost use Rattle.std.specs.Prelude.{slice_index_or, filter, map, if◌then◌else◌, IfOk, OnErr, IfSome, IfNone};
ghost use Rattle.std.specs.List.{All, find};
ghost use Rattle.std.specs.Option.{option_copied};
ghost use Rattle.wq_graph.specs.declared.arc.WaitArc.{WaitArc};
ghost use Rattle.wq_graph.specs.Graph.{IsGraph};
ghost use Rattle.wq_levels.specs.Ranks.{AreRanks};
ghost use Rattle.wq_plan.specs.Plan.{least_of};
ghost use Rattle.wq_around.specs.Down.{leads_on, doubts_by, AllLeadDown, AreDoubts, IsTop, IsFirstTop, IsFirstDown};
ghost use Rattle.wq_around.specs.Down.{IsBestDown};

use crate::heights::{count_of, zeros};
use std::alloc::{AllocError, Allocator};
use wq_buckets::Buckets;
use wq_graph::{WaitArc, WaitGraph};

/// Whether a chain ends at a workqueue: at a new one of height 1, where those from this number on are new.
fn is_end(heights: &[u16], new: u16, lane: u16) -> bool
    requires { lane < length heights.now }
    ensures { result ≡ (nat_le new lane && (slice_index heights.now lane == 1)) }
{
    lane >= new && heights[usize::from(lane)] == 1
}

/// Whether a chain may follow an arc of a workqueue: from a new one to one whose height is less by one, and from a
/// fixed one to one of the same height.
fn leads_on(heights: &[u16], new: u16, lane: u16, arc: &WaitArc) -> bool
    requires lane { lane < length heights.now }
    requires head { arc.now.head < length heights.now }
    requires few { All (λ n. n ≤ 4096) heights.now }
    ensures { result ≡ leads_on heights.now new lane arc.now }
{
    heights[usize::from(arc.head)] + u16::from(lane >= new) == heights[usize::from(lane)]
}

/// With how few unsure flushes a chain leads on by way of an arc, where `doubts` has these numbers of all workqueues
/// below.
fn doubts_by(unsure: &[bool], doubts: &[u16], arc: &WaitArc) -> u16
    requires head { arc.now.head < length doubts.now }
    requires few { slice_index doubts.now arc.now.head < 4096 }
    ensures { result ≡ doubts_by (λ place. slice_index_or unsure.now place false) doubts.now arc.now }
{
    let is_unsure = match unsure.get(arc.place as usize) {
        Some(is_unsure) => *is_unsure,
        None => false,
    };
    doubts[usize::from(arc.head)] + u16::from(is_unsure)
}

/// With how few unsure flushes a chain leads on from a workqueue that has these arcs, by any of them.
fn fewest_doubts(
    unsure: &[bool],
    doubts: &[u16],
    heights: &[u16],
    new: u16,
    lane: u16,
    arcs: &[WaitArc],
) -> u16
    requires lane { lane < length heights.now }
    requires one_each { length doubts.now ≡ length heights.now }
    requires heads { All (λ (a : WaitArc). a.head < length heights.now) arcs.now }
    requires heights { All (λ n. n ≤ 4096) heights.now }
    requires few { All (λ n. n < 4096) doubts.now }
    ensures { result ≡ least_of (map (doubts_by (λ place. slice_index_or unsure.now place false) doubts.now)
        (filter (leads_on heights.now new lane) arcs.now)) }
{
    let mut fewest = None;
    for arc in arcs {
        if leads_on(heights, new, lane, arc) {
            let doubts = doubts_by(unsure, doubts, arc);
            fewest = Some(match fewest {
                Some(least) if least <= doubts => least,
                _ => doubts,
            });
        }
    }
    fewest.unwrap_or(0)
}

/// For each workqueue with how few unsure flushes a chain leads on from it, where these are the ranks of the graph.
fn all_doubts<A: Allocator + Copy>(
    alloc: A,
    graph: &WaitGraph<A>,
    unsure: &[bool],
    ranks: &[u16],
    heights: &[u16],
    new: u16,
) -> Result<Vec<u16, A>, AllocError>
    requires graph { IsGraph graph.now }
    requires ranks { AreRanks graph.now ranks.now }
    requires one_each { length heights.now ≡ length graph.now }
    requires heights { All (λ n. n ≤ 4096) heights.now }
    requires down { AllLeadDown graph.now new heights.now }
    ensures doubts { IfOk result (λ doubts.
        AreDoubts (λ place. slice_index_or unsure.now place false) graph.now new heights.now doubts.items) }
    ensures few { IfOk result (λ doubts. All (λ n. n < 4096) doubts.items) }
    ensures memory { OnErr result (0 < length graph.now) }
{
    let mut doubts = zeros(alloc, ranks.len())?;
    let levels = count_of(ranks);
    let by_rank = Buckets::new(alloc, ranks, levels)?;
    for rank in 0..levels {
        for place in by_rank.places(rank) {
            let lane = *place as u16;
            if !is_end(heights, new, lane) {
                let arcs = graph.arcs(lane);
                let fewest = fewest_doubts(unsure, doubts.as_slice(), heights, new, lane, arcs);
                doubts[*place as usize] = fewest;
            }
        }
    }
    Ok(doubts)
}

/// The new workqueue of this height from which a chain leads on with the fewest unsure flushes, the first of these.
fn first_of(doubts: &[u16], heights: &[u16], new: u16, most: u16) -> Option<u16>
    requires one_each { length doubts.now ≡ length heights.now }
    requires vertices { length heights.now ≤ 4096 }
    requires few { All (λ n. n < 4096) doubts.now }
    ensures some { IfSome result (IsFirstTop new heights.now most doubts.now) }
    ensures none { IfNone result ((q : ℕ) → ¬ IsTop new heights.now most q) }
{
    let mut first = None;
    let mut fewest = u16::MAX;
    for (lane, height) in heights.iter().enumerate() {
        if lane >= usize::from(new) && *height == most && doubts[lane] < fewest {
            first = Some(lane as u16);
            fewest = doubts[lane];
        }
    }
    first
}

/// The first of these arcs of a workqueue by which a chain leads on with this few unsure flushes.
fn first_on<'g>(
    unsure: &[bool],
    doubts: &[u16],
    heights: &[u16],
    new: u16,
    lane: u16,
    arcs: &'g [WaitArc],
) -> Option<&'g WaitArc>
    requires lane { lane < length heights.now }
    requires one_each { length doubts.now ≡ length heights.now }
    requires heads { All (λ (a : WaitArc). a.head < length heights.now) arcs.now }
    requires heights { All (λ n. n ≤ 4096) heights.now }
    requires few { All (λ n. n < 4096) doubts.now }
    ensures { option_copied result ≡ find (λ (a : WaitArc). leads_on heights.now new lane a
        && (doubts_by (λ place. slice_index_or unsure.now place false) doubts.now a == slice_index doubts.now lane))
        arcs.now }
{
    let fewest = doubts[usize::from(lane)];
    arcs.iter().find(|arc| {
        leads_on(heights, new, lane, arc) && doubts_by(unsure, doubts, arc) == fewest
    })
}

/// The arcs of the chain from a workqueue on whose height is above 0.
fn follow<A: Allocator + Copy>(
    alloc: A,
    graph: &WaitGraph<A>,
    unsure: &[bool],
    doubts: &[u16],
    heights: &[u16],
    new: u16,
    first: u16,
) -> Result<Vec<WaitArc, A>, AllocError>
    requires graph { IsGraph graph.now }
    requires ranked { (ranks : List ℕ) × AreRanks graph.now ranks }
    requires one_each { length heights.now ≡ length graph.now }
    requires heights { All (λ n. n ≤ 4096) heights.now }
    requires doubts { AreDoubts (λ place. slice_index_or unsure.now place false) graph.now new heights.now doubts.now }
    requires few { All (λ n. n < 4096) doubts.now }
    requires first { 0 < slice_index heights.now first }
    ensures chain { IfOk result (λ chain. IsFirstDown (λ place. slice_index_or unsure.now place false) graph.now new
        heights.now doubts.now first chain.items) }
    ensures memory { OnErr result (0 < length graph.now) }
{
    let mut chain = Vec::new(alloc);
    let mut lane = first;
    // It is at most once at each workqueue.
    for _ in 0..graph.vertices() {
        if is_end(heights, new, lane) {
            return Ok(chain);
        }
        let arcs = graph.arcs(lane);
        let Some(arc) = first_on(unsure, doubts, heights, new, lane, arcs) else {
            return Ok(chain);
        };
        chain.push(*arc)?;
        lane = arc.head;
    }
    Ok(chain)
}

/// The arcs of the chain from a new workqueue of height `most`, where those are new whose numbers aren't below `new`.
pub(crate) fn best_chain<A: Allocator + Copy>(
    alloc: A,
    graph: &WaitGraph<A>,
    unsure: &[bool],
    ranks: &[u16],
    heights: &[u16],
    new: u16,
    most: u16,
) -> Result<Vec<WaitArc, A>, AllocError>
    requires graph { IsGraph graph.now }
    requires ranks { AreRanks graph.now ranks.now }
    requires one_each { length heights.now ≡ length graph.now }
    requires heights { All (λ n. n ≤ 4096) heights.now }
    requires down { AllLeadDown graph.now new heights.now }
    requires some { 0 < most }
    requires top { (q : ℕ) × IsTop new heights.now most q }
    ensures chain { IfOk result (λ chain. IsBestDown (λ place. slice_index_or unsure.now place false) graph.now new
        heights.now most chain.items) }
    ensures memory { OnErr result (0 < length graph.now) }
{
    let doubts = all_doubts(alloc, graph, unsure, ranks, heights, new)?;
    match first_of(doubts.as_slice(), heights, new, most) {
        Some(first) => follow(alloc, graph, unsure, doubts.as_slice(), heights, new, first),
        None => Ok(Vec::new(alloc)),
    }
}
