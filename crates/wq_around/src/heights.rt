//! Heights: for each workqueue of the start the greatest number of new ones on a chain that begins there.
//!
//! The rule is that of "Planning around workqueues" in docs/FORMAT.md. Workqueues are gone through by their ranks, so
//! those that one waits for come before it. It takes time in the number of workqueues and arcs, and memory in the
//! number of workqueues.

ghost use Rattle.std.specs.Prelude.{◌≡◌, ◌<◌, ◌≤◌, length, slice_index, map, max, fold, replicate, IfOk, OnErr};
ghost use Rattle.std.specs.List.{All};
ghost use Rattle.wq_graph.specs.declared.arc.WaitArc.{WaitArc};
ghost use Rattle.wq_graph.specs.Graph.{IsGraph};
ghost use Rattle.wq_levels.specs.Ranks.{AreRanks};
ghost use Rattle.wq_plan.specs.Plan.{lanes_of};
ghost use Rattle.wq_around.specs.Heights.{AreHeights};

use std::alloc::{AllocError, Allocator};
use wq_buckets::Buckets;
use wq_fixed::Fixed;
use wq_graph::{WaitArc, WaitGraph};

/// One more than the greatest of these numbers, or 0 where there is none.
pub(crate) fn count_of(numbers: &[u16]) -> u16
    requires { All (λ n. n < 4096) numbers.now }
    ensures count { result ≡ lanes_of numbers.now }
    ensures above { All (λ n. n < result) numbers.now }
    ensures few { result ≤ 4096 }
{
    let mut count = 0;
    for number in numbers {
        count = count.max(*number + 1);
    }
    count
}

/// A list of this many zeros.
pub(crate) fn zeros<A: Allocator + Copy>(alloc: A, count: usize) -> Result<Vec<u16, A>, AllocError>
    ensures zeros { IfOk result (λ zeros. zeros.items ≡ replicate count 0) }
    ensures memory { OnErr result (0 < count) }
{
    let mut zeros = Vec::with_capacity(alloc, count)?;
    zeros.resize(count, 0)?;
    Ok(zeros)
}

/// The greatest height of a workqueue to which one of these arcs leads, or 0 where there is no arc.
fn greatest(heights: &[u16], arcs: &[WaitArc]) -> u16
    requires { All (λ (a : WaitArc). a.head < length heights.now) arcs.now }
    ensures { result ≡ fold max 0 (map (λ (a : WaitArc). slice_index heights.now a.head) arcs.now) }
{
    let mut most = 0;
    for arc in arcs {
        most = most.max(heights[usize::from(arc.head)]);
    }
    most
}

/// The height of each workqueue, where these are the ranks of a graph without a circle.
pub(crate) fn heights<A: Allocator + Copy>(
    alloc: A,
    graph: &WaitGraph<A>,
    ranks: &[u16],
    fixed: &Fixed<A>,
) -> Result<Vec<u16, A>, AllocError>
    requires graph { IsGraph graph.now }
    requires ranks { AreRanks graph.now ranks.now }
    ensures heights { IfOk result (λ heights. AreHeights graph.now fixed.now heights.items) }
    ensures few { IfOk result (λ heights. All (λ n. n ≤ 4096) heights.items) }
    ensures memory { OnErr result (0 < length graph.now) }
{
    let mut heights = zeros(alloc, ranks.len())?;
    let levels = count_of(ranks);
    let by_rank = Buckets::new(alloc, ranks, levels)?;
    for rank in 0..levels {
        for lane in by_rank.places(rank) {
            let below = greatest(heights.as_slice(), graph.arcs(*lane as u16));
            heights[*lane as usize] = below + u16::from(*lane >= u32::from(fixed.lanes()));
        }
    }
    Ok(heights)
}
