//! The fewest new workqueues for groups that are on none of the fixed ones.
//!
//! In the start each of these groups has a new workqueue for itself. If that hangs, so do all workqueues that keep
//! the fixed ones. Otherwise each goes to the new workqueue of its height. It takes the time of the wait graphs of
//! the start and of the plan, and of their ranks.

ghost use Rattle.std.specs.Prelude.{◌≡◌, ◌<◌, ◌≤◌, ℕ, [], IfOk};
ghost use Rattle.std.specs.List.{All};
ghost use Rattle.wq_groups.specs.DeclaredGroups.{declared_waits};
ghost use Rattle.wq_deadlock.specs.Judging.{bare_waits};
ghost use Rattle.wq_levels.specs.Ranks.{AreRanks};
ghost use Rattle.wq_fixed.specs.Fixed.{IsFixed, fixed_lanes, start as start_of};
ghost use Rattle.wq_around.specs.Heights.{AreHeights, start_graph};
ghost use Rattle.wq_around.specs.Down.{IsTop};
ghost use Rattle.wq_around.specs.Around.{IsChainOf, PlansAround};

use crate::answer::Around;
use crate::chain::best_chain;
use crate::heights::heights;
use crate::ordering::order_of;
use crate::placing::{most_needed, place};
use std::alloc::{AllocError, Allocator};
use wq_core::Assigned;
use wq_deadlock::{bare_waits, rescued_graph};
use wq_fixed::Fixed;
use wq_graph::{WaitArc, WaitGraph};
use wq_levels::{Ranked, rank};
use wq_plan::unsure_flushes;

/// The chain that shows how many new workqueues are needed, where these are the graph of the start, its ranks, the
/// heights and the greatest height of a new workqueue; no arc if none is needed.
fn needed_chain<A: Allocator + Copy>(
    alloc: A,
    start: &Assigned<'_, '_, A>,
    fixed: &Fixed<A>,
    graph: &WaitGraph<A>,
    ranks: &[u16],
    heights: &[u16],
    most: u16,
) -> Result<Vec<WaitArc, A>, AllocError>
    requires fixed { IsFixed start.now.declared.partition.groups fixed.now }
    requires start { start.now.workqueues ≡ start_of fixed.now }
    requires graph { graph.now ≡ start_graph (declared_waits start.now.declared) fixed.now }
    requires ranks { AreRanks graph.now ranks.now }
    requires heights { AreHeights graph.now fixed.now heights.now }
    requires few { All (λ n. n ≤ 4096) heights.now }
    requires top { 0 < most → (q : ℕ) × IsTop (fixed_lanes fixed.now) heights.now most q }
    ensures { IfOk result (λ chain. IsChainOf (declared_waits start.now.declared) fixed.now most chain.items) }
{
    if most == 0 {
        return Ok(Vec::new(alloc));
    }
    let new = fixed.lanes();
    let unsure = unsure_flushes(alloc, start.table())?;
    best_chain(alloc, graph, unsure.as_slice(), ranks, heights, new, most)
}

/// The plan, where the workqueues of the start that have a rescuer have this graph with these ranks.
fn plan_by_ranks<A: Allocator + Copy>(
    alloc: A,
    start: &Assigned<'_, '_, A>,
    fixed: &Fixed<A>,
    graph: &WaitGraph<A>,
    ranks: &[u16],
) -> Result<Around<A>, AllocError>
    requires fixed { IsFixed start.now.declared.partition.groups fixed.now }
    requires start { start.now.workqueues ≡ start_of fixed.now }
    requires none { bare_waits (declared_waits start.now.declared) (start_of fixed.now) ≡ [] }
    requires graph { graph.now ≡ start_graph (declared_waits start.now.declared) fixed.now }
    requires ranks { AreRanks graph.now ranks.now }
    ensures answer { IfOk result (PlansAround (declared_waits start.now.declared) fixed.now) }
{
    let new = fixed.lanes();
    let started = start.workqueues();
    let heights = heights(alloc, graph, ranks, fixed)?;
    let most = most_needed(heights.as_slice(), new);
    let workqueues = place(alloc, fixed, started.assignment(), heights.as_slice(), most)?;
    let order = order_of(alloc, &Assigned::new(start.declared, &workqueues))?;
    let chain = needed_chain(alloc, start, fixed, graph, ranks, heights.as_slice(), most)?;
    Ok(Around::Plan {
        workqueues,
        order,
        chain,
    })
}

/// The answer where no flush of the start leads to no rescuer.
fn plan_rescued<A: Allocator + Copy>(
    alloc: A,
    start: &Assigned<'_, '_, A>,
    fixed: &Fixed<A>,
) -> Result<Around<A>, AllocError>
    requires fixed { IsFixed start.now.declared.partition.groups fixed.now }
    requires start { start.now.workqueues ≡ start_of fixed.now }
    requires none { bare_waits (declared_waits start.now.declared) (start_of fixed.now) ≡ [] }
    ensures answer { IfOk result (PlansAround (declared_waits start.now.declared) fixed.now) }
{
    let graph = rescued_graph(alloc, start)?;
    match rank(alloc, &graph)? {
        Ranked::Ranks(ranks) => plan_by_ranks(alloc, start, fixed, &graph, ranks.as_slice()),
        Ranked::Circle(arcs) => Ok(Around::Circle { arcs }),
    }
}

/// The plan of declared groups around fixed workqueues, where what is declared is on the workqueues of their start; or
/// what is in the way of each plan.
///
/// No run of a plan ends stuck, and any workqueues that keep the fixed ones and are fewer deadlock. Where there is no
/// plan, all that keep them do. The only error is out of memory (20).
pub fn plan_around<A: Allocator + Copy>(
    alloc: A,
    start: &Assigned<'_, '_, A>,
    fixed: &Fixed<A>,
) -> Result<Around<A>, AllocError>
    requires fixed { IsFixed start.now.declared.partition.groups fixed.now }
    requires start { start.now.workqueues ≡ start_of fixed.now }
    ensures answer { IfOk result (PlansAround (declared_waits start.now.declared) fixed.now) }
{
    let waits = bare_waits(alloc, start)?;
    match waits.as_slice().first() {
        Some(arc) => Ok(Around::NoRescuer { arc: *arc }),
        None => plan_rescued(alloc, start, fixed),
    }
}
