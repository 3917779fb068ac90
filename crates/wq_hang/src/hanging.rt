//! Whether workqueues are safe, and else a shortest run that ends stuck.
//!
//! Where lanes and flushes end and runs begin: a least walk is found, and the run is that of the walk. It takes the
//! time of the search for a least walk.

ghost use Rattle.std.specs.Prelude.{◌≡◌, ◌∷◌, [], ◌<◌, ◌≤◌, List, length, IfOk, OnErr, IfSome, IfNone, MatchOption};
ghost use Rattle.wq_core.specs.Deadlock.{IsSafe};
ghost use Rattle.wq_groups.specs.DeclaredGroups.{declared_waits};
ghost use Rattle.wq_hang.specs.Answer.{IsAnswer};
ghost use Rattle.wq_hang.specs.declared.hop.Hop.{Hop};
ghost use Rattle.wq_hang.specs.Walk.{AreFirstAlike, BeginsUnsure, IsRound, IsLeastWalk, IsRoundOrFirst};
ghost use Rattle.wq_hang.specs.Walk.{max_walk_cost, walk_cost};
ghost use Rattle.wq_hang.specs.Search.{IsLeastRound, hops_cost};

use crate::answer::Answer;
use crate::bare::first_to_bare;
use crate::bounds::by_falling_numbers;
use crate::hop::Hop;
use crate::hop_back::unsure_part;
use crate::least::{MOST, least_round_settled};
use crate::marks::marked_lanes;
use crate::numbering::lane_numbers;
use crate::on_lanes::{items_on_lanes, marked_items};
use crate::running::{run_of_walk, targets_beside};
use crate::search::Search;
use crate::waits::Waits;
use crate::wires::Wires;
use std::alloc::{AllocError, Allocator};
use wq_core::Assigned;
use wq_items::ItemId;

/// What a round has to cost less than: what a flush that leads to a bare lane costs, if there is one.
fn limit(bare: &Option<Hop>) -> u32
    ensures { MatchOption bare.now (result ≡ max_walk_cost) (λ h. result ≡ walk_cost (h ∷ []) (h.flush.item ∷ [])) }
{
    match bare {
        Some(hop) => unsure_part(&hop.flush) + 4,
        None => MOST,
    }
}

/// A least round that costs less than the limit, if there is one.
fn least_of_all<A: Allocator + Copy>(
    alloc: A,
    waits: &Waits<'_, A>,
    numbers: &[u16],
    limit: u32,
) -> Result<Option<Vec<Hop, A>>, AllocError>
    requires numbers { length numbers.now ≡ waits.now.lanes }
    requires low { limit ≤ max_walk_cost }
    ensures some { IfOk result (λ found. IfSome found (λ hops. IsLeastRound waits.now limit hops.items)) }
    ensures none { IfOk result (λ found.
        IfNone found ((hops : List Hop) → IsRound waits.now hops → limit ≤ hops_cost hops)) }
    ensures begins { IfOk result (λ found. IfSome found (λ hops. BeginsUnsure hops.items)) }
    ensures alike { IfOk result (λ found. IfSome found (λ hops. AreFirstAlike waits.now hops.items)) }
{
    let _lanes = waits.lanes();
    let on = items_on_lanes(alloc, waits)?;
    let marks = marked_lanes(alloc, waits, numbers)?;
    let order = by_falling_numbers(alloc, numbers)?;
    let passed = marked_items(alloc, waits, &marks)?;
    let mut search = Search::new(alloc);
    least_round_settled(alloc, waits, &on, &order, &mut search, &passed, limit)
}

/// A least walk, with the items that are queued beside those that wait.
fn least_walk<A: Allocator + Copy>(
    alloc: A,
    waits: &Waits<'_, A>,
    numbers: &[u16],
) -> Result<Option<(Vec<Hop, A>, Vec<ItemId, A>)>, AllocError>
    requires { length numbers.now ≡ waits.now.lanes }
    ensures some { IfOk result (λ found. IfSome found (λ walk. IsLeastWalk waits.now walk.0.items walk.1.items)) }
    ensures first { IfOk result (λ found. IfSome found (λ walk. IsRoundOrFirst waits.now walk.0.items walk.1.items)) }
    ensures none { IfOk result (λ found. IfNone found (IsSafe waits.now)) }
    ensures begins { IfOk result (λ found. IfSome found (λ walk. BeginsUnsure walk.0.items)) }
    ensures alike { IfOk result (λ found. IfSome found (λ walk. AreFirstAlike waits.now walk.0.items)) }
{
    let _items = waits.items();
    let bare = first_to_bare(waits);
    let found = least_of_all(alloc, waits, numbers, limit(&bare))?;
    if let Some(hops) = found {
        let beside = targets_beside(alloc, hops.as_slice())?;
        return Ok(Some((hops, beside)));
    }
    match bare {
        Some(hop) => Ok(Some((vec![in alloc; hop]?, vec![in alloc; hop.flush.item]?))),
        None => Ok(None),
    }
}

/// The shortest hang of the workqueues of declared groups, if they can hang.
///
/// `Hang` has a run that ends stuck, such that no run that ends stuck has fewer steps, with 0 to 8 helpers of each
/// workqueue; and the waits in it that hold one another up. With unsure flushes it is a run of the reading that keeps
/// those of its waits (`needed_places`): no reading that keeps fewer hangs, and none that keeps as few has a run that
/// ends stuck with fewer steps. The only error is out of memory (20), which can't occur where there is no workqueue.
pub fn hang<A: Allocator + Copy>(
    alloc: A,
    assigned: &Assigned<'_, '_, A>,
) -> Result<Answer<A>, AllocError>
    ensures answer { IfOk result (IsAnswer (declared_waits assigned.now.declared) assigned.now.workqueues) }
    ensures memory { OnErr result (0 < assigned.now.workqueues.assignment.lanes) }
{
    let workqueues = assigned.workqueues();
    if workqueues.assignment().lanes() == 0 {
        return Ok(Answer::Safe);
    }
    // The wait graph, which these are made of, is let go before the search takes memory.
    let numbers = lane_numbers(alloc, assigned)?;
    let wires = Wires::new(alloc, assigned)?;
    let waits = Waits::new(&wires, workqueues.bare());
    match least_walk(alloc, &waits, &numbers)? {
        Some((hops, beside)) => {
            let steps = run_of_walk(alloc, &waits, hops.as_slice(), beside.as_slice())?;
            Ok(Answer::Hang(hops, steps))
        }
        None => Ok(Answer::Safe),
    }
}
