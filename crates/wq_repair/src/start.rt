//! The start: each group that may move and needs a rescuer has one for itself, and all others stay where they are.
//!
//! Whatever is compared with a repair comes from the start when lanes are put together. So where the start deadlocks,
//! everything does. It takes time and memory in the number of groups and lanes.

ghost use Rattle.std.specs.Prelude.{◌≡◌, ◌≤◌, ℕ, List, length, IfOk};
ghost use Rattle.wq_groups.specs.DeclaredGroups.{declared_waits};
ghost use Rattle.wq_repair.specs.Marks.{Marks};
ghost use Rattle.wq_repair.specs.Ready.{IsScope};
ghost use Rattle.wq_repair.specs.Steps.{HoldsOther, IsToBeGiven, IsMovable, IsStartBy};

use crate::assigned::workqueues_of;
use crate::lanes::{bare_now, lanes_with, own_lanes};
use crate::listing::listed;
use crate::scope::Scope;
use std::alloc::{AllocError, Allocator};
use wq_core::{Assigned, Workqueues};
use wq_groups::{Assignment, GroupId, LaneId};

/// For each lane whether it is given a rescuer: it has none and may be given one, and all groups on it need one.
pub(crate) fn given_lanes<A: Allocator + Copy>(
    alloc: A,
    workqueues: &Workqueues<A>,
    named_lanes: &[bool],
    needed: &[bool],
) -> Result<Vec<bool, A>, AllocError>
    requires lanes { length named_lanes.now ≡ workqueues.now.assignment.lanes }
    requires groups { length needed.now ≡ length workqueues.now.assignment.lane_of_group }
    requires few { length needed.now ≤ 4096 }
    ensures { IfOk result (λ given.
        Marks (IsToBeGiven workqueues.now named_lanes.now needed.now) workqueues.now.assignment.lanes given.items) }
{
    let _lanes = workqueues.assignment().lanes();
    let mut given = Vec::with_capacity(alloc, named_lanes.len())?;
    for (lane, is_named) in named_lanes.iter().enumerate() {
        let is_bare = workqueues.is_bare(LaneId::new(lane as u16));
        given.push(*is_named && is_bare)?;
    }
    for (group, is_needed) in needed.iter().enumerate() {
        if *is_needed {
            continue;
        }
        let lane = workqueues.assignment().lane(GroupId::new(group as u16));
        given[usize::from(lane.get())] = false;
    }
    Ok(given)
}

/// For each group whether it may move and needs a rescuer.
pub(crate) fn movable_groups<A: Allocator + Copy>(
    alloc: A,
    named: &[bool],
    needed: &[bool],
) -> Result<Vec<bool, A>, AllocError>
    requires { length needed.now ≡ length named.now }
    ensures { IfOk result (λ movable. Marks (IsMovable named.now needed.now) (length named.now) movable.items) }
{
    let mut movable = Vec::with_capacity(alloc, named.len())?;
    for (group, is_named) in named.iter().enumerate() {
        movable.push(*is_named && needed[group])?;
    }
    Ok(movable)
}

/// For each lane whether it holds no other groups than these.
pub(crate) fn free_lanes<A: Allocator + Copy>(
    alloc: A,
    workqueues: &Workqueues<A>,
    movable: &[bool],
) -> Result<Vec<bool, A>, AllocError>
    requires groups { length movable.now ≡ length workqueues.now.assignment.lane_of_group }
    requires few { length movable.now ≤ 4096 }
    ensures { IfOk result (λ free.
        Marks (λ q. ¬ HoldsOther workqueues.now movable.now q) workqueues.now.assignment.lanes free.items) }
{
    let mut free = vec![in alloc; true; usize::from(workqueues.assignment().lanes())]?;
    for (group, is_movable) in movable.iter().enumerate() {
        if *is_movable {
            continue;
        }
        let lane = workqueues.assignment().lane(GroupId::new(group as u16));
        free[usize::from(lane.get())] = false;
    }
    Ok(free)
}

/// Each movable group on a lane of its own, by number, upwards through the lanes that hold no other groups than these,
/// and then on new ones; all others on theirs. The lanes of the former have a rescuer, and of the latter those that are
/// given one.
fn start<A: Allocator + Copy>(
    alloc: A,
    workqueues: &Workqueues<A>,
    movable: &[bool],
    given: &[bool],
) -> Result<Workqueues<A>, AllocError>
    requires groups { length movable.now ≡ length workqueues.now.assignment.lane_of_group }
    requires lanes { length given.now ≡ workqueues.now.assignment.lanes }
    requires few { length movable.now ≤ 4096 }
    ensures { IfOk result (IsStartBy workqueues.now movable.now given.now) }
{
    let assignment = workqueues.assignment();
    let there = assignment.lanes();
    let is_free = free_lanes(alloc, workqueues, movable)?;
    let free = listed(alloc, is_free.as_slice())?;
    let (lane_of, taken) = own_lanes(alloc, assignment, movable, free.as_slice())?;
    let lanes = lanes_with(free.as_slice(), there, taken);
    let bare = bare_now(alloc, workqueues, movable, given, lane_of.as_slice())?;
    let assignment = Assignment::new(lanes, lane_of).unwrap();
    Ok(Workqueues::new(assignment, bare))
}

/// The start of a repair of this scope.
pub(crate) fn start_of<A: Allocator + Copy>(
    alloc: A,
    assigned: &Assigned<'_, '_, A>,
    scope: &Scope<A>,
) -> Result<Workqueues<A>, AllocError>
    requires { (names : List ℕ)
        × IsScope (declared_waits assigned.now.declared) assigned.now.workqueues names scope.now }
    ensures { IfOk result (IsStartBy assigned.now.workqueues scope.now.movable scope.now.given) }
{
    let workqueues = workqueues_of(assigned);
    start(
        alloc,
        workqueues,
        scope.movable.as_slice(),
        scope.given.as_slice(),
    )
}
