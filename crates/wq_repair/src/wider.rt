//! Another repair, in which more lanes are given a rescuer.
//!
//! A repair gives a lane a rescuer only if all groups on it need one. If one rescuer may be fewer changes than a move
//! of each that does (`wq_choice` says of which lanes), all groups of such lanes count here as needing one. If each of
//! these lanes keeps a group that does need one, no change can be left out in this repair, either. It takes the time
//! of a repair.

ghost use Rattle.std.specs.Prelude.{◌≡◌, ◌<◌, ◌≤◌, ◌⊎◌, ℕ, length, IfOk, IfSome, IsTrue, List, Some};
ghost use Rattle.std.specs.List.{All};
ghost use Rattle.wq_groups.specs.DeclaredGroups.{declared_waits};
ghost use Rattle.wq_core.specs.Workqueues.{wiring_of};
ghost use Rattle.wq_core.specs.Deadlock.{Deadlocks};
ghost use Rattle.wq_repair.specs.Changes.{IsRescued, lane_in};
ghost use Rattle.wq_repair.specs.Marks.{IsMarked, Marks};
ghost use Rattle.wq_repair.specs.Needed.{NeedsRescuerOf};
ghost use Rattle.wq_repair.specs.Ready.{IsReady, IsScope, IsMinimal};
ghost use Rattle.wq_repair.specs.Repair.{IsRepair};
ghost use Rattle.wq_repair.specs.Steps.{KeepsNeeded};

use crate::assigned::{graph_of_groups, others_are_safe, workqueues_of};
use crate::listing::{either, is_marked};
use crate::named::{Named, named_by, named_lanes};
use crate::repairing::repaired;
use crate::scope::{Scope, scope_of};
use crate::start::start_of;
use std::alloc::{AllocError, Allocator};
use wq_choice::{Chooser, shared_lanes};
use wq_core::{Assigned, Workqueues};
use wq_groups::{GroupId, LaneId};
use wq_items::ItemId;

/// For each lane whether it may be given a rescuer and has none.
fn bare_of<A: Allocator + Copy>(
    alloc: A,
    workqueues: &Workqueues<A>,
    named: &Named<A>,
) -> Result<Vec<bool, A>, AllocError> {
    let lanes = workqueues.assignment().lanes();
    let mut bare = Vec::with_capacity(alloc, usize::from(lanes))?;
    for lane in 0..lanes {
        let lane = LaneId::new(lane);
        bare.push(named.has_lane(lane) && workqueues.is_bare(lane))?;
    }
    Ok(bare)
}

/// For each group whether it is one of these, or on one of these lanes.
fn with_all_on<A: Allocator + Copy>(
    alloc: A,
    workqueues: &Workqueues<A>,
    groups: &[bool],
    lanes: &[bool],
) -> Result<Vec<bool, A>, AllocError>
    requires one_each { length groups.now ≡ length workqueues.now.assignment.lane_of_group }
    requires few { length groups.now ≤ 4096 }
    ensures { IfOk result (λ all.
        Marks (λ g. IsMarked groups.now g ⊎ IsMarked lanes.now (lane_in workqueues.now g))
        (length groups.now) all.items) }
{
    let mut all = Vec::with_capacity(alloc, groups.len())?;
    for (group, is_one) in groups.iter().enumerate() {
        let lane = workqueues.assignment().lane(GroupId::new(group as u16));
        all.push(either(*is_one, is_marked(lanes, usize::from(lane.get()))))?;
    }
    Ok(all)
}

/// For each group whether it is one of these and stays on its lane.
fn staying<A: Allocator + Copy>(
    alloc: A,
    old: &Workqueues<A>,
    new: &Workqueues<A>,
    groups: &[bool],
) -> Result<Vec<bool, A>, AllocError>
    requires one_each { length groups.now ≡ length old.now.assignment.lane_of_group }
    requires new { length groups.now ≡ length new.now.assignment.lane_of_group }
    requires few { length groups.now ≤ 4096 }
    ensures { IfOk result (λ staying.
        Marks (λ g. IsMarked groups.now g × (lane_in new.now g ≡ lane_in old.now g))
        (length groups.now) staying.items) }
{
    let mut staying = Vec::with_capacity(alloc, groups.len())?;
    for (group, is_one) in groups.iter().enumerate() {
        let was = old.assignment().lane(GroupId::new(group as u16)).get();
        let is = new.assignment().lane(GroupId::new(group as u16)).get();
        staying.push(*is_one && is == was)?;
    }
    Ok(staying)
}

/// Whether each of these groups is on a lane that has a rescuer.
fn all_rescued<A: Allocator>(workqueues: &Workqueues<A>, groups: &[bool]) -> bool
    requires one_each { length groups.now ≡ length workqueues.now.assignment.lane_of_group }
    requires few { length groups.now ≤ 4096 }
    ensures { IsTrue result → (g : ℕ) → g < length groups.now → IsMarked groups.now g →
        IsRescued workqueues.now (lane_in workqueues.now g) }
{
    for (group, is_one) in groups.iter().enumerate() {
        if !*is_one {
            continue;
        }
        let lane = workqueues.assignment().lane(GroupId::new(group as u16));
        if workqueues.is_bare(lane) {
            return false;
        }
    }
    true
}

/// Whether each of these groups needs a rescuer, or is on one of these lanes.
fn are_beside<A: Allocator>(
    workqueues: &Workqueues<A>,
    groups: &[bool],
    needed: &[bool],
    lanes: &[bool],
) -> bool
    requires one_each { length groups.now ≡ length workqueues.now.assignment.lane_of_group }
    requires few { length groups.now ≤ 4096 }
    ensures { IsTrue result → (g : ℕ) → g < length groups.now → IsMarked groups.now g →
        IsMarked needed.now g ⊎ IsMarked lanes.now (lane_in workqueues.now g) }
{
    for (group, is_one) in groups.iter().enumerate() {
        if !*is_one {
            continue;
        }
        let lane = workqueues.assignment().lane(GroupId::new(group as u16));
        if !either(
            is_marked(needed, group),
            is_marked(lanes, usize::from(lane.get())),
        ) {
            return false;
        }
    }
    true
}

/// A repair in which all of this scope have a rescuer, if its start is safe.
fn repaired_in<A: Allocator + Copy, C: Chooser<A>>(
    alloc: A,
    chooser: &C,
    assigned: &Assigned<'_, '_, A>,
    scope: &Scope<A>,
) -> Result<Option<Workqueues<A>>, AllocError>
    requires { (names : List ℕ)
        × IsScope (declared_waits assigned.now.declared) assigned.now.workqueues names scope.now }
    ensures { IfOk result (λ new. IfSome new (λ new. (names : List ℕ) →
        IsScope (declared_waits assigned.now.declared) assigned.now.workqueues names scope.now →
        IsMinimal (declared_waits assigned.now.declared) assigned.now.workqueues names scope.now.needed new)) }
{
    let _few = workqueues_of(assigned);
    let begin = start_of(alloc, assigned, scope)?;
    if !all_rescued(&begin, scope.needed.as_slice()) {
        return Ok(None);
    }
    if !others_are_safe(alloc, assigned, &begin)? {
        return Ok(None);
    }
    let new = repaired(alloc, chooser, assigned, &begin, scope)?;
    Ok(Some(new))
}

/// Whether each lane that holds another group than those that need a rescuer, of all these, keeps one that does.
fn keeps_needed<A: Allocator + Copy>(
    alloc: A,
    old: &Workqueues<A>,
    new: &Workqueues<A>,
    groups: &[bool],
    needed: &[bool],
) -> Result<bool, AllocError>
    requires one_each { length groups.now ≡ length old.now.assignment.lane_of_group }
    requires new { length groups.now ≡ length new.now.assignment.lane_of_group }
    requires needed { length needed.now ≡ length groups.now }
    requires few { length groups.now ≤ 4096 }
    ensures { IfOk result (λ keeps. IsTrue keeps → (g : ℕ) → g < length groups.now → IsMarked groups.now g →
        IsMarked needed.now g ⊎ KeepsNeeded old.now new.now needed.now (lane_in old.now g)) }
{
    let stay = staying(alloc, old, new, needed)?;
    let kept = named_lanes(alloc, old, stay.as_slice())?;
    Ok(are_beside(old, groups, needed, kept.as_slice()))
}

/// What such a repair is about, if there are lanes on which groups are that need a rescuer and others that don't.
fn wider_scope<A: Allocator + Copy>(
    alloc: A,
    assigned: &Assigned<'_, '_, A>,
    names: &[ItemId],
    needed: &[bool],
) -> Result<Option<Scope<A>>, AllocError>
    requires names { All (λ i. i < length assigned.now.declared.table.names) names.now }
    requires needed { Marks (NeedsRescuerOf (declared_waits assigned.now.declared) assigned.now.workqueues names.now)
        assigned.now.declared.partition.groups needed.now }
    ensures { IfOk result (λ scope. IfSome scope
        (IsScope (declared_waits assigned.now.declared) assigned.now.workqueues names.now)) }
{
    let old = workqueues_of(assigned);
    let named = named_by(alloc, assigned, names)?;
    let graph = graph_of_groups(alloc, assigned)?;
    let bare = bare_of(alloc, old, &named)?;
    let shared = shared_lanes(alloc, &graph, old.assignment(), bare, needed)?;
    if !shared.iter().any(|is_shared| *is_shared) {
        return Ok(None);
    }
    let all = with_all_on(alloc, old, needed, shared.as_slice())?;
    let scope = scope_of(alloc, assigned, &named, all)?;
    Ok(Some(scope))
}

/// A repair in which lanes are given a rescuer on which groups are that need one and others that don't, if there is
/// one.
fn wider<A: Allocator + Copy, C: Chooser<A>>(
    alloc: A,
    chooser: &C,
    assigned: &Assigned<'_, '_, A>,
    names: &[ItemId],
    needed: &[bool],
) -> Result<Option<Workqueues<A>>, AllocError>
    requires names { All (λ i. i < length assigned.now.declared.table.names) names.now }
    requires needed { Marks (NeedsRescuerOf (declared_waits assigned.now.declared) assigned.now.workqueues names.now)
        assigned.now.declared.partition.groups needed.now }
    requires deadlocked { Deadlocks (wiring_of (declared_waits assigned.now.declared) assigned.now.workqueues) }
    ensures { IfOk result (λ new. IfSome new
        (IsRepair (declared_waits assigned.now.declared) assigned.now.workqueues names.now)) }
{
    let Some(scope) = wider_scope(alloc, assigned, names, needed)? else {
        return Ok(None);
    };
    let Some(new) = repaired_in(alloc, chooser, assigned, &scope)? else {
        return Ok(None);
    };
    if keeps_needed(
        alloc,
        workqueues_of(assigned),
        &new,
        scope.needed.as_slice(),
        needed,
    )? {
        return Ok(Some(new));
    }
    Ok(None)
}

/// How many changes there are: groups on other lanes, and lanes that are given a rescuer and keep a group.
fn changes<A: Allocator + Copy>(
    alloc: A,
    old: &Workqueues<A>,
    new: &Workqueues<A>,
) -> Result<usize, AllocError> {
    let before = old.assignment().lanes_of_groups(alloc)?;
    let after = new.assignment().lanes_of_groups(alloc)?;
    let mut given = vec![in alloc; false; usize::from(old.assignment().lanes())]?;
    let mut moved: usize = 0;
    for (lane, now) in before.iter().zip(after.iter()) {
        if lane != now {
            moved = moved.saturating_add(1);
        } else if old.is_bare(LaneId::new(*lane)) && !new.is_bare(LaneId::new(*lane)) {
            if let Some(is_given) = given.get_mut(usize::from(*lane)) {
                *is_given = true;
            }
        }
    }
    Ok(moved.saturating_add(given.iter().filter(|is_given| **is_given).count()))
}

/// Of a repair and perhaps another, the one with fewer changes; the first if both have as many.
pub(crate) fn with_fewer_changes<A: Allocator + Copy>(
    alloc: A,
    old: &Workqueues<A>,
    one: Workqueues<A>,
    other: Option<Workqueues<A>>,
) -> Result<Workqueues<A>, AllocError>
    ensures { IfOk result (λ best. (best ≡ one) ⊎ (other ≡ Some best)) }
{
    let Some(other) = other else {
        return Ok(one);
    };
    if changes(alloc, old, &other)? < changes(alloc, old, &one)? {
        return Ok(other);
    }
    Ok(one)
}

/// The repair of workqueues that can be repaired: of two, the one with fewer changes.
pub(crate) fn better_repair<A: Allocator + Copy, C: Chooser<A>>(
    alloc: A,
    chooser: &C,
    assigned: &Assigned<'_, '_, A>,
    names: &[ItemId],
    start: &Workqueues<A>,
    scope: &Scope<A>,
) -> Result<Workqueues<A>, AllocError>
    requires names { All (λ i. i < length assigned.now.declared.table.names) names.now }
    requires ready { IsReady (declared_waits assigned.now.declared) assigned.now.workqueues names.now
        scope.now start.now }
    requires needed { Marks (NeedsRescuerOf (declared_waits assigned.now.declared) assigned.now.workqueues names.now)
        assigned.now.declared.partition.groups scope.now.needed }
    requires deadlocked { Deadlocks (wiring_of (declared_waits assigned.now.declared) assigned.now.workqueues) }
    ensures { IfOk result (IsRepair (declared_waits assigned.now.declared) assigned.now.workqueues names.now) }
{
    let one = repaired(alloc, chooser, assigned, start, scope)?;
    let other = wider(alloc, chooser, assigned, names, scope.needed.as_slice())?;
    with_fewer_changes(alloc, workqueues_of(assigned), one, other)
}
