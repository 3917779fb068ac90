//! What a repair is about: which groups need a rescuer, which of them may move, and which lanes are given one.
//!
//! It takes time in the number of groups and lanes.

ghost use Rattle.std.specs.Prelude.{◌≡◌, ◌≤◌, ℕ, List, length, not, map, IfOk};
ghost use Rattle.wq_groups.specs.DeclaredGroups.{declared_waits};
ghost use Rattle.wq_repair.specs.Marks.{Marks};
ghost use Rattle.wq_repair.specs.Steps.{AreNamed};
ghost use Rattle.wq_repair.specs.Ready.{CoversRescued, IsScope, IsTried, IsButNot};

use crate::assigned::workqueues_of;
use crate::listing::{either, is_marked};
use crate::named::Named;
use crate::start::{given_lanes, movable_groups};
use std::alloc::{AllocError, Allocator};
use std::marker::Model;
use wq_core::{Assigned, Workqueues};
use wq_groups::GroupId;

/// Which groups need a rescuer, which of them may move, and which lanes are given one.
#[derive(Drop)]
pub(crate) struct Scope<A: Allocator> {
    pub(crate) needed: Vec<bool, A>,
    pub(crate) movable: Vec<bool, A>,
    pub(crate) given: Vec<bool, A>,
}

impl<A: Allocator> Model for Scope<A> {
    ghost use Rattle.wq_repair.specs.Ready.{Scope as ScopeView};

    ghost Value = { ScopeView };

    ghost view = { λ s. record { needed = s.needed.items; movable = s.movable.items; given = s.given.items } };
}

/// The scope of a repair, if these groups may move, these lanes may be given a rescuer, and these groups need one.
pub(crate) fn scope_of<A: Allocator + Copy>(
    alloc: A,
    assigned: &Assigned<'_, '_, A>,
    named: &Named<A>,
    needed: Vec<bool, A>,
) -> Result<Scope<A>, AllocError>
    requires named { (names : List ℕ)
        × AreNamed (declared_waits assigned.now.declared) assigned.now.workqueues names named.now }
    requires needed { length needed.items ≡ assigned.now.declared.partition.groups }
    ensures needed { IfOk result (λ scope. scope.needed ≡ needed.items) }
    ensures scope { IfOk result (λ scope. (names : List ℕ) →
        AreNamed (declared_waits assigned.now.declared) assigned.now.workqueues names named.now →
        CoversRescued (declared_waits assigned.now.declared) assigned.now.workqueues needed.items →
        IsScope (declared_waits assigned.now.declared) assigned.now.workqueues names scope) }
{
    let workqueues = workqueues_of(assigned);
    let given = given_lanes(alloc, workqueues, named.lanes.as_slice(), needed.as_slice())?;
    let movable = movable_groups(alloc, named.groups.as_slice(), needed.as_slice())?;
    Ok(Scope {
        needed,
        movable,
        given,
    })
}

/// For each group whether it is put to trial: it may move and needs a rescuer, and doesn't have to leave.
pub(crate) fn tried_groups<A: Allocator + Copy>(
    alloc: A,
    old: &Workqueues<A>,
    scope: &Scope<A>,
) -> Result<Vec<bool, A>, AllocError>
    requires movable { length scope.now.movable ≡ length old.now.assignment.lane_of_group }
    requires given { length scope.now.given ≡ old.now.assignment.lanes }
    requires few { length scope.now.movable ≤ 4096 }
    ensures { IfOk result (λ tried. Marks (IsTried old.now scope.now) (length scope.now.movable) tried.items) }
{
    let _lanes = old.assignment().lanes();
    let mut tried = Vec::with_capacity(alloc, scope.movable.len())?;
    for (group, is_movable) in scope.movable.iter().enumerate() {
        let lane = old.assignment().lane(GroupId::new(group as u16));
        let is_given = scope.given[usize::from(lane.get())];
        let is_rescued = !old.is_bare(lane);
        tried.push(*is_movable && either(is_given, is_rescued))?;
    }
    Ok(tried)
}

/// For each group whether it is among the one and not among the other.
pub(crate) fn but_not<A: Allocator + Copy>(
    alloc: A,
    one: &[bool],
    other: &[bool],
) -> Result<Vec<bool, A>, AllocError>
    ensures { IfOk result (λ both. Marks (IsButNot one.now other.now) (length one.now) both.items) }
{
    let mut both = Vec::with_capacity(alloc, one.len())?;
    for (group, is_one) in one.iter().enumerate() {
        both.push(*is_one && !is_marked(other, group))?;
    }
    Ok(both)
}

/// For each group whether it isn't among these.
pub(crate) fn all_but<A: Allocator + Copy>(
    alloc: A,
    marks: &[bool],
) -> Result<Vec<bool, A>, AllocError>
    ensures { IfOk result (λ others. others.items ≡ map not marks.now) }
{
    marks.iter().map(|is_marked| !*is_marked).collect(alloc)
}
