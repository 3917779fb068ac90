//! A plain choice of groups that stay on their lanes: each is tried in turn, and stays if that makes no circle.
//!
//! It is made if the choice of `wq_choice` is wrong. For each group that may stay the graph of all is ranked anew, so
//! with g groups and w waits it takes time in g * (g + w), and memory in g + w.

ghost use Rattle.std.specs.Prelude.{◌≡◌, ◌+◌, ◌<◌, ◌≤◌, ℕ, Bool, List, true, length, slice_index, slice_set};
ghost use Rattle.std.specs.Prelude.{IfOk, MatchOption};
ghost use Rattle.std.specs.List.{All};
ghost use Rattle.wq_groups.specs.DeclaredGroups.{declared_waits};
ghost use Rattle.wq_items.specs.Chain.{Circle};
ghost use Rattle.wq_graph.specs.declared.arc.WaitArc.{WaitArc};
ghost use Rattle.wq_graph.specs.Graph.{HasArc};
ghost use Rattle.wq_core.specs.Workqueues.{Workqueues as WorkqueuesView};
ghost use Rattle.wq_deadlock.specs.Judging.{rescued_graph};
ghost use Rattle.wq_repair.specs.Marks.{IsMarked, Marks};
ghost use Rattle.wq_repair.specs.Ready.{Scope as ScopeView, IsReady, IsButNot, IsTrial, AreRanksOfGroups};
ghost use Rattle.wq_repair.specs.Settled.{HasStaying, IsSettled, IsSettledBy, vertices_placed};

use crate::assigned::{with_workqueues, workqueues_of};
use crate::checking::{Settled, homes_of, vertices_of};
use crate::near::home_of;
use crate::scope::{Scope, all_but};
use std::alloc::{AllocError, Allocator};
use wq_core::{Assigned, Workqueues};
use wq_deadlock::rescued_graph;
use wq_groups::{Assignment, GroupId, LaneId};
use wq_levels::{Ranked, rank};

/// The workqueues whose lanes are vertices, of which those have a rescuer whose groups need one.
fn vertices_as_lanes<A: Allocator + Copy>(
    alloc: A,
    vertices: &[GroupId],
    needed: &[bool],
) -> Result<Workqueues<A>, AllocError>
    requires one_each { length needed.now ≡ length vertices.now }
    requires few { length vertices.now ≤ 4096 }
    requires within { All (λ v. v < length vertices.now) vertices.now }
    ensures { IfOk result (λ ws. ws ≡ vertices_placed needed.now vertices.now) }
{
    let mut of_group = Vec::with_capacity(alloc, vertices.len())?;
    for vertex in vertices {
        of_group.push(LaneId::new(vertex.get()))?;
    }
    let bare = all_but(alloc, needed)?;
    let assignment = Assignment::new(vertices.len() as u16, of_group).unwrap();
    Ok(Workqueues::new(assignment, bare))
}

/// The rank of the vertex of each group.
fn ranks_of_groups<A: Allocator + Copy>(
    alloc: A,
    vertices: &Assignment<A>,
    ranks: &[u16],
    groups: u16,
) -> Result<Vec<u16, A>, AllocError>
    requires groups { length vertices.now.lane_of_group ≡ groups }
    requires one_each { length ranks.now ≡ vertices.now.lanes }
    ensures one_each { IfOk result (λ of_group. length of_group.items ≡ groups) }
    ensures ranks { IfOk result (λ of_group. (g : ℕ) → g < groups →
        slice_index of_group.items g ≡ slice_index ranks.now (slice_index vertices.now.lane_of_group g)) }
{
    let _lanes = vertices.lanes();
    let mut of_group = Vec::with_capacity(alloc, usize::from(groups))?;
    for group in 0..groups {
        let vertex = vertices.lane(GroupId::new(group)).get();
        of_group.push(ranks[usize::from(vertex)])?;
    }
    Ok(of_group)
}

/// For each group the rank of its lane among those that have a rescuer, or `None` if these wait in a circle.
fn ranks_by_group<A: Allocator + Copy>(
    alloc: A,
    assigned: &Assigned<'_, '_, A>,
) -> Result<Option<Vec<u16, A>>, AllocError>
    ensures { IfOk result (λ ranks. MatchOption ranks
        (Circle (HasArc (rescued_graph (declared_waits assigned.now.declared) assigned.now.workqueues)))
        (λ ranks. AreRanksOfGroups (declared_waits assigned.now.declared) assigned.now.workqueues ranks.items)) }
{
    let workqueues = workqueues_of(assigned);
    let graph = rescued_graph(alloc, assigned)?;
    let _vertices = graph.vertices();
    match rank(alloc, &graph)? {
        Ranked::Ranks(ranks) => {
            let groups = assigned.groups().len();
            let of_groups = ranks_of_groups(
                alloc,
                workqueues.assignment(),
                ranks.as_slice(),
                groups,
            )?;
            Ok(Some(of_groups))
        }
        Ranked::Circle(_) => Ok(None),
    }
}

/// For each group a rank, if these groups stay on their lanes and all others are alone, or `None` if that makes a
/// circle.
fn ranks_if<A: Allocator + Copy>(
    alloc: A,
    start: &Assigned<'_, '_, A>,
    assignment: &Assignment<A>,
    needed: &[bool],
    stays: &[bool],
) -> Result<Option<Vec<u16, A>>, AllocError>
    requires assigned { length assignment.now.lane_of_group ≡ start.now.declared.partition.groups }
    requires needed { length needed.now ≡ start.now.declared.partition.groups }
    requires stays { length stays.now ≡ start.now.declared.partition.groups }
    ensures { IfOk result (λ ranks. IsSettledBy assignment.now needed.now stays.now (λ ws. MatchOption ranks
        (Circle (HasArc (rescued_graph (declared_waits start.now.declared) ws)))
        (λ ranks. AreRanksOfGroups (declared_waits start.now.declared) ws ranks.items))) }
{
    let _few = workqueues_of(start);
    let homes = homes_of(alloc, assignment, stays)?;
    let vertices = vertices_of(alloc, assignment, stays, homes.as_slice())?;
    let placed = vertices_as_lanes(alloc, vertices.as_slice(), needed)?;
    let merged = with_workqueues(start, &placed);
    ranks_by_group(alloc, &merged)
}

/// The ranks of the start, which is safe.
fn ranks_of_start<A: Allocator + Copy>(
    alloc: A,
    start: &Assigned<'_, '_, A>,
) -> Result<Vec<u16, A>, AllocError>
    requires { (old : WorkqueuesView) × (names : List ℕ) × (s : ScopeView)
        × IsReady (declared_waits start.now.declared) old names s start.now.workqueues }
    ensures { IfOk result (λ ranks. AreRanksOfGroups
        (declared_waits start.now.declared) start.now.workqueues ranks.items) }
{
    let _declared = workqueues_of(start);
    match ranks_by_group(alloc, start)? {
        Some(ranks) => Ok(ranks),
        None => unreachable!(),
    }
}

/// These groups and another one.
fn with_group<A: Allocator + Copy>(
    alloc: A,
    groups: &[bool],
    group: GroupId,
) -> Result<Vec<bool, A>, AllocError>
    requires { group < length groups.now }
    ensures { IfOk result (λ more. more.items ≡ slice_set groups.now group true) }
{
    let mut more = Vec::new(alloc);
    more.extend_from_slice(groups)?;
    more[usize::from(group.get())] = true;
    Ok(more)
}

/// Lets a group stay with those of its lane that stay, if that makes no circle.
fn try_beside<A: Allocator + Copy>(
    alloc: A,
    start: &Assigned<'_, '_, A>,
    assignment: &Assignment<A>,
    needed: &[bool],
    settled: &mut Settled<A>,
    group: GroupId,
) -> Result<(), AllocError>
    requires assigned { length assignment.now.lane_of_group ≡ start.now.declared.partition.groups }
    requires needed { length needed.now ≡ start.now.declared.partition.groups }
    requires stays { length settled.old.stays ≡ start.now.declared.partition.groups }
    requires group { group < start.now.declared.partition.groups }
    ensures stays { IfOk result (λ _. length settled.new.stays ≡ start.now.declared.partition.groups) }
    ensures settled { IfOk result (λ _. (graph : List (List WaitArc)) (fixed tried : List Bool) →
        IsTrial (declared_waits start.now.declared) needed.now fixed tried graph → IsMarked tried group →
        HasStaying assignment.now settled.old.stays group →
        IsSettled graph assignment.now fixed tried group settled.old →
        IsSettled graph assignment.now fixed tried (group + 1) settled.new) }
{
    let _few = workqueues_of(start);
    let stays = with_group(alloc, settled.stays.as_slice(), group)?;
    match ranks_if(alloc, start, assignment, needed, stays.as_slice())? {
        Some(ranks) => {
            settled.stays = stays;
            settled.ranks = ranks;
            Ok(())
        }
        None => Ok(()),
    }
}

/// Lets a group stay, if that makes no circle: it makes none if no group stays on its lane yet.
fn try_group<A: Allocator + Copy>(
    alloc: A,
    start: &Assigned<'_, '_, A>,
    assignment: &Assignment<A>,
    needed: &[bool],
    settled: &mut Settled<A>,
    group: GroupId,
) -> Result<(), AllocError>
    requires assigned { length assignment.now.lane_of_group ≡ start.now.declared.partition.groups }
    requires needed { length needed.now ≡ start.now.declared.partition.groups }
    requires stays { length settled.old.stays ≡ start.now.declared.partition.groups }
    requires group { group < start.now.declared.partition.groups }
    ensures stays { IfOk result (λ _. length settled.new.stays ≡ start.now.declared.partition.groups) }
    ensures settled { IfOk result (λ _. (graph : List (List WaitArc)) (fixed tried : List Bool) →
        IsTrial (declared_waits start.now.declared) needed.now fixed tried graph → IsMarked tried group →
        IsSettled graph assignment.now fixed tried group settled.old →
        IsSettled graph assignment.now fixed tried (group + 1) settled.new) }
{
    let _few = workqueues_of(start);
    let homes = homes_of(alloc, assignment, settled.stays.as_slice())?;
    let lane = assignment.lane(group).get();
    match home_of(homes.as_slice(), usize::from(lane)) {
        Some(_) => try_beside(alloc, start, assignment, needed, settled, group),
        None => {
            settled.stays[usize::from(group.get())] = true;
            Ok(())
        }
    }
}

/// The groups that stay if each that may is tried in turn.
pub(crate) fn settle<A: Allocator + Copy>(
    alloc: A,
    start: &Assigned<'_, '_, A>,
    old: &Workqueues<A>,
    scope: &Scope<A>,
    fixed: &[bool],
    tried: &[bool],
) -> Result<Settled<A>, AllocError>
    requires ready { (names : List ℕ)
        × IsReady (declared_waits start.now.declared) old.now names scope.now start.now.workqueues }
    requires fixed { Marks (IsButNot scope.now.needed scope.now.movable) start.now.declared.partition.groups fixed.now }
    requires tried { length tried.now ≡ start.now.declared.partition.groups }
    ensures { IfOk result (λ settled. (graph : List (List WaitArc)) →
        IsTrial (declared_waits start.now.declared) scope.now.needed fixed.now tried.now graph →
        IsSettled graph old.now.assignment fixed.now tried.now (length graph) settled) }
{
    let _few = workqueues_of(start);
    let ranks = ranks_of_start(alloc, start)?;
    let mut stays = Vec::new(alloc);
    stays.extend_from_slice(fixed)?;
    let mut settled = Settled { stays, ranks };
    for (group, is_tried) in tried.iter().enumerate() {
        if !*is_tried {
            continue;
        }
        try_group(
            alloc,
            start,
            old.assignment(),
            scope.needed.as_slice(),
            &mut settled,
            GroupId::new(group as u16),
        )?;
    }
    Ok(settled)
}
