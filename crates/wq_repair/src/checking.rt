//! Whether a choice of groups that stay on their lanes is right: in one pass along the waits.
//!
//! The vertices are groups: a group that stays is at the home of its lane, which is one of those that stay there, and
//! each other group is alone. A choice is right if ranks fall along all waits, those that stay on a lane have the same
//! rank, and each group that could stay and doesn't reaches the home of its lane, or is reached by it (`near`): with it
//! at the home that is a circle.

ghost use Rattle.std.specs.Prelude.{◌≡◌, ◌<◌, ◌≤◌, ℕ, length, slice_index, IfOk, IsTrue, Some};
ghost use Rattle.std.specs.List.{Any};
ghost use Rattle.wq_groups.specs.Assignment.{group_lane};
ghost use Rattle.wq_repair.specs.Marks.{IsMarked};
ghost use Rattle.wq_repair.specs.Near.{IsAsked};
ghost use Rattle.wq_repair.specs.Settled.{IsHomeOf, AreHomes, AreVertices, HaveRanks, AreInVain, IsSettled, IsWithin};

use crate::listing::{either, is_marked, rank_at, vertex_at};
use crate::near::{home_of, near_homes};
use crate::scope::but_not;
use std::alloc::{AllocError, Allocator};
use std::marker::Model;
use wq_graph::{WaitArc, WaitGraph};
use wq_groups::{Assignment, GroupId};

/// Ranks are below this.
pub(crate) const RANKS: u16 = 4096;

/// Which groups stay on their lanes, and a rank for each group.
#[derive(Drop)]
pub(crate) struct Settled<A: Allocator> {
    pub(crate) stays: Vec<bool, A>,
    pub(crate) ranks: Vec<u16, A>,
}

impl<A: Allocator> Model for Settled<A> {
    ghost use Rattle.wq_repair.specs.Settled.{Settled as SettledView};

    ghost Value = { SettledView };

    ghost view = { λ s. record { stays = s.stays.items; ranks = s.ranks.items } };
}

/// For each lane one of the groups that stay on it, if there is one.
pub(crate) fn homes_of<A: Allocator + Copy>(
    alloc: A,
    assignment: &Assignment<A>,
    stays: &[bool],
) -> Result<Vec<Option<GroupId>, A>, AllocError>
    requires one_each { length stays.now ≡ length assignment.now.lane_of_group }
    requires few { length stays.now ≤ 4096 }
    ensures { IfOk result (λ homes. AreHomes assignment.now stays.now homes.items) }
{
    let _lanes = assignment.lanes();
    let mut homes: Vec<Option<GroupId>, A> = vec![in alloc; None; usize::from(assignment.lanes())]?;
    for (group, does_stay) in stays.iter().enumerate() {
        if !*does_stay {
            continue;
        }
        let group = GroupId::new(group as u16);
        let lane = assignment.lane(group).get();
        homes[usize::from(lane)] = Some(group);
    }
    Ok(homes)
}

/// The vertex of each group: the home of its lane if it stays, and else the group itself.
pub(crate) fn vertices_of<A: Allocator + Copy>(
    alloc: A,
    assignment: &Assignment<A>,
    stays: &[bool],
    homes: &[Option<GroupId>],
) -> Result<Vec<GroupId, A>, AllocError>
    requires one_each { length stays.now ≡ length assignment.now.lane_of_group }
    requires few { length stays.now ≤ 4096 }
    requires homes { AreHomes assignment.now stays.now homes.now }
    ensures { IfOk result (λ at. AreVertices assignment.now stays.now homes.now at.items) }
{
    let mut vertices = Vec::with_capacity(alloc, stays.len())?;
    for (group, does_stay) in stays.iter().enumerate() {
        let group = GroupId::new(group as u16);
        if !*does_stay {
            vertices.push(group)?;
            continue;
        }
        let lane = assignment.lane(group).get();
        let home = home_of(homes, usize::from(lane));
        vertices.push(home.unwrap())?;
    }
    Ok(vertices)
}

/// Whether a rank is above those of the groups to which these arcs lead.
fn is_above(ranks: &[u16], arcs: &[WaitArc], rank: u16) -> bool
    ensures { IsTrue result → (h : ℕ) → Any (λ a. a.head ≡ h) arcs.now → slice_index ranks.now h < rank }
{
    for arc in arcs {
        if rank <= rank_at(ranks, GroupId::new(arc.head)) {
            return false;
        }
    }
    true
}

/// Whether ranks fall along all waits, are low, and are those of the vertices at which their groups are.
fn have_ranks<A: Allocator + Copy>(graph: &WaitGraph<A>, at: &[GroupId], ranks: &[u16]) -> bool
    ensures { IsTrue result → HaveRanks graph.now at.now ranks.now }
{
    let groups = graph.vertices();
    if ranks.len() != usize::from(groups) {
        return false;
    }
    for number in 0..groups {
        let group = GroupId::new(number);
        let rank = rank_at(ranks, group);
        let vertex = vertex_at(at, group);
        if RANKS <= rank || rank_at(ranks, vertex) != rank {
            return false;
        }
        if !is_above(ranks, graph.arcs(number), rank) {
            return false;
        }
    }
    true
}

/// The home of the lane of a group, if there is one and the group is marked.
fn home_asked<A: Allocator>(
    assignment: &Assignment<A>,
    homes: &[Option<GroupId>],
    marks: &[bool],
    group: GroupId,
) -> Option<GroupId>
    ensures { (v : ℕ) → result ≡ Some v → IsHomeOf homes.now (group_lane assignment.now group) v }
{
    let place = usize::from(group.get());
    if !is_marked(marks, place) || assignment.groups() <= place {
        return None;
    }
    let lane = assignment.lane(group).get();
    home_of(homes, usize::from(lane))
}

/// For each of so many groups the home of its lane, if it has one and is marked.
fn homes_asked<A: Allocator + Copy>(
    alloc: A,
    assignment: &Assignment<A>,
    homes: &[Option<GroupId>],
    marks: &[bool],
    groups: u16,
) -> Result<Vec<Option<GroupId>, A>, AllocError>
    ensures { IfOk result (λ asked. (g v : ℕ) → IsAsked asked.items g v
        → IsHomeOf homes.now (group_lane assignment.now g) v) }
{
    let mut asked = Vec::with_capacity(alloc, usize::from(groups))?;
    for group in 0..groups {
        asked.push(home_asked(assignment, homes, marks, GroupId::new(group)))?;
    }
    Ok(asked)
}

/// Whether all of the one list are of the other, too.
fn are_among(some: &[bool], all: &[bool]) -> bool
    ensures { IsTrue result → (g : ℕ) → IsMarked some.now g → IsMarked all.now g }
{
    for (group, is_one) in some.iter().enumerate() {
        if *is_one && !is_marked(all, group) {
            return false;
        }
    }
    true
}

/// Whether all that can't move stay, and of the others only some that may.
fn are_within(fixed: &[bool], tried: &[bool], stays: &[bool]) -> bool
    ensures { IsTrue result → IsWithin fixed.now tried.now stays.now }
{
    for (group, does_stay) in stays.iter().enumerate() {
        if *does_stay && !either(is_marked(fixed, group), is_marked(tried, group)) {
            return false;
        }
    }
    are_among(fixed, stays)
}

/// Whether each of these groups reaches the home of its lane, or is reached by it.
fn are_in_vain<A: Allocator + Copy>(
    alloc: A,
    graph: &WaitGraph<A>,
    assignment: &Assignment<A>,
    homes: &[Option<GroupId>],
    vertices: &[GroupId],
    ranks: &[u16],
    groups: &[bool],
) -> Result<bool, AllocError>
    ensures { IfOk result (λ are. IsTrue are →
        AreInVain graph.now assignment.now homes.now vertices.now groups.now) }
{
    let asked = homes_asked(alloc, assignment, homes, groups, graph.vertices())?;
    let near = near_homes(alloc, graph, vertices, ranks, asked.as_slice())?;
    Ok(are_among(groups, near.as_slice()))
}

/// Whether a choice is right, where `homes` has the home of each lane and `vertices` the vertex of each group.
fn is_right<A: Allocator + Copy>(
    alloc: A,
    graph: &WaitGraph<A>,
    assignment: &Assignment<A>,
    fixed: &[bool],
    tried: &[bool],
    stays: &[bool],
    ranks: &[u16],
    homes: &[Option<GroupId>],
    vertices: &[GroupId],
) -> Result<bool, AllocError>
    requires assigned { length assignment.now.lane_of_group ≡ length graph.now }
    requires tried { length tried.now ≡ length graph.now }
    requires stays { length stays.now ≡ length graph.now }
    requires homes { AreHomes assignment.now stays.now homes.now }
    requires vertices { AreVertices assignment.now stays.now homes.now vertices.now }
    ensures { IfOk result (λ is. IsTrue is →
        IsSettled graph.now assignment.now fixed.now tried.now (length graph.now)
        (record { stays = stays.now; ranks = ranks.now })) }
{
    // There are at most 4,096 groups.
    let _groups = graph.vertices();
    if !are_within(fixed, tried, stays) {
        return Ok(false);
    }
    if !have_ranks(graph, vertices, ranks) {
        return Ok(false);
    }
    let vain = but_not(alloc, tried, stays)?;
    are_in_vain(
        alloc,
        graph,
        assignment,
        homes,
        vertices,
        ranks,
        vain.as_slice(),
    )
}

/// Whether a choice is right: all that can't move (`fixed`) stay, and of the others only some that may (`tried`); no
/// group that may stay and doesn't could; and ranks fall along all waits.
pub(crate) fn is_settled<A: Allocator + Copy>(
    alloc: A,
    graph: &WaitGraph<A>,
    assignment: &Assignment<A>,
    fixed: &[bool],
    tried: &[bool],
    stays: &[bool],
    ranks: &[u16],
) -> Result<bool, AllocError>
    ensures { IfOk result (λ is. IsTrue is →
        IsSettled graph.now assignment.now fixed.now tried.now (length graph.now)
        (record { stays = stays.now; ranks = ranks.now })) }
{
    let groups = usize::from(graph.vertices());
    if assignment.groups() != groups || tried.len() != groups || stays.len() != groups {
        return Ok(false);
    }
    let homes = homes_of(alloc, assignment, stays)?;
    let vertices = vertices_of(alloc, assignment, stays, homes.as_slice())?;
    is_right(
        alloc,
        graph,
        assignment,
        fixed,
        tried,
        stays,
        ranks,
        homes.as_slice(),
        vertices.as_slice(),
    )
}
