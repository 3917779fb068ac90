//! The groups that need a rescuer.
//!
//! A group needs one if its lane has one, or if a group that needs one waits for it. If such a group may not move and
//! its lane has none, the lane has to be given one, if it may; so all groups on it need one, too. Each group that is
//! found is followed once, in O(groups + lanes + flushes) time and memory.

ghost use Rattle.std.specs.Prelude.{◌≡◌, ◌<◌, ◌≤◌, ◌↔◌, ℕ, [], length, slice_index, slice_index_or, IfOk, Contains};
ghost use Rattle.std.specs.List.{All, Any};
ghost use Rattle.wq_groups.specs.DeclaredGroups.{declared_waits};
ghost use Rattle.wq_repair.specs.Changes.{IsRescued, lane_in};
ghost use Rattle.wq_repair.specs.Needed.{NeedsRescuerOf};
ghost use Rattle.wq_repair.specs.Following.{CanFollow, HasGrown, BringsAlongBy};
ghost use Rattle.wq_repair.specs.Marks.{IsMarked, Marks};
ghost use Rattle.wq_repair.specs.Together.{Lists};

use crate::assigned::{graph_of_groups, workqueues_of};
use crate::named::{Named, named_by};
use std::alloc::{AllocError, Allocator};
use std::marker::Model;
use wq_buckets::Buckets;
use wq_core::{Assigned, Workqueues};
use wq_graph::{WaitArc, WaitGraph};
use wq_groups::{Assignment, GroupId};
use wq_items::ItemId;

/// Which groups are found, and in which order.
#[derive(Drop)]
struct Found<A: Allocator> {
    /// For each group whether it is found.
    marks: Vec<bool, A>,
    /// Those that are, in the order in which they were.
    list: Vec<GroupId, A>,
}

impl<A: Allocator> Model for Found<A> {
    ghost use Rattle.wq_repair.specs.Following.{FoundGroups};

    ghost Value = { FoundGroups };

    ghost view = { λ f. record { marks = f.marks.items; list = f.list.items } };
}

impl<A: Allocator + Copy> Found<A> {
    /// A group is found.
    fn add(&mut self, group: GroupId) -> Result<(), AllocError>
        requires { group < length self.old.marks }
        ensures { IfOk result (λ _. HasGrown self.old self.new (λ g. g ≡ group)) }
    {
        let at = usize::from(group.get());
        if self.marks[at] {
            return Ok(());
        }
        self.marks[at] = true;
        self.list.push(group)?;
        Ok(())
    }

    /// The heads of these arcs are found.
    fn add_awaited(&mut self, arcs: &[WaitArc]) -> Result<(), AllocError>
        requires { All (λ a. a.head < length self.old.marks) arcs.now }
        ensures { IfOk result (λ _. HasGrown self.old self.new (λ h. Any (λ a. a.head ≡ h) arcs.now)) }
    {
        for arc in arcs {
            self.add(GroupId::new(arc.head))?;
        }
        Ok(())
    }

    /// All that are on a lane are found.
    fn add_lane(&mut self, on: &[u32]) -> Result<(), AllocError>
        requires within { All (λ g. g < length self.old.marks) on.now }
        requires few { length self.old.marks ≤ 4096 }
        ensures { IfOk result (λ _. HasGrown self.old self.new (Contains on.now)) }
    {
        for group in on {
            self.add(GroupId::new(*group as u16))?;
        }
        Ok(())
    }

    /// Finds the groups that a group brings along.
    fn follow(
        &mut self,
        graph: &WaitGraph<A>,
        on: &Buckets<A>,
        workqueues: &Workqueues<A>,
        named: &Named<A>,
        group: GroupId,
    ) -> Result<(), AllocError>
        requires group { group < length workqueues.now.assignment.lane_of_group }
        requires can { CanFollow graph.now on.now workqueues.now self.old }
        ensures { IfOk result (λ _.
            HasGrown self.old self.new (BringsAlongBy graph.now workqueues.now named.now group)) }
    {
        // Each arc leads to a group, and each lane is there.
        let _vertices = graph.vertices();
        let _lanes = workqueues.assignment().lanes();
        self.add_awaited(graph.arcs(group.get()))?;
        let lane = workqueues.assignment().lane(group);
        if named.has_group(group) {
            return Ok(());
        }
        if !workqueues.is_bare(lane) {
            return Ok(());
        }
        if !named.has_lane(lane) {
            return Ok(());
        }
        self.add_lane(on.places(lane.get()))?;
        Ok(())
    }
}

/// The groups on lanes that have a rescuer.
fn on_rescuers<A: Allocator + Copy>(
    alloc: A,
    workqueues: &Workqueues<A>,
    groups: u16,
) -> Result<Found<A>, AllocError>
    requires { length workqueues.now.assignment.lane_of_group ≡ groups }
    ensures one_each { IfOk result (λ found. length found.marks ≡ groups) }
    ensures exactly { IfOk result (λ found. (g : ℕ) → g < groups →
        IsMarked found.marks g ↔ IsRescued workqueues.now (lane_in workqueues.now g)) }
    ensures lists { IfOk result (λ found. Lists found.marks found.list) }
{
    let mut found = Found {
        marks: vec![in alloc; false; usize::from(groups)]?,
        list: Vec::new(alloc),
    };
    for group in 0..groups {
        let group = GroupId::new(group);
        let lane = workqueues.assignment().lane(group);
        if workqueues.is_bare(lane) {
            continue;
        }
        found.add(group)?;
    }
    Ok(found)
}

/// The groups on each lane.
fn groups_on_lanes<A: Allocator + Copy>(
    alloc: A,
    assignment: &Assignment<A>,
    groups: u16,
) -> Result<Buckets<A>, AllocError>
    requires { length assignment.now.lane_of_group ≡ groups }
    ensures one_each { IfOk result (λ on. length on ≡ assignment.now.lanes) }
    ensures on { IfOk result (λ on. (q g : ℕ) → Contains (slice_index_or on q []) g
        ↔ ((g < groups) × (slice_index assignment.now.lane_of_group g ≡ q))) }
{
    let count = assignment.lanes();
    let mut lanes = Vec::with_capacity(alloc, usize::from(groups))?;
    for group in 0..groups {
        lanes.push(assignment.lane(GroupId::new(group)).get())?;
    }
    let on = Buckets::new(alloc, lanes.as_slice(), count)?;
    Ok(on)
}

/// For each group whether it needs a rescuer, if only the groups of these items may move.
pub(crate) fn needed_groups<A: Allocator + Copy>(
    alloc: A,
    assigned: &Assigned<'_, '_, A>,
    names: &[ItemId],
) -> Result<Vec<bool, A>, AllocError>
    requires { All (λ i. i < length assigned.now.declared.table.names) names.now }
    ensures { IfOk result (λ needed.
        Marks (NeedsRescuerOf (declared_waits assigned.now.declared) assigned.now.workqueues names.now)
        assigned.now.declared.partition.groups needed.items) }
{
    let workqueues = workqueues_of(assigned);
    let groups = assigned.groups().len();
    let graph = graph_of_groups(alloc, assigned)?;
    let on = groups_on_lanes(alloc, workqueues.assignment(), groups)?;
    let named = named_by(alloc, assigned, names)?;
    let mut found = on_rescuers(alloc, workqueues, groups)?;
    let mut done = 0;
    while done < found.list.len() {
        let group = found.list[done];
        done += 1;
        found.follow(&graph, &on, workqueues, &named, group)?;
    }
    Ok(found.marks)
}
