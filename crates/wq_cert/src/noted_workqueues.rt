//! The workqueues that have been read so far: which items are on one, and which workqueue serves each group.
//!
//! The rules are those of "Certificates" in docs/FORMAT.md. Reading a workqueue takes time linear in the length of its
//! line, and memory linear in the number of names on it until they are noted. Starting without workqueues and making
//! the assignment each take time and memory linear in the number of items.

ghost use Rattle.std.specs.Prelude.{◌≡◌, ◌<◌, ℕ, ◌∷◌, ◌++◌, [], true, false, not, List, length, map, Ok, Err, IfOk};
ghost use Rattle.std.specs.Prelude.{◌≤◌, ◌||◌, IfErr, Option, Some, None, MatchOption, slice_index_or, unwrap_or};
ghost use Rattle.std.specs.List.{All, concat, count_by, list_all, range_with_len};
ghost use Rattle.wq_fixed.specs.Fixed.{has_none};
ghost use Rattle.wq_cert.specs.Lines.{cert_line};
ghost use Rattle.wq_cert.specs.Noted.{marks, lanes_with, AreNoted, IsNextNoted, is_other, said_line};
ghost use Rattle.wq_cert.specs.Reading.{has_stood, splits_group, fresh_items, wq_items, wq_reading, whole_assignment};
ghost use Rattle.wq_cert.specs.FixedReading.{is_with_its_group, part_lanes};
ghost use Rattle.wq_cert.specs.AroundReading.{fixed_workqueues};
ghost use Rattle.wq_cert.specs.Texts.{IsCertFaultOf};

use crate::fault::CertError;
use crate::form::wq_form;
use std::alloc::{AllocError, Allocator};
use wq_fixed::Fixed;
use wq_groups::{Assignment, Groups, LaneId, MAX_ASSIGNED_LANES};
use wq_items::{ItemId, ItemTable};
use wq_text::Line;

/// What is known of the workqueues that have been read so far.
#[derive(Drop)]
pub(crate) struct NotedWorkqueues<A: Allocator> {
    /// How many workqueues have been read.
    count: u16,
    /// For each item, whether it is on a workqueue.
    stood: Vec<bool, A>,
    /// For each group, the workqueue that holds a member of it, if one does.
    lane_of_group: Vec<Option<LaneId>, A>,
}

/// Reads the items on the next workqueue by the form and the number of its line; `place` workqueues come before it. If
/// `bare`, the line may be a `norescuer` line.
fn read_items<A: Allocator + Copy>(
    alloc: A,
    table: &ItemTable<'_, A>,
    place: u16,
    line: &Line<'_>,
    bare: bool,
) -> Result<Vec<ItemId, A>, CertError>
    ensures items { IfOk result (λ items. wq_items table.now.names place (said_line bare line.now) ≡ Ok items.items) }
    ensures fault { IfErr result (λ e. IsCertFaultOf e (wq_items table.now.names place (said_line bare line.now))) }
{
    let Some((number, items)) = wq_form(alloc, table, line.words(), bare)? else {
        return Err(CertError::BadCertLine { line: line.no() });
    };
    if number != u32::from(place) || place >= MAX_ASSIGNED_LANES {
        return Err(CertError::NumberOutOfRange { line: line.no() });
    }
    Ok(items)
}

/// Marks these items. `None` if one is marked already or is twice in the list.
fn mark<A: Allocator>(mut stood: Vec<bool, A>, items: &[ItemId]) -> Option<Vec<bool, A>>
    requires { All (λ i. i < length stood.items) items.now }
    ensures { (n : ℕ) (before : List ℕ) → stood.items ≡ marks n before
        → MatchOption result (has_stood before items.now ≡ true) (λ v. (has_stood before items.now ≡ false)
        × (v.items ≡ marks n (before ++ items.now))) }
{
    for item in items {
        let i = usize::from(item.get());
        let is_marked = stood[i];
        if is_marked {
            return None;
        }
        stood[i] = true;
    }
    Some(stood)
}

/// Whether a group is served by a workqueue other than this one.
fn is_other(held: Option<LaneId>, lane: LaneId) -> bool
    ensures { result ≡ is_other held lane }
{
    match held {
        Some(other) => other != lane,
        None => false,
    }
}

/// Puts the groups of these items on the next workqueue. `None` if one of them is on an earlier workqueue.
fn settle<A: Allocator + Copy>(
    mut lane_of_group: Vec<Option<LaneId>, A>,
    groups: &Groups<A>,
    lane: LaneId,
    items: &[ItemId],
) -> Option<Vec<Option<LaneId>, A>>
    requires items { All (λ i. i < length groups.now.group_of) items.now }
    requires groups { length lane_of_group.items ≡ groups.now.groups }
    ensures { (workqueues : List (List ℕ)) → lane ≡ length workqueues
        → lane_of_group.items ≡ lanes_with groups.now workqueues
        → MatchOption result (splits_group groups.now.group_of (concat workqueues) items.now ≡ true)
        (λ v. (splits_group groups.now.group_of (concat workqueues) items.now ≡ false)
        × (v.items ≡ lanes_with groups.now (workqueues ++ (items.now ∷ [])))) }
{
    for item in items {
        let group = usize::from(groups.of(*item).get());
        let held = lane_of_group[group];
        if is_other(held, lane) {
            return None;
        }
        lane_of_group[group] = Some(lane);
    }
    Some(lane_of_group)
}

/// Whether each item is marked.
fn are_all_marked(stood: &[bool]) -> bool
    ensures { result ≡ list_all (λ b. b) stood.now }
{
    stood.iter().all(|is_marked| *is_marked)
}

/// The workqueue of each group, if each group has one.
fn lanes_of<A: Allocator>(
    alloc: A,
    lane_of_group: &[Option<LaneId>],
) -> Result<Vec<LaneId, A>, AllocError>
    ensures { IfOk result (λ lanes. lanes.items ≡ map (λ lane. unwrap_or lane 0) lane_of_group.now) }
{
    let first = LaneId::new(0);
    lane_of_group
        .iter()
        .map(|lane| lane.unwrap_or(first))
        .collect(alloc)
}

/// Whether an item splits its group: it is on no workqueue, and its group has one.
fn splits(is_marked: bool, lane: Option<LaneId>) -> bool
    ensures { result ≡ not (is_marked || has_none lane) }
{
    !is_marked && lane.is_some()
}

/// Whether each item of a group that has a workqueue is marked.
fn are_whole<A: Allocator + Copy>(
    stood: &[bool],
    lane_of_group: &[Option<LaneId>],
    groups: &Groups<A>,
) -> bool
    requires items { length stood.now ≡ length groups.now.group_of }
    requires groups { length lane_of_group.now ≡ groups.now.groups }
    ensures { (workqueues : List (List ℕ)) → stood.now ≡ marks (length groups.now.group_of) (concat workqueues)
        → lane_of_group.now ≡ lanes_with groups.now workqueues
        → result ≡ list_all (is_with_its_group groups.now.group_of workqueues)
        (range_with_len 0 (length groups.now.group_of)) }
{
    for (group, is_marked) in groups.numbers().iter().zip(stood) {
        let lane = lane_of_group[usize::from(*group)];
        if splits(*is_marked, lane) {
            return false;
        }
    }
    true
}

/// How many groups have no workqueue.
fn count_without(lane_of_group: &[Option<LaneId>]) -> u32
    requires { length lane_of_group.now ≤ 4096 }
    ensures { result ≡ count_by has_none lane_of_group.now }
{
    let mut count = 0;
    for lane in lane_of_group {
        if lane.is_none() {
            count += 1;
        }
    }
    count
}

/// For each item, whether its group has a workqueue.
fn fixed_items<A: Allocator + Copy>(
    alloc: A,
    groups: &Groups<A>,
    lane_of_group: &[Option<LaneId>],
) -> Result<Vec<bool, A>, AllocError>
    requires { length lane_of_group.now ≡ groups.now.groups }
    ensures { IfOk result (λ stood. stood.items
        ≡ map (λ g. not (has_none (slice_index_or lane_of_group.now g None))) groups.now.group_of) }
{
    let mut stood = Vec::with_capacity(alloc, groups.numbers().len())?;
    for group in groups.numbers() {
        let lane = lane_of_group[usize::from(*group)];
        stood.push(lane.is_some())?;
    }
    Ok(stood)
}

impl<A: Allocator + Copy> NotedWorkqueues<A> {
    /// The fixed workqueues, for this many items in these groups.
    pub(crate) fn of_fixed(
        alloc: A,
        groups: &Groups<A>,
        items: u16,
        fixed: &Fixed<A>,
    ) -> Result<Self, AllocError>
        requires items { length groups.now.group_of ≡ items }
        requires groups { length fixed.now.lane_of_group ≡ groups.now.groups }
        ensures { IfOk result (λ q. AreNoted groups.now (fixed_workqueues groups.now fixed.now) q.count q.stood.items
            q.lane_of_group.items) }
    {
        let _groups = groups.len();
        let stood = fixed_items(alloc, groups, fixed.lane_of_group())?;
        let lane_of_group = Vec::from_slice(alloc, fixed.lane_of_group())?;
        Ok(NotedWorkqueues {
            count: fixed.lanes(),
            stood,
            lane_of_group,
        })
    }

    /// The workqueue of each group that has one, if these groups are whole, and the others not too many.
    pub(crate) fn part(self, groups: &Groups<A>) -> Result<Vec<Option<LaneId>, A>, CertError>
        requires { (workqueues : List (List ℕ))
            × AreNoted groups.now workqueues self.count self.stood.items self.lane_of_group.items }
        ensures lanes { (workqueues : List (List ℕ))
            → AreNoted groups.now workqueues self.count self.stood.items self.lane_of_group.items
            → IfOk result (λ lanes. part_lanes groups.now workqueues ≡ Ok lanes.items) }
        ensures fault { (workqueues : List (List ℕ))
            → AreNoted groups.now workqueues self.count self.stood.items self.lane_of_group.items
            → IfErr result (λ e. part_lanes groups.now workqueues ≡ Err e) }
    {
        let _groups = groups.len();
        if !are_whole(self.stood.as_slice(), self.lane_of_group.as_slice(), groups) {
            return Err(CertError::GroupSplit { line: 0 });
        }
        let free = count_without(self.lane_of_group.as_slice());
        if u32::from(self.count) + free > u32::from(MAX_ASSIGNED_LANES) {
            return Err(CertError::NumberOutOfRange { line: 0 });
        }
        Ok(self.lane_of_group)
    }

    /// No workqueue yet, for this many items in these groups.
    pub(crate) fn none(alloc: A, groups: &Groups<A>, items: u16) -> Result<Self, AllocError>
        requires { length groups.now.group_of ≡ items }
        ensures { IfOk result (λ q. AreNoted groups.now [] q.count q.stood.items q.lane_of_group.items) }
    {
        let stood = vec![in alloc; false; usize::from(items)]?;
        let lane_of_group = vec![in alloc; None; usize::from(groups.len())]?;
        Ok(NotedWorkqueues {
            count: 0,
            stood,
            lane_of_group,
        })
    }

    /// Adds a workqueue with these items, from the line with this number.
    fn with(self, line: u32, groups: &Groups<A>, items: &[ItemId]) -> Result<Self, CertError>
        requires noted { (workqueues : List (List ℕ))
            × AreNoted groups.now workqueues self.count self.stood.items self.lane_of_group.items }
        requires room { self.count < 4096 }
        requires items { All (λ i. i < length groups.now.group_of) items.now }
        ensures workqueues { (workqueues : List (List ℕ))
            → AreNoted groups.now workqueues self.count self.stood.items self.lane_of_group.items
            → IfOk result (λ q. (fresh_items groups.now.group_of (concat workqueues) line items.now ≡ Ok items.now)
            × AreNoted groups.now (workqueues ++ (items.now ∷ [])) q.count q.stood.items q.lane_of_group.items) }
        ensures fault { (workqueues : List (List ℕ))
            → AreNoted groups.now workqueues self.count self.stood.items self.lane_of_group.items
            → IfErr result (λ e. fresh_items groups.now.group_of (concat workqueues) line items.now ≡ Err e) }
    {
        let NotedWorkqueues {
            count,
            stood,
            lane_of_group,
        } = self;
        let Some(stood) = mark(stood, items) else {
            return Err(CertError::NotAllItems { line });
        };
        let lane = LaneId::new(count);
        let Some(lane_of_group) = settle(lane_of_group, groups, lane, items) else {
            return Err(CertError::GroupSplit { line });
        };
        Ok(NotedWorkqueues {
            count: count + 1,
            stood,
            lane_of_group,
        })
    }

    /// Adds the next workqueue from its line. If `bare`, that may be a `norescuer` line.
    pub(crate) fn read_line(
        self,
        alloc: A,
        table: &ItemTable<'_, A>,
        groups: &Groups<A>,
        line: &Line<'_>,
        bare: bool,
    ) -> Result<Self, CertError>
        requires grouped { length groups.now.group_of ≡ length table.now.names }
        requires noted { (workqueues : List (List ℕ))
            × AreNoted groups.now workqueues self.count self.stood.items self.lane_of_group.items }
        ensures workqueues { (workqueues : List (List ℕ))
            → AreNoted groups.now workqueues self.count self.stood.items self.lane_of_group.items
            → IfOk result (λ q.
            IsNextNoted table.now.names groups.now workqueues
            (said_line bare line.now) q.count q.stood.items q.lane_of_group.items) }
        ensures fault { (workqueues : List (List ℕ))
            → AreNoted groups.now workqueues self.count self.stood.items self.lane_of_group.items
            → IfErr result (λ e.
            IsCertFaultOf e (wq_reading table.now.names groups.now.group_of workqueues (said_line bare line.now))) }
    {
        let items = read_items(alloc, table, self.count, line, bare)?;
        self.with(line.no(), groups, items.as_slice())
    }

    /// Adds the next workqueue from its `wq` line.
    pub(crate) fn read(
        self,
        alloc: A,
        table: &ItemTable<'_, A>,
        groups: &Groups<A>,
        line: &Line<'_>,
    ) -> Result<Self, CertError>
        requires grouped { length groups.now.group_of ≡ length table.now.names }
        requires noted { (workqueues : List (List ℕ))
            × AreNoted groups.now workqueues self.count self.stood.items self.lane_of_group.items }
        ensures workqueues { (workqueues : List (List ℕ))
            → AreNoted groups.now workqueues self.count self.stood.items self.lane_of_group.items
            → IfOk result (λ q.
            IsNextNoted table.now.names groups.now workqueues
            (cert_line line.now) q.count q.stood.items q.lane_of_group.items) }
        ensures fault { (workqueues : List (List ℕ))
            → AreNoted groups.now workqueues self.count self.stood.items self.lane_of_group.items
            → IfErr result (λ e.
            IsCertFaultOf e (wq_reading table.now.names groups.now.group_of workqueues (cert_line line.now))) }
    {
        self.read_line(alloc, table, groups, line, false)
    }

    /// The assignment to these workqueues, if each item is on one.
    pub(crate) fn assignment(self, alloc: A, groups: &Groups<A>) -> Result<Assignment<A>, CertError>
        requires { (workqueues : List (List ℕ))
            × AreNoted groups.now workqueues self.count self.stood.items self.lane_of_group.items }
        ensures assignment { (workqueues : List (List ℕ))
            → AreNoted groups.now workqueues self.count self.stood.items self.lane_of_group.items
            → IfOk result (λ a. whole_assignment groups.now workqueues ≡ Ok a) }
        ensures fault { (workqueues : List (List ℕ))
            → AreNoted groups.now workqueues self.count self.stood.items self.lane_of_group.items
            → IfErr result (λ e. IsCertFaultOf e (whole_assignment groups.now workqueues)) }
    {
        let _groups = groups.len();
        if !are_all_marked(self.stood.as_slice()) {
            return Err(CertError::NotAllItems { line: 0 });
        }
        let lanes = lanes_of(alloc, self.lane_of_group.as_slice())?;
        Ok(Assignment::new(self.count, lanes).unwrap())
    }
}
