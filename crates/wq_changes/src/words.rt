//! The words of changes.
//!
//! The words are those of "What `repair` changes" in tests/DIAGNOSES.md. A call takes the time and the memory of the
//! words.

ghost use Rattle.std.specs.Prelude.{◌≡◌, ◌<◌, IfOk, length, map};
ghost use Rattle.wq_names.specs.Messages.{is_given};
ghost use Rattle.wq_voice.specs.Words.{workqueue_words};
ghost use Rattle.wq_changes.specs.Changes.{IsOf};
ghost use Rattle.wq_changes.specs.Words.{change_words, first_item, group_words, lead_of, place_words};
ghost use Rattle.wq_changes.specs.declared.change.Change.TheVariants as kind;

use crate::change::{Change, lane_in};
use std::alloc::{AllocError, Allocator};
use wq_core::{Assigned, Workqueues};
use wq_groups::{Declaration, GroupId, LaneId};
use wq_items::ItemId;
use wq_names::messages;
use wq_voice::{Lead, item_words, workqueue_words};

/// The first item of a group.
pub(crate) fn first_item<A: Allocator + Copy>(
    declared: &Declaration<'_, A>,
    group: GroupId,
) -> ItemId
    requires { group < declared.now.partition.groups }
    ensures { result ≡ first_item declared.now group }
{
    match declared.groups.members(group) {
        [first, ..] => *first,
        [] => ItemId::new(0),
    }
}

/// A group, by its first item and by how many others move with it.
fn group_words<A: Allocator + Copy>(
    alloc: A,
    declared: &Declaration<'_, A>,
    group: GroupId,
) -> Result<Vec<u8, A>, AllocError>
    requires { group < declared.now.partition.groups }
    ensures { IfOk result (λ words. words.items ≡ group_words declared.now group) }
{
    let size = declared.groups.members(group).len();
    let first = item_words(alloc, declared, first_item(declared, group))?;
    if size > 1 {
        let more = (size - 1).to_string(alloc)?;
        return messages::with_more(alloc, &first, more.as_bytes());
    }
    Ok(first)
}

/// To which lane a group moves, and what is new about it.
fn place_words<A: Allocator + Copy>(
    alloc: A,
    names: &[&[u8]],
    old: &Workqueues<A>,
    lane: LaneId,
) -> Result<Vec<u8, A>, AllocError>
    ensures { IfOk result (λ words. words.items ≡ place_words (map (λ n. n.now) names.now) old.now lane) }
{
    let workqueue = workqueue_words(alloc, names, lane)?;
    if lane.get() >= old.assignment().lanes() {
        messages::a_new_one(alloc, &workqueue)
    } else if old.is_bare(lane) {
        messages::which_is_given(alloc, &workqueue)
    } else {
        Ok(workqueue)
    }
}

/// That a group moves.
fn moved_words<A: Allocator + Copy>(
    alloc: A,
    names: &[&[u8]],
    old: &Assigned<'_, '_, A>,
    new: &Workqueues<A>,
    group: GroupId,
) -> Result<Vec<u8, A>, AllocError>
    requires group { group < old.now.declared.partition.groups }
    requires new { length new.now.assignment.lane_of_group ≡ old.now.declared.partition.groups }
    ensures { IfOk result (λ words. words.items ≡ change_words old.now.declared
        (map (λ n. n.now) names.now) old.now.workqueues new.now (kind.Moved group)) }
{
    let from = workqueue_words(alloc, names, lane_in(old.workqueues(), group))?;
    let to = place_words(alloc, names, old.workqueues(), lane_in(new, group))?;
    let moved = group_words(alloc, old.declared, group)?;
    messages::moves(alloc, &moved, &from, &to)
}

/// That a lane is given a rescuer.
fn given_words<A: Allocator + Copy>(
    alloc: A,
    names: &[&[u8]],
    lane: LaneId,
) -> Result<Vec<u8, A>, AllocError>
    ensures { IfOk result (λ words. words.items ≡ is_given (workqueue_words (map (λ n. n.now) names.now) lane)) }
{
    let workqueue = workqueue_words(alloc, names, lane)?;
    messages::is_given(alloc, &workqueue)
}

/// A change.
pub(crate) fn change_words<A: Allocator + Copy>(
    alloc: A,
    names: &[&[u8]],
    old: &Assigned<'_, '_, A>,
    new: &Workqueues<A>,
    change: &Change,
) -> Result<Vec<u8, A>, AllocError>
    requires change { IsOf old.now.declared.partition.groups change.now }
    requires new { length new.now.assignment.lane_of_group ≡ old.now.declared.partition.groups }
    ensures { IfOk result (λ words. words.items ≡ change_words old.now.declared
        (map (λ n. n.now) names.now) old.now.workqueues new.now change.now) }
{
    match change {
        Change::Given(lane) => given_words(alloc, names, *lane),
        Change::Moved(group) => moved_words(alloc, names, old, new, *group),
    }
}

/// What stands before the waits by which the workqueues hang without this change.
pub(crate) fn lead_of(change: &Change) -> Lead
    ensures { result ≡ lead_of change.now }
{
    match change {
        Change::Given(_) => Lead::new(messages::WITHOUT_ONE, messages::WITHOUT_ONE_IF),
        Change::Moved(_) => Lead::new(messages::IF_IT_STAYED, messages::IF_IT_STAYED_IF),
    }
}
