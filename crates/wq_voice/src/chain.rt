//! The note beside a plan whose chain follows unsure flushes: how many workqueues are enough without them.
//!
//! The words are those of "What isn't sure" in docs/FORMAT.md. A call takes time linear in the number of items and
//! flushes, the time and the memory of the words, and, if the chain follows an unsure flush, the time of another plan.

ghost use Rattle.std.specs.Prelude.{◌≡◌, ◌==◌, ◌&&◌, ◌++◌, ◌∷◌, ◌<◌, [], ℕ, not, length, filter_map, find, flat_map};
ghost use Rattle.std.specs.Prelude.{IfOk, OnOk};
ghost use Rattle.std.specs.List.{All, list_any};
ghost use Rattle.wq_items.specs.declared.target.Target.{Target};
ghost use Rattle.wq_text.specs.LineText.{line_text};
ghost use Rattle.wq_voice.specs.Chain.{IsChainNote, IsFewestWithout, IsNeededNote, needed_words, unsure_flush};
ghost use Rattle.wq_voice.specs.Chain.{unsure_wait};

use crate::unsure::line_of;
use std::alloc::{AllocError, Allocator};
use wq_cert::put_unsure_line;
use wq_groups::Declaration;
use wq_items::{ItemId, ItemTable, Target};
use wq_names::messages;
use wq_plan::{Answer, solve};
use wq_text::put;

/// Whether one of these flushes of a target is sure.
fn has_sure(flushes: &[Target], target: ItemId) -> bool
    ensures { result ≡ list_any (λ (t : Target). (t.item == target) && not t.unsure) flushes.now }
{
    flushes
        .iter()
        .any(|flush| flush.item == target && !flush.unsure)
}

/// The first of these flushes whose target this is.
fn first_flush(flushes: &[Target], target: ItemId) -> Option<Target>
    ensures { result ≡ find (λ (t : Target). t.item == target) flushes.now }
{
    flushes.iter().copied().find(|flush| flush.item == target)
}

/// The flush by which an item waits for a target, if it is unsure: none of the item's flushes of it is sure.
fn unsure_flush<A: Allocator + Copy>(
    table: &ItemTable<'_, A>,
    item: ItemId,
    target: ItemId,
) -> Option<Target>
    requires { item < length table.now.names }
    ensures { result ≡ unsure_flush table.now.waits item target }
{
    let flushes = table.waits(item);
    if has_sure(flushes, target) {
        return None;
    }
    first_flush(flushes, target)
}

/// Adds the line of this wait, if it is by an unsure flush.
fn put_unsure_wait<A: Allocator + Copy>(
    out: &mut Vec<u8, A>,
    table: &ItemTable<'_, A>,
    item: ItemId,
    target: ItemId,
) -> Result<(), AllocError>
    requires item { item < length table.now.names }
    requires target { target < length table.now.names }
    ensures { OnOk result (out.new.items ≡ out.old.items
        ++ flat_map line_text (filter_map (unsure_wait table.now.names table.now.waits) ((item, target) ∷ []))) }
{
    match unsure_flush(table, item, target) {
        Some(flush) => put_unsure_line(out, table, item, flush),
        None => Ok(()),
    }
}

/// Adds the line of each of these waits that is by an unsure flush.
fn put_unsure_waits<A: Allocator + Copy>(
    out: &mut Vec<u8, A>,
    table: &ItemTable<'_, A>,
    arcs: &[(ItemId, ItemId)],
) -> Result<(), AllocError>
    requires { All (λ (arc : ℕ × ℕ). (arc.0 < length table.now.names) × (arc.1 < length table.now.names)) arcs.now }
    ensures { OnOk result (out.new.items
        ≡ out.old.items ++ flat_map line_text (filter_map (unsure_wait table.now.names table.now.waits) arcs.now)) }
{
    for (item, target) in arcs {
        put_unsure_wait(out, table, *item, *target)?;
    }
    Ok(())
}

/// How many workqueues are enough without unsure flushes, if the groups don't wait in a circle of sure ones.
fn fewest_without<A: Allocator + Copy>(
    alloc: A,
    declared: &Declaration<'_, A>,
) -> Result<Option<u16>, AllocError>
    ensures { IfOk result (IsFewestWithout declared.now) }
{
    let reading = declared.reading(alloc, &[])?;
    match solve(alloc, &reading.table, &reading.groups)? {
        Answer::Plan { assignment, .. } => Ok(Some(assignment.lanes())),
        Answer::Circle { .. } => Ok(None),
    }
}

/// Says how many workqueues are needed, and how many are enough without unsure flushes.
fn needed_words<A: Allocator + Copy>(
    alloc: A,
    file: &str,
    count: u32,
    fewer: u16,
) -> Result<Vec<u8, A>, AllocError>
    ensures { IfOk result (λ words. words.items ≡ needed_words file.now count fewer) }
{
    let count = count.to_string(alloc)?;
    if fewer == 1 {
        return messages::are_needed_not_one(alloc, file.as_bytes(), count.as_bytes());
    }
    let fewer = fewer.to_string(alloc)?;
    messages::are_needed(alloc, file.as_bytes(), count.as_bytes(), fewer.as_bytes())
}

/// Says how many workqueues are needed, with these lines below; nothing if as many are needed without unsure flushes.
fn needed_note<A: Allocator + Copy>(
    alloc: A,
    file: &str,
    declared: &Declaration<'_, A>,
    count: u32,
    lines: &[u8],
) -> Result<Vec<u8, A>, AllocError>
    ensures { IfOk result (λ note. IsNeededNote file.now declared.now count lines.now note.items) }
{
    let Some(fewer) = fewest_without(alloc, declared)? else {
        return Ok(Vec::new(alloc));
    };
    if u32::from(fewer) == count {
        return Ok(Vec::new(alloc));
    }
    let words = needed_words(alloc, file, count, fewer)?;
    let mut note = line_of(alloc, &words)?;
    put(&mut note, lines)?;
    Ok(note)
}

/// What is said in this file of a plan with this number of workqueues and these waits along its chain; nothing if none
/// of the waits is unsure, or if as many workqueues are needed without unsure flushes.
pub(crate) fn chain_note<A: Allocator + Copy>(
    alloc: A,
    file: &str,
    declared: &Declaration<'_, A>,
    count: u32,
    arcs: &[(ItemId, ItemId)],
) -> Result<Vec<u8, A>, AllocError>
    requires { All (λ (arc : ℕ × ℕ).
        (arc.0 < length declared.now.table.names) × (arc.1 < length declared.now.table.names)) arcs.now }
    ensures { IfOk result (λ note. IsChainNote file.now declared.now count arcs.now note.items) }
{
    let mut lines = Vec::new(alloc);
    put_unsure_waits(&mut lines, &declared.table, arcs)?;
    if lines.is_empty() {
        return Ok(lines);
    }
    needed_note(alloc, file, declared, count, &lines)
}
