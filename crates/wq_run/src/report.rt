//! What is printed about a plan that was run.
//!
//! The format is that of "The command `run`" in docs/FORMAT.md. A call takes time and memory linear in the number of
//! items and the length of their names.

ghost use Rattle.std.specs.Prelude.{◌≡◌, ◌++◌, ◌<◌, ℕ, length, true, OnOk, IfOk, decimal, flat_map};
ghost use Rattle.wq_text.specs.LineText.{spaced, line_text};
ghost use Rattle.wq_counts.specs.declared.kind.Kind.{Kind};
ghost use Rattle.wq_counts.specs.Counting.{made};
ghost use Rattle.wq_run.specs.Report.{workqueues_line, kind_count_words, item_line, faults_line, report_text};

use std::alloc::{AllocError, Allocator};
use wq_api::{Closed, Naming};
use wq_counts::Counts;
use wq_groups::{Assignment, Declaration};
use wq_items::ItemId;
use wq_rescuer::{Body, Caller, Ran};
use wq_text::{put, put_count, put_end, put_number, put_word};

/// Adds `workqueues K`.
fn put_workqueues_line<A: Allocator + Copy>(
    out: &mut Vec<u8, A>,
    lanes: u16,
) -> Result<(), AllocError>
    ensures { OnOk result (out.new.items ≡ out.old.items ++ line_text (workqueues_line lanes)) }
{
    put(out, b"workqueues")?;
    put_number(out, u32::from(lanes))?;
    put_end(out)
}

/// Adds ` queued N cancelled N finished N`.
fn put_counts<A: Allocator + Copy>(
    out: &mut Vec<u8, A>,
    counts: &Counts<A>,
    item: ItemId,
) -> Result<(), AllocError>
    ensures { OnOk result (out.new.items
        ≡ out.old.items ++ flat_map spaced (kind_count_words (λ kind. made counts.now item kind true))) }
{
    put_word(out, b"queued")?;
    put_count(out, counts.queued(item))?;
    put_word(out, b"cancelled")?;
    put_count(out, counts.cancelled(item))?;
    put_word(out, b"finished")?;
    put_count(out, counts.finished(item))
}

/// Adds `item NAME wq Q queued N cancelled N finished N`.
fn put_item_line<A: Allocator + Copy>(
    out: &mut Vec<u8, A>,
    declared: &Declaration<'_, A>,
    assignment: &Assignment<A>,
    counts: &Counts<A>,
    item: ItemId,
) -> Result<(), AllocError>
    requires item { item < length declared.now.table.names }
    requires assigned { length assignment.now.lane_of_group ≡ declared.now.partition.groups }
    ensures { OnOk result (out.new.items ≡ out.old.items
        ++ line_text (item_line declared.now assignment.now (λ i kind. made counts.now i kind true) item)) }
{
    let Declaration { table, groups } = declared;
    let lane = assignment.lane(groups.of(item));
    put(out, b"item")?;
    put_word(out, table.name(item))?;
    put_word(out, b"wq")?;
    put_number(out, u32::from(lane.get()))?;
    put_counts(out, counts, item)?;
    put_end(out)
}

/// Adds `faults N`.
fn put_faults_line<A: Allocator + Copy>(out: &mut Vec<u8, A>, faults: u64) -> Result<(), AllocError>
    ensures { OnOk result (out.new.items ≡ out.old.items ++ line_text (faults_line faults)) }
{
    put(out, b"faults")?;
    put_count(out, faults)?;
    put_end(out)
}

/// The report on a plan that was run, from the runtime that was closed and from what all threads left: how many
/// workqueues the assignment has; for each item its workqueue, and how often it was queued, cancelled and finished, by
/// the counts of the closed runtime; and how many executions ended with a fault. Nothing else decides on the text. The
/// seats aren't looked at, so they may have been taken out to close the runtime with.
///
/// The assignment is one of the declared groups. The only error is out of memory (20).
pub fn report_text<N: Naming, A: Allocator + Copy, B: Body + Drop, C: Caller + Drop>(
    alloc: A,
    declared: &Declaration<'_, A>,
    assignment: &Assignment<A>,
    closed: &Closed<N, A>,
    ran: &Ran<N, A, B, C>,
) -> Result<Vec<u8, A>, AllocError>
    requires assigned { length assignment.now.lane_of_group ≡ declared.now.partition.groups }
    ensures { IfOk result (λ text. text.items
        ≡ report_text declared.now assignment.now (λ i kind. made closed.now.counts i kind true) ran.now.faults) }
{
    let mut out = Vec::new(alloc);
    put_workqueues_line(&mut out, assignment.lanes())?;
    for i in 0..declared.table.len() {
        let item = ItemId::new(i);
        put_item_line(&mut out, declared, assignment, &closed.counts, item)?;
    }
    put_faults_line(&mut out, ran.faults)?;
    Ok(out)
}
