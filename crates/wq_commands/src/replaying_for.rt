//! The answer to a declaration, an assignment, a run and the names of items that must go on, built in full in memory.
//!
//! It takes the time and the memory of reading the three texts, of looking the names up and of making the steps.

ghost use Rattle.std.specs.Prelude.{◌≡◌, ◌<◌, IfOk, length, map, option_map};
ghost use Rattle.wq_checker.specs.RunEnds.{EndsFor};
ghost use Rattle.wq_core.specs.Workqueues.{wiring_of};
ghost use Rattle.wq_groups.specs.DeclaredGroups.{declared_waits};
ghost use Rattle.wq_commands.specs.Named.{items_with_names, FindsNamed};
ghost use Rattle.wq_commands.specs.Replaying.{wiring_read};
ghost use Rattle.wq_commands.specs.ReplayingFor.{FindsEndFor, ReplaysOnFor, ReplaysTextsFor};

use crate::assigned::workqueues_of;
use crate::found::{Found, Which};
use crate::named::{named_items, refuse_name};
use crate::replaying::{Replayed, replay_end, replay_text};
use crate::shell::Answered;
use std::alloc::{AllocError, Allocator};
use wq_cert::{ReadRun, read_made};
use wq_checker::{RunEnd, check_run_for};
use wq_core::{Assigned, Step, Workqueues};
use wq_groups::Declaration;
use wq_items::ItemId;

/// A run that was made on workqueues, how it ends, and the items that must go on.
#[derive(Drop)]
pub struct ReplayedFor<A: Allocator> {
    pub replayed: Replayed<A>,
    pub named: Vec<ItemId, A>,
}

/// How these steps end on workqueues of the declared groups, where these items must go on.
fn end_of_steps_for<A: Allocator + Copy>(
    alloc: A,
    assigned: &Assigned<'_, '_, A>,
    named: &[ItemId],
    steps: &[Step],
) -> Result<RunEnd, AllocError>
    requires { length steps.now < 4294967295 }
    ensures { IfOk result (EndsFor (wiring_of (declared_waits assigned.now.declared) assigned.now.workqueues)
        named.now steps.now) }
{
    check_run_for(
        alloc,
        assigned.table(),
        assigned.groups(),
        assigned.workqueues(),
        named,
        steps,
    )
}

/// The same in the reading that keeps the unsure flushes at these places, or of all flushes.
fn end_in_reading_for<A: Allocator + Copy>(
    alloc: A,
    declared: &Declaration<'_, A>,
    workqueues: &Workqueues<A>,
    named: &[ItemId],
    kept: &Option<Vec<u32, A>>,
    steps: &[Step],
) -> Result<RunEnd, AllocError>
    requires assigned { length workqueues.now.assignment.lane_of_group ≡ declared.now.partition.groups }
    requires few { length steps.now < 4294967295 }
    ensures { IfOk result (EndsFor
        (wiring_read declared.now workqueues.now (option_map (λ places. places.items) kept.now))
        named.now steps.now) }
{
    match kept {
        Some(kept) => {
            let reading = declared.reading(alloc, kept.as_slice())?;
            end_of_steps_for(alloc, &Assigned::new(&reading, workqueues), named, steps)
        }
        None => end_of_steps_for(alloc, &Assigned::new(declared, workqueues), named, steps),
    }
}

/// The answer to a run that was read, on workqueues of the declared groups, where these items must go on.
fn replay_run_for<A: Allocator + Copy>(
    alloc: A,
    declared: &Declaration<'_, A>,
    workqueues: Workqueues<A>,
    named: Vec<ItemId, A>,
    run: ReadRun<A>,
) -> Result<Answered<A, Found<Option<ReplayedFor<A>>>>, AllocError>
    requires assigned { length workqueues.assignment.lane_of_group ≡ declared.now.partition.groups }
    requires few { length run.steps.items < 4294967295 }
    ensures { IfOk result (λ a. FindsEndFor declared.now workqueues (option_map (λ places. places.items) run.kept)
        run.steps.items named.items a.found a.end a.text.items) }
{
    let ReadRun { kept, steps } = run;
    let end = end_in_reading_for(
        alloc,
        declared,
        &workqueues,
        named.as_slice(),
        &kept,
        steps.as_slice(),
    )?;
    let text = replay_text(alloc, end)?;
    let replayed = Replayed {
        workqueues,
        kept,
        steps,
        end,
    };
    Ok(Answered {
        found: Found::Read(Some(ReplayedFor { replayed, named })),
        end: replay_end(end),
        text,
    })
}

/// The answer to a run that was read, where the items with these names must go on.
fn replay_named<A: Allocator + Copy>(
    alloc: A,
    declared: &Declaration<'_, A>,
    workqueues: Workqueues<A>,
    names: &[&str],
    run: ReadRun<A>,
) -> Result<Answered<A, Found<Option<ReplayedFor<A>>>>, AllocError>
    requires assigned { length workqueues.assignment.lane_of_group ≡ declared.now.partition.groups }
    requires few { length run.steps.items < 4294967295 }
    ensures { IfOk result (λ a. FindsNamed (items_with_names declared.now.table.names (map (λ n. n.now) names.now))
        (FindsEndFor declared.now workqueues (option_map (λ places. places.items) run.kept) run.steps.items)
        a.found a.end a.text.items) }
{
    match named_items(alloc, &declared.table, names)? {
        Some(named) => replay_run_for(alloc, declared, workqueues, named, run),
        None => {
            let (end, text) = refuse_name(alloc)?;
            drop(workqueues);
            drop(run);
            Ok(Answered {
                found: Found::Read(None),
                end,
                text,
            })
        }
    }
}

/// The answer to workqueues of the declared groups and the text of a run, where the items with these names must go on.
fn replay_on_for<A: Allocator + Copy>(
    alloc: A,
    declared: &Declaration<'_, A>,
    workqueues: Workqueues<A>,
    names: &[&str],
    text: &[u8],
) -> Result<Answered<A, Found<Option<ReplayedFor<A>>>>, AllocError>
    requires { length workqueues.assignment.lane_of_group ≡ declared.now.partition.groups }
    ensures { IfOk result (λ a. ReplaysOnFor declared.now workqueues (map (λ n. n.now) names.now) text.now
        a.found a.end a.text.items) }
{
    match read_made(alloc, text, &declared.table) {
        Ok(read) => replay_named(alloc, declared, workqueues, names, read),
        Err(fault) => {
            let answer = Answered::unread(alloc, Which::Run, fault);
            // Written as a call, so that the proof has one step for it.
            drop(workqueues);
            answer
        }
    }
}

/// The answer to the texts of an assignment of the declared groups and of a run, where the items with these names must
/// go on.
pub(crate) fn replay_declared_for<A: Allocator + Copy>(
    alloc: A,
    declared: &Declaration<'_, A>,
    names: &[&str],
    assignment: &[u8],
    text: &[u8],
) -> Result<Answered<A, Found<Option<ReplayedFor<A>>>>, AllocError>
    ensures { IfOk result (λ a. ReplaysTextsFor declared.now (map (λ n. n.now) names.now) assignment.now text.now
        a.found a.end a.text.items) }
{
    match workqueues_of(alloc, declared, assignment) {
        Ok(workqueues) => replay_on_for(alloc, declared, workqueues, names, text),
        Err(fault) => Answered::unread(alloc, Which::Certificate, fault),
    }
}
