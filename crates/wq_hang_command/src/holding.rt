//! The answer to a declaration, an assignment and the names of items that must go on, built in full in memory.
//!
//! The rule is that of "The command `hang`", "What must go on", in docs/FORMAT.md. It takes the time and the memory of
//! reading the assignment, of looking the names up, and of the search for the shortest run.

ghost use Rattle.std.specs.Prelude.{◌≡◌, ◌<◌, ℕ, List, IfOk, length, map};
ghost use Rattle.std.specs.List.{All};
ghost use Rattle.wq_hang.specs.AnswerFor.{IsAnswerFor, IsHeldBy};
ghost use Rattle.wq_hang.specs.Walk.{needs};
ghost use Rattle.wq_cert.specs.Part.{reading_text};
ghost use Rattle.wq_commands.specs.Named.{items_with_names, FindsNamed};
ghost use Rattle.wq_groups.specs.DeclaredGroups.{declared_waits};
ghost use Rattle.wq_hang_command.specs.Holding.{FindsHold, HoldsText, PrintsHeld};

use std::alloc::{AllocError, Allocator};
use wq_cert::reading_text;
use wq_commands::{
    Answered, End, Found, Which, named_items, refuse_name, safe_text, workqueues_of,
};
use wq_core::{Assigned, Step, Workqueues};
use wq_groups::Declaration;
use wq_hang::{Held, Hop, held_up, needed_places};
use wq_items::ItemId;

/// Workqueues, items that must go on, and how one of these is held up soonest, if one can be.
#[derive(Drop)]
pub struct Holding<A: Allocator> {
    pub workqueues: Workqueues<A>,
    pub named: Vec<ItemId, A>,
    pub answer: Held<A>,
}

/// The text of the run of these waits, by which an item, one of these, is held up. If a flush is unsure, the unsure
/// flushes among the waits come first.
fn hold_text<A: Allocator + Copy>(
    alloc: A,
    assigned: &Assigned<'_, '_, A>,
    hops: &[Hop],
    steps: &[Step],
) -> Result<Vec<u8, A>, AllocError>
    requires { (named : List ℕ) × (item : ℕ) × IsHeldBy (declared_waits assigned.now.declared)
        assigned.now.workqueues named item hops.now steps.now }
    ensures { IfOk result (λ text. text.items ≡ reading_text assigned.now.declared.table.names
        assigned.now.declared.table.waits (needs hops.now) steps.now) }
{
    let kept = needed_places(alloc, hops)?;
    reading_text(alloc, assigned.table(), kept.as_slice(), steps)
}

/// What is printed of this answer.
fn print_held<A: Allocator + Copy>(
    alloc: A,
    assigned: &Assigned<'_, '_, A>,
    named: &[ItemId],
    answer: &Held<A>,
) -> Result<(End, Vec<u8, A>), AllocError>
    requires { IsAnswerFor (declared_waits assigned.now.declared) assigned.now.workqueues named.now
        answer.now }
    ensures { IfOk result (λ printed. PrintsHeld assigned.now.declared answer.now printed.0 printed.1.items) }
{
    match answer {
        Held::Safe => {
            let text = safe_text(alloc)?;
            Ok((End::Good, text))
        }
        Held::HeldUp(_, hops, steps) => {
            let text = hold_text(alloc, assigned, hops, steps)?;
            Ok((End::Bad, text))
        }
    }
}

/// The answer to workqueues of the declared groups where these items must go on.
fn hold_workqueues<A: Allocator + Copy>(
    alloc: A,
    declared: &Declaration<'_, A>,
    workqueues: Workqueues<A>,
    named: Vec<ItemId, A>,
) -> Result<Answered<A, Found<Option<Holding<A>>>>, AllocError>
    requires assigned { length workqueues.assignment.lane_of_group ≡ declared.now.partition.groups }
    requires named { All (λ i. i < length declared.now.table.names) named.items }
    ensures { IfOk result (λ a. FindsHold declared.now workqueues named.items a.found a.end a.text.items) }
{
    let assigned = Assigned::new(declared, &workqueues);
    let answer = held_up(alloc, &assigned, named.as_slice())?;
    let (end, text) = print_held(alloc, &assigned, named.as_slice(), &answer)?;
    Ok(Answered {
        found: Found::Read(Some(Holding {
            workqueues,
            named,
            answer,
        })),
        end,
        text,
    })
}

/// The answer to workqueues of the declared groups where the items with these names must go on.
fn hold_named<A: Allocator + Copy>(
    alloc: A,
    declared: &Declaration<'_, A>,
    workqueues: Workqueues<A>,
    names: &[&str],
) -> Result<Answered<A, Found<Option<Holding<A>>>>, AllocError>
    requires assigned { length workqueues.assignment.lane_of_group ≡ declared.now.partition.groups }
    ensures { IfOk result (λ a. FindsNamed (items_with_names declared.now.table.names (map (λ n. n.now) names.now))
        (FindsHold declared.now workqueues) a.found a.end a.text.items) }
{
    match named_items(alloc, &declared.table, names)? {
        Some(named) => hold_workqueues(alloc, declared, workqueues, named),
        None => {
            let (end, text) = refuse_name(alloc)?;
            drop(workqueues);
            Ok(Answered {
                found: Found::Read(None),
                end,
                text,
            })
        }
    }
}

/// The answer to the text of an assignment of the declared groups where the items with these names must go on.
pub(crate) fn hold_declared<A: Allocator + Copy>(
    alloc: A,
    declared: &Declaration<'_, A>,
    names: &[&str],
    text: &[u8],
) -> Result<Answered<A, Found<Option<Holding<A>>>>, AllocError>
    ensures { IfOk result (λ a.
        HoldsText declared.now (map (λ n. n.now) names.now) text.now a.found a.end a.text.items) }
{
    match workqueues_of(alloc, declared, text) {
        Ok(workqueues) => hold_named(alloc, declared, workqueues, names),
        Err(fault) => Answered::unread(alloc, Which::Certificate, fault),
    }
}
