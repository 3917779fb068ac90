//! What can be done about the workqueues in the text of an assignment, and what is printed of it, built in full in
//! memory.
//!
//! The rule is that of "The command `repair`" in docs/FORMAT.md. A call takes the time and the memory of reading the
//! text, of the search for a repair and of printing it.

ghost use Rattle.std.specs.Prelude.{◌≡◌, ◌<◌, ℕ, List, IfOk, None, length, map};
ghost use Rattle.std.specs.List.{All};
ghost use Rattle.wq_text.specs.Limits.{limit_fault};
ghost use Rattle.wq_cert.specs.Texts.{max_certificate, max_certificate_line};
ghost use Rattle.wq_groups.specs.DeclaredGroups.{declared_waits};
ghost use Rattle.wq_commands.specs.Answer.{PrintsRefusal};
ghost use Rattle.wq_commands.specs.declared.found.Found.TheVariants.{Read};
ghost use Rattle.wq_names.specs.Names.{names_of};
ghost use Rattle.wq_repair.specs.Repair.{IsAnswer};
ghost use Rattle.wq_repair_command.specs.Movers.{movers};
ghost use Rattle.wq_repair_command.specs.Repairing.{FindsIfNamed, FindsRepair, PrintsAnswer, RepairsText};

use crate::assignment::assignment_text;
use crate::circle::text_of_circle;
use crate::movers::items_that_may_move;
use crate::run::text_of_hang;
use std::alloc::{AllocError, Allocator};
use wq_commands::{Answered, End, Found, Which, refuse, workqueues_of};
use wq_core::{Assigned, Workqueues};
use wq_groups::Declaration;
use wq_items::ItemId;
use wq_names::workqueue_names;
use wq_repair::{Answer, repair};

/// The number of the refusal of a name that is no item's.
const UNKNOWN_ITEM: u32 = 8;

/// Workqueues, and what can be done about them.
#[derive(Drop)]
pub struct Repairing<A: Allocator> {
    /// The workqueues.
    pub workqueues: Workqueues<A>,
    /// What can be done about these workqueues, if only some items may move.
    pub answer: Answer<A>,
}

/// The printed form of this answer; `called` are the names of the workqueues.
fn print_answer<A: Allocator + Copy>(
    alloc: A,
    assigned: &Assigned<'_, '_, A>,
    called: &[&[u8]],
    answer: &Answer<A>,
) -> Result<(End, Vec<u8, A>), AllocError>
    requires { (moving : List ℕ)
        × IsAnswer (declared_waits assigned.now.declared) assigned.now.workqueues moving answer.now }
    ensures { IfOk result (λ printed. PrintsAnswer assigned.now.declared assigned.now.workqueues
        (map (λ n. n.now) called.now) answer.now printed.0 printed.1.items) }
{
    match answer {
        Answer::Safe => {
            let text = assignment_text(alloc, assigned, called)?;
            Ok((End::Good, text))
        }
        Answer::Repaired(new) => {
            let repaired = Assigned::new(assigned.declared, new);
            let text = assignment_text(alloc, &repaired, called)?;
            Ok((End::Good, text))
        }
        Answer::TooFewNames(start, steps) => {
            let begin = Assigned::new(assigned.declared, start);
            let text = text_of_hang(alloc, &begin, steps)?;
            Ok((End::Bad, text))
        }
        Answer::Circle(arcs) => {
            let text = text_of_circle(alloc, assigned.declared, arcs)?;
            Ok((End::Bad, text))
        }
    }
}

/// The answer to named workqueues of declared groups, if these items may move.
fn answer_moving<A: Allocator + Copy>(
    alloc: A,
    declared: &Declaration<'_, A>,
    workqueues: Workqueues<A>,
    called: &[&[u8]],
    moving: &[ItemId],
) -> Result<Answered<A, Found<Option<Repairing<A>>>>, AllocError>
    requires assigned { length workqueues.assignment.lane_of_group ≡ declared.now.partition.groups }
    requires moving { All (λ i. i < length declared.now.table.names) moving.now }
    ensures { IfOk result (λ a. FindsRepair declared.now workqueues
        (map (λ n. n.now) called.now) moving.now a.found a.end a.text.items) }
{
    let assigned = Assigned::new(declared, &workqueues);
    let answer = repair(alloc, &assigned, moving)?;
    let (end, text) = print_answer(alloc, &assigned, called, &answer)?;
    Ok(Answered {
        found: Found::Read(Some(Repairing { workqueues, answer })),
        end,
        text,
    })
}

/// The answer to a name that is no item's.
fn refuse_name<A: Allocator + Copy>(
    alloc: A,
) -> Result<Answered<A, Found<Option<Repairing<A>>>>, AllocError>
    ensures found { IfOk result (λ a. a.found ≡ Read None) }
    ensures printed { IfOk result (λ a. PrintsRefusal (record { code = 8; line = 0 }) a.end a.text.items) }
{
    let (end, text) = refuse(alloc, UNKNOWN_ITEM, 0)?;
    Ok(Answered {
        found: Found::Read(None),
        end,
        text,
    })
}

/// The answer to named workqueues of declared groups, if the items with these names may move.
fn answer_named<A: Allocator + Copy>(
    alloc: A,
    declared: &Declaration<'_, A>,
    workqueues: Workqueues<A>,
    called: &[&[u8]],
    names: &[&str],
) -> Result<Answered<A, Found<Option<Repairing<A>>>>, AllocError>
    requires { length workqueues.assignment.lane_of_group ≡ declared.now.partition.groups }
    ensures { IfOk result (λ a. FindsIfNamed declared.now workqueues
        (map (λ n. n.now) called.now) (movers declared.now.table.names (map (λ n. n.now) names.now))
        a.found a.end a.text.items) }
{
    match items_that_may_move(alloc, &declared.table, names)? {
        Some(moving) => {
            let answer = answer_moving(alloc, declared, workqueues, called, moving.as_slice());
            // Written as a call, so that the proof has one step for it.
            drop(moving);
            answer
        }
        None => {
            let answer = refuse_name(alloc);
            drop(workqueues);
            answer
        }
    }
}

/// The answer to workqueues of declared groups, if the items with these names may move. The names of the workqueues are
/// in `text`.
fn answer_assigned<A: Allocator + Copy>(
    alloc: A,
    declared: &Declaration<'_, A>,
    workqueues: Workqueues<A>,
    text: &[u8],
    names: &[&str],
) -> Result<Answered<A, Found<Option<Repairing<A>>>>, AllocError>
    requires assigned { length workqueues.assignment.lane_of_group ≡ declared.now.partition.groups }
    requires within { limit_fault max_certificate max_certificate_line text.now ≡ None }
    ensures { IfOk result (λ a. FindsIfNamed declared.now workqueues (names_of text.now)
        (movers declared.now.table.names (map (λ n. n.now) names.now)) a.found a.end a.text.items) }
{
    let called = workqueue_names(alloc, text)?;
    answer_named(alloc, declared, workqueues, &called, names)
}

/// The answer to the text of an assignment of the declared groups, if the items with these names may move.
pub(crate) fn repair_declared<A: Allocator + Copy>(
    alloc: A,
    declared: &Declaration<'_, A>,
    text: &[u8],
    names: &[&str],
) -> Result<Answered<A, Found<Option<Repairing<A>>>>, AllocError>
    ensures { IfOk result (λ a.
        RepairsText (map (λ n. n.now) names.now) declared.now text.now a.found a.end a.text.items) }
{
    match workqueues_of(alloc, declared, text) {
        Ok(workqueues) => answer_assigned(alloc, declared, workqueues, text, names),
        Err(fault) => Answered::unread(alloc, Which::Certificate, fault),
    }
}
