//! What is said beside the answer of `plan`: beside a circle, how its groups can hang on any workqueues; beside a plan
//! whose chain follows unsure flushes, how many workqueues are enough without them.
//!
//! A call takes the time and the memory of the search for a shortest run; or, if a flush is unsure, of two plans.

ghost use Rattle.std.specs.Prelude.{◌≡◌, IfOk, map, option_map};
ghost use Rattle.wq_commands.specs.Answer.{ends_of};
ghost use Rattle.wq_voice.specs.Voice.{IsPlanNote, NotesPlan, SaysPlan};

use crate::chain::chain_note;
use crate::file_names::FileNames;
use crate::reason::of_groups;
use crate::unsure::above;
use std::alloc::{AllocError, Allocator};
use wq_cert::has_unsure;
use wq_commands::{End, PlanCommand, Texts, Voice};
use wq_diagnosis::{Source, of_no_item};
use wq_graph::WaitArc;
use wq_groups::Declaration;
use wq_items::ItemId;
use wq_plan::{Answer, solve};

/// The waits of these flushes.
fn waits_of<A: Allocator + Copy>(
    alloc: A,
    chain: &[WaitArc],
) -> Result<Vec<(ItemId, ItemId), A>, AllocError>
    ensures { IfOk result (λ arcs. arcs.items ≡ map ends_of chain.now) }
{
    let mut arcs = Vec::with_capacity(alloc, chain.len())?;
    for arc in chain {
        arcs.push((arc.src, arc.dst))?;
    }
    Ok(arcs)
}

/// What is said of a plan of these groups: how many workqueues are enough without unsure flushes.
fn plan_note<A: Allocator + Copy>(
    alloc: A,
    declared: &Declaration<'_, A>,
    file: &str,
) -> Result<Vec<u8, A>, AllocError>
    ensures { IfOk result (λ note. IsPlanNote file.now declared.now note.items) }
{
    if !has_unsure(&declared.table) {
        return Ok(Vec::new(alloc));
    }
    match solve(alloc, &declared.table, &declared.groups)? {
        Answer::Plan { assignment, chain } => {
            let arcs = waits_of(alloc, &chain)?;
            let lanes = u32::from(assignment.lanes());
            chain_note(alloc, file, declared, lanes, arcs.as_slice())
        }
        Answer::Circle { .. } => Ok(Vec::new(alloc)),
    }
}

/// What is said of a declaration that has a plan.
fn say_good<A: Allocator + Copy>(
    alloc: A,
    declared: &Declaration<'_, A>,
    file: &str,
) -> Result<Option<Vec<u8, A>>, AllocError>
    ensures { IfOk result (λ said. NotesPlan file.now declared.now (option_map (λ text. text.items) said)) }
{
    let said = of_no_item(alloc, declared, file)?;
    let note = plan_note(alloc, declared, file)?;
    above(note, said)
}

/// What is said of a declaration to which `plan` has an answer with this end.
fn say_plan<A: Allocator + Copy>(
    alloc: A,
    names: &FileNames<'_>,
    declared: &Declaration<'_, A>,
    texts: &Texts<A>,
    end: End,
) -> Result<Option<Vec<u8, A>>, AllocError>
    ensures { IfOk result (λ said. SaysPlan names.now.declaration.now declared.now end
        (option_map (λ text. text.items) said)) }
{
    match end {
        End::Bad => {
            let declaration = Source {
                file: names.declaration,
                text: texts.first(),
            };
            of_groups(alloc, declaration, declared)
        }
        End::Good | End::Refused => say_good(alloc, declared, names.declaration),
    }
}

impl<A: Allocator + Copy> Voice<PlanCommand, A> for FileNames<'_> {
    ghost use Rattle.wq_voice.specs.Voice.{SaysPlan};

    ghost says = { λ names _ s _ end said.
        SaysPlan names.declaration.now s end said };

    fn say(
        &self,
        alloc: A,
        _seed: u64,
        _command: &PlanCommand,
        declared: &Declaration<'_, A>,
        texts: &Texts<A>,
        found: &End,
    ) -> Result<Option<Vec<u8, A>>, AllocError> {
        say_plan(alloc, self, declared, texts, *found)
    }
}
