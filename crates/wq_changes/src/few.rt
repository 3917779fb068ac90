//! What is said if too few items may move: the workqueues of the run that is printed, and how they hang soonest.
//!
//! The form is that of "Changes" in docs/FORMAT.md. A call takes the time of a search for a shortest run.

ghost use Rattle.std.specs.Prelude.{◌≡◌, ◌++◌, [], IfOk, OnOk, map, option_map, unwrap_or};
ghost use Rattle.wq_changes.specs.Few.{TellsFew, few_line};

use std::alloc::{AllocError, Allocator};
use wq_core::Assigned;
use wq_diagnosis::{Source, put_line};
use wq_names::messages;
use wq_repair_command::assignment_text;
use wq_text::put;
use wq_voice::{FlushLines, Lead, Subject, Wording, of_subject};

/// That too few items may move.
fn few_line<A: Allocator + Copy>(alloc: A, file: &str) -> Result<Vec<u8, A>, AllocError>
    ensures { IfOk result (λ text. text.items ≡ few_line file.now) }
{
    let line = messages::names_are_too_few(alloc, file.as_bytes())?;
    let mut text = Vec::new(alloc);
    put_line(&mut text, &line)?;
    Ok(text)
}

/// Adds this, if there is something.
fn put_said<A: Allocator + Copy>(
    text: &mut Vec<u8, A>,
    said: &Option<Vec<u8, A>>,
) -> Result<(), AllocError>
    ensures { OnOk result (text.new.items ≡ text.old.items ++ unwrap_or (option_map (λ s. s.items) said.now) []) }
{
    match said {
        Some(said) => put(text, said),
        None => Ok(()),
    }
}

/// What is said, if too few items may move, of the workqueues on which they hang.
pub(crate) fn of_few<'a, A: Allocator + Copy>(
    alloc: A,
    declaration: Source<'a>,
    assignment: Source<'a>,
    start: &Assigned<'_, 'a, A>,
    names: &[&'a [u8]],
) -> Result<Vec<u8, A>, AllocError>
    ensures { IfOk result (λ text. TellsFew declaration.entry.file.now assignment.entry.file.now
        start.now.declared (map (λ n. n.now) names.now) start.now.workqueues text.items) }
{
    let flushes = FlushLines::new(alloc, declaration.text)?;
    let subject = Subject {
        declaration,
        assignment,
        wording: Wording::OnWorkqueues,
        assigned: start,
        flushes: &flushes,
        names,
    };
    let lines = assignment_text(alloc, start, names)?;
    let said = of_subject(alloc, &subject, &Lead::can_hang())?;
    let mut text = few_line(alloc, assignment.file)?;
    put(&mut text, &lines)?;
    put_said(&mut text, &said)?;
    Ok(text)
}
