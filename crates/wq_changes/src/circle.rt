//! What is said beside a circle of groups that need a rescuer: how they hang if each has a workqueue of its own.
//!
//! The form is that of "Changes" in docs/FORMAT.md. A call takes the time of a search from each item of the circle.

ghost use Rattle.std.specs.Prelude.{◌≡◌, IfOk, length};
ghost use Rattle.wq_circles.specs.ComponentsText.{AreBetween};
ghost use Rattle.wq_changes.specs.Circles.{TellsCircle, TellsCircleOn};

use std::alloc::{AllocError, Allocator};
use wq_commands::own_workqueues;
use wq_core::Assigned;
use wq_diagnosis::Source;
use wq_graph::WaitArc;
use wq_groups::Declaration;
use wq_hang::Rounds;
use wq_voice::{FlushLines, Subject, Wording, put_round};

/// What is said of this circle, if its groups are on these workqueues.
fn of_circle_on<'a, A: Allocator + Copy>(
    alloc: A,
    declaration: Source<'a>,
    assigned: &Assigned<'_, 'a, A>,
    circle: &[WaitArc],
) -> Result<Vec<u8, A>, AllocError>
    requires between { AreBetween (length assigned.now.declared.partition.group_of) circle.now }
    ensures { IfOk result (λ text. TellsCircleOn declaration.entry.file.now
        assigned.now.declared assigned.now.workqueues circle.now text.items) }
{
    let flushes = FlushLines::new(alloc, declaration.text)?;
    let subject = Subject {
        declaration,
        assignment: Source {
            file: "",
            text: b"",
        },
        wording: Wording::OfGroups,
        assigned,
        flushes: &flushes,
        names: &[],
    };
    let mut rounds = Rounds::new(alloc, assigned)?;
    let mut text = Vec::new(alloc);
    put_round(alloc, &mut text, &subject, &mut rounds, circle)?;
    Ok(text)
}

/// What is said of this circle.
pub(crate) fn of_circle<'a, A: Allocator + Copy>(
    alloc: A,
    declaration: Source<'a>,
    declared: &Declaration<'a, A>,
    circle: &[WaitArc],
) -> Result<Vec<u8, A>, AllocError>
    requires between { AreBetween (length declared.now.partition.group_of) circle.now }
    ensures { IfOk result (λ text. TellsCircle declaration.entry.file.now
        declared.now circle.now text.items) }
{
    let workqueues = own_workqueues(alloc, declared)?;
    let assigned = Assigned::new(declared, &workqueues);
    of_circle_on(alloc, declaration, &assigned, circle)
}
