//! The answer to a declaration and an assignment, or to a declaration alone, built in full in memory.
//!
//! The rule is that of "The command `circles`" in docs/FORMAT.md. It takes the time and the memory of reading the
//! assignment, of the components and of their text.

ghost use Rattle.std.specs.Prelude.{◌≡◌, IfOk, length, map};
ghost use Rattle.wq_core.specs.Wiring.{own_lanes};
ghost use Rattle.wq_core.specs.Workqueues.{all_rescued};
ghost use Rattle.wq_deadlock.specs.Judging.{bare_waits};
ghost use Rattle.wq_groups.specs.DeclaredGroups.{declared_waits};
ghost use Rattle.wq_circles.specs.Components.{AreComponents};
ghost use Rattle.wq_circles.specs.Circling.{CirclesText, CirclesTexts, FindsCircles, PrintsCircling};

use crate::joining::components;
use crate::printing::circles_text;
use std::alloc::{AllocError, Allocator};
use wq_commands::{Answered, End, Found, Texts, Which, own_workqueues, safe_text, workqueues_of};
use wq_core::{Assigned, Workqueues};
use wq_deadlock::bare_waits;
use wq_graph::WaitArc;
use wq_groups::Declaration;

/// What `circles` finds, and prints its answer from.
#[derive(Drop)]
pub struct Circling<A: Allocator> {
    /// The workqueues of the declared groups.
    pub workqueues: Workqueues<A>,
    /// The components of the workqueues, each as its flushes.
    pub components: Vec<Vec<WaitArc, A>, A>,
    /// The flushes that lead from a workqueue that has a rescuer to one that has none, in order of place.
    pub waits: Vec<WaitArc, A>,
}

/// What is printed if these components are found, and the flushes `waits` lead to workqueues without a rescuer.
fn print_components<A: Allocator + Copy>(
    alloc: A,
    assigned: &Assigned<'_, '_, A>,
    components: &[Vec<WaitArc, A>],
    waits: &[WaitArc],
) -> Result<(End, Vec<u8, A>), AllocError>
    requires found { AreComponents (declared_waits assigned.now.declared) assigned.now.workqueues
        (map (λ l. l.items) components.now) }
    requires waits { waits.now ≡ bare_waits (declared_waits assigned.now.declared) assigned.now.workqueues }
    ensures { IfOk result (λ printed. PrintsCircling assigned.now.declared.table
        (map (λ l. l.items) components.now) waits.now printed.0 printed.1.items) }
{
    if components.is_empty() && waits.is_empty() {
        let text = safe_text(alloc)?;
        return Ok((End::Good, text));
    }
    let text = circles_text(alloc, assigned.table(), components, waits)?;
    Ok((End::Bad, text))
}

/// The answer to workqueues of the declared groups.
fn circle_workqueues<A: Allocator + Copy>(
    alloc: A,
    declared: &Declaration<'_, A>,
    workqueues: Workqueues<A>,
) -> Result<Answered<A, Found<Circling<A>>>, AllocError>
    requires { length workqueues.assignment.lane_of_group ≡ declared.now.partition.groups }
    ensures { IfOk result (λ a. FindsCircles declared.now workqueues a.found a.end a.text.items) }
{
    let assigned = Assigned::new(declared, &workqueues);
    let components = components(alloc, &assigned)?;
    let waits = bare_waits(alloc, &assigned)?;
    let (end, text) = print_components(alloc, &assigned, &components, &waits)?;
    Ok(Answered {
        found: Found::Read(Circling {
            workqueues,
            components,
            waits,
        }),
        end,
        text,
    })
}

/// The answer to the text of an assignment of the declared groups.
fn circle_text<A: Allocator + Copy>(
    alloc: A,
    declared: &Declaration<'_, A>,
    text: &[u8],
) -> Result<Answered<A, Found<Circling<A>>>, AllocError>
    ensures { IfOk result (λ a. CirclesText declared.now text.now a.found a.end a.text.items) }
{
    match workqueues_of(alloc, declared, text) {
        Ok(workqueues) => circle_workqueues(alloc, declared, workqueues),
        Err(fault) => Answered::unread(alloc, Which::Certificate, fault),
    }
}

/// The answer to the declared groups, each of which has its own workqueue.
fn circle_groups<A: Allocator + Copy>(
    alloc: A,
    declared: &Declaration<'_, A>,
) -> Result<Answered<A, Found<Circling<A>>>, AllocError>
    ensures { IfOk result (λ a.
        FindsCircles declared.now (all_rescued (own_lanes declared.now.partition.groups)) a.found a.end a.text.items) }
{
    let workqueues = own_workqueues(alloc, declared)?;
    circle_workqueues(alloc, declared, workqueues)
}

/// The answer to what is declared and, if there is one, to the text of an assignment.
pub(crate) fn circle<A: Allocator + Copy>(
    alloc: A,
    assigned: bool,
    declared: &Declaration<'_, A>,
    texts: &Texts<A>,
) -> Result<Answered<A, Found<Circling<A>>>, AllocError>
    ensures { IfOk result (λ a. CirclesTexts assigned declared.now texts.now a.found a.end a.text.items) }
{
    if assigned {
        circle_text(alloc, declared, texts.second())
    } else {
        circle_groups(alloc, declared)
    }
}
