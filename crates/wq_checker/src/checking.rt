//! Whether a certificate shows what it says.
//!
//! For a plan: each declared flush goes to a workqueue with a lower number, so the plan is safe; and a chain of as many
//! groups as there are workqueues shows that fewer workqueues wait in a circle, and so deadlock. For a circle: its arcs
//! go round groups, and its run, if there is one, ends in a deadlock. The rules are those of "The command `check`" in
//! docs/FORMAT.md.
//!
//! A plan takes no memory, and time linear in the number of items and flushes and, for each arc of its chain, in the
//! number of flushes that the item of the arc declares. A circle takes this time for its arcs, and that of `check_run`
//! for its run.

ghost use Rattle.std.specs.Prelude.{◌≡◌, ◌<◌, ◌≤◌, ◌↔◌, IsTrue, IsSome, IfOk, OnErr, IfSome, option_map, length};
ghost use Rattle.wq_groups.specs.Declaration.{declaration_of};
ghost use Rattle.wq_core.specs.Wiring.{wiring, own_lanes};
ghost use Rattle.wq_core.specs.Deadlock.{DeadlocksBy};
ghost use Rattle.wq_cert.specs.Certificate.{OfCircle, certificate};
ghost use Rattle.wq_checker.specs.declared.run.RunEnd.TheVariants.{Deadlock};
ghost use Rattle.wq_checker.specs.Answers.{IsAsked, IsPlanAsked, IsCircleAsked, AnswersPlan, AnswersCircle};
ghost use Rattle.wq_checker.specs.Answers.{AnswersCertificate, ShowsDeadlock, NeedsRun};
ghost use Rattle.wq_checker.specs.Implications.{YesIsSafe, FewerWaitInCircle, YesIsLeast, EachWaitsInCircle};
ghost use Rattle.wq_checker.specs.Implications.{EachDeadlocks};

use crate::answer::{No, Yes};
use crate::chains::first_break;
use crate::falling::first_not_falling;
use crate::run::RunEnd;
use crate::running::check_run;
use std::alloc::{AllocError, Allocator};
use wq_cert::CertAnswer;
use wq_core::Step;
use wq_groups::{Assignment, Groups, LaneId};
use wq_items::{ItemId, ItemTable};

/// The answer to the text of a plan.
fn check_plan<A: Allocator + Copy>(
    table: &ItemTable<'_, A>,
    groups: &Groups<A>,
    assignment: &Assignment<A>,
    chain: u32,
    arcs: &[(ItemId, ItemId)],
) -> Result<Yes, No>
    requires grouped { length groups.now.group_of ≡ length table.now.names }
    requires asked { IsPlanAsked (declaration_of table.now groups.now)
        (record { assignment = assignment.now; length = chain; arcs = arcs.now }) }
    ensures { AnswersPlan (declaration_of table.now groups.now)
        (record { assignment = assignment.now; length = chain; arcs = arcs.now }) result }
{
    if let Some((item, target)) = first_not_falling(table, groups, assignment) {
        return Err(No::NotFalling { item, target });
    }
    if chain != u32::from(assignment.lanes()) {
        return Err(No::LengthDiffers);
    }
    if chain == 1 && groups.len() == 0 {
        return Err(No::ChainBroken { at: 0 });
    }
    match first_break(table, groups, None, arcs) {
        Some(at) => Err(No::ChainBroken { at }),
        None => Ok(Yes::Plan { number: chain }),
    }
}

/// The assignment in which each of this many groups has the workqueue with its own number.
fn own_lanes<A: Allocator + Copy>(alloc: A, groups: u16) -> Result<Assignment<A>, AllocError>
    requires { groups ≤ 4096 }
    ensures { IfOk result (λ a. a ≡ own_lanes groups) }
{
    let mut lanes = Vec::with_capacity(alloc, usize::from(groups))?;
    for group in 0..groups {
        lanes.push(LaneId::new(group))?;
    }
    Ok(Assignment::new(groups, lanes).unwrap())
}

/// Whether a run ends in a deadlock.
pub(crate) fn is_deadlock(end: RunEnd) -> bool
    ensures { IsTrue result ↔ (end ≡ Deadlock) }
{
    match end {
        RunEnd::Deadlock => true,
        RunEnd::NotLawful(_) | RunEnd::Stuck | RunEnd::Free => false,
    }
}

/// Whether the steps are a run that deadlocks if each group has a workqueue of its own.
fn deadlocks<A: Allocator + Copy>(
    alloc: A,
    table: &ItemTable<'_, A>,
    groups: &Groups<A>,
    steps: &[Step],
) -> Result<bool, AllocError>
    requires grouped { length groups.now.group_of ≡ length table.now.names }
    requires few { length steps.now < 4294967295 }
    ensures { IfOk result (λ b. IsTrue b
        ↔ DeadlocksBy (wiring (declaration_of table.now groups.now) (own_lanes groups.now.groups)) steps.now) }
{
    let assignment = own_lanes(alloc, groups.len())?;
    let end = check_run(alloc, table, groups, &assignment, steps)?;
    Ok(is_deadlock(end))
}

/// Whether the steps, if there are any, are a run that deadlocks if each group has a workqueue of its own.
fn show_deadlock<A: Allocator + Copy>(
    alloc: A,
    table: &ItemTable<'_, A>,
    groups: &Groups<A>,
    steps: &Option<Vec<Step, A>>,
) -> Result<bool, AllocError>
    requires grouped { length groups.now.group_of ≡ length table.now.names }
    requires few { IfSome steps.now (λ s. length s.items < 4294967295) }
    ensures shows { IfOk result (λ b. IsTrue b
        ↔ ShowsDeadlock (declaration_of table.now groups.now) (option_map (λ s. s.items) steps.now)) }
    ensures memory { OnErr result (IsSome steps.now) }
{
    match steps {
        Some(steps) => deadlocks(alloc, table, groups, steps.as_slice()),
        None => Ok(true),
    }
}

/// The answer to the text of a circle.
fn check_circle<A: Allocator + Copy>(
    alloc: A,
    table: &ItemTable<'_, A>,
    groups: &Groups<A>,
    arcs: &[(ItemId, ItemId)],
    steps: &Option<Vec<Step, A>>,
) -> Result<Result<Yes, No>, AllocError>
    requires grouped { length groups.now.group_of ≡ length table.now.names }
    requires asked { IsCircleAsked (declaration_of table.now groups.now)
        (record { arcs = arcs.now; steps = option_map (λ s. s.items) steps.now }) }
    ensures answer { IfOk result (λ answer.
        AnswersCircle (declaration_of table.now groups.now)
        (record { arcs = arcs.now; steps = option_map (λ s. s.items) steps.now }) answer) }
    ensures memory { OnErr result
        (NeedsRun (declaration_of table.now groups.now)
        (OfCircle (record { arcs = arcs.now; steps = option_map (λ s. s.items) steps.now }))) }
{
    if let Some(at) = first_break(table, groups, arcs.last().copied(), arcs) {
        return Ok(Err(No::CircleBroken { at }));
    }
    if show_deadlock(alloc, table, groups, steps)? {
        Ok(Ok(Yes::Circle {
            length: arcs.len() as u32,
        }))
    } else {
        Ok(Err(No::RunBroken))
    }
}

/// The answer to a certificate.
fn check_certificate<A: Allocator + Copy>(
    alloc: A,
    table: &ItemTable<'_, A>,
    groups: &Groups<A>,
    answer: &CertAnswer<A>,
) -> Result<Result<Yes, No>, AllocError>
    requires grouped { length groups.now.group_of ≡ length table.now.names }
    requires asked { IsAsked (declaration_of table.now groups.now) (certificate answer.now) }
    ensures answer { IfOk result (λ r.
        AnswersCertificate (declaration_of table.now groups.now) (certificate answer.now) r) }
    ensures memory { OnErr result (NeedsRun (declaration_of table.now groups.now) (certificate answer.now)) }
{
    match answer {
        CertAnswer::Plan {
            assignment,
            length,
            arcs,
        } => Ok(check_plan(table, groups, assignment, *length, arcs.as_slice())),
        CertAnswer::Circle { arcs, steps } => {
            check_circle(alloc, table, groups, arcs.as_slice(), steps)
        }
    }
}

/// Checks a certificate: what it shows, or the first reason why it shows nothing.
///
/// The certificate must be one of the declaration, as all are that are read: its assignment has a lane for each group;
/// its arcs are between items, one fewer than the length of the chain (none for 0), or 1 to 4,096 in a circle; and it
/// has fewer than 2^32 - 1 steps.
///
/// A yes to a plan implies that the plan is safe, and that in every assignment to fewer workqueues these wait in a
/// circle, and some run deadlocks. A yes to a circle implies that both hold for every assignment. The only error is out
/// of memory (20), which can occur only if the arcs of a circle go round and steps follow them.
pub fn check_answer<A: Allocator + Copy>(
    alloc: A,
    table: &ItemTable<'_, A>,
    groups: &Groups<A>,
    answer: &CertAnswer<A>,
) -> Result<Result<Yes, No>, AllocError>
    requires grouped { length groups.now.group_of ≡ length table.now.names }
    requires asked { IsAsked (declaration_of table.now groups.now) (certificate answer.now) }
    ensures answer { IfOk result (λ r.
        AnswersCertificate (declaration_of table.now groups.now) (certificate answer.now) r) }
    // What a yes to a plan implies.
    ensures safe { IfOk result (λ r. YesIsSafe (declaration_of table.now groups.now) (certificate answer.now) r) }
    ensures fewer { IfOk result (λ r. FewerWaitInCircle (declaration_of table.now groups.now) r) }
    ensures least { IfOk result (λ r. YesIsLeast (declaration_of table.now groups.now) (certificate answer.now) r) }
    // What a yes to a circle implies.
    ensures circle { IfOk result (λ r. EachWaitsInCircle (declaration_of table.now groups.now) r) }
    ensures deadlocks { IfOk result (λ r. EachDeadlocks (declaration_of table.now groups.now) r) }
    // Only a run needs memory.
    ensures memory { OnErr result (NeedsRun (declaration_of table.now groups.now) (certificate answer.now)) }
{
    let _items = table.len();
    let _groups = groups.len();
    check_certificate(alloc, table, groups, answer)
}
