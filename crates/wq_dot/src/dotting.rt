//! The answer to a declaration and an assignment, or to a declaration alone, built in full in memory.
//!
//! The rule is that of "The command `dot`" in docs/FORMAT.md. It takes the time and the memory of reading the
//! assignment, of the plan, of the components, of the search for a shortest run and of the drawing.

ghost use Rattle.std.specs.Prelude.{◌≡◌, [], IfOk, None, codes, map};
ghost use Rattle.wq_core.specs.Wiring.{own_lanes};
ghost use Rattle.wq_core.specs.Workqueues.{all_rescued};
ghost use Rattle.wq_deadlock.specs.Judging.{bare_waits};
ghost use Rattle.wq_plan.specs.Solve.{IsPlanned, Solves};
ghost use Rattle.wq_cert.specs.Texts.{max_certificate, max_certificate_line};
ghost use Rattle.wq_names.specs.Names.{names_of};
ghost use Rattle.wq_text.specs.Limits.{limit_fault};
ghost use Rattle.wq_groups.specs.DeclaredGroups.{declared_waits};
ghost use Rattle.wq_commands.specs.declared.end.End.TheVariants.{Good};
ghost use Rattle.wq_commands.specs.declared.found.Found.TheVariants.{Read};
ghost use Rattle.wq_circles.specs.Components.{AreComponents};
ghost use Rattle.wq_dot.specs.Dotting.{AreShortest, DrawsAssigned, DrawsCircles, DrawsGroups, DrawsOwn, DrawsPlan};
ghost use Rattle.wq_dot.specs.Dotting.{DrawsCommented, DrawsText, DrawsTexts, FindsDrawing};

use crate::comments::comments;
use crate::drawing::drawing_text;
use crate::flushes::{bold_flushes, bold_red, hanging_flushes, marked};
use crate::shortest::shortest_waits;
use crate::titles::{circles_title, plan_title};
use std::alloc::{AllocError, Allocator};
use wq_circles::components;
use wq_commands::{Answered, End, Found, Texts, Which, own_workqueues, workqueues_of};
use wq_core::{Assigned, Workqueues};
use wq_deadlock::bare_waits;
use wq_graph::WaitArc;
use wq_groups::{Assignment, Declaration};
use wq_hang::Hop;
use wq_names::workqueue_names;
use wq_plan::{Answer, solve};
use wq_voice::unsure_count;

/// What `dot` finds besides its drawing.
#[derive(Drop)]
pub struct Drawn<A: Allocator> {
    /// The waits whose flushes are bold red: those of a shortest run that ends stuck. There are none if no run ends
    /// stuck, or if a plan is drawn.
    pub waits: Vec<Hop, A>,
}

/// A drawing, and what was found for it.
#[derive(Drop)]
struct Drawing<A: Allocator> {
    drawn: Drawn<A>,
    text: Vec<u8, A>,
}

impl<A: Allocator> Drawing<A> {
    /// The answer with this drawing.
    fn answered(self) -> Answered<A, Found<Drawn<A>>>
        ensures found { result.found ≡ Read self.drawn }
        ensures end { result.end ≡ Good }
        ensures text { result.text ≡ self.text }
    {
        Answered {
            found: Found::Read(self.drawn),
            end: End::Good,
            text: self.text,
        }
    }
}

/// The drawing of a plan, with the chain that `solve` returned with it.
fn draw_plan<A: Allocator + Copy>(
    alloc: A,
    assigned: &Assigned<'_, '_, A>,
    comments: &[&[u8]],
    chain: &[WaitArc],
) -> Result<Vec<u8, A>, AllocError>
    requires planned { IsPlanned (declared_waits assigned.now.declared) assigned.now.workqueues.assignment chain.now }
    requires rescued { assigned.now.workqueues.bare ≡ [] }
    ensures { IfOk result (λ text. DrawsPlan assigned.now.declared (map (λ c. c.now) comments.now) text.items) }
{
    let looks = bold_flushes(alloc, assigned.table(), chain)?;
    let workqueues = assigned.workqueues().assignment().lanes();
    let unsure = unsure_count(assigned.table());
    let title = plan_title(alloc, workqueues, marked(looks.as_slice()), unsure)?;
    drawing_text(
        alloc,
        assigned,
        &[],
        title.as_slice(),
        looks.as_slice(),
        comments,
    )
}

/// The drawing of workqueues with these names and these components; the flushes `waits` lead to workqueues without a
/// rescuer. `hanging` says what hangs if there are any, and `hops` are the waits of a shortest run that ends stuck.
fn draw_components<A: Allocator + Copy>(
    alloc: A,
    assigned: &Assigned<'_, '_, A>,
    comments: &[&[u8]],
    called: &[&[u8]],
    hanging: &[u8],
    components: &[Vec<WaitArc, A>],
    waits: &[WaitArc],
    hops: &[Hop],
) -> Result<Vec<u8, A>, AllocError>
    requires found { AreComponents (declared_waits assigned.now.declared) assigned.now.workqueues
        (map (λ l. l.items) components.now) }
    requires waits { waits.now ≡ bare_waits (declared_waits assigned.now.declared) assigned.now.workqueues }
    requires shortest { AreShortest (declared_waits assigned.now.declared) assigned.now.workqueues hops.now }
    ensures { IfOk result (λ text. DrawsCircles assigned.now.declared (map (λ c. c.now) comments.now)
        assigned.now.workqueues (map (λ n. n.now) called.now) hanging.now hops.now text.items) }
{
    let bare = assigned.workqueues().bare();
    let looks = hanging_flushes(alloc, assigned.table(), components, waits, hops)?;
    let red = marked(looks.as_slice());
    let bold = bold_red(looks.as_slice());
    let unsure = unsure_count(assigned.table());
    let title = circles_title(alloc, hanging, waits.len() as u32, bare, red, bold, unsure)?;
    drawing_text(
        alloc,
        assigned,
        called,
        title.as_slice(),
        looks.as_slice(),
        comments,
    )
}

/// The drawing of workqueues with these names. It marks the flushes that lie on a circle or lead to a workqueue without
/// a rescuer, and the waits of a shortest run that ends stuck. `hanging` says what hangs if there are any.
fn draw_circles<A: Allocator + Copy>(
    alloc: A,
    assigned: &Assigned<'_, '_, A>,
    comments: &[&[u8]],
    called: &[&[u8]],
    hanging: &[u8],
) -> Result<Drawing<A>, AllocError>
    ensures { IfOk result (λ d. DrawsCircles assigned.now.declared (map (λ c. c.now) comments.now)
        assigned.now.workqueues (map (λ n. n.now) called.now) hanging.now d.drawn.waits.items d.text.items) }
{
    let components = components(alloc, assigned)?;
    let waits = bare_waits(alloc, assigned)?;
    let hops = shortest_waits(alloc, assigned)?;
    let text = draw_components(
        alloc,
        assigned,
        comments,
        called,
        hanging,
        &components,
        &waits,
        &hops,
    )?;
    Ok(Drawing {
        drawn: Drawn { waits: hops },
        text,
    })
}

/// The drawing of a plan with this assignment and this chain.
fn draw_planned<A: Allocator + Copy>(
    alloc: A,
    declared: &Declaration<'_, A>,
    comments: &[&[u8]],
    assignment: Assignment<A>,
    chain: &[WaitArc],
) -> Result<Vec<u8, A>, AllocError>
    requires { IsPlanned (declared_waits declared.now) assignment chain.now }
    ensures { IfOk result (λ text. DrawsPlan declared.now (map (λ c. c.now) comments.now) text.items) }
{
    let workqueues = Workqueues::new(assignment, Vec::new(alloc));
    let assigned = Assigned::new(declared, &workqueues);
    draw_plan(alloc, &assigned, comments, chain)
}

/// The drawing of groups, each of which has a workqueue of its own.
fn draw_own_lanes<A: Allocator + Copy>(
    alloc: A,
    declared: &Declaration<'_, A>,
    comments: &[&[u8]],
) -> Result<Drawing<A>, AllocError>
    ensures { IfOk result (λ d. DrawsCircles declared.now (map (λ c. c.now) comments.now)
        (all_rescued (own_lanes declared.now.partition.groups)) []
        (codes "every assignment can hang") d.drawn.waits.items d.text.items) }
{
    let workqueues = own_workqueues(alloc, declared)?;
    let assigned = Assigned::new(declared, &workqueues);
    draw_circles(
        alloc,
        &assigned,
        comments,
        &[],
        b"every assignment can hang",
    )
}

/// The drawing of groups with this answer.
fn draw_answer<A: Allocator + Copy>(
    alloc: A,
    declared: &Declaration<'_, A>,
    comments: &[&[u8]],
    answer: Answer<A>,
) -> Result<Drawing<A>, AllocError>
    requires { Solves (declared_waits declared.now) answer }
    ensures { IfOk result (λ d.
        DrawsGroups declared.now (map (λ c. c.now) comments.now) d.drawn.waits.items d.text.items) }
{
    match answer {
        Answer::Plan { assignment, chain } => {
            let text = draw_planned(alloc, declared, comments, assignment, &chain)?;
            let waits = Vec::new(alloc);
            Ok(Drawing {
                drawn: Drawn { waits },
                text,
            })
        }
        Answer::Circle { .. } => draw_own_lanes(alloc, declared, comments),
    }
}

/// The drawing of groups: of their plan, or of the circles in which they wait.
fn draw_groups<A: Allocator + Copy>(
    alloc: A,
    declared: &Declaration<'_, A>,
    comments: &[&[u8]],
) -> Result<Drawing<A>, AllocError>
    ensures { IfOk result (λ d.
        DrawsGroups declared.now (map (λ c. c.now) comments.now) d.drawn.waits.items d.text.items) }
{
    let answer = solve(alloc, &declared.table, &declared.groups)?;
    draw_answer(alloc, declared, comments, answer)
}

/// The answer to workqueues of the declared groups, with these names.
fn draw_assigned<A: Allocator + Copy>(
    alloc: A,
    assigned: &Assigned<'_, '_, A>,
    comments: &[&[u8]],
    called: &[&[u8]],
) -> Result<Answered<A, Found<Drawn<A>>>, AllocError>
    ensures { IfOk result (λ a. FindsDrawing
        (λ hops. DrawsAssigned assigned.now.declared (map (λ c. c.now) comments.now) assigned.now.workqueues
        (map (λ n. n.now) called.now) hops) a.found a.end a.text.items) }
{
    let drawing = draw_circles(alloc, assigned, comments, called, b"can hang")?;
    Ok(drawing.answered())
}

/// The answer to workqueues of the declared groups that have their names in this text.
fn draw_named<A: Allocator + Copy>(
    alloc: A,
    assigned: &Assigned<'_, '_, A>,
    comments: &[&[u8]],
    text: &[u8],
) -> Result<Answered<A, Found<Drawn<A>>>, AllocError>
    requires { limit_fault max_certificate max_certificate_line text.now ≡ None }
    ensures { IfOk result (λ a. FindsDrawing
        (λ hops. DrawsAssigned assigned.now.declared (map (λ c. c.now) comments.now) assigned.now.workqueues
        (names_of text.now) hops) a.found a.end a.text.items) }
{
    let called = workqueue_names(alloc, text)?;
    draw_assigned(alloc, assigned, comments, &called)
}

/// The answer to the text of an assignment of the declared groups.
fn draw_text<A: Allocator + Copy>(
    alloc: A,
    declared: &Declaration<'_, A>,
    comments: &[&[u8]],
    text: &[u8],
) -> Result<Answered<A, Found<Drawn<A>>>, AllocError>
    ensures { IfOk result (λ a.
        DrawsText declared.now (map (λ c. c.now) comments.now) text.now a.found a.end a.text.items) }
{
    match workqueues_of(alloc, declared, text) {
        Ok(workqueues) => {
            let assigned = Assigned::new(declared, &workqueues);
            draw_named(alloc, &assigned, comments, text)
        }
        Err(fault) => Answered::unread(alloc, Which::Certificate, fault),
    }
}

/// The answer to the declared groups, without an assignment.
fn draw_unassigned<A: Allocator + Copy>(
    alloc: A,
    declared: &Declaration<'_, A>,
    comments: &[&[u8]],
) -> Result<Answered<A, Found<Drawn<A>>>, AllocError>
    ensures { IfOk result (λ a. FindsDrawing
        (DrawsOwn declared.now (map (λ c. c.now) comments.now)) a.found a.end a.text.items) }
{
    let drawing = draw_groups(alloc, declared, comments)?;
    Ok(drawing.answered())
}

/// The answer to what is declared, with these comments, and to the text of an assignment, if there is one.
fn draw_commented<A: Allocator + Copy>(
    alloc: A,
    assigned: bool,
    declared: &Declaration<'_, A>,
    comments: &[&[u8]],
    texts: &Texts<A>,
) -> Result<Answered<A, Found<Drawn<A>>>, AllocError>
    ensures { IfOk result (λ a.
        DrawsCommented assigned declared.now (map (λ c. c.now) comments.now) texts.now a.found a.end a.text.items) }
{
    if assigned {
        draw_text(alloc, declared, comments, texts.second())
    } else {
        draw_unassigned(alloc, declared, comments)
    }
}

/// The answer to what the first of these texts declares, and to the text of an assignment, if there is one.
pub(crate) fn draw<A: Allocator + Copy>(
    alloc: A,
    assigned: bool,
    declared: &Declaration<'_, A>,
    texts: &Texts<A>,
) -> Result<Answered<A, Found<Drawn<A>>>, AllocError>
    ensures { IfOk result (λ a. DrawsTexts assigned declared.now texts.now a.found a.end a.text.items) }
{
    let comments = comments(alloc, texts.first())?;
    draw_commented(alloc, assigned, declared, &comments, texts)
}
