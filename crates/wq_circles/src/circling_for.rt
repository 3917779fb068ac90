//! The answer to a declaration, an assignment and the names of items that must go on, built in full in memory.
//!
//! The rule is that of "Circles that hold up NAMEs" in docs/FORMAT.md. It takes the time and the memory of reading the
//! assignment, of looking the names up, of the components and of their text.

ghost use Rattle.std.specs.Prelude.{◌≡◌, ◌<◌, IfOk, length, map};
ghost use Rattle.std.specs.List.{All, list_any};
ghost use Rattle.wq_groups.specs.DeclaredGroups.{declared_waits};
ghost use Rattle.wq_deadlock.specs.Judging.{is_on_bare};
ghost use Rattle.wq_commands.specs.Named.{items_with_names, FindsNamed};
ghost use Rattle.wq_circles.specs.Held.{AreHeldCircles};
ghost use Rattle.wq_circles.specs.HeldText.{CirclesTextFor, FindsCirclesFor, PrintsHeld, is_free};

use crate::held::{HeldCircles, held_circles};
use crate::printing::{circles_text, put_ways};
use std::alloc::{AllocError, Allocator};
use wq_commands::{
    Answered, Command, End, Finds, Found, TWO_TEXTS, Which, named_items, refuse_name, safe_text,
    workqueues_of,
};
use wq_core::{Assigned, Workqueues};
use wq_deadlock::is_on_bare;
use wq_groups::Declaration;
use wq_items::ItemId;
use wq_meter::{Limits, Texts};

/// What `circles` finds where items must go on.
#[derive(Drop)]
pub struct CirclingFor<A: Allocator> {
    /// The workqueues of the declared groups.
    pub workqueues: Workqueues<A>,
    /// The items that must go on.
    pub named: Vec<ItemId, A>,
    /// What can hold them up.
    pub held: HeldCircles<A>,
}

/// Whether one of these items is on a workqueue without a rescuer.
fn is_one_on_bare<A: Allocator + Copy>(assigned: &Assigned<'_, '_, A>, named: &[ItemId]) -> bool
    requires named { All (λ i. i < length assigned.now.declared.table.names) named.now }
    ensures { result
        ≡ list_any (is_on_bare assigned.now.workqueues assigned.now.declared.partition.group_of) named.now }
{
    // What holds for each declaration with workqueues.
    let _table = assigned.table();
    for item in named {
        if is_on_bare(assigned, *item) {
            return true;
        }
    }
    false
}

/// Whether nothing can hold up these items: none is on a workqueue without a rescuer, and there are no components and
/// no flushes to one.
fn is_free<A: Allocator + Copy>(
    assigned: &Assigned<'_, '_, A>,
    named: &[ItemId],
    held: &HeldCircles<A>,
) -> bool
    requires named { All (λ i. i < length assigned.now.declared.table.names) named.now }
    ensures { result ≡ is_free assigned.now.declared assigned.now.workqueues named.now
        (map (λ l. l.items) held.now.components.items) held.now.waits.items }
{
    if held.components.is_empty() && held.waits.is_empty() {
        return !is_one_on_bare(assigned, named);
    }
    false
}

/// What is printed of what can hold up these items.
fn print_held<A: Allocator + Copy>(
    alloc: A,
    assigned: &Assigned<'_, '_, A>,
    named: &[ItemId],
    held: &HeldCircles<A>,
) -> Result<(End, Vec<u8, A>), AllocError>
    requires named { All (λ i. i < length assigned.now.declared.table.names) named.now }
    requires held { AreHeldCircles (declared_waits assigned.now.declared) assigned.now.workqueues named.now
        (map (λ l. l.items) held.now.components.items) held.now.waits.items held.now.ways.items }
    ensures { IfOk result (λ printed. PrintsHeld (is_free assigned.now.declared assigned.now.workqueues
        named.now (map (λ l. l.items) held.now.components.items) held.now.waits.items)
        assigned.now.declared (map (λ l. l.items) held.now.components.items) held.now.waits.items held.now.ways.items
        printed.0 printed.1.items) }
{
    if is_free(assigned, named, held) {
        let text = safe_text(alloc)?;
        return Ok((End::Good, text));
    }
    let table = assigned.table();
    let mut text = circles_text(alloc, table, &held.components, &held.waits)?;
    put_ways(&mut text, table, &held.ways)?;
    Ok((End::Bad, text))
}

/// The answer to workqueues of the declared groups where these items must go on.
fn circle_for<A: Allocator + Copy>(
    alloc: A,
    declared: &Declaration<'_, A>,
    workqueues: Workqueues<A>,
    named: Vec<ItemId, A>,
) -> Result<Answered<A, Found<Option<CirclingFor<A>>>>, AllocError>
    requires assigned { length workqueues.assignment.lane_of_group ≡ declared.now.partition.groups }
    requires named { All (λ i. i < length declared.now.table.names) named.items }
    ensures { IfOk result (λ a. FindsCirclesFor declared.now workqueues named.items a.found a.end a.text.items) }
{
    let assigned = Assigned::new(declared, &workqueues);
    let held = held_circles(alloc, &assigned, named.as_slice())?;
    let (end, text) = print_held(alloc, &assigned, named.as_slice(), &held)?;
    Ok(Answered {
        found: Found::Read(Some(CirclingFor {
            workqueues,
            named,
            held,
        })),
        end,
        text,
    })
}

/// The answer to workqueues of the declared groups where the items with these names must go on.
fn circle_named<A: Allocator + Copy>(
    alloc: A,
    declared: &Declaration<'_, A>,
    workqueues: Workqueues<A>,
    names: &[&str],
) -> Result<Answered<A, Found<Option<CirclingFor<A>>>>, AllocError>
    requires assigned { length workqueues.assignment.lane_of_group ≡ declared.now.partition.groups }
    ensures { IfOk result (λ a. FindsNamed (items_with_names declared.now.table.names (map (λ n. n.now) names.now))
        (FindsCirclesFor declared.now workqueues) a.found a.end a.text.items) }
{
    match named_items(alloc, &declared.table, names)? {
        Some(named) => circle_for(alloc, declared, workqueues, named),
        None => {
            let (end, text) = refuse_name(alloc)?;
            drop(workqueues);
            Ok(Answered {
                found: Found::Read(None),
                end,
                text,
            })
        }
    }
}

/// The answer to the text of an assignment of the declared groups where the items with these names must go on.
fn circle_declared_for<A: Allocator + Copy>(
    alloc: A,
    declared: &Declaration<'_, A>,
    names: &[&str],
    text: &[u8],
) -> Result<Answered<A, Found<Option<CirclingFor<A>>>>, AllocError>
    ensures { IfOk result (λ a. CirclesTextFor declared.now (map (λ n. n.now) names.now) text.now a.found a.end
        a.text.items) }
{
    match workqueues_of(alloc, declared, text) {
        Ok(workqueues) => circle_named(alloc, declared, workqueues, names),
        Err(fault) => Answered::unread(alloc, Which::Certificate, fault),
    }
}

/// The command `circles` with names: its texts are a declaration and an assignment.
#[derive(Clone, Copy, Debug)]
pub struct CirclesForCommand<'a> {
    /// The names of the items that must go on.
    pub names: &'a [&'a str],
}

impl<A: Allocator + Copy> Finds<A> for CirclesForCommand<'_> {
    ghost use Rattle.std.specs.Prelude.{map};
    ghost use Rattle.wq_commands.specs.Commands.{two_texts};
    ghost use Rattle.wq_circles.specs.HeldText.{CirclesTextFor};

    /// What can hold the items up; or nothing, if a name is that of no item.
    type Found = Found<Option<CirclingFor<A>>>;

    ghost limits = { λ _. two_texts };

    ghost answers = { λ command s texts found end out.
        CirclesTextFor s (map (λ n. n.now) command.names.now) texts.second found end out };
}

impl<A: Allocator + Copy> Command<A> for CirclesForCommand<'_> {
    fn limits(&self) -> Limits {
        TWO_TEXTS
    }

    fn answer(
        &self,
        alloc: A,
        declared: &Declaration<'_, A>,
        texts: &Texts<A>,
    ) -> Result<Answered<A, Found<Option<CirclingFor<A>>>>, AllocError> {
        circle_declared_for(alloc, declared, self.names, texts.second())
    }
}
