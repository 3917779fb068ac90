//! Whether a certificate around fixed workqueues shows what it says.
//!
//! For a plan: each flush of an item on a workqueue that has a rescuer goes to one that has one and comes before it in
//! the order, so the plan is safe; and a chain of the start with as many new workqueues as the plan shows that fewer
//! deadlock. For a circle: its arcs go round workqueues of the start. For a flush to no rescuer: it is one, in the
//! start. The rules are those of "Planning around workqueues" in docs/FORMAT.md. A plan takes time in the number of
//! items and flushes and in the length of the order, and for each arc of its chain in the number of flushes that the
//! arc's item declares. A circle takes that for its arcs, and for its run that of `check_run_on`.

ghost use Rattle.std.specs.Prelude.{◌≡◌, ◌<◌, ◌≤◌, ◌↔◌, IsTrue, IfOk, IfSome, IfNone, option_map, length, map};
ghost use Rattle.std.specs.Prelude.{ℕ, List, nat_le, slice_index_or, false};
ghost use Rattle.std.specs.List.{All, count_by, range_with_len};
ghost use Rattle.wq_items.specs.Table.{ItemWaits};
ghost use Rattle.wq_groups.specs.Declaration.{declaration_of};
ghost use Rattle.wq_groups.specs.DeclaredGroups.{declared_waits};
ghost use Rattle.wq_core.specs.Wiring.{HasRescuer, lane_of};
ghost use Rattle.wq_core.specs.Workqueues.{wiring_of};
ghost use Rattle.wq_core.specs.Deadlock.{DeadlocksBy};
ghost use Rattle.wq_fixed.specs.Fixed.{Fixed as FixedView, IsFixed, fixed_lanes, start as start_of};
ghost use Rattle.wq_cert.specs.AroundReading.{around_certificate};
ghost use Rattle.wq_checker.specs.Answers.{ArcsOfItems};
ghost use Rattle.wq_checker.specs.Chains.{before_from};
ghost use Rattle.wq_checker.specs.Searching.{FindsFirst, OfItem};
ghost use Rattle.wq_checker.specs.SearchingAround.{AllItemsFall, FallsTo, FindsNotFalling, Follows};
ghost use Rattle.wq_checker.specs.SearchingAround.{IsFirstItemStaying, ItemsFall};
ghost use Rattle.wq_checker.specs.Around.{AllJoinIn, AnswersAround, AnswersCircleIn, AnswersNoRescuerIn};
ghost use Rattle.wq_checker.specs.Around.{AnswersPlanAround, CircleIsOfAll, HasFewSteps, IsAroundAsked};
ghost use Rattle.wq_checker.specs.Around.{IsCircleAroundAsked, IsFirstBreakIn, IsNoRescuerAsked, IsPlanAroundAsked};
ghost use Rattle.wq_checker.specs.Around.{JoinsIn, LeadsToNoneIn, NoneIsOfAll, ShowsDeadlockIn, YesIsLeastAround};
ghost use Rattle.wq_checker.specs.Around.{new_along, place_in};

use crate::answer::{No, Yes};
use crate::around::{NoAround, YesAround};
use crate::chains::have_target;
use crate::checking::is_deadlock;
use crate::falling::{DeclaredFlush, earlier, lane_of};
use crate::running::check_run_on;
use std::alloc::{AllocError, Allocator};
use wq_cert::AroundAnswer;
use wq_core::{Assigned, Step};
use wq_fixed::Fixed;
use wq_groups::{Assignment, Groups, LaneId};
use wq_items::{ItemId, ItemTable};

/// The place of each of this many workqueues in the order: the first one, or past its end where it isn't there.
fn places_in<A: Allocator + Copy>(
    alloc: A,
    order: &[LaneId],
    lanes: u16,
) -> Result<Vec<usize, A>, AllocError>
    requires { All (λ q. q < lanes) order.now }
    ensures { IfOk result (λ places. places.items ≡ map (place_in order.now) (range_with_len 0 lanes)) }
{
    let mut places = vec![in alloc; order.len(); usize::from(lanes)]?;
    for (place, lane) in order.iter().enumerate() {
        let lane = usize::from(lane.get());
        if places[lane] == order.len() {
            places[lane] = place;
        }
    }
    Ok(places)
}

/// Whether a fixed workqueue has no rescuer; a new one has one.
fn is_bare(bare: &[bool], lane: LaneId) -> bool
    ensures { result ≡ slice_index_or bare.now lane false }
{
    match bare.get(usize::from(lane.get())) {
        Some(is_bare) => *is_bare,
        None => false,
    }
}

/// Whether a flush from one workqueue to another falls.
fn falls(bare: &[bool], places: &[usize], from: LaneId, to: LaneId) -> bool
    requires from { from < length places.now }
    requires to { to < length places.now }
    ensures { IsTrue result ↔ FallsTo bare.now places.now from to }
{
    is_bare(bare, from)
        || !is_bare(bare, to) && places[usize::from(to.get())] < places[usize::from(from.get())]
}

/// The first flush of an item that doesn't fall.
fn first_of_item<A: Allocator + Copy>(
    table: &ItemTable<'_, A>,
    groups: &Groups<A>,
    assignment: &Assignment<A>,
    bare: &[bool],
    places: &[usize],
    item: ItemId,
) -> Option<DeclaredFlush>
    requires grouped { length groups.now.group_of ≡ length table.now.names }
    requires assigned { length assignment.now.lane_of_group ≡ groups.now.groups }
    requires places { length places.now ≡ assignment.now.lanes }
    requires item { item < length table.now.names }
    ensures { FindsFirst (ItemsFall (declaration_of table.now groups.now) assignment.now bare.now places.now)
        (OfItem (declaration_of table.now groups.now) item) result }
{
    // What holds of every table, of all groups and of every assignment.
    let _items = table.len();
    let _groups = groups.len();
    let _lanes = assignment.lanes();
    let from = lane_of(groups, assignment, item);
    for target in table.waits(item) {
        if !falls(bare, places, from, lane_of(groups, assignment, target.item)) {
            return Some(DeclaredFlush {
                item,
                target: *target,
            });
        }
    }
    None
}

/// The item and the target of the first declared flush, by place, that doesn't fall.
fn first_not_falling<A: Allocator + Copy>(
    table: &ItemTable<'_, A>,
    groups: &Groups<A>,
    assignment: &Assignment<A>,
    bare: &[bool],
    places: &[usize],
) -> Option<(ItemId, ItemId)>
    requires grouped { length groups.now.group_of ≡ length table.now.names }
    requires assigned { length assignment.now.lane_of_group ≡ groups.now.groups }
    requires places { length places.now ≡ assignment.now.lanes }
    ensures some { IfSome result (λ f. IsFirstItemStaying (declaration_of table.now groups.now) assignment.now
        bare.now places.now f.0 f.1) }
    ensures none { IfNone result (AllItemsFall (declaration_of table.now groups.now) assignment.now
        bare.now places.now) }
{
    let mut least = None;
    for number in 0..table.len() {
        let item = ItemId::new(number);
        let found = first_of_item(table, groups, assignment, bare, places, item);
        least = earlier(least, found);
    }
    let DeclaredFlush { item, target } = least?;
    Some((item, target.item))
}

/// The workqueue of an item in the start.
fn start_lane<A: Allocator + Copy>(start: &Assigned<'_, '_, A>, item: ItemId) -> LaneId
    requires { item < length start.now.declared.table.waits }
    ensures { result ≡ lane_of (wiring_of (declared_waits start.now.declared) start.now.workqueues) item }
{
    lane_of(start.groups(), start.workqueues().assignment(), item)
}

/// Whether the workqueue of an item has a rescuer in the start.
fn is_rescued<A: Allocator + Copy>(start: &Assigned<'_, '_, A>, item: ItemId) -> bool
    requires { item < length start.now.declared.table.waits }
    ensures { IsTrue result ↔ HasRescuer (wiring_of (declared_waits start.now.declared) start.now.workqueues)
        (lane_of (wiring_of (declared_waits start.now.declared) start.now.workqueues) item) }
{
    !start.workqueues().is_bare(start_lane(start, item))
}

/// Whether an item declares a flush of another one.
fn declares<A: Allocator + Copy>(start: &Assigned<'_, '_, A>, item: ItemId, target: ItemId) -> bool
    requires { item < length start.now.declared.table.waits }
    ensures { IsTrue result ↔ ItemWaits start.now.declared.table.waits item target }
{
    have_target(start.table().waits(item), target)
}

/// Whether an item is on the workqueue of the target of the arc before it, if there is one.
fn follows<A: Allocator + Copy>(
    start: &Assigned<'_, '_, A>,
    before: Option<(ItemId, ItemId)>,
    item: ItemId,
) -> bool
    requires before { IfSome before (λ b. b.1 < length start.now.declared.table.waits) }
    requires item { item < length start.now.declared.table.waits }
    ensures { IsTrue result
        ↔ Follows (wiring_of (declared_waits start.now.declared) start.now.workqueues) before item }
{
    match before {
        Some(before) => start_lane(start, before.1) == start_lane(start, item),
        None => true,
    }
}

/// Whether an arc joins the one before it, if there is one.
fn joins<A: Allocator + Copy>(
    start: &Assigned<'_, '_, A>,
    before: Option<(ItemId, ItemId)>,
    arc: (ItemId, ItemId),
) -> bool
    requires before { IfSome before (λ b. b.1 < length start.now.declared.table.waits) }
    requires item { arc.0 < length start.now.declared.table.waits }
    requires target { arc.1 < length start.now.declared.table.waits }
    ensures { IsTrue result ↔ JoinsIn (wiring_of (declared_waits start.now.declared) start.now.workqueues) before arc }
{
    let (item, target) = arc;
    declares(start, item, target)
        && is_rescued(start, item)
        && is_rescued(start, target)
        && follows(start, before, item)
}

/// The number, counted from 1, of the first arc that doesn't join the one before it. The one before the first arc is
/// `first`.
fn first_break<A: Allocator + Copy>(
    start: &Assigned<'_, '_, A>,
    first: Option<(ItemId, ItemId)>,
    arcs: &[(ItemId, ItemId)],
) -> Option<u32>
    requires first { IfSome first (λ b. b.1 < length start.now.declared.table.waits) }
    requires arcs { ArcsOfItems (declared_waits start.now.declared) arcs.now }
    requires few { length arcs.now ≤ 4096 }
    ensures some { IfSome result (λ at. IsFirstBreakIn
        (wiring_of (declared_waits start.now.declared) start.now.workqueues) (before_from first arcs.now) arcs.now at) }
    ensures none { IfNone result (AllJoinIn
        (wiring_of (declared_waits start.now.declared) start.now.workqueues) (before_from first arcs.now) arcs.now) }
{
    let mut before = first;
    let mut at = 0;
    for arc in arcs {
        at += 1;
        if !joins(start, before, *arc) {
            return Some(at);
        }
        before = Some(*arc);
    }
    None
}

/// Whether an item is on a new workqueue: one from this number on.
fn is_on_new<A: Allocator + Copy>(start: &Assigned<'_, '_, A>, new: u16, item: ItemId) -> bool
    requires { item < length start.now.declared.table.waits }
    ensures { result
        ≡ nat_le new (lane_of (wiring_of (declared_waits start.now.declared) start.now.workqueues) item) }
{
    start_lane(start, item).get() >= new
}

/// How many of the targets of these arcs are on new workqueues: those from this number on.
fn count_new<A: Allocator + Copy>(
    start: &Assigned<'_, '_, A>,
    new: u16,
    arcs: &[(ItemId, ItemId)],
) -> u32
    requires arcs { ArcsOfItems (declared_waits start.now.declared) arcs.now }
    requires few { length arcs.now ≤ 4096 }
    ensures count { result ≡ count_by (λ (arc : ℕ × ℕ).
        nat_le new (lane_of (wiring_of (declared_waits start.now.declared) start.now.workqueues) arc.1)) arcs.now }
    ensures few { result ≤ 4096 }
{
    let mut count = 0;
    for arc in arcs {
        if is_on_new(start, new, arc.1) {
            count += 1;
        }
    }
    count
}

/// How many new workqueues a chain has that is said to have this many: those from this number on are new.
fn new_along<A: Allocator + Copy>(
    start: &Assigned<'_, '_, A>,
    new: u16,
    chain: u32,
    arcs: &[(ItemId, ItemId)],
) -> u32
    requires arcs { ArcsOfItems (declared_waits start.now.declared) arcs.now }
    requires few { length arcs.now ≤ 4096 }
    ensures { (f : FixedView) → start.now.workqueues ≡ start_of f → fixed_lanes f ≡ new
        → result ≡ new_along (declared_waits start.now.declared) f chain arcs.now }
{
    let Some(first) = arcs.first() else {
        return chain;
    };
    let behind = count_new(start, new, arcs);
    if is_on_new(start, new, first.0) {
        behind + 1
    } else {
        behind
    }
}

/// The item and the target of the first declared flush, by place, that doesn't fall by the order of a plan.
fn first_staying<A: Allocator + Copy>(
    alloc: A,
    start: &Assigned<'_, '_, A>,
    fixed: &Fixed<A>,
    assignment: &Assignment<A>,
    order: &[LaneId],
) -> Result<Option<(ItemId, ItemId)>, AllocError>
    requires assigned { length assignment.now.lane_of_group ≡ start.now.declared.partition.groups }
    requires order { All (λ q. q < assignment.now.lanes) order.now }
    ensures { IfOk result (λ stays. (n : ℕ) (arcs : List (ℕ × ℕ))
        → FindsNotFalling (declared_waits start.now.declared) fixed.now
        (record { assignment = assignment.now; order = order.now; length = n; arcs = arcs }) stays) }
{
    let places = places_in(alloc, order, assignment.lanes())?;
    let (table, groups) = (start.table(), start.groups());
    let found = first_not_falling(table, groups, assignment, fixed.bare(), places.as_slice());
    Ok(found)
}

/// The answer to the text of a plan.
fn check_plan<A: Allocator + Copy>(
    alloc: A,
    start: &Assigned<'_, '_, A>,
    fixed: &Fixed<A>,
    assignment: &Assignment<A>,
    order: &[LaneId],
    chain: u32,
    arcs: &[(ItemId, ItemId)],
) -> Result<Result<YesAround, NoAround>, AllocError>
    requires fixed { IsFixed start.now.declared.partition.groups fixed.now }
    requires start { start.now.workqueues ≡ start_of fixed.now }
    requires asked { IsPlanAroundAsked (declared_waits start.now.declared) fixed.now
        (record { assignment = assignment.now; order = order.now; length = chain; arcs = arcs.now }) }
    ensures { IfOk result (λ r. AnswersPlanAround (declared_waits start.now.declared) fixed.now
        (record { assignment = assignment.now; order = order.now; length = chain; arcs = arcs.now }) r) }
{
    let stays = first_staying(alloc, start, fixed, assignment, order)?;
    if let Some(first) = stays {
        return Ok(Err(NoAround::Plain(No::NotFalling {
            item: first.0,
            target: first.1,
        })));
    }
    let first_new = fixed.lanes();
    let new = u32::from(assignment.lanes() - first_new);
    let along = new_along(start, first_new, chain, arcs);
    if along != new {
        return Ok(Err(NoAround::Plain(No::LengthDiffers)));
    }
    let lanes = start.workqueues().assignment().lanes();
    if chain == 1 && lanes == first_new {
        return Ok(Err(NoAround::Plain(No::ChainBroken { at: 0 })));
    }
    match first_break(start, None, arcs) {
        Some(at) => Ok(Err(NoAround::Plain(No::ChainBroken { at }))),
        None => Ok(Ok(YesAround::Plain(Yes::Plan { number: new }))),
    }
}

/// Whether the steps are a run that deadlocks in the start.
fn deadlocks<A: Allocator + Copy>(
    alloc: A,
    start: &Assigned<'_, '_, A>,
    steps: &[Step],
) -> Result<bool, AllocError>
    requires { length steps.now < 4294967295 }
    ensures { IfOk result (λ b. IsTrue b
        ↔ DeadlocksBy (wiring_of (declared_waits start.now.declared) start.now.workqueues) steps.now) }
{
    let (table, groups, workqueues) = (start.table(), start.groups(), start.workqueues());
    let end = check_run_on(alloc, table, groups, workqueues, steps)?;
    Ok(is_deadlock(end))
}

/// Whether the steps, if there are any, are a run that deadlocks in the start.
fn show_deadlock<A: Allocator + Copy>(
    alloc: A,
    start: &Assigned<'_, '_, A>,
    steps: &Option<Vec<Step, A>>,
) -> Result<bool, AllocError>
    requires { HasFewSteps (option_map (λ s. s.items) steps.now) }
    ensures { IfOk result (λ is. IsTrue is ↔ ShowsDeadlockIn
        (wiring_of (declared_waits start.now.declared) start.now.workqueues)
        (option_map (λ s. s.items) steps.now)) }
{
    match steps {
        Some(steps) => deadlocks(alloc, start, steps.as_slice()),
        None => Ok(true),
    }
}

/// The answer to the text of a circle.
fn check_circle<A: Allocator + Copy>(
    alloc: A,
    start: &Assigned<'_, '_, A>,
    arcs: &[(ItemId, ItemId)],
    steps: &Option<Vec<Step, A>>,
) -> Result<Result<YesAround, NoAround>, AllocError>
    requires asked { IsCircleAroundAsked (declared_waits start.now.declared)
        (record { arcs = arcs.now; steps = option_map (λ s. s.items) steps.now }) }
    ensures { IfOk result (λ r.
        AnswersCircleIn (wiring_of (declared_waits start.now.declared) start.now.workqueues)
        (record { arcs = arcs.now; steps = option_map (λ s. s.items) steps.now }) r) }
{
    if let Some(at) = first_break(start, arcs.last().copied(), arcs) {
        return Ok(Err(NoAround::Plain(No::CircleBroken { at })));
    }
    if show_deadlock(alloc, start, steps)? {
        Ok(Ok(YesAround::Plain(Yes::Circle {
            length: arcs.len() as u32,
        })))
    } else {
        Ok(Err(NoAround::Plain(No::RunBroken)))
    }
}

/// Whether an arc is a declared flush from a workqueue that has a rescuer to one that has none.
fn leads_to_none<A: Allocator + Copy>(start: &Assigned<'_, '_, A>, arc: (ItemId, ItemId)) -> bool
    requires item { arc.0 < length start.now.declared.table.waits }
    requires target { arc.1 < length start.now.declared.table.waits }
    ensures { IsTrue result
        ↔ LeadsToNoneIn (wiring_of (declared_waits start.now.declared) start.now.workqueues) arc }
{
    let (item, target) = arc;
    declares(start, item, target) && is_rescued(start, item) && !is_rescued(start, target)
}

/// The answer to a norescuer text.
fn check_norescuer<A: Allocator + Copy>(
    alloc: A,
    start: &Assigned<'_, '_, A>,
    arc: (ItemId, ItemId),
    steps: &Option<Vec<Step, A>>,
) -> Result<Result<YesAround, NoAround>, AllocError>
    requires asked { IsNoRescuerAsked (declared_waits start.now.declared)
        (record { arc = arc; steps = option_map (λ s. s.items) steps.now }) }
    ensures { IfOk result (λ r.
        AnswersNoRescuerIn (wiring_of (declared_waits start.now.declared) start.now.workqueues)
        (record { arc = arc; steps = option_map (λ s. s.items) steps.now }) r) }
{
    if !leads_to_none(start, arc) {
        return Ok(Err(NoAround::HasRescuer));
    }
    if show_deadlock(alloc, start, steps)? {
        Ok(Ok(YesAround::NoRescuer))
    } else {
        Ok(Err(NoAround::Plain(No::RunBroken)))
    }
}

/// The answer to a certificate.
fn check_certificate<A: Allocator + Copy>(
    alloc: A,
    start: &Assigned<'_, '_, A>,
    fixed: &Fixed<A>,
    answer: &AroundAnswer<A>,
) -> Result<Result<YesAround, NoAround>, AllocError>
    requires fixed { IsFixed start.now.declared.partition.groups fixed.now }
    requires start { start.now.workqueues ≡ start_of fixed.now }
    requires asked { IsAroundAsked (declared_waits start.now.declared) fixed.now (around_certificate answer.now) }
    ensures { IfOk result (λ r.
        AnswersAround (declared_waits start.now.declared) fixed.now (around_certificate answer.now) r) }
{
    match answer {
        AroundAnswer::Plan {
            assignment,
            order,
            length,
            arcs,
        } => check_plan(
            alloc,
            start,
            fixed,
            assignment,
            order.as_slice(),
            *length,
            arcs.as_slice(),
        ),
        AroundAnswer::Circle { arcs, steps } => check_circle(alloc, start, arcs.as_slice(), steps),
        AroundAnswer::NoRescuer { arc, steps } => check_norescuer(alloc, start, *arc, steps),
    }
}

/// Checks a certificate around fixed workqueues, where what is declared is on the workqueues of their start: what it
/// shows, or the first reason why it shows nothing.
///
/// The certificate is one of the declaration and these workqueues, as every certificate is that is read. A yes to a
/// plan implies that it is safe, and that any workqueues that keep the fixed ones and are fewer deadlock. A yes to a
/// circle or to a flush to no rescuer implies that all that keep them do. The only error is out of memory (20).
pub fn check_around<A: Allocator + Copy>(
    alloc: A,
    start: &Assigned<'_, '_, A>,
    fixed: &Fixed<A>,
    answer: &AroundAnswer<A>,
) -> Result<Result<YesAround, NoAround>, AllocError>
    requires fixed { IsFixed start.now.declared.partition.groups fixed.now }
    requires start { start.now.workqueues ≡ start_of fixed.now }
    requires asked { IsAroundAsked (declared_waits start.now.declared) fixed.now (around_certificate answer.now) }
    ensures answer { IfOk result (λ r.
        AnswersAround (declared_waits start.now.declared) fixed.now (around_certificate answer.now) r) }
    ensures least { IfOk result (λ r.
        YesIsLeastAround (declared_waits start.now.declared) fixed.now (around_certificate answer.now) r) }
    ensures circle { IfOk result (λ r. CircleIsOfAll (declared_waits start.now.declared) fixed.now r) }
    ensures none { IfOk result (λ r. NoneIsOfAll (declared_waits start.now.declared) fixed.now r) }
{
    // What holds of all that is declared.
    let _table = start.table();
    check_certificate(alloc, start, fixed, answer)
}
