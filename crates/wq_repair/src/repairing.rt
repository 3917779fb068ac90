//! Repairs: from workqueues that deadlock to such that don't.
//!
//! The groups that need a rescuer are found, and wait in no circle, or nothing helps. If each of them that may move has
//! a lane for itself and there is still a deadlock, too few may move. Otherwise as many stay on their lanes as
//! `wq_choice` says, if it is right (`checking`), and else as many as a plain loop finds (`plain`). The others go to
//! lanes of their rank.

ghost use Rattle.std.specs.Prelude.{◌≡◌, ◌<◌, ℕ, List, length, map, not, slice_index, IfOk, OnErr};
ghost use Rattle.std.specs.Prelude.{IfSome, IfNone};
ghost use Rattle.std.specs.List.{All};
ghost use Rattle.wq_groups.specs.Declaration.{IsDeclaration};
ghost use Rattle.wq_groups.specs.DeclaredGroups.{declared_waits};
ghost use Rattle.wq_core.specs.Workqueues.{wiring_of};
ghost use Rattle.wq_core.specs.Deadlock.{Deadlocks};
ghost use Rattle.wq_items.specs.Chain.{Circle};
ghost use Rattle.wq_graph.specs.Graph.{group_graph, without};
ghost use Rattle.wq_repair.specs.Marks.{Marks};
ghost use Rattle.wq_repair.specs.Needed.{NeedsRescuer};
ghost use Rattle.wq_repair.specs.Ready.{IsReady, IsMinimal, IsSettledIn, IsTried};
ghost use Rattle.wq_repair.specs.Joined.{NeededWaits};
ghost use Rattle.wq_repair.specs.Repair.{IsAnswer, IsNeededCircle};

use crate::answer::Answer;
use crate::assigned::{graph_of_groups, judge_others, with_workqueues, workqueues_of};
use crate::checking::{RANKS, Settled, is_settled};
use crate::named::named_by;
use crate::needed::needed_groups;
use crate::placing::place;
use crate::plain::settle;
use crate::scope::{Scope, all_but, but_not, scope_of, tried_groups};
use crate::start::start_of;
use crate::wider::better_repair;
use std::alloc::{AllocError, Allocator};
use wq_choice::{Chooser, LargestSets};
use wq_core::{Assigned, Workqueues};
use wq_deadlock::{Judged, are_safe};
use wq_graph::{WaitArc, WaitGraph};
use wq_items::{ItemId, ItemTable};
use wq_levels::{Ranked, rank};

/// All items of a table.
fn all_items<A: Allocator + Copy>(
    alloc: A,
    table: &ItemTable<'_, A>,
) -> Result<Vec<ItemId, A>, AllocError>
    ensures below { IfOk result (λ items. All (λ i. i < length table.now.names) items.items) }
    ensures all { IfOk result (λ items. (i : ℕ) → i < length table.now.names → slice_index items.items i ≡ i) }
    ensures one_each { IfOk result (λ items. length items.items ≡ length table.now.names) }
{
    let mut items = Vec::with_capacity(alloc, usize::from(table.len()))?;
    for item in 0..table.len() {
        items.push(ItemId::new(item))?;
    }
    Ok(items)
}

/// The wait graph of the groups that need a rescuer. All groups are vertices, and the others have no arcs.
fn graph_of_needed<A: Allocator + Copy>(
    alloc: A,
    assigned: &Assigned<'_, '_, A>,
    needed: &[bool],
) -> Result<WaitGraph<A>, AllocError>
    ensures { IfOk result (λ graph.
        graph ≡ without (map not needed.now) (group_graph (declared_waits assigned.now.declared))) }
{
    let out = all_but(alloc, needed)?;
    graph_of_groups(alloc, assigned)?.without(alloc, out.as_slice())
}

/// Which groups stay on their lanes, and a rank for each group: by the chooser if it is right, and else by trying one
/// after the other.
fn settled<A: Allocator + Copy, C: Chooser<A>>(
    alloc: A,
    chooser: &C,
    old: &Workqueues<A>,
    start: &Assigned<'_, '_, A>,
    scope: &Scope<A>,
    tried: &[bool],
) -> Result<Settled<A>, AllocError>
    requires ready { (names : List ℕ)
        × IsReady (declared_waits start.now.declared) old.now names scope.now start.now.workqueues }
    requires tried { Marks (IsTried old.now scope.now) start.now.declared.partition.groups tried.now }
    ensures { IfOk result (IsSettledIn (declared_waits start.now.declared) old.now scope.now tried.now) }
{
    let _few = workqueues_of(start);
    let assignment = old.assignment();
    let graph = graph_of_needed(alloc, start, scope.needed.as_slice())?;
    let fixed = but_not(alloc, scope.needed.as_slice(), scope.movable.as_slice())?;
    let choice = chooser.choose(
        alloc,
        &graph,
        assignment,
        fixed.as_slice(),
        scope.movable.as_slice(),
        tried,
    )?;
    if is_settled(
        alloc,
        &graph,
        assignment,
        fixed.as_slice(),
        tried,
        choice.stays.as_slice(),
        choice.ranks.as_slice(),
    )? {
        Ok(Settled {
            stays: choice.stays,
            ranks: choice.ranks,
        })
    } else {
        settle(alloc, start, old, scope, fixed.as_slice(), tried)
    }
}

/// Of workqueues that can be repaired: the repair, from a start that is safe.
fn repaired_from<A: Allocator + Copy, C: Chooser<A>>(
    alloc: A,
    chooser: &C,
    old: &Workqueues<A>,
    start: &Assigned<'_, '_, A>,
    scope: &Scope<A>,
) -> Result<Workqueues<A>, AllocError>
    requires { (names : List ℕ)
        × IsReady (declared_waits start.now.declared) old.now names scope.now start.now.workqueues }
    ensures { IfOk result (λ new. (names : List ℕ) →
        IsReady (declared_waits start.now.declared) old.now names scope.now start.now.workqueues →
        IsMinimal (declared_waits start.now.declared) old.now names scope.now.needed new) }
{
    let _few = workqueues_of(start);
    let tried = tried_groups(alloc, old, scope)?;
    let all = settled(alloc, chooser, old, start, scope, tried.as_slice())?;
    let leaves = but_not(alloc, scope.movable.as_slice(), all.stays.as_slice())?;
    place(
        alloc,
        old,
        scope.given.as_slice(),
        all.stays.as_slice(),
        leaves.as_slice(),
        all.ranks.as_slice(),
        usize::from(RANKS),
        scope.movable.as_slice(),
    )
}

/// Of workqueues that can be repaired: the repair.
pub(crate) fn repaired<A: Allocator + Copy, C: Chooser<A>>(
    alloc: A,
    chooser: &C,
    assigned: &Assigned<'_, '_, A>,
    start: &Workqueues<A>,
    scope: &Scope<A>,
) -> Result<Workqueues<A>, AllocError>
    requires { (names : List ℕ)
        × IsReady (declared_waits assigned.now.declared) assigned.now.workqueues names scope.now start.now }
    ensures { IfOk result (λ new. (names : List ℕ) →
        IsReady (declared_waits assigned.now.declared) assigned.now.workqueues names scope.now start.now →
        IsMinimal (declared_waits assigned.now.declared) assigned.now.workqueues names scope.now.needed new) }
{
    let old = workqueues_of(assigned);
    let begin = with_workqueues(assigned, start);
    repaired_from(alloc, chooser, old, &begin, scope)
}

/// For each group whether it needs a rescuer, whatever may move.
fn always_needed<A: Allocator + Copy>(
    alloc: A,
    assigned: &Assigned<'_, '_, A>,
) -> Result<Vec<bool, A>, AllocError>
    ensures { IfOk result (λ needed.
        Marks (NeedsRescuer (declared_waits assigned.now.declared) assigned.now.workqueues)
        assigned.now.declared.partition.groups needed.items) }
{
    let all = all_items(alloc, assigned.table())?;
    needed_groups(alloc, assigned, all.as_slice())
}

/// The circle in which groups wait that need a rescuer whatever may move, if there is one.
fn needed_circle<A: Allocator + Copy>(
    alloc: A,
    assigned: &Assigned<'_, '_, A>,
) -> Result<Option<Vec<WaitArc, A>>, AllocError>
    ensures declaration { IsDeclaration (declared_waits assigned.now.declared) }
    ensures some { IfOk result (λ circle. IfSome circle (λ arcs.
        IsNeededCircle (declared_waits assigned.now.declared) assigned.now.workqueues arcs.items)) }
    ensures none { IfOk result (λ circle. IfNone circle
        (¬ Circle (NeededWaits (declared_waits assigned.now.declared) assigned.now.workqueues))) }
{
    let _declared = workqueues_of(assigned);
    let always = always_needed(alloc, assigned)?;
    let graph = graph_of_needed(alloc, assigned, always.as_slice())?;
    match rank(alloc, &graph)? {
        Ranked::Ranks(_) => Ok(None),
        Ranked::Circle(arcs) => Ok(Some(arcs)),
    }
}

/// The answer for workqueues that deadlock, if no groups that need a rescuer wait in a circle.
fn repair_without_circle<A: Allocator + Copy, C: Chooser<A>>(
    alloc: A,
    chooser: &C,
    assigned: &Assigned<'_, '_, A>,
    names: &[ItemId],
) -> Result<Answer<A>, AllocError>
    requires names { All (λ i. i < length assigned.now.declared.table.names) names.now }
    requires deadlocked { Deadlocks (wiring_of (declared_waits assigned.now.declared) assigned.now.workqueues) }
    requires no_circle { ¬ Circle (NeededWaits (declared_waits assigned.now.declared) assigned.now.workqueues) }
    ensures { IfOk result (IsAnswer (declared_waits assigned.now.declared) assigned.now.workqueues names.now) }
{
    let _few = workqueues_of(assigned);
    let needed = needed_groups(alloc, assigned, names)?;
    let named = named_by(alloc, assigned, names)?;
    let scope = scope_of(alloc, assigned, &named, needed)?;
    let begin = start_of(alloc, assigned, &scope)?;
    match judge_others(alloc, assigned, &begin)? {
        Judged::Deadlock(steps) => Ok(Answer::TooFewNames(begin, steps)),
        Judged::Safe => {
            let new = better_repair(alloc, chooser, assigned, names, &begin, &scope)?;
            Ok(Answer::Repaired(new))
        }
    }
}

/// The answer for workqueues that deadlock.
fn repair_deadlocked<A: Allocator + Copy, C: Chooser<A>>(
    alloc: A,
    chooser: &C,
    assigned: &Assigned<'_, '_, A>,
    names: &[ItemId],
) -> Result<Answer<A>, AllocError>
    requires names { All (λ i. i < length assigned.now.declared.table.names) names.now }
    requires deadlocked { Deadlocks (wiring_of (declared_waits assigned.now.declared) assigned.now.workqueues) }
    requires lanes { 0 < assigned.now.workqueues.assignment.lanes }
    ensures answer { IfOk result (IsAnswer (declared_waits assigned.now.declared) assigned.now.workqueues names.now) }
    ensures memory { OnErr result (0 < assigned.now.workqueues.assignment.lanes) }
{
    match needed_circle(alloc, assigned)? {
        Some(arcs) => Ok(Answer::Circle(arcs)),
        None => repair_without_circle(alloc, chooser, assigned, names),
    }
}

/// Repairs the workqueues of declared items as `repair` does, by any chooser of the groups that stay.
///
/// The chooser need not be trusted: what it says is checked, and if it is wrong, groups are tried one after the other.
/// The only error is out of memory (20), which can't occur if there is no workqueue.
pub fn repair_by<A: Allocator + Copy, C: Chooser<A>>(
    alloc: A,
    chooser: &C,
    assigned: &Assigned<'_, '_, A>,
    names: &[ItemId],
) -> Result<Answer<A>, AllocError>
    requires names { All (λ i. i < length assigned.now.declared.table.names) names.now }
    ensures answer { IfOk result (IsAnswer (declared_waits assigned.now.declared) assigned.now.workqueues names.now) }
    ensures memory { OnErr result (0 < assigned.now.workqueues.assignment.lanes) }
{
    if are_safe(alloc, assigned)? {
        Ok(Answer::Safe)
    } else {
        repair_deadlocked(alloc, chooser, assigned, names)
    }
}

/// Repairs the workqueues of declared items, of which only these may move, each with its group.
///
/// `Safe` says that nothing has to be done. `Repaired` has workqueues that are safe: what has only some of their
/// changes deadlocks. A change is a group on another workqueue, or a rescuer for a workqueue that had none and on which
/// a group stays. `TooFewNames` and `Circle` say that whatever is changed deadlocks, if only these may move, and
/// whatever may move. The only error is out of memory (20), which can't occur if there is no workqueue.
pub fn repair<A: Allocator + Copy>(
    alloc: A,
    assigned: &Assigned<'_, '_, A>,
    names: &[ItemId],
) -> Result<Answer<A>, AllocError>
    requires names { All (λ i. i < length assigned.now.declared.table.names) names.now }
    ensures answer { IfOk result (IsAnswer (declared_waits assigned.now.declared) assigned.now.workqueues names.now) }
    ensures memory { OnErr result (0 < assigned.now.workqueues.assignment.lanes) }
{
    repair_by(alloc, &LargestSets, assigned, names)
}
