//! How the workqueues of each component can hang: by a round of waits on them with the fewest unsure flushes, and of
//! such rounds, one with the fewest steps.
//!
//! The rule is that of "Reasons" in docs/FORMAT.md. A component takes the time of a search from each of its items, and
//! that of going through its flushes and all workqueues once.

ghost use Rattle.std.specs.Prelude.{◌≡◌, ◌∷◌, [], ◌<◌, ℕ, IfOk, OnOk, length, map, slice_index_or, false};
ghost use Rattle.std.specs.List.{All};
ghost use Rattle.wq_core.specs.Workqueues.{wiring_of};
ghost use Rattle.wq_circles.specs.ComponentsText.{AreBetween};
ghost use Rattle.wq_groups.specs.DeclaredGroups.{declared_waits};
ghost use Rattle.wq_voice.specs.Components.{begins_on, lanes_of, AddsRounds};
ghost use Rattle.wq_voice.specs.Waits.{words_of};

use crate::lead::Lead;
use crate::subject::{Subject, put_walk};
use std::alloc::{AllocError, Allocator};
use wq_core::Assigned;
use wq_diagnosis::workqueue_of;
use wq_graph::WaitArc;
use wq_hang::Rounds;

/// For each workqueue, whether an item of one of these flushes is on it.
fn marks_of<A: Allocator + Copy>(
    alloc: A,
    assigned: &Assigned<'_, '_, A>,
    arcs: &[WaitArc],
) -> Result<Vec<bool, A>, AllocError>
    requires between { AreBetween (length assigned.now.declared.partition.group_of) arcs.now }
    ensures marked { IfOk result (λ marks. (q : ℕ) → q < assigned.now.workqueues.assignment.lanes →
        slice_index_or marks.items q false ≡ begins_on assigned.now.declared assigned.now.workqueues arcs.now q) }
    ensures len { IfOk result (λ marks. length marks.items ≡ assigned.now.workqueues.assignment.lanes) }
{
    let lanes = assigned.workqueues().assignment().lanes();
    let mut marks = vec![in alloc; false; usize::from(lanes)]?;
    for arc in arcs {
        let lane = workqueue_of(assigned, arc.src);
        marks[usize::from(lane.get())] = true;
    }
    Ok(marks)
}

/// The workqueues of the items of flushes, each once.
fn lanes_of<A: Allocator + Copy>(
    alloc: A,
    assigned: &Assigned<'_, '_, A>,
    arcs: &[WaitArc],
) -> Result<Vec<u32, A>, AllocError>
    requires between { AreBetween (length assigned.now.declared.partition.group_of) arcs.now }
    ensures { IfOk result (λ lanes. lanes.items
        ≡ lanes_of assigned.now.declared assigned.now.workqueues arcs.now) }
{
    let marks = marks_of(alloc, assigned, arcs)?;
    let mut lanes = Vec::new(alloc);
    for number in 0..assigned.workqueues().assignment().lanes() {
        if marks[usize::from(number)] {
            lanes.push(u32::from(number))?;
        }
    }
    Ok(lanes)
}

/// Adds the waits of a least round on the workqueues of a component, if there is one.
pub fn put_round<A: Allocator + Copy>(
    alloc: A,
    out: &mut Vec<u8, A>,
    subject: &Subject<'_, '_, '_, A>,
    rounds: &mut Rounds<'_, '_, A>,
    arcs: &[WaitArc],
) -> Result<(), AllocError>
    requires between { AreBetween (length subject.now.assigned.now.declared.partition.group_of) arcs.now }
    requires rounds { rounds.old
        ≡ wiring_of (declared_waits subject.now.assigned.now.declared) subject.now.assigned.now.workqueues }
    ensures added { OnOk result (AddsRounds subject.now.declaration.file.now (λ h. words_of subject.now.wording
        subject.now.assigned.now.declared subject.now.assigned.now.workqueues (map (λ n. n.now) subject.now.names.now)
        h) subject.now.assigned.now.declared subject.now.assigned.now.workqueues
        (arcs.now ∷ []) out.old.items out.new.items) }
    ensures rounds { rounds.new ≡ rounds.old }
{
    let assigned = subject.assigned;
    // What holds of it.
    let _table = assigned.table();
    let lanes = lanes_of(alloc, assigned, arcs)?;
    match rounds.least_on(alloc, &lanes)? {
        Some(hops) => put_walk(alloc, out, subject, &Lead::can_hang(), &hops),
        None => Ok(()),
    }
}

/// Adds the rounds of each component in turn.
pub(crate) fn put_rounds<A: Allocator + Copy>(
    alloc: A,
    out: &mut Vec<u8, A>,
    subject: &Subject<'_, '_, '_, A>,
    rounds: &mut Rounds<'_, '_, A>,
    components: &[Vec<WaitArc, A>],
) -> Result<(), AllocError>
    requires between { All (AreBetween (length subject.now.assigned.now.declared.partition.group_of))
        (map (λ l. l.items) components.now) }
    requires rounds { rounds.old
        ≡ wiring_of (declared_waits subject.now.assigned.now.declared) subject.now.assigned.now.workqueues }
    ensures { OnOk result (AddsRounds subject.now.declaration.file.now (λ h. words_of subject.now.wording
        subject.now.assigned.now.declared subject.now.assigned.now.workqueues (map (λ n. n.now) subject.now.names.now)
        h) subject.now.assigned.now.declared subject.now.assigned.now.workqueues
        (map (λ l. l.items) components.now) out.old.items out.new.items) }
{
    for arcs in components {
        put_round(alloc, out, subject, rounds, arcs)?;
    }
    Ok(())
}
