//! What is said beside the answer of `circles`: beside components, how the workqueues of each can hang, and then by
//! which flush to no rescuer; beside `safe`, which items are on workqueues without a rescuer; and beside both whether
//! unsure flushes matter.
//!
//! The rule is that of "Reasons" in docs/FORMAT.md. A call takes the time and the memory of the words, and of a search
//! from each item on a component.

ghost use Rattle.std.specs.Prelude.{◌≡◌, ◌<◌, [], ℕ, IfOk, List, OnOk, Ok, find, length, map, not, option_map};
ghost use Rattle.wq_graph.specs.declared.arc.WaitArc.{WaitArc};
ghost use Rattle.wq_deadlock.specs.Judging.{bare_waits};
ghost use Rattle.wq_cert.specs.Texts.{workqueues_of_text};
ghost use Rattle.wq_names.specs.Names.{names_of};
ghost use Rattle.wq_circles.specs.Circling.{CirclesTexts};
ghost use Rattle.wq_circles.specs.Components.{AreComponents};
ghost use Rattle.wq_circles.specs.ComponentsText.{AreBetween};
ghost use Rattle.wq_groups.specs.DeclaredGroups.{declared_waits};
ghost use Rattle.wq_commands.specs.declared.end.End.{End};
ghost use Rattle.wq_voice.specs.Components.{are_some, first_of, first_told, hop_of, is_of_whole, is_unsure};
ghost use Rattle.wq_voice.specs.Unsure.{TellsComponents, idle_place};
ghost use Rattle.wq_names.specs.Messages.{on_these, to_a_plan};
ghost use Rattle.wq_voice.specs.Reasons.{AddsSaid};
ghost use Rattle.wq_voice.specs.Voice.{SaysCircles, SaysCirclesOf, SaysCircling, SaysOwnCircles};
ghost use Rattle.wq_commands.specs.declared.found.Found.TheVariants.{Read};
ghost use Rattle.wq_voice.specs.Waits.{words_of};
ghost use Rattle.wq_voice.specs.declared.waits.Wording.TheVariants.{OfGroups, OnWorkqueues};

use crate::file_names::FileNames;
use crate::flush_lines::FlushLines;
use crate::lead::Lead;
use crate::refused::say_refused_text;
use crate::rounds::put_rounds;
use crate::safe::{say_safe, say_safe_groups};
use crate::subject::{Subject, put_walk};
use crate::unsure::of_idle;
use crate::waits::Wording;
use crate::was_read::assigned_of;
use std::alloc::{AllocError, Allocator};
use wq_circles::{CirclesCommand, Circling};
use wq_commands::{Found, Texts, Voice};
use wq_core::Assigned;
use wq_diagnosis::{CertificateKind, Source};
use wq_graph::WaitArc;
use wq_groups::Declaration;
use wq_hang::{Hop, Rounds};
use wq_items::{ItemId, ItemTable, Target};
use wq_names::{messages, workqueue_names};
use wq_text::put;

/// Whether the flush at this place, which the item declares, is of a whole workqueue.
fn is_of_whole<A: Allocator + Copy>(table: &ItemTable<'_, A>, item: ItemId, place: u32) -> bool
    requires { item < length table.now.names }
    ensures { result ≡ is_of_whole table.now.waits item place }
{
    table
        .waits(item)
        .iter()
        .any(|flush| flush.place == place && flush.whole)
}

/// Whether the flush at this place, which the item declares, is unsure.
fn is_unsure<A: Allocator + Copy>(table: &ItemTable<'_, A>, item: ItemId, place: u32) -> bool
    requires { item < length table.now.names }
    ensures { result ≡ is_unsure table.now.waits item place }
{
    table
        .waits(item)
        .iter()
        .any(|flush| flush.place == place && flush.unsure)
}

/// The wait in a flush that leads to no rescuer.
fn hop_of<A: Allocator + Copy>(assigned: &Assigned<'_, '_, A>, arc: &WaitArc) -> Hop
    requires { arc.now.src < length assigned.now.declared.partition.group_of }
    ensures { result ≡ hop_of assigned.now.declared arc.now }
{
    Hop {
        item: arc.src,
        flush: Target {
            item: arc.dst,
            place: arc.place,
            whole: is_of_whole(assigned.table(), arc.src, arc.place),
            unsure: is_unsure(assigned.table(), arc.src, arc.place),
        },
        next: arc.dst,
    }
}

/// The first of these flushes that is sure.
fn first_sure<A: Allocator + Copy>(
    assigned: &Assigned<'_, '_, A>,
    waits: &[WaitArc],
) -> Option<WaitArc>
    requires between { AreBetween (length assigned.now.declared.partition.group_of) waits.now }
    ensures { result
        ≡ find (λ (a : WaitArc). not (is_unsure assigned.now.declared.table.waits a.src a.place)) waits.now }
{
    for arc in waits {
        if !is_unsure(assigned.table(), arc.src, arc.place) {
            return Some(*arc);
        }
    }
    None
}

/// The first sure flush among these, or if none is sure, the first one.
fn first_of<A: Allocator + Copy>(
    assigned: &Assigned<'_, '_, A>,
    waits: &[WaitArc],
) -> Option<WaitArc>
    requires between { AreBetween (length assigned.now.declared.partition.group_of) waits.now }
    ensures { result ≡ first_of assigned.now.declared waits.now }
{
    first_sure(assigned, waits).or(waits.first().copied())
}

/// Adds what is said of the first of these flushes to no rescuer, if there are any. A sure flush comes before an unsure
/// one.
fn put_first<A: Allocator + Copy>(
    alloc: A,
    out: &mut Vec<u8, A>,
    subject: &Subject<'_, '_, '_, A>,
    waits: &[WaitArc],
) -> Result<(), AllocError>
    requires between { AreBetween (length subject.now.assigned.now.declared.partition.group_of) waits.now }
    ensures { OnOk result (AddsSaid subject.now.declaration.file.now (first_told (λ h. words_of subject.now.wording
        subject.now.assigned.now.declared subject.now.assigned.now.workqueues (map (λ n. n.now) subject.now.names.now)
        h) subject.now.assigned.now.declared waits.now) out.old.items out.new.items) }
{
    match first_of(subject.assigned, waits) {
        None => Ok(()),
        Some(first) => {
            let hop = hop_of(subject.assigned, &first);
            put_walk(alloc, out, subject, &Lead::can_hang(), &[hop])
        }
    }
}

/// What unsure flushes make no difference to, in words.
fn idle_place(wording: Wording) -> &'static [u8]
    ensures { result.now ≡ idle_place wording }
{
    match wording {
        Wording::OnWorkqueues => messages::ON_THESE,
        Wording::OfGroups => messages::TO_A_PLAN,
    }
}

/// What is said of these components, and of these flushes to no rescuer; and which unsure flushes make no difference.
fn of_components<A: Allocator + Copy>(
    alloc: A,
    subject: &Subject<'_, '_, '_, A>,
    components: &[Vec<WaitArc, A>],
    waits: &[WaitArc],
) -> Result<Vec<u8, A>, AllocError>
    requires are { AreComponents
        (declared_waits subject.now.assigned.now.declared) subject.now.assigned.now.workqueues
        (map (λ l. l.items) components.now) }
    requires waits { waits.now
        ≡ bare_waits (declared_waits subject.now.assigned.now.declared) subject.now.assigned.now.workqueues }
    ensures { IfOk result (λ said. TellsComponents subject.now.declaration.file.now
        (idle_place subject.now.wording) (λ h. words_of subject.now.wording
        subject.now.assigned.now.declared subject.now.assigned.now.workqueues (map (λ n. n.now) subject.now.names.now)
        h) subject.now.assigned.now.declared subject.now.assigned.now.workqueues (map (λ l. l.items) components.now)
        waits.now said.items) }
{
    let assigned = subject.assigned;
    // What holds of it.
    let _table = assigned.table();
    let mut rounds = Rounds::new(alloc, assigned)?;
    let mut said = Vec::new(alloc);
    put_rounds(alloc, &mut said, subject, &mut rounds, components)?;
    put_first(alloc, &mut said, subject, waits)?;
    let place = idle_place(subject.wording);
    let note = of_idle(alloc, subject, place, components, waits)?;
    put(&mut said, &note)?;
    Ok(said)
}

/// How these workqueues can hang, by components. `assignment` is their text.
fn of_read<'a, A: Allocator + Copy>(
    alloc: A,
    declaration: Source<'a>,
    assignment: Source<'a>,
    assigned: &Assigned<'_, 'a, A>,
    circling: &Circling<A>,
) -> Result<Vec<u8, A>, AllocError>
    requires read { workqueues_of_text assigned.now.declared.table.names assigned.now.declared.partition
        assignment.text.now ≡ Ok assigned.now.workqueues }
    requires components { AreComponents (declared_waits assigned.now.declared) assigned.now.workqueues
        (map (λ l. l.items) circling.now.components.items) }
    requires waits { circling.now.waits.items ≡ bare_waits (declared_waits assigned.now.declared)
        assigned.now.workqueues }
    ensures { IfOk result (λ said. TellsComponents declaration.entry.file.now on_these (λ h. words_of OnWorkqueues
        assigned.now.declared assigned.now.workqueues (names_of assignment.entry.text.now) h)
        assigned.now.declared assigned.now.workqueues (map (λ l. l.items) circling.now.components.items)
        circling.now.waits.items said.items) }
{
    let names = workqueue_names(alloc, assignment.text)?;
    let flushes = FlushLines::new(alloc, declaration.text)?;
    let subject = Subject {
        declaration,
        assignment,
        wording: Wording::OnWorkqueues,
        assigned,
        flushes: &flushes,
        names: &names,
    };
    of_components(alloc, &subject, &circling.components, &circling.waits)
}

/// How these groups can hang, by components, if each has a workqueue of its own.
fn of_own<'a, A: Allocator + Copy>(
    alloc: A,
    declaration: Source<'a>,
    assigned: &Assigned<'_, 'a, A>,
    circling: &Circling<A>,
) -> Result<Vec<u8, A>, AllocError>
    requires components { AreComponents (declared_waits assigned.now.declared) assigned.now.workqueues
        (map (λ l. l.items) circling.now.components.items) }
    requires waits { circling.now.waits.items ≡ bare_waits (declared_waits assigned.now.declared)
        assigned.now.workqueues }
    ensures { IfOk result (λ said. TellsComponents declaration.entry.file.now to_a_plan (λ h. words_of OfGroups
        assigned.now.declared assigned.now.workqueues [] h)
        assigned.now.declared assigned.now.workqueues (map (λ l. l.items) circling.now.components.items)
        circling.now.waits.items said.items) }
{
    let flushes = FlushLines::new(alloc, declaration.text)?;
    let subject = Subject {
        declaration,
        assignment: Source {
            file: "",
            text: b"",
        },
        wording: Wording::OfGroups,
        assigned,
        flushes: &flushes,
        names: &[],
    };
    of_components(alloc, &subject, &circling.components, &circling.waits)
}

/// Whether there is a component, or a flush to no rescuer.
fn are_some<A: Allocator>(components: &[Vec<WaitArc, A>], waits: &[WaitArc]) -> bool
    ensures { result ≡ are_some (map (λ l. l.items) components.now) waits.now }
{
    if components.is_empty() {
        return !waits.is_empty();
    }
    true
}

/// What is said of these components and flushes to no rescuer, on the workqueues in the second text.
fn say_read<A: Allocator + Copy>(
    alloc: A,
    names: &FileNames<'_>,
    assigned: &Assigned<'_, '_, A>,
    texts: &Texts<A>,
    circling: &Circling<A>,
) -> Result<Option<Vec<u8, A>>, AllocError>
    requires read { workqueues_of_text assigned.now.declared.table.names assigned.now.declared.partition
        texts.now.second
        ≡ Ok assigned.now.workqueues }
    requires components { AreComponents (declared_waits assigned.now.declared) assigned.now.workqueues
        (map (λ l. l.items) circling.now.components.items) }
    requires waits { circling.now.waits.items ≡ bare_waits (declared_waits assigned.now.declared)
        assigned.now.workqueues }
    ensures { IfOk result (λ said. SaysCircles names.now.declaration.now names.now.second.now texts.now.second
        assigned.now.declared assigned.now.workqueues (map (λ l. l.items) circling.now.components.items)
        circling.now.waits.items (option_map (λ text. text.items) said)) }
{
    let assignment = Source {
        file: names.second,
        text: texts.second(),
    };
    if !are_some(&circling.components, &circling.waits) {
        return say_safe(alloc, names.declaration, assignment, assigned);
    }
    let declaration = Source {
        file: names.declaration,
        text: texts.first(),
    };
    let said = of_read(alloc, declaration, assignment, assigned, circling)?;
    Ok(Some(said))
}

/// What is said of these components, if each group has a workqueue of its own.
fn say_own<A: Allocator + Copy>(
    alloc: A,
    names: &FileNames<'_>,
    assigned: &Assigned<'_, '_, A>,
    texts: &Texts<A>,
    circling: &Circling<A>,
) -> Result<Option<Vec<u8, A>>, AllocError>
    requires components { AreComponents (declared_waits assigned.now.declared) assigned.now.workqueues
        (map (λ l. l.items) circling.now.components.items) }
    requires waits { circling.now.waits.items ≡ bare_waits (declared_waits assigned.now.declared)
        assigned.now.workqueues }
    ensures { IfOk result (λ said. SaysOwnCircles names.now.declaration.now assigned.now.declared
        assigned.now.workqueues (map (λ l. l.items) circling.now.components.items) circling.now.waits.items
        (option_map (λ text. text.items) said)) }
{
    if !are_some(&circling.components, &circling.waits) {
        return say_safe_groups(alloc, assigned.declared, names.declaration);
    }
    let declaration = Source {
        file: names.declaration,
        text: texts.first(),
    };
    let said = of_own(alloc, declaration, assigned, circling)?;
    Ok(Some(said))
}

/// What is said of what `circles` found, with an assignment or without one.
fn say_circling<A: Allocator + Copy>(
    alloc: A,
    names: &FileNames<'_>,
    assigned: bool,
    declared: &Declaration<'_, A>,
    texts: &Texts<A>,
    circling: &Circling<A>,
) -> Result<Option<Vec<u8, A>>, AllocError>
    requires { (end : End) × (out : List ℕ)
        × CirclesTexts assigned declared.now texts.now (Read circling.now) end out }
    ensures { IfOk result (λ said. SaysCircling names.now.declaration.now names.now.second.now assigned
        declared.now texts.now circling.now (option_map (λ text. text.items) said)) }
{
    let workqueues = &circling.workqueues;
    if assigned {
        let read = assigned_of(declared, workqueues);
        say_read(alloc, names, &read, texts, circling)
    } else {
        let own = Assigned::new(declared, workqueues);
        say_own(alloc, names, &own, texts, circling)
    }
}

/// What is said of what `circles` found, or of the text that is refused.
fn say_circles<A: Allocator + Copy>(
    alloc: A,
    names: &FileNames<'_>,
    assigned: bool,
    declared: &Declaration<'_, A>,
    texts: &Texts<A>,
    found: &Found<Circling<A>>,
) -> Result<Option<Vec<u8, A>>, AllocError>
    requires { (end : End) × (out : List ℕ) × CirclesTexts assigned declared.now texts.now found.now end out }
    ensures { IfOk result (λ said. SaysCirclesOf names.now.declaration.now names.now.second.now names.now.run.now
        assigned declared.now texts.now found.now (option_map (λ text. text.items) said)) }
{
    match found {
        Found::Refused { which, code, line } => {
            let kind = CertificateKind::Assignment;
            say_refused_text(alloc, names, kind, declared, texts, *which, *code, *line)
        }
        Found::Read(circling) => say_circling(alloc, names, assigned, declared, texts, circling),
    }
}

impl<A: Allocator + Copy> Voice<CirclesCommand, A> for FileNames<'_> {
    ghost use Rattle.wq_voice.specs.Voice.{SaysCirclesOf};

    ghost says = { λ names command s texts found said.
        SaysCirclesOf names.declaration.now names.second.now names.run.now command.assigned s texts found said };

    fn say(
        &self,
        alloc: A,
        _seed: u64,
        command: &CirclesCommand,
        declared: &Declaration<'_, A>,
        texts: &Texts<A>,
        found: &Found<Circling<A>>,
    ) -> Result<Option<Vec<u8, A>>, AllocError> {
        say_circles(alloc, self, command.assigned, declared, texts, found)
    }
}
