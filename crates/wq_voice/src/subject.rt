//! What the words are about, and what is said of a walk: a block of lines for each wait, in its order.
//!
//! The words are those of "Where workqueues can hang" in tests/DIAGNOSES.md. A wait takes the time and the memory of
//! its lines.

ghost use Rattle.std.specs.Prelude.{◌≡◌, ◌++◌, ◌∷◌, [], ◌<◌, IfOk, OnOk, length, map};
ghost use Rattle.std.specs.List.{All};
ghost use Rattle.wq_voice.specs.Reasons.{and_lead, lead_for, told, AddsSaid, IsSaidOf};
ghost use Rattle.wq_voice.specs.Waits.{words_of};

use crate::block::{Spot, plain_head, said_at};
use crate::flush_lines::FlushLines;
use crate::lead::Lead;
use crate::waits::{Wording, bare_words, words_of};
use std::alloc::{AllocError, Allocator};
use wq_core::Assigned;
use wq_deadlock::is_on_bare;
use wq_diagnosis::{Source, workqueue_of};
use wq_hang::Hop;
use wq_text::put;

/// Workqueues of the groups of a declaration, and the texts that say so.
#[derive(Clone, Copy)]
pub struct Subject<'a, 's, 't, A: Allocator> {
    /// The text of the declaration.
    pub declaration: Source<'a>,
    /// The text of the workqueues; empty if each group has a workqueue of its own.
    pub assignment: Source<'a>,
    /// Which of the two it is.
    pub wording: Wording,
    /// What is declared, and the workqueues.
    pub assigned: &'s Assigned<'t, 'a, A>,
    /// Where the flushes are declared.
    pub flushes: &'s FlushLines<'a, A>,
    /// The workqueues' names.
    pub names: &'s [&'a [u8]],
}

/// Adds the line of the workqueue of a wait's target, which has no rescuer, and says so.
fn push_bare<A: Allocator + Copy>(
    alloc: A,
    lines: &mut Vec<Vec<u8, A>, A>,
    subject: &Subject<'_, '_, '_, A>,
    hop: &Hop,
) -> Result<(), AllocError>
    requires target { hop.now.flush.item < length subject.now.assigned.now.declared.partition.group_of }
{
    let Subject {
        assignment,
        assigned,
        names,
        ..
    } = *subject;
    let what = bare_words(alloc, assigned, names, hop.flush.item)?;
    let q = workqueue_of(assigned, hop.flush.item);
    let spot = Spot::of_workqueue(assignment.text, q);
    let place = [spot.line, spot.column];
    lines.push(plain_head(alloc, assignment.file, &place, &what)?)?;
    spot.push(alloc, lines)
}

/// The lines below the first one: the line of the flush and, if its target is on a workqueue without a rescuer, the
/// line of this workqueue.
fn below<A: Allocator + Copy>(
    alloc: A,
    subject: &Subject<'_, '_, '_, A>,
    spot: Spot<'_>,
    hop: &Hop,
) -> Result<Vec<Vec<u8, A>, A>, AllocError>
    requires target { hop.now.flush.item < length subject.now.assigned.now.declared.partition.group_of }
{
    let mut lines = Vec::new(alloc);
    spot.push(alloc, &mut lines)?;
    if is_on_bare(subject.assigned, hop.flush.item) {
        push_bare(alloc, &mut lines, subject, hop)?;
    }
    Ok(lines)
}

/// The block of lines that says this of a wait.
fn block_of<A: Allocator + Copy>(
    alloc: A,
    subject: &Subject<'_, '_, '_, A>,
    hop: &Hop,
    what: &[u8],
) -> Result<Vec<u8, A>, AllocError>
    requires target { hop.now.flush.item < length subject.now.assigned.now.declared.partition.group_of }
    ensures { IfOk result (λ said. IsSaidOf subject.now.declaration.file.now what.now said.items) }
{
    let spot = subject.flushes.spot(hop.flush.place);
    let lines = below(alloc, subject, spot, hop)?;
    said_at(
        alloc,
        subject.declaration.file,
        spot.line,
        spot.column,
        what,
        &lines,
    )
}

/// What there is to say of a wait, behind this.
fn what_of<A: Allocator + Copy>(
    alloc: A,
    subject: &Subject<'_, '_, '_, A>,
    lead: &Lead,
    hop: &Hop,
) -> Result<Vec<u8, A>, AllocError>
    requires item { hop.now.item < length subject.now.assigned.now.declared.partition.group_of }
    requires target { hop.now.flush.item < length subject.now.assigned.now.declared.partition.group_of }
    ensures { IfOk result (λ what. what.items ≡ lead_for lead.now hop.now ++ words_of subject.now.wording
        subject.now.assigned.now.declared subject.now.assigned.now.workqueues (map (λ n. n.now) subject.now.names.now)
        hop.now) }
{
    let Subject {
        wording,
        assigned,
        names,
        ..
    } = *subject;
    let words = words_of(alloc, wording, assigned, names, hop)?;
    let mut what = Vec::new(alloc);
    put(&mut what, lead.before(hop))?;
    put(&mut what, &words)?;
    Ok(what)
}

/// Adds the block of lines of a wait, with this before its words.
fn put_wait<A: Allocator + Copy>(
    alloc: A,
    out: &mut Vec<u8, A>,
    subject: &Subject<'_, '_, '_, A>,
    lead: &Lead,
    hop: &Hop,
) -> Result<(), AllocError>
    requires item { hop.now.item < length subject.now.assigned.now.declared.partition.group_of }
    requires target { hop.now.flush.item < length subject.now.assigned.now.declared.partition.group_of }
    ensures { OnOk result (AddsSaid subject.now.declaration.file.now
        ((lead_for lead.now hop.now ++ words_of subject.now.wording
        subject.now.assigned.now.declared subject.now.assigned.now.workqueues (map (λ n. n.now) subject.now.names.now)
        hop.now)
        ∷ []) out.old.items out.new.items) }
{
    let what = what_of(alloc, subject, lead, hop)?;
    let block = block_of(alloc, subject, hop, &what)?;
    put(out, &block)
}

/// Adds the block of lines of a wait that says this.
pub(crate) fn put_first<A: Allocator + Copy>(
    alloc: A,
    out: &mut Vec<u8, A>,
    subject: &Subject<'_, '_, '_, A>,
    hop: &Hop,
    what: &[u8],
) -> Result<(), AllocError>
    requires target { hop.now.flush.item < length subject.now.assigned.now.declared.partition.group_of }
    ensures { OnOk result
        (AddsSaid subject.now.declaration.file.now (what.now ∷ []) out.old.items out.new.items) }
{
    let block = block_of(alloc, subject, hop, what)?;
    put(out, &block)
}

/// Adds the blocks of lines of further waits of a walk.
pub(crate) fn put_further<A: Allocator + Copy>(
    alloc: A,
    out: &mut Vec<u8, A>,
    subject: &Subject<'_, '_, '_, A>,
    hops: &[Hop],
) -> Result<(), AllocError>
    requires items { All (λ h. h.item < length subject.now.assigned.now.declared.partition.group_of) hops.now }
    requires targets { All (λ h. h.flush.item < length subject.now.assigned.now.declared.partition.group_of) hops.now }
    ensures { OnOk result
        (AddsSaid subject.now.declaration.file.now (map (λ h. lead_for and_lead h ++ words_of subject.now.wording
        subject.now.assigned.now.declared
        subject.now.assigned.now.workqueues (map (λ n. n.now) subject.now.names.now) h) hops.now) out.old.items
        out.new.items) }
{
    for hop in hops {
        put_wait(alloc, out, subject, &Lead::and_further(), hop)?;
    }
    Ok(())
}

/// Adds the blocks of lines of a walk, in the order of its waits, with this before the words of the first.
pub(crate) fn put_walk<A: Allocator + Copy>(
    alloc: A,
    out: &mut Vec<u8, A>,
    subject: &Subject<'_, '_, '_, A>,
    lead: &Lead,
    hops: &[Hop],
) -> Result<(), AllocError>
    requires items { All (λ h. h.item < length subject.now.assigned.now.declared.partition.group_of) hops.now }
    requires targets { All (λ h. h.flush.item < length subject.now.assigned.now.declared.partition.group_of) hops.now }
    ensures { OnOk result (AddsSaid subject.now.declaration.file.now (told lead.now (λ h. words_of subject.now.wording
        subject.now.assigned.now.declared
        subject.now.assigned.now.workqueues (map (λ n. n.now) subject.now.names.now) h) hops.now) out.old.items
        out.new.items) }
{
    match hops {
        [] => Ok(()),
        [first, more @ ..] => {
            put_wait(alloc, out, subject, lead, first)?;
            put_further(alloc, out, subject, more)
        }
    }
}
