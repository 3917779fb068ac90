//! What is said beside the answer of `check`: beside a `no`, the diagnosis of what the certificate lacks, and, if it is
//! a plan with a flush that doesn't fall, how its workqueues can hang; beside a `yes` to a plan whose chain follows
//! unsure flushes, how many workqueues are enough without them.
//!
//! If flushes don't fall, the workqueues may be safe all the same: perhaps only their numbers are wrong. A call takes
//! the time and the memory of the diagnosis; behind it, of reading the plan's workqueues, and of the search for a
//! shortest run.

ghost use Rattle.std.specs.Prelude.{◌≡◌, ◌++◌, [], IfOk, MatchResult, Some, option_map, unwrap_or};
ghost use Rattle.wq_cert.specs.Texts.{answer_of};
ghost use Rattle.wq_voice.specs.Voice.{IsCertNote, IsYesNote, NotesYes, SaysAnswer, SaysCheck, SaysLacking};

use crate::chain::chain_note;
use crate::file_names::FileNames;
use crate::reason::of_declared;
use crate::refused::say_refused_text;
use crate::unsure::above;
use std::alloc::{AllocError, Allocator};
use wq_cert::{CertAnswer, CertError, has_unsure, read_answer};
use wq_checker::{No, Yes};
use wq_commands::{CheckCommand, Found, Texts, Voice};
use wq_diagnosis::{CertificateKind, Source, of_lack, of_no_item};
use wq_groups::Declaration;
use wq_text::put;

/// A text, and behind it the other one, if there is one.
fn followed<A: Allocator + Copy>(
    text: Vec<u8, A>,
    more: Option<Vec<u8, A>>,
) -> Result<Vec<u8, A>, AllocError>
    ensures { IfOk result (λ both. both.items ≡ text.items ++ unwrap_or (option_map (λ more. more.items) more) []) }
{
    let mut both = text;
    if let Some(more) = more {
        put(&mut both, &more)?;
    }
    Ok(both)
}

/// What is said of a certificate of this declaration to which the checker answered this no.
fn of_lacking<'a, A: Allocator + Copy>(
    alloc: A,
    declaration: Source<'a>,
    certificate: Source<'a>,
    declared: &Declaration<'a, A>,
    no: &No,
) -> Result<Vec<u8, A>, AllocError>
    ensures { IfOk result (λ said.
        SaysLacking declaration.entry.file.now certificate.entry.file.now certificate.entry.text.now
        declared.now no.now (Some said.items)) }
{
    let diagnosis = of_lack(alloc, declared, certificate, no)?;
    match no {
        No::NotFalling { .. } => {
            let reason = of_declared(alloc, declaration, certificate, declared)?;
            followed(diagnosis, reason)
        }
        No::LengthDiffers | No::ChainBroken { .. } | No::CircleBroken { .. } | No::RunBroken => {
            Ok(diagnosis)
        }
    }
}

/// What is said of what this text of an answer says: of a plan how many workqueues are enough without unsure flushes.
fn answer_note<A: Allocator + Copy>(
    alloc: A,
    declared: &Declaration<'_, A>,
    file: &str,
    text: &[u8],
) -> Result<Vec<u8, A>, AllocError>
    ensures { IfOk result (λ note. MatchResult (answer_of declared.now.table.names declared.now.partition text.now)
        (λ c. IsCertNote file.now declared.now c note.items) (λ _. note.items ≡ [])) }
{
    match read_answer(alloc, text, &declared.table, &declared.groups) {
        Ok(
            CertAnswer::Plan {
                assignment,
                arcs,
                ..
            },
        ) => {
            let lanes = u32::from(assignment.lanes());
            chain_note(alloc, file, declared, lanes, arcs.as_slice())
        }
        Ok(CertAnswer::Circle { .. }) => Ok(Vec::new(alloc)),
        Err(CertError::OutOfMemory) => Err(AllocError),
        Err(_) => Ok(Vec::new(alloc)),
    }
}

/// What is said of a certificate with this text, to which the checker said yes: of a plan how many workqueues are
/// enough without unsure flushes.
fn yes_note<A: Allocator + Copy>(
    alloc: A,
    declared: &Declaration<'_, A>,
    file: &str,
    text: &[u8],
) -> Result<Vec<u8, A>, AllocError>
    ensures { IfOk result (λ note. IsYesNote file.now declared.now text.now note.items) }
{
    if !has_unsure(&declared.table) {
        return Ok(Vec::new(alloc));
    }
    answer_note(alloc, declared, file, text)
}

/// What is said of a certificate with this text, to which the checker said yes.
fn say_yes<A: Allocator + Copy>(
    alloc: A,
    declared: &Declaration<'_, A>,
    file: &str,
    text: &[u8],
) -> Result<Option<Vec<u8, A>>, AllocError>
    ensures { IfOk result (λ said. NotesYes file.now declared.now text.now (option_map (λ text. text.items) said)) }
{
    let said = of_no_item(alloc, declared, file)?;
    let note = yes_note(alloc, declared, file, text)?;
    above(note, said)
}

/// What is said beside the answer to a certificate of this declaration.
fn say_answer<A: Allocator + Copy>(
    alloc: A,
    names: &FileNames<'_>,
    declared: &Declaration<'_, A>,
    texts: &Texts<A>,
    answer: &Result<Yes, No>,
) -> Result<Option<Vec<u8, A>>, AllocError>
    ensures { IfOk result (λ said. SaysAnswer names.now.declaration.now names.now.second.now declared.now
        texts.now.second answer.now (option_map (λ text. text.items) said)) }
{
    match answer {
        Ok(_) => say_yes(alloc, declared, names.declaration, texts.second()),
        Err(no) => {
            let declaration = Source {
                file: names.declaration,
                text: texts.first(),
            };
            let certificate = Source {
                file: names.second,
                text: texts.second(),
            };
            let said = of_lacking(alloc, declaration, certificate, declared, no)?;
            Ok(Some(said))
        }
    }
}

/// What is said of what `check` found.
fn say_check<A: Allocator + Copy>(
    alloc: A,
    names: &FileNames<'_>,
    declared: &Declaration<'_, A>,
    texts: &Texts<A>,
    found: &Found<Result<Yes, No>>,
) -> Result<Option<Vec<u8, A>>, AllocError>
    ensures { IfOk result (λ said. SaysCheck names.now.declaration.now names.now.second.now names.now.run.now
        declared.now texts.now found.now (option_map (λ text. text.items) said)) }
{
    match found {
        Found::Refused { which, code, line } => {
            let kind = CertificateKind::Answer;
            say_refused_text(alloc, names, kind, declared, texts, *which, *code, *line)
        }
        Found::Read(answer) => say_answer(alloc, names, declared, texts, answer),
    }
}

impl<A: Allocator + Copy> Voice<CheckCommand, A> for FileNames<'_> {
    ghost use Rattle.wq_voice.specs.Voice.{SaysCheck};

    ghost says = { λ names _ s texts found said.
        SaysCheck names.declaration.now names.second.now names.run.now s texts found said };

    fn say(
        &self,
        alloc: A,
        _seed: u64,
        _command: &CheckCommand,
        declared: &Declaration<'_, A>,
        texts: &Texts<A>,
        found: &Found<Result<Yes, No>>,
    ) -> Result<Option<Vec<u8, A>>, AllocError> {
        say_check(alloc, self, declared, texts, found)
    }
}
