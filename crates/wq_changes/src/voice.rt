//! What is said beside the answer of `repair`: the diagnosis of the text that is refused; which NAME is no item's; or
//! what is changed, or why no change helps.
//!
//! A call takes the time and the memory of the diagnosis, or of what is said of the answer.

ghost use Rattle.std.specs.Prelude.{ℕ, IfOk, List, Some, map, option_map};
ghost use Rattle.wq_diagnosis.specs.Refused.{Diagnoses};
ghost use Rattle.wq_commands.specs.declared.end.End.{End};
ghost use Rattle.wq_commands.specs.declared.found.Found.TheVariants.{Read};
ghost use Rattle.wq_repair_command.specs.Repairing.{RepairsText};
ghost use Rattle.wq_changes.specs.Voice.{SaysRead, SaysRepair};

use crate::answer::say_answer;
use std::alloc::{AllocError, Allocator};
use wq_commands::{Found, SaysRefusal, Texts, Voice};
use wq_diagnosis::Source;
use wq_groups::Declaration;
use wq_repair_command::{RepairCommand, Repairing};
use wq_voice::{
    CertificateKind, FileNames, assigned_of, say_refusal, say_refused_text, say_unknown,
};

/// Says what a repair changes, or why no change helps.
#[derive(Clone, Copy, Debug)]
pub struct RepairVoice<'n> {
    /// The names of the files of the texts.
    pub files: FileNames<'n>,
}

/// What is said of what `repair` found in the text of the assignment, if the items with these names may move, or all
/// items, if no name is given.
fn say_read<A: Allocator + Copy>(
    alloc: A,
    files: &FileNames<'_>,
    names: &[&str],
    declared: &Declaration<'_, A>,
    texts: &Texts<A>,
    read: &Option<Repairing<A>>,
) -> Result<Option<Vec<u8, A>>, AllocError>
    requires { (end : End) × (out : List ℕ)
        × RepairsText (map (λ n. n.now) names.now) declared.now texts.now.second (Read read.now) end out }
    ensures { IfOk result (λ said. SaysRead files.now.declaration.now files.now.second.now
        (map (λ n. n.now) names.now) declared.now texts.now.second read.now (option_map (λ text. text.items) said)) }
{
    let declaration = Source {
        file: files.declaration,
        text: texts.first(),
    };
    match read {
        None => say_unknown(alloc, declaration, declared, names),
        Some(repairing) => {
            let assignment = Source {
                file: files.second,
                text: texts.second(),
            };
            let assigned = assigned_of(declared, &repairing.workqueues);
            say_answer(alloc, declaration, assignment, &assigned, &repairing.answer)
        }
    }
}

/// What is said of what `repair` found, or of the text that is refused.
fn say_repair<A: Allocator + Copy>(
    alloc: A,
    files: &FileNames<'_>,
    names: &[&str],
    declared: &Declaration<'_, A>,
    texts: &Texts<A>,
    found: &Found<Option<Repairing<A>>>,
) -> Result<Option<Vec<u8, A>>, AllocError>
    requires { (end : End) × (out : List ℕ)
        × RepairsText (map (λ n. n.now) names.now) declared.now texts.now.second found.now end out }
    ensures { IfOk result (λ said. SaysRepair files.now.declaration.now files.now.second.now files.now.run.now
        (map (λ n. n.now) names.now) declared.now texts.now found.now (option_map (λ text. text.items) said)) }
{
    match found {
        Found::Refused { which, code, line } => {
            let kind = CertificateKind::Assignment;
            say_refused_text(alloc, files, kind, declared, texts, *which, *code, *line)
        }
        Found::Read(read) => say_read(alloc, files, names, declared, texts, read),
    }
}

impl<A: Allocator + Copy> SaysRefusal<A> for RepairVoice<'_> {
    ghost use Rattle.std.specs.Prelude.{Some};
    ghost use Rattle.wq_diagnosis.specs.Refused.{Diagnoses};

    ghost refuses = { λ voice _ r said. Diagnoses voice.files.declaration.now (Some r) said };

    fn refuse(
        &self,
        alloc: A,
        seed: u64,
        texts: &Texts<A>,
        code: u32,
        line: u32,
    ) -> Result<Option<Vec<u8, A>>, AllocError>
        ensures { IfOk result (λ said.
            Diagnoses self.now.files.declaration.now (Some (record { code = code; line = line }))
            (option_map (λ text. text.items) said)) }
    {
        say_refusal(alloc, seed, &self.files, texts, code, line)
    }
}

impl<A: Allocator + Copy> Voice<RepairCommand<'_>, A> for RepairVoice<'_> {
    ghost use Rattle.std.specs.Prelude.{map};
    ghost use Rattle.wq_changes.specs.Voice.{SaysRepair};

    ghost says = { λ voice command s texts found said.
        SaysRepair voice.files.declaration.now voice.files.second.now voice.files.run.now
        (map (λ n. n.now) command.names.now) s texts found said };

    fn say(
        &self,
        alloc: A,
        _seed: u64,
        command: &RepairCommand<'_>,
        declared: &Declaration<'_, A>,
        texts: &Texts<A>,
        found: &Found<Option<Repairing<A>>>,
    ) -> Result<Option<Vec<u8, A>>, AllocError> {
        say_repair(alloc, &self.files, command.names, declared, texts, found)
    }
}
