//! What is said of a text that is refused: its diagnosis. The diagnosis of a declaration is the same for all commands.
//!
//! The form is that of "Diagnoses" in docs/FORMAT.md. A call takes the time and the memory of the diagnosis.

ghost use Rattle.std.specs.Prelude.{IfOk, Some, option_map};
ghost use Rattle.wq_diagnosis.specs.Refused.{Diagnoses};
ghost use Rattle.wq_voice.specs.Voice.{SaysRefused};

use crate::file_names::FileNames;
use std::alloc::{AllocError, Allocator};
use wq_commands::{SaysRefusal, Texts, Which};
use wq_diagnosis::{CertificateKind, Source, of_refused_certificate, of_refused_declaration};
use wq_groups::Declaration;

/// Says that the declaration is refused, for the fault of this number on this line.
///
/// The only error is out of memory (20). The names are hashed with `seed`. Nothing that is said depends on it.
pub fn say_refusal<A: Allocator + Copy>(
    alloc: A,
    seed: u64,
    names: &FileNames<'_>,
    texts: &Texts<A>,
    code: u32,
    line: u32,
) -> Result<Option<Vec<u8, A>>, AllocError>
    ensures { IfOk result (λ said. Diagnoses names.now.declaration.now (Some (record { code = code; line = line }))
        (option_map (λ text. text.items) said)) }
{
    let declaration = Source {
        file: names.declaration,
        text: texts.first(),
    };
    let said = of_refused_declaration(alloc, seed, declaration, code, line)?;
    Ok(Some(said))
}

impl<A: Allocator + Copy> SaysRefusal<A> for FileNames<'_> {
    ghost use Rattle.std.specs.Prelude.{Some};
    ghost use Rattle.wq_diagnosis.specs.Refused.{Diagnoses};

    ghost refuses = { λ names _ r said. Diagnoses names.declaration.now (Some r) said };

    fn refuse(
        &self,
        alloc: A,
        seed: u64,
        texts: &Texts<A>,
        code: u32,
        line: u32,
    ) -> Result<Option<Vec<u8, A>>, AllocError> {
        say_refusal(alloc, seed, self, texts, code, line)
    }
}

/// Says that a text behind this declaration is refused, for the fault of this number on this line. The second text is
/// of this kind, and the third is a run.
///
/// The only error is out of memory (20).
pub fn say_refused_text<A: Allocator + Copy>(
    alloc: A,
    names: &FileNames<'_>,
    kind: CertificateKind,
    declared: &Declaration<'_, A>,
    texts: &Texts<A>,
    which: Which,
    code: u32,
    line: u32,
) -> Result<Option<Vec<u8, A>>, AllocError>
    ensures { IfOk result (λ said. SaysRefused names.now.second.now names.now.run.now which code line
        (option_map (λ text. text.items) said)) }
{
    let (kind, refused) = match which {
        Which::Certificate => (
            kind,
            Source {
                file: names.second,
                text: texts.second(),
            },
        ),
        Which::Run => (
            CertificateKind::Run,
            Source {
                file: names.run,
                text: texts.third(),
            },
        ),
    };
    let said = of_refused_certificate(alloc, kind, declared, texts.first(), refused, code, line)?;
    Ok(Some(said))
}
