//! The command `check`: from the bytes of a declaration and a certificate to the bytes of the checker's answer.
//!
//! The declaration is read first and the certificate next, both before either is judged. The answer is built in full
//! before the first byte is written. A call takes the time of reading the texts, of judging them and of writing the
//! answer.

ghost use Rattle.std.specs.Prelude.{◌≡◌, ◌≢◌, ◌≤◌, ◌+◌, ◌⊎◌, ℕ, List, Err, IfOk};
ghost use Rattle.wq_meter.specs.Meter.{count_after, LosesPrefix, WritesPrefix, WritesWhole};
ghost use Rattle.wq_cert.specs.Texts.{max_certificate};
ghost use Rattle.wq_commands.specs.Declaration.{max_declaration};
ghost use Rattle.wq_commands.specs.CheckInput.{ChecksInput, KeepsYesOfInput};
ghost use Rattle.wq_meter.specs.Input.{AfterGiven, HasFailed, HasGiven};
ghost use Rattle.wq_commands.specs.declared.end.End.{End};

use crate::checking::check_declared;
use crate::end::End;
use crate::found::Found;
use crate::limits::TWO_TEXTS;
use crate::shell::{Answered, Command, Finds, Silent, carry_out};
use std::alloc::{AllocError, Allocator};
use std::io::{self, Read, Write};
use wq_checker::{No, Yes};
use wq_groups::Declaration;
use wq_meter::{Fault, Limits, Metered, Texts};

/// The command `check`: its texts are a declaration and a certificate.
#[derive(Clone, Copy, Debug)]
pub struct CheckCommand;

impl<A: Allocator + Copy> Finds<A> for CheckCommand {
    ghost use Rattle.wq_commands.specs.Commands.{ChecksText, two_texts};

    type Found = Found<Result<Yes, No>>;

    ghost limits = { λ _. two_texts };

    ghost answers = { λ _ s texts found end out. ChecksText s texts.second found end out };
}

impl<A: Allocator + Copy> Command<A> for CheckCommand {
    fn limits(&self) -> Limits {
        TWO_TEXTS
    }

    fn answer(
        &self,
        alloc: A,
        declared: &Declaration<'_, A>,
        texts: &Texts<A>,
    ) -> Result<Answered<A, Found<Result<Yes, No>>>, AllocError> {
        check_declared(alloc, declared, texts.second())
    }
}

/// Reads a declaration and then a certificate to their ends, and writes what the checker answers: `yes K`,
/// `yes circle N` or `no ..`. If one of the two is refused, it writes the refusal of the first that is.
///
/// At most 1,048,577 bytes of the declaration and 8,388,609 of the certificate are read, in at most as many calls. The
/// certificate isn't touched until the declaration has been read to its end. The errors are `Fault::Read` if a read
/// failed, `Fault::Memory` if memory ran out, and `Fault::Write` if a write failed or took no byte. After
/// `Fault::Write` a prefix of the answer is written, and after the others nothing.
///
/// The names are hashed with `seed`. No answer depends on it.
pub fn check_cmd<D: Read, C: Read, W: Write, A: Allocator + Copy>(
    alloc: A,
    seed: u64,
    declaration: &mut Metered<D>,
    certificate: &mut Metered<C>,
    writer: &mut Metered<W>,
) -> Result<End, Fault>
    // The answer to the texts that the readers had is written, and nothing else.
    ensures answered { IfOk result (λ end. (out : List ℕ)
        × ChecksInput D.remaining C.remaining declaration.old declaration.new certificate.old certificate.new end out
        × WritesWhole W.contents writer.old writer.new out) }

    // A yes is true. To a plan it is `yes K`: its assignment has K workqueues and lets no run of queueings,
    // cancellations and steps of rescuers and helpers end stuck, and every assignment to fewer workqueues has a run
    // without helpers, with each item queued once and flushing as declared, that ends stuck. To a circle it is
    // `yes circle N`: its N arcs go round groups, and every assignment has such a run.
    ensures promised { IfOk result (λ end. (out : List ℕ)
        × KeepsYesOfInput D.remaining C.remaining declaration.old declaration.new certificate.old certificate.new end
        out
        × WritesWhole W.contents writer.old writer.new out) }

    // What a fault leaves.
    ensures prefix { result ≡ Err Fault.Write → (end : End) × (out : List ℕ)
        × ChecksInput D.remaining C.remaining declaration.old declaration.new certificate.old certificate.new end out
        × WritesPrefix W.contents writer.old writer.new out }
    ensures untouched { result ≡ Err Fault.Memory → writer.new ≡ writer.old }
    ensures unwritten { result ≡ Err Fault.Read → writer.new ≡ writer.old }

    // What is asked of the readers, whatever the result.
    ensures lost { LosesPrefix D.remaining declaration.old declaration.new (max_declaration + 1)
        × LosesPrefix C.remaining certificate.old certificate.new (max_certificate + 1) }
    ensures order { AfterGiven D.remaining declaration.old declaration.new max_declaration certificate.old
        certificate.new }
    ensures reads { (declaration.new.calls ≤ declaration.old.calls + (max_declaration + 1))
        × (certificate.new.calls ≤ certificate.old.calls + (max_certificate + 1)) }
    ensures bytes_read { (declaration.new.bytes ≤ declaration.old.bytes + (max_declaration + 1))
        × (certificate.new.bytes ≤ certificate.old.bytes + (max_certificate + 1)) }

    // Which fault it is, and which reader's.
    ensures read_failed { result ≡ Err Fault.Read →
        (HasFailed declaration.old declaration.new × (certificate.new ≡ certificate.old))
        ⊎ (HasGiven D.remaining declaration.old declaration.new max_declaration
        × HasFailed certificate.old certificate.new) }
    ensures no_read_failed { result ≢ Err Fault.Read →
        (declaration.new.failures ≡ declaration.old.failures) × (certificate.new.failures ≡ certificate.old.failures) }
    ensures write_failed { result ≡ Err Fault.Write → writer.new.failures ≡ count_after writer.old.failures 1 }
    ensures no_write_failed { result ≢ Err Fault.Write → writer.new.failures ≡ writer.old.failures }
{
    let mut third = Metered::new(io::empty());
    let mut unsaid = Metered::new(io::sink());
    carry_out(
        alloc,
        seed,
        &CheckCommand,
        &Silent,
        declaration,
        certificate,
        &mut third,
        writer,
        &mut unsaid,
    )
}
