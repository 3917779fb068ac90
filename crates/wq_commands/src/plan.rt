//! The command `plan`: from the bytes of a declaration to the bytes of its answer.
//!
//! The answer is built in full before the first byte is written.

ghost use Rattle.std.specs.Prelude.{◌≡◌, ◌≢◌, ◌≤◌, ◌+◌, ℕ, List, Err, IfOk};
ghost use Rattle.wq_commands.specs.Declaration.{max_declaration};
ghost use Rattle.wq_meter.specs.Meter.{count_after, LosesPrefix, WritesPrefix, WritesWhole};
ghost use Rattle.wq_commands.specs.PlanInput.{AnswersInput, KeepsPromiseOfInput, ShowsAnswerOfInput};
ghost use Rattle.wq_commands.specs.declared.end.End.{End};

use crate::answer::answer_declared;
use crate::end::End;
use crate::limits::ONE_TEXT;
use crate::shell::{Answered, Command, Finds, Silent, carry_out};
use std::alloc::{AllocError, Allocator};
use std::io::{self, Read, Write};
use wq_groups::Declaration;
use wq_meter::{Fault, Limits, Metered, Texts};

/// The command `plan`: its one text is a declaration.
#[derive(Clone, Copy, Debug)]
pub struct PlanCommand;

impl<A: Allocator + Copy> Finds<A> for PlanCommand {
    ghost use Rattle.wq_commands.specs.Commands.{FindsPlan, one_text};

    type Found = End;

    ghost limits = { λ _. one_text };

    ghost answers = { λ _ s _ found end out. FindsPlan s found end out };
}

impl<A: Allocator + Copy> Command<A> for PlanCommand {
    fn limits(&self) -> Limits {
        ONE_TEXT
    }

    fn answer(
        &self,
        alloc: A,
        declared: &Declaration<'_, A>,
        _texts: &Texts<A>,
    ) -> Result<Answered<A, End>, AllocError> {
        answer_declared(alloc, declared)
    }
}

/// Reads a declaration to its end and writes its answer: the text of its plan, or that of the circle in which its
/// groups wait, with a run that shows it, or the refusal.
///
/// At most 1,048,577 bytes are read, in at most as many calls. The errors are `Fault::Read` if a read failed,
/// `Fault::Memory` if memory ran out, and `Fault::Write` if a write failed or took no byte. After `Fault::Write` a
/// prefix of the answer is written, and after the others nothing.
///
/// The names are hashed with `seed`. No answer depends on it.
pub fn plan_cmd<R: Read, W: Write, A: Allocator + Copy>(
    alloc: A,
    seed: u64,
    reader: &mut Metered<R>,
    writer: &mut Metered<W>,
) -> Result<End, Fault>
    // The answer to the text that the reader had is written, and nothing else.
    ensures answered { IfOk result (λ end. (out : List ℕ) × AnswersInput R.remaining reader.old reader.new end out
        × WritesWhole W.contents writer.old writer.new out) }

    // This answer is true. For every declaration text that is answered, either the printed assignment lets no run of
    // queueings, cancellations and steps of rescuers and helpers end stuck, and every assignment to fewer workqueues
    // has a run without helpers, with each item queued once and flushing as declared, that ends stuck; or a printed
    // circle of groups is given and every assignment has such a run.
    ensures promised { IfOk result (λ end. (out : List ℕ)
        × KeepsPromiseOfInput R.remaining reader.old reader.new end out
        × WritesWhole W.contents writer.old writer.new out) }

    // The written bytes show it, within the limits of a certificate: they spell this plan, whose flushes all fall, or
    // this circle with a run after it, which deadlocks if each group has its own workqueue.
    ensures shown { IfOk result (λ end. (out : List ℕ) × ShowsAnswerOfInput R.remaining reader.old reader.new end out
        × WritesWhole W.contents writer.old writer.new out) }

    // What a fault leaves.
    ensures prefix { result ≡ Err Fault.Write
        → (end : End) × (out : List ℕ) × AnswersInput R.remaining reader.old reader.new end out
        × WritesPrefix W.contents writer.old writer.new out }
    ensures untouched { result ≡ Err Fault.Memory → writer.new ≡ writer.old }
    ensures unwritten { result ≡ Err Fault.Read → writer.new ≡ writer.old }

    // What is asked of the reader, whatever the result.
    ensures lost { LosesPrefix R.remaining reader.old reader.new (max_declaration + 1) }
    ensures reads { reader.new.calls ≤ reader.old.calls + (max_declaration + 1) }
    ensures bytes_read { reader.new.bytes ≤ reader.old.bytes + (max_declaration + 1) }

    // Which fault it is.
    ensures read_failed { result ≡ Err Fault.Read → reader.new.failures ≡ count_after reader.old.failures 1 }
    ensures no_read_failed { result ≢ Err Fault.Read → reader.new.failures ≡ reader.old.failures }
    ensures write_failed { result ≡ Err Fault.Write → writer.new.failures ≡ count_after writer.old.failures 1 }
    ensures no_write_failed { result ≢ Err Fault.Write → writer.new.failures ≡ writer.old.failures }
{
    let mut second = Metered::new(io::empty());
    let mut third = Metered::new(io::empty());
    let mut unsaid = Metered::new(io::sink());
    carry_out(
        alloc,
        seed,
        &PlanCommand,
        &Silent,
        reader,
        &mut second,
        &mut third,
        writer,
        &mut unsaid,
    )
}
