//! The command `deadlock`: from the bytes of a declaration and an assignment to the bytes of the verdict on it.
//!
//! The declaration is read first and the assignment next, both before either is judged. The answer is built in full
//! before the first byte is written. A call takes the time of reading the texts, of the verdict and of writing the
//! answer.

ghost use Rattle.std.specs.Prelude.{◌≡◌, ◌≢◌, ◌≤◌, ◌+◌, ◌⊎◌, ℕ, List, Err, IfOk};
ghost use Rattle.wq_meter.specs.Meter.{count_after, LosesPrefix, WritesPrefix, WritesWhole};
ghost use Rattle.wq_cert.specs.Texts.{max_certificate};
ghost use Rattle.wq_commands.specs.Declaration.{max_declaration};
ghost use Rattle.wq_commands.specs.DeadlockInput.{JudgesInput};
ghost use Rattle.wq_meter.specs.Input.{AfterGiven, HasFailed, HasGiven};
ghost use Rattle.wq_commands.specs.declared.end.End.{End};

use crate::deadlocking::{Verdict, judge_declared};
use crate::end::End;
use crate::found::Found;
use crate::limits::TWO_TEXTS;
use crate::shell::{Answered, Command, Finds, Silent, carry_out};
use std::alloc::{AllocError, Allocator};
use std::io::{self, Read, Write};
use wq_groups::Declaration;
use wq_meter::{Fault, Limits, Metered, Texts};

/// The command `deadlock`: its texts are a declaration and an assignment.
#[derive(Clone, Copy, Debug)]
pub struct DeadlockCommand;

impl<A: Allocator + Copy> Finds<A> for DeadlockCommand {
    ghost use Rattle.wq_commands.specs.Commands.{JudgesText, two_texts};

    type Found = Found<Verdict<A>>;

    ghost limits = { λ _. two_texts };

    ghost answers = { λ _ s texts found end out. JudgesText s texts.second found end out };
}

impl<A: Allocator + Copy> Command<A> for DeadlockCommand {
    fn limits(&self) -> Limits {
        TWO_TEXTS
    }

    fn answer(
        &self,
        alloc: A,
        declared: &Declaration<'_, A>,
        texts: &Texts<A>,
    ) -> Result<Answered<A, Found<Verdict<A>>>, AllocError> {
        judge_declared(alloc, declared, texts.second())
    }
}

/// Reads a declaration and then an assignment to their ends, and writes whether the assignment is safe: `safe`, or else
/// the text of a run by which it deadlocks. If one of the two is refused, it writes the refusal of the first that is.
///
/// At most 1,048,577 bytes of the declaration and 8,388,609 of the assignment are read, in at most as many calls. The
/// assignment isn't touched until the declaration has been read to its end. The errors are `Fault::Read` if a read
/// failed, `Fault::Memory` if memory ran out, and `Fault::Write` if a write failed or took no byte. After
/// `Fault::Write` a prefix of the answer is written, and after the others nothing.
///
/// The names are hashed with `seed`. No answer depends on it.
pub fn deadlock_cmd<D: Read, S: Read, W: Write, A: Allocator + Copy>(
    alloc: A,
    seed: u64,
    declaration: &mut Metered<D>,
    assignment: &mut Metered<S>,
    writer: &mut Metered<W>,
) -> Result<End, Fault>
    // The answer to the texts that the readers had is written, and nothing else.
    ensures answered { IfOk result (λ end. (out : List ℕ)
        × JudgesInput D.remaining S.remaining declaration.old declaration.new assignment.old assignment.new end out
        × WritesWhole W.contents writer.old writer.new out) }

    // What a fault leaves.
    ensures prefix { result ≡ Err Fault.Write → (end : End) × (out : List ℕ)
        × JudgesInput D.remaining S.remaining declaration.old declaration.new assignment.old assignment.new end out
        × WritesPrefix W.contents writer.old writer.new out }
    ensures untouched { result ≡ Err Fault.Memory → writer.new ≡ writer.old }
    ensures unwritten { result ≡ Err Fault.Read → writer.new ≡ writer.old }

    // What is asked of the readers, whatever the result.
    ensures lost { LosesPrefix D.remaining declaration.old declaration.new (max_declaration + 1)
        × LosesPrefix S.remaining assignment.old assignment.new (max_certificate + 1) }
    ensures order { AfterGiven D.remaining declaration.old declaration.new max_declaration assignment.old
        assignment.new }
    ensures reads { (declaration.new.calls ≤ declaration.old.calls + (max_declaration + 1))
        × (assignment.new.calls ≤ assignment.old.calls + (max_certificate + 1)) }
    ensures bytes_read { (declaration.new.bytes ≤ declaration.old.bytes + (max_declaration + 1))
        × (assignment.new.bytes ≤ assignment.old.bytes + (max_certificate + 1)) }

    // Which fault it is, and which reader's.
    ensures read_failed { result ≡ Err Fault.Read →
        (HasFailed declaration.old declaration.new × (assignment.new ≡ assignment.old))
        ⊎ (HasGiven D.remaining declaration.old declaration.new max_declaration
        × HasFailed assignment.old assignment.new) }
    ensures no_read_failed { result ≢ Err Fault.Read →
        (declaration.new.failures ≡ declaration.old.failures) × (assignment.new.failures ≡ assignment.old.failures) }
    ensures write_failed { result ≡ Err Fault.Write → writer.new.failures ≡ count_after writer.old.failures 1 }
    ensures no_write_failed { result ≢ Err Fault.Write → writer.new.failures ≡ writer.old.failures }
{
    let mut third = Metered::new(io::empty());
    let mut unsaid = Metered::new(io::sink());
    carry_out(
        alloc,
        seed,
        &DeadlockCommand,
        &Silent,
        declaration,
        assignment,
        &mut third,
        writer,
        &mut unsaid,
    )
}
