//! The command `replay`: from the bytes of a declaration, an assignment and a run to how the run ends.
//!
//! The declaration is read first, then the assignment and then the run, all before any is judged. The answer is built
//! in full before the first byte is written. A call takes the time of reading the texts, of judging them and making the
//! steps, and of writing the answer.

ghost use Rattle.std.specs.Prelude.{◌≡◌, ◌≢◌, ◌≤◌, ◌+◌, ◌⊎◌, ℕ, List, Err, IfOk};
ghost use Rattle.wq_meter.specs.Meter.{count_after, LosesPrefix, WritesPrefix, WritesWhole};
ghost use Rattle.wq_cert.specs.Texts.{max_certificate};
ghost use Rattle.wq_commands.specs.Declaration.{max_declaration};
ghost use Rattle.wq_commands.specs.CheckInput.{ReplaysInput};
ghost use Rattle.wq_meter.specs.Input.{AfterGiven, HasFailed, HasGiven};
ghost use Rattle.wq_commands.specs.declared.end.End.{End};

use crate::end::End;
use crate::found::Found;
use crate::limits::THREE_TEXTS;
use crate::replaying::{Replayed, replay_declared};
use crate::shell::{Answered, Command, Finds, Silent, carry_out};
use std::alloc::{AllocError, Allocator};
use std::io::{self, Read, Write};
use wq_groups::Declaration;
use wq_meter::{Fault, Limits, Metered, Texts};

/// The command `replay`: its texts are a declaration, an assignment and a run.
#[derive(Clone, Copy, Debug)]
pub struct ReplayCommand;

impl<A: Allocator + Copy> Finds<A> for ReplayCommand {
    ghost use Rattle.wq_commands.specs.Commands.{ReplaysTexts, three_texts};

    type Found = Found<Replayed<A>>;

    ghost limits = { λ _. three_texts };

    ghost answers = { λ _ s texts found end out. ReplaysTexts s texts.second texts.third found end out };
}

impl<A: Allocator + Copy> Command<A> for ReplayCommand {
    fn limits(&self) -> Limits {
        THREE_TEXTS
    }

    fn answer(
        &self,
        alloc: A,
        declared: &Declaration<'_, A>,
        texts: &Texts<A>,
    ) -> Result<Answered<A, Found<Replayed<A>>>, AllocError> {
        replay_declared(alloc, declared, texts.second(), texts.third())
    }
}

/// Reads a declaration, an assignment and a run to their ends, makes the steps of the run, and writes how it ends:
/// `open`, `deadlock`, `stuck` or `not lawful N`. If one of the three is refused, it writes the refusal of the first
/// that is.
///
/// At most 1,048,577 bytes of the declaration and 8,388,609 of each of the others are read, in at most as many calls.
/// No text is touched until the ones before it have been read to their ends. The errors are `Fault::Read` if a read
/// failed, `Fault::Memory` if memory ran out, and `Fault::Write` if a write failed or took no byte. After
/// `Fault::Write` a prefix of the answer is written, and after the others nothing.
///
/// The names are hashed with `seed`. No answer depends on it.
pub fn replay_cmd<D: Read, S: Read, R: Read, W: Write, A: Allocator + Copy>(
    alloc: A,
    seed: u64,
    declaration: &mut Metered<D>,
    assignment: &mut Metered<S>,
    run: &mut Metered<R>,
    writer: &mut Metered<W>,
) -> Result<End, Fault>
    // The answer to the texts that the readers had is written, and nothing else.
    ensures answered { IfOk result (λ end. (out : List ℕ)
        × ReplaysInput D.remaining S.remaining R.remaining declaration.old declaration.new assignment.old assignment.new
        run.old run.new end out
        × WritesWhole W.contents writer.old writer.new out) }

    // What a fault leaves.
    ensures prefix { result ≡ Err Fault.Write → (end : End) × (out : List ℕ)
        × ReplaysInput D.remaining S.remaining R.remaining declaration.old declaration.new assignment.old assignment.new
        run.old run.new end out
        × WritesPrefix W.contents writer.old writer.new out }
    ensures untouched { result ≡ Err Fault.Memory → writer.new ≡ writer.old }
    ensures unwritten { result ≡ Err Fault.Read → writer.new ≡ writer.old }

    // What is asked of the readers, whatever the result.
    ensures lost { LosesPrefix D.remaining declaration.old declaration.new (max_declaration + 1)
        × LosesPrefix S.remaining assignment.old assignment.new (max_certificate + 1)
        × LosesPrefix R.remaining run.old run.new (max_certificate + 1) }
    ensures order { AfterGiven D.remaining declaration.old declaration.new max_declaration assignment.old assignment.new
        × AfterGiven D.remaining declaration.old declaration.new max_declaration run.old run.new
        × AfterGiven S.remaining assignment.old assignment.new max_certificate run.old run.new }
    ensures reads { (declaration.new.calls ≤ declaration.old.calls + (max_declaration + 1))
        × (assignment.new.calls ≤ assignment.old.calls + (max_certificate + 1))
        × (run.new.calls ≤ run.old.calls + (max_certificate + 1)) }
    ensures bytes_read { (declaration.new.bytes ≤ declaration.old.bytes + (max_declaration + 1))
        × (assignment.new.bytes ≤ assignment.old.bytes + (max_certificate + 1))
        × (run.new.bytes ≤ run.old.bytes + (max_certificate + 1)) }

    // Which fault it is, and which reader's.
    ensures read_failed { result ≡ Err Fault.Read →
        (HasFailed declaration.old declaration.new × (assignment.new ≡ assignment.old) × (run.new ≡ run.old))
        ⊎ (HasGiven D.remaining declaration.old declaration.new max_declaration
        × HasFailed assignment.old assignment.new
        × (run.new ≡ run.old))
        ⊎ (HasGiven D.remaining declaration.old declaration.new max_declaration
        × HasGiven S.remaining assignment.old assignment.new max_certificate
        × HasFailed run.old run.new) }
    ensures no_read_failed { result ≢ Err Fault.Read → (declaration.new.failures ≡ declaration.old.failures)
        × (assignment.new.failures ≡ assignment.old.failures) × (run.new.failures ≡ run.old.failures) }
    ensures write_failed { result ≡ Err Fault.Write → writer.new.failures ≡ count_after writer.old.failures 1 }
    ensures no_write_failed { result ≢ Err Fault.Write → writer.new.failures ≡ writer.old.failures }
{
    let mut unsaid = Metered::new(io::sink());
    carry_out(
        alloc,
        seed,
        &ReplayCommand,
        &Silent,
        declaration,
        assignment,
        run,
        writer,
        &mut unsaid,
    )
}
