//! The command `run`: from the bytes of a declaration to the bytes that say what its plan did when it was run.
//!
//! The answer is built in full before the first byte is written. A call takes the time of reading the text, of planning
//! it, of all executions and of writing the answer.

ghost use Rattle.std.specs.Prelude.{◌≡◌, ◌≢◌, ◌≤◌, ◌+◌, ℕ, List, Result, Err, IfOk, IfErr, OnErr};
ghost use Rattle.wq_text.specs.Refusal.{Refusal};
ghost use Rattle.wq_core.specs.Wiring.{max_helpers};
ghost use Rattle.wq_meter.specs.Input.{HasFailed};
ghost use Rattle.wq_meter.specs.Meter.{count_after, LosesPrefix, WritesPrefix, WritesWhole};
ghost use Rattle.wq_meter.specs.Shell.{Tells};
ghost use Rattle.wq_meter.specs.Stopped.{IfUnanswered};
ghost use Rattle.wq_meter.specs.declared.stopped.Stopped.TheVariants.{Faulted};
ghost use Rattle.wq_meter.specs.declared.fault.Fault.TheVariants.{Memory, Read as ReadFault, Write as WriteFault};
ghost use Rattle.wq_commands.specs.Declaration.{max_declaration};
ghost use Rattle.wq_commands.specs.declared.end.End.{End};
ghost use Rattle.wq_commands.specs.Shell.{SaysOfTexts};
ghost use Rattle.wq_run.specs.declared.fault.CommandFault.TheVariants.{Common, Thread, Tally};
ghost use Rattle.wq_run.specs.Fault.{Stops};
ghost use Rattle.wq_run.specs.Run.{IsAnsweredByRun, RunsInput, IsRunnableInput, only};
ghost use Rattle.wq_run.specs.Running.{HasRuntime, IsRunnable, RunsDeclared, RunsTexts};

use crate::fault::{CommandFault, RunStop};
use crate::outcome::end_of_run;
use crate::running::run_declared;
use std::alloc::Allocator;
use std::io::{self, Read, Write};
use std::sync::Wait;
use std::thread::Threads;
use wq_commands::{
    End, Finds, MAX_DECLARATION, Silent, Stop, Voice, read_declaration, respond_refused, tell,
};
use wq_groups::Declaration;
use wq_meter::{Metered, Stopped, Texts, read_text, write_text};

/// The command `run`: its one text is a declaration.
#[derive(Clone, Copy, Debug)]
pub struct RunCommand {
    /// How many helpers each workqueue has that isn't ordered, beside its rescuer, at most 8.
    pub helpers: u8,
}

impl<A: Allocator + Copy> Finds<A> for RunCommand {
    ghost use Rattle.wq_commands.specs.Commands.{one_text};
    ghost use Rattle.wq_run.specs.Running.{FindsRun};

    /// How it ends: the plan was run, or has too many workqueues to run, or there is none.
    type Found = End;

    ghost limits = { λ _. one_text };

    ghost answers = { λ command s _ found end out. FindsRun command.helpers s found end out };
}

/// The texts of a command with this text alone.
fn only<A: Allocator + Copy>(alloc: A, text: Vec<u8, A>) -> Texts<A>
    ensures { result ≡ only text.items }
{
    Texts::new(text, Vec::new(alloc), Vec::new(alloc))
}

/// Runs the plan of a declaration, and writes the answer.
fn write_answer<R: Threads + Wait + Sync, W: Write, A: Allocator + Copy + Send + Sync>(
    rt: &R,
    alloc: A,
    command: &RunCommand,
    declared: &Declaration<'_, A>,
    writer: &mut Metered<W>,
) -> Result<End, Stopped<RunStop>>
    requires few_helpers { command.now.helpers ≤ max_helpers }
    ensures answered { IfOk result (λ end. (out : List ℕ) × RunsDeclared command.now.helpers declared.now end out
        × WritesWhole W.contents writer.old writer.new out) }
    ensures prefix { result ≡ Err (Faulted WriteFault)
        → (end : End) × (out : List ℕ) × RunsDeclared command.now.helpers declared.now end out
        × WritesPrefix W.contents writer.old writer.new out }
    ensures unanswered { IfErr result (IfUnanswered (Stops (HasRuntime declared.now))) }
    ensures untouched { IfErr result (λ stopped. stopped ≢ Faulted WriteFault → writer.new ≡ writer.old) }
    ensures never_reads { result ≢ Err (Faulted ReadFault) }
    ensures write_failed { result ≡ Err (Faulted WriteFault) → writer.new.failures ≡ count_after writer.old.failures 1 }
    ensures no_write_failed { result ≢ Err (Faulted WriteFault) → writer.new.failures ≡ writer.old.failures }
{
    match run_declared(rt, alloc, declared, command.helpers) {
        Ok((end, text)) => {
            write_text(writer, &text)?;
            Ok(end)
        }
        Err(stop) => Err(Stopped::Unanswered(stop)),
    }
}

/// Answers a declaration, and then says what there is to be said.
fn respond_declared<
    R: Threads + Wait + Sync,
    V: Voice<RunCommand, A>,
    W: Write,
    E: Write,
    A: Allocator + Copy + Send + Sync,
>(
    rt: &R,
    alloc: A,
    seed: u64,
    command: &RunCommand,
    voice: &V,
    declared: &Declaration<'_, A>,
    texts: &Texts<A>,
    writer: &mut Metered<W>,
    teller: &mut Metered<E>,
) -> Result<End, Stopped<RunStop>>
    requires few_helpers { command.now.helpers ≤ max_helpers }
    ensures answered { IfOk result (λ end. (out : List ℕ) × RunsDeclared command.now.helpers declared.now end out
        × WritesWhole W.contents writer.old writer.new out
        × Tells E.contents teller.old teller.new (V.says voice.now command.now declared.now texts.now end)) }
    ensures prefix { result ≡ Err (Faulted WriteFault)
        → (end : End) × (out : List ℕ) × RunsDeclared command.now.helpers declared.now end out
        × WritesPrefix W.contents writer.old writer.new out }
    ensures unanswered { IfErr result (IfUnanswered (Stops (HasRuntime declared.now))) }
    ensures untouched { IfErr result (λ stopped. stopped ≢ Faulted WriteFault → writer.new ≡ writer.old) }
    ensures never_reads { result ≢ Err (Faulted ReadFault) }
    ensures unsaid { OnErr result (teller.new ≡ teller.old) }
    ensures write_failed { result ≡ Err (Faulted WriteFault) → writer.new.failures ≡ count_after writer.old.failures 1 }
    ensures no_write_failed { result ≢ Err (Faulted WriteFault) → writer.new.failures ≡ writer.old.failures }
{
    let end = write_answer(rt, alloc, command, declared, writer)?;
    tell(
        voice.say(alloc, seed, command, declared, texts, &end),
        teller,
    );
    Ok(end)
}

/// Answers these texts, writes the answer, and then says what there is to be said.
fn respond<
    R: Threads + Wait + Sync,
    V: Voice<RunCommand, A>,
    W: Write,
    E: Write,
    A: Allocator + Copy + Send + Sync,
>(
    rt: &R,
    alloc: A,
    seed: u64,
    command: &RunCommand,
    voice: &V,
    texts: &Texts<A>,
    writer: &mut Metered<W>,
    teller: &mut Metered<E>,
) -> Result<End, Stopped<RunStop>>
    requires few_helpers { command.now.helpers ≤ max_helpers }
    ensures answered { IfOk result (λ end. (found : Result End Refusal) × (out : List ℕ)
        × RunsTexts command.now.helpers texts.now found end out
        × WritesWhole W.contents writer.old writer.new out
        × Tells E.contents teller.old teller.new
        (SaysOfTexts (V.says voice.now command.now) (V.refuses voice.now) texts.now found)) }
    ensures prefix { result ≡ Err (Faulted WriteFault) → (found : Result End Refusal) × (end : End) × (out : List ℕ)
        × RunsTexts command.now.helpers texts.now found end out
        × WritesPrefix W.contents writer.old writer.new out }
    ensures unanswered { IfErr result (IfUnanswered (Stops (IsRunnable texts.now.first))) }
    ensures untouched { IfErr result (λ stopped. stopped ≢ Faulted WriteFault → writer.new ≡ writer.old) }
    ensures never_reads { result ≢ Err (Faulted ReadFault) }
    ensures unsaid { OnErr result (teller.new ≡ teller.old) }
    ensures write_failed { result ≡ Err (Faulted WriteFault) → writer.new.failures ≡ count_after writer.old.failures 1 }
    ensures no_write_failed { result ≢ Err (Faulted WriteFault) → writer.new.failures ≡ writer.old.failures }
{
    match read_declaration(alloc, seed, texts.first()) {
        Ok(declared) => {
            let ended = respond_declared(
                rt, alloc, seed, command, voice, &declared, texts, writer, teller,
            );
            // Written as a call, so that the proof has one step for it.
            drop(declared);
            ended
        }
        Err(Stop::Refused { code, line }) => {
            match respond_refused(alloc, seed, voice, texts, code, line, writer, teller) {
                Ok(end) => Ok(end),
                Err(fault) => Err(Stopped::Faulted(fault)),
            }
        }
        Err(Stop::OutOfMemory) => Err(Stopped::Unanswered(RunStop::OutOfMemory)),
    }
}

/// Carries out `run` as `carry_out` does the other commands: reads a declaration to its end, runs its plan, writes the
/// answer, and then says what there is to be said. `run` is no `Command`: a method of a trait can't start threads that
/// borrow what its type has.
///
/// Of the declaration at most 1,048,577 bytes are read, in at most as many calls. The errors are `Fault::Read` if the
/// read failed, `Fault::Memory` if memory for the text ran out, `Fault::Write` if a write of the answer failed or took
/// no byte, and the reason why there is no answer. After `Fault::Write` a prefix of the answer is written, and after
/// the others nothing. Something is said only after the whole answer is written. If memory for it runs out, nothing is
/// said, and if a write of it fails, no more is. Neither changes the answer or the end. It isn't promised that the
/// calls of the threads ever return.
///
/// The names are hashed with `seed`. No answer depends on it.
pub fn carry_out_run<
    R: Threads + Wait + Sync,
    V: Voice<RunCommand, A>,
    D: Read,
    W: Write,
    E: Write,
    A: Allocator + Copy + Send + Sync,
>(
    rt: &R,
    alloc: A,
    seed: u64,
    command: &RunCommand,
    voice: &V,
    declaration: &mut Metered<D>,
    writer: &mut Metered<W>,
    teller: &mut Metered<E>,
) -> Result<End, Stopped<RunStop>>
    requires few_helpers { command.now.helpers ≤ max_helpers }

    // The answer to the text that the reader had is written, and nothing else; then what there is to be said is said.
    ensures answered { IfOk result (λ end.
        IsAnsweredByRun command.now.helpers D.remaining declaration.old declaration.new end
        (WritesWhole W.contents writer.old writer.new)
        (λ texts found. Tells E.contents teller.old teller.new
        (SaysOfTexts (V.says voice.now command.now) (V.refuses voice.now) texts found))) }

    // What a fault leaves.
    ensures prefix { result ≡ Err (Faulted WriteFault)
        → (end : End) × IsAnsweredByRun command.now.helpers D.remaining declaration.old declaration.new end
        (WritesPrefix W.contents writer.old writer.new)
        (λ _ _. teller.new ≡ teller.old) }
    ensures untouched { IfErr result (λ stopped. stopped ≢ Faulted WriteFault → writer.new ≡ writer.old) }
    ensures unanswered { IfErr result
        (IfUnanswered (Stops (IsRunnableInput D.remaining declaration.old declaration.new))) }
    ensures unsaid { OnErr result (teller.new ≡ teller.old) }

    // What is asked of the reader, whatever the result.
    ensures lost { LosesPrefix D.remaining declaration.old declaration.new (max_declaration + 1) }
    ensures reads { declaration.new.calls ≤ declaration.old.calls + (max_declaration + 1) }
    ensures bytes_read { declaration.new.bytes ≤ declaration.old.bytes + (max_declaration + 1) }

    // Which fault it is, and which device's.
    ensures read_failed { result ≡ Err (Faulted ReadFault) → HasFailed declaration.old declaration.new }
    ensures no_read_failed { result ≢ Err (Faulted ReadFault) → declaration.new.failures ≡ declaration.old.failures }
    ensures write_failed { result ≡ Err (Faulted WriteFault) → writer.new.failures ≡ count_after writer.old.failures 1 }
    ensures no_write_failed { result ≢ Err (Faulted WriteFault) → writer.new.failures ≡ writer.old.failures }
{
    let text = read_text(alloc, declaration, MAX_DECLARATION)?;
    let texts = only(alloc, text);
    let ended = respond(rt, alloc, seed, command, voice, &texts, writer, teller);
    // Written as a call, so that the proof has one step for it.
    drop(texts);
    ended
}

/// Reads a declaration to its end, runs its plan, and writes how often each item was queued, cancelled and finished. If
/// there is no plan, it writes the text of the circle in which the groups wait, with a run that shows it; if the text
/// is refused, it writes the refusal.
///
/// The plan has a rescuer thread for each workqueue, and this many helper threads, at most 8, for each workqueue that
/// isn't ordered. The bodies make the declared flushes. There are two callers, one for the items with even numbers and
/// one for the others. Each queues its items once and then flushes them. A plan of more than 256 workqueues is refused
/// (69).
///
/// At most 1,048,577 bytes are read, in at most as many calls. The errors are those of `plan_cmd`: a read failed, out
/// of memory, or a write failed or took no byte; and `Thread` if a thread couldn't be made, and `Tally` if the runtime
/// couldn't be closed with counts that agree, or a caller was refused. After a write that failed, a prefix of the
/// answer is written, and after the other errors nothing. It isn't promised that the calls of the threads ever return.
///
/// The names are hashed with `seed`. No answer depends on it.
pub fn run_cmd<R: Threads + Wait + Sync, D: Read, W: Write, A: Allocator + Copy + Send + Sync>(
    rt: &R,
    alloc: A,
    seed: u64,
    helpers: u8,
    declaration: &mut Metered<D>,
    writer: &mut Metered<W>,
) -> Result<End, CommandFault>
    requires few_helpers { helpers ≤ max_helpers }

    // The answer to the text that the reader had is written, and nothing else.
    ensures answered { IfOk result (λ end. (out : List ℕ)
        × RunsInput helpers D.remaining declaration.old declaration.new end out
        × WritesWhole W.contents writer.old writer.new out) }

    // What a fault leaves.
    ensures prefix { result ≡ Err (Common WriteFault)
        → (end : End) × (out : List ℕ) × RunsInput helpers D.remaining declaration.old declaration.new end out
        × WritesPrefix W.contents writer.old writer.new out }
    ensures untouched { result ≡ Err (Common Memory) → writer.new ≡ writer.old }
    ensures unwritten { result ≡ Err (Common ReadFault) → writer.new ≡ writer.old }
    ensures no_thread { result ≡ Err Thread
        → (writer.new ≡ writer.old) × IsRunnableInput D.remaining declaration.old declaration.new }
    ensures no_tally { result ≡ Err Tally
        → (writer.new ≡ writer.old) × IsRunnableInput D.remaining declaration.old declaration.new }

    // What is asked of the reader, whatever the result.
    ensures lost { LosesPrefix D.remaining declaration.old declaration.new (max_declaration + 1) }
    ensures reads { declaration.new.calls ≤ declaration.old.calls + (max_declaration + 1) }
    ensures bytes_read { declaration.new.bytes ≤ declaration.old.bytes + (max_declaration + 1) }

    // Which fault it is.
    ensures read_failed { result ≡ Err (Common ReadFault)
        → declaration.new.failures ≡ count_after declaration.old.failures 1 }
    ensures no_read_failed { result ≢ Err (Common ReadFault) → declaration.new.failures ≡ declaration.old.failures }
    ensures write_failed { result ≡ Err (Common WriteFault) → writer.new.failures ≡ count_after writer.old.failures 1 }
    ensures no_write_failed { result ≢ Err (Common WriteFault) → writer.new.failures ≡ writer.old.failures }
{
    let mut unsaid = Metered::new(io::sink());
    let ended = carry_out_run(
        rt,
        alloc,
        seed,
        &RunCommand { helpers },
        &Silent,
        declaration,
        writer,
        &mut unsaid,
    );
    end_of_run(ended)
}
