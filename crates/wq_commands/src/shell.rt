//! The shell of every command: it reads the texts of a command in their order, and the declaration in the first of
//! them; asks the command; writes its answer; and then says more of what the command found.
//!
//! Each text is read once. What a command finds is a value: of it the answer is printed, and of it more is said. All
//! that is promised of readers and writers is promised here, once for all commands. What is said, mostly on standard
//! error, changes neither the answer nor the end. The time is that of reading the texts, of the answer, of what is
//! said, and of writing both.

ghost use Rattle.std.specs.Prelude.{◌≡◌, ◌≢◌, ◌≤◌, ◌+◌, ◌⊎◌, ℕ, List, Ok, Err, Some, Result, IfOk, IfErr, OnErr};
ghost use Rattle.std.specs.Prelude.{MatchResult, option_map};
ghost use Rattle.wq_text.specs.Refusal.{Refusal};
ghost use Rattle.wq_meter.specs.Input.{HasFailed, HasGiven};
ghost use Rattle.wq_meter.specs.Meter.{count_after, LosesPrefix, WritesPrefix, WritesWhole};
ghost use Rattle.wq_meter.specs.Shell.{AfterIf, AreFrom, GivesIf, HasFailedIf, HasGivenIf, Tells, TellsOf};
ghost use Rattle.wq_meter.specs.Shell.{most};
ghost use Rattle.wq_commands.specs.Answer.{PrintsRefusal};
ghost use Rattle.wq_commands.specs.Declaration.{declaration};
ghost use Rattle.wq_commands.specs.Shell.{AnswersTexts, IsAnswered, SaysOfTexts};

use crate::declaration::{Stop, read_declaration};
use crate::end::End;
use crate::refusal::refuse;
use std::alloc::{AllocError, Allocator};
use std::io::{Read, Write};
use wq_groups::Declaration;
use wq_meter::{Fault, Limits, Metered, Texts, read_texts, write_text};

/// What a command answers to a declaration and the texts behind it.
#[derive(Drop)]
pub struct Answered<A: Allocator, F> {
    /// What it found: of this the answer is printed, and more is said.
    pub found: F,
    /// How it ends.
    pub end: End,
    /// The bytes of its answer.
    pub text: Vec<u8, A>,
}

impl<A: Allocator> Answered<A, End> {
    /// An answer of which no more is found than how it ends.
    pub fn ended(end: End, text: Vec<u8, A>) -> Self
        ensures found { result.found ≡ end }
        ensures end { result.end ≡ end }
        ensures text { result.text ≡ text }
    {
        Answered {
            found: end,
            end,
            text,
        }
    }
}

/// What a command finds in its texts.
pub trait Finds<A: Allocator> {
    ghost use Rattle.std.specs.Prelude.{ℕ, List};
    ghost use Rattle.wq_meter.specs.Shell.{Given};
    ghost use Rattle.wq_meter.specs.declared.texts.Limits.{Limits};
    ghost use Rattle.wq_groups.specs.DeclaredGroups.{Declared};
    ghost use Rattle.wq_commands.specs.declared.end.End.{End};

    /// What it finds. Of this value the answer is printed, and more is said.
    type Found: Drop;

    // how many texts it has, and how long they may be
    ghost limits: { Self → Limits };

    // from this declaration and these texts this is found, with this end and this answer
    ghost answers: { Self → Declared → Given → Self.Found → End → List ℕ → Type 0 };
}

/// A command: what it answers to its texts.
pub trait Command<A: Allocator>: Finds<A> {
    /// How many texts it has, and how long they may be.
    fn limits(&self) -> Limits
        ensures { result ≡ Self.limits self.now };

    /// What the command finds, how it ends, and the bytes of its answer, if these texts begin with this declaration.
    ///
    /// The only error is out of memory (20).
    fn answer(
        &self,
        alloc: A,
        declared: &Declaration<'_, A>,
        texts: &Texts<A>,
    ) -> Result<Answered<A, Self::Found>, AllocError>
        ensures { IfOk result (λ a. Self.answers self.now declared.now texts.now a.found a.end a.text.items) };
}

/// Says why a declaration is refused.
pub trait SaysRefusal<A: Allocator> {
    ghost use Rattle.std.specs.Prelude.{List, Option, ℕ};
    ghost use Rattle.wq_text.specs.Refusal.{Refusal};
    ghost use Rattle.wq_meter.specs.Shell.{Given};

    // this is said of texts whose declaration is refused; nothing may be said
    ghost refuses: { Self → Given → Refusal → Option (List ℕ) → Type 0 };

    /// What is said of texts whose declaration is refused, for the fault of this number on this line.
    ///
    /// The only error is out of memory (20). The names are hashed with `seed`. Nothing that is said depends on it.
    fn refuse(
        &self,
        alloc: A,
        seed: u64,
        texts: &Texts<A>,
        code: u32,
        line: u32,
    ) -> Result<Option<Vec<u8, A>>, AllocError>
        ensures { IfOk result (λ said. refuses self.now texts.now (record { code = code; line = line })
            (option_map (λ text. text.items) said)) };
}

/// Says in more words what a command found.
pub trait Voice<C: Finds<A>, A: Allocator>: SaysRefusal<A> {
    ghost use Rattle.std.specs.Prelude.{List, Option, ℕ};
    ghost use Rattle.wq_meter.specs.Shell.{Given};
    ghost use Rattle.wq_groups.specs.DeclaredGroups.{Declared};

    // this is said of what the command found in this declaration and these texts; nothing may be said
    ghost says: { Self → C → Declared → Given → C.Found → Option (List ℕ) → Type 0 };

    /// What is said of what the command found.
    ///
    /// The only error is out of memory (20). The names are hashed with `seed`. Nothing that is said depends on it.
    fn say(
        &self,
        alloc: A,
        seed: u64,
        command: &C,
        declared: &Declaration<'_, A>,
        texts: &Texts<A>,
        found: &C::Found,
    ) -> Result<Option<Vec<u8, A>>, AllocError>
        requires found { (end : End) × (out : List ℕ) × C.answers command.now declared.now texts.now found.now end out }
        ensures { IfOk result (λ said. says self.now command.now declared.now texts.now found.now
            (option_map (λ text. text.items) said)) };
}

/// Says nothing.
#[derive(Clone, Copy, Debug)]
pub struct Silent;

impl<A: Allocator> SaysRefusal<A> for Silent {
    ghost use Rattle.std.specs.Prelude.{None};

    ghost refuses = { λ _ _ _ said. said ≡ None };

    fn refuse(
        &self,
        _alloc: A,
        _seed: u64,
        _texts: &Texts<A>,
        _code: u32,
        _line: u32,
    ) -> Result<Option<Vec<u8, A>>, AllocError> {
        Ok(None)
    }
}

impl<C: Finds<A>, A: Allocator> Voice<C, A> for Silent {
    ghost use Rattle.std.specs.Prelude.{None};

    ghost says = { λ _ _ _ _ _ said. said ≡ None };

    fn say(
        &self,
        _alloc: A,
        _seed: u64,
        _command: &C,
        _declared: &Declaration<'_, A>,
        _texts: &Texts<A>,
        _found: &C::Found,
    ) -> Result<Option<Vec<u8, A>>, AllocError> {
        Ok(None)
    }
}

/// Writes what there is to be said, if there was memory for it. If a write fails, nothing more is written.
pub fn tell<E: Write, A: Allocator>(
    said: Result<Option<Vec<u8, A>>, AllocError>,
    teller: &mut Metered<E>,
)
    ensures { MatchResult said (λ text. TellsOf E.contents teller.old teller.new (option_map (λ t. t.items) text))
        (λ _. teller.new ≡ teller.old) }
{
    if let Ok(Some(text)) = said {
        write_text(teller, &text).ok();
    }
}

/// Asks a command, and writes its answer.
fn write_answer<C: Command<A>, W: Write, A: Allocator + Copy>(
    alloc: A,
    command: &C,
    declared: &Declaration<'_, A>,
    texts: &Texts<A>,
    writer: &mut Metered<W>,
) -> Result<(C::Found, End), Fault>
    ensures answered { IfOk result (λ r. (out : List ℕ)
        × C.answers command.now declared.now texts.now r.0 r.1 out × WritesWhole W.contents writer.old writer.new out) }
    ensures prefix { result ≡ Err Fault.Write → (found : C.Found) × (end : End) × (out : List ℕ)
        × C.answers command.now declared.now texts.now found end out
        × WritesPrefix W.contents writer.old writer.new out }
    ensures untouched { IfErr result (λ fault. fault ≢ Fault.Write → writer.new ≡ writer.old) }
    ensures never_reads { result ≢ Err Fault.Read }
    ensures write_failed { result ≡ Err Fault.Write → writer.new.failures ≡ count_after writer.old.failures 1 }
    ensures no_write_failed { result ≢ Err Fault.Write → writer.new.failures ≡ writer.old.failures }
{
    let Answered { found, end, text } = command.answer(alloc, declared, texts)?;
    write_text(writer, &text)?;
    Ok((found, end))
}

/// Answers a declaration and the texts behind it, and then says what there is to be said.
fn respond_declared<C: Command<A>, V: Voice<C, A>, W: Write, E: Write, A: Allocator + Copy>(
    alloc: A,
    seed: u64,
    command: &C,
    voice: &V,
    declared: &Declaration<'_, A>,
    texts: &Texts<A>,
    writer: &mut Metered<W>,
    teller: &mut Metered<E>,
) -> Result<End, Fault>
    ensures answered { IfOk result (λ end. (found : C.Found) × (out : List ℕ)
        × C.answers command.now declared.now texts.now found end out
        × WritesWhole W.contents writer.old writer.new out
        × Tells E.contents teller.old teller.new (V.says voice.now command.now declared.now texts.now found)) }
    ensures prefix { result ≡ Err Fault.Write → (found : C.Found) × (end : End) × (out : List ℕ)
        × C.answers command.now declared.now texts.now found end out
        × WritesPrefix W.contents writer.old writer.new out }
    ensures untouched { IfErr result (λ fault. fault ≢ Fault.Write → writer.new ≡ writer.old) }
    ensures never_reads { result ≢ Err Fault.Read }
    ensures unsaid { OnErr result (teller.new ≡ teller.old) }
    ensures write_failed { result ≡ Err Fault.Write → writer.new.failures ≡ count_after writer.old.failures 1 }
    ensures no_write_failed { result ≢ Err Fault.Write → writer.new.failures ≡ writer.old.failures }
{
    let (found, end) = write_answer(alloc, command, declared, texts, writer)?;
    tell(
        voice.say(alloc, seed, command, declared, texts, &found),
        teller,
    );
    Ok(end)
}

/// Writes the refusal of a declaration, and then says what there is to be said.
pub fn respond_refused<V: SaysRefusal<A>, W: Write, E: Write, A: Allocator + Copy>(
    alloc: A,
    seed: u64,
    voice: &V,
    texts: &Texts<A>,
    code: u32,
    line: u32,
    writer: &mut Metered<W>,
    teller: &mut Metered<E>,
) -> Result<End, Fault>
    ensures answered { IfOk result (λ end. (out : List ℕ) × PrintsRefusal (record { code = code; line = line }) end out
        × WritesWhole W.contents writer.old writer.new out
        × Tells E.contents teller.old teller.new
        (V.refuses voice.now texts.now (record { code = code; line = line }))) }
    ensures prefix { result ≡ Err Fault.Write → (end : End) × (out : List ℕ)
        × PrintsRefusal (record { code = code; line = line }) end out
        × WritesPrefix W.contents writer.old writer.new out }
    ensures untouched { IfErr result (λ fault. fault ≢ Fault.Write → writer.new ≡ writer.old) }
    ensures never_reads { result ≢ Err Fault.Read }
    ensures unsaid { OnErr result (teller.new ≡ teller.old) }
    ensures write_failed { result ≡ Err Fault.Write → writer.new.failures ≡ count_after writer.old.failures 1 }
    ensures no_write_failed { result ≢ Err Fault.Write → writer.new.failures ≡ writer.old.failures }
{
    let (end, text) = refuse(alloc, code, line)?;
    write_text(writer, &text)?;
    tell(voice.refuse(alloc, seed, texts, code, line), teller);
    Ok(end)
}

/// Answers these texts and writes the answer, and then what there is to be said.
fn respond<C: Command<A>, V: Voice<C, A>, W: Write, E: Write, A: Allocator + Copy>(
    alloc: A,
    seed: u64,
    command: &C,
    voice: &V,
    texts: &Texts<A>,
    writer: &mut Metered<W>,
    teller: &mut Metered<E>,
) -> Result<End, Fault>
    ensures answered { IfOk result (λ end. (found : Result C.Found Refusal) × (out : List ℕ)
        × AnswersTexts (C.answers command.now) texts.now found end out
        × WritesWhole W.contents writer.old writer.new out
        × Tells E.contents teller.old teller.new
        (SaysOfTexts (V.says voice.now command.now) (V.refuses voice.now) texts.now found)) }
    ensures prefix { result ≡ Err Fault.Write → (found : Result C.Found Refusal) × (end : End) × (out : List ℕ)
        × AnswersTexts (C.answers command.now) texts.now found end out
        × WritesPrefix W.contents writer.old writer.new out }
    ensures untouched { IfErr result (λ fault. fault ≢ Fault.Write → writer.new ≡ writer.old) }
    ensures never_reads { result ≢ Err Fault.Read }
    ensures unsaid { OnErr result (teller.new ≡ teller.old) }
    ensures write_failed { result ≡ Err Fault.Write → writer.new.failures ≡ count_after writer.old.failures 1 }
    ensures no_write_failed { result ≢ Err Fault.Write → writer.new.failures ≡ writer.old.failures }
{
    match read_declaration(alloc, seed, texts.first()) {
        Ok(declared) => {
            let ended = respond_declared(
                alloc, seed, command, voice, &declared, texts, writer, teller,
            );
            // Written as a call, so that the proof has one step for it.
            drop(declared);
            ended
        }
        Err(Stop::Refused { code, line }) => {
            respond_refused(alloc, seed, voice, texts, code, line, writer, teller)
        }
        Err(Stop::OutOfMemory) => Err(Fault::Memory),
    }
}

/// Carries out a command: reads its texts to their ends, asks it, writes its answer, and then says what there is to be
/// said.
///
/// Texts are read one after the other, each at most to the first byte past its limit, in at most as many calls. A text
/// that the command doesn't have isn't asked for. All texts are read before the command is asked, and the answer is
/// whole before its first byte is written. The errors are `Fault::Read` if a read failed, `Fault::Memory` if memory for
/// a text or for the answer ran out, and `Fault::Write` if a write of the answer failed or took no byte. After
/// `Fault::Write` a prefix of the answer is written, and after the others nothing.
///
/// Something is said only after the whole answer is written. If memory for it runs out, nothing is said, and if a write
/// of it fails, no more. Neither changes the answer or the end.
///
/// The names are hashed with `seed`. No answer depends on it.
pub fn carry_out<
    C: Command<A>,
    V: Voice<C, A>,
    D: Read,
    S: Read,
    T: Read,
    W: Write,
    E: Write,
    A: Allocator + Copy,
>(
    alloc: A,
    seed: u64,
    command: &C,
    voice: &V,
    first: &mut Metered<D>,
    second: &mut Metered<S>,
    third: &mut Metered<T>,
    writer: &mut Metered<W>,
    teller: &mut Metered<E>,
) -> Result<End, Fault>
    // The answer to the texts that the readers had is written, and nothing else;
    // then what there is to be said of what was found is said.
    ensures answered { IfOk result (λ end. IsAnswered (C.limits command.now)
        (AreFrom (GivesIf D.remaining first.old first.new (Some (C.limits command.now).first))
        (GivesIf S.remaining second.old second.new (C.limits command.now).second)
        (GivesIf T.remaining third.old third.new (C.limits command.now).third))
        (λ texts found out. AnswersTexts (C.answers command.now) texts found end out)
        (WritesWhole W.contents writer.old writer.new)
        (λ texts found. Tells E.contents teller.old teller.new
        (SaysOfTexts (V.says voice.now command.now) (V.refuses voice.now) texts found))) }

    // What a fault leaves.
    ensures prefix { result ≡ Err Fault.Write → (end : End) × IsAnswered (C.limits command.now)
        (AreFrom (GivesIf D.remaining first.old first.new (Some (C.limits command.now).first))
        (GivesIf S.remaining second.old second.new (C.limits command.now).second)
        (GivesIf T.remaining third.old third.new (C.limits command.now).third))
        (λ texts found out. AnswersTexts (C.answers command.now) texts found end out)
        (WritesPrefix W.contents writer.old writer.new)
        (λ _ _. teller.new ≡ teller.old) }
    ensures untouched { IfErr result (λ fault. fault ≢ Fault.Write → writer.new ≡ writer.old) }
    ensures unsaid { OnErr result (teller.new ≡ teller.old) }

    // What is asked of the readers, whatever the result.
    ensures lost { LosesPrefix D.remaining first.old first.new (most (Some (C.limits command.now).first))
        × LosesPrefix S.remaining second.old second.new (most (C.limits command.now).second)
        × LosesPrefix T.remaining third.old third.new (most (C.limits command.now).third) }
    ensures order { AfterIf D.remaining first.old first.new (Some (C.limits command.now).first) second.old second.new
        × AfterIf D.remaining first.old first.new (Some (C.limits command.now).first) third.old third.new
        × AfterIf S.remaining second.old second.new (C.limits command.now).second third.old third.new }
    ensures reads { (first.new.calls ≤ first.old.calls + most (Some (C.limits command.now).first))
        × (second.new.calls ≤ second.old.calls + most (C.limits command.now).second)
        × (third.new.calls ≤ third.old.calls + most (C.limits command.now).third) }
    ensures bytes_read { (first.new.bytes ≤ first.old.bytes + most (Some (C.limits command.now).first))
        × (second.new.bytes ≤ second.old.bytes + most (C.limits command.now).second)
        × (third.new.bytes ≤ third.old.bytes + most (C.limits command.now).third) }

    // Which fault it is, and which device's.
    ensures read_failed { result ≡ Err Fault.Read →
        (HasFailed first.old first.new × (second.new ≡ second.old) × (third.new ≡ third.old))
        ⊎ (HasGiven D.remaining first.old first.new (C.limits command.now).first
        × HasFailedIf second.old second.new (C.limits command.now).second × (third.new ≡ third.old))
        ⊎ (HasGiven D.remaining first.old first.new (C.limits command.now).first
        × HasGivenIf S.remaining second.old second.new (C.limits command.now).second
        × HasFailedIf third.old third.new (C.limits command.now).third) }
    ensures no_read_failed { result ≢ Err Fault.Read → (first.new.failures ≡ first.old.failures)
        × (second.new.failures ≡ second.old.failures) × (third.new.failures ≡ third.old.failures) }
    ensures write_failed { result ≡ Err Fault.Write → writer.new.failures ≡ count_after writer.old.failures 1 }
    ensures no_write_failed { result ≢ Err Fault.Write → writer.new.failures ≡ writer.old.failures }
{
    let texts = read_texts(alloc, command.limits(), first, second, third)?;
    let ended = respond(alloc, seed, command, voice, &texts, writer, teller);
    // Written as a call, so that the proof has one step for it.
    drop(texts);
    ended
}
