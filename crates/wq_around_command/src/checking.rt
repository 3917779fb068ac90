//! The answer to a declaration, a certificate and fixed workqueues, built in full in memory.
//!
//! It takes the time and the memory of reading the texts and of checking.

ghost use Rattle.std.specs.Prelude.{◌≡◌, length, IfErr, IfOk};
ghost use Rattle.wq_text.specs.LineText.{line_text};
ghost use Rattle.wq_groups.specs.DeclaredGroups.{declared_waits};
ghost use Rattle.wq_fixed.specs.Fixed.{IsFixed};
ghost use Rattle.wq_cert.specs.AroundReading.{around_certificate, around_of_text};
ghost use Rattle.wq_checker.specs.Around.{IsAroundAsked};
ghost use Rattle.wq_commands.specs.Found.{AnswersIn};
ghost use Rattle.wq_commands.specs.declared.found.Which.TheVariants.{Certificate as SecondText};
ghost use Rattle.wq_around_command.specs.Checking.{ChecksOn, ChecksTexts, FindsCheckAround, NamesItemsAround};
ghost use Rattle.wq_around_command.specs.Checking.{PrintsCheckAround, no_around_words, yes_around_words};

use std::alloc::{AllocError, Allocator};
use wq_cert::{AroundAnswer, read_around, read_fixed};
use wq_checker::{No, NoAround, Yes, YesAround, check_around};
use wq_commands::{Answered, CheckCommand, Command, End, Found, Texts, Which, no_line, yes_line};
use wq_core::Assigned;
use wq_fixed::{Fixed, start};
use wq_groups::Declaration;
use wq_items::ItemTable;
use wq_text::{put, put_end, put_number};

/// What `check` finds behind fixed workqueues that are read.
#[derive(Drop)]
pub enum Checked {
    /// There is none of these: what it finds without them.
    Plain(Found<Result<Yes, No>>),
    /// The checker's answer around them, unless the certificate is refused.
    Around(Found<Result<YesAround, NoAround>>),
}

/// The line of a yes.
fn yes_around_line<A: Allocator + Copy>(alloc: A, yes: YesAround) -> Result<Vec<u8, A>, AllocError>
    ensures { IfOk result (λ text. text.items ≡ line_text (yes_around_words yes)) }
{
    match yes {
        YesAround::Plain(yes) => yes_line(alloc, yes),
        YesAround::NoRescuer => {
            let mut out = Vec::new(alloc);
            put(&mut out, b"yes norescuer")?;
            put_end(&mut out)?;
            Ok(out)
        }
    }
}

/// The line of a no.
fn no_around_line<A: Allocator + Copy>(
    alloc: A,
    table: &ItemTable<'_, A>,
    no: &NoAround,
) -> Result<Vec<u8, A>, AllocError>
    requires { NamesItemsAround table.now.names no.now }
    ensures { IfOk result (λ text. text.items ≡ line_text (no_around_words table.now.names no.now)) }
{
    match no {
        NoAround::Plain(no) => no_line(alloc, table, no),
        NoAround::HasRescuer => {
            let mut out = Vec::new(alloc);
            put(&mut out, b"no")?;
            put_number(&mut out, no.code())?;
            put_end(&mut out)?;
            Ok(out)
        }
    }
}

/// How `check` ends with this answer of the checker, and what is printed.
fn print_check<A: Allocator + Copy>(
    alloc: A,
    table: &ItemTable<'_, A>,
    answer: &Result<YesAround, NoAround>,
) -> Result<(End, Vec<u8, A>), AllocError>
    requires { IfErr answer.now (NamesItemsAround table.now.names) }
    ensures { IfOk result (λ printed. PrintsCheckAround table.now.names answer.now printed.0 printed.1.items) }
{
    match answer {
        Ok(yes) => {
            let text = yes_around_line(alloc, *yes)?;
            Ok((End::Good, text))
        }
        Err(no) => {
            let text = no_around_line(alloc, table, no)?;
            Ok((End::Bad, text))
        }
    }
}

/// The answer to this claim about a declaration around fixed workqueues.
fn check_claim<A: Allocator + Copy>(
    alloc: A,
    declared: &Declaration<'_, A>,
    fixed: &Fixed<A>,
    claim: &AroundAnswer<A>,
) -> Result<Answered<A, Found<Result<YesAround, NoAround>>>, AllocError>
    requires fixed { IsFixed declared.now.partition.groups fixed.now }
    requires asked { IsAroundAsked (declared_waits declared.now) fixed.now (around_certificate claim.now) }
    ensures { IfOk result (λ a.
        FindsCheckAround declared.now fixed.now (around_certificate claim.now) a.found a.end a.text.items) }
{
    let workqueues = start(alloc, fixed)?;
    let assigned = Assigned::new(declared, &workqueues);
    let answer = check_around(alloc, &assigned, fixed, claim)?;
    let (end, text) = print_check(alloc, assigned.table(), &answer)?;
    Ok(Answered {
        found: Found::Read(answer),
        end,
        text,
    })
}

/// The answer to the text of a certificate around these workqueues.
fn check_fixed<A: Allocator + Copy>(
    alloc: A,
    declared: &Declaration<'_, A>,
    text: &[u8],
    fixed: &Fixed<A>,
) -> Result<Answered<A, Found<Result<YesAround, NoAround>>>, AllocError>
    requires { IsFixed declared.now.partition.groups fixed.now }
    ensures { IfOk result (λ a. AnswersIn SecondText
        (around_of_text declared.now.table.names declared.now.partition fixed.now text.now)
        (λ c. FindsCheckAround declared.now fixed.now c) a.found a.end a.text.items) }
{
    match read_around(alloc, text, &declared.table, &declared.groups, fixed) {
        Ok(claim) => {
            let answer = check_claim(alloc, declared, fixed, &claim);
            // Written as a call, so that the proof has one step for it.
            drop(claim);
            answer
        }
        Err(fault) => Answered::unread(alloc, Which::Certificate, fault),
    }
}

/// The answer to a certificate around these workqueues. If there is none, it is that without them.
fn check_behind<A: Allocator + Copy>(
    alloc: A,
    declared: &Declaration<'_, A>,
    texts: &Texts<A>,
    fixed: &Fixed<A>,
) -> Result<Answered<A, Found<Checked>>, AllocError>
    requires { length fixed.now.lane_of_group ≡ declared.now.partition.groups }
    ensures { IfOk result (λ a. ChecksOn declared.now fixed.now texts.now.second a.found a.end a.text.items) }
{
    if fixed.lanes() == 0 {
        let Answered { found, end, text } = CheckCommand.answer(alloc, declared, texts)?;
        Ok(Answered {
            found: Found::Read(Checked::Plain(found)),
            end,
            text,
        })
    } else {
        let Answered { found, end, text } = check_fixed(alloc, declared, texts.second(), fixed)?;
        Ok(Answered {
            found: Found::Read(Checked::Around(found)),
            end,
            text,
        })
    }
}

/// The answer to a declaration, the text of a certificate, and that of fixed workqueues, which is judged first.
pub(crate) fn check_texts<A: Allocator + Copy>(
    alloc: A,
    declared: &Declaration<'_, A>,
    texts: &Texts<A>,
) -> Result<Answered<A, Found<Checked>>, AllocError>
    ensures { IfOk result (λ a.
        ChecksTexts declared.now texts.now.second texts.now.third a.found a.end a.text.items) }
{
    match read_fixed(alloc, texts.third(), &declared.table, &declared.groups) {
        Ok(fixed) => {
            let answer = check_behind(alloc, declared, texts, &fixed);
            // Written as a call, so that the proof has one step for it.
            drop(fixed);
            answer
        }
        Err(fault) => Answered::unread(alloc, Which::Run, fault),
    }
}
