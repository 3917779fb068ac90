//! The answer to a declaration and a certificate, built in full in memory.
//!
//! A call takes the time and the memory of reading both texts and of checking.

ghost use Rattle.std.specs.Prelude.{◌≡◌, ◌<◌, ◌++◌, ◌∷◌, [], IfOk, IfErr, OnOk, length, codes, decimal, flat_map};
ghost use Rattle.wq_text.specs.LineText.{spaced, line_text};
ghost use Rattle.wq_cert.specs.Certificate.{certificate};
ghost use Rattle.wq_checker.specs.Answers.{IsAsked};
ghost use Rattle.wq_checker.specs.declared.answer.No.TheVariants.{NotFalling};
ghost use Rattle.wq_groups.specs.DeclaredGroups.{declared_waits};
ghost use Rattle.wq_commands.specs.Checking.{yes_words, no_details, no_words, NamesItems, PrintsCheck};
ghost use Rattle.wq_commands.specs.Commands.{ChecksText, FindsCheck};

use crate::end::End;
use crate::found::{Found, Which};
use crate::shell::Answered;
use std::alloc::{AllocError, Allocator};
use wq_cert::{CertAnswer, read_answer};
use wq_checker::{No, Yes, check_answer};
use wq_groups::Declaration;
use wq_items::{ItemId, ItemTable};
use wq_text::{put, put_end, put_number, put_word};

/// `yes K`.
fn yes_text<A: Allocator + Copy>(alloc: A, number: u32) -> Result<Vec<u8, A>, AllocError>
    ensures { IfOk result (λ text. text.items ≡ line_text (codes "yes" ∷ decimal number ∷ [])) }
{
    let mut out = Vec::new(alloc);
    put(&mut out, b"yes")?;
    put_number(&mut out, number)?;
    put_end(&mut out)?;
    Ok(out)
}

/// `yes circle N`.
fn yes_circle_text<A: Allocator + Copy>(alloc: A, length: u32) -> Result<Vec<u8, A>, AllocError>
    ensures { IfOk result (λ text. text.items ≡ line_text (codes "yes" ∷ codes "circle" ∷ decimal length ∷ [])) }
{
    let mut out = Vec::new(alloc);
    put(&mut out, b"yes circle")?;
    put_number(&mut out, length)?;
    put_end(&mut out)?;
    Ok(out)
}

/// The line of a yes.
pub fn yes_line<A: Allocator + Copy>(alloc: A, yes: Yes) -> Result<Vec<u8, A>, AllocError>
    ensures { IfOk result (λ text. text.items ≡ line_text (yes_words yes)) }
{
    match yes {
        Yes::Plan { number } => yes_text(alloc, number),
        Yes::Circle { length } => yes_circle_text(alloc, length),
    }
}

/// Adds the name of an item and that of its target.
fn put_flush<A: Allocator + Copy>(
    table: &ItemTable<'_, A>,
    out: &mut Vec<u8, A>,
    item: ItemId,
    target: ItemId,
) -> Result<(), AllocError>
    requires item { item < length table.now.names }
    requires target { target < length table.now.names }
    ensures { OnOk result (out.new.items
        ≡ out.old.items ++ flat_map spaced (no_details table.now.names (NotFalling item target))) }
{
    put_word(out, table.name(item))?;
    put_word(out, table.name(target))?;
    Ok(())
}

/// Adds a place.
fn put_place<A: Allocator + Copy>(out: &mut Vec<u8, A>, at: u32) -> Result<(), AllocError>
    ensures { OnOk result (out.new.items ≡ out.old.items ++ flat_map spaced (decimal at ∷ [])) }
{
    put_number(out, at)?;
    Ok(())
}

/// Adds what a no is about: an item and its target, a place, or nothing.
fn put_details<A: Allocator + Copy>(
    table: &ItemTable<'_, A>,
    out: &mut Vec<u8, A>,
    no: &No,
) -> Result<(), AllocError>
    requires { NamesItems table.now.names no.now }
    ensures { OnOk result (out.new.items ≡ out.old.items ++ flat_map spaced (no_details table.now.names no.now)) }
{
    match *no {
        No::NotFalling { item, target } => put_flush(table, out, item, target),
        No::ChainBroken { at } => put_place(out, at),
        No::LengthDiffers => Ok(()),
        No::CircleBroken { at } => put_place(out, at),
        No::RunBroken => Ok(()),
    }
}

/// The line of a no: `no 50 ITEM TARGET`, `no 51 AT`, `no 52`, `no 53 AT` or `no 54`.
pub fn no_line<A: Allocator + Copy>(
    alloc: A,
    table: &ItemTable<'_, A>,
    no: &No,
) -> Result<Vec<u8, A>, AllocError>
    requires { NamesItems table.now.names no.now }
    ensures { IfOk result (λ text. text.items ≡ line_text (no_words table.now.names no.now)) }
{
    let mut out = Vec::new(alloc);
    put(&mut out, b"no")?;
    put_number(&mut out, no.code())?;
    put_details(table, &mut out, no)?;
    put_end(&mut out)?;
    Ok(out)
}

/// What is printed of this answer of the checker.
fn print_check<A: Allocator + Copy>(
    alloc: A,
    table: &ItemTable<'_, A>,
    answer: &Result<Yes, No>,
) -> Result<(End, Vec<u8, A>), AllocError>
    requires { IfErr answer.now (NamesItems table.now.names) }
    ensures { IfOk result (λ printed. PrintsCheck table.now.names answer.now printed.0 printed.1.items) }
{
    match answer {
        Ok(yes) => {
            let text = yes_line(alloc, *yes)?;
            Ok((End::Good, text))
        }
        Err(no) => {
            let text = no_line(alloc, table, no)?;
            Ok((End::Bad, text))
        }
    }
}

/// The answer to this claim about a declaration.
fn check_certificate<A: Allocator + Copy>(
    alloc: A,
    declared: &Declaration<'_, A>,
    claim: &CertAnswer<A>,
) -> Result<Answered<A, Found<Result<Yes, No>>>, AllocError>
    requires { IsAsked (declared_waits declared.now) (certificate claim.now) }
    ensures { IfOk result (λ a. FindsCheck declared.now (certificate claim.now) a.found a.end a.text.items) }
{
    let Declaration { table, groups } = declared;
    let answer = check_answer(alloc, table, groups, claim)?;
    let (end, text) = print_check(alloc, table, &answer)?;
    Ok(Answered {
        found: Found::Read(answer),
        end,
        text,
    })
}

/// The checker's answer to the text of a certificate of a declaration.
pub(crate) fn check_declared<A: Allocator + Copy>(
    alloc: A,
    declared: &Declaration<'_, A>,
    text: &[u8],
) -> Result<Answered<A, Found<Result<Yes, No>>>, AllocError>
    ensures { IfOk result (λ a. ChecksText declared.now text.now a.found a.end a.text.items) }
{
    match read_answer(alloc, text, &declared.table, &declared.groups) {
        Ok(claim) => {
            let answer = check_certificate(alloc, declared, &claim);
            // Written as a call, so that the proof has one step for it.
            drop(claim);
            answer
        }
        Err(fault) => Answered::unread(alloc, Which::Certificate, fault),
    }
}
