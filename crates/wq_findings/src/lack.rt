//! What a certificate lacks if the checker says no to it.
//!
//! The reasons are those of "The command `check`" in docs/FORMAT.md. It takes time linear in the length of the text and
//! the number of flushes that one item declares.

use crate::finding::{Finding, Found};
use crate::hint::Hint;
use crate::token::{Token, first_word, word_at};
use crate::what::What;
use crate::workqueue::Workqueue;
use std::alloc::Allocator;
use wq_checker::No;
use wq_items::{ItemId, ItemTable};
use wq_text::{Line, Text};

/// What is wrong with an arc whose names aren't known.
const WRONG_ARC: &str = "an arc isn't a flush, or doesn't begin where the one before it ends";

/// What a certificate of these items lacks, by the checker's answer to it, and the line that is meant, if there is one.
pub fn in_answer<'a, A: Allocator + Copy>(
    table: &ItemTable<'_, A>,
    text: &Text<'a>,
    no: &No,
) -> Found<'a> {
    match *no {
        No::NotFalling { item, target } => not_falling(table, text, item, target),
        No::ChainBroken { at: 0 } => counted(
            text,
            b"chain",
            "no item is declared, so there is no chain",
        ),
        No::ChainBroken { at } => broken_arc(text, at, "above"),
        No::LengthDiffers => counted(
            text,
            b"chain",
            "the chain should have as many groups as there are workqueues",
        ),
        No::CircleBroken { at } => broken_arc(text, at, "before it"),
        No::RunBroken => counted(
            text,
            b"run",
            "these steps don't deadlock where each group has a workqueue of its own",
        ),
    }
}

/// The word of a line that names an item.
fn word_of<'a, A: Allocator + Copy>(
    table: &ItemTable<'_, A>,
    line: &Line<'a>,
    item: ItemId,
) -> Option<Token<'a>> {
    for word in line.words().skip(2) {
        if table.find(word.bytes()) == Some(item) {
            return Some(Token::of(line, &word));
        }
    }
    None
}

/// Whether the first flush of a target that an item declares is of its whole workqueue.
fn flushes_whole<A: Allocator + Copy>(
    table: &ItemTable<'_, A>,
    item: ItemId,
    target: ItemId,
) -> bool {
    if item.get() >= table.len() {
        return false;
    }
    for flush in table.waits(item) {
        if flush.item == target {
            return flush.whole;
        }
    }
    false
}

/// The finding that an item isn't above what it flushes.
fn not_falling<'a, A: Allocator + Copy>(
    table: &ItemTable<'_, A>,
    text: &Text<'a>,
    item: ItemId,
    target: ItemId,
) -> Found<'a> {
    let mut low = None;
    let mut flushed = None;
    for line in text.lines() {
        if first_word(&line) != b"wq".as_slice() {
            continue;
        }
        if let Some(word) = word_of(table, &line, target) {
            flushed = Some((word.quoted(), Workqueue::of(&line)));
        }
        if let Some(word) = word_of(table, &line, item) {
            low = Some((line, word));
        }
    }
    match (low, flushed) {
        (Some((line, word)), Some((name, workqueue))) => {
            let whole = flushes_whole(table, item, target);
            let what = What::TooLow(word.quoted(), name, whole);
            let hint = Hint::OnWorkqueue(name, workqueue);
            Found::on(line, Finding::marked(word.mark, what, hint))
        }
        _ => Found::whole(What::Said(
            "an item isn't on a higher workqueue than all that it flushes",
        )),
    }
}

/// The line with this number, counted from 1, among those that begin with the word `first`.
fn nth_line<'a>(text: &Text<'a>, first: &[u8], number: u32) -> Option<Line<'a>> {
    let mut left = number;
    for line in text.lines() {
        if first_word(&line) == first {
            left = left.saturating_sub(1);
            if left == 0 {
                return Some(line);
            }
        }
    }
    None
}

/// What is wrong with the number on the line that begins with the word `first`.
fn counted<'a>(text: &Text<'a>, first: &[u8], what: &'static str) -> Found<'a> {
    match nth_line(text, first, 1) {
        Some(line) => wrong_number(line, what),
        None => Found::whole(What::Said(what)),
    }
}

/// What is wrong with the number on a line.
fn wrong_number<'a>(line: Line<'a>, what: &'static str) -> Found<'a> {
    match word_at(&line, 1) {
        Some(word) => {
            let what = What::Said(what);
            Found::on(line, Finding::marked(word.mark, what, Hint::Nothing))
        }
        None => Found::whole(What::Said(what)),
    }
}

/// An arc that isn't a flush, or doesn't begin where the one before it ends.
fn broken_arc<'a>(text: &Text<'a>, at: u32, before: &'static str) -> Found<'a> {
    match nth_line(text, b"arc", at) {
        Some(line) => wrong_arc(line, before),
        None => Found::whole(What::Said(WRONG_ARC)),
    }
}

/// The finding for the line of an arc that isn't a flush, or doesn't begin where the one before it ends.
fn wrong_arc<'a>(line: Line<'a>, before: &'static str) -> Found<'a> {
    match (word_at(&line, 1), word_at(&line, 2)) {
        (Some(item), Some(target)) => {
            let what = What::WrongArc(item.quoted(), target.quoted(), before);
            Found::on(line, Finding::marked(item.mark, what, Hint::Nothing))
        }
        _ => Found::whole(What::Said(WRONG_ARC)),
    }
}
