//! What is wrong on a line of a certificate that is refused, and what was most likely meant.
//!
//! The refusals are those of "Refusals of certificates" in docs/FORMAT.md. It takes time linear in the length of the
//! text; an unknown name is compared with each name of the declaration.

use crate::finding::{Finding, Found};
use crate::guess::{foreign_hint, has_separator, most_like, text_with};
use crate::hint::Hint;
use crate::names::nearest;
use crate::placed::{find_split, find_twice, find_unplaced};
use crate::quoted::Quoted;
use crate::refused::Refused;
use crate::stage::{Shape, Stage, line_and_stage, stray_line};
use crate::token::{Mark, Token, bytes_at, first_mark, word_at};
use crate::what::{Unplaced, What, Words};
use crate::workqueue::is_workqueue;
use std::alloc::{AllocError, Allocator};
use wq_cert::{MAX_CERTIFICATE, MAX_CERTIFICATE_LINE, MAX_COUNT};
use wq_items::ItemTable;
use wq_text::{Line, Text, number};

/// What is wrong in a text that is refused with the number `code` for line `no`, and that line, if there is one.
///
/// The only error is out of memory (20).
pub fn in_certificate<'a, A: Allocator + Copy>(
    alloc: A,
    refused: &Refused<'_, 'a, A>,
    code: u32,
    no: u32,
) -> Result<Found<'a>, AllocError> {
    let (line, stage) = line_and_stage(refused.kind, refused.text, no);
    match line {
        Some(line) => {
            let finding = on_line(alloc, refused, &line, stage, code)?;
            Ok(Found::on(line, finding))
        }
        None if code == 41 => unplaced(alloc, refused),
        None => Ok(Found::whole(cut_short(refused.text, stage))),
    }
}

/// Which items are on no workqueue, and the line that isn't one of a workqueue and so ends them, if there is one.
fn unplaced<'a, A: Allocator + Copy>(
    alloc: A,
    refused: &Refused<'_, 'a, A>,
) -> Result<Found<'a>, AllocError> {
    let items = find_unplaced(alloc, refused)?;
    match stray_line(refused.kind, refused.text) {
        Some((line, stage)) => {
            let finding = cut_off(alloc, items, &line, stage)?;
            Ok(Found::on(line, finding))
        }
        None => Ok(Found::whole(What::OnNoWorkqueue(items))),
    }
}

/// Finds that items are on no workqueue since `line`, which isn't one of a workqueue, ends the workqueues.
fn cut_off<'a, A: Allocator + Copy>(
    alloc: A,
    items: Unplaced<'a>,
    line: &Line<'a>,
    stage: Stage,
) -> Result<Finding<'a>, AllocError> {
    let hint = other_hint(alloc, line, stage)?;
    let what = What::CutOff(items, line.no());
    Ok(Finding::marked(first_mark(line), what, hint))
}

/// What is wrong on this line of a text that is refused with the number `code` for it.
fn on_line<'a, A: Allocator + Copy>(
    alloc: A,
    refused: &Refused<'_, 'a, A>,
    line: &Line<'a>,
    stage: Stage,
    code: u32,
) -> Result<Finding<'a>, AllocError> {
    match code {
        41 => find_twice(alloc, refused, line),
        42 => find_split(alloc, refused, line),
        43 => Ok(out_of_range(line, stage)),
        _ => wrong_line(alloc, refused, line, stage),
    }
}

/// What is wrong with a text that is too long, or ends too early.
fn cut_short<'a>(text: &Text<'_>, stage: Stage) -> What<'a> {
    if text.bytes().len() > MAX_CERTIFICATE as usize {
        return What::Said("the text has more than 8,388,608 bytes");
    }
    What::EndsAt(stage)
}

/// What is wrong with the line of a workqueue whose number isn't the next one.
fn out_of_order<'a>(line: &Line<'a>, next: u32) -> What<'a> {
    if next < MAX_COUNT {
        What::OutOfOrder(Quoted(bytes_at(line, 0)), next)
    } else {
        What::Said("an assignment has at most 4,096 workqueues")
    }
}

/// A hint for a workqueue whose number isn't the next one: it had a line above, or the number is too large.
fn order_hint(line: &Line<'_>, next: u32) -> &'static str {
    match number(bytes_at(line, 1)) {
        Some(given) if given < next =>
            "each workqueue has one line: add these names to the one above",
        _ => "workqueues are numbered from 0, in order",
    }
}

/// A number that is out of its range.
fn out_of_range<'a>(line: &Line<'a>, stage: Stage) -> Finding<'a> {
    let mark = match word_at(line, 1) {
        Some(word) => word.mark,
        None => first_mark(line),
    };
    let what = match stage {
        Stage::Workqueue { next, .. } => {
            let hint = Hint::Said(order_hint(line, next));
            return Finding::marked(mark, out_of_order(line, next), hint);
        }
        Stage::Plan => "a plan has at most 4,096 workqueues",
        Stage::Chain => "a chain has at most 4,096 groups",
        Stage::Circle => "a circle has 1 to 4,096 arcs",
        Stage::Part => "a declaration has at most 16,384 flushes",
        _ => "the number of a workqueue is at most 4,095",
    };
    Finding::marked(mark, What::Said(what), Hint::Nothing)
}

/// A line that isn't the expected one.
fn wrong_line<'a, A: Allocator + Copy>(
    alloc: A,
    refused: &Refused<'_, 'a, A>,
    line: &Line<'a>,
    stage: Stage,
) -> Result<Finding<'a>, AllocError> {
    let word = bytes_at(line, 0);
    let limit = MAX_CERTIFICATE_LINE as usize;
    if line.bytes().len() > limit {
        Ok(Finding::too_long(line, limit, "the line has more than 524,288 bytes"))
    } else if !stage.may_begin_with(word) {
        other_line(alloc, line, stage)
    } else if matches!(stage, Stage::Unsure { .. }) {
        Ok(not_unsure(refused.declaration, line))
    } else {
        wrong_words(alloc, refused, line, stage, stage.shape(word))
    }
}

/// Whether two lines have the same words.
fn have_same_words(line: &Line<'_>, other: &Line<'_>) -> bool {
    let mut others = other.words();
    for word in line.words() {
        match others.next() {
            Some(next) if next.bytes() == word.bytes() => {}
            _ => return false,
        }
    }
    others.next().is_none()
}

/// A line of an unsure part that stands for no unsure line of the declaration.
fn not_unsure<'a>(declaration: &Text<'a>, line: &Line<'a>) -> Finding<'a> {
    let mut count: u32 = 0;
    for other in declaration.lines() {
        if have_same_words(line, &other) {
            count = count.saturating_add(1);
        }
    }
    let what = What::NotUnsure(Words(line.content()), count);
    Finding::marked(first_mark(line), what, Hint::ASK_AGAIN)
}

/// A line with another first word, or after the last line of the text.
fn other_line<'a, A: Allocator + Copy>(
    alloc: A,
    line: &Line<'a>,
    stage: Stage,
) -> Result<Finding<'a>, AllocError> {
    let hint = other_hint(alloc, line, stage)?;
    let what = if stage.may_end() {
        What::Said("the text should end before this line")
    } else {
        What::Other(Quoted(bytes_at(line, 0)), stage)
    };
    Ok(Finding::marked(first_mark(line), what, hint))
}

/// The hint for a line with another first word: what it was most likely meant to be.
fn other_hint<A: Allocator + Copy>(
    alloc: A,
    line: &Line<'_>,
    stage: Stage,
) -> Result<Hint<'static>, AllocError> {
    let word = bytes_at(line, 0);
    if let Some(hint) = foreign_hint(line.bytes(), word) {
        return Ok(hint);
    }
    match stage {
        Stage::End => Ok(Hint::Nothing),
        Stage::Workqueue { next, left: None } => stray_hint(alloc, word, next),
        _ => Ok(text_hint(word, stage)),
    }
}

/// The hint for a line in the place of one of a workqueue, if nothing says how many workqueues there are.
fn stray_hint<A: Allocator + Copy>(
    alloc: A,
    word: &[u8],
    next: u32,
) -> Result<Hint<'static>, AllocError> {
    if is_of_plan(word) {
        return Ok(Hint::IN_A_PLAN);
    }
    if let Some(text) = text_with(word) {
        return Ok(Hint::LooksLike(text));
    }
    let known: &[&'static str] = if next == 0 {
        &["wq", "norescuer", "plan"]
    } else {
        &["wq", "norescuer"]
    };
    Ok(match most_like(alloc, word, known)? {
        Some(meant) => Hint::Directive(meant),
        None => Hint::Nothing,
    })
}

/// Whether a word begins lines of a plan, and none of another assignment.
fn is_of_plan(word: &[u8]) -> bool {
    word == b"plan".as_slice() || word == b"chain".as_slice() || word == b"arc".as_slice()
}

/// Whether a word begins lines of sure flushes: in an unsure part, such a line has been decided since.
fn is_sure_flush(word: &[u8]) -> bool {
    word == b"flush".as_slice() || word == b"flushwq".as_slice()
}

/// Which text a line belongs to that isn't the expected one.
fn text_hint(word: &[u8], stage: Stage) -> Hint<'static> {
    let is_bare = word == b"norescuer".as_slice();
    match stage {
        Stage::Plan if is_workqueue(word) => return Hint::ASSIGNMENT,
        Stage::Workqueue { .. } | Stage::Chain | Stage::ChainArc { .. } if is_bare => {
            return Hint::ALL_RESCUED;
        }
        Stage::Unsure { .. } if is_sure_flush(word) => return Hint::ASK_AGAIN,
        _ => {}
    }
    match text_with(word) {
        Some(text) => Hint::LooksLike(text),
        None => Hint::Nothing,
    }
}

/// Why a word isn't a number.
fn number_hint(word: &[u8], stage: Stage) -> &'static str {
    match word {
        [b'1'..=b'9', ..] if word.iter().all(|byte| byte.is_ascii_digit()) => {
            "a number is at most 4,294,967,295"
        }
        [b'A'..=b'Z' | b'a'..=b'z' | b'_', ..] if matches!(stage, Stage::Workqueue { .. }) => {
            "workqueues have numbers: put a name into a comment"
        }
        _ => "a number has only digits, and no leading zero",
    }
}

/// The form of a line at this stage: a `norescuer` line may be in the place of a `wq` line.
fn form_hint(line: &Line<'_>, stage: Stage) -> Hint<'static> {
    match stage {
        Stage::Workqueue { next, .. } if bytes_at(line, 0) == b"norescuer".as_slice() => {
            Hint::BareLine(next)
        }
        _ => Hint::Line(stage),
    }
}

/// Whether a word in the place of a workqueue's number is an item of that workqueue, so that the number is missing.
fn lacks_number<A: Allocator + Copy>(table: &ItemTable<'_, A>, word: &[u8], stage: Stage) -> bool {
    matches!(stage, Stage::Workqueue { .. }) && table.find(word).is_some()
}

/// How to mend a word that isn't a number.
fn no_number_hint<A: Allocator + Copy>(
    table: &ItemTable<'_, A>,
    line: &Line<'_>,
    word: &[u8],
    stage: Stage,
) -> Hint<'static> {
    if lacks_number(table, word, stage) {
        return form_hint(line, stage);
    }
    Hint::Said(number_hint(word, stage))
}

/// The word of a line in the place of a number, if it isn't a number.
fn wrong_number<'a>(line: &Line<'a>, shape: Shape) -> Option<Token<'a>> {
    match word_at(line, 1) {
        Some(word) if shape.has_number && number(word.bytes).is_none() => Some(word),
        _ => None,
    }
}

/// The first surplus word of a line.
fn surplus_word<'a>(line: &Line<'a>, shape: Shape) -> Option<Token<'a>> {
    match shape.names {
        Some(_) => word_at(line, shape.fewest()),
        None => None,
    }
}

/// A line with the wrong number of words, or with a word that isn't a number.
fn wrong_form<'a, A: Allocator + Copy>(
    table: &ItemTable<'_, A>,
    line: &Line<'a>,
    stage: Stage,
    shape: Shape,
) -> Option<Finding<'a>> {
    if let Some(word) = wrong_number(line, shape) {
        let hint = no_number_hint(table, line, word.bytes, stage);
        return Some(Finding::marked(word.mark, What::NoNumber(word.quoted()), hint));
    }
    if word_at(line, shape.fewest().saturating_sub(1)).is_none() {
        let what = What::Said("a word is missing");
        return Some(Finding::marked(Mark::behind(line), what, form_hint(line, stage)));
    }
    match surplus_word(line, shape) {
        Some(word) => {
            let what = What::Said("one word too many");
            Some(Finding::marked(word.mark, what, form_hint(line, stage)))
        }
        None => None,
    }
}

/// A line whose first word is right.
fn wrong_words<'a, A: Allocator + Copy>(
    alloc: A,
    refused: &Refused<'_, 'a, A>,
    line: &Line<'a>,
    stage: Stage,
    shape: Shape,
) -> Result<Finding<'a>, AllocError> {
    if let Some(finding) = wrong_form(refused.table, line, stage, shape) {
        return Ok(finding);
    }
    match unknown_name(refused.table, line, shape) {
        Some(word) => no_item(alloc, refused.declaration, word),
        None => Ok(Finding::whole(What::Said("the line is refused"))),
    }
}

/// The first name of a line that isn't the name of an item.
fn unknown_name<'a, A: Allocator + Copy>(
    table: &ItemTable<'_, A>,
    line: &Line<'a>,
    shape: Shape,
) -> Option<Token<'a>> {
    for word in line.words().skip(shape.first_name()) {
        if table.find(word.bytes()).is_none() {
            return Some(Token::of(line, &word));
        }
    }
    None
}

/// A word that isn't the name of an item.
fn no_item<'a, A: Allocator + Copy>(
    alloc: A,
    declaration: &Text<'a>,
    word: Token<'a>,
) -> Result<Finding<'a>, AllocError> {
    let hint = no_item_hint(alloc, declaration, word.bytes)?;
    Ok(Finding::marked(word.mark, What::NoItem(word.quoted()), hint))
}

/// The hint for a word that isn't the name of an item: what it was most likely meant to be.
fn no_item_hint<'a, A: Allocator + Copy>(
    alloc: A,
    declaration: &Text<'a>,
    word: &[u8],
) -> Result<Hint<'a>, AllocError> {
    if has_separator(word) {
        return Ok(Hint::BLANKS);
    }
    Ok(match nearest(alloc, declaration, word)? {
        Some(near) => Hint::Near(Quoted(near.name)),
        None if word.starts_with(b"WQ_") || word.starts_with(b"__WQ_") => Hint::FLAG,
        None if word == b"ordered".as_slice() => Hint::ORDERED,
        None if word == b"norescuer".as_slice() => Hint::FIRST_WORD,
        None => Hint::Nothing,
    })
}
