//! What is wrong, in the words of a message. Writing it takes time linear in the length of the message.

ghost use Rattle.std.specs.Prelude.{None};

use crate::quoted::Quoted;
use crate::stage::Stage;
use std::fmt;

/// The digits of hexadecimal numbers.
const HEX_DIGITS: &[u8] = b"0123456789ABCDEF";

/// What is wrong.
#[derive(Clone, Copy)]
pub enum What<'a> {
    /// A fault in words that are the same for any text.
    Said(&'static str),
    /// This byte may not be before a comment.
    BadByte(u8),
    /// This first word isn't a directive.
    NoDirective(Quoted<'a>),
    /// This word should be a name and isn't one.
    NoName(Quoted<'a>),
    /// This word should be a number and isn't one.
    NoNumber(Quoted<'a>),
    /// The item with this name is declared twice.
    DeclaredTwice(Quoted<'a>),
    /// No line above declares this name.
    NotAbove(Quoted<'a>),
    /// No line declares this name.
    NoItem(Quoted<'a>),
    /// This name is on two `ordered` lines.
    OnTwoLines(Quoted<'a>),
    /// This word is twice on a line.
    TwiceOnLine(Quoted<'a>),
    /// The text ends where this line should come.
    EndsAt(Stage),
    /// The words of a line of an unsure part, and how many unsure lines of the declaration have the same words.
    NotUnsure(Words<'a>, u32),
    /// A first word, and the line that should be there instead.
    Other(Quoted<'a>, Stage),
    /// The first word of the line of a workqueue, and the number that should follow it.
    OutOfOrder(Quoted<'a>, u32),
    /// These items are on no workqueue.
    OnNoWorkqueue(Unplaced<'a>),
    /// These items are on no workqueue; the line with this number isn't one of a workqueue, and so ends them.
    CutOff(Unplaced<'a>, u32),
    /// This name is on a workqueue already.
    PlacedAlready(Quoted<'a>),
    /// These two names of one `ordered` line are on two workqueues.
    Split(Quoted<'a>, Quoted<'a>),
    /// This item should be above this target; and whether it flushes the whole workqueue of the target.
    TooLow(Quoted<'a>, Quoted<'a>, bool),
    /// The item and the target of an arc, and which arc it should follow.
    WrongArc(Quoted<'a>, Quoted<'a>, &'static str),
}

impl fmt::Display for What<'_> {
    ghost output = { λ _. None };

    fn fmt<W: fmt::Write>(&self, f: &mut fmt::Formatter<W>) -> fmt::Result {
        match *self {
            What::Said(said) => f.write_str(said),
            What::BadByte(byte) => bad_byte(f, byte),
            What::NoDirective(word) => say(f, "", word, " isn't a directive"),
            What::NoName(word) => say(f, "", word, " isn't a name"),
            What::NoNumber(word) => say(f, "", word, " isn't a number"),
            What::DeclaredTwice(name) => say(f, "the item ", name, " is declared twice"),
            What::NotAbove(name) => say(f, "no item ", name, " is declared above this line"),
            What::NoItem(name) => say(f, "no item ", name, " is declared"),
            What::OnTwoLines(name) => say(f, "", name, " is on two `ordered` lines"),
            What::TwiceOnLine(word) => say(f, "", word, " is on this line twice"),
            What::NotUnsure(words, count) => not_unsure(f, words, count),
            What::EndsAt(stage) => write!(f, "expected {stage}, but the text ends"),
            What::Other(word, stage) => write!(f, "expected {stage}, found `{word}`"),
            What::OutOfOrder(word, next) => write!(f, "expected `{word} {next}`"),
            What::OnNoWorkqueue(items) => items.fmt(f),
            What::CutOff(items, line) => {
                write!(f, "{items}: line {line} isn't a `wq` or `norescuer` line")
            }
            What::PlacedAlready(name) => say(f, "", name, " is on a workqueue already"),
            What::Split(name, other) => split(f, name, other),
            What::TooLow(item, target, whole) => too_low(f, item, target, whole),
            What::WrongArc(item, target, before) => wrong_arc(f, item, target, before),
        }
    }
}

/// Writes a word, with `before` and `behind` around it.
fn say<W: fmt::Write>(
    f: &mut fmt::Formatter<W>,
    before: &str,
    word: Quoted<'_>,
    behind: &str,
) -> fmt::Result {
    write!(f, "{before}`{word}`{behind}")
}

/// Writes that a line isn't unsure in the declaration, or not that often.
fn not_unsure<W: fmt::Write>(
    f: &mut fmt::Formatter<W>,
    words: Words<'_>,
    count: u32,
) -> fmt::Result {
    match count {
        0 => write!(f, "`{words}` isn't unsure in the declaration"),
        1 => write!(f, "`{words}` is unsure only once in the declaration"),
        _ => write!(
            f,
            "`{words}` is unsure only {count} times in the declaration"
        ),
    }
}

/// Writes what is wrong with a byte.
fn bad_byte<W: fmt::Write>(f: &mut fmt::Formatter<W>, byte: u8) -> fmt::Result {
    f.write_str("the byte 0x")?;
    f.write_char(hex_digit(byte >> 4))?;
    f.write_char(hex_digit(byte & 15))?;
    f.write_str(" is neither TAB nor printable ASCII")
}

/// The hexadecimal digit of a number below 16.
fn hex_digit(number: u8) -> char {
    match HEX_DIGITS.get(usize::from(number)) {
        Some(digit) => char::from(*digit),
        None => '?',
    }
}

/// Writes what is wrong with a group that is split.
fn split<W: fmt::Write>(
    f: &mut fmt::Formatter<W>,
    name: Quoted<'_>,
    other: Quoted<'_>,
) -> fmt::Result {
    say(f, "", name, " and ")?;
    say(
        f,
        "",
        other,
        " are on one `ordered` line, and on two workqueues",
    )
}

/// Writes what is wrong with an item that should be above its target.
fn too_low<W: fmt::Write>(
    f: &mut fmt::Formatter<W>,
    item: Quoted<'_>,
    target: Quoted<'_>,
    whole: bool,
) -> fmt::Result {
    let flushes = if whole {
        " flushes the workqueue of "
    } else {
        " flushes "
    };
    say(f, "", item, flushes)?;
    say(f, "", target, ", so it should be on a higher workqueue")
}

/// Writes what is wrong with an arc.
fn wrong_arc<W: fmt::Write>(
    f: &mut fmt::Formatter<W>,
    item: Quoted<'_>,
    target: Quoted<'_>,
    before: &str,
) -> fmt::Result {
    say(f, "", item, " doesn't flush ")?;
    say(f, "", target, ", or isn't in the group of the target ")?;
    f.write_str(before)
}

/// The words of the line with these bytes before its comment, with one space between two of them.
#[derive(Clone, Copy)]
pub struct Words<'a>(pub(crate) &'a [u8]);

impl fmt::Display for Words<'_> {
    ghost output = { λ _. None };

    fn fmt<W: fmt::Write>(&self, f: &mut fmt::Formatter<W>) -> fmt::Result {
        let mut is_first = true;
        for word in self.0.split(|byte| matches!(*byte, b' ' | b'\t')) {
            if word.is_empty() {
                continue;
            }
            if !is_first {
                f.write_str(" ")?;
            }
            is_first = false;
            write!(f, "{}", Quoted(word))?;
        }
        Ok(())
    }
}

/// The items that are on no workqueue: how many there are, and the names of the first three.
#[derive(Clone, Copy)]
pub struct Unplaced<'a> {
    count: usize,
    first: Quoted<'a>,
    second: Quoted<'a>,
    third: Quoted<'a>,
}

impl<'a> Unplaced<'a> {
    /// No items.
    pub(crate) fn none() -> Unplaced<'a> {
        Unplaced {
            count: 0,
            first: Quoted(b""),
            second: Quoted(b""),
            third: Quoted(b""),
        }
    }

    /// Adds an item at the end.
    pub(crate) fn add(&mut self, name: Quoted<'a>) {
        match self.count {
            0 => self.first = name,
            1 => self.second = name,
            2 => self.third = name,
            _ => {}
        }
        self.count = self.count.saturating_add(1);
    }
}

impl fmt::Display for Unplaced<'_> {
    ghost output = { λ _. None };

    fn fmt<W: fmt::Write>(&self, f: &mut fmt::Formatter<W>) -> fmt::Result {
        say(f, "", self.first, "")?;
        if self.count > 1 {
            say(f, ", ", self.second, "")?;
        }
        if self.count > 2 {
            say(f, ", ", self.third, "")?;
        }
        if self.count > 3 {
            write!(f, " and {} more", self.count.saturating_sub(3))?;
        }
        f.write_str(if self.count == 1 {
            " is on no workqueue"
        } else {
            " are on no workqueue"
        })
    }
}
