//! A declaration with a refused line mended, so that it can be told what would be refused next.
//!
//! A line is mended as the hint says, or else taken out. If a line is taken out that may have declared an item, nothing
//! that depends on the items is told from then on. It takes time linear in the length of the text, and memory for
//! another one.

use crate::declaration::not_above;
use crate::guess::{Guess, begins_comment, encoding_hint, guess_at, text_with};
use crate::hint::Hint;
use crate::names::{LineNames, declared_on};
use crate::token::{Mark, bytes_at, first_word, line_at, word_at};
use std::alloc::{AllocError, Allocator};
use wq_decl::{Keyword, is_name};
use wq_text::{Line, Text};

/// What becomes of the lines of a text.
#[derive(Clone, Copy)]
enum Mend<'a> {
    /// The line with this number is taken out.
    Out(u32),
    /// Each line with this first word is taken out.
    EachOut(&'a [u8]),
    /// Each line of another text is taken out.
    OtherLinesOut,
    /// Each line with this first word begins with this directive.
    EachBegins(&'a [u8], &'static str),
    /// Only this part is left of the line with this number.
    Part(u32, Mark),
    /// The first line declares this item, and the second line is taken out.
    Declares(u32, &'a [u8], u32),
}

/// What is left of a mended line.
#[derive(Clone, Copy)]
enum Left<'a> {
    /// Nothing.
    Nothing,
    /// These bytes.
    Bytes(&'a [u8]),
    /// This directive, and then these bytes.
    Begun(&'static str, &'a [u8]),
}

/// A line with its first word replaced by a directive.
fn begun<'a>(line: &Line<'a>, directive: &'static str) -> Left<'a> {
    let behind = match word_at(line, 0) {
        Some(word) => word.mark.at.saturating_add(word.mark.len),
        None => 0,
    };
    Left::Begun(directive, line.bytes().get(behind..).unwrap_or(b""))
}

/// The marked part of a line.
fn part<'a>(line: &Line<'a>, mark: Mark) -> Left<'a> {
    let end = mark.at.saturating_add(mark.len);
    Left::Bytes(line.bytes().get(mark.at..end).unwrap_or(b""))
}

impl<'a> Mend<'a> {
    /// What is left of this line; `None` if it stays as it is.
    fn left_of(self, line: &Line<'a>) -> Option<Left<'a>> {
        let (no, word) = (line.no(), first_word(line));
        match self {
            Mend::Out(out) if no == out => Some(Left::Nothing),
            Mend::EachOut(first) if word == first => Some(Left::Nothing),
            Mend::OtherLinesOut if is_of_other_text(word) => Some(Left::Nothing),
            Mend::EachBegins(first, directive) if word == first => Some(begun(line, directive)),
            Mend::Part(meant, mark) if no == meant => Some(part(line, mark)),
            Mend::Declares(meant, name, _) if no == meant => Some(Left::Begun("item ", name)),
            Mend::Declares(_, _, below) if no == below => Some(Left::Nothing),
            _ => None,
        }
    }
}

impl<'a> Mend<'a> {
    /// What becomes of the lines that hints are about.
    fn of_own(self) -> Mend<'a> {
        match self {
            Mend::Declares(meant, _, _) => Mend::Out(meant),
            other => other,
        }
    }
}

/// Whether a line that begins with this word is one of another text.
fn is_of_other_text(word: &[u8]) -> bool {
    Keyword::of(word).is_none() && text_with(word).is_some()
}

/// Appends what is left of a line.
fn put_left<A: Allocator + Copy>(out: &mut Vec<u8, A>, left: Left<'_>) -> Result<(), AllocError> {
    match left {
        Left::Nothing => Ok(()),
        Left::Bytes(bytes) => out.extend_from_slice(bytes),
        Left::Begun(directive, bytes) => {
            out.extend_from_slice(directive.as_bytes())?;
            out.extend_from_slice(bytes)
        }
    }
}

/// A mended text.
#[derive(Drop)]
pub struct Mended<A: Allocator> {
    /// The text, which is read again.
    pub text: Vec<u8, A>,
    /// The text without items that none of its lines was meant to declare. Hints are about these lines.
    pub own: Vec<u8, A>,
}

/// What is mended in a declaration, one refused line after the other.
#[derive(Drop)]
pub struct Mending<A: Allocator> {
    /// The numbers of the mended lines.
    lines: Vec<u32, A>,
    /// Whether the lines that are left declare all items.
    knows_items: bool,
}

impl<A: Allocator + Copy> Mending<A> {
    /// A mending that has mended nothing yet.
    pub fn new(alloc: A) -> Mending<A> {
        Mending {
            lines: Vec::new(alloc),
            knows_items: true,
        }
    }

    /// Whether a refusal with this number holds however the lines before were mended.
    pub fn can_tell(&self, code: u32) -> bool {
        match code {
            3 | 4 | 5 | 6 | 12 => true,
            7 | 8 | 11 => self.knows_items,
            _ => false,
        }
    }

    /// Whether this line was mended.
    pub fn has(&self, no: u32) -> bool {
        self.lines.iter().any(|line| *line == no)
    }

    /// The text, and its own lines, with the line mended for which it is refused with the number `code`. `None` if it
    /// can't be told what would be refused next.
    ///
    /// The only error is out of memory (20).
    pub fn mended(
        &mut self,
        alloc: A,
        text: &Text<'_>,
        own: &Text<'_>,
        code: u32,
        no: u32,
    ) -> Result<Option<Mended<A>>, AllocError> {
        let Some(line) = line_at(text, no) else {
            return Ok(None);
        };
        let mend = if self.has(no) {
            Some(self.out(&line))
        } else {
            self.mend_of(alloc, text, &line, code)?
        };
        match mend {
            Some(mend) => Ok(Some(self.rewritten(alloc, text, own, mend)?)),
            None => Ok(None),
        }
    }

    /// How this line is mended, if the text is refused for it with the number `code`.
    fn mend_of<'a>(
        &mut self,
        alloc: A,
        text: &Text<'a>,
        line: &Line<'a>,
        code: u32,
    ) -> Result<Option<Mend<'a>>, AllocError> {
        match code {
            3 => Ok(self.of_bytes(line)),
            4 => self.of_first_word(alloc, text, line),
            5 | 7 | 11 => Ok(Some(self.out_for(line, code))),
            6 => Ok(Some(self.of_bad_name(line))),
            8 => of_unknown_item(alloc, text, line),
            12 => Ok(Some(self.of_extra_word(line))),
            _ => Ok(None),
        }
    }

    /// Takes this line out. It may have declared an item, unless it has another directive.
    fn out<'a>(&mut self, line: &Line<'a>) -> Mend<'a> {
        match Keyword::of(first_word(line)) {
            Some(
                Keyword::Flush
                | Keyword::FlushWq
                | Keyword::FlushUnsure
                | Keyword::FlushWqUnsure
                | Keyword::Ordered,
            ) => {}
            Some(Keyword::Item) | None => self.knows_items = false,
        }
        Mend::Out(line.no())
    }

    /// Takes this line out, if it is refused with the number `code`. An item that is declared twice stays declared
    /// without it.
    fn out_for<'a>(&mut self, line: &Line<'a>, code: u32) -> Mend<'a> {
        if code == 7 {
            return Mend::Out(line.no());
        }
        self.out(line)
    }

    /// Mends a line with bytes that no line may have. If it is UTF-16, so is the text.
    fn of_bytes<'a>(&mut self, line: &Line<'a>) -> Option<Mend<'a>> {
        let bytes = line.bytes();
        if line.content().iter().any(|byte| *byte == 0) {
            return None;
        }
        match (encoding_hint(bytes), bytes) {
            (Some(_), [0xEF, ..]) => {
                let len = bytes.len().saturating_sub(3);
                Some(Mend::Part(line.no(), Mark { at: 3, len }))
            }
            (Some(_), _) => None,
            (None, _) => Some(self.out(line)),
        }
    }

    /// Mends a line whose first word isn't a directive. Other lines with this word are mended in the same way.
    fn of_first_word<'a>(
        &mut self,
        alloc: A,
        text: &Text<'a>,
        line: &Line<'a>,
    ) -> Result<Option<Mend<'a>>, AllocError> {
        let word = first_word(line);
        Ok(match guess_at(alloc, text, word, bytes_at(line, 1))? {
            Guess::Call(Hint::Directive(directive))
            | Guess::Mark(Hint::Directive(directive))
            | Guess::Directive(directive) => Some(Mend::EachBegins(word, directive)),
            Guess::Mark(_) => {
                if word == b"item?".as_slice() {
                    self.knows_items = false;
                }
                Some(Mend::EachOut(word))
            }
            Guess::Comment | Guess::Call(_) => Some(Mend::EachOut(word)),
            Guess::OtherLine(_) => Some(Mend::OtherLinesOut),
            Guess::OtherText(_) => None,
            Guess::Unknown => {
                self.knows_items = false;
                Some(Mend::EachOut(word))
            }
        })
    }

    /// Mends a line with a word that isn't a name. If that is a name on an `item` line with a comma or a semicolon
    /// after it, the comma or semicolon is left out.
    fn of_bad_name<'a>(&mut self, line: &Line<'a>) -> Mend<'a> {
        match (Keyword::of(first_word(line)), word_at(line, 1)) {
            (Some(Keyword::Item), Some(word)) => match word.bytes {
                [name @ .., b',' | b';'] if is_name(name) => {
                    let len = word.mark.at.saturating_add(name.len());
                    Mend::Part(line.no(), Mark { at: 0, len })
                }
                _ => self.out(line),
            },
            _ => self.out(line),
        }
    }

    /// Mends a line with a word too many. If that begins a comment in another language, the comment is left out.
    fn of_extra_word<'a>(&mut self, line: &Line<'a>) -> Mend<'a> {
        match (Keyword::of(first_word(line)), word_at(line, 2)) {
            (Some(Keyword::Item), Some(word)) if begins_comment(word.bytes) => {
                let len = word.mark.at;
                Mend::Part(line.no(), Mark { at: 0, len })
            }
            _ => self.out(line),
        }
    }

    /// The text and its own lines, mended. The numbers of the mended lines are noted.
    fn rewritten(
        &mut self,
        alloc: A,
        text: &Text<'_>,
        own: &Text<'_>,
        mend: Mend<'_>,
    ) -> Result<Mended<A>, AllocError> {
        for line in text.lines() {
            if mend.left_of(&line).is_some() {
                self.lines.push(line.no())?;
            }
        }
        Ok(Mended {
            text: rewritten(alloc, text, mend)?,
            own: rewritten(alloc, own, mend.of_own())?,
        })
    }
}

/// A text, mended.
fn rewritten<A: Allocator + Copy>(
    alloc: A,
    text: &Text<'_>,
    mend: Mend<'_>,
) -> Result<Vec<u8, A>, AllocError> {
    let bytes = text.bytes();
    let mut out = Vec::new(alloc);
    let mut copied = 0;
    for line in text.lines() {
        let Some(left) = mend.left_of(&line) else {
            continue;
        };
        let span = line.span();
        out.extend_from_slice(bytes.get(copied..span.start as usize).unwrap_or(b""))?;
        put_left(&mut out, left)?;
        copied = span.end as usize;
    }
    out.extend_from_slice(bytes.get(copied..).unwrap_or(b""))?;
    Ok(out)
}

/// Mends a line with a name that isn't declared above: the line declares the item in place of a line below that does,
/// if there is one.
fn of_unknown_item<'a, A: Allocator + Copy>(
    alloc: A,
    text: &Text<'a>,
    line: &Line<'a>,
) -> Result<Option<Mend<'a>>, AllocError> {
    let items = LineNames::above(alloc, text, Keyword::Item, line.no())?;
    Ok(match not_above(&items, line) {
        Some(word) => {
            let below = declared_on(text, word.bytes).unwrap_or(0);
            Some(Mend::Declares(line.no(), word.bytes, below))
        }
        None => None,
    })
}
