//! Names of a declaration, each with the line that it is on.
//!
//! Reading takes time linear in the length of the text, and memory linear in the number of names. Finding a name takes
//! time linear in the number of names, of which at most 4,096 are above a line that is refused.

use crate::guess::{edits_between, letters};
use crate::token::{bytes_at, first_word};
use std::alloc::{AllocError, Allocator};
use wq_decl::Keyword;
use wq_text::{Line, Text};

/// A name on a line.
#[derive(Clone, Copy)]
pub(crate) struct LineName<'a> {
    pub(crate) name: &'a [u8],
    pub(crate) line: u32,
}

/// Names, in the order of a text.
#[derive(Drop)]
pub(crate) struct LineNames<'a, A: Allocator> {
    names: Vec<LineName<'a>, A>,
}

impl<'a, A: Allocator + Copy> LineNames<'a, A> {
    /// The names above line `no`, on those lines of a text that have this keyword.
    pub(crate) fn above(
        alloc: A,
        text: &Text<'a>,
        keyword: Keyword,
        no: u32,
    ) -> Result<Self, AllocError> {
        let mut names = LineNames {
            names: Vec::new(alloc),
        };
        names.add_lines(text, keyword, no)?;
        Ok(names)
    }

    /// Adds the names above line `no`, on those lines of a text that have this keyword.
    fn add_lines(&mut self, text: &Text<'a>, keyword: Keyword, no: u32) -> Result<(), AllocError> {
        for line in text.lines() {
            if line.no() < no
                && let Some(found) = Keyword::of(first_word(&line))
                && found == keyword
            {
                self.add(&line)?;
            }
        }
        Ok(())
    }

    /// Adds the names after the first word of a line.
    fn add(&mut self, line: &Line<'a>) -> Result<(), AllocError> {
        let no = line.no();
        for word in line.words().skip(1) {
            self.names.push(LineName {
                name: word.bytes(),
                line: no,
            })?;
        }
        Ok(())
    }

    /// The first line that a name is on.
    pub(crate) fn line_of(&self, name: &[u8]) -> Option<u32> {
        for known in &self.names {
            if known.name == name {
                return Some(known.line);
            }
        }
        None
    }
}

/// The name on a line that declares an item.
fn item_on<'a>(line: &Line<'a>) -> Option<LineName<'a>> {
    if matches!(Keyword::of(first_word(line)), Some(Keyword::Item)) {
        Some(LineName {
            name: bytes_at(line, 1),
            line: line.no(),
        })
    } else {
        None
    }
}

/// The first line of a declaration that declares this item.
pub(crate) fn declared_on(text: &Text<'_>, name: &[u8]) -> Option<u32> {
    for line in text.lines() {
        if let Some(item) = item_on(&line)
            && item.name == name
        {
            return Some(item.line);
        }
    }
    None
}

/// The item of a declaration whose name is most like a word, if any is like it.
pub(crate) fn nearest<'a, A: Allocator + Copy>(
    alloc: A,
    text: &Text<'a>,
    word: &[u8],
) -> Result<Option<LineName<'a>>, AllocError> {
    let word = letters(alloc, word)?;
    nearest_to(alloc, text, &word)
}

/// The name of the item of a declaration that is most like a word, if any is like it; the first if there are several.
///
/// The only error is out of memory.
pub fn nearest_item<'a, A: Allocator + Copy>(
    alloc: A,
    declaration: &Text<'a>,
    word: &[u8],
) -> Result<Option<&'a [u8]>, AllocError> {
    Ok(match nearest(alloc, declaration, word)? {
        Some(near) => Some(near.name),
        None => None,
    })
}

/// As `nearest`, for a word as it is shown.
fn nearest_to<'a, A: Allocator + Copy>(
    alloc: A,
    text: &Text<'a>,
    word: &str,
) -> Result<Option<LineName<'a>>, AllocError> {
    let mut nearest = None;
    let mut least = usize::MAX;
    for line in text.lines() {
        if let Some(item) = item_on(&line)
            && let Some(edits) = edits_between(alloc, word, item.name)?
            && edits < least
        {
            least = edits;
            nearest = Some(item);
        }
    }
    Ok(nearest)
}
