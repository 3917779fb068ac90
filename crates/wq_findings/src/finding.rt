//! What is found: the line and the bytes that are meant, what is wrong with them, and a hint. Each call takes constant
//! time.

use crate::hint::Hint;
use crate::token::{Mark, Token, word_at};
use crate::what::What;
use wq_text::Line;

/// What is wrong, with which bytes of a line, and what was most likely meant.
#[derive(Clone, Copy)]
pub struct Finding<'a> {
    /// The bytes that are meant; `None` if no part of a line is.
    pub mark: Option<Mark>,
    /// What is wrong.
    pub what: What<'a>,
    /// What was most likely meant, or how to mend it.
    pub hint: Hint<'a>,
}

impl<'a> Finding<'a> {
    /// What is wrong with a whole text or a whole line.
    pub fn whole(what: What<'a>) -> Finding<'a> {
        Finding {
            mark: None,
            what,
            hint: Hint::Nothing,
        }
    }

    /// What is wrong with these bytes, with a hint.
    pub(crate) fn marked(mark: Mark, what: What<'a>, hint: Hint<'a>) -> Finding<'a> {
        Finding {
            mark: Some(mark),
            what,
            hint,
        }
    }

    /// What is wrong with the word at this place of a line, with a hint.
    pub(crate) fn at_word(
        line: &Line<'_>,
        place: usize,
        what: What<'a>,
        hint: Hint<'a>,
    ) -> Finding<'a> {
        match word_at(line, place) {
            Some(word) => Finding::marked(word.mark, what, hint),
            None => Finding::whole(what),
        }
    }

    /// The finding that a line is longer than `limit`.
    pub(crate) fn too_long(line: &Line<'a>, limit: usize, what: &'static str) -> Finding<'a> {
        let mark = Mark {
            at: limit,
            len: line.bytes().len().saturating_sub(limit),
        };
        Finding::marked(mark, What::Said(what), Hint::Nothing)
    }

    /// The finding that a word is twice on a line.
    pub(crate) fn twice_on_line(word: Token<'a>) -> Finding<'a> {
        Finding::marked(word.mark, What::TwiceOnLine(word.quoted()), Hint::Nothing)
    }
}

/// What is found in a text, and the line that is meant, if there is one.
#[derive(Drop)]
pub struct Found<'a> {
    /// The line that is meant; `None` if the whole text is.
    pub line: Option<Line<'a>>,
    /// What is found on it, or in the text.
    pub finding: Finding<'a>,
}

impl<'a> Found<'a> {
    /// What is wrong with a whole text.
    pub(crate) fn whole(what: What<'a>) -> Found<'a> {
        Found {
            line: None,
            finding: Finding::whole(what),
        }
    }

    /// What is found on this line.
    pub(crate) fn on(line: Line<'a>, finding: Finding<'a>) -> Found<'a> {
        Found {
            line: Some(line),
            finding,
        }
    }
}
