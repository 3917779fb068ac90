//! What every command line has: the files of a declaration and an assignment, a number of rows, and a number of
//! helpers. A call takes time linear in the number of words.

use std::rt::Env;
use std::{env, io};
use wq_text::number;

/// The files that say what runs, and how many rows and how many helpers there are.
#[derive(Clone, Copy)]
pub struct Setting<'a> {
    pub declaration: &'a str,
    pub assignment: &'a str,
    pub rows: u32,
    pub helpers: u8,
}

/// The words of the command line. The first is the program's name.
pub fn words<R: Env + AllocGlobal>(rt: &R) -> io::Result<Vec<String>> {
    let words = env::args(rt)?.collect(rt.alloc())?;
    Ok(words)
}

/// The words of the command line without the number of helpers at its beginning, and this number; 0 if there is none
/// there. The first word is the program's name. None if a number is missing or above 255.
pub fn without_helpers(words: &[String]) -> Option<(u8, &[String])> {
    match words {
        [_, first, rest @ ..] if first.as_str() == "helpers" => match rest {
            [count, rest @ ..] => {
                let helpers = u8::try_from(number(count.as_bytes())?).ok()?;
                Some((helpers, rest))
            }
            _ => None,
        },
        [_, rest @ ..] => Some((0, rest)),
        _ => None,
    }
}

impl<'a> Setting<'a> {
    /// The files at these paths, the number of rows in this word, and this many helpers; `None` if the word is no
    /// number.
    pub fn parse(
        declaration: &'a str,
        assignment: &'a str,
        rows: &str,
        helpers: u8,
    ) -> Option<Self> {
        Some(Setting {
            declaration,
            assignment,
            rows: number(rows.as_bytes())?,
            helpers,
        })
    }
}
