//! A line without a fault, as a directive.
//!
//! Nothing is judged again: the keyword tells which directive the line holds, and the words after it are known to be
//! names. So it looks at no more than three words of a line, at each byte once.

ghost use Rattle.std.specs.Prelude.{◌≡◌, ℕ, Ok, IsOk};
ghost use Rattle.wq_decl.specs.Reading.{reading_after, reading};

use crate::directive::Directive;
use crate::keyword::{Keyword, cut_keyword};
use wq_text::{Line, Words};

/// What the words after the keyword say, if they have no fault.
fn read_known_after<'a>(keyword: Option<Keyword>, mut words: Words<'a>) -> Option<Directive<'a>>
    ensures { (n : ℕ) → IsOk (reading_after keyword n words.entry) → reading_after keyword n words.entry ≡ Ok result }
{
    match keyword? {
        Keyword::Item => Some(Directive::Item(words.next()?)),
        Keyword::Flush => {
            let name = words.next()?;
            Some(Directive::Flush(name, words))
        }
        Keyword::FlushWq => Some(Directive::FlushWq(words.next()?, words.next()?)),
        Keyword::FlushUnsure => Some(Directive::Unsure(words.next()?, words.next()?, false)),
        Keyword::FlushWqUnsure => Some(Directive::Unsure(words.next()?, words.next()?, true)),
        Keyword::Ordered => Some(Directive::Ordered(words)),
    }
}

/// What a line without a fault says: a directive, or `None` if no word comes before its comment.
pub(crate) fn read_known_line<'a>(line: &Line<'a>) -> Option<Directive<'a>>
    requires { IsOk (reading line.now) }
    ensures { reading line.now ≡ Ok result }
{
    let (keyword, words) = cut_keyword(line)?;
    read_known_after(keyword, words)
}
