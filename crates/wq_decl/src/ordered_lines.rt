//! The `ordered` lines of a declaration, without its other lines.
//!
//! The directives are those of "Directives" in docs/FORMAT.md. The lines have no fault, so nothing is judged again: the
//! keyword tells whether a line is an `ordered` line, and the names on it are left to the caller. Going through them
//! takes time linear in the length of the text.

ghost use Rattle.std.specs.Prelude.{◌≡◌, ◌∷◌, ℕ, List, None, Some, IsOk, length};
ghost use Rattle.std.specs.List.{cons_option};
ghost use Rattle.std.specs.Iterator.{YieldsFirst, item_count};
ghost use Rattle.wq_text.specs.Lines.{LineView};
ghost use Rattle.wq_decl.specs.Reading.{reading, directives, first_fault, ordered_lines};

use crate::keyword::{Keyword, cut_keyword};
use std::marker::Model;
use wq_text::{Line, Lines, Words};

/// The number of a line without a fault and the names on it, if it is an `ordered` line.
fn read_ordered_line<'a>(line: &Line<'a>) -> Option<(u32, Words<'a>)>
    requires { IsOk (reading line.now) }
    ensures { (rest : List LineView)
        → ordered_lines (directives (line.now ∷ rest)) ≡ cons_option result (ordered_lines (directives rest)) }
{
    let (keyword, names) = cut_keyword(line)?;
    match keyword? {
        Keyword::Item
        | Keyword::Flush
        | Keyword::FlushWq
        | Keyword::FlushUnsure
        | Keyword::FlushWqUnsure => None,
        Keyword::Ordered => Some((line.no(), names)),
    }
}

/// The first `ordered` line of some lines, and the lines after it.
fn next_ordered_line<'a>(lines: &mut Lines<'a>) -> Option<(u32, Words<'a>)>
    requires { first_fault lines.old ≡ None }
    ensures steps { YieldsFirst (λ rest. ordered_lines (directives rest)) lines.old result lines.new }
    ensures sound { first_fault lines.new ≡ None }
{
    while let Some(line) = lines.next() {
        let found = read_ordered_line(&line);
        if found.is_some() {
            return found;
        }
    }
    None
}

/// The `ordered` lines of a view, in order, each as its number and the names on it. Contracts see the list of those
/// that are left.
#[derive(Drop)]
pub struct OrderedLines<'a> {
    lines: Lines<'a>,
    /// How many lines are left, if that is known.
    left: Option<u32>,
}

impl<'a> Model for OrderedLines<'a> {
    ghost use Rattle.std.specs.Prelude.{◌≡◌, ℕ, List, None, Some, length};
    ghost use Rattle.wq_text.specs.Words.{WordView};

    ghost Value = { List (ℕ × List WordView) };

    ghost use Rattle.wq_decl.specs.Reading.{directives, first_fault, ordered_lines};

    ghost view = { λ o. ordered_lines (directives o.lines) };

    ghost invariant = { λ o. (first_fault o.lines ≡ None)
        × ((n : ℕ) → o.left ≡ Some n → length (ordered_lines (directives o.lines)) ≡ n) };
}

impl<'a> OrderedLines<'a> {
    /// The `ordered` lines among these lines, which have no fault.
    pub(crate) fn of(lines: Lines<'a>) -> OrderedLines<'a>
        requires { first_fault lines ≡ None }
        ensures { result ≡ ordered_lines (directives lines.entry) }
    {
        OrderedLines { lines, left: None }
    }

    /// The `ordered` lines among these lines, which have no fault. If their `count` is known, no line after the last of
    /// them is looked at.
    pub fn counted(lines: Lines<'a>, count: Option<u32>) -> OrderedLines<'a>
        requires faultless { first_fault lines ≡ None }
        requires count { (n : ℕ) → count ≡ Some n → length (ordered_lines (directives lines)) ≡ n }
        ensures { result ≡ ordered_lines (directives lines.entry) }
    {
        OrderedLines { lines, left: count }
    }

    /// A second iterator over the lines that are left.
    pub fn again(&self) -> OrderedLines<'a>
        ensures { result ≡ self.now }
    {
        OrderedLines {
            lines: self.lines.again(),
            left: self.left,
        }
    }
}

impl<'a> Iterator for OrderedLines<'a> {
    type Item = (u32, Words<'a>);

    ghost next_gives = { YieldsFirst (λ rest. rest) };

    ghost remaining = { item_count (λ rest. rest) };

    fn next(&mut self) -> Option<(u32, Words<'a>)> {
        match self.left {
            Some(0) => return None,
            Some(left) => self.left = Some(left - 1),
            None => {}
        }
        next_ordered_line(&mut self.lines)
    }
}
