//! The lines of a text that hold a word.
//!
//! All other lines are skipped, as "Certificates" in docs/FORMAT.md says. Iterating over the lines looks at each byte
//! of the text a fixed number of times, and takes no memory. The lines above the first one that holds a word are
//! skipped only once, however often the view is asked for its lines.

ghost use Rattle.std.specs.Prelude.{◌≡◌};
ghost use Rattle.std.specs.Iterator.{YieldsFirst, item_count};
ghost use Rattle.wq_text.specs.Lines.{lines_of};
ghost use Rattle.wq_cert.specs.Lines.{holds_word, filled};

use std::marker::Model;
use wq_text::{Line, Lines, Text};

/// A text, seen as those of its lines that hold a word. Lines with nothing but blanks and a comment are skipped.
/// Contracts see the list of the other lines.
#[derive(Drop)]
pub struct CertView<'c> {
    /// The lines of the text, from the first one that holds a word.
    lines: Lines<'c>,
}

impl<'c> Model for CertView<'c> {
    ghost use Rattle.std.specs.Prelude.{List};
    ghost use Rattle.wq_text.specs.Lines.{LineView};
    ghost use Rattle.wq_cert.specs.Lines.{filled};

    ghost Value = { List LineView };

    ghost view = { λ v. filled v.lines };
}

impl<'c> CertView<'c> {
    /// The view of a text.
    pub fn new(text: Text<'c>) -> Self
        ensures { result ≡ filled (lines_of text.entry) }
    {
        CertView {
            lines: from_filled(text.lines()),
        }
    }

    /// The lines that hold a word, in order.
    pub fn lines(&self) -> CertLines<'c>
        ensures { result ≡ self.now }
    {
        CertLines {
            lines: self.lines.again(),
        }
    }
}

/// The lines of a view, in order. Contracts see the list of the lines that are left.
#[derive(Drop)]
pub struct CertLines<'c> {
    lines: Lines<'c>,
}

impl<'c> Model for CertLines<'c> {
    ghost use Rattle.std.specs.Prelude.{List};
    ghost use Rattle.wq_text.specs.Lines.{LineView};
    ghost use Rattle.wq_cert.specs.Lines.{filled};

    ghost Value = { List LineView };

    ghost view = { λ l. filled l.lines };
}

/// Whether a line holds a word. Empty lines and comments, of which a text may have millions, are told by their first
/// byte.
fn holds_word(line: &Line<'_>) -> bool
    ensures { result ≡ holds_word line.now }
{
    match line.bytes() {
        [] | [b'#', ..] => false,
        _ => line.words().next().is_some(),
    }
}

/// The lines from the first one that holds a word.
fn from_filled<'c>(lines: Lines<'c>) -> Lines<'c>
    ensures { filled result ≡ filled lines.entry }
{
    let mut from = lines;
    let mut rest = from.again();
    while let Some(line) = rest.next() {
        if holds_word(&line) {
            return from;
        }
        from = rest.again();
    }
    from
}

/// The first line that holds a word. What is left are the lines after it.
fn next_filled<'c>(lines: &mut Lines<'c>) -> Option<Line<'c>>
    ensures { YieldsFirst filled lines.old result lines.new }
{
    while let Some(line) = lines.next() {
        if holds_word(&line) {
            return Some(line);
        }
    }
    None
}

impl<'c> Iterator for CertLines<'c> {
    type Item = Line<'c>;

    ghost next_gives = { YieldsFirst (λ rest. rest) };

    ghost remaining = { item_count (λ rest. rest) };

    fn next(&mut self) -> Option<Line<'c>> {
        next_filled(&mut self.lines)
    }
}
