//! A declaration as the list of its directives.
//!
//! Making a view looks at each line once, and so does going through its directives or its `ordered` lines. It takes no
//! memory.

ghost use Rattle.std.specs.Prelude.{◌≡◌, ℕ, List, None, Some, IfErr, IfOk};
ghost use Rattle.std.specs.Iterator.{YieldsFirst, item_count};
ghost use Rattle.std.specs.List.{AllByRecursion};
ghost use Rattle.wq_text.specs.Lines.{lines_of};
ghost use Rattle.wq_text.specs.Words.{WordView};
ghost use Rattle.wq_decl.specs.declared.directive.Directive.{Directive};
ghost use Rattle.wq_decl.specs.declared.directive.Directive.TheVariants.{Ordered};
ghost use Rattle.wq_decl.specs.Reading.{directives, first_fault, has_ordered, ordered_lines, HasNames};

use crate::directive::Directive;
use crate::fault::DeclError;
use crate::known::read_known_line;
use crate::ordered_lines::OrderedLines;
use crate::reading::read_line;
use std::marker::Model;
use wq_text::{Lines, Text};

/// A text whose lines are directives. Contracts see the list of these, each with the number of its line.
#[derive(Drop)]
pub struct DeclView<'a> {
    text: Text<'a>,
    /// Whether some line is an `ordered` line.
    orders: bool,
    ordered: OrderedLines<'a>,
}

impl<'a> Model for DeclView<'a> {
    ghost use Rattle.std.specs.Prelude.{◌≡◌, ℕ, List, None};
    ghost use Rattle.wq_text.specs.Lines.{lines_of};
    ghost use Rattle.wq_decl.specs.declared.directive.Directive.{Directive};

    ghost Value = { List (ℕ × Directive) };

    ghost use Rattle.wq_decl.specs.Reading.{directives, first_fault, has_ordered, ordered_lines};

    ghost view = { λ d. directives (lines_of d.text) };

    ghost invariant = { λ d. (first_fault (lines_of d.text) ≡ None)
        × (d.orders ≡ has_ordered (directives (lines_of d.text)))
        × (d.ordered ≡ ordered_lines (directives (lines_of d.text))) };
}

impl<'a> DeclView<'a> {
    /// Reads the directives of a text.
    ///
    /// The error is the first fault, of the lowest line that has one: `BadByte` (3), `UnknownWord` (4), `MissingName`
    /// (5), `ExtraWord` (12) or `BadName` (6), in this order in a line.
    pub fn new(text: Text<'a>) -> Result<DeclView<'a>, DeclError>
        ensures directives { IfOk result (λ view. (view ≡ directives (lines_of text.entry))
            × (first_fault (lines_of text.entry) ≡ None)) }
        ensures fault { IfErr result (λ e. first_fault (lines_of text.entry) ≡ Some e) }
    {
        let mut orders = false;
        for line in text.lines() {
            if let Some(directive) = read_line(&line)? {
                orders = orders || directive.is_ordered();
            }
        }
        let ordered = OrderedLines::of(text.lines());
        Ok(DeclView {
            text,
            orders,
            ordered,
        })
    }

    /// The view of a text without a faulty line, if the caller knows whether there is an `ordered` line, and which
    /// lines these are. Nothing is looked at again.
    pub fn of_ordered(text: Text<'a>, orders: bool, ordered: OrderedLines<'a>) -> DeclView<'a>
        requires faultless { first_fault (lines_of text) ≡ None }
        requires orders { orders ≡ has_ordered (directives (lines_of text)) }
        requires ordered { ordered ≡ ordered_lines (directives (lines_of text)) }
        ensures { result ≡ directives (lines_of text.entry) }
    {
        DeclView {
            text,
            orders,
            ordered,
        }
    }

    /// Whether some line is an `ordered` line.
    pub fn has_ordered(&self) -> bool
        ensures { result ≡ has_ordered self.now }
    {
        self.orders
    }

    /// The directives in order, each with the number of its line.
    pub fn directives(&self) -> Directives<'a>
        ensures value { result ≡ self.now }
        ensures names { AllByRecursion (λ (d : ℕ × Directive). HasNames d.1) self.now }
    {
        Directives {
            lines: self.text.lines(),
        }
    }

    /// The `ordered` lines in order, each as its number and the names on it. At most the first word of any other line
    /// is looked at.
    pub fn ordered_lines(&self) -> OrderedLines<'a>
        ensures value { result ≡ ordered_lines self.now }
        ensures names { AllByRecursion (λ (l : ℕ × List WordView). HasNames (Ordered l.1)) (ordered_lines self.now) }
    {
        self.ordered.again()
    }
}

/// The directives of a view, in order. Contracts see the list of those that are left.
#[derive(Drop)]
pub struct Directives<'a> {
    lines: Lines<'a>,
}

impl<'a> Model for Directives<'a> {
    ghost use Rattle.std.specs.Prelude.{◌≡◌, ℕ, List, None};
    ghost use Rattle.wq_decl.specs.declared.directive.Directive.{Directive};

    ghost Value = { List (ℕ × Directive) };

    ghost use Rattle.wq_decl.specs.Reading.{directives, first_fault};

    ghost view = { λ d. directives d.lines };

    ghost invariant = { λ d. first_fault d.lines ≡ None };
}

/// The first directive of some lines. What is left are the lines after it.
fn next_directive<'a>(lines: &mut Lines<'a>) -> Option<(u32, Directive<'a>)>
    requires { first_fault lines.old ≡ None }
    ensures steps { YieldsFirst directives lines.old result lines.new }
    ensures sound { first_fault lines.new ≡ None }
{
    while let Some(line) = lines.next() {
        if let Some(directive) = read_known_line(&line) {
            return Some((line.no(), directive));
        }
    }
    None
}

impl<'a> Iterator for Directives<'a> {
    type Item = (u32, Directive<'a>);

    ghost next_gives = { YieldsFirst (λ rest. rest) };

    ghost remaining = { item_count (λ rest. rest) };

    fn next(&mut self) -> Option<(u32, Directive<'a>)> {
        next_directive(&mut self.lines)
    }
}
