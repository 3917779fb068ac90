//! What a line of a declaration says.
//!
//! The directives are those of "Directives" in docs/FORMAT.md. Each call takes constant time.

ghost use Rattle.std.specs.Prelude.{◌≡◌};
ghost use Rattle.wq_decl.specs.Reading.{is_ordered};

use wq_text::{Word, Words};

/// A directive of a declaration. Its words are borrowed from the text.
#[derive(Drop)]
pub enum Directive<'a> {
    /// `item NAME`: declares an item.
    Item(Word<'a>),
    /// `flush NAME TARGET..`: the item with this name may flush each of the targets whenever it runs.
    Flush(Word<'a>, Words<'a>),
    /// `flushwq NAME TARGET`: the item with this name may flush the whole workqueue of the target whenever it runs.
    FlushWq(Word<'a>, Word<'a>),
    /// `flush? NAME TARGET`, or `flushwq? NAME TARGET` if the flag is set: it isn't decided whether the item with this
    /// name may flush the target, or its whole workqueue.
    Unsure(Word<'a>, Word<'a>, bool),
    /// `ordered NAME..`: the items with these names share one ordered workqueue.
    Ordered(Words<'a>),
}

impl<'a> Directive<'a> {
    /// Whether this is the directive of an `ordered` line.
    pub fn is_ordered(&self) -> bool
        ensures { result ≡ is_ordered self.now }
    {
        matches!(self, Directive::Ordered(_))
    }
}
