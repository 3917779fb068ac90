//! Declarations as directives: the second pass over a declaration, line by line.
//!
//! The layer above relies on this: the directives are those of the grammar, each with the number of its line, or else
//! the error is the first fault. The grammar is that of "Directives" in docs/FORMAT.md, a format of this project's own.
//! Making a view takes time linear in the length of the text, and so does going through its directives.
#![tactic(auto)]

mod directive;
mod fault;
mod keyword;
mod known;
pub mod laws;
mod ordered_lines;
mod reading;
mod view;

pub use directive::Directive;
pub use fault::DeclError;
pub use keyword::{Keyword, cut_keyword};
pub use ordered_lines::OrderedLines;
pub use reading::{MAX_NAME, is_name};
pub use view::{DeclView, Directives};
