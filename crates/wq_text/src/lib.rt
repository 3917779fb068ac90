//! Texts as lines and words, and numbers in them: read without a copy, and printed.
//!
//! The layers above rely on this: each line and each word is the slice of the text at its span, they come in order, and
//! none is left out. A line leaves out its line feed and one CR directly before it, and its words are those before its
//! comment. The rules are those of "Lines, words and numbers" in docs/FORMAT.md, a format of this project's own. Going
//! through the lines and words of a text takes linear time.
//!
//! `put` and the calls beside it print certificates and the answers of commands. Contracts say byte by byte what each
//! call appends. A word may be any bytes; the caller decides which it may hold.
#![tactic(auto)]

pub mod laws;
mod limits;
mod line;
mod numeral;
mod printing;
mod run;
mod span;
mod text;
mod word;

pub use line::{Line, Lines};
pub use numeral::number;
pub use printing::{put, put_count, put_end, put_number, put_word};
pub use span::Span;
pub use text::{Text, TextError};
pub use word::{Word, Words};
