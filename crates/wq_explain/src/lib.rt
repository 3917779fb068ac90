//! What the numbers and the faults that the program prints mean, the words of its answers, and the directives; and the
//! command `explain`.
//!
//! The program relies on this: the bytes written are the explanation that a word names, or the list of all
//! explanations. The numbers, the names and their rules are those of docs/FORMAT.md. It takes time linear in the size
//! of the table and of the text that is printed.
#![tactic(auto)]

mod explain;
pub mod laws;
mod table;
mod words;

pub use explain::{Explained, explain_cmd};
pub use table::{EXPLANATIONS, Explanation};
pub use words::WORDS;
