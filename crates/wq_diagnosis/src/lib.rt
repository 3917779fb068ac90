//! Diagnoses: what standard error says, in addition to the refusal, about a text that is refused; about a run with a
//! step that isn't lawful; and about a file that can't be read or written.
//!
//! The layer above relies on this: a diagnosis begins with the file and the line of the refusal, has the number of the
//! refusal on its first line, and is printable ASCII and line feeds, whatever the text holds; and about the first step
//! that isn't lawful, it says a reason that forbids such a step and holds in the state that the steps before it leave.
//! wq_findings decides which word is meant, and what was most likely meant; wq_voice, what is said when. The form is
//! that of "Diagnoses" in docs/FORMAT.md. Each call takes time linear in the length of the texts; an unknown name is
//! compared with each name of the declaration.
#![tactic(auto)]

mod diagnosis;
mod failed;
mod further;
mod layout;
mod reasons;
mod replayed;
mod unlawful;
mod words;

pub use diagnosis::{
    Source, of_lack, of_lack_around, of_no_item, of_refused_around, of_refused_certificate,
    of_refused_declaration, of_refused_fixed, of_too_many,
};
pub use failed::of_failed;
pub use layout::{column, lines_of, place_words, push_excerpt, put_line, put_lines};
pub use replayed::of_unlawful;
pub use unlawful::Unlawful;
pub use words::{item_words, workqueue_of, workqueue_words};
pub use wq_findings::CertificateKind;
