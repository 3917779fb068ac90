//! What is found in a text that is refused, or to which the checker says no: which bytes are meant, what is wrong with
//! them, and what was most likely meant.
//!
//! A finding consists of words of the texts and of numbers. Which word is meant, and what was most likely meant, is
//! searched for in the text and not promised. The layer above relies on this: each call ends, its only error is out of
//! memory, and a byte and a place are shown as `shown` and `put_place` say. The rows are those of "Diagnoses" in
//! docs/FORMAT.md. A call takes time linear in the length of the text; each word of a line is compared with the names
//! among which it is searched for, an unknown name with each name of the declaration.
#![tactic(auto)]

mod certificate;
mod declaration;
mod excerpt;
mod finding;
mod guess;
mod hint;
mod lack;
mod mending;
mod names;
mod place;
mod placed;
mod quoted;
mod refused;
mod stage;
mod token;
mod what;
mod workqueue;

pub use certificate::in_certificate;
pub use declaration::{in_declaration, in_mended};
pub use excerpt::{Excerpt, Marks};
pub use finding::{Finding, Found};
pub use hint::Hint;
pub use lack::in_answer;
pub use mending::{Mended, Mending};
pub use names::nearest_item;
pub use place::put_place;
pub use quoted::{Quoted, shown};
pub use refused::Refused;
pub use stage::{CertificateKind, Stage};
pub use token::{Mark, has_words, line_at};
pub use what::{Unplaced, What};
pub use workqueue::{Workqueue, flush_at, workqueue_at};
