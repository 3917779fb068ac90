//! Readers and writers whose calls are counted; reading up to a limit, and writing in full.
//!
//! The commands above rely on this: contracts bound how many calls a device gets, and how many bytes these move, and
//! each fault has its cause. It takes time linear in the number of bytes that are moved.
#![tactic(auto)]

mod fault;
mod input;
mod metered;
mod output;
mod reading;
mod stopped;
mod texts;

pub use fault::Fault;
pub use input::read_text;
pub use metered::Metered;
pub use output::write_text;
pub use reading::read_texts;
pub use stopped::Stopped;
pub use texts::{Limits, Texts};
