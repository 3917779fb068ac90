//! Who executes what is queued: a rescuer and its helpers for each workqueue, which run
//! the bodies of its items in threads, and threads that meanwhile call the runtime. The
//! code calls a workqueue a lane, and its rescuer and its helpers its contexts.
//!
//! `rescuing` is the loop of one context, `body` and `work` are what it runs, and the other modules start the threads,
//! wait for them, and gather what they hand back.
//!
//! What the layer above relies on: for each item, a context's seat counts as finished what its body ran, or no more
//! than that if the context was refused. If everything was run in threads, that holds of each context's seat, whose
//! body ran items of its own workqueue alone, and the sums are those of the contexts that weren't refused.
#![tactic(auto)]

mod board;
mod body;
mod calling;
mod context_job;
mod contexts;
mod gathering;
mod rescuing;
mod running;
mod space;
mod threads;
mod work;

pub use body::{Body, BodyFault};
pub use calling::Caller;
pub use contexts::{contexts_of, count_contexts};
pub use rescuing::{Rescued, help, rescue, serve};
pub use running::{Ran, RunFault, RunWhy, run_all};
pub use work::Work;
