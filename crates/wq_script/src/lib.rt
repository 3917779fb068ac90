//! Scripts: bodies that flush what their items declare, and callers that make the calls of a list.
//!
//! What the layer above relies on: for each run of a body that isn't refused, the seat of its rescuer or helper counts
//! one more wait for an item for each flush of it that the item that ran declares. If the run is refused, the seat
//! counts those of a prefix of these flushes.
#![tactic(auto)]

mod acting;
mod calling;
mod crew;
mod flushing;

pub use acting::Act;
pub use calling::ScriptCaller;
pub use crew::{script_bodies, script_callers};
pub use flushing::ScriptBody;
