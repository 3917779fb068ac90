//! The shortest hang of workqueues: a run that ends stuck, such that no run that ends stuck has fewer steps.
//!
//! What the layer above relies on: `Safe` is answered exactly where no run ends stuck, and otherwise a shortest run
//! that does, whatever the number of helpers. The search knows flushes and lanes only: a walk goes from an item to what
//! it flushes, on to an item of the same lane, and so on round, or to a lane without a rescuer. The laws know runs:
//! where a run ends stuck, there is a walk that costs no more than it has steps, and the run of a least walk ends stuck
//! and has as many steps as the walk costs. The rule behind both is that of Documentation/core-api/workqueue.rst,
//! "Guidelines", as for verdicts.
#![tactic(auto)]

mod answer;
mod bare;
mod bounds;
mod hanging;
mod holding;
mod hop;
mod hop_back;
pub mod laws;
pub mod laws_for;
mod least;
mod least_for;
mod marks;
mod needed;
mod numbering;
mod on_lanes;
mod pending;
mod rounds;
mod running;
mod search;
mod settling;
mod waits;
mod ways;
mod wires;

pub use answer::{Answer, Held};
pub use hanging::hang;
pub use holding::held_up;
pub use hop::Hop;
pub use needed::needed_places;
pub use rounds::Rounds;
