//! The command `circles`: all flushes that lie on a circle of workqueues, by components, and those that lead to no
//! rescuer.
//!
//! The layer above relies on this: the bytes written are the answer text to the bytes read. A flush is printed exactly
//! if the workqueue of its target leads to that of its item by way of workqueues that have a rescuer, or if it leads
//! from a workqueue that has a rescuer to one that has none. And `safe` is printed exactly if no run ends stuck. The
//! workqueues, their components and the flushes to no rescuer are one value, `Circling`: the answer is printed from it,
//! and more can be said. The rule is that of "The command `circles`" in docs/FORMAT.md.
//!
//! It takes the time of reading the assignment, of two wait graphs, of two searches through the first one, along the
//! arcs and against them, each in O(vertices + arcs) time and memory, and of writing the answer.
#![tactic(auto)]

mod circles;
mod circling;
mod circling_for;
mod finishing;
mod held;
mod joining;
pub mod laws;
mod lists;
mod printing;
mod progress;
mod together;
mod unsure;
mod walk;

pub use circles::CirclesCommand;
pub use circling::Circling;
pub use circling_for::{CirclesForCommand, CirclingFor};
pub use held::{HeldCircles, held_circles};
pub use joining::components;
pub use unsure::is_unsure;
