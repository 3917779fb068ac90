//! The command `dot`: a drawing of a plan, or of workqueues with the flushes that lie on a circle or lead to no
//! rescuer.
//!
//! The layer above relies on this: the bytes written are the drawing of the bytes read, or their refusal. A drawing is
//! that of the plan, with the flushes of the chain marked; or that of workqueues, with the flushes marked that lie on a
//! circle or lead to a workqueue without a rescuer, and among these the waits of a shortest run that ends stuck. The
//! text for Graphviz is the definition `drawing_text` of the items, the groups, the workqueues and their names, the
//! title, and the looks and comments of the flushes, byte by byte. Beside it, only a refusal is said, or that no item
//! is declared. The rule is that of "The command `dot`" in docs/FORMAT.md.
//!
//! It takes the time of reading the assignment, of the plan, of the components, of the search for a shortest run, of
//! the drawing, and of writing it. A drawing takes time and memory linear in the number of items, groups, workqueues
//! and flushes and in the length of its text, and sorts the names of the workqueues.
#![tactic(auto)]

mod arrow;
mod comments;
mod dot;
mod dotting;
mod drawing;
mod flushes;
mod group;
mod head;
mod label;
pub mod laws;
mod look;
mod saying;
mod shared;
mod shortest;
mod titles;
mod tooltip;
mod workqueue;

pub use dot::DotCommand;
pub use dotting::Drawn;
pub use drawing::drawing_text;
pub use look::FlushLook;
