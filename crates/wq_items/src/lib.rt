//! The items of a declaration and the flushes that they declare: the third pass.
//!
//! The layer above relies on this: items and waits are those that the directives declare, or else the error is the
//! first fault; and every table keeps the limits and the other properties of `IsTable`. The rules are those of "Items
//! and groups" in docs/FORMAT.md. An item stands for a `struct work_struct`, a flush for `flush_work` in its function,
//! or for `flush_workqueue` if it is of a whole workqueue (Documentation/core-api/workqueue.rst; kernel/workqueue.c).
//! On `ordered` lines, only the names are looked up here.
//!
//! Reading a table takes time linear in the length of the text, on average. Queries take constant time.
#![tactic(auto)]

mod at_once;
pub mod chain_laws;
mod fault;
mod flush;
mod hashing;
pub mod laws;
mod names;
mod readings;
mod short;
mod table;
mod target;
mod waits;

pub use at_once::read_at_once;
pub use fault::ItemError;
pub use table::{ItemTable, MAX_ITEMS};
pub use target::{ItemId, Target};
