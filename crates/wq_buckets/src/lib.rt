//! Buckets: for each key its places in a list, in rising order, or the elements at these places.
//!
//! The layers above rely on this: the buckets are `buckets_of` the list, one for each key. This crate knows nothing of
//! declarations. It sorts by counting, without a comparison; for a list of n places with k keys, making the buckets
//! takes
//!
//!   O(n + k) time and memory.
#![tactic(auto)]

mod buckets;
mod cuts;
mod links;
mod pieces;

pub use buckets::Buckets;
pub use pieces::{Pieces, PiecesBuilder};
