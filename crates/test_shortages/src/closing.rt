//! Closing a runtime. It takes time in the rows of its history.

use std::alloc::Allocator;
use wq_api::{Closed, Naming, Seat, WqRuntime};

/// Whether a runtime can be closed with these seats, and its counts agree.
pub(crate) fn closes<N: Naming, A: Allocator>(
    runtime: WqRuntime<N, A>,
    seats: Vec<Seat<N, A>, A>,
) -> bool {
    match runtime.close(seats) {
        Ok(Closed { agree, .. }) => agree,
        Err(_) => false,
    }
}
