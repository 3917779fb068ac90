//! Whether the flush of an arc is unsure.
//!
//! The flushes of an item are in order of place, so the one at a place is found by binary search, in O(log n) time for
//! n flushes.

ghost use Rattle.std.specs.Prelude.{◌≡◌, ◌<◌, length};
ghost use Rattle.wq_circles.specs.ComponentsText.{is_unsure_arc};

use std::alloc::Allocator;
use wq_graph::WaitArc;
use wq_items::ItemTable;

/// Whether a flush that is declared in this table is unsure.
pub fn is_unsure<A: Allocator + Copy>(table: &ItemTable<'_, A>, flush: WaitArc) -> bool
    requires { flush.src < length table.now.names }
    ensures { result ≡ is_unsure_arc table.now.waits flush }
{
    // What holds for every table.
    let _items = table.len();
    let targets = table.waits(flush.src);
    match targets.binary_search_by_key(&flush.place, |target| target.place) {
        Ok(at) => targets[at].unsure,
        Err(_) => false,
    }
}
