//! Arcs as they are printed: each as an item and the target of its flush.
//!
//! A call takes time and memory linear in the number of arcs.

ghost use Rattle.std.specs.Prelude.{◌≡◌, map, IfOk};
ghost use Rattle.wq_commands.specs.Answer.{ends_of};

use std::alloc::{AllocError, Allocator};
use wq_graph::WaitArc;
use wq_items::ItemId;

/// The item and the target of each arc.
pub fn ends_of<A: Allocator + Copy>(
    alloc: A,
    arcs: &[WaitArc],
) -> Result<Vec<(ItemId, ItemId), A>, AllocError>
    ensures { IfOk result (λ ends. ends.items ≡ map ends_of arcs.now) }
{
    let mut ends = Vec::new(alloc);
    for arc in arcs {
        ends.push((arc.src, arc.dst))?;
    }
    Ok(ends)
}
