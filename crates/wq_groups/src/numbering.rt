//! Numbering the groups in the order of their first-declared members.
//!
//! The order is that of "Items and groups" in docs/FORMAT.md. It takes time and memory linear in the number of items.

ghost use Rattle.std.specs.Prelude.{◌≡◌, ◌<◌, ◌≤◌, length, slice_index, IfOk, IfErr};
ghost use Rattle.wq_groups.specs.Numbering.{AreHeads, headed};

use std::alloc::{AllocError, Allocator};
use wq_items::ItemId;

/// The number of each item's group, and how many groups there are, where `first` has the first-declared item of each
/// item's group.
pub(crate) fn number<A: Allocator + Copy>(
    alloc: A,
    first: &[ItemId],
) -> Result<(Vec<u16, A>, u16), AllocError>
    requires few { length first.now ≤ 4096 }
    requires heads { AreHeads (length first.now) (slice_index first.now) }
    ensures groups { IfOk result (λ r. record { group_of = r.0.items; groups = r.1 }
        ≡ headed (length first.now) (slice_index first.now)) }
    ensures memory { IfErr result (λ _. 0 < length first.now) }
{
    let mut group_of: Vec<u16, A> = Vec::with_capacity(alloc, first.len())?;
    let mut groups = 0;
    for (i, head) in first.iter().enumerate() {
        let head = usize::from(head.get());
        if head == i {
            group_of.push(groups)?;
            groups += 1;
        } else {
            let group = group_of[head];
            group_of.push(group)?;
        }
    }
    Ok((group_of, groups))
}
