//! The names that several workqueues have.
//!
//! For n workqueues, this takes O(n log n) comparisons of names and O(n) memory, since the names are kept in order.

ghost use Rattle.std.specs.Prelude.{map, IfOk};
ghost use Rattle.wq_dot.specs.Shared.{HasShared};

use std::alloc::{AllocError, Allocator};
use std::collections::BTreeSet;

/// The names that more than one workqueue has.
pub(crate) fn shared_names<'a, A: Allocator + Copy>(
    alloc: A,
    called: &[&'a [u8]],
) -> Result<BTreeSet<&'a [u8], A>, AllocError>
    ensures { IfOk result (HasShared (map (λ n. n.now) called.now)) }
{
    let mut seen = BTreeSet::new(alloc);
    let mut shared = BTreeSet::new(alloc);
    for name in called {
        let is_new = seen.insert(*name)?;
        if !is_new {
            shared.insert(*name)?;
        }
    }
    Ok(shared)
}
