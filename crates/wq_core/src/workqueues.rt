//! Workqueues, some of which may have no rescuer.
//!
//! An assignment puts groups on workqueues with WQ_MEM_RECLAIM. A kernel has others, too, as `system_wq`: nobody
//! promises that a worker runs their items while memory is short (Documentation/core-api/workqueue.rst,
//! "WQ_MEM_RECLAIM"). Their lanes are bare.

ghost use Rattle.std.specs.Prelude.{◌≡◌, ◌<◌, ◌≤◌, ◌↔◌, length, slice_index_or, false, IfOk, OnErr, IsTrue};

use std::alloc::{AllocError, Allocator};
use std::marker::Model;
use wq_groups::{Assignment, LaneId};

/// Which workqueue serves each group, and which workqueues have no rescuer.
#[derive(Drop)]
pub struct Workqueues<A: Allocator> {
    assignment: Assignment<A>,
    bare: Vec<bool, A>,
}

impl<A: Allocator> Model for Workqueues<A> {
    ghost use Rattle.std.specs.Prelude.{◌≤◌, length};
    ghost use Rattle.wq_core.specs.Workqueues.{Workqueues as WorkqueuesView};

    ghost Value = { WorkqueuesView };

    ghost view = { λ ws. record { assignment = ws.assignment; bare = ws.bare.items } };

    ghost invariant = { λ ws. length ws.bare.items ≤ ws.assignment.lanes };
}

impl<A: Allocator> Workqueues<A> {
    /// The workqueues of an assignment, of which those are bare whose place in the list says so.
    pub fn new(assignment: Assignment<A>, bare: Vec<bool, A>) -> Self
        requires { length bare.items ≤ assignment.lanes }
        ensures { result ≡ record { assignment = assignment; bare = bare.items } }
    {
        Workqueues { assignment, bare }
    }

    /// Which workqueue serves each group.
    pub fn assignment(&self) -> &Assignment<A>
        ensures { result.now ≡ self.now.assignment }
    {
        &self.assignment
    }

    /// For each workqueue in turn whether it has no rescuer. Those past the end of the list have one.
    pub fn bare(&self) -> &[bool]
        ensures { result.now ≡ self.now.bare }
    {
        self.bare.as_slice()
    }

    /// Whether a workqueue has no rescuer.
    pub fn is_bare(&self, q: LaneId) -> bool
        ensures { result ≡ slice_index_or self.now.bare q false }
    {
        match self.bare.get(usize::from(q.get())) {
            Some(is_bare) => *is_bare,
            None => false,
        }
    }
}

impl<A: Allocator + Copy> Workqueues<A> {
    /// A copy of the list that says for each workqueue whether it is bare.
    pub(crate) fn bare_lanes(&self, alloc: A) -> Result<Vec<bool, A>, AllocError>
        ensures bare { IfOk result (λ bare. bare.items ≡ self.now.bare) }
        ensures memory { OnErr result (0 < self.now.assignment.lanes) }
    {
        let mut bare = Vec::with_capacity(alloc, self.bare.len())?;
        bare.extend_from_slice(self.bare.as_slice())?;
        Ok(bare)
    }
}
