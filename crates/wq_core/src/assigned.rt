//! A declaration, and workqueues that its groups are on.
//!
//! One value holds both, so that whoever has it knows that each group is on a workqueue. Its functions take constant
//! time.

ghost use Rattle.std.specs.Prelude.{◌≡◌, length};
ghost use Rattle.wq_core.specs.Assigned.{IsAssigned};

use crate::workqueues::Workqueues;
use std::alloc::Allocator;
use std::marker::Model;
use wq_groups::{Declaration, Groups};
use wq_items::ItemTable;

/// What is declared, and workqueues that its groups are on.
#[derive(Drop)]
pub struct Assigned<'t, 'a, A: Allocator> {
    pub declared: &'t Declaration<'a, A>,
    pub workqueues: &'t Workqueues<A>,
}

impl<'t, 'a, A: Allocator> Model for Assigned<'t, 'a, A> {
    ghost use Rattle.wq_core.specs.Assigned.{Assigned as AssignedView, IsAssigned};

    ghost Value = { AssignedView };

    ghost view = { λ a. record { declared = a.declared.now; workqueues = a.workqueues.now } };

    ghost invariant = { λ a. IsAssigned (record { declared = a.declared.now; workqueues = a.workqueues.now }) };
}

impl<'t, 'a, A: Allocator> Assigned<'t, 'a, A> {
    /// These workqueues of the declared groups.
    pub fn new(declared: &'t Declaration<'a, A>, workqueues: &'t Workqueues<A>) -> Self
        requires { length workqueues.now.assignment.lane_of_group ≡ declared.now.partition.groups }
        ensures { result ≡ record { declared = declared.now; workqueues = workqueues.now } }
    {
        // What holds of every declaration and of every assignment.
        let _groups = &declared.groups;
        let _lanes = workqueues.assignment().lanes();
        Assigned {
            declared,
            workqueues,
        }
    }

    /// The declared items with their flushes; and what holds of each value of this type.
    pub fn table(&self) -> &ItemTable<'a, A>
        ensures is { result.now ≡ self.now.declared.table }
        ensures assigned { IsAssigned self.now }
    {
        let declared = self.declared;
        &declared.table
    }

    /// The groups of the declared items; and what holds of each value of this type.
    pub fn groups(&self) -> &Groups<A>
        ensures is { result.now ≡ self.now.declared.partition }
        ensures assigned { IsAssigned self.now }
    {
        let declared = self.declared;
        &declared.groups
    }

    /// The workqueues; and what holds of each value of this type.
    pub fn workqueues(&self) -> &Workqueues<A>
        ensures is { result.now ≡ self.now.workqueues }
        ensures assigned { IsAssigned self.now }
    {
        self.workqueues
    }
}
