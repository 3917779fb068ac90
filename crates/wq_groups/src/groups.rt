//! The groups of the items: those that share one ordered workqueue.
//!
//! The rules are those of "Items and groups" in docs/FORMAT.md. An ordered workqueue executes at most one work item at
//! any time, in queued order (Documentation/core-api/workqueue.rst), so any plan has the items of a group on one
//! workqueue. Reading takes time linear in the number of words of the declaration, and memory linear in the number of
//! items. Afterwards each query takes constant time.

ghost use Rattle.std.specs.Prelude.{◌≡◌, ◌<◌, ◌≤◌, length, Ok, IfOk, IfErr, slice_get, slice_index, Some};
ghost use Rattle.wq_items.specs.Building.{table_of};
ghost use Rattle.wq_items.specs.Table.{items_at};
ghost use Rattle.wq_groups.specs.Partition.{IsPartition};
ghost use Rattle.wq_groups.specs.declared.fault.GroupError.TheVariants.{OutOfMemory};
ghost use Rattle.wq_groups.specs.Grouping.{groups_of, IsGroupFaultOf};
ghost use Rattle.wq_groups.specs.OutOfMemory.{RanOutOfGroups};

use crate::fault::GroupError;
use crate::group_id::GroupId;
use crate::members::Members;
use crate::numbering::number;
use crate::reading::first_members;
use std::alloc::{AllocError, Allocator};
use std::marker::Model;
use wq_decl::DeclView;
use wq_items::{ItemId, ItemTable};

/// The groups of a table's items. Contracts see the number of each item's group, and how many groups there are.
#[derive(Drop)]
pub struct Groups<A: Allocator> {
    group_of: Vec<u16, A>,
    members: Members<A>,
}

impl<A: Allocator> Model for Groups<A> {
    ghost use Rattle.std.specs.Prelude.{◌≡◌, length, map};
    ghost use Rattle.std.specs.List.{range_with_len};
    ghost use Rattle.wq_items.specs.Table.{items_at};
    ghost use Rattle.wq_groups.specs.Partition.{Partition, IsPartition};

    ghost Value = { Partition };

    ghost view = { λ g. record { group_of = g.group_of.items; groups = length g.members } };

    ghost invariant = { λ g. IsPartition (record { group_of = g.group_of.items; groups = length g.members })
        × (g.members ≡ map (items_at g.group_of.items) (range_with_len 0 (length g.members))) };
}

impl<A: Allocator + Copy> Groups<A> {
    /// Reads the groups that the directives of a view declare for the items of its table, which was read from this
    /// view.
    ///
    /// The error is `GroupedTwice` (11), with the lowest `ordered` line that has a name twice, or one that is on an
    /// earlier `ordered` line; or `OutOfMemory` (20). No memory is taken before all lines are judged, or if there is no
    /// item.
    pub fn read(alloc: A, view: &DeclView<'_>, table: &ItemTable<'_, A>) -> Result<Self, GroupError>
        requires { table_of view.now ≡ Ok table.now }
        ensures groups { IfOk result (λ g. groups_of view.now table.now.names ≡ Ok g) }
        ensures fault { IfErr result (λ e. IsGroupFaultOf e (groups_of view.now table.now.names)) }
        ensures memory { IfErr result (λ e. e ≡ OutOfMemory → RanOutOfGroups view.now table.now.names) }
    {
        Groups::read_guessed(alloc, view, table, &[])
    }

    /// As `read`, but looks at the `guesses` first: one for each name on an `ordered` line, in turn, as `read_at_once`
    /// returns them. A right guess saves a look-up; a wrong one does no harm.
    pub fn read_guessed(
        alloc: A,
        view: &DeclView<'_>,
        table: &ItemTable<'_, A>,
        guesses: &[ItemId],
    ) -> Result<Self, GroupError>
        requires { table_of view.now ≡ Ok table.now }
        ensures groups { IfOk result (λ g. groups_of view.now table.now.names ≡ Ok g) }
        ensures fault { IfErr result (λ e. IsGroupFaultOf e (groups_of view.now table.now.names)) }
        ensures memory { IfErr result (λ e. e ≡ OutOfMemory → RanOutOfGroups view.now table.now.names) }
    {
        let first = first_members(view, table, guesses)?;
        let (group_of, groups) = number(alloc, first.as_slice())?;
        let members = Members::new(alloc, group_of.as_slice(), groups)?;
        Ok(Groups { group_of, members })
    }

    /// A copy of the groups.
    pub(crate) fn again(&self, alloc: A) -> Result<Self, AllocError>
        ensures { IfOk result (λ groups. groups ≡ self.now) }
    {
        let groups = self.len();
        let group_of = Vec::from_slice(alloc, self.group_of.as_slice())?;
        let members = Members::new(alloc, group_of.as_slice(), groups)?;
        Ok(Groups { group_of, members })
    }

    /// How many groups there are, at most 4,096.
    pub fn len(&self) -> u16
        ensures len { result ≡ self.now.groups }
        ensures few { result ≤ 4096 }
        ensures partition { IsPartition self.now }
    {
        self.members.len() as u16
    }

    /// The number of each item's group, in item order.
    pub fn numbers(&self) -> &[u16]
        ensures numbers { result.now ≡ self.now.group_of }
        ensures partition { IsPartition self.now }
    {
        self.group_of.as_slice()
    }

    /// The group of an item below the number of items.
    pub fn of(&self, item: ItemId) -> GroupId
        requires { item < length self.now.group_of }
        ensures group { slice_get self.now.group_of item ≡ Some result }
        ensures within { result < self.now.groups }
    {
        GroupId::new(self.group_of[usize::from(item.get())])
    }

    /// The items of a group below `len()`, in declaration order. There is at least one.
    pub fn members(&self, group: GroupId) -> &[ItemId]
        requires { group < self.now.groups }
        ensures { result.now ≡ items_at self.now.group_of group }
    {
        self.members.get(group.get())
    }
}
