//! What is declared: items with their flushes, and the groups of these items.
//!
//! One value holds both, so each item is known to be in a group. `new` takes constant time.

ghost use Rattle.std.specs.Prelude.{◌≡◌, length, IfOk};
ghost use Rattle.wq_groups.specs.DeclaredGroups.{reading_with_names};

use crate::groups::Groups;
use std::alloc::{AllocError, Allocator};
use std::marker::Model;
use wq_items::ItemTable;

/// What a text declares: its items with their flushes, and the groups of these items.
#[derive(Drop)]
pub struct Declaration<'a, A: Allocator> {
    pub table: ItemTable<'a, A>,
    pub groups: Groups<A>,
}

impl<'a, A: Allocator> Model for Declaration<'a, A> {
    ghost use Rattle.wq_groups.specs.DeclaredGroups.{Declared, IsSound};

    ghost Value = { Declared };

    ghost view = { λ d. record { table = d.table; partition = d.groups } };

    ghost invariant = { λ d. IsSound (record { table = d.table; partition = d.groups }) };
}

impl<'a, A: Allocator + Copy> Declaration<'a, A> {
    /// Joins a table of items and their groups.
    pub fn new(table: ItemTable<'a, A>, groups: Groups<A>) -> Self
        requires { length groups.group_of ≡ length table.names }
        ensures { result ≡ record { table = table.entry; partition = groups } }
    {
        // What holds for every table and its groups.
        let _items = table.len();
        let _groups = groups.len();
        Declaration { table, groups }
    }

    /// What is declared in the reading that keeps the unsure flushes at the places `kept`. Any other place is ignored.
    /// With k places, it takes
    ///
    ///   O(items + flushes + k) time and O(items + flushes) memory.
    pub fn reading(&self, alloc: A, kept: &[u32]) -> Result<Self, AllocError>
        ensures { IfOk result (λ d. d ≡ reading_with_names self.now kept.now) }
    {
        let table = self.table.reading(alloc, kept)?;
        let groups = self.groups.again(alloc)?;
        Ok(Declaration::new(table, groups))
    }
}
