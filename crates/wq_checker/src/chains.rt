//! Arcs that join: each is a declared flush, and begins in the group in which the one before it ends.
//!
//! The rules are those of "The command `check`" in docs/FORMAT.md. The search takes time linear in the number of arcs
//! and of the flushes that their items declare, and no memory.

ghost use Rattle.std.specs.Prelude.{◌≡◌, ◌<◌, ◌≤◌, ◌↔◌, IsTrue, IfSome, IfNone, length};
ghost use Rattle.std.specs.List.{Any, All};
ghost use Rattle.wq_items.specs.declared.target.Target.{Target};
ghost use Rattle.wq_groups.specs.Declaration.{declaration_of};
ghost use Rattle.wq_groups.specs.Partition.{ShareGroup};
ghost use Rattle.wq_checker.specs.Chains.{Joins, AllJoin, IsFirstBreak, before_from};
ghost use Rattle.wq_checker.specs.Answers.{ArcsOfItems};

use std::alloc::Allocator;
use wq_groups::Groups;
use wq_items::{ItemId, ItemTable, Target};

/// Whether any target is of this item.
pub(crate) fn have_target(targets: &[Target], item: ItemId) -> bool
    ensures { IsTrue result ↔ Any (λ (t : Target). t.item ≡ item) targets.now }
{
    targets.iter().any(|t| t.item == item)
}

/// Whether two items are in one group.
fn share_group<A: Allocator + Copy>(groups: &Groups<A>, one: ItemId, other: ItemId) -> bool
    requires one { one < length groups.now.group_of }
    requires other { other < length groups.now.group_of }
    ensures { IsTrue result ↔ ShareGroup groups.now.group_of one other }
{
    groups.of(one) == groups.of(other)
}

/// Whether an arc joins the one before it, if there is one.
fn joins<A: Allocator + Copy>(
    table: &ItemTable<'_, A>,
    groups: &Groups<A>,
    before: Option<(ItemId, ItemId)>,
    arc: (ItemId, ItemId),
) -> bool
    requires grouped { length groups.now.group_of ≡ length table.now.names }
    requires before { IfSome before (λ b. b.1 < length table.now.names) }
    requires item { arc.0 < length table.now.names }
    ensures { IsTrue result ↔ Joins (declaration_of table.now groups.now) before arc }
{
    have_target(table.waits(arc.0), arc.1)
        && match before {
            Some(before) => share_group(groups, before.1, arc.0),
            None => true,
        }
}

/// The number, counted from 1, of the first arc that doesn't join the one before it. `first` comes before the first
/// arc.
pub(crate) fn first_break<A: Allocator + Copy>(
    table: &ItemTable<'_, A>,
    groups: &Groups<A>,
    first: Option<(ItemId, ItemId)>,
    arcs: &[(ItemId, ItemId)],
) -> Option<u32>
    requires grouped { length groups.now.group_of ≡ length table.now.names }
    requires first { IfSome first (λ b. b.1 < length table.now.waits) }
    requires arcs { ArcsOfItems (declaration_of table.now groups.now) arcs.now }
    requires few { length arcs.now ≤ 4096 }
    ensures some { IfSome result (λ at.
        IsFirstBreak (declaration_of table.now groups.now) (before_from first arcs.now) arcs.now at) }
    ensures none { IfNone result (AllJoin (declaration_of table.now groups.now) (before_from first arcs.now) arcs.now) }
{
    let _items = table.len();
    let mut before = first;
    let mut at = 0;
    for arc in arcs {
        at += 1;
        if !joins(table, groups, before, *arc) {
            return Some(at);
        }
        before = Some(*arc);
    }
    None
}
