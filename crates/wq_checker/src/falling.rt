//! Flushes that don't fall: the first of them by place.
//!
//! A plan is safe if each declared flush goes to a workqueue with a lower number; the rule is that of "The command
//! `check`" in docs/FORMAT.md. The search takes time linear in the number of items and flushes, and no memory.

ghost use Rattle.std.specs.Prelude.{◌≡◌, ◌<◌, IfSome, IfNone, length};
ghost use Rattle.wq_groups.specs.Declaration.{declaration_of};
ghost use Rattle.wq_groups.specs.Assignment.{item_lane};
ghost use Rattle.wq_checker.specs.Falling.{AllFall, Falls, IsFirstNotFalling};
ghost use Rattle.wq_checker.specs.Searching.{FindsFirst, OfItem, earlier};

use std::alloc::Allocator;
use wq_groups::{Assignment, Groups, LaneId};
use wq_items::{ItemId, ItemTable, Target};

/// A declared flush: an item, and a target that it declares.
#[derive(Clone, Copy)]
pub(crate) struct DeclaredFlush {
    pub(crate) item: ItemId,
    pub(crate) target: Target,
}

/// The workqueue of an item.
pub(crate) fn lane_of<A: Allocator + Copy>(
    groups: &Groups<A>,
    assignment: &Assignment<A>,
    item: ItemId,
) -> LaneId
    requires assigned { length assignment.now.lane_of_group ≡ groups.now.groups }
    requires item { item < length groups.now.group_of }
    ensures { result ≡ item_lane assignment.now groups.now.group_of item }
{
    assignment.lane(groups.of(item))
}

/// The first flush of an item that doesn't fall.
fn first_of_item<A: Allocator + Copy>(
    table: &ItemTable<'_, A>,
    groups: &Groups<A>,
    assignment: &Assignment<A>,
    item: ItemId,
) -> Option<DeclaredFlush>
    requires grouped { length groups.now.group_of ≡ length table.now.names }
    requires assigned { length assignment.now.lane_of_group ≡ groups.now.groups }
    requires item { item < length table.now.names }
    ensures { FindsFirst (Falls (declaration_of table.now groups.now) assignment.now)
        (OfItem (declaration_of table.now groups.now) item) result }
{
    let _items = table.len();
    let lane = lane_of(groups, assignment, item).get();
    for target in table.waits(item) {
        if lane_of(groups, assignment, target.item).get() >= lane {
            return Some(DeclaredFlush {
                item,
                target: *target,
            });
        }
    }
    None
}

/// The flush with the lower place, if there are two.
pub(crate) fn earlier(
    one: Option<DeclaredFlush>,
    other: Option<DeclaredFlush>,
) -> Option<DeclaredFlush>
    ensures { result ≡ earlier one other }
{
    match (one, other) {
        (Some(a), Some(b)) => {
            if b.target.place < a.target.place {
                other
            } else {
                one
            }
        }
        (Some(_), None) => one,
        (None, _) => other,
    }
}

/// The item and the target of the first declared flush, by place, that doesn't fall.
pub(crate) fn first_not_falling<A: Allocator + Copy>(
    table: &ItemTable<'_, A>,
    groups: &Groups<A>,
    assignment: &Assignment<A>,
) -> Option<(ItemId, ItemId)>
    requires grouped { length groups.now.group_of ≡ length table.now.names }
    requires assigned { length assignment.now.lane_of_group ≡ groups.now.groups }
    ensures some { IfSome result (λ f. IsFirstNotFalling (declaration_of table.now groups.now) assignment.now f.0 f.1) }
    ensures none { IfNone result (AllFall (declaration_of table.now groups.now) assignment.now) }
{
    let mut least = None;
    for number in 0..table.len() {
        let found = first_of_item(table, groups, assignment, ItemId::new(number));
        least = earlier(least, found);
    }
    let DeclaredFlush { item, target } = least?;
    Some((item, target.item))
}
