//! Which item, which lane and which helper a word means. Finding an item takes constant time, on the average.

use std::alloc::Global;
use wq_groups::LaneId;
use wq_items::{ItemId, ItemTable};
use wq_text::number;

/// The item of this name; if there is none, the first number past the items.
pub fn item_of(table: &ItemTable<'_, Global>, name: &[u8]) -> ItemId {
    table.find(name).unwrap_or(ItemId::new(table.len()))
}

/// The lane with the number in these digits, which is at most 65,535.
pub fn lane_of(digits: &[u8]) -> Option<LaneId> {
    let q = u16::try_from(number(digits)?).ok()?;
    Some(LaneId::new(q))
}

/// The helper with the number in these digits, which is at most 255.
pub fn helper_of(digits: &[u8]) -> Option<u8> {
    u8::try_from(number(digits)?).ok()
}
