//! The parts of a machine, made from a declaration and an assignment.
//!
//! Each part takes memory in the number of what it lists: the items, or the lanes. It takes time in that number, and in
//! the number of groups. An empty list takes no memory.

ghost use Rattle.std.specs.Prelude.{◌≡◌, ◌<◌, ◌≤◌, length, map, replicate, IfOk, OnErr, false};
ghost use Rattle.std.specs.List.{All, range_with_len};
ghost use Rattle.wq_core.specs.Building.{counted_shape, shape_of};

use crate::lane::LaneShape;
use std::alloc::{AllocError, Allocator};
use wq_groups::{Assignment, GroupId, Groups};

/// The shapes of this many lanes that hold no item.
fn empty_shapes<A: Allocator + Copy>(alloc: A, lanes: u16) -> Result<Vec<LaneShape, A>, AllocError>
    ensures shapes { IfOk result (λ shapes. shapes.items ≡ replicate lanes (record { items = 0; ordered = false })) }
    ensures memory { OnErr result (0 < lanes) }
{
    let none = LaneShape {
        items: 0,
        ordered: false,
    };
    let mut shapes = Vec::with_capacity(alloc, usize::from(lanes))?;
    shapes.resize(usize::from(lanes), none)?;
    Ok(shapes)
}

/// How many items are on each lane, in turn. No lane is ordered yet.
fn count_items<A: Allocator + Copy>(
    alloc: A,
    lanes: u16,
    lane_of_item: &[u16],
) -> Result<Vec<LaneShape, A>, AllocError>
    requires few { length lane_of_item.now ≤ 4096 }
    requires within { All (λ l. l < lanes) lane_of_item.now }
    ensures shapes { IfOk result (λ shapes. shapes.items
        ≡ map (counted_shape lane_of_item.now) (range_with_len 0 lanes)) }
    ensures memory { OnErr result (0 < lanes) }
{
    let mut shapes = empty_shapes(alloc, lanes)?;
    for lane in lane_of_item {
        shapes[usize::from(*lane)].items += 1;
    }
    Ok(shapes)
}

/// The shape of each lane, in turn. A lane that holds a group of two or more items is ordered.
pub(crate) fn lane_shapes<A: Allocator + Copy>(
    alloc: A,
    lane_of_item: &[u16],
    groups: &Groups<A>,
    assignment: &Assignment<A>,
) -> Result<Vec<LaneShape, A>, AllocError>
    requires few { length lane_of_item.now ≤ 4096 }
    requires within { All (λ l. l < assignment.now.lanes) lane_of_item.now }
    requires assigned { length assignment.now.lane_of_group ≡ groups.now.groups }
    ensures shapes { IfOk result (λ shapes. shapes.items
        ≡ map (shape_of assignment.now groups.now lane_of_item.now) (range_with_len 0 assignment.now.lanes)) }
    ensures memory { OnErr result (0 < assignment.now.lanes) }
{
    let mut shapes = count_items(alloc, assignment.lanes(), lane_of_item)?;
    for number in 0..groups.len() {
        let group = GroupId::new(number);
        if groups.members(group).len() > 1 {
            shapes[usize::from(assignment.lane(group).get())].ordered = true;
        }
    }
    Ok(shapes)
}
