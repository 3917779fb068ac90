//! The lanes to which a second repair gives a rescuer, too.
//!
//! A repair gives a lane a rescuer only if all groups on it need one. If two or more of them do, and all that are on it
//! wait only for such groups, one rescuer may be fewer changes than a move of each. This takes time in the number of
//! groups, lanes and waits.

use std::alloc::{AllocError, Allocator};
use wq_graph::{WaitArc, WaitGraph};
use wq_groups::Assignment;

/// Which groups are on a lane.
#[derive(Clone, Copy)]
struct OnLane {
    /// How many groups need a rescuer, up to 2.
    needing: u8,
    /// Whether a group needs none.
    has_other: bool,
    /// Whether all groups wait only for those that need one.
    is_closed: bool,
}

/// Whether these arcs lead only to groups that need a rescuer.
fn lead_to(arcs: &[WaitArc], needed: &[bool]) -> bool {
    arcs.iter().all(|arc| match needed.get(usize::from(arc.head)) {
        Some(is_needed) => *is_needed,
        None => false,
    })
}

/// Of the lanes that may be given a rescuer, those on which two or more groups need one (`needed`) and another doesn't,
/// and whose groups all wait only for groups that need one.
pub fn shared_lanes<A: Allocator + Copy>(
    alloc: A,
    graph: &WaitGraph<A>,
    assignment: &Assignment<A>,
    mut lanes: Vec<bool, A>,
    needed: &[bool],
) -> Result<Vec<bool, A>, AllocError> {
    let none = OnLane {
        needing: 0,
        has_other: false,
        is_closed: true,
    };
    let lane_of = assignment.lanes_of_groups(alloc)?;
    let mut groups_on = vec![in alloc; none; lanes.len()]?;
    let mut group: u16 = 0;
    for (lane, is_needed) in lane_of.iter().zip(needed.iter()) {
        let is_closed = group < graph.vertices() && lead_to(graph.arcs(group), needed);
        group = group.wrapping_add(1);
        let Some(on) = groups_on.get_mut(usize::from(*lane)) else {
            continue;
        };
        if !is_closed {
            on.is_closed = false;
        }
        if !*is_needed {
            on.has_other = true;
        } else if on.needing < 2 {
            on.needing += 1;
        }
    }
    for (is_shared, on) in lanes.iter_mut().zip(groups_on.iter()) {
        *is_shared = *is_shared && on.needing == 2 && on.has_other && on.is_closed;
    }
    Ok(lanes)
}
