//! Groups that leave the same lane are kept together, as far as that makes no circle.
//!
//! The groups come by number. The first that leaves a lane is the home of those that leave it; each later one becomes
//! one part with its home, unless one of the two leads to the other. Which vertex leads to which is found for some
//! groups and their homes at a time, as sets of bits, which are kept up to date as parts become one.
//!
//! With g groups that leave a lane together and w waits this takes time in (g + w) * (g / 256 + 1), and in g for each
//! group that is kept with its home.

use crate::bits::{Numbers, is_in};
use crate::parts::{Ordered, Parts};
use crate::vertex_lists::count_one;
use std::alloc::{AllocError, Allocator};
use wq_graph::WaitGraph;
use wq_groups::{GroupId, LaneId};

/// This many groups are looked at together.
const TOGETHER: usize = 256;

/// Those of these groups of whose lane another one leaves.
fn with_others<A: Allocator + Copy>(
    alloc: A,
    lane_of: &[LaneId],
    lanes: usize,
    leaving: &[GroupId],
) -> Result<Vec<GroupId, A>, AllocError> {
    let mut counts = vec![in alloc; 0u32; lanes]?;
    for group in leaving {
        if let Some(lane) = lane_of.get(usize::from(group.get())) {
            count_one(counts.as_mut_slice(), lane.get());
        }
    }
    let mut some = Vec::new(alloc);
    for group in leaving {
        if let Some(lane) = lane_of.get(usize::from(group.get())) {
            if let Some(count) = counts.get(usize::from(lane.get())) {
                if *count > 1 {
                    some.push(*group)?;
                }
            }
        }
    }
    Ok(some)
}

/// Groups that are looked at together: first the homes of their lanes, and then they themselves.
#[derive(Drop)]
struct Together<A: Allocator> {
    vertices: Vec<GroupId, A>,
    /// For each lane the place of its home, if it has one.
    homes: Vec<Option<u16>, A>,
    /// The place of the first group.
    first: u16,
}

/// These groups and the homes of their lanes, if they have one already. `homes` has the home of each lane.
fn beside_homes<A: Allocator + Copy>(
    alloc: A,
    lane_of: &[LaneId],
    homes: &[Option<GroupId>],
    groups: &[GroupId],
) -> Result<Together<A>, AllocError> {
    let mut places: Vec<Option<u16>, A> = vec![in alloc; None; homes.len()]?;
    let mut vertices = Vec::new(alloc);
    let mut first: u16 = 0;
    for group in groups {
        let Some(lane) = lane_of.get(usize::from(group.get())) else {
            continue;
        };
        let Some(Some(home)) = homes.get(usize::from(lane.get())) else {
            continue;
        };
        if let Some(place) = places.get_mut(usize::from(lane.get())) {
            if place.is_none() {
                *place = Some(first);
                vertices.push(*home)?;
                first = first.wrapping_add(1);
            }
        }
    }
    vertices.extend_from_slice(groups)?;
    Ok(Together {
        vertices,
        homes: places,
        first,
    })
}

/// All at these places lead to what only one of the two leads to.
fn lead_to_both<A: Allocator + Copy>(
    leading: &mut [Numbers<A>],
    all: &Numbers<A>,
    home: u16,
    group: u16,
) {
    for set in leading.iter_mut() {
        if set.has(home) != set.has(group) {
            set.insert_all(all);
        }
    }
}

/// The vertices at two places become one, of which neither leads to the other: a group, and its home.
fn merge<A: Allocator + Copy>(
    alloc: A,
    leading: &mut [Numbers<A>],
    home: u16,
    group: u16,
) -> Result<(), AllocError> {
    let mut all = Numbers::none(alloc, leading.len())?;
    for one in [home, group] {
        if let Some(set) = leading.get(usize::from(one)) {
            all.insert_all(set);
        }
    }
    if let Some(set) = leading.get_mut(usize::from(home)) {
        set.insert_all(&all);
    }
    all.insert(home);
    all.insert(group);
    lead_to_both(leading, &all, home, group);
    Ok(())
}

/// Keeps some groups with the homes of their lanes. `homes` has the home of each lane, if it has one, and `waits` the
/// waits of the parts. The answer says whether a group is kept, so that there are other parts now.
fn keep_some<A: Allocator + Copy>(
    alloc: A,
    waits: &Ordered<A>,
    lane_of: &[LaneId],
    homes: &mut [Option<GroupId>],
    parts: &mut Parts<A>,
    groups: &[GroupId],
) -> Result<bool, AllocError> {
    let mut asked = beside_homes(alloc, lane_of, homes, groups)?;
    let mut leading = parts.leading(alloc, waits, asked.vertices.as_slice())?;
    let mut is_kept = false;
    let mut place = asked.first;
    for group in groups {
        let own = place;
        place = place.wrapping_add(1);
        let Some(lane) = lane_of.get(usize::from(group.get())) else {
            continue;
        };
        let lane = usize::from(lane.get());
        match asked.homes.get(lane) {
            Some(Some(home)) => {
                let home = *home;
                if is_in(leading.as_slice(), home, own) || is_in(leading.as_slice(), own, home) {
                    continue;
                }
                merge(alloc, leading.as_mut_slice(), home, own)?;
                if let Some(Some(vertex)) = homes.get(lane) {
                    parts.unite(&[*vertex, *group]);
                    is_kept = true;
                }
            }
            _ => {
                if let Some(home) = asked.homes.get_mut(lane) {
                    *home = Some(own);
                }
                if let Some(home) = homes.get_mut(lane) {
                    *home = Some(*group);
                }
            }
        }
    }
    Ok(is_kept)
}

/// Keeps those of these groups together that leave the same lane, as far as that makes no circle.
pub(crate) fn keep_together<A: Allocator + Copy>(
    alloc: A,
    graph: &WaitGraph<A>,
    lane_of: &[LaneId],
    lanes: usize,
    parts: &mut Parts<A>,
    leaving: &[GroupId],
) -> Result<(), AllocError> {
    let leaving = with_others(alloc, lane_of, lanes, leaving)?;
    let mut homes: Vec<Option<GroupId>, A> = vec![in alloc; None; lanes]?;
    let mut known: Option<Ordered<A>> = None;
    for groups in leaving.chunks(TOGETHER) {
        let waits = match known {
            Some(waits) => waits,
            None => parts.ordered(alloc, graph)?,
        };
        let is_kept = keep_some(alloc, &waits, lane_of, homes.as_mut_slice(), parts, groups)?;
        known = if is_kept { None } else { Some(waits) };
    }
    Ok(())
}
