//! The plan of the largest declaration, compared with one that is found by rounds: each round gives each item a
//! workqueue above those of all that it flushes, until a round changes nothing.
//!
//! The test takes O(flushes * longest chain) time.

use crate::declared::declared;
use crate::groups::assert_lanes;
use std::alloc::{AllocError, Global};
use std::process::Abort;
use std::test::Fail;
use wq_groups::Declaration;
use wq_plan::{Answer, solve};

/// How many items there are, and how many flushes: the limits.
const ITEMS: u16 = 4096;

const FLUSHES: u16 = 16384;

/// A flush: the item that declares it, and the one that is flushed.
type Flush = (u16, u16);

/// As many flushes as may be declared, each by an item, of another item with a higher number.
///
/// The numbers are those of a linear congruential generator, so each run has the same ones.
fn flushes(alloc: Global) -> Result<Vec<Flush>, AllocError> {
    let mut flushes = Vec::with_capacity(alloc, usize::from(FLUSHES))?;
    let mut state = 1u32;
    for _ in 0..FLUSHES {
        state = state.wrapping_mul(1_664_525).wrapping_add(1_013_904_223);
        let item = (state >> 16) as u16 % (ITEMS - 1);
        state = state.wrapping_mul(1_664_525).wrapping_add(1_013_904_223);
        let further = (state >> 16) as u16 % (ITEMS - 1 - item);
        flushes.push((item, item + 1 + further))?;
    }
    Ok(flushes)
}

/// The text that declares the items and these flushes.
fn text(alloc: Global, flushes: &[Flush]) -> Result<String, AllocError> {
    let mut text = String::new(alloc);
    for item in 0..ITEMS {
        writeln!(&mut text, "item i{item}")?;
    }
    for (item, target) in flushes {
        writeln!(&mut text, "flush i{item} i{target}")?;
    }
    Ok(text)
}

/// Makes one round: an item that flushes another one moves above it. Returns whether that changed anything.
fn raise(rt: &impl Abort, lanes: &mut [u16], flushes: &[Flush]) -> bool {
    let mut changed = false;
    for (item, target) in flushes {
        let (item, target) = (usize::from(*item), usize::from(*target));
        assert!(rt; item < lanes.len() && target < lanes.len());
        // No chain is as long as that.
        let least = lanes[target].saturating_add(1);
        if lanes[item] < least {
            lanes[item] = least;
            changed = true;
        }
    }
    changed
}

/// The lane of each item, by rounds. There are at most as many rounds as items.
fn lanes_by_rounds(
    rt: &impl Abort,
    alloc: Global,
    flushes: &[Flush],
) -> Result<Vec<u16>, AllocError> {
    let mut lanes = vec![in alloc; 0; usize::from(ITEMS)]?;
    for _ in 0..ITEMS {
        if !raise(rt, lanes.as_mut_slice(), flushes) {
            break;
        }
    }
    Ok(lanes)
}

/// Asserts that the plan of a declaration has these lanes, and a chain through all of them.
fn assert_plan(
    rt: &impl Abort,
    alloc: Global,
    declared: &Declaration<Global>,
    lanes: &[u16],
) -> Result<(), AllocError> {
    match solve(alloc, &declared.table, &declared.groups)? {
        Answer::Plan { assignment, chain } => {
            assert_lanes(rt, &assignment, lanes);
            assert!(rt; lanes.iter().max().map(|most| usize::from(*most)) == Some(chain.len()));
        }
        Answer::Circle { arcs } => assert!(rt; arcs.is_empty()),
    }
    Ok(())
}

/// Asserts that the plan of these flushes is the one that is found by rounds.
fn assert_rounds(
    rt: &impl Abort,
    alloc: Global,
    flushes: &[Flush],
    text: &str,
) -> Result<(), Fail> {
    let lanes = lanes_by_rounds(rt, alloc, flushes)?;
    let declared = declared(alloc, text)?;
    let planned = assert_plan(rt, alloc, &declared, &lanes);
    drop(declared);
    Ok(planned?)
}

#[test]
fn the_largest_plan_is_the_one_of_rounds(rt: HostRuntime) -> Result<(), Fail> {
    let flushes = flushes(rt.alloc())?;
    let text = text(rt.alloc(), &flushes)?;
    assert_rounds(&rt, rt.alloc(), &flushes, &text)
}
