//! Wait graphs and their ranks, which answers show only in part.
//!
//! The arcs and the circles are those of "Items and groups" and "Circle texts" in docs/FORMAT.md. The tests take time
//! linear in the lengths of the texts.

use crate::declared::{assigned, declared};
use std::alloc::{AllocError, Global};
use std::process::Abort;
use std::test::Fail;
use wq_deadlock::{Verdict, verdict};
use wq_graph::{WaitArc, WaitGraph};
use wq_groups::{Assignment, Declaration};
use wq_levels::{Ranked, rank};

/// An arc in numbers: its item, its target, the group of the target, and its place.
type Numbers = (u16, u16, u16, u32);

/// Asserts the numbers of arcs.
fn assert_arcs(rt: &impl Abort, text: &str, arcs: &[WaitArc], want: &[Numbers]) {
    assert!(rt; arcs.len() == want.len(), "{text}");
    for (arc, numbers) in arcs.iter().zip(want) {
        let is = (arc.src.get(), arc.dst.get(), arc.head, arc.place);
        assert!(rt; is == *numbers, "{text}");
    }
}

/// Texts, and the arcs that leave each of their groups, in turn.
const GRAPHS: &[(&str, &[&[Numbers]])] = &[
    ("", &[]),
    ("item a\nitem b\n", &[&[], &[]]),
    (
        "item a\nitem b\nitem c\nflush b c a\nflush a b\nflush b c\n",
        &[
            &[(0, 1, 1, 2)],
            &[(1, 2, 2, 0), (1, 0, 0, 1), (1, 2, 2, 3)],
            &[],
        ],
    ),
    // The arcs of all members of a group, in order of place.
    (
        "item a\nitem b\nitem c\nitem d\nflush d b\nflush b d\nflush a c d\nordered c a\nflush c a\n",
        &[
            &[(0, 2, 0, 2), (0, 3, 2, 3), (2, 0, 0, 4)],
            &[(1, 3, 2, 1)],
            &[(3, 1, 1, 0)],
        ],
    ),
    (
        "item a\nitem b\nitem c\nitem d\nordered d b\nflush d a\nflush b c\nflush d b\n",
        &[&[], &[(3, 0, 0, 0), (1, 2, 2, 1), (3, 1, 1, 2)], &[]],
    ),
];

/// The wait graph of the groups that a text declares.
fn graph_of(alloc: Global, text: &str) -> Result<WaitGraph<Global>, Fail> {
    let declared = declared(alloc, text)?;
    let graph = WaitGraph::of_groups(alloc, &declared.table, &declared.groups);
    drop(declared);
    Ok(graph?)
}

/// Asserts the arcs that leave each group, in turn.
fn assert_graph(rt: &impl Abort, text: &str, graph: &WaitGraph<Global>, want: &[&[Numbers]]) {
    assert!(rt; usize::from(graph.vertices()) == want.len(), "{text}");
    for vertex in 0..graph.vertices() {
        let arcs = want.get(usize::from(vertex)).expect(rt, "a group too many");
        assert_arcs(rt, text, graph.arcs(vertex), arcs);
    }
}

#[test]
fn graphs_have_their_arcs(rt: HostRuntime) -> Result<(), Fail> {
    for (text, want) in GRAPHS {
        let graph = graph_of(rt.alloc(), text)?;
        assert_graph(&rt, text, &graph, want);
    }
    Ok(())
}

/// Texts, and the ranks of their groups; or no ranks, and the arcs of a circle.
const RANKED: &[(&str, &[u16], &[Numbers])] = &[
    ("", &[], &[]),
    ("item a\nitem b\n", &[0, 0], &[]),
    (
        "item a\nitem b\nitem c\nflush a c b\nflush b c\n",
        &[2, 1, 0],
        &[],
    ),
    (
        "item a\nitem b\nitem c\nitem d\nordered b c\nflush a b\nflush c d\n",
        &[2, 1, 0],
        &[],
    ),
    (
        "item a\nitem b\nitem c\nitem d\nordered d a\nflush b c\nflush d c\n",
        &[1, 1, 0],
        &[],
    ),
    ("item a\nflush a a\n", &[], &[(0, 0, 0, 0)]),
    // What leads to a circle is left out.
    (
        "item a\nitem b\nitem c\nitem d\nflush a d b\nflush b c\nflush c b\n",
        &[],
        &[(1, 2, 2, 2), (2, 1, 1, 3)],
    ),
    (
        "item a\nitem b\nitem c\nitem d\nordered b d\nflush a b\nflush d c\nflush c b\n",
        &[],
        &[(3, 2, 2, 1), (2, 1, 1, 2)],
    ),
];

/// The ranks or the circle of what a text declares.
fn ranked_of(alloc: Global, text: &str) -> Result<Ranked<Global>, Fail> {
    let graph = graph_of(alloc, text)?;
    let ranked = rank(alloc, &graph);
    drop(graph);
    Ok(ranked?)
}

/// Asserts the ranks of a graph, or its circle.
fn assert_ranked(
    rt: &impl Abort,
    text: &str,
    ranked: &Ranked<Global>,
    ranks: &[u16],
    arcs: &[Numbers],
) {
    match ranked {
        Ranked::Ranks(is) => assert!(rt; is.as_slice() == ranks, "{text}"),
        Ranked::Circle(circle) => assert_arcs(rt, text, circle, arcs),
    }
}

#[test]
fn graphs_have_ranks_or_a_circle(rt: HostRuntime) -> Result<(), Fail> {
    for (text, ranks, arcs) in RANKED {
        let ranked = ranked_of(rt.alloc(), text)?;
        assert_ranked(&rt, text, &ranked, ranks, arcs);
    }
    Ok(())
}

/// A declaration, a safe assignment of it, as its number of lanes and the lane of
/// each group, and the ranks of the lanes.
const SAFE: &[(&str, u16, &[u16], &[u16])] = &[
    ("", 0, &[], &[]),
    (
        "item a\nitem b\nitem c\nitem d\nflush a b\nflush c d\n",
        2,
        &[1, 0, 1, 0],
        &[0, 1],
    ),
    // Lanes without an item have rank 0.
    (
        "item a\nitem b\nitem c\nflush a b\nflush b c\n",
        5,
        &[2, 1, 4],
        &[0, 1, 2, 0, 0],
    ),
];

/// The ranks of lanes under an assignment; none if it isn't safe, or has other groups.
fn ranks_under(
    alloc: Global,
    declared: &Declaration<Global>,
    assignment: &Assignment<Global>,
) -> Result<Option<Vec<u16>>, AllocError> {
    let Declaration { table, groups } = declared;
    if assignment.groups() != usize::from(groups.len()) {
        return Ok(None);
    }
    match verdict(alloc, table, groups, assignment)? {
        Verdict::Safe(ranks) => Ok(Some(ranks)),
        Verdict::Deadlock(_) => Ok(None),
    }
}

/// The ranks of the lanes of these groups, if they are safe.
fn ranks_of(
    alloc: Global,
    text: &str,
    lanes: u16,
    lane_of_group: &[u16],
) -> Result<Option<Vec<u16>>, Fail> {
    let assignment = assigned(alloc, lanes, lane_of_group)?.ok_or("a lane too many")?;
    let declared = declared(alloc, text)?;
    let ranks = ranks_under(alloc, &declared, &assignment);
    drop(declared);
    Ok(ranks?)
}

#[test]
fn safe_lanes_have_ranks(rt: HostRuntime) -> Result<(), Fail> {
    for (text, lanes, lane_of_group, want) in SAFE {
        let ranks = ranks_of(rt.alloc(), text, *lanes, lane_of_group)?.ok_or("no ranks")?;
        assert!(rt; ranks.as_slice() == *want, "{text}");
    }
    Ok(())
}
