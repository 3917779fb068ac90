//! Repairs by choosers that are wrong, and by one that is right in another way: what is chosen is checked.
//!
//! Three items are on a workqueue that has a rescuer, and the first flushes the second. So one of the two has to leave.
//! If a choice isn't right, each item is tried in turn: the first and the third stay, and the second leaves. The
//! expected workqueues were worked out by hand from "The first repair" in docs/REPAIR.md.

use crate::declared::{assigned, declared};
use std::alloc::{AllocError, Allocator, Global};
use std::test::Fail;
use wq_choice::{Choice, Chooser};
use wq_core::{Assigned, Workqueues};
use wq_graph::WaitGraph;
use wq_groups::Assignment;
use wq_items::ItemId;
use wq_repair::{Answer, repair_by};

const TEXT: &str = "item a\nitem b\nitem c\nflush a b\n";

/// A chooser that says the same of all declarations: which groups stay, and ranks.
#[derive(Clone, Copy)]
struct Fixed {
    stays: &'static [bool],
    ranks: &'static [u16],
}

impl<A: Allocator + Copy> Chooser<A> for Fixed {
    fn choose(
        &self,
        alloc: A,
        _graph: &WaitGraph<A>,
        _assignment: &Assignment<A>,
        _fixed: &[bool],
        _movable: &[bool],
        _tried: &[bool],
    ) -> Result<Choice<A>, AllocError> {
        let mut stays = Vec::new(alloc);
        stays.extend_from_slice(self.stays)?;
        let mut ranks = Vec::new(alloc);
        ranks.extend_from_slice(self.ranks)?;
        Ok(Choice { stays, ranks })
    }
}

/// What a chooser says, and the workqueue of each item after that.
const CHOSEN: &[(&[bool], &[u16], [u16; 3])] = &[
    // Right: the first stays, or the second.
    (&[true, false, true], &[1, 0, 1], [0, 1, 0]),
    (&[false, true, true], &[1, 0, 0], [1, 0, 0]),
    // Ranks don't fall, aren't those of the workqueue, are too high, too few, or too many.
    (&[false, true, true], &[0, 0, 0], [0, 1, 0]),
    (&[false, true, true], &[0, 1, 1], [0, 1, 0]),
    (&[false, true, true], &[2, 0, 1], [0, 1, 0]),
    (&[false, true, true], &[4096, 0, 0], [0, 1, 0]),
    (&[false, true, true], &[1, 0], [0, 1, 0]),
    (&[false, true, true], &[1, 0, 0, 0], [0, 1, 0]),
    // One that could stay leaves, or all do.
    (&[false, true, false], &[1, 0, 0], [0, 1, 0]),
    (&[false, true], &[1, 0, 0], [0, 1, 0]),
    (&[false, false, false], &[1, 0, 0], [0, 1, 0]),
    (&[], &[], [0, 1, 0]),
    // All stay, which makes a circle.
    (&[true, true, true], &[1, 0, 1], [0, 1, 0]),
    (&[true, true, true], &[0, 0, 0], [0, 1, 0]),
];

/// The workqueue of each item of the text after a repair by a chooser, and whether there is one.
fn lanes_by(alloc: Global, chooser: &Fixed) -> Result<Option<Vec<u16>>, Fail> {
    let declared = declared(alloc, TEXT)?;
    let assignment = assigned(alloc, 1, &[0, 0, 0])?.ok_or("a lane too many")?;
    if assignment.groups() != usize::from(declared.groups.len()) {
        return Err(Fail::from("another number of groups"));
    }
    let workqueues = Workqueues::new(assignment, Vec::new(alloc));
    let assigned = Assigned::new(&declared, &workqueues);
    let mut names = Vec::new(alloc);
    for item in 0..declared.table.len() {
        names.push(ItemId::new(item))?;
    }
    match repair_by(alloc, chooser, &assigned, names.as_slice())? {
        Answer::Repaired(new) => Ok(Some(new.assignment().lanes_of_groups(alloc)?)),
        _ => Ok(None),
    }
}

#[test]
fn a_choice_is_taken_only_if_it_is_right(rt: HostRuntime) -> Result<(), Fail> {
    for (stays, ranks, lanes) in CHOSEN {
        let chooser = Fixed {
            stays: *stays,
            ranks: *ranks,
        };
        let found = lanes_by(rt.alloc(), &chooser)?.ok_or("no repair")?;
        assert!(rt; found.as_slice() == lanes.as_slice(), "{stays:?} {ranks:?}");
    }
    Ok(())
}
