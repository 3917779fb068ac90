//! Items, groups and assignments: names, places and members, which answers show only in part.
//!
//! The numbers are those of "Items and groups" in docs/FORMAT.md. The tests take time linear in the lengths of the
//! texts.

ghost use Rattle.std.specs.Prelude.{◌≡◌, ◌<◌, length};

use crate::declared::{assigned, declared};
use std::alloc::Global;
use std::process::Abort;
use std::test::Fail;
use wq_groups::{Assignment, GroupId, Groups};
use wq_items::{ItemId, ItemTable};

/// A declaration of three items.
const TEXT: &str = "item c\nitem  a\n\nflush c a c\nitem b\nordered b a\nflush b a\nflush c a";

/// For each item in turn: its name, where it is, and the target and the place of each of its flushes.
const ITEMS: &[(&[u8], (u32, u32), &[(u16, u32)])] = &[
    (b"c", (5, 6), &[(1, 0), (0, 1), (1, 3)]),
    (b"a", (13, 14), &[]),
    (b"b", (33, 34), &[(1, 2)]),
];

/// Asserts the name of an item, where it is, and its flushes.
fn assert_item(
    rt: &impl Abort,
    table: &ItemTable<'_, Global>,
    item: ItemId,
    name: &[u8],
    place: (u32, u32),
    flushes: &[(u16, u32)],
)
    requires { item < length table.now.names }
{
    let span = table.span(item);
    assert!(rt;
        table.name(item) == name && (span.start, span.end) == place,
        "{name:?}"
    );
    assert!(rt; table.waits(item).len() == flushes.len(), "{name:?}");
    for (target, flush) in table.waits(item).iter().zip(flushes) {
        assert!(rt; (target.item.get(), target.place) == *flush, "{name:?}");
    }
}

/// Asserts the items of a table.
fn assert_items(rt: &impl Abort, table: &ItemTable<'_, Global>) {
    assert!(rt; table.len() == 3 && !table.is_empty() && table.flushes() == 4);
    for (name, place, flushes) in ITEMS {
        let item = table.find(name).expect(rt, "no such item");
        assert_item(rt, table, item, name, *place, flushes);
    }
    for name in [b"d".as_slice(), b"", b"C", b"cc", b"item"] {
        assert!(rt; table.find(name).is_none(), "{name:?}");
    }
}

#[test]
fn items_and_flushes_keep_their_places(rt: HostRuntime) -> Result<(), Fail> {
    let declared = declared(rt.alloc(), TEXT)?;
    assert_items(&rt, &declared.table);
    Ok(())
}

/// Texts, and each group in turn with each of its items.
const GROUPS: &[(&str, &[(u16, u16)])] = &[
    ("", &[]),
    ("item a\nitem b\n", &[(0, 0), (1, 1)]),
    (
        "item a\nitem b\nitem c\nordered c a\n",
        &[(0, 0), (0, 2), (1, 1)],
    ),
    ("item a\nitem b\nordered b\nordered a\n", &[(0, 0), (1, 1)]),
    (
        "item a\nitem b\nitem c\nitem d\nordered d b\nflush c a\nflush d a\n",
        &[(0, 0), (1, 1), (1, 3), (2, 2)],
    ),
    (
        "item a\nitem b\nitem c\nitem d\nordered d c\nitem e\nordered e a\n",
        &[(0, 0), (0, 4), (1, 1), (2, 2), (2, 3)],
    ),
    (
        "item c\nitem b\nitem a\nordered a c b\n",
        &[(0, 0), (0, 1), (0, 2)],
    ),
];

/// Asserts the items of each group, and the group of each item.
fn assert_groups(
    rt: &impl Abort,
    table: &ItemTable<'_, Global>,
    groups: &Groups<Global>,
    members: &[(u16, u16)],
)
    requires { length groups.now.group_of ≡ length table.now.names }
{
    let mut members = members.iter();
    for group in 0..groups.len() {
        for item in groups.members(GroupId::new(group)) {
            assert!(rt; members.next() == Some(&(group, item.get())));
            assert!(rt; item.get() < table.len() && groups.of(*item).get() == group);
        }
    }
    assert!(rt; members.next().is_none());
}

#[test]
fn items_have_their_groups(rt: HostRuntime) -> Result<(), Fail> {
    for (text, members) in GROUPS {
        let declared = declared(rt.alloc(), text)?;
        assert_groups(&rt, &declared.table, &declared.groups, members);
    }
    Ok(())
}

/// A number of lanes, the lane of each group in turn, and whether there is such an assignment.
const LANES: &[(u16, &[u16], bool)] = &[
    (0, &[], true),
    (0, &[0], false),
    (1, &[], true),
    (1, &[0, 0], true),
    (1, &[0, 1], false),
    (3, &[2, 0, 2], true),
    (3, &[3, 0, 2], false),
    (3, &[2, 0, 3], false),
    (4096, &[4095, 0], true),
    (4096, &[4095, 4096], false),
    (4097, &[], false),
    (4097, &[0], false),
    (65_535, &[65_534], false),
];

/// Asserts the lane of each group in turn.
pub(crate) fn assert_lanes(rt: &impl Abort, assignment: &Assignment<Global>, lanes: &[u16]) {
    assert!(rt; assignment.groups() == lanes.len());
    for (i, lane) in lanes.iter().enumerate() {
        let group = GroupId::new(u16::try_from(i).expect(rt, "a group too many"));
        assert!(rt; assignment.lane(group).get() == *lane, "group {i}");
    }
}

#[test]
fn assignments_have_their_lanes(rt: HostRuntime) -> Result<(), Fail> {
    for (lanes, of_group, is_one) in LANES {
        match assigned(rt.alloc(), *lanes, of_group)? {
            Some(assignment) => {
                assert!(rt; *is_one && assignment.lanes() == *lanes, "{lanes}");
                assert_lanes(&rt, &assignment, of_group);
            }
            None => assert!(rt; !*is_one, "{lanes}"),
        }
    }
    Ok(())
}
