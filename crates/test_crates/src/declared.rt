//! What the tests declare and assign: from texts and numbers to tables, assignments and machines.
//!
//! The tests take time linear in the lengths of the texts.

ghost use Rattle.std.specs.Prelude.{◌≡◌, ◌≤◌, IfOk};
ghost use Rattle.wq_core.specs.State.{empty_state};

use std::alloc::{AllocError, Allocator};
use std::test::Fail;
use wq_core::Core;
use wq_decl::DeclView;
use wq_groups::{Assignment, Declaration, Groups, LaneId};
use wq_items::ItemTable;
use wq_text::Text;

/// The items that a text declares, and their groups.
pub(crate) fn declared<'a, A: Allocator + Copy>(
    alloc: A,
    text: &'a str,
) -> Result<Declaration<'a, A>, Fail> {
    let text = Text::new(text.as_bytes(), 1_048_576, 4096)?;
    let view = DeclView::new(text)?;
    let table = ItemTable::read(alloc, &view)?;
    let groups = Groups::read(alloc, &view, &table)?;
    Ok(Declaration::new(table, groups))
}

/// The assignment of these lanes, in turn, to the groups, if there is one.
pub(crate) fn assigned<A: Allocator + Copy>(
    alloc: A,
    lanes: u16,
    lane_of_group: &[u16],
) -> Result<Option<Assignment<A>>, AllocError> {
    let mut of_group = Vec::new(alloc);
    for lane in lane_of_group {
        of_group.push(LaneId::new(*lane))?;
    }
    Ok(Assignment::new(lanes, of_group))
}

/// The machine, on a heap, of a declaration and the lane of each group, which are on another heap; with this many
/// helpers for each unordered lane.
pub(crate) fn helped_core_in<A: Allocator + Copy>(
    parts: A,
    heap: A,
    text: &str,
    lanes: u16,
    lane_of_group: &[u16],
    helpers: u8,
) -> Result<Result<Core<A>, AllocError>, Fail>
    requires { helpers ≤ 8 }
    ensures { IfOk result (λ made. IfOk made (λ core. core.state ≡ empty_state core.wiring)) }
{
    let declared = declared(parts, text)?;
    let assignment = assigned(parts, lanes, lane_of_group)?.ok_or("a lane too many")?;
    if assignment.groups() != usize::from(declared.groups.len()) {
        return Err(Fail::from("another number of groups"));
    }
    let Declaration { table, groups } = &declared;
    Ok(Core::with_helpers(heap, table, groups, &assignment, helpers))
}

/// The machine, on a heap, of a declaration and the lane of each group, which are on another heap; without helpers.
pub(crate) fn core_in<A: Allocator + Copy>(
    parts: A,
    heap: A,
    text: &str,
    lanes: u16,
    lane_of_group: &[u16],
) -> Result<Result<Core<A>, AllocError>, Fail>
    ensures { IfOk result (λ made. IfOk made (λ core. core.state ≡ empty_state core.wiring)) }
{
    helped_core_in(parts, heap, text, lanes, lane_of_group, 0)
}
