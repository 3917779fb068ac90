//! Reading workqueues that stay as they are: an assignment in which items may be missing.
//!
//! The rules are those of "Planning around workqueues" in docs/FORMAT.md. Reading takes the time and the memory of
//! reading an assignment.

ghost use Rattle.std.specs.Prelude.{◌≡◌, length, map, Ok, IfOk, IfErr};
ghost use Rattle.wq_cert.specs.FixedReading.{fixed_lines_reading, fixed_of_text, fixed_plan_reading};
ghost use Rattle.wq_cert.specs.Lines.{cert_line};
ghost use Rattle.wq_cert.specs.Texts.{IsCertFaultOf};

use crate::arc_reading::read_chain;
use crate::assignment_reading::begins_plan;
use crate::fault::CertError;
use crate::lanes_reading::bare_lines;
use crate::line_reading::read_count;
use crate::opening::open;
use crate::view::{CertLines, CertView};
use crate::workqueue_reading::{read_all_workqueues, read_next_workqueues};
use std::alloc::Allocator;
use wq_fixed::Fixed;
use wq_groups::Groups;
use wq_items::ItemTable;

/// Reads the fixed workqueues of a whole plan text, of whose chain only the form is judged.
fn read_fixed_plan<A: Allocator + Copy>(
    alloc: A,
    table: &ItemTable<'_, A>,
    groups: &Groups<A>,
    mut lines: CertLines<'_>,
) -> Result<Fixed<A>, CertError>
    requires { length groups.now.group_of ≡ length table.now.names }
    ensures fixed { IfOk result (λ fixed.
        fixed_plan_reading table.now.names groups.now (map cert_line lines.entry) ≡ Ok fixed) }
    ensures groups { IfOk result (λ fixed. length fixed.lane_of_group ≡ groups.now.groups) }
    ensures fault { IfErr result (λ e.
        IsCertFaultOf e (fixed_plan_reading table.now.names groups.now (map cert_line lines.entry))) }
{
    let Some(first) = lines.next() else {
        return Err(CertError::BadCertLine { line: 0 });
    };
    let count = read_count(b"plan", &first)?;
    let workqueues = read_next_workqueues(alloc, table, groups, count, &mut lines)?;
    let lane_of_group = workqueues.part(groups)?;
    read_chain(alloc, table, lines)?;
    let bare = vec![in alloc; false; count as usize]?;
    Ok(Fixed::new(lane_of_group, bare))
}

/// Reads the fixed workqueues on these lines. Each must be a `wq` line or a `norescuer` line.
fn read_fixed_lines<A: Allocator + Copy>(
    alloc: A,
    table: &ItemTable<'_, A>,
    groups: &Groups<A>,
    view: &CertView<'_>,
) -> Result<Fixed<A>, CertError>
    requires { length groups.now.group_of ≡ length table.now.names }
    ensures fixed { IfOk result (λ fixed.
        fixed_lines_reading table.now.names groups.now (map cert_line view.now) ≡ Ok fixed) }
    ensures groups { IfOk result (λ fixed. length fixed.lane_of_group ≡ groups.now.groups) }
    ensures fault { IfErr result (λ e.
        IsCertFaultOf e (fixed_lines_reading table.now.names groups.now (map cert_line view.now))) }
{
    let (workqueues, after) = read_all_workqueues(alloc, table, groups, view.lines(), true)?;
    let lane_of_group = workqueues.part(groups)?;
    if let Some(line) = after {
        return Err(CertError::BadCertLine { line });
    }
    let bare = bare_lines(alloc, view.lines())?;
    Ok(Fixed::new(lane_of_group, bare))
}

/// Reads the workqueues in a text, on which items of a table in these groups may be missing. The text is a whole plan
/// text, or lines of workqueues alone.
///
/// The errors are those of `read_workqueues`, but that an item may be on no workqueue. If an item of a group is on one
/// and another isn't, it is `GroupSplit` (42) with line 0; if the workqueues and the groups on none of them are more
/// than 4,096, it is `NumberOutOfRange` (43) with line 0.
pub fn read_fixed<A: Allocator + Copy>(
    alloc: A,
    text: &[u8],
    table: &ItemTable<'_, A>,
    groups: &Groups<A>,
) -> Result<Fixed<A>, CertError>
    requires { length groups.now.group_of ≡ length table.now.names }
    ensures fixed { IfOk result (λ fixed. fixed_of_text table.now.names groups.now text.now ≡ Ok fixed) }
    ensures groups { IfOk result (λ fixed. length fixed.lane_of_group ≡ groups.now.groups) }
    ensures fault { IfErr result (λ e. IsCertFaultOf e (fixed_of_text table.now.names groups.now text.now)) }
{
    let view = open(text)?;
    if begins_plan(&view) {
        read_fixed_plan(alloc, table, groups, view.lines())
    } else {
        read_fixed_lines(alloc, table, groups, &view)
    }
}
