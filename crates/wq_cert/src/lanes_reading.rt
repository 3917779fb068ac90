//! Reading workqueues, some of which may have no rescuer: a whole plan text, or `wq` and `norescuer` lines.
//!
//! The texts are those of "Certificates" in docs/FORMAT.md. A `norescuer` line is read like a `wq` line, and says that
//! its workqueue has no rescuer. Reading takes the time and the memory of reading an assignment.

ghost use Rattle.std.specs.Prelude.{◌≡◌, true, length, map, Ok, Err, None, IfOk, IfErr};
ghost use Rattle.wq_text.specs.Limits.{limit_fault};
ghost use Rattle.wq_text.specs.Lines.{lines_of};
ghost use Rattle.wq_cert.specs.Growth.{BeginsWell};
ghost use Rattle.wq_cert.specs.Lines.{cert_line, cert_lines};
ghost use Rattle.wq_cert.specs.Reading.{begins_plan, is_bare_line, lanes_reading};
ghost use Rattle.wq_cert.specs.Texts.{max_certificate, max_certificate_line, workqueues_of_text, IsCertFaultOf};
ghost use Rattle.wq_cert.specs.declared.fault.CertError.TheVariants.{OutOfMemory};

use crate::answer_reading::read_plan;
use crate::assignment_reading::begins_plan;
use crate::fault::CertError;
use crate::form::begins_with;
use crate::opening::open;
use crate::view::{CertLines, CertView};
use crate::workqueue_reading::read_lane_lines;
use std::alloc::{AllocError, Allocator};
use wq_core::Workqueues;
use wq_groups::Groups;
use wq_items::ItemTable;

/// For each of these lines, whether it is that of a workqueue without a rescuer.
pub(crate) fn bare_lines<A: Allocator>(
    alloc: A,
    lines: CertLines<'_>,
) -> Result<Vec<bool, A>, AllocError>
    ensures { IfOk result (λ bare. bare.items ≡ map is_bare_line (map cert_line lines.entry)) }
{
    let mut bare = Vec::new(alloc);
    for line in lines {
        bare.push(begins_with(&line, b"norescuer"))?;
    }
    Ok(bare)
}

/// Reads the workqueues on the lines of a view.
fn read_lanes<A: Allocator + Copy>(
    alloc: A,
    table: &ItemTable<'_, A>,
    groups: &Groups<A>,
    view: &CertView<'_>,
) -> Result<Workqueues<A>, CertError>
    requires { length groups.now.group_of ≡ length table.now.names }
    ensures workqueues { IfOk result (λ ws. lanes_reading table.now.names groups.now (map cert_line view.now) ≡ Ok ws) }
    ensures fault { IfErr result (λ e.
        IsCertFaultOf e (lanes_reading table.now.names groups.now (map cert_line view.now))) }
    ensures memory { result ≡ Err OutOfMemory → begins_plan (map cert_line view.now) ≡ true
        → BeginsWell (lanes_reading table.now.names groups.now) 1 (map cert_line view.now) }
{
    if begins_plan(view) {
        let (assignment, _, _) = read_plan(alloc, table, groups, view.lines())?;
        Ok(Workqueues::new(assignment, Vec::new(alloc)))
    } else {
        let assignment = read_lane_lines(alloc, table, groups, view.lines())?;
        let bare = bare_lines(alloc, view.lines())?;
        Ok(Workqueues::new(assignment, bare))
    }
}

/// Reads the workqueues in the text of an assignment, for the items of a table in these groups. The text is lines of
/// workqueues alone, with a rescuer (`wq`) or without (`norescuer`), or a whole plan text, of whose chain only the form
/// is judged.
///
/// The errors are those of `read_answer`.
pub fn read_workqueues<A: Allocator + Copy>(
    alloc: A,
    text: &[u8],
    table: &ItemTable<'_, A>,
    groups: &Groups<A>,
) -> Result<Workqueues<A>, CertError>
    requires { length groups.now.group_of ≡ length table.now.names }
    ensures workqueues { IfOk result (λ ws. workqueues_of_text table.now.names groups.now text.now ≡ Ok ws) }
    ensures fault { IfErr result (λ e. IsCertFaultOf e (workqueues_of_text table.now.names groups.now text.now)) }
    // No memory is needed to judge the limits, nor to read `plan K`.
    ensures memory { result ≡ Err OutOfMemory → limit_fault max_certificate max_certificate_line text.now ≡ None }
    ensures first_line { result ≡ Err OutOfMemory → begins_plan (cert_lines (lines_of text.now)) ≡ true
        → BeginsWell (lanes_reading table.now.names groups.now) 1 (cert_lines (lines_of text.now)) }
{
    let view = open(text)?;
    read_lanes(alloc, table, groups, &view)
}
