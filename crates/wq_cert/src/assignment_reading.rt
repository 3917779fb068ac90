//! Reading assignments: a whole plan text, or the lines of workqueues alone.
//!
//! The texts are those of "Certificates" in docs/FORMAT.md. Reading takes time linear in the length of the text and the
//! number of items, and memory linear in the number of items and arcs and in the length of the longest line.

ghost use Rattle.std.specs.Prelude.{◌≡◌, true, length, map, Ok, Err, None, IfOk, IfErr};
ghost use Rattle.wq_text.specs.Limits.{limit_fault};
ghost use Rattle.wq_text.specs.Lines.{lines_of};
ghost use Rattle.wq_cert.specs.Growth.{BeginsWell};
ghost use Rattle.wq_cert.specs.Lines.{cert_line, cert_lines};
ghost use Rattle.wq_cert.specs.Reading.{begins_plan, assignment_reading};
ghost use Rattle.wq_cert.specs.Texts.{max_certificate, max_certificate_line, assignment_of_text, IsCertFaultOf};
ghost use Rattle.wq_cert.specs.declared.fault.CertError.TheVariants.{OutOfMemory};

use crate::answer_reading::read_plan;
use crate::fault::CertError;
use crate::form::begins_with;
use crate::opening::open;
use crate::view::CertView;
use crate::workqueue_reading::read_workqueue_lines;
use std::alloc::Allocator;
use wq_groups::{Assignment, Groups};
use wq_items::ItemTable;

/// Whether the first word of the first line is `plan`.
pub(crate) fn begins_plan(view: &CertView<'_>) -> bool
    ensures { result ≡ begins_plan (map cert_line view.now) }
{
    match view.lines().next() {
        Some(first) => begins_with(&first, b"plan"),
        None => false,
    }
}

/// Reads the assignment on the lines of a view.
fn read_assignment_lines<A: Allocator + Copy>(
    alloc: A,
    table: &ItemTable<'_, A>,
    groups: &Groups<A>,
    view: &CertView<'_>,
) -> Result<Assignment<A>, CertError>
    requires { length groups.now.group_of ≡ length table.now.names }
    ensures assignment { IfOk result (λ a. assignment_reading table.now.names groups.now (map cert_line view.now)
        ≡ Ok a) }
    ensures fault { IfErr result (λ e.
        IsCertFaultOf e (assignment_reading table.now.names groups.now (map cert_line view.now))) }
    ensures memory { result ≡ Err OutOfMemory → begins_plan (map cert_line view.now) ≡ true
        → BeginsWell (assignment_reading table.now.names groups.now) 1 (map cert_line view.now) }
{
    if begins_plan(view) {
        let (assignment, _, _) = read_plan(alloc, table, groups, view.lines())?;
        Ok(assignment)
    } else {
        read_workqueue_lines(alloc, table, groups, view.lines())
    }
}

/// Reads the assignment in a text, for the items of a table in these groups. The text is the lines of workqueues alone,
/// or a whole plan text, of whose chain only the form is judged.
///
/// The errors are those of `read_answer`.
pub fn read_assignment<A: Allocator + Copy>(
    alloc: A,
    text: &[u8],
    table: &ItemTable<'_, A>,
    groups: &Groups<A>,
) -> Result<Assignment<A>, CertError>
    requires { length groups.now.group_of ≡ length table.now.names }
    ensures assignment { IfOk result (λ a. assignment_of_text table.now.names groups.now text.now ≡ Ok a) }
    ensures fault { IfErr result (λ e. IsCertFaultOf e (assignment_of_text table.now.names groups.now text.now)) }
    // No memory is needed to judge the limits, nor to read `plan K`.
    ensures memory { result ≡ Err OutOfMemory → limit_fault max_certificate max_certificate_line text.now ≡ None }
    ensures first_line { result ≡ Err OutOfMemory → begins_plan (cert_lines (lines_of text.now)) ≡ true
        → BeginsWell (assignment_reading table.now.names groups.now) 1 (cert_lines (lines_of text.now)) }
{
    let view = open(text)?;
    read_assignment_lines(alloc, table, groups, &view)
}
