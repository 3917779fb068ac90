//! Reading answers: the text of a plan or of a circle. Its first word tells which.
//!
//! The texts are those of "Certificates" in docs/FORMAT.md. Reading takes time linear in the length of the text and the
//! number of items, and memory linear in the number of items, arcs and steps and in the length of the longest line.

ghost use Rattle.std.specs.Prelude.{◌≡◌, length, map, Ok, Err, None, IfOk, IfErr};
ghost use Rattle.wq_text.specs.Limits.{limit_fault};
ghost use Rattle.wq_cert.specs.Certificate.{certificate};
ghost use Rattle.wq_text.specs.Lines.{lines_of};
ghost use Rattle.wq_cert.specs.Growth.{BeginsWell, lines_before_memory};
ghost use Rattle.wq_cert.specs.Lines.{cert_line, cert_lines};
ghost use Rattle.wq_cert.specs.Reading.{plan_reading, answer_reading};
ghost use Rattle.wq_cert.specs.Texts.{max_certificate, max_certificate_line, answer_of, IsCertFaultOf};
ghost use Rattle.wq_cert.specs.declared.fault.CertError.TheVariants.{OutOfMemory};

use crate::answer::CertAnswer;
use crate::arc_reading::{read_chain, read_circle};
use crate::fault::CertError;
use crate::form::begins_with;
use crate::line_reading::read_count;
use crate::opening::open;
use crate::view::{CertLines, CertView};
use crate::workqueue_reading::read_counted;
use std::alloc::Allocator;
use wq_groups::{Assignment, Groups};
use wq_items::{ItemId, ItemTable};

/// Reads the plan on these lines: its assignment, how many groups its chain is said to have, and the arcs of the chain.
pub(crate) fn read_plan<A: Allocator + Copy>(
    alloc: A,
    table: &ItemTable<'_, A>,
    groups: &Groups<A>,
    mut lines: CertLines<'_>,
) -> Result<(Assignment<A>, u32, Vec<(ItemId, ItemId), A>), CertError>
    requires { length groups.now.group_of ≡ length table.now.names }
    ensures plan { IfOk result (λ plan. plan_reading table.now.names groups.now (map cert_line lines.entry)
        ≡ Ok (record { assignment = plan.0; length = plan.1; arcs = plan.2.items })) }
    ensures fault { IfErr result (λ e.
        IsCertFaultOf e (plan_reading table.now.names groups.now (map cert_line lines.entry))) }
    ensures memory { result ≡ Err OutOfMemory
        → BeginsWell (plan_reading table.now.names groups.now) 1 (map cert_line lines.entry) }
{
    let Some(first) = lines.next() else {
        return Err(CertError::BadCertLine { line: 0 });
    };
    let count = read_count(b"plan", &first)?;
    let assignment = read_counted(alloc, table, groups, count, &mut lines)?;
    let (length, arcs) = read_chain(alloc, table, lines)?;
    Ok((assignment, length, arcs))
}

/// Reads the answer on the lines of a view.
fn read_answer_lines<A: Allocator + Copy>(
    alloc: A,
    table: &ItemTable<'_, A>,
    groups: &Groups<A>,
    view: &CertView<'_>,
) -> Result<CertAnswer<A>, CertError>
    requires { length groups.now.group_of ≡ length table.now.names }
    ensures answer { IfOk result (λ c. answer_reading table.now.names groups.now (map cert_line view.now)
        ≡ Ok (certificate c)) }
    ensures fault { IfErr result (λ e.
        IsCertFaultOf e (answer_reading table.now.names groups.now (map cert_line view.now))) }
    ensures memory { result ≡ Err OutOfMemory
        → BeginsWell (answer_reading table.now.names groups.now) (lines_before_memory (map cert_line view.now))
        (map cert_line view.now) }
{
    let Some(first) = view.lines().next() else {
        return Err(CertError::BadCertLine { line: 0 });
    };
    if begins_with(&first, b"circle") {
        let (arcs, steps) = read_circle(alloc, table, view.lines())?;
        Ok(CertAnswer::Circle { arcs, steps })
    } else {
        let (assignment, length, arcs) = read_plan(alloc, table, groups, view.lines())?;
        Ok(CertAnswer::Plan {
            assignment,
            length,
            arcs,
        })
    }
}

/// Reads the text of an answer, for the items of a table in these groups. Whether it is true isn't judged.
///
/// The error is the first fault. If the text or a line is too long, that is `BadCertLine` (40), before all else.
/// Otherwise it is the fault of the first line that has one: `BadCertLine` (40), `NumberOutOfRange` (43), `NotAllItems`
/// (41) or `GroupSplit` (42), in this order in a line. The line is 0 if the text ends too early (40) or an item is on
/// no workqueue (41). Or the error is `OutOfMemory` (20), for a text within the limits.
pub fn read_answer<A: Allocator + Copy>(
    alloc: A,
    text: &[u8],
    table: &ItemTable<'_, A>,
    groups: &Groups<A>,
) -> Result<CertAnswer<A>, CertError>
    requires { length groups.now.group_of ≡ length table.now.names }
    ensures answer { IfOk result (λ c. answer_of table.now.names groups.now text.now ≡ Ok (certificate c)) }
    ensures fault { IfErr result (λ e. IsCertFaultOf e (answer_of table.now.names groups.now text.now)) }
    // No memory is needed to judge the limits, nor to read `plan K`, or `circle N` and the first arc.
    ensures memory { result ≡ Err OutOfMemory → limit_fault max_certificate max_certificate_line text.now ≡ None }
    ensures first_lines { result ≡ Err OutOfMemory
        → BeginsWell (answer_reading table.now.names groups.now) (lines_before_memory (cert_lines (lines_of text.now)))
        (cert_lines (lines_of text.now)) }
{
    let view = open(text)?;
    read_answer_lines(alloc, table, groups, &view)
}
