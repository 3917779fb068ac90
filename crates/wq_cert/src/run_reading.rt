//! Reading runs: how many steps there are, and each of them on a line of its own.
//!
//! The text is that of "Run texts" and "Certificates" in docs/FORMAT.md. Reading takes time linear in the length of the
//! text, and memory linear in the number of steps that are there, whatever number the text says.

ghost use Rattle.std.specs.Prelude.{◌≡◌, ◌∷◌, Ok, Err, None, IfOk, IfErr, map, option_map};
ghost use Rattle.wq_text.specs.Limits.{limit_fault};
ghost use Rattle.wq_text.specs.Lines.{lines_of};
ghost use Rattle.wq_cert.specs.Growth.{ReadsOne, BeginsWell};
ghost use Rattle.wq_cert.specs.Lines.{cert_line, cert_lines};
ghost use Rattle.wq_cert.specs.Reading.{next_lines, step_reading, run_reading, run_after};
ghost use Rattle.wq_cert.specs.Texts.{max_certificate, max_certificate_line, run_of, IsCertFaultOf};
ghost use Rattle.wq_cert.specs.declared.fault.CertError.TheVariants.{OutOfMemory};

use crate::fault::CertError;
use crate::line_reading::{read_any_count, read_step};
use crate::opening::open;
use crate::view::CertLines;
use std::alloc::Allocator;
use wq_core::Step;
use wq_items::ItemTable;
use wq_text::Line;

/// Reads `count` steps, each on one of the next lines.
fn read_steps<A: Allocator + Copy>(
    alloc: A,
    table: &ItemTable<'_, A>,
    count: u32,
    lines: &mut CertLines<'_>,
) -> Result<Vec<Step, A>, CertError>
    ensures steps { IfOk result (λ steps. next_lines (step_reading table.now.names) count (map cert_line lines.old)
        ≡ Ok (steps.items, map cert_line lines.new)) }
    ensures fault { IfErr result (λ e.
        IsCertFaultOf e (next_lines (step_reading table.now.names) count (map cert_line lines.old))) }
    ensures memory { result ≡ Err OutOfMemory
        → ReadsOne (step_reading table.now.names) count (map cert_line lines.old) }
{
    let mut steps = Vec::new(alloc);
    for i in 0..count {
        let Some(line) = lines.next() else {
            return Err(CertError::BadCertLine { line: 0 });
        };
        let step = read_step(table, &line)?;
        steps.push(step)?;
    }
    Ok(steps)
}

/// Reads the run that begins on the line `first` and ends with the last of `lines`.
fn read_run_from<A: Allocator + Copy>(
    alloc: A,
    table: &ItemTable<'_, A>,
    first: &Line<'_>,
    mut lines: CertLines<'_>,
) -> Result<Vec<Step, A>, CertError>
    ensures steps { IfOk result (λ steps. run_reading table.now.names (cert_line first.now ∷ map cert_line lines.entry)
        ≡ Ok steps.items) }
    ensures fault { IfErr result (λ e.
        IsCertFaultOf e (run_reading table.now.names (cert_line first.now ∷ map cert_line lines.entry))) }
    ensures memory { result ≡ Err OutOfMemory
        → BeginsWell (run_reading table.now.names) 2 (cert_line first.now ∷ map cert_line lines.entry) }
{
    let count = read_any_count(first)?;
    let steps = read_steps(alloc, table, count, &mut lines)?;
    if let Some(line) = lines.next() {
        return Err(CertError::BadCertLine { line: line.no() });
    }
    Ok(steps)
}

/// Reads the run on these lines, if there is a line.
pub(crate) fn read_run_after<A: Allocator + Copy>(
    alloc: A,
    table: &ItemTable<'_, A>,
    mut lines: CertLines<'_>,
) -> Result<Option<Vec<Step, A>>, CertError>
    ensures steps { IfOk result (λ steps. run_after table.now.names (map cert_line lines.entry)
        ≡ Ok (option_map (λ s. s.items) steps)) }
    ensures fault { IfErr result (λ e. IsCertFaultOf e (run_after table.now.names (map cert_line lines.entry))) }
{
    let Some(first) = lines.next() else {
        return Ok(None);
    };
    let steps = read_run_from(alloc, table, &first, lines)?;
    Ok(Some(steps))
}

/// Reads the run on these lines.
pub(crate) fn read_run_lines<A: Allocator + Copy>(
    alloc: A,
    table: &ItemTable<'_, A>,
    mut lines: CertLines<'_>,
) -> Result<Vec<Step, A>, CertError>
    ensures steps { IfOk result (λ steps. run_reading table.now.names (map cert_line lines.entry) ≡ Ok steps.items) }
    ensures fault { IfErr result (λ e. IsCertFaultOf e (run_reading table.now.names (map cert_line lines.entry))) }
    ensures memory { result ≡ Err OutOfMemory → BeginsWell (run_reading table.now.names) 2 (map cert_line lines.entry) }
{
    let Some(first) = lines.next() else {
        return Err(CertError::BadCertLine { line: 0 });
    };
    read_run_from(alloc, table, &first, lines)
}

/// Reads the steps in the text of a run, for the items of a table. Whether they are lawful isn't judged.
///
/// The error is the first fault: `BadCertLine` (40), if the text or a line is too long, if a line doesn't have the form
/// that comes next, or, with line 0, if the text ends too early; or `NumberOutOfRange` (43), if a line of that form
/// names a workqueue above 4,095. Or it is `OutOfMemory` (20), for a text within the limits.
pub fn read_run<A: Allocator + Copy>(
    alloc: A,
    text: &[u8],
    table: &ItemTable<'_, A>,
) -> Result<Vec<Step, A>, CertError>
    ensures steps { IfOk result (λ steps. run_of table.now.names text.now ≡ Ok steps.items) }
    ensures fault { IfErr result (λ e. IsCertFaultOf e (run_of table.now.names text.now)) }
    // No memory is needed to judge the limits, nor to read `run M` and the first step.
    ensures memory { result ≡ Err OutOfMemory → limit_fault max_certificate max_certificate_line text.now ≡ None }
    ensures first_step { result ≡ Err OutOfMemory
        → BeginsWell (run_reading table.now.names) 2 (cert_lines (lines_of text.now)) }
{
    let view = open(text)?;
    read_run_lines(alloc, table, view.lines())
}
