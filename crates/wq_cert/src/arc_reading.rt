//! Reading arcs: those of the chain after a plan, and those of a circle with the run after them.
//!
//! The texts are those of "Certificates" in docs/FORMAT.md. Reading takes time linear in the length of the lines, and
//! memory linear in the number of arcs and steps that are there.

ghost use Rattle.std.specs.Prelude.{◌≡◌, Ok, Err, IfOk, IfErr, map, option_map};
ghost use Rattle.wq_cert.specs.Growth.{ReadsOne, BeginsWell};
ghost use Rattle.wq_cert.specs.Lines.{cert_line};
ghost use Rattle.wq_cert.specs.Reading.{next_lines, arc_reading, chain_reading, circle_reading};
ghost use Rattle.wq_cert.specs.Texts.{IsCertFaultOf};
ghost use Rattle.wq_cert.specs.declared.fault.CertError.TheVariants.{OutOfMemory};

use crate::fault::CertError;
use crate::line_reading::{read_arc, read_circle_count, read_count};
use crate::run_reading::read_run_after;
use crate::view::CertLines;
use std::alloc::Allocator;
use wq_core::Step;
use wq_items::{ItemId, ItemTable};

/// Reads `count` arcs, each on one of the next lines.
pub(crate) fn read_arcs<A: Allocator + Copy>(
    alloc: A,
    table: &ItemTable<'_, A>,
    count: u32,
    lines: &mut CertLines<'_>,
) -> Result<Vec<(ItemId, ItemId), A>, CertError>
    ensures arcs { IfOk result (λ arcs. next_lines (arc_reading table.now.names) count (map cert_line lines.old)
        ≡ Ok (arcs.items, map cert_line lines.new)) }
    ensures fault { IfErr result (λ e.
        IsCertFaultOf e (next_lines (arc_reading table.now.names) count (map cert_line lines.old))) }
    ensures memory { result ≡ Err OutOfMemory → ReadsOne (arc_reading table.now.names) count (map cert_line lines.old) }
{
    let mut arcs = Vec::new(alloc);
    for i in 0..count {
        let Some(line) = lines.next() else {
            return Err(CertError::BadCertLine { line: 0 });
        };
        let arc = read_arc(table, &line)?;
        arcs.push(arc)?;
    }
    Ok(arcs)
}

/// Reads the chain on these lines: how many groups it is said to have, and its arcs.
pub(crate) fn read_chain<A: Allocator + Copy>(
    alloc: A,
    table: &ItemTable<'_, A>,
    mut lines: CertLines<'_>,
) -> Result<(u32, Vec<(ItemId, ItemId), A>), CertError>
    ensures chain { IfOk result (λ chain. chain_reading table.now.names (map cert_line lines.entry)
        ≡ Ok (chain.0, chain.1.items)) }
    ensures fault { IfErr result (λ e. IsCertFaultOf e (chain_reading table.now.names (map cert_line lines.entry))) }
{
    let Some(first) = lines.next() else {
        return Err(CertError::BadCertLine { line: 0 });
    };
    let length = read_count(b"chain", &first)?;
    let arcs = read_arcs(alloc, table, length.saturating_sub(1), &mut lines)?;
    if let Some(line) = lines.next() {
        return Err(CertError::BadCertLine { line: line.no() });
    }
    Ok((length, arcs))
}

/// Reads the circle on these lines: its arcs, and the steps of the run after it, if there is one.
pub(crate) fn read_circle<A: Allocator + Copy>(
    alloc: A,
    table: &ItemTable<'_, A>,
    mut lines: CertLines<'_>,
) -> Result<(Vec<(ItemId, ItemId), A>, Option<Vec<Step, A>>), CertError>
    ensures circle { IfOk result (λ circle. circle_reading table.now.names (map cert_line lines.entry)
        ≡ Ok (record { arcs = circle.0.items; steps = option_map (λ s. s.items) circle.1 })) }
    ensures fault { IfErr result (λ e. IsCertFaultOf e (circle_reading table.now.names (map cert_line lines.entry))) }
    ensures memory { result ≡ Err OutOfMemory
        → BeginsWell (circle_reading table.now.names) 2 (map cert_line lines.entry) }
{
    let Some(first) = lines.next() else {
        return Err(CertError::BadCertLine { line: 0 });
    };
    let count = read_circle_count(&first)?;
    let arcs = read_arcs(alloc, table, count, &mut lines)?;
    let steps = read_run_after(alloc, table, lines)?;
    Ok((arcs, steps))
}
