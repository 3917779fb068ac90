//! Reading the lines of workqueues: a given number of them, or all up to the first line with another first word.
//!
//! The texts are those of "Certificates" in docs/FORMAT.md. Reading takes time linear in the length of the lines and
//! the number of items, and memory linear in the number of items and the length of the longest line.

ghost use Rattle.std.specs.Prelude.{◌≡◌, [], length, map, Ok, IfOk, IfErr};
ghost use Rattle.wq_cert.specs.Lines.{cert_line};
ghost use Rattle.wq_cert.specs.Noted.{AreRead, AreAllRead, said_line};
ghost use Rattle.wq_cert.specs.Reading.{next_workqueues, all_workqueues, counted_assignment, workqueues_reading, as_wq};
ghost use Rattle.wq_cert.specs.Texts.{IsCertFaultOf};

use crate::fault::CertError;
use crate::form::begins_wq;
use crate::noted_workqueues::NotedWorkqueues;
use crate::view::CertLines;
use std::alloc::Allocator;
use wq_groups::{Assignment, Groups};
use wq_items::ItemTable;

/// Reads `count` workqueues, each on one of the next lines.
pub(crate) fn read_next_workqueues<A: Allocator + Copy>(
    alloc: A,
    table: &ItemTable<'_, A>,
    groups: &Groups<A>,
    count: u32,
    lines: &mut CertLines<'_>,
) -> Result<NotedWorkqueues<A>, CertError>
    requires { length groups.now.group_of ≡ length table.now.names }
    ensures workqueues { IfOk result (λ q.
        AreRead table.now.names groups.now count [] (map cert_line lines.old) q.count q.stood.items
        q.lane_of_group.items (map cert_line lines.new)) }
    ensures fault { IfErr result (λ e.
        IsCertFaultOf e (next_workqueues table.now.names groups.now.group_of count [] (map cert_line lines.old))) }
{
    let mut workqueues = NotedWorkqueues::none(alloc, groups, table.len())?;
    for i in 0..count {
        let Some(line) = lines.next() else {
            return Err(CertError::BadCertLine { line: 0 });
        };
        workqueues = workqueues.read(alloc, table, groups, &line)?;
    }
    Ok(workqueues)
}

/// Reads `count` workqueues, each on one of the next lines, as an assignment.
pub(crate) fn read_counted<A: Allocator + Copy>(
    alloc: A,
    table: &ItemTable<'_, A>,
    groups: &Groups<A>,
    count: u32,
    lines: &mut CertLines<'_>,
) -> Result<Assignment<A>, CertError>
    requires { length groups.now.group_of ≡ length table.now.names }
    ensures assignment { IfOk result (λ a. counted_assignment table.now.names groups.now count (map cert_line lines.old)
        ≡ Ok (a, map cert_line lines.new)) }
    ensures fault { IfErr result (λ e.
        IsCertFaultOf e (counted_assignment table.now.names groups.now count (map cert_line lines.old))) }
{
    let workqueues = read_next_workqueues(alloc, table, groups, count, lines)?;
    workqueues.assignment(alloc, groups)
}

/// Reads the workqueues on these lines, up to the first line with another first word, and the number of that line. If
/// `bare`, `norescuer` lines are read like `wq` lines.
pub(crate) fn read_all_workqueues<A: Allocator + Copy>(
    alloc: A,
    table: &ItemTable<'_, A>,
    groups: &Groups<A>,
    lines: CertLines<'_>,
    bare: bool,
) -> Result<(NotedWorkqueues<A>, Option<u32>), CertError>
    requires { length groups.now.group_of ≡ length table.now.names }
    ensures workqueues { IfOk result (λ r.
        AreAllRead table.now.names groups.now
        (map (λ line. said_line bare line) lines.entry) r.0.count r.0.stood.items r.0.lane_of_group.items r.1) }
    ensures fault { IfErr result (λ e.
        IsCertFaultOf e
        (all_workqueues table.now.names groups.now.group_of [] (map (λ line. said_line bare line) lines.entry))) }
{
    let mut workqueues = NotedWorkqueues::none(alloc, groups, table.len())?;
    for line in lines {
        if !begins_wq(&line, bare) {
            return Ok((workqueues, Some(line.no())));
        }
        workqueues = workqueues.read_line(alloc, table, groups, &line, bare)?;
    }
    Ok((workqueues, None))
}

/// Reads the assignment on these lines. Each must be a `wq` line or, if `bare`, a `norescuer` line.
fn read_lines<A: Allocator + Copy>(
    alloc: A,
    table: &ItemTable<'_, A>,
    groups: &Groups<A>,
    lines: CertLines<'_>,
    bare: bool,
) -> Result<Assignment<A>, CertError>
    requires { length groups.now.group_of ≡ length table.now.names }
    ensures assignment { IfOk result (λ a.
        workqueues_reading table.now.names groups.now (map (λ line. said_line bare line) lines.entry)
        ≡ Ok a) }
    ensures fault { IfErr result (λ e.
        IsCertFaultOf e
        (workqueues_reading table.now.names groups.now (map (λ line. said_line bare line) lines.entry))) }
{
    let (workqueues, after) = read_all_workqueues(alloc, table, groups, lines, bare)?;
    let assignment = workqueues.assignment(alloc, groups)?;
    match after {
        Some(line) => Err(CertError::BadCertLine { line }),
        None => Ok(assignment),
    }
}

/// Reads the assignment on these lines. Each must be a `wq` line.
pub(crate) fn read_workqueue_lines<A: Allocator + Copy>(
    alloc: A,
    table: &ItemTable<'_, A>,
    groups: &Groups<A>,
    lines: CertLines<'_>,
) -> Result<Assignment<A>, CertError>
    requires { length groups.now.group_of ≡ length table.now.names }
    ensures assignment { IfOk result (λ a. workqueues_reading table.now.names groups.now (map cert_line lines.entry)
        ≡ Ok a) }
    ensures fault { IfErr result (λ e.
        IsCertFaultOf e (workqueues_reading table.now.names groups.now (map cert_line lines.entry))) }
{
    read_lines(alloc, table, groups, lines, false)
}

/// Reads the assignment on these lines. Each must be a `wq` line, or a `norescuer` line, which is read like one.
pub(crate) fn read_lane_lines<A: Allocator + Copy>(
    alloc: A,
    table: &ItemTable<'_, A>,
    groups: &Groups<A>,
    lines: CertLines<'_>,
) -> Result<Assignment<A>, CertError>
    requires { length groups.now.group_of ≡ length table.now.names }
    ensures assignment { IfOk result (λ a.
        workqueues_reading table.now.names groups.now (map as_wq (map cert_line lines.entry))
        ≡ Ok a) }
    ensures fault { IfErr result (λ e.
        IsCertFaultOf e (workqueues_reading table.now.names groups.now (map as_wq (map cert_line lines.entry)))) }
{
    read_lines(alloc, table, groups, lines, true)
}
