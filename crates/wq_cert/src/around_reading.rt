//! Reading answers around fixed workqueues: the text of a plan, of a circle, or of a flush to no rescuer.
//!
//! The rules are those of "Planning around workqueues" in docs/FORMAT.md. Reading takes the time and the memory of
//! reading an answer.

ghost use Rattle.std.specs.Prelude.{◌≡◌, nat_le, if◌then◌else◌, length, map, Ok, Some, None, IfOk, IfErr, option_map};
ghost use Rattle.std.specs.List.{list_any};
ghost use Rattle.wq_items.specs.Building.{and_then};
ghost use Rattle.wq_cert.specs.AroundReading.{OfPlanAround, OfNoRescuer, around_certificate, fixed_workqueues};
ghost use Rattle.wq_cert.specs.AroundReading.{new_count_reading, norescuer_count_reading, numbers_of, order_form};
ghost use Rattle.wq_cert.specs.AroundReading.{order_reading, new_assignment, around_plan_reading, norescuer_reading};
ghost use Rattle.wq_cert.specs.AroundReading.{around_reading, around_of_text};
ghost use Rattle.wq_cert.specs.Lines.{bytes_of, cert_line};
ghost use Rattle.wq_cert.specs.Noted.{AreRead};
ghost use Rattle.wq_cert.specs.Reading.{next_workqueues};
ghost use Rattle.wq_cert.specs.Texts.{IsCertFaultOf};

use crate::arc_reading::{read_chain, read_circle};
use crate::around::AroundAnswer;
use crate::fault::CertError;
use crate::form::{begins_with, count_form, number_of};
use crate::line_reading::read_arc;
use crate::noted_workqueues::NotedWorkqueues;
use crate::opening::open;
use crate::run_reading::read_run_after;
use crate::view::{CertLines, CertView};
use std::alloc::{AllocError, Allocator};
use wq_fixed::Fixed;
use wq_groups::{Assignment, Groups, LaneId, MAX_ASSIGNED_LANES};
use wq_items::ItemTable;
use wq_text::{Line, Words};

/// Reads `plan K`: K isn't above what is left beside the fixed workqueues.
fn read_new_count<A: Allocator + Copy>(line: &Line<'_>, fixed: &Fixed<A>) -> Result<u32, CertError>
    ensures { result ≡ new_count_reading fixed.now (cert_line line.now) }
{
    let Some(count) = count_form(b"plan", line.words()) else {
        return Err(CertError::BadCertLine { line: line.no() });
    };
    if count > u32::from(MAX_ASSIGNED_LANES - fixed.lanes()) {
        return Err(CertError::NumberOutOfRange { line: line.no() });
    }
    Ok(count)
}

/// Reads `norescuer 1`.
fn read_norescuer_count(line: &Line<'_>) -> Result<u32, CertError>
    ensures { result ≡ norescuer_count_reading (cert_line line.now) }
{
    match count_form(b"norescuer", line.words()) {
        Some(1) => Ok(1),
        Some(_) => Err(CertError::NumberOutOfRange { line: line.no() }),
        None => Err(CertError::BadCertLine { line: line.no() }),
    }
}

/// The numbers that these words spell, if each is the spelling of one. The only error is out of memory.
fn numbers_of<A: Allocator + Copy>(
    alloc: A,
    words: Words<'_>,
) -> Result<Option<Vec<u32, A>>, AllocError>
    ensures { IfOk result (λ numbers. option_map (λ v. v.items) numbers ≡ numbers_of (bytes_of words.entry)) }
{
    let mut numbers = Vec::new(alloc);
    for word in words {
        let Some(number) = number_of(word.bytes()) else {
            return Ok(None);
        };
        numbers.push(number)?;
    }
    Ok(Some(numbers))
}

/// The numbers of `order Q..`. The only error is out of memory.
fn order_form<A: Allocator + Copy>(
    alloc: A,
    mut words: Words<'_>,
) -> Result<Option<Vec<u32, A>>, AllocError>
    ensures { IfOk result (λ numbers. option_map (λ v. v.items) numbers ≡ order_form (bytes_of words.entry)) }
{
    let Some(word) = words.next() else {
        return Ok(None);
    };
    if word.bytes() != b"order".as_slice() {
        return Ok(None);
    }
    numbers_of(alloc, words)
}

/// These numbers as workqueues, if each is below this many. The only error is out of memory.
fn lanes_below<A: Allocator + Copy>(
    alloc: A,
    numbers: &[u32],
    lanes: u16,
) -> Result<Option<Vec<LaneId, A>>, AllocError>
    ensures { IfOk result (λ order. option_map (λ v. v.items) order
        ≡ (if list_any (nat_le lanes) numbers.now then None else Some numbers.now)) }
{
    let mut order = Vec::new(alloc);
    for number in numbers {
        if *number >= u32::from(lanes) {
            return Ok(None);
        }
        order.push(LaneId::new(*number as u16))?;
    }
    Ok(Some(order))
}

/// Reads `order Q..`: the workqueues, each of which is below this many.
fn read_order<A: Allocator + Copy>(
    alloc: A,
    line: &Line<'_>,
    lanes: u16,
) -> Result<Vec<LaneId, A>, CertError>
    ensures order { IfOk result (λ order. order_reading lanes (cert_line line.now) ≡ Ok order.items) }
    ensures fault { IfErr result (λ e. IsCertFaultOf e (order_reading lanes (cert_line line.now))) }
{
    let Some(numbers) = order_form(alloc, line.words())? else {
        return Err(CertError::BadCertLine { line: line.no() });
    };
    match lanes_below(alloc, numbers.as_slice(), lanes)? {
        Some(order) => Ok(order),
        None => Err(CertError::NumberOutOfRange { line: line.no() }),
    }
}

/// Reads `count` workqueues behind the fixed ones, each on one of the next lines.
fn read_new_workqueues<A: Allocator + Copy>(
    alloc: A,
    table: &ItemTable<'_, A>,
    groups: &Groups<A>,
    fixed: &Fixed<A>,
    count: u32,
    lines: &mut CertLines<'_>,
) -> Result<NotedWorkqueues<A>, CertError>
    requires grouped { length groups.now.group_of ≡ length table.now.names }
    requires fixed { length fixed.now.lane_of_group ≡ groups.now.groups }
    ensures workqueues { IfOk result (λ q.
        AreRead table.now.names groups.now count (fixed_workqueues groups.now fixed.now) (map cert_line lines.old)
        q.count q.stood.items q.lane_of_group.items (map cert_line lines.new)) }
    ensures fault { IfErr result (λ e.
        IsCertFaultOf e (next_workqueues table.now.names groups.now.group_of count
        (fixed_workqueues groups.now fixed.now) (map cert_line lines.old))) }
{
    let mut workqueues = NotedWorkqueues::of_fixed(alloc, groups, table.len(), fixed)?;
    for i in 0..count {
        let Some(line) = lines.next() else {
            return Err(CertError::BadCertLine { line: 0 });
        };
        workqueues = workqueues.read(alloc, table, groups, &line)?;
    }
    Ok(workqueues)
}

/// Reads `count` workqueues behind the fixed ones, each on one of the next lines, as an assignment to all of these.
fn read_new<A: Allocator + Copy>(
    alloc: A,
    table: &ItemTable<'_, A>,
    groups: &Groups<A>,
    fixed: &Fixed<A>,
    count: u32,
    lines: &mut CertLines<'_>,
) -> Result<Assignment<A>, CertError>
    requires grouped { length groups.now.group_of ≡ length table.now.names }
    requires fixed { length fixed.now.lane_of_group ≡ groups.now.groups }
    ensures assignment { IfOk result (λ a.
        new_assignment table.now.names groups.now fixed.now count (map cert_line lines.old)
        ≡ Ok (a, map cert_line lines.new)) }
    ensures fault { IfErr result (λ e.
        IsCertFaultOf e (new_assignment table.now.names groups.now fixed.now count (map cert_line lines.old))) }
{
    let workqueues = read_new_workqueues(alloc, table, groups, fixed, count, lines)?;
    workqueues.assignment(alloc, groups)
}

/// Reads the plan on these lines.
fn read_plan_around<A: Allocator + Copy>(
    alloc: A,
    table: &ItemTable<'_, A>,
    groups: &Groups<A>,
    fixed: &Fixed<A>,
    mut lines: CertLines<'_>,
) -> Result<AroundAnswer<A>, CertError>
    requires grouped { length groups.now.group_of ≡ length table.now.names }
    requires fixed { length fixed.now.lane_of_group ≡ groups.now.groups }
    ensures plan { IfOk result (λ c.
        and_then (λ plan. Ok (OfPlanAround plan))
        (around_plan_reading table.now.names groups.now fixed.now (map cert_line lines.entry))
        ≡ Ok (around_certificate c)) }
    ensures fault { IfErr result (λ e.
        IsCertFaultOf e (around_plan_reading table.now.names groups.now fixed.now (map cert_line lines.entry))) }
{
    let Some(first) = lines.next() else {
        return Err(CertError::BadCertLine { line: 0 });
    };
    let count = read_new_count(&first, fixed)?;
    let assignment = read_new(alloc, table, groups, fixed, count, &mut lines)?;
    let Some(line) = lines.next() else {
        return Err(CertError::BadCertLine { line: 0 });
    };
    let order = read_order(alloc, &line, assignment.lanes())?;
    let (length, arcs) = read_chain(alloc, table, lines)?;
    Ok(AroundAnswer::Plan {
        assignment,
        order,
        length,
        arcs,
    })
}

/// Reads the flush to no rescuer on these lines, and the run behind it, if there is one.
fn read_norescuer<A: Allocator + Copy>(
    alloc: A,
    table: &ItemTable<'_, A>,
    mut lines: CertLines<'_>,
) -> Result<AroundAnswer<A>, CertError>
    ensures none { IfOk result (λ c.
        and_then (λ none. Ok (OfNoRescuer none)) (norescuer_reading table.now.names (map cert_line lines.entry))
        ≡ Ok (around_certificate c)) }
    ensures fault { IfErr result (λ e.
        IsCertFaultOf e (norescuer_reading table.now.names (map cert_line lines.entry))) }
{
    let Some(first) = lines.next() else {
        return Err(CertError::BadCertLine { line: 0 });
    };
    let _count = read_norescuer_count(&first)?;
    let Some(line) = lines.next() else {
        return Err(CertError::BadCertLine { line: 0 });
    };
    let arc = read_arc(table, &line)?;
    let steps = read_run_after(alloc, table, lines)?;
    Ok(AroundAnswer::NoRescuer { arc, steps })
}

/// Reads the answer on the lines of a view.
fn read_around_lines<A: Allocator + Copy>(
    alloc: A,
    table: &ItemTable<'_, A>,
    groups: &Groups<A>,
    fixed: &Fixed<A>,
    view: &CertView<'_>,
) -> Result<AroundAnswer<A>, CertError>
    requires grouped { length groups.now.group_of ≡ length table.now.names }
    requires fixed { length fixed.now.lane_of_group ≡ groups.now.groups }
    ensures answer { IfOk result (λ c.
        around_reading table.now.names groups.now fixed.now (map cert_line view.now) ≡ Ok (around_certificate c)) }
    ensures fault { IfErr result (λ e.
        IsCertFaultOf e (around_reading table.now.names groups.now fixed.now (map cert_line view.now))) }
{
    let Some(first) = view.lines().next() else {
        return Err(CertError::BadCertLine { line: 0 });
    };
    if begins_with(&first, b"circle") {
        let (arcs, steps) = read_circle(alloc, table, view.lines())?;
        Ok(AroundAnswer::Circle { arcs, steps })
    } else if begins_with(&first, b"norescuer") {
        read_norescuer(alloc, table, view.lines())
    } else {
        read_plan_around(alloc, table, groups, fixed, view.lines())
    }
}

/// Reads the text of an answer around fixed workqueues, for the items of a table in these groups. Whether it is true
/// isn't judged.
///
/// The errors are those of `read_answer`.
pub fn read_around<A: Allocator + Copy>(
    alloc: A,
    text: &[u8],
    table: &ItemTable<'_, A>,
    groups: &Groups<A>,
    fixed: &Fixed<A>,
) -> Result<AroundAnswer<A>, CertError>
    requires grouped { length groups.now.group_of ≡ length table.now.names }
    requires fixed { length fixed.now.lane_of_group ≡ groups.now.groups }
    ensures answer { IfOk result (λ c.
        around_of_text table.now.names groups.now fixed.now text.now ≡ Ok (around_certificate c)) }
    ensures fault { IfErr result (λ e. IsCertFaultOf e (around_of_text table.now.names groups.now fixed.now text.now)) }
{
    let view = open(text)?;
    read_around_lines(alloc, table, groups, fixed, &view)
}
