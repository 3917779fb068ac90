//! The rows of a history, judged.

ghost use Rattle.std.specs.Prelude.{◌≡◌, ◌≤◌, ◌*◌, length};
ghost use Rattle.wq_core.specs.State.{empty_state};

use crate::testbed::{Bed, put_context, put_item_or_none, put_waiting};
use hex::FromHexError;
use std::alloc::{AllocError, Global};
use wq_core::{Context, Core, MAX_HELPERS};
use wq_groups::{Declaration, LaneId};
use wq_history::{MAX_ROWS, RowError, RowFault, check_rows};
use wq_items::{ItemId, ItemTable};

/// A text without its spaces, TABs, CRs and LFs.
fn without_blanks(alloc: Global, text: &[u8]) -> Result<Vec<u8>, AllocError> {
    let mut digits = Vec::new(alloc);
    for byte in text {
        if !matches!(*byte, b' ' | b'\t' | b'\r' | b'\n') {
            digits.push(*byte)?;
        }
    }
    Ok(digits)
}

/// The bytes that a text of hexadecimal digits stands for; `None` if it isn't such a text, or is too long.
fn bytes_of(alloc: Global, text: &[u8]) -> Result<Option<Vec<u8>>, AllocError> {
    let digits = without_blanks(alloc, text)?;
    match hex::decode(alloc, digits) {
        Ok(bytes) if text.len() <= 8_388_608 => Ok(Some(bytes)),
        Err(FromHexError::OutOfMemory) => Err(AllocError),
        _ => Ok(None),
    }
}

/// Adds what a context runs, and what that waits for.
fn put_running(
    out: &mut String,
    table: &ItemTable<'_, Global>,
    core: &Core<Global>,
    context: &Context,
) -> Result<(), AllocError> {
    out.push_str(" runs ")?;
    let running = core.running_in(*context);
    put_item_or_none(out, table, running.map(|r| r.entry.item))?;
    out.push_str(" waits ")?;
    let (target, whole) = match core.running_in(*context).and_then(|r| r.waiting) {
        None => (None, None),
        Some(waiting) if waiting.whole => (None, Some(waiting.target)),
        Some(waiting) => (Some(waiting.target), None),
    };
    put_waiting(out, table, target, whole)
}

/// Adds the state of a lane, without its helpers.
fn put_lane(
    out: &mut String,
    table: &ItemTable<'_, Global>,
    core: &Core<Global>,
    q: LaneId,
) -> Result<(), AllocError> {
    write!(out, "lane {}", q.get())?;
    put_running(out, table, core, &Context::rescuer(q))?;
    out.push_str(" pending")?;
    for i in 0..table.len() {
        let item = ItemId::new(i);
        if usize::from(i) < core.items() && core.lane_of(item) == q && core.is_pending(item) {
            out.push(' ')?;
            put_item_or_none(out, table, Some(item))?;
        }
    }
    out.push('\n')
}

/// Adds the state of the helpers of a lane.
fn put_helpers(
    out: &mut String,
    table: &ItemTable<'_, Global>,
    core: &Core<Global>,
    helpers: u8,
    lane: LaneId,
) -> Result<(), AllocError> {
    for h in 0..helpers {
        let context = Context {
            lane,
            number: h + 1,
        };
        put_context(out, &context)?;
        put_running(out, table, core, &context)?;
        out.push('\n')?;
    }
    Ok(())
}

/// Adds the state of a machine, with this many helpers for each lane.
fn put_replay(
    out: &mut String,
    table: &ItemTable<'_, Global>,
    core: &Core<Global>,
    helpers: u8,
) -> Result<(), AllocError> {
    writeln!(out, "next {}", core.next_number())?;
    for q in 0..u16::try_from(core.lanes()).unwrap_or(u16::MAX) {
        put_lane(out, table, core, LaneId::new(q))?;
        put_helpers(out, table, core, helpers, LaneId::new(q))?;
    }
    Ok(())
}

/// Adds a judgement. Returns the status.
fn put_judgement(out: &mut String, judgement: Result<u32, RowError>) -> Result<u8, AllocError> {
    match judgement {
        Ok(rows) => {
            writeln!(out, "legal {rows}")?;
            Ok(0)
        }
        Err(error) if error.why == RowFault::OutOfMemory => Err(AllocError),
        Err(error) => {
            writeln!(out, "refused {} at {}", error.why.code(), error.at)?;
            Ok(1)
        }
    }
}

/// Judges packed rows on a machine on which nothing has happened, and adds the
/// judgement and the state that they leave. Returns the status.
fn judge_rows(
    alloc: Global,
    table: &ItemTable<'_, Global>,
    core: &mut Core<Global>,
    helpers: u8,
    packed: &[u8],
    out: &mut String,
) -> Result<u8, AllocError>
    requires new { core.old.state ≡ empty_state core.old.wiring }
    requires few { length packed.now ≤ 12 * MAX_ROWS }
{
    let judgement = check_rows(alloc, core, packed);
    let status = put_judgement(out, judgement)?;
    put_replay(out, table, core, helpers)?;
    Ok(status)
}

/// Judges the rows in a text, and adds the judgement and the state that they leave. Returns the status.
pub(crate) fn judge(
    alloc: Global,
    bed: &Bed<'_>,
    text: &[u8],
    out: &mut String,
) -> Result<u8, AllocError> {
    let helpers = bed.helpers.min(MAX_HELPERS);
    match bytes_of(alloc, text)? {
        Some(packed) if packed.len() <= 12 * MAX_ROWS as usize => {
            let declared = bed.declared;
            let Declaration { table, groups } = declared;
            let mut core = Core::with_helpers(alloc, table, groups, bed.assignment, helpers)?;
            let status = judge_rows(alloc, table, &mut core, helpers, &packed, out);
            drop(core);
            status
        }
        _ => {
            out.push_str("mistake\n")?;
            Ok(2)
        }
    }
}
