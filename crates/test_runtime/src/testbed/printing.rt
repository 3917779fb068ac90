//! What is printed, piece by piece.

use std::alloc::{AllocError, Global};
use std::str;
use wq_api::CallError;
use wq_core::Context;
use wq_items::{ItemId, ItemTable};

/// Adds the refusal of a text. Returns the status.
pub fn refuse_text(out: &mut String, code: u32, line: u32) -> Result<u8, AllocError> {
    writeln!(out, "refused {code} line {line}")?;
    Ok(2)
}

/// Adds that there is a mistake on a line. Returns the status.
pub fn mistake(out: &mut String, line: u32) -> Result<u8, AllocError> {
    writeln!(out, "mistake line {line}")?;
    Ok(2)
}

/// Adds that there was a fault. Returns the status.
pub fn fault(out: &mut String, what: &str) -> Result<u8, AllocError> {
    writeln!(out, "fault {what}")?;
    Ok(1)
}

/// Adds the refusal of a call.
pub fn put_code(out: &mut String, code: u32) -> Result<(), AllocError> {
    write!(out, "refused {code}")
}

/// Adds the answer of a call that says nothing more.
pub fn put_done(out: &mut String, done: Result<(), CallError>) -> Result<(), AllocError> {
    match done {
        Ok(()) => out.push_str("ok"),
        Err(error) => put_code(out, error.code()),
    }
}

/// Adds which context it is: a lane's rescuer, or one of its helpers.
pub fn put_context(out: &mut String, context: &Context) -> Result<(), AllocError> {
    write!(out, "lane {}", context.lane.get())?;
    if context.number == 0 {
        return Ok(());
    }
    write!(out, " helper {}", context.number)
}

/// Adds the name of an item, or `-` if it has none.
pub fn put_item(
    out: &mut String,
    table: &ItemTable<'_, Global>,
    item: ItemId,
) -> Result<(), AllocError> {
    if item.get() < table.len() {
        out.push_str(str::from_utf8(table.name(item)).unwrap_or("-"))
    } else {
        out.push('-')
    }
}

/// Adds the name of an item, or `-` if there is no item.
pub fn put_item_or_none(
    out: &mut String,
    table: &ItemTable<'_, Global>,
    item: Option<ItemId>,
) -> Result<(), AllocError> {
    match item {
        Some(item) => put_item(out, table, item),
        None => out.push('-'),
    }
}

/// Adds what an entry waits for: an item, the whole lane of an item, or nothing.
pub fn put_waiting(
    out: &mut String,
    table: &ItemTable<'_, Global>,
    target: Option<ItemId>,
    whole: Option<ItemId>,
) -> Result<(), AllocError> {
    match (target, whole) {
        (target, None) => put_item_or_none(out, table, target),
        (None, Some(item)) => {
            out.push_str("wq:")?;
            put_item(out, table, item)
        }
        (Some(_), Some(_)) => out.push_str("wq:?"),
    }
}
