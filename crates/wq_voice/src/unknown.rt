//! What is said of a NAME that is no item's.
//!
//! A call takes the time of finding the names; and for the first that isn't found, of searching the text of the
//! declaration for one that is like it.

ghost use Rattle.std.specs.Prelude.{◌≡◌, ◌++◌, ℕ, Some, IfOk, OnOk, IfSome, map, option_map};
ghost use Rattle.wq_items.specs.Table.{item_named};
ghost use Rattle.wq_voice.specs.Unknown.{SaysFirstUnknown, SaysNoItem, first_unknown, meant_line, unknown_line};

use std::alloc::{AllocError, Allocator};
use wq_diagnosis::{Source, lines_of, put_line};
use wq_findings::nearest_item;
use wq_groups::Declaration;
use wq_items::ItemTable;
use wq_names::messages;
use wq_text::Text;

/// The first of these names that is no item's.
fn first_unknown<'a, A: Allocator + Copy>(
    table: &ItemTable<'_, A>,
    names: &[&'a str],
) -> Option<&'a str>
    ensures { option_map (λ n. n.now) result ≡ first_unknown table.now.names (map (λ n. n.now) names.now) }
{
    for name in names {
        if table.find(name.as_bytes()).is_none() {
            return Some(*name);
        }
    }
    None
}

/// That this is the name of no item.
fn unknown_line<A: Allocator + Copy>(
    alloc: A,
    file: &str,
    name: &str,
) -> Result<Vec<u8, A>, AllocError>
    ensures { IfOk result (λ text. text.items ≡ unknown_line file.now name.now) }
{
    let line = messages::unknown_item(alloc, file.as_bytes(), name.as_bytes())?;
    let mut text = Vec::new(alloc);
    put_line(&mut text, &line)?;
    Ok(text)
}

/// The item that was most likely meant, if the name of one is like this one.
fn item_meant<'a, A: Allocator + Copy>(
    alloc: A,
    declaration: &Text<'a>,
    table: &ItemTable<'_, A>,
    name: &str,
) -> Result<Option<&'a [u8]>, AllocError>
    ensures { IfOk result (λ near. IfSome near (λ item. (i : ℕ) × (item_named table.now.names item.now ≡ Some i))) }
{
    match nearest_item(alloc, declaration, name.as_bytes())? {
        Some(item) if table.find(item).is_some() => Ok(Some(item)),
        _ => Ok(None),
    }
}

/// Adds that this item was most likely meant.
fn put_meant<A: Allocator + Copy>(
    alloc: A,
    text: &mut Vec<u8, A>,
    file: &str,
    item: &[u8],
) -> Result<(), AllocError>
    ensures { OnOk result (text.new.items ≡ text.old.items ++ meant_line file.now item.now) }
{
    let line = messages::did_you_mean(alloc, file.as_bytes(), item)?;
    put_line(text, &line)
}

/// That this is the name of no item, and which item was most likely meant.
fn text_with_meant<A: Allocator + Copy>(
    alloc: A,
    file: &str,
    name: &str,
    item: &[u8],
) -> Result<Vec<u8, A>, AllocError>
    ensures { IfOk result (λ text. text.items ≡ unknown_line file.now name.now ++ meant_line file.now item.now) }
{
    let mut text = unknown_line(alloc, file, name)?;
    put_meant(alloc, &mut text, file, item)?;
    Ok(text)
}

/// What is said of a name that is that of no item.
fn of_name<A: Allocator + Copy>(
    alloc: A,
    declaration: Source<'_>,
    table: &ItemTable<'_, A>,
    name: &str,
) -> Result<Vec<u8, A>, AllocError>
    ensures { IfOk result (λ text. SaysNoItem declaration.entry.file.now table.now.names name.now text.items) }
{
    match item_meant(alloc, &lines_of(declaration.text), table, name)? {
        Some(item) => text_with_meant(alloc, declaration.file, name, item),
        None => unknown_line(alloc, declaration.file, name),
    }
}

/// What is said of the first of these names that is no declared item's; nothing if there is no such name.
///
/// The only error is out of memory (20).
pub fn say_unknown<A: Allocator + Copy>(
    alloc: A,
    declaration: Source<'_>,
    declared: &Declaration<'_, A>,
    names: &[&str],
) -> Result<Option<Vec<u8, A>>, AllocError>
    ensures { IfOk result (λ said. SaysFirstUnknown declaration.entry.file.now declared.now.table.names
        (first_unknown declared.now.table.names (map (λ n. n.now) names.now)) (option_map (λ text. text.items) said)) }
{
    let table = &declared.table;
    match first_unknown(table, names) {
        Some(name) => Ok(Some(of_name(alloc, declaration, table, name)?)),
        None => Ok(None),
    }
}
