//! Unsure parts of run texts: which unsure flushes a run keeps, each on a line as it is declared.
//!
//! The format is that of "Run texts" in docs/FORMAT.md. Printing takes time and memory linear in the length of the text
//! and the number of items and flushes.

ghost use Rattle.std.specs.Prelude.{◌≡◌, ◌<◌, ◌≤◌, ◌++◌, ◌∷◌, [], ◌^◌, length, map, filter_map, flat_map, OnOk, IfOk};
ghost use Rattle.std.specs.Prelude.{None, slice_index_or};
ghost use Rattle.std.specs.List.{All, list_any, range_with_len};
ghost use Rattle.wq_text.specs.LineText.{line_text};
ghost use Rattle.wq_items.specs.Table.{IsTable, flush_count};
ghost use Rattle.wq_items.specs.declared.target.Target.{Target};
ghost use Rattle.wq_core.specs.declared.step.Step.{Step};
ghost use Rattle.wq_core.specs.Runs.{HasNoHelp};
ghost use Rattle.wq_cert.specs.RunText.{step_item};
ghost use Rattle.wq_cert.specs.Part.{has_unsure, part_text, reading_text, unsure_at, unsure_line, unsure_word};

use crate::run_printing::put_run;
use std::alloc::{AllocError, Allocator};
use wq_core::Step;
use wq_items::{ItemId, ItemTable, Target};
use wq_text::{put, put_end, put_number, put_word};

/// Whether any of these flushes is unsure.
fn is_any_unsure(targets: &[Target]) -> bool
    ensures { result ≡ list_any (λ (t : Target). t.unsure) targets.now }
{
    targets.iter().any(|target| target.unsure)
}

/// Whether any flush is unsure.
pub fn has_unsure<A: Allocator + Copy>(table: &ItemTable<'_, A>) -> bool
    ensures { result ≡ has_unsure table.now.waits }
{
    for number in 0..table.len() {
        if is_any_unsure(table.waits(ItemId::new(number))) {
            return true;
        }
    }
    false
}

/// For each place, the flush there with its item, if it is unsure.
fn unsure_by_place<A: Allocator + Copy>(
    alloc: A,
    table: &ItemTable<'_, A>,
) -> Result<Vec<Option<(ItemId, Target)>, A>, AllocError>
    ensures flushes { IfOk result (λ flushes. flushes.items
        ≡ map (unsure_at table.now.waits) (range_with_len 0 (flush_count table.now.waits))) }
    ensures table { IsTable table.now }
{
    let items = table.len();
    let mut flushes = vec![in alloc; None; table.flushes() as usize]?;
    for number in 0..items {
        let item = ItemId::new(number);
        for target in table.waits(item) {
            if target.unsure {
                flushes[target.place as usize] = Some((item, *target));
            }
        }
    }
    Ok(flushes)
}

/// The first word of the line that declares an unsure flush.
fn unsure_word(whole: bool) -> &'static [u8]
    ensures { result.now ≡ unsure_word whole }
{
    if whole { b"flushwq?" } else { b"flush?" }
}

/// Appends the line that declares an unsure flush of an item.
///
/// The only error is out of memory (20).
pub fn put_unsure_line<A: Allocator + Copy>(
    out: &mut Vec<u8, A>,
    table: &ItemTable<'_, A>,
    item: ItemId,
    target: Target,
) -> Result<(), AllocError>
    requires item { item < length table.now.names }
    requires target { target.item < length table.now.names }
    ensures { OnOk result (out.new.items
        ≡ out.old.items ++ line_text (unsure_line table.now.names (item, target))) }
{
    put(out, unsure_word(target.whole))?;
    put_word(out, table.name(item))?;
    put_word(out, table.name(target.item))?;
    put_end(out)
}

/// The unsure flush at this place with its item, if there is one.
fn at_place(flushes: &[Option<(ItemId, Target)>], place: u32) -> Option<(ItemId, Target)>
    ensures { result ≡ slice_index_or flushes.now place None }
{
    match flushes.get(place as usize) {
        Some(flush) => *flush,
        None => None,
    }
}

/// Appends the lines of the unsure flushes at the places `kept`.
fn put_unsure_lines<A: Allocator + Copy>(
    out: &mut Vec<u8, A>,
    table: &ItemTable<'_, A>,
    flushes: &[Option<(ItemId, Target)>],
    kept: &[u32],
) -> Result<(), AllocError>
    requires flushes { flushes.now
        ≡ map (unsure_at table.now.waits) (range_with_len 0 (flush_count table.now.waits)) }
    requires table { IsTable table.now }
    ensures { OnOk result (out.new.items ≡ out.old.items
        ++ flat_map line_text (map (unsure_line table.now.names) (filter_map (unsure_at table.now.waits) kept.now))) }
{
    for place in kept {
        if let Some(flush) = at_place(flushes, *place) {
            put_unsure_line(out, table, flush.0, flush.1)?;
        }
    }
    Ok(())
}

/// Appends the unsure part of the reading that keeps the unsure flushes at the places `kept`, if any flush is unsure.
fn put_part<A: Allocator + Copy>(
    alloc: A,
    out: &mut Vec<u8, A>,
    table: &ItemTable<'_, A>,
    kept: &[u32],
) -> Result<(), AllocError>
    requires few { length kept.now < 2 ^ 32 }
    ensures { OnOk result (out.new.items ≡ out.old.items ++ part_text table.now.names table.now.waits kept.now) }
{
    if !has_unsure(table) {
        return Ok(());
    }
    put(out, b"unsure")?;
    put_number(out, kept.len() as u32)?;
    put_end(out)?;
    let flushes = unsure_by_place(alloc, table)?;
    put_unsure_lines(out, table, flushes.as_slice(), kept)
}

/// The text of a run of the reading that keeps the unsure flushes at the places `kept`: its unsure part, if any flush
/// is unsure, the number of steps, and then the steps.
///
/// There must be fewer than 2^32 places and fewer than 2^32 steps, of items of the table and none by a helper. The only
/// error is out of memory (20).
pub fn reading_text<A: Allocator + Copy>(
    alloc: A,
    table: &ItemTable<'_, A>,
    kept: &[u32],
    steps: &[Step],
) -> Result<Vec<u8, A>, AllocError>
    requires few_places { length kept.now < 2 ^ 32 }
    requires few { length steps.now < 2 ^ 32 }
    requires items { All (λ (step : Step). step_item step < length table.now.names) steps.now }
    requires no_help { HasNoHelp steps.now }
    ensures { IfOk result (λ text. text.items
        ≡ reading_text table.now.names table.now.waits kept.now steps.now) }
{
    let mut out = Vec::new(alloc);
    put_part(alloc, &mut out, table, kept)?;
    put_run(&mut out, table, steps)?;
    Ok(out)
}
