//! The note beside `safe`: which items are on workqueues without a rescuer.
//!
//! Nothing guarantees that such items run while memory is short, and `safe` says nothing about them. The form is that
//! of "Diagnoses" in docs/FORMAT.md. A call takes time linear in the number of items, and the time and the memory of
//! the words.

ghost use Rattle.std.specs.Prelude.{◌≡◌, ◌++◌, ◌<◌, IfOk, OnOk, codes, flat_map, length, map, option_map};
ghost use Rattle.std.specs.List.{All};
ghost use Rattle.wq_voice.specs.Note.{bare_items, bare_note, listed, placed_item, NotesItems};

use std::alloc::{AllocError, Allocator};
use wq_core::Assigned;
use wq_deadlock::is_on_bare;
use wq_diagnosis::{item_words, of_no_item, put_line, workqueue_of, workqueue_words};
use wq_groups::Declaration;
use wq_items::ItemId;
use wq_names::messages;
use wq_text::put;

/// The items on workqueues without a rescuer.
pub(crate) fn bare_items<A: Allocator + Copy>(
    alloc: A,
    assigned: &Assigned<'_, '_, A>,
) -> Result<Vec<ItemId, A>, AllocError>
    ensures items { IfOk result (λ items. items.items
        ≡ bare_items assigned.now.declared assigned.now.workqueues) }
    ensures within { IfOk result (λ items. All (λ i. i < length assigned.now.declared.table.names) items.items) }
{
    let mut items = Vec::new(alloc);
    for number in 0..assigned.table().len() {
        let item = ItemId::new(number);
        if is_on_bare(assigned, item) {
            items.push(item)?;
        }
    }
    Ok(items)
}

/// An item and its workqueue.
fn placed_item<A: Allocator + Copy>(
    alloc: A,
    assigned: &Assigned<'_, '_, A>,
    names: &[&[u8]],
    item: ItemId,
) -> Result<Vec<u8, A>, AllocError>
    requires item { item < length assigned.now.declared.table.names }
    ensures { IfOk result (λ words. words.items
        ≡ placed_item assigned.now.declared assigned.now.workqueues
        (map (λ n. n.now) names.now) item) }
{
    let _table = assigned.table();
    let workqueue = workqueue_words(alloc, names, workqueue_of(assigned, item))?;
    let item = item_words(alloc, assigned.declared, item)?;
    messages::item_on_workqueue(alloc, &item, &workqueue)
}

/// These items, each with its workqueue.
pub(crate) fn placed_items<A: Allocator + Copy>(
    alloc: A,
    assigned: &Assigned<'_, '_, A>,
    names: &[&[u8]],
    items: &[ItemId],
) -> Result<Vec<Vec<u8, A>, A>, AllocError>
    requires items { All (λ i. i < length assigned.now.declared.table.names) items.now }
    ensures { IfOk result (λ placed. map (λ words. words.items) placed.items
        ≡ map (placed_item assigned.now.declared assigned.now.workqueues
        (map (λ n. n.now) names.now)) items.now) }
{
    let mut placed = Vec::new(alloc);
    for item in items {
        placed.push(placed_item(alloc, assigned, names, *item)?)?;
    }
    Ok(placed)
}

/// Adds the texts, each after a comma.
fn put_others<A: Allocator + Copy>(
    out: &mut Vec<u8, A>,
    others: &[Vec<u8, A>],
) -> Result<(), AllocError>
    ensures { OnOk result (out.new.items
        ≡ out.old.items ++ flat_map (λ other. codes ", " ++ other) (map (λ words. words.items) others.now)) }
{
    for other in others {
        put(out, b", ")?;
        put(out, other)?;
    }
    Ok(())
}

/// Adds the texts, with a comma between each two.
fn put_listed<A: Allocator + Copy>(
    out: &mut Vec<u8, A>,
    items: &[Vec<u8, A>],
) -> Result<(), AllocError>
    ensures { OnOk result (out.new.items ≡ out.old.items ++ listed (map (λ words. words.items) items.now)) }
{
    match items {
        [] => Ok(()),
        [one, more @ ..] => {
            put(out, one)?;
            put_others(out, more)
        }
    }
}

/// The texts, with a comma between each two.
pub(crate) fn listed<A: Allocator + Copy>(
    alloc: A,
    items: &[Vec<u8, A>],
) -> Result<Vec<u8, A>, AllocError>
    ensures { IfOk result (λ words. words.items ≡ listed (map (λ words. words.items) items.now)) }
{
    let mut words = Vec::new(alloc);
    put_listed(&mut words, items)?;
    Ok(words)
}

/// The note about these items.
fn bare_note<A: Allocator + Copy>(
    alloc: A,
    file: &str,
    items: &[Vec<u8, A>],
) -> Result<Vec<u8, A>, AllocError>
    ensures { IfOk result (λ said. said.items ≡ bare_note file.now (map (λ words. words.items) items.now)) }
{
    let items = listed(alloc, items)?;
    let note = messages::nothing_guarantees(alloc, file.as_bytes(), &items)?;
    let advice = messages::declare_who_waits(alloc, file.as_bytes())?;
    let mut out = Vec::new(alloc);
    put_line(&mut out, &note)?;
    put_line(&mut out, &advice)?;
    Ok(out)
}

/// What is said of these items in the second file; if there are none, what is said of a declaration without an item.
pub(crate) fn of_items<A: Allocator + Copy>(
    alloc: A,
    declared: &Declaration<'_, A>,
    first: &str,
    second: &str,
    items: &[Vec<u8, A>],
) -> Result<Option<Vec<u8, A>>, AllocError>
    ensures { IfOk result (λ said. NotesItems first.now second.now declared.now (map (λ words. words.items) items.now)
        (option_map (λ text. text.items) said)) }
{
    if items.is_empty() {
        return of_no_item(alloc, declared, first);
    }
    let said = bare_note(alloc, second, items)?;
    Ok(Some(said))
}
