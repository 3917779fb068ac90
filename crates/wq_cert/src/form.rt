//! What the words of one line say, if they have the expected form.
//!
//! The forms are those of "Certificates" and "Run texts" in docs/FORMAT.md. No keyword, number or name holds a byte
//! that is forbidden in a line, so a line with such a byte before its comment has no form. Each function takes time
//! linear in the length of the words; `items_of` and `wq_form` take memory linear in the number of items.

ghost use Rattle.std.specs.Prelude.{◌≡◌, IfOk, option_map, bytes_eq, codes};
ghost use Rattle.wq_cert.specs.Forms.{number_of, items_of, begins_with, count_form, wq_form, arc_form};
ghost use Rattle.wq_cert.specs.Lines.{bytes_of, cert_line};
ghost use Rattle.wq_cert.specs.Noted.{said_line};
ghost use Rattle.wq_cert.specs.Reading.{wq_word, with_wq};

use std::alloc::{AllocError, Allocator};
use wq_items::{ItemId, ItemTable};
use wq_text::{Line, Words, number};

/// The number that a word spells, if the word is its one spelling.
pub(crate) fn number_of(word: &[u8]) -> Option<u32>
    ensures { result ≡ number_of word.now }
{
    number(word)
}

/// Whether a line is that of a workqueue: its first word is `wq` or, if `bare`, `norescuer`.
pub(crate) fn begins_wq(line: &Line<'_>, bare: bool) -> bool
    ensures { result ≡ begins_with (codes "wq") (said_line bare line.now).words }
{
    match line.words().next() {
        Some(word) => is_wq(word.bytes(), bare),
        None => false,
    }
}

/// Whether the first word of a line is `keyword`.
pub(crate) fn begins_with(line: &Line<'_>, keyword: &[u8]) -> bool
    ensures { result ≡ begins_with keyword.now (cert_line line.now).words }
{
    match line.words().next() {
        Some(word) => word.bytes() == keyword,
        None => false,
    }
}

/// The number N of `KEYWORD N`.
pub(crate) fn count_form(keyword: &[u8], mut words: Words<'_>) -> Option<u32>
    ensures { result ≡ count_form keyword.now (bytes_of words.entry) }
{
    let word = words.next()?;
    let count = words.next()?;
    if words.next().is_some() || word.bytes() != keyword {
        return None;
    }
    number_of(count.bytes())
}

/// The items with these names, if each is declared. The only error is out of memory.
pub(crate) fn items_of<A: Allocator + Copy>(
    alloc: A,
    table: &ItemTable<'_, A>,
    words: Words<'_>,
) -> Result<Option<Vec<ItemId, A>>, AllocError>
    ensures { IfOk result (λ items. option_map (λ v. v.items) items ≡ items_of table.now.names (bytes_of words.entry)) }
{
    let mut items = Vec::new(alloc);
    for word in words {
        let Some(item) = table.find(word.bytes()) else {
            return Ok(None);
        };
        items.push(item)?;
    }
    Ok(Some(items))
}

/// Whether a word begins the line of a workqueue: `wq` or, if `bare`, `norescuer`.
fn is_wq(word: &[u8], bare: bool) -> bool
    ensures { result ≡ bytes_eq (wq_word bare word.now) (codes "wq") }
{
    word == b"wq".as_slice() || bare && word == b"norescuer".as_slice()
}

/// The number and the items of `wq Q NAME..` or, if `bare`, `norescuer Q NAME..`. The only error is out of memory.
pub(crate) fn wq_form<A: Allocator + Copy>(
    alloc: A,
    table: &ItemTable<'_, A>,
    mut words: Words<'_>,
    bare: bool,
) -> Result<Option<(u32, Vec<ItemId, A>)>, AllocError>
    ensures { IfOk result (λ workqueue. option_map (λ q. (q.0, q.1.items)) workqueue
        ≡ wq_form table.now.names (with_wq bare (bytes_of words.entry))) }
{
    let Some(word) = words.next() else {
        return Ok(None);
    };
    let Some(number) = words.next() else {
        return Ok(None);
    };
    if !is_wq(word.bytes(), bare) {
        return Ok(None);
    }
    let Some(number) = number_of(number.bytes()) else {
        return Ok(None);
    };
    let Some(items) = items_of(alloc, table, words)? else {
        return Ok(None);
    };
    Ok(Some((number, items)))
}

/// The item and the target of `arc NAME TARGET`.
pub(crate) fn arc_form<A: Allocator + Copy>(
    table: &ItemTable<'_, A>,
    mut words: Words<'_>,
) -> Option<(ItemId, ItemId)>
    ensures { result ≡ arc_form table.now.names (bytes_of words.entry) }
{
    let word = words.next()?;
    let item = words.next()?;
    let target = words.next()?;
    if words.next().is_some() || word.bytes() != b"arc".as_slice() {
        return None;
    }
    let item = table.find(item.bytes())?;
    let target = table.find(target.bytes())?;
    Some((item, target))
}
