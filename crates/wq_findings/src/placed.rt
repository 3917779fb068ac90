//! Which items are on which lines of workqueues, in a certificate that is refused because of that.
//!
//! It takes time linear in the length of the text. If a group is split, each name on its line is compared with the
//! group of each item.

ghost use Rattle.std.specs.Prelude.{◌<◌, length};

use crate::finding::Finding;
use crate::hint::Hint;
use crate::quoted::Quoted;
use crate::refused::Refused;
use crate::stage::Stage;
use crate::token::{Token, first_word, stands_before};
use crate::what::{Unplaced, What};
use crate::workqueue::Workqueue;
use std::alloc::{AllocError, Allocator};
use wq_items::{ItemId, ItemTable};
use wq_text::Line;

/// For each item, the number of the first line of a workqueue that it is on; 0 if it is on none.
#[derive(Drop)]
struct Places<A: Allocator> {
    lines: Vec<u32, A>,
}

impl<A: Allocator + Copy> Places<A> {
    /// The places of the items on the lines of workqueues above line `no`, or on all of them if `no` is 0.
    fn above(alloc: A, refused: &Refused<'_, '_, A>, no: u32) -> Result<Self, AllocError> {
        let mut places = Places {
            lines: vec![in alloc; 0; usize::from(refused.table.len())]?,
        };
        places.add_lines(refused, no);
        Ok(places)
    }

    /// Adds the items on the lines of workqueues above line `no`, or on all of them if `no` is 0.
    fn add_lines(&mut self, refused: &Refused<'_, '_, A>, no: u32) {
        let mut stage = None;
        for line in refused.text.lines() {
            let word = first_word(&line);
            if word.is_empty() {
                continue;
            }
            let here = stage.unwrap_or(Stage::first(refused.kind, word));
            if line.no() == no {
                return;
            }
            if matches!(here, Stage::Workqueue { .. }) {
                if !here.may_begin_with(word) {
                    return;
                }
                self.add(refused.table, &line);
            }
            stage = Some(here.behind(&line));
        }
    }

    /// Adds the items on the line of a workqueue that are on no line above.
    fn add(&mut self, table: &ItemTable<'_, A>, line: &Line<'_>) {
        for word in line.words().skip(2) {
            if let Some(item) = table.find(word.bytes())
                && let Some(place) = self.lines.get_mut(usize::from(item.get()))
                && *place == 0
            {
                *place = line.no();
            }
        }
    }

    /// The line that an item is on.
    fn line_of(&self, item: ItemId) -> Option<u32> {
        match self.lines.get(usize::from(item.get())) {
            Some(0) | None => None,
            Some(line) => Some(*line),
        }
    }
}

/// The items that are on no workqueue.
pub(crate) fn find_unplaced<'a, A: Allocator + Copy>(
    alloc: A,
    refused: &Refused<'_, 'a, A>,
) -> Result<Unplaced<'a>, AllocError> {
    let places = Places::above(alloc, refused, 0)?;
    Ok(unplaced(refused.table, &places))
}

/// The items that have no place.
fn unplaced<'a, A: Allocator + Copy>(table: &ItemTable<'a, A>, places: &Places<A>) -> Unplaced<'a> {
    let mut unplaced = Unplaced::none();
    for i in 0..table.len() {
        let item = ItemId::new(i);
        if places.line_of(item).is_none() {
            unplaced.add(Quoted(table.name(item)));
        }
    }
    unplaced
}

/// The finding that an item is on a second workqueue, or twice on one.
pub(crate) fn find_twice<'a, A: Allocator + Copy>(
    alloc: A,
    refused: &Refused<'_, 'a, A>,
    line: &Line<'a>,
) -> Result<Finding<'a>, AllocError> {
    let places = Places::above(alloc, refused, line.no())?;
    Ok(placed_twice(refused, &places, line))
}

/// The finding for the first item of a line that has a place already, or comes earlier on the line, too.
fn placed_twice<'a, A: Allocator + Copy>(
    refused: &Refused<'_, 'a, A>,
    places: &Places<A>,
    line: &Line<'a>,
) -> Finding<'a> {
    for word in line.words().skip(2) {
        let word = Token::of(line, &word);
        if let Some(item) = refused.table.find(word.bytes)
            && let Some(first) = places.line_of(item)
        {
            return Finding::marked(
                word.mark,
                What::PlacedAlready(word.quoted()),
                Hint::On(first, Workqueue::on(refused.text, first)),
            );
        }
        if stands_before(line, 2, word) {
            return Finding::twice_on_line(word);
        }
    }
    Finding::whole(What::Said("an item of the line is on a workqueue already"))
}

/// A member of an item's group that is on a line above.
fn placed_member<'a, A: Allocator + Copy>(
    refused: &Refused<'_, 'a, A>,
    places: &Places<A>,
    item: ItemId,
) -> Option<(&'a [u8], u32)>
    requires { item < length refused.now.table.now.names }
{
    for i in 0..refused.table.len() {
        let other = ItemId::new(i);
        if refused.groups.of(other) == refused.groups.of(item)
            && let Some(line) = places.line_of(other)
        {
            return Some((refused.table.name(other), line));
        }
    }
    None
}

/// The finding that the group of an item is on another workqueue already.
pub(crate) fn find_split<'a, A: Allocator + Copy>(
    alloc: A,
    refused: &Refused<'_, 'a, A>,
    line: &Line<'a>,
) -> Result<Finding<'a>, AllocError> {
    let places = Places::above(alloc, refused, line.no())?;
    Ok(split(refused, &places, line))
}

/// The finding for the first item of a line whose group has a place already.
fn split<'a, A: Allocator + Copy>(
    refused: &Refused<'_, 'a, A>,
    places: &Places<A>,
    line: &Line<'a>,
) -> Finding<'a> {
    for word in line.words().skip(2) {
        if let Some(item) = refused.table.find(word.bytes())
            && let Some((other, first)) = placed_member(refused, places, item)
        {
            let word = Token::of(line, &word);
            let what = What::Split(word.quoted(), Quoted(other));
            let hint = Hint::OtherOn(first, Workqueue::on(refused.text, first));
            return Finding::marked(word.mark, what, hint);
        }
    }
    Finding::whole(What::Said("a group of the line is on another workqueue too"))
}
