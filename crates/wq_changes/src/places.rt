//! Where workqueues and items are in the text of an assignment.
//!
//! The text is read once, so thousands of changes take no longer than one. Memory is linear in the number of items and
//! workqueues.

ghost use Rattle.wq_changes.specs.Changes.{IsOf};

use crate::change::Change;
use crate::words::first_item;
use std::alloc::{AllocError, Allocator};
use wq_diagnosis::lines_of;
use wq_groups::{Declaration, LaneId};
use wq_items::{ItemId, ItemTable};
use wq_text::{Line, Word};

/// A line and a column of a text, each from 1; 0 if there is none.
#[derive(Clone, Copy, Debug, PartialEq, Eq)]
pub(crate) struct Place {
    pub(crate) line: u32,
    pub(crate) column: u32,
}

impl Place {
    /// No place.
    const NOWHERE: Place = Place { line: 0, column: 0 };

    /// Where a word of this line begins.
    fn of(line: &Line<'_>, word: &Word<'_>) -> Place {
        let before = word.span().start.saturating_sub(line.span().start);
        Place {
            line: line.no(),
            column: before.saturating_add(1),
        }
    }
}

/// Where the line of each workqueue begins, and where each item is.
#[derive(Drop)]
pub(crate) struct Places<A: Allocator> {
    lanes: Vec<Place, A>,
    items: Vec<Place, A>,
}

impl<A: Allocator + Copy> Places<A> {
    /// The places in the text of an assignment of these items.
    pub(crate) fn new(alloc: A, table: &ItemTable<'_, A>, text: &[u8]) -> Result<Self, AllocError> {
        let mut places = Places {
            lanes: Vec::new(alloc),
            items: vec![in alloc; Place::NOWHERE; usize::from(table.len())]?,
        };
        for line in lines_of(text).lines() {
            places.note_line(table, &line)?;
        }
        Ok(places)
    }

    /// Notes a line, if it is that of a workqueue.
    fn note_line(&mut self, table: &ItemTable<'_, A>, line: &Line<'_>) -> Result<(), AllocError> {
        let mut words = line.words();
        let Some(first) = words.next() else {
            return Ok(());
        };
        if first.bytes() != b"wq".as_slice() && first.bytes() != b"norescuer".as_slice() {
            return Ok(());
        }
        self.lanes.push(Place::of(line, &first))?;
        for word in words.skip(1) {
            if let Some(item) = table.find(word.bytes()) {
                self.note_item(item, Place::of(line, &word));
            }
        }
        Ok(())
    }

    /// Notes where an item is.
    fn note_item(&mut self, item: ItemId, place: Place) {
        let at = usize::from(item.get());
        if at < self.items.len() {
            self.items[at] = place;
        }
    }

    /// Where the line of a workqueue begins.
    fn of_lane(&self, lane: LaneId) -> Place {
        match self.lanes.get(usize::from(lane.get())) {
            Some(place) => *place,
            None => Place::NOWHERE,
        }
    }

    /// Where an item is.
    fn of_item(&self, item: ItemId) -> Place {
        match self.items.get(usize::from(item.get())) {
            Some(place) => *place,
            None => Place::NOWHERE,
        }
    }

    /// The place of a change: of the line of its workqueue, or of the first item of its group.
    pub(crate) fn of_change(&self, declared: &Declaration<'_, A>, change: &Change) -> Place
        requires { IsOf declared.now.partition.groups change.now }
    {
        match change {
            Change::Given(lane) => self.of_lane(*lane),
            Change::Moved(group) => self.of_item(first_item(declared, *group)),
        }
    }
}
