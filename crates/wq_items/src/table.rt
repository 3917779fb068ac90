//! The table of items: their names, where these stand, and what each item flushes.
//!
//! The rules are those of "Items and groups" in docs/FORMAT.md. An `ordered` line changes nothing in the table; only
//! its names are looked up here.
//!
//! Reading takes time linear in the length of the text, on average, and memory linear in the number of items and
//! flushes. Each name is looked up once, and once more on a line that is refused. While the lines are read, all flushes
//! are in one vector, in order of place (`Building`); at the end they are sorted by item. Afterwards each query takes
//! constant time, but `find` takes the time to hash a name.

ghost use Rattle.std.specs.Prelude.{◌≡◌, ◌+◌, ◌^◌, ◌<◌, ◌≤◌, ℕ, [], true, false, length, Ok, Err, IfOk, IfErr, IfSome};
ghost use Rattle.std.specs.Prelude.{IfNone, OnErr, IsOk, slice_get, slice_set, Some, IsTrue, ◌↔◌, ◌∷◌, ◌++◌};
ghost use Rattle.std.specs.Prelude.{option_map, flat_map};
ghost use Rattle.wq_decl.specs.Names.{is_name};
ghost use Rattle.wq_decl.specs.Reading.{HasNames};
ghost use Rattle.wq_items.specs.Table.{Table, IsTable, item_named, targets_of, flush_count};
ghost use Rattle.wq_items.specs.declared.target.Kind.{Kind};
ghost use Rattle.wq_items.specs.declared.fault.ItemError.TheVariants.{OutOfMemory};
ghost use Rattle.wq_items.specs.FirstFault.{RanOut, DeclaresMore};
ghost use Rattle.wq_items.specs.Building.{table_of, declared, item_declared, flushes_declared, items_ordered};
ghost use Rattle.wq_items.specs.Building.{of_item};
ghost use Rattle.wq_items.specs.Building.{items_named, and_item, targets_from, empty_table, IsFaultOf, AddsOne};

use crate::fault::ItemError;
use crate::flush::Flushes;
use crate::hashing::are_same;
use crate::names::Names;
use crate::target::{ItemId, Kind, Target};
use crate::waits::Waits;
use std::alloc::{AllocError, Allocator};
use std::marker::Model;
use wq_decl::{DeclView, Directive};
use wq_text::{Span, Word, Words};

/// The most items that a declaration may declare.
pub const MAX_ITEMS: usize = 4096;

/// The most flushes that a declaration may declare, of all items together.
const MAX_FLUSHES: u32 = 16_384;

/// The seed of `ItemTable::read`.
const SEED: u64 = 0;

/// The items of a declaration, by number. Contracts see the record of their names, spans and targets.
#[derive(Drop)]
pub struct ItemTable<'a, A: Allocator> {
    names: Names<'a, A>,
    spans: Vec<Span, A>,
    waits: Waits<A>,
    flushes: u32,
}

impl<'a, A: Allocator> Model for ItemTable<'a, A> {
    ghost use Rattle.std.specs.Prelude.{◌≡◌};
    ghost use Rattle.wq_items.specs.Table.{Table, IsTable, flush_count};

    ghost Value = { Table };

    ghost view = { λ t. record { names = t.names; spans = t.spans.items; waits = t.waits } };

    ghost invariant = { λ t. IsTable (record { names = t.names; spans = t.spans.items; waits = t.waits })
        × (t.flushes ≡ flush_count t.waits) };
}

/// A table whose lines are still being read. Contracts see what they see of a table.
#[derive(Drop)]
pub(crate) struct Building<'a, A: Allocator> {
    names: Names<'a, A>,
    spans: Vec<Span, A>,
    waits: Flushes<A>,
    flushes: u32,
}

impl<'a, A: Allocator> Model for Building<'a, A> {
    ghost use Rattle.std.specs.Prelude.{◌≡◌};
    ghost use Rattle.wq_items.specs.Table.{Table, IsTable, flush_count};

    ghost Value = { Table };

    ghost view = { λ t. record { names = t.names; spans = t.spans.items; waits = t.waits } };

    ghost invariant = { λ t. IsTable (record { names = t.names; spans = t.spans.items; waits = t.waits })
        × (t.flushes ≡ flush_count t.waits) };
}

/// How many words there are, if each names an item.
fn count_known<'a, A: Allocator + Copy>(names: &Names<'a, A>, words: Words<'a>) -> Option<u32>
    requires { length words < 2 ^ 32 }
    ensures { result ≡ option_map length (items_named names.now words.entry) }
{
    let mut count = 0u32;
    for word in words {
        names.find(word.bytes())?;
        count += 1;
    }
    Some(count)
}

/// Adds targets of one item, at the places from `place` on, and returns the place after them. `None` if a name is
/// unknown, if there are too many flushes, or if memory ran out; `refusal` says which it is.
#[inline(always)]
pub(crate) fn push_targets<'a, A: Allocator + Copy>(
    names: &Names<'a, A>,
    waits: &mut Flushes<A>,
    item: usize,
    place: u32,
    targets: Words<'a>,
) -> Option<u32>
    requires item { item < length waits.old }
    requires items { length names.now ≤ 4096 }
    requires room { place ≤ 16384 }
    ensures next { IfSome result (λ next.
        option_map (λ items. place + length items) (items_named names.now targets.entry)
        ≡ Some next) }
    ensures room { IfSome result (λ next. next ≤ 16384) }
    ensures added { IfSome result (λ _. IfSome (items_named names.now targets.entry) (λ items.
        waits.new ≡ slice_set waits.old item (targets_of waits.old item ++ targets_from of_item place items))) }
    ensures none { IfNone result (0 < length targets.entry) }
{
    let mut next = place;
    for word in targets {
        let target = names.find(word.bytes())?;
        if next >= MAX_FLUSHES {
            return None;
        }
        let target = Target {
            item: ItemId::new(target as u16),
            whole: false,
            unsure: false,
            place: next,
        };
        waits.push_target(item, target).ok()?;
        next += 1;
    }
    Some(next)
}

/// Adds a flush of this kind at this place: the item called `name` flushes the item called `target`, or its workqueue.
/// `None` if a name is unknown, if there are too many flushes, or if memory ran out; `refusal_of_one` says which it is.
#[inline(always)]
pub(crate) fn push_one<'a, A: Allocator + Copy>(
    names: &Names<'a, A>,
    waits: &mut Flushes<A>,
    kind: Kind,
    name: Word<'a>,
    target: Word<'a>,
    place: u32,
) -> Option<()>
    requires each { length waits.old ≡ length names.now }
    requires items { length names.now ≤ 4096 }
    ensures room { IfSome result (λ _. place < 16384) }
    ensures added { IfSome result (λ _.
        AddsOne names.now waits.old kind name.entry.bytes target.entry.bytes place waits.new) }
{
    let item = names.find(name.bytes())?;
    let other = names.find(target.bytes())?;
    if place >= MAX_FLUSHES {
        return None;
    }
    let target = Target {
        item: ItemId::new(other as u16),
        whole: kind.whole,
        unsure: kind.unsure,
        place,
    };
    waits.push_target(item, target).ok()
}

/// Why a flush with one target wasn't added to a table with this many flushes, whatever its kind.
fn refusal_of_one<'a, A: Allocator + Copy>(
    names: &Names<'a, A>,
    flushes: u32,
    line: u32,
    name: Word<'a>,
    target: Word<'a>,
) -> ItemError
    requires room { flushes ≤ 16384 }
    ensures fault { (t : Table) (kind : Kind) → t.names ≡ names.now → flush_count t.waits ≡ flushes →
        IsFaultOf result (flushes_declared t line kind (items_named t.names (name.entry ∷ target.entry ∷ []))) }
    ensures memory { (t : Table) (kind : Kind) → t.names ≡ names.now → flush_count t.waits ≡ flushes →
        result ≡ OutOfMemory →
        IsOk (flushes_declared t line kind (items_named t.names (name.entry ∷ target.entry ∷ []))) }
{
    if names.find(name.bytes()).is_none() || names.find(target.bytes()).is_none() {
        return ItemError::UnknownItem { line };
    }
    if flushes >= MAX_FLUSHES {
        return ItemError::TooManyFlushes { line };
    }
    ItemError::OutOfMemory
}

/// Why the targets of a line weren't added to a table with this many flushes.
fn refusal<'a, A: Allocator + Copy>(
    names: &Names<'a, A>,
    flushes: u32,
    line: u32,
    targets: Words<'a>,
) -> ItemError
    requires few { length targets < 2 ^ 32 }
    requires room { flushes ≤ 16384 }
    ensures fault { (t : Table) (i : ℕ) → flush_count t.waits ≡ flushes →
        IsFaultOf result (flushes_declared t line of_item (and_item (Some i) (items_named names.now targets.entry))) }
    ensures memory { (t : Table) (i : ℕ) → flush_count t.waits ≡ flushes → result ≡ OutOfMemory →
        IsOk (flushes_declared t line of_item (and_item (Some i) (items_named names.now targets.entry))) }
{
    match count_known(names, targets) {
        None => ItemError::UnknownItem { line },
        Some(count) if count > MAX_FLUSHES - flushes => ItemError::TooManyFlushes { line },
        Some(_) => ItemError::OutOfMemory,
    }
}

/// Why a full table, of 4,096 items, doesn't take this one.
fn when_full<'a, A: Allocator + Copy>(names: &Names<'a, A>, line: u32, name: Word<'a>) -> ItemError
    requires { 4096 ≤ length names.now }
    ensures { (t : Table) → t.names ≡ names.now → item_declared t line name.entry ≡ Err result }
{
    if names.find(name.bytes()).is_some() {
        ItemError::ItemTwice { line }
    } else {
        ItemError::TooManyItems { line }
    }
}

impl<'a, A: Allocator + Copy> Building<'a, A> {
    /// A table without items. Names are hashed with `seed`.
    fn empty(alloc: A, seed: u64) -> Self
        ensures { result ≡ empty_table }
    {
        Building {
            names: Names::new(alloc, seed),
            spans: Vec::new(alloc),
            waits: Flushes::new(alloc),
            flushes: 0,
        }
    }

    /// The table that these parts make.
    pub(crate) fn of(names: Names<'a, A>, spans: Vec<Span, A>, waits: Flushes<A>) -> Self
        requires { IsTable (record { names = names; spans = spans.items; waits = waits }) }
        ensures { result ≡ record { names = names.entry; spans = spans.items; waits = waits } }
    {
        let flushes = waits.len() as u32;
        Building {
            names,
            spans,
            waits,
            flushes,
        }
    }

    /// The table with what one line declares.
    fn declare(self, line: u32, directive: Directive<'a>) -> Result<Self, ItemError>
        requires { HasNames directive }
        ensures table { IfOk result (λ t. declared self.entry line directive.entry ≡ Ok t) }
        ensures fault { IfErr result (λ e. IsFaultOf e (declared self.entry line directive.entry)) }
        ensures memory { IfErr result (λ e. e ≡ OutOfMemory → IsOk (declared self.entry line directive.entry)) }
        ensures grows { IfErr result (λ e. e ≡ OutOfMemory → DeclaresMore (line, directive.entry)) }
    {
        match directive {
            Directive::Item(name) => self.declare_item(line, name),
            Directive::Flush(name, targets) => self.declare_flushes(line, name, targets),
            Directive::FlushWq(name, target) => {
                let kind = Kind {
                    whole: true,
                    unsure: false,
                };
                self.declare_one(line, kind, name, target)
            }
            Directive::Unsure(name, target, whole) => {
                let kind = Kind {
                    whole,
                    unsure: true,
                };
                self.declare_one(line, kind, name, target)
            }
            Directive::Ordered(names) => self.declare_order(line, names),
        }
    }

    /// The table with another item.
    fn declare_item(self, line: u32, name: Word<'a>) -> Result<Self, ItemError>
        requires { IsTrue (is_name name.bytes) }
        ensures table { IfOk result (λ t. item_declared self.entry line name.entry ≡ Ok t) }
        ensures fault { IfErr result (λ e. IsFaultOf e (item_declared self.entry line name.entry)) }
        ensures memory { IfErr result (λ e. e ≡ OutOfMemory → IsOk (item_declared self.entry line name.entry)) }
    {
        let Building {
            mut names,
            mut spans,
            mut waits,
            flushes,
        } = self;
        if names.len() >= MAX_ITEMS {
            return Err(when_full(&names, line, name));
        }
        if !names.add(name.bytes())? {
            return Err(ItemError::ItemTwice { line });
        }
        spans.push(name.span())?;
        waits.push_item();
        Ok(Building {
            names,
            spans,
            waits,
            flushes,
        })
    }

    /// The table with the flushes that one item declares.
    fn declare_flushes(
        self,
        line: u32,
        name: Word<'a>,
        targets: Words<'a>,
    ) -> Result<Self, ItemError>
        ensures table { IfOk result (λ t.
            flushes_declared self.entry line of_item (items_named self.entry.names (name.entry ∷ targets.entry))
            ≡ Ok t) }
        ensures fault { IfErr result (λ e.
            IsFaultOf e
            (flushes_declared self.entry line of_item (items_named self.entry.names (name.entry ∷ targets.entry)))) }
        ensures memory { IfErr result (λ e. e ≡ OutOfMemory
            → IsOk
            (flushes_declared self.entry line of_item (items_named self.entry.names (name.entry ∷ targets.entry)))) }
        ensures grows { IfErr result (λ e. e ≡ OutOfMemory → 0 < length targets.entry) }
    {
        let Some(item) = self.names.find(name.bytes()) else {
            return Err(ItemError::UnknownItem { line });
        };
        let Building {
            names,
            spans,
            mut waits,
            flushes,
        } = self;
        match push_targets(&names, &mut waits, item, flushes, targets.again()) {
            Some(flushes) => Ok(Building {
                names,
                spans,
                waits,
                flushes,
            }),
            None => Err(refusal(&names, flushes, line, targets)),
        }
    }

    /// The table with a flush of this kind: of an item, or of its workqueue.
    fn declare_one(
        self,
        line: u32,
        kind: Kind,
        name: Word<'a>,
        target: Word<'a>,
    ) -> Result<Self, ItemError>
        ensures table { IfOk result (λ t.
            flushes_declared self.entry line kind (items_named self.entry.names (name.entry ∷ target.entry ∷ []))
            ≡ Ok t) }
        ensures fault { IfErr result (λ e.
            IsFaultOf e
            (flushes_declared self.entry line kind
            (items_named self.entry.names (name.entry ∷ target.entry ∷ [])))) }
        ensures memory { IfErr result (λ e. e ≡ OutOfMemory
            → IsOk
            (flushes_declared self.entry line kind
            (items_named self.entry.names (name.entry ∷ target.entry ∷ [])))) }
    {
        let Building {
            names,
            spans,
            mut waits,
            flushes,
        } = self;
        match push_one(
            &names,
            &mut waits,
            kind,
            name.again(),
            target.again(),
            flushes,
        ) {
            Some(()) => Ok(Building {
                names,
                spans,
                waits,
                flushes: flushes + 1,
            }),
            None => Err(refusal_of_one(&names, flushes, line, name, target)),
        }
    }

    /// The unchanged table, if each of these words names an item.
    fn declare_order(self, line: u32, names: Words<'a>) -> Result<Self, ItemError>
        ensures table { IfOk result (λ t. items_ordered self.entry line (items_named self.entry.names names.entry)
            ≡ Ok t) }
        ensures fault { IfErr result (λ e. items_ordered self.entry line (items_named self.entry.names names.entry)
            ≡ Err e) }
    {
        if count_known(&self.names, names.again()).is_none() {
            return Err(ItemError::UnknownItem { line });
        }
        Ok(self)
    }

    /// The table with the targets of each item next to each other.
    pub(crate) fn finish(self, alloc: A) -> Result<ItemTable<'a, A>, AllocError>
        ensures table { IfOk result (λ t. t ≡ self.entry) }
        ensures memory { IfErr result (λ _. 0 < length self.entry.names) }
    {
        let Building {
            names,
            spans,
            waits,
            flushes,
        } = self;
        let waits = waits.by_item(alloc)?;
        Ok(ItemTable {
            names,
            spans,
            waits,
            flushes,
        })
    }
}

impl<'a, A: Allocator + Copy> ItemTable<'a, A> {
    /// Reads the table that the directives of a view declare.
    ///
    /// Each target of a `flush` line is a flush of its own. An `ordered` line adds nothing, but each name on it must be
    /// declared by an earlier `item` line, like each name on a `flush` line.
    ///
    /// The error is the first fault, of the lowest line that has one: `ItemTwice` (7), `TooManyItems` (9),
    /// `UnknownItem` (8) or `TooManyFlushes` (10), in this order in a line; or `OutOfMemory` (20), if memory ran out
    /// before it, at a line that declares an item or a flush.
    pub fn read(alloc: A, view: &DeclView<'a>) -> Result<Self, ItemError>
        ensures table { IfOk result (λ t. table_of view.now ≡ Ok t) }
        ensures fault { IfErr result (λ e. IsFaultOf e (table_of view.now)) }
        ensures memory { IfErr result (λ e. e ≡ OutOfMemory → RanOut view.now) }
    {
        ItemTable::read_seeded(alloc, SEED, view)
    }

    /// As `read`, with a seed for the hashes of names.
    ///
    /// The result doesn't depend on the seed, but the running time does. If the seed is random, the author of the text
    /// can't know which names have the same hash.
    pub fn read_seeded(alloc: A, seed: u64, view: &DeclView<'a>) -> Result<Self, ItemError>
        ensures table { IfOk result (λ t. table_of view.now ≡ Ok t) }
        ensures fault { IfErr result (λ e. IsFaultOf e (table_of view.now)) }
        ensures memory { IfErr result (λ e. e ≡ OutOfMemory → RanOut view.now) }
    {
        let mut table = Building::empty(alloc, seed);
        for (line, directive) in view.directives() {
            table = table.declare(line, directive)?;
        }
        Ok(table.finish(alloc)?)
    }

    /// A table of the same items with these `flushes` targets.
    pub(crate) fn with_waits(
        &self,
        alloc: A,
        waits: Waits<A>,
        flushes: u32,
    ) -> Result<Self, AllocError>
        requires table { IsTable (record self.now { waits = waits }) }
        requires count { flushes ≡ flush_count waits }
        ensures { IfOk result (λ t. t ≡ record self.now { waits = waits }) }
    {
        Ok(ItemTable {
            names: self.names.again(alloc)?,
            spans: Vec::from_slice(alloc, self.spans.as_slice())?,
            waits,
            flushes,
        })
    }

    /// How many items there are, at most 4,096.
    pub fn len(&self) -> u16
        ensures len { result ≡ length self.now.names }
        ensures table { IsTable self.now }
    {
        self.names.len() as u16
    }

    /// Whether there is no item.
    pub fn is_empty(&self) -> bool
        ensures { IsTrue result ↔ (length self.now.names ≡ 0) }
    {
        self.names.len() == 0
    }

    /// How many flushes all items declare together, at most 16,384.
    pub fn flushes(&self) -> u32
        ensures count { result ≡ flush_count self.now.waits }
        ensures limit { result ≤ 16384 }
    {
        self.flushes
    }

    /// The name of an item below `len()`, a slice of the text.
    pub fn name(&self, i: ItemId) -> &'a [u8]
        requires { i < length self.now.names }
        ensures { slice_get self.now.names i ≡ Some result.now }
    {
        self.names.get(i.get() as usize)
    }

    /// Where the name of an item below `len()` is in the text, on its `item` line.
    pub fn span(&self, i: ItemId) -> Span
        requires { i < length self.now.names }
        ensures { slice_get self.now.spans i ≡ Some result }
    {
        self.spans[i.get() as usize]
    }

    /// The item with this name, if there is one.
    pub fn find(&self, name: &[u8]) -> Option<ItemId>
        ensures { result ≡ item_named self.now.names name.now }
    {
        let i = self.names.find(name)?;
        Some(ItemId::new(i as u16))
    }

    /// Whether an item has this name.
    #[inline(always)]
    fn is_named(&self, i: ItemId, name: &[u8]) -> bool
        ensures { IsTrue result → item_named self.now.names name.now ≡ Some i }
    {
        i.get() < self.len() && are_same(self.name(i), name)
    }

    /// The item with this name, if there is one. A right guess saves the look-up; a wrong one does no harm.
    #[inline(always)]
    pub fn find_guessed(&self, guess: Option<ItemId>, name: &[u8]) -> Option<ItemId>
        ensures { result ≡ item_named self.now.names name.now }
    {
        match guess {
            Some(i) if self.is_named(i, name) => Some(i),
            _ => self.find(name),
        }
    }

    /// The targets of all flushes, item by item.
    pub(crate) fn all_waits(&self) -> &[Target]
        ensures waits { result.now ≡ flat_map (λ list. list) self.now.waits }
        ensures table { IsTable self.now }
    {
        self.waits.all()
    }

    /// The targets of the flushes that an item below `len()` declares, in order of place.
    pub fn waits(&self, i: ItemId) -> &[Target]
        requires { i < length self.now.names }
        ensures { result.now ≡ targets_of self.now.waits i }
    {
        self.waits.get(i)
    }
}
