//! The table of a text without a fault, read in one pass.
//!
//! `DeclView::new` and `ItemTable::read` scan a declaration one after the other, since the faults of the first pass
//! come before those of the second. Here both passes are made at once, and the words of a line are cut once. Most lines
//! are `flush` or `item` and names with one space between them: these are cut without looking for the end of the line
//! first. A word that is found in the table isn't judged, since the table holds only names; only the name on an `item`
//! line is. If the text has a fault, there is no answer: which fault it is, the two passes tell.
//!
//! The view of the directives keeps where the `ordered` lines are, so that reading the groups skips most other lines.
//! The items that these lines name are noted and returned, so that most of them needn't be looked up again.
//!
//! Each name is looked up once. On average, this takes time linear in the length of the text, and memory linear in the
//! number of items and flushes.

ghost use Rattle.std.specs.Prelude.{◌≡◌, ◌∷◌, [], ℕ, ◌-◌, ◌<◌, ◌≤◌, ◌^◌, ◌||◌, length, option_map, Ok, IsOk, IfSome};
ghost use Rattle.std.specs.Prelude.{IfNone, IsTrue, None, Some, true, false};
ghost use Rattle.wq_text.specs.Lines.{lines_of};
ghost use Rattle.wq_text.specs.Words.{words_of};
ghost use Rattle.wq_decl.specs.declared.directive.Directive.TheVariants.{Item, Flush, Ordered};
ghost use Rattle.wq_decl.specs.Names.{are_names};
ghost use Rattle.wq_decl.specs.Reading.{reading, directives, first_fault};
ghost use Rattle.wq_items.specs.AtOnce.{item_unjudged, flush_unjudged, flushwq_unjudged, unjudged_after, unjudged};
ghost use Rattle.wq_items.specs.AtOnce.{unsure_unjudged, is_whole, Foretells, IsTaken, IsRefused};
ghost use Rattle.wq_items.specs.Table.{IsTable};
ghost use Rattle.wq_items.specs.Building.{empty_table, table_of, declared, item_declared, flushes_declared};
ghost use Rattle.wq_items.specs.Building.{items_ordered, items_named, of_item};
ghost use Rattle.wq_items.specs.FirstFault.{RanOut, DeclaresMore};

use crate::flush::Flushes;
use crate::names::Names;
use crate::table::{Building, ItemTable, MAX_ITEMS, push_one, push_targets};
use crate::target::{ItemId, Kind};
use std::alloc::Allocator;
use std::marker::Model;
use wq_decl::{DeclView, Directive, Keyword, OrderedLines, cut_keyword, is_name};
use wq_text::{Line, Lines, Span, Text, Word, Words};

/// The words after `item` as a directive, if there is exactly one.
#[inline(always)]
fn item_unjudged<'a>(mut words: Words<'a>) -> Option<Option<Directive<'a>>>
    ensures { result ≡ item_unjudged words.entry }
{
    let name = words.next()?;
    if words.next().is_some() {
        return None;
    }
    Some(Some(Directive::Item(name)))
}

/// The words after `flush` as a directive. It may lack a target.
#[inline(always)]
fn flush_unjudged<'a>(mut words: Words<'a>) -> Option<Option<Directive<'a>>>
    ensures { result ≡ flush_unjudged words.entry }
{
    let name = words.next()?;
    Some(Some(Directive::Flush(name, words)))
}

/// The words after `flushwq` as a directive, if there are exactly two.
fn flushwq_unjudged<'a>(mut words: Words<'a>) -> Option<Option<Directive<'a>>>
    ensures { result ≡ flushwq_unjudged words.entry }
{
    let name = words.next()?;
    let target = words.next()?;
    match words.next() {
        None => Some(Some(Directive::FlushWq(name, target))),
        Some(_) => None,
    }
}

/// The words after `flush?` or, if `whole`, `flushwq?` as a directive, if there are exactly two.
fn unsure_unjudged<'a>(whole: bool, mut words: Words<'a>) -> Option<Option<Directive<'a>>>
    ensures { result ≡ unsure_unjudged whole words.entry }
{
    let name = words.next()?;
    let target = words.next()?;
    if words.next().is_none() {
        return Some(Some(Directive::Unsure(name, target, whole)));
    }
    None
}

/// The words after the keyword as a directive, whether or not they are names.
#[inline(always)]
fn unjudged_after<'a>(keyword: Option<Keyword>, words: Words<'a>) -> Option<Option<Directive<'a>>>
    ensures { result ≡ unjudged_after keyword words.entry }
{
    match keyword? {
        Keyword::Item => item_unjudged(words),
        Keyword::Flush => flush_unjudged(words),
        Keyword::FlushWq => flushwq_unjudged(words),
        Keyword::FlushUnsure => unsure_unjudged(false, words),
        Keyword::FlushWqUnsure => unsure_unjudged(true, words),
        Keyword::Ordered => Some(Some(Directive::Ordered(words))),
    }
}

/// The words of a line as a directive, whether or not they are names.
#[inline(always)]
fn words_unjudged<'a>(line: &Line<'a>) -> Option<Option<Directive<'a>>>
    ensures { result ≡ unjudged (words_of line.now) }
{
    match cut_keyword(line) {
        Some((keyword, words)) => unjudged_after(keyword, words),
        None => Some(None),
    }
}

/// What a line says if no word is missing and all words after the first are names: a directive, or `Some(None)` if no
/// word comes before its comment. `None` if the line has a fault in any case, by its first word or by how many words it
/// has.
fn line_unjudged<'a>(line: &Line<'a>) -> Option<Option<Directive<'a>>>
    ensures { Foretells result (reading line.now) }
{
    words_unjudged(line)
}

/// The parts of a table while its lines are read. Contracts see what they see of a table, but the parts needn't make
/// one: after a failed allocation, some have grown and others haven't.
#[derive(Drop)]
struct Parts<'a, A: Allocator> {
    names: Names<'a, A>,
    spans: Vec<Span, A>,
    waits: Flushes<A>,
    /// The items that `ordered` lines name, in turn. Nothing is promised about them.
    noted: Vec<ItemId, A>,
}

impl<'a, A: Allocator> Model for Parts<'a, A> {
    ghost use Rattle.wq_items.specs.Table.{Table};

    ghost Value = { Table };

    ghost view = { λ p. record { names = p.names; spans = p.spans.items; waits = p.waits } };
}

impl<'a, A: Allocator + Copy> Parts<'a, A> {
    /// The parts of a table without items. Names are hashed with `seed`.
    fn new(alloc: A, seed: u64) -> Self
        ensures { result ≡ empty_table }
    {
        Parts {
            names: Names::new(alloc, seed),
            spans: Vec::new(alloc),
            waits: Flushes::new(alloc),
            noted: Vec::new(alloc),
        }
    }

    /// Adds what a line declares, if its directive is whole. After `None` the parts can't be used any more.
    fn take(&mut self, directive: Directive<'a>) -> Option<()>
        requires { IsTable self.old }
        ensures table { IfSome result (λ _. (n : ℕ) → declared self.old n directive.entry ≡ Ok self.new) }
        ensures whole { IfSome result (λ _. IsTrue (is_whole directive.entry)) }
        ensures memory { IfNone result ((n : ℕ) → IsTrue (is_whole directive.entry)
            → IsOk (declared self.old n directive.entry) → DeclaresMore (n, directive.entry)) }
    {
        match directive {
            Directive::Item(name) => self.take_item(name),
            Directive::Flush(name, targets) => self.take_flushes(name, targets),
            Directive::FlushWq(name, target) => {
                let kind = Kind {
                    whole: true,
                    unsure: false,
                };
                self.take_one(kind, name, target)
            }
            Directive::Unsure(name, target, whole) => {
                let kind = Kind {
                    whole,
                    unsure: true,
                };
                self.take_one(kind, name, target)
            }
            Directive::Ordered(names) => self.take_order(names),
        }
    }

    /// Adds an item, if the word is a name.
    fn take_item(&mut self, name: Word<'a>) -> Option<()>
        requires { IsTable self.old }
        ensures table { IfSome result (λ _. (n : ℕ) → item_declared self.old n name.entry ≡ Ok self.new) }
        ensures whole { IfSome result (λ _. IsTrue (is_whole (Item name.entry))) }
    {
        if !is_name(name.bytes()) || self.names.len() >= MAX_ITEMS {
            return None;
        }
        if !self.names.add(name.bytes()).ok()? {
            return None;
        }
        self.spans.push(name.span()).ok()?;
        self.waits.push_item();
        Some(())
    }

    /// Adds the flushes that one item declares. There must be at least one.
    fn take_flushes(&mut self, name: Word<'a>, targets: Words<'a>) -> Option<()>
        requires { IsTable self.old }
        ensures table { IfSome result (λ _. (n : ℕ)
            → flushes_declared self.old n of_item (items_named self.old.names (name.entry ∷ targets.entry))
            ≡ Ok self.new) }
        ensures whole { IfSome result (λ _. IsTrue (is_whole (Flush name.entry targets.entry))) }
    {
        let item = self.names.find(name.bytes())?;
        let first = self.waits.len() as u32;
        let next = push_targets(&self.names, &mut self.waits, item, first, targets)?;
        if next == first {
            return None;
        }
        Some(())
    }

    /// Adds a flush of this kind.
    #[inline(always)]
    fn take_one(&mut self, kind: Kind, name: Word<'a>, target: Word<'a>) -> Option<()>
        requires { IsTable self.old }
        ensures table { IfSome result (λ _. (n : ℕ)
            → flushes_declared self.old n kind (items_named self.old.names (name.entry ∷ target.entry ∷ []))
            ≡ Ok self.new) }
        ensures names { IfSome result (λ _. IsTrue (are_names (name.entry ∷ target.entry ∷ []))) }
    {
        let place = self.waits.len() as u32;
        push_one(&self.names, &mut self.waits, kind, name, target, place)
    }

    /// Adds what the next line declares, if it is a plain line, as most are: `flush` and two words, or `item` and one.
    /// Returns whether it is one. After `None` the parts can't be used any more.
    #[inline(always)]
    fn take_plain(&mut self, lines: &mut Lines<'a>) -> Option<bool>
        requires { IsTable self.old }
        ensures taken { IfSome result (λ taken. taken ≡ true → IsTaken self.old lines.old self.new lines.new) }
        ensures other { IfSome result (λ taken. taken ≡ false → (self.new ≡ self.old) × (lines.new ≡ lines.old)) }
        ensures memory { IfNone result (IsRefused lines.old) }
    {
        if let Some((name, target)) = lines.next_pair(b"flush") {
            let kind = Kind {
                whole: false,
                unsure: false,
            };
            self.take_one(kind, name, target)?;
            return Some(true);
        }
        if let Some(name) = lines.next_single(b"item") {
            self.take_item(name)?;
            return Some(true);
        }
        Some(false)
    }

    /// Adds nothing; checks that there are words and each of them names an item.
    fn take_order(&mut self, names: Words<'a>) -> Option<()>
        requires { IsTable self.old }
        ensures table { IfSome result (λ _. (n : ℕ)
            → items_ordered self.old n (items_named self.old.names names.entry) ≡ Ok self.new) }
        ensures whole { IfSome result (λ _. IsTrue (is_whole (Ordered names.entry))) }
        ensures none { IfNone result ((n : ℕ) → IsTrue (is_whole (Ordered names.entry))
            → ¬ IsOk (items_ordered self.old n (items_named self.old.names names.entry))) }
    {
        if note_known(&self.names, &mut self.noted, names.again())? == 0 {
            return None;
        }
        Some(())
    }

    /// The table of the parts, and the items that were noted; `None` if memory ran out.
    fn finish(self, alloc: A) -> Option<(ItemTable<'a, A>, Vec<ItemId, A>)>
        requires { IsTable self }
        ensures table { IfSome result (λ r. r.0 ≡ self.entry) }
        ensures memory { IfNone result (0 < length self.entry.names) }
    {
        let Parts {
            names,
            spans,
            waits,
            noted,
        } = self;
        let table = Building::of(names, spans, waits).finish(alloc).ok()?;
        Some((table, noted))
    }
}

/// Notes an item that an `ordered` line names, if there is memory for it. With more names than a table has items, one
/// is named twice, so no more are noted.
fn note<A: Allocator>(noted: &mut Vec<ItemId, A>, item: ItemId) {
    if noted.len() < MAX_ITEMS {
        noted.push(item).ok();
    }
}

/// How many words there are, if each names an item. These items are noted in turn.
fn note_known<'a, A: Allocator + Copy>(
    names: &Names<'a, A>,
    noted: &mut Vec<ItemId, A>,
    words: Words<'a>,
) -> Option<u32>
    requires words { length words < 2 ^ 32 }
    requires items { length names.now ≤ 4096 }
    ensures { result ≡ option_map length (items_named names.now words.entry) }
{
    let mut count = 0u32;
    for word in words {
        let item = names.find(word.bytes())?;
        note(noted, ItemId::new(item as u16));
        count += 1;
    }
    Some(count)
}

/// The `ordered` lines that have been seen so far.
#[derive(Drop)]
struct Orders<'a> {
    /// Whether any has been seen.
    any: bool,
    /// The lines from the first `ordered` line on; all lines, as long as there is none.
    lines: Lines<'a>,
    /// How many `ordered` lines there are, if the count doesn't overflow.
    count: Option<u32>,
}

impl<'a> Orders<'a> {
    /// No `ordered` line seen yet.
    fn none(lines: Lines<'a>) -> Self
        ensures { (result.any ≡ false) × (result.lines ≡ lines.entry) × (result.count ≡ Some 0) }
    {
        Orders {
            any: false,
            lines,
            count: Some(0),
        }
    }

    /// If `is_ordered`, notes that the first of the lines `here` is an `ordered` line.
    #[inline(always)]
    fn note(&mut self, here: &Lines<'a>, is_ordered: bool)
        ensures any { self.new.any ≡ (self.old.any || is_ordered) }
        ensures other { is_ordered ≡ false → self.new ≡ self.old }
        ensures first { is_ordered ≡ true → self.old.any ≡ false → self.new.lines ≡ here.now }
        ensures later { self.old.any ≡ true → self.new.lines ≡ self.old.lines }
        ensures count { is_ordered ≡ true → (n : ℕ) → self.new.count ≡ Some n
            → (0 < n) × (self.old.count ≡ Some (n - 1)) }
    {
        if is_ordered {
            if !self.any {
                self.lines = here.again();
            }
            self.any = true;
            self.count = self.count.and_then(|count| count.checked_add(1));
        }
    }
}

/// The directives of a text and the table that they declare, if no line has a fault: what `DeclView::new` and
/// `ItemTable::read_seeded` return, in one pass. Names are hashed with `seed`; no result depends on it.
///
/// It also returns the items that the `ordered` lines name, in turn: a guess for each name that `Groups::read_guessed`
/// looks up. Nothing is promised about them.
///
/// `None` if some line has a fault, of the grammar or of the items, or if memory ran out at a line that declares an
/// item or a flush.
pub fn read_at_once<'a, A: Allocator + Copy>(
    alloc: A,
    seed: u64,
    text: &Text<'a>,
) -> Option<(DeclView<'a>, ItemTable<'a, A>, Vec<ItemId, A>)>
    ensures faultless { IfSome result (λ _. first_fault (lines_of text.now) ≡ None) }
    ensures view { IfSome result (λ r. r.0 ≡ directives (lines_of text.now)) }
    ensures table { IfSome result (λ r. table_of (directives (lines_of text.now)) ≡ Ok r.1) }
    ensures memory { IfNone result (first_fault (lines_of text.now) ≡ None
        → IsOk (table_of (directives (lines_of text.now)))
        → RanOut (directives (lines_of text.now))) }
{
    let mut parts = Parts::new(alloc, seed);
    let mut seen = Orders::none(text.lines());
    let mut here = text.lines();
    let mut lines = text.lines();
    while let Some(line) = lines.next() {
        if let Some(directive) = line_unjudged(&line)? {
            let is_ordered = directive.is_ordered();
            seen.note(&here, is_ordered);
            parts.take(directive)?;
        }
        'plain: while parts.take_plain(&mut lines)? {}
        here = lines.again();
    }
    let (table, noted) = parts.finish(alloc)?;
    let ordered = OrderedLines::counted(seen.lines, seen.count);
    let view = DeclView::of_ordered(text.again(), seen.any, ordered);
    Some((view, table, noted))
}
