//! Laws about tables, as contracts of functions with empty bodies.
//!
//! `Building` makes the table of a declaration line by line. The laws say what this means for the whole list of lines.

ghost use Rattle.std.specs.Prelude.{◌≡◌, ◌↔◌, ℕ, List, length, map, Ok, Err, IsOk, slice_get, slice_range, filter_map};
ghost use Rattle.std.specs.Prelude.{Some};
ghost use Rattle.std.specs.List.{AllByRecursion, enumerate_from};
ghost use Rattle.wq_text.specs.declared.span.Span.{Span};
ghost use Rattle.wq_text.specs.Lines.{lines_of};
ghost use Rattle.wq_decl.specs.declared.directive.Directive.{Directive};
ghost use Rattle.wq_decl.specs.Reading.{HasNames, directives};
ghost use Rattle.wq_items.specs.declared.fault.ItemError.{ItemError};
ghost use Rattle.wq_items.specs.Table.{Table, IsTable, flush_count};
ghost use Rattle.wq_items.specs.Building.{table_of};
ghost use Rattle.wq_items.specs.Flushes.{item_name, item_span, flushes, flushes_of, named_targets};
ghost use Rattle.wq_items.specs.FirstFault.{IsFaultless, IsLowestItemFault};

/// The items of a table are those of the `item` lines, in order, with their names and where these stand.
pub fn items_are_those_of_the_item_lines()
    ensures names { (ds : List (ℕ × Directive)) (t : Table) → table_of ds ≡ Ok t → t.names ≡ filter_map item_name ds }
    ensures spans { (ds : List (ℕ × Directive)) (t : Table) → table_of ds ≡ Ok t → t.spans ≡ filter_map item_span ds }
{}

/// The names in a text's table are slices of the text, each at its span.
pub fn names_are_slices_of_the_text()
    ensures each { (text : List ℕ) (t : Table) (i : ℕ) (name : List ℕ) (span : Span) →
        table_of (directives (lines_of text)) ≡ Ok t → slice_get t.names i ≡ Some name →
        slice_get t.spans i ≡ Some span → slice_range text span.start span.end ≡ name }
    ensures all { (text : List ℕ) (t : Table) → table_of (directives (lines_of text)) ≡ Ok t →
        t.names ≡ map (λ (span : Span). slice_range text span.start span.end) t.spans }
{}

/// Directives make a table exactly if they are faultless. Otherwise the fault is that of the first directive before
/// which all are faultless.
pub fn faults_without_tables()
    ensures none { (ds : List (ℕ × Directive)) → IsOk (table_of ds) ↔ IsFaultless ds }
    ensures lowest { (ds : List (ℕ × Directive)) (e : ItemError) → (table_of ds ≡ Err e) ↔ IsLowestItemFault ds e }
{}

/// The table that directives with names declare has all properties of a table.
pub fn tables_are_sound()
    ensures { (ds : List (ℕ × Directive)) (t : Table) → AllByRecursion (λ (d : ℕ × Directive). HasNames d.1) ds →
        table_of ds ≡ Ok t → IsTable t }
{}

/// The targets of an item are the flushes of the whole text that name it, numbered from 0: each with its kind, the name
/// of its target, and its number as its place. There is one target for each flush.
pub fn targets_are_those_of_the_flush_lines()
    ensures count { (ds : List (ℕ × Directive)) (t : Table) → table_of ds ≡ Ok t →
        flush_count t.waits ≡ length (flushes ds) }
    ensures targets { (ds : List (ℕ × Directive)) (t : Table) (i : ℕ) (name : List ℕ) → table_of ds ≡ Ok t →
        slice_get t.names i ≡ Some name → named_targets t i ≡ flushes_of name (enumerate_from 0 (flushes ds)) }
{}
