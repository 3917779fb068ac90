//! Reading the `ordered` lines: for each item, the first-declared item of its group.
//!
//! The rules are those of "Items and groups" in docs/FORMAT.md. If there is no `ordered` line, each item has a group of
//! its own, and the lines aren't scanned; this takes time linear in the number of items. Otherwise each name on an
//! `ordered` line is looked up once; this takes time linear in the length of the text. The notes about the items are on
//! the stack, so no memory is taken before all lines are judged.

ghost use Rattle.std.specs.Prelude.{◌≡◌, ◌≢◌, ◌↔◌, ◌++◌, ◌∷◌, ◌<◌, ◌==◌, [], ℕ, List, length, map, slice_index, Ok};
ghost use Rattle.std.specs.Prelude.{IfOk, IfErr, IfSome, IsSome, OnSome, IsTrue, AllPairs, None, Some, if◌then◌else◌};
ghost use Rattle.std.specs.List.{All, list_any};
ghost use Rattle.wq_decl.specs.declared.directive.Directive.{Directive};
ghost use Rattle.wq_decl.specs.declared.directive.Directive.TheVariants.{Ordered};
ghost use Rattle.wq_items.specs.Table.{IsTable};
ghost use Rattle.wq_items.specs.Building.{table_of, items_named};
ghost use Rattle.wq_groups.specs.declared.fault.GroupError.TheVariants.{OutOfMemory};
ghost use Rattle.wq_groups.specs.Grouping.{all_ordered, first_regrouped, first_member, groups_of, IsGroupFaultOf};
ghost use Rattle.wq_groups.specs.Reading.{names_in, marks_of, lowest_of, IsNoted};

use crate::fault::GroupError;
use arrayvec::ArrayVec;
use std::alloc::Allocator;
use wq_decl::DeclView;
use wq_items::{ItemId, ItemTable, MAX_ITEMS};
use wq_text::Words;

/// Items that are likely to be looked up next. Nothing is promised about them.
#[derive(Drop)]
struct Guesses<'a> {
    left: &'a [ItemId],
}

impl<'a> Guesses<'a> {
    /// The next guess.
    fn guess(&mut self) -> Option<ItemId> {
        let (first, left) = self.left.split_first()?;
        self.left = left;
        Some(*first)
    }
}

/// Marks the items with these names, lists them in `items`, which is empty, and returns the first-declared of them.
/// `None` if one is marked already or named twice; the items before it are then marked.
fn mark<A: Allocator + Copy>(
    table: &ItemTable<'_, A>,
    ordered: &mut [bool],
    items: &mut ArrayVec<ItemId, MAX_ITEMS>,
    guesses: &mut Guesses<'_>,
    names: Words<'_>,
) -> Option<ItemId>
    requires table { IsTable table.now }
    requires marks { length ordered.old ≡ length table.now.names }
    requires empty { items.old.items ≡ [] }
    requires known { IsSome (items_named table.now.names names) }
    ensures first { IfSome result (λ i. i ≡ lowest_of table.now.names (names_in names.entry)) }
    ensures marked { (before : List (List ℕ)) → ordered.old ≡ marks_of table.now.names before
        → OnSome result (ordered.new ≡ marks_of table.now.names (before ++ names_in names.entry)) }
    ensures apart { (before : List (List ℕ)) → ordered.old ≡ marks_of table.now.names before
        → AllPairs (λ (a b : List ℕ). a ≢ b) before
        → IsSome result ↔ AllPairs (λ (a b : List ℕ). a ≢ b) (before ++ names_in names.entry) }
    ensures items { OnSome result (items_named table.now.names names.entry ≡ Some items.new.items) }
{
    let mut lowest = table.len();
    for word in names {
        let found = table.find_guessed(guesses.guess(), word.bytes()).unwrap();
        let item = found.get();
        let i = usize::from(item);
        let is_marked = ordered[i];
        if is_marked {
            return None;
        }
        ordered[i] = true;
        items.push(found);
        if item < lowest {
            lowest = item;
        }
    }
    Some(ItemId::new(lowest))
}

/// Sets the first-declared item of the group of these items to `lowest`.
fn set_first(first: &mut [ItemId], items: &[ItemId], lowest: ItemId)
    requires within { All (λ i. i < length first.old) items.now }
    ensures long { length first.new ≡ length first.old }
    ensures first { (i : ℕ) → i < length first.old
        → slice_index first.new i
        ≡ (if list_any (λ item. i == item) items.now then lowest else slice_index first.old i) }
{
    for item in items {
        first[usize::from(item.get())] = lowest;
    }
}

/// Puts the items with these names into one group, if none of them is in one already and none is named twice. Otherwise
/// it returns `false`, and some items are marked that are in no group. `items` is overwritten; the caller passes it so
/// that it is made only once.
fn put_together<A: Allocator + Copy>(
    table: &ItemTable<'_, A>,
    first: &mut [ItemId],
    ordered: &mut [bool],
    items: &mut ArrayVec<ItemId, MAX_ITEMS>,
    guesses: &mut Guesses<'_>,
    names: Words<'_>,
) -> bool
    requires table { IsTable table.now }
    requires items { length first.old ≡ length table.now.names }
    requires marks { length ordered.old ≡ length table.now.names }
    requires known { IsSome (items_named table.now.names names) }
    ensures noted { (ds : List (ℕ × Directive)) (n : ℕ) → IsNoted ds table.now.names first.old ordered.old
        → IsTrue result → IsNoted (ds ++ ((n, Ordered names.entry) ∷ [])) table.now.names first.new ordered.new }
    ensures apart { (ds : List (ℕ × Directive)) → IsNoted ds table.now.names first.old ordered.old
        → IsTrue result ↔ AllPairs (λ (a b : List ℕ). a ≢ b) (all_ordered ds ++ names_in names.entry) }
{
    items.clear();
    let Some(lowest) = mark(table, ordered, items, guesses, names) else {
        return false;
    };
    set_first(first, items.as_slice(), lowest);
    true
}

/// For each item of a table, the first-declared item of its group. The table was read from this view. The guesses are
/// those of `Groups::read_guessed`.
///
/// The error is the `GroupedTwice` of `Groups::read`.
pub(crate) fn first_members<A: Allocator + Copy>(
    view: &DeclView<'_>,
    table: &ItemTable<'_, A>,
    guesses: &[ItemId],
) -> Result<ArrayVec<ItemId, MAX_ITEMS>, GroupError>
    requires { table_of view.now ≡ Ok table.now }
    ensures once { IfOk result (λ _. first_regrouped [] view.now ≡ None) }
    ensures first { IfOk result (λ first. first.items ≡ map (first_member view.now table.now.names) table.now.names) }
    ensures fault { IfErr result (λ e. IsGroupFaultOf e (groups_of view.now table.now.names)) }
    ensures memory { IfErr result (λ e. e ≢ OutOfMemory) }
{
    let mut first = ArrayVec::new();
    let mut ordered = ArrayVec::<bool, MAX_ITEMS>::new();
    for i in 0..table.len() {
        first.push(ItemId::new(i));
        ordered.push(false);
    }
    if !view.has_ordered() {
        return Ok(first);
    }
    let mut items = ArrayVec::new();
    let mut guesses = Guesses { left: guesses };
    for (line, names) in view.ordered_lines() {
        if !put_together(
            table,
            first.as_mut_slice(),
            ordered.as_mut_slice(),
            &mut items,
            &mut guesses,
            names,
        ) {
            return Err(GroupError::GroupedTwice { line });
        }
    }
    Ok(first)
}
