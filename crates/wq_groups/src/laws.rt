//! Laws about groups, as contracts of functions with empty bodies.
//!
//! `Grouping` computes the groups of a declaration. The laws say what this means for the lines and for the items.

ghost use Rattle.std.specs.Prelude.{◌≡◌, ◌≢◌, ◌↔◌, ◌⊎◌, ℕ, List, [], length, Ok, Some, None, slice_get, AllPairs};
ghost use Rattle.wq_decl.specs.declared.directive.Directive.{Directive};
ghost use Rattle.wq_items.specs.Table.{Table};
ghost use Rattle.wq_items.specs.Building.{table_of};
ghost use Rattle.wq_groups.specs.Partition.{Partition, IsPartition, ShareGroup, AreAlike};
ghost use Rattle.wq_groups.specs.Grouping.{all_ordered, first_regrouped, IsLowestRegrouped, ShareLine, partition_of};

/// Two items are in one group exactly if they are the same item, or an `ordered` line has both names.
pub fn items_are_together_that_share_a_line()
    ensures { (ds : List (ℕ × Directive)) (t : Table) (i j : ℕ) (a b : List ℕ) → table_of ds ≡ Ok t →
        first_regrouped [] ds ≡ None → slice_get t.names i ≡ Some a → slice_get t.names j ≡ Some b →
        ShareGroup (partition_of ds t.names).group_of i j ↔ ((i ≡ j) ⊎ ShareLine ds a b) }
{}

/// The groups of a declaration are a partition of its items, numbered in the order of their first-declared members.
pub fn groups_are_numbered_by_first_members()
    ensures partition { (ds : List (ℕ × Directive)) (t : Table) → table_of ds ≡ Ok t → first_regrouped [] ds ≡ None →
        IsPartition (partition_of ds t.names) }
    ensures items { (ds : List (ℕ × Directive)) (t : Table) → table_of ds ≡ Ok t → first_regrouped [] ds ≡ None →
        length (partition_of ds t.names).group_of ≡ length t.names }
{}

/// Which items share a group decides the numbers of all groups: two partitions of the same number of items in which the
/// same items share a group are equal.
pub fn partition_is_the_only_one()
    ensures { (p q : Partition) → IsPartition p → IsPartition q → length p.group_of ≡ length q.group_of → AreAlike p q →
        p ≡ q }
{}

/// There is no fault exactly if all names on `ordered` lines differ. Otherwise the fault is that of the first line that
/// repeats one.
pub fn faults_without_groups()
    ensures none { (ds : List (ℕ × Directive)) →
        (first_regrouped [] ds ≡ None) ↔ AllPairs (λ (a b : List ℕ). a ≢ b) (all_ordered ds) }
    ensures lowest { (ds : List (ℕ × Directive)) (n : ℕ) → (first_regrouped [] ds ≡ Some n) ↔ IsLowestRegrouped ds n }
{}
