//! Laws about counts, as contracts of functions with empty bodies.
//!
//! They speak of lists of counts and rows alone, whatever code counts them.

ghost use Rattle.std.specs.Prelude.{◌≡◌, ℕ, ◌+◌, ◌*◌, ◌<◌, ◌≤◌, ◌↔◌, ◌⊎◌, Some, None, Bool, true, List, [], ◌∷◌, ◌++◌};
ghost use Rattle.std.specs.Prelude.{length, replicate, sum, slice_index};
ghost use Rattle.wq_rows.specs.declared.event.Row.{Row};
ghost use Rattle.wq_rows.specs.Packing.{item_in, lane_in};
ghost use Rattle.wq_counts.specs.declared.kind.Kind.{Kind};
ghost use Rattle.wq_counts.specs.declared.kind.LaneKind.{LaneKind};
ghost use Rattle.wq_counts.specs.Counting.{kind_in, lane_kind_in, slot_in, is_of, is_of_lane, is_counted, counts_each};
ghost use Rattle.wq_counts.specs.Counting.{HasCountsOf, made, made_lane, raised, raised_lane, noted, tally, tally_lane};
ghost use Rattle.wq_counts.specs.Counting.{counted_rows, AreRowsOf, AreTallies};

/// Another row of an item, a kind and an answer raises the count of these three by one, and no other count.
pub fn one_more_raises_one_count()
    ensures same { (counts : List ℕ) (i : ℕ) (kind : Kind) (said : Bool) →
        counts_each * i + counts_each ≤ length counts →
        made (raised counts i kind said) i kind said ≡ made counts i kind said + 1 }
    ensures other { (counts : List ℕ) (i j : ℕ) (kind other : Kind) (said answer : Bool) →
        (¬ ((j ≡ i) × (other ≡ kind) × (answer ≡ said))) →
        made (raised counts i kind said) j other answer ≡ made counts j other answer }
    ensures no_lane { (counts : List ℕ) (i q : ℕ) (kind : Kind) (other : LaneKind) (said answer : Bool) →
        made_lane (raised counts i kind said) q other answer ≡ made_lane counts q other answer }
{}

/// Another row of a lane, a kind and an answer raises the count of these three by one, and no other count.
pub fn one_more_of_a_lane_raises_one_count()
    ensures same { (counts : List ℕ) (q : ℕ) (kind : LaneKind) (said : Bool) →
        counts_each * q + counts_each ≤ length counts →
        made_lane (raised_lane counts q kind said) q kind said ≡ made_lane counts q kind said + 1 }
    ensures other { (counts : List ℕ) (q p : ℕ) (kind other : LaneKind) (said answer : Bool) →
        (¬ ((p ≡ q) × (other ≡ kind) × (answer ≡ said))) →
        made_lane (raised_lane counts q kind said) p other answer ≡ made_lane counts p other answer }
    ensures no_item { (counts : List ℕ) (q i : ℕ) (kind : LaneKind) (other : Kind) (said answer : Bool) →
        made (raised_lane counts q kind said) i other answer ≡ made counts i other answer }
{}

/// Two lists of counts with this many slots are equal exactly if they agree for each item, kind and answer, and for
/// each lane, kind and answer.
pub fn counts_are_equal_where_each_count_is()
    ensures { (slots : ℕ) (a b : List ℕ) → HasCountsOf slots a → HasCountsOf slots b → (a ≡ b)
        ↔ (((i : ℕ) (kind : Kind) (said : Bool) → i < slots → made a i kind said ≡ made b i kind said)
        × ((q : ℕ) (kind : LaneKind) (said : Bool) → q < slots → made_lane a q kind said ≡ made_lane b q kind said)) }
{}

/// A counted row belongs to exactly one item or lane, one kind and one answer: its own. A start belongs to none.
pub fn a_counted_row_is_of_one_item_kind_and_answer()
    ensures counted { (row : Row) → (is_counted row.event ≡ true)
        ↔ (((kind : Kind) × (kind_in row.event ≡ Some kind))
        ⊎ ((kind : LaneKind) × (lane_kind_in row.event ≡ Some kind))) }
    ensures own { (row : Row) (kind : Kind) → kind_in row.event ≡ Some kind →
        is_of (item_in row.event) kind row.yes row ≡ true }
    ensures no_other { (row : Row) (i : ℕ) (kind : Kind) (said : Bool) → is_of i kind said row ≡ true →
        (kind_in row.event ≡ Some kind) × (item_in row.event ≡ i) × (row.yes ≡ said) }
    ensures own_lane { (row : Row) (kind : LaneKind) → lane_kind_in row.event ≡ Some kind →
        is_of_lane (lane_in row.event) kind row.yes row ≡ true }
    ensures no_other_lane { (row : Row) (q : ℕ) (kind : LaneKind) (said : Bool) → is_of_lane q kind said row ≡ true →
        (lane_kind_in row.event ≡ Some kind) × (lane_in row.event ≡ q) × (row.yes ≡ said) }
    ensures not_both { (row : Row) (kind : Kind) → kind_in row.event ≡ Some kind → lane_kind_in row.event ≡ None }
{}

/// Counts are the tallies of the rows exactly if each tells how many rows are of its item, kind and answer, or of its
/// lane, kind and answer.
pub fn tallies_are_those_of_each_item_and_lane()
    ensures { (slots : ℕ) (rows : List Row) (counts : List ℕ) → AreTallies slots rows counts
        ↔ (((i : ℕ) (kind : Kind) (said : Bool) → i < slots → made counts i kind said ≡ tally rows i kind said)
        × ((q : ℕ) (kind : LaneKind) (said : Bool) → q < slots →
        made_lane counts q kind said ≡ tally_lane rows q kind said)) }
{}

/// The counts of no rows are 0, and each row that is added keeps the counts those of the rows.
pub fn tallies_are_kept_row_by_row()
    ensures none { (slots : ℕ) → AreTallies slots [] (replicate (counts_each * slots) 0) }
    ensures more { (slots : ℕ) (rows : List Row) (row : Row) (counts : List ℕ) → HasCountsOf slots counts →
        (is_counted row.event ≡ true → slot_in row.event < slots) → AreTallies slots rows counts →
        AreTallies slots (rows ++ (row ∷ [])) (noted counts row) }
{}

/// The counts of some rows sum up to the number of counted rows: none is left out or counted twice.
pub fn tallies_sum_up_to_the_counted_rows()
    ensures { (slots : ℕ) (rows : List Row) (counts : List ℕ) → HasCountsOf slots counts → AreRowsOf slots rows →
        AreTallies slots rows counts → sum counts ≡ counted_rows rows }
{}

/// The sums of the counts of two lists of rows are the counts of both lists together.
pub fn tallies_of_two_runs_of_rows_are_added()
    ensures { (slots : ℕ) (rows more : List Row) (a b c : List ℕ) → AreTallies slots rows a → AreTallies slots more b →
        ((p : ℕ) → slice_index c p ≡ slice_index a p + slice_index b p) → AreTallies slots (rows ++ more) c }
{}
