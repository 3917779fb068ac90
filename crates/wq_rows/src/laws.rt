//! Laws about packed rows, as contracts of functions with empty bodies.
//!
//! They speak of rows and bytes alone, whatever code packs them.

ghost use Rattle.std.specs.Prelude.{◌≡◌, ℕ, List};
ghost use Rattle.std.specs.List.{All};
ghost use Rattle.wq_rows.specs.declared.event.Row.{Row};
ghost use Rattle.wq_rows.specs.Packing.{packed_rows, IsRowInRange, IsPackedRow};
ghost use Rattle.wq_rows.specs.Stored.{rows_of, IsStored};

/// A packed row is unpacked to itself: the same bytes hold at most one row.
pub fn what_is_packed_is_unpacked_again()
    ensures { (bytes : List ℕ) (a b : Row) → IsPackedRow bytes a → IsPackedRow bytes b → a ≡ b }
{}

/// A row has at most one packing.
pub fn a_row_is_packed_in_one_way()
    ensures { (a b : List ℕ) (row : Row) → IsPackedRow a row → IsPackedRow b row → a ≡ b }
{}

/// The rows read from the joined packings of some rows are these rows.
pub fn packed_rows_are_read_again()
    ensures { (rows : List Row) → All IsRowInRange rows → rows_of (packed_rows rows) ≡ rows }
{}

/// The same bytes hold at most one list of rows.
pub fn packed_rows_are_the_only_ones()
    ensures { (bytes : List ℕ) (a b : List Row) → IsStored bytes a → IsStored bytes b → a ≡ b }
{}

/// A list of rows has at most one packing.
pub fn rows_are_packed_in_one_way()
    ensures { (a b : List ℕ) (rows : List Row) → IsStored a rows → IsStored b rows → a ≡ b }
{}
