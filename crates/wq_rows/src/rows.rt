//! Iterating over the rows that packed bytes hold.
//!
//! The bytes are checked once, in linear time, before the first row is yielded, so that each row is known to be one.
//! Each row then takes constant time. Nothing is copied.

ghost use Rattle.std.specs.Prelude.{◌≡◌, List, length, IfSome, IfNone};
ghost use Rattle.std.specs.Bool.{OnTrue, OnFalse};
ghost use Rattle.std.specs.Iterator.{YieldsFirst, item_count};
ghost use Rattle.wq_rows.specs.declared.event.Row.{Row as RowValue};
ghost use Rattle.wq_rows.specs.Stored.{rows_of, IsStored};

use crate::event::Row;
use crate::packing::{ROW_LEN, unpack};
use std::marker::Model;

/// The rows that some bytes hold, in order. Contracts see the list of the rows that are left.
#[derive(Drop)]
pub struct Rows<'r> {
    rest: &'r [u8],
}

impl<'r> Model for Rows<'r> {
    ghost use Rattle.std.specs.Prelude.{List};
    ghost use Rattle.wq_rows.specs.declared.event.Row.{Row as RowValue};
    ghost use Rattle.wq_rows.specs.Stored.{rows_of, IsStored};

    ghost Value = { List RowValue };

    ghost view = { λ r. rows_of r.rest.now };

    ghost invariant = { λ r. IsStored r.rest.now (rows_of r.rest.now) };
}

/// Whether these bytes hold rows.
fn hold_rows(bytes: &[u8]) -> bool
    ensures yes { OnTrue result (IsStored bytes.now (rows_of bytes.now)) }
    ensures no { OnFalse result ((rows : List RowValue) → ¬ IsStored bytes.now rows) }
{
    let mut rest = bytes;
    while let Some((row, after)) = rest.split_at_checked(ROW_LEN) {
        if unpack(row).is_none() {
            return false;
        }
        rest = after;
    }
    rest.is_empty()
}

impl<'r> Rows<'r> {
    /// The rows that these bytes hold; `None` exactly if they hold none: some 12 of them aren't a row, or fewer than 12
    /// are left at the end.
    pub fn of(bytes: &'r [u8]) -> Option<Self>
        ensures some { IfSome result (λ rows. IsStored bytes.now rows) }
        ensures none { IfNone result ((rows : List RowValue) → ¬ IsStored bytes.now rows) }
    {
        if hold_rows(bytes) {
            Some(Rows { rest: bytes })
        } else {
            None
        }
    }

    /// The rows of bytes that are known to hold rows.
    pub(crate) fn stored(bytes: &'r [u8]) -> Self
        requires { IsStored bytes.now (rows_of bytes.now) }
        ensures { result ≡ rows_of bytes.now }
    {
        Rows { rest: bytes }
    }

    /// How many rows are left.
    pub fn len(&self) -> usize
        ensures { result ≡ length self.now }
    {
        self.rest.len() / ROW_LEN
    }
}

impl<'r> Iterator for Rows<'r> {
    type Item = Row;

    ghost next_gives = { YieldsFirst (λ rest. rest) };

    ghost remaining = { item_count (λ rest. rest) };

    fn next(&mut self) -> Option<Row> {
        let (row, rest) = self.rest.split_at_checked(ROW_LEN)?;
        self.rest = rest;
        unpack(row)
    }
}
