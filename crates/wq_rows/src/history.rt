//! Histories: rows, packed one after the other.
//!
//! The bytes of a history are its packed rows, with nothing before, between or after them. A history allocates once, 12
//! bytes for each row that there is room for. Each call takes constant time.

ghost use Rattle.std.specs.Prelude.{◌≡◌, ◌<◌, ◌≤◌, [], ◌∷◌, ◌++◌, length, IfOk, OnErr};
ghost use Rattle.wq_rows.specs.Packing.{packed_rows, IsPackable};
ghost use Rattle.wq_rows.specs.Stored.{max_rows, IsHistory};

use crate::event::Row;
use crate::packing::{ROW_LEN, pack};
use crate::rows::Rows;
use std::alloc::{AllocError, Allocator};
use std::marker::Model;

/// The most rows that a history may have.
pub const MAX_ROWS: u32 = 16_777_216;

/// A history. Contracts see its rows, and how many rows there is room for.
#[derive(Drop)]
pub struct History<A: Allocator> {
    bytes: Vec<u8, A>,
    room: u32,
}

impl<A: Allocator> Model for History<A> {
    ghost use Rattle.std.specs.Vec.{vec_capacity};
    ghost use Rattle.wq_rows.specs.Stored.{HistoryView, rows_of, IsRoomy};

    ghost Value = { HistoryView };

    ghost view = { λ h. record { rows = rows_of h.bytes.items; room = h.room } };

    ghost invariant = { λ h. IsRoomy h.bytes.items (vec_capacity h.bytes) h.room };
}

impl<A: Allocator> History<A> {
    /// A history without rows, with room for this many. It allocates once, 12 bytes for each of them (which is tested).
    /// The only error is out of memory, which can't occur if `room` is 0.
    pub fn new(alloc: A, room: u32) -> Result<Self, AllocError>
        requires { room ≤ max_rows }
        ensures history { IfOk result (λ h. h ≡ record { rows = []; room = room }) }
        ensures memory { OnErr result (0 < room) }
    {
        let bytes = Vec::with_capacity(alloc, ROW_LEN * room as usize)?;
        Ok(History { bytes, room })
    }

    /// Appends a row. It takes no memory.
    #[inline(always)]
    pub fn push(&mut self, row: &Row)
        requires packable { IsPackable row.now }
        requires room { length self.old.rows < self.old.room }
        ensures rows { self.new.rows ≡ self.old.rows ++ (row.now ∷ []) }
        ensures room { self.new.room ≡ self.old.room }
    {
        let written = self.bytes.extend_from_slice(&pack(row));
        prove!(written.is_ok());
    }

    /// How many rows there are.
    pub fn len(&self) -> u32
        ensures rows { result ≡ length self.now.rows }
        ensures history { IsHistory self.now }
    {
        (self.bytes.len() / ROW_LEN) as u32
    }

    /// How many rows there is room for, including those that are there.
    pub fn room(&self) -> u32
        ensures room { result ≡ self.now.room }
        ensures history { IsHistory self.now }
    {
        self.room
    }

    /// The bytes that hold the rows.
    pub fn packed(&self) -> &[u8]
        ensures { result.now ≡ packed_rows self.now.rows }
    {
        self.bytes.as_slice()
    }

    /// The rows, in order.
    pub fn rows(&self) -> Rows<'_>
        ensures { result ≡ self.now.rows }
    {
        Rows::stored(self.bytes.as_slice())
    }
}
