//! Names, each with its number.
//!
//! No name is declared twice, by "Items and groups" in docs/FORMAT.md. A name is found by its key: some bits of the
//! hash that it brings, which depends on a seed. The table knows the last place of each key, and for each place the one
//! before it with the same key. There are at least four keys for each name: if the room for names is used up, room is
//! made for four times as many, with new keys for all.
//!
//! So finding or adding a name takes constant time on average: it is hashed once, and compared with hardly any other.
//! The memory is linear in the number of names. The names themselves stay in the text.

ghost use Rattle.std.specs.Prelude.{◌≡◌, ◌≢◌, ◌-◌, ◌<◌, ◌≤◌, ◌++◌, ◌∷◌, [], ℕ, List, length, Some, not, is_some, false};
ghost use Rattle.std.specs.Prelude.{slice_get, vec_len, vec_capacity, if◌then◌else◌, IfOk, OnErr};
ghost use Rattle.std.specs.Int.Bits.{bit_and};
ghost use Rattle.wq_items.specs.Hashing.{AreFound, AreLinked, hash_of, names_of, keys_of};
ghost use Rattle.wq_items.specs.Table.{item_named};

use crate::hashing::{Name, Seeded};
use crate::short::is_short;
use std::alloc::{AllocError, Allocator};
use std::marker::Model;

/// At most 4,096 different names, in the order in which they were added. Contracts see the list of the names.
#[derive(Drop)]
pub(crate) struct Names<'a, A: Allocator> {
    names: Vec<Name<'a>, A>,
    places: Places<A>,
    hasher: Seeded,
}

impl<'a, A: Allocator> Model for Names<'a, A> {
    ghost use Rattle.std.specs.Prelude.{List, ℕ};
    ghost use Rattle.wq_items.specs.Hashing.{AreFound, names_of};

    ghost Value = { List (List ℕ) };

    ghost view = { λ n. names_of n.names.items };

    ghost invariant = { λ n. AreFound n.hasher n.names.items n.places.lasts.items n.places.befores.items };
}

/// Places by key. A place is stored as one more than it is; 0 stands for none.
#[derive(Drop)]
struct Places<A: Allocator> {
    /// For each key, the last place.
    lasts: Vec<u16, A>,
    /// For each place, the previous one with the same key.
    befores: Vec<u16, A>,
}

/// The key of a hash, if `most` is the greatest key.
#[inline(always)]
fn key_of(hash: u64, most: usize) -> usize
    ensures key { result ≡ bit_and hash most }
    ensures below { result ≤ most }
{
    (hash & most as u64) as usize
}

/// How many keys there are if there is room for this many names: a power of two, at least four for each name.
fn keys_for(room: usize) -> usize
    requires some { 0 < room }
    requires few { room ≤ 4096 }
    ensures { 0 < result }
{
    (4 * room).checked_next_power_of_two().unwrap_or(1)
}

/// For how many names there is room after there was room for this many: for four times as many, at least 16.
fn more_room(names: usize) -> usize
    requires { names < 4096 }
    ensures more { names < result }
    ensures few { result ≤ 4096 }
{
    (4 * names).clamp(16, 4096)
}

impl<A: Allocator + Copy> Places<A> {
    /// The places of these names by key, with room for `room` names.
    fn with_room(alloc: A, names: &[Name<'_>], room: usize) -> Result<Self, AllocError>
        requires more { length names.now < room }
        requires few { room ≤ 4096 }
        ensures keyed { IfOk result (λ places. 0 < length places.lasts.items) }
        ensures linked { IfOk result (λ places.
            AreLinked (keys_of (length places.lasts.items - 1) names.now)
            (length names.now) places.lasts.items places.befores.items) }
        ensures room { IfOk result (λ places. vec_len places.befores < vec_capacity places.befores) }
    {
        let count = keys_for(room);
        let mut lasts = vec![in alloc; 0u16; count]?;
        let mut befores = Vec::with_capacity(alloc, room)?;
        for place in 0..names.len() {
            let key = key_of(names[place].hash, count - 1);
            befores.push(lasts[key])?;
            lasts[key] = place as u16 + 1;
        }
        Ok(Places { lasts, befores })
    }

    /// Makes room for another name after these, if there is none.
    #[inline(always)]
    fn make_room(&mut self, names: &[Name<'_>]) -> Result<(), AllocError>
        requires few { length names.now < 4096 }
        requires keyed { 0 < length names.now → 0 < length self.old.lasts.items }
        requires linked { AreLinked (keys_of (length self.old.lasts.items - 1) names.now) (length names.now)
            self.old.lasts.items self.old.befores.items }
        ensures keyed { IfOk result (λ _. 0 < length self.new.lasts.items) }
        ensures linked { IfOk result (λ _. AreLinked (keys_of (length self.new.lasts.items - 1) names.now)
            (length names.now) self.new.lasts.items self.new.befores.items) }
        ensures room { IfOk result (λ _. vec_len self.new.befores < vec_capacity self.new.befores) }
        ensures unchanged { OnErr result (self.new ≡ self.old) }
    {
        if self.lasts.is_empty() || self.befores.len() >= self.befores.capacity() {
            let room = more_room(names.len());
            *self = Places::with_room(*self.lasts.allocator(), names, room)?;
        }
        Ok(())
    }
}

/// A name with its hash, and its place if it is one of these names.
#[inline(always)]
fn look_up<'n, A: Allocator>(
    names: &[Name<'_>],
    places: &Places<A>,
    hasher: &Seeded,
    name: &'n [u8],
) -> (Name<'n>, Option<usize>)
    requires { AreFound hasher.now names.now places.now.lasts.items places.now.befores.items }
    ensures bytes { result.0.bytes.now ≡ name.now }
    ensures hash { result.0.hash ≡ hash_of hasher.now name.now }
    ensures place { result.1 ≡ item_named (names_of names.now) name.now }
{
    let wanted = hasher.name(name);
    let count = places.lasts.len();
    if count == 0 {
        return (wanted, None);
    }
    let mut end = places.lasts[key_of(wanted.hash, count - 1)];
    while end > 0 {
        let place = usize::from(end - 1);
        if names[place] == wanted {
            return (wanted, Some(place));
        }
        end = places.befores[place];
    }
    (wanted, None)
}

impl<'a, A: Allocator + Copy> Names<'a, A> {
    /// No names. They will be hashed with `seed`.
    pub(crate) fn new(alloc: A, seed: u64) -> Self
        ensures { result ≡ [] }
    {
        let places = Places {
            lasts: Vec::new(alloc),
            befores: Vec::new(alloc),
        };
        Names {
            names: Vec::new(alloc),
            places,
            hasher: Seeded::new(seed),
        }
    }

    /// A copy of the names.
    pub(crate) fn again(&self, alloc: A) -> Result<Self, AllocError>
        ensures { IfOk result (λ names. names ≡ self.now) }
    {
        let mut names = Vec::with_capacity(alloc, self.names.len())?;
        names.extend_from_slice(self.names.as_slice())?;
        let mut lasts = Vec::with_capacity(alloc, self.places.lasts.len())?;
        lasts.extend_from_slice(self.places.lasts.as_slice())?;
        let mut befores = Vec::with_capacity(alloc, self.places.befores.len())?;
        befores.extend_from_slice(self.places.befores.as_slice())?;
        let places = Places { lasts, befores };
        Ok(Names {
            names,
            places,
            hasher: self.hasher,
        })
    }

    /// How many names there are.
    pub(crate) fn len(&self) -> usize
        ensures { result ≡ length self.now }
    {
        self.names.len()
    }

    /// The name with this number.
    pub(crate) fn get(&self, i: usize) -> &'a [u8]
        requires { i < length self.now }
        ensures { slice_get self.now i ≡ Some result.now }
    {
        self.names[i].bytes
    }

    /// The number of a name. A short name, as most are, is found here, without a call; so this is compiled into the
    /// caller.
    #[inline(always)]
    pub(crate) fn find(&self, name: &[u8]) -> Option<usize>
        ensures { result ≡ item_named self.now name.now }
    {
        if is_short(name) {
            return look_up(self.names.as_slice(), &self.places, &self.hasher, name).1;
        }
        self.find_other(name)
    }

    /// The number of a name that needn't be short.
    #[inline(never)]
    fn find_other(&self, name: &[u8]) -> Option<usize>
        ensures { result ≡ item_named self.now name.now }
    {
        look_up(self.names.as_slice(), &self.places, &self.hasher, name).1
    }

    /// Adds a name unless it is there already, and returns whether it was added.
    pub(crate) fn add(&mut self, name: &'a [u8]) -> Result<bool, AllocError>
        requires { length self.old < 4096 }
        ensures added { IfOk result (λ added. added ≡ not (is_some (item_named self.old name.now))) }
        ensures names { IfOk result (λ added. self.new ≡ (if added then self.old ++ (name.now ∷ []) else self.old)) }
        ensures absent { OnErr result (is_some (item_named self.old name.now) ≡ false) }
    {
        let names = self.names.as_slice();
        let (name, place) = look_up(names, &self.places, &self.hasher, name);
        if place.is_some() {
            return Ok(false);
        }
        self.places.make_room(names)?;
        let key = key_of(name.hash, self.places.lasts.len() - 1);
        let before = self.places.lasts[key];
        self.names.push(name)?;
        self.places.befores.push_reserved(before);
        self.places.lasts[key] = self.names.len() as u16;
        Ok(true)
    }
}
