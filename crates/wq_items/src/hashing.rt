//! Names as keys of a map, and how they are hashed.
//!
//! Names come from untrusted text. An author who knew the hash function could choose thousands of names with the same
//! hash, and each look-up would then try all of them. So hashes depend on a seed, which the program chooses. No result
//! depends on the seed: what a map finds is defined without its hashes.
//!
//! A name is hashed in one pass, in time linear in its length. Most names have at most eight bytes. Such a name is
//! hashed and compared as one number that stands for all of its bytes (`short`). A name keeps its hash, so that a map
//! doesn't hash it again.

ghost use Rattle.std.specs.Prelude.{◌≡◌, ◌==◌, ◌&&◌, List, ℕ, if◌then◌else◌, bytes_eq};
ghost use Rattle.std.specs.Hash as fed;
ghost use Rattle.std.specs.Hash.FoldHasher as folding;
ghost use Rattle.std.specs.Cmp.Rules.{comparing, hashing};
ghost use Rattle.std.proofs.Common.{rules};
ghost use Rattle.wq_items.specs.Hashing.{hash_of};
ghost use Rattle.wq_items.specs.Short.{is_short, short_number};

use crate::short::{are_same_short, are_same_tiny, is_short, is_tiny, short_number, tiny_number};
use std::hash::{FoldHasher, Hasher};

/// A name, as a slice of the text, and its hash.
#[derive(Clone, Copy)]
pub(crate) struct Name<'a> {
    pub(crate) bytes: &'a [u8],
    pub(crate) hash: u64,
}

/// Whether two longer names are equal.
#[inline(always)]
fn are_same_long(a: &[u8], b: &[u8]) -> bool
    ensures { result ≡ bytes_eq a.now b.now }
{
    a == b
}

/// Whether two names are equal.
#[inline(always)]
pub(crate) fn are_same(a: &[u8], b: &[u8]) -> bool
    ensures { result ≡ bytes_eq a.now b.now }
{
    if a.len() != b.len() {
        return false;
    }
    if is_short(a) {
        return are_same_short(a, b);
    }
    if is_tiny(a) {
        return are_same_tiny(a, b);
    }
    are_same_long(a, b)
}

impl<'a> PartialEq for Name<'a> {
    ghost eq = { λ x y. (x.hash == y.hash) && bytes_eq x.bytes.now y.bytes.now };

    ghost laws = { Prim.search (comparing, rules) };

    fn eq(&self, other: &Self) -> bool {
        self.hash == other.hash && are_same(self.bytes, other.bytes)
    }
}

impl<'a> Eq for Name<'a> {
    ghost laws = { Prim.search (comparing, rules) };
}

/// Hashes a longer name.
#[inline(always)]
fn write_long(hasher: &mut FoldHasher, bytes: &[u8])
    ensures { hasher.new ≡ folding.write hasher.old bytes.now }
{
    hasher.write(bytes);
}

/// Hashes names with a seed: first the seed, then the name, then the seed again.
#[derive(Clone, Copy)]
pub(crate) struct Seeded {
    /// The state after the seed, from which each name is hashed.
    begun: FoldHasher,
    seed: u64,
}

impl Seeded {
    /// A hasher with this seed.
    pub(crate) fn new(seed: u64) -> Seeded {
        let mut begun = FoldHasher::default();
        begun.write_u64(seed);
        Seeded { begun, seed }
    }

    /// A name with its hash.
    #[inline(always)]
    pub(crate) fn name<'a>(&self, bytes: &'a [u8]) -> Name<'a>
        ensures bytes { result.bytes.now ≡ bytes.now }
        ensures hash { result.hash ≡ hash_of self.now bytes.now }
    {
        let mut hasher = self.begun;
        if is_short(bytes) {
            hasher.write_u64(short_number(bytes));
        } else if is_tiny(bytes) {
            hasher.write_u64(u64::from(tiny_number(bytes)));
        } else {
            write_long(&mut hasher, bytes);
        }
        hasher.write_u64(self.seed);
        Name {
            bytes,
            hash: hasher.finish(),
        }
    }
}
