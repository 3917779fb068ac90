//! The texts of a command, as far as they were read: one, two or three.
//!
//! Each call takes constant time.

ghost use Rattle.std.specs.Prelude.{◌≡◌};

use std::alloc::Allocator;
use std::marker::Model;

/// The most bytes that each text of a command may have. A command has a first text, and a second or a third only if
/// there is a limit for it.
#[derive(Clone, Copy, Debug, PartialEq, Eq)]
pub struct Limits {
    pub first: u32,
    pub second: Option<u32>,
    pub third: Option<u32>,
}

/// The texts of a command, each up to the first byte past its limit. A text that the command doesn't have is empty.
///
/// Contracts see their bytes as a `Given`.
#[derive(Drop)]
pub struct Texts<A: Allocator> {
    first: Vec<u8, A>,
    second: Vec<u8, A>,
    third: Vec<u8, A>,
}

impl<A: Allocator> Model for Texts<A> {
    ghost use Rattle.wq_meter.specs.Shell.{Given, given_code};

    ghost Value = { Given };

    ghost coded = { given_code };

    ghost view = { λ t. record { first = t.first.items; second = t.second.items; third = t.third.items } };
}

impl<A: Allocator> Texts<A> {
    /// The texts of a command from these three.
    pub fn new(first: Vec<u8, A>, second: Vec<u8, A>, third: Vec<u8, A>) -> Texts<A>
        ensures { result ≡ record { first = first.items; second = second.items; third = third.items } }
    {
        Texts {
            first,
            second,
            third,
        }
    }

    /// The first text.
    pub fn first(&self) -> &[u8]
        ensures { result.now ≡ self.now.first }
    {
        &self.first
    }

    /// The second text.
    pub fn second(&self) -> &[u8]
        ensures { result.now ≡ self.now.second }
    {
        &self.second
    }

    /// The third text.
    pub fn third(&self) -> &[u8]
        ensures { result.now ≡ self.now.third }
    {
        &self.third
    }
}
