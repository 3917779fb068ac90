//! The number of a group.
//!
//! Each call takes constant time.
ghost use Rattle.std.specs.Prelude.{◌≡◌, ℕ};

use std::marker::Model;

/// The number of a group, from 0, in the order of the groups' first-declared items.
#[derive(Clone, Copy, Debug, PartialEq, Eq)]
pub struct GroupId(u16);

impl Model for GroupId {
    ghost Value = { ℕ };

    ghost view = { λ g. g.0 };

    ghost inverse = { λ n. record { 0 = n } };
}

impl GroupId {
    /// The group with this number.
    pub fn new(number: u16) -> Self
        ensures { result ≡ number }
    {
        GroupId(number)
    }

    /// The number of the group.
    pub fn get(self) -> u16
        ensures { result ≡ self }
    {
        self.0
    }
}
