//! The number of a lane, which is a workqueue.
//!
//! Each call takes constant time.
ghost use Rattle.std.specs.Prelude.{◌≡◌, ℕ};

use std::marker::Model;

/// The number of a lane, from 0.
#[derive(Clone, Copy, Debug, PartialEq, Eq)]
pub struct LaneId(u16);

impl Model for LaneId {
    ghost Value = { ℕ };

    ghost view = { λ q. q.0 };

    ghost inverse = { λ n. record { 0 = n } };
}

impl LaneId {
    /// The lane with this number.
    pub fn new(number: u16) -> Self
        ensures { result ≡ number }
    {
        LaneId(number)
    }

    /// The number of the lane.
    pub fn get(self) -> u16
        ensures { result ≡ self }
    {
        self.0
    }
}
