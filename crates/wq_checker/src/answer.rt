//! The answer to a certificate, as in "The command `check`" in docs/FORMAT.md.

ghost use Rattle.std.specs.Prelude.{◌≡◌};
ghost use Rattle.wq_checker.specs.Codes.{no_code};

use wq_items::ItemId;

/// What a certificate shows.
#[derive(Clone, Copy, Debug, PartialEq, Eq)]
pub enum Yes {
    /// The assignment is safe, and no smaller number of workqueues is enough.
    Plan { number: u32 },
    /// The groups wait in a circle of this many arcs.
    Circle { length: u32 },
}

/// Why a certificate shows nothing: the first of these reasons that holds.
#[derive(Clone, Copy, Debug, PartialEq, Eq)]
pub enum No {
    /// The first flush, by place, that doesn't fall: the workqueue of its item isn't above that of its target (50).
    NotFalling { item: ItemId, target: ItemId },
    /// The number of groups of the chain isn't the number of workqueues (52).
    LengthDiffers,
    /// Arc `at` of the chain, counted from 1, isn't a declared flush, or its item isn't in the group of the target of
    /// the arc before it (51). 0 if the chain has one group but there is no group.
    ChainBroken { at: u32 },
    /// Arc `at` of the circle, counted from 1, isn't a declared flush, or its item isn't in the group of the target of
    /// the arc before it; the last arc comes before the first (53).
    CircleBroken { at: u32 },
    /// The steps aren't a run that deadlocks if each group has a workqueue of its own (54).
    RunBroken,
}

impl No {
    /// The number of the reason: from 50 to 54.
    pub fn code(self) -> u32
        ensures { result ≡ no_code self }
    {
        match self {
            No::NotFalling { .. } => 50,
            No::ChainBroken { .. } => 51,
            No::LengthDiffers => 52,
            No::CircleBroken { .. } => 53,
            No::RunBroken => 54,
        }
    }
}
