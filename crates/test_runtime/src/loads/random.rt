//! Pseudo-random numbers, by the SplitMix64 of `rand_xoshiro`, and what is chosen by them. Each takes constant time.

ghost use Rattle.std.specs.Prelude.{◌<◌};

use rand_core::{Rng, SeedableRng};
use rand_xoshiro::SplitMix64;
use wq_groups::LaneId;
use wq_items::{ItemId, Target};

/// A generator.
#[derive(Drop)]
pub(crate) struct Random {
    numbers: SplitMix64,
}

impl Random {
    /// The generator for a seed, and for one of the streams of this seed.
    pub(crate) fn new(seed: u32, stream: u32) -> Self {
        let both = (u64::from(seed) << 32) | u64::from(stream);
        let first = SplitMix64::seed_from_u64(both).next_u64();
        Random {
            numbers: SplitMix64::seed_from_u64(first),
        }
    }

    /// A number below a limit.
    pub(crate) fn below(&mut self, limit: usize) -> usize
        requires { 0 < limit }
        ensures { result < limit }
    {
        (self.numbers.next_u64() % limit as u64) as usize
    }

    /// An item. `items` is how many there are; if that is 0, the item doesn't exist.
    pub(crate) fn item(&mut self, items: u16) -> ItemId {
        if items == 0 {
            return ItemId::new(0);
        }
        ItemId::new(self.below(usize::from(items)) as u16)
    }

    /// An item, now and then one that doesn't exist. There are this many items.
    pub(crate) fn any_item(&mut self, items: u16) -> ItemId {
        if self.below(64) == 0 {
            return ItemId::new(items);
        }
        self.item(items)
    }

    /// A lane, now and then one that doesn't exist. There are this many lanes.
    pub(crate) fn any_lane(&mut self, lanes: u16) -> LaneId {
        if lanes == 0 || self.below(64) == 0 {
            return LaneId::new(lanes);
        }
        LaneId::new(self.below(usize::from(lanes)) as u16)
    }

    /// The item of one of these targets and whether its whole lane is waited for;
    /// now and then an item that doesn't exist, or the other kind.
    pub(crate) fn any_target(&mut self, targets: &[Target]) -> (ItemId, bool) {
        if targets.is_empty() || self.below(16) == 0 {
            return (ItemId::new(u16::MAX), self.below(2) == 0);
        }
        let target = &targets[self.below(targets.len())];
        let is_other = self.below(16) == 0;
        (target.item, target.whole != is_other)
    }
}
