//! How threads see each other: a flag for each, one for the end, a count of the doers that dawdled, and for each item,
//! how many doers run it. Looking takes as long as the others let it wait, but at most 1,000,000,000 looks for each.

use std::alloc::{AllocError, Global};
use std::sync::atomic::{AtomicBool, AtomicU32, Ordering};
use wq_items::ItemId;

/// How often a thread looks for another.
const LOOKS: u32 = 1_000_000_000;

/// How often a thread looks, once the end has come, before it goes on.
const MORE_LOOKS: u32 = 1_000_000;

/// How often a thread looks when it dawdles.
const FEW_LOOKS: u32 = 10_000;

/// The flags.
#[derive(Drop)]
pub(crate) struct Flags {
    here: Vec<AtomicBool>,
    is_ending: AtomicBool,
    has_lingered: AtomicBool,
    /// How often a thread has dawdled.
    dawdled: AtomicU32,
    /// How many runs of each item are under way that count themselves.
    under_way: Vec<AtomicU32>,
}

/// Looks for a flag until it is set.
fn look(flag: &AtomicBool) -> bool {
    for _ in 0..LOOKS {
        if flag.load(Ordering::SeqCst) {
            return true;
        }
    }
    false
}

impl Flags {
    /// Flags for this many threads, and counts for this many items. None is set.
    pub(crate) fn new(alloc: Global, count: usize, items: u16) -> Result<Flags, AllocError> {
        let mut here = Vec::new(alloc);
        for _ in 0..count {
            here.push(AtomicBool::new(false))?;
        }
        let mut under_way = Vec::new(alloc);
        for _ in 0..items {
            under_way.push(AtomicU32::new(0))?;
        }
        Ok(Flags {
            under_way,
            here,
            is_ending: AtomicBool::new(false),
            has_lingered: AtomicBool::new(false),
            dawdled: AtomicU32::new(0),
        })
    }

    /// Says that this thread is here, and looks for all others. Returns whether it has seen all of them.
    pub(crate) fn meet(&self, own: usize) -> bool {
        if let Some(flag) = self.here.get(own) {
            flag.store(true, Ordering::SeqCst);
        }
        let mut all = true;
        for flag in self.here.as_slice() {
            all = look(flag) && all;
        }
        all
    }

    /// Looks for the end, goes on for a while, and says that it has. Returns whether it has seen the end.
    pub(crate) fn linger(&self) -> bool {
        let has_seen = look(&self.is_ending);
        let mut seen = 0u32;
        for _ in 0..MORE_LOOKS {
            if self.is_ending.load(Ordering::SeqCst) && seen < MORE_LOOKS {
                seen += 1;
            }
        }
        self.has_lingered.store(true, Ordering::SeqCst);
        has_seen && seen > 0
    }

    /// Goes on for a while, and counts this. It has seen what it looked for, which is nothing.
    pub(crate) fn dawdle(&self) -> bool {
        let mut seen = 0u32;
        for _ in 0..FEW_LOOKS {
            if self.is_ending.load(Ordering::SeqCst) && seen < FEW_LOOKS {
                seen += 1;
            }
        }
        self.dawdled.fetch_add(1, Ordering::SeqCst);
        true
    }

    /// Counts a run of this item as under way, goes on for a while, and counts it no more. Returns whether no other run
    /// of the item was under way meanwhile.
    pub(crate) fn run_alone(&self, item: ItemId) -> bool {
        let Some(count) = self.under_way.get(usize::from(item.get())) else {
            return false;
        };
        let mut is_alone = count.fetch_add(1, Ordering::SeqCst) == 0;
        for _ in 0..FEW_LOOKS {
            is_alone = count.load(Ordering::SeqCst) == 1 && is_alone;
        }
        count.fetch_sub(1, Ordering::SeqCst) == 1 && is_alone
    }

    /// Whether threads have dawdled so often at least.
    pub(crate) fn have_dawdled(&self, count: u32) -> bool {
        self.dawdled.load(Ordering::SeqCst) >= count
    }

    /// Says that the end has come.
    pub(crate) fn end(&self) {
        self.is_ending.store(true, Ordering::SeqCst);
    }

    /// Whether a thread has lingered.
    pub(crate) fn has_lingered(&self) -> bool {
        self.has_lingered.load(Ordering::SeqCst)
    }
}
