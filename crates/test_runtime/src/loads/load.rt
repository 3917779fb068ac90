//! What is asked for: how many callers there are, and what each does. Reading it takes constant time.

use wq_text::number;

/// How many callers make pseudo-random calls.
const STRESSING: u16 = 4;

/// What each caller does.
#[derive(Clone, Copy, PartialEq, Eq)]
pub(crate) enum CallerTask {
    /// Each caller makes pseudo-random calls, and the last one to end destroys the runtime. The bodies make
    /// pseudo-random calls too.
    Stress,
    /// Each caller queues its own item and flushes it, again and again.
    Rounds,
    /// Each caller queues a pseudo-random item and flushes it, again and again.
    Storm,
    /// Each caller queues its own item and flushes it until the history is full, and then fills the last rows.
    Fill,
    /// Each caller queues all items and then flushes each of them, again and again. The bodies sleep.
    Sleep,
}

/// A load for a runtime.
#[derive(Clone, Copy)]
pub struct Load {
    pub(crate) task: CallerTask,
    pub(crate) callers: u16,
    /// How many calls or rounds each caller makes.
    pub(crate) count: u32,
    /// The seed of the pseudo-random numbers.
    pub(crate) seed: u32,
}

impl Load {
    /// The load of this seed in which each of four callers makes this many
    /// pseudo-random calls, if these words are numbers.
    pub fn stress(seed: &str, calls: &str) -> Option<Load> {
        Some(Load {
            task: CallerTask::Stress,
            callers: STRESSING,
            count: number(calls.as_bytes())?,
            seed: number(seed.as_bytes())?,
        })
    }

    /// The measured load that these words ask for.
    pub fn measured(task: &str, callers: &str, count: &str) -> Option<Load> {
        let task = match task {
            "rounds" => CallerTask::Rounds,
            "storm" => CallerTask::Storm,
            "fill" => CallerTask::Fill,
            "sleep" => CallerTask::Sleep,
            _ => return None,
        };
        Some(Load {
            task,
            callers: u16::try_from(number(callers.as_bytes())?).ok()?,
            count: number(count.as_bytes())?,
            seed: 1,
        })
    }
}
