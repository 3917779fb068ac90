//! How a list of steps ends, as in "The command `replay`" in docs/FORMAT.md.

/// How a list of steps ends if it is made from the empty state.
#[derive(Clone, Copy, Debug, PartialEq, Eq)]
pub enum RunEnd {
    /// This step, counted from 1, is the first that isn't lawful.
    NotLawful(u32),
    /// The run ends stuck, with each item queued exactly once, none cancelled, and flushes as declared.
    Deadlock,
    /// The run ends stuck in another way.
    Stuck,
    /// The run doesn't end stuck.
    Free,
}
