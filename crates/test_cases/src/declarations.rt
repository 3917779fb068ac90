//! Declarations, and texts about them, that several cases have.

/// One item that flushes another, and its plan.
pub const TWO: &str = "item a\nitem b\nflush a b\n";

pub(crate) const PLAN_OF_TWO: &str = "plan 2\nwq 0 b\nwq 1 a\nchain 2\narc a b\n";

/// Two items that flush each other.
pub(crate) const EACH_OTHER: &str = "item a\nitem b\nflush b a\nflush a b\n";

/// An item that flushes itself, and its circle.
pub(crate) const ITSELF: &str = "item a\nflush a a\n";

pub(crate) const CIRCLE: &str = "circle 1\narc a a\nrun 3\nqueue a\nstart 0 a\nwait 0 a\n";

/// A chain of three items on two workqueues, and a run by which they hang.
pub(crate) const CHAIN: &str = "item a\nitem b\nitem c\nflush a b\nflush b c\n";

pub(crate) const LANES: &str = "wq 0 a c\nwq 1 b\n";

pub(crate) const HANGS: &str =
    "run 7\nqueue a\nqueue b\nqueue c\nstart 0 a\nwait 0 b\nstart 1 b\nwait 1 c\n";

/// Two flushes of four items, of which two are on each workqueue, and the run by which they hang.
pub(crate) const TWO_FLUSHES: &str = "item a\nitem b\nitem c\nitem d\nflush a b\nflush c d\n";

pub(crate) const CROSSED: &str = "wq 0 a d\nwq 1 b c\n";

pub(crate) const CROSSED_HANGS: &str =
    "run 8\nqueue a\nqueue c\nqueue b\nqueue d\nstart 0 a\nwait 0 b\nstart 1 c\nwait 1 d\n";

/// The same flushes, with two groups: none of the items waits for itself, but the groups wait for each other.
pub(crate) const GROUPED: &str =
    "item a\nitem b\nitem c\nitem d\nordered a d\nordered b c\nflush a b\nflush c d\n";

/// A chain of three items, and an item beside it.
pub(crate) const CHAIN_OF_FOUR: &str = "item a\nitem b\nitem c\nitem d\nflush a b\nflush b c\n";

/// One item that may flush another, and its run on one workqueue.
pub(crate) const UNSURE: &str = "item a\nitem b\nflush? a b\n";

pub(crate) const UNSURE_HANGS: &str =
    "unsure 1\nflush? a b\nrun 4\nqueue a\nqueue b\nstart 0 a\nwait 0 b\n";

/// The chain of three items, of which the first may flush the second; and its run.
pub(crate) const UNSURE_CHAIN: &str = "item a\nitem b\nitem c\nflush? a b\nflush b c\n";

pub(crate) const UNSURE_CHAIN_HANGS: &str = "unsure 1\nflush? a b\n\
    run 7\nqueue a\nqueue b\nqueue c\nstart 0 a\nwait 0 b\nstart 1 b\nwait 1 c\n";

/// One item that flushes another, which may flush itself; and its run on one workqueue.
pub(crate) const UNSURE_BESIDE: &str = "item a\nitem b\nflush a b\nflush? b b\n";

pub(crate) const SURE_HANGS: &str = "unsure 0\nrun 4\nqueue a\nqueue b\nstart 0 a\nwait 0 b\n";

/// Two items that may flush a third, and workqueues on which the first of these flushes alone makes a difference.
pub(crate) const UNSURE_TWO: &str = "item a\nitem b\nitem c\nflush? a b\nflush? c b\n";

pub(crate) const UNSURE_LANES: &str = "wq 0 a b\nwq 1 c\n";
