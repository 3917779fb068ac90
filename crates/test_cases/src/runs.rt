//! Cases of `run`, which takes threads.

use crate::declarations::{CIRCLE, GROUPED, ITSELF, TWO};
use wq_commands::End;

/// A declaration, how `run` ends on it, what it writes, and what it says then.
pub struct RunCase {
    pub name: &'static str,
    pub text: &'static str,
    pub end: End,
    pub answer: &'static str,
    pub said: &'static str,
}

const RUNS: &[RunCase] = &[
    RunCase {
        name: "a run of a plan",
        text: TWO,
        end: End::Good,
        answer: "workqueues 2\nitem a wq 1 queued 1 cancelled 0 finished 1\n\
            item b wq 0 queued 1 cancelled 0 finished 1\nfaults 0\n",
        said: "",
    },
    RunCase {
        name: "a run of an item that waits for a whole workqueue",
        text: "item a\nitem b\nflushwq a b\n",
        end: End::Good,
        answer: "workqueues 2\nitem a wq 1 queued 1 cancelled 0 finished 1\n\
            item b wq 0 queued 1 cancelled 0 finished 1\nfaults 0\n",
        said: "",
    },
    RunCase {
        name: "a run of no item",
        text: "",
        end: End::Good,
        answer: "workqueues 0\nfaults 0\n",
        said: "\
d: note: no item is declared: is this the right file?
",
    },
    RunCase {
        name: "no run of a circle",
        text: ITSELF,
        end: End::Bad,
        answer: CIRCLE,
        said: "",
    },
    RunCase {
        name: "no run of groups that wait in a circle",
        text: GROUPED,
        end: End::Bad,
        answer: "circle 2\narc a b\narc c d\nrun 8\nqueue a\nqueue c\nqueue b\nqueue d\nstart 0 a\n\
            wait 0 b\nstart 1 c\nwait 1 d\n",
        said: "",
    },
    RunCase {
        name: "no run of a declaration that is none",
        text: "item a\nflush a zz\n",
        end: End::Refused,
        answer: "refused 8 line 2\n",
        said: "\
d:2:9: no item `zz` is declared above this line [refused 8, `wqplan explain 8`]
    flush a zz
            ^^ write `item zz` above
",
    },
];

/// The cases of `run`.
pub fn run_cases() -> &'static [RunCase] {
    RUNS
}
