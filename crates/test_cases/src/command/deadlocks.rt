//! Cases of `deadlock`.

use crate::command::{Case, PlainCommand};
use crate::declarations::{
    CHAIN, CROSSED, CROSSED_HANGS, HANGS, LANES, PLAN_OF_TWO, SURE_HANGS, TWO, TWO_FLUSHES, UNSURE,
    UNSURE_BESIDE, UNSURE_CHAIN, UNSURE_CHAIN_HANGS, UNSURE_LANES, UNSURE_TWO,
};
use wq_commands::End;

pub(crate) const DEADLOCKS: &[Case] = &[
    Case {
        name: "lanes that hang",
        command: PlainCommand::Deadlock,
        texts: &[CHAIN, LANES],
        end: End::Bad,
        answer: HANGS,
        said: "\
d:4:9: can hang: `a`, on workqueue 0, waits for `b`, which waits on workqueue 1
    flush a b
            ^
d:5:9: and `b`, on workqueue 1, waits for `c`, which is behind `a` on workqueue 0
    flush b c
            ^
",
    },
    Case {
        name: "two lanes that hang",
        command: PlainCommand::Deadlock,
        texts: &[TWO_FLUSHES, CROSSED],
        end: End::Bad,
        answer: CROSSED_HANGS,
        said: "\
d:5:9: can hang: `a`, on workqueue 0, waits for `b`, which is behind `c` on workqueue 1
    flush a b
            ^
d:6:9: and `c`, on workqueue 1, waits for `d`, which is behind `a` on workqueue 0
    flush c d
            ^
",
    },
    Case {
        name: "safe lanes",
        command: PlainCommand::Deadlock,
        texts: &[CHAIN, "wq 0 b\nwq 1\nwq 2 a\nwq 3 c\n"],
        end: End::Good,
        answer: "safe\n",
        said: "",
    },
    Case {
        name: "lanes of a plan",
        command: PlainCommand::Deadlock,
        texts: &[TWO, PLAN_OF_TWO],
        end: End::Good,
        answer: "safe\n",
        said: "",
    },
    Case {
        name: "lanes without an item",
        command: PlainCommand::Deadlock,
        texts: &[TWO, "wq 0 a\n"],
        end: End::Refused,
        answer: "refused 41 line 0\n",
        said: "\
c: `b` is on no workqueue [refused 41, `wqplan explain 41`]
",
    },
    Case {
        name: "a declaration and lanes that are none",
        command: PlainCommand::Deadlock,
        texts: &["item\n", "nope\n"],
        end: End::Refused,
        answer: "refused 5 line 1\n",
        said: "\
d:1:5: a name is missing [refused 5, `wqplan explain 5`]
    item
        ^ the line should be `item NAME`
",
    },
    Case {
        name: "lanes that hang if an unsure line is so",
        command: PlainCommand::Deadlock,
        texts: &[UNSURE_CHAIN, LANES],
        end: End::Bad,
        answer: UNSURE_CHAIN_HANGS,
        said: "\
d:4:10: can hang if this is so: `a`, on workqueue 0, waits for `b`, which waits on workqueue 1
    flush? a b
             ^
d:5:9: and `b`, on workqueue 1, waits for `c`, which is behind `a` on workqueue 0
    flush b c
            ^
d: note: 1 of these waits isn't decided. Take a line away if it isn't so, or its `?` if it is, and ask again
",
    },
    Case {
        name: "lanes that hang whatever an unsure line is",
        command: PlainCommand::Deadlock,
        texts: &[UNSURE_BESIDE, "wq 0 a b\n"],
        end: End::Bad,
        answer: SURE_HANGS,
        said: "\
d:3:9: can hang: `a`, on workqueue 0, waits for `b`, which is behind it
    flush a b
            ^
d: note: hangs for sure: no unsure line is needed
",
    },
    Case {
        name: "safe lanes of an unsure line",
        command: PlainCommand::Deadlock,
        texts: &[UNSURE, PLAN_OF_TWO],
        end: End::Good,
        answer: "safe\n",
        said: "\
d: note: safe whatever the 1 unsure line turns out to be
",
    },
    Case {
        name: "lanes that hang if the first of two unsure lines is so",
        command: PlainCommand::Deadlock,
        texts: &[UNSURE_TWO, UNSURE_LANES],
        end: End::Bad,
        answer: "unsure 1\nflush? a b\nrun 7\nqueue a\nqueue b\nqueue c\nstart 0 a\nwait 0 b\nstart 1 c\nfinish 1 c\n",
        said: "\
d:4:10: can hang if this is so: `a`, on workqueue 0, waits for `b`, which is behind it
    flush? a b
             ^
d: note: 1 of these waits isn't decided. Take a line away if it isn't so, or its `?` if it is, and ask again
d: note: 1 of 2 unsure lines makes no difference on these workqueues: line 5
",
    },
];
