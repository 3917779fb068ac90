//! Cases of `hang`, in each of which only one run is shortest.

use crate::command::{Case, PlainCommand};
use crate::declarations::{
    CHAIN, ITSELF, LANES, PLAN_OF_TWO, SURE_HANGS, TWO, UNSURE, UNSURE_BESIDE, UNSURE_CHAIN,
    UNSURE_CHAIN_HANGS, UNSURE_HANGS, UNSURE_LANES, UNSURE_TWO,
};
use wq_commands::End;

pub(crate) const HANGS: &[Case] = &[
    Case {
        name: "an item that waits for itself, shortest",
        command: PlainCommand::Hang,
        texts: &[ITSELF, "wq 0 a\n"],
        end: End::Bad,
        answer: "run 3\nqueue a\nstart 0 a\nwait 0 a\n",
        said: "\
d:2:9: can hang: `a`, on workqueue 0, waits for itself
    flush a a
            ^
",
    },
    Case {
        name: "a wait for what has no rescuer, shortest",
        command: PlainCommand::Hang,
        texts: &[CHAIN, "wq 0 a\nwq 1 b\nnorescuer 2 c\n"],
        end: End::Bad,
        answer: "run 4\nqueue b\nqueue c\nstart 1 b\nwait 1 c\n",
        said: "\
d:5:9: can hang: `b`, on workqueue 1, waits for `c`, which nothing guarantees to run: workqueue 2 has no rescuer
    flush b c
            ^
c:3:1: workqueue 2 has no rescuer
    norescuer 2 c
    ^^^^^^^^^
",
    },
    Case {
        name: "safe lanes, without a shortest run",
        command: PlainCommand::Hang,
        texts: &[CHAIN, "wq 0 b\nwq 1\nwq 2 a\nwq 3 c\n"],
        end: End::Good,
        answer: "safe\n",
        said: "",
    },
    Case {
        name: "lanes without an item, which have no shortest run",
        command: PlainCommand::Hang,
        texts: &[TWO, "wq 0 a\n"],
        end: End::Refused,
        answer: "refused 41 line 0\n",
        said: "\
c: `b` is on no workqueue [refused 41, `wqplan explain 41`]
",
    },
    Case {
        name: "lanes that hang if an unsure line is so, shortest",
        command: PlainCommand::Hang,
        texts: &[UNSURE_CHAIN, LANES],
        end: End::Bad,
        answer: UNSURE_CHAIN_HANGS,
        said: "\
d:4:10: can hang if this is so: `a`, on workqueue 0, waits for `b`, which waits on workqueue 1
    flush? a b
             ^
d:5:9: and `b`, on workqueue 1, waits for `c`, which is behind `a` on workqueue 0
    flush b c
            ^
d: note: 1 of these waits isn't decided. Take a line away if it isn't so, or its `?` if it is, and ask again
",
    },
    Case {
        name: "lanes that hang whatever an unsure line is, shortest",
        command: PlainCommand::Hang,
        texts: &[UNSURE_BESIDE, "wq 0 a b\n"],
        end: End::Bad,
        answer: SURE_HANGS,
        said: "\
d:3:9: can hang: `a`, on workqueue 0, waits for `b`, which is behind it
    flush a b
            ^
d: note: hangs for sure: no unsure line is needed
",
    },
    Case {
        name: "safe lanes of an unsure line, without a shortest run",
        command: PlainCommand::Hang,
        texts: &[UNSURE, PLAN_OF_TWO],
        end: End::Good,
        answer: "safe\n",
        said: "\
d: note: safe whatever the 1 unsure line turns out to be
",
    },
    Case {
        name: "lanes that hang if the first of two unsure lines is so, shortest",
        command: PlainCommand::Hang,
        texts: &[UNSURE_TWO, UNSURE_LANES],
        end: End::Bad,
        answer: UNSURE_HANGS,
        said: "\
d:4:10: can hang if this is so: `a`, on workqueue 0, waits for `b`, which is behind it
    flush? a b
             ^
d: note: 1 of these waits isn't decided. Take a line away if it isn't so, or its `?` if it is, and ask again
d: note: 1 of 2 unsure lines makes no difference on these workqueues: line 5
",
    },
];
