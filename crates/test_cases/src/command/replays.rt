//! Cases of `replay`.

use crate::command::{Case, PlainCommand};
use crate::declarations::{CHAIN, HANGS, LANES, TWO, UNSURE, UNSURE_HANGS};
use wq_commands::End;

pub(crate) const REPLAYS: &[Case] = &[
    Case {
        name: "a run that hangs",
        command: PlainCommand::Replay,
        texts: &[CHAIN, LANES, HANGS],
        end: End::Bad,
        answer: "deadlock\n",
        said: "\
d:4:9: can hang: `a`, on workqueue 0, waits for `b`, which waits on workqueue 1
    flush a b
            ^
d:5:9: and `b`, on workqueue 1, waits for `c`, which is behind `a` on workqueue 0
    flush b c
            ^
",
    },
    Case {
        name: "a run within a workqueue that hangs",
        command: PlainCommand::Replay,
        texts: &[
            TWO,
            "wq 0 a b\n",
            "run 4\nqueue a\nqueue b\nstart 0 a\nwait 0 b\n",
        ],
        end: End::Bad,
        answer: "deadlock\n",
        said: "\
d:3:9: can hang: `a`, on workqueue 0, waits for `b`, which is behind it
    flush a b
            ^
",
    },
    Case {
        name: "a run that goes on",
        command: PlainCommand::Replay,
        texts: &[TWO, "wq 0 a b\n", "run 2\nqueue a\nstart 0 a\n"],
        end: End::Good,
        answer: "open\n",
        said: "",
    },
    Case {
        name: "a step that isn't lawful",
        command: PlainCommand::Replay,
        texts: &[TWO, "wq 0 a b\n", "run 1\nstart 0 a\n"],
        end: End::Bad,
        answer: "not lawful 1\n",
        said: "\
r:2:9: nothing is pending on workqueue 0 [not lawful 1]
    start 0 a
            ^
",
    },
    Case {
        name: "an assignment that is none",
        command: PlainCommand::Replay,
        texts: &[TWO, "wq 0 a\n", "run 0\n"],
        end: End::Refused,
        answer: "refused 41 line 0\n",
        said: "\
c: `b` is on no workqueue [refused 41, `wqplan explain 41`]
",
    },
    Case {
        name: "a run of four thousand million steps",
        command: PlainCommand::Replay,
        texts: &[TWO, "wq 0 a b\n", "run 4294967295\n"],
        end: End::Refused,
        answer: "refused 40 line 0\n",
        said: "\
r: expected a step, but the text ends [refused 40, `wqplan explain 40`]
",
    },
    Case {
        name: "a run that is none",
        command: PlainCommand::Replay,
        texts: &[TWO, "wq 0 a b\n", "run 1\nnope\n"],
        end: End::Refused,
        answer: "refused 40 line 2\n",
        said: "\
r:2:1: expected a step, found `nope` [refused 40, `wqplan explain 40`]
    nope
    ^^^^
",
    },
    Case {
        name: "a run that hangs if an unsure line is so",
        command: PlainCommand::Replay,
        texts: &[UNSURE, "wq 0 a b\n", UNSURE_HANGS],
        end: End::Bad,
        answer: "deadlock\n",
        said: "\
d:3:10: can hang if this is so: `a`, on workqueue 0, waits for `b`, which is behind it
    flush? a b
             ^
",
    },
    Case {
        name: "a run of an unsure line that is sure now",
        command: PlainCommand::Replay,
        texts: &[TWO, "wq 0 a b\n", UNSURE_HANGS],
        end: End::Refused,
        answer: "refused 40 line 2\n",
        said: "\
r:2:1: `flush? a b` isn't unsure in the declaration [refused 40, `wqplan explain 40`]
    flush? a b
    ^^^^^^ ask `hang` again
",
    },
];
