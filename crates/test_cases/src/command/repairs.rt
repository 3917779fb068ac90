//! Cases of `repair`: one of each answer, and of each kind of change.

use crate::command::{Case, PlainCommand};
use crate::declarations::{CHAIN, CIRCLE, ITSELF, TWO, UNSURE};
use wq_commands::End;

pub(crate) const REPAIRS: &[Case] = &[
    Case {
        name: "an item that moves to a new lane",
        command: PlainCommand::Repair,
        texts: &[TWO, "wq 0 a b  # q\n"],
        end: End::Good,
        answer: "wq 0 a  # q\nwq 1 b\n",
        said: "\
c:1:8: `b` moves from workqueue 0 (q) to workqueue 1, a new one
d:3:9: if it stayed: `a`, on workqueue 0 (q), waits for `b`, which is behind it
    flush a b
            ^
",
    },
    Case {
        name: "a lane that is given a rescuer",
        command: PlainCommand::Repair,
        texts: &[CHAIN, "wq 0 a\nwq 1 b\nnorescuer 2 c\n"],
        end: End::Good,
        answer: "wq 0 a\nwq 1 b\nwq 2 c\n",
        said: "\
c:3:1: workqueue 2 is given a rescuer
d:5:9: without one: `b`, on workqueue 1, waits for `c`, which nothing guarantees to run: workqueue 2 has no rescuer
    flush b c
            ^
c:3:1: workqueue 2 has no rescuer
    norescuer 2 c
    ^^^^^^^^^
",
    },
    Case {
        name: "lanes that are safe as they are",
        command: PlainCommand::Repair,
        texts: &[TWO, "wq 0 a\nwq 1 b\n"],
        end: End::Good,
        answer: "wq 0 a\nwq 1 b\n",
        said: "",
    },
    Case {
        name: "an item that waits for itself, wherever it moves",
        command: PlainCommand::Repair,
        texts: &[ITSELF, "wq 0 a\n"],
        end: End::Bad,
        answer: CIRCLE,
        said: "\
d:2:9: can hang: `a` waits for itself
    flush a a
            ^
",
    },
    Case {
        name: "too few names",
        command: PlainCommand::RepairOne,
        texts: &[TWO, "wq 0 a\nnorescuer 1 b\n"],
        end: End::Bad,
        answer: "run 4\nqueue a\nqueue b\nstart 0 a\nwait 0 b\n",
        said: "\
c: note: wherever these items move, the workqueues can hang; the run is on these:
wq 0 a
norescuer 1 b
d:3:9: can hang: `a`, on workqueue 0, waits for `b`, which nothing guarantees to run: workqueue 1 has no rescuer
    flush a b
            ^
c:2:1: workqueue 1 has no rescuer
    norescuer 1 b
    ^^^^^^^^^
",
    },
    Case {
        name: "lanes without an item, to be repaired",
        command: PlainCommand::Repair,
        texts: &[TWO, "wq 0 a\n"],
        end: End::Refused,
        answer: "refused 41 line 0\n",
        said: "\
c: `b` is on no workqueue [refused 41, `wqplan explain 41`]
",
    },
    Case {
        name: "an item that moves if an unsure line is so",
        command: PlainCommand::Repair,
        texts: &[UNSURE, "wq 0 a b\n"],
        end: End::Good,
        answer: "wq 0 a\nwq 1 b\n",
        said: "\
c:1:8: `b` moves from workqueue 0 to workqueue 1, a new one
d:3:10: if it stayed and this is so: `a`, on workqueue 0, waits for `b`, which is behind it
    flush? a b
             ^
",
    },
];
