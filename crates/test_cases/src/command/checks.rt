//! Cases of `check`.

use crate::command::{Case, PlainCommand};
use crate::declarations::{CHAIN_OF_FOUR, CIRCLE, ITSELF, PLAN_OF_TWO, TWO, UNSURE};
use wq_commands::End;

pub(crate) const CHECKS: &[Case] = &[
    Case {
        name: "a good plan",
        command: PlainCommand::Check,
        texts: &[TWO, PLAN_OF_TWO],
        end: End::Good,
        answer: "yes 2\n",
        said: "",
    },
    Case {
        name: "a plan of one workqueue",
        command: PlainCommand::Check,
        texts: &[TWO, "plan 1\nwq 0 a b\nchain 1\n"],
        end: End::Bad,
        answer: "no 50 a b\n",
        said: "\
c:2:6: `a` flushes `b`, so it should be on a higher workqueue [no 50, `wqplan explain 50`]
    wq 0 a b
         ^ `b` is on workqueue 0
d:3:9: can hang: `a`, on workqueue 0, waits for `b`, which is behind it
    flush a b
            ^
",
    },
    Case {
        name: "a chain that breaks",
        command: PlainCommand::Check,
        texts: &[
            CHAIN_OF_FOUR,
            "plan 3\nwq 0 c d\nwq 1 b\nwq 2 a\nchain 3\narc a b\narc a b\n",
        ],
        end: End::Bad,
        answer: "no 51 2\n",
        said: "\
c:7:5: `a` doesn't flush `b`, or isn't in the group of the target above [no 51, `wqplan explain 51`]
    arc a b
        ^
",
    },
    Case {
        name: "a plan of an empty workqueue",
        command: PlainCommand::Check,
        texts: &["", "plan 1\nwq 0\nchain 1\n"],
        end: End::Bad,
        answer: "no 51 0\n",
        said: "\
c:3:7: no item is declared, so there is no chain [no 51, `wqplan explain 51`]
    chain 1
          ^
",
    },
    Case {
        name: "a circle with its run",
        command: PlainCommand::Check,
        texts: &[ITSELF, CIRCLE],
        end: End::Good,
        answer: "yes circle 1\n",
        said: "",
    },
    Case {
        name: "a circle with a run that goes on",
        command: PlainCommand::Check,
        texts: &[ITSELF, "circle 1\narc a a\nrun 2\nqueue a\nstart 0 a\n"],
        end: End::Bad,
        answer: "no 54\n",
        said: "\
c:3:5: these steps don't deadlock where each group has a workqueue of its own [no 54, `wqplan explain 54`]
    run 2
        ^
",
    },
    // Nothing is taken for steps that are said and don't stand there.
    Case {
        name: "a circle with a run of four thousand million steps",
        command: PlainCommand::Check,
        texts: &[ITSELF, "circle 1\narc a a\nrun 4294967295\n"],
        end: End::Refused,
        answer: "refused 40 line 0\n",
        said: "\
c: expected a step, but the text ends [refused 40, `wqplan explain 40`]
",
    },
    Case {
        name: "a certificate that is none",
        command: PlainCommand::Check,
        texts: &[TWO, "plan 2\nwq 0 b\nwq 1 a\nchain 2\nnope\n"],
        end: End::Refused,
        answer: "refused 40 line 5\n",
        said: "\
c:5:1: expected `arc NAME TARGET`, found `nope` [refused 40, `wqplan explain 40`]
    nope
    ^^^^
",
    },
    // A declaration that is refused isn't answered before the certificate is read.
    Case {
        name: "a declaration that is none",
        command: PlainCommand::Check,
        texts: &["items\n", PLAN_OF_TWO],
        end: End::Refused,
        answer: "refused 4 line 1\n",
        said: "\
d:1:1: `items` isn't a directive [refused 4, `wqplan explain 4`]
    items
    ^^^^^ did you mean `item`?
",
    },
    Case {
        name: "a good plan of an unsure line",
        command: PlainCommand::Check,
        texts: &[UNSURE, PLAN_OF_TWO],
        end: End::Good,
        answer: "yes 2\n",
        said: "\
d: note: 2 workqueues are needed if these are so; without unsure lines 1 is enough:
flush? a b
",
    },
];
