//! Cases of `plan`.

use crate::command::{Case, PlainCommand};
use crate::declarations::{
    CHAIN_OF_FOUR, CIRCLE, EACH_OTHER, GROUPED, ITSELF, PLAN_OF_TWO, TWO, UNSURE,
};
use wq_commands::End;

pub(crate) const PLANS: &[Case] = &[
    Case {
        name: "a plan",
        command: PlainCommand::Plan,
        texts: &[TWO],
        end: End::Good,
        answer: PLAN_OF_TWO,
        said: "",
    },
    Case {
        name: "a plan of groups",
        command: PlainCommand::Plan,
        texts: &["item a\nitem b\nitem c\nitem d\nordered b c\nflush a b\nflush c d\n"],
        end: End::Good,
        answer: "plan 3\nwq 0 d\nwq 1 b c\nwq 2 a\nchain 3\narc a b\narc c d\n",
        said: "",
    },
    Case {
        name: "a plan of a chain and an item beside it",
        command: PlainCommand::Plan,
        texts: &[CHAIN_OF_FOUR],
        end: End::Good,
        answer: "plan 3\nwq 0 c d\nwq 1 b\nwq 2 a\nchain 3\narc a b\narc b c\n",
        said: "",
    },
    Case {
        name: "no item",
        command: PlainCommand::Plan,
        texts: &[""],
        end: End::Good,
        answer: "plan 0\nchain 0\n",
        said: "\
d: note: no item is declared: is this the right file?
",
    },
    Case {
        name: "a circle",
        command: PlainCommand::Plan,
        texts: &[ITSELF],
        end: End::Bad,
        answer: CIRCLE,
        said: "\
d:2:9: can hang on any workqueues: `a` waits for itself
    flush a a
            ^
",
    },
    Case {
        name: "a circle of two items",
        command: PlainCommand::Plan,
        texts: &[EACH_OTHER],
        end: End::Bad,
        answer: "circle 2\narc a b\narc b a\nrun 6\nqueue a\nqueue b\nstart 0 a\nwait 0 b\nstart 1 b\nwait 1 a\n",
        said: "\
d:4:9: can hang on any workqueues: `a` waits for `b`, which waits
    flush a b
            ^
d:3:9: and `b` waits for `a`, which waits
    flush b a
            ^
",
    },
    Case {
        name: "a circle of groups",
        command: PlainCommand::Plan,
        texts: &[GROUPED],
        end: End::Bad,
        answer: "circle 2\narc a b\narc c d\nrun 8\nqueue a\nqueue c\nqueue b\nqueue d\nstart 0 a\n\
            wait 0 b\nstart 1 c\nwait 1 d\n",
        said: "\
d:7:9: can hang on any workqueues: `a` waits for `b`, which is behind `c`: they are `ordered`
    flush a b
            ^
d:8:9: and `c` waits for `d`, which is behind `a`: they are `ordered`
    flush c d
            ^
",
    },
    Case {
        name: "a circle within a group",
        command: PlainCommand::Plan,
        texts: &["item a\nitem b\nitem c\nordered c b\nflush a c\nflush c b\n"],
        end: End::Bad,
        answer: "circle 1\narc c b\nrun 7\nqueue c\nqueue a\nqueue b\nstart 0 a\nwait 0 c\nstart 1 c\nwait 1 b\n",
        said: "\
d:6:9: can hang on any workqueues: `c` waits for `b`, which is behind it: they are `ordered`
    flush c b
            ^
",
    },
    Case {
        name: "a line that is none",
        command: PlainCommand::Plan,
        texts: &["item a\nitems b\n"],
        end: End::Refused,
        answer: "refused 4 line 2\n",
        said: "\
d:2:1: `items` isn't a directive [refused 4, `wqplan explain 4`]
    items b
    ^^^^^ did you mean `item`?
",
    },
    Case {
        name: "an item twice",
        command: PlainCommand::Plan,
        texts: &["item a\nitem a\n"],
        end: End::Refused,
        answer: "refused 7 line 2\n",
        said: "\
d:2:6: the item `a` is declared twice [refused 7, `wqplan explain 7`]
    item a
         ^ first on line 1
",
    },
    Case {
        name: "an item that isn't there",
        command: PlainCommand::Plan,
        texts: &["item a\nitem b\nflush a b\nflush b c\n"],
        end: End::Refused,
        answer: "refused 8 line 4\n",
        said: "\
d:4:9: no item `c` is declared above this line [refused 8, `wqplan explain 8`]
    flush b c
            ^ write `item c` above
",
    },
    Case {
        name: "an item in two groups",
        command: PlainCommand::Plan,
        texts: &["item a\nitem b\nordered a b\nordered b\n"],
        end: End::Refused,
        answer: "refused 11 line 4\n",
        said: "\
d:4:9: `b` is on two `ordered` lines [refused 11, `wqplan explain 11`]
    ordered b
            ^ first on line 3
",
    },
    Case {
        name: "a plan of an unsure line",
        command: PlainCommand::Plan,
        texts: &[UNSURE],
        end: End::Good,
        answer: PLAN_OF_TWO,
        said: "\
d: note: 2 workqueues are needed if these are so; without unsure lines 1 is enough:
flush? a b
",
    },
    Case {
        name: "a circle of an unsure line",
        command: PlainCommand::Plan,
        texts: &["item a\nitem b\nflush? b a\nflush a b\n"],
        end: End::Bad,
        answer: "circle 2\narc a b\narc b a\nrun 6\nqueue a\nqueue b\nstart 0 a\nwait 0 b\nstart 1 b\nwait 1 a\n",
        said: "\
d:3:10: can hang on any workqueues if this is so: `b` waits for `a`, which waits
    flush? b a
             ^
d:4:9: and `a` waits for `b`, which waits
    flush a b
            ^
",
    },
];
