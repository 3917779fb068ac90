//! Cases of `circles`, with an assignment and without one.

use crate::command::{Case, PlainCommand};
use crate::declarations::{
    CHAIN, GROUPED, LANES, PLAN_OF_TWO, TWO, UNSURE, UNSURE_BESIDE, UNSURE_CHAIN,
};
use wq_commands::End;

pub(crate) const CIRCLES: &[Case] = &[
    Case {
        name: "lanes that wait in a circle",
        command: PlainCommand::Circles,
        texts: &[CHAIN, LANES],
        end: End::Bad,
        answer: "components 1\ncomponent 2\narc a b\narc b c\n",
        said: "\
d:4:9: can hang: `a`, on workqueue 0, waits for `b`, which waits on workqueue 1
    flush a b
            ^
d:5:9: and `b`, on workqueue 1, waits for `c`, which is behind `a` on workqueue 0
    flush b c
            ^
",
    },
    Case {
        name: "safe lanes without a circle",
        command: PlainCommand::Circles,
        texts: &[TWO, PLAN_OF_TWO],
        end: End::Good,
        answer: "safe\n",
        said: "",
    },
    Case {
        name: "lanes of no item",
        command: PlainCommand::Circles,
        texts: &[TWO, "wq 0 a\n"],
        end: End::Refused,
        answer: "refused 41 line 0\n",
        said: "\
c: `b` is on no workqueue [refused 41, `wqplan explain 41`]
",
    },
    Case {
        name: "circles of a declaration that is none",
        command: PlainCommand::Circles,
        texts: &["item\n", "nope\n"],
        end: End::Refused,
        answer: "refused 5 line 1\n",
        said: "\
d:1:5: a name is missing [refused 5, `wqplan explain 5`]
    item
        ^ the line should be `item NAME`
",
    },
    Case {
        name: "groups that wait in a circle",
        command: PlainCommand::OwnCircles,
        texts: &[GROUPED],
        end: End::Bad,
        answer: "components 1\ncomponent 2\narc a b\narc c d\n",
        said: "\
d:7:9: can hang: `a` waits for `b`, which is behind `c`: they are `ordered`
    flush a b
            ^
d:8:9: and `c` waits for `d`, which is behind `a`: they are `ordered`
    flush c d
            ^
",
    },
    Case {
        name: "two components",
        command: PlainCommand::OwnCircles,
        texts: &["item a\nitem b\nitem c\nflush c c\nflush a b\nflush b a c\n"],
        end: End::Bad,
        answer: "components 2\ncomponent 2\narc a b\narc b a\ncomponent 1\narc c c\n",
        said: "\
d:5:9: can hang: `a` waits for `b`, which waits
    flush a b
            ^
d:6:9: and `b` waits for `a`, which waits
    flush b a c
            ^
d:4:9: can hang: `c` waits for itself
    flush c c
            ^
",
    },
    Case {
        name: "groups without a circle",
        command: PlainCommand::OwnCircles,
        texts: &[CHAIN],
        end: End::Good,
        answer: "safe\n",
        said: "",
    },
    Case {
        name: "circles of an item twice",
        command: PlainCommand::OwnCircles,
        texts: &["item a\nitem a\n"],
        end: End::Refused,
        answer: "refused 7 line 2\n",
        said: "\
d:2:6: the item `a` is declared twice [refused 7, `wqplan explain 7`]
    item a
         ^ first on line 1
",
    },
    Case {
        name: "lanes that wait in a circle if an unsure line is so",
        command: PlainCommand::Circles,
        texts: &[UNSURE_CHAIN, LANES],
        end: End::Bad,
        answer: "components 1\ncomponent 2\narc? a b\narc b c\n",
        said: "\
d:4:10: can hang if this is so: `a`, on workqueue 0, waits for `b`, which waits on workqueue 1
    flush? a b
             ^
d:5:9: and `b`, on workqueue 1, waits for `c`, which is behind `a` on workqueue 0
    flush b c
            ^
",
    },
    Case {
        name: "lanes that wait in a circle with an unsure line",
        command: PlainCommand::Circles,
        texts: &[UNSURE_BESIDE, "wq 0 a b\n"],
        end: End::Bad,
        answer: "components 1\ncomponent 2\narc a b\narc? b b\n",
        said: "\
d:3:9: can hang: `a`, on workqueue 0, waits for `b`, which is behind it
    flush a b
            ^
",
    },
    Case {
        name: "groups of an unsure line without a circle",
        command: PlainCommand::OwnCircles,
        texts: &[UNSURE],
        end: End::Good,
        answer: "safe\n",
        said: "\
d: note: safe whatever the 1 unsure line turns out to be
",
    },
];
