//! Cases of what is said of texts that are refused, and of certificates to which `check` says no.
//!
//! Each was written by hand from "Diagnoses" in docs/FORMAT.md; tests/cli/diagnoses has many more. A call takes the
//! time of reading the texts and of seeking the fault in them.

use crate::command::{NAMES, SEED};
use crate::declarations::{PLAN_OF_TWO, TWO};
use std::alloc::{AllocError, Allocator};
use wq_commands::{
    CheckCommand, Command, DeadlockCommand, PlanCommand, ReplayCommand, SaysRefusal, Stop, Texts,
    Voice, read_declaration,
};
use wq_diagnosis::{Source, of_failed, of_no_item, of_too_many};

/// The assignment that a run is made under.
const ONE_WORKQUEUE: &str = "wq 0 send log\n";

/// What is asked to say what is wrong.
#[derive(Clone, Copy)]
pub enum Saying {
    /// The command `plan`, and what the program says of its answer.
    OfPlan,
    /// The command `deadlock` of an assignment, likewise.
    OfDeadlock,
    /// The command `replay` of a run, likewise, but with both items on one workqueue.
    OfReplay,
    /// `of_no_item`.
    OfNoItem,
    /// `of_too_many`.
    OfTooMany,
    /// The command `check`, likewise.
    OfCheck,
    /// `of_failed` of a file; its name is in the place of the certificate.
    OfFailed,
}

/// A declaration and a certificate, what is asked of them, and what is said; nothing if nothing is wrong.
pub struct Said {
    pub name: &'static str,
    pub saying: Saying,
    pub declaration: &'static str,
    pub certificate: &'static str,
    pub said: &'static str,
}

const SAYINGS: &[Said] = &[
    Said {
        name: "an item that isn't there",
        saying: Saying::OfPlan,
        declaration: "item send\nitem log\nflush send lgo\n",
        certificate: "",
        said: "\
d:3:12: no item `lgo` is declared above this line [refused 8, `wqplan explain 8`]
    flush send lgo
               ^^^ did you mean `log`, line 2?
",
    },
    Said {
        name: "a wait that isn't spelled `flush`",
        saying: Saying::OfPlan,
        declaration: "item send\nitem log\nwait send log\n",
        certificate: "",
        said: "\
d:3:1: `wait` isn't a directive [refused 4, `wqplan explain 4`]
    wait send log
    ^^^^ did you mean `flush`?
",
    },
    Said {
        name: "a call that queues",
        saying: Saying::OfPlan,
        declaration: "item send\nitem log\nqueue send log\n",
        certificate: "",
        said: "\
d:3:1: `queue` isn't a directive [refused 4, `wqplan explain 4`]
    queue send log
    ^^^^^ a call that queues doesn't wait, and needs no line
",
    },
    Said {
        name: "a call that cancels",
        saying: Saying::OfPlan,
        declaration: "item send\ncancel send\n",
        certificate: "",
        said: "\
d:2:1: `cancel` isn't a directive [refused 4, `wqplan explain 4`]
    cancel send
    ^^^^^^ `cancel_work` doesn't wait, and needs no line: for `cancel_work_sync` write `flush`
",
    },
    Said {
        name: "two mistakes",
        saying: Saying::OfPlan,
        declaration: "itme a\nflush a b\n",
        certificate: "",
        said: "\
d:1:1: `itme` isn't a directive [refused 4, `wqplan explain 4`]
    itme a
    ^^^^ did you mean `item`?
d:2:9: no item `b` is declared above this line [refused 8, `wqplan explain 8`]
    flush a b
            ^ write `item b` above
",
    },
    Said {
        name: "nothing wrong with a declaration",
        saying: Saying::OfPlan,
        declaration: TWO,
        certificate: "",
        said: "",
    },
    Said {
        name: "an assignment that isn't an answer",
        saying: Saying::OfCheck,
        declaration: TWO,
        certificate: "wq 0 b\nwq 1 a\n",
        said: "\
c:1:1: expected `plan K`, found `wq` [refused 40, `wqplan explain 40`]
    wq 0 b
    ^^ this is an assignment: ask `deadlock`
",
    },
    Said {
        name: "an assignment that begins with a byte order mark",
        saying: Saying::OfDeadlock,
        declaration: TWO,
        certificate: "\u{FEFF}wq 0 b\nwq 1 a\n",
        said: "\
c: `a`, `b` are on no workqueue: line 1 isn't a `wq` or `norescuer` line [refused 41, `wqplan explain 41`]
    ???wq 0 b
    ^^^^^ a byte order mark: save the file without it
",
    },
    Said {
        name: "a line that is like a `wq` line",
        saying: Saying::OfDeadlock,
        declaration: TWO,
        certificate: "wq 0 b\nwp 1 a\n",
        said: "\
c: `a` is on no workqueue: line 2 isn't a `wq` or `norescuer` line [refused 41, `wqplan explain 41`]
    wp 1 a
    ^^ did you mean `wq`?
",
    },
    Said {
        name: "a declaration that isn't an assignment",
        saying: Saying::OfDeadlock,
        declaration: TWO,
        certificate: TWO,
        said: "\
c: `a`, `b` are on no workqueue: line 1 isn't a `wq` or `norescuer` line [refused 41, `wqplan explain 41`]
    item a
    ^^^^ this looks like a declaration: are the files in the right order?
",
    },
    Said {
        name: "a plan without its first line",
        saying: Saying::OfDeadlock,
        declaration: TWO,
        certificate: "wq 0 b\nwq 1 a\nchain 2\narc a b\n",
        said: "\
c:3:1: the text should end before this line [refused 40, `wqplan explain 40`]
    chain 2
    ^^^^^ in a plan the line `plan K` comes first
",
    },
    Said {
        name: "a workqueue with a name",
        saying: Saying::OfDeadlock,
        declaration: TWO,
        certificate: "wq md a b\n",
        said: "\
c:1:4: `md` isn't a number [refused 40, `wqplan explain 40`]
    wq md a b
       ^^ workqueues have numbers: put a name into a comment
",
    },
    Said {
        name: "a flag among the items",
        saying: Saying::OfDeadlock,
        declaration: TWO,
        certificate: "wq 0 WQ_MEM_RECLAIM a b\n",
        said: "\
c:1:6: no item `WQ_MEM_RECLAIM` is declared [refused 40, `wqplan explain 40`]
    wq 0 WQ_MEM_RECLAIM a b
         ^^^^^^^^^^^^^^ flags don't belong here: put them into a comment
",
    },
    Said {
        name: "an assignment without an item",
        saying: Saying::OfDeadlock,
        declaration: TWO,
        certificate: "wq 0 a\n",
        said: "c: `b` is on no workqueue [refused 41, `wqplan explain 41`]\n",
    },
    Said {
        name: "a run without a step",
        saying: Saying::OfReplay,
        declaration: "item send\nitem log\nflush send log\n",
        certificate: "run 1\nend 0 a\n",
        said: "\
r:2:1: expected a step, found `end` [refused 40, `wqplan explain 40`]
    end 0 a
    ^^^
",
    },
    Said {
        name: "no item",
        saying: Saying::OfNoItem,
        declaration: "# none\n",
        certificate: "",
        said: "d: note: no item is declared: is this the right file?\n",
    },
    Said {
        name: "items",
        saying: Saying::OfNoItem,
        declaration: TWO,
        certificate: "",
        said: "",
    },
    Said {
        name: "a plan too large to run",
        saying: Saying::OfTooMany,
        declaration: TWO,
        certificate: "",
        said: "d: the plan has more than 256 workqueues, each of which takes a thread \
                [refused 69, `wqplan explain 69`]\n",
    },
    Said {
        name: "checked, a declaration that is refused",
        saying: Saying::OfCheck,
        declaration: "item send\nitem log\nflush send lgo\n",
        certificate: "plan 1\n",
        said: "\
d:3:12: no item `lgo` is declared above this line [refused 8, `wqplan explain 8`]
    flush send lgo
               ^^^ did you mean `log`, line 2?
",
    },
    Said {
        name: "checked, a certificate that is refused",
        saying: Saying::OfCheck,
        declaration: TWO,
        certificate: "plans 2\nwq 0 b\nwq 1 a\n",
        said: "\
c:1:1: expected `plan K`, found `plans` [refused 40, `wqplan explain 40`]
    plans 2
    ^^^^^
",
    },
    Said {
        name: "checked, a plan of one workqueue",
        saying: Saying::OfCheck,
        declaration: TWO,
        certificate: "plan 1\nwq 0 a b\nchain 1\n",
        said: "\
c:2:6: `a` flushes `b`, so it should be on a higher workqueue [no 50, `wqplan explain 50`]
    wq 0 a b
         ^ `b` is on workqueue 0
d:3:9: can hang: `a`, on workqueue 0, waits for `b`, which is behind it
    flush a b
            ^
",
    },
    Said {
        name: "checked, a plan that is good",
        saying: Saying::OfCheck,
        declaration: TWO,
        certificate: PLAN_OF_TWO,
        said: "",
    },
    Said {
        name: "an item that isn't the first",
        saying: Saying::OfReplay,
        declaration: "item send\nitem log\nflush send log\n",
        certificate: "run 3\nqueue send\nqueue log\nstart 0 log\n",
        said: "\
r:4:9: `log` isn't the first entry of workqueue 0, which is `send` [not lawful 3]
    start 0 log
            ^^^
",
    },
    Said {
        name: "a wait of what doesn't flush",
        saying: Saying::OfReplay,
        declaration: "item send\nitem log\nflush send log\n",
        certificate: "run 3\nqueue log\nstart 0 log\nwait 0 send\n",
        said: "\
r:4:8: `log`, which runs on workqueue 0, declares no flush of `send` [not lawful 3]
    wait 0 send
           ^^^^
",
    },
    Said {
        name: "a run that may be made",
        saying: Saying::OfReplay,
        declaration: "item send\nitem log\nflush send log\n",
        certificate: "run 1\nqueue send\n",
        said: "",
    },
    Said {
        name: "a run that is refused",
        saying: Saying::OfReplay,
        declaration: "item send\nitem log\nflush send log\n",
        certificate: "run 1\nqueue sent\n",
        said: "\
r:2:7: no item `sent` is declared [refused 40, `wqplan explain 40`]
    queue sent
          ^^^^ did you mean `send`?
",
    },
    Said {
        name: "a file that isn't there",
        saying: Saying::OfFailed,
        declaration: "",
        certificate: "two\twords\x07.wq",
        said: "wqplan: two words?.wq: no such file\n",
    },
];

/// The cases of what is said.
pub fn sayings() -> &'static [Said] {
    SAYINGS
}

impl Saying {
    /// What is asked for.
    pub fn words(self) -> &'static str {
        match self {
            Saying::OfPlan => "of an answer of plan",
            Saying::OfDeadlock => "of an answer of deadlock",
            Saying::OfReplay => "of an answer of replay",
            Saying::OfNoItem => "of no item",
            Saying::OfTooMany => "of too many workqueues",
            Saying::OfCheck => "of an answer of check",
            Saying::OfFailed => "of a file that can't be read",
        }
    }
}

/// What is said beside the answer of a command to these texts.
fn say_of<C, V, A>(
    alloc: A,
    command: &C,
    voice: &V,
    texts: &Texts<A>,
) -> Result<Option<Vec<u8, A>>, AllocError>
where
    C: Command<A>,
    V: Voice<C, A>,
    A: Allocator + Copy,
{
    match read_declaration(alloc, SEED, texts.first()) {
        Ok(declared) => {
            let answered = command.answer(alloc, &declared, texts)?;
            voice.say(alloc, SEED, command, &declared, texts, &answered.found)
        }
        Err(Stop::Refused { code, line }) => voice.refuse(alloc, SEED, texts, code, line),
        Err(Stop::OutOfMemory) => Err(AllocError),
    }
}

/// What is said of a declaration without an item; nothing if it is refused.
fn say_no_item<A: Allocator + Copy>(
    alloc: A,
    declaration: Source<'_>,
) -> Result<Option<Vec<u8, A>>, AllocError> {
    match read_declaration(alloc, SEED, declaration.text) {
        Ok(declared) => of_no_item(alloc, &declared, declaration.file),
        Err(Stop::Refused { .. }) => Ok(None),
        Err(Stop::OutOfMemory) => Err(AllocError),
    }
}

/// A copy of these bytes.
fn copied<A: Allocator + Copy>(alloc: A, bytes: &str) -> Result<Vec<u8, A>, AllocError> {
    let mut copy = Vec::new(alloc);
    copy.extend_from_slice(bytes.as_bytes())?;
    Ok(copy)
}

/// The texts of a case for a command that has two.
fn two_texts<A: Allocator + Copy>(alloc: A, case: &Said) -> Result<Texts<A>, AllocError> {
    let first = copied(alloc, case.declaration)?;
    let second = copied(alloc, case.certificate)?;
    Ok(Texts::new(first, second, Vec::new(alloc)))
}

/// The texts of a case whose certificate is a run.
fn run_texts<A: Allocator + Copy>(alloc: A, case: &Said) -> Result<Texts<A>, AllocError> {
    let first = copied(alloc, case.declaration)?;
    let second = copied(alloc, ONE_WORKQUEUE)?;
    let third = copied(alloc, case.certificate)?;
    Ok(Texts::new(first, second, third))
}

/// Asks what is said. Nothing if nothing is.
pub fn say<A: Allocator + Copy>(alloc: A, case: &Said) -> Result<Option<Vec<u8, A>>, AllocError> {
    let text = case.declaration.as_bytes();
    let declaration = Source { file: "d", text };
    match case.saying {
        Saying::OfPlan => {
            let texts = two_texts(alloc, case)?;
            say_of(alloc, &PlanCommand, &NAMES, &texts)
        }
        Saying::OfCheck => {
            let texts = two_texts(alloc, case)?;
            say_of(alloc, &CheckCommand, &NAMES, &texts)
        }
        Saying::OfDeadlock => {
            let texts = two_texts(alloc, case)?;
            say_of(alloc, &DeadlockCommand, &NAMES, &texts)
        }
        Saying::OfReplay => {
            let texts = run_texts(alloc, case)?;
            say_of(alloc, &ReplayCommand, &NAMES, &texts)
        }
        Saying::OfNoItem => say_no_item(alloc, declaration),
        Saying::OfTooMany => Ok(Some(of_too_many(alloc, declaration)?)),
        Saying::OfFailed => {
            let file = case.certificate;
            Ok(Some(of_failed(alloc, file, "no such file")?))
        }
    }
}
