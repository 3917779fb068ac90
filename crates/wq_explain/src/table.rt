//! The explanations: one for each number that the program prints in a refusal or in a `no`, and one for each fault.
//! Those of the words of texts are in `words.rt`.
//!
//! docs/FORMAT.md has the rules. tests/cli/explain.sh runs each example. A search takes time linear in the number of
//! rows and the length of the word.

ghost use Rattle.std.specs.Prelude.{◌≡◌, find, option_map};
ghost use Rattle.wq_explain.specs.Explaining.{numbered, same_name};

/// An explanation: the number that the program prints, or none for a fault or a word of a text; its name, or that of
/// the fault, or the word; its line in a list; and what it means. This last part says what was found, which section of
/// docs/FORMAT.md has the rule, shell commands, the last of which is answered like this, and how to mend it or what to
/// do.
pub type Explanation = (Option<u32>, &'static str, &'static str, &'static str);

const TEXT_TOO_LONG: Explanation = (
    Some(1),
    "TextTooLong",
    "1 TextTooLong\n",
    "\
`refused 1 line 0`: the declaration has more than 1,048,576 bytes. Comments and
blanks count.

The rule: docs/FORMAT.md, \"Limits\"

To see it:
    head -c 1048577 /dev/zero | wqplan plan

To mend it:
Take out comments and blanks. Or declare parts that have no flush and no
`ordered` line in common in files of their own.
",
);

const LINE_TOO_LONG: Explanation = (
    Some(2),
    "LineTooLong",
    "2 LineTooLong\n",
    "\
`refused 2 line N`: line N of the declaration has more than 4,096 bytes. Its
comment and its blanks count, its line feed doesn't.

The rule: docs/FORMAT.md, \"Limits\"

To see it:
    head -c 4097 /dev/zero | wqplan plan

To mend it:
Write a long `flush` line as several lines with the same item: their targets add
up. Put a long comment on lines of its own. The items of an `ordered` line have
to be on one line: give them shorter names.
",
);

const BAD_BYTE: Explanation = (
    Some(3),
    "BadByte",
    "3 BadByte\n",
    "\
`refused 3 line N`: line N has, before its comment, a byte that is neither a tab
nor one of 0x20 to 0x7E: a part of a character that isn't ASCII, a control
character, or a carriage return that isn't directly before the line feed.

The rule: docs/FORMAT.md, \"Directives\"

To see it:
    printf 'item caf\\303\\251\\n' | wqplan plan

To mend it:
Write names in ASCII, and blanks as spaces or tabs. After a `#` any byte is
allowed.
",
);

const UNKNOWN_WORD: Explanation = (
    Some(4),
    "UnknownWord",
    "4 UnknownWord\n",
    "\
`refused 4 line N`: the first word of line N is none of `item`, `flush`,
`flushwq`, `flush?`, `flushwq?` and `ordered`. `Item` isn't `item`.

The rule: docs/FORMAT.md, \"Directives\"

To see it:
    printf 'Item a\\n' | wqplan plan

To mend it:
Begin the line with one of the six words, in lower case. Put a `#` before it if
it is a comment.
",
);

const MISSING_NAME: Explanation = (
    Some(5),
    "MissingName",
    "5 MissingName\n",
    "\
`refused 5 line N`: line N has too few words. `item` and `ordered` need at least
one name, `flush` needs an item and at least one target, `flushwq` and
`flushwq?` need an item and another one, whose workqueue it flushes, and
`flush?` needs an item and one target.

The rule: docs/FORMAT.md, \"Directives\"

To see it:
    printf 'item\\n' | wqplan plan

To mend it:
Add the name, or take out the line. An item that flushes nothing has no `flush`,
`flushwq`, `flush?` or `flushwq?` line. What follows a `#` is a comment, not a
name.
",
);

const BAD_NAME: Explanation = (
    Some(6),
    "BadName",
    "6 BadName\n",
    "\
`refused 6 line N`: a word of line N, after the first one, isn't a name. A name
is 1 to 63 ASCII letters, digits, `_`, `-` and `.`.

The rule: docs/FORMAT.md, \"Names\"

To see it:
    printf 'item a!\\n' | wqplan plan

To mend it:
Write `_` or `-` in place of other characters, and shorten a name of more than
63. Spaces or tabs separate names, not commas.
",
);

const ITEM_TWICE: Explanation = (
    Some(7),
    "ItemTwice",
    "7 ItemTwice\n",
    "\
`refused 7 line N`: line N declares an item that an `item` line above it
declares already.

The rule: docs/FORMAT.md, \"Items and groups\"

To see it:
    printf 'item a\\nitem a\\n' | wqplan plan

To mend it:
Take out one of the two lines, or rename one of the items.
",
);

const UNKNOWN_ITEM: Explanation = (
    Some(8),
    "UnknownItem",
    "8 UnknownItem\n",
    "\
`refused 8 line N`: line N, a `flush`, `flushwq`, `flush?`, `flushwq?` or
`ordered` line, has a name that no `item` line above it declares. An `item` line
below it doesn't count. `refused 8 line 0`: a NAME behind the files of `hang`,
`repair`, `replay` or `circles` is that of no item.

The rule: docs/FORMAT.md, \"Items and groups\"

To see it:
    printf 'item a\\nflush a b\\n' | wqplan plan

To mend it:
Move all `item` lines to the top, add the one that is missing, or correct the
name. Upper and lower case differ.
",
);

const TOO_MANY_ITEMS: Explanation = (
    Some(9),
    "TooManyItems",
    "9 TooManyItems\n",
    "\
`refused 9 line N`: line N declares one more item than the 4,096 that are
allowed.

The rule: docs/FORMAT.md, \"Limits\"

To see it:
    seq -f 'item i%g' 4097 | wqplan plan

To mend it:
Declare parts that have no flush and no `ordered` line in common in files of
their own. An item that no such line names may go on any workqueue.
",
);

const TOO_MANY_FLUSHES: Explanation = (
    Some(10),
    "TooManyFlushes",
    "10 TooManyFlushes\n",
    "\
`refused 10 line N`: with those of line N there are more than 16,384 flushes.
Each target of each `flush` line is one, and so is each `flushwq`, `flush?` or
`flushwq?` line.

The rule: docs/FORMAT.md, \"Limits\"

To see it:
    (echo 'item a'; yes 'flush a a' | head -n 16385) | wqplan plan

To mend it:
Take out targets that an item has twice: the workqueues stay the same. Or
declare parts that have no flush and no `ordered` line in common in files of
their own.
",
);

const GROUPED_TWICE: Explanation = (
    Some(11),
    "GroupedTwice",
    "11 GroupedTwice\n",
    "\
`refused 11 line N`: line N, an `ordered` line, has a name twice, or one that an
`ordered` line above it has.

The rule: docs/FORMAT.md, \"Items and groups\"

To see it:
    printf 'item a\\nordered a a\\n' | wqplan plan

To mend it:
Name each item once. Two `ordered` lines that have an item in common are one
ordered workqueue: write them as one line.
",
);

const EXTRA_WORD: Explanation = (
    Some(12),
    "ExtraWord",
    "12 ExtraWord\n",
    "\
`refused 12 line N`: line N has too many words: more than one after `item`, or
more than two after `flushwq`, `flush?` or `flushwq?`.

The rule: docs/FORMAT.md, \"Directives\"

To see it:
    printf 'item a b\\n' | wqplan plan
    printf 'item a\\nitem b\\nflushwq a b b\\n' | wqplan plan

To mend it:
Write an `item` line for each item, a `flushwq` line for each workqueue that is
flushed, and a `flush?` line for each target of which you aren't sure. A comment
begins with `#`.
",
);

const BAD_CERT_LINE: Explanation = (
    Some(40),
    "BadCertLine",
    "40 BadCertLine\n",
    "\
`refused 40 line N`: line N of a plan, a circle, an assignment or a run doesn't
have the form that is expected there: it has another first word, too few or too
many words, no number where one belongs, or a name that isn't declared; it comes
after the end; or it is too long. Or a run says of a line of the declaration
that it is unsure, and it isn't any more. With line 0 the text is too long, or
ends too early.

The rule: docs/FORMAT.md, \"Certificates\"

To see it:
    printf 'item a\\n' > decl
    printf 'plan one\\n' > cert
    wqplan check decl cert

To mend it:
Compare the line with its form. Numbers have no sign and no leading zero, and
those of `plan`, `chain`, `circle`, `unsure` and `run` say how many lines
follow. See that the text was made for this declaration as it is now.
",
);

const NOT_ALL_ITEMS: Explanation = (
    Some(41),
    "NotAllItems",
    "41 NotAllItems\n",
    "\
`refused 41 line N`: line N, a `wq` or `norescuer` line, has an item twice, or
one that such a line above it has. With line 0 an item is on no such line. In a
plan around FIXED an item of FIXED counts as one of a line above, and only the
others have to be on a line.

The rule: docs/FORMAT.md, \"Certificates\"

To see it:
    printf 'item a\\n' > decl
    printf 'wq 0\\n' > assign
    wqplan deadlock decl assign

To mend it:
Put each item of the declaration on just one `wq` or `norescuer` line. The `wq`
lines of a plan end where its K says so.
",
);

const GROUP_SPLIT: Explanation = (
    Some(42),
    "GroupSplit",
    "42 GroupSplit\n",
    "\
`refused 42 line N`: line N, a `wq` or `norescuer` line, has an item that shares
an `ordered` line with one that is on such a line above. With line 0 FIXED has
an item of an `ordered` line, and lacks another one.

The rule: docs/FORMAT.md, \"Certificates\"

To see it:
    printf 'item a\\nitem b\\nordered a b\\n' > decl
    printf 'wq 0 a\\nwq 1 b\\n' > assign
    wqplan deadlock decl assign

To mend it:
Put all items of the `ordered` line on one workqueue. If they may be on
different ones, take them off the `ordered` line.
",
);

const NUMBER_OUT_OF_RANGE: Explanation = (
    Some(43),
    "NumberOutOfRange",
    "43 NumberOutOfRange\n",
    "\
`refused 43 line N`: a number of line N is out of its range. The `wq` lines are
numbered 0, 1, 2 and so on, in an assignment together with `norescuer` lines;
`plan`, `chain` and `circle` have at most 4,096, `circle` at least 1, `unsure`
at most 16,384; and no step is on a workqueue above 4,095. In a plan around
FIXED the `wq` lines are numbered on from those of FIXED, and `order` has the
numbers of both. With line 0 the workqueues of FIXED, and the groups that are on
none of them, are more than 4,096.

The rule: docs/FORMAT.md, \"Certificates\"

To see it:
    printf 'item a\\n' > decl
    printf 'wq 1 a\\n' > assign
    wqplan deadlock decl assign

To mend it:
Number the workqueues from 0 on, in order, with a rescuer or without. Write a
line without names for one that is empty.
",
);

const NOT_FALLING: Explanation = (
    Some(50),
    "NotFalling",
    "50 NotFalling\n",
    "\
`no 50 ITEM TARGET`: ITEM flushes TARGET, or the whole workqueue of TARGET, and
its workqueue isn't above that of TARGET. A plan is only taken where each flush
leads to a lower workqueue. Around FIXED it has to lead to a workqueue with a
rescuer that comes before that of ITEM in `order`.

The rule: docs/FORMAT.md, \"The command `check`\"

To see it:
    printf 'item a\\nitem b\\nflush a b\\n' > decl
    printf 'plan 1\\nwq 0 a b\\nchain 1\\n' > cert
    wqplan check decl cert

To mend it:
Put ITEM on a workqueue with a higher number than that of TARGET. `wqplan plan`
prints such a plan; `wqplan deadlock` says whether an assignment is safe however
its workqueues are numbered.
",
);

const CHAIN_BROKEN: Explanation = (
    Some(51),
    "ChainBroken",
    "51 ChainBroken\n",
    "\
`no 51 AT`: arc AT of the chain, counted from 1, isn't a declared flush, of
whichever kind, or its item isn't in the group of the target of the arc before
it. With AT 0 the chain is one group, and the declaration has none. Around FIXED
the item has to be on the workqueue of that target, which has a rescuer; with AT
0 no group is left that FIXED doesn't have.

The rule: docs/FORMAT.md, \"The command `check`\"

To see it:
    printf 'item a\\nitem b\\nflush a b\\n' > decl
    printf 'plan 2\\nwq 0 b\\nwq 1 a\\nchain 2\\narc b a\\n' > cert
    wqplan check decl cert

To mend it:
Write the arcs in the order in which the items wait: first the item that waits,
then the one that it flushes, or whose workqueue. `wqplan plan` prints such a
chain.
",
);

const LENGTH_DIFFERS: Explanation = (
    Some(52),
    "LengthDiffers",
    "52 LengthDiffers\n",
    "\
`no 52`: the chain doesn't have as many groups as there are workqueues, so it
doesn't show that fewer workqueues aren't enough. Around FIXED only workqueues
count that FIXED doesn't have, on the chain and in the plan.

The rule: docs/FORMAT.md, \"The command `check`\"

To see it:
    printf 'item a\\n' > decl
    printf 'plan 2\\nwq 0\\nwq 1 a\\nchain 1\\n' > cert
    wqplan check decl cert

To mend it:
Use as many workqueues as a longest waiting chain has groups, and give that
chain. `wqplan plan` prints both.
",
);

const CIRCLE_BROKEN: Explanation = (
    Some(53),
    "CircleBroken",
    "53 CircleBroken\n",
    "\
`no 53 AT`: arc AT of the circle, counted from 1, isn't a declared flush, of
whichever kind, or its item isn't in the group of the target of the arc before
it. The arc before the first one is the last. Around FIXED the item has to be on
the workqueue of that target, which has a rescuer.

The rule: docs/FORMAT.md, \"The command `check`\"

To see it:
    printf 'item a\\n' > decl
    printf 'circle 1\\narc a a\\n' > cert
    wqplan check decl cert

To mend it:
Write declared flushes that go round, each from the group that the one before it
leads to. `wqplan plan` prints a circle where there is one.
",
);

const RUN_BROKEN: Explanation = (
    Some(54),
    "RunBroken",
    "54 RunBroken\n",
    "\
`no 54`: the circle goes round, but the run after it doesn't deadlock where
each group has a workqueue of its own, numbered as the groups are. Around FIXED
only those have one that FIXED doesn't have; they are numbered on from its own.

The rule: docs/FORMAT.md, \"The command `check`\"

To see it:
    printf 'item a\\nflush a a\\n' > decl
    printf 'circle 1\\narc a a\\nrun 0\\n' > cert
    wqplan check decl cert

To mend it:
Leave the run out: the circle alone is enough. Or take the run that `wqplan
plan` prints. `wqplan replay` says how a run ends.
",
);

const HAS_RESCUER: Explanation = (
    Some(55),
    "HasRescuer",
    "55 HasRescuer\n",
    "\
`no 55`: the arc of the norescuer text isn't a declared flush, or its item is on
a workqueue without a rescuer, or its target on one that has one. Items that
FIXED doesn't have are on workqueues with a rescuer.

The rule: docs/FORMAT.md, \"Planning around workqueues\"

To see it:
    printf 'item a\\nitem b\\nflush a b\\n' > decl
    printf 'wq 0 b\\n' > fixed
    printf 'norescuer 1\\narc a b\\n' > cert
    wqplan check decl cert fixed

To mend it:
Ask `wqplan plan` with this FIXED again. It prints such a flush where one is in
the way of each plan.
",
);

const TOO_MANY_LANES: Explanation = (
    Some(69),
    "TooManyLanes",
    "69 TooManyLanes\n",
    "\
`refused 69 line 0`: the plan has more than 256 workqueues, the most that a
runtime has. Only `run` answers it: `wqplan plan` prints this plan.

The rule: docs/FORMAT.md, \"The command `run`\"

To see it:
    seq -f 'item i%g' 257 > decl
    seq 256 | awk '{ print \"flush i\" $1, \"i\" $1 + 1 }' >> decl
    wqplan run decl

To mend it:
A plan has as many workqueues as its longest chain has groups. Take flushes out
of the chain that `wqplan plan` prints, or run a part of the declaration, in
which no chain is as long.
",
);

const READ: Explanation = (
    None,
    "read",
    "read fault\n",
    "\
`fault read`, with status 3: a file couldn't be opened, a read of it or of
standard input failed, or the system gave no random number. The line before it
names the file and says why. Nothing was printed to standard output.

The rule: docs/FORMAT.md, \"Faults and exit statuses\"

To see it:
    wqplan plan none.wq

To mend it:
See that each path names a file, not a directory, and that you may read it. A
read that was interrupted has failed too: give the command again.
",
);

const MEMORY: Explanation = (
    None,
    "memory",
    "memory fault\n",
    "\
`fault memory`, with status 3: memory ran out. Nothing was printed to standard
output.

The rule: docs/FORMAT.md, \"Faults and exit statuses\"

To see it:
    echo 'item a' > decl
    yes '' | head -c 8388608 > cert
    ulimit -v 8192
    wqplan check decl cert

To mend it:
Give the process more memory (see `ulimit -v`, and the limit of its control
group), or give it smaller texts.
",
);

const THREAD: Explanation = (
    None,
    "thread",
    "thread fault\n",
    "\
`fault thread`, with status 3: in `run`, a thread couldn't be made. The system
gives no more of them, or no memory for one. The threads that were made have
ended, and nothing was printed to standard output.

The rule: docs/FORMAT.md, \"Faults and exit statuses\"

To see it:
    seq -f 'item i%g' 256 > decl
    seq 255 | awk '{ print \"flush i\" $1, \"i\" $1 + 1 }' >> decl
    ulimit -v 131072
    wqplan run decl

To mend it:
A run takes a thread for each workqueue of the plan, one for each helper, and
two more. Ask for fewer helpers, raise the limits of the process on threads and
on memory (see `ulimit -u` and `ulimit -v`, and the limits of its control
group), or run a declaration with a shorter chain.
",
);

const TALLY: Explanation = (
    None,
    "tally",
    "tally fault\n",
    "\
`fault tally`, with status 3: in `run`, the runtime couldn't be closed with
counts that agree, or a call was refused to one of its own threads. No input
is known to cause it. Nothing was printed to standard output.

The rule: docs/FORMAT.md, \"Faults and exit statuses\"

To mend it:
It is a fault of the program or of the machine: report it, with the declaration.
",
);

const WRITE: Explanation = (
    None,
    "write",
    "write fault\n",
    "\
`fault write`, with status 3: a write to standard output failed, or took none of
its bytes. The line above it says why. A prefix of the answer may have been
written, and never all of it.

The rule: docs/FORMAT.md, \"Faults and exit statuses\"

To see it:
    echo 'item a' | wqplan plan > /dev/full

To mend it:
Don't use what was written. See that the file system has room, then give the
command again.
",
);

/// The explanations of the numbers, in their order, and those of the faults.
pub static EXPLANATIONS: [Explanation; 28] = [
    TEXT_TOO_LONG,
    LINE_TOO_LONG,
    BAD_BYTE,
    UNKNOWN_WORD,
    MISSING_NAME,
    BAD_NAME,
    ITEM_TWICE,
    UNKNOWN_ITEM,
    TOO_MANY_ITEMS,
    TOO_MANY_FLUSHES,
    GROUPED_TWICE,
    EXTRA_WORD,
    BAD_CERT_LINE,
    NOT_ALL_ITEMS,
    GROUP_SPLIT,
    NUMBER_OUT_OF_RANGE,
    NOT_FALLING,
    CHAIN_BROKEN,
    LENGTH_DIFFERS,
    CIRCLE_BROKEN,
    RUN_BROKEN,
    HAS_RESCUER,
    TOO_MANY_LANES,
    READ,
    MEMORY,
    THREAD,
    TALLY,
    WRITE,
];

/// Whether an explanation is for this number.
fn is_numbered(row: &Explanation, code: u32) -> bool
    ensures { result ≡ numbered row.now.0 code }
{
    match row.0 {
        Some(own) => own == code,
        None => false,
    }
}

/// The first of these explanations with this number, if there is one.
pub(crate) fn with_number(rows: &[Explanation], code: u32) -> Option<&Explanation>
    ensures { option_map (λ row. row.now) result ≡ find (λ row. numbered row.0 code) rows.now }
{
    rows.iter().find(|row| is_numbered(row, code))
}

/// Whether two names are equal, ignoring case.
fn is_same_name(name: &str, other: &str) -> bool
    ensures { result ≡ same_name name.now other.now }
{
    name.eq_ignore_ascii_case(other)
}

/// The first of these explanations with this name, ignoring case, if there is one.
pub(crate) fn with_name<'a>(rows: &'a [Explanation], name: &str) -> Option<&'a Explanation>
    ensures { option_map (λ row. row.now) result ≡ find (λ row. same_name row.1.now name.now) rows.now }
{
    rows.iter().find(|row| is_same_name(row.1, name))
}
