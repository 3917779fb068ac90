//! What was most likely meant, or how to mend it, in the words of a message. Writing it takes time linear in the length
//! of the message.

ghost use Rattle.std.specs.Prelude.{None};

use crate::quoted::Quoted;
use crate::stage::Stage;
use crate::workqueue::Workqueue;
use std::fmt;

/// What was most likely meant, or how to mend it.
#[derive(Clone, Copy)]
pub enum Hint<'a> {
    /// Nothing is known.
    Nothing,
    /// A hint in words that are the same for any text.
    Said(&'static str),
    /// The form that the line should have.
    Form(&'static str),
    /// The line that should be there.
    Line(Stage),
    /// The line of a workqueue without a rescuer that should be there, by its number.
    BareLine(u32),
    /// The text that this one looks like.
    LooksLike(&'static str),
    /// The text that this line looks like, which is in the file of a declaration.
    OwnFile(&'static str),
    /// The directive, or another first word of a line, that was most likely meant.
    Directive(&'static str),
    /// The name that was most likely meant.
    Near(Quoted<'a>),
    /// The name that was most likely meant, and the line that declares it.
    NearOn(Quoted<'a>, u32),
    /// The line below that declares a name.
    Below(u32),
    /// A name that should be declared.
    Declare(Quoted<'a>),
    /// The first line that a name is on.
    FirstOn(u32),
    /// Another line that a name is on, and the workqueue of that line.
    On(u32, Workqueue<'a>),
    /// The line that the other name is on, and the workqueue of that line.
    OtherOn(u32, Workqueue<'a>),
    /// An item, and the workqueue that it is on.
    OnWorkqueue(Quoted<'a>, Workqueue<'a>),
}

impl Hint<'_> {
    /// The hint for a word that begins a comment in another language.
    pub(crate) const COMMENT: Hint<'static> = Hint::Said("a comment begins with `#`");

    /// The hint for a call that waits, in the place of a directive.
    pub(crate) const FLUSH: Hint<'static> = Hint::Directive("flush");

    /// The hint for a call that waits for a whole workqueue, in the place of a directive.
    pub(crate) const FLUSHWQ: Hint<'static> = Hint::Directive("flushwq");

    /// The hint for a mark of unsureness on a line that isn't one of flushes.
    pub(crate) const ONLY_FLUSHES: Hint<'static> = Hint::Said(
        "only a `flush` or `flushwq` line can be unsure",
    );

    /// The hint for a place in a draft where it isn't known what is waited for.
    pub(crate) const UNDECIDED: Hint<'static> = Hint::Said(
        "a site of a draft that isn't decided: write who ends the wait, or take it out",
    );

    /// The hint for a mark of unsureness at a name on a line of flushes.
    pub(crate) const MARK_OF_FLUSH: Hint<'static> = Hint::Said(
        "the mark belongs to the first word: `flush?`",
    );

    /// The hint for a mark of unsureness at a name on a line of a flush of a whole workqueue.
    pub(crate) const MARK_OF_FLUSHWQ: Hint<'static> = Hint::Said(
        "the mark belongs to the first word: `flushwq?`",
    );

    /// The hint for a line of an unsure part that isn't unsure in the declaration.
    pub(crate) const ASK_AGAIN: Hint<'static> = Hint::Said("ask `hang` again");

    /// The hint for a word in which names are separated by something other than blanks.
    pub(crate) const BLANKS: Hint<'static> = Hint::Said("only blanks come between names");

    /// The hint for a name after `flushwq` that no line declares.
    pub(crate) const OF_WORKQUEUE: Hint<'static> = Hint::Said(
        "`flushwq` takes an item of that workqueue, not the workqueue's name",
    );

    /// The hint for the word `ordered` in the place of an item.
    pub(crate) const ORDERED: Hint<'static> = Hint::Said(
        "which items are `ordered` is said in the declaration",
    );

    /// The hint for a call that queues, in the place of a directive.
    pub(crate) const QUEUES: Hint<'static> = Hint::Said(
        "a call that queues doesn't wait, and needs no line",
    );

    /// The hint for a call that cancels, in the place of a directive.
    pub(crate) const CANCELS: Hint<'static> = Hint::Said(
        "`cancel_work` doesn't wait, and needs no line: for `cancel_work_sync` write `flush`",
    );

    /// The hint for the word `norescuer` in the place of an item.
    pub(crate) const FIRST_WORD: Hint<'static> = Hint::Said(
        "`norescuer` comes first on a line, in place of `wq`",
    );

    /// The hint for a `norescuer` line in a plan.
    pub(crate) const ALL_RESCUED: Hint<'static> = Hint::Said(
        "in a plan each workqueue has a rescuer",
    );

    /// The hint for a line of a plan in an assignment that isn't a plan.
    pub(crate) const IN_A_PLAN: Hint<'static> = Hint::Said(
        "in a plan the line `plan K` comes first",
    );

    /// The hint for an assignment in the place of a plan.
    pub(crate) const ASSIGNMENT: Hint<'static> = Hint::Said(
        "this is an assignment: ask `deadlock`",
    );

    /// The hint for a flag of a workqueue in the place of an item.
    pub(crate) const FLAG: Hint<'static> = Hint::Said(
        "flags don't belong here: put them into a comment",
    );
}

impl fmt::Display for Hint<'_> {
    ghost output = { λ _. None };

    fn fmt<W: fmt::Write>(&self, f: &mut fmt::Formatter<W>) -> fmt::Result {
        match *self {
            Hint::Nothing => Ok(()),
            Hint::Said(said) => f.write_str(said),
            Hint::Form(form) => write!(f, "the line should be `{form}`"),
            Hint::Line(stage) => write!(f, "the line should be {stage}"),
            Hint::BareLine(next) => write!(f, "the line should be `norescuer {next} NAME..`"),
            Hint::LooksLike(text) => write!(
                f,
                "this looks like {text}: are the files in the right order?"
            ),
            Hint::OwnFile(text) => write!(f, "this looks like {text}: it needs a file of its own"),
            Hint::Directive(word) => write!(f, "did you mean `{word}`?"),
            Hint::Near(name) => write!(f, "did you mean `{name}`?"),
            Hint::NearOn(name, line) => write!(f, "did you mean `{name}`, line {line}?"),
            Hint::Below(line) => write!(f, "it is declared below, on line {line}"),
            Hint::Declare(name) => write!(f, "write `item {name}` above"),
            Hint::FirstOn(line) => write!(f, "first on line {line}"),
            Hint::On(line, workqueue) => on_line(f, "", line, workqueue),
            Hint::OtherOn(line, workqueue) => on_line(f, "the other one ", line, workqueue),
            Hint::OnWorkqueue(item, workqueue) => write!(f, "`{item}` is on {workqueue}"),
        }
    }
}

/// Writes the line that a name is on, and the workqueue of that line, if it has a name.
fn on_line<W: fmt::Write>(
    f: &mut fmt::Formatter<W>,
    before: &str,
    line: u32,
    workqueue: Workqueue<'_>,
) -> fmt::Result {
    write!(f, "{before}on line {line}")?;
    if workqueue.is_named() {
        write!(f, ", {workqueue}")?;
    }
    Ok(())
}
