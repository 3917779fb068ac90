//! What should come next in a certificate, judging by the lines above.
//!
//! The forms are those of "Certificates" in docs/FORMAT.md. The lines above have their forms, since a certificate is
//! judged line by line. Going through them takes time linear in the length of the text.

ghost use Rattle.std.specs.Prelude.{None};

use crate::token::{bytes_at, first_word};
use crate::workqueue::is_workqueue;
use std::fmt;
use wq_text::{Line, Text, number};

/// Which certificate a text should be.
#[derive(Clone, Copy, Debug, PartialEq, Eq)]
pub enum CertificateKind {
    /// A plan or a circle.
    Answer,
    /// `wq` and `norescuer` lines alone, or a whole plan.
    Assignment,
    /// A run.
    Run,
}

/// What the next line should be.
#[derive(Clone, Copy)]
pub enum Stage {
    /// `plan K`.
    Plan,
    /// `circle N`.
    Circle,
    /// The `wq` line with this number; `left` is how many are left, if the text says so. If it doesn't, the line may be
    /// a `norescuer` line.
    Workqueue { next: u32, left: Option<u32> },
    /// `chain N`.
    Chain,
    /// An arc of a chain; this many are left.
    ChainArc { left: u32 },
    /// An arc of a circle; this many are left.
    CircleArc { left: u32 },
    /// `unsure M`.
    Part,
    /// A line of an unsure part; this many are left.
    Unsure { left: u32 },
    /// `run M`.
    Run,
    /// A step; this many are left.
    Step { left: u32 },
    /// No line.
    End,
}

/// The number after the first word of a line; 0 if there is none.
fn count_on(line: &Line<'_>) -> u32 {
    number(bytes_at(line, 1)).unwrap_or(0)
}

impl Stage {
    /// What the first line should be, judging by its first word.
    pub(crate) fn first(kind: CertificateKind, word: &[u8]) -> Stage {
        match kind {
            CertificateKind::Run if word == b"unsure".as_slice() => Stage::Part,
            CertificateKind::Run => Stage::Run,
            CertificateKind::Answer if word == b"circle".as_slice() => Stage::Circle,
            CertificateKind::Assignment if word != b"plan".as_slice() => Stage::Workqueue {
                next: 0,
                left: None,
            },
            CertificateKind::Answer | CertificateKind::Assignment => Stage::Plan,
        }
    }

    /// The stage with `left` `wq` lines to come, the next of which has the number `next`.
    fn workqueues(next: u32, left: u32) -> Stage {
        if left == 0 {
            return Stage::Chain;
        }
        Stage::Workqueue {
            next,
            left: Some(left),
        }
    }

    /// The stage with this many arcs of a chain to come.
    fn chain_arcs(left: u32) -> Stage {
        if left == 0 {
            return Stage::End;
        }
        Stage::ChainArc { left }
    }

    /// The stage with this many arcs of a circle to come.
    fn circle_arcs(left: u32) -> Stage {
        if left == 0 {
            return Stage::Run;
        }
        Stage::CircleArc { left }
    }

    /// The stage with this many lines of an unsure part to come.
    fn unsure_lines(left: u32) -> Stage {
        if left == 0 {
            return Stage::Run;
        }
        Stage::Unsure { left }
    }

    /// The stage with this many steps to come.
    fn steps(left: u32) -> Stage {
        if left == 0 {
            return Stage::End;
        }
        Stage::Step { left }
    }

    /// The stage after a line that is right.
    pub(crate) fn behind(self, line: &Line<'_>) -> Stage {
        match self {
            Stage::Plan => Stage::workqueues(0, count_on(line)),
            Stage::Circle => Stage::circle_arcs(count_on(line)),
            Stage::Workqueue { next, left: None } => Stage::Workqueue {
                next: next.saturating_add(1),
                left: None,
            },
            Stage::Workqueue {
                next,
                left: Some(left),
            } => Stage::workqueues(next.saturating_add(1), left.saturating_sub(1)),
            Stage::Chain => Stage::chain_arcs(count_on(line).saturating_sub(1)),
            Stage::ChainArc { left } => Stage::chain_arcs(left.saturating_sub(1)),
            Stage::CircleArc { left } => Stage::circle_arcs(left.saturating_sub(1)),
            Stage::Part => Stage::unsure_lines(count_on(line)),
            Stage::Unsure { left } => Stage::unsure_lines(left.saturating_sub(1)),
            Stage::Run => Stage::steps(count_on(line)),
            Stage::Step { left } => Stage::steps(left.saturating_sub(1)),
            Stage::End => Stage::End,
        }
    }

    /// Whether a `wq` or `norescuer` line may be here, and nothing says how many are left.
    pub(crate) fn is_open(self) -> bool {
        matches!(self, Stage::Workqueue { left: None, .. })
    }

    /// Whether the text may end here.
    pub(crate) fn may_end(self) -> bool {
        self.is_open() || matches!(self, Stage::End)
    }

    /// Whether the expected line may begin with this word.
    pub(crate) fn may_begin_with(self, word: &[u8]) -> bool {
        let first: &[u8] = match self {
            Stage::Plan => b"plan",
            Stage::Circle => b"circle",
            Stage::Workqueue { left: None, .. } => return is_workqueue(word),
            Stage::Workqueue { .. } => b"wq",
            Stage::Chain => b"chain",
            Stage::ChainArc { .. } | Stage::CircleArc { .. } => b"arc",
            Stage::Part => b"unsure",
            Stage::Unsure { .. } => return is_unsure(word),
            Stage::Run => b"run",
            Stage::Step { .. } => return is_step(word),
            Stage::End => return false,
        };
        word == first
    }

    /// What comes after the first word of the expected line.
    pub(crate) fn shape(self, word: &[u8]) -> Shape {
        match self {
            Stage::Plan | Stage::Circle | Stage::Chain | Stage::Part | Stage::Run => Shape {
                has_number: true,
                names: Some(0),
            },
            Stage::Workqueue { .. } => Shape {
                has_number: true,
                names: None,
            },
            Stage::ChainArc { .. } | Stage::CircleArc { .. } | Stage::Unsure { .. } | Stage::End =>
                Shape {
                    has_number: false,
                    names: Some(2),
                },
            Stage::Step { .. } => Shape {
                has_number: !is_call(word),
                names: Some(1),
            },
        }
    }
}

/// The expected line, in the words of a message.
impl fmt::Display for Stage {
    ghost output = { λ _. None };

    fn fmt<W: fmt::Write>(&self, f: &mut fmt::Formatter<W>) -> fmt::Result {
        match self {
            Stage::Plan => f.write_str("`plan K`"),
            Stage::Circle => f.write_str("`circle N`"),
            Stage::Workqueue { next, .. } => write!(f, "`wq {next} NAME..`"),
            Stage::Chain => f.write_str("`chain N`"),
            Stage::ChainArc { .. } | Stage::CircleArc { .. } => f.write_str("`arc NAME TARGET`"),
            Stage::Part => f.write_str("`unsure M`"),
            Stage::Unsure { .. } => f.write_str("`flush? NAME TARGET`"),
            Stage::Run => f.write_str("`run M`"),
            Stage::Step { .. } => f.write_str("a step"),
            Stage::End => f.write_str("nothing"),
        }
    }
}

/// What comes after the first word of a line: a number or none, and then a fixed number of names, or any number of
/// them.
#[derive(Clone, Copy)]
pub(crate) struct Shape {
    pub(crate) has_number: bool,
    pub(crate) names: Option<usize>,
}

impl Shape {
    /// The index of the first name, if the first word of the line has index 0.
    pub(crate) fn first_name(self) -> usize {
        if self.has_number { 2 } else { 1 }
    }

    /// The fewest words that such a line has.
    pub(crate) fn fewest(self) -> usize {
        self.first_name().saturating_add(self.names.unwrap_or(0))
    }
}

/// Whether a word begins a step that names no workqueue.
fn is_call(word: &[u8]) -> bool {
    word == b"queue".as_slice() || word == b"cancel".as_slice()
}

/// Whether a word begins a line of an unsure part.
fn is_unsure(word: &[u8]) -> bool {
    word == b"flush?".as_slice() || word == b"flushwq?".as_slice()
}

/// Whether a word begins a step.
fn is_step(word: &[u8]) -> bool {
    is_call(word)
        || word == b"start".as_slice()
        || word == b"wait".as_slice()
        || word == b"over".as_slice()
        || word == b"waitwq".as_slice()
        || word == b"overwq".as_slice()
        || word == b"finish".as_slice()
}

/// In an assignment by lines of workqueues alone, the first other line, if there is one, and what should be in its
/// place.
pub(crate) fn stray_line<'a>(kind: CertificateKind, text: &Text<'a>) -> Option<(Line<'a>, Stage)> {
    let mut stage = None;
    for line in text.lines() {
        let word = first_word(&line);
        if word.is_empty() {
            continue;
        }
        let here = stage.unwrap_or(Stage::first(kind, word));
        if here.is_open() && !here.may_begin_with(word) {
            return Some((line, here));
        }
        stage = Some(here.behind(&line));
    }
    None
}

/// The line with this number, and what should be on it, judging by the lines above. If there is no such line, what
/// should come at the end of the text.
pub(crate) fn line_and_stage<'a>(
    kind: CertificateKind,
    text: &Text<'a>,
    no: u32,
) -> (Option<Line<'a>>, Stage) {
    let mut stage = None;
    for line in text.lines() {
        let word = first_word(&line);
        if word.is_empty() && line.no() != no {
            continue;
        }
        let here = stage.unwrap_or(Stage::first(kind, word));
        if line.no() == no {
            return (Some(line), here);
        }
        stage = Some(here.behind(&line));
    }
    (None, stage.unwrap_or(Stage::first(kind, b"")))
}
