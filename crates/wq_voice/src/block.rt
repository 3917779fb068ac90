//! Blocks of lines that say something of a line of a text: the place in it, what
//! there is to say, and the line with its marks.
//!
//! The form is that of "Diagnoses" in docs/FORMAT.md. A line is sought in the time of reading the text, and a block
//! takes time and memory linear in its length.

ghost use Rattle.std.specs.Prelude.{◌≡◌, ◌∷◌, IfOk, map};
ghost use Rattle.wq_diagnosis.specs.Diagnosis.{shown_lines};
ghost use Rattle.wq_voice.specs.Reasons.{plain_head, IsSaidOf};

use std::alloc::{AllocError, Allocator};
use wq_diagnosis::{column, lines_of, place_words, push_excerpt, put_line, put_lines};
use wq_findings::{Hint, Mark, workqueue_at};
use wq_groups::LaneId;
use wq_names::messages;

/// A first line without the number of an answer.
pub(crate) fn plain_head<A: Allocator + Copy>(
    alloc: A,
    file: &str,
    place: &[u32],
    what: &[u8],
) -> Result<Vec<u8, A>, AllocError>
    ensures { IfOk result (λ line. line.items ≡ plain_head file.now place.now what.now) }
{
    let place = place_words(alloc, place)?;
    messages::at_place(alloc, file.as_bytes(), &place, what)
}

/// The bytes of a line that are meant.
#[derive(Clone, Copy)]
pub(crate) struct Spot<'a> {
    /// The number of the line.
    pub(crate) line: u32,
    /// The column of the first byte that is meant.
    pub(crate) column: u32,
    /// The bytes of the line.
    bytes: &'a [u8],
    /// The bytes that are meant.
    mark: Mark,
}

impl<'a> Spot<'a> {
    /// The line with this number and these bytes, of which the marked ones are meant.
    pub(crate) fn new(no: u32, bytes: &'a [u8], mark: Mark) -> Spot<'a> {
        Spot {
            line: no,
            column: column(mark),
            bytes,
            mark,
        }
    }

    /// No bytes of a line.
    pub(crate) fn nowhere() -> Spot<'a> {
        Spot::new(0, b"", Mark { at: 0, len: 1 })
    }

    /// The first word of the line of a workqueue, in the text of an assignment.
    pub(crate) fn of_workqueue(text: &'a [u8], q: LaneId) -> Spot<'a> {
        match workqueue_at(&lines_of(text), q.get()) {
            Some((line, mark)) => Spot::new(line.no(), line.bytes(), mark),
            None => Spot::nowhere(),
        }
    }

    /// Adds the line and its marks.
    pub(crate) fn push<A: Allocator + Copy>(
        self,
        alloc: A,
        lines: &mut Vec<Vec<u8, A>, A>,
    ) -> Result<(), AllocError> {
        push_excerpt(alloc, lines, self.bytes, self.mark, Hint::Nothing)
    }
}

/// How many bytes a text of such lines has room for at first, so that it seldom grows.
const ROOM: usize = 256;

/// A first line with these words, and then the other lines.
fn whole_text<A: Allocator + Copy>(
    alloc: A,
    file: &str,
    place: &[u32],
    what: &[u8],
    more: &[Vec<u8, A>],
) -> Result<Vec<u8, A>, AllocError>
    ensures { IfOk result (λ said. said.items
        ≡ shown_lines (plain_head file.now place.now what.now ∷ map (λ line. line.items) more.now)) }
{
    let head = plain_head(alloc, file, place, what)?;
    let mut out = Vec::with_capacity(alloc, ROOM)?;
    put_line(&mut out, &head)?;
    put_lines(&mut out, more)?;
    Ok(out)
}

/// As `said`, with a line and a column.
pub fn said_at<A: Allocator + Copy>(
    alloc: A,
    file: &str,
    line: u32,
    column: u32,
    what: &[u8],
    more: &[Vec<u8, A>],
) -> Result<Vec<u8, A>, AllocError>
    ensures { IfOk result (λ said. IsSaidOf file.now what.now said.items) }
{
    whole_text(alloc, file, &[line, column], what, more)
}
