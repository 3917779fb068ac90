//! The command `dot`: from what is declared and the bytes of an assignment, if one is named, to the bytes of the
//! answer.
//!
//! The answer is built in full before its first byte is written. The rule is that of "The command `dot`" in
//! docs/FORMAT.md. It takes the time of reading the assignment, of the plan or the components, of the search for a
//! shortest run, and of drawing.

use crate::dotting::{Drawn, draw};
use std::alloc::{AllocError, Allocator};
use wq_commands::{Answered, Command, Finds, Found, one_or_two_texts};
use wq_groups::Declaration;
use wq_meter::{Limits, Texts};

/// The command `dot`: its texts are a declaration and perhaps an assignment.
///
/// The answer to an assignment is the drawing of its workqueues. Flushes on a circle of workqueues are red, and so are
/// those that lead from a workqueue with a rescuer to one without; of these, the waits of a shortest run that ends
/// stuck are bold. The answer to a declaration alone is the drawing of its plan, in which the flushes of the chain are
/// bold; if the groups wait in a circle, each has a workqueue of its own, and the flushes are red and bold as with an
/// assignment. If a text is refused, the answer is the refusal of the first such text.
#[derive(Clone, Copy, Debug)]
pub struct DotCommand {
    /// Whether there is an assignment.
    pub assigned: bool,
}

impl<A: Allocator + Copy> Finds<A> for DotCommand {
    ghost use Rattle.wq_commands.specs.Commands.{one_or_two_texts};
    ghost use Rattle.wq_dot.specs.Dotting.{DrawsTexts};

    type Found = Found<Drawn<A>>;

    ghost limits = { λ command. one_or_two_texts command.assigned };

    ghost answers = { λ command s texts found end out. DrawsTexts command.assigned s texts found end out };
}

impl<A: Allocator + Copy> Command<A> for DotCommand {
    fn limits(&self) -> Limits {
        one_or_two_texts(self.assigned)
    }

    fn answer(
        &self,
        alloc: A,
        declared: &Declaration<'_, A>,
        texts: &Texts<A>,
    ) -> Result<Answered<A, Found<Drawn<A>>>, AllocError> {
        draw(alloc, self.assigned, declared, texts)
    }
}
