//! The command `circles`: from what is declared and the bytes of an assignment, if one is named, to the bytes of the
//! answer.
//!
//! The answer is built in full before its first byte is written. The rule is that of "The command `circles`" in
//! docs/FORMAT.md. It takes the time of reading the assignment, of the components and of their text.

use crate::circling::{Circling, circle};
use std::alloc::{AllocError, Allocator};
use wq_commands::{Answered, Command, Finds, Found, one_or_two_texts};
use wq_groups::Declaration;
use wq_meter::{Limits, Texts};

/// The command `circles`: its texts are a declaration and perhaps an assignment.
#[derive(Clone, Copy, Debug)]
pub struct CirclesCommand {
    /// Whether there is an assignment.
    pub assigned: bool,
}

impl<A: Allocator + Copy> Finds<A> for CirclesCommand {
    ghost use Rattle.wq_commands.specs.Commands.{one_or_two_texts};
    ghost use Rattle.wq_circles.specs.Circling.{CirclesTexts};

    type Found = Found<Circling<A>>;

    ghost limits = { λ command. one_or_two_texts command.assigned };

    ghost answers = { λ command s texts found end out. CirclesTexts command.assigned s texts found end out };
}

impl<A: Allocator + Copy> Command<A> for CirclesCommand {
    fn limits(&self) -> Limits {
        one_or_two_texts(self.assigned)
    }

    fn answer(
        &self,
        alloc: A,
        declared: &Declaration<'_, A>,
        texts: &Texts<A>,
    ) -> Result<Answered<A, Found<Circling<A>>>, AllocError> {
        circle(alloc, self.assigned, declared, texts)
    }
}
