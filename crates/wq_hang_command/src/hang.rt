//! The command `hang`: from what is declared and the bytes of an assignment to the bytes of the answer.
//!
//! The answer is built in full before its first byte is written. A call takes the time of reading the assignment, of
//! the search and of writing the answer.

use crate::hanging::{Hanging, hang_declared};
use std::alloc::{AllocError, Allocator};
use wq_commands::{Answered, Command, Finds, Found, TWO_TEXTS};
use wq_groups::Declaration;
use wq_meter::{Limits, Texts};

/// The command `hang`: its texts are a declaration and an assignment.
#[derive(Clone, Copy, Debug)]
pub struct HangCommand;

impl<A: Allocator + Copy> Finds<A> for HangCommand {
    ghost use Rattle.wq_commands.specs.Commands.{two_texts};
    ghost use Rattle.wq_hang_command.specs.Hanging.{HangsText};

    type Found = Found<Hanging<A>>;

    ghost limits = { λ _. two_texts };

    ghost answers = { λ _ s texts found end out. HangsText s texts.second found end out };
}

impl<A: Allocator + Copy> Command<A> for HangCommand {
    fn limits(&self) -> Limits {
        TWO_TEXTS
    }

    fn answer(
        &self,
        alloc: A,
        declared: &Declaration<'_, A>,
        texts: &Texts<A>,
    ) -> Result<Answered<A, Found<Hanging<A>>>, AllocError> {
        hang_declared(alloc, declared, texts.second())
    }
}
