//! The command `hang` with the names of items that must go on: from what is declared and the bytes of an assignment to
//! the bytes of the answer.
//!
//! The answer is built in full before its first byte is written. It takes the time of reading the assignment, of
//! looking the names up, of the search and of writing the answer.

use crate::holding::{Holding, hold_declared};
use std::alloc::{AllocError, Allocator};
use wq_commands::{Answered, Command, Finds, Found, TWO_TEXTS};
use wq_groups::Declaration;
use wq_meter::{Limits, Texts};

/// The command `hang` with names: its texts are a declaration and an assignment.
#[derive(Clone, Copy, Debug)]
pub struct HoldCommand<'a> {
    /// The names of the items that must go on.
    pub names: &'a [&'a str],
}

impl<A: Allocator + Copy> Finds<A> for HoldCommand<'_> {
    ghost use Rattle.std.specs.Prelude.{map};
    ghost use Rattle.wq_commands.specs.Commands.{two_texts};
    ghost use Rattle.wq_hang_command.specs.Holding.{HoldsText};

    /// How one of the items is held up soonest; or nothing, if a name is that of no item.
    type Found = Found<Option<Holding<A>>>;

    ghost limits = { λ _. two_texts };

    ghost answers = { λ command s texts found end out.
        HoldsText s (map (λ n. n.now) command.names.now) texts.second found end out };
}

impl<A: Allocator + Copy> Command<A> for HoldCommand<'_> {
    fn limits(&self) -> Limits {
        TWO_TEXTS
    }

    fn answer(
        &self,
        alloc: A,
        declared: &Declaration<'_, A>,
        texts: &Texts<A>,
    ) -> Result<Answered<A, Found<Option<Holding<A>>>>, AllocError> {
        hold_declared(alloc, declared, self.names, texts.second())
    }
}
