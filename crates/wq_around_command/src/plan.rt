//! The command `plan` around fixed workqueues: from what is declared and the bytes of these to the bytes of the answer.
//!
//! The answer is built in full before its first byte is written.

use crate::planning::{Planned, plan_text};
use std::alloc::{AllocError, Allocator};
use wq_commands::{Answered, Command, Finds, Found, TWO_TEXTS};
use wq_groups::Declaration;
use wq_meter::{Limits, Texts};

/// The command `plan` around fixed workqueues: its texts are a declaration and these workqueues.
#[derive(Clone, Copy, Debug)]
pub struct PlanAroundCommand;

impl<A: Allocator + Copy> Finds<A> for PlanAroundCommand {
    ghost use Rattle.wq_commands.specs.Commands.{two_texts};
    ghost use Rattle.wq_around_command.specs.Planning.{PlansText};

    type Found = Found<Planned<A>>;

    ghost limits = { λ _. two_texts };

    ghost answers = { λ _ s texts found end out. PlansText s texts.second found end out };
}

impl<A: Allocator + Copy> Command<A> for PlanAroundCommand {
    fn limits(&self) -> Limits {
        TWO_TEXTS
    }

    fn answer(
        &self,
        alloc: A,
        declared: &Declaration<'_, A>,
        texts: &Texts<A>,
    ) -> Result<Answered<A, Found<Planned<A>>>, AllocError> {
        plan_text(alloc, declared, texts)
    }
}
