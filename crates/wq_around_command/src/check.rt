//! The command `check` around fixed workqueues: from what is declared and the bytes of a certificate and of these to
//! the bytes of the checker's answer.
//!
//! The answer is built in full before its first byte is written.

use crate::checking::{Checked, check_texts};
use std::alloc::{AllocError, Allocator};
use wq_commands::{Answered, Command, Finds, Found, THREE_TEXTS};
use wq_groups::Declaration;
use wq_meter::{Limits, Texts};

/// The command `check` around fixed workqueues: its texts are a declaration, a certificate, and these workqueues.
#[derive(Clone, Copy, Debug)]
pub struct CheckAroundCommand;

impl<A: Allocator + Copy> Finds<A> for CheckAroundCommand {
    ghost use Rattle.wq_commands.specs.Commands.{three_texts};
    ghost use Rattle.wq_around_command.specs.Checking.{ChecksTexts};

    type Found = Found<Checked>;

    ghost limits = { λ _. three_texts };

    ghost answers = { λ _ s texts found end out. ChecksTexts s texts.second texts.third found end out };
}

impl<A: Allocator + Copy> Command<A> for CheckAroundCommand {
    fn limits(&self) -> Limits {
        THREE_TEXTS
    }

    fn answer(
        &self,
        alloc: A,
        declared: &Declaration<'_, A>,
        texts: &Texts<A>,
    ) -> Result<Answered<A, Found<Checked>>, AllocError> {
        check_texts(alloc, declared, texts)
    }
}
