//! The command `replay` with the names of items that must go on: from what is declared, and the bytes of an assignment
//! and a run, to how the run ends.
//!
//! The answer is built in full before its first byte is written. It takes the time of reading the texts, of looking the
//! names up, of making the steps and of writing the answer.

use crate::found::Found;
use crate::limits::THREE_TEXTS;
use crate::replaying_for::{ReplayedFor, replay_declared_for};
use crate::shell::{Answered, Command, Finds};
use std::alloc::{AllocError, Allocator};
use wq_groups::Declaration;
use wq_meter::{Limits, Texts};

/// The command `replay` with names: its texts are a declaration, an assignment and a run.
#[derive(Clone, Copy, Debug)]
pub struct ReplayForCommand<'a> {
    /// The names of the items that must go on.
    pub names: &'a [&'a str],
}

impl<A: Allocator + Copy> Finds<A> for ReplayForCommand<'_> {
    ghost use Rattle.std.specs.Prelude.{map};
    ghost use Rattle.wq_commands.specs.Commands.{three_texts};
    ghost use Rattle.wq_commands.specs.ReplayingFor.{ReplaysTextsFor};

    /// The run, and how it ends; or nothing, if a name is that of no item.
    type Found = Found<Option<ReplayedFor<A>>>;

    ghost limits = { λ _. three_texts };

    ghost answers = { λ command s texts found end out.
        ReplaysTextsFor s (map (λ n. n.now) command.names.now) texts.second texts.third found end out };
}

impl<A: Allocator + Copy> Command<A> for ReplayForCommand<'_> {
    fn limits(&self) -> Limits {
        THREE_TEXTS
    }

    fn answer(
        &self,
        alloc: A,
        declared: &Declaration<'_, A>,
        texts: &Texts<A>,
    ) -> Result<Answered<A, Found<Option<ReplayedFor<A>>>>, AllocError> {
        replay_declared_for(alloc, declared, self.names, texts.second(), texts.third())
    }
}
