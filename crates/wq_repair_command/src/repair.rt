//! The command `repair`: from what is declared, the bytes of an assignment, and the names of the items that may move,
//! to what can be done about the workqueues, and the bytes of the answer.
//!
//! The declaration is read first and the assignment next, both before either is judged. The answer is built in full
//! before the first byte is written. A call takes the time of reading the texts, of the search and of writing the
//! answer.

use crate::repairing::{Repairing, repair_declared};
use std::alloc::{AllocError, Allocator};
use wq_commands::{Answered, Command, Finds, Found, TWO_TEXTS};
use wq_groups::Declaration;
use wq_meter::{Limits, Texts};

/// The command `repair`: its texts are a declaration and an assignment.
#[derive(Clone, Copy, Debug)]
pub struct RepairCommand<'a> {
    /// The names of the items that may move, each with its group. Without a name all may.
    pub names: &'a [&'a str],
}

impl<A: Allocator + Copy> Finds<A> for RepairCommand<'_> {
    ghost use Rattle.std.specs.Prelude.{map};
    ghost use Rattle.wq_commands.specs.Commands.{two_texts};
    ghost use Rattle.wq_repair_command.specs.Repairing.{RepairsText};

    /// The workqueues, and what can be done about them; or nothing, if a name is that of no item.
    type Found = Found<Option<Repairing<A>>>;

    ghost limits = { λ _. two_texts };

    ghost answers = { λ command s texts found end out.
        RepairsText (map (λ n. n.now) command.names.now) s texts.second found end out };
}

impl<A: Allocator + Copy> Command<A> for RepairCommand<'_> {
    fn limits(&self) -> Limits {
        TWO_TEXTS
    }

    fn answer(
        &self,
        alloc: A,
        declared: &Declaration<'_, A>,
        texts: &Texts<A>,
    ) -> Result<Answered<A, Found<Option<Repairing<A>>>>, AllocError> {
        repair_declared(alloc, declared, texts.second(), self.names)
    }
}
