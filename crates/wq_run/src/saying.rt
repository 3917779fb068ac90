//! What is said beside the answer of `run`: that the plan has too many workqueues, or that no item is declared.
//!
//! A call takes constant time.

ghost use Rattle.std.specs.Prelude.{IfOk, option_map};
ghost use Rattle.wq_run.specs.Running.{SaysRun};

use crate::run::RunCommand;
use std::alloc::{AllocError, Allocator};
use wq_commands::{End, Texts, Voice};
use wq_diagnosis::{Source, of_no_item, of_too_many};
use wq_groups::Declaration;
use wq_voice::FileNames;

/// What is said of a declaration on which `run` ended like this.
fn say_run<A: Allocator + Copy>(
    alloc: A,
    names: &FileNames<'_>,
    declared: &Declaration<'_, A>,
    texts: &Texts<A>,
    end: End,
) -> Result<Option<Vec<u8, A>>, AllocError>
    ensures { IfOk result (λ said. SaysRun names.now.declaration.now declared.now end
        (option_map (λ text. text.items) said)) }
{
    match end {
        End::Refused => {
            let declaration = Source {
                file: names.declaration,
                text: texts.first(),
            };
            let said = of_too_many(alloc, declaration)?;
            Ok(Some(said))
        }
        End::Good | End::Bad => of_no_item(alloc, declared, names.declaration),
    }
}

impl<A: Allocator + Copy> Voice<RunCommand, A> for FileNames<'_> {
    ghost use Rattle.wq_run.specs.Running.{SaysRun};

    ghost says = { λ names _ s _ end said. SaysRun names.declaration.now s end said };

    fn say(
        &self,
        alloc: A,
        _seed: u64,
        _command: &RunCommand,
        declared: &Declaration<'_, A>,
        texts: &Texts<A>,
        found: &End,
    ) -> Result<Option<Vec<u8, A>>, AllocError> {
        say_run(alloc, self, declared, texts, *found)
    }
}
