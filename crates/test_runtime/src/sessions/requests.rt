//! What is asked: a task, and the text that says what is to be done in it. This takes the time of the task.

ghost use Rattle.std.specs.Prelude.{◌≡◌};
ghost use Rattle.wq_core.specs.Wiring.{wiring, with_helpers};
ghost use Rattle.wq_groups.specs.DeclaredGroups.{declared_waits};

use crate::sessions::book::keep_book;
use crate::sessions::crew::PlottedCrew;
use crate::sessions::judged_rows::judge;
use crate::sessions::ran::Account;
use crate::sessions::scripted::Script;
use crate::sessions::session::keep_session;
use crate::testbed::{Bed, make, mistake};
use std::alloc::{AllocError, Global};
use std::marker::Brand;
use std::sync::Wait;
use std::sync::ledger::Blank;
use std::thread::Threads;
use std::time::Clock;
use wq_api::{Naming, WqRuntime};

/// What is to be done.
#[derive(Clone, Copy)]
pub enum Task {
    /// The calls of a text are made of a book. It has 8 helpers at most.
    Book,
    /// The rows of a history are judged, which the text has in hexadecimal digits. There are 8 helpers at most.
    Check,
    /// The calls of a text are made of a runtime, in one thread, except the calls that sleep.
    Calls,
    /// Rescuers and callers of a runtime do what a text says.
    Crew,
    /// As `Calls`, and the report that `run` prints is printed of the runtime.
    Report,
    /// Rescuers of a runtime make the declared flushes, and two callers queue and flush all items. There is no text.
    Script,
    /// Rescuers of a runtime make the declared flushes, and a caller the calls of a text.
    Acts,
}

/// A task and its text.
#[derive(Clone, Copy)]
pub struct TaskText<'a> {
    pub task: Task,
    pub text: &'a [u8],
}

/// What is done with a runtime, as far as it is read before the runtime is made.
#[derive(Drop)]
enum Play<'a> {
    Calls(&'a [u8]),
    Crew(PlottedCrew, Account),
    Script(Script),
    /// Nothing: this line of the text is the first mistake.
    Mistake(u32),
}

impl Play<'_> {
    /// What a text has rescuers and callers do, and what is to be printed of it.
    fn of_crew(
        alloc: Global,
        bed: &Bed<'_>,
        text: &[u8],
        account: Account,
    ) -> Result<Self, AllocError> {
        let declared = bed.declared;
        match PlottedCrew::read(alloc, &declared.table, text)? {
            Ok(crew) => Ok(Play::Crew(crew, account)),
            Err(line) => Ok(Play::Mistake(line)),
        }
    }

    /// The calls of a text that a caller makes while rescuers make the declared flushes.
    fn of_acts(alloc: Global, bed: &Bed<'_>, text: &[u8]) -> Result<Self, AllocError> {
        let declared = bed.declared;
        match Script::read(alloc, &declared.table, text)? {
            Ok(script) => Ok(Play::Script(script)),
            Err(line) => Ok(Play::Mistake(line)),
        }
    }

    /// Does it with this runtime. Returns the status.
    fn run<N: Naming + Send + Sync, R: Threads + Wait + Clock + Sync>(
        &self,
        rt: &R,
        alloc: Global,
        runtime: WqRuntime<N, Global>,
        bed: &Bed<'_>,
        out: &mut String,
    ) -> Result<u8, AllocError>
        requires { N.wiring
            ≡ with_helpers
            (wiring (declared_waits bed.now.declared.now) bed.now.assignment.now) bed.now.helpers }
    {
        match self {
            Play::Calls(text) => {
                let declared = bed.declared;
                keep_session(rt, alloc, runtime, &declared.table, *text, out)
            }
            Play::Crew(crew, account) => crew.run(rt, alloc, runtime, bed, *account, out),
            Play::Script(script) => script.run(rt, alloc, runtime, bed, out),
            Play::Mistake(line) => {
                drop(runtime);
                mistake(out, *line)
            }
        }
    }
}

/// Makes the runtime of this name, and does this with it. Returns the status.
fn play_named<N: Naming + Send + Sync, R: Threads + Wait + Clock + Sync>(
    rt: &R,
    alloc: Global,
    blank: Blank,
    bed: &Bed<'_>,
    play: &Play<'_>,
    out: &mut String,
) -> Result<u8, AllocError>
    requires name { blank.name ≡ N.name }
    requires parts { blank.parts ≡ N.parts }
    requires all_parts { N.parts ≡ 65536 }
    requires of_wiring { N.wiring
        ≡ with_helpers
        (wiring (declared_waits bed.now.declared.now) bed.now.assignment.now) bed.now.helpers }
    requires of_rows { N.rows ≡ bed.now.rows }
{
    match make::<N>(alloc, blank, bed, out)? {
        Some(runtime) => play.run(rt, alloc, runtime, bed, out),
        None => Ok(2),
    }
}

/// Makes a runtime, and does this with it. Returns the status.
fn play_new<R: Threads + Wait + Clock + Sync>(
    rt: &R,
    alloc: Global,
    bed: &Bed<'_>,
    play: &Play<'_>,
    out: &mut String,
) -> Result<u8, AllocError> {
    let blank = Blank::new(65_536);
    play_named::<Brand, R>(rt, alloc, blank, bed, play, out)
}

impl TaskText<'_> {
    /// Does what is asked with items that have lanes, and adds what came of it. Returns the status.
    pub(crate) fn perform<R: Threads + Wait + Clock + Sync>(
        &self,
        rt: &R,
        alloc: Global,
        bed: &Bed<'_>,
        out: &mut String,
    ) -> Result<u8, AllocError> {
        let play = match self.task {
            Task::Book => return keep_book(alloc, bed, self.text, out),
            Task::Check => return judge(alloc, bed, self.text, out),
            Task::Calls => Play::Calls(self.text),
            Task::Crew => Play::of_crew(alloc, bed, self.text, Account::Whole)?,
            Task::Report => Play::of_crew(alloc, bed, self.text, Account::Report)?,
            Task::Script => Play::Script(Script::of_all()),
            Task::Acts => Play::of_acts(alloc, bed, self.text)?,
        };
        let status = play_new(rt, alloc, bed, &play, out);
        drop(play);
        status
    }
}
