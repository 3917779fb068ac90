//! A rescuer for each lane and its helpers, whose bodies make the declared flushes of their items, and two callers that
//! queue all items and then flush them, or one caller that makes the calls of a text.
//!
//! A run takes the time of the bodies and the callers, and then that of printing the history that they leave.

ghost use Rattle.std.specs.Prelude.{◌≡◌};
ghost use Rattle.wq_core.specs.Wiring.{wiring, with_helpers};
ghost use Rattle.wq_groups.specs.DeclaredGroups.{declared_waits};

use crate::sessions::lines::tell_text;
use crate::sessions::ran::{Account, put_end};
use crate::testbed::Bed;
use std::alloc::{AllocError, Global};
use std::sync::Wait;
use std::thread::Threads;
use wq_api::{Naming, WqRuntime};
use wq_items::ItemTable;
use wq_rescuer::{Ran, RunFault, contexts_of, count_contexts, run_all};
use wq_script::{Act, ScriptBody, ScriptCaller, script_bodies, script_callers};

/// The calls of the caller; without them there are the two callers that queue and flush all items.
#[derive(Drop)]
pub(crate) struct Script {
    acts: Option<Vec<Act>>,
}

/// What all threads of a script left, or why not everything was run.
type ScriptRan<'t, 'a, N> = Result<
    Ran<N, Global, ScriptBody<'t, 'a, Global>, ScriptCaller<Global>>,
    RunFault<N, Global, ScriptBody<'t, 'a, Global>, ScriptCaller<Global>>,
>;

impl Script {
    /// The script in which two callers queue and flush all items.
    pub(crate) fn of_all() -> Self {
        Script { acts: None }
    }

    /// Reads the calls of a text, or the number of its first line that is a mistake.
    pub(crate) fn read(
        alloc: Global,
        table: &ItemTable<'_, Global>,
        text: &[u8],
    ) -> Result<Result<Self, u32>, AllocError> {
        let mut acts = Vec::new(alloc);
        let mut unused = String::new(alloc);
        if let Some(line) = tell_text(&mut acts, table, text, &mut unused)? {
            return Ok(Err(line));
        }
        Ok(Ok(Script { acts: Some(acts) }))
    }

    /// The callers.
    fn callers(&self, alloc: Global, items: u16) -> Result<Vec<ScriptCaller<Global>>, AllocError> {
        let Some(acts) = &self.acts else {
            return script_callers(alloc, items);
        };
        let acts = acts.to_vec(alloc)?;
        let mut callers = Vec::new(alloc);
        callers.push(ScriptCaller::new(acts))?;
        Ok(callers)
    }

    /// Has rescuers and helpers make the declared flushes while the callers call.
    fn perform<'t, N: Naming + Send + Sync, R: Threads + Wait + Sync>(
        &self,
        rt: &R,
        alloc: Global,
        runtime: &WqRuntime<N, Global>,
        bed: &Bed<'t>,
    ) -> Result<ScriptRan<'t, 't, N>, AllocError>
        requires { N.wiring
            ≡ with_helpers
            (wiring (declared_waits bed.now.declared.now) bed.now.assignment.now) bed.now.helpers }
    {
        let declared = bed.declared;
        let bodies = script_bodies(alloc, &declared.table, count_contexts(runtime))?;
        let callers = self.callers(alloc, declared.table.len())?;
        Ok(run_all(rt, alloc, runtime, bodies, callers))
    }

    /// Has rescuers, helpers and callers do it, closes the runtime, and adds what came of it. Returns the status.
    pub(crate) fn run<N: Naming + Send + Sync, R: Threads + Wait + Sync>(
        &self,
        rt: &R,
        alloc: Global,
        runtime: WqRuntime<N, Global>,
        bed: &Bed<'_>,
        out: &mut String,
    ) -> Result<u8, AllocError>
        requires { N.wiring
            ≡ with_helpers
            (wiring (declared_waits bed.now.declared.now) bed.now.assignment.now) bed.now.helpers }
    {
        let contexts = contexts_of(alloc, &runtime)?;
        let ran = self.perform(rt, alloc, &runtime, bed);
        let status = put_end(out, alloc, bed, runtime, &contexts, ran, Account::Whole);
        drop(contexts);
        status
    }
}
