//! A rescuer for each lane, its helpers, and a thread for each caller. Their bodies and callers do what a text says.
//!
//! This takes the time of the bodies and the callers, and then that of printing the history that they leave.

ghost use Rattle.std.specs.Prelude.{◌≡◌, vec_len, slice_index, IfOk};
ghost use Rattle.std.specs.List.{All};
ghost use Rattle.wq_core.specs.Wiring.{wiring, with_helpers};
ghost use Rattle.wq_rescuer.specs.Executing.{NeverRan};
ghost use Rattle.wq_groups.specs.DeclaredGroups.{declared_waits};

use crate::sessions::deed::{Deed, Plot};
use crate::sessions::doer::Doer;
use crate::sessions::lines::tell_text;
use crate::sessions::meeting::Flags;
use crate::sessions::ran::{Account, put_end};
use crate::testbed::Bed;
use std::alloc::{AllocError, Global};
use std::sync::Wait;
use std::thread::Threads;
use wq_api::{Naming, WqRuntime};
use wq_items::ItemTable;
use wq_rescuer::{Ran, RunFault, contexts_of, run_all};

/// Bodies or callers that do these things, and can count this many items. Their numbers begin with this one.
fn make_doers<'a>(
    alloc: Global,
    flags: &'a Flags,
    first: usize,
    count: u16,
    plots: &'a [Vec<Deed>],
) -> Result<Vec<Doer<'a>>, AllocError>
    ensures width { IfOk result (λ ds. All (λ d. vec_len d.runs ≡ count) ds.items) }
    ensures never_ran { IfOk result (λ ds. All (λ d. NeverRan (slice_index d.runs.items)) ds.items) }
{
    let mut doers = Vec::new(alloc);
    let mut number = first;
    for deeds in plots {
        let doer = Doer::new(alloc, flags, number, count, deeds.as_slice())?;
        doers.push(doer)?;
        number = number.wrapping_add(1);
    }
    Ok(doers)
}

/// What a text has bodies and callers do, and their flags.
#[derive(Drop)]
pub(crate) struct PlottedCrew {
    plot: Plot,
    flags: Flags,
}

/// What all threads of a crew left, or why not everything was run.
type CrewRan<'a, N> = Result<
    Ran<N, Global, Doer<'a>, Doer<'a>>,
    RunFault<N, Global, Doer<'a>, Doer<'a>>,
>;

impl PlottedCrew {
    /// Reads what a text says, or the number of its first line that is a mistake.
    pub(crate) fn read(
        alloc: Global,
        table: &ItemTable<'_, Global>,
        text: &[u8],
    ) -> Result<Result<Self, u32>, AllocError> {
        let mut plot = Plot::new(alloc);
        let mut unused = String::new(alloc);
        if let Some(line) = tell_text(&mut plot, table, text, &mut unused)? {
            return Ok(Err(line));
        }
        let flags = Flags::new(alloc, plot.count(), table.len())?;
        Ok(Ok(PlottedCrew { plot, flags }))
    }

    /// Has rescuers, helpers and callers do what the text says.
    fn perform<N: Naming + Send + Sync, R: Threads + Wait + Sync>(
        &self,
        rt: &R,
        alloc: Global,
        runtime: &WqRuntime<N, Global>,
        bed: &Bed<'_>,
    ) -> Result<CrewRan<'_, N>, AllocError>
        requires { N.wiring
            ≡ with_helpers
            (wiring (declared_waits bed.now.declared.now) bed.now.assignment.now) bed.now.helpers }
    {
        let declared = bed.declared;
        let items = declared.table.len();
        let bodies = make_doers(alloc, &self.flags, 0, items, &self.plot.bodies)?;
        let first_caller = bodies.len();
        let callers = make_doers(alloc, &self.flags, first_caller, items, &self.plot.callers)?;
        Ok(run_all(rt, alloc, runtime, bodies, callers))
    }

    /// Has rescuers, helpers and callers do it, closes the runtime, and adds what is
    /// to be printed of it. Returns the status.
    pub(crate) fn run<N: Naming + Send + Sync, R: Threads + Wait + Sync>(
        &self,
        rt: &R,
        alloc: Global,
        runtime: WqRuntime<N, Global>,
        bed: &Bed<'_>,
        account: Account,
        out: &mut String,
    ) -> Result<u8, AllocError>
        requires { N.wiring
            ≡ with_helpers
            (wiring (declared_waits bed.now.declared.now) bed.now.assignment.now) bed.now.helpers }
    {
        let contexts = contexts_of(alloc, &runtime)?;
        let ran = self.perform(rt, alloc, &runtime, bed);
        let status = put_end(out, alloc, bed, runtime, &contexts, ran, account);
        // Written as a call, so that the proof has one step for it.
        drop(contexts);
        status
    }
}
