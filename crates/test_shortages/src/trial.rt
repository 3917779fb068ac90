//! What is run with each of its requests for memory refused in turn, and the line that is printed of it.
//!
//! Each request is refused twice: alone, and with all after it. This takes as long as all the runs together.

use std::alloc::Global;
use std::io;
use test_cases::{Refusing, RefusingHeap};

/// How a run ends.
#[derive(Clone, Copy, PartialEq, Eq)]
pub(crate) enum TrialEnd {
    /// As it does with enough memory. If requests were refused, it got along without them.
    Answered,
    /// As it does with enough memory, but nothing is said of the answer.
    Unsaid,
    /// With out of memory, and all is as it was before.
    Refused,
    /// In another way.
    Wrong,
}

/// How the runs ended in which a request was refused.
#[derive(Clone, Copy)]
struct RefusalTally {
    refused: u64,
    unsaid: u64,
    answered: u64,
}

impl RefusalTally {
    /// How many requests there are.
    fn requests(&self) -> u64 {
        let refused = self.refused.saturating_add(self.unsaid);
        refused.saturating_add(self.answered)
    }
}

/// More requests than any run has.
const MOST: u64 = 1_000_000;

/// Runs something with the first request refused, with the second, and so on, until none is. The error is the number of
/// the request with which it ends as it should not.
fn refuse_each<F: Fn(&RefusingHeap<Global>) -> TrialEnd>(
    alloc: Global,
    refusing: Refusing,
    run: &F,
) -> Result<RefusalTally, u64>
    requires { F.IsAlwaysCallable run.now }
{
    let mut tally = RefusalTally {
        refused: 0,
        unsaid: 0,
        answered: 0,
    };
    for nth in 1..=MOST {
        let heap = RefusingHeap::new(alloc, refusing, nth);
        let outcome = run(&heap);
        match (heap.has_refused(), outcome) {
            (true, TrialEnd::Refused) => tally.refused = tally.refused.saturating_add(1),
            (true, TrialEnd::Unsaid) => tally.unsaid = tally.unsaid.saturating_add(1),
            (true, TrialEnd::Answered) => tally.answered = tally.answered.saturating_add(1),
            (false, TrialEnd::Answered) => return Ok(tally),
            _ => return Err(nth),
        }
    }
    Err(MOST)
}

/// Prints a line: how many requests for memory there are; how many of the runs in which one of them was refused ended
/// with out of memory, how many were answered with nothing said, though there was something to say, and how many were
/// answered in full; and the same numbers of the runs in which all later requests were refused, too. If a run doesn't
/// end as it should, its request is printed instead. Gives whether all runs ended as they should.
fn put_tallies<R: Print>(
    rt: &R,
    what: &str,
    name: &str,
    one: Result<RefusalTally, u64>,
    all: Result<RefusalTally, u64>,
) -> io::Result<bool> {
    match (one, all) {
        (Ok(one), Ok(all)) => {
            print!(rt; "{what}, {name}: requests {}", one.requests())?;
            print!(rt;
                " refused {} unsaid {} answered {}",
                one.refused, one.unsaid, one.answered
            )?;
            println!(rt;
                "; from there on refused {} unsaid {} answered {}",
                all.refused, all.unsaid, all.answered
            )?;
            Ok(true)
        }
        (Err(nth), _) => {
            println!(rt; "{what}, {name}: WRONG where request {nth} is refused")?;
            Ok(false)
        }
        (Ok(_), Err(nth)) => {
            println!(rt; "{what}, {name}: WRONG where all from request {nth} on are refused")?;
            Ok(false)
        }
    }
}

/// Runs something with each of its requests for memory refused in turn, alone and with all after it, and prints a line.
/// What it takes of another heap isn't refused. Gives whether all runs ended as they should.
pub(crate) fn put_trial<R: Print + AllocGlobal, F: Fn(&RefusingHeap<Global>) -> TrialEnd>(
    rt: &R,
    what: &str,
    name: &str,
    run: &F,
) -> io::Result<bool>
    requires { F.IsAlwaysCallable run.now }
{
    let one = refuse_each(rt.alloc(), Refusing::One, run);
    let all = refuse_each(rt.alloc(), Refusing::AllFrom, run);
    put_tallies(rt, what, name, one, all)
}
