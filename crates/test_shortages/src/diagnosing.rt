//! The cases of what is said of texts that are refused. Trying them takes as long as all the runs together.

use crate::trial::{TrialEnd, put_trial};
use std::alloc::{AllocError, Global};
use std::io;
use test_cases::{RefusingHeap, Said, say, sayings};

/// How a case ends with this heap.
fn outcome(heap: &RefusingHeap<Global>, case: &Said) -> TrialEnd {
    match say(heap, case) {
        Ok(Some(said)) if said.as_slice() == case.said.as_bytes() => TrialEnd::Answered,
        Ok(None) if case.said.is_empty() => TrialEnd::Answered,
        Err(AllocError) => TrialEnd::Refused,
        Ok(_) => TrialEnd::Wrong,
    }
}

/// Tries a case. Gives whether all runs ended as they should.
fn put_saying<R: Print + AllocGlobal>(rt: &R, case: &Said) -> io::Result<bool> {
    put_trial(
        rt,
        case.saying.words(),
        case.name,
        &|heap: &RefusingHeap<Global>| { outcome(heap, case) },
    )
}

/// Tries each case. Gives whether all runs ended as they should.
pub(crate) fn put_sayings<R: Print + AllocGlobal>(rt: &R) -> io::Result<bool> {
    let mut is_right = true;
    for case in sayings() {
        is_right &= put_saying(rt, case)?;
    }
    Ok(is_right)
}
