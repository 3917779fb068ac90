//! Commands with heaps that are too small, at each size up to one that is large enough.
//!
//! The tests take time linear in the number of sizes and cases.

use linked_list_allocator::LocalHeap;
use std::alloc::{AllocError, Global};
use std::process::Abort;
use std::test::Fail;
use test_cases::{Case, Readers, cases, perform};
use wq_commands::{End, Fault, Metered};

/// How a run ended, what it wrote and said, and how many bytes of its heap it left in use.
#[derive(Drop)]
struct HeapRun {
    end: Result<End, Fault>,
    written: Vec<u8>,
    said: Vec<u8>,
    left: usize,
}

/// Runs a case with a heap of this many bytes. What is written and said is of another one.
fn run_in(alloc: Global, size: usize, case: &Case) -> Result<HeapRun, AllocError> {
    let heap = LocalHeap::new(alloc, size)?;
    let mut readers = Readers {
        first: Metered::new(case.text(0)),
        second: Metered::new(case.text(1)),
        third: Metered::new(case.text(2)),
    };
    let mut writer = Metered::new(Vec::new(alloc));
    let mut teller = Metered::new(Vec::new(alloc));
    let end = perform(&heap, case.command, &mut readers, &mut writer, &mut teller);
    Ok(HeapRun {
        end,
        written: writer.into_inner(),
        said: teller.into_inner(),
        left: heap.used(),
    })
}

/// What a run with some heap came to.
#[derive(Clone, Copy, PartialEq, Eq)]
enum Reached {
    /// Memory ran out, and nothing was written or said.
    Nothing,
    /// The answer was written.
    Answer,
    /// The answer was written, and what there was to be said was said.
    Saying,
}

/// What a run came to, if it ended as it may.
fn judged(ran: &HeapRun, case: &Case) -> Option<Reached> {
    let said = ran.said.as_slice();
    let is_answered = ran.end == Ok(case.end) && ran.written.as_slice() == case.answer.as_bytes();
    if ran.end == Err(Fault::Memory) && ran.written.is_empty() && said.is_empty() {
        Some(Reached::Nothing)
    } else if is_answered && said == case.said.as_bytes() {
        Some(Reached::Saying)
    } else if is_answered && said.is_empty() {
        Some(Reached::Answer)
    } else {
        None
    }
}

/// Asserts that a run leaves no memory in use, runs out of memory up to some size of the heap, answers from there on,
/// and says what there is to be said if the heap is large enough.
fn assert_sizes(rt: &impl Abort, alloc: Global, case: &Case) -> Result<(), AllocError> {
    let name = case.name;
    let mut refused = false;
    let mut last = Reached::Nothing;
    for size in (0..32768usize).step_by(16) {
        let ran = run_in(alloc, size, case)?;
        let reached = judged(&ran, case).expect(rt, "a run ends as it may");
        let is_refused = reached == Reached::Nothing;
        assert!(rt; ran.left == 0, "{name}");
        assert!(rt; last == Reached::Nothing || !is_refused, "{name}");
        refused |= is_refused;
        last = reached;
    }
    assert!(rt; refused && last == Reached::Saying, "{name}");
    Ok(())
}

/// Asserts so of each case of a table.
fn assert_all_sizes(rt: &impl Abort, alloc: Global, table: &[Case]) -> Result<(), AllocError> {
    for case in table {
        assert_sizes(rt, alloc, case)?;
    }
    Ok(())
}

#[test]
fn running_out_of_memory_changes_no_answer(rt: HostRuntime) -> Result<(), Fail> {
    for table in cases() {
        assert_all_sizes(&rt, rt.alloc(), table)?;
    }
    Ok(())
}
