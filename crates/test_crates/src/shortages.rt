//! Machines and books with each request for memory refused in turn, alone and with all after it: they are refused while
//! they are made, or go on as with enough memory. Once they are made, no call takes memory.
//!
//! Each answer was worked out by hand from "Steps" in docs/FORMAT.md and "Books" in docs/RUNTIME.md. The tests take the
//! time of making all of them as often as they have requests.

ghost use Rattle.std.specs.Prelude.{◌≡◌};
ghost use Rattle.wq_core.specs.State.{empty_state};

use crate::books::{HISTORY, PAIR, PAIR_LANES, make_each_call};
use crate::declared::{core_in, helped_core_in};
use crate::machine::Made::{Over, Queue, Start, Wait};
use crate::machine::{FREE, Made, help, step_of};
use linked_list_allocator::LocalHeap;
use std::alloc::{AllocError, Allocator};
use std::process::Abort;
use std::test::Fail;
use test_cases::{Refusing, RefusingHeap};
use wq_core::{Core, StepError};
use wq_history::{Book, BookError, RowError, RowFault, check_rows};

/// More requests than there are.
const MOST: u64 = 1000;

/// A heap of a fixed size that refuses requests.
type Heap<'h> = RefusingHeap<&'h LocalHeap>;

/// Two items that flush two others. Each is on the lane of the other's target.
const CROSSED: &str = "item a\nitem b\nitem c\nitem d\nflush a b\nflush c d\n";

/// A run of these items that ends stuck.
const STUCK: &[Made] = &[
    Queue(0),
    Queue(2),
    Queue(1),
    Queue(3),
    Start(0, 0),
    Wait(0, 1),
    Start(1, 2),
    Wait(1, 3),
];

/// Runs the machine of two lanes until no lane can move, and asserts that this takes no memory.
fn get_stuck(rt: &impl Abort, heap: &Heap, core: &mut Core<&Heap>) {
    let refused = heap.has_refused();
    for made in STUCK {
        assert!(rt; core.step(step_of(*made)).is_ok());
    }
    assert!(rt; core.step(step_of(Over(0, 1))) == Err(StepError::NotLawful));
    assert!(rt; core.work_left() == 8 && core.enabled().is_none());
    assert!(rt; heap.has_refused() == refused);
}

/// Makes this machine, and has it run. Says whether it was made.
fn runs_until_stuck(rt: &impl Abort, ample: &Heap, heap: &Heap) -> Result<bool, Fail> {
    match core_in(ample, heap, CROSSED, 2, &[0, 1, 1, 0])? {
        Ok(mut core) => {
            get_stuck(rt, heap, &mut core);
            Ok(true)
        }
        Err(AllocError) => Ok(false),
    }
}

/// Makes a machine with a helper, and has it help, which takes no memory. Says whether it was made.
fn helps(rt: &impl Abort, ample: &Heap, heap: &Heap) -> Result<bool, Fail> {
    match helped_core_in(ample, heap, FREE, 1, &[0, 0, 0], 1)? {
        Ok(mut core) => {
            let refused = heap.has_refused();
            help(rt, &mut core);
            assert!(rt; heap.has_refused() == refused);
            Ok(true)
        }
        Err(AllocError) => Ok(false),
    }
}

/// Makes each call of a book, and asserts that this takes no memory.
fn keep_book(rt: &impl Abort, heap: &Heap, book: &mut Book<&Heap>) {
    let refused = heap.has_refused();
    make_each_call(rt, book);
    assert!(rt; heap.has_refused() == refused);
}

/// Makes a book, and each call of it. Says whether it was made.
fn keeps_book(rt: &impl Abort, ample: &Heap, heap: &Heap) -> Result<bool, Fail> {
    let Ok(core) = core_in(ample, heap, PAIR, 2, PAIR_LANES)? else {
        return Ok(false);
    };
    match Book::new(heap, core, 9) {
        Ok(mut book) => {
            keep_book(rt, heap, &mut book);
            Ok(true)
        }
        Err(BookError::OutOfMemory) => Ok(false),
        Err(_) => Err(Fail::from("another refusal")),
    }
}

/// Judges the rows of such a book on a machine on which nothing has happened. Says whether they were judged; if not,
/// the machine hasn't changed.
fn judges_on<A: Allocator + Copy>(rt: &impl Abort, heap: A, core: &mut Core<A>) -> bool
    requires { core.old.state ≡ empty_state core.old.wiring }
{
    let judged = check_rows(heap, core, HISTORY);
    let refused = RowError {
        at: 0,
        why: RowFault::OutOfMemory,
    };
    assert!(rt; judged == Ok(9) || (judged == Err(refused) && core.next_number() == 0));
    judged.is_ok()
}

/// Makes a machine, and judges the rows on it. Says whether they were judged.
fn judges(rt: &impl Abort, ample: &Heap, heap: &Heap) -> Result<bool, Fail> {
    match core_in(ample, heap, PAIR, 2, PAIR_LANES)? {
        Ok(mut core) => Ok(judges_on(rt, heap, &mut core)),
        Err(AllocError) => Ok(false),
    }
}

/// Does all this with one request for memory refused, or that one and all after it, and asserts that nothing stays in
/// use. Says whether there were that many requests.
fn is_refused(
    rt: &impl Abort,
    local: &LocalHeap,
    refusing: Refusing,
    nth: u64,
) -> Result<bool, Fail> {
    let ample = RefusingHeap::ample(local);
    let heap = RefusingHeap::new(local, refusing, nth);
    let made = runs_until_stuck(rt, &ample, &heap)?
        && helps(rt, &ample, &heap)?
        && keeps_book(rt, &ample, &heap)?
        && judges(rt, &ample, &heap)?;
    assert!(rt;
        (made || heap.has_refused()) && local.used() == 0,
        "request {nth}"
    );
    Ok(heap.has_refused())
}

#[test]
fn machines_and_books_take_memory_only_when_they_are_made(rt: HostRuntime) -> Result<(), Fail> {
    let local = LocalHeap::new(rt.alloc(), 65536)?;
    for refusing in [Refusing::One, Refusing::AllFrom] {
        let mut refused = true;
        for nth in 1..MOST {
            refused = refused && is_refused(&rt, &local, refusing, nth)?;
        }
        assert!(rt; !refused && is_refused(&rt, &local, refusing, 1)?);
    }
    Ok(())
}
