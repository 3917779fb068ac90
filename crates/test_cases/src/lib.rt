//! `test_cases`: what several tests share. Cases of all commands, readers and writers that misbehave, and a heap that
//! refuses requests for memory. It is a library of the tests.
//!
//! Each answer was worked out by hand from docs/FORMAT.md. The exception is the largest declaration in examples/: each
//! answer to it is the text that the next command reads. There are many more cases in tests/cli/rows, for the program.
//! What a case does is tested; that the heap is an allocator is proved.
#![tactic(auto)]

mod command;
mod declarations;
mod diagnoses;
mod fakes;
mod largest;
mod refusing_heap;
mod runs;

pub use command::{Case, PlainCommand, Readers, SEED, cases, perform};
pub use declarations::TWO;
pub use diagnoses::{Said, Saying, say, sayings};
pub use fakes::{Endless, Failure, Fake};
pub use largest::{LARGEST, LARGEST_LANES, LARGEST_ON_ONE};
pub use refusing_heap::{Refusing, RefusingHeap};
pub use runs::{RunCase, run_cases};
