//! Loads: callers and bodies in many threads that make pseudo-random calls of one runtime, or rounds that are measured.
//!
//! A load is run, the runtime is closed, and what everybody was answered, what each seat
//! counted and what the runtime handed back is printed. Nothing is judged here:
//! tests/runtime/loads.py judges what is printed of a stress, and bench/runtime.py adds up what
//! is printed of a measurement. What is printed is in tests/FORMATS.md; no contract says so.

mod answering;
mod client;
mod load;
mod printing;
mod random;
mod running;
mod server;
mod tally;

pub use answering::answer;
pub use load::Load;
