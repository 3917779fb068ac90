//! Tests of the libraries together: what no clause says and no command prints.
//!
//! Here are readers, writers and heaps of the tests' own, calls whose results no answer shows, and
//! a plan that is found in another way. What they rely on: docs/FORMAT.md and docs/DEFINITIONS.md,
//! from which each expected value was worked out by hand. Texts and the answers to them are in
//! tests/cli/rows and tests/runtime/book, for the programs. Each test takes a few seconds at most.
//!
//! Tests are proved as any code is. So they are few, each over a table of cases, and
//! they assert one truth value in place of comparing tuples.
#![tactic(auto)]

#[cfg(test)]
mod books;
#[cfg(test)]
mod choosers;
#[cfg(test)]
mod commands;
#[cfg(test)]
mod declared;
#[cfg(test)]
mod devices;
#[cfg(test)]
mod graphs;
#[cfg(test)]
mod groups;
#[cfg(test)]
mod heaps;
#[cfg(test)]
mod keywords;
#[cfg(test)]
mod machine;
#[cfg(test)]
mod rounds;
#[cfg(test)]
mod rows;
#[cfg(test)]
mod seeds;
#[cfg(test)]
mod shortages;
#[cfg(test)]
mod texts;
#[cfg(test)]
mod words;
