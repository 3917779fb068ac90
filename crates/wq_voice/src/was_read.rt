//! A declaration, and workqueues of its groups that were read from a text.
//!
//! Each call takes constant time.

ghost use Rattle.std.specs.Prelude.{◌≡◌, ℕ, List, Ok};
ghost use Rattle.wq_cert.specs.Texts.{workqueues_of_text};

use std::alloc::Allocator;
use wq_core::{Assigned, Workqueues};
use wq_groups::Declaration;

/// What is declared, with workqueues that were read from the text of an assignment of it.
pub fn assigned_of<'t, 'a, A: Allocator + Copy>(
    declared: &'t Declaration<'a, A>,
    workqueues: &'t Workqueues<A>,
) -> Assigned<'t, 'a, A>
    requires { (text : List ℕ)
        × (workqueues_of_text declared.now.table.names declared.now.partition text ≡ Ok workqueues.now) }
    ensures { result ≡ record { declared = declared.now; workqueues = workqueues.now } }
{
    // What holds of every declaration.
    let _groups = &declared.groups;
    Assigned::new(declared, workqueues)
}
