//! What the lock of a new runtime protects.
//!
//! It takes time and memory for the counts of the items or the lanes, whichever are more, 352 bytes for each; for the
//! machine; for the wait graph of the workqueues with its ranks; and 12 bytes for each row.

ghost use Rattle.std.specs.Prelude.{◌≡◌, [], false, length, IfOk, OnOk, IfErr};
ghost use Rattle.wq_groups.specs.Declaration.{declaration_of};
ghost use Rattle.wq_core.specs.Wiring.{wiring, with_helpers};
ghost use Rattle.wq_held.specs.Making.{RefusesRuntime, MakesRuntime};

use crate::fault::NewError;
use crate::held::{Held, slots_of};
use crate::naming::Naming;
use crate::tallies::Tallies;
use std::alloc::Allocator;
use std::sync::ledger::Blank;
use wq_core::{Core, MAX_HELPERS};
use wq_counts::Counts;
use wq_deadlock::is_safe;
use wq_groups::{Assignment, Groups};
use wq_history::{Book, MAX_ROWS};
use wq_items::ItemTable;

/// The most workqueues that a runtime has: 256.
pub const MAX_LANES: u16 = 256;

/// Makes what the lock of a runtime protects, for the runtime of a table, the groups of its items and an assignment,
/// which gives each group a workqueue, with room for `rows` rows and this many helpers for each workqueue that isn't
/// ordered. The blank ledger has 65,536 parts, and its name says what the runtime is made of.
///
/// The error is the first of these that holds: `TooManyLanes` (69), more than 256 workqueues; `TooManyRows` (68), more
/// than 16,777,216; `TooManyHelpers` (74), more than 8; `NotSafe` (67), some run of the assignment ends stuck. Out of
/// memory (20) may come in place of the last, or if none holds.
#[tactic(auto, using(crate::proofs::RefusedMaking::book_refused, crate::proofs::RefusedMaking::some_lanes, crate::proofs::RefusedMaking::safe_with))]
pub fn new_held<N: Naming, A: Allocator + Copy>(
    alloc: A,
    blank: Blank,
    table: &ItemTable<'_, A>,
    groups: &Groups<A>,
    assignment: &Assignment<A>,
    rows: u32,
    helpers: u8,
) -> Result<Held<N, A>, NewError>
    requires name { blank.name ≡ N.name }
    requires parts { blank.parts ≡ N.parts }
    requires all_parts { N.parts ≡ 65536 }
    requires grouped { length groups.now.group_of ≡ length table.now.names }
    requires assigned { length assignment.now.lane_of_group ≡ groups.now.groups }
    requires of_wiring { N.wiring ≡ with_helpers (wiring (declaration_of table.now groups.now) assignment.now) helpers }
    requires of_rows { N.rows ≡ rows }
    ensures made { OnOk result (MakesRuntime N.wiring rows) }
    ensures fresh { IfOk result (λ held. held
        ≡ record { book = record { wiring = N.wiring; rows = []; room = rows; closed = false }; seats = 0 }) }
    ensures refused { IfErr result (RefusesRuntime N.wiring rows) }
{
    if assignment.lanes() > MAX_LANES {
        return Err(NewError::TooManyLanes);
    }
    if rows > MAX_ROWS {
        return Err(NewError::TooManyRows);
    }
    if helpers > MAX_HELPERS {
        return Err(NewError::TooManyHelpers);
    }
    let safe = is_safe(alloc, table, groups, assignment)?;
    if !safe {
        return Err(NewError::NotSafe);
    }
    let core = Core::with_helpers(alloc, table, groups, assignment, helpers)?;
    let Ok(book) = Book::new(alloc, core, rows) else {
        return Err(NewError::OutOfMemory);
    };
    let slots = slots_of(&book);
    let counts = Counts::new(alloc, slots)?;
    let sums = Counts::new(alloc, slots)?;
    let (ledger, rest) = blank.open::<N>();
    Ok(Held {
        book,
        tallies: Tallies { counts, ledger },
        sums,
        seats: 0,
        rest,
    })
}
