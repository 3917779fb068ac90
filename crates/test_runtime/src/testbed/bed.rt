//! A runtime of a declaration and an assignment, with helpers or without, or the refusal to make one.
//!
//! Making one takes the time of judging the assignment, and of making a book.

ghost use Rattle.std.specs.Prelude.{◌≡◌, length};
ghost use Rattle.wq_core.specs.Wiring.{wiring, with_helpers};
ghost use Rattle.wq_groups.specs.DeclaredGroups.{declared_waits};

use std::alloc::{AllocError, Global};
use std::sync::ledger::Blank;
use wq_api::{Naming, NewError, WqRuntime};
use wq_groups::{Assignment, Declaration};

/// What a book or a runtime is made from: items, their groups, a lane for each group, room for this many rows, and how
/// many helpers each lane has that isn't ordered.
#[derive(Drop)]
pub struct Bed<'a> {
    pub declared: &'a Declaration<'a, Global>,
    pub assignment: &'a Assignment<Global>,
    pub rows: u32,
    pub helpers: u8,
    ghost assigned: { length assignment.now.lane_of_group ≡ declared.now.partition.groups },
}

/// Makes the runtime of this name, or says why there is none.
pub fn make<N: Naming>(
    alloc: Global,
    blank: Blank,
    bed: &Bed<'_>,
    out: &mut String,
) -> Result<Option<WqRuntime<N, Global>>, AllocError>
    requires name { blank.name ≡ N.name }
    requires parts { blank.parts ≡ N.parts }
    requires all_parts { N.parts ≡ 65536 }
    requires of_wiring { N.wiring
        ≡ with_helpers
        (wiring (declared_waits bed.now.declared.now) bed.now.assignment.now) bed.now.helpers }
    requires of_rows { N.rows ≡ bed.now.rows }
{
    let declared = bed.declared;
    let Declaration { table, groups } = declared;
    let made = WqRuntime::<N, Global>::with_helpers(
        alloc,
        blank,
        table,
        groups,
        bed.assignment,
        bed.rows,
        bed.helpers,
    );
    match made {
        Ok(runtime) => Ok(Some(runtime)),
        Err(NewError::OutOfMemory) => Err(AllocError),
        Err(error) => {
            writeln!(out, "refused {}", error.code())?;
            Ok(None)
        }
    }
}
