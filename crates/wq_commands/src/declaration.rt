//! The four passes over a declaration text, one after the other. The pass over the lines and the one over the items are
//! made at once, if neither finds a fault.
//!
//! The passes take time linear in the length of the text, and memory linear in the number of items and flushes.

ghost use Rattle.std.specs.Prelude.{◌≡◌, Ok, Err, None, Result, IfOk, IfErr};
ghost use Rattle.wq_text.specs.Lines.{lines_of};
ghost use Rattle.wq_text.specs.Limits.{limit_fault, text_refusal};
ghost use Rattle.wq_decl.specs.Reading.{first_fault, directives, decl_refusal};
ghost use Rattle.wq_items.specs.Building.{table_of};
ghost use Rattle.wq_items.specs.FirstFault.{RanOut};
ghost use Rattle.wq_groups.specs.OutOfMemory.{RanOutReading};
ghost use Rattle.wq_commands.specs.Declaration.{declaration, by_table, unless_refused, max_declaration};
ghost use Rattle.wq_commands.specs.Declaration.{max_declaration_line};
ghost use Rattle.wq_commands.specs.Stop.{StopsAt, item_stop, group_stop};
ghost use Rattle.wq_commands.specs.declared.declaration.Stop.TheVariants.{Refused, OutOfMemory};

use std::alloc::Allocator;
use wq_decl::{DeclError, DeclView};
use wq_groups::{Declaration, GroupError, Groups};
use wq_items::{ItemError, ItemId, ItemTable, read_at_once};
use wq_text::{Text, TextError};

/// How many bytes a declaration may have: 1 MiB.
pub const MAX_DECLARATION: u32 = 1_048_576;

/// How many bytes a line of it may have, without its line feed and a carriage return before that: 4 KiB.
pub const MAX_DECLARATION_LINE: u32 = 4096;

/// Why a text declares nothing.
#[derive(Clone, Copy, Debug, PartialEq, Eq)]
pub enum Stop {
    /// The text is refused for the fault of this number on this line. The line is 0 if no line is meant.
    Refused { code: u32, line: u32 },
    /// Memory ran out.
    OutOfMemory,
}

impl From<TextError> for Stop {
    ghost from_gives = { λ e s. s ≡ Refused (text_refusal e).code (text_refusal e).line };

    fn from(e: TextError) -> Stop {
        Stop::Refused {
            code: e.code(),
            line: e.line(),
        }
    }
}

impl From<DeclError> for Stop {
    ghost from_gives = { λ e s. s ≡ Refused (decl_refusal e).code (decl_refusal e).line };

    fn from(e: DeclError) -> Stop {
        Stop::Refused {
            code: e.code(),
            line: e.line(),
        }
    }
}

impl From<ItemError> for Stop {
    ghost from_gives = { λ e s. s ≡ item_stop e };

    fn from(e: ItemError) -> Stop {
        match e {
            ItemError::OutOfMemory => Stop::OutOfMemory,
            fault => Stop::Refused {
                code: fault.code(),
                line: fault.line(),
            },
        }
    }
}

impl From<GroupError> for Stop {
    ghost from_gives = { λ e s. s ≡ group_stop e };

    fn from(e: GroupError) -> Stop {
        match e {
            GroupError::OutOfMemory => Stop::OutOfMemory,
            fault => Stop::Refused {
                code: fault.code(),
                line: fault.line(),
            },
        }
    }
}

/// The directives of a text and the table that they declare, or the first fault of
/// the passes over the lines and the items.
///
/// A text without a fault is read in one pass. For any other, the two passes, one
/// after the other, tell which fault it has.
#[tactic(auto, using(crate::proofs::StopLemmas::ran_out_of_items))]
fn read_table<A: Allocator + Copy>(
    alloc: A,
    seed: u64,
    text: Text<'_>,
) -> Result<(DeclView<'_>, ItemTable<'_, A>, Vec<ItemId, A>), Stop>
    ensures view { IfOk result (λ r. r.0 ≡ directives (lines_of text.entry)) }
    ensures faultless { IfOk result (λ _. first_fault (lines_of text.entry) ≡ None) }
    ensures table { IfOk result (λ r. table_of (directives (lines_of text.entry)) ≡ Ok r.1) }
    ensures stop { IfErr result (λ s. StopsAt s (unless_refused decl_refusal (first_fault (lines_of text.entry))
        (by_table (directives (lines_of text.entry)) (table_of (directives (lines_of text.entry)))))) }
    ensures first_pass { IfErr result (λ s. s ≡ OutOfMemory → first_fault (lines_of text.entry) ≡ None) }
    ensures memory { IfErr result (λ s. s ≡ OutOfMemory → RanOut (directives (lines_of text.entry))) }
{
    if let Some(read) = read_at_once(alloc, seed, &text) {
        return Ok(read);
    }
    let view = DeclView::new(text)?;
    let table = ItemTable::read_seeded(alloc, seed, &view)?;
    Ok((view, table, Vec::new(alloc)))
}

/// Reads what a text declares. The names are hashed with this seed; no answer depends on it.
///
/// The error is the first fault of the first pass that has one, or `OutOfMemory`, if a growth was refused before it:
/// then no earlier pass has a fault.
#[tactic(auto, using(crate::proofs::StopLemmas::ran_out_of_groups))]
pub fn read_declaration<A: Allocator + Copy>(
    alloc: A,
    seed: u64,
    text: &[u8],
) -> Result<Declaration<'_, A>, Stop>
    ensures declaration { IfOk result (λ d. declaration text.now ≡ Ok d) }
    ensures stop { IfErr result (λ s. StopsAt s (declaration text.now)) }
    // The first two passes take no memory.
    ensures first_passes { result ≡ Err OutOfMemory → (limit_fault max_declaration max_declaration_line text.now ≡ None)
        × (first_fault (lines_of text.now) ≡ None) }
    ensures memory { result ≡ Err OutOfMemory → RanOutReading (directives (lines_of text.now)) }
{
    let text = Text::new(text, MAX_DECLARATION, MAX_DECLARATION_LINE)?;
    let (view, table, guesses) = read_table(alloc, seed, text)?;
    let groups = Groups::read_guessed(alloc, &view, &table, guesses.as_slice())?;
    Ok(Declaration::new(table, groups))
}
