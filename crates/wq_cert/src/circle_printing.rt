//! Circle texts: the flushes along which groups wait in a circle, and a run that shows how they come to wait.
//!
//! The format is that of "Circle texts" in docs/FORMAT.md. Printing takes time and memory linear in the length of the
//! text.

ghost use Rattle.std.specs.Prelude.{◌≡◌, ◌<◌, ◌++◌, ◌^◌, ℕ, length, OnOk, IfOk, IfSome, option_copied};
ghost use Rattle.std.specs.List.{All};
ghost use Rattle.wq_core.specs.declared.step.Step.{Step};
ghost use Rattle.wq_core.specs.Runs.{HasNoHelp};
ghost use Rattle.wq_text.specs.LineText.{line_text};
ghost use Rattle.wq_cert.specs.CircleText.{circle_line, circle_text};
ghost use Rattle.wq_cert.specs.RunText.{step_item};

use crate::arc_printing::put_arc_line;
use crate::run_printing::put_run;
use std::alloc::{AllocError, Allocator};
use wq_core::Step;
use wq_items::{ItemId, ItemTable};
use wq_text::{put, put_end, put_number};

/// Appends `circle N`.
fn put_circle_line<A: Allocator + Copy>(
    out: &mut Vec<u8, A>,
    arcs: &[(ItemId, ItemId)],
) -> Result<(), AllocError>
    requires { length arcs.now < 2 ^ 32 }
    ensures { OnOk result (out.new.items ≡ out.old.items ++ line_text (circle_line arcs.now)) }
{
    put(out, b"circle")?;
    put_number(out, arcs.len() as u32)?;
    put_end(out)
}

/// Appends `circle N` and the arcs.
fn put_circle<A: Allocator + Copy>(
    out: &mut Vec<u8, A>,
    table: &ItemTable<'_, A>,
    arcs: &[(ItemId, ItemId)],
) -> Result<(), AllocError>
    requires few { length arcs.now < 2 ^ 32 }
    requires items { All (λ (arc : ℕ × ℕ). (arc.0 < length table.now.names)
        × (arc.1 < length table.now.names)) arcs.now }
    ensures { OnOk result (out.new.items ≡ out.old.items ++ circle_text table.now.names arcs.now None) }
{
    put_circle_line(out, arcs)?;
    for arc in arcs {
        put_arc_line(out, table, *arc)?;
    }
    Ok(())
}

/// The text of a circle: the number of its arcs, then the arcs, each as an item and its target, and then the text of a
/// run, if there is one.
///
/// There must be fewer than 2^32 arcs, between items of the table, and fewer than 2^32 steps, of items of the table and
/// none by a helper. The only error is out of memory (20).
pub fn circle_text<A: Allocator + Copy>(
    alloc: A,
    table: &ItemTable<'_, A>,
    arcs: &[(ItemId, ItemId)],
    steps: Option<&[Step]>,
) -> Result<Vec<u8, A>, AllocError>
    requires few { length arcs.now < 2 ^ 32 }
    requires items { All (λ (arc : ℕ × ℕ). (arc.0 < length table.now.names)
        × (arc.1 < length table.now.names)) arcs.now }
    requires few_steps { IfSome steps (λ run. length run.now < 2 ^ 32) }
    requires step_items { IfSome steps (λ run. All (λ (step : Step). step_item step < length table.now.names) run.now) }
    requires no_help { IfSome steps (λ run. HasNoHelp run.now) }
    ensures { IfOk result (λ text. text.items ≡ circle_text table.now.names arcs.now (option_copied steps.entry)) }
{
    let mut out = Vec::new(alloc);
    put_circle(&mut out, table, arcs)?;
    if let Some(steps) = steps {
        put_run(&mut out, table, steps)?;
    }
    Ok(out)
}
