//! Run texts: the steps of a run, one on each line.
//!
//! The format is that of "Run texts" in docs/FORMAT.md, without steps of helpers. Printing takes time and memory linear
//! in the length of the text.

ghost use Rattle.std.specs.Prelude.{◌≡◌, ◌<◌, ◌++◌, ◌∷◌, [], ◌^◌, ℕ, length, flat_map, decimal, OnOk, IfOk};
ghost use Rattle.std.specs.List.{All};
ghost use Rattle.wq_core.specs.declared.step.Step.{Step};
ghost use Rattle.wq_core.specs.Runs.{HasNoHelp, IsHelp};
ghost use Rattle.wq_text.specs.LineText.{line_text};
ghost use Rattle.wq_cert.specs.PlanText.{name_of};
ghost use Rattle.wq_cert.specs.RunText.{step_item, run_line, step_line, run_lines, run_text};

use std::alloc::{AllocError, Allocator};
use wq_core::Step;
use wq_groups::LaneId;
use wq_items::{ItemId, ItemTable};
use wq_text::{put, put_end, put_number, put_word};

/// Appends `run M`.
fn put_run_line<A: Allocator + Copy>(out: &mut Vec<u8, A>, steps: &[Step]) -> Result<(), AllocError>
    requires { length steps.now < 2 ^ 32 }
    ensures { OnOk result (out.new.items ≡ out.old.items ++ line_text (run_line steps.now)) }
{
    put(out, b"run")?;
    put_number(out, steps.len() as u32)?;
    put_end(out)
}

/// Appends `KEYWORD NAME`.
fn put_item_step<A: Allocator + Copy>(
    out: &mut Vec<u8, A>,
    table: &ItemTable<'_, A>,
    keyword: &[u8],
    item: ItemId,
) -> Result<(), AllocError>
    requires { item < length table.now.names }
    ensures { OnOk result (out.new.items
        ≡ out.old.items ++ line_text (keyword.now ∷ name_of table.now.names item ∷ [])) }
{
    put(out, keyword)?;
    put_word(out, table.name(item))?;
    put_end(out)
}

/// Appends `KEYWORD Q NAME`.
fn put_lane_step<A: Allocator + Copy>(
    out: &mut Vec<u8, A>,
    table: &ItemTable<'_, A>,
    keyword: &[u8],
    lane: LaneId,
    item: ItemId,
) -> Result<(), AllocError>
    requires { item < length table.now.names }
    ensures { OnOk result (out.new.items
        ≡ out.old.items ++ line_text (keyword.now ∷ decimal lane ∷ name_of table.now.names item ∷ [])) }
{
    put(out, keyword)?;
    put_number(out, u32::from(lane.get()))?;
    put_word(out, table.name(item))?;
    put_end(out)
}

/// Appends the line of a step, which mustn't be a helper's.
fn put_step_line<A: Allocator + Copy>(
    out: &mut Vec<u8, A>,
    table: &ItemTable<'_, A>,
    step: Step,
) -> Result<(), AllocError>
    requires item { step_item step < length table.now.names }
    requires no_help { ¬ IsHelp step }
    ensures { OnOk result (out.new.items ≡ out.old.items ++ line_text (step_line table.now.names step)) }
{
    match step {
        Step::Queue(item) => put_item_step(out, table, b"queue", item),
        Step::Cancel(item) => put_item_step(out, table, b"cancel", item),
        Step::Start(lane, item) => put_lane_step(out, table, b"start", lane, item),
        Step::Wait(lane, target) => put_lane_step(out, table, b"wait", lane, target),
        Step::Over(lane, target) => put_lane_step(out, table, b"over", lane, target),
        Step::WaitAll(lane, target) => put_lane_step(out, table, b"waitwq", lane, target),
        Step::OverAll(lane, target) => put_lane_step(out, table, b"overwq", lane, target),
        Step::Finish(lane, item) => put_lane_step(out, table, b"finish", lane, item),
        Step::Help(..) => unreachable!(),
    }
}

/// Appends the lines of a run without helpers.
pub(crate) fn put_run<A: Allocator + Copy>(
    out: &mut Vec<u8, A>,
    table: &ItemTable<'_, A>,
    steps: &[Step],
) -> Result<(), AllocError>
    requires few { length steps.now < 2 ^ 32 }
    requires items { All (λ (step : Step). step_item step < length table.now.names) steps.now }
    requires no_help { HasNoHelp steps.now }
    ensures { OnOk result (out.new.items ≡ out.old.items ++ run_text table.now.names steps.now) }
{
    put_run_line(out, steps)?;
    for step in steps {
        put_step_line(out, table, *step)?;
    }
    Ok(())
}

/// The text of a run: the number of steps, and then the steps.
///
/// There must be fewer than 2^32 steps, of items of the table and none by a helper. The only error is out of memory
/// (20).
pub fn run_text<A: Allocator + Copy>(
    alloc: A,
    table: &ItemTable<'_, A>,
    steps: &[Step],
) -> Result<Vec<u8, A>, AllocError>
    requires few { length steps.now < 2 ^ 32 }
    requires items { All (λ (step : Step). step_item step < length table.now.names) steps.now }
    requires no_help { HasNoHelp steps.now }
    ensures { IfOk result (λ text. text.items ≡ run_text table.now.names steps.now) }
{
    let mut out = Vec::new(alloc);
    put_run(&mut out, table, steps)?;
    Ok(out)
}
