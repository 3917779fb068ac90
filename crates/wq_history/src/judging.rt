//! Judging a history, row by row, from nothing but its bytes and a machine on which nothing has happened.
//!
//! A row may follow those before it by the rules of "History" in the specs of this crate. Each row takes the time of
//! the step that it records; the row of an ask about a lane takes constant time. Memory is taken before any row: two
//! counts for each item or each lane, whichever are more.

ghost use Rattle.std.specs.Prelude.{◌≡◌, ◌<◌, ◌≤◌, ◌*◌, ◌↔◌, List, length, IfOk, IfErr, IfSome, IsTrue};
ghost use Rattle.wq_core.specs.Rules.{Lawful, deed_item};
ghost use Rattle.wq_core.specs.Wiring.{items, lane_of};
ghost use Rattle.wq_core.specs.declared.step.Step.TheVariants.{WaitAll, Help};
ghost use Rattle.wq_core.specs.State.{empty_state};
ghost use Rattle.wq_rows.specs.declared.event.Row.{Row as RowValue};
ghost use Rattle.wq_rows.specs.Stored.{max_rows};
ghost use Rattle.wq_history.specs.History.{Makes, SaysBusy, Says, MayComeIn};
ghost use Rattle.wq_history.specs.Events.{step_of as step_of_event};
ghost use Rattle.wq_history.specs.Judging.{IsJudged, IsFaultAt, stepped};

use crate::ask_counts::AskCounts;
use crate::asking::Subject;
use crate::row_error::{RowError, RowFault};
use crate::waits::{is_busy, is_item, is_lane};
use std::alloc::Allocator;
use wq_core::{Context, Core, HelpStep, Step};
use wq_groups::LaneId;
use wq_items::ItemId;
use wq_rows::{Event, ROW_LEN, Row, unpack};

/// Whether a step is lawful and gives this number.
#[inline(always)]
fn makes<A: Allocator>(core: &Core<A>, step: &Step, number: u32) -> bool
    requires { core.now.state.next < 4294967295 }
    ensures { IsTrue result ↔ Makes core.now.wiring core.now.state step.now number }
{
    let _items = core.items();
    core.peek(step) == Some(number)
}

/// Whether this is the answer of a deed.
fn says<A: Allocator>(core: &Core<A>, deed: &HelpStep, yes: bool) -> bool
    requires { deed_item deed.now < items core.now.wiring }
    ensures { IsTrue result ↔ Says core.now.wiring core.now.state deed.now yes }
{
    match *deed {
        HelpStep::Wait(target) => core.has_unfinished(target) == yes,
        HelpStep::WaitAll(target) => is_busy(core, core.lane_of(target)) == yes,
        HelpStep::Start(_) | HelpStep::Over(_) | HelpStep::OverAll(_) | HelpStep::Finish(_) => yes,
    }
}

/// Whether a wait for the whole lane of an item may come next, with this answer and this number.
fn may_wait_all<A: Allocator>(
    core: &Core<A>,
    q: LaneId,
    target: ItemId,
    yes: bool,
    number: u32,
) -> bool
    requires { core.now.state.next < 4294967295 }
    ensures { IsTrue result ↔ (SaysBusy core.now.state (lane_of core.now.wiring target) yes
        × Makes core.now.wiring core.now.state (WaitAll q target) number) }
{
    if usize::from(target.get()) >= core.items() {
        return false;
    }
    let busy = is_busy(core, core.lane_of(target));
    busy == yes && makes(core, &Step::WaitAll(q, target), number)
}

/// Whether a step of a helper may come next, with this answer and this number.
fn may_help<A: Allocator>(
    core: &Core<A>,
    helper: Context,
    deed: &HelpStep,
    yes: bool,
    number: u32,
) -> bool
    requires { core.now.state.next < 4294967295 }
    ensures { IsTrue result ↔ (Says core.now.wiring core.now.state deed.now yes
        × Makes core.now.wiring core.now.state (Help helper.lane helper.number deed.now) number) }
{
    if usize::from(deed.item().get()) >= core.items() {
        return false;
    }
    says(core, deed, yes) && makes(core, &Step::Help(helper.lane, helper.number, *deed), number)
}

/// Whether a row may come next, if this many asks about its item or its lane are waiting.
fn may_come<A: Allocator>(core: &Core<A>, waiting: u32, row: &Row) -> bool
    requires { core.now.state.next < 4294967295 }
    ensures { IsTrue result
        ↔ MayComeIn core.now.wiring core.now.state waiting row.now.event row.now.yes row.now.number }
{
    let yes = row.yes;
    let number = row.number;
    match row.event {
        Event::Queue(item) => {
            if yes {
                makes(core, &Step::Queue(item), number)
            } else {
                is_item(core, item) && core.is_pending(item) && number == 0
            }
        }
        Event::Cancel(item) => {
            if yes {
                is_item(core, item) && makes(core, &Step::Cancel(item), number)
            } else {
                is_item(core, item) && !core.is_pending(item) && number == 0
            }
        }
        Event::Start(q, item) => yes && makes(core, &Step::Start(q, item), number),
        Event::Wait(q, target) => {
            core.has_unfinished(target) == yes && makes(core, &Step::Wait(q, target), number)
        }
        Event::Over(q, target) => yes && makes(core, &Step::Over(q, target), number),
        Event::Finish(q, item) => yes && makes(core, &Step::Finish(q, item), number),
        Event::Ask(item) => {
            is_item(core, item) && core.has_unfinished(item) == yes && number == core.next_number()
        }
        Event::Told(item) => yes && waiting > 0 && !core.unfinished_below(item, number),
        Event::WaitAll(q, target) => may_wait_all(core, q, target, yes, number),
        Event::OverAll(q, target) => yes && makes(core, &Step::OverAll(q, target), number),
        Event::AskLane(q) => {
            is_lane(core, q) && is_busy(core, q) == yes && number == core.next_number()
        }
        Event::ToldLane(q) => yes && waiting > 0 && !core.lane_unfinished_below(q, number),
        Event::Help(lane, h, deed) => {
            may_help(core, Context { lane, number: h }, &deed, yes, number)
        }
    }
}

/// The step that an event with this `yes` makes, if it makes one.
fn step_of(event: &Event, yes: bool) -> Option<Step>
    ensures { result ≡ step_of_event event.now yes }
{
    match *event {
        Event::Queue(item) if yes => Some(Step::Queue(item)),
        Event::Cancel(item) if yes => Some(Step::Cancel(item)),
        Event::Start(q, item) => Some(Step::Start(q, item)),
        Event::Wait(q, target) => Some(Step::Wait(q, target)),
        Event::Over(q, target) => Some(Step::Over(q, target)),
        Event::Finish(q, item) => Some(Step::Finish(q, item)),
        Event::WaitAll(q, target) => Some(Step::WaitAll(q, target)),
        Event::OverAll(q, target) => Some(Step::OverAll(q, target)),
        Event::Help(q, helper, deed) => Some(Step::Help(q, helper, deed)),
        _ => None,
    }
}

/// Makes a step, if there is one.
fn make<A: Allocator>(core: &mut Core<A>, step: Option<Step>)
    requires lawful { IfSome step (λ s. Lawful core.old.wiring core.old.state s) }
    requires numbers { core.old.state.next < 4294967295 }
    ensures { core.new ≡ stepped core.old step }
{
    if let Some(step) = step {
        let made = core.step(step);
        prove!(made.is_ok());
    }
}

/// Judges the rows that bytes hold, on a machine on which nothing has happened. If they are a legal history, it
/// gives how many rows there are, and the machine is then their replay.
///
/// The error has the place of the lowest row at fault, from 1, and the cause: `BadRow` (75), if the bytes there are
/// fewer than 12 or hold no row, or `NotLegal` (76), if the row may not follow those before it. The machine is then
/// the replay of the rows before it. Or the error is `OutOfMemory` (20) at 0, which comes before any row and can't
/// occur if there are no items and no lanes.
pub fn check_rows<A: Allocator + Copy>(
    alloc: A,
    core: &mut Core<A>,
    packed: &[u8],
) -> Result<u32, RowError>
    requires new { core.old.state ≡ empty_state core.old.wiring }
    requires few { length packed.now ≤ 12 * max_rows }
    ensures legal { IfOk result (λ n. (rows : List RowValue)
        × IsJudged core.old packed.now rows core.new
        × (n ≡ length rows)) }
    ensures refused { IfErr result (λ e. IsFaultAt core.old packed.now e.at core.new e.why) }
{
    let Ok(mut asks) = AskCounts::new(alloc, core.items(), core.lanes()) else {
        return Err(RowError {
            at: 0,
            why: RowFault::OutOfMemory,
        });
    };
    let mut left = packed;
    let mut rows = 0;
    while let Some((bytes, after)) = left.split_at_checked(ROW_LEN) {
        let at = rows + 1;
        let Some(row) = unpack(bytes) else {
            return Err(RowError {
                at,
                why: RowFault::BadRow,
            });
        };
        let subject = Subject::of(&row.event);
        let waiting = asks.of(subject);
        if !may_come(core, waiting, &row) {
            return Err(RowError {
                at,
                why: RowFault::NotLegal,
            });
        }
        make(core, step_of(&row.event, row.yes));
        asks.count(&row.event, row.yes);
        left = after;
        rows = at;
    }
    if left.is_empty() {
        return Ok(rows);
    }
    Err(RowError {
        at: rows + 1,
        why: RowFault::BadRow,
    })
}
