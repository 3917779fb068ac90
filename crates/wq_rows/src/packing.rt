//! Packing: a row as 12 bytes, and back.
//!
//! | Bytes | What they hold |
//! |---|---|
//! | 0 | the kind, 1 to 12: Queue, Cancel, Start, Wait, Over, Finish, Ask, Told, WaitAll, OverAll, AskLane, ToldLane |
//! | 1 | 1 if the answer is yes, else 0; Start, Over, OverAll, Finish, Told and ToldLane always have yes |
//! | 2, 3 | the item, or the target of Wait, Over, WaitAll and OverAll; 0 for AskLane and ToldLane |
//! | 4, 5 | the lane; 0 for Queue, Cancel, Ask and Told |
//! | 6 | the helper that made the step, 1 to 8, for kinds 3 to 6, 9 and 10; 0 if none did |
//! | 7 | 0 |
//! | 8 to 11 | the number of the row |
//!
//! Numbers are little-endian. For example, a wait on lane 1 for item 1 that was answered by no, with the mark 1, is
//! 040001000100000001000000 in hexadecimal; with the digits 02 for the seventh byte it is the wait of helper 2. Each
//! row has one packing, and each run of 12 bytes holds at most one row. Both calls take constant time.

ghost use Rattle.std.specs.Prelude.{◌≡◌, ◌<◌, ◌^◌, ℕ, IfSome, IfNone, Some, None, Bool};
ghost use Rattle.wq_core.specs.declared.step.HelpStep.{HelpStep as HelpStepValue};
ghost use Rattle.wq_core.specs.Rules.{deed_item};
ghost use Rattle.wq_rows.specs.declared.event.Event.{Event as EventValue};
ghost use Rattle.wq_rows.specs.declared.event.Row.{Row as RowValue};
ghost use Rattle.wq_rows.specs.Packing.{help_kind, kind_of, item_in, lane_in, helper_in, answer_byte, packed};
ghost use Rattle.wq_rows.specs.Packing.{HelpMayAnswer, MayAnswer, IsPackable, IsRowInRange, IsPackedRow};

use crate::event::{Event, Row};
use wq_core::{HelpStep, MAX_HELPERS};
use wq_groups::LaneId;
use wq_items::ItemId;

/// How many bytes hold a row.
pub const ROW_LEN: usize = 12;

/// The 12 bytes that hold a row.
#[inline(always)]
pub fn pack(row: &Row) -> [u8; ROW_LEN]
    requires packable { IsPackable row.now }
    ensures bytes { result ≡ packed row.now }
    ensures in_range { IsRowInRange row.now }
{
    let item = row.event.item().get().to_le_bytes();
    let lane = row.event.lane().to_le_bytes();
    let number = row.number.to_le_bytes();
    [
        row.event.kind(),
        u8::from(row.yes),
        item[0],
        item[1],
        lane[0],
        lane[1],
        row.event.helper(),
        0,
        number[0],
        number[1],
        number[2],
        number[3],
    ]
}

/// The answer that a byte stands for.
fn answer_of(byte: u8) -> Option<bool>
    ensures some { IfSome result (λ said. answer_byte said ≡ byte) }
    ensures none { IfNone result ((said : Bool) → ¬ (answer_byte said ≡ byte)) }
{
    match byte {
        0 => Some(false),
        1 => Some(true),
        _ => None,
    }
}

/// The step of a helper with this kind and item, if it may have this answer.
fn help_step_of(kind: u8, item: ItemId, yes: bool) -> Option<HelpStep>
    ensures kind { IfSome result (λ step. help_kind step ≡ kind) }
    ensures item { IfSome result (λ step. deed_item step ≡ item) }
    ensures answer { IfSome result (λ step. HelpMayAnswer step yes) }
    ensures none { IfNone result ((step : HelpStepValue) → help_kind step ≡ kind → deed_item step ≡ item
        → ¬ HelpMayAnswer step yes) }
{
    match kind {
        3 if yes => Some(HelpStep::Start(item)),
        4 => Some(HelpStep::Wait(item)),
        5 if yes => Some(HelpStep::Over(item)),
        6 if yes => Some(HelpStep::Finish(item)),
        9 => Some(HelpStep::WaitAll(item)),
        10 if yes => Some(HelpStep::OverAll(item)),
        _ => None,
    }
}

/// The event of a helper with this number, by its kind, its item and the number of its lane, if it may have this
/// answer.
fn help_of(kind: u8, item: ItemId, lane: u16, helper: u8, yes: bool) -> Option<Event>
    requires { 0 < helper }
    ensures kind { IfSome result (λ event. kind_of event ≡ kind) }
    ensures item { IfSome result (λ event. item_in event ≡ item) }
    ensures lane { IfSome result (λ event. lane_in event ≡ lane) }
    ensures helper { IfSome result (λ event. helper_in event ≡ helper) }
    ensures answer { IfSome result (λ event. MayAnswer event yes) }
    ensures none { IfNone result ((event : EventValue) → kind_of event ≡ kind → item_in event ≡ item
        → lane_in event ≡ lane
        → helper_in event ≡ helper → ¬ MayAnswer event yes) }
{
    if helper > MAX_HELPERS {
        return None;
    }
    let step = help_step_of(kind, item, yes)?;
    Some(Event::Help(LaneId::new(lane), helper, step))
}

/// The event with a kind, an item and the number of a lane, not made by a helper, if it may have this answer. An event
/// without an item has item 0, and one without a lane has lane 0.
fn event_of(kind: u8, item: ItemId, lane: u16, yes: bool) -> Option<Event>
    ensures kind { IfSome result (λ event. kind_of event ≡ kind) }
    ensures item { IfSome result (λ event. item_in event ≡ item) }
    ensures lane { IfSome result (λ event. lane_in event ≡ lane) }
    ensures helper { IfSome result (λ event. helper_in event ≡ 0) }
    ensures answer { IfSome result (λ event. MayAnswer event yes) }
    ensures none { IfNone result ((event : EventValue) → kind_of event ≡ kind → item_in event ≡ item
        → lane_in event ≡ lane
        → helper_in event ≡ 0 → ¬ MayAnswer event yes) }
{
    let on = LaneId::new(lane);
    let no_item = item.get() == 0;
    match kind {
        1 if lane == 0 => Some(Event::Queue(item)),
        2 if lane == 0 => Some(Event::Cancel(item)),
        3 if yes => Some(Event::Start(on, item)),
        4 => Some(Event::Wait(on, item)),
        5 if yes => Some(Event::Over(on, item)),
        6 if yes => Some(Event::Finish(on, item)),
        7 if lane == 0 => Some(Event::Ask(item)),
        8 if lane == 0 && yes => Some(Event::Told(item)),
        9 => Some(Event::WaitAll(on, item)),
        10 if yes => Some(Event::OverAll(on, item)),
        11 if no_item => Some(Event::AskLane(on)),
        12 if no_item && yes => Some(Event::ToldLane(on)),
        _ => None,
    }
}

/// The event with a kind, an item, the number of a lane and that of a helper (0 for none), if it may have this answer.
fn event_by(kind: u8, item: ItemId, lane: u16, helper: u8, yes: bool) -> Option<Event>
    ensures kind { IfSome result (λ event. kind_of event ≡ kind) }
    ensures item { IfSome result (λ event. item_in event ≡ item) }
    ensures lane { IfSome result (λ event. lane_in event ≡ lane) }
    ensures helper { IfSome result (λ event. helper_in event ≡ helper) }
    ensures answer { IfSome result (λ event. MayAnswer event yes) }
    ensures none { IfNone result ((event : EventValue) → kind_of event ≡ kind → item_in event ≡ item
        → lane_in event ≡ lane
        → helper_in event ≡ helper → ¬ MayAnswer event yes) }
{
    if helper == 0 {
        event_of(kind, item, lane, yes)
    } else {
        help_of(kind, item, lane, helper, yes)
    }
}

/// Unpacks the row that these bytes hold; `None` exactly if they hold no row.
pub fn unpack(bytes: &[u8]) -> Option<Row>
    ensures some { IfSome result (λ row. IsPackedRow bytes.now row) }
    ensures none { IfNone result ((row : RowValue) → ¬ IsPackedRow bytes.now row) }
{
    if bytes.len() != ROW_LEN || bytes[7] != 0 {
        return None;
    }
    let yes = answer_of(bytes[1])?;
    let item = ItemId::new(u16::from_le_bytes([bytes[2], bytes[3]]));
    let lane = u16::from_le_bytes([bytes[4], bytes[5]]);
    let number = u32::from_le_bytes([bytes[8], bytes[9], bytes[10], bytes[11]]);
    let event = event_by(bytes[0], item, lane, bytes[6], yes)?;
    Some(Row { event, yes, number })
}
