//! One line of a certificate: what it says, or its first fault.
//!
//! The lines are those of "Certificates" and "Run texts" in docs/FORMAT.md. Each function takes time linear in the
//! length of the line, and no memory.

ghost use Rattle.std.specs.Prelude.{◌≡◌, nat_lt, if◌then◌else◌, Ok, Err, ok_or, codes};
ghost use Rattle.wq_cert.specs.declared.fault.CertError.TheVariants.{BadCertLine, NumberOutOfRange};
ghost use Rattle.wq_cert.specs.Forms.{count_form, item_step, lane_step, step_form};
ghost use Rattle.wq_cert.specs.Lines.{bytes_of, cert_line};
ghost use Rattle.wq_cert.specs.Reading.{count_reading, circle_count_reading, arc_reading, step_reading, step_in_range};

use crate::fault::CertError;
use crate::form::{arc_form, count_form, number_of};
use crate::limits::MAX_COUNT;
use std::alloc::Allocator;
use wq_core::Step;
use wq_groups::LaneId;
use wq_items::{ItemId, ItemTable};
use wq_text::{Line, Words};

/// Reads `run M`: any number M.
pub(crate) fn read_any_count(line: &Line<'_>) -> Result<u32, CertError>
    ensures { result ≡ ok_or (count_form (codes "run") (cert_line line.now).words) (BadCertLine line.now.no) }
{
    match count_form(b"run", line.words()) {
        Some(count) => Ok(count),
        None => Err(CertError::BadCertLine { line: line.no() }),
    }
}

/// Reads `KEYWORD N`: N is at most 4,096.
pub(crate) fn read_count(keyword: &[u8], line: &Line<'_>) -> Result<u32, CertError>
    ensures { result ≡ count_reading keyword.now (cert_line line.now) }
{
    let Some(count) = count_form(keyword, line.words()) else {
        return Err(CertError::BadCertLine { line: line.no() });
    };
    if count > MAX_COUNT {
        return Err(CertError::NumberOutOfRange { line: line.no() });
    }
    Ok(count)
}

/// Reads `circle N`: N is from 1 to 4,096.
pub(crate) fn read_circle_count(line: &Line<'_>) -> Result<u32, CertError>
    ensures { result ≡ circle_count_reading (cert_line line.now) }
{
    match read_count(b"circle", line) {
        Ok(0) => Err(CertError::NumberOutOfRange { line: line.no() }),
        other => other,
    }
}

/// Reads `arc NAME TARGET`: the item and the target.
pub(crate) fn read_arc<A: Allocator + Copy>(
    table: &ItemTable<'_, A>,
    line: &Line<'_>,
) -> Result<(ItemId, ItemId), CertError>
    ensures { result ≡ arc_reading table.now.names (cert_line line.now) }
{
    match arc_form(table, line.words()) {
        Some(arc) => Ok(arc),
        None => Err(CertError::BadCertLine { line: line.no() }),
    }
}

/// The step `queue` or `cancel` of an item, by the word on this line.
fn read_item_step(line: u32, word: &[u8], item: ItemId) -> Result<Step, CertError>
    ensures { result ≡ step_in_range line (item_step word.now item) }
{
    if word == b"queue".as_slice() {
        Ok(Step::Queue(item))
    } else if word == b"cancel".as_slice() {
        Ok(Step::Cancel(item))
    } else {
        Err(CertError::BadCertLine { line })
    }
}

/// The workqueue with this number, which must be below 4,096.
fn near_lane(line: u32, lane: u32) -> Result<LaneId, CertError>
    ensures { result ≡ (if nat_lt 4095 lane then Err (NumberOutOfRange line) else Ok lane) }
{
    if lane >= MAX_COUNT {
        return Err(CertError::NumberOutOfRange { line });
    }
    Ok(LaneId::new(lane as u16))
}

/// The step `start`, `wait`, `over`, `waitwq`, `overwq` or `finish` of a workqueue
/// and an item, by the word on this line.
fn read_lane_step(line: u32, word: &[u8], lane: u32, item: ItemId) -> Result<Step, CertError>
    ensures { result ≡ step_in_range line (lane_step word.now lane item) }
{
    if word == b"start".as_slice() {
        Ok(Step::Start(near_lane(line, lane)?, item))
    } else if word == b"wait".as_slice() {
        Ok(Step::Wait(near_lane(line, lane)?, item))
    } else if word == b"over".as_slice() {
        Ok(Step::Over(near_lane(line, lane)?, item))
    } else if word == b"waitwq".as_slice() {
        Ok(Step::WaitAll(near_lane(line, lane)?, item))
    } else if word == b"overwq".as_slice() {
        Ok(Step::OverAll(near_lane(line, lane)?, item))
    } else if word == b"finish".as_slice() {
        Ok(Step::Finish(near_lane(line, lane)?, item))
    } else {
        Err(CertError::BadCertLine { line })
    }
}

/// The step that these words of a line name.
fn read_step_words<A: Allocator + Copy>(
    table: &ItemTable<'_, A>,
    line: u32,
    mut words: Words<'_>,
) -> Result<Step, CertError>
    ensures { result ≡ step_in_range line (step_form table.now.names (bytes_of words.entry)) }
{
    let bad = CertError::BadCertLine { line };
    let Some(word) = words.next() else {
        return Err(bad);
    };
    let Some(second) = words.next() else {
        return Err(bad);
    };
    let Some(third) = words.next() else {
        let Some(item) = table.find(second.bytes()) else {
            return Err(bad);
        };
        return read_item_step(line, word.bytes(), item);
    };
    if words.next().is_some() {
        return Err(bad);
    }
    let Some(lane) = number_of(second.bytes()) else {
        return Err(bad);
    };
    let Some(item) = table.find(third.bytes()) else {
        return Err(bad);
    };
    read_lane_step(line, word.bytes(), lane, item)
}

/// Reads a step of a run.
pub(crate) fn read_step<A: Allocator + Copy>(
    table: &ItemTable<'_, A>,
    line: &Line<'_>,
) -> Result<Step, CertError>
    ensures { result ≡ step_reading table.now.names (cert_line line.now) }
{
    read_step_words(table, line.no(), line.words())
}
