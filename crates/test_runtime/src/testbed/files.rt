//! Files. Reading one takes time linear in the number of its bytes.

use crate::testbed::command_line::Setting;
use std::fs;
use std::rt::Files;
use wq_cert::MAX_CERTIFICATE;
use wq_commands::{Fault, MAX_DECLARATION, Metered, read_text};

/// The seed of the hashes of names. No answer depends on it.
pub const SEED: u64 = 0;

/// The bytes of a declaration and of an assignment.
#[derive(Drop)]
pub struct SettingTexts {
    pub declared: Vec<u8>,
    pub assigned: Vec<u8>,
}

/// Reads the bytes of the file at this path, or the first `limit + 1` if it has more than `limit`.
pub fn read_file<R: Files + AllocGlobal>(rt: &R, path: &str, limit: u32) -> Result<Vec<u8>, Fault> {
    let file = fs::open(rt, path).map_err(|_| Fault::Read)?;
    read_text(rt.alloc(), &mut Metered::new(file), limit)
}

/// Reads the texts in the files of a setting.
pub fn read_texts<R: Files + AllocGlobal>(
    rt: &R,
    setting: &Setting<'_>,
) -> Result<SettingTexts, Fault> {
    let declared = read_file(rt, setting.declaration, MAX_DECLARATION)?;
    let assigned = read_file(rt, setting.assignment, MAX_CERTIFICATE)?;
    Ok(SettingTexts { declared, assigned })
}
