//! Numbers and words of errors that no command prints: of steps, and of memory that runs out.
//!
//! A call takes constant time.

use std::process::Abort;
use std::test::Fail;
use wq_commands::{Fault, Stop};
use wq_core::{RunError, StepError};
use wq_groups::GroupError;
use wq_items::ItemError;

#[test]
fn errors_have_their_numbers_and_words(rt: HostRuntime) -> Result<(), Fail> {
    for (why, code, words) in [
        (StepError::NotLawful, 30, "step 7: the step isn't lawful"),
        (
            StepError::NumbersUsedUp,
            31,
            "step 7: the numbers are used up",
        ),
    ] {
        let error = RunError { at: 7, why };
        assert!(rt; why.code() == code);
        assert!(rt; format!(in rt.alloc(); "{error}")?.as_str() == words);
    }
    let fault = Fault::Memory;
    assert!(rt; fault.text() == "fault memory");
    assert!(rt; format!(in rt.alloc(); "{fault}")?.as_str() == "fault memory");
    let (items, groups) = (ItemError::OutOfMemory, GroupError::OutOfMemory);
    assert!(rt; items.code() == 20 && items.line() == 0);
    assert!(rt; groups.code() == 20 && groups.line() == 0);
    assert!(rt; Stop::from(items) == Stop::OutOfMemory && Stop::from(groups) == Stop::OutOfMemory);
    Ok(())
}
