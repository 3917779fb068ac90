//! Readers that never end, and how much is read and written at most. What the commands do with devices that give little
//! or fail is tried by `test_shortages`.
//!
//! The tests take time linear in the number of calls of the devices.

use std::alloc::Global;
use std::io::ErrorKind;
use std::process::Abort;
use std::test::Fail;
use test_cases::{Endless, Failure, Fake, SEED};
use wq_commands::{End, Fault, Metered, plan_cmd, read_text, write_text};

/// What was counted: the calls, the bytes and the failures.
type Counts = (u64, u64, u64);

fn counts<D>(metered: &Metered<D>) -> Counts {
    (metered.calls(), metered.bytes(), metered.failures())
}

#[test]
fn a_reader_without_end_is_left(rt: HostRuntime) {
    for (at_most, successes, want, answer) in [
        (
            1,
            u32::MAX,
            Ok(End::Refused),
            b"refused 1 line 0\n".as_slice(),
        ),
        (1000, u32::MAX, Ok(End::Refused), b"refused 1 line 0\n"),
        (2_000_000, u32::MAX, Ok(End::Refused), b"refused 1 line 0\n"),
        // Whatever follows this many bytes.
        (1, 1_048_577, Ok(End::Refused), b"refused 1 line 0\n"),
        (1, 1_048_576, Err(Fault::Read), b""),
    ] {
        let mut reader = Metered::new(Fake {
            device: Endless,
            at_most,
            successes,
            failure: Failure::Error(ErrorKind::Other),
        });
        let mut writer = Metered::new(Vec::new(rt.alloc()));
        let end = plan_cmd(rt.alloc(), SEED, &mut reader, &mut writer);
        assert!(rt;
            end == want && writer.into_inner().as_slice() == answer,
            "{at_most}"
        );
        assert!(rt;
            reader.bytes() <= 1_048_577 && reader.calls() <= 1_048_577,
            "{at_most}"
        );
    }
}

#[test]
fn nothing_is_written_of_an_empty_text(rt: HostRuntime) {
    let mut writer = Metered::new(Fake::in_pieces(Vec::new(rt.alloc()), 0));
    assert!(rt; write_text(&mut writer, b"") == Ok(()) && counts(&writer) == (0, 0, 0));
}

/// Asserts what is read of `abcdef` up to a limit, and what is left.
fn assert_read(
    rt: &impl Abort,
    alloc: Global,
    limit: u32,
    front: &[u8],
    rest: &[u8],
) -> Result<(), Fault> {
    let mut reader = Metered::new(Fake::in_pieces(b"abcdef".as_slice(), 1));
    let text = read_text(alloc, &mut reader, limit)?;
    assert!(rt;
        text.as_slice() == front && reader.into_inner().device == rest,
        "{limit}"
    );
    Ok(())
}

#[test]
fn one_byte_past_the_limit_is_read(rt: HostRuntime) -> Result<(), Fail> {
    for (limit, front, rest) in [
        (0, b"a".as_slice(), b"bcdef".as_slice()),
        (2, b"abc", b"def"),
        (5, b"abcdef", b""),
        (6, b"abcdef", b""),
        (u32::MAX, b"abcdef", b""),
    ] {
        assert_read(&rt, rt.alloc(), limit, front, rest)?;
    }
    Ok(())
}
