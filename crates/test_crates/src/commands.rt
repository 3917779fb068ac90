//! The calls for commands that no program makes, over texts in memory: how each ends, and what it writes.
//!
//! The answers were worked out by hand from docs/FORMAT.md. `plan_cmd` is called in devices.rt and seeds.rt, and
//! `run_cmd`, which takes threads, by `test_shortages`. The tests take the time of the commands.

use test_cases::SEED;
use wq_commands::{End, Metered, check_cmd, deadlock_cmd, replay_cmd};

/// Two items, of which one flushes the other.
const TWO: &[u8] = b"item a\nitem b\nflush a b\n";

#[test]
fn check_says_whether_an_answer_is_true(rt: HostRuntime) {
    for (certificate, end, answer) in [
        (
            b"plan 2\nwq 0 b\nwq 1 a\nchain 2\narc a b\n".as_slice(),
            End::Good,
            b"yes 2\n".as_slice(),
        ),
        (b"plan 1\nwq 0 a b\nchain 1\n", End::Bad, b"no 50 a b\n"),
        (b"plan 2\nwq 0 b\n", End::Refused, b"refused 40 line 0\n"),
    ] {
        let mut writer = Metered::new(Vec::new(rt.alloc()));
        let ended = check_cmd(
            rt.alloc(),
            SEED,
            &mut Metered::new(TWO),
            &mut Metered::new(certificate),
            &mut writer,
        );
        assert!(rt; ended == Ok(end) && writer.into_inner().as_slice() == answer);
    }
}

#[test]
fn deadlock_says_whether_an_assignment_is_safe(rt: HostRuntime) {
    for (assignment, end, answer) in [
        (
            b"wq 0 b\nwq 1 a\n".as_slice(),
            End::Good,
            b"safe\n".as_slice(),
        ),
        (
            b"wq 0 a b\n",
            End::Bad,
            b"run 4\nqueue a\nqueue b\nstart 0 a\nwait 0 b\n",
        ),
        (b"wq 0 a\n", End::Refused, b"refused 41 line 0\n"),
    ] {
        let mut writer = Metered::new(Vec::new(rt.alloc()));
        let ended = deadlock_cmd(
            rt.alloc(),
            SEED,
            &mut Metered::new(TWO),
            &mut Metered::new(assignment),
            &mut writer,
        );
        assert!(rt; ended == Ok(end) && writer.into_inner().as_slice() == answer);
    }
}

#[test]
fn replay_says_how_a_run_ends(rt: HostRuntime) {
    for (run, end, answer) in [
        (
            b"run 1\nqueue a\n".as_slice(),
            End::Good,
            b"open\n".as_slice(),
        ),
        (
            b"run 4\nqueue a\nqueue b\nstart 0 a\nwait 0 b\n",
            End::Bad,
            b"deadlock\n",
        ),
        (b"run 1\nstart 0 a\n", End::Bad, b"not lawful 1\n"),
        (b"walk\n", End::Refused, b"refused 40 line 1\n"),
    ] {
        let mut writer = Metered::new(Vec::new(rt.alloc()));
        let ended = replay_cmd(
            rt.alloc(),
            SEED,
            &mut Metered::new(TWO),
            &mut Metered::new(b"wq 0 a b\n".as_slice()),
            &mut Metered::new(run),
            &mut writer,
        );
        assert!(rt; ended == Ok(end) && writer.into_inner().as_slice() == answer);
    }
}
