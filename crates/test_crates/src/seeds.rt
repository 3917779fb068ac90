//! Seeds of the hashes of names. No answer depends on them.
//!
//! The answers were worked out by hand from docs/FORMAT.md. The tests take the time of a hundred runs for each text.

use wq_commands::{End, Metered, plan_cmd};

/// A declaration with groups and flushes, how `plan` ends on it, and its answer.
const CASES: &[(&[u8], End, &[u8])] = &[
    (
        b"item a\nitem b\nitem c\nitem d\nordered b a\nflush c d\nflush a c d\nflush b d\n",
        End::Good,
        b"plan 3\nwq 0 d\nwq 1 c\nwq 2 a b\nchain 3\narc a c\narc c d\n",
    ),
    (
        b"item a\nitem b\nordered a b\nflush a c b\n",
        End::Refused,
        b"refused 8 line 4\n",
    ),
];

#[test]
fn no_answer_depends_on_the_seed(rt: HostRuntime) {
    for (text, end, answer) in CASES {
        for number in 0..100u8 {
            // Seeds that are far from one another.
            let seed = u64::from(number).wrapping_mul(0x9E37_79B9_7F4A_7C15);
            let mut writer = Metered::new(Vec::new(rt.alloc()));
            let ended = plan_cmd(rt.alloc(), seed, &mut Metered::new(*text), &mut writer);
            assert!(rt;
                ended == Ok(*end) && writer.into_inner().as_slice() == *answer,
                "{number}"
            );
        }
    }
}
