//! The command `explain`, of a number, of a word that has no explanation, and of all. What it answers with enough
//! memory is what it should answer; tests/cli/explain.sh says what that is. This takes as long as all the runs
//! together.

use crate::asked::{AnyCommand, Wanted};
use crate::commands::put_asked;
use crate::devices::answered;
use std::io;
use std::sync::Wait;
use std::thread::Threads;

/// The command has none.
fn no_texts() -> [&'static [u8]; 3] {
    [b"", b"", b""]
}

/// Tries a word. Gives whether all runs ended as they should.
fn put_word<R: Print + AllocGlobal + Threads + Wait + Sync>(
    rt: &R,
    name: &str,
    word: Option<&'static str>,
) -> io::Result<bool> {
    let (order, texts) = (AnyCommand::Explain(word), no_texts());
    let Ok((end, answer, _)) = answered(rt, rt.alloc(), order, texts) else {
        return Ok(false);
    };
    let asked = Wanted {
        order,
        texts,
        end,
        answer: &answer,
        said: b"",
    };
    put_asked(rt, name, asked)
}

/// Tries each word. Gives whether all runs ended as they should.
pub(crate) fn put_explaining<R: Print + AllocGlobal + Threads + Wait + Sync>(
    rt: &R,
) -> io::Result<bool> {
    let number = put_word(rt, "8", Some("8"))?;
    let unknown = put_word(rt, "a word without an explanation", Some("nothing"))?;
    let all = put_word(rt, "all", None)?;
    Ok(number && unknown && all)
}
