//! A command, its texts, and what it should answer and say.
//!
//! A call takes the time of the command.

use crate::devices::Devices;
use std::alloc::Allocator;
use std::sync::Wait;
use std::thread::Threads;
use test_cases::{Case, PlainCommand, RunCase, SEED, perform};
use wq_commands::{End, Fault};
use wq_explain::{Explained, explain_cmd};
use wq_run::{CommandFault, RunCommand, carry_out_run, end_of_run};
use wq_voice::FileNames;

/// What is asked for.
#[derive(Clone, Copy)]
pub(crate) enum AnyCommand {
    /// A command that takes no threads.
    Of(PlainCommand),
    /// `run`.
    Run,
    /// `explain` of a word, or of all.
    Explain(Option<&'static str>),
}

impl AnyCommand {
    /// The words by which it is asked for.
    pub(crate) fn words(self) -> &'static str {
        match self {
            AnyCommand::Of(command) => command.words(),
            AnyCommand::Run => "run DECL",
            AnyCommand::Explain(_) => "explain",
        }
    }

    /// How many texts it has.
    pub(crate) fn texts(self) -> usize {
        match self {
            AnyCommand::Of(command) => command.texts(),
            AnyCommand::Run => 1,
            AnyCommand::Explain(_) => 0,
        }
    }
}

/// What is asked for, its texts in turn, how it ends on them, what it writes, and what it says then.
#[derive(Clone, Copy)]
pub(crate) struct Wanted<'t, 'a> {
    pub(crate) order: AnyCommand,
    pub(crate) texts: [&'t [u8]; 3],
    pub(crate) end: End,
    pub(crate) answer: &'a [u8],
    pub(crate) said: &'a [u8],
}

impl<'t> Wanted<'t, '_> {
    /// What a case asks for.
    pub(crate) fn of(case: &Case) -> Wanted<'static, 'static> {
        Wanted {
            order: AnyCommand::Of(case.command),
            texts: [case.text(0), case.text(1), case.text(2)],
            end: case.end,
            answer: case.answer.as_bytes(),
            said: case.said.as_bytes(),
        }
    }

    /// What a case of `run` asks for.
    pub(crate) fn of_run(case: &RunCase) -> Wanted<'static, 'static> {
        Wanted {
            order: AnyCommand::Run,
            texts: [case.text.as_bytes(), b"", b""],
            end: case.end,
            answer: case.answer.as_bytes(),
            said: case.said.as_bytes(),
        }
    }

    /// A text, or none.
    pub(crate) fn text(&self, at: usize) -> &'t [u8] {
        self.texts.get(at).copied().unwrap_or_default()
    }
}

/// Explains a word, or all. A word without an explanation ends as a refused text does.
fn explain<A: Allocator + Copy>(
    alloc: A,
    word: Option<&str>,
    devices: &mut Devices<'_>,
) -> Result<End, Fault> {
    Ok(match explain_cmd(alloc, word, &mut devices.writer)? {
        Explained::Known => End::Good,
        Explained::Unknown => End::Refused,
    })
}

/// Runs the declaration that the first reader gives, as the program does.
fn run<R: Threads + Wait + Sync, A: Allocator + Copy + Send + Sync>(
    rt: &R,
    alloc: A,
    devices: &mut Devices<'_>,
) -> Result<End, CommandFault> {
    let Devices {
        readers,
        writer,
        teller,
    } = devices;
    let command = RunCommand { helpers: 2 };
    let voice = FileNames {
        declaration: "d",
        second: "",
        run: "",
    };
    let ended = carry_out_run(
        rt,
        alloc,
        SEED,
        &command,
        &voice,
        &mut readers.first,
        writer,
        teller,
    );
    end_of_run(ended)
}

/// Does what is asked for over these devices, as the program does.
pub(crate) fn carry<R: Threads + Wait + Sync, A: Allocator + Copy + Send + Sync>(
    rt: &R,
    alloc: A,
    order: AnyCommand,
    devices: &mut Devices<'_>,
) -> Result<End, CommandFault> {
    match order {
        AnyCommand::Of(command) => {
            let Devices {
                readers,
                writer,
                teller,
            } = devices;
            Ok(perform(alloc, command, readers, writer, teller)?)
        }
        AnyCommand::Run => run(rt, alloc, devices),
        AnyCommand::Explain(word) => Ok(explain(alloc, word, devices)?),
    }
}
