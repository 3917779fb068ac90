//! `test_runtime`: makes the calls of a book or of a runtime that a text asks for, has
//! rescuers, bodies and callers do what a text or the declaration says, judges the rows
//! of a history, or runs a load on a runtime in many threads, and prints what came of it.
//!
//! It is a program of the tests and of the measurements (bench/README.md), and never installed. What it reads and
//! prints is in tests/FORMATS.md; no contract says so. This takes the time of what is asked, and that of printing it.
#![tactic(auto)]

mod loads;
mod sessions;
mod testbed;

use crate::loads::Load;
use crate::sessions::{Task, TaskText, answer};
use crate::testbed::{
    MAX_CERTIFICATE, MAX_HELPERS, Setting, ended, misused, print_answer, read_file, read_texts,
    unread, without_helpers, words,
};
use std::process::ExitCode;
use std::rt::{Env, Files};
use std::sync::Wait;
use std::thread::Threads;
use std::time::Clock;
use wq_commands::Fault;

const USAGE: &str = "usage: test_runtime [helpers N] book DECL ASSIGN ROWS EVENTS \
    | check DECL ASSIGN HEX | calls DECL ASSIGN ROWS CALLS | crew DECL ASSIGN ROWS DEEDS \
    | report DECL ASSIGN ROWS DEEDS | script DECL ASSIGN ROWS [ACTS] \
    | stress DECL ASSIGN ROWS SEED CALLS | bench DECL ASSIGN ROWS rounds|storm|fill|sleep CALLERS N";

/// A task in a setting, and the file of its text, if it has one.
#[derive(Clone, Copy)]
struct Order<'a> {
    setting: Setting<'a>,
    task: Task,
    path: Option<&'a str>,
}

/// The task of a subcommand in these files, with the words after them and this many helpers, of which a book has 8 at
/// most. The number of rows of a judged history is that of its text.
fn order_of<'a>(
    command: &str,
    declaration: &'a str,
    assignment: &'a str,
    rest: &'a [String],
    helpers: u8,
) -> Option<Order<'a>> {
    let (task, rows, path) = match (command, rest) {
        ("book", [rows, path]) => (Task::Book, rows.as_str(), Some(path.as_str())),
        ("check", [path]) => (Task::Check, "0", Some(path.as_str())),
        ("calls", [rows, path]) => (Task::Calls, rows.as_str(), Some(path.as_str())),
        ("crew", [rows, path]) => (Task::Crew, rows.as_str(), Some(path.as_str())),
        ("report", [rows, path]) => (Task::Report, rows.as_str(), Some(path.as_str())),
        ("script", [rows]) => (Task::Script, rows.as_str(), None),
        ("script", [rows, path]) => (Task::Acts, rows.as_str(), Some(path.as_str())),
        _ => return None,
    };
    if helpers > MAX_HELPERS && matches!(task, Task::Book | Task::Check) {
        return None;
    }
    let setting = Setting::parse(declaration, assignment, rows, helpers)?;
    Some(Order {
        setting,
        task,
        path,
    })
}

/// Does a task with the texts of its setting, and prints what came of it. Returns the status.
fn perform<R: Files + Print + AllocGlobal + Threads + Wait + Clock + Sync>(
    rt: &R,
    order: &Order<'_>,
) -> Result<u8, Fault> {
    let texts = read_texts(rt, &order.setting)?;
    let text = match order.path {
        Some(path) => read_file(rt, path, MAX_CERTIFICATE)?,
        None => Vec::new(rt.alloc()),
    };
    let request = TaskText {
        task: order.task,
        text: &text,
    };
    let mut out = String::new(rt.alloc());
    let status = answer(
        rt,
        rt.alloc(),
        order.setting.rows,
        order.setting.helpers,
        &texts,
        &request,
        &mut out,
    )?;
    print_answer(rt, &out, status)
}

/// Does what `book`, `check`, `calls`, `crew`, `report` or `script` asks for by the words after it. Returns the status,
/// or none if the words have none of their forms.
fn session<R: Files + Print + Eprint + AllocGlobal + Threads + Wait + Clock + Sync>(
    rt: &R,
    command: &str,
    words: &[String],
    helpers: u8,
) -> Option<u8> {
    match words {
        [declaration, assignment, rest @ ..] => {
            let order = order_of(
                command,
                declaration.as_str(),
                assignment.as_str(),
                rest,
                helpers,
            )?;
            Some(ended(rt, perform(rt, &order)))
        }
        _ => None,
    }
}

/// The load that `stress` or `bench` asks for by the words after its setting.
fn load_of(command: &str, rest: &[String]) -> Option<Load> {
    match (command, rest) {
        ("stress", [seed, calls]) => Load::stress(seed.as_str(), calls.as_str()),
        ("bench", [task, callers, count]) => {
            Load::measured(task.as_str(), callers.as_str(), count.as_str())
        }
        _ => None,
    }
}

/// Runs a load in this setting, and prints what came of it. Returns the status.
fn run_load<R: Files + Print + AllocGlobal + Threads + Wait + Clock + Sync>(
    rt: &R,
    setting: &Setting<'_>,
    load: Load,
) -> Result<u8, Fault> {
    let texts = read_texts(rt, setting)?;
    let mut out = String::new(rt.alloc());
    let status = crate::loads::answer(
        rt,
        rt.alloc(),
        setting.rows,
        setting.helpers,
        &texts,
        load,
        &mut out,
    )?;
    print_answer(rt, &out, status)
}

/// Does what `stress` or `bench` asks for by the words after it. Returns the status,
/// or none if the words don't have their form.
fn loaded<R: Files + Print + Eprint + AllocGlobal + Threads + Wait + Clock + Sync>(
    rt: &R,
    command: &str,
    words: &[String],
    helpers: u8,
) -> Option<u8> {
    match words {
        [declaration, assignment, rows, rest @ ..] => {
            let setting = Setting::parse(
                declaration.as_str(),
                assignment.as_str(),
                rows.as_str(),
                helpers,
            )?;
            let load = load_of(command, rest)?;
            Some(ended(rt, run_load(rt, &setting, load)))
        }
        _ => None,
    }
}

/// Does what the words of the command line ask for, of which the first is the program's name. Returns the status, or
/// none if they have no form of any subcommand.
fn dispatch<R: Files + Print + Eprint + AllocGlobal + Threads + Wait + Clock + Sync>(
    rt: &R,
    words: &[String],
) -> Option<u8> {
    let (helpers, words) = without_helpers(words)?;
    match words {
        [command, rest @ ..] => match command.as_str() {
            "book" | "check" | "calls" | "crew" | "report" | "script" => {
                session(rt, command.as_str(), rest, helpers)
            }
            "stress" | "bench" => loaded(rt, command.as_str(), rest, helpers),
            _ => None,
        },
        _ => None,
    }
}

/// Does what the command line asks for. Returns the status.
fn run<R: Files + Env + Print + Eprint + AllocGlobal + Threads + Wait + Clock + Sync>(
    rt: &R,
) -> u8 {
    match words(rt) {
        Ok(words) => match dispatch(rt, &words) {
            Some(status) => status,
            None => misused(rt, USAGE),
        },
        Err(error) => unread(rt, error, USAGE),
    }
}

fn main(rt: HostRuntime) -> ExitCode {
    ExitCode::from(run(&rt))
}
