//! The command line: which command its words ask for, and on what.
//!
//! It is read by `clap`: one command, and positional arguments alone: files, and what may stand behind them. The time
//! is linear in the words.

ghost use Rattle.std.specs.Prelude.{◌≡◌, ◌≤◌, ℕ, List, Option, Some, codes, false, IfOk, IfSome, IsSome, MatchResult};
ghost use Rattle.std.specs.Prelude.{map, option_map};
ghost use Rattle.clap.specs.Words.{app_of, first_of, found_of, kind_of, new_rule, one_of, rows_of, rule_of};
ghost use Rattle.clap.specs.Words.{subcommand_rows_of};
ghost use Rattle.clap.specs.declared.error.kind.ErrorKind.TheVariants.{OutOfMemory};
ghost use Rattle.wqplan.specs.Commands.{command_name};
ghost use Rattle.wqplan.specs.CommandLine.{bare, behind_in, command, file_rules, files_in, few_read, helpers_in};
ghost use Rattle.wqplan.specs.CommandLine.{many_rule, names_of, needed, number_rule, paths, second_name, spelled};
ghost use Rattle.wqplan.specs.CommandLine.{tail_rules, tail_spelled, with_rules, wqplan, Asked, Asks, AsksFor, Calls};
ghost use Rattle.wqplan.specs.CommandLine.{GivesArguments, HasFewHelpers, IsHelpers, IsRead, helpers_asked};
ghost use Rattle.wqplan.specs.CommandLine.{names_asked, word_asked};

use crate::commands::{VERBS, Verb};
use crate::world::INPUT;
use crate::{help, statuses};
use clap::error::ErrorKind;
use clap::{Arg, ArgMatches, Command, Error, value_parser};
use std::alloc::{AllocError, Global};
use std::convert::AsStr;
use std::num::ParseIntError;
use std::rt::Env;
use std::{env, io};

/// The second file of a command.
#[derive(Clone, Copy, Debug)]
pub(crate) enum Second {
    /// A plan or a circle.
    Certificate,
    /// An assignment of items to workqueues.
    Assignment,
}

impl Second {
    /// The name of its argument.
    fn name<'a>(self) -> &'a str
        ensures { result.now ≡ second_name self }
    {
        match self {
            Second::Certificate => "CERT",
            Second::Assignment => "ASSIGN",
        }
    }
}

/// Which files a command has.
#[derive(Clone, Copy, Debug)]
pub(crate) enum FileForm {
    /// None.
    Nothing,
    /// A declaration, and fixed workqueues or none; if no file is named, the declaration is standard input.
    Input,
    /// A declaration.
    One,
    /// A declaration, and this.
    Two(Second),
    /// A declaration, and an assignment or none.
    OneOrTwo,
    /// A declaration, this, and fixed workqueues or none.
    TwoOrThree(Second),
    /// A declaration, an assignment and a run.
    Three,
}

/// What may stand behind the files of a command.
#[derive(Clone, Copy, Debug)]
pub(crate) enum TailForm {
    /// Nothing.
    Nothing,
    /// Names of items.
    Names,
    /// A number of helpers, from 0 to 8.
    Helpers,
    /// A word.
    Word,
}

/// The files of a command, in the order of its arguments: their paths, or what reads them.
#[derive(Debug, Drop)]
pub(crate) enum Files<T> {
    /// None is named: what is read is standard input.
    Unnamed,
    /// That of a declaration.
    One(T),
    /// The files of a declaration, and of a certificate, an assignment or fixed workqueues.
    Two(T, T),
    /// The files of a declaration, an assignment and a run; or of a declaration, a certificate and fixed workqueues.
    Three(T, T, T),
}

/// What stands behind the files of a command.
#[derive(Debug, Drop)]
pub(crate) enum Tail<'a> {
    /// Nothing.
    Nothing,
    /// The names of the items that are meant: all, if there is none.
    Names(Vec<&'a str>),
    /// How many helpers each workqueue that isn't ordered has, at most 8.
    Helpers(u8),
    /// The word that is to be explained, if there is one.
    Word(Option<&'a str>),
}

impl<'a> Tail<'a> {
    /// The names of the items that are meant; none if there are none.
    pub(crate) fn names(&self) -> &[&'a str]
        ensures { map (λ n. n.now) result.now ≡ names_asked (tail_spelled self.now) }
    {
        match self {
            Tail::Names(names) => names.as_slice(),
            Tail::Nothing | Tail::Helpers(_) | Tail::Word(_) => &[],
        }
    }

    /// How many helpers there are; none if there is no number.
    pub(crate) fn helpers(&self) -> u8
        ensures { result ≡ helpers_asked (tail_spelled self.now) }
    {
        match self {
            Tail::Helpers(helpers) => *helpers,
            Tail::Nothing | Tail::Names(_) | Tail::Word(_) => 0,
        }
    }

    /// The word that is to be explained, if there is one.
    pub(crate) fn word(&self) -> Option<&'a str>
        ensures { option_map (λ w. w.now) result ≡ word_asked (tail_spelled self.now) }
    {
        match self {
            Tail::Word(word) => *word,
            Tail::Nothing | Tail::Names(_) | Tail::Helpers(_) => None,
        }
    }
}

/// What a command line asks for: a command, the paths of its files, and the words behind them.
#[derive(Debug, Drop)]
pub(crate) struct Request<'a> {
    pub(crate) verb: Verb,
    pub(crate) files: Files<&'a str>,
    pub(crate) tail: Tail<'a>,
}

impl Request<'_> {
    /// Whether it has standard input in the place of more than one file, though it can be read only once.
    pub(crate) fn repeats_input(&self) -> bool {
        match self.files {
            Files::Unnamed | Files::One(_) => false,
            Files::Two(first, second) => first == INPUT && second == INPUT,
            Files::Three(first, second, third) => {
                (first == INPUT && (second == INPUT || third == INPUT))
                    || (second == INPUT && third == INPUT)
            }
        }
    }
}

/// The words of the command line. The first is the program's name.
pub(crate) fn words<R: Env + AllocGlobal>(rt: &R) -> io::Result<Vec<String>> {
    let words = env::args(rt)?.collect(rt.alloc())?;
    Ok(words)
}

/// A required argument that names a file.
fn file<'a>(alloc: Global, name: &'a str, help: &'a str) -> Arg<'a>
    ensures rule { rule_of result ≡ needed name.entry.now }
    ensures own { result.global ≡ false }
{
    Arg::new(alloc, name).help(help).required(true)
}

/// The argument of a declaration.
fn declaration<'a>(alloc: Global) -> Arg<'a>
    ensures rule { rule_of result ≡ needed (codes "DECL") }
    ensures own { result.global ≡ false }
{
    file(alloc, "DECL", help::DECL)
}

/// The argument of a certificate or of an assignment.
fn second_file<'a>(alloc: Global, kind: Second) -> Arg<'a>
    ensures rule { rule_of result ≡ needed (second_name kind) }
    ensures own { result.global ≡ false }
{
    match kind {
        Second::Certificate => file(alloc, "CERT", help::CERT),
        Second::Assignment => file(alloc, "ASSIGN", help::ASSIGN),
    }
}

/// An argument that may be missing.
fn optional<'a>(alloc: Global, name: &'a str, help: &'a str) -> Arg<'a>
    ensures rule { rule_of result ≡ new_rule name.entry.now }
    ensures own { result.global ≡ false }
{
    Arg::new(alloc, name).help(help)
}

/// The argument NAME, which may come any number of times. `items` is what help says of it.
fn names<'a>(alloc: Global, items: &'a str) -> Arg<'a>
    ensures rule { rule_of result ≡ many_rule (codes "NAME") }
    ensures own { result.global ≡ false }
{
    Arg::new(alloc, "NAME").help(items).num_args(1..)
}

/// The argument HELPERS.
fn helpers<'a>(alloc: Global) -> Arg<'a>
    ensures rule { rule_of result ≡ number_rule (codes "HELPERS") 8 }
    ensures own { result.global ≡ false }
{
    Arg::new(alloc, "HELPERS")
        .help(help::HELPERS)
        .value_parser(value_parser!(u8).range(0..=8))
}

/// A command with its files, too. `assignment` is what help says of an assignment that may be missing.
fn with_files<'a>(
    alloc: Global,
    command: Command<'a>,
    form: FileForm,
    assignment: &'a str,
) -> Result<Command<'a>, AllocError>
    ensures { IfOk result (λ r. app_of r ≡ with_rules (app_of command.entry) (file_rules form)) }
{
    match form {
        FileForm::Nothing => Ok(command),
        FileForm::Input => command
            .arg(optional(alloc, "FILE", help::FILE))?
            .arg(optional(alloc, "FIXED", help::FIXED)),
        FileForm::One => command.arg(declaration(alloc)),
        FileForm::Two(kind) => command
            .arg(declaration(alloc))?
            .arg(second_file(alloc, kind)),
        FileForm::OneOrTwo => command
            .arg(declaration(alloc))?
            .arg(optional(alloc, "ASSIGN", assignment)),
        FileForm::TwoOrThree(kind) => command
            .arg(declaration(alloc))?
            .arg(second_file(alloc, kind))?
            .arg(optional(alloc, "FIXED", help::FIXED)),
        FileForm::Three => command
            .arg(declaration(alloc))?
            .arg(second_file(alloc, Second::Assignment))?
            .arg(file(alloc, "RUN", help::STEPS)),
    }
}

/// A command with what may stand behind its files, too. `items` is what help says of names.
fn with_tail<'a>(
    alloc: Global,
    command: Command<'a>,
    form: TailForm,
    items: &'a str,
) -> Result<Command<'a>, AllocError>
    ensures { IfOk result (λ r. app_of r ≡ with_rules (app_of command.entry) (tail_rules form)) }
{
    match form {
        TailForm::Nothing => Ok(command),
        TailForm::Names => command.arg(names(alloc, items)),
        TailForm::Helpers => command.arg(helpers(alloc)),
        TailForm::Word => command.arg(optional(alloc, "CODE", help::CODE)),
    }
}

/// A command of the program.
fn command<'a>(alloc: Global, verb: Verb) -> Result<Command<'a>, AllocError>
    ensures { IfOk result (λ built. app_of built ≡ command verb) }
{
    let named = Command::new(alloc, verb.name())
        .about(verb.about())
        .after_long_help(verb.statuses());
    let filed = with_files(alloc, named, verb.files(), verb.assignment())?;
    with_tail(alloc, filed, verb.tail(), verb.items())
}

/// The program without its commands. One of them is required.
fn bare<'a>(alloc: Global) -> Command<'a>
    ensures { app_of result ≡ bare }
{
    Command::new(alloc, "wqplan")
        .version("0.2.0")
        .about(help::PROGRAM)
        .after_long_help(statuses::PROGRAM)
        .subcommand_required(true)
}

/// The program with its commands, as it is read and as help shows it.
fn program<'a>(alloc: Global) -> Result<Command<'a>, AllocError>
    ensures { IfOk result (λ built. app_of built ≡ wqplan) }
{
    let mut program = bare(alloc);
    for verb in VERBS {
        program = program.subcommand(command(alloc, verb)?)?;
    }
    Ok(program)
}

/// The text that a parse gave this argument.
fn text_given<'a>(given: &ArgMatches<'a>, name: &str) -> Option<&'a str>
    ensures { option_map (λ s. s.now) result ≡ first_of name.now (rows_of (found_of given.now)) }
{
    given.get_str(name)
}

/// The files that a parse gave a command. The files that it needs are in all matches that a parse gives.
fn files_given<'a>(form: FileForm, given: &ArgMatches<'a>) -> Option<Files<&'a str>>
    ensures { option_map paths result ≡ files_in form (rows_of (found_of given.now)) }
{
    match form {
        FileForm::Nothing => Some(Files::Unnamed),
        FileForm::Input => match text_given(given, "FILE") {
            Some(file) => match text_given(given, "FIXED") {
                Some(fixed) => Some(Files::Two(file, fixed)),
                None => Some(Files::One(file)),
            },
            None => Some(Files::Unnamed),
        },
        FileForm::One => Some(Files::One(text_given(given, "DECL")?)),
        FileForm::Two(kind) => {
            let declaration = text_given(given, "DECL")?;
            let second = text_given(given, kind.name())?;
            Some(Files::Two(declaration, second))
        }
        FileForm::OneOrTwo => {
            let declaration = text_given(given, "DECL")?;
            match text_given(given, "ASSIGN") {
                Some(assignment) => Some(Files::Two(declaration, assignment)),
                None => Some(Files::One(declaration)),
            }
        }
        FileForm::TwoOrThree(kind) => {
            let declaration = text_given(given, "DECL")?;
            let second = text_given(given, kind.name())?;
            match text_given(given, "FIXED") {
                Some(fixed) => Some(Files::Three(declaration, second, fixed)),
                None => Some(Files::Two(declaration, second)),
            }
        }
        FileForm::Three => {
            let declaration = text_given(given, "DECL")?;
            let assignment = text_given(given, "ASSIGN")?;
            let run = text_given(given, "RUN")?;
            Some(Files::Three(declaration, assignment, run))
        }
    }
}

/// These names, in a vector of their own.
fn copied<'a>(alloc: Global, names: &[&'a str]) -> Result<Vec<&'a str>, AllocError>
    ensures { IfOk result (λ copy. copy.items ≡ names.now) }
{
    let mut copy = Vec::with_capacity(alloc, names.len())?;
    for name in names {
        copy.push(*name)?;
    }
    Ok(copy)
}

/// The names that a parse gave, in their order.
fn names_given<'a>(alloc: Global, given: &ArgMatches<'a>) -> Result<Vec<&'a str>, AllocError>
    ensures { IfOk result (λ names. map (λ n. n.now) names.items ≡ names_of (rows_of (found_of given.now))) }
{
    match given.get_strs("NAME") {
        Some(names) => copied(alloc, names),
        None => Ok(Vec::new(alloc)),
    }
}

/// The number of helpers that was read, if it is 8 at most; 0 if there was no word for it.
fn few_read(read: Result<Option<u8>, ParseIntError>) -> Option<u8>
    ensures { result ≡ few_read read }
{
    match read {
        Ok(None) => Some(0),
        Ok(Some(helpers)) => {
            if helpers > 8 {
                return None;
            }
            Some(helpers)
        }
        Err(_) => None,
    }
}

/// How many helpers are asked for: none without a word for it. There is a number in all matches that a parse gives.
fn helpers_given<'a>(given: &ArgMatches<'a>) -> Option<u8>
    ensures number { IfSome result (λ n. helpers_in (one_of (codes "HELPERS") (rows_of (found_of given.now))) ≡ n) }
    ensures few { IfSome result (λ n. IsHelpers (one_of (codes "HELPERS") (rows_of (found_of given.now)))) }
    ensures all { IsHelpers (one_of (codes "HELPERS") (rows_of (found_of given.now))) → IsSome result }
{
    few_read(given.try_get_one::<u8>("HELPERS"))
}

/// What a parse gave a command behind its files. It is in all matches that a parse gives.
fn tail_given<'a>(
    alloc: Global,
    form: TailForm,
    given: &ArgMatches<'a>,
) -> Result<Option<Tail<'a>>, AllocError>
    ensures given { IfOk result (λ found. IfSome found (λ tail.
        behind_in form (rows_of (found_of given.now)) ≡ tail_spelled tail)) }
    ensures read { IfOk result (λ found. IfSome found (λ tail. IsRead form (rows_of (found_of given.now)))) }
    ensures all { IfOk result (λ found. IsRead form (rows_of (found_of given.now)) → IsSome found) }
{
    match form {
        TailForm::Nothing => Ok(Some(Tail::Nothing)),
        TailForm::Names => Ok(Some(Tail::Names(names_given(alloc, given)?))),
        TailForm::Helpers => match helpers_given(given) {
            Some(helpers) => Ok(Some(Tail::Helpers(helpers))),
            None => Ok(None),
        },
        TailForm::Word => Ok(Some(Tail::Word(text_given(given, "CODE")))),
    }
}

/// What a parse asks for that has entered this command. It is in all matches that a parse gives.
fn request_given<'a>(
    alloc: Global,
    verb: Verb,
    given: &ArgMatches<'a>,
) -> Result<Option<Request<'a>>, AllocError>
    ensures asked { IfOk result (λ found. IfSome found (λ request.
        AsksFor (Some (command_name verb, rows_of (found_of given.now))) (spelled request))) }
    ensures all { IfOk result (λ found. (wanted : Asked) → wanted.verb ≡ verb
        → GivesArguments (rows_of (found_of given.now)) wanted → IsSome found) }
{
    let Some(files) = files_given(verb.files(), given) else {
        return Ok(None);
    };
    let Some(tail) = tail_given(alloc, verb.tail(), given)? else {
        return Ok(None);
    };
    Ok(Some(Request { verb, files, tail }))
}

/// The request of the command that a parse has entered. There is none if that is `help`.
fn entered<'a>(alloc: Global, matches: &ArgMatches<'a>) -> Result<Option<Request<'a>>, AllocError>
    ensures asked { IfOk result (λ found. IfSome found (λ request.
        AsksFor (subcommand_rows_of matches.now) (spelled request))) }
    ensures all { IfOk result (λ found. (wanted : Asked) → AsksFor (subcommand_rows_of matches.now) wanted
        → IsSome found) }
{
    let Some((name, given)) = matches.subcommand() else {
        return Ok(None);
    };
    let Some(verb) = Verb::named(name) else {
        return Ok(None);
    };
    request_given(alloc, verb, given)
}

/// Parses the words of a command line.
///
/// The error is a mistake in the words, a request for help or the version, or out of memory.
pub(crate) fn parse<'a, S: AsStr>(alloc: Global, words: &'a [S]) -> Result<Request<'a>, Error>
    ensures asked { IfOk result (λ request. Asks (map S.text words.entry.now) (spelled request)) }
    ensures few_helpers { IfOk result (λ request. HasFewHelpers (spelled request)) }
    ensures called { (wanted : Asked) → Calls (map S.text words.entry.now) wanted
        → MatchResult result (λ request. spelled request ≡ wanted) (λ e. kind_of e ≡ OutOfMemory) }
{
    let mut command = program(alloc)?;
    let matches = command.try_get_matches_from_mut(words)?;
    match entered(alloc, &matches)? {
        Some(request) => Ok(request),
        // `help` is a command too, but the parse itself answers it.
        None => Err(command.error(ErrorKind::MissingSubcommand, "a command is needed")?),
    }
}
