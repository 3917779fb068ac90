//! Laws about the numbers that are printed and the numbers that are explained, and about the faults of a command.
//!
//! Each law is a function that does nothing. Its contract is the law.

ghost use Rattle.std.specs.Prelude.{◌≡◌, ◌≢◌, ◌↔◌, ◌⊎◌, ℕ, List, Option, Some, Result, Err};
ghost use Rattle.std.specs.List.{Contains};
ghost use Rattle.wq_meter.specs.Input.{HasFailed};
ghost use Rattle.wq_meter.specs.Meter.{Meter};
ghost use Rattle.wq_meter.specs.declared.fault.Fault.TheVariants.{Read as ReadFault};
ghost use Rattle.wq_commands.specs.declared.end.End.{End};
ghost use Rattle.wq_run.specs.declared.fault.CommandFault.{CommandFault};
ghost use Rattle.wq_run.specs.declared.fault.CommandFault.TheVariants.{Common, Tally, Thread};
ghost use Rattle.wqplan.specs.Cause.{IsCaused};
ghost use Rattle.wqplan.specs.declared.commands.Verb.TheVariants.{Explain, Run};
ghost use Rattle.wqplan.specs.CommandLine.{Asked, files_of};
ghost use Rattle.wqplan.specs.Numbers.{IsPrintedByProgram};
ghost use Rattle.wq_explain.specs.Explaining.{number_end};
ghost use Rattle.wq_explain.specs.declared.explain.Explained.TheVariants.{Known};

use crate::world::World;
use std::io::Read;

/// `explain` knows exactly the numbers that a refusal or a `no` can have. The one for a plan too large to run is among
/// them.
pub fn each_printed_number_is_explained()
    ensures { (code : ℕ) → IsPrintedByProgram code ↔ (number_end code ≡ Known) }
{}

/// If a file of a command can never be opened, then, by the clause `caused` of `perform`, the command ends with `fault
/// read`, and with nothing else. So does each command but `explain` if there is never a seed.
pub fn what_cannot_be_opened_is_not_read<'a, O: World<'a>, I: Read>()
    ensures file { (world : O) (old new : Meter I) (asked : Asked) (result : Result End CommandFault) →
        IsCaused (O.seeds world) (O.opens world) (HasFailed old new) asked result →
        (path : List ℕ) → Contains (files_of asked) path → ((file : O.File) → ¬ O.opens world path (Some file)) →
        result ≡ Err (Common ReadFault) }
    ensures seed { (world : O) (old new : Meter I) (asked : Asked) (result : Result End CommandFault) →
        IsCaused (O.seeds world) (O.opens world) (HasFailed old new) asked result →
        asked.verb ≢ Explain → ((seed : ℕ) → ¬ O.seeds world (Some seed))
        → result ≡ Err (Common ReadFault) }
{}

/// By the clause of the law above, only `run` ends with `fault thread` or `fault tally`.
pub fn only_run_is_stopped_by_threads<'a, O: World<'a>, I: Read>()
    ensures { (world : O) (old new : Meter I) (asked : Asked) (result : Result End CommandFault) →
        IsCaused (O.seeds world) (O.opens world) (HasFailed old new) asked result →
        (result ≡ Err Thread) ⊎ (result ≡ Err Tally) → asked.verb ≡ Run }
{}
