//! What is said beside the answers of `plan` and `check` around fixed workqueues.
//!
//! Beside a circle or a flush to no rescuer: how the workqueues of the start hang soonest. A text that is refused and a
//! `no` have a diagnosis. Where there is no fixed workqueue, all is said as without them. A call takes the time and the
//! memory of the words and, where the start hangs, of the search for a shortest run.

ghost use Rattle.std.specs.Prelude.{◌≡◌, ℕ, IfOk, List, None, Some, length, option_map};
ghost use Rattle.wq_text.specs.Limits.{limit_fault};
ghost use Rattle.wq_cert.specs.Texts.{max_certificate, max_certificate_line};
ghost use Rattle.wq_commands.specs.declared.end.End.{End};
ghost use Rattle.wq_commands.specs.declared.found.Found.TheVariants.{Read};
ghost use Rattle.wq_diagnosis.specs.Refused.{Diagnoses};
ghost use Rattle.wq_voice.specs.Voice.{SaysFound, SaysRefused};
ghost use Rattle.wq_around_command.specs.Checking.{ChecksTexts};
ghost use Rattle.wq_around_command.specs.Planning.{PlansText};
ghost use Rattle.wq_around_command.specs.Saying.{SaysAnswerAround, SaysAround, SaysCheckAround, SaysChecked};
ghost use Rattle.wq_around_command.specs.Saying.{SaysPlanAround, SaysPlanned, SaysStart};

use crate::check::CheckAroundCommand;
use crate::checking::Checked;
use crate::plan::PlanAroundCommand;
use crate::planning::Planned;
use std::alloc::{AllocError, Allocator};
use wq_around::Around;
use wq_checker::{NoAround, YesAround};
use wq_commands::{CheckCommand, Found, PlanCommand, Texts, Voice, Which};
use wq_core::{Assigned, Workqueues};
use wq_diagnosis::{Source, of_lack_around, of_no_item, of_refused_around, of_refused_fixed};
use wq_groups::Declaration;
use wq_names::workqueue_names;
use wq_voice::{FileNames, FlushLines, Lead, Subject, Wording, of_subject};

/// How the workqueues of the start hang soonest.
fn say_start<'a, A: Allocator + Copy>(
    alloc: A,
    names: &FileNames<'a>,
    declared: &Declaration<'a, A>,
    texts: &'a Texts<A>,
    start: &Workqueues<A>,
) -> Result<Option<Vec<u8, A>>, AllocError>
    requires read { limit_fault max_certificate max_certificate_line texts.now.second ≡ None }
    requires groups { length start.now.assignment.lane_of_group ≡ declared.now.partition.groups }
    ensures { IfOk result (λ said. SaysStart names.now.declaration.now texts.now.second declared.now start.now
        (option_map (λ text. text.items) said)) }
{
    let declaration = Source {
        file: names.declaration,
        text: texts.first(),
    };
    let assignment = Source {
        file: names.second,
        text: texts.second(),
    };
    let called = workqueue_names(alloc, assignment.text)?;
    let flushes = FlushLines::new(alloc, declaration.text)?;
    let assigned = Assigned::new(declared, start);
    let subject = Subject {
        declaration,
        assignment,
        wording: Wording::OnWorkqueues,
        assigned: &assigned,
        flushes: &flushes,
        names: &called,
    };
    of_subject(alloc, &subject, &Lead::can_hang())
}

/// What is said of this plan, or of what is in the way of each.
fn say_around<'a, A: Allocator + Copy>(
    alloc: A,
    names: &FileNames<'a>,
    declared: &Declaration<'a, A>,
    texts: &'a Texts<A>,
    start: &Workqueues<A>,
    around: &Around<A>,
) -> Result<Option<Vec<u8, A>>, AllocError>
    requires read { limit_fault max_certificate max_certificate_line texts.now.second ≡ None }
    requires groups { length start.now.assignment.lane_of_group ≡ declared.now.partition.groups }
    ensures { IfOk result (λ said. SaysAround names.now.declaration.now texts.now.second declared.now start.now
        around.now (option_map (λ text. text.items) said)) }
{
    match around {
        Around::Plan { .. } => of_no_item(alloc, declared, names.declaration),
        Around::NoRescuer { .. } | Around::Circle { .. } => {
            say_start(alloc, names, declared, texts, start)
        }
    }
}

/// Says that the fixed workqueues in this file, which has this text, are refused.
fn say_refused_fixed<A: Allocator + Copy>(
    alloc: A,
    declared: &Declaration<'_, A>,
    declaration: &[u8],
    fixed: Source<'_>,
    code: u32,
    line: u32,
) -> Result<Option<Vec<u8, A>>, AllocError>
    ensures { IfOk result (λ said. Diagnoses fixed.entry.file.now (Some (record { code = code; line = line }))
        (option_map (λ text. text.items) said)) }
{
    let said = of_refused_fixed(alloc, declared, declaration, fixed, code, line)?;
    Ok(Some(said))
}

/// What is said of what `plan` found behind fixed workqueues that are read.
fn say_planned<A: Allocator + Copy>(
    alloc: A,
    seed: u64,
    names: &FileNames<'_>,
    declared: &Declaration<'_, A>,
    texts: &Texts<A>,
    planned: &Planned<A>,
) -> Result<Option<Vec<u8, A>>, AllocError>
    requires { (end : End) × (out : List ℕ) × PlansText declared.now texts.now.second (Read planned.now) end out }
    ensures { IfOk result (λ said. SaysPlanned names.now.declaration.now texts.now.second declared.now planned.now
        (option_map (λ text. text.items) said)) }
{
    match planned {
        Planned::Plain(end) => names.say(alloc, seed, &PlanCommand, declared, texts, end),
        Planned::Around(start, around) => say_around(alloc, names, declared, texts, start, around),
    }
}

/// What is said of what `plan` found.
fn say_plan<A: Allocator + Copy>(
    alloc: A,
    seed: u64,
    names: &FileNames<'_>,
    declared: &Declaration<'_, A>,
    texts: &Texts<A>,
    found: &Found<Planned<A>>,
) -> Result<Option<Vec<u8, A>>, AllocError>
    requires { (end : End) × (out : List ℕ) × PlansText declared.now texts.now.second found.now end out }
    ensures { IfOk result (λ said. SaysPlanAround names.now.declaration.now names.now.second.now names.now.run.now
        declared.now texts.now found.now (option_map (λ text. text.items) said)) }
{
    match found {
        Found::Refused { code, line, .. } => {
            let fixed = Source {
                file: names.second,
                text: texts.second(),
            };
            say_refused_fixed(alloc, declared, texts.first(), fixed, *code, *line)
        }
        Found::Read(planned) => say_planned(alloc, seed, names, declared, texts, planned),
    }
}

impl<A: Allocator + Copy> Voice<PlanAroundCommand, A> for FileNames<'_> {
    ghost use Rattle.wq_around_command.specs.Saying.{SaysPlanAround};

    ghost says = { λ names _ s texts found said.
        SaysPlanAround names.declaration.now names.second.now names.run.now s texts found said };

    fn say(
        &self,
        alloc: A,
        seed: u64,
        _command: &PlanAroundCommand,
        declared: &Declaration<'_, A>,
        texts: &Texts<A>,
        found: &Found<Planned<A>>,
    ) -> Result<Option<Vec<u8, A>>, AllocError> {
        say_plan(alloc, seed, self, declared, texts, found)
    }
}

/// Says that a certificate around fixed workqueues is refused.
fn say_refused_around<A: Allocator + Copy>(
    alloc: A,
    names: &FileNames<'_>,
    texts: &Texts<A>,
    code: u32,
    line: u32,
) -> Result<Option<Vec<u8, A>>, AllocError>
    ensures { IfOk result (λ said. Diagnoses names.now.second.now (Some (record { code = code; line = line }))
        (option_map (λ text. text.items) said)) }
{
    let certificate = Source {
        file: names.second,
        text: texts.second(),
    };
    let said = of_refused_around(alloc, certificate, code, line)?;
    Ok(Some(said))
}

/// What is said of this answer of the checker.
fn say_answer<A: Allocator + Copy>(
    alloc: A,
    names: &FileNames<'_>,
    declared: &Declaration<'_, A>,
    texts: &Texts<A>,
    answer: &Result<YesAround, NoAround>,
) -> Result<Option<Vec<u8, A>>, AllocError>
    ensures { IfOk result (λ said. SaysAnswerAround names.now.declaration.now names.now.second.now declared.now
        answer.now (option_map (λ text. text.items) said)) }
{
    match answer {
        Ok(_) => of_no_item(alloc, declared, names.declaration),
        Err(no) => {
            let certificate = Source {
                file: names.second,
                text: texts.second(),
            };
            let said = of_lack_around(alloc, certificate, no)?;
            Ok(Some(said))
        }
    }
}

/// What is said of what `check` found behind fixed workqueues that are read.
fn say_checked<A: Allocator + Copy>(
    alloc: A,
    seed: u64,
    names: &FileNames<'_>,
    declared: &Declaration<'_, A>,
    texts: &Texts<A>,
    checked: &Checked,
) -> Result<Option<Vec<u8, A>>, AllocError>
    requires { (end : End) × (out : List ℕ)
        × ChecksTexts declared.now texts.now.second texts.now.third (Read checked.now) end out }
    ensures { IfOk result (λ said. SaysChecked names.now.declaration.now names.now.second.now names.now.run.now
        declared.now texts.now checked.now (option_map (λ text. text.items) said)) }
{
    match checked {
        Checked::Plain(found) => names.say(alloc, seed, &CheckCommand, declared, texts, found),
        Checked::Around(Found::Refused { code, line, .. }) => {
            say_refused_around(alloc, names, texts, *code, *line)
        }
        Checked::Around(Found::Read(answer)) => say_answer(alloc, names, declared, texts, answer),
    }
}

/// What is said of what `check` found.
fn say_check<A: Allocator + Copy>(
    alloc: A,
    seed: u64,
    names: &FileNames<'_>,
    declared: &Declaration<'_, A>,
    texts: &Texts<A>,
    found: &Found<Checked>,
) -> Result<Option<Vec<u8, A>>, AllocError>
    requires { (end : End) × (out : List ℕ)
        × ChecksTexts declared.now texts.now.second texts.now.third found.now end out }
    ensures { IfOk result (λ said. SaysCheckAround names.now.declaration.now names.now.second.now names.now.run.now
        declared.now texts.now found.now (option_map (λ text. text.items) said)) }
{
    match found {
        Found::Refused { code, line, .. } => {
            let fixed = Source {
                file: names.run,
                text: texts.third(),
            };
            say_refused_fixed(alloc, declared, texts.first(), fixed, *code, *line)
        }
        Found::Read(checked) => say_checked(alloc, seed, names, declared, texts, checked),
    }
}

impl<A: Allocator + Copy> Voice<CheckAroundCommand, A> for FileNames<'_> {
    ghost use Rattle.wq_around_command.specs.Saying.{SaysCheckAround};

    ghost says = { λ names _ s texts found said.
        SaysCheckAround names.declaration.now names.second.now names.run.now s texts found said };

    fn say(
        &self,
        alloc: A,
        seed: u64,
        _command: &CheckAroundCommand,
        declared: &Declaration<'_, A>,
        texts: &Texts<A>,
        found: &Found<Checked>,
    ) -> Result<Option<Vec<u8, A>>, AllocError> {
        say_check(alloc, seed, self, declared, texts, found)
    }
}
