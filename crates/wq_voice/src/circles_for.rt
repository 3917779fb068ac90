//! What is said beside the answer of `circles` where items must go on: beside components and ways, how one of the items
//! is held up soonest, and which unsure flushes make no difference to them; beside `safe`, what is said beside each.
//!
//! A call takes the time and the memory of the words, and of the search for a shortest run.

ghost use Rattle.std.specs.Prelude.{◌≡◌, ◌<◌, ℕ, IfOk, List, Ok, length, map, option_map};
ghost use Rattle.std.specs.List.{All};
ghost use Rattle.wq_cert.specs.Texts.{workqueues_of_text};
ghost use Rattle.wq_circles.specs.HeldText.{CirclesTextFor};
ghost use Rattle.wq_commands.specs.declared.end.End.{End};
ghost use Rattle.wq_commands.specs.declared.found.Found.TheVariants.{Read};
ghost use Rattle.wq_voice.specs.VoiceFor.{SaysCirclesFor, SaysCirclesOfFor, SaysNamed};

use crate::file_names::FileNames;
use crate::held::{say_idle, say_soonest};
use crate::refused::say_refused_text;
use crate::safe::say_safe;
use crate::unknown::say_unknown;
use crate::was_read::assigned_of;
use std::alloc::{AllocError, Allocator};
use wq_circles::{CirclesForCommand, CirclingFor};
use wq_commands::{Found, Texts, Voice};
use wq_core::Assigned;
use wq_diagnosis::{CertificateKind, Source};
use wq_groups::Declaration;
use wq_text::put;

/// What is said of what can hold up these items, on workqueues whose text is the second.
fn say_circling_for<A: Allocator + Copy>(
    alloc: A,
    names: &FileNames<'_>,
    assigned: &Assigned<'_, '_, A>,
    texts: &Texts<A>,
    circling: &CirclingFor<A>,
) -> Result<Option<Vec<u8, A>>, AllocError>
    requires read { workqueues_of_text assigned.now.declared.table.names assigned.now.declared.partition
        texts.now.second ≡ Ok assigned.now.workqueues }
    requires same { assigned.now.workqueues ≡ circling.now.workqueues }
    requires named { All (λ i. i < length assigned.now.declared.table.names) circling.now.named.items }
    ensures { IfOk result (λ said. SaysCirclesFor names.now.declaration.now names.now.second.now texts.now.second
        assigned.now.declared circling.now (option_map (λ text. text.items) said)) }
{
    let declaration = Source {
        file: names.declaration,
        text: texts.first(),
    };
    let assignment = Source {
        file: names.second,
        text: texts.second(),
    };
    let named = circling.named.as_slice();
    match say_soonest(alloc, declaration, assignment, assigned, named)? {
        Some(mut said) => {
            let idle = say_idle(alloc, declaration, assignment, assigned, &circling.held)?;
            put(&mut said, &idle)?;
            Ok(Some(said))
        }
        None => say_safe(alloc, names.declaration, assignment, assigned),
    }
}

/// What is said of what was found in the texts, or of a name that is that of no item.
fn say_read_for<A: Allocator + Copy>(
    alloc: A,
    files: &FileNames<'_>,
    names: &[&str],
    declared: &Declaration<'_, A>,
    texts: &Texts<A>,
    read: &Option<CirclingFor<A>>,
) -> Result<Option<Vec<u8, A>>, AllocError>
    requires { (end : End) × (out : List ℕ) × CirclesTextFor declared.now (map (λ n. n.now) names.now)
        texts.now.second (Read read.now) end out }
    ensures { IfOk result (λ said. SaysNamed files.now.declaration.now (map (λ n. n.now) names.now) declared.now
        (λ r said. SaysCirclesFor files.now.declaration.now files.now.second.now texts.now.second declared.now
        r said) read.now
        (option_map (λ text. text.items) said)) }
{
    match read {
        None => {
            let declaration = Source {
                file: files.declaration,
                text: texts.first(),
            };
            say_unknown(alloc, declaration, declared, names)
        }
        Some(circling) => {
            let assigned = assigned_of(declared, &circling.workqueues);
            say_circling_for(alloc, files, &assigned, texts, circling)
        }
    }
}

/// What is said of what `circles` found where the items with these names must go on.
fn say_circles_for<A: Allocator + Copy>(
    alloc: A,
    files: &FileNames<'_>,
    names: &[&str],
    declared: &Declaration<'_, A>,
    texts: &Texts<A>,
    found: &Found<Option<CirclingFor<A>>>,
) -> Result<Option<Vec<u8, A>>, AllocError>
    requires { (end : End) × (out : List ℕ) × CirclesTextFor declared.now (map (λ n. n.now) names.now)
        texts.now.second found.now end out }
    ensures { IfOk result (λ said. SaysCirclesOfFor files.now.declaration.now files.now.second.now files.now.run.now
        (map (λ n. n.now) names.now) declared.now texts.now found.now (option_map (λ text. text.items) said)) }
{
    match found {
        Found::Refused { which, code, line } => {
            let kind = CertificateKind::Assignment;
            say_refused_text(alloc, files, kind, declared, texts, *which, *code, *line)
        }
        Found::Read(read) => say_read_for(alloc, files, names, declared, texts, read),
    }
}

impl<A: Allocator + Copy> Voice<CirclesForCommand<'_>, A> for FileNames<'_> {
    ghost use Rattle.std.specs.Prelude.{map};
    ghost use Rattle.wq_voice.specs.VoiceFor.{SaysCirclesOfFor};

    ghost says = { λ names command s texts found said.
        SaysCirclesOfFor names.declaration.now names.second.now names.run.now (map (λ n. n.now) command.names.now) s
        texts found said };

    fn say(
        &self,
        alloc: A,
        _seed: u64,
        command: &CirclesForCommand<'_>,
        declared: &Declaration<'_, A>,
        texts: &Texts<A>,
        found: &Found<Option<CirclingFor<A>>>,
    ) -> Result<Option<Vec<u8, A>>, AllocError> {
        say_circles_for(alloc, self, command.names, declared, texts, found)
    }
}
