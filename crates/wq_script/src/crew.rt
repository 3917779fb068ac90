//! The crew of a plan: a scripted body for each rescuer and each helper, and two scripted callers that share the items.
//!
//! The bodies make the flushes that their items declare. A body or a caller takes time and memory in the number of
//! items, and all bodies together in that times their number: 4 bytes for each pair of an item and a body.

ghost use Rattle.std.specs.Prelude.{◌≡◌, ◌<◌, length, vec_len, IfOk, OnErr};
ghost use Rattle.std.specs.List.{All};
ghost use Rattle.wq_rescuer.specs.Executing.{NeverRan};
ghost use Rattle.wq_script.specs.Scripts.{runs_of};
ghost use Rattle.wq_script.specs.Crews.{every_second, queued_then_flushed, shared_by_two};

use crate::acting::Act;
use crate::calling::ScriptCaller;
use crate::flushing::ScriptBody;
use std::alloc::{AllocError, Allocator};
use wq_items::{ItemId, ItemTable};

/// Makes this many bodies, each of which makes the flushes that the items of the table declare. None has run anything.
/// The only error is out of memory (20), and never if no body is wanted.
pub fn script_bodies<'t, 'a, A: Allocator + Copy>(
    alloc: A,
    table: &'t ItemTable<'a, A>,
    count: usize,
) -> Result<Vec<ScriptBody<'t, 'a, A>, A>, AllocError>
    ensures waits { IfOk result (λ bs. All (λ b. b.waits ≡ table.now.waits) bs.items) }
    ensures width { IfOk result (λ bs. All (λ b. length b.runs ≡ length table.now.names) bs.items) }
    ensures never_ran { IfOk result (λ bs. All (λ b. NeverRan (runs_of b)) bs.items) }
    ensures one_each { IfOk result (λ bs. vec_len bs ≡ count) }
    ensures memory { OnErr result (0 < count) }
{
    let mut bodies = Vec::new(alloc);
    for _ in 0..count {
        let body = ScriptBody::new(alloc, table)?;
        bodies.push(body)?;
    }
    Ok(bodies)
}

/// A caller that queues every second one of this many items, from the first one on, and then flushes them.
fn script_caller<A: Allocator + Copy>(
    alloc: A,
    first: u16,
    count: u16,
) -> Result<ScriptCaller<A>, AllocError>
    ensures { IfOk result (λ caller. caller ≡ queued_then_flushed (every_second first count)) }
{
    let mut acts = Vec::new(alloc);
    for i in 0..count {
        if i % 2 == first {
            acts.push(Act::Queue(ItemId::new(i)))?;
        }
    }
    for i in 0..count {
        if i % 2 == first {
            acts.push(Act::Flush(ItemId::new(i)))?;
        }
    }
    Ok(ScriptCaller::new(acts))
}

/// Makes two callers that queue this many items and then flush them, in order: one the items with even numbers, the
/// other those with odd numbers. The only error is out of memory (20).
pub fn script_callers<A: Allocator + Copy>(
    alloc: A,
    count: u16,
) -> Result<Vec<ScriptCaller<A>, A>, AllocError>
    ensures { IfOk result (λ callers. callers.items ≡ shared_by_two count) }
{
    let even = script_caller(alloc, 0, count)?;
    let odd = script_caller(alloc, 1, count)?;
    let mut callers = Vec::new(alloc);
    callers.push(even)?;
    callers.push(odd)?;
    Ok(callers)
}
