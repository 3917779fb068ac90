//! How each flush of a drawing looks: the flushes of a chain are bold; those of components, and those that lead to a
//! workqueue without a rescuer, are red; the waits of a shortest run that ends stuck are bold and red; the others are
//! plain.
//!
//! The rule is that of "The command `dot`" in docs/FORMAT.md. A flush is identified by its place. So if several have
//! the same item and target, only the one that is meant is marked. It takes time and memory linear in the number of
//! flushes.

ghost use Rattle.std.specs.Prelude.{◌≡◌, ◌<◌, ◌^◌, ◌++◌, length, map, flat_map, IfOk};
ghost use Rattle.std.specs.List.{All};
ghost use Rattle.wq_items.specs.Table.{flush_count};
ghost use Rattle.wq_dot.specs.declared.look.FlushLook.{FlushLook};
ghost use Rattle.wq_dot.specs.Flushes.{AreFlushes, AreMarkable, all_arcs, bold_red, looks_of, marked, red_looks_of};
ghost use Rattle.wq_dot.specs.Flushes.{with_bold_red, with_marks};

use crate::look::FlushLook;
use std::alloc::{AllocError, Allocator};
use wq_graph::WaitArc;
use wq_hang::Hop;
use wq_items::ItemTable;

/// How many of these looks aren't plain.
pub(crate) fn marked(looks: &[FlushLook]) -> u32
    requires { length looks.now < 2 ^ 32 }
    ensures { result ≡ marked looks.now }
{
    looks.iter().filter(|look| look.is_marked()).count() as u32
}

/// How many of these looks are both bold and red.
pub(crate) fn bold_red(looks: &[FlushLook]) -> u32
    requires { length looks.now < 2 ^ 32 }
    ensures { result ≡ bold_red looks.now }
{
    looks.iter().filter(|look| look.is_bold_red()).count() as u32
}

/// Gives the flushes of these arcs this look.
fn mark(looks: &mut [FlushLook], arcs: &[WaitArc], look: FlushLook)
    requires { AreMarkable (length looks.old) arcs.now }
    ensures { looks.new ≡ with_marks look looks.old arcs.now }
{
    for arc in arcs {
        looks[arc.place as usize] = look;
    }
}

/// Makes the flushes of these waits bold and red.
fn mark_bold_red(looks: &mut [FlushLook], hops: &[Hop])
    requires { AreFlushes (length looks.old) hops.now }
    ensures { looks.new ≡ with_bold_red looks.old hops.now }
{
    for hop in hops {
        looks[hop.flush.place as usize] = FlushLook::BoldRed;
    }
}

/// How each flush of a table's items looks, in order of place: the flushes of the chain are bold.
pub(crate) fn bold_flushes<A: Allocator + Copy>(
    alloc: A,
    table: &ItemTable<'_, A>,
    chain: &[WaitArc],
) -> Result<Vec<FlushLook, A>, AllocError>
    requires { AreMarkable (flush_count table.now.waits) chain.now }
    ensures { IfOk result (λ looks. looks.items ≡ looks_of (flush_count table.now.waits) FlushLook.Bold chain.now) }
{
    let mut looks = vec![in alloc; FlushLook::Plain; table.flushes() as usize]?;
    mark(looks.as_mut_slice(), chain, FlushLook::Bold);
    Ok(looks)
}

/// How each flush of a table's items looks, in order of place: the flushes of the components, and `waits`, are red.
fn red_flushes<A: Allocator + Copy>(
    alloc: A,
    table: &ItemTable<'_, A>,
    components: &[Vec<WaitArc, A>],
    waits: &[WaitArc],
) -> Result<Vec<FlushLook, A>, AllocError>
    requires places { All (AreMarkable (flush_count table.now.waits)) (map (λ l. l.items) components.now) }
    requires waits { AreMarkable (flush_count table.now.waits) waits.now }
    ensures { IfOk result (λ looks. looks.items
        ≡ looks_of (flush_count table.now.waits) FlushLook.Red (all_arcs (map (λ l. l.items) components.now)
        ++ waits.now)) }
{
    let mut looks = vec![in alloc; FlushLook::Plain; table.flushes() as usize]?;
    for arcs in components {
        mark(looks.as_mut_slice(), arcs, FlushLook::Red);
    }
    mark(looks.as_mut_slice(), waits, FlushLook::Red);
    Ok(looks)
}

/// How each flush of a table's items looks, in order of place: the flushes of the components, and `waits`, are red, but
/// those of the waits `hops` of a run are bold and red.
pub(crate) fn hanging_flushes<A: Allocator + Copy>(
    alloc: A,
    table: &ItemTable<'_, A>,
    components: &[Vec<WaitArc, A>],
    waits: &[WaitArc],
    hops: &[Hop],
) -> Result<Vec<FlushLook, A>, AllocError>
    requires places { All (AreMarkable (flush_count table.now.waits)) (map (λ l. l.items) components.now) }
    requires waits { AreMarkable (flush_count table.now.waits) waits.now }
    requires hops { AreFlushes (flush_count table.now.waits) hops.now }
    ensures { IfOk result (λ looks. looks.items
        ≡ red_looks_of (flush_count table.now.waits) hops.now (all_arcs (map (λ l. l.items) components.now)
        ++ waits.now)) }
{
    let mut looks = red_flushes(alloc, table, components, waits)?;
    mark_bold_red(looks.as_mut_slice(), hops);
    Ok(looks)
}
