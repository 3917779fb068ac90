//! The flushes that a declaration declares, in order of place, while its lines are read.
//!
//! The rules are those of "Items and groups" in docs/FORMAT.md. All flushes of all items are in one vector. Each call
//! takes constant time, amortized for a push, but `by_item` takes O(items + flushes).

ghost use Rattle.std.specs.Prelude.{◌≡◌, ◌<◌, ◌++◌, ◌∷◌, [], length, slice_set, OnOk, OnErr, IfOk, IfErr};
ghost use Rattle.wq_items.specs.Table.{targets_of, flush_count};

use crate::target::{ItemId, Target};
use crate::waits::Waits;
use std::alloc::{AllocError, Allocator};
use std::marker::Model;

/// One declared flush: the item whose function has it, and its target.
#[derive(Clone, Copy)]
pub(crate) struct Flush {
    pub(crate) item: ItemId,
    pub(crate) target: Target,
}

/// The flushes of the items. Contracts see each item's list of targets.
#[derive(Drop)]
pub(crate) struct Flushes<A: Allocator> {
    flushes: Vec<Flush, A>,
    items: u16,
}

impl<A: Allocator> Model for Flushes<A> {
    ghost use Rattle.std.specs.Prelude.{◌≡◌, ◌<◌, List, length};
    ghost use Rattle.std.specs.List.{All};
    ghost use Rattle.wq_items.specs.declared.target.Target.{Target};
    ghost use Rattle.wq_items.specs.declared.flush.Flush.{Flush};
    ghost use Rattle.wq_items.specs.Table.{flush_count};
    ghost use Rattle.wq_items.specs.Waits.{waits_of};

    ghost Value = { List (List Target) };

    ghost view = { λ f. waits_of f.flushes.items f.items };

    ghost invariant = { λ f. All (λ (x : Flush). x.item < f.items) f.flushes.items
        × (length f.flushes.items ≡ flush_count (waits_of f.flushes.items f.items)) };
}

/// If there is no room for another flush, makes room for four times as many, so that they are rarely moved. If this
/// allocation fails, the next push asks for less.
fn make_room<A: Allocator>(flushes: &mut Vec<Flush, A>)
    ensures { flushes.new.items ≡ flushes.old.items }
{
    let len = flushes.len();
    if len == flushes.capacity() {
        flushes.reserve(len.saturating_mul(3)).ok();
    }
}

/// Appends a flush, and makes room for others.
#[cold]
#[inline(never)]
fn push_last<A: Allocator>(flushes: &mut Vec<Flush, A>, flush: Flush) -> Result<(), AllocError>
    ensures ok { OnOk result (flushes.new.items ≡ flushes.old.items ++ (flush ∷ [])) }
    ensures err { OnErr result (flushes.new.items ≡ flushes.old.items) }
{
    flushes.push(flush)?;
    make_room(flushes);
    Ok(())
}

/// Appends a flush. There is mostly room for it and for another one, so that is all that is compiled into the caller.
#[inline(always)]
fn push<A: Allocator>(flushes: &mut Vec<Flush, A>, flush: Flush) -> Result<(), AllocError>
    ensures ok { OnOk result (flushes.new.items ≡ flushes.old.items ++ (flush ∷ [])) }
    ensures err { OnErr result (flushes.new.items ≡ flushes.old.items) }
{
    if flushes.capacity() - flushes.len() > 1 {
        flushes.push_reserved(flush);
        return Ok(());
    }
    push_last(flushes, flush)
}

impl<A: Allocator + Copy> Flushes<A> {
    /// No items.
    pub(crate) fn new(alloc: A) -> Self
        ensures { result ≡ [] }
    {
        Flushes {
            flushes: Vec::new(alloc),
            items: 0,
        }
    }

    /// The number of flushes of all items.
    pub(crate) fn len(&self) -> usize
        ensures { result ≡ flush_count self.now }
    {
        self.flushes.len()
    }

    /// Adds an item, without a target.
    pub(crate) fn push_item(&mut self)
        requires { length self.old < 65535 }
        ensures { self.new ≡ self.old ++ ([] ∷ []) }
    {
        self.items += 1;
    }

    /// Adds a target to an item.
    #[inline(always)]
    pub(crate) fn push_target(&mut self, i: usize, target: Target) -> Result<(), AllocError>
        requires { i < length self.old }
        ensures ok { OnOk result (self.new ≡ slice_set self.old i (targets_of self.old i ++ (target ∷ []))) }
        ensures err { OnErr result (self.new ≡ self.old) }
    {
        let flushes = &mut self.flushes;
        let flush = Flush {
            item: ItemId::new(i as u16),
            target,
        };
        push(flushes, flush)?;
        Ok(())
    }

    /// The targets of each item. The only error is out of memory, which can't occur if there is no item.
    pub(crate) fn by_item(self, alloc: A) -> Result<Waits<A>, AllocError>
        requires { flush_count self < 4294967296 }
        ensures waits { IfOk result (λ waits. waits ≡ self) }
        ensures memory { IfErr result (λ _. 0 < length self) }
    {
        Waits::new(alloc, self.flushes.as_slice(), self.items)
    }
}
