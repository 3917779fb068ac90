//! Rounds on some lanes.
//!
//! What doesn't depend on the lanes is made once, and the memory of one search serves all. So each answer takes the
//! time of a search for each item of its lanes, and memory for its own hops alone.

ghost use Rattle.std.specs.Prelude.{◌≡◌, ◌<◌, ℕ, List, length, replicate, slice_index_or, true, false, Contains, ◌↔◌};
ghost use Rattle.std.specs.Prelude.{IfOk, OnOk, IfSome, IfNone};
ghost use Rattle.wq_groups.specs.DeclaredGroups.{declared_waits};
ghost use Rattle.wq_core.specs.Wiring.{HasRescuer};
ghost use Rattle.wq_core.specs.Workqueues.{wiring_of, with_bare};
ghost use Rattle.wq_hang.specs.declared.hop.Hop.{Hop};
ghost use Rattle.wq_hang.specs.Walk.{BeginsUnsure, IsRoundOn, IsLeastRoundOn};

use crate::bounds::by_falling_numbers;
use crate::hop::Hop;
use crate::least::{MOST, least_round_settled};
use crate::marks::marked_lanes;
use crate::numbering::lane_numbers;
use crate::on_lanes::{items_on_lanes, marked_items_of};
use crate::search::Search;
use crate::waits::Waits;
use crate::wires::Wires;
use std::alloc::{AllocError, Allocator};
use std::marker::Model;
use wq_buckets::Buckets;
use wq_core::Assigned;
use wq_groups::LaneId;

/// The rounds of workqueues, of which a least one is found for any lanes. Contracts see the wiring.
#[derive(Drop)]
pub struct Rounds<'t, 'a, A: Allocator> {
    wires: Wires<'t, 'a, A>,
    on: Buckets<A>,
    marks: Vec<bool, A>,
    order: Vec<u16, A>,
    bare: Vec<bool, A>,
    passed: Vec<u32, A>,
    search: Search<A>,
}

impl<'t, 'a, A: Allocator> Model for Rounds<'t, 'a, A> {
    ghost use Rattle.wq_core.specs.Wiring.{Wiring};
    ghost use Rattle.wq_hang.specs.Search.{AreMade};

    ghost Value = { Wiring };

    ghost view = { λ r. r.wires };

    ghost invariant = { λ r. AreMade r.wires r.on r.marks.items };
}

/// Leaves out all of this many lanes.
fn leave_all_out<A: Allocator>(bare: &mut Vec<bool, A>, lanes: usize) -> Result<(), AllocError>
    ensures { OnOk result (bare.new.items ≡ replicate lanes true) }
{
    bare.resize(lanes, true)?;
    bare.fill(true);
    Ok(())
}

/// Leaves out all lanes but these: for each lane whether it is bare or isn't one of them.
fn leave_others_out<A: Allocator + Copy>(
    wires: &Wires<'_, '_, A>,
    lanes: &[u32],
    bare: &mut Vec<bool, A>,
) -> Result<(), AllocError>
    ensures { OnOk result ((q : ℕ) → q < wires.now.lanes →
        (HasRescuer (with_bare wires.now bare.new.items) q ↔ (HasRescuer wires.now q × Contains lanes.now q))) }
{
    let count = wires.lanes();
    leave_all_out(bare, count)?;
    for q in lanes {
        let at = *q as usize;
        if at < count {
            bare[at] = !wires.has_rescuer(LaneId::new(at as u16));
        }
    }
    Ok(())
}

impl<'t, 'a, A: Allocator + Copy> Rounds<'t, 'a, A> {
    /// Those of the workqueues of declared groups.
    ///
    /// The only error is out of memory (20).
    pub fn new(alloc: A, assigned: &Assigned<'t, 'a, A>) -> Result<Self, AllocError>
        ensures { IfOk result (λ r. r ≡ wiring_of (declared_waits assigned.now.declared) assigned.now.workqueues) }
    {
        let workqueues = assigned.workqueues();
        let numbers = lane_numbers(alloc, assigned)?;
        let wires = Wires::new(alloc, assigned)?;
        let waits = Waits::new(&wires, workqueues.bare());
        let on = items_on_lanes(alloc, &waits)?;
        let marks = marked_lanes(alloc, &waits, &numbers)?;
        let order = by_falling_numbers(alloc, &numbers)?;
        Ok(Rounds {
            wires,
            on,
            marks,
            order,
            bare: Vec::new(alloc),
            passed: Vec::new(alloc),
            search: Search::new(alloc),
        })
    }

    /// A least one of the rounds all of whose waiting items are on these lanes, if there is one: with the fewest unsure
    /// flushes, and then with the fewest steps. It begins with an unsure flush if it has one. A number that is no
    /// lane's is passed over.
    ///
    /// The only error is out of memory (20).
    pub fn least_on(&mut self, alloc: A, lanes: &[u32]) -> Result<Option<Vec<Hop, A>>, AllocError>
        ensures some { IfOk result (λ found. IfSome found (λ hops. IsLeastRoundOn self.old lanes.now hops.items)) }
        ensures none { IfOk result (λ found. IfNone found ((hops : List Hop) → ¬ IsRoundOn self.old lanes.now hops)) }
        ensures begins { IfOk result (λ found. IfSome found (λ hops. BeginsUnsure hops.items)) }
        ensures wiring { self.new ≡ self.old }
    {
        let _lanes = self.wires.lanes();
        leave_others_out(&self.wires, lanes, &mut self.bare)?;
        marked_items_of(&self.on, &self.marks, lanes, &mut self.passed)?;
        let waits = Waits::new(&self.wires, self.bare.as_slice());
        least_round_settled(
            alloc,
            &waits,
            &self.on,
            self.order.as_slice(),
            &mut self.search,
            self.passed.as_slice(),
            MOST,
        )
    }
}
