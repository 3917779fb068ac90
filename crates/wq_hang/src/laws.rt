//! Laws about shortest hangs, as contracts of functions with empty bodies. No code runs here: the clauses are the laws.

ghost use Rattle.std.specs.Prelude.{◌≡◌, ◌↔◌, ℕ, ◌+◌, ◌*◌, ◌<◌, ◌≤◌, true, List, [], length, Contains};
ghost use Rattle.std.specs.List.Sorted.{IsStrictlyIncreasing};
ghost use Rattle.wq_items.specs.Table.{max_flushes};
ghost use Rattle.wq_items.specs.Readings.{unsure_places};
ghost use Rattle.wq_groups.specs.Assignment.{max_lanes};
ghost use Rattle.wq_core.specs.declared.step.Step.{Step};
ghost use Rattle.wq_core.specs.Wiring.{Wiring, IsWiring};
ghost use Rattle.wq_core.specs.Deadlock.{IsSafe};
ghost use Rattle.wq_core.specs.Readings.{reading};
ghost use Rattle.wq_hang.specs.declared.hop.Hop.{Hop};
ghost use Rattle.wq_hang.specs.Shortest.{EndsStuck, IsShortestHang, IsFewest};
ghost use Rattle.wq_hang.specs.Walk.{ArePlacesApart, IsWalk, IsLeastWalk, needs, run_of_walk, unsure_cost, unsure_hops};
ghost use Rattle.wq_hang.specs.Walk.{walk_cost, walk_steps};

/// Where a run ends stuck, whatever the number of helpers, there is a walk whose run has no more steps.
pub fn a_stuck_run_has_a_walk()
    ensures { (w : Wiring) (n : ℕ) (steps : List Step) → IsWiring w → EndsStuck w n steps →
        (hops : List Hop) × (beside : List ℕ) × IsWalk w hops beside × (walk_steps hops beside ≤ length steps) }
{}

/// Where a run of a reading ends stuck, there is a walk of all flushes that costs no more than the unsure flushes that
/// the reading keeps and the steps of the run.
pub fn a_stuck_run_of_a_reading_has_a_walk()
    ensures { (w : Wiring) (kept : List ℕ) (n : ℕ) (steps : List Step) → IsWiring w → ArePlacesApart w →
        EndsStuck (reading w kept) n steps →
        (hops : List Hop) × (beside : List ℕ) × IsWalk w hops beside
        × (walk_cost hops beside ≤ unsure_cost * length kept + length steps) }
{}

/// The run of a least walk is a shortest run that ends stuck of the reading that keeps its unsure flushes; no reading
/// that keeps fewer hangs, nor one that keeps as few with fewer steps. It has as many steps as the walk has. Where
/// there is no walk, no run ends stuck. With more than 4,096 lanes a walk of sure flushes might cost more than one with
/// an unsure flush.
pub fn a_least_walk_has_a_shortest_run()
    ensures fewest { (w : Wiring) (hops : List Hop) (beside : List ℕ) → IsWiring w → ArePlacesApart w →
        w.lanes ≤ max_lanes → IsLeastWalk w hops beside → IsFewest w (needs hops) (run_of_walk w hops beside) }
    ensures one_each { (w : Wiring) (hops : List Hop) (beside : List ℕ) → IsWiring w → ArePlacesApart w →
        IsLeastWalk w hops beside → length (needs hops) ≡ length (unsure_hops hops) }
    ensures as_long { (w : Wiring) (hops : List Hop) (beside : List ℕ) →
        length (run_of_walk w hops beside) ≡ walk_steps hops beside }
    ensures safe { (w : Wiring) → IsWiring w → ((hops : List Hop) (beside : List ℕ) → ¬ IsWalk w hops beside) →
        IsSafe w }
{}

/// Without unsure flushes a fewest hang keeps none of them, and is a shortest hang.
pub fn without_unsure_flushes_it_is_a_shortest_hang()
    ensures { (w : Wiring) (kept : List ℕ) (steps : List Step) → unsure_places w.waits ≡ [] →
        (IsFewest w kept steps ↔ ((kept ≡ []) × IsShortestHang w steps)) }
{}

/// A walk needs the places of its unsure flushes, in order of place: those below 16,384, as all places of a declaration
/// are.
pub fn a_walk_needs_the_places_of_its_unsure_flushes()
    ensures rise { (hops : List Hop) → IsStrictlyIncreasing (needs hops) }
    ensures few { (hops : List Hop) → length (needs hops) ≤ max_flushes }
    ensures each { (hops : List Hop) (p : ℕ) → Contains (needs hops) p
        ↔ ((p < max_flushes) × ((h : Hop) × Contains hops h × (h.flush.unsure ≡ true) × (h.flush.place ≡ p))) }
{}
