//! Laws about items that must go on: by which walks they are held up, and how soon. No code runs here: the clauses are
//! the laws.

ghost use Rattle.std.specs.Prelude.{◌≡◌, ◌↔◌, ℕ, ◌+◌, ◌*◌, ◌<◌, ◌≤◌, ◌⊎◌, List, [], ◌∷◌, length, Contains};
ghost use Rattle.std.specs.List.{All};
ghost use Rattle.wq_groups.specs.Assignment.{max_lanes};
ghost use Rattle.wq_core.specs.declared.step.Step.{Step};
ghost use Rattle.wq_core.specs.Wiring.{Wiring, IsWiring, HasRescuer, items, lane_of};
ghost use Rattle.wq_core.specs.MustGoOn.{IsSafeFor, rescued_items};
ghost use Rattle.wq_core.specs.Readings.{reading};
ghost use Rattle.wq_hang.specs.declared.hop.Hop.{Hop};
ghost use Rattle.wq_hang.specs.Shortest.{IsFewest};
ghost use Rattle.wq_hang.specs.ShortestFor.{EndsStuckFor, IsFewestFor};
ghost use Rattle.wq_hang.specs.Walk.{ArePlacesApart, needs, run_of_walk, unsure_cost, unsure_hops, walk_steps};
ghost use Rattle.wq_hang.specs.WalkFor.{IsLeastWalkFor, IsWalkFor, cost_for, pending_for};

/// Some run ends stuck for these items exactly if there is a walk that holds one of them up. So it depends on the lane
/// of an item alone whether it can be held up, if that has a rescuer.
pub fn items_are_held_up_by_walks()
    ensures walk { (w : Wiring) (named : List ℕ) (n : ℕ) (steps : List Step) → IsWiring w →
        All (λ i. i < items w) named → EndsStuckFor w named n steps →
        (x : ℕ) × (hops : List Hop) × IsWalkFor w named x hops }
    ensures run { (w : Wiring) (named : List ℕ) (x : ℕ) (hops : List Hop) → IsWiring w → IsWalkFor w named x hops →
        (steps : List Step) × EndsStuckFor w named 0 steps }
    ensures safe { (w : Wiring) (named : List ℕ) → IsWiring w → All (λ i. i < items w) named →
        ((x : ℕ) (hops : List Hop) → ¬ IsWalkFor w named x hops) → IsSafeFor w named }
    ensures lanes { (w : Wiring) (i j : ℕ) → IsWiring w → i < items w → j < items w → lane_of w i ≡ lane_of w j →
        HasRescuer w (lane_of w i) → IsSafeFor w (i ∷ []) → IsSafeFor w (j ∷ []) }
{}

/// If a run ends stuck for these items, whatever the number of helpers, there is a walk whose run has no more steps. Of
/// a reading: there is a walk of all flushes that costs no more than the unsure flushes that the reading keeps and the
/// steps of the run.
pub fn a_run_that_holds_items_up_has_a_walk()
    ensures steps { (w : Wiring) (named : List ℕ) (n : ℕ) (steps : List Step) → IsWiring w →
        All (λ i. i < items w) named → EndsStuckFor w named n steps →
        (x : ℕ) × (hops : List Hop) × IsWalkFor w named x hops
        × (walk_steps hops (pending_for w x hops) ≤ length steps) }
    ensures reading { (w : Wiring) (named kept : List ℕ) (n : ℕ) (steps : List Step) → IsWiring w → ArePlacesApart w →
        All (λ i. i < items w) named → EndsStuckFor (reading w kept) named n steps →
        (x : ℕ) × (hops : List Hop) × IsWalkFor w named x hops
        × (cost_for w x hops ≤ unsure_cost * length kept + length steps) }
{}

/// The run of a least walk for these items is a shortest run that ends stuck for them, of the reading that keeps its
/// unsure flushes; no reading that keeps fewer has one, nor has one that keeps as few a shorter one.
pub fn a_least_walk_for_items_has_a_shortest_run()
    ensures fewest { (w : Wiring) (named : List ℕ) (x : ℕ) (hops : List Hop) → IsWiring w → ArePlacesApart w →
        w.lanes ≤ max_lanes → IsLeastWalkFor w named x hops →
        IsFewestFor w named (needs hops) (run_of_walk w hops (pending_for w x hops)) }
    ensures one_each { (w : Wiring) (named : List ℕ) (x : ℕ) (hops : List Hop) → IsWiring w → ArePlacesApart w →
        IsLeastWalkFor w named x hops → length (needs hops) ≡ length (unsure_hops hops) }
{}

/// Without names it is as if all items must go on whose lanes have a rescuer.
pub fn without_names_all_items_with_a_rescuer_must_go_on()
    ensures { (w : Wiring) (kept : List ℕ) (steps : List Step) → IsWiring w →
        IsFewestFor w (rescued_items w) kept steps ↔ IsFewest w kept steps }
{}

/// More items hang no later: with fewer unsure flushes, or with as many and no more steps.
pub fn more_items_are_held_up_no_later()
    ensures { (w : Wiring) (named more kept fewer : List ℕ) (steps others : List Step) →
        ((i : ℕ) → Contains named i → Contains more i) → IsFewestFor w named kept steps →
        IsFewestFor w more fewer others →
        (length fewer < length kept) ⊎ ((length fewer ≡ length kept) × (length others ≤ length steps)) }
{}
