//! Laws about ranks, about what remains, and about the circle of the walk, as contracts of functions with empty bodies.
ghost use Rattle.std.specs.Prelude.{◌≡◌, ℕ, ◌+◌, ◌<◌, ◌≤◌, ◌⊎◌, List, length, slice_index, Contains};
ghost use Rattle.std.specs.List.{All, Any};
ghost use Rattle.wq_items.specs.Chain.{HasCircle};
ghost use Rattle.wq_graph.specs.declared.arc.WaitArc.{WaitArc};
ghost use Rattle.wq_graph.specs.Graph.{IsGraph, HasArc, arcs_at};
ghost use Rattle.wq_levels.specs.Ranks.{AreRanks};
ghost use Rattle.wq_levels.specs.Walks.{IsWalkedCircle, LeadsRound, Remains};

/// A wait graph has ranks, or a circle that the walk runs into.
pub fn a_graph_has_ranks_or_a_circle()
    ensures { (graph : List (List WaitArc)) → IsGraph graph →
        ((ranks : List ℕ) × AreRanks graph ranks) ⊎ ((circle : List WaitArc) × IsWalkedCircle graph circle) }
{}

/// A wait graph doesn't have both: if its vertices have ranks, there is no circle.
pub fn ranks_rule_out_the_circle()
    ensures walked { (graph : List (List WaitArc)) (ranks : List ℕ) (circle : List WaitArc) →
        IsGraph graph → AreRanks graph ranks → ¬ IsWalkedCircle graph circle }
    ensures any { (graph : List (List WaitArc)) (ranks : List ℕ) →
        AreRanks graph ranks → ¬ HasCircle (HasArc graph) (length graph) }
{}

/// A wait graph has at most one list of ranks.
pub fn the_ranks_are_the_only_ones()
    ensures { (graph : List (List WaitArc)) (one other : List ℕ) →
        AreRanks graph one → AreRanks graph other → one ≡ other }
{}

/// The rank of a vertex is one above the highest rank of those that its arcs lead to, or 0 if it has no arc. It is
/// below the number of vertices.
pub fn ranks_fall_along_arcs()
    ensures fall { (graph : List (List WaitArc)) (ranks : List ℕ) (v w : ℕ) → IsGraph graph → AreRanks graph ranks →
        v < length graph → HasArc graph v w → slice_index ranks w < slice_index ranks v }
    ensures by_one { (graph : List (List WaitArc)) (ranks : List ℕ) (v r : ℕ) → IsGraph graph → AreRanks graph ranks →
        v < length graph → slice_index ranks v ≡ r + 1 →
        Any (λ (a : WaitArc). slice_index ranks a.head ≡ r) (arcs_at graph v) }
    ensures few { (graph : List (List WaitArc)) (ranks : List ℕ) →
        IsGraph graph → AreRanks graph ranks → All (λ r. r < length graph) ranks }
{}

/// The walk runs into at most one circle.
pub fn the_circle_is_the_only_one()
    ensures { (graph : List (List WaitArc)) (one other : List WaitArc) →
        IsGraph graph → IsWalkedCircle graph one → IsWalkedCircle graph other → one ≡ other }
{}

/// The circle of the walk is a circle: its arcs are arcs of the graph, they lead round, and no vertex is left twice.
pub fn a_walked_circle_is_a_circle()
    ensures round { (graph : List (List WaitArc)) (circle : List WaitArc) →
        IsWalkedCircle graph circle → LeadsRound graph circle }
    ensures few { (graph : List (List WaitArc)) (circle : List WaitArc) →
        IsWalkedCircle graph circle → length circle ≤ length graph }
    ensures has_circle { (graph : List (List WaitArc)) (circle : List WaitArc) →
        IsGraph graph → IsWalkedCircle graph circle → HasCircle (HasArc graph) (length graph) }
{}

/// If there is any circle, the walk runs into one.
pub fn the_walk_finds_a_circle()
    ensures { (graph : List (List WaitArc)) → IsGraph graph → HasCircle (HasArc graph) (length graph) →
        (circle : List WaitArc) × IsWalkedCircle graph circle }
{}

/// Each vertex that remains has an arc to one that remains; and any set of vertices that each have an arc into the set
/// remains.
pub fn what_remains_is_what_holds_each_other()
    ensures held { (graph : List (List WaitArc)) (v : ℕ) →
        IsGraph graph → Remains graph v → Any (λ (a : WaitArc). Remains graph a.head) (arcs_at graph v) }
    ensures most { (graph : List (List WaitArc)) (vs : List ℕ) →
        All (λ v. (v < length graph) × Any (λ (a : WaitArc). Contains vs a.head) (arcs_at graph v)) vs →
        All (Remains graph) vs }
{}
