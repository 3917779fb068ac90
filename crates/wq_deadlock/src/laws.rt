//! Laws about verdicts, as contracts of functions with empty bodies.
ghost use Rattle.std.specs.Prelude.{◌≡◌, ℕ, ◌+◌, ◌*◌, ◌≤◌, ◌↔◌, ◌⊎◌, List, length};
ghost use Rattle.std.specs.List.{All};
ghost use Rattle.wq_items.specs.Table.{flush_count};
ghost use Rattle.wq_groups.specs.Declaration.{Declaration, IsDeclaration};
ghost use Rattle.wq_groups.specs.Assignment.{Assignment, IsAssignment};
ghost use Rattle.wq_graph.specs.declared.arc.WaitArc.{WaitArc};
ghost use Rattle.wq_graph.specs.Graph.{group_graph, lane_graph};
ghost use Rattle.wq_levels.specs.Walks.{IsWalkedCircle};
ghost use Rattle.wq_core.specs.declared.step.Step.{Step};
ghost use Rattle.wq_core.specs.Wiring.{Wiring, wiring, own_lanes};
ghost use Rattle.wq_core.specs.State.{State};
ghost use Rattle.wq_core.specs.Deadlock.{IsSafe, DeadlocksBy, Deadlocks};
ghost use Rattle.wq_core.specs.Played.{IsPlayedFrom};
ghost use Rattle.wq_deadlock.specs.Bounds.{IsNamed};
ghost use Rattle.wq_deadlock.specs.CircleRun.{IsCircleRun};

/// If each group g has lane g, the lanes wait as the groups do, arc by arc.
pub fn own_lanes_wait_as_groups_do()
    ensures { (d : Declaration) → IsDeclaration d → lane_graph d (own_lanes d.groups) ≡ group_graph d }
{}

/// An assignment is either safe, or some run deadlocks in which each item is queued once and flushes as declared:
/// unsafe and deadlocking are the same.
pub fn unsafe_is_deadlocking()
    ensures one { (d : Declaration) (a : Assignment) → IsDeclaration d → IsAssignment d.groups a →
        IsSafe (wiring d a) ⊎ Deadlocks (wiring d a) }
    ensures not_both { (w : Wiring) → Deadlocks w → ¬ IsSafe w }
    ensures same { (d : Declaration) (a : Assignment) → IsDeclaration d → IsAssignment d.groups a →
        ((¬ IsSafe (wiring d a)) ↔ Deadlocks (wiring d a)) }
{}

/// A circle in which the lanes wait has a run, and by this run the assignment deadlocks.
pub fn a_circle_has_a_run()
    ensures run { (d : Declaration) (a : Assignment) (circle : List WaitArc) → IsDeclaration d →
        IsAssignment d.groups a →
        IsWalkedCircle (lane_graph d a) circle → (steps : List Step) × IsCircleRun (wiring d a) circle steps }
    ensures deadlocks { (d : Declaration) (a : Assignment) (circle : List WaitArc) (steps : List Step) →
        IsDeclaration d →
        IsAssignment d.groups a → IsWalkedCircle (lane_graph d a) circle → IsCircleRun (wiring d a) circle steps →
        DeadlocksBy (wiring d a) steps }
{}

/// Only one run is played from a state. So a circle has only one run.
pub fn the_run_is_the_only_one()
    ensures played { (w : Wiring) (s : State) (one other : List Step) →
        IsPlayedFrom w s one → IsPlayedFrom w s other → one ≡ other }
    ensures of_a_circle { (w : Wiring) (circle : List WaitArc) (one other : List Step) →
        IsCircleRun w circle one → IsCircleRun w circle other → one ≡ other }
{}

/// The steps of a run by which an assignment deadlocks name items and lanes that exist. There are at most three for
/// each item, which is queued, started and finished, and two for each declared flush, whose wait begins and is over. So
/// a run has at most 45,056 steps.
pub fn a_deadlocking_run_is_bounded()
    ensures named { (d : Declaration) (a : Assignment) (steps : List Step) → IsDeclaration d → IsAssignment d.groups a →
        DeadlocksBy (wiring d a) steps → All (IsNamed (wiring d a)) steps }
    ensures short { (d : Declaration) (a : Assignment) (steps : List Step) →
        DeadlocksBy (wiring d a) steps → length steps ≤ 3 * length d.waits + 2 * flush_count d.waits }
    ensures few { (d : Declaration) (a : Assignment) (steps : List Step) → IsDeclaration d →
        DeadlocksBy (wiring d a) steps → length steps ≤ 45056 }
{}
