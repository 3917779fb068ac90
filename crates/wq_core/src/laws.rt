//! Laws about the machine, as contracts of functions with empty bodies.
//!
//! They are about wirings, runs and states alone, whatever code makes the steps.

ghost use Rattle.std.specs.Prelude.{◌≡◌, ℕ, ◌<◌, ◌≤◌, ◌⊎◌, ◌↔◌, List, [], ◌∷◌, ◌++◌, length};
ghost use Rattle.std.specs.List.{All, count_by};
ghost use Rattle.wq_items.specs.Chain.{IsChain, Circle};
ghost use Rattle.wq_items.specs.Table.{ItemWaits};
ghost use Rattle.wq_groups.specs.Declaration.{Declaration, IsDeclaration, GroupWaits};
ghost use Rattle.wq_groups.specs.Assignment.{Assignment, IsAssignment, group_lane};
ghost use Rattle.wq_core.specs.declared.entry.Running.{Running};
ghost use Rattle.wq_core.specs.declared.step.Step.{Step};
ghost use Rattle.wq_core.specs.Wiring.{Wiring, IsWiring, HasRescuer, LaneWaits, RescuedWaits, wiring, with_helpers};
ghost use Rattle.wq_core.specs.Wiring.{max_helpers, lane_of};
ghost use Rattle.wq_core.specs.State.{State, lane_at, RunsIn, HasUnfinished};
ghost use Rattle.wq_core.specs.Rules.{Lawful, Gives};
ghost use Rattle.wq_core.specs.Runs.{IsRun, IsRunFrom, end_of, IsRescuerStep, IsForcedStep, IsCancel, HasNoHelp};
ghost use Rattle.wq_core.specs.Runs.{is_rescuer_step};
ghost use Rattle.wq_core.specs.Deadlock.{IsStuck, IsSafe, DeadlocksBy, Deadlocks, IsLeast};
ghost use Rattle.wq_core.specs.Played.{CanMove, IsDeclaredStep, IsPlayedFrom, queue_order};
ghost use Rattle.wq_core.specs.Knot.{IsKnot};
ghost use Rattle.wq_core.specs.Work.{work_left};

/// A declaration and an assignment of its groups have a wiring, and what holds of every wiring holds of it: each item
/// has one of the lanes, and each target is an item.
pub fn wirings_are_sound()
    ensures { (d : Declaration) (a : Assignment) → IsDeclaration d → IsAssignment d.groups a → IsWiring (wiring d a) }
{}

/// After a run, a step gives at most one number, whether it is lawful or not.
pub fn a_step_gives_one_number()
    ensures { (w : Wiring) (steps : List Step) (step : Step) (n m : ℕ) → IsRun w steps →
        Gives (end_of w steps) step n → Gives (end_of w steps) step m → n ≡ m }
{}

/// A lawful step gives a number.
pub fn a_step_gives_a_number()
    ensures { (w : Wiring) (s : State) (step : Step) → Lawful w s step → (n : ℕ) × Gives s step n }
{}

/// If nothing more is queued, the rescuers and the helpers make at most as many steps as there is work left,
/// whatever the order, and whatever is cancelled in between.
pub fn rescuer_steps_are_bounded()
    ensures { (w : Wiring) (steps more : List Step) → IsRun w steps →
        All (λ (step : Step). IsRescuerStep step ⊎ IsCancel step) more → IsRunFrom w (end_of w steps) more →
        count_by is_rescuer_step more ≤ work_left w (end_of w steps) }
{}

/// If each lane has a rescuer, and the lanes have numbers that fall along every declared
/// flush, from the lane of the item that waits to that of its target, no run ends stuck,
/// whatever the number of helpers. With bare lanes it is enough that this holds of each
/// flush of an item whose lane has a rescuer, and that the lane of its target has one, too.
pub fn falling_numbers_are_safe()
    ensures all_rescued { (w : Wiring) (number : ℕ → ℕ) → w.bare ≡ [] →
        ((i j : ℕ) → ItemWaits w.waits i j → number (lane_of w j) < number (lane_of w i)) → IsSafe w }
    ensures rescued { (w : Wiring) (number : ℕ → ℕ) →
        ((i j : ℕ) → ItemWaits w.waits i j → HasRescuer w (lane_of w i) →
        HasRescuer w (lane_of w j) × (number (lane_of w j) < number (lane_of w i))) → IsSafe w }
{}

/// The rescuer of a lane has at most one step that flushes as declared.
pub fn a_lane_has_one_declared_step()
    ensures { (w : Wiring) (s : State) (q : ℕ) (a b : Step) → IsDeclaredStep w s q a → IsDeclaredStep w s q b → a ≡ b }
{}

/// After a run, each lane that can move and whose helpers run nothing has such a step, whatever was flushed before.
pub fn a_lane_that_can_move_has_a_declared_step()
    ensures { (w : Wiring) (steps : List Step) (q : ℕ) → IsRun w steps →
        ((c : ℕ) (r : Running) → RunsIn (lane_at (end_of w steps) q) c r → c ≡ 0) →
        CanMove w (end_of w steps) q → (step : Step) × IsDeclaredStep w (end_of w steps) q step }
{}

/// If no run ends stuck: if a run leaves a state in which no step is lawful but
/// queueings, cancellations, starts of helpers and starts on bare lanes, nothing is
/// unfinished in that state where each lane has a rescuer, and else nothing on such lanes.
pub fn at_rest_nothing_is_unfinished()
    ensures all_rescued { (w : Wiring) (steps : List Step) → w.bare ≡ [] → w.helpers ≤ max_helpers → IsSafe w →
        IsRun w steps →
        ((step : Step) → IsForcedStep w step → ¬ Lawful w (end_of w steps) step) → ¬ HasUnfinished (end_of w steps) }
    ensures rescued { (w : Wiring) (steps : List Step) (left : HasUnfinished (end_of w steps)) →
        w.helpers ≤ max_helpers →
        IsSafe w → IsRun w steps → ((step : Step) → IsForcedStep w step → ¬ Lawful w (end_of w steps) step) →
        ¬ HasRescuer w left.lane }
{}

/// After a run, no item is run by two contexts.
pub fn an_item_runs_in_one_context()
    ensures { (w : Wiring) (steps : List Step) (q p c d : ℕ) (r x : Running) → IsRun w steps →
        RunsIn (lane_at (end_of w steps) q) c r → RunsIn (lane_at (end_of w steps) p) d x →
        r.entry.item ≡ x.entry.item → (q ≡ p) × (c ≡ d) }
{}

/// Steps without a helper's are a run under any number of helpers exactly where they are one under none; they leave the
/// same state, are stuck alike, and deadlock alike.
pub fn helpers_change_no_run_without_them()
    ensures run { (w : Wiring) (n : ℕ) (steps : List Step) → HasNoHelp steps →
        IsRun (with_helpers w n) steps ↔ IsRun (with_helpers w 0) steps }
    ensures state { (w : Wiring) (n : ℕ) (steps : List Step) → HasNoHelp steps →
        end_of (with_helpers w n) steps ≡ end_of (with_helpers w 0) steps }
    ensures stuck { (w : Wiring) (n : ℕ) (steps : List Step) → HasNoHelp steps →
        IsStuck (with_helpers w n) (end_of (with_helpers w n) steps)
        ↔ IsStuck (with_helpers w 0) (end_of (with_helpers w 0) steps) }
    ensures deadlocks { (w : Wiring) (n : ℕ) (steps : List Step) →
        DeadlocksBy (with_helpers w n) steps ↔ DeadlocksBy (with_helpers w 0) steps }
{}

/// If groups wait for one another in a chain, the lanes of every assignment to fewer lanes than the chain has groups
/// wait in a circle; and where groups wait in a circle, so do the lanes of every assignment.
pub fn lanes_come_to_wait_in_a_circle()
    ensures of_a_chain { (d : Declaration) (a : Assignment) (groups : List ℕ) → IsAssignment d.groups a →
        IsChain (GroupWaits d) groups → All (λ g. g < d.groups) groups → a.lanes < length groups →
        Circle (LaneWaits (wiring d a)) }
    ensures of_a_circle { (d : Declaration) (a : Assignment) → Circle (GroupWaits d) → Circle (LaneWaits (wiring d a)) }
{}

/// If items hold one another up, or a bare lane does, the run that queues them
/// before all others and is then played to its end deadlocks.
pub fn a_knot_deadlocks()
    ensures { (w : Wiring) (knot : List ℕ) (steps : List Step) → IsWiring w → IsKnot w knot →
        IsPlayedFrom w (end_of w (queue_order w knot)) steps → DeadlocksBy w (queue_order w knot ++ steps) }
{}

/// Lanes that wait in a circle deadlock, if each has a rescuer.
pub fn lanes_that_wait_in_a_circle_deadlock()
    ensures all_rescued { (w : Wiring) → IsWiring w → w.bare ≡ [] → Circle (LaneWaits w) → Deadlocks w }
    ensures rescued { (w : Wiring) → IsWiring w → Circle (RescuedWaits w) → Deadlocks w }
{}

/// If an item on a lane that has a rescuer waits for an item on a bare lane, there is a deadlock: queue the item
/// that waits before all others, and play what is queued to its end.
pub fn a_wait_for_a_bare_lane_deadlocks()
    ensures run { (w : Wiring) (i j : ℕ) (steps : List Step) → IsWiring w → ItemWaits w.waits i j →
        HasRescuer w (lane_of w i) →
        (¬ HasRescuer w (lane_of w j)) → IsPlayedFrom w (end_of w (queue_order w (i ∷ []))) steps →
        DeadlocksBy w (queue_order w (i ∷ []) ++ steps) }
    ensures deadlocks { (w : Wiring) (i j : ℕ) → IsWiring w → ItemWaits w.waits i j → HasRescuer w (lane_of w i) →
        (¬ HasRescuer w (lane_of w j)) → Deadlocks w }
{}

/// If as many groups as there are lanes wait for one another in a chain, an
/// assignment whose lanes fall along all waits of groups is least.
pub fn a_chain_as_long_shows_the_least()
    ensures { (d : Declaration) (a : Assignment) (groups : List ℕ) → IsDeclaration d → IsAssignment d.groups a →
        ((g h : ℕ) → GroupWaits d g h → group_lane a h < group_lane a g) →
        IsChain (GroupWaits d) groups → All (λ g. g < d.groups) groups → length groups ≡ a.lanes → IsLeast d a }
{}

/// If groups wait in a circle, every assignment deadlocks.
pub fn groups_that_wait_in_a_circle_deadlock()
    ensures { (d : Declaration) (a : Assignment) → IsDeclaration d → IsAssignment d.groups a →
        Circle (GroupWaits d) → Deadlocks (wiring d a) }
{}
