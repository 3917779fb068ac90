//! Laws about items that must go on, as contracts of functions with empty bodies.
//!
//! They are about wirings, runs and states alone, whatever code makes the steps.

ghost use Rattle.std.specs.Prelude.{ℕ, ◌≤◌, ◌↔◌, List, [], ◌∷◌, Contains};
ghost use Rattle.std.specs.List.{All};
ghost use Rattle.wq_core.specs.declared.step.Step.{Step};
ghost use Rattle.wq_core.specs.Wiring.{Wiring, max_helpers, with_helpers};
ghost use Rattle.wq_core.specs.State.{HasUnfinishedOf};
ghost use Rattle.wq_core.specs.Rules.{Lawful};
ghost use Rattle.wq_core.specs.Runs.{IsForcedStep, IsRun, IsRunFrom, after, end_of};
ghost use Rattle.wq_core.specs.Deadlock.{DeadlocksBy, IsSafe, IsStuck};
ghost use Rattle.wq_core.specs.MustGoOn.{DeadlocksFor, HasFewerRescuers, IsSafeFor, IsStuckFor, rescued_items};

/// A run ends stuck exactly if it ends stuck for all items whose lanes have a rescuer. So it is with safe wirings, and
/// with runs that deadlock.
pub fn all_items_with_a_rescuer_must_go_on()
    ensures stuck { (w : Wiring) (steps : List Step) → IsRun w steps →
        IsStuck w (end_of w steps) ↔ IsStuckFor w (rescued_items w) (end_of w steps) }
    ensures safe { (w : Wiring) → IsSafe w ↔ IsSafeFor w (rescued_items w) }
    ensures deadlocks { (w : Wiring) (steps : List Step) →
        DeadlocksBy w steps ↔ DeadlocksFor w (rescued_items w) steps }
{}

/// If no run ends stuck for an item that must go on, each of its entries comes to its end after any run, whatever was
/// queued: let nobody queue or cancel any more, and let what must go on do so, in whatever order, until nothing can.
/// (Such steps end: `rescuer_steps_are_bounded`.) Then no entry of the item is unfinished.
pub fn what_must_go_on_comes_to_its_end()
    ensures { (w : Wiring) (named : List ℕ) (i : ℕ) (steps more : List Step) → w.helpers ≤ max_helpers →
        IsSafeFor w named → Contains named i → IsRun w steps → IsRunFrom w (end_of w steps) more →
        All (IsForcedStep w) more →
        ((step : Step) → IsForcedStep w step → ¬ Lawful w (after w (end_of w steps) more) step) →
        ¬ HasUnfinishedOf (after w (end_of w steps) more) i }
{}

/// Several items all go on exactly if each of them alone does.
pub fn several_items_go_on_if_each_does()
    ensures { (w : Wiring) (named : List ℕ) →
        IsSafeFor w named ↔ ((i : ℕ) → Contains named i → IsSafeFor w (i ∷ [])) }
{}

/// If a lane loses its rescuer, who was held up still is: what ended stuck for an item ends stuck for it still.
pub fn without_a_rescuer_nobody_is_freed()
    ensures stuck { (v w : Wiring) (named : List ℕ) (n : ℕ) (steps : List Step) → HasFewerRescuers v w →
        IsRun (with_helpers w n) steps → IsStuckFor (with_helpers w n) named (end_of (with_helpers w n) steps) →
        IsRun (with_helpers v n) steps × IsStuckFor (with_helpers v n) named (end_of (with_helpers v n) steps) }
    ensures safe { (v w : Wiring) (named : List ℕ) → HasFewerRescuers v w → IsSafeFor v named → IsSafeFor w named }
{}
