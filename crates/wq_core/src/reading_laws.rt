//! Laws about readings, as contracts of functions with empty bodies.
//!
//! "Unsure lines" in docs/FORMAT.md says what a reading is. The laws are about wirings, whatever code makes the steps:
//! what more flushes change, and that it means nothing at which places flushes are declared.

ghost use Rattle.std.specs.Prelude.{◌≡◌, ◌↔◌, ℕ, true, List, []};
ghost use Rattle.wq_groups.specs.Declaration.{Declaration, reading_declared};
ghost use Rattle.wq_core.specs.declared.step.Step.{Step};
ghost use Rattle.wq_core.specs.Wiring.{Wiring, with_helpers};
ghost use Rattle.wq_core.specs.Workqueues.{Workqueues, wiring_of};
ghost use Rattle.wq_core.specs.State.{State, empty_state};
ghost use Rattle.wq_core.specs.Runs.{IsRun, end_of, AsDeclaredFrom};
ghost use Rattle.wq_core.specs.Deadlock.{IsStuck, IsSafe};
ghost use Rattle.wq_items.specs.Readings.{is_among};
ghost use Rattle.wq_core.specs.Readings.{reading, IsSafeAnyway, HangsForSure, DeclaresMore, SameButPlaces};

/// A run is a run with more flushes, too, after which the state is the same.
pub fn more_flushes_have_more_runs()
    ensures runs { (v w : Wiring) (steps : List Step) → DeclaresMore v w → IsRun v steps → IsRun w steps }
    ensures ends { (v w : Wiring) (steps : List Step) → DeclaresMore v w → end_of v steps ≡ end_of w steps }
{}

/// A state is stuck with more flushes exactly where it is with fewer: whoever may begin to wait may finish.
pub fn more_flushes_are_stuck_alike()
    ensures { (v w : Wiring) (s : State) → DeclaresMore v w → IsStuck v s ↔ IsStuck w s }
{}

/// What declares more with no helper does with each number of helpers.
pub fn helpers_declare_nothing()
    ensures { (v w : Wiring) (n : ℕ) → DeclaresMore v w → DeclaresMore (with_helpers v n) (with_helpers w n) }
{}

/// A reading that keeps more of the unsure flushes declares more, and no reading declares more than all flushes.
pub fn readings_that_keep_more_declare_more()
    ensures more { (w : Wiring) (few many : List ℕ) → ((p : ℕ) → is_among few p ≡ true → is_among many p ≡ true)
        → DeclaresMore (reading w few) (reading w many) }
    ensures all { (w : Wiring) (kept : List ℕ) → DeclaresMore (reading w kept) w }
{}

/// What is safe with more flushes is safe with fewer. So all flushes are safe exactly where each reading is, and each
/// reading hangs exactly where the one hangs that keeps none of the unsure flushes.
pub fn all_flushes_decide()
    ensures fewer { (v w : Wiring) → DeclaresMore v w → IsSafe w → IsSafe v }
    ensures anyway { (w : Wiring) → IsSafe w ↔ IsSafeAnyway w }
    ensures for_sure { (w : Wiring) → (¬ IsSafe (reading w [])) ↔ HangsForSure w }
{}

/// At which places flushes are declared, and whether they are sure, means nothing to runs, as long as their order for
/// each item is the same. So it means nothing to a reading whether it is a declaration of its own.
pub fn places_mean_nothing()
    ensures more { (v w : Wiring) → SameButPlaces v w → DeclaresMore v w }
    ensures back { (v w : Wiring) → SameButPlaces v w → SameButPlaces w v }
    ensures as_declared { (v w : Wiring) (steps : List Step) → SameButPlaces v w →
        AsDeclaredFrom v (empty_state v) steps → AsDeclaredFrom w (empty_state w) steps }
    ensures reading { (d : Declaration) (ws : Workqueues) (kept : List ℕ)
        → SameButPlaces (wiring_of (reading_declared d kept) ws) (reading (wiring_of d ws) kept) }
{}
