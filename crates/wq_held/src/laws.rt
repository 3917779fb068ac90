//! Laws about what is answered under the lock, as contracts of functions with empty bodies.
//!
//! They are about books alone, whatever code wrote these.

ghost use Rattle.std.specs.Prelude.{◌≡◌, ℕ};
ghost use Rattle.wq_core.specs.Wiring.{helpers_of};
ghost use Rattle.wq_core.specs.State.{lane_at, idle_lane};
ghost use Rattle.wq_history.specs.Book.{BookView, state, IsBook, HasNothingToStart};

/// If a workqueue has no helpers and its rescuer finds nothing to start, nothing is pending on it and nothing runs;
/// so it is on every workqueue if there are no helpers at all.
pub fn a_rescuer_without_helpers_that_has_nothing_to_start_has_an_idle_lane()
    ensures of_a_lane { (b : BookView) (q : ℕ) → IsBook b → helpers_of b.wiring q ≡ 0 → HasNothingToStart b q 0 →
        lane_at (state b) q ≡ idle_lane }
    ensures of_a_wiring { (b : BookView) (q : ℕ) → IsBook b → b.wiring.helpers ≡ 0 → HasNothingToStart b q 0 →
        lane_at (state b) q ≡ idle_lane }
{}
