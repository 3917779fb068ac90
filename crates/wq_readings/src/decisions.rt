//! Laws about decisions, as contracts of functions with empty bodies: what stays, and what may change, once somebody
//! has decided one unsure flush. It is denied (its line is taken away) or confirmed (its `?` is taken away).

ghost use Rattle.std.specs.Prelude.{◌≡◌, ℕ, ◌+◌, ◌≤◌, true, false, List, length};
ghost use Rattle.wq_items.specs.Readings.{is_among};
ghost use Rattle.wq_core.specs.declared.step.Step.{Step};
ghost use Rattle.wq_core.specs.Wiring.{Wiring};
ghost use Rattle.wq_core.specs.Readings.{reading, IsSafeAnyway, HangsForSure};
ghost use Rattle.wq_hang.specs.Shortest.{EndsStuck, IsFewest};
ghost use Rattle.wq_readings.specs.Decided.{denied, confirmed};

/// What is safe whatever the unsure flushes turn out to be stays so, and so does what hangs for sure, whatever is
/// decided of one of them.
pub fn a_verdict_for_sure_outlives_each_decision()
    ensures safe { (w : Wiring) (p : ℕ) → IsSafeAnyway w → IsSafeAnyway (denied p w) × IsSafeAnyway (confirmed p w) }
    ensures hangs { (w : Wiring) (p : ℕ) → HangsForSure w → HangsForSure (denied p w) × HangsForSure (confirmed p w) }
{}

/// If a flush is denied, a hang needs no fewer unsure flushes than before.
pub fn a_flush_that_is_denied_leaves_no_fewer_to_decide()
    ensures { (w : Wiring) (p : ℕ) (kept others : List ℕ) (steps more : List Step) → IsFewest w kept steps →
        IsFewest (denied p w) others more → length kept ≤ length others }
{}

/// If a flush is confirmed, a hang needs as many unsure flushes as before, or one fewer. It needs one fewer if the
/// flush is one of those that a fewest hang keeps.
pub fn a_flush_that_is_confirmed_is_one_less_to_decide()
    ensures hangs { (w : Wiring) (p : ℕ) (kept : List ℕ) (steps : List Step) → IsFewest w kept steps →
        ¬ IsSafeAnyway (confirmed p w) }
    ensures no_more { (w : Wiring) (p : ℕ) (kept others : List ℕ) (steps more : List Step) → IsFewest w kept steps →
        IsFewest (confirmed p w) others more → length others ≤ length kept }
    ensures one_less { (w : Wiring) (p : ℕ) (kept others : List ℕ) (steps more : List Step) → IsFewest w kept steps →
        IsFewest (confirmed p w) others more → length kept ≤ length others + 1 }
    ensures of_those { (w : Wiring) (p : ℕ) (kept others : List ℕ) (steps more : List Step) → is_among kept p ≡ true →
        IsFewest w kept steps → IsFewest (confirmed p w) others more → length others + 1 ≡ length kept }
{}

/// A run that ends stuck still does, as long as none of the flushes that its reading keeps is denied.
pub fn a_run_stays_while_its_flushes_stay()
    ensures denied { (w : Wiring) (p n : ℕ) (kept : List ℕ) (steps : List Step) → is_among kept p ≡ false →
        EndsStuck (reading w kept) n steps → EndsStuck (reading (denied p w) kept) n steps }
    ensures confirmed { (w : Wiring) (p n : ℕ) (kept : List ℕ) (steps : List Step) →
        EndsStuck (reading w kept) n steps → EndsStuck (reading (confirmed p w) kept) n steps }
{}
