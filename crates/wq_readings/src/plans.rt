//! Laws about the plans of readings, as contracts of functions with empty bodies.

ghost use Rattle.std.specs.Prelude.{◌≡◌, ℕ, ◌≤◌, true, List, length};
ghost use Rattle.wq_items.specs.Readings.{is_among};
ghost use Rattle.wq_groups.specs.Declaration.{Declaration, IsDeclaration, reading_declared};
ghost use Rattle.wq_groups.specs.Assignment.{Assignment};
ghost use Rattle.wq_plan.specs.Plan.{IsPlan};
ghost use Rattle.wq_readings.specs.Needed.{chain_doubts};

/// If all flushes have a plan, each reading has one, with no more workqueues. A reading that keeps more unsure flushes
/// needs no fewer workqueues.
pub fn a_reading_needs_no_more_workqueues()
    ensures plan { (d : Declaration) (a : Assignment) (kept : List ℕ) → IsDeclaration d → IsPlan d a →
        (b : Assignment) × IsPlan (reading_declared d kept) b × (b.lanes ≤ a.lanes) }
    ensures more { (d : Declaration) (few many : List ℕ) (a b : Assignment) →
        ((p : ℕ) → is_among few p ≡ true → is_among many p ≡ true) → IsPlan (reading_declared d few) a →
        IsPlan (reading_declared d many) b → a.lanes ≤ b.lanes }
{}

/// The reading that keeps the unsure flushes of the printed chain needs as many workqueues as all flushes do. No
/// reading that keeps fewer unsure flushes than these needs as many.
pub fn as_many_workqueues_need_as_many_flushes()
    ensures enough { (d : Declaration) (a b : Assignment) → IsDeclaration d → IsPlan d a →
        IsPlan (reading_declared d (chain_doubts d a)) b → b.lanes ≡ a.lanes }
    ensures needed { (d : Declaration) (a b : Assignment) (kept : List ℕ) → IsDeclaration d → IsPlan d a →
        IsPlan (reading_declared d kept) b → b.lanes ≡ a.lanes → length (chain_doubts d a) ≤ length kept }
{}
