//! Laws about chains and circles, as contracts of functions with empty bodies.
//!
//! They hold for any relation, whatever it is that waits: items by their flushes, groups or lanes by their items.

ghost use Rattle.std.specs.Prelude.{◌≡◌, ℕ, ◌+◌, ◌<◌, ◌≤◌, ◌∷◌, List, length};
ghost use Rattle.std.specs.List.{All};
ghost use Rattle.wq_items.specs.Chain.{IsChain, Circle, HasCircle, BeginsChain, IsRank, Repeats};

/// A relation between numbers, by which one waits for another. No code uses it.
pub trait Relation {
    /// `waits v w` says that v waits for w.
    ghost waits: { ℕ → ℕ → Type 0 };
}

/// From each vertex of a circle, there are chains of every length. So none of its vertices has a rank.
pub fn circle_has_no_rank<R: Relation>()
    ensures lengths { (circle : Circle R.waits) →
        All (λ v. (n : ℕ) → BeginsChain R.waits v (n + 1)) (circle.first ∷ circle.others) }
    ensures ranks { (circle : Circle R.waits) →
        All (λ v. (r : ℕ) → ¬ IsRank R.waits v r) (circle.first ∷ circle.others) }
{}

/// If each vertex below n has a rank, there is no circle of these vertices.
pub fn ranks_rule_out_circles<R: Relation>()
    ensures { (n : ℕ) →
        ((v : ℕ) → v < n → (r : ℕ) × IsRank R.waits v r) → ¬ HasCircle R.waits n }
{}

/// A vertex has at most one rank.
pub fn rank_is_unique<R: Relation>()
    ensures { (v r s : ℕ) → IsRank R.waits v r → IsRank R.waits v s → r ≡ s }
{}

/// No chain from a vertex has more vertices than its rank plus one.
pub fn rank_is_greatest<R: Relation>()
    ensures { (v r n : ℕ) → IsRank R.waits v r → BeginsChain R.waits v n → n ≤ r + 1 }
{}

/// A list of numbers below n that is longer than n holds one of them twice.
pub fn long_list_repeats()
    ensures { (n : ℕ) (xs : List ℕ) → All (λ x. x < n) xs → n < length xs → Repeats xs }
{}

/// A chain of vertices below n that is longer than n goes round a circle.
pub fn long_chain_runs_in_circle<R: Relation>()
    ensures { (n : ℕ) (vs : List ℕ) →
        IsChain R.waits vs → All (λ v. v < n) vs → n < length vs → HasCircle R.waits n }
{}
