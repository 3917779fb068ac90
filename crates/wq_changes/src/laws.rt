//! A law about changes, as the contract of a function with an empty body. No code runs here: the clauses are the law.

ghost use Rattle.std.specs.Prelude.{◌≡◌, ◌≢◌, ◌<◌, ◌↔◌, ℕ, AllPairs, Contains};
ghost use Rattle.wq_groups.specs.Declaration.{Declaration};
ghost use Rattle.wq_core.specs.Workqueues.{Workqueues};
ghost use Rattle.wq_repair.specs.Changes.{HasMoved, IsGiven};
ghost use Rattle.wq_changes.specs.Changes.{changes_of};
ghost use Rattle.wq_changes.specs.declared.change.Change.{Change};
ghost use Rattle.wq_changes.specs.declared.change.Change.TheVariants as kind;

/// The changes that are said are exactly the groups that moved and the workqueues that are given a rescuer.
pub fn exactly_the_changes_are_said()
    ensures moved { (d : Declaration) (old new : Workqueues) (g : ℕ) →
        Contains (changes_of d.groups old new) (kind.Moved g) ↔ ((g < d.groups) × HasMoved old new g) }
    ensures given { (d : Declaration) (old new : Workqueues) (q : ℕ) →
        Contains (changes_of d.groups old new) (kind.Given q) ↔ ((q < old.assignment.lanes) × IsGiven d old new q) }
{}
