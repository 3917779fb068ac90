//! Laws about repairs, as contracts of functions with empty bodies. No code runs here: the clauses are the laws.

ghost use Rattle.std.specs.Prelude.{◌≡◌, ℕ, ◌<◌, ◌≤◌, ◌⊎◌, true, false, Bool, List, length, max, slice_index};
ghost use Rattle.wq_items.specs.Chain.{Circle};
ghost use Rattle.wq_groups.specs.Declaration.{Declaration, IsDeclaration, GroupWaits};
ghost use Rattle.wq_groups.specs.Assignment.{IsAssignment};
ghost use Rattle.wq_graph.specs.declared.arc.WaitArc.{WaitArc};
ghost use Rattle.wq_core.specs.declared.step.Step.{Step};
ghost use Rattle.wq_core.specs.Workqueues.{Workqueues, wiring_of};
ghost use Rattle.wq_core.specs.Deadlock.{IsSafe, Deadlocks};
ghost use Rattle.wq_deadlock.specs.Judging.{AreSafe};
ghost use Rattle.wq_repair.specs.Changes.{IsRescued, HoldsAny, HasMoved, IsToBeCompared, HasFewerChanges, lane_in};
ghost use Rattle.wq_repair.specs.Needed.{NeedsRescuerOf};
ghost use Rattle.wq_repair.specs.Joined.{become, NeededWaits, HangsRound, IsStart, NeedRescuers, AreChangesNeeded};
ghost use Rattle.wq_repair.specs.Joined.{FallsAlongWaits};
ghost use Rattle.wq_repair.specs.Changes.{IsNamed, IsNamedLane};
ghost use Rattle.wq_repair.specs.Marks.{IsMarked, Marks};
ghost use Rattle.wq_repair.specs.Repair.{IsRepair, AreNamesTooFew, IsNeededCircle};
ghost use Rattle.wq_repair.specs.Steps.{IsToBeGiven, IsMovable, IsStartBy, ArePlacedBy, AreLeaving};

use wq_items::chain_laws::Relation;

/// A group that needs a rescuer has one in whatever may be compared, or that deadlocks.
pub fn who_needs_a_rescuer_has_one()
    ensures { (d : Declaration) (old new : Workqueues) (names : List ℕ) (g : ℕ) → IsDeclaration d →
        IsAssignment d.groups old.assignment → IsToBeCompared d old names new → NeedsRescuerOf d old names g →
        IsRescued new (lane_in new g) ⊎ Deadlocks (wiring_of d new) }
{}

/// If groups that need a rescuer wait in a circle, whatever may be compared deadlocks.
pub fn a_circle_of_needed_groups_cannot_be_repaired()
    ensures { (d : Declaration) (old new : Workqueues) (names : List ℕ) → IsDeclaration d →
        IsAssignment d.groups old.assignment → IsToBeCompared d old names new → Circle (NeededWaits d old) →
        Deadlocks (wiring_of d new) }
{}

/// If the start deadlocks, whatever may be compared does: an item on a lane that has a rescuer waits for one on a
/// lane that has none, or the lanes wait in a circle.
pub fn names_are_too_few_where_the_start_deadlocks()
    ensures leads_to_bare { (d : Declaration) (old start new : Workqueues) (names : List ℕ) (g h : ℕ) →
        IsDeclaration d → IsAssignment d.groups old.assignment →
        IsStart d old names start → IsToBeCompared d old names new →
        GroupWaits d g h → IsRescued start (lane_in start g) → (¬ IsRescued start (lane_in start h)) →
        Deadlocks (wiring_of d new) }
    ensures circle { (d : Declaration) (old start new : Workqueues) (names : List ℕ) → IsDeclaration d →
        IsAssignment d.groups old.assignment → IsStart d old names start → IsToBeCompared d old names new →
        HangsRound d start → Deadlocks (wiring_of d new) }
{}

/// If each group that moved has to leave or was tried in vain, and each lane that is given a rescuer needs it, what
/// has fewer changes deadlocks, if it gives a rescuer to all that need one.
pub fn no_change_can_be_left_out()
    ensures { (d : Declaration) (old new fewer : Workqueues) (names : List ℕ) (needed : List Bool) → IsDeclaration d →
        ((g : ℕ) → g < d.groups → IsMarked needed g →
        IsRescued fewer (lane_in fewer g) ⊎ Deadlocks (wiring_of d fewer)) →
        AreChangesNeeded d old new needed → IsToBeCompared d old names fewer → HasFewerChanges d old fewer new →
        Deadlocks (wiring_of d fewer) }
{}

/// Numbers of lanes that fall along all waits of those that need a rescuer make workqueues safe.
pub fn falling_numbers_of_needed_groups_are_safe()
    ensures { (d : Declaration) (new : Workqueues) (needed : List Bool) (number : ℕ → ℕ) → IsDeclaration d →
        IsAssignment d.groups new.assignment → FallsAlongWaits d new needed number → IsSafe (wiring_of d new) }
{}

/// If numbers fall along each arc, two vertices become one, and neither leads to the other, there are numbers that
/// fall along each arc again. `beyond` says to which vertices the two lead. It holds for any relation.
pub fn joining_vertices_that_lead_to_neither_makes_no_circle<R: Relation>()
    ensures { (number : ℕ → ℕ) (bound u v : ℕ) (beyond : ℕ → Bool) →
        ((x y : ℕ) → R.waits x y → number y < number x) → ((x : ℕ) → number x < bound) →
        beyond u ≡ false → beyond v ≡ false →
        ((y : ℕ) → R.waits u y → beyond y ≡ true) → ((y : ℕ) → R.waits v y → beyond y ≡ true) →
        ((x y : ℕ) → beyond x ≡ true → R.waits x y → beyond y ≡ true) →
        (new : ℕ → ℕ) × ((x y : ℕ) → R.waits x y → new (become u v y) < new (become u v x)) }
{}

/// Numbers that fall along each arc rule out circles. It holds for any relation.
pub fn falling_numbers_rule_out_circles<R: Relation>()
    ensures { (number : ℕ → ℕ) → ((x y : ℕ) → R.waits x y → number y < number x) → ¬ Circle R.waits }
{}

/// What `start` makes of lists is the start, if the lists say which groups and lanes are named, and which groups need a
/// rescuer.
pub fn a_start_made_of_lists_is_the_start()
    ensures { (d : Declaration) (old start : Workqueues) (names : List ℕ)
        (named named_lanes needed movable given : List Bool) →
        IsAssignment d.groups old.assignment → Marks (IsNamed d names) d.groups named →
        Marks (IsNamedLane d old names) old.assignment.lanes named_lanes →
        Marks (NeedsRescuerOf d old names) d.groups needed → Marks (IsMovable named needed) d.groups movable →
        Marks (IsToBeGiven old named_lanes needed) old.assignment.lanes given →
        IsStartBy old movable given start → IsStart d old names start }
{}

/// What may be compared, all whose changes are needed, and in which numbers fall along all waits, is a repair.
pub fn needed_changes_make_a_repair()
    ensures { (d : Declaration) (old new : Workqueues) (names : List ℕ) (needed : List Bool) (number : ℕ → ℕ) →
        IsDeclaration d → Deadlocks (wiring_of d old) → IsToBeCompared d old names new →
        NeedRescuers d old names new needed → AreChangesNeeded d old new needed → FallsAlongWaits d new needed number →
        new.assignment.lanes ≤ max old.assignment.lanes d.groups → length new.bare ≤ new.assignment.lanes →
        ((q : ℕ) → old.assignment.lanes ≤ q → q < new.assignment.lanes → HoldsAny new q) →
        ((q : ℕ) → q < old.assignment.lanes → IsRescued new q → IsRescued old q ⊎ HoldsAny new q) →
        ((g : ℕ) → g < d.groups → HasMoved old new g → HoldsAny old (lane_in new g) →
        IsNamedLane d old names (lane_in new g)) →
        IsRepair d old names new }
{}

/// What `place` makes of lists may be compared, all its changes are needed, and numbers fall along all waits, if those
/// that leave are known to have to.
pub fn what_is_placed_is_a_repair()
    ensures { (d : Declaration) (old new : Workqueues) (names : List ℕ)
        (named_lanes needed given stays leaves : List Bool) (ranks : List ℕ) (number : ℕ → ℕ) → IsDeclaration d →
        IsAssignment d.groups old.assignment →
        Marks (IsNamedLane d old names) old.assignment.lanes named_lanes → length needed ≡ d.groups →
        Marks (IsToBeGiven old named_lanes needed) old.assignment.lanes given →
        AreLeaving d old names needed given leaves ranks new →
        ArePlacedBy old given stays leaves ranks new →
        ((g : ℕ) → g < d.groups → IsMarked needed g → number (lane_in new g) ≡ slice_index ranks g) →
        IsToBeCompared d old names new × AreChangesNeeded d old new needed × FallsAlongWaits d new needed number }
{}

/// The ends exclude each other: workqueues that are safe have no repair, and neither a run nor a circle that shows that
/// there is none; those that have a repair have neither; and those that have such a run have no such circle.
pub fn repair_ends_in_one_way()
    ensures safe { (d : Declaration) (old : Workqueues) (names : List ℕ) → AreSafe d old →
        ((new : Workqueues) → ¬ IsRepair d old names new)
        × ((start : Workqueues) (steps : List Step) → ¬ AreNamesTooFew d old names start steps)
        × ((circle : List WaitArc) → ¬ IsNeededCircle d old circle) }
    ensures repaired { (d : Declaration) (old new : Workqueues) (names : List ℕ) → IsRepair d old names new →
        ((start : Workqueues) (steps : List Step) → ¬ AreNamesTooFew d old names start steps)
        × ((circle : List WaitArc) → ¬ IsNeededCircle d old circle) }
    ensures too_few { (d : Declaration) (old start : Workqueues) (names : List ℕ) (steps : List Step)
        (circle : List WaitArc) → IsDeclaration d → AreNamesTooFew d old names start steps →
        ¬ IsNeededCircle d old circle }
{}

/// The circle in which groups wait that need a rescuer is the only one that is answered.
pub fn a_needed_circle_is_unique()
    ensures { (d : Declaration) (old : Workqueues) (one other : List WaitArc) → IsDeclaration d →
        IsNeededCircle d old one → IsNeededCircle d old other → one ≡ other }
{}
