//! Laws about plans, as contracts of functions with empty bodies. Those about chains and circles are in `wq_items`.

ghost use Rattle.std.specs.Prelude.{◌≡◌, ℕ, ◌+◌, ◌<◌, ◌≤◌, ◌⊎◌, List, [], length, slice_index, SomeIndex};
ghost use Rattle.std.specs.List.{All};
ghost use Rattle.wq_items.specs.Chain.{IsChain, HasCircle};
ghost use Rattle.wq_groups.specs.Declaration.{Declaration, GroupWaits, IsDeclaration};
ghost use Rattle.wq_groups.specs.Assignment.{Assignment, group_lane};
ghost use Rattle.wq_graph.specs.declared.arc.WaitArc.{WaitArc};
ghost use Rattle.wq_graph.specs.Graph.{group_graph};
ghost use Rattle.wq_core.specs.Wiring.{wiring};
ghost use Rattle.wq_core.specs.Deadlock.{IsSafe, IsLeast};
ghost use Rattle.wq_levels.specs.Walks.{IsWalkedCircle};
ghost use Rattle.wq_plan.specs.Plan.{IsPlan, lanes_of, chain_of_plan};
ghost use Rattle.wq_plan.specs.LongestChain.{IsLongestChain};
ghost use Rattle.wq_plan.specs.CircleOfGroups.{IsCircleOfGroups};

/// The number of lanes is the greatest lane plus one, or 0 if there is no group.
pub fn lanes_are_counted()
    ensures above { (lane : List ℕ) → All (λ l. l < lanes_of lane) lane }
    ensures last { (lane : List ℕ) → 0 < length lane → SomeIndex lane (λ g. slice_index lane g + 1 ≡ lanes_of lane) }
    ensures none { lanes_of [] ≡ 0 }
{}

/// A plan has no more lanes than there are groups.
pub fn lanes_are_few()
    ensures { (d : Declaration) (a : Assignment) → IsDeclaration d → IsPlan d a → a.lanes ≤ d.groups }
{}

/// A group's lane is above that of each group that it waits for.
pub fn lanes_fall()
    ensures { (d : Declaration) (a : Assignment) (g h : ℕ) →
        IsPlan d a → g < d.groups → GroupWaits d g h → group_lane a h < group_lane a g }
{}

/// No run of a plan ends stuck, whatever is queued and cancelled, and whatever the executions flush.
pub fn a_plan_is_safe()
    ensures { (d : Declaration) (a : Assignment) → IsDeclaration d → IsPlan d a → IsSafe (wiring d a) }
{}

/// Every assignment of the groups to fewer workqueues than a plan has deadlocks: it has a run that ends stuck, with
/// each item queued once and flushing as declared.
pub fn a_plan_is_least()
    ensures { (d : Declaration) (a : Assignment) → IsDeclaration d → IsPlan d a → IsLeast d a }
{}

/// The groups of a declaration have a plan, or they wait in a circle.
pub fn groups_have_a_plan_or_a_circle()
    ensures { (d : Declaration) → IsDeclaration d →
        ((a : Assignment) × IsPlan d a) ⊎ HasCircle (GroupWaits d) d.groups }
{}

/// Groups that wait in a circle have no plan.
pub fn a_circle_has_no_plan()
    ensures { (d : Declaration) (a : Assignment) → HasCircle (GroupWaits d) d.groups → ¬ IsPlan d a }
{}

/// A declaration has at most one plan.
pub fn plan_is_unique()
    ensures { (d : Declaration) (a b : Assignment) → IsPlan d a → IsPlan d b → a ≡ b }
{}

/// No chain has more groups than there are lanes.
pub fn no_chain_is_longer()
    ensures { (d : Declaration) (a : Assignment) (vs : List ℕ) →
        IsPlan d a → IsChain (GroupWaits d) vs → All (λ g. g < d.groups) vs → length vs ≤ a.lanes }
{}

/// The chain that is printed for a plan is a longest one, with the fewest unsure flushes.
pub fn printed_chain_is_longest()
    ensures { (d : Declaration) (a : Assignment) →
        IsDeclaration d → IsPlan d a → IsLongestChain d a (chain_of_plan d a.lane_of_group) }
{}

/// The chain that is printed for a plan is unique.
pub fn longest_chain_is_unique()
    ensures { (d : Declaration) (a : Assignment) (one other : List WaitArc) →
        IsDeclaration d → IsLongestChain d a one → IsLongestChain d a other → one ≡ other }
{}

/// The circle that is printed goes round groups, each of which waits for the next.
pub fn printed_circle_goes_round_groups()
    ensures { (d : Declaration) (circle : List WaitArc) →
        IsDeclaration d → IsWalkedCircle (group_graph d) circle → IsCircleOfGroups d circle }
{}

/// The circle that is printed for a declaration is unique.
pub fn printed_circle_is_unique()
    ensures { (d : Declaration) (one other : List WaitArc) → IsDeclaration d →
        IsWalkedCircle (group_graph d) one → IsWalkedCircle (group_graph d) other → one ≡ other }
{}
