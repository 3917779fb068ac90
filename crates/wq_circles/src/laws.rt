//! Laws about components, as contracts of functions with empty bodies.
//!
//! They say, in the words of docs/FORMAT.md, "The command `circles`", what components are: of arcs, and of the
//! workqueues that lead to one another. `RescuedWaits` says which workqueue with a rescuer waits for which, and `Leads`
//! of it which leads to which. The last two laws are about the lowest-numbered vertices of a wait graph.

ghost use Rattle.std.specs.Prelude.{◌≡◌, ◌≤◌, ◌↔◌, Bool, ℕ, ◌<◌, List, length, slice_index, ◌≢◌, [], ◌∷◌, false, map};
ghost use Rattle.std.specs.Prelude.{◌++◌, AllPairs, Contains, flat_map};
ghost use Rattle.std.specs.List.{All, list_any};
ghost use Rattle.std.specs.List.Sorted.{IsStrictlyIncreasing};
ghost use Rattle.wq_text.specs.Lines.{lines_of};
ghost use Rattle.wq_items.specs.Chain.{Circle};
ghost use Rattle.wq_groups.specs.Declaration.{Declaration, IsDeclaration};
ghost use Rattle.wq_groups.specs.Assignment.{IsAssignment, item_lane};
ghost use Rattle.wq_graph.specs.declared.arc.WaitArc.{WaitArc};
ghost use Rattle.wq_graph.specs.Graph.{HasArc};
ghost use Rattle.wq_core.specs.declared.step.Step.{Step};
ghost use Rattle.wq_core.specs.Wiring.{RescuedWaits};
ghost use Rattle.wq_core.specs.Workqueues.{Workqueues, wiring_of};
ghost use Rattle.wq_core.specs.Deadlock.{IsSafe};
ghost use Rattle.wq_core.specs.Readings.{reading};
ghost use Rattle.wq_items.specs.Readings.{is_among};
ghost use Rattle.wq_deadlock.specs.Judging.{AreFirst, IsHang, bare_waits};
ghost use Rattle.wq_hang.specs.Walk.{IsRoundOn};
ghost use Rattle.wq_hang.specs.declared.hop.Hop.{Hop};
ghost use Rattle.wq_cert.specs.Lines.{cert_lines};
ghost use Rattle.wq_cert.specs.Reading.{is_bare_line};
ghost use Rattle.wq_commands.specs.declared.end.End.{End};
ghost use Rattle.wq_commands.specs.declared.found.Found.{Found};
ghost use Rattle.wq_commands.specs.Answer.{Answers};
ghost use Rattle.wq_commands.specs.Deadlocking.{Judges};
ghost use Rattle.wq_commands.specs.Shell.{HasOneAnswer};
ghost use Rattle.wq_circles.specs.declared.circling.Circling.{Circling};
ghost use Rattle.wq_circles.specs.Leading.{AreLowest, AreTogether, Leads};
ghost use Rattle.wq_circles.specs.AllRescued.{CirclesAllRescued};
ghost use Rattle.wq_circles.specs.Circling.{Circles, CirclesTexts, OwnCircles};
ghost use Rattle.wq_circles.specs.CirclesPromise.{AreForBare, KeepsCircles, KeepsHeldCircles, KeepsOwnCircles};
ghost use Rattle.wq_circles.specs.HeldText.{CirclesNamed};
ghost use Rattle.wq_circles.specs.Components.{AreComponents};
ghost use Rattle.wq_circles.specs.Flushes.{IsInComponents, AreInOneComponent, IsDeclaredFlush, IsBefore};

use std::alloc::Allocator;

/// A flush is in a component exactly if the workqueue of its target leads to that of its item by way of workqueues that
/// have a rescuer. Only declared flushes are in components.
pub fn what_lies_on_a_circle_is_in_a_component()
    ensures same { (d : Declaration) (ws : Workqueues) (components : List (List WaitArc)) (b : WaitArc) →
        IsDeclaration d →
        IsAssignment d.groups ws.assignment → AreComponents d ws components → IsDeclaredFlush d.waits b →
        (IsInComponents components b
        ↔ Leads (RescuedWaits (wiring_of d ws)) (item_lane ws.assignment d.group_of b.dst)
        (item_lane ws.assignment d.group_of b.src)) }
    ensures declared { (d : Declaration) (ws : Workqueues) (components : List (List WaitArc)) → IsDeclaration d →
        IsAssignment d.groups ws.assignment → AreComponents d ws components →
        All (All (IsDeclaredFlush d.waits)) components }
{}

/// Two flushes that lie on circles are in one component exactly if their items' workqueues are the same, or each leads
/// to the other; and no component is empty.
pub fn a_component_is_of_workqueues_that_lead_to_one_another()
    ensures together { (d : Declaration) (ws : Workqueues) (components : List (List WaitArc)) (b c : WaitArc) →
        IsDeclaration d →
        IsAssignment d.groups ws.assignment → AreComponents d ws components → IsInComponents components b →
        IsInComponents components c →
        (AreInOneComponent components b c
        ↔ AreTogether (RescuedWaits (wiring_of d ws)) (item_lane ws.assignment d.group_of b.src)
        (item_lane ws.assignment d.group_of c.src)) }
    ensures some { (d : Declaration) (ws : Workqueues) (components : List (List WaitArc)) →
        AreComponents d ws components →
        All (λ (arcs : List WaitArc). arcs ≢ []) components }
{}

/// The arcs of a component are in order of place, and the components are in the order of their lowest-numbered
/// workqueues. So no flush is in two components, or twice in one.
pub fn components_are_in_order()
    ensures places { (d : Declaration) (ws : Workqueues) (components : List (List WaitArc)) → IsDeclaration d →
        IsAssignment d.groups ws.assignment → AreComponents d ws components →
        All (λ (arcs : List WaitArc). IsStrictlyIncreasing (map (λ (b : WaitArc). b.place) arcs)) components }
    ensures workqueues { (d : Declaration) (ws : Workqueues) (components : List (List WaitArc)) → IsDeclaration d →
        IsAssignment d.groups ws.assignment → AreComponents d ws components →
        AllPairs (IsBefore (RescuedWaits (wiring_of d ws)) (item_lane ws.assignment d.group_of)) components }
{}

/// Each component has a round of waits on the workqueues of its flushes' items. So it can be said of each component how
/// its workqueues hang.
pub fn a_component_has_a_round()
    ensures { (d : Declaration) (ws : Workqueues) (components : List (List WaitArc)) (arcs : List WaitArc)
        (lanes : List ℕ) → IsDeclaration d →
        IsAssignment d.groups ws.assignment → AreComponents d ws components → Contains components arcs →
        ((b : WaitArc) → Contains arcs b → Contains lanes (item_lane ws.assignment d.group_of b.src)) →
        (hops : List Hop) × IsRoundOn (wiring_of d ws) lanes hops }
{}

/// There is no component, and no flush leads from a workqueue that has a rescuer to one that has none, exactly if no
/// run ends stuck.
pub fn no_component_is_safe()
    ensures { (d : Declaration) (ws : Workqueues) (components : List (List WaitArc)) → IsDeclaration d →
        IsAssignment d.groups ws.assignment →
        ws.assignment.lanes ≤ 4096 → AreComponents d ws components →
        (((components ≡ []) × (bare_waits d ws ≡ [])) ↔ IsSafe (wiring_of d ws)) }
{}

/// An unsure flush makes no difference if it is in no component and doesn't lead from a workqueue that has a rescuer to
/// one that has none: of two readings that differ only in it, both are safe or neither is.
pub fn what_is_in_no_component_makes_no_difference()
    ensures { (d : Declaration) (ws : Workqueues) (components : List (List WaitArc)) (place : ℕ) (kept : List ℕ) →
        IsDeclaration d → IsAssignment d.groups ws.assignment → ws.assignment.lanes ≤ 4096 →
        AreComponents d ws components →
        is_among (map (λ (b : WaitArc). b.place) (flat_map (λ arcs. arcs) components ++ bare_waits d ws)) place ≡ false
        →
        (IsSafe (reading (wiring_of d ws) kept) ↔ IsSafe (reading (wiring_of d ws) (place ∷ kept))) }
{}

/// Workqueues have at most one list of components.
pub fn components_are_the_only_ones()
    ensures { (d : Declaration) (ws : Workqueues) (one other : List (List WaitArc)) →
        AreComponents d ws one → AreComponents d ws other → one ≡ other }
{}

/// A declaration and an assignment, or a declaration alone, have at most one answer: one end, and one printed text. So
/// `what_is_said_changes_no_answer` holds for the command.
pub fn circles_have_one_answer<A: Allocator>()
    ensures end { (declared text : List ℕ) (end other : End) (out printed : List ℕ) →
        Circles declared text end out → Circles declared text other printed → end ≡ other }
    ensures out { (declared text : List ℕ) (end other : End) (out printed : List ℕ) →
        Circles declared text end out → Circles declared text other printed → out ≡ printed }
    ensures own_end { (declared : List ℕ) (end other : End) (out printed : List ℕ) →
        OwnCircles declared end out → OwnCircles declared other printed → end ≡ other }
    ensures own_out { (declared : List ℕ) (end other : End) (out printed : List ℕ) →
        OwnCircles declared end out → OwnCircles declared other printed → out ≡ printed }
    ensures command { (assigned : Bool) → HasOneAnswer
        (λ s texts (found : Found (Circling A)) end out. CirclesTexts assigned s texts found end out) }
{}

/// An answer keeps its promise. If `safe` is printed, no run ends stuck. Otherwise some run deadlocks, and exactly
/// those declared flushes are printed whose target's workqueue leads to that of their item by way of workqueues that
/// have a rescuer, and, after `norescuer`, those that lead from a workqueue that has a rescuer to one that has none.
pub fn circles_keep_their_promise()
    ensures assigned { (declared text : List ℕ) (end : End) (out : List ℕ) →
        Circles declared text end out → KeepsCircles declared text end out }
    ensures own { (declared : List ℕ) (end : End) (out : List ℕ) → OwnCircles declared end out →
        KeepsOwnCircles declared end out }
{}

/// An answer where items must go on keeps its promise. If `safe` is printed, no run ends stuck for one of them.
/// Otherwise some run does; and of two readings that differ only in unsure flushes that aren't printed, some run of
/// each ends stuck for one of them, or none of either.
pub fn what_can_hold_items_up_is_printed()
    ensures { (names : List (List ℕ)) (declared text : List ℕ) (end : End) (out : List ℕ) →
        CirclesNamed names declared text end out → KeepsHeldCircles names declared text end out }
{}

/// A run of `circles` ends like a run of `deadlock` with the same texts or, if no assignment is named, like a run of
/// `plan`. So `safe` is printed exactly if `deadlock` prints it, or if `plan` prints a plan text.
pub fn the_end_is_that_of_the_other_commands()
    ensures deadlock { (declared text : List ℕ) (end other : End) (out printed : List ℕ) →
        Circles declared text end out → Judges declared text other printed → end ≡ other }
    ensures plan { (declared : List ℕ) (end other : End) (out printed : List ℕ) →
        OwnCircles declared end out → Answers declared other printed → end ≡ other }
{}

/// The flushes that `deadlock` and `circles` regard as leading to no rescuer are exactly those that lead from a
/// workqueue that has a rescuer to one that has none, in order of place.
pub fn bare_waits_are_the_flushes_that_lead_to_no_rescuer()
    ensures { (d : Declaration) (ws : Workqueues) → IsDeclaration d → IsAssignment d.groups ws.assignment →
        AreForBare d ws (bare_waits d ws) }
{}

/// If no flush leads to a workqueue without a rescuer, the workqueues of the items that the run of `deadlock` queues
/// first wait in a circle: each has a rescuer and waits for the next, and the last for the first.
pub fn the_workqueues_of_the_first_items_wait_in_a_circle()
    ensures first { (d : Declaration) (ws : Workqueues) (first : List ℕ) → IsDeclaration d →
        IsAssignment d.groups ws.assignment → AreFirst d ws [] first →
        (circle : Circle (RescuedWaits (wiring_of d ws)))
        × (circle.first ∷ circle.others ≡ map (item_lane ws.assignment d.group_of) first) }
    ensures run { (d : Declaration) (ws : Workqueues) (steps : List Step) (hang : IsHang d ws steps) →
        IsDeclaration d → bare_waits d ws ≡ [] →
        (circle : Circle (RescuedWaits (wiring_of d ws)))
        × (circle.first ∷ circle.others ≡ map (item_lane ws.assignment d.group_of) hang.first) }
{}

/// If no line of a text of workqueues begins with `norescuer`, its answer is that to the text of an assignment: only
/// the components are printed, and `safe` exactly if there is none.
pub fn a_text_without_norescuer_lines_keeps_its_components()
    ensures { (declared text : List ℕ) (end : End) (out : List ℕ) →
        list_any is_bare_line (cert_lines (lines_of text)) ≡ false →
        (Circles declared text end out ↔ CirclesAllRescued declared text end out) }
{}

/// Two vertices have the same lowest-numbered vertex exactly if they are strongly connected.
pub fn the_lowest_tells_who_are_together()
    ensures { (graph : List (List WaitArc)) (lowest : List ℕ) (v w : ℕ) →
        AreLowest (HasArc graph) (length graph) lowest → v < length graph →
        w < length graph → (slice_index lowest v ≡ slice_index lowest w) ↔ AreTogether (HasArc graph) v w }
{}

/// The lowest-numbered vertex for a vertex is never above it. There is at most one list of these.
pub fn the_list_is_the_only_one()
    ensures below { (graph : List (List WaitArc)) (lowest : List ℕ) (v : ℕ) →
        AreLowest (HasArc graph) (length graph) lowest →
        v < length graph → slice_index lowest v ≤ v }
    ensures one { (graph : List (List WaitArc)) (one other : List ℕ) → AreLowest (HasArc graph) (length graph) one →
        AreLowest (HasArc graph) (length graph) other → one ≡ other }
{}
