//! Laws about drawings, as contracts of functions with empty bodies.
//!
//! `Drawing` puts the lines one after the other. The laws say what this means for an item and for a flush, as in "The
//! command `dot`" in docs/FORMAT.md.

ghost use Rattle.std.specs.Prelude.{◌≡◌, ◌<◌, Bool, ℕ, List, Ok, length, map, Contains};
ghost use Rattle.std.specs.List.{All, count_by, range_with_len};
ghost use Rattle.wq_items.specs.declared.target.Target.{Target};
ghost use Rattle.wq_items.specs.Table.{Table, IsTable, flush_count, targets_of};
ghost use Rattle.wq_groups.specs.Partition.{Partition, IsPartition};
ghost use Rattle.wq_groups.specs.Assignment.{IsAssignment};
ghost use Rattle.wq_graph.specs.declared.arc.WaitArc.{WaitArc};
ghost use Rattle.wq_graph.specs.Graph.{IsArc, arc_of, arcs_by_place};
ghost use Rattle.wq_core.specs.Workqueues.{Workqueues};
ghost use Rattle.wq_commands.specs.declared.end.End.{End};
ghost use Rattle.wq_commands.specs.declared.found.Found.{Found};
ghost use Rattle.wq_commands.specs.Shell.{HasOneAnswer};
ghost use Rattle.wq_groups.specs.DeclaredGroups.{Declared};
ghost use Rattle.wq_commands.specs.Declaration.{declaration};
ghost use Rattle.wq_dot.specs.declared.dotting.Drawn.{Drawn};
ghost use Rattle.wq_dot.specs.declared.look.FlushLook.{FlushLook};
ghost use Rattle.wq_dot.specs.Drawing.{drawing_lines, is_whole_at};
ghost use Rattle.wq_dot.specs.Tooltips.{comments_of};
ghost use Rattle.wq_dot.specs.Laws.{IsRed, is_arrow, is_line_of};
ghost use Rattle.wq_hang.specs.declared.hop.Hop.{Hop};
ghost use Rattle.wq_groups.specs.Declaration.{Declaration, IsDeclaration};
ghost use Rattle.wq_circles.specs.Components.{AreComponents};
ghost use Rattle.wq_dot.specs.Dotting.{AreShortest, Draws, DrawsBy, DrawsTextsBy, OwnDraws, OwnDrawsBy};

use std::alloc::Allocator;

/// A declaration and an assignment, or a declaration alone, have at most one end, and at most one printed text for the
/// waits of a shortest run that ends stuck. If there are several such runs, the text says which one is meant, and
/// nothing else is left open: the command has one answer for the waits that it finds.
pub fn drawings_have_one_answer<A: Allocator>()
    ensures end { (declared text : List ℕ) (end other : End) (out printed : List ℕ) →
        Draws declared text end out → Draws declared text other printed → end ≡ other }
    ensures out { (hops : List Hop) (declared text : List ℕ) (end other : End) (out printed : List ℕ) →
        DrawsBy hops declared text end out → DrawsBy hops declared text other printed → out ≡ printed }
    ensures own_end { (declared : List ℕ) (end other : End) (out printed : List ℕ) →
        OwnDraws declared end out → OwnDraws declared other printed → end ≡ other }
    ensures own_out { (hops : List Hop) (declared : List ℕ) (end other : End) (out printed : List ℕ) →
        OwnDrawsBy hops declared end out → OwnDrawsBy hops declared other printed → out ≡ printed }
    ensures command { (hops : List Hop) (assigned : Bool) → HasOneAnswer
        (λ s texts (found : Found (Drawn A)) end out. DrawsTextsBy hops assigned s texts found end out) }
{}

/// Each item has exactly one line, whatever the title, the looks, the comments and the names of the workqueues are, and
/// whichever workqueues have no rescuer.
pub fn each_item_has_one_line()
    ensures { (t : Table) (p : Partition) (ws : Workqueues) (called : List (List ℕ)) (title : List ℕ)
        (looks : List FlushLook) (comments : List (List ℕ)) (i : ℕ) →
        IsTable t → IsPartition p → length p.group_of ≡ length t.names → IsAssignment p.groups ws.assignment →
        i < length t.names →
        count_by (is_line_of t.names i) (drawing_lines t p ws called title looks comments) ≡ 1 }
{}

/// Each flush has exactly one arrow: there are as many arrows as flushes, each arrow is of a declared flush, and their
/// places are 0, 1, 2 and so on.
pub fn each_flush_has_one_arrow()
    ensures arrows { (t : Table) (p : Partition) (ws : Workqueues) (called : List (List ℕ)) (title : List ℕ)
        (looks : List FlushLook) (comments : List (List ℕ)) →
        IsTable t → IsPartition p → IsAssignment p.groups ws.assignment →
        count_by is_arrow (drawing_lines t p ws called title looks comments) ≡ flush_count t.waits }
    ensures declared { (t : Table) (p : Partition) → IsTable t →
        All (IsArc t.waits p.group_of) (arcs_by_place t.waits p.group_of) }
    ensures places { (t : Table) (p : Partition) → IsTable t →
        map (λ (a : WaitArc). a.place) (arcs_by_place t.waits p.group_of) ≡ range_with_len 0 (flush_count t.waits) }
{}

/// Each flush has its comment: a text that declares items has as many comments as flushes.
pub fn each_flush_has_a_comment()
    ensures { (text : List ℕ) (s : Declared) → declaration text ≡ Ok s →
        length (comments_of text) ≡ flush_count s.table.waits }
{}

/// An arrow has the head of its flush's kind: that of a whole workqueue exactly if the target at its place is a whole
/// workqueue.
pub fn an_arrow_has_the_head_of_its_kind()
    ensures { (t : Table) (p : Partition) (i : ℕ) (target : Target) → IsTable t →
        Contains (targets_of t.waits i) target →
        is_whole_at t.waits (arc_of p.group_of i target) ≡ target.whole }
{}

/// What is bold red is red: each wait of a shortest run that ends stuck is a flush in a component, or leads from a
/// workqueue that has a rescuer to one that has none.
pub fn what_is_bold_red_is_red()
    ensures { (d : Declaration) (ws : Workqueues) (components : List (List WaitArc)) (hops : List Hop) →
        IsDeclaration d →
        IsAssignment d.groups ws.assignment → AreComponents d ws components → AreShortest d ws hops →
        All (λ (h : Hop). IsRed d ws components (arc_of d.group_of h.item h.flush)) hops }
{}
