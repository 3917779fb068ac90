//! Laws about wait graphs, as contracts of functions with empty bodies.
//!
//! `Graph` makes the arcs of a vertex from a list of all arcs. The laws say what this means for the declared flushes.

ghost use Rattle.std.specs.Prelude.{◌≡◌, ◌≤◌, ◌↔◌, ℕ, Bool, false, List};
ghost use Rattle.wq_items.specs.declared.target.Target.{Target};
ghost use Rattle.wq_groups.specs.Declaration.{Declaration, IsDeclaration, GroupWaits};
ghost use Rattle.wq_groups.specs.Assignment.{Assignment, IsAssignment, item_lanes};
ghost use Rattle.wq_graph.specs.declared.arc.WaitArc.{WaitArc};
ghost use Rattle.wq_items.specs.Table.{VertexWaits};
ghost use Rattle.wq_graph.specs.Graph.{arcs_from, arcs_at, group_graph, lane_graph, AreArcsFrom, HasArc, IsGraph};
ghost use Rattle.wq_graph.specs.Graph.{is_left_out, without};

/// The arcs that leave a vertex are the declared flushes that leave it, one for each, in order of place. This holds
/// whatever the vertices of the items are, and so for the graphs of the groups and of the lanes.
pub fn arcs_are_the_declared_flushes()
    ensures from { (d : Declaration) (vertex_of : List ℕ) (v : ℕ) →
        IsDeclaration d → AreArcsFrom d.waits vertex_of v (arcs_from d.waits vertex_of v) }
    ensures graph { (d : Declaration) (g : ℕ) →
        IsDeclaration d → AreArcsFrom d.waits d.group_of g (arcs_at (group_graph d) g) }
    ensures lanes { (d : Declaration) (a : Assignment) (q : ℕ) → IsDeclaration d → IsAssignment d.groups a →
        AreArcsFrom d.waits (item_lanes a d.group_of) q (arcs_at (lane_graph d a) q) }
{}

/// No other list has the arcs of the flushes that leave a vertex, in order of place.
pub fn arcs_are_the_only_ones()
    ensures { (waits : List (List Target)) (vertex_of : List ℕ) (v : ℕ) (arcs others : List WaitArc) →
        AreArcsFrom waits vertex_of v arcs → AreArcsFrom waits vertex_of v others → arcs ≡ others }
{}

/// A group waits for another group exactly if an arc leads from the first to the second.
pub fn groups_wait_along_arcs()
    ensures { (d : Declaration) (g h : ℕ) →
        IsDeclaration d → (GroupWaits d g h ↔ HasArc (group_graph d) g h) }
{}

/// A lane waits for a lane, since an item of the first declares a flush of an item of the second, exactly if an arc
/// leads from the first to the second.
pub fn lanes_wait_along_arcs()
    ensures { (d : Declaration) (a : Assignment) (p q : ℕ) → IsDeclaration d → IsAssignment d.groups a →
        (VertexWaits d.waits (item_lanes a d.group_of) p q ↔ HasArc (lane_graph d a) p q) }
{}

/// In a graph without some of its vertices, an arc leads from a vertex to another exactly if it did before and both
/// stay; the result is a wait graph; and if no vertex is left out, it is the same graph.
pub fn a_graph_without_vertices()
    ensures arcs { (out : List Bool) (graph : List (List WaitArc)) (v w : ℕ) → HasArc (without out graph) v w
        ↔ ((is_left_out out v ≡ false) × (is_left_out out w ≡ false) × HasArc graph v w) }
    ensures sound { (out : List Bool) (graph : List (List WaitArc)) → IsGraph graph → IsGraph (without out graph) }
    ensures same { (out : List Bool) (graph : List (List WaitArc)) → ((v : ℕ) → is_left_out out v ≡ false) →
        without out graph ≡ graph }
{}

/// The graph of the groups of a declaration and that of the lanes of an assignment have all properties of a wait graph.
pub fn graphs_are_sound()
    ensures groups { (d : Declaration) → IsDeclaration d → IsGraph (group_graph d) }
    ensures lanes { (d : Declaration) (a : Assignment) →
        IsDeclaration d → IsAssignment d.groups a → a.lanes ≤ 4096 → IsGraph (lane_graph d a) }
{}
