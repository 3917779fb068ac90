//! Wait graphs: for each vertex, the declared flushes that leave it.
//!
//! The vertices are the groups of the items, or their lanes. So an arc leaves a group or a lane, whichever of its items
//! declares the flush. All arcs are in one vector, those of vertex 0 first, with the index where the arcs of each
//! vertex begin. Making a graph takes
//!
//!   O(items + vertices + flushes) time and memory.
//!
//! Each other call takes constant time.

ghost use Rattle.std.specs.Prelude.{◌≡◌, ◌<◌, ◌≤◌, length, flat_map, IfOk, IfErr};
ghost use Rattle.std.specs.List.{All};
ghost use Rattle.wq_groups.specs.Declaration.{declaration_of};
ghost use Rattle.wq_graph.specs.Graph.{IsGraph, arcs_at, graph_of, group_graph, lane_graph, without};

use crate::arc::WaitArc;
use crate::building::sorted_arcs;
use crate::leaving_out::kept_arcs;
use std::alloc::{AllocError, Allocator};
use std::marker::Model;
use wq_buckets::Pieces;
use wq_groups::{Assignment, Groups};
use wq_items::ItemTable;

/// A wait graph. Contracts see the list of the arcs of each vertex.
#[derive(Drop)]
pub struct WaitGraph<A: Allocator> {
    arcs: Pieces<WaitArc, A>,
}

impl<A: Allocator> Model for WaitGraph<A> {
    ghost use Rattle.std.specs.Prelude.{◌<◌, List, length, flat_map};
    ghost use Rattle.wq_graph.specs.declared.arc.WaitArc.{WaitArc};
    ghost use Rattle.wq_graph.specs.Graph.{IsGraph};

    ghost Value = { List (List WaitArc) };

    ghost view = { λ g. g.arcs };

    ghost invariant = { λ g. IsGraph g.arcs × (length (flat_map (λ arcs. arcs) g.arcs) < 4294967296) };
}

impl<A: Allocator + Copy> WaitGraph<A> {
    /// The wait graph of a table's items with `vertices` vertices, where `vertex_of` has the vertex of each item.
    fn of_vertices(
        alloc: A,
        table: &ItemTable<'_, A>,
        vertex_of: &[u16],
        vertices: u16,
    ) -> Result<Self, AllocError>
        requires one_each { length vertex_of.now ≡ length table.now.names }
        requires within { All (λ v. v < vertices) vertex_of.now }
        requires few { vertices ≤ 4096 }
        ensures graph { IfOk result (λ g. g ≡ graph_of table.now.waits vertex_of.now vertices) }
        ensures memory { IfErr result (λ _. 0 < vertices) }
    {
        let arcs = sorted_arcs(alloc, table, vertex_of, vertices)?;
        Ok(WaitGraph { arcs })
    }

    /// The wait graph of the groups of a table's items. The groups must be those of this table.
    ///
    /// The only error is out of memory (20), which can't occur if there is no group.
    pub fn of_groups(
        alloc: A,
        table: &ItemTable<'_, A>,
        groups: &Groups<A>,
    ) -> Result<Self, AllocError>
        requires { length groups.now.group_of ≡ length table.now.names }
        ensures graph { IfOk result (λ g. g ≡ group_graph (declaration_of table.now groups.now)) }
        ensures memory { IfErr result (λ _. 0 < groups.now.groups) }
    {
        Self::of_vertices(alloc, table, groups.numbers(), groups.len())
    }

    /// The wait graph of the lanes of an assignment. The groups must be those of this table, and the assignment must
    /// have a lane for each of them. A lane that serves no group has no arc.
    ///
    /// The only error is out of memory (20), which can't occur if there is no lane.
    pub fn of_lanes(
        alloc: A,
        table: &ItemTable<'_, A>,
        groups: &Groups<A>,
        assignment: &Assignment<A>,
    ) -> Result<Self, AllocError>
        requires grouped { length groups.now.group_of ≡ length table.now.names }
        requires assigned { length assignment.now.lane_of_group ≡ groups.now.groups }
        ensures graph { IfOk result (λ g. g ≡ lane_graph (declaration_of table.now groups.now) assignment.now) }
        ensures memory { IfErr result (λ _. 0 < assignment.now.lanes) }
    {
        let lanes = assignment.lanes();
        let vertex_of = assignment.item_lanes(alloc, groups)?;
        Self::of_vertices(alloc, table, vertex_of.as_slice(), lanes)
    }

    /// The graph without the vertices that `left_out` marks: no arc leaves one or leads to one. They keep their
    /// numbers. A vertex past the end of the list stays.
    ///
    /// The only error is out of memory (20), which can't occur if there is no vertex.
    pub fn without(self, alloc: A, left_out: &[bool]) -> Result<Self, AllocError>
        ensures graph { IfOk result (λ g. g ≡ without left_out.now self) }
        ensures memory { IfErr result (λ _. 0 < length self) }
    {
        let arcs = kept_arcs(alloc, &self, left_out)?;
        Ok(WaitGraph { arcs })
    }

    /// How many vertices there are, at most 4,096.
    pub fn vertices(&self) -> u16
        ensures vertices { result ≡ length self.now }
        ensures graph { IsGraph self.now }
    {
        self.arcs.len() as u16
    }

    /// The arcs that leave a vertex below `vertices()`, in order of place.
    pub fn arcs(&self, vertex: u16) -> &[WaitArc]
        requires { vertex < length self.now }
        ensures { result.now ≡ arcs_at self.now vertex }
    {
        self.arcs.get(vertex)
    }

    /// All arcs: those of vertex 0, then those of vertex 1, and so on. Their places are below 2^32.
    pub fn all(&self) -> &[WaitArc]
        ensures arcs { result.now ≡ flat_map (λ arcs. arcs) self.now }
        ensures few { length result.now < 4294967296 }
    {
        self.arcs.all()
    }
}
