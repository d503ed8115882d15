//! Edges whose nodes have no row, and the node that each dart leaves where none lacks one.

use crate::checking::CheckFault;
use id_index::IdIndex;
use plane_model::{EdgeRow, Tables};
use std::alloc::Global;
use topo_base::Refusal;

/// The rows of nodes by their ids.
#[derive(Drop)]
pub struct NodeIndex<'a> {
    pub tables: &'a Tables,
    pub rows: IdIndex,
}

impl<'a> NodeIndex<'a> {
    ghost use Rattle.std.specs.Prelude.{◌≡◌, IsTrue, IfErr, IfOk, MatchResult, None, Some, map, slice_get};
    ghost use Rattle.plane_model.specs.Rows.{rows_of};
    ghost use Rattle.plane_model.specs.PlaneMap.{map_of};
    ghost use Rattle.plane_model.specs.InRange.{is_in_range};
    ghost use Rattle.plane_model.specs.Sets.{is_distinct};
    ghost use Rattle.plane_model.specs.Faults.{first_in, no_node};
    ghost use Rattle.rotation_check.specs.Checked.{Names};
    ghost use Rattle.rotation_check.specs.Darts.{AreNodes};
    ghost use Rattle.rotation_check.specs.Indexed.{IsNodeIndex};

    /// The rows of the start and the end node of an edge, or the first of them that has none.
    pub fn rows_of_ends(&self, edge: &EdgeRow) -> Result<(u32, u32), Refusal>
        requires { IsNodeIndex self.now }
        ensures start { IfOk result (λ ends. slice_get (map (λ n. n.id) self.now.tables.now.nodes) ends.0
            ≡ Some edge.now.start) }
        ensures end { IfOk result (λ ends. slice_get (map (λ n. n.id) self.now.tables.now.nodes) ends.1
            ≡ Some edge.now.end) }
        ensures fault { MatchResult result (λ _. no_node (map_of (rows_of self.now.tables.now)) edge.now ≡ None)
            (λ e. no_node (map_of (rows_of self.now.tables.now)) edge.now ≡ Some e) }
    {
        let Some(start) = self.rows.row_of(edge.start) else {
            return Err(Refusal::NoNode {
                edge: edge.id,
                node: edge.start,
            });
        };
        let Some(end) = self.rows.row_of(edge.end) else {
            return Err(Refusal::NoNode {
                edge: edge.id,
                node: edge.end,
            });
        };
        Ok((start, end))
    }

    /// The row of the node that each dart leaves, or the first edge with a node that has no row.
    pub fn nodes_of_darts(&self, alloc: Global) -> Result<Vec<u32>, CheckFault>
        requires index { IsNodeIndex self.now }
        requires distinct { IsTrue (is_distinct (map (λ e. e.id) self.now.tables.now.edges)) }
        requires in_range { IsTrue (is_in_range (rows_of self.now.tables.now)) }
        ensures nodes { IfOk result (λ nodes. AreNodes self.now.tables.now.nodes self.now.tables.now.edges
            nodes.items) }
        ensures fine { IfOk result (λ _. first_in (no_node (map_of (rows_of self.now.tables.now)))
            self.now.tables.now.edges ≡ None) }
        ensures fault { IfErr result (λ e. Names e (first_in (no_node (map_of (rows_of self.now.tables.now)))
            self.now.tables.now.edges)) }
    {
        let edges = &self.tables.edges;
        let mut nodes = Vec::with_capacity(alloc, 2 * edges.len())?;
        for row in 0..edges.len() {
            let (start, end) = self.rows_of_ends(&edges.row(row))?;
            nodes.push(start)?;
            nodes.push(end)?;
        }
        Ok(nodes)
    }
}
