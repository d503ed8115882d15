//! Next values whose edge has no row, and the next of each dart where none lacks one.

use crate::checking::CheckFault;
use crate::signed::{edge_id, is_forward};
use id_index::IdIndex;
use plane_model::{EdgeRow, Tables};
use std::alloc::Global;
use topo_base::{Refusal, SignedNumber};

/// The rows of edges by their ids.
#[derive(Drop)]
pub struct EdgeIndex<'a> {
    pub tables: &'a Tables,
    pub rows: IdIndex,
}

impl<'a> EdgeIndex<'a> {
    ghost use Rattle.std.specs.Prelude.{◌≡◌, ◌≤◌, IsFalse, IsTrue, IfErr, IfOk, MatchOption, MatchResult, None, Some, length, map};
    ghost use Rattle.topo_base.specs.SignedEdge.{IsSignedEdge, edge_of};
    ghost use Rattle.plane_model.specs.Rows.{rows_of};
    ghost use Rattle.plane_model.specs.PlaneMap.{map_of};
    ghost use Rattle.plane_model.specs.InRange.{is_in_range};
    ghost use Rattle.plane_model.specs.Sets.{has, is_distinct};
    ghost use Rattle.plane_model.specs.Faults.{first_in, no_edge_row};
    ghost use Rattle.rotation_check.specs.Checked.{Names};
    ghost use Rattle.rotation_check.specs.Darts.{AreNexts, IsDartOf};
    ghost use Rattle.rotation_check.specs.Indexed.{IsEdgeIndex};

    /// The dart of a signed edge, where the edge has a row.
    pub fn dart_of(&self, number: SignedNumber) -> Option<u32>
        requires index { IsEdgeIndex self.now }
        requires few { length self.now.tables.now.edges ≤ 16_777_216 }
        requires signed { IsSignedEdge number }
        ensures { MatchOption result (IsFalse (has (map (λ e. e.id) self.now.tables.now.edges) (edge_of number)))
            (IsDartOf self.now.tables.now.edges number) }
    {
        let row = self.rows.row_of(edge_id(number))?;
        Some(if is_forward(number) {
            2 * row
        } else {
            2 * row + 1
        })
    }

    /// The darts of the next values of an edge, the left one and the right one, or the first of them whose edge has no
    /// row.
    pub fn darts_of_nexts(&self, edge: &EdgeRow) -> Result<(u32, u32), Refusal>
        requires index { IsEdgeIndex self.now }
        requires few { length self.now.tables.now.edges ≤ 16_777_216 }
        requires left { IsSignedEdge edge.now.next_left }
        requires right { IsSignedEdge edge.now.next_right }
        ensures left { IfOk result (λ nexts. IsDartOf self.now.tables.now.edges edge.now.next_left nexts.0) }
        ensures right { IfOk result (λ nexts. IsDartOf self.now.tables.now.edges edge.now.next_right nexts.1) }
        ensures fault { MatchResult result (λ _. no_edge_row (map_of (rows_of self.now.tables.now)) edge.now ≡ None)
            (λ e. no_edge_row (map_of (rows_of self.now.tables.now)) edge.now ≡ Some e) }
    {
        let Some(left) = self.dart_of(edge.next_left) else {
            return Err(Refusal::NoEdge {
                edge: edge.id,
                next: edge.next_left,
            });
        };
        let Some(right) = self.dart_of(edge.next_right) else {
            return Err(Refusal::NoEdge {
                edge: edge.id,
                next: edge.next_right,
            });
        };
        Ok((left, right))
    }

    /// The dart after each dart round the face on its left, or the first edge with a next value whose edge has no row.
    pub fn nexts_of_darts(&self, alloc: Global) -> Result<Vec<u32>, CheckFault>
        requires index { IsEdgeIndex self.now }
        requires distinct { IsTrue (is_distinct (map (λ e. e.id) self.now.tables.now.edges)) }
        requires in_range { IsTrue (is_in_range (rows_of self.now.tables.now)) }
        ensures nexts { IfOk result (λ nexts. AreNexts self.now.tables.now.edges nexts.items) }
        ensures fine { IfOk result (λ _. first_in (no_edge_row (map_of (rows_of self.now.tables.now)))
            self.now.tables.now.edges ≡ None) }
        ensures fault { IfErr result (λ e. Names e (first_in (no_edge_row (map_of (rows_of self.now.tables.now)))
            self.now.tables.now.edges)) }
    {
        let edges = &self.tables.edges;
        let mut nexts = Vec::with_capacity(alloc, 2 * edges.len())?;
        for row in 0..edges.len() {
            let (left, right) = self.darts_of_nexts(&edges.row(row))?;
            nexts.push(left)?;
            nexts.push(right)?;
        }
        Ok(nexts)
    }
}
