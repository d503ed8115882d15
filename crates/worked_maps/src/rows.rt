//! Tables of rows that are written short.

use plane_model::{EdgeRow, EdgeTable, FaceRow, MemberRow, NodeRow, NodeTable, RegionRow, Tables};
use std::alloc::{AllocError, Global};
use topo_base::{IdNumber, SignedNumber};

/// A node: its id and the face that contains it.
pub type Node = (IdNumber, Option<IdNumber>);

/// An edge: its id, its start and end, its left and right next, and the faces on its left and right.
pub type Edge = (
    IdNumber,
    (IdNumber, IdNumber),
    (SignedNumber, SignedNumber),
    (IdNumber, IdNumber),
);

/// A region: its id and its parent.
pub type Region = (IdNumber, Option<IdNumber>);

/// A member: its region and its face.
pub type Member = (IdNumber, IdNumber);

/// The edges of a triangle with the nodes 1, 2 and 3, whose inner face is 1.
pub const TRIANGLE: [Edge; 3] = [
    (1, (1, 2), (2, -3), (1, 0)),
    (2, (2, 3), (3, -1), (1, 0)),
    (3, (3, 1), (1, -2), (1, 0)),
];

/// The table of these nodes.
fn node_table(alloc: Global, nodes: &[Node]) -> Result<NodeTable, AllocError> {
    let mut table = NodeTable::new(alloc);
    for &(id, face) in nodes {
        table.push(NodeRow { id, face })?;
    }
    Ok(table)
}

/// The table of these edges.
fn edge_table(alloc: Global, edges: &[Edge]) -> Result<EdgeTable, AllocError> {
    let mut table = EdgeTable::new(alloc);
    for &(id, (start, end), (next_left, next_right), (left_face, right_face)) in edges {
        table.push(EdgeRow {
            id,
            start,
            end,
            next_left,
            next_right,
            left_face,
            right_face,
        })?;
    }
    Ok(table)
}

/// The tables of these rows.
pub fn tables_with_regions(
    alloc: Global,
    nodes: &[Node],
    edges: &[Edge],
    faces: &[IdNumber],
    regions: &[Region],
    members: &[Member],
) -> Result<Tables, AllocError> {
    Ok(Tables {
        nodes: node_table(alloc, nodes)?,
        edges: edge_table(alloc, edges)?,
        faces: faces.iter().map(|&id| FaceRow { id }).collect(alloc)?,
        regions: regions
            .iter()
            .map(|&(id, parent)| RegionRow { id, parent })
            .collect(alloc)?,
        members: members
            .iter()
            .map(|&(region, face)| MemberRow { region, face })
            .collect(alloc)?,
    })
}

/// The tables of these rows, without regions and members.
pub fn tables(
    alloc: Global,
    nodes: &[Node],
    edges: &[Edge],
    faces: &[IdNumber],
) -> Result<Tables, AllocError> {
    tables_with_regions(alloc, nodes, edges, faces, &[], &[])
}
