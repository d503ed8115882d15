//! Rows of the five tables, as PostGIS Topology has them; regions and their members are ours.

use crate::edge_table::EdgeTable;
use crate::node_table::NodeTable;
use topo_base::{IdNumber, SignedNumber};

/// A node. `face` is the face that contains it where no edge ends there, and `None` else.
#[derive(Clone, Copy, Debug, PartialEq, Eq)]
pub struct NodeRow {
    pub id: IdNumber,
    pub face: Option<IdNumber>,
}

/// An edge from its start node to its end node. `next_left` is the signed edge that follows it round
/// the face on its left, `next_right` the one that follows the edge walked back round the face on its
/// right; each is the id of an edge, below zero where that edge is walked back.
#[derive(Clone, Copy, Debug, PartialEq, Eq)]
pub struct EdgeRow {
    pub id: IdNumber,
    pub start: IdNumber,
    pub end: IdNumber,
    pub next_left: SignedNumber,
    pub next_right: SignedNumber,
    pub left_face: IdNumber,
    pub right_face: IdNumber,
}

/// A face; face 0, the universal one, may have a row and needs none.
#[derive(Clone, Copy, Debug, PartialEq, Eq)]
pub struct FaceRow {
    pub id: IdNumber,
}

/// A region, and the one that it lies in.
#[derive(Clone, Copy, Debug, PartialEq, Eq)]
pub struct RegionRow {
    pub id: IdNumber,
    pub parent: Option<IdNumber>,
}

/// A face of a region.
#[derive(Clone, Copy, Debug, PartialEq, Eq)]
pub struct MemberRow {
    pub region: IdNumber,
    pub face: IdNumber,
}

/// The rows of the five tables, in the order of the files.
#[derive(Debug, Drop)]
pub struct Tables {
    pub nodes: NodeTable,
    pub edges: EdgeTable,
    pub faces: Vec<FaceRow>,
    pub regions: Vec<RegionRow>,
    pub members: Vec<MemberRow>,
}
