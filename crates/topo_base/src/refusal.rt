//! Why tables are refused.

use crate::id::{IdNumber, SignedNumber};

/// The five tables of a map.
#[derive(Clone, Copy, Debug, PartialEq, Eq)]
pub enum Table {
    Node,
    Edge,
    Face,
    Region,
    Member,
}

/// The columns that are read, each named in a table's header by its words in small letters, joined by `_`.
#[derive(Clone, Copy, Debug, PartialEq, Eq)]
pub enum Column {
    NodeId,
    ContainingFace,
    EdgeId,
    StartNode,
    EndNode,
    NextLeftEdge,
    NextRightEdge,
    LeftFace,
    RightFace,
    FaceId,
    RegionId,
    Parent,
}

/// What is first wrong with tables. Rows are counted from 1, the first behind the header.
#[derive(Clone, Copy, Debug, PartialEq, Eq)]
pub enum Refusal {
    /// F1: a table's header lacks a column that is needed, or there is no header.
    ColumnMissing {
        table: Table,
        column: Column,
    },
    /// F2: a table's header has a column that is needed more than once.
    ColumnTwice {
        table: Table,
        column: Column,
    },
    /// F3: a row has another number of fields than the header has.
    RowShape {
        table: Table,
        row: u64,
        fields: u64,
        wanted: u64,
    },
    /// F4: a field that is needed isn't empty, and its spelling or its range is wrong.
    BadNumber {
        table: Table,
        row: u64,
        column: Column,
    },
    /// F5: a field that may not be NULL is empty.
    EmptyNumber {
        table: Table,
        row: u64,
        column: Column,
    },
    /// F6: a table has more rows than it may have.
    TooMany {
        table: Table,
    },
    /// F7: an id stands in two rows of a table; the least such id.
    IdTwice {
        table: Table,
        id: IdNumber,
    },
    /// F8: an edge's start or end node has no row.
    NoNode {
        edge: IdNumber,
        node: IdNumber,
    },
    /// F9: the edge of a next value has no row.
    NoEdge {
        edge: IdNumber,
        next: SignedNumber,
    },
    /// F10: a face other than 0 that a row names has no row; `id` is that of the row.
    NoFace {
        table: Table,
        id: IdNumber,
        face: IdNumber,
    },
    /// F11: the next of a signed edge doesn't leave the node at which the edge ends.
    WrongEnd {
        edge: SignedNumber,
        next: SignedNumber,
    },
    /// F12: a signed edge is the next of two; the smallest such.
    NextTwice {
        next: SignedNumber,
    },
    /// F13: the signed edges that leave a node are more than one round; the least such node.
    SplitNode {
        node: IdNumber,
    },
    /// F14: a node with edges has a containing face, or one without edges has none.
    NodeFace {
        node: IdNumber,
    },
    /// F15: a signed edge and its next have different faces on their left.
    MixedRing {
        edge: SignedNumber,
        next: SignedNumber,
    },
    /// F16: nodes - edges + rings isn't 2 in the component of this edge, its least.
    Euler {
        edge: IdNumber,
        nodes: u64,
        edges: u64,
        rings: u64,
    },
    /// F17: the number of rings isn't faces + components - 1; face 0 is counted.
    FaceCycle {
        rings: u64,
        faces: u64,
        components: u64,
    },
    /// F18: a component isn't reached from face 0; its least edge.
    Unplaced {
        edge: IdNumber,
    },
    /// F19: a face other than 0 is on no ring; the least such face.
    BareFace {
        face: IdNumber,
    },
    /// F20: a parent or a member's region has no row; `id` is that of the region row, or the face of the member row.
    NoRegion {
        table: Table,
        id: IdNumber,
        region: IdNumber,
    },
    /// F21: a region's chain of parents comes back to it; the least such region.
    RegionCycle {
        region: IdNumber,
    },
    /// F22: a face stands in two member rows; the least such face.
    MemberTwice {
        face: IdNumber,
    },
}
