//! Faces that have no row.

use id_index::IdIndex;
use plane_model::{EdgeRow, NodeRow, Tables};
use topo_base::{IdNumber, Refusal, Table};

/// The rows of faces by their ids.
#[derive(Drop)]
pub struct FaceIndex<'a> {
    pub tables: &'a Tables,
    pub rows: IdIndex,
}

impl<'a> FaceIndex<'a> {
    ghost use Rattle.std.specs.Prelude.{◌≡◌};
    ghost use Rattle.topo_base.specs.declared.refusal.Refusal.TheVariants.{NoFace};
    ghost use Rattle.plane_model.specs.Rows.{rows_of};
    ghost use Rattle.plane_model.specs.PlaneMap.{map_of};
    ghost use Rattle.plane_model.specs.Rotation.{is_face};
    ghost use Rattle.plane_model.specs.Faults.{first_in, no_containing_face, no_face, unless};
    ghost use Rattle.rotation_check.specs.Indexed.{IsFaceIndex};

    /// Whether a face is 0 or has a row.
    pub fn is_face(&self, face: IdNumber) -> bool
        requires { IsFaceIndex self.now }
        ensures { result ≡ is_face (map_of (rows_of self.now.tables.now)) face }
    {
        face == 0 || self.rows.row_of(face).is_some()
    }

    /// What is wrong where a face that a row names is not there.
    pub fn missing_face(&self, table: Table, id: IdNumber, face: IdNumber) -> Option<Refusal>
        requires { IsFaceIndex self.now }
        ensures { result ≡ unless (is_face (map_of (rows_of self.now.tables.now)) face) (NoFace table id face) }
    {
        if self.is_face(face) {
            None
        } else {
            Some(Refusal::NoFace { table, id, face })
        }
    }

    /// What is wrong where a face beside an edge is not there, the left one first.
    pub fn missing_side(&self, edge: &EdgeRow) -> Option<Refusal>
        requires { IsFaceIndex self.now }
        ensures { result ≡ no_face (map_of (rows_of self.now.tables.now)) edge.now }
    {
        match self.missing_face(Table::Edge, edge.id, edge.left_face) {
            None => self.missing_face(Table::Edge, edge.id, edge.right_face),
            fault => fault,
        }
    }

    /// What is wrong where the face that contains a node is not there.
    pub fn missing_container(&self, node: &NodeRow) -> Option<Refusal>
        requires { IsFaceIndex self.now }
        ensures { result ≡ no_containing_face (map_of (rows_of self.now.tables.now)) node.now }
    {
        self.missing_face(Table::Node, node.id, node.face?)
    }

    /// The first edge beside a face that has no row.
    pub fn first_missing_side(&self) -> Option<Refusal>
        requires { IsFaceIndex self.now }
        ensures { result ≡ first_in (no_face (map_of (rows_of self.now.tables.now))) self.now.tables.now.edges }
    {
        let edges = &self.tables.edges;
        for row in 0..edges.len() {
            let fault = self.missing_side(&edges.row(row));
            if fault.is_some() {
                return fault;
            }
        }
        None
    }

    /// The first node in a face that has no row.
    pub fn first_missing_container(&self) -> Option<Refusal>
        requires { IsFaceIndex self.now }
        ensures { result ≡ first_in (no_containing_face (map_of (rows_of self.now.tables.now)))
            self.now.tables.now.nodes }
    {
        let nodes = &self.tables.nodes;
        for row in 0..nodes.len() {
            let fault = self.missing_container(&nodes.row(row));
            if fault.is_some() {
                return fault;
            }
        }
        None
    }
}
