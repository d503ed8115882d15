//! A rotation system over numbered darts.

use crate::darts::{Darts, reversed};
use crate::signed::signed_of_dart;
use plane_model::Tables;
use std::marker::Model;
use topo_base::{IdNumber, Signed};

/// A rotation system of borrowed tables. The edge of row `i`, from 0, has the dart `2 * i` forward and `2 * i + 1`
/// backward.
#[derive(Drop)]
pub struct Rotation<'a> {
    tables: &'a Tables,
    next: Vec<u32>,
    node: Vec<u32>,
}

impl<'a> Model for Rotation<'a> {
    ghost use Rattle.std.specs.Prelude.{◌≡◌, IsTrue, ◌≤◌, ◌*◌, length, vec_len};
    ghost use Rattle.plane_model.specs.Rows.{rows_of};
    ghost use Rattle.rotation_check.specs.Darts.{RotationRows, IsRotation, AreNexts, AreNodes, rotation_rows};

    ghost Value = { RotationRows };

    ghost view = { λ r. rotation_rows (rows_of r.tables.now) };

    ghost invariant = { λ r. IsRotation (rotation_rows (rows_of r.tables.now))
        × AreNexts r.tables.now.edges r.next.items
        × AreNodes r.tables.now.nodes r.tables.now.edges r.node.items };
}

impl<'a> Rotation<'a> {
    ghost use Rattle.std.specs.Prelude.{◌≡◌, ◌*◌, ◌<◌, ◌≤◌, IsTrue, length};
    ghost use Rattle.plane_model.specs.PlaneMap.{next, origin, side, turn};
    ghost use Rattle.plane_model.specs.Rotation.{is_rotation_system};
    ghost use Rattle.rotation_check.specs.Darts.{IsRotation, map_of_rotation, node_id, signed_edge};
    ghost use Rattle.rotation_check.specs.Numbered.{IsNumbered, rows_of_darts};

    /// The rotation of darts whose tables are a rotation system.
    pub(crate) fn new(darts: Darts<'a>) -> Self
        requires numbered { IsNumbered darts }
        requires system { IsTrue (is_rotation_system (rows_of_darts darts)) }
        ensures nodes { result.nodes ≡ (rows_of_darts darts.entry).nodes }
        ensures edges { result.edges ≡ (rows_of_darts darts.entry).edges }
    {
        let Darts { tables, next, node } = darts;
        Rotation { tables, next, node }
    }

    /// How many edges there are; there are twice as many darts.
    pub fn edges(&self) -> u32
        ensures edges { result ≡ length self.now.edges }
        ensures rotation { IsRotation self.now }
    {
        self.tables.edges.len() as u32
    }

    /// How many nodes there are.
    pub fn nodes(&self) -> u32
        ensures nodes { result ≡ length self.now.nodes }
        ensures rotation { IsRotation self.now }
    {
        self.tables.nodes.len() as u32
    }

    /// The dart after a dart round the face on its left.
    pub fn next(&self, dart: u32) -> u32
        requires { dart < 2 * length self.now.edges }
        ensures within { result < 2 * length self.now.edges }
        ensures next { signed_edge self.now.edges result
            ≡ next (map_of_rotation self.now) (signed_edge self.now.edges dart) }
    {
        self.next[dart as usize]
    }

    /// The dart after a dart round the node that it leaves.
    pub fn turn(&self, dart: u32) -> u32
        requires { dart < 2 * length self.now.edges }
        ensures within { result < 2 * length self.now.edges }
        ensures turn { signed_edge self.now.edges result
            ≡ turn (map_of_rotation self.now) (signed_edge self.now.edges dart) }
    {
        self.next[reversed(dart) as usize]
    }

    /// The row, from 0, of the node that a dart leaves.
    pub fn node(&self, dart: u32) -> u32
        requires { dart < 2 * length self.now.edges }
        ensures within { result < length self.now.nodes }
        ensures node { node_id self.now.nodes result
            ≡ origin (map_of_rotation self.now) (signed_edge self.now.edges dart) }
    {
        self.node[dart as usize]
    }

    /// The id of the face on a dart's left.
    pub fn side(&self, dart: u32) -> IdNumber
        requires { dart < 2 * length self.now.edges }
        ensures { result ≡ side (map_of_rotation self.now) (signed_edge self.now.edges dart) }
    {
        let edge = self.tables.edges.row((dart / 2) as usize);
        if dart % 2 == 0 {
            edge.left_face
        } else {
            edge.right_face
        }
    }

    /// The signed edge of a dart.
    pub fn id(&self, dart: u32) -> Signed
        requires { dart < 2 * length self.now.edges }
        ensures { result ≡ signed_edge self.now.edges dart }
    {
        signed_of_dart(&self.tables.edges, dart)
    }
}
