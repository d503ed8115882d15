//! The checks.

ghost use Rattle.std.specs.Prelude.{◌≡◌, IfOk, IfErr, IsTrue, OnOk, None, map};
ghost use Rattle.plane_model.specs.Rows.{rows_of};
ghost use Rattle.plane_model.specs.InRange.{is_in_range};
ghost use Rattle.plane_model.specs.Rotation.{is_rotation_system};
ghost use Rattle.plane_model.specs.Faults.{rotation_fault};
ghost use Rattle.id_index.specs.Index.{IsIndex};
ghost use Rattle.rotation_check.specs.Checked.{Names, numbering_fault, face_fault, orbit_fault};
ghost use Rattle.rotation_check.specs.Numbered.{IsNumbered, rows_of_darts};

use crate::counts::{count_each, place_each};
use crate::darts::Darts;
use crate::missing_edges::EdgeIndex;
use crate::missing_faces::FaceIndex;
use crate::missing_nodes::NodeIndex;
use crate::repeated_ids::{distinct_index, edge_ids, face_ids, node_ids};
use crate::rotation::Rotation;
use id_index::IdIndex;
use plane_model::Tables;
use std::alloc::{AllocError, AllocFailed, Global};
use topo_base::{Refusal, Table};

/// Why there is no rotation: what is first wrong with the tables, or want of memory.
#[derive(Clone, Copy, Debug, PartialEq, Eq)]
pub enum CheckFault {
    Refused(Refusal),
    Memory,
}

impl From<Refusal> for CheckFault {
    ghost use Rattle.std.specs.Prelude.{◌≡◌};
    ghost use Rattle.rotation_check.specs.declared.checking.CheckFault.TheVariants.{Refused};

    ghost from_gives = { λ refusal e. e ≡ Refused refusal };

    fn from(refusal: Refusal) -> CheckFault {
        CheckFault::Refused(refusal)
    }
}

impl From<AllocError> for CheckFault {
    ghost use Rattle.std.specs.Prelude.{◌≡◌};
    ghost use Rattle.rotation_check.specs.declared.checking.CheckFault.TheVariants.{Memory};

    ghost from_gives = { λ _ e. e ≡ Memory };

    fn from(_error: AllocError) -> CheckFault {
        CheckFault::Memory
    }
}

impl<T: Drop> From<AllocFailed<T>> for CheckFault {
    ghost use Rattle.std.specs.Prelude.{◌≡◌};
    ghost use Rattle.rotation_check.specs.declared.checking.CheckFault.TheVariants.{Memory};

    ghost from_gives = { λ _ e. e ≡ Memory };

    fn from(_error: AllocFailed<T>) -> CheckFault {
        CheckFault::Memory
    }
}

/// Nothing, or the refusal of a fault.
pub(crate) fn refuse(fault: Option<Refusal>) -> Result<(), CheckFault>
    ensures fine { OnOk result (fault ≡ None) }
    ensures refused { IfErr result (λ e. Names e fault) }
{
    match fault {
        Some(refusal) => Err(CheckFault::Refused(refusal)),
        None => Ok(()),
    }
}

/// The darts of tables whose ids are distinct and whose edges have their nodes and nexts, with the index of their
/// faces, or what is first wrong with them.
fn number_darts<'a>(alloc: Global, tables: &'a Tables) -> Result<(Darts<'a>, IdIndex), CheckFault>
    requires { IsTrue (is_in_range (rows_of tables.now)) }
    ensures tables { IfOk result (λ numbered. numbered.0.tables.now ≡ tables.now) }
    ensures numbered { IfOk result (λ numbered. IsNumbered numbered.0) }
    ensures faces { IfOk result (λ numbered. IsIndex (map (λ f. f.id) tables.now.faces.items) numbered.1) }
    ensures fine { OnOk result (numbering_fault (rows_of tables.now) ≡ None) }
    ensures refused { IfErr result (λ e. Names e (numbering_fault (rows_of tables.now))) }
{
    let nodes = distinct_index(alloc, Table::Node, &node_ids(alloc, &tables.nodes)?)?;
    let edges = distinct_index(alloc, Table::Edge, &edge_ids(alloc, &tables.edges)?)?;
    let faces = distinct_index(alloc, Table::Face, &face_ids(alloc, &tables.faces)?)?;
    let node = NodeIndex {
        tables,
        rows: nodes,
    }
    .nodes_of_darts(alloc)?;
    let next = EdgeIndex {
        tables,
        rows: edges,
    }
    .nexts_of_darts(alloc)?;
    Ok((Darts { tables, next, node }, faces))
}

/// Nothing where faces have rows, or the first that has none.
fn check_faces(tables: &Tables, rows: IdIndex) -> Result<(), CheckFault>
    requires { IsIndex (map (λ f. f.id) tables.now.faces.items) rows }
    ensures fine { OnOk result (face_fault (rows_of tables.now) ≡ None) }
    ensures refused { IfErr result (λ e. Names e (face_fault (rows_of tables.now))) }
{
    let faces = FaceIndex { tables, rows };
    refuse(faces.first_missing_side())?;
    refuse(faces.first_missing_container())
}

/// Nothing where each node's darts are one orbit, or what is first wrong with nexts and orbits.
fn check_orbits(alloc: Global, darts: &Darts) -> Result<(), CheckFault>
    requires { IsNumbered darts.now }
    ensures fine { OnOk result (orbit_fault (rows_of_darts darts.now) ≡ None) }
    ensures refused { IfErr result (λ e. Names e (orbit_fault (rows_of_darts darts.now))) }
{
    refuse(darts.first_wrong_end())?;
    let befores = count_each(alloc, &darts.next, darts.next.len())?;
    refuse(darts.smallest_next_of_two(&befores))?;
    let nodes = darts.tables.nodes.len();
    let leaving = count_each(alloc, &darts.node, nodes)?;
    let places = place_each(alloc, &darts.node, nodes)?;
    refuse(darts.least_split_node(&leaving, &places))?;
    refuse(darts.first_node_with_face(&leaving))
}

/// The rotation of tables that are a rotation system, or what is first wrong with them.
pub fn check<'a>(alloc: Global, tables: &'a Tables) -> Result<Rotation<'a>, CheckFault>
    requires { IsTrue (is_in_range (rows_of tables.now)) }
    ensures system { OnOk result (IsTrue (is_rotation_system (rows_of tables.now))) }
    ensures nodes { IfOk result (λ rotation. rotation.nodes ≡ (rows_of tables.now).nodes) }
    ensures edges { IfOk result (λ rotation. rotation.edges ≡ (rows_of tables.now).edges) }
    ensures refused { IfErr result (λ e. Names e (rotation_fault (rows_of tables.now))) }
{
    let (darts, faces) = number_darts(alloc, tables)?;
    check_faces(tables, faces)?;
    check_orbits(alloc, &darts)?;
    Ok(Rotation::new(darts))
}
