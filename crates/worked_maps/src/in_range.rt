//! Whether the numbers of tables and how many rows there are lie within the limits.

ghost use Rattle.std.specs.Prelude.{◌≡◌, ◌&&◌, IsTrue, OnOk};
ghost use Rattle.std.specs.List.{list_all};
ghost use Rattle.topo_base.specs.SignedEdge.{is_signed_edge};
ghost use Rattle.plane_model.specs.InRange.{is_edge_in_range, is_face_id, is_id, is_in_range, is_none_or};
ghost use Rattle.plane_model.specs.Rows.{rows_of};

use plane_model::{EdgeRow, EdgeTable, FaceRow, MemberRow, NodeRow, NodeTable, RegionRow, Tables};
use std::test::Fail;
use topo_base::{IdNumber, LARGEST_ID, SignedNumber};

/// Whether a number may be the id of a node, an edge or a region.
fn is_id(id: IdNumber) -> bool
    ensures { result ≡ is_id id }
{
    id >= 1 && id <= LARGEST_ID
}

/// Whether a number may be the id of a face.
fn is_face_id(id: IdNumber) -> bool
    ensures { result ≡ is_face_id id }
{
    id <= LARGEST_ID
}

/// Whether a number may be a signed edge.
fn is_signed_edge(number: SignedNumber) -> bool
    ensures { result ≡ is_signed_edge number }
{
    number != 0 && number.unsigned_abs() <= LARGEST_ID
}

/// Whether the ids in a row are ids.
fn is_node_in_range(node: &NodeRow) -> bool
    ensures { result ≡ (is_id node.now.id && is_none_or is_face_id node.now.face) }
{
    is_id(node.id) && node.face.is_none_or(is_face_id)
}

/// Whether the ids in rows of nodes are ids.
fn are_nodes_in_range(nodes: &NodeTable) -> bool
    ensures { result ≡ list_all (λ r. is_id r.id && is_none_or is_face_id r.face) nodes.now }
{
    for row in 0..nodes.len() {
        if !is_node_in_range(&nodes.row(row)) {
            return false;
        }
    }
    true
}

/// Whether the ids and next values in a row are such.
fn is_edge_in_range(edge: &EdgeRow) -> bool
    ensures { result ≡ is_edge_in_range edge.now }
{
    is_id(edge.id)
        && is_id(edge.start)
        && is_id(edge.end)
        && is_signed_edge(edge.next_left)
        && is_signed_edge(edge.next_right)
        && is_face_id(edge.left_face)
        && is_face_id(edge.right_face)
}

/// Whether the ids and next values in rows of edges are such.
fn are_edges_in_range(edges: &EdgeTable) -> bool
    ensures { result ≡ list_all is_edge_in_range edges.now }
{
    for row in 0..edges.len() {
        if !is_edge_in_range(&edges.row(row)) {
            return false;
        }
    }
    true
}

/// Whether the ids in rows of faces are ids.
pub fn are_faces_in_range(faces: &[FaceRow]) -> bool
    ensures { result ≡ list_all (λ r. is_face_id r.id) faces.now }
{
    faces.iter().all(|face| is_face_id(face.id))
}

/// Whether the ids in rows of regions are ids.
pub fn are_regions_in_range(regions: &[RegionRow]) -> bool
    ensures { result ≡ list_all (λ r. is_id r.id && is_none_or is_id r.parent) regions.now }
{
    regions.iter().all(|region| is_id(region.id) && region.parent.is_none_or(is_id))
}

/// Whether the ids in rows of members are ids.
pub fn are_members_in_range(members: &[MemberRow]) -> bool
    ensures { result ≡ list_all (λ r. is_id r.region && is_face_id r.face) members.now }
{
    members
        .iter()
        .all(|member| is_id(member.region) && is_face_id(member.face))
}

/// Whether tables are in range.
fn are_in_range(tables: &Tables) -> bool
    ensures { IsTrue result → IsTrue (is_in_range (rows_of tables.now)) }
{
    if !are_nodes_in_range(&tables.nodes)
        || !are_edges_in_range(&tables.edges)
        || !are_faces_in_range(&tables.faces)
        || !are_regions_in_range(&tables.regions)
        || !are_members_in_range(&tables.members)
    {
        return false;
    }
    tables.nodes.len() <= 16_777_216
        && tables.edges.len() <= 16_777_216
        && tables.faces.len() <= 16_777_216
        && tables.regions.len() <= 16_777_216
        && tables.members.len() <= 16_777_217
}

/// Fails a test whose tables are not within the limits.
pub fn within_limits(tables: &Tables) -> Result<(), Fail>
    ensures { OnOk result (IsTrue (is_in_range (rows_of tables.now))) }
{
    if are_in_range(tables) {
        Ok(())
    } else {
        Err(Fail::new("a number that is out of range"))
    }
}
