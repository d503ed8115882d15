//! The tour of a long path, which goes there and back.

ghost use Rattle.std.specs.Prelude.{◌≡◌, ◌≤◌, ◌&&◌, IfOk, IsTrue, [], ◌∷◌, length};
ghost use Rattle.std.specs.List.{list_all};
ghost use Rattle.plane_model.specs.InRange.{is_edge_in_range, is_face_id, is_id, is_in_range, is_none_or};
ghost use Rattle.plane_model.specs.Rows.{rows_of};
ghost use Rattle.spanning_pair.specs.Rotations.{AreComponentStarts};

use crate::tour;
use plane_model::{EdgeRow, EdgeTable, NodeRow, NodeTable, Tables};
use rotation_check::{Rotation, check};
use std::alloc::{AllocError, Global};
use std::test::Fail;
use topo_base::{IdNumber, SignedNumber};

const EDGES: u32 = 100_000;

/// An edge of a path: it leads from the node of its id to the one after.
fn path_edge(edge: IdNumber, edges: IdNumber) -> EdgeRow
    requires first { 1 ≤ edge }
    requires last { edge ≤ edges }
    requires few { edges ≤ 1000000 }
    ensures { IsTrue (is_edge_in_range result) }
{
    let number = edge as SignedNumber;
    EdgeRow {
        id: edge,
        start: edge,
        end: edge + 1,
        next_left: if edge < edges { number + 1 } else { -number },
        next_right: if edge > 1 { 1 - number } else { 1 },
        left_face: 0,
        right_face: 0,
    }
}

/// The nodes of a path, by id.
fn path_nodes(alloc: Global, nodes: u32) -> Result<NodeTable, AllocError>
    requires { nodes ≤ 1000001 }
    ensures in_range { IfOk result (λ rows. IsTrue (list_all (λ r. is_id r.id
        && is_none_or is_face_id r.face) rows)) }
    ensures len { IfOk result (λ rows. length rows ≡ nodes) }
{
    let mut rows = NodeTable::new(alloc);
    for node in 0..nodes {
        rows.push(NodeRow {
            id: IdNumber::from(node + 1),
            face: None,
        })?;
    }
    Ok(rows)
}

/// The edges of a path, by id.
fn path_edges(alloc: Global, edges: u32) -> Result<EdgeTable, AllocError>
    requires { edges ≤ 1000000 }
    ensures in_range { IfOk result (λ rows. IsTrue (list_all is_edge_in_range rows)) }
    ensures len { IfOk result (λ rows. length rows ≡ edges) }
{
    let mut rows = EdgeTable::new(alloc);
    for edge in 0..edges {
        rows.push(path_edge(IdNumber::from(edge + 1), IdNumber::from(edges)))?;
    }
    Ok(rows)
}

fn path(alloc: Global, edges: u32) -> Result<Tables, AllocError>
    requires { edges ≤ 1000000 }
    ensures { IfOk result (λ t. IsTrue (is_in_range (rows_of t))) }
{
    Ok(Tables {
        nodes: path_nodes(alloc, edges + 1)?,
        edges: path_edges(alloc, edges)?,
        faces: Vec::new(alloc),
        regions: Vec::new(alloc),
        members: Vec::new(alloc),
    })
}

fn are_all(flags: &[bool]) -> bool
    ensures { result ≡ list_all (λ flag. flag) flags.now }
{
    flags.iter().all(|&flag| flag)
}

/// Whether the ring of dart 0 has all darts, which are then one component.
fn is_one_ring(alloc: Global, rotation: &Rotation) -> Result<bool, AllocError>
    ensures { IfOk result (λ one. IsTrue one → AreComponentStarts rotation.now (0 ∷ [])) }
{
    let darts = 2 * rotation.edges();
    if darts == 0 {
        return Ok(false);
    }
    let mut met = vec![in alloc; false; darts as usize]?;
    let mut dart = 0;
    for _ in 0..darts {
        met[dart as usize] = true;
        dart = rotation.next(dart);
    }
    Ok(are_all(&met))
}

fn there_and_back(alloc: Global, edges: u32) -> Result<Vec<u32>, AllocError>
    requires { edges ≤ 1000000 }
{
    let mut darts = Vec::new(alloc);
    for edge in 0..edges {
        darts.push(2 * edge)?;
    }
    for edge in (0..edges).rev() {
        darts.push(2 * edge + 1)?;
    }
    Ok(darts)
}

#[test]
fn a_path_of_100_000_edges_is_walked_there_and_back(rt: HostRuntime) -> Result<(), Fail> {
    let given = path(rt.alloc(), EDGES)?;
    let rotation = check(rt.alloc(), &given)?;
    assert_eq!(rt; rotation.edges(), EDGES);
    assert!(rt; is_one_ring(rt.alloc(), &rotation)?);
    let found = tour(rt.alloc(), &rotation, &[0])?;
    assert_eq!(rt;
        found.darts.as_slice(),
        there_and_back(rt.alloc(), EDGES)?.as_slice()
    );
    assert!(rt; are_all(&found.tree));
    let is_half = |(place, &first): (usize, &bool)| first == (place < EDGES as usize);
    assert!(rt; found.first.iter().enumerate().all(is_half));
    assert_eq!(rt; found.starts.as_slice(), [0, 2 * EDGES].as_slice());
    Ok(())
}
