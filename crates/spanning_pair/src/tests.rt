//! Tours of small maps, worked by hand.

ghost use Rattle.std.specs.Prelude.{◌≡◌, IfOk, IsTrue, map};
ghost use Rattle.plane_model.specs.InRange.{is_in_range};
ghost use Rattle.plane_model.specs.Rows.{rows_of};
ghost use Rattle.plane_model.specs.Worked.{edge, face, node, tables};
ghost use Rattle.rotation_check.specs.Darts.{rotation_rows};

use crate::{TourFault, tour};
use plane_model::{EdgeRow, EdgeTable, FaceRow, NodeRow, NodeTable, Tables};
use rotation_check::{Rotation, check};
use std::alloc::{AllocError, Global};
use std::test::Fail;
use topo_base::{IdNumber, SignedNumber};

/// An edge: its id, its start and end, its left and right next, and the faces on its left and right.
type Edge = (
    IdNumber,
    IdNumber,
    IdNumber,
    SignedNumber,
    SignedNumber,
    IdNumber,
    IdNumber,
);

/// The table of nodes of these ids.
fn node_rows(alloc: Global, ids: &[IdNumber]) -> Result<NodeTable, AllocError>
    ensures { IfOk result (λ rows. rows ≡ map node ids.now) }
{
    let mut rows = NodeTable::new(alloc);
    for &id in ids {
        rows.push(NodeRow { id, face: None })?;
    }
    Ok(rows)
}

/// The table of these edges.
fn edge_rows(alloc: Global, edges: &[Edge]) -> Result<EdgeTable, AllocError>
    ensures { IfOk result (λ rows. rows ≡ map (λ e. edge e.0 e.1 e.2 e.3 e.4 e.5 e.6) edges.now) }
{
    let mut rows = EdgeTable::new(alloc);
    for &(id, start, end, next_left, next_right, left_face, right_face) in edges {
        rows.push(EdgeRow {
            id,
            start,
            end,
            next_left,
            next_right,
            left_face,
            right_face,
        })?;
    }
    Ok(rows)
}

fn face_rows(alloc: Global, ids: &[IdNumber]) -> Result<Vec<FaceRow>, AllocError>
    ensures { IfOk result (λ rows. rows.items ≡ map face ids.now) }
{
    ids.iter().map(|&id| FaceRow { id }).collect(alloc)
}

fn tables(
    alloc: Global,
    nodes: &[IdNumber],
    edges: &[Edge],
    faces: &[IdNumber],
) -> Result<Tables, AllocError>
    requires { IsTrue (is_in_range (tables nodes.now (map (λ e. edge e.0 e.1 e.2 e.3 e.4 e.5 e.6) edges.now)
        faces.now)) }
    ensures in_range { IfOk result (λ t. IsTrue (is_in_range (rows_of t))) }
    ensures rows { IfOk result (λ t. rows_of t ≡ tables nodes.now
        (map (λ e. edge e.0 e.1 e.2 e.3 e.4 e.5 e.6) edges.now) faces.now) }
{
    Ok(Tables {
        nodes: node_rows(alloc, nodes)?,
        edges: edge_rows(alloc, edges)?,
        faces: face_rows(alloc, faces)?,
        regions: Vec::new(alloc),
        members: Vec::new(alloc),
    })
}

fn rotation<'a>(alloc: Global, tables: &'a Tables) -> Result<Rotation<'a>, Fail>
    requires { IsTrue (is_in_range (rows_of tables.now)) }
    ensures { IfOk result (λ r. r ≡ rotation_rows (rows_of tables.now)) }
{
    Ok(check(alloc, tables)?)
}

#[test]
fn the_triangle_is_walked_round_its_spanning_tree(rt: HostRuntime) -> Result<(), Fail> {
    let edges = [
        (1, 1, 2, 2, -3, 1, 0),
        (2, 2, 3, 3, -1, 1, 0),
        (3, 3, 1, 1, -2, 1, 0),
    ];
    let given = tables(rt.alloc(), &[1, 2, 3], &edges, &[0, 1])?;
    let rotation = rotation(rt.alloc(), &given)?;
    let found = tour(rt.alloc(), &rotation, &[1])?;
    assert_eq!(rt; found.darts.as_slice(), [1, 5, 3, 4, 0, 2].as_slice());
    assert_eq!(rt;
        found.tree.as_slice(),
        [true, true, false, true, true, false].as_slice()
    );
    assert_eq!(rt;
        found.first.as_slice(),
        [true, true, true, false, false, false].as_slice()
    );
    assert_eq!(rt; found.starts.as_slice(), [0, 6].as_slice());
    Ok(())
}

#[test]
fn a_bridge_is_walked_there_and_back(rt: HostRuntime) -> Result<(), Fail> {
    let given = tables(rt.alloc(), &[1, 2], &[(1, 1, 2, -1, 1, 0, 0)], &[])?;
    let rotation = rotation(rt.alloc(), &given)?;
    let found = tour(rt.alloc(), &rotation, &[0])?;
    assert_eq!(rt; found.darts.as_slice(), [0, 1].as_slice());
    assert_eq!(rt; found.tree.as_slice(), [true, true].as_slice());
    assert_eq!(rt; found.first.as_slice(), [true, false].as_slice());
    assert_eq!(rt; found.starts.as_slice(), [0, 2].as_slice());
    Ok(())
}

#[test]
fn two_closed_edges_on_a_torus_cross(rt: HostRuntime) -> Result<(), Fail> {
    let edges = [(1, 1, 1, -2, 2, 0, 0), (2, 1, 1, 1, -1, 0, 0)];
    let given = tables(rt.alloc(), &[1], &edges, &[])?;
    let rotation = rotation(rt.alloc(), &given)?;
    match tour(rt.alloc(), &rotation, &[0]) {
        Err(fault) => assert_eq!(rt; fault, TourFault::Crossed { edge: 1 }),
        Ok(_) => assert!(rt; false),
    }
    Ok(())
}

#[test]
fn two_triangles_are_walked_one_after_the_other(rt: HostRuntime) -> Result<(), Fail> {
    let edges = [
        (1, 1, 2, 2, -3, 1, 0),
        (2, 2, 3, 3, -1, 1, 0),
        (3, 3, 1, 1, -2, 1, 0),
        (4, 4, 5, 5, -6, 2, 0),
        (5, 5, 6, 6, -4, 2, 0),
        (6, 6, 4, 4, -5, 2, 0),
    ];
    let given = tables(rt.alloc(), &[1, 2, 3, 4, 5, 6], &edges, &[1, 2])?;
    let rotation = rotation(rt.alloc(), &given)?;
    let found = tour(rt.alloc(), &rotation, &[7, 0])?;
    assert_eq!(rt;
        found.darts.as_slice(),
        [7, 11, 9, 10, 6, 8, 0, 2, 4, 3, 1, 5].as_slice()
    );
    assert_eq!(rt;
        found.tree.as_slice(),
        [
            true, true, false, true, true, false, true, true, false, true, true, false
        ]
        .as_slice()
    );
    assert_eq!(rt;
        found.first.as_slice(),
        [
            true, true, true, false, false, false, true, true, true, false, false, false
        ]
        .as_slice()
    );
    assert_eq!(rt; found.starts.as_slice(), [0, 6, 12].as_slice());
    Ok(())
}

#[test]
fn a_star_is_walked_leaf_by_leaf(rt: HostRuntime) -> Result<(), Fail> {
    let edges = [
        (1, 1, 2, -1, 2, 0, 0),
        (2, 1, 3, -2, 3, 0, 0),
        (3, 1, 4, -3, 1, 0, 0),
    ];
    let given = tables(rt.alloc(), &[1, 2, 3, 4], &edges, &[])?;
    let rotation = rotation(rt.alloc(), &given)?;
    let found = tour(rt.alloc(), &rotation, &[2])?;
    assert_eq!(rt; found.darts.as_slice(), [2, 3, 4, 5, 0, 1].as_slice());
    assert_eq!(rt;
        found.tree.as_slice(),
        [true, true, true, true, true, true].as_slice()
    );
    assert_eq!(rt;
        found.first.as_slice(),
        [true, false, true, false, true, false].as_slice()
    );
    assert_eq!(rt; found.starts.as_slice(), [0, 6].as_slice());
    Ok(())
}

#[test]
fn the_rim_of_a_wheel_is_its_tree(rt: HostRuntime) -> Result<(), Fail> {
    let edges = [
        (1, 1, 2, -6, -4, 0, 0),
        (2, 2, 3, -7, -1, 0, 0),
        (3, 3, 4, -8, -2, 0, 0),
        (4, 4, 1, -5, -3, 0, 0),
        (5, 5, 1, 1, 8, 0, 0),
        (6, 5, 2, 2, 5, 0, 0),
        (7, 5, 3, 3, 6, 0, 0),
        (8, 5, 4, 4, 7, 0, 0),
    ];
    let given = tables(rt.alloc(), &[1, 2, 3, 4, 5], &edges, &[])?;
    let rotation = rotation(rt.alloc(), &given)?;
    let found = tour(rt.alloc(), &rotation, &[0])?;
    assert_eq!(rt;
        found.darts.as_slice(),
        [0, 11, 8, 14, 6, 5, 3, 13, 4, 15, 12, 10, 2, 1, 7, 9].as_slice()
    );
    assert_eq!(rt;
        found.tree.as_slice(),
        [
            true, true, false, true, false, true, false, false, true, true, false, true, false,
            true, false, false
        ]
        .as_slice()
    );
    assert_eq!(rt;
        found.first.as_slice(),
        [
            true, true, true, true, true, true, true, true, false, false, false, false, false,
            false, false, false
        ]
        .as_slice()
    );
    assert_eq!(rt; found.starts.as_slice(), [0, 16].as_slice());
    Ok(())
}

#[test]
fn closed_and_parallel_edges_are_no_tree_edges(rt: HostRuntime) -> Result<(), Fail> {
    let edges = [
        (1, 1, 1, 2, -1, 0, 0),
        (2, 1, 2, 4, 3, 0, 0),
        (3, 1, 2, -2, 1, 0, 0),
        (4, 2, 2, -3, -4, 0, 0),
    ];
    let given = tables(rt.alloc(), &[1, 2], &edges, &[])?;
    let rotation = rotation(rt.alloc(), &given)?;
    let found = tour(rt.alloc(), &rotation, &[2])?;
    assert_eq!(rt; found.darts.as_slice(), [2, 6, 7, 5, 3, 4, 0, 1].as_slice());
    assert_eq!(rt;
        found.tree.as_slice(),
        [true, false, false, false, true, false, false, false].as_slice()
    );
    assert_eq!(rt;
        found.first.as_slice(),
        [true, true, false, true, false, false, true, false].as_slice()
    );
    assert_eq!(rt; found.starts.as_slice(), [0, 8].as_slice());
    Ok(())
}
