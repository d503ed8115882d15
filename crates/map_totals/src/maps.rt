//! Maps for tests.

ghost use Rattle.std.specs.Prelude.{◌≤◌};

use map_build::build;
use map_maker::grid;
use plane_model::{EdgeRow, EdgeTable, FaceRow, NodeRow, NodeTable, Tables};
use std::alloc::{AllocError, Global};
use std::test::Fail;
use topo_base::{IdNumber, SignedNumber};
use worked_maps::within_limits;

/// The image of these rows.
fn image_of(
    alloc: Global,
    nodes: NodeTable,
    edges: EdgeTable,
    faces: Vec<FaceRow>,
) -> Result<Vec<u8>, Fail> {
    let tables = Tables {
        nodes,
        edges,
        faces,
        regions: Vec::new(alloc),
        members: Vec::new(alloc),
    };
    within_limits(&tables)?;
    match build(alloc, tables) {
        Ok(image) => Ok(image),
        Err(_) => Err(Fail::new("no image")),
    }
}

/// The edges of a grid.
pub fn grid_edges(alloc: Global, n: u32) -> Result<EdgeTable, Fail>
    requires some { 1 ≤ n }
    requires size { n ≤ 1000 }
{
    match grid(alloc, n) {
        Ok(tables) => Ok(tables.edges),
        Err(_) => Err(Fail::new("want of memory for the grid")),
    }
}

/// The image of a grid.
pub fn grid_image(alloc: Global, n: u32) -> Result<Vec<u8>, Fail>
    requires some { 1 ≤ n }
    requires size { n ≤ 1000 }
{
    let Ok(tables) = grid(alloc, n) else {
        return Err(Fail::new("want of memory for the grid"));
    };
    match build(alloc, tables) {
        Ok(image) => Ok(image),
        Err(_) => Err(Fail::new("no image")),
    }
}

/// The number after `i`, of those from 1 to 20 in a circle.
fn after(i: u16) -> u16 {
    i % 20 + 1
}

/// The number before `i`.
fn before(i: u16) -> u16 {
    (i % 20 + 18) % 20 + 1
}

/// Edge `i` of the inner ring of the web, round face 1.
fn inner_edge(i: u16) -> EdgeRow {
    EdgeRow {
        id: i as IdNumber,
        start: i as IdNumber,
        end: after(i) as IdNumber,
        next_left: after(i) as SignedNumber,
        next_right: 40 + i as SignedNumber,
        left_face: 1,
        right_face: 1 + i as IdNumber,
    }
}

/// Edge `i` of the outer ring.
fn outer_edge(i: u16) -> EdgeRow {
    EdgeRow {
        id: 20 + i as IdNumber,
        start: 20 + i as IdNumber,
        end: 20 + after(i) as IdNumber,
        next_left: -(40 + after(i) as SignedNumber),
        next_right: -(20 + before(i) as SignedNumber),
        left_face: 1 + i as IdNumber,
        right_face: 0,
    }
}

/// The edge from node `i` of the inner ring to that of the outer one.
fn spoke(i: u16) -> EdgeRow {
    EdgeRow {
        id: 40 + i as IdNumber,
        start: i as IdNumber,
        end: 20 + i as IdNumber,
        next_left: 20 + i as SignedNumber,
        next_right: -(before(i) as SignedNumber),
        left_face: 1 + i as IdNumber,
        right_face: 1 + before(i) as IdNumber,
    }
}

fn web_edge(k: u16) -> EdgeRow {
    let i = k % 20 + 1;
    match k / 20 {
        0 => inner_edge(i),
        1 => outer_edge(i),
        _ => spoke(i),
    }
}

fn joined_node(id: u16) -> NodeRow {
    NodeRow {
        id: id as IdNumber,
        face: None,
    }
}

fn face(id: u16) -> FaceRow {
    FaceRow { id: id as IdNumber }
}

/// Nodes 1 to `count`, which are not isolated.
fn joined_nodes(alloc: Global, count: u16) -> Result<NodeTable, AllocError> {
    let mut nodes = NodeTable::new(alloc);
    for id in 1..=count {
        nodes.push(joined_node(id))?;
    }
    Ok(nodes)
}

fn faces(alloc: Global, count: u16) -> Result<Vec<FaceRow>, AllocError> {
    (1..=count).map(face).collect(alloc)
}

/// The edges of the web, by id.
fn web_edges(alloc: Global) -> Result<EdgeTable, AllocError> {
    let mut edges = EdgeTable::new(alloc);
    for k in 0..60 {
        edges.push(web_edge(k))?;
    }
    Ok(edges)
}

/// The image of a web: edges 1 to 20 are a ring round face 1, edges 21 to 40 one round that, and edges 41 to 60 join
/// them, so that faces 2 to 21 lie between the rings.
pub fn web_image(alloc: Global) -> Result<Vec<u8>, Fail> {
    let nodes = joined_nodes(alloc, 40)?;
    let edges = web_edges(alloc)?;
    image_of(alloc, nodes, edges, faces(alloc, 21)?)
}

/// A closed edge in face 1, or round it.
fn closed_edge(id: u16) -> EdgeRow {
    EdgeRow {
        id: id as IdNumber,
        start: id as IdNumber,
        end: id as IdNumber,
        next_left: id as SignedNumber,
        next_right: -(id as SignedNumber),
        left_face: id as IdNumber,
        right_face: if id == 1 { 0 } else { 1 },
    }
}

/// Closed edges 1 to `count`, the last one first.
fn closed_edges(alloc: Global, count: u16) -> Result<EdgeTable, AllocError> {
    let mut edges = EdgeTable::new(alloc);
    for id in (1..=count).rev() {
        edges.push(closed_edge(id))?;
    }
    Ok(edges)
}

/// The image of closed edge 1 round face 1, of 10,000 closed edges in that face, and of node 10,002 in it.
pub fn holes_image(alloc: Global) -> Result<Vec<u8>, Fail> {
    let mut nodes = joined_nodes(alloc, 10_001)?;
    nodes.push(NodeRow {
        id: 10_002,
        face: Some(1),
    })?;
    let edges = closed_edges(alloc, 10_001)?;
    image_of(alloc, nodes, edges, faces(alloc, 10_001)?)
}
