//! The tables of a grid.

ghost use Rattle.std.specs.Prelude.{◌≡◌, ◌≤◌, ◌<◌, ◌++◌, ◌+◌, ◌*◌, ◌/◌, map, IfOk, OnOk, IsTrue};
ghost use Rattle.std.specs.List.{range_with_len};
ghost use Rattle.plane_model.specs.Rows.{rows_of};
ghost use Rattle.plane_model.specs.InRange.{is_in_range};
ghost use Rattle.map_maker.specs.Grid.{east_edge, north_edge, closed_edge, grid_node, closed_node, isolated_node, cell, places, grid_of, closed_count, isolated_count, IsOn};

use crate::direction::Direction;
use crate::place::Place;
use bit_words::Memory;
use plane_model::{EdgeRow, EdgeTable, FaceRow, NodeRow, NodeTable, Tables};
use std::alloc::{AllocError, Global};
use topo_base::{IdNumber, SignedNumber};

/// How many closed edges the grid of a size has: one in each seventh cell.
fn closed_count(n: u32) -> u32
    requires { n ≤ 1000 }
    ensures { result ≡ closed_count n }
{
    n * n / 7
}

/// How many isolated nodes it has: one in each eleventh cell.
fn isolated_count(n: u32) -> u32
    requires { n ≤ 1000 }
    ensures { result ≡ isolated_count n }
{
    n * n / 11
}

/// The edge from a node to the east.
fn east_edge(n: u32, place: Place) -> EdgeRow
    requires size { n ≤ 1000 }
    requires on { IsOn (n + 1) n place }
    ensures { result ≡ east_edge n place }
{
    let head = place.east();
    EdgeRow {
        id: place.east_id(n),
        start: place.node_id(n),
        end: head.node_id(n),
        next_left: head.following(n, Direction::East),
        next_right: place.following(n, Direction::West),
        left_face: if place.row < n { place.cell_id(n) } else { 0 },
        right_face: if 0 < place.row {
            place.south().cell_id(n)
        } else {
            0
        },
    }
}

/// The edge from a node to the north.
fn north_edge(n: u32, place: Place) -> EdgeRow
    requires size { n ≤ 1000 }
    requires on { IsOn n (n + 1) place }
    ensures { result ≡ north_edge n place }
{
    let head = place.north();
    EdgeRow {
        id: place.north_id(n),
        start: place.node_id(n),
        end: head.node_id(n),
        next_left: head.following(n, Direction::North),
        next_right: place.following(n, Direction::South),
        left_face: if 0 < place.column {
            place.west().cell_id(n)
        } else {
            0
        },
        right_face: if place.column < n {
            place.cell_id(n)
        } else {
            0
        },
    }
}

/// Closed edge `q`, counted from 1.
fn closed_edge(n: u32, q: u32) -> EdgeRow
    requires size { n ≤ 1000 }
    requires few { q ≤ closed_count n }
    ensures { result ≡ closed_edge n q }
{
    let id = IdNumber::from(2 * n * (n + 1) + q);
    let node = IdNumber::from((n + 1) * (n + 1) + q);
    EdgeRow {
        id,
        start: node,
        end: node,
        next_left: id as SignedNumber,
        next_right: -(id as SignedNumber),
        left_face: IdNumber::from(n * n + q),
        right_face: IdNumber::from(7 * q),
    }
}

/// Adds the nodes of the grid.
fn push_grid_nodes(nodes: &mut NodeTable, n: u32) -> Result<(), AllocError>
    requires { n ≤ 1000 }
    ensures { OnOk result (nodes.new ≡ nodes.old ++ map (grid_node n) (places (n + 1) (n + 1))) }
{
    let columns = n + 1;
    for i in 0..columns * columns {
        let place = Place::numbered(columns, i);
        nodes.push(NodeRow {
            id: place.node_id(n),
            face: None,
        })?;
    }
    Ok(())
}

/// Adds the nodes of the closed edges.
fn push_closed_nodes(nodes: &mut NodeTable, n: u32) -> Result<(), AllocError>
    requires { n ≤ 1000 }
    ensures { OnOk result (nodes.new ≡ nodes.old ++ map (closed_node n)
        (range_with_len 1 (closed_count n))) }
{
    for q in 0..closed_count(n) {
        nodes.push(NodeRow {
            id: IdNumber::from((n + 1) * (n + 1) + (1 + q)),
            face: None,
        })?;
    }
    Ok(())
}

/// Adds the isolated nodes.
fn push_isolated_nodes(nodes: &mut NodeTable, n: u32) -> Result<(), AllocError>
    requires { n ≤ 1000 }
    ensures { OnOk result (nodes.new ≡ nodes.old ++ map (isolated_node n)
        (range_with_len 1 (isolated_count n))) }
{
    let before = (n + 1) * (n + 1) + closed_count(n);
    for q in 0..isolated_count(n) {
        nodes.push(NodeRow {
            id: IdNumber::from(before + (1 + q)),
            face: Some(IdNumber::from(11 * (1 + q))),
        })?;
    }
    Ok(())
}

/// Adds the edges to the east.
fn push_east_edges(edges: &mut EdgeTable, n: u32) -> Result<(), AllocError>
    requires some { 1 ≤ n }
    requires size { n ≤ 1000 }
    ensures { OnOk result (edges.new ≡ edges.old ++ map (east_edge n) (places (n + 1) n)) }
{
    for i in 0..(n + 1) * n {
        let place = Place::numbered(n, i);
        edges.push(east_edge(n, place))?;
    }
    Ok(())
}

/// Adds the edges to the north.
fn push_north_edges(edges: &mut EdgeTable, n: u32) -> Result<(), AllocError>
    requires { n ≤ 1000 }
    ensures { OnOk result (edges.new ≡ edges.old ++ map (north_edge n) (places n (n + 1))) }
{
    let columns = n + 1;
    for i in 0..n * columns {
        let place = Place::numbered(columns, i);
        edges.push(north_edge(n, place))?;
    }
    Ok(())
}

/// Adds the closed edges.
fn push_closed_edges(edges: &mut EdgeTable, n: u32) -> Result<(), AllocError>
    requires { n ≤ 1000 }
    ensures { OnOk result (edges.new ≡ edges.old ++ map (closed_edge n)
        (range_with_len 1 (closed_count n))) }
{
    for q in 0..closed_count(n) {
        edges.push(closed_edge(n, 1 + q))?;
    }
    Ok(())
}

/// Adds the cells, and the faces of the closed edges.
fn push_faces(faces: &mut Vec<FaceRow>, n: u32) -> Result<(), AllocError>
    requires { n ≤ 1000 }
    ensures { OnOk result (faces.new.items ≡ faces.old.items ++ map cell (range_with_len 1 (n * n + closed_count n))) }
{
    for f in 0..n * n + closed_count(n) {
        faces.push(FaceRow {
            id: IdNumber::from(1 + f),
        })?;
    }
    Ok(())
}

/// The nodes of the grid, by id.
fn nodes_of(alloc: Global, n: u32) -> Result<NodeTable, AllocError>
    requires { n ≤ 1000 }
    ensures { IfOk result (λ nodes. nodes ≡ (grid_of n).nodes) }
{
    let mut nodes = NodeTable::new(alloc);
    push_grid_nodes(&mut nodes, n)?;
    push_closed_nodes(&mut nodes, n)?;
    push_isolated_nodes(&mut nodes, n)?;
    Ok(nodes)
}

/// The edges of the grid, by id.
fn edges_of(alloc: Global, n: u32) -> Result<EdgeTable, AllocError>
    requires some { 1 ≤ n }
    requires size { n ≤ 1000 }
    ensures { IfOk result (λ edges. edges ≡ (grid_of n).edges) }
{
    let mut edges = EdgeTable::new(alloc);
    push_east_edges(&mut edges, n)?;
    push_north_edges(&mut edges, n)?;
    push_closed_edges(&mut edges, n)?;
    Ok(edges)
}

/// The faces of the grid, by id.
fn faces_of(alloc: Global, n: u32) -> Result<Vec<FaceRow>, AllocError>
    requires { n ≤ 1000 }
    ensures { IfOk result (λ faces. faces.items ≡ (grid_of n).faces) }
{
    let mut faces = Vec::with_capacity(alloc, (n * n + closed_count(n)) as usize)?;
    push_faces(&mut faces, n)?;
    Ok(faces)
}

/// The tables of the grid.
fn tables_of(alloc: Global, n: u32) -> Result<Tables, AllocError>
    requires some { 1 ≤ n }
    requires size { n ≤ 1000 }
    ensures { IfOk result (λ t. rows_of t ≡ grid_of n) }
{
    Ok(Tables {
        nodes: nodes_of(alloc, n)?,
        edges: edges_of(alloc, n)?,
        faces: faces_of(alloc, n)?,
        regions: Vec::new(alloc),
        members: Vec::new(alloc),
    })
}

/// The grid of size `n`: nodes in rows and columns from 0 to `n`, joined to their neighbours; in each seventh cell a
/// closed edge at a node of its own, and in each eleventh an isolated node. Rows rise by id; face 0 has none.
pub fn grid(alloc: Global, n: u32) -> Result<Tables, Memory>
    requires some { 1 ≤ n }
    requires size { n ≤ 1000 }
    ensures tables { IfOk result (λ t. rows_of t ≡ grid_of n) }
    ensures in_range { IfOk result (λ t. IsTrue (is_in_range (rows_of t))) }
{
    match tables_of(alloc, n) {
        Ok(tables) => Ok(tables),
        Err(AllocError) => Err(Memory),
    }
}
