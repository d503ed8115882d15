//! Tables that are a rotation system, and tables that are not.

use crate::{CheckFault, Rotation, check};
use plane_model::Tables;
use std::alloc::{AllocError, Global};
use std::process::Abort;
use std::test::Fail;
use topo_base::{IdNumber, Refusal, SignedNumber, Table};
use worked_maps::{Edge, Node, TRIANGLE, tables, within_limits};

/// What is said of a dart: its next, its turn, the row of its node, the face on its left, and its signed edge.
type Dart = (u32, u32, u32, IdNumber, SignedNumber);

const NODES: [Node; 3] = [(1, None), (2, None), (3, None)];

const LOOP: Edge = (1, (1, 1), (1, -1), (0, 0));

fn darts(alloc: Global, rotation: &Rotation) -> Result<Vec<Dart>, AllocError> {
    let mut darts = Vec::new(alloc);
    for dart in 0..2 * rotation.edges() {
        darts.push((
            rotation.next(dart),
            rotation.turn(dart),
            rotation.node(dart),
            rotation.side(dart),
            rotation.id(dart).value(),
        ))?;
    }
    Ok(darts)
}

#[test]
fn a_triangle_has_six_darts(rt: HostRuntime) -> Result<(), Fail> {
    let given = tables(
        rt.alloc(),
        &[(1, None), (2, None), (3, None)],
        &TRIANGLE,
        &[0, 1],
    )?;
    within_limits(&given)?;
    let rotation = check(rt.alloc(), &given)?;
    assert_eq!(rt; rotation.edges(), 3);
    assert_eq!(rt; rotation.nodes(), 3);
    let wanted: [Dart; 6] = [
        (2, 5, 0, 1, 1),
        (5, 2, 1, 0, -1),
        (4, 1, 1, 1, 2),
        (1, 4, 2, 0, -2),
        (0, 3, 2, 1, 3),
        (3, 0, 0, 0, -3),
    ];
    assert_eq!(rt; darts(rt.alloc(), &rotation)?.as_slice(), wanted.as_slice());
    Ok(())
}

#[test]
fn three_parallel_edges_turn_round_their_nodes(rt: HostRuntime) -> Result<(), Fail> {
    // The rows of nodes are not in the order of their ids.
    let nodes = [(2, None), (1, None)];
    let edges = [
        (1, (1, 2), (-3, 2), (0, 1)),
        (2, (1, 2), (-1, 3), (1, 2)),
        (3, (1, 2), (-2, 1), (2, 0)),
    ];
    let given = tables(rt.alloc(), &nodes, &edges, &[2, 1])?;
    within_limits(&given)?;
    let rotation = check(rt.alloc(), &given)?;
    let wanted: [Dart; 6] = [
        (5, 2, 1, 0, 1),
        (2, 5, 0, 1, -1),
        (1, 4, 1, 1, 2),
        (4, 1, 0, 2, -2),
        (3, 0, 1, 2, 3),
        (0, 3, 0, 0, -3),
    ];
    assert_eq!(rt; darts(rt.alloc(), &rotation)?.as_slice(), wanted.as_slice());
    Ok(())
}

#[test]
fn sparse_ids_loops_and_isolated_nodes_are_a_rotation(rt: HostRuntime) -> Result<(), Fail> {
    // A dangling edge with the largest ids, a closed edge, and an isolated node in face 7.
    let nodes = [
        (9_223_372_036_854_775_807, None),
        (9, Some(7)),
        (9_223_372_036_854_775_806, None),
        (5, None),
    ];
    let edges = [
        (
            9_223_372_036_854_775_807,
            (9_223_372_036_854_775_807, 9_223_372_036_854_775_806),
            (-9_223_372_036_854_775_807, 9_223_372_036_854_775_807),
            (0, 0),
        ),
        (4, (5, 5), (4, -4), (7, 0)),
    ];
    let given = tables(rt.alloc(), &nodes, &edges, &[7])?;
    within_limits(&given)?;
    let rotation = check(rt.alloc(), &given)?;
    assert_eq!(rt; rotation.edges(), 2);
    assert_eq!(rt; rotation.nodes(), 4);
    let wanted: [Dart; 4] = [
        (1, 0, 0, 0, 9_223_372_036_854_775_807),
        (0, 1, 2, 0, -9_223_372_036_854_775_807),
        (2, 3, 3, 7, 4),
        (3, 2, 3, 0, -4),
    ];
    assert_eq!(rt; darts(rt.alloc(), &rotation)?.as_slice(), wanted.as_slice());
    let nothing = tables(rt.alloc(), &[], &[], &[])?;
    within_limits(&nothing)?;
    let empty = check(rt.alloc(), &nothing)?;
    assert_eq!(rt; empty.edges(), 0);
    assert_eq!(rt; empty.nodes(), 0);
    Ok(())
}

/// Tables, and what is first wrong with them.
#[derive(Drop)]
struct Case<'a> {
    shows: &'a str,
    nodes: &'a [Node],
    edges: &'a [Edge],
    faces: &'a [IdNumber],
    refusal: Refusal,
}

fn refuses(rt: &impl Abort, alloc: Global, cases: &[Case]) -> Result<(), Fail> {
    for case in cases {
        let given = tables(alloc, case.nodes, case.edges, case.faces)?;
        within_limits(&given)?;
        let fault = check(alloc, &given).err();
        assert_eq!(rt;
            fault,
            Some(CheckFault::Refused(case.refusal)),
            "{}",
            case.shows
        );
    }
    Ok(())
}

#[test]
fn rows_that_are_missing_or_twice_are_refused(rt: HostRuntime) -> Result<(), Fail> {
    refuses(
        &rt,
        rt.alloc(),
        &[
            Case {
                shows: "a second row for node 2",
                nodes: &[(1, None), (2, None), (3, None), (2, None)],
                edges: &TRIANGLE,
                faces: &[0, 1],
                refusal: Refusal::IdTwice {
                    table: Table::Node,
                    id: 2,
                },
            },
            Case {
                shows: "the least of the ids that stand twice, and nodes before edges",
                nodes: &[(9, None), (9, None), (4, None), (1, None), (4, None)],
                edges: &[LOOP, LOOP],
                faces: &[],
                refusal: Refusal::IdTwice {
                    table: Table::Node,
                    id: 4,
                },
            },
            Case {
                shows: "edges before faces, and before a node that is missing",
                nodes: &[],
                edges: &[LOOP, LOOP],
                faces: &[3, 3],
                refusal: Refusal::IdTwice {
                    table: Table::Edge,
                    id: 1,
                },
            },
            Case {
                shows: "two rows for face 0",
                nodes: &NODES,
                edges: &TRIANGLE,
                faces: &[0, 1, 0],
                refusal: Refusal::IdTwice {
                    table: Table::Face,
                    id: 0,
                },
            },
            Case {
                shows: "the first edge row without a node, its start first",
                nodes: &[(1, None)],
                edges: &[
                    LOOP,
                    (7, (5, 4), (99, 98), (0, 0)),
                    (6, (3, 1), (6, 6), (0, 0)),
                ],
                faces: &[],
                refusal: Refusal::NoNode { edge: 7, node: 5 },
            },
            Case {
                shows: "an end node that is missing",
                nodes: &NODES,
                edges: &[(7, (1, 4), (99, 98), (0, 0))],
                faces: &[],
                refusal: Refusal::NoNode { edge: 7, node: 4 },
            },
            Case {
                shows: "the first edge row whose next has no row, the left next first",
                nodes: &NODES,
                edges: &[
                    LOOP,
                    (7, (1, 1), (-99, 98), (5, 5)),
                    (6, (1, 1), (97, 6), (0, 0)),
                ],
                faces: &[],
                refusal: Refusal::NoEdge { edge: 7, next: -99 },
            },
            Case {
                shows: "a right next that has no row, by the edge's id without a sign",
                nodes: &NODES,
                edges: &[(7, (1, 1), (7, -98), (5, 5))],
                faces: &[],
                refusal: Refusal::NoEdge { edge: 7, next: -98 },
            },
            Case {
                shows: "a left face that has no row",
                nodes: &NODES,
                edges: &[
                    (1, (1, 2), (2, -3), (1, 0)),
                    (2, (2, 3), (3, -1), (1, 0)),
                    (3, (3, 1), (1, -2), (7, 0)),
                ],
                faces: &[0, 1],
                refusal: Refusal::NoFace {
                    table: Table::Edge,
                    id: 3,
                    face: 7,
                },
            },
            Case {
                shows: "the left face before the right one, and before that of a node",
                nodes: &[(8, Some(5)), (1, None)],
                edges: &[(1, (1, 1), (1, 1), (3, 2))],
                faces: &[],
                refusal: Refusal::NoFace {
                    table: Table::Edge,
                    id: 1,
                    face: 3,
                },
            },
            Case {
                shows: "the containing face of a node",
                nodes: &[(1, None), (8, Some(0)), (6, Some(5)), (7, Some(4))],
                edges: &[(1, (1, 1), (1, 1), (0, 2))],
                faces: &[2],
                refusal: Refusal::NoFace {
                    table: Table::Node,
                    id: 6,
                    face: 5,
                },
            },
        ],
    )
}

#[test]
fn nexts_and_nodes_that_do_not_fit_are_refused(rt: HostRuntime) -> Result<(), Fail> {
    refuses(
        &rt,
        rt.alloc(),
        &[
            Case {
                shows: "a next that does not leave the head",
                nodes: &[(1, None), (2, None), (3, None)],
                edges: &[
                    (1, (1, 2), (3, -3), (1, 0)),
                    (2, (2, 3), (3, -1), (1, 0)),
                    (3, (3, 1), (1, -2), (1, 0)),
                ],
                faces: &[0, 1],
                refusal: Refusal::WrongEnd { edge: 1, next: 3 },
            },
            Case {
                shows: "a backward edge whose next does not leave its head",
                nodes: &[(1, None), (2, None)],
                edges: &[(5, (1, 2), (-5, -5), (0, 0))],
                faces: &[],
                refusal: Refusal::WrongEnd { edge: -5, next: -5 },
            },
            Case {
                shows: "a signed edge that is the next of two",
                nodes: &[(1, None)],
                edges: &[(1, (1, 1), (1, -1), (0, 0)), (2, (1, 1), (1, -2), (0, 0))],
                faces: &[],
                refusal: Refusal::NextTwice { next: 1 },
            },
            Case {
                shows: "the smallest of two that are the next of two, a backward one",
                nodes: &[(1, None)],
                edges: &[(6, (1, 1), (6, 6), (0, 0)), (2, (1, 1), (-2, -2), (0, 0))],
                faces: &[],
                refusal: Refusal::NextTwice { next: -2 },
            },
            Case {
                shows: "a node whose edges are two orbits",
                nodes: &[(1, None)],
                edges: &[(1, (1, 1), (1, -1), (0, 0)), (2, (1, 1), (2, -2), (0, 0))],
                faces: &[],
                refusal: Refusal::SplitNode { node: 1 },
            },
            Case {
                shows: "the least of two nodes whose edges are two orbits",
                nodes: &[(8, None), (3, None)],
                edges: &[
                    (1, (8, 8), (1, -1), (0, 0)),
                    (2, (8, 8), (2, -2), (0, 0)),
                    (3, (3, 3), (3, -3), (0, 0)),
                    (4, (3, 3), (4, -4), (0, 0)),
                ],
                faces: &[],
                refusal: Refusal::SplitNode { node: 3 },
            },
            Case {
                shows: "a node with edges and a containing face",
                nodes: &[(1, Some(0)), (2, None), (3, None)],
                edges: &TRIANGLE,
                faces: &[0, 1],
                refusal: Refusal::NodeFace { node: 1 },
            },
            Case {
                shows: "the first node row without edges and without a containing face",
                nodes: &[(6, Some(0)), (9, None), (4, None)],
                edges: &[],
                faces: &[],
                refusal: Refusal::NodeFace { node: 9 },
            },
        ],
    )
}
