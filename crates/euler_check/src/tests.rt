//! The rings and components of small maps.

ghost use Rattle.euler_check.specs.Parts.{AreParts};

use crate::{PartNumbering, Parts, first_mixed_ring, number_components, number_rings, parts};
use rotation_check::{CheckFault, Rotation, check};
use std::alloc::{AllocError, Global};
use std::test::Fail;
use topo_base::{IdNumber, Refusal};
use worked_maps::{Edge, Node, TRIANGLE, tables, within_limits};

/// The rows of a map.
#[derive(Clone, Copy)]
struct Rows<'a> {
    nodes: &'a [Node],
    edges: &'a [Edge],
    faces: &'a [IdNumber],
}

/// How many parts of one kind there are, and the number of each dart's.
#[derive(Clone, Copy)]
struct Numbered<'a> {
    count: u32,
    of_darts: &'a [u32],
}

const NODES: [Node; 3] = [(1, None), (2, None), (3, None)];

const TRIANGLE_ROWS: Rows<'static> = Rows {
    nodes: &NODES,
    edges: &TRIANGLE,
    faces: &[0, 1],
};

/// The refusal of a component with these counts, given by its least edge.
fn not_plane(edge: IdNumber, nodes: u64, edges: u64, rings: u64) -> CheckFault {
    CheckFault::Refused(Refusal::Euler {
        edge,
        nodes,
        edges,
        rings,
    })
}

fn are_numbered(found: &PartNumbering, wanted: Numbered<'_>) -> bool {
    found.count() == wanted.count && found.of_darts() == wanted.of_darts
}

/// Whether a rotation has these rings and components.
fn has_parts(
    alloc: Global,
    rotation: &Rotation,
    rings: Numbered<'_>,
    components: Numbered<'_>,
) -> Result<bool, AllocError> {
    let found_rings = number_rings(alloc, rotation)?;
    let found = number_components(alloc, rotation, &found_rings)?;
    Ok(are_numbered(&found_rings, rings) && are_numbered(&found, components))
}

/// Whether a map has these rings and components.
fn are_told(
    alloc: Global,
    rows: Rows<'_>,
    rings: Numbered<'_>,
    components: Numbered<'_>,
) -> Result<bool, Fail> {
    let given = tables(alloc, rows.nodes, rows.edges, rows.faces)?;
    within_limits(&given)?;
    let rotation = check(alloc, &given)?;
    Ok(has_parts(alloc, &rotation, rings, components)?)
}

/// How many rings and components a map has, or its fault.
fn counted(alloc: Global, rows: Rows<'_>) -> Result<Result<(u32, u32), CheckFault>, Fail> {
    let given = tables(alloc, rows.nodes, rows.edges, rows.faces)?;
    within_limits(&given)?;
    let rotation = check(alloc, &given)?;
    Ok(parts(alloc, &rotation).map(|found| (found.rings(), found.components())))
}

/// The first refusal of a ring with several faces.
fn mixed_ring(alloc: Global, rows: Rows<'_>) -> Result<Option<Refusal>, Fail> {
    let given = tables(alloc, rows.nodes, rows.edges, rows.faces)?;
    within_limits(&given)?;
    let rotation = check(alloc, &given)?;
    Ok(first_mixed_ring(&rotation))
}

/// The ring and the component of the last dart of a map.
fn of_last_dart(rotation: &Rotation, parts: &Parts) -> Option<(u32, u32)>
    requires { AreParts rotation.now parts.now }
{
    let last = (2 * rotation.edges()).checked_sub(1)?;
    Some((parts.ring_of(last), parts.component_of(last)))
}

/// The same of a map that is given by its rows.
fn of_last_row(alloc: Global, rows: Rows<'_>) -> Result<Option<(u32, u32)>, Fail> {
    let given = tables(alloc, rows.nodes, rows.edges, rows.faces)?;
    within_limits(&given)?;
    let rotation = check(alloc, &given)?;
    let found = parts(alloc, &rotation)?;
    Ok(of_last_dart(&rotation, &found))
}

#[test]
fn a_triangle_has_two_rings_and_one_component(rt: HostRuntime) -> Result<(), Fail> {
    let rings = Numbered {
        count: 2,
        of_darts: &[0, 1, 0, 1, 0, 1],
    };
    let components = Numbered {
        count: 1,
        of_darts: &[0, 0, 0, 0, 0, 0],
    };
    assert!(rt; are_told(rt.alloc(), TRIANGLE_ROWS, rings, components)?);
    assert_eq!(rt; mixed_ring(rt.alloc(), TRIANGLE_ROWS)?, None);
    Ok(())
}

#[test]
fn parts_are_numbered_by_their_first_darts(rt: HostRuntime) -> Result<(), Fail> {
    // A closed edge stands between the rows of a triangle.
    let rows = Rows {
        nodes: &[(1, None), (9, None), (2, None), (3, None)],
        edges: &[
            (3, (3, 1), (1, -2), (1, 0)),
            (9, (9, 9), (9, -9), (2, 1)),
            (1, (1, 2), (2, -3), (1, 0)),
            (2, (2, 3), (3, -1), (1, 0)),
        ],
        faces: &[1, 2],
    };
    let rings = Numbered {
        count: 4,
        of_darts: &[0, 1, 2, 3, 0, 1, 0, 1],
    };
    let components = Numbered {
        count: 2,
        of_darts: &[0, 0, 1, 1, 0, 0, 0, 0],
    };
    assert!(rt; are_told(rt.alloc(), rows, rings, components)?);
    Ok(())
}

#[test]
fn an_open_edge_has_one_ring(rt: HostRuntime) -> Result<(), Fail> {
    let rows = Rows {
        nodes: &NODES[..2],
        edges: &[(7, (1, 2), (-7, 7), (0, 0))],
        faces: &[],
    };
    let both = Numbered {
        count: 1,
        of_darts: &[0, 0],
    };
    assert!(rt; are_told(rt.alloc(), rows, both, both)?);
    assert_eq!(rt; counted(rt.alloc(), rows)?, Ok((1, 1)));
    Ok(())
}

#[test]
fn a_map_without_edges_has_no_ring(rt: HostRuntime) -> Result<(), Fail> {
    let rows = Rows {
        nodes: &[],
        edges: &[],
        faces: &[],
    };
    let none = Numbered {
        count: 0,
        of_darts: &[],
    };
    assert!(rt; are_told(rt.alloc(), rows, none, none)?);
    assert_eq!(rt; counted(rt.alloc(), rows)?, Ok((0, 0)));
    assert_eq!(rt; of_last_row(rt.alloc(), rows)?, None);
    Ok(())
}

#[test]
fn two_triangles_have_four_rings_and_two_components(rt: HostRuntime) -> Result<(), Fail> {
    let rows = Rows {
        nodes: &[
            (1, None),
            (2, None),
            (3, None),
            (4, None),
            (5, None),
            (6, None),
        ],
        edges: &[
            (1, (1, 2), (2, -3), (1, 0)),
            (2, (2, 3), (3, -1), (1, 0)),
            (3, (3, 1), (1, -2), (1, 0)),
            (4, (4, 5), (5, -6), (2, 0)),
            (5, (5, 6), (6, -4), (2, 0)),
            (6, (6, 4), (4, -5), (2, 0)),
        ],
        faces: &[0, 1, 2],
    };
    let rings = Numbered {
        count: 4,
        of_darts: &[0, 1, 0, 1, 0, 1, 2, 3, 2, 3, 2, 3],
    };
    let components = Numbered {
        count: 2,
        of_darts: &[0, 0, 0, 0, 0, 0, 1, 1, 1, 1, 1, 1],
    };
    assert!(rt; are_told(rt.alloc(), rows, rings, components)?);
    assert_eq!(rt; of_last_row(rt.alloc(), rows)?, Some((3, 1)));
    Ok(())
}

#[test]
fn an_isolated_node_is_in_no_component(rt: HostRuntime) -> Result<(), Fail> {
    let rows = Rows {
        nodes: &[(1, None), (5, Some(1)), (2, None), (3, None)],
        edges: &TRIANGLE,
        faces: &[1],
    };
    assert_eq!(rt; counted(rt.alloc(), rows)?, Ok((2, 1)));
    Ok(())
}

#[test]
fn two_closed_edges_that_cross_at_their_node_are_refused(rt: HostRuntime) -> Result<(), Fail> {
    let rows = Rows {
        nodes: &[(1, None)],
        edges: &[(1, (1, 1), (-2, 2), (0, 0)), (2, (1, 1), (1, -1), (0, 0))],
        faces: &[],
    };
    assert_eq!(rt; counted(rt.alloc(), rows)?, Err(not_plane(1, 1, 2, 1)));
    Ok(())
}

#[test]
fn three_edges_between_two_nodes_on_a_torus_are_refused(rt: HostRuntime) -> Result<(), Fail> {
    let rows = Rows {
        nodes: &NODES[..2],
        edges: &[
            (1, (1, 2), (-2, 2), (0, 0)),
            (2, (1, 2), (-3, 3), (0, 0)),
            (3, (1, 2), (-1, 1), (0, 0)),
        ],
        faces: &[],
    };
    assert_eq!(rt; counted(rt.alloc(), rows)?, Err(not_plane(1, 2, 3, 1)));
    Ok(())
}

#[test]
fn the_second_of_two_components_is_refused(rt: HostRuntime) -> Result<(), Fail> {
    let rows = Rows {
        nodes: &[(1, None), (2, None), (3, None), (4, None)],
        edges: &[
            (1, (1, 2), (2, -3), (1, 0)),
            (2, (2, 3), (3, -1), (1, 0)),
            (3, (3, 1), (1, -2), (1, 0)),
            (4, (4, 4), (-5, 5), (0, 0)),
            (5, (4, 4), (4, -4), (0, 0)),
        ],
        faces: &[1],
    };
    assert_eq!(rt; counted(rt.alloc(), rows)?, Err(not_plane(4, 1, 2, 1)));
    Ok(())
}

#[test]
fn of_two_components_that_are_not_plane_the_least_edge_is_named(
    rt: HostRuntime,
) -> Result<(), Fail> {
    // The rows of the edges 8 and 9 come first.
    let rows = Rows {
        nodes: &NODES,
        edges: &[
            (9, (1, 1), (8, -8), (0, 0)),
            (8, (1, 1), (-9, 9), (0, 0)),
            (6, (2, 3), (-4, 4), (0, 0)),
            (4, (2, 3), (-5, 5), (0, 0)),
            (5, (2, 3), (-6, 6), (0, 0)),
        ],
        faces: &[],
    };
    assert_eq!(rt; counted(rt.alloc(), rows)?, Err(not_plane(4, 2, 3, 1)));
    Ok(())
}

#[test]
fn a_ring_with_two_faces_is_refused_before_a_component_that_is_not_plane(
    rt: HostRuntime,
) -> Result<(), Fail> {
    let rows = Rows {
        nodes: &[(1, None)],
        edges: &[(1, (1, 1), (-2, 2), (0, 0)), (2, (1, 1), (1, -1), (0, 1))],
        faces: &[1],
    };
    assert_eq!(rt;
        counted(rt.alloc(), rows)?,
        Err(CheckFault::Refused(Refusal::MixedRing { edge: 1, next: -2 }))
    );
    Ok(())
}

#[test]
fn a_ring_with_one_wrong_side_is_refused(rt: HostRuntime) -> Result<(), Fail> {
    let rows = Rows {
        nodes: &NODES,
        edges: &[
            (1, (1, 2), (2, -3), (1, 0)),
            (2, (2, 3), (3, -1), (0, 0)),
            (3, (3, 1), (1, -2), (1, 0)),
        ],
        faces: &[0, 1],
    };
    assert_eq!(rt;
        mixed_ring(rt.alloc(), rows)?,
        Some(Refusal::MixedRing { edge: 1, next: 2 })
    );
    Ok(())
}
