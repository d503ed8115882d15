//! Where the components of small maps are.

use crate::{Placement, place};
use euler_check::parts;
use rotation_check::{CheckFault, check};
use std::alloc::Global;
use std::process::Abort;
use std::test::Fail;
use topo_base::{IdNumber, Refusal};
use worked_maps::{Edge, Node, TRIANGLE, tables, within_limits};

fn placed(
    alloc: Global,
    nodes: &[Node],
    edges: &[Edge],
    faces: &[IdNumber],
) -> Result<Result<Placement, CheckFault>, Fail> {
    let tables = tables(alloc, nodes, edges, faces)?;
    within_limits(&tables)?;
    let rotation = check(alloc, &tables)?;
    let parts = parts(alloc, &rotation)?;
    Ok(place(alloc, &rotation, &parts, &tables.faces))
}

/// Fails unless a placement has these starts and faces.
fn is_at(rt: &impl Abort, placement: &Placement, starts: &[u32], faces: &[IdNumber]) {
    assert_eq!(rt; placement.starts(), starts);
    assert_eq!(rt; placement.faces(), faces);
}

/// What is first wrong with the places of a map without isolated nodes.
fn fault(
    alloc: Global,
    nodes: &[Node],
    edges: &[Edge],
    faces: &[IdNumber],
) -> Result<Option<CheckFault>, Fail> {
    Ok(placed(alloc, nodes, edges, faces)?.err())
}

#[test]
fn a_triangle_lies_in_face_0(rt: HostRuntime) -> Result<(), Fail> {
    let nodes = [(1, None), (2, None), (3, None)];
    let placement = placed(rt.alloc(), &nodes, &TRIANGLE, &[1])??;
    is_at(&rt, &placement, &[1], &[0]);
    let with_face_0 = placed(rt.alloc(), &nodes, &TRIANGLE, &[1, 0])??;
    is_at(&rt, &with_face_0, &[1], &[0]);
    Ok(())
}

#[test]
fn a_map_without_edges_has_no_components(rt: HostRuntime) -> Result<(), Fail> {
    let empty = placed(rt.alloc(), &[(3, Some(0))], &[], &[])??;
    is_at(&rt, &empty, &[], &[]);
    Ok(())
}

#[test]
fn a_closed_edge_lies_in_the_face_of_a_triangle(rt: HostRuntime) -> Result<(), Fail> {
    let nodes = [(1, None), (2, None), (3, None), (4, None), (5, Some(2))];
    let [first, second, third] = TRIANGLE;
    let edges = [first, second, third, (4, (4, 4), (4, -4), (2, 1))];
    let placement = placed(rt.alloc(), &nodes, &edges, &[1, 2])??;
    is_at(&rt, &placement, &[1, 7], &[0, 1]);
    Ok(())
}

#[test]
fn a_start_is_the_least_by_id_and_not_by_row(rt: HostRuntime) -> Result<(), Fail> {
    let nodes = [(1, None), (2, None), (3, None)];
    let [first, second, third] = TRIANGLE;
    let placement = placed(rt.alloc(), &nodes, &[third, second, first], &[1])??;
    is_at(&rt, &placement, &[5], &[0]);
    Ok(())
}

#[test]
fn components_come_round_by_round(rt: HostRuntime) -> Result<(), Fail> {
    // edge 3 lies inside edge 2, and this one inside edge 1
    let nodes = [(1, None), (2, None), (3, None)];
    let edges = [
        (3, (3, 3), (3, -3), (7, 9)),
        (1, (1, 1), (1, -1), (8, 0)),
        (2, (2, 2), (2, -2), (9, 8)),
    ];
    let placement = placed(rt.alloc(), &nodes, &edges, &[7, 8, 9])??;
    is_at(&rt, &placement, &[3, 5, 1], &[0, 8, 9]);
    Ok(())
}

#[test]
fn the_components_in_one_face_rise_by_their_starts(rt: HostRuntime) -> Result<(), Fail> {
    // edges 3 and 7 lie inside edge 4, and edge 2 beside it
    let nodes = [(1, None), (2, None), (3, None), (4, None)];
    let edges = [
        (7, (1, 1), (7, -7), (5, 1)),
        (4, (2, 2), (4, -4), (1, 0)),
        (3, (3, 3), (3, -3), (6, 1)),
        (2, (4, 4), (2, -2), (2, 0)),
    ];
    let placement = placed(rt.alloc(), &nodes, &edges, &[6, 5, 2, 1])??;
    is_at(&rt, &placement, &[7, 3, 5, 1], &[0, 0, 1, 1]);
    Ok(())
}

#[test]
fn components_that_hold_each_other_are_refused(rt: HostRuntime) -> Result<(), Fail> {
    let nodes = [(1, None), (2, None)];
    let edges = [(1, (1, 1), (1, -1), (1, 2)), (2, (2, 2), (2, -2), (2, 1))];
    let first = Some(CheckFault::Refused(Refusal::Unplaced { edge: 1 }));
    assert_eq!(rt; fault(rt.alloc(), &nodes, &edges, &[1, 2])?, first);
    // a face that is on no ring comes later
    assert_eq!(rt; fault(rt.alloc(), &nodes, &edges, &[1, 2, 5])?, first);
    // the least edge is named, which need not be in the first row
    let edges = [(9, (1, 1), (9, -9), (1, 2)), (4, (2, 2), (4, -4), (2, 1))];
    assert_eq!(rt;
        fault(rt.alloc(), &nodes, &edges, &[1, 2])?,
        Some(CheckFault::Refused(Refusal::Unplaced { edge: 4 }))
    );
    Ok(())
}

#[test]
fn a_face_on_no_ring_is_refused(rt: HostRuntime) -> Result<(), Fail> {
    let edges = [(1, (1, 1), (1, -1), (1, 0))];
    let bare = Some(CheckFault::Refused(Refusal::BareFace { face: 5 }));
    assert_eq!(rt; fault(rt.alloc(), &[(1, None)], &edges, &[5, 1])?, bare);
    // a wrong count of rings comes later
    let edges = [(1, (1, 1), (1, -1), (0, 0))];
    assert_eq!(rt; fault(rt.alloc(), &[(1, None)], &edges, &[6, 5])?, bare);
    Ok(())
}

#[test]
fn a_face_that_is_inside_and_outside_a_closed_edge_is_refused(rt: HostRuntime) -> Result<(), Fail> {
    let edges = [(1, (1, 1), (1, -1), (0, 0))];
    assert_eq!(rt;
        fault(rt.alloc(), &[(1, None)], &edges, &[])?,
        Some(CheckFault::Refused(Refusal::FaceCycle {
            rings: 2,
            faces: 1,
            components: 1,
        }))
    );
    Ok(())
}
