//! Images of small maps.

ghost use Rattle.std.specs.Prelude.{◌≡◌, ◌<◌};

use crate::{BuildFault, build};
use bit_words::Steps;
use image_words::{bytes_of, island, triangle};
use map_maker::grid;
use pemb_file::{Counts, Served, open};
use plane_model::Tables;
use std::alloc::Global;
use std::marker::Brand;
use std::sync::ledger::{Blank, Ledger};
use std::test::Fail;
use topo_base::{IdNumber, Refusal, Table};
use worked_maps::{
    Edge, Member, Node, Region, TRIANGLE, tables, tables_with_regions, within_limits,
};

/// The edges of six triangles side by side.
const SIX_TRIANGLES: [Edge; 18] = [
    (1, (1, 2), (2, -3), (1, 0)),
    (2, (2, 3), (3, -1), (1, 0)),
    (3, (3, 1), (1, -2), (1, 0)),
    (4, (4, 5), (5, -6), (2, 0)),
    (5, (5, 6), (6, -4), (2, 0)),
    (6, (6, 4), (4, -5), (2, 0)),
    (7, (7, 8), (8, -9), (3, 0)),
    (8, (8, 9), (9, -7), (3, 0)),
    (9, (9, 7), (7, -8), (3, 0)),
    (10, (10, 11), (11, -12), (4, 0)),
    (11, (11, 12), (12, -10), (4, 0)),
    (12, (12, 10), (10, -11), (4, 0)),
    (13, (13, 14), (14, -15), (5, 0)),
    (14, (14, 15), (15, -13), (5, 0)),
    (15, (15, 13), (13, -14), (5, 0)),
    (16, (16, 17), (17, -18), (6, 0)),
    (17, (17, 18), (18, -16), (6, 0)),
    (18, (18, 16), (16, -17), (6, 0)),
];

/// The image of these tables.
fn built_of(alloc: Global, tables: Tables) -> Result<Result<Vec<u8>, BuildFault>, Fail> {
    within_limits(&tables)?;
    Ok(build(alloc, tables))
}

/// The image of these tables without regions.
fn built(
    alloc: Global,
    nodes: &[Node],
    edges: &[Edge],
    faces: &[IdNumber],
) -> Result<Result<Vec<u8>, BuildFault>, Fail> {
    let tables = tables(alloc, nodes, edges, faces)?;
    built_of(alloc, tables)
}

/// The image of a triangle with a closed edge and a node inside it, with these regions and members.
fn island_built(
    alloc: Global,
    regions: &[Region],
    members: &[Member],
) -> Result<Result<Vec<u8>, BuildFault>, Fail> {
    let nodes = [(1, None), (2, None), (3, None), (4, None), (5, Some(2))];
    let [first, second, third] = TRIANGLE;
    let edges = [first, second, third, (4, (4, 4), (4, -4), (2, 1))];
    let tables = tables_with_regions(alloc, &nodes, &edges, &[1, 2], regions, members)?;
    built_of(alloc, tables)
}

/// The counts of a file, if it is lawful.
fn counts_counted<C: Ledger>(alloc: Global, bytes: &[u8], blank: Blank) -> Option<Counts>
    requires name { blank.name ≡ C.name }
    requires parts { blank.parts ≡ C.parts }
    requires some { 0 < blank.parts }
{
    let mut steps = Steps::<C>::new(alloc, blank);
    let file = open(bytes, &mut steps).ok()?;
    Some(Served::of(&file).counts())
}

/// The numbers of nodes, edges, faces without face 0, and components of the image of these tables.
fn counts(
    alloc: Global,
    nodes: &[Node],
    edges: &[Edge],
    faces: &[IdNumber],
) -> Result<Option<(u32, u32, u32, u32)>, Fail> {
    let Ok(image) = built(alloc, nodes, edges, faces)? else {
        return Ok(None);
    };
    Ok(counts_counted::<Brand>(alloc, &image, Blank::new(1)).map(|counts| (
        counts.nodes,
        counts.edges,
        counts.faces,
        counts.components,
    )))
}

#[test]
fn a_triangle_builds_its_words(rt: HostRuntime) -> Result<(), Fail> {
    let alloc = rt.alloc();
    let nodes = [(1, None), (2, None), (3, None)];
    let want = bytes_of(alloc, &triangle())?;
    let Ok(image) = built(alloc, &nodes, &TRIANGLE, &[1])? else {
        return Err(Fail::new("no image"));
    };
    assert!(rt; image.as_slice() == want.as_slice());
    let [first, second, third] = TRIANGLE;
    let nodes = [(3, None), (1, None), (2, None)];
    let Ok(other) = built(alloc, &nodes, &[third, first, second], &[0, 1])? else {
        return Err(Fail::new("no image"));
    };
    assert!(rt; other.as_slice() == want.as_slice());
    Ok(())
}

#[test]
fn an_island_in_two_regions_builds_its_words(rt: HostRuntime) -> Result<(), Fail> {
    let alloc = rt.alloc();
    let regions = [(2, Some(1)), (1, None)];
    let Ok(image) = island_built(alloc, &regions, &[(1, 2), (2, 1)])? else {
        return Err(Fail::new("no image"));
    };
    let want = bytes_of(alloc, &island())?;
    assert!(rt; image.as_slice() == want.as_slice());
    let cycle = Refusal::RegionCycle { region: 1 };
    assert_eq!(rt;
        island_built(alloc, &[(1, Some(2)), (2, Some(1))], &[])?.err(),
        Some(BuildFault::Refused(cycle))
    );
    let missing = Refusal::NoRegion {
        table: Table::Member,
        id: 1,
        region: 1,
    };
    assert_eq!(rt;
        island_built(alloc, &[], &[(1, 1)])?.err(),
        Some(BuildFault::Refused(missing))
    );
    Ok(())
}

#[test]
fn consistent_maps_build_and_open(rt: HostRuntime) -> Result<(), Fail> {
    let alloc = rt.alloc();
    assert_eq!(rt; counts(alloc, &[], &[], &[])?, Some((0, 0, 0, 0)));
    let nodes = [(1, None), (2, None), (3, None), (4, None), (5, Some(2))];
    let [first, second, third] = TRIANGLE;
    let edges = [first, second, third, (4, (4, 4), (4, -4), (2, 1))];
    assert_eq!(rt; counts(alloc, &nodes, &edges, &[1, 2])?, Some((5, 4, 2, 2)));
    Ok(())
}

#[test]
fn maps_of_several_rings_build_and_open(rt: HostRuntime) -> Result<(), Fail> {
    let alloc = rt.alloc();
    let theta = [
        (1, (1, 2), (-3, 2), (0, 1)),
        (2, (1, 2), (-1, 3), (1, 2)),
        (3, (1, 2), (-2, 1), (2, 0)),
    ];
    assert_eq!(rt;
        counts(alloc, &[(1, None), (2, None)], &theta, &[1, 2])?,
        Some((2, 3, 2, 1))
    );
    let nodes: Vec<Node> = (1..=18).map(|id| (id, None)).collect(alloc)?;
    let faces: [IdNumber; 6] = [1, 2, 3, 4, 5, 6];
    assert_eq!(rt;
        counts(alloc, &nodes[..6], &SIX_TRIANGLES[..6], &[0, 1, 2])?,
        Some((6, 6, 2, 2))
    );
    assert_eq!(rt;
        counts(alloc, &nodes, &SIX_TRIANGLES, &faces)?,
        Some((18, 18, 6, 6))
    );
    Ok(())
}

#[test]
fn ids_of_63_bits_build_and_open(rt: HostRuntime) -> Result<(), Fail> {
    let alloc = rt.alloc();
    let nodes = [
        (9_223_372_036_854_775_807, None),
        (1, None),
        (2_147_483_648, Some(9_223_372_036_854_775_807)),
    ];
    let edges = [
        (
            9_223_372_036_854_775_807,
            (9_223_372_036_854_775_807, 1),
            (-4_294_967_296, 9_223_372_036_854_775_807),
            (0, 0),
        ),
        (
            4_294_967_296,
            (1, 1),
            (4_294_967_296, -9_223_372_036_854_775_807),
            (9_223_372_036_854_775_807, 0),
        ),
    ];
    assert_eq!(rt;
        counts(alloc, &nodes, &edges, &[9_223_372_036_854_775_807])?,
        Some((3, 2, 1, 1))
    );
    Ok(())
}

#[test]
fn a_grid_of_a_hundred_thousand_edges_builds_and_opens(rt: HostRuntime) -> Result<(), Fail> {
    let alloc = rt.alloc();
    let Ok(tables) = grid(alloc, 223) else {
        return Err(Fail::new("want of memory for the grid"));
    };
    let Ok(image) = build(alloc, tables) else {
        return Err(Fail::new("no image"));
    };
    let want = Counts {
        nodes: 61_800,
        edges: 107_008,
        tree_edges: 50_175,
        faces: 56_833,
        components: 7_105,
        isolated: 4_520,
        regions: 0,
    };
    assert_eq!(rt;
        counts_counted::<Brand>(alloc, &image, Blank::new(1)),
        Some(want)
    );
    Ok(())
}

#[test]
fn tables_that_are_not_consistent_are_refused(rt: HostRuntime) -> Result<(), Fail> {
    let alloc = rt.alloc();
    let crossed = [(1, (1, 1), (-2, 2), (0, 0)), (2, (1, 1), (1, -1), (0, 0))];
    let want = Refusal::Euler {
        edge: 1,
        nodes: 1,
        edges: 2,
        rings: 1,
    };
    assert_eq!(rt;
        built(alloc, &[(1, None)], &crossed, &[])?.err(),
        Some(BuildFault::Refused(want))
    );
    let closed = [(1, (1, 1), (1, -1), (1, 0))];
    assert_eq!(rt;
        built(alloc, &[(1, None)], &closed, &[1, 5])?.err(),
        Some(BuildFault::Refused(Refusal::BareFace { face: 5 }))
    );
    Ok(())
}
