//! Walks and look-ups over the file of a triangle: edges 1, 2 and 3 round face 1, nodes 1, 2 and 3. Regions over the
//! file of this triangle with more in it.

ghost use Rattle.std.specs.Prelude.{◌≡◌, ◌<◌, length};
ghost use Rattle.scratch_region.specs.Marks.{room_of, IsEmpty};
ghost use Rattle.pemb_file.specs.Served.{contents_of_view};

use bit_words::Steps;
use image_words::{bytes_of, island, triangle};
use navigate::{
    Island, adjacent_walk, common, containing, ends, face_walk, island_walk, next, node_walk,
    region_walk, ring_edges, ring_walk, sides,
};
use pemb_file::{Served, open};
use scratch_region::{Marks, Region};
use std::alloc::Global;
use std::marker::Brand;
use std::sync::ledger::{Blank, Ledger};
use std::test::Fail;
use topo_base::{FaceId, NodeId, RegionId, Signed};

/// What a walk round node 1, one on the ring of -2 and one along face 1 give, stepped in turn.
fn stepped_in_turn<C: Ledger>(
    alloc: Global,
    bytes: &[u8],
    blank: Blank,
) -> Option<[[Option<Signed>; 3]; 4]>
    requires name { blank.name ≡ C.name }
    requires parts { blank.parts ≡ C.parts }
    requires some { 0 < blank.parts }
{
    let mut steps = Steps::<C>::new(alloc, blank);
    let file = open(bytes, &mut steps).ok()?;
    let served = Served::of(&file);
    let mut node = node_walk(served, NodeId(1), &mut steps)?;
    let mut ring = ring_walk(served, Signed::new(-2)?, &mut steps)?;
    let mut face = face_walk(served, FaceId(1), &mut steps)?;
    Some([
        [
            node.step(&mut steps),
            ring.step(&mut steps),
            face.step(&mut steps),
        ],
        [
            node.step(&mut steps),
            ring.step(&mut steps),
            face.step(&mut steps),
        ],
        [
            node.step(&mut steps),
            ring.step(&mut steps),
            face.step(&mut steps),
        ],
        [
            node.step(&mut steps),
            ring.step(&mut steps),
            face.step(&mut steps),
        ],
    ])
}

/// What is looked up for edge 1 and for two nodes, one of which the map lacks.
#[derive(Clone, Copy, Debug, PartialEq, Eq)]
struct LookUps {
    next: Option<Signed>,
    ends: Option<(NodeId, NodeId)>,
    sides: Option<(FaceId, FaceId)>,
    containing: Option<FaceId>,
    unknown: Option<FaceId>,
}

fn look_ups<C: Ledger>(alloc: Global, bytes: &[u8], blank: Blank) -> Option<LookUps>
    requires name { blank.name ≡ C.name }
    requires parts { blank.parts ≡ C.parts }
    requires some { 0 < blank.parts }
{
    let mut steps = Steps::<C>::new(alloc, blank);
    let file = open(bytes, &mut steps).ok()?;
    let served = Served::of(&file);
    let one = Signed::new(1)?;
    Some(LookUps {
        next: next(served, one.reverse(), &mut steps),
        ends: ends(served, one.reverse(), &mut steps),
        sides: sides(served, one, &mut steps),
        containing: containing(served, NodeId(1), &mut steps),
        unknown: containing(served, NodeId(9), &mut steps),
    })
}

/// The first two things in face 0.
fn islands<C: Ledger>(alloc: Global, bytes: &[u8], blank: Blank) -> Option<[Option<Island>; 2]>
    requires name { blank.name ≡ C.name }
    requires parts { blank.parts ≡ C.parts }
    requires some { 0 < blank.parts }
{
    let mut steps = Steps::<C>::new(alloc, blank);
    let file = open(bytes, &mut steps).ok()?;
    let served = Served::of(&file);
    let mut walk = island_walk(served, FaceId(0), &mut steps)?;
    Some([walk.step(&mut steps), walk.step(&mut steps)])
}

/// What the iterator over the ring of 1 yields.
fn ring_of_one<C: Ledger>(alloc: Global, bytes: &[u8], blank: Blank) -> Option<[Option<Signed>; 4]>
    requires name { blank.name ≡ C.name }
    requires parts { blank.parts ≡ C.parts }
    requires some { 0 < blank.parts }
{
    let mut counter = Steps::<C>::new(alloc, blank);
    let file = open(bytes, &mut counter).ok()?;
    let served = Served::of(&file);
    let mut edges = ring_edges(served, Signed::new(1)?, counter)?;
    Some([edges.next(), edges.next(), edges.next(), edges.next()])
}

/// The first two faces across the edges of a face. The marks are taken away again.
fn two_neighbours<C: Ledger>(
    served: Served<'_>,
    face: FaceId,
    marks: &mut Marks<'_>,
    steps: &mut Steps<C>,
) -> (Option<FaceId>, Option<FaceId>)
    requires room { length (contents_of_view served).faces < room_of marks.old }
    requires empty { IsEmpty marks.old }
    ensures room { room_of marks.new ≡ room_of marks.old }
    ensures empty { IsEmpty marks.new }
{
    let Some(mut walk) = adjacent_walk(served, face, steps) else {
        return (None, None);
    };
    let first = walk.step(marks, steps);
    let second = walk.step(marks, steps);
    walk.close(marks, steps);
    (first, second)
}

/// The neighbours of face 1 twice, and of face 0, on one set of marks.
fn neighbours<C: Ledger>(
    alloc: Global,
    bytes: &[u8],
    blank: Blank,
) -> Option<[(Option<FaceId>, Option<FaceId>); 3]>
    requires name { blank.name ≡ C.name }
    requires parts { blank.parts ≡ C.parts }
    requires some { 0 < blank.parts }
{
    let mut steps = Steps::<C>::new(alloc, blank);
    let file = open(bytes, &mut steps).ok()?;
    let served = Served::of(&file);
    let mut lent = [0; 1];
    let Ok((mut marks, _left)) = Region::new(&mut lent).carve(1) else {
        return None;
    };
    if served.faces().count() >= marks.room() {
        return None;
    }
    Some([
        two_neighbours(served, FaceId(1), &mut marks, &mut steps),
        two_neighbours(served, FaceId(1), &mut marks, &mut steps),
        two_neighbours(served, FaceId(0), &mut marks, &mut steps),
    ])
}

/// What a walk up from the region of a face gives, three steps long.
fn three_up<C: Ledger>(
    served: Served<'_>,
    face: FaceId,
    steps: &mut Steps<C>,
) -> Option<[Option<RegionId>; 3]> {
    let mut walk = region_walk(served, face, steps)?;
    Some([walk.step(steps), walk.step(steps), walk.step(steps)])
}

/// The regions of faces 0, 1, 2 and 7, the last of which the map lacks.
fn regions_up<C: Ledger>(
    alloc: Global,
    bytes: &[u8],
    blank: Blank,
) -> Option<[Option<[Option<RegionId>; 3]>; 4]>
    requires name { blank.name ≡ C.name }
    requires parts { blank.parts ≡ C.parts }
    requires some { 0 < blank.parts }
{
    let mut steps = Steps::<C>::new(alloc, blank);
    let file = open(bytes, &mut steps).ok()?;
    let served = Served::of(&file);
    Some([
        three_up(served, FaceId(0), &mut steps),
        three_up(served, FaceId(1), &mut steps),
        three_up(served, FaceId(2), &mut steps),
        three_up(served, FaceId(7), &mut steps),
    ])
}

/// The region that face 1 shares with each of faces 0, 1, 2 and 7.
fn shared<C: Ledger>(
    alloc: Global,
    bytes: &[u8],
    blank: Blank,
) -> Option<[Option<Option<RegionId>>; 4]>
    requires name { blank.name ≡ C.name }
    requires parts { blank.parts ≡ C.parts }
    requires some { 0 < blank.parts }
{
    let mut steps = Steps::<C>::new(alloc, blank);
    let file = open(bytes, &mut steps).ok()?;
    let served = Served::of(&file);
    Some([
        common(served, FaceId(0), FaceId(1), &mut steps),
        common(served, FaceId(1), FaceId(1), &mut steps),
        common(served, FaceId(1), FaceId(2), &mut steps),
        common(served, FaceId(1), FaceId(7), &mut steps),
    ])
}

#[test]
fn walks_stepped_in_turn(rt: HostRuntime) -> Result<(), Fail> {
    let alloc = rt.alloc();
    let bytes = bytes_of(alloc, &triangle())?;
    let want = [
        [Signed::new(1), Signed::new(-2), Signed::new(1)],
        [Signed::new(-3), Signed::new(-1), Signed::new(2)],
        [None, Signed::new(-3), Signed::new(3)],
        [None, None, None],
    ];
    assert_eq!(rt;
        stepped_in_turn::<Brand>(alloc, &bytes, Blank::new(1)),
        Some(want)
    );
    Ok(())
}

#[test]
fn edges_and_nodes_are_looked_up(rt: HostRuntime) -> Result<(), Fail> {
    let alloc = rt.alloc();
    let bytes = bytes_of(alloc, &triangle())?;
    let want = LookUps {
        next: Signed::new(-3),
        ends: Some((NodeId(2), NodeId(1))),
        sides: Some((FaceId(1), FaceId(0))),
        containing: Some(FaceId(0)),
        unknown: None,
    };
    assert_eq!(rt; look_ups::<Brand>(alloc, &bytes, Blank::new(1)), Some(want));
    Ok(())
}

#[test]
fn a_triangle_is_an_island_and_a_ring(rt: HostRuntime) -> Result<(), Fail> {
    let alloc = rt.alloc();
    let bytes = bytes_of(alloc, &triangle())?;
    let Some(edge) = Signed::new(-1) else {
        return Err(Fail::new("no signed edge"));
    };
    assert_eq!(rt;
        islands::<Brand>(alloc, &bytes, Blank::new(1)),
        Some([Some(Island::Edge(edge)), None])
    );
    let want = [Signed::new(1), Signed::new(2), Signed::new(3), None];
    assert_eq!(rt;
        ring_of_one::<Brand>(alloc, &bytes, Blank::new(1)),
        Some(want)
    );
    Ok(())
}

#[test]
fn neighbours_come_twice_on_one_set_of_marks(rt: HostRuntime) -> Result<(), Fail> {
    let alloc = rt.alloc();
    let bytes = bytes_of(alloc, &triangle())?;
    let want = [
        (Some(FaceId(0)), None),
        (Some(FaceId(0)), None),
        (Some(FaceId(1)), None),
    ];
    assert_eq!(rt;
        neighbours::<Brand>(alloc, &bytes, Blank::new(1)),
        Some(want)
    );
    Ok(())
}

#[test]
fn regions_are_walked_up_and_shared(rt: HostRuntime) -> Result<(), Fail> {
    let alloc = rt.alloc();
    let bytes = bytes_of(alloc, &island())?;
    let inner = Some(RegionId(2));
    let outer = Some(RegionId(1));
    let want = [
        Some([None, None, None]),
        Some([inner, outer, None]),
        Some([outer, None, None]),
        None,
    ];
    assert_eq!(rt;
        regions_up::<Brand>(alloc, &bytes, Blank::new(1)),
        Some(want)
    );
    assert_eq!(rt;
        shared::<Brand>(alloc, &bytes, Blank::new(1)),
        Some([Some(None), Some(inner), Some(outer), None])
    );
    Ok(())
}
