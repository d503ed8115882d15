//! Walks round outlines over small files.

ghost use Rattle.std.specs.Prelude.{◌≡◌, ◌<◌, ◌≤◌, ◌*◌, length};
ghost use Rattle.scratch_region.specs.Marks.{room_of, IsEmpty};
ghost use Rattle.pemb_file.specs.Served.{contents_of_view};

use crate::{BorderItem, border_walk};
use bit_words::Steps;
use image_words::{bytes_of, island};
use pemb_file::{Served, open};
use scratch_region::{Marks, Region};
use std::alloc::Global;
use std::marker::Brand;
use std::sync::ledger::{Blank, Ledger};
use std::test::Fail;
use topo_base::{IdNumber, RegionId, Signed, SignedNumber};

/// The numbers of the signed edges that a walk gives in its first steps, 0 where a ring ends, and None at the end.
type Given = [Option<SignedNumber>; 7];

/// A signed edge's number, or 0 where a ring ends.
fn number_of(item: BorderItem) -> SignedNumber {
    match item {
        BorderItem::Edge(edge) => edge.value(),
        BorderItem::RingEnd => 0,
    }
}

/// The first seven steps of the walk round a region, which is closed then. None where the map lacks the region.
fn seven_steps<C: Ledger>(
    served: Served<'_>,
    region: IdNumber,
    marks: &mut Marks<'_>,
    steps: &mut Steps<C>,
) -> Option<Given>
    requires room { 2 * length (contents_of_view served).edges ≤ room_of marks.old }
    requires empty { IsEmpty marks.old }
    ensures room { room_of marks.new ≡ room_of marks.old }
    ensures empty { IsEmpty marks.new }
{
    let Some(mut walk) = border_walk(served, RegionId(region), steps) else {
        return None;
    };
    let given = [
        walk.step(marks, steps).map(number_of),
        walk.step(marks, steps).map(number_of),
        walk.step(marks, steps).map(number_of),
        walk.step(marks, steps).map(number_of),
        walk.step(marks, steps).map(number_of),
        walk.step(marks, steps).map(number_of),
        walk.step(marks, steps).map(number_of),
    ];
    walk.close(marks, steps);
    Some(given)
}

/// The walks round regions 2, 1 and 9, one after the other on one set of marks.
fn three_walks<C: Ledger>(alloc: Global, bytes: &[u8], blank: Blank) -> Option<[Option<Given>; 3]>
    requires name { blank.name ≡ C.name }
    requires parts { blank.parts ≡ C.parts }
    requires some { 0 < blank.parts }
{
    let mut steps = Steps::<C>::new(alloc, blank);
    let file = open(bytes, &mut steps).ok()?;
    let served = Served::of(&file);
    let mut lent = [7; 1];
    let Ok((mut marks, _left)) = Region::new(&mut lent).carve(1) else {
        return None;
    };
    if marks.room() < 2 * served.edges().count() {
        return None;
    }
    Some([
        seven_steps(served, 2, &mut marks, &mut steps),
        seven_steps(served, 1, &mut marks, &mut steps),
        seven_steps(served, 9, &mut marks, &mut steps),
    ])
}

#[test]
fn outlines_on_the_nested_island(rt: HostRuntime) -> Result<(), Fail> {
    let alloc = rt.alloc();
    let bytes = bytes_of(alloc, &island())?;
    let inner = [Some(1), Some(2), Some(3), Some(0), Some(-4), Some(0), None];
    let outer = [Some(1), Some(2), Some(3), Some(0), None, None, None];
    assert_eq!(rt;
        three_walks::<Brand>(alloc, &bytes, Blank::new(1)),
        Some([Some(inner), Some(outer), None])
    );
    Ok(())
}
