//! Walks to the twenty faces round a face, closed early.

ghost use Rattle.std.specs.Prelude.{◌≡◌, ◌<◌, length};
ghost use Rattle.scratch_region.specs.Marks.{room_of, IsEmpty};
ghost use Rattle.pemb_file.specs.Served.{contents_of_view};
ghost use Rattle.navigate.specs.AdjacentWalk.{contents_in, HoldsGiven};

use crate::maps::web_image;
use bit_words::Steps;
use navigate::{AdjacentWalk, adjacent_walk};
use pemb_file::{Served, open};
use scratch_region::{Marks, Region};
use std::alloc::Global;
use std::marker::Brand;
use std::sync::ledger::{Blank, Ledger};
use std::test::Fail;
use topo_base::{FaceId, IdNumber};

/// The face that comes in a step of the walk round face 1 of the web.
fn neighbour(k: u32) -> Option<FaceId> {
    if k < 20 {
        Some(FaceId(IdNumber::from(2 + k)))
    } else {
        None
    }
}

/// Whether the walk gives the right faces in its first steps.
fn gives_first<C: Ledger>(
    walk: &mut AdjacentWalk<'_>,
    count: u32,
    marks: &mut Marks<'_>,
    steps: &mut Steps<C>,
) -> bool
    requires room { length (contents_in walk.old).faces < room_of marks.old }
    requires marks { HoldsGiven walk.old marks.old }
    ensures contents { contents_in walk.new ≡ contents_in walk.old }
    ensures room { room_of marks.new ≡ room_of marks.old }
    ensures marks { HoldsGiven walk.new marks.new }
{
    for k in 0..count {
        if walk.step(marks, steps) != neighbour(k) {
            return false;
        }
    }
    true
}

fn are_empty(marks: &Marks<'_>) -> bool {
    for i in 0..marks.room() {
        if marks.has(i) {
            return false;
        }
    }
    true
}

/// Whether the walk round face 1 gives the right faces in so many steps and leaves no mark where it is closed then.
fn closes_after<C: Ledger>(
    served: Served<'_>,
    count: u32,
    marks: &mut Marks<'_>,
    steps: &mut Steps<C>,
) -> bool
    requires room { length (contents_of_view served).faces < room_of marks.old }
    requires empty { IsEmpty marks.old }
    ensures room { room_of marks.new ≡ room_of marks.old }
    ensures empty { IsEmpty marks.new }
{
    let Some(mut walk) = adjacent_walk(served, FaceId(1), steps) else {
        return false;
    };
    let right = gives_first(&mut walk, count, marks, steps);
    walk.close(marks, steps);
    right && are_empty(marks)
}

/// The same after each number of steps, to the end and past it.
fn closes_after_each<C: Ledger>(alloc: Global, bytes: &[u8], blank: Blank) -> bool
    requires name { blank.name ≡ C.name }
    requires parts { blank.parts ≡ C.parts }
    requires some { 0 < blank.parts }
{
    let mut steps = Steps::<C>::new(alloc, blank);
    let Ok(file) = open(bytes, &mut steps) else {
        return false;
    };
    let served = Served::of(&file);
    let mut lent = [u64::MAX; 1];
    let Ok((mut marks, _left)) = Region::new(&mut lent).carve(1) else {
        return false;
    };
    if served.faces().count() >= marks.room() {
        return false;
    }
    for count in 0..23 {
        if !closes_after(served, count, &mut marks, &mut steps) {
            return false;
        }
    }
    true
}

#[test]
fn no_mark_is_left_after_any_number_of_steps(rt: HostRuntime) -> Result<(), Fail> {
    let alloc = rt.alloc();
    let image = web_image(alloc)?;
    assert!(rt; closes_after_each::<Brand>(alloc, &image, Blank::new(1)));
    Ok(())
}
