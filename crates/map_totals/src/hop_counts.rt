//! Shortest walks over a grid, and over a face with 10,000 others beside it.

ghost use Rattle.std.specs.Prelude.{◌≡◌, ◌<◌, ◌≤◌, length, IfOk};

use crate::maps::{grid_image, holes_image};
use bit_words::Steps;
use face_hops::{Found, hop_walk};
use pemb_file::{Served, open};
use scratch_region::Region;
use std::alloc::{AllocError, Global};
use std::marker::Brand;
use std::sync::ledger::{Blank, Ledger};
use std::test::Fail;
use topo_base::{FaceId, IdNumber};

/// Words for the lists of a walk over 10,001 faces and face 0.
fn words(alloc: Global) -> Result<Vec<u64>, AllocError>
    ensures { IfOk result (λ words. length words.items ≤ 2147483647) }
{
    vec![in alloc; 0; 20_004]
}

/// How many moves lead from one face to another. None where the map lacks one of them, or there are too few words.
fn moves_between<C: Ledger>(
    alloc: Global,
    served: Served<'_>,
    from: IdNumber,
    to: IdNumber,
    steps: &mut Steps<C>,
) -> Result<Option<u32>, AllocError> {
    let mut lent = words(alloc)?;
    match hop_walk(
        served,
        FaceId(from),
        FaceId(to),
        Region::new(&mut lent),
        steps,
    ) {
        Found::Walk(walk) => Ok(Some(walk.moves())),
        _ => Ok(None),
    }
}

/// The distance of a row or column of 30 from the nearer end.
fn from_end(place: u32) -> u32 {
    place.min(29_u32.saturating_sub(place))
}

/// How many cells of the grid of 30 by 30 lie between a cell and face 0. Cell 1 is in the first row and column, and ids
/// go on row by row.
fn from_border(cell: u32) -> u32 {
    let place = cell.saturating_sub(1);
    from_end(place / 30).min(from_end(place % 30))
}

/// How many moves lead from a cell of that grid to cell 437, which has 14 cells below it and 16 on its left: cell by
/// cell, or over face 0.
fn cell_moves(cell: u32) -> u32 {
    let place = cell.saturating_sub(1);
    let inside = (place / 30)
        .abs_diff(14)
        .saturating_add((place % 30).abs_diff(16));
    inside.min(
        from_border(cell)
            .saturating_add(from_border(437))
            .saturating_add(2),
    )
}

/// How many moves lead from a face of that grid to cell 437. Each seventh cell has one more face within a closed edge.
fn grid_moves(face: u32) -> u32 {
    match face {
        0 => from_border(437).saturating_add(1),
        1..=900 => cell_moves(face),
        _ => cell_moves(face.saturating_sub(900).saturating_mul(7)).saturating_add(1),
    }
}

/// The first of each seven faces of the grid that isn't so many moves from cell 437.
fn first_wrong<C: Ledger>(
    alloc: Global,
    bytes: &[u8],
    blank: Blank,
) -> Result<Option<u32>, AllocError>
    requires name { blank.name ≡ C.name }
    requires parts { blank.parts ≡ C.parts }
    requires some { 0 < blank.parts }
{
    let mut steps = Steps::<C>::new(alloc, blank);
    let Ok(file) = open(bytes, &mut steps) else {
        return Ok(Some(0));
    };
    let served = Served::of(&file);
    for part in 0..147_u32 {
        let face = part.saturating_mul(7);
        let moves = moves_between(alloc, served, IdNumber::from(face), 437, &mut steps)?;
        if moves != Some(grid_moves(face)) {
            return Ok(Some(face));
        }
    }
    Ok(None)
}

#[test]
fn moves_on_a_grid_go_by_rows_and_columns_or_round_it(rt: HostRuntime) -> Result<(), Fail> {
    let alloc = rt.alloc();
    let image = grid_image(alloc, 30)?;
    assert_eq!(rt; first_wrong::<Brand>(alloc, &image, Blank::new(1))?, None);
    Ok(())
}

/// The moves between two faces in holes, from face 0 to one, between the face with the holes and one, and to no face.
fn moves_over_holes<C: Ledger>(
    alloc: Global,
    bytes: &[u8],
    blank: Blank,
) -> Result<[Option<u32>; 4], AllocError>
    requires name { blank.name ≡ C.name }
    requires parts { blank.parts ≡ C.parts }
    requires some { 0 < blank.parts }
{
    let mut steps = Steps::<C>::new(alloc, blank);
    let Ok(file) = open(bytes, &mut steps) else {
        return Ok([None; 4]);
    };
    let served = Served::of(&file);
    let apart = moves_between(alloc, served, 2, 10_001, &mut steps)?;
    let from_outside = moves_between(alloc, served, 0, 5_000, &mut steps)?;
    let beside = moves_between(alloc, served, 10_001, 1, &mut steps)?;
    let unknown = moves_between(alloc, served, 1, 10_002, &mut steps)?;
    Ok([apart, from_outside, beside, unknown])
}

#[test]
fn ten_thousand_neighbours_are_one_move_away(rt: HostRuntime) -> Result<(), Fail> {
    let alloc = rt.alloc();
    let image = holes_image(alloc)?;
    assert_eq!(rt;
        moves_over_holes::<Brand>(alloc, &image, Blank::new(1))?,
        [Some(2), Some(2), Some(1), None]
    );
    Ok(())
}
