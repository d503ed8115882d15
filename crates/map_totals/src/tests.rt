//! The totals of small maps, from outside.

ghost use Rattle.std.specs.Prelude.{◌≡◌, ◌<◌};

use crate::maps::grid_image;
use crate::{Totals, totals};
use bit_words::Steps;
use image_words::{bytes_of, triangle};
use pemb_file::{Served, open};
use scratch_region::Region;
use std::alloc::Global;
use std::marker::Brand;
use std::sync::ledger::{Blank, Ledger};
use std::test::Fail;

/// The totals of a file twice, on one set of marks.
fn totals_twice<C: Ledger>(alloc: Global, bytes: &[u8], blank: Blank) -> Option<(Totals, Totals)>
    requires name { blank.name ≡ C.name }
    requires parts { blank.parts ≡ C.parts }
    requires some { 0 < blank.parts }
{
    let mut steps = Steps::<C>::new(alloc, blank);
    let file = open(bytes, &mut steps).ok()?;
    let served = Served::of(&file);
    let mut lent = [u64::MAX; 32];
    let Ok((mut marks, _left)) = Region::new(&mut lent).carve(32) else {
        return None;
    };
    if served.faces().count() >= marks.room() {
        return None;
    }
    let first = totals(served, &mut marks, &mut steps);
    let second = totals(served, &mut marks, &mut steps);
    Some((first, second))
}

#[test]
fn a_triangle_has_six_ends_and_two_neighbours(rt: HostRuntime) -> Result<(), Fail> {
    let alloc = rt.alloc();
    let bytes = bytes_of(alloc, &triangle())?;
    let want = Totals {
        face: 6,
        node: 6,
        adjacent: 2,
    };
    assert_eq!(rt;
        totals_twice::<Brand>(alloc, &bytes, Blank::new(1)),
        Some((want, want))
    );
    Ok(())
}

#[test]
fn small_grids_have_the_totals_worked_by_hand(rt: HostRuntime) -> Result<(), Fail> {
    let alloc = rt.alloc();
    let image = grid_image(alloc, 1)?;
    let want = Totals {
        face: 8,
        node: 8,
        adjacent: 2,
    };
    assert_eq!(rt;
        totals_twice::<Brand>(alloc, &image, Blank::new(1)),
        Some((want, want))
    );
    let image = grid_image(alloc, 4)?;
    let want = Totals {
        face: 84,
        node: 84,
        adjacent: 76,
    };
    assert_eq!(rt;
        totals_twice::<Brand>(alloc, &image, Blank::new(1)),
        Some((want, want))
    );
    Ok(())
}

/// Each of the 2 · 30 · 31 + ⌊900 / 7⌋ edges has two sides and two ends. Each of the 30 · 29 edges between two cells in
/// one direction parts two faces, the 4 · 30 outer ones have 4 · 30 - 4 cells beside them, and each closed edge parts
/// two.
#[test]
fn a_grid_has_the_totals_of_its_size(rt: HostRuntime) -> Result<(), Fail> {
    let alloc = rt.alloc();
    let image = grid_image(alloc, 30)?;
    let want = Totals {
        face: 2 * (2 * 30 * 31 + 128),
        node: 2 * (2 * 30 * 31 + 128),
        adjacent: 4 * 30 * 29 + 2 * (4 * 30 - 4) + 2 * 128,
    };
    assert_eq!(rt;
        totals_twice::<Brand>(alloc, &image, Blank::new(1)),
        Some((want, want))
    );
    Ok(())
}
