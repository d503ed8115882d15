//! The rings of a rotation.

ghost use Rattle.std.specs.Prelude.{◌≡◌, ◌*◌, ◌<◌, IfOk, length};
ghost use Rattle.plane_model.specs.PlaneMap.{ring, rings};
ghost use Rattle.rotation_check.specs.Darts.{map_of_rotation, signed_edge};
ghost use Rattle.euler_check.specs.Marks.{DartsGetNumber, FirstAreNumbered};
ghost use Rattle.euler_check.specs.Numbers.{ArePartNumbers};

use crate::marks::DartNumbers;
use crate::numbering::PartNumbering;
use rotation_check::Rotation;
use std::alloc::{AllocError, Global};

/// Gives the darts of a ring a number.
fn mark_ring(rotation: &Rotation, first: u32, number: u32, numbers: &mut DartNumbers)
    requires size { length numbers.old ≡ 2 * length rotation.now.edges }
    requires first { first < 2 * length rotation.now.edges }
    requires fits { number < 4294967295 }
    ensures { DartsGetNumber rotation.now.edges (ring (map_of_rotation rotation.now)
        (signed_edge rotation.now.edges first)) number numbers.old numbers.new }
{
    let mut dart = first;
    for _ in 0..2 * rotation.edges() {
        numbers.set(dart, number);
        dart = rotation.next(dart);
        if dart == first {
            break;
        }
    }
}

/// Numbers the rings, from 0 by the first dart that belongs to each.
pub fn number_rings(alloc: Global, rotation: &Rotation) -> Result<PartNumbering, AllocError>
    ensures numbers { IfOk result (λ numbering. ArePartNumbers rotation.now.edges
        (ring (map_of_rotation rotation.now)) numbering) }
    ensures count { IfOk result (λ numbering. numbering.count ≡ length (rings (map_of_rotation rotation.now))) }
{
    let darts = 2 * rotation.edges();
    let mut numbers = DartNumbers::none(alloc, darts)?;
    let mut count = 0;
    for dart in 0..darts {
        if !numbers.has(dart) {
            mark_ring(rotation, dart, count, &mut numbers);
            count += 1;
        }
    }
    Ok(PartNumbering::new(count, numbers.or_zero()))
}
