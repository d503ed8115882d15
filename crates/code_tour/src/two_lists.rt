//! Two lists over one region.

ghost use Rattle.std.specs.Prelude.{◌≡◌, ◌≤◌, ◌+◌, length};
ghost use Rattle.scratch_region.specs.Numbers.{numbers_of};
ghost use Rattle.scratch_region.specs.Region.{words_left};

use scratch_region::{Numbers, Region};

/// Two lists of so many zeros over the words of a region that has them.
pub(crate) fn two_lists<'r>(
    room: Region<'r>,
    first: usize,
    second: usize,
) -> (Numbers<'r>, Numbers<'r>)
    requires { first + second ≤ words_left room }
    ensures first { length (numbers_of result.0) ≡ first }
    ensures second { length (numbers_of result.1) ≡ second }
{
    let Ok((one, room)) = room.carve_numbers(first) else {
        unreachable!()
    };
    let Ok((other, _room)) = room.carve_numbers(second) else {
        unreachable!()
    };
    (one, other)
}
