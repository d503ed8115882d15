//! The shortest walk between two faces, from its beginning.

ghost use Rattle.std.specs.Prelude.{◌≡◌, ◌<◌, ◌≤◌, ◌+◌, ◌*◌, ◌&&◌, ◌↔◌, length, replicate, Some, IsTrue, IsFalse};
ghost use Rattle.plane_model.specs.Rotation.{is_face};
ghost use Rattle.plane_model.specs.Hops.{hops, distance};
ghost use Rattle.scratch_region.specs.Region.{words_left};
ghost use Rattle.scratch_region.specs.Numbers.{numbers_of};
ghost use Rattle.pemb_file.specs.Served.{contents_of_view};
ghost use Rattle.navigate.specs.Bound.{served_map, most_words};
ghost use Rattle.face_hops.specs.HopWalk.{rest, moves_of, is_begun, allowance};
ghost use Rattle.face_hops.specs.Prices.{most_hop_words};
ghost use Rattle.face_hops.specs.Found.{is_short, is_walk, IfShort, IfWalk, IfUnknown};

use crate::breadth::distances_from;
use crate::found::Found;
use crate::walk::HopWalk;
use bit_words::Steps;
use navigate::place_of;
use pemb_file::Served;
use scratch_region::{Numbers, Region, Short};
use std::sync::ledger::Ledger;
use topo_base::FaceId;

/// Two lists of so many zeros over the words of a region that has them.
fn two_lists<'r>(room: Region<'r>, count: usize) -> (Numbers<'r>, Numbers<'r>)
    requires { 2 * count ≤ words_left room }
    ensures first { numbers_of result.0 ≡ replicate count 0 }
    ensures second { numbers_of result.1 ≡ replicate count 0 }
{
    let Ok((first, room)) = room.carve_numbers(count) else {
        unreachable!()
    };
    let Ok((second, _room)) = room.carve_numbers(count) else {
        unreachable!()
    };
    (first, second)
}

/// The shortest walk from one face to another over two lists of zeros, one for each face and one for face 0 each.
fn walk_over<'a, 'r, C: Ledger>(
    served: Served<'a>,
    from: FaceId,
    to: FaceId,
    numbers: Numbers<'r>,
    queue: Numbers<'r>,
    steps: &mut Steps<C>,
) -> Found<'a, 'r>
    requires numbers { numbers_of numbers ≡ replicate (length (contents_of_view served).faces + 1) 0 }
    requires queue { numbers_of queue ≡ replicate (length (contents_of_view served).faces + 1) 0 }
    ensures room { IsFalse (is_short result) }
    ensures known { is_walk result ≡ (is_face (served_map served.entry) from.0
        && is_face (served_map served.entry) to.0) }
    ensures list { IfWalk result (λ w. rest w ≡ hops (served_map served.entry) from.0 to.0) }
    ensures moves { IfWalk result (λ w. distance (served_map served.entry) from.0 to.0 ≡ Some (moves_of w)) }
    ensures fresh { IfWalk result (λ w. IsFalse (is_begun w)) }
    ensures grows { steps.old ≤ steps.new }
    ensures paid { IfWalk result (λ w. steps.new + allowance w ≤ steps.old + most_hop_words (served_map served.entry)) }
    ensures unknown { IfUnknown result (steps.new ≤ steps.old + most_words (served_map served.entry) 0 0) }
{
    let Some(place) = place_of(served, from, steps) else {
        return Found::Unknown;
    };
    let Some(end) = place_of(served, to, steps) else {
        return Found::Unknown;
    };
    let distances = distances_from(served, end, numbers, queue, steps);
    Found::Walk(HopWalk::over(served, distances, place, end))
}

/// The shortest walk from one face to another, over lent words, two for each face and two for face 0: of the faces
/// beside one it takes the first that is one move nearer.
pub fn hop_walk<'a, 'r, C: Ledger>(
    served: Served<'a>,
    from: FaceId,
    to: FaceId,
    room: Region<'r>,
    steps: &mut Steps<C>,
) -> Found<'a, 'r>
    ensures short { IsTrue (is_short result)
        ↔ (words_left room.entry < 2 * (length (served_map served.entry).faces + 1)) }
    ensures need { IfShort result (λ short. short.need ≡ 2 * (length (served_map served.entry).faces + 1)) }
    ensures had { IfShort result (λ short. short.left ≡ words_left room.entry) }
    ensures kept { IfShort result (λ short. short.region ≡ room.entry) }
    ensures known { IsFalse (is_short result)
        → is_walk result ≡ (is_face (served_map served.entry) from.0 && is_face (served_map served.entry) to.0) }
    ensures list { IfWalk result (λ w. rest w ≡ hops (served_map served.entry) from.0 to.0) }
    ensures moves { IfWalk result (λ w. distance (served_map served.entry) from.0 to.0 ≡ Some (moves_of w)) }
    ensures fresh { IfWalk result (λ w. IsFalse (is_begun w)) }
    ensures grows { steps.old ≤ steps.new }
    ensures paid { IfWalk result (λ w. steps.new + allowance w ≤ steps.old + most_hop_words (served_map served.entry)) }
    ensures unknown { IfUnknown result (steps.new ≤ steps.old + most_words (served_map served.entry) 0 0) }
    ensures free { IfShort result (λ _. steps.new ≡ steps.old) }
{
    let count = served.faces().count() + 1;
    let left = room.left();
    if left < 2 * count {
        return Found::Short(Short {
            need: 2 * count,
            left,
            region: room,
        });
    }
    let (numbers, queue) = two_lists(room, count);
    walk_over(served, from, to, numbers, queue, steps)
}
