//! The regions of faces: the walk up from a face's own region, and the first region that two faces share.

ghost use Rattle.std.specs.Prelude.{◌≡◌, ◌≤◌, ◌+◌, ◌*◌, ◌&&◌, length, is_some, option_map, option_to_list, IfSome, IsSome, IsNone, MatchOption};
ghost use Rattle.plane_model.specs.Rotation.{is_face};
ghost use Rattle.plane_model.specs.Regions.{chain, common as common_region};
ghost use Rattle.file_laws.specs.MapOfFile.{face_at_place};
ghost use Rattle.pemb_file.specs.Served.{contents_of_view};
ghost use Rattle.navigate.specs.Bound.{served_map, most_words, line_digits};
ghost use Rattle.navigate.specs.RegionWalk.{rest, allowance};

use crate::names;
use crate::upward::RegionWalk;
use bit_words::Steps;
use pemb_file::Served;
use std::sync::ledger::Ledger;
use topo_base::{FaceId, RegionId};

/// The walk from the region of a face to its parent, and so on. None where the map has no such face.
pub fn region_walk<'a, C: Ledger>(
    served: Served<'a>,
    face: FaceId,
    steps: &mut Steps<C>,
) -> Option<RegionWalk<'a>>
    ensures known { is_some result ≡ is_face (served_map served.entry) face.0 }
    ensures list { IfSome result (λ w. rest w ≡ chain (served_map served.entry) face.0) }
    ensures grows { steps.old ≤ steps.new }
    ensures paid { MatchOption result (steps.new ≤ steps.old + most_words (served_map served.entry) 0 0)
        (λ w. steps.new + allowance w ≤ steps.old + most_words (served_map served.entry) 0 (length (rest w))) }
{
    let place = names::place_of(served, face, steps)?;
    let regions = served.regions();
    let region = regions.of_face(place, steps);
    Some(RegionWalk::from(served, region))
}

/// The first region of the face at the one place, going up, that is also one of the face at the other.
fn common_at<C: Ledger>(
    served: Served<'_>,
    first: usize,
    second: usize,
    steps: &mut Steps<C>,
) -> Option<RegionId>
    requires first { first ≤ length (contents_of_view served).faces }
    requires second { second ≤ length (contents_of_view served).faces }
    ensures region { option_map (λ r. r.0) result
        ≡ common_region (served_map served.entry) (face_at_place (contents_of_view served.entry) first)
        (face_at_place (contents_of_view served.entry) second) }
    ensures some_steps { steps.old + 1 ≤ steps.new }
    ensures cost { steps.new ≤ steps.old + (21 * line_digits (contents_of_view served.entry) + 154) }
{
    let regions = served.regions();
    let one = regions.of_face(first, steps)?;
    let other = regions.of_face(second, steps)?;
    let round = regions.common(one, other, steps)?;
    Some(RegionId(regions.id_of(round, steps)))
}

/// The first region of the one face, going up, that is also one of the other. The outer None where the map lacks one of
/// the faces.
pub fn common<C: Ledger>(
    served: Served<'_>,
    first: FaceId,
    second: FaceId,
    steps: &mut Steps<C>,
) -> Option<Option<RegionId>>
    ensures known { is_some result ≡ (is_face (served_map served.entry) first.0
        && is_face (served_map served.entry) second.0) }
    ensures region { IfSome result (λ region. option_map (λ r. r.0) region
        ≡ common_region (served_map served.entry) first.0 second.0) }
    ensures grows { steps.old ≤ steps.new }
    ensures least { IfSome result (λ region. IsSome region → steps.old + 1 ≤ steps.new) }
    ensures paid { MatchOption result (steps.new ≤ steps.old + most_words (served_map served.entry) 0 0)
        (λ region. steps.new ≤ steps.old + most_words (served_map served.entry) 0 (length (option_to_list region))) }
{
    let first_place = names::place_of(served, first, steps)?;
    let second_place = names::place_of(served, second, steps)?;
    Some(common_at(served, first_place, second_place, steps))
}
