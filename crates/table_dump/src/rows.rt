//! The rows of an opened file by their places in the order of ids.

ghost use Rattle.std.specs.Prelude.{◌≡◌, ◌<◌, ◌≤◌, ◌+◌, ◌*◌, length, option_map, option_to_list, slice_index};
ghost use Rattle.scratch_region.specs.Numbers.{numbers_of};
ghost use Rattle.region_tree.specs.Nesting.{parent_number};
ghost use Rattle.file_laws.specs.MapOfFile.{face_at_place, place_of_face};
ghost use Rattle.pemb_file.specs.Served.{contents_of_view};
ghost use Rattle.navigate.specs.Bound.{line_digits};
ghost use Rattle.table_dump.specs.Places.{edge_at_rank, enclosing_face, face_with_zero, face_at_rank, members_at_rank, node_at_rank, region_at_rank};
ghost use Rattle.table_dump.specs.ByRank.{AreByRank};
ghost use Rattle.table_dump.specs.AtEnds.{AreEnds};

use crate::ends;
use crate::ends::end_at;
use bit_words::Steps;
use navigate::face_in;
use pemb_file::Served;
use plane_model::{EdgeRow, FaceRow, MemberRow, NodeRow, RegionRow};
use scratch_region::Numbers;
use std::sync::ledger::Ledger;
use topo_base::IdNumber;

/// The id of the face that contains the node of a number, where the node is isolated.
fn enclosing_face<C: Ledger>(
    served: Served<'_>,
    node: usize,
    steps: &mut Steps<C>,
) -> Option<IdNumber>
    requires { node < length (contents_of_view served).nodes }
    ensures face { result ≡ enclosing_face (contents_of_view served.entry) node }
    ensures grows { steps.old ≤ steps.new }
    ensures cost { steps.new ≤ steps.old + (3 * line_digits (contents_of_view served.entry) + 22) }
{
    let counts = served.counts();
    let joined = (counts.nodes - counts.isolated) as usize;
    if node < joined {
        return None;
    }
    let place = served.isolated(node - joined, steps) as usize;
    Some(face_in(served, place, steps).0)
}

/// The row of the node at a place, over the numbers of nodes by place.
pub(crate) fn node_row<C: Ledger>(
    served: Served<'_>,
    numbers: &Numbers<'_>,
    place: usize,
    steps: &mut Steps<C>,
) -> NodeRow
    requires within { place < length (contents_of_view served).nodes }
    requires numbers { AreByRank (contents_of_view served).nodes (numbers_of numbers.now) }
    ensures row { result ≡ node_at_rank (contents_of_view served.entry) place }
    ensures some_steps { steps.old + 1 ≤ steps.new }
    ensures cost { steps.new ≤ steps.old + (6 * line_digits (contents_of_view served.entry) + 40) }
{
    let number = numbers.get(place) as usize;
    NodeRow {
        id: served.nodes().id_at(place, steps),
        face: enclosing_face(served, number, steps),
    }
}

/// The row of the edge at a place, over the ends of edges.
pub(crate) fn edge_row<C: Ledger>(
    served: Served<'_>,
    ends: &Numbers<'_>,
    place: usize,
    steps: &mut Steps<C>,
) -> EdgeRow
    requires within { place < length (contents_of_view served).edges }
    requires ends { AreEnds (contents_of_view served) (numbers_of ends.now) }
    ensures row { result ≡ edge_at_rank (contents_of_view served.entry) place }
    ensures some_steps { steps.old + 1 ≤ steps.new }
    ensures cost { steps.new ≤ steps.old + (3 * line_digits (contents_of_view served.entry) + 18) }
{
    let forward = end_at(place, true);
    let backward = end_at(place, false);
    EdgeRow {
        id: served.edges().id_at(place, steps),
        start: ends::node_in(ends, forward),
        end: ends::node_in(ends, backward),
        next_left: ends::next_in(ends, forward),
        next_right: ends::next_in(ends, backward),
        left_face: ends::face_in(ends, forward),
        right_face: ends::face_in(ends, backward),
    }
}

/// The row of the face at a place, face 0 left out.
pub(crate) fn face_row<C: Ledger>(served: Served<'_>, place: usize, steps: &mut Steps<C>) -> FaceRow
    requires { place < length (contents_of_view served).faces }
    ensures row { result ≡ face_at_rank (contents_of_view served.entry) place }
    ensures some_steps { steps.old + 1 ≤ steps.new }
    ensures cost { steps.new ≤ steps.old + (3 * line_digits (contents_of_view served.entry) + 18) }
{
    FaceRow {
        id: served.faces().id_at(place, steps),
    }
}

/// The id of the region that the region of a number lies in, where it lies in one.
fn parent_id<C: Ledger>(served: Served<'_>, region: usize, steps: &mut Steps<C>) -> Option<IdNumber>
    requires { region < length (contents_of_view served).regions }
    ensures parent { result ≡ option_map (slice_index (contents_of_view served.entry).regions)
        (parent_number (contents_of_view served.entry).region_bits region) }
    ensures grows { steps.old ≤ steps.new }
    ensures cost { steps.new ≤ steps.old + (10 * line_digits (contents_of_view served.entry) + 81) }
{
    let regions = served.regions();
    match regions.parent(region, steps) {
        Some(parent) => Some(regions.id_of(parent, steps)),
        None => None,
    }
}

/// The row of the region at a place.
pub(crate) fn region_row<C: Ledger>(
    served: Served<'_>,
    place: usize,
    steps: &mut Steps<C>,
) -> RegionRow
    requires { place < length (contents_of_view served).regions }
    ensures row { result ≡ region_at_rank (contents_of_view served.entry) place }
    ensures some_steps { steps.old + 1 ≤ steps.new }
    ensures cost { steps.new ≤ steps.old + (17 * line_digits (contents_of_view served.entry) + 121) }
{
    let regions = served.regions();
    let number = regions.number_at(place, steps);
    RegionRow {
        id: regions.id_of(number, steps),
        parent: parent_id(served, number, steps),
    }
}

/// Where the face at a place stands by number, face 0 before all others: 0 for face 0, and else 1 + the number.
fn face_place(served: Served<'_>, numbers: &Numbers<'_>, place: usize) -> usize
    requires within { place ≤ length (contents_of_view served).faces }
    requires numbers { AreByRank (contents_of_view served).faces (numbers_of numbers.now) }
    ensures place { result ≡ place_of_face (contents_of_view served.entry)
        (face_with_zero (contents_of_view served.entry) place) }
    ensures face { face_at_place (contents_of_view served.entry) result
        ≡ face_with_zero (contents_of_view served.entry) place }
    ensures within { result ≤ length (contents_of_view served.entry).faces }
{
    let _served = served;
    if place == 0 {
        return 0;
    }
    numbers.get(place - 1) as usize + 1
}

/// The row that puts the face at a place into a region, face 0 before all others, over the numbers of faces by place.
/// None where it is in none.
pub(crate) fn member_row<C: Ledger>(
    served: Served<'_>,
    numbers: &Numbers<'_>,
    place: usize,
    steps: &mut Steps<C>,
) -> Option<MemberRow>
    requires within { place ≤ length (contents_of_view served).faces }
    requires numbers { AreByRank (contents_of_view served).faces (numbers_of numbers.now) }
    ensures rows { option_to_list result ≡ members_at_rank (contents_of_view served.entry) place }
    ensures some_steps { steps.old + 1 ≤ steps.new }
    ensures cost { steps.new ≤ steps.old + (6 * line_digits (contents_of_view served.entry) + 42) }
{
    let face_place = face_place(served, numbers, place);
    let regions = served.regions();
    match regions.of_face(face_place, steps) {
        Some(region) => Some(MemberRow {
            region: regions.id_of(region, steps),
            face: face_in(served, face_place, steps).0,
        }),
        None => None,
    }
}
