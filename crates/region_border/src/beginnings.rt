//! Where rings of an outline begin: the signed edges in their order, and the first border edge without a mark.

ghost use Rattle.std.specs.Prelude.{ℕ, ◌≡◌, ◌<◌, ◌≤◌, ◌+◌, ◌-◌, ◌*◌, ◌/◌, ◌%◌, ◌==◌, ◌&&◌, not, false, IsTrue, IsNone, IfSome, if◌then◌else◌, length, slice_index};
ghost use Rattle.topo_base.specs.SignedEdge.{edge_of, is_forward};
ghost use Rattle.plane_model.specs.Answers.{has_signed_edge};
ghost use Rattle.plane_model.specs.Border as borders;
ghost use Rattle.scratch_region.specs.Marks.{room_of, is_marked};
ghost use Rattle.pemb_file.specs.Served.{contents_of_view};
ghost use Rattle.navigate.specs.Bound.{served_map};
ghost use Rattle.region_border.specs.Numbered.{signed_number, mark_of, is_fresh_border};
ghost use Rattle.region_border.specs.Prices.{scan_price, find_price, mark_price};

use crate::looking::is_border;
use bit_words::Steps;
use navigate::with_direction;
use pemb_file::Served;
use scratch_region::Marks;
use std::sync::ledger::Ledger;
use topo_base::Signed;

/// The number among the marks of a signed edge whose edge has a number.
fn mark_with(number: usize, edge: Signed) -> usize
    requires { number < 16777216 }
    ensures { result ≡ (if is_forward edge then 2 * number else 2 * number + 1) }
{
    if edge.is_forward() {
        2 * number
    } else {
        2 * number + 1
    }
}

/// The number among the marks of a signed edge of the map.
pub(crate) fn mark_number<C: Ledger>(
    served: Served<'_>,
    edge: Signed,
    steps: &mut Steps<C>,
) -> usize
    requires { IsTrue (has_signed_edge (served_map served) edge) }
    ensures number { result ≡ mark_of (contents_of_view served.entry) edge }
    ensures within { result < 2 * length (contents_of_view served.entry).edges }
    ensures grows { steps.old ≤ steps.new }
    ensures cost { steps.new ≤ steps.old + mark_price (contents_of_view served.entry) }
{
    let edges = served.edges();
    let _count = edges.count();
    let Some(number) = edges.number_of(edge.edge().0, steps) else {
        unreachable!()
    };
    mark_with(number, edge)
}

/// A signed edge by its place among all in their order, and the number of its edge.
fn signed_edge_at<C: Ledger>(
    served: Served<'_>,
    place: usize,
    steps: &mut Steps<C>,
) -> (usize, Signed)
    requires { place < 2 * length (contents_of_view served).edges }
    ensures edge { result.1 ≡ signed_number (contents_of_view served.entry) place }
    ensures known { IsTrue (has_signed_edge (served_map served.entry) result.1) }
    ensures within { result.0 < length (contents_of_view served.entry).edges }
    ensures named { slice_index (contents_of_view served.entry).edges result.0 ≡ edge_of result.1 }
    ensures grows { steps.old ≤ steps.new }
    ensures cost { steps.new ≤ steps.old + find_price (contents_of_view served.entry) }
{
    let edges = served.edges();
    let _count = edges.count();
    let number = edges.number_at(place / 2, steps);
    let id = edges.id_of(number, steps);
    (number, with_direction(id, place % 2 == 0))
}

/// Whether the signed edge at a place of all is a border edge without a mark. None where it is not.
fn fresh_at<C: Ledger>(
    served: Served<'_>,
    region: usize,
    place: usize,
    marks: &Marks<'_>,
    steps: &mut Steps<C>,
) -> Option<Signed>
    requires region { region < length (contents_of_view served).regions }
    requires place { place < 2 * length (contents_of_view served).edges }
    requires room { 2 * length (contents_of_view served).edges ≤ room_of marks.now }
    ensures none { IsNone result → is_fresh_border (contents_of_view served.entry) region (is_marked marks.now) place
        ≡ false }
    ensures some { IfSome result (λ d. d ≡ signed_number (contents_of_view served.entry) place) }
    ensures known { IfSome result (λ d. IsTrue (has_signed_edge (served_map served.entry) d)) }
    ensures fresh { IfSome result (λ _. IsTrue (is_fresh_border (contents_of_view served.entry) region
        (is_marked marks.now) place)) }
    ensures grows { steps.old ≤ steps.new }
    ensures cost { steps.new ≤ steps.old + scan_price (contents_of_view served.entry) }
{
    let (number, edge) = signed_edge_at(served, place, steps);
    if marks.has(mark_with(number, edge)) {
        return None;
    }
    if is_border(served, region, edge, steps) {
        Some(edge)
    } else {
        None
    }
}

/// The first border edge without a mark, from a place of all signed edges on, with its place.
pub(crate) fn first_unmarked<C: Ledger>(
    served: Served<'_>,
    region: usize,
    from: usize,
    marks: &Marks<'_>,
    steps: &mut Steps<C>,
) -> Option<(usize, Signed)>
    requires region { region < length (contents_of_view served).regions }
    requires from { from ≤ 2 * length (contents_of_view served).edges }
    requires room { 2 * length (contents_of_view served).edges ≤ room_of marks.now }
    ensures none { IsNone result → (k : ℕ) → from ≤ k → k < 2 * length (contents_of_view served.entry).edges
        → is_fresh_border (contents_of_view served.entry) region (is_marked marks.now) k ≡ false }
    ensures within { IfSome result (λ found. (from ≤ found.0) × (found.0
        < 2 * length (contents_of_view served.entry).edges)) }
    ensures edge { IfSome result (λ found. found.1 ≡ signed_number (contents_of_view served.entry) found.0) }
    ensures known { IfSome result (λ found. IsTrue (has_signed_edge (served_map served.entry) found.1)) }
    ensures fresh { IfSome result (λ found. IsTrue (is_fresh_border (contents_of_view served.entry) region
        (is_marked marks.now) found.0)) }
    ensures passed { IfSome result (λ found. (k : ℕ) → from ≤ k → k < found.0
        → is_fresh_border (contents_of_view served.entry) region (is_marked marks.now) k ≡ false) }
    ensures grows { steps.old ≤ steps.new }
    ensures cost { IfSome result (λ found. steps.new ≤ steps.old + scan_price (contents_of_view served.entry)
        * (found.0 + 1 - from)) }
    ensures cost_none { IsNone result → steps.new ≤ steps.old + scan_price (contents_of_view served.entry)
        * (2 * length (contents_of_view served.entry).edges - from) }
{
    let end = served.code().len();
    for place in from..end {
        if let Some(edge) = fresh_at(served, region, place, marks, steps) {
            return Some((place, edge));
        }
    }
    None
}
