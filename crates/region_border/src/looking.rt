//! Border edges: whether a signed edge is one, and which comes next.

ghost use Rattle.std.specs.Prelude.{◌≡◌, ◌<◌, ◌≤◌, ◌+◌, ◌*◌, IsTrue, length, slice_index};
ghost use Rattle.topo_base.specs.SignedEdge as signed;
ghost use Rattle.plane_model.specs.PlaneMap.{next};
ghost use Rattle.plane_model.specs.Rotation.{is_face};
ghost use Rattle.plane_model.specs.Answers.{has_signed_edge};
ghost use Rattle.plane_model.specs.Border as borders;
ghost use Rattle.pemb_file.specs.Served.{contents_of_view};
ghost use Rattle.navigate.specs.Bound.{served_map};
ghost use Rattle.region_border.specs.Looked.{looked};
ghost use Rattle.region_border.specs.Prices.{inside_price, border_price, next_price, look_price};

use bit_words::Steps;
use navigate::{next as next_edge, place_of, sides};
use pemb_file::Served;
use std::sync::ledger::Ledger;
use topo_base::{FaceId, Signed};

/// Whether a face of the map is in the region of a number, or in one within it: exactly where that region is the
/// innermost that is or encloses both it and the face's own.
fn is_inside<C: Ledger>(
    served: Served<'_>,
    region: usize,
    face: FaceId,
    steps: &mut Steps<C>,
) -> bool
    requires region { region < length (contents_of_view served).regions }
    requires face { IsTrue (is_face (served_map served) face.0) }
    ensures inside { result ≡ borders.is_inside (served_map served.entry)
        (slice_index (contents_of_view served.entry).regions region) face.0 }
    ensures grows { steps.old ≤ steps.new }
    ensures cost { steps.new ≤ steps.old + inside_price (contents_of_view served.entry) }
{
    let Some(place) = place_of(served, face, steps) else {
        unreachable!()
    };
    let regions = served.regions();
    let Some(own) = regions.of_face(place, steps) else {
        return false;
    };
    match regions.common(region, own, steps) {
        Some(round) => round == region,
        None => false,
    }
}

/// Whether the face on the left of a signed edge of the map is inside the region, and that on its right is not.
pub(crate) fn is_border<C: Ledger>(
    served: Served<'_>,
    region: usize,
    edge: Signed,
    steps: &mut Steps<C>,
) -> bool
    requires region { region < length (contents_of_view served).regions }
    requires edge { IsTrue (has_signed_edge (served_map served) edge) }
    ensures border { result ≡ borders.is_border (served_map served.entry)
        (slice_index (contents_of_view served.entry).regions region) edge }
    ensures grows { steps.old ≤ steps.new }
    ensures cost { steps.new ≤ steps.old + border_price (contents_of_view served.entry) }
{
    let Some((left, right)) = sides(served, edge, steps) else {
        unreachable!()
    };
    if !is_inside(served, region, left, steps) {
        return false;
    }
    !is_inside(served, region, right, steps)
}

/// The signed edge that follows one of the map on its ring.
fn next_after<C: Ledger>(served: Served<'_>, edge: Signed, steps: &mut Steps<C>) -> Signed
    requires { IsTrue (has_signed_edge (served_map served) edge) }
    ensures next { result ≡ next (served_map served.entry) edge }
    ensures known { IsTrue (has_signed_edge (served_map served.entry) result) }
    ensures some_steps { steps.old + 1 ≤ steps.new }
    ensures cost { steps.new ≤ steps.old + next_price (contents_of_view served.entry) }
{
    let Some(next) = next_edge(served, edge, steps) else {
        unreachable!()
    };
    next
}

/// The signed edge that follows one of the map on the outline of the region: the first border edge from the next one
/// on, turning round the node.
pub(crate) fn outline_of<C: Ledger>(
    served: Served<'_>,
    region: usize,
    edge: Signed,
    steps: &mut Steps<C>,
) -> Signed
    requires region { region < length (contents_of_view served).regions }
    requires edge { IsTrue (has_signed_edge (served_map served) edge) }
    ensures outline { result ≡ borders.outline (served_map served.entry)
        (slice_index (contents_of_view served.entry).regions region) edge }
    ensures known { IsTrue (has_signed_edge (served_map served.entry) result) }
    ensures some_steps { steps.old + 1 ≤ steps.new }
    ensures cost { steps.new ≤ steps.old + look_price (contents_of_view served.entry)
        * length (looked (served_map served.entry) (slice_index (contents_of_view served.entry).regions region) edge) }
{
    let mut at = next_after(served, edge, steps);
    for _ in 0..served.code().len() {
        if is_border(served, region, at, steps) {
            return at;
        }
        at = next_after(served, at.reverse(), steps);
    }
    at
}
