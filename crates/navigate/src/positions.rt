//! Positions of the code: the signed edge of each, and the steps between them.

ghost use Rattle.std.specs.Prelude.{ℕ, ◌≡◌, ◌<◌, ◌≤◌, ◌+◌, ◌*◌, length, is_some, IfSome, if◌then◌else◌};
ghost use Rattle.code_laws.specs.Code.{is_first, mate, step};
ghost use Rattle.code_laws.specs.Numbers.{edge_of, ring_of};
ghost use Rattle.plane_model.specs.Answers.{has_signed_edge};
ghost use Rattle.file_laws.specs.MapOfFile.{signed_at, place_of_ring};
ghost use Rattle.pemb_file.specs.Served.{contents_of_view};
ghost use Rattle.navigate.specs.Beside.{place_across, IsSomeRing};
ghost use Rattle.navigate.specs.Bound.{line_digits, served_map};

use crate::directed::with_direction;
use bit_words::Steps;
use code_laws::RingNumber;
use pemb_file::Served;
use std::sync::ledger::Ledger;
use topo_base::Signed;

/// The next position of the orbit of `p`: round its node, or round its ring.
pub fn step_from<C: Ledger>(served: Served<'_>, kind: bool, p: usize, steps: &mut Steps<C>) -> usize
    requires { p < length (contents_of_view served).code.a }
    ensures step { result ≡ step (contents_of_view served.entry).code kind p }
    ensures within { result < length (contents_of_view served.entry).code.a }
    ensures some_steps { steps.old + 1 ≤ steps.new }
    ensures cost { steps.new ≤ steps.old + (8 * line_digits (contents_of_view served.entry) + 64) }
{
    let code = served.code();
    if kind {
        code.turn(p, steps)
    } else {
        code.next(p, steps)
    }
}

/// The position of the same edge the other way.
pub fn mate_of<C: Ledger>(served: Served<'_>, p: usize, steps: &mut Steps<C>) -> usize
    requires { p < length (contents_of_view served).code.a }
    ensures mate { result ≡ mate (contents_of_view served.entry).code p }
    ensures within { result < length (contents_of_view served.entry).code.a }
    ensures some_steps { steps.old + 1 ≤ steps.new }
    ensures cost { steps.new ≤ steps.old + (7 * line_digits (contents_of_view served.entry) + 61) }
{
    served.code().mate(p, steps)
}

/// The signed edge of the edge of a number: that of its first position, or that of the other one.
pub(crate) fn edge_with<C: Ledger>(
    served: Served<'_>,
    number: usize,
    first: bool,
    steps: &mut Steps<C>,
) -> Signed
    requires { number < length (contents_of_view served).edges }
    ensures edge { (p : ℕ) → number ≡ edge_of (contents_of_view served.entry).code p
        → first ≡ is_first (contents_of_view served.entry).code p
        → result ≡ signed_at (contents_of_view served.entry) p }
    ensures some_steps { steps.old + 1 ≤ steps.new }
    ensures cost { steps.new ≤ steps.old + (3 * line_digits (contents_of_view served.entry) + 21) }
{
    let forward = served.forward(number, steps);
    let edges = served.edges();
    let _count = edges.count();
    let id = edges.id_of(number, steps);
    with_direction(id, first == forward)
}

/// The signed edge of a position.
pub fn edge_at<C: Ledger>(served: Served<'_>, p: usize, steps: &mut Steps<C>) -> Signed
    requires { p < length (contents_of_view served).code.a }
    ensures edge { result ≡ signed_at (contents_of_view served.entry) p }
    ensures some_steps { steps.old + 1 ≤ steps.new }
    ensures cost { steps.new ≤ steps.old + (7 * line_digits (contents_of_view served.entry) + 82) }
{
    let code = served.code();
    let (number, is_first) = code.edge_and_side(p, steps);
    edge_with(served, number as usize, is_first, steps)
}

/// The first position of a signed edge's edge, and whether it is the signed edge's own. None where the map lacks the
/// edge.
pub fn first_position<C: Ledger>(
    served: Served<'_>,
    edge: Signed,
    steps: &mut Steps<C>,
) -> Option<(usize, bool)>
    ensures known { is_some result ≡ has_signed_edge (served_map served.entry) edge }
    ensures within { IfSome result (λ found. found.0 < length (contents_of_view served.entry).code.a) }
    ensures edge { IfSome result (λ found. signed_at (contents_of_view served.entry)
        (if found.1 then found.0 else mate (contents_of_view served.entry).code found.0) ≡ edge) }
    ensures grows { steps.old ≤ steps.new }
    ensures least { IfSome result (λ _. steps.old + 1 ≤ steps.new) }
    ensures cost { steps.new ≤ steps.old + (18 * line_digits (contents_of_view served.entry) + 85) }
{
    let code = served.code();
    let Some(number) = served.edges().number_of(edge.edge().0, steps) else {
        return None;
    };
    let Some(first) = code.first_of_edge(number as u32, steps) else {
        unreachable!()
    };
    let forward = served.forward(number, steps);
    Some((first, forward == edge.is_forward()))
}

/// The position of a signed edge, or None where the map lacks its edge.
pub fn position_of<C: Ledger>(
    served: Served<'_>,
    edge: Signed,
    steps: &mut Steps<C>,
) -> Option<usize>
    ensures known { is_some result ≡ has_signed_edge (served_map served.entry) edge }
    ensures within { IfSome result (λ p. p < length (contents_of_view served.entry).code.a) }
    ensures edge { IfSome result (λ p. signed_at (contents_of_view served.entry) p ≡ edge) }
    ensures grows { steps.old ≤ steps.new }
    ensures least { IfSome result (λ _. steps.old + 1 ≤ steps.new) }
    ensures cost { steps.new ≤ steps.old + (25 * line_digits (contents_of_view served.entry) + 146) }
{
    match first_position(served, edge, steps) {
        Some((first, true)) => Some(first),
        Some((first, false)) => Some(mate_of(served, first, steps)),
        None => None,
    }
}

/// The place of a ring: 0 for one of face 0, and else 1 + the number of its face.
pub(crate) fn place_of_ring<C: Ledger>(
    served: Served<'_>,
    ring: RingNumber,
    steps: &mut Steps<C>,
) -> usize
    requires { IsSomeRing (contents_of_view served) ring }
    ensures place { result ≡ place_of_ring (contents_of_view served.entry) ring }
    ensures within { result ≤ length (contents_of_view served.entry).faces }
    ensures grows { steps.old ≤ steps.new }
    ensures cost { steps.new ≤ steps.old + 1 }
{
    match ring {
        RingNumber::Outer(component) => served.place(component as usize, steps) as usize,
        RingNumber::Shell(shell) => shell as usize + 1,
    }
}

/// The place of the face on the left of a position: 0 for face 0, and else 1 + the number of the face.
pub fn place_beside<C: Ledger>(served: Served<'_>, p: usize, steps: &mut Steps<C>) -> usize
    requires { p < length (contents_of_view served).code.a }
    ensures place { result ≡ place_of_ring (contents_of_view served.entry)
        (ring_of (contents_of_view served.entry).code p) }
    ensures within { result ≤ length (contents_of_view served.entry).faces }
    ensures some_steps { steps.old + 1 ≤ steps.new }
    ensures cost { steps.new ≤ steps.old + (5 * line_digits (contents_of_view served.entry) + 60) }
{
    let ring = served.code().ring_of(p, steps);
    place_of_ring(served, ring, steps)
}

/// The place of the face across the edge at a position, which may be in this component: that of the face on the left of
/// its mate.
pub fn place_across<C: Ledger>(
    served: Served<'_>,
    p: usize,
    component: usize,
    steps: &mut Steps<C>,
) -> usize
    requires { p < length (contents_of_view served).code.a }
    ensures place { result ≡ place_across (contents_of_view served.entry) p }
    ensures within { result ≤ length (contents_of_view served.entry).faces }
    ensures some_steps { steps.old + 1 ≤ steps.new }
    ensures cost { steps.new ≤ steps.old + (12 * line_digits (contents_of_view served.entry) + 121) }
{
    let ring = served.code().ring_across(p, component, steps);
    place_of_ring(served, ring, steps)
}
