//! The walk along the rings of a face, from its beginning.

ghost use Rattle.std.specs.Prelude.{◌≡◌, ◌<◌, ◌≤◌, ◌+◌, ◌*◌, ◌==◌, ◌++◌, if◌then◌else◌, [], length, is_some, IfSome, MatchOption};
ghost use Rattle.plane_model.specs.Rotation.{is_face};
ghost use Rattle.plane_model.specs.Lists.{face_edges, shell, ring_if_some};
ghost use Rattle.pemb_file.specs.Served.{contents_of_view};
ghost use Rattle.file_laws.specs.MapOfFile.{face_at_place};
ghost use Rattle.navigate.specs.Bound.{served_map, most_words, line_digits};
ghost use Rattle.navigate.specs.OrbitWalk as orbits;
ghost use Rattle.navigate.specs.FaceWalk.{contents_in, rest, price, allowance};
ghost use Rattle.navigate.specs.FirstEdges.{edges_in};

use crate::face_rings::FaceWalk;
use crate::first_edges::FirstEdges;
use crate::names;
use crate::orbit_walk::OrbitWalk;
use crate::places::{components_below, components_to};
use crate::search::{begun_at_smallest, edges_from_smallest};
use bit_words::Steps;
use pemb_file::Served;
use std::sync::ledger::Ledger;
use topo_base::FaceId;

/// The walk along the rings of the face at a place: its shell from the smallest signed edge on, which face 0 has not,
/// and then the outer ring of each component in it.
pub fn rings_at<'a, C: Ledger>(
    served: Served<'a>,
    place: usize,
    steps: &mut Steps<C>,
) -> FaceWalk<'a>
    requires { place ≤ length (contents_of_view served).faces }
    ensures contents { contents_in result ≡ contents_of_view served.entry }
    ensures list { rest result ≡ face_edges (served_map served.entry)
        (face_at_place (contents_of_view served.entry) place) }
    ensures grows { steps.old ≤ steps.new }
    ensures cost { steps.new ≤ steps.old + (10 * line_digits (contents_of_view served.entry) + 24
        + orbits.rank_price (contents_of_view served.entry) * length (rest result)) }
{
    let hole = components_below(served, place, steps);
    let end = components_to(served, place, hole, steps);
    let ring = shell_walk(served, place, steps);
    FaceWalk::settled(served, ring, hole, end, steps)
}

/// The walk round the shell of the face at a place, from its smallest signed edge on: none for face 0.
fn shell_walk<'a, C: Ledger>(
    served: Served<'a>,
    place: usize,
    steps: &mut Steps<C>,
) -> OrbitWalk<'a>
    requires { place ≤ length (contents_of_view served).faces }
    ensures contents { orbits.contents_in result ≡ contents_of_view served.entry }
    ensures list { orbits.rest result ≡ (if face_at_place (contents_of_view served.entry) place == 0 then []
        else ring_if_some (served_map served.entry) (shell (served_map served.entry)
        (face_at_place (contents_of_view served.entry) place))) }
    ensures grows { steps.old ≤ steps.new }
    ensures cost { steps.new ≤ steps.old + (6 * line_digits (contents_of_view served.entry) + 24
        + orbits.rank_price (contents_of_view served.entry) * length (orbits.rest result)) }
{
    if place == 0 {
        return OrbitWalk::over(served);
    }
    let Some(p) = served.code().first_of_shell((place - 1) as u32, steps) else {
        unreachable!()
    };
    begun_at_smallest(served, false, p, steps)
}

/// The walk along the rings of a face: its shell from the smallest signed edge on, which face 0 has not, and then each
/// hole's ring, by the hole's smallest signed edge rising, each from that edge on. None where the map has no such face.
pub fn face_walk<'a, C: Ledger>(
    served: Served<'a>,
    face: FaceId,
    steps: &mut Steps<C>,
) -> Option<FaceWalk<'a>>
    ensures known { is_some result ≡ is_face (served_map served.entry) face.0 }
    ensures list { IfSome result (λ w. rest w ≡ face_edges (served_map served.entry) face.0) }
    ensures grows { steps.old ≤ steps.new }
    ensures paid { MatchOption result (steps.new ≤ steps.old + most_words (served_map served.entry) 0 0)
        (λ w. steps.new + allowance w ≤ steps.old + most_words (served_map served.entry) (length (rest w))
        (length (rest w))) }
{
    match names::place_of(served, face, steps) {
        Some(place) => Some(rings_at(served, place, steps)),
        None => None,
    }
}

/// Puts down the edges of the shell of the face at a place from its smallest signed edge on, where they are fewer than
/// there is room for, and gives the walk over the rest of them: over none then, and else over all. Face 0 has no shell.
fn shell_walk_begun<'a, C: Ledger>(
    served: Served<'a>,
    place: usize,
    edges: &mut FirstEdges,
    steps: &mut Steps<C>,
) -> OrbitWalk<'a>
    requires { place ≤ length (contents_of_view served).faces }
    ensures contents { orbits.contents_in result ≡ contents_of_view served.entry }
    ensures list { edges_in edges.new ++ orbits.rest result
        ≡ (if face_at_place (contents_of_view served.entry) place == 0 then []
        else ring_if_some (served_map served.entry) (shell (served_map served.entry)
        (face_at_place (contents_of_view served.entry) place))) }
    ensures least { steps.old + length (edges_in edges.new) ≤ steps.new }
    ensures paid { steps.new + orbits.allowance result
        ≤ steps.old + (6 * line_digits (contents_of_view served.entry) + 24
        + (orbits.rank_price (contents_of_view served.entry) + orbits.price (contents_of_view served.entry))
        * length (edges_in edges.new ++ orbits.rest result)) }
{
    if place == 0 {
        edges.clear();
        return OrbitWalk::over(served);
    }
    let Some(p) = served.code().first_of_shell((place - 1) as u32, steps) else {
        unreachable!()
    };
    edges_from_smallest(served, false, p, edges, steps)
}

/// Puts down the first signed edges of those along the rings of the face at a place, and gives the walk over the rest.
fn rings_begun<'a, C: Ledger>(
    served: Served<'a>,
    place: usize,
    edges: &mut FirstEdges,
    steps: &mut Steps<C>,
) -> FaceWalk<'a>
    requires { place ≤ length (contents_of_view served).faces }
    ensures contents { contents_in result ≡ contents_of_view served.entry }
    ensures list { edges_in edges.new ++ rest result ≡ face_edges (served_map served.entry)
        (face_at_place (contents_of_view served.entry) place) }
    ensures least { steps.old + length (edges_in edges.new) ≤ steps.new }
    ensures paid { steps.new + allowance result
        ≤ steps.old + (10 * line_digits (contents_of_view served.entry) + 26
        + (orbits.rank_price (contents_of_view served.entry) + price (contents_of_view served.entry))
        * length (edges_in edges.new ++ rest result)) }
{
    let hole = components_below(served, place, steps);
    let end = components_to(served, place, hole, steps);
    let ring = shell_walk_begun(served, place, edges, steps);
    FaceWalk::settled(served, ring, hole, end, steps)
}

/// The same as `face_walk`, with the first signed edges put down before all others: those of the shell, where they are
/// fewer than there is room for, and else none. The walk gives the rest. None are put down where the map has no such face.
pub fn face_walk_begun<'a, C: Ledger>(
    served: Served<'a>,
    face: FaceId,
    edges: &mut FirstEdges,
    steps: &mut Steps<C>,
) -> Option<FaceWalk<'a>>
    ensures known { is_some result ≡ is_face (served_map served.entry) face.0 }
    ensures list { MatchOption result (edges_in edges.new ≡ [])
        (λ w. edges_in edges.new ++ rest w ≡ face_edges (served_map served.entry) face.0) }
    ensures least { steps.old + length (edges_in edges.new) ≤ steps.new }
    ensures paid { MatchOption result (steps.new ≤ steps.old + most_words (served_map served.entry) 0 0)
        (λ w. steps.new + allowance w ≤ steps.old + most_words (served_map served.entry)
        (length (edges_in edges.new ++ rest w)) (length (edges_in edges.new ++ rest w))) }
{
    match names::place_of(served, face, steps) {
        Some(place) => Some(rings_begun(served, place, edges, steps)),
        None => {
            edges.clear();
            None
        }
    }
}
