//! The walk to the faces across the edges of a face, from its beginning.

ghost use Rattle.std.specs.Prelude.{ℕ, List, true, ◌≡◌, ◌<◌, ◌≤◌, ◌+◌, ◌*◌, ◌==◌, ◌++◌, if◌then◌else◌, [], map, drop, take, length, is_some, IfSome, MatchOption};
ghost use Rattle.plane_model.specs.Sets.{has, first_occurrences, first_occurrences_but};
ghost use Rattle.scratch_region.specs.Marks.{room_of, is_marked, IsEmpty};
ghost use Rattle.file_laws.specs.MapOfFile.{face_at_place};
ghost use Rattle.plane_model.specs.Rotation.{is_face};
ghost use Rattle.plane_model.specs.Lists.{face_edges, adjacent, shell, ring_if_some};
ghost use Rattle.pemb_file.specs.Served.{contents_of_view};
ghost use Rattle.navigate.specs.Bound.{served_map, most_words, line_digits, line_words};
ghost use Rattle.navigate.specs.Beside.{place_across, others};
ghost use Rattle.navigate.specs.Holes.{components_between, outer_positions};
ghost use Rattle.navigate.specs.OrbitWalk as orbits;
ghost use Rattle.navigate.specs.FaceWalk as rings;
ghost use Rattle.navigate.specs.AdjacentWalk.{contents_in, given, given_places, rest, allowance, HoldsGiven};
ghost use Rattle.navigate.specs.declared.first_edges.TheConstants.{FIRST};

use crate::across::AdjacentWalk;
use crate::face_rings::FaceWalk;
use crate::faces::rings_at;
use crate::first_faces::FirstFaces;
use crate::names;
use crate::orbit_walk::OrbitWalk;
use crate::places::{components_below, components_to};
use crate::search::{Places, places_from_smallest};
use crate::unseen::{is_known, to_other, to_unseen};
use bit_words::Steps;
use pemb_file::Served;
use scratch_region::Marks;
use std::sync::ledger::Ledger;
use topo_base::FaceId;

/// The walk to the faces across the edges of a face, each where it comes first, without the face itself. None where the
/// map has no such face.
pub fn adjacent_walk<'a, C: Ledger>(
    served: Served<'a>,
    face: FaceId,
    steps: &mut Steps<C>,
) -> Option<AdjacentWalk<'a>>
    ensures known { is_some result ≡ is_face (served_map served.entry) face.0 }
    ensures contents { IfSome result (λ w. contents_in w ≡ contents_of_view served.entry) }
    ensures given { IfSome result (λ w. given w ≡ []) }
    ensures places { IfSome result (λ w. given_places w ≡ []) }
    ensures list { IfSome result (λ w. rest w ≡ adjacent (served_map served.entry) face.0) }
    ensures grows { steps.old ≤ steps.new }
    ensures paid { MatchOption result (steps.new ≤ steps.old + most_words (served_map served.entry) 0 0)
        (λ w. steps.new + allowance w ≤ steps.old + most_words (served_map served.entry)
        (length (face_edges (served_map served.entry) face.0)) (length (rest w))) }
{
    let Some(place) = names::place_of(served, face, steps) else {
        return None;
    };
    let whole = rings_at(served, place, steps);
    let mut left = whole;
    let next = to_other(&mut left, place, steps);
    Some(AdjacentWalk::standing(place, whole, left, next))
}

/// Puts down the places of the faces across the edges of the shell of the face at a place, as `places_from_smallest` does,
/// and gives the walk round it and how many of them stand before that of its smallest signed edge. Face 0 has no shell.
fn shell_places<'a, C: Ledger>(
    served: Served<'a>,
    place: usize,
    places: &mut Places,
    steps: &mut Steps<C>,
) -> (OrbitWalk<'a>, usize)
    requires { place ≤ length (contents_of_view served).faces }
    ensures contents { orbits.contents_in result.0 ≡ contents_of_view served.entry }
    ensures list { orbits.rest result.0 ≡ (if face_at_place (contents_of_view served.entry) place == 0 then []
        else ring_if_some (served_map served.entry) (shell (served_map served.entry)
        (face_at_place (contents_of_view served.entry) place))) }
    ensures before { result.1 ≤ length places.new.items }
    ensures places { 0 < length places.new.items → drop result.1 places.new.items ++ take result.1 places.new.items
        ≡ map (place_across (contents_of_view served.entry)) (orbits.positions_left result.0) }
    ensures least { steps.old + length places.new.items ≤ steps.new }
    ensures cost { steps.new ≤ steps.old + (6 * line_digits (contents_of_view served.entry) + 24
        + orbits.across_price (contents_of_view served.entry) * length (orbits.positions_left result.0)) }
{
    if place == 0 {
        places.clear();
        return (OrbitWalk::over(served), 0);
    }
    let Some(p) = served.code().first_of_shell((place - 1) as u32, steps) else {
        unreachable!()
    };
    places_from_smallest(served, p, places, steps)
}

/// Marks those of these places that are neither `place` nor marked, and puts them down behind those that stand there.
fn enter_unseen(place: usize, across: &[u32], marks: &mut Marks<'_>, given: &mut Places)
    requires marked { (j : ℕ) → has across.now j ≡ true → j < room_of marks.old }
    requires room { length given.old.items + length across.now ≤ FIRST }
    ensures room { room_of marks.new ≡ room_of marks.old }
    ensures few { length given.new.items ≤ length given.old.items + length across.now }
    ensures places { (seen : List ℕ) → ((j : ℕ) → is_marked marks.old j ≡ has seen j)
        → given.new.items ≡ given.old.items ++ first_occurrences_but seen (others place across.now) }
    ensures marks { (seen : List ℕ) → ((j : ℕ) → is_marked marks.old j ≡ has seen j) → (j : ℕ)
        → is_marked marks.new j ≡ has (seen ++ first_occurrences_but seen (others place across.now)) j }
{
    for found in across {
        let place_found = *found as usize;
        if !is_known(marks, place, place_found) {
            marks.set(place_found);
            given.push(*found);
        }
    }
}

/// The same for all places, from the one of this number on and then those before it, where none is marked yet.
fn enter_turned(
    place: usize,
    across: &[u32],
    before: usize,
    marks: &mut Marks<'_>,
    given: &mut Places,
)
    requires before { before ≤ length across.now }
    requires few { length across.now ≤ FIRST }
    requires marked { (j : ℕ) → has across.now j ≡ true → j < room_of marks.old }
    requires none { given.old.items ≡ [] }
    requires empty { IsEmpty marks.old }
    ensures room { room_of marks.new ≡ room_of marks.old }
    ensures few { length given.new.items ≤ length across.now }
    ensures places { given.new.items ≡ first_occurrences (others place (drop before across.now ++ take before across.now)) }
    ensures marks { (j : ℕ) → is_marked marks.new j ≡ has given.new.items j }
{
    enter_unseen(place, &across[before..], marks, given);
    enter_unseen(place, &across[..before], marks, given);
}

/// The walk along all rings where no places were put down, and else along those of the holes.
#[inline(always)]
fn left_of<'a, C: Ledger>(
    served: Served<'a>,
    whole: FaceWalk<'a>,
    none: bool,
    hole: usize,
    end: usize,
    steps: &mut Steps<C>,
) -> FaceWalk<'a>
    requires same { rings.contents_in whole ≡ contents_of_view served }
    requires ends { end ≤ length (contents_of_view served).place_order }
    ensures contents { rings.contents_in result ≡ contents_of_view served.entry }
    ensures positions { rings.face_positions result ≡ (if none then rings.face_positions whole.entry
        else outer_positions (contents_of_view served.entry)
        (components_between (contents_of_view served.entry) hole end)) }
    ensures grows { steps.old ≤ steps.new }
    ensures cost { steps.new ≤ steps.old + 2 }
{
    if none {
        whole
    } else {
        FaceWalk::settled(served, OrbitWalk::over(served), hole, end, steps)
    }
}

/// Puts down the faces at these places.
fn put_down_faces<C: Ledger>(
    served: Served<'_>,
    places: &[u32],
    faces: &mut FirstFaces,
    steps: &mut Steps<C>,
)
    requires low { (j : ℕ) → has places.now j ≡ true → j ≤ length (contents_of_view served).faces }
    requires few { length places.now ≤ FIRST }
    ensures faces { faces.new.items ≡ map (face_at_place (contents_of_view served.entry)) places.now }
    ensures grows { steps.old ≤ steps.new }
    ensures cost { steps.new ≤ steps.old + (3 * line_digits (contents_of_view served.entry) + 20) * length places.now }
{
    faces.clear();
    for place in places {
        faces.push(names::face_in(served, *place as usize, steps).0);
    }
}

/// The same as `adjacent_walk_begun`, from the place of the face.
fn begun_beside<'a, C: Ledger>(
    served: Served<'a>,
    place: usize,
    faces: &mut FirstFaces,
    marks: &mut Marks<'_>,
    steps: &mut Steps<C>,
) -> AdjacentWalk<'a>
    requires place { place ≤ length (contents_of_view served).faces }
    requires room { length (contents_of_view served).faces < room_of marks.old }
    requires empty { IsEmpty marks.old }
    ensures contents { contents_in result ≡ contents_of_view served.entry }
    ensures list { faces.new.items ++ rest result ≡ adjacent (served_map served.entry)
        (face_at_place (contents_of_view served.entry) place) }
    ensures given { given result ≡ faces.new.items }
    ensures room { room_of marks.new ≡ room_of marks.old }
    ensures marks { HoldsGiven result marks.new }
    ensures least { steps.old + length faces.new.items ≤ steps.new }
    ensures paid { steps.new + allowance result + (12 * line_digits (contents_of_view served.entry) + 60)
        ≤ steps.old + line_words (contents_of_view served.entry)
        (length (face_edges (served_map served.entry) (face_at_place (contents_of_view served.entry) place)))
        (length (faces.new.items ++ rest result)) }
{
    let hole = components_below(served, place, steps);
    let end = components_to(served, place, hole, steps);
    let mut across = Places::new();
    let (ring, before) = shell_places(served, place, &mut across, steps);
    let whole = FaceWalk::settled(served, ring, hole, end, steps);
    let mut given = Places::new();
    enter_turned(place, across.as_slice(), before, marks, &mut given);
    let mut left = left_of(served, whole, across.is_empty(), hole, end, steps);
    put_down_faces(served, given.as_slice(), faces, steps);
    let next = to_unseen(&mut left, place, marks, steps);
    AdjacentWalk::begun(place, whole, left, given.as_slice(), next)
}

/// The same as `adjacent_walk`, with the first faces put down before all others and marked: those across the edges of the
/// shell, where these are fewer than there is room for, and else none. The walk gives the rest. None are put down where
/// the map has no such face.
pub fn adjacent_walk_begun<'a, C: Ledger>(
    served: Served<'a>,
    face: FaceId,
    faces: &mut FirstFaces,
    marks: &mut Marks<'_>,
    steps: &mut Steps<C>,
) -> Option<AdjacentWalk<'a>>
    requires room { length (contents_of_view served).faces < room_of marks.old }
    requires empty { IsEmpty marks.old }
    ensures known { is_some result ≡ is_face (served_map served.entry) face.0 }
    ensures contents { IfSome result (λ w. contents_in w ≡ contents_of_view served.entry) }
    ensures list { MatchOption result (faces.new.items ≡ [])
        (λ w. faces.new.items ++ rest w ≡ adjacent (served_map served.entry) face.0) }
    ensures given { IfSome result (λ w. given w ≡ faces.new.items) }
    ensures room { room_of marks.new ≡ room_of marks.old }
    ensures marks { MatchOption result (IsEmpty marks.new) (λ w. HoldsGiven w marks.new) }
    ensures least { steps.old + length faces.new.items ≤ steps.new }
    ensures paid { MatchOption result (steps.new ≤ steps.old + most_words (served_map served.entry) 0 0)
        (λ w. steps.new + allowance w ≤ steps.old + most_words (served_map served.entry)
        (length (face_edges (served_map served.entry) face.0)) (length (faces.new.items ++ rest w))) }
{
    match names::place_of(served, face, steps) {
        Some(place) => Some(begun_beside(served, place, faces, marks, steps)),
        None => {
            faces.clear();
            None
        }
    }
}
