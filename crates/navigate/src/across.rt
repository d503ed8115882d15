//! The walk to the faces across the edges of a face, step by step.

ghost use Rattle.std.specs.Prelude.{◌≡◌, ◌<◌, ◌≤◌, ◌+◌, ◌*◌, ◌&&◌, ℕ, not, true, map, take, length, slice_set};
ghost use Rattle.scratch_region.specs.Marks.{room_of, is_marked};
ghost use Rattle.plane_model.specs.Sets.{has};
ghost use Rattle.navigate.specs.Beside.{place_across, adjacent_places};
ghost use Rattle.navigate.specs.FaceWalk as rings;
ghost use Rattle.navigate.specs.FaceWalk.{pass_price};
ghost use Rattle.navigate.specs.Standing.{IsStanding};
ghost use Rattle.navigate.specs.declared.across.TheConstants.{KEPT};

use crate::face_rings::FaceWalk;
use crate::first_edges::FIRST;
use crate::unseen::to_unseen;
use bit_words::Steps;
use scratch_region::Marks;
use std::sync::ledger::Ledger;
use topo_base::FaceId;

/// So many of the faces that it gives a walk keeps by their places.
const KEPT: usize = FIRST;

/// A walk to the other faces across the edges of a face, each where it comes first.
#[derive(Drop)]
pub struct AdjacentWalk<'a> {
    /// The place of the face that is gone round.
    place: usize,
    /// All its rings.
    whole: FaceWalk<'a>,
    /// Its rings from the position on across which the next face lies.
    left: FaceWalk<'a>,
    /// How many faces were given.
    count: usize,
    /// The places of the first of them, as many as there is room for.
    given: [u32; KEPT],
    /// The place of the next face, unless the rings are at their end.
    next: usize,
    ghost same: { rings.contents_in whole ≡ rings.contents_in left },
    ghost standing: { IsStanding (rings.contents_in left) place (rings.face_positions whole)
        (rings.face_positions left) count next },
    ghost kept: { count ≤ KEPT → take count given
        ≡ take count (adjacent_places (rings.contents_in left) place (rings.face_positions whole)) },
}

impl<'a> AdjacentWalk<'a> {
    ghost use Rattle.std.specs.Prelude.{◌≡◌, ◌<◌, ◌≤◌, ◌+◌, ◌*◌, ◌∷◌, ◌++◌, [], map, take, drop, length, option_map, option_to_list, IsSome, IsNone, MatchOption};
    ghost use Rattle.scratch_region.specs.Marks.{room_of, IsEmpty};
    ghost use Rattle.file_laws.specs.MapOfFile.{face_at_place};
    ghost use Rattle.navigate.specs.Beside.{adjacent_places};
    ghost use Rattle.navigate.specs.FaceWalk as rings;
    ghost use Rattle.navigate.specs.FaceWalk.{pass_price};
    ghost use Rattle.navigate.specs.Standing.{IsStanding};
    ghost use Rattle.navigate.specs.AdjacentWalk.{contents_in, whole_places, given, given_places, rest, allowance, step_price, HoldsGiven};

    /// The walk that gives these faces from the first on, where `next` is across the first position that is left.
    pub(crate) fn standing(
        place: usize,
        whole: FaceWalk<'a>,
        left: FaceWalk<'a>,
        next: usize,
    ) -> AdjacentWalk<'a>
        requires same { rings.contents_in whole ≡ rings.contents_in left }
        requires standing { IsStanding (rings.contents_in left) place (rings.face_positions whole)
            (rings.face_positions left) 0 next }
        ensures contents { contents_in result ≡ rings.contents_in left.entry }
        ensures given { given result ≡ [] }
        ensures rest { rest result ≡ map (face_at_place (rings.contents_in left.entry))
            (adjacent_places (rings.contents_in left.entry) place (rings.face_positions whole.entry)) }
        ensures places { given_places result ≡ [] }
        ensures paid { allowance result ≡ step_price (rings.contents_in left.entry)
            * length (rings.face_positions left.entry)
            + pass_price (rings.contents_in left.entry) * length (rings.face_positions whole.entry) }
    {
        AdjacentWalk {
            place,
            whole,
            left,
            count: 0,
            given: [0; KEPT],
            next,
        }
    }

    /// The walk that gave the faces at these places, and gives the others, where `next` is across the first position that
    /// is left.
    pub(crate) fn begun(
        place: usize,
        whole: FaceWalk<'a>,
        left: FaceWalk<'a>,
        places: &[u32],
        next: usize,
    ) -> AdjacentWalk<'a>
        requires same { rings.contents_in whole ≡ rings.contents_in left }
        requires few { length places.now ≤ KEPT }
        requires places { places.now ≡ take (length places.now)
            (adjacent_places (rings.contents_in left) place (rings.face_positions whole)) }
        requires standing { IsStanding (rings.contents_in left) place (rings.face_positions whole)
            (rings.face_positions left) (length places.now) next }
        ensures contents { contents_in result ≡ rings.contents_in left.entry }
        ensures whole { whole_places result ≡ adjacent_places (rings.contents_in left.entry) place
            (rings.face_positions whole.entry) }
        ensures places { given_places result ≡ places.now }
        ensures rest { rest result ≡ map (face_at_place (rings.contents_in left.entry)) (drop (length places.now)
            (adjacent_places (rings.contents_in left.entry) place (rings.face_positions whole.entry))) }
        ensures paid { allowance result ≡ step_price (rings.contents_in left.entry)
            * length (rings.face_positions left.entry)
            + pass_price (rings.contents_in left.entry) * length (rings.face_positions whole.entry) }
    {
        let mut given = [0; KEPT];
        let count = places.len();
        given[..count].copy_from_slice(places);
        AdjacentWalk {
            place,
            whole,
            left,
            count,
            given,
            next,
        }
    }

    /// The next face, or None at the end. The marks are the places of the faces given so far: 0 for face 0, and else 1
    /// + the number of the face.
    pub fn step<C: Ledger>(&mut self, marks: &mut Marks<'_>, steps: &mut Steps<C>) -> Option<FaceId>
        requires room { length (contents_in self.old).faces < room_of marks.old }
        requires marks { HoldsGiven self.old marks.old }
        ensures contents { contents_in self.new ≡ contents_in self.old }
        ensures room { room_of marks.new ≡ room_of marks.old }
        ensures next { MatchOption result (rest self.old ≡ []) (λ f. rest self.old ≡ f.0 ∷ rest self.new) }
        ensures end { IsNone result → rest self.new ≡ [] }
        ensures given { given self.new ≡ given self.old ++ option_to_list (option_map (λ f. f.0) result) }
        ensures marks { HoldsGiven self.new marks.new }
        ensures least { IsSome result → steps.old + 1 ≤ steps.new }
        ensures free { IsNone result → steps.new ≡ steps.old }
        ensures paid { steps.new + allowance self.new ≤ steps.old + allowance self.old }
    {
        let Some(_p) = self.left.peek() else {
            return None;
        };
        let next = self.next;
        marks.set(next);
        enter(&mut self.given, self.count, next as u32);
        let _ = self.left.pass(steps);
        let face = self.left.face_in(next, steps);
        self.next = to_unseen(&mut self.left, self.place, marks, steps);
        self.count += 1;
        Some(face)
    }

    /// Takes the marks of the faces given so far away: by their places where it kept them all, all marks at once
    /// where their words are at most eight times as many as these faces, and else by going once round the rings.
    pub fn close<C: Ledger>(self, marks: &mut Marks<'_>, steps: &mut Steps<C>)
        requires room { length (contents_in self).faces < room_of marks.old }
        requires marks { HoldsGiven self marks.old }
        ensures room { room_of marks.new ≡ room_of marks.old }
        ensures empty { IsEmpty marks.new }
        ensures grows { steps.old ≤ steps.new }
        ensures paid { steps.new ≤ steps.old + allowance self.entry }
    {
        let count = self.count;
        if count <= KEPT {
            clear_places(marks, &self.given[..count]);
        } else if marks.room() / 512 <= count {
            marks.clear_all();
        } else {
            clear_across(self.whole, marks, steps);
        }
    }
}

/// Enters a place behind the first ones, where there is room for it.
fn enter(places: &mut [u32], count: usize, place: u32)
    ensures { places.new ≡ slice_set places.old count place }
{
    if count < places.len() {
        places[count] = place;
    }
}

/// Takes the marks of these places away.
fn clear_places(marks: &mut Marks<'_>, places: &[u32])
    requires { (j : ℕ) → has places.now j ≡ true → j < room_of marks.old }
    ensures room { room_of marks.new ≡ room_of marks.old }
    ensures marked { (j : ℕ) → is_marked marks.new j ≡ (is_marked marks.old j && not (has places.now j)) }
{
    for place in places {
        marks.clear(*place as usize);
    }
}

/// Takes the marks of the faces across the edges of these rings away, by going once round them.
fn clear_across<C: Ledger>(walk: FaceWalk<'_>, marks: &mut Marks<'_>, steps: &mut Steps<C>)
    requires room { length (rings.contents_in walk).faces < room_of marks.old }
    ensures room { room_of marks.new ≡ room_of marks.old }
    ensures marked { (j : ℕ) → is_marked marks.new j ≡ (is_marked marks.old j
        && not (has (map (place_across (rings.contents_in walk.entry)) (rings.face_positions walk.entry)) j)) }
    ensures grows { steps.old ≤ steps.new }
    ensures paid { steps.new ≤ steps.old
        + pass_price (rings.contents_in walk.entry) * length (rings.face_positions walk.entry) }
{
    let mut rings = walk;
    while let Some(p) = rings.pass(steps) {
        let place = rings.place_across(p, steps);
        marks.clear(place);
    }
}
