//! A shortest walk over faces, step by step.

ghost use Rattle.std.specs.Prelude.{◌≡◌, ◌≤◌, length};
ghost use Rattle.scratch_region.specs.Numbers.{numbers_of};
ghost use Rattle.pemb_file.specs.Served.{contents_of_view};
ghost use Rattle.face_hops.specs.Distances.{AreDistances};

use bit_words::Steps;
use navigate::{face_in, rings_at};
use pemb_file::Served;
use scratch_region::Numbers;
use std::sync::ledger::Ledger;
use topo_base::FaceId;

/// A shortest walk from one face to another, face by face.
#[derive(Drop)]
pub struct HopWalk<'a, 'r> {
    served: Served<'a>,
    /// For each place of a face 1 + its distance from the end, or 0 where no path leads there.
    distances: Numbers<'r>,
    /// The place of the face at the end.
    to: usize,
    /// How many moves the whole walk has.
    moves: u32,
    /// The place of the face where it stands.
    place: usize,
    /// Whether that face was given.
    given: bool,
    ghost place_in: { place ≤ length (contents_of_view served).faces },
    ghost to_in: { to ≤ length (contents_of_view served).faces },
    ghost right: { AreDistances (contents_of_view served) to (numbers_of distances) },
}

impl<'a, 'r> HopWalk<'a, 'r> {
    ghost use Rattle.std.specs.Prelude.{◌≡◌, ◌<◌, ◌≤◌, ◌+◌, ◌*◌, ◌∷◌, [], Some, length, slice_index, IsSome, IsNone, IsTrue, IsFalse, MatchOption};
    ghost use Rattle.plane_model.specs.Hops.{hops, distance};
    ghost use Rattle.scratch_region.specs.Numbers.{numbers_of};
    ghost use Rattle.file_laws.specs.MapOfFile.{face_at_place};
    ghost use Rattle.pemb_file.specs.Served.{contents_of_view};
    ghost use Rattle.navigate.specs.Bound.{served_map};
    ghost use Rattle.face_hops.specs.Distances.{AreDistances};
    ghost use Rattle.face_hops.specs.HopWalk.{rest, moves_of, is_begun, allowance};
    ghost use Rattle.face_hops.specs.Prices.{rounds_price, name_price};
    ghost use Rattle.face_hops.specs.Way.{GoesOnAt};

    /// The walk from the face at one place to the one at another, over the distances from that.
    pub(crate) fn over(
        served: Served<'a>,
        distances: Numbers<'r>,
        place: usize,
        to: usize,
    ) -> HopWalk<'a, 'r>
        requires place { place ≤ length (contents_of_view served).faces }
        requires to { to ≤ length (contents_of_view served).faces }
        requires distances { AreDistances (contents_of_view served) to (numbers_of distances) }
        ensures list { rest result ≡ hops (served_map served.entry)
            (face_at_place (contents_of_view served.entry) place) (face_at_place (contents_of_view served.entry) to) }
        ensures moves { distance (served_map served.entry) (face_at_place (contents_of_view served.entry) place)
            (face_at_place (contents_of_view served.entry) to) ≡ Some (moves_of result) }
        ensures fresh { IsFalse (is_begun result) }
        ensures paid { allowance result ≡ rounds_price (contents_of_view served.entry) (rest result)
            + name_price (contents_of_view served.entry) * length (rest result) }
    {
        let number = distances.get(place);
        HopWalk {
            served,
            distances,
            to,
            moves: number.saturating_sub(1) as u32,
            place,
            given: false,
        }
    }

    /// How many moves the whole walk has.
    pub fn moves(&self) -> u32
        ensures { result ≡ moves_of self.now }
    {
        self.moves
    }

    /// The next face, or None at the end.
    pub fn step<C: Ledger>(&mut self, steps: &mut Steps<C>) -> Option<FaceId>
        ensures next { MatchOption result (rest self.old ≡ []) (λ f. rest self.old ≡ f.0 ∷ rest self.new) }
        ensures end { IsNone result → rest self.new ≡ [] }
        ensures same { moves_of self.new ≡ moves_of self.old }
        ensures begun { IsTrue (is_begun self.new) }
        ensures least { IsTrue (is_begun self.old) → IsSome result → steps.old + 1 ≤ steps.new }
        ensures free { IsNone result → steps.new ≡ steps.old }
        ensures grows { steps.old ≤ steps.new }
        ensures paid { steps.new + allowance self.new ≤ steps.old + allowance self.old }
    {
        if !self.given {
            self.given = true;
            return Some(face_in(self.served, self.place, steps));
        }
        if self.distances.get(self.place) <= 1 {
            return None;
        }
        self.place = self.nearer(steps);
        Some(face_in(self.served, self.place, steps))
    }

    /// The place of the first face beside the one where it stands that is one move nearer to the end.
    fn nearer<C: Ledger>(&self, steps: &mut Steps<C>) -> usize
        requires { 1 < slice_index (numbers_of self.now.distances) self.now.place }
        ensures within { result ≤ length (contents_of_view self.now.served).faces }
        ensures way { GoesOnAt (contents_of_view self.now.served) self.now.to self.now.place result }
        ensures some_steps { steps.old + 1 ≤ steps.new }
        ensures paid { steps.new ≤ steps.old + rounds_price (contents_of_view self.now.served)
            (face_at_place (contents_of_view self.now.served) self.now.place ∷ []) }
    {
        let number = self.distances.get(self.place);
        let mut rings = rings_at(self.served, self.place, steps);
        while let Some(p) = rings.pass(steps) {
            let across = rings.place_across(p, steps);
            if self.distances.get(across) + 1 == number {
                return across;
            }
        }
        unreachable!()
    }
}
