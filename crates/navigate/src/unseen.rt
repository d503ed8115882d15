//! How a walk to adjacent faces goes on to the next one.

ghost use Rattle.std.specs.Prelude.{◌≡◌, ◌<◌, ◌≤◌, ◌+◌, ◌*◌, ◌==◌, ◌||◌, ℕ, List, [], ◌∷◌, length};
ghost use Rattle.plane_model.specs.Sets.{has};
ghost use Rattle.scratch_region.specs.Marks.{room_of, is_marked};
ghost use Rattle.navigate.specs.Bound.{line_digits};
ghost use Rattle.navigate.specs.FaceWalk.{contents_in, face_positions, pass_price};
ghost use Rattle.navigate.specs.Beside.{unseen};
ghost use Rattle.navigate.specs.Standing.{IsUnseen};

use crate::face_rings::FaceWalk;
use bit_words::Steps;
use scratch_region::Marks;
use std::sync::ledger::Ledger;

/// Whether a place is that of the face that is gone round, or is marked.
pub fn is_known(marks: &Marks<'_>, place: usize, across: usize) -> bool
    requires { across < room_of marks.now }
    ensures { result ≡ ((across == place) || is_marked marks.now across) }
{
    across == place || marks.has(across)
}

/// Goes on to the next position with a face across that is neither at `place` nor marked, and gives that face's place.
/// At the end it gives any number.
pub fn to_unseen<C: Ledger>(
    ring: &mut FaceWalk<'_>,
    place: usize,
    marks: &Marks<'_>,
    steps: &mut Steps<C>,
) -> usize
    requires room { length (contents_in ring.old).faces < room_of marks.now }
    ensures contents { contents_in ring.new ≡ contents_in ring.old }
    ensures unseen { (seen : List ℕ) → ((j : ℕ) → is_marked marks.now j ≡ has seen j)
        → unseen (contents_in ring.old) place seen (face_positions ring.new)
        ≡ unseen (contents_in ring.old) place seen (face_positions ring.old) }
    ensures stands { (seen : List ℕ) → ((j : ℕ) → is_marked marks.now j ≡ has seen j) → (p : ℕ) (ps : List ℕ)
        → face_positions ring.new ≡ p ∷ ps → IsUnseen (contents_in ring.old) place seen p result }
    ensures shorter { length (face_positions ring.new) ≤ length (face_positions ring.old) }
    ensures grows { steps.old ≤ steps.new }
    ensures paid { steps.new + pass_price (contents_in ring.old) * length (face_positions ring.new)
        ≤ steps.old + (pass_price (contents_in ring.old) * length (face_positions ring.old)
        + (12 * line_digits (contents_in ring.old) + 121)) }
{
    while let Some(p) = ring.peek() {
        let across = ring.place_across(p, steps);
        if !is_known(marks, place, across) {
            return across;
        }
        let _ = ring.pass(steps);
    }
    0
}

/// The same before any place is marked.
pub fn to_other<C: Ledger>(ring: &mut FaceWalk<'_>, place: usize, steps: &mut Steps<C>) -> usize
    ensures contents { contents_in ring.new ≡ contents_in ring.old }
    ensures unseen { unseen (contents_in ring.old) place [] (face_positions ring.new)
        ≡ unseen (contents_in ring.old) place [] (face_positions ring.old) }
    ensures stands { (p : ℕ) (ps : List ℕ) → face_positions ring.new ≡ p ∷ ps
        → IsUnseen (contents_in ring.old) place [] p result }
    ensures shorter { length (face_positions ring.new) ≤ length (face_positions ring.old) }
    ensures grows { steps.old ≤ steps.new }
    ensures paid { steps.new + pass_price (contents_in ring.old) * length (face_positions ring.new)
        ≤ steps.old + (pass_price (contents_in ring.old) * length (face_positions ring.old)
        + (12 * line_digits (contents_in ring.old) + 121)) }
{
    while let Some(p) = ring.peek() {
        let across = ring.place_across(p, steps);
        if across != place {
            return across;
        }
        let _ = ring.pass(steps);
    }
    0
}
