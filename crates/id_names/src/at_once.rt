//! A quicker test still, for names each of which points back: that each place has its number at once.

ghost use Rattle.std.specs.Prelude.{ℕ, ◌≡◌, ◌<◌, ◌≤◌, ◌+◌, ◌*◌, length, true, is_some};
ghost use Rattle.bit_words.specs.Bits.{rank};
ghost use Rattle.bit_words.specs.PackedView.{fields_of};
ghost use Rattle.rank_select.specs.RankView.{counted};
ghost use Rattle.id_names.specs.PartViews.{number_in};
ghost use Rattle.id_names.specs.Ways.{pointed_from};

use crate::inverse::Inverse;
use bit_words::Steps;
use std::sync::ledger::Ledger;

/// A number to which the walk from a place comes at once, if to any, and how many marks stand up to that place.
#[derive(Clone, Copy)]
struct Candidate {
    number: usize,
    marks: usize,
}

/// What a place points back to, and where it has no mark the number of that place. So many marks stand before it.
#[inline]
fn pointed<C: Ledger>(
    inverse: Inverse<'_>,
    place: usize,
    marks: usize,
    steps: &mut Steps<C>,
) -> Candidate
    requires within { place < length (fields_of inverse.places) }
    requires marks { marks ≡ rank true (counted inverse.marks) place }
    ensures number { result.number ≡ pointed_from (counted inverse.entry.marks) (fields_of inverse.entry.back) place }
    ensures marks { result.marks ≡ rank true (counted inverse.entry.marks) (place + 1) }
    ensures grows { steps.old ≤ steps.new }
    ensures cost { steps.new ≤ steps.old + 3 }
{
    if inverse.marks.bits().bit(place, steps) {
        Candidate {
            number: inverse.back.field(marks, steps) as usize,
            marks: marks + 1,
        }
    } else {
        Candidate {
            number: place,
            marks,
        }
    }
}

/// Whether each place has its number at once: it points back to it, or is it. The marks are gone through in their
/// order, so only the places that are pointed to lie apart, and none waits for another.
pub(crate) fn all_point_back<C: Ledger>(inverse: Inverse<'_>, steps: &mut Steps<C>) -> bool
    ensures found { result ≡ true → (place : ℕ) → place < length (fields_of inverse.entry.places)
        → is_some (number_in inverse.entry place) ≡ true }
    ensures grows { steps.old ≤ steps.new }
    ensures cost { steps.new ≤ steps.old + 5 * length (fields_of inverse.entry.places) }
{
    let count = inverse.places.count();
    let mut marks = 0;
    for place in 0..count {
        let found = pointed(inverse, place, marks, steps);
        if found.number >= count {
            return false;
        }
        if inverse.places.field(found.number, steps) as usize != place {
            return false;
        }
        marks = found.marks;
    }
    true
}
