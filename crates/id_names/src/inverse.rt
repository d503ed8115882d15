//! The number whose place is asked for, by a walk along the places.

ghost use Rattle.std.specs.Prelude.{◌≡◌, ◌≤◌, length, true};
ghost use Rattle.bit_words.specs.Bits.{rank};
ghost use Rattle.bit_words.specs.Digits.{digits};
ghost use Rattle.bit_words.specs.PackedView.{fields_of};
ghost use Rattle.rank_select.specs.RankView.{counted};

use bit_words::{PackedView, Steps};
use rank_select::RankView;
use std::sync::ledger::Ledger;

/// The place of each number, and marks with back pointers by which the number of a place is found.
#[derive(Clone, Copy)]
pub(crate) struct Inverse<'a> {
    pub(crate) places: PackedView<'a>,
    pub(crate) marks: RankView<'a>,
    pub(crate) back: PackedView<'a>,
    ghost few: { length (fields_of places) ≤ 16777216 },
    ghost size: { length (counted marks) ≡ length (fields_of places) },
    ghost ones: { rank true (counted marks) (length (counted marks)) ≡ length (fields_of back) },
}

/// How many binary digits a number has.
pub(crate) fn binary_digits(number: usize) -> u32
    ensures count { result ≡ digits number }
    ensures few { result ≤ 64 }
{
    usize::BITS - number.leading_zeros()
}

impl<'a> Inverse<'a> {
    ghost use Rattle.std.specs.Prelude.{◌≡◌, ◌<◌, ◌≤◌, ◌+◌, ◌*◌, length, slice_index, Some, IfSome};
    ghost use Rattle.bit_words.specs.Digits.{digits};
    ghost use Rattle.bit_words.specs.PackedView.{fields_of};
    ghost use Rattle.id_names.specs.PartViews.{number_in};

    /// The number that the walk from this place comes to.
    pub(crate) fn number<C: Ledger>(&self, place: usize, steps: &mut Steps<C>) -> Option<usize>
        ensures number { result ≡ number_in self.now place }
        ensures found { IfSome result (λ number. (number < length (fields_of self.now.places))
            × (slice_index (fields_of self.now.places) number ≡ place)) }
        ensures grows { steps.old ≤ steps.new }
        ensures cost { steps.new ≤ steps.old + 3 * digits (length (fields_of self.now.places) + 2) + 14 }
    {
        let tests = binary_digits(self.places.count() + 2) + 1;
        let mut number = place;
        let mut may_jump = true;
        for _test in 0..tests {
            if number >= self.places.count() {
                return None;
            }
            let next = self.places.field(number, steps) as usize;
            if next == place {
                return Some(number);
            }
            if may_jump && self.marks.bits().bit(number, steps) {
                may_jump = false;
                let mark = self.marks.rank1(number, steps);
                number = self.back.field(mark, steps) as usize;
            } else {
                number = next;
            }
        }
        None
    }
}
