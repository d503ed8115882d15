//! The rising ids as they are read: the id at a place, and the places of a high part.

ghost use Rattle.std.specs.Prelude.{◌≡◌, ◌≤◌, ◌+◌, ◌^◌, length, true};
ghost use Rattle.bit_words.specs.Bits.{rank};
ghost use Rattle.bit_words.specs.Digits.{digits};
ghost use Rattle.bit_words.specs.PackedView.{fields_of, width_of};
ghost use Rattle.rank_select.specs.RankView.{counted};

use crate::inverse::binary_digits;
use crate::span::Span;
use bit_words::{PackedView, Steps};
use rank_select::RankView;
use std::sync::ledger::Ledger;

/// Ids by their place in a list: their high parts as ones and zeros, and their low parts.
#[derive(Clone, Copy)]
pub(crate) struct RisingIds<'a> {
    pub(crate) high: RankView<'a>,
    pub(crate) lows: PackedView<'a>,
    ghost few: { length (fields_of lows) ≤ 16777216 },
    ghost narrow: { digits (length (fields_of lows)) + width_of lows ≤ 63 },
    ghost size: { length (counted high) ≡ length (fields_of lows) + 2 ^ digits (length (fields_of lows)) },
    ghost ones: { rank true (counted high) (length (counted high)) ≡ length (fields_of lows) },
}

impl<'a> RisingIds<'a> {
    ghost use Rattle.std.specs.Prelude.{ℕ, ◌≡◌, ◌<◌, ◌≤◌, ◌+◌, ◌*◌, length, slice_index, true, Some, IsTrue};
    ghost use Rattle.bit_words.specs.Bits.{IsSelected};
    ghost use Rattle.bit_words.specs.Digits.{digits};
    ghost use Rattle.bit_words.specs.PackedView.{fields_of};
    ghost use Rattle.rank_select.specs.RankView.{counted};
    ghost use Rattle.id_names.specs.Rising.{high_part};
    ghost use Rattle.id_names.specs.PartViews.{bound_in, id_in, IsBucket};

    /// What each id has to be below.
    pub(crate) fn id_bound(&self) -> u64
        ensures { result ≡ bound_in self.now }
    {
        1 << (binary_digits(self.lows.count()) + self.lows.width())
    }

    /// The id at this place.
    pub(crate) fn id<C: Ledger>(&self, place: usize, steps: &mut Steps<C>) -> u64
        requires { place < length (fields_of self.now.lows) }
        ensures id { result ≡ id_in self.now place }
        ensures some_steps { steps.old + 1 ≤ steps.new }
        ensures cost { steps.new ≤ steps.old + 3 * digits (length (fields_of self.now.lows) + 2) + 18 }
    {
        let low = self.low(place, steps);
        self.id_with(place, low, steps)
    }

    /// The low part of the id at this place.
    #[inline(always)]
    pub(crate) fn low<C: Ledger>(&self, place: usize, steps: &mut Steps<C>) -> u64
        requires { place < length (fields_of self.now.lows) }
        ensures low { result ≡ slice_index (fields_of self.now.lows) place }
        ensures some_steps { steps.old + 1 ≤ steps.new }
        ensures cost { steps.new ≤ steps.old + 2 }
    {
        self.lows.field(place, steps)
    }

    /// The id at this place, whose low part this is.
    #[inline]
    pub(crate) fn id_with<C: Ledger>(&self, place: usize, low: u64, steps: &mut Steps<C>) -> u64
        requires within { place < length (fields_of self.now.lows) }
        requires low { low ≡ slice_index (fields_of self.now.lows) place }
        ensures id { result ≡ id_in self.now place }
        ensures some_steps { steps.old + 1 ≤ steps.new }
        ensures cost { steps.new ≤ steps.old + 3 * digits (length (fields_of self.now.lows) + 2) + 16 }
    {
        let Some(one) = self.high.select1(place, steps) else {
            unreachable!()
        };
        self.joined(place, one, low)
    }

    /// The id at this place, whose one in the high parts stands there.
    pub(crate) fn id_of_one<C: Ledger>(&self, place: usize, one: usize, steps: &mut Steps<C>) -> u64
        requires within { place < length (fields_of self.now.lows) }
        requires selected { IsSelected true (counted self.now.high) place (Some one) }
        ensures id { result ≡ id_in self.now place }
        ensures some_steps { steps.old + 1 ≤ steps.new }
        ensures cost { steps.new ≤ steps.old + 2 }
    {
        let low = self.low(place, steps);
        self.joined(place, one, low)
    }

    /// The id at this place, whose one in the high parts stands there and whose low part this is.
    fn joined(&self, place: usize, one: usize, low: u64) -> u64
        requires within { place < length (fields_of self.now.lows) }
        requires selected { IsSelected true (counted self.now.high) place (Some one) }
        requires low { low ≡ slice_index (fields_of self.now.lows) place }
        ensures { result ≡ id_in self.now place }
    {
        let high = (one - place) as u64;
        (high << self.lows.width()) + low
    }

    /// How many ids have a high part below this one.
    fn below<C: Ledger>(&self, high: usize, steps: &mut Steps<C>) -> usize
        ensures within { result ≤ length (fields_of self.now.lows) }
        ensures below { (k : ℕ) → k < result → high_part (counted self.now.high) k < high }
        ensures above { (k : ℕ) → result ≤ k → k < length (fields_of self.now.lows)
            → high ≤ high_part (counted self.now.high) k }
        ensures grows { steps.old ≤ steps.new }
        ensures cost { steps.new ≤ steps.old + 2 * digits (length (fields_of self.now.lows) + 2) + 14 }
    {
        let Some(last) = high.checked_sub(1) else {
            return 0;
        };
        match self.high.select0(last, steps) {
            Some(zero) => zero - last,
            None => self.lows.count(),
        }
    }

    /// Whether no id has a greater high part, as the count of the ones before so many zeros shows. Of few ids this is
    /// not told.
    fn is_greatest<C: Ledger>(&self, high: usize, steps: &mut Steps<C>) -> bool
        ensures greatest { IsTrue result → (k : ℕ) → k < length (fields_of self.now.lows)
            → high_part (counted self.now.high) k ≤ high }
        ensures grows { steps.old ≤ steps.new }
        ensures cost { steps.new ≤ steps.old + digits (length (fields_of self.now.lows) + 2) }
    {
        let count = self.lows.count();
        if count < 256 || self.high.bits().len() - count < high {
            return false;
        }
        self.high.rank1(count + high, steps) == count
    }

    /// How many ids have at most this high part.
    fn up_to<C: Ledger>(&self, high: usize, steps: &mut Steps<C>) -> usize
        requires { high < 18446744073709551615 }
        ensures within { result ≤ length (fields_of self.now.lows) }
        ensures below { (k : ℕ) → k < result → high_part (counted self.now.high) k ≤ high }
        ensures above { (k : ℕ) → result ≤ k → k < length (fields_of self.now.lows)
            → high < high_part (counted self.now.high) k }
        ensures grows { steps.old ≤ steps.new }
        ensures cost { steps.new ≤ steps.old + 3 * digits (length (fields_of self.now.lows) + 2) + 14 }
    {
        if self.is_greatest(high, steps) {
            return self.lows.count();
        }
        self.below(high + 1, steps)
    }

    /// The first place of an id with this high part, and the first behind all of these. Where there is none, both are
    /// the first place of a greater high part.
    fn bucket<C: Ledger>(&self, high: usize, steps: &mut Steps<C>) -> (usize, usize)
        requires { high < 18446744073709551615 }
        ensures places { IsBucket self.now high result.0 result.1 }
        ensures grows { steps.old ≤ steps.new }
        ensures cost { steps.new ≤ steps.old + 5 * digits (length (fields_of self.now.lows) + 2) + 28 }
    {
        (self.below(high, steps), self.up_to(high, steps))
    }

    /// The places of this high part to look in for a low part: where they are many, first by what the low parts at
    /// their ends suggest.
    pub(crate) fn span<C: Ledger>(&self, high: usize, steps: &mut Steps<C>) -> Span
        requires { high < 18446744073709551615 }
        ensures places { IsBucket self.now high result.from result.to }
        ensures grows { steps.old ≤ steps.new }
        ensures cost { steps.new + 2 * result.probes
            ≤ steps.old + 6 * digits (length (fields_of self.now.lows) + 2) + 30 }
    {
        let (from, to) = self.bucket(high, steps);
        if to - from < 256 {
            return Span {
                from,
                to,
                least: 0,
                greatest: 0,
                probes: 0,
            };
        }
        Span {
            from,
            to,
            least: self.lows.field(from, steps),
            greatest: self.lows.field(to - 1, steps),
            probes: 3,
        }
    }
}
