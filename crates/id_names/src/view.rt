//! Names that are asked both ways: the id of a number, and the number of an id.

ghost use Rattle.std.specs.Prelude.{◌≡◌, length, true, None};
ghost use Rattle.bit_words.specs.PackedView.{fields_of};
ghost use Rattle.rank_select.specs.RankView.{counted};
ghost use Rattle.rank_select.specs.Counts.{counts_of};
ghost use Rattle.id_names.specs.Faults.{name_fault};
ghost use Rattle.id_names.specs.Known.{AreKnown};
ghost use Rattle.id_names.specs.PartViews.{names_over};
ghost use Rattle.id_names.specs.RisingNames.{ids_by_number, HasNoGap};

use crate::inverse::Inverse;
use crate::known::{KnownNumbers, known_numbers, known_of, none_known};
use crate::name_parts::NameParts;
use crate::rising_ids::RisingIds;
use crate::searches::four_numbers;
use bit_words::Steps;
use rank_select::RankView;
use std::cmp::Ordering;
use std::sync::ledger::Ledger;
use topo_base::IdNumber;

/// An id for each number from 0 on, no two the same.
#[derive(Clone, Copy)]
pub struct NamesView<'a> {
    ids: RisingIds<'a>,
    inverse: Inverse<'a>,
    /// Whether the ids are known to be 1, 2, 3 and so on, with no gap among them.
    is_gapless: bool,
    /// What was looked up ahead.
    known: KnownNumbers,
    ghost count: { length (fields_of ids.lows) ≡ length (fields_of inverse.places) },
    ghost right: { name_fault (names_over ids inverse) (counts_of (counted ids.high))
        (counts_of (counted inverse.marks)) ≡ None },
    ghost gapless: { is_gapless ≡ true → HasNoGap (names_over ids inverse) },
    ghost looked_up: { AreKnown (ids_by_number (names_over ids inverse)) known },
}

impl<'a> NamesView<'a> {
    ghost use Rattle.std.specs.Prelude.{◌≡◌, ◌≢◌, ◌<◌, ◌≤◌, ◌+◌, ◌*◌, ◌^◌, ◌↔◌, ℕ, length, slice_index, true, None, Some, IsTrue, IfSome, MatchOption};
    ghost use Rattle.bit_words.specs.Digits.{digits};
    ghost use Rattle.id_names.specs.Names.{AreDistinctIds, number_of};
    ghost use Rattle.id_names.specs.Known.{asked, IsNew};
    ghost use Rattle.id_names.specs.RisingNames.{id_bound, id_at, number_at, HasNoGap};
    ghost use Rattle.id_names.specs.Parts.{fault_of, names_of, HasSizes};
    ghost use Rattle.id_names.specs.Views.{ids_of, names_in};

    /// The names of these parts, which `make` makes and `check` finds right.
    pub fn new(parts: NameParts<'a>) -> NamesView<'a>
        requires sizes { HasSizes parts }
        requires right { fault_of parts ≡ None }
        ensures { names_in result ≡ names_of parts.entry }
    {
        NamesView {
            ids: RisingIds {
                high: RankView::new(parts.high, parts.high_counts),
                lows: parts.lows,
            },
            inverse: Inverse {
                places: parts.places,
                marks: RankView::new(parts.marks, parts.mark_counts),
                back: parts.back,
            },
            is_gapless: false,
            known: none_known(),
        }
    }

    /// Whether the ids are 1, 2, 3 and so on with no gap among them, as the greatest of them tells.
    fn has_no_gap<C: Ledger>(&self, steps: &mut Steps<C>) -> bool
        ensures gapless { IsTrue result ↔ HasNoGap (names_in self.now) }
        ensures grows { steps.old ≤ steps.new }
        ensures cost { steps.new ≤ steps.old + 3 * digits (length (ids_of self.now) + 2) + 18 }
        ensures few_words { steps.new ≤ steps.old + 93 }
    {
        let count = self.count();
        if count == 0 {
            return true;
        }
        let greatest = self.id_at(count - 1, steps);
        greatest == count as IdNumber
    }

    /// Notes whether the ids are 1, 2, 3 and so on with no gap among them. Where they are, a place tells its id and an id
    /// its place, so that nothing is read for either.
    pub fn note_gaps<C: Ledger>(&mut self, steps: &mut Steps<C>)
        ensures names { names_in self.new ≡ names_in self.old }
        ensures known { (self.new).known ≡ (self.old).known }
        ensures gapless { IsTrue (self.new).is_gapless ↔ HasNoGap (names_in self.old) }
        ensures grows { steps.old ≤ steps.new }
        ensures cost { steps.new ≤ steps.old + 3 * digits (length (ids_of self.old) + 2) + 18 }
        ensures few_words { steps.new ≤ steps.old + 93 }
    {
        let is_gapless = self.has_no_gap(steps);
        self.is_gapless = is_gapless;
    }

    /// Whether it was noted that the ids are 1, 2, 3 and so on with no gap among them.
    #[inline(always)]
    pub fn is_gapless(&self) -> bool
        ensures noted { result ≡ self.now.is_gapless }
        ensures gapless { IsTrue result → HasNoGap (names_in self.now) }
    {
        self.is_gapless
    }

    /// The id at a place of the list of names that rises by id, where there is no gap among the ids. No word is read.
    #[inline(always)]
    pub fn id_without_gaps(&self, place: usize) -> IdNumber
        requires within { place < length (ids_of self.now) }
        requires gapless { HasNoGap (names_in self.now) }
        ensures id { result ≡ id_at (names_in self.now) place }
    {
        let _count = self.count();
        place as IdNumber + 1
    }

    /// The places of the numbers, with what they are found by again.
    #[cfg(test)]
    pub(crate) fn inverse(&self) -> Inverse<'a> {
        self.inverse
    }

    /// How many numbers have an id.
    #[inline]
    pub fn count(&self) -> usize
        ensures count { result ≡ length (ids_of self.now) }
        ensures few { result ≤ 16777216 }
        ensures names { AreDistinctIds (id_bound (names_in self.now)) (ids_of self.now) }
        ensures narrow { id_bound (names_in self.now) ≤ 2 ^ 63 }
        ensures rising { (i j : ℕ) → i < j → j < length (ids_of self.now)
            → id_at (names_in self.now) i < id_at (names_in self.now) j }
    {
        self.inverse.places.count()
    }

    /// The place of a number's id in the list of names that rises by id.
    #[inline]
    pub fn rank_of<C: Ledger>(&self, number: usize, steps: &mut Steps<C>) -> usize
        requires { number < length (ids_of self.now) }
        ensures within { result < length (ids_of self.now) }
        ensures place { result ≡ slice_index (names_in self.now).places number }
        ensures id { slice_index (ids_of self.now) number ≡ id_at (names_in self.now) result }
        ensures some_steps { steps.old + 1 ≤ steps.new }
        ensures cost { steps.new ≤ steps.old + 2 }
    {
        self.inverse.places.field(number, steps) as usize
    }

    /// The id at a place of that list.
    #[inline]
    pub fn id_at<C: Ledger>(&self, place: usize, steps: &mut Steps<C>) -> IdNumber
        requires { place < length (ids_of self.now) }
        ensures id { result ≡ id_at (names_in self.now) place }
        ensures some_steps { steps.old + 1 ≤ steps.new }
        ensures cost { steps.new ≤ steps.old + 3 * digits (length (ids_of self.now) + 2) + 18 }
    {
        self.ids.id(place, steps)
    }

    /// The low part of the id at a place of that list, which `id_with` asks for: where the low parts at several places
    /// are read before all else, none of these reads waits for another.
    #[inline(always)]
    pub fn low_at<C: Ledger>(&self, place: usize, steps: &mut Steps<C>) -> u64
        requires { place < length (ids_of self.now) }
        ensures low { result ≡ slice_index (names_in self.now).lows place }
        ensures some_steps { steps.old + 1 ≤ steps.new }
        ensures cost { steps.new ≤ steps.old + 2 }
    {
        self.ids.low(place, steps)
    }

    /// The id at a place of that list, whose low part this is.
    #[inline]
    pub fn id_with<C: Ledger>(&self, place: usize, low: u64, steps: &mut Steps<C>) -> IdNumber
        requires within { place < length (ids_of self.now) }
        requires low { low ≡ slice_index (names_in self.now).lows place }
        ensures id { result ≡ id_at (names_in self.now) place }
        ensures some_steps { steps.old + 1 ≤ steps.new }
        ensures cost { steps.new ≤ steps.old + 3 * digits (length (ids_of self.now) + 2) + 16 }
    {
        self.ids.id_with(place, low, steps)
    }

    /// The id of a number.
    #[inline]
    pub fn id_of<C: Ledger>(&self, number: usize, steps: &mut Steps<C>) -> IdNumber
        requires { number < length (ids_of self.now) }
        ensures id { result ≡ slice_index (ids_of self.now) number }
        ensures some_steps { steps.old + 1 ≤ steps.new }
        ensures cost { steps.new ≤ steps.old + 3 * digits (length (ids_of self.now) + 2) + 20 }
    {
        let place = self.rank_of(number, steps);
        if self.is_gapless() {
            return self.id_without_gaps(place);
        }
        self.id_at(place, steps)
    }

    /// The place of the list at which this id stands, where there is no gap among the ids, or None where it stands at
    /// none. No word is read.
    fn place_without_gaps(&self, id: IdNumber) -> Option<usize>
        requires gapless { HasNoGap (names_in self.now) }
        ensures place { MatchOption result ((k : ℕ) → k < length (ids_of self.now) → id_at (names_in self.now) k ≢ id)
            (λ place. (place < length (ids_of self.now)) × (id_at (names_in self.now) place ≡ id)) }
    {
        if id == 0 {
            return None;
        }
        if id > self.count() as IdNumber {
            return None;
        }
        Some((id - 1) as usize)
    }

    /// The place of the list at which this id stands, or None where it stands at none.
    fn place_of<C: Ledger>(&self, id: IdNumber, steps: &mut Steps<C>) -> Option<usize>
        ensures place { MatchOption result ((k : ℕ) → k < length (ids_of self.now) → id_at (names_in self.now) k ≢ id)
            (λ place. (place < length (ids_of self.now)) × (id_at (names_in self.now) place ≡ id)) }
        ensures grows { steps.old ≤ steps.new }
        ensures cost { steps.new ≤ steps.old + 8 * digits (length (ids_of self.now) + 2) + 32 }
    {
        if self.is_gapless() {
            self.place_without_gaps(id)
        } else {
            self.place_by_search(id, steps)
        }
    }

    /// The same by a search among the ids of its high part.
    fn place_by_search<C: Ledger>(&self, id: IdNumber, steps: &mut Steps<C>) -> Option<usize>
        ensures place { MatchOption result ((k : ℕ) → k < length (ids_of self.now) → id_at (names_in self.now) k ≢ id)
            (λ place. (place < length (ids_of self.now)) × (id_at (names_in self.now) place ≡ id)) }
        ensures grows { steps.old ≤ steps.new }
        ensures cost { steps.new ≤ steps.old + 8 * digits (length (ids_of self.now) + 2) + 32 }
    {
        let low = self.ids.lows.width();
        let high = (id >> low) as usize;
        let wanted = id % (1 << low);
        let mut span = self.ids.span(high, steps);
        while span.from < span.to {
            let place = span.place(wanted);
            let number = self.ids.lows.field(place, steps);
            match number.cmp(&wanted) {
                Ordering::Less => span = span.behind(place, number),
                Ordering::Equal => return Some(place),
                Ordering::Greater => span = span.before(place, number),
            }
        }
        None
    }

    /// The number that has this id, or None where no number has it.
    pub fn number_of<C: Ledger>(&self, id: IdNumber, steps: &mut Steps<C>) -> Option<usize>
        ensures number { result ≡ number_of (ids_of self.now) id }
        ensures found { MatchOption result ((k : ℕ) → k < length (ids_of self.now)
            → slice_index (ids_of self.now) k ≢ id) (λ number. (number < length (ids_of self.now))
            × (slice_index (ids_of self.now) number ≡ id)) }
        ensures ahead { steps.old < steps.new → IsNew id (self.now).known }
        ensures grows { steps.old ≤ steps.new }
        ensures cost { steps.new ≤ steps.old + 12 * digits (length (ids_of self.now) + 2) + 60 }
    {
        if let Some(known) = known_of(&self.known, id) {
            return known.number;
        }
        let place = self.place_of(id, steps)?;
        self.inverse.number(place, steps)
    }

    /// The place of an id of the list, where there is an id and it stands there.
    fn place_for<C: Ledger>(&self, id: Option<IdNumber>, steps: &mut Steps<C>) -> Option<usize>
        ensures place { IfSome id (λ id. MatchOption result ((k : ℕ) → k < length (ids_of self.now)
            → id_at (names_in self.now) k ≢ id) (λ place. (place < length (ids_of self.now))
            × (id_at (names_in self.now) place ≡ id))) }
        ensures grows { steps.old ≤ steps.new }
        ensures cost { steps.new ≤ steps.old + 8 * digits (length (ids_of self.now) + 2) + 32 }
    {
        self.place_of(id?, steps)
    }

    /// Looks up four ids side by side, each where there is one: `number_of` then knows their numbers, and reads nothing
    /// for them. What is read for one doesn't wait for what is read for another, so it takes less time than one by one.
    pub fn look_ahead<C: Ledger>(&mut self, ids: [Option<IdNumber>; 4], steps: &mut Steps<C>)
        ensures names { names_in self.new ≡ names_in self.old }
        ensures asked { asked self.new.known ≡ ids }
        ensures grows { steps.old ≤ steps.new }
        ensures cost { steps.new ≤ steps.old + 4 * (11 * digits (length (ids_of self.old) + 2) + 46) }
    {
        let places = [
            self.place_for(ids[0], steps),
            self.place_for(ids[1], steps),
            self.place_for(ids[2], steps),
            self.place_for(ids[3], steps),
        ];
        let numbers = four_numbers(&self.inverse, places, steps);
        self.known = known_numbers(ids, numbers);
    }

    /// The number at this place of the list of names that rises by id.
    pub fn number_at<C: Ledger>(&self, place: usize, steps: &mut Steps<C>) -> usize
        requires { place < length (ids_of self.now) }
        ensures within { result < length (ids_of self.now) }
        ensures place { slice_index (names_in self.now).places result ≡ place }
        ensures number { number_at (names_in self.now) place ≡ Some result }
        ensures id { slice_index (ids_of self.now) result ≡ id_at (names_in self.now) place }
        ensures grows { steps.old ≤ steps.new }
        ensures cost { steps.new ≤ steps.old + 4 * digits (length (ids_of self.now) + 2) + 20 }
    {
        let Some(number) = self.inverse.number(place, steps) else {
            unreachable!()
        };
        number
    }
}
