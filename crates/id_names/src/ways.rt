//! A quick test that the walk from the place of each number comes to it.
//!
//! It counts places from which a walk surely comes to a number: those on the way from a mark to the next one, if that
//! one points back, and those in a short cycle without a mark. No place is counted twice, so where as many are counted
//! as there are numbers, no place is missing, and no two numbers have one place. Short cycles are few, so they are looked
//! for where ways did not pass all numbers.

ghost use Rattle.std.specs.Prelude.{◌≡◌, ◌<◌, ◌≤◌, ◌+◌, ◌*◌, length, true, false, IfSome, None, slice_index_or};
ghost use Rattle.bit_words.specs.Digits.{digits};
ghost use Rattle.bit_words.specs.PackedView.{fields_of};
ghost use Rattle.rank_select.specs.RankView.{counted};
ghost use Rattle.id_names.specs.Faults.{is_ordered, first_failing};
ghost use Rattle.id_names.specs.Inverse.{back_from};
ghost use Rattle.id_names.specs.PartViews.{number_in};
ghost use Rattle.id_names.specs.Ways.{IsWay, IsShortCycle, IsOnWay, IsOnCycle, AreMany};

use crate::at_once::all_point_back;
use crate::inverse::{Inverse, binary_digits};
use crate::range_counts::RangeCounts;
use bit_words::Steps;
use std::sync::ledger::Ledger;

/// What a marked number points back to.
fn pointer<C: Ledger>(inverse: Inverse<'_>, number: usize, steps: &mut Steps<C>) -> usize
    requires within { number < length (fields_of inverse.places) }
    requires marked { slice_index_or (counted inverse.marks) number false ≡ true }
    ensures pointer { result ≡ back_from (counted inverse.entry.marks) (fields_of inverse.entry.back) number }
    ensures grows { steps.old ≤ steps.new }
    ensures cost { steps.new ≤ steps.old + 11 }
{
    let mark = inverse.marks.rank1(number, steps);
    inverse.back.field(mark, steps) as usize
}

/// A way from a mark, as far as it was followed.
#[derive(Clone, Copy)]
struct Way {
    mark: usize,
    /// Where it has come to.
    number: usize,
    /// How many steps lead there.
    passed: usize,
    /// Whether they have come to a mark.
    has_ended: bool,
}

impl Way {
    ghost use Rattle.std.specs.Prelude.{◌≡◌, ◌<◌, ◌≤◌, ◌+◌, length, true, false, IfSome, Some};
    ghost use Rattle.bit_words.specs.PackedView.{fields_of};
    ghost use Rattle.rank_select.specs.RankView.{counted};
    ghost use Rattle.id_names.specs.Inverse.{stride};
    ghost use Rattle.id_names.specs.Ways.{IsWay, IsFollowed, begun};

    /// A way of which no step is taken.
    fn begun(mark: usize) -> Way
        ensures { result ≡ begun mark }
    {
        Way {
            mark,
            number: mark,
            passed: 0,
            has_ended: false,
        }
    }

    /// One step more, unless the way has ended. None where it leads to no number.
    #[inline]
    fn step<C: Ledger>(
        self,
        inverse: Inverse<'_>,
        seen: &mut RangeCounts,
        steps: &mut Steps<C>,
    ) -> Option<Way>
        requires followed { IsFollowed (fields_of inverse.places) (counted inverse.marks) self }
        requires few { self.passed < 64 }
        ensures followed { IfSome result (λ way. IsFollowed (fields_of inverse.entry.places)
            (counted inverse.entry.marks) way) }
        ensures same { IfSome result (λ way. way.mark ≡ self.mark) }
        ensures one_more { IfSome result (λ way. self.has_ended ≡ false → way.passed ≡ self.passed + 1) }
        ensures most { IfSome result (λ way. way.passed ≤ self.passed + 1) }
        ensures ended { self.has_ended ≡ true → result ≡ Some self }
        ensures grows { steps.old ≤ steps.new }
        ensures cost { steps.new ≤ steps.old + 3 }
    {
        if self.has_ended {
            return Some(self);
        }
        let number = inverse.places.field(self.number, steps) as usize;
        if number >= inverse.places.count() {
            return None;
        }
        seen.see(number);
        Some(Way {
            number,
            passed: self.passed + 1,
            has_ended: inverse.marks.bits().bit(number, steps),
            ..self
        })
    }

    /// How many steps lead to the next mark. None where it hasn't come, or points back to another number.
    fn steps_to_mark<C: Ledger>(self, inverse: Inverse<'_>, steps: &mut Steps<C>) -> Option<usize>
        requires followed { IsFollowed (fields_of inverse.places) (counted inverse.marks) self }
        requires near { self.passed ≤ stride (length (fields_of inverse.places)) }
        ensures way { IfSome result (λ count. IsWay (fields_of inverse.entry.places) (counted inverse.entry.marks)
            (fields_of inverse.entry.back) self.mark count) }
        ensures count { IfSome result (λ count. count ≡ self.passed) }
        ensures grows { steps.old ≤ steps.new }
        ensures cost { steps.new ≤ steps.old + 11 }
    {
        if self.has_ended && pointer(inverse, self.number, steps) == self.mark {
            Some(self.passed)
        } else {
            None
        }
    }
}

/// How many steps lead from a mark to the next one. None where that one points back to another number, or is too far
/// away.
fn one_way<C: Ledger>(
    inverse: Inverse<'_>,
    mark: usize,
    seen: &mut RangeCounts,
    steps: &mut Steps<C>,
) -> Option<usize>
    requires within { mark < length (fields_of inverse.places) }
    ensures way { IfSome result (λ count. IsWay (fields_of inverse.entry.places)
        (counted inverse.entry.marks) (fields_of inverse.entry.back) mark count) }
    ensures few { IfSome result (λ count. count ≤ 64) }
    ensures grows { steps.old ≤ steps.new }
    ensures cost { steps.new ≤ steps.old + 3 * digits (length (fields_of inverse.entry.places) + 2) + 11 }
{
    let mut way = Way::begun(mark);
    for _ in 0..binary_digits(inverse.places.count() + 2) {
        if way.has_ended {
            break;
        }
        way = way.step(inverse, seen, steps)?;
    }
    way.steps_to_mark(inverse, steps)
}

/// The same for two marks, side by side: what is read on one way doesn't wait for what is read on the other.
fn two_ways<C: Ledger>(
    inverse: Inverse<'_>,
    first: usize,
    second: usize,
    seen: &mut RangeCounts,
    steps: &mut Steps<C>,
) -> Option<(usize, usize)>
    requires first_within { first < length (fields_of inverse.places) }
    requires second_within { second < length (fields_of inverse.places) }
    ensures first { IfSome result (λ counts. IsWay (fields_of inverse.entry.places)
        (counted inverse.entry.marks) (fields_of inverse.entry.back) first counts.0) }
    ensures second { IfSome result (λ counts. IsWay (fields_of inverse.entry.places)
        (counted inverse.entry.marks) (fields_of inverse.entry.back) second counts.1) }
    ensures few { IfSome result (λ counts. (counts.0 ≤ 64) × (counts.1 ≤ 64)) }
    ensures grows { steps.old ≤ steps.new }
    ensures cost { steps.new ≤ steps.old + 6 * digits (length (fields_of inverse.entry.places) + 2) + 22 }
{
    let mut one = Way::begun(first);
    let mut other = Way::begun(second);
    for _ in 0..binary_digits(inverse.places.count() + 2) {
        if one.has_ended && other.has_ended {
            break;
        }
        one = one.step(inverse, seen, steps)?;
        other = other.step(inverse, seen, steps)?;
    }
    let from_first = one.steps_to_mark(inverse, steps)?;
    let from_second = other.steps_to_mark(inverse, steps)?;
    Some((from_first, from_second))
}

/// How many numbers are in the cycle of one without a mark, whose least it is. 0 where a mark or a smaller number is on
/// the cycle, None where neither comes soon.
fn short_cycle<C: Ledger>(inverse: Inverse<'_>, least: usize, steps: &mut Steps<C>) -> Option<usize>
    requires within { least < length (fields_of inverse.places) }
    ensures cycle { IfSome result (λ count. 1 ≤ count → IsShortCycle (fields_of inverse.entry.places)
        (counted inverse.entry.marks) least count) }
    ensures few { IfSome result (λ count. count ≤ 65) }
    ensures grows { steps.old ≤ steps.new }
    ensures cost { steps.new ≤ steps.old + 3 * digits (length (fields_of inverse.entry.places) + 2) + 3 }
{
    let most = binary_digits(inverse.places.count() + 2) as usize + 1;
    let mut number = least;
    for passed in 0..most {
        if inverse.marks.bits().bit(number, steps) {
            return Some(0);
        }
        number = inverse.places.field(number, steps) as usize;
        if number >= inverse.places.count() {
            return None;
        }
        if number < least {
            return Some(0);
        }
        if number == least {
            return Some(passed + 1);
        }
    }
    None
}

/// How many places are on ways from marks, or None where one of these isn't right. A mark waits for the next one, and
/// their ways are followed together.
fn on_ways<C: Ledger>(
    inverse: Inverse<'_>,
    seen: &mut RangeCounts,
    steps: &mut Steps<C>,
) -> Option<usize>
    ensures many { IfSome result (λ count. AreMany (IsOnWay (fields_of inverse.entry.places)
        (counted inverse.entry.marks) (fields_of inverse.entry.back) (length (fields_of inverse.entry.places))) count) }
    ensures few { IfSome result (λ count. count ≤ 64 * length (fields_of inverse.entry.places)) }
    ensures grows { steps.old ≤ steps.new }
    ensures cost { steps.new ≤ steps.old + length (fields_of inverse.entry.places)
        * (3 * digits (length (fields_of inverse.entry.places) + 2) + 12) }
{
    let mut count = 0;
    let mut waiting = None;
    for mark in 0..inverse.places.count() {
        if inverse.marks.bits().bit(mark, steps) {
            match waiting.take() {
                None => waiting = Some(mark),
                Some(first) => {
                    let (from_first, from_mark) = two_ways(inverse, first, mark, seen, steps)?;
                    count += from_first + from_mark;
                }
            }
        }
    }
    if let Some(last) = waiting {
        count += one_way(inverse, last, seen, steps)?;
    }
    Some(count)
}

/// The same as `short_cycle`, with no search where all numbers of the range were seen.
fn unseen_cycle<C: Ledger>(
    inverse: Inverse<'_>,
    least: usize,
    seen: &RangeCounts,
    steps: &mut Steps<C>,
) -> Option<usize>
    requires within { least < length (fields_of inverse.places) }
    ensures cycle { IfSome result (λ count. 1 ≤ count → IsShortCycle (fields_of inverse.entry.places)
        (counted inverse.entry.marks) least count) }
    ensures few { IfSome result (λ count. count ≤ 65) }
    ensures grows { steps.old ≤ steps.new }
    ensures cost { steps.new ≤ steps.old + 3 * digits (length (fields_of inverse.entry.places) + 2) + 3 }
{
    if seen.may_lack(least) {
        short_cycle(inverse, least, steps)
    } else {
        Some(0)
    }
}

/// How many places are in short cycles without a mark, or None where one of these isn't right.
fn on_cycles<C: Ledger>(
    inverse: Inverse<'_>,
    seen: &RangeCounts,
    steps: &mut Steps<C>,
) -> Option<usize>
    ensures many { IfSome result (λ count. AreMany (IsOnCycle (fields_of inverse.entry.places)
        (counted inverse.entry.marks) (fields_of inverse.entry.back) (length (fields_of inverse.entry.places))) count) }
    ensures few { IfSome result (λ count. count ≤ 65 * length (fields_of inverse.entry.places)) }
    ensures grows { steps.old ≤ steps.new }
    ensures cost { steps.new ≤ steps.old + length (fields_of inverse.entry.places)
        * (3 * digits (length (fields_of inverse.entry.places) + 2) + 3) }
{
    let mut count = 0;
    for least in 0..inverse.places.count() {
        count += unseen_cycle(inverse, least, seen, steps)?;
    }
    Some(count)
}

/// Whether the walk from the place of each number is seen to come to it, from the pointers alone or by counts. It is
/// meant to for all that `make` makes, which no contract says: where it isn't, the walks themselves decide.
pub(crate) fn all_found<C: Ledger>(inverse: Inverse<'_>, steps: &mut Steps<C>) -> bool
    ensures all { result ≡ true → first_failing (is_ordered (fields_of inverse.entry.places) (number_in inverse.entry))
        (length (fields_of inverse.entry.places)) ≡ None }
    ensures grows { steps.old ≤ steps.new }
    ensures cost { steps.new ≤ steps.old + length (fields_of inverse.entry.places)
        * (6 * digits (length (fields_of inverse.entry.places) + 2) + 20) }
{
    if all_point_back(inverse, steps) {
        return true;
    }
    let mut seen = RangeCounts::over(inverse.places.count());
    let Some(ways) = on_ways(inverse, &mut seen, steps) else {
        return false;
    };
    let Some(cycles) = on_cycles(inverse, &seen, steps) else {
        return false;
    };
    ways + cycles == inverse.places.count()
}
