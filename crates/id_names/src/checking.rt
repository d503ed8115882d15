//! The check of the parts of names, and the sweeps that it makes.

ghost use Rattle.std.specs.Prelude.{◌≡◌, ◌≤◌, ◌+◌, ◌*◌, length, MatchResult, Some, None};
ghost use Rattle.bit_words.specs.Digits.{digits};
ghost use Rattle.bit_words.specs.PackedView.{fields_of};
ghost use Rattle.rank_select.specs.RankView.{counted};
ghost use Rattle.id_names.specs.Faults.{is_rising, is_ordered, first_failing};
ghost use Rattle.id_names.specs.Parts.{fault_of, HasSizes};
ghost use Rattle.id_names.specs.PartViews.{bound_in, id_in, number_in};

use crate::fault::NameFault;
use crate::inverse::Inverse;
use crate::name_parts::NameParts;
use crate::rising_ids::RisingIds;
use crate::ways::all_found;
use bit_words::Steps;
use rank_select::{RankView, check_counts};
use std::sync::ledger::Ledger;

/// The first place whose id is out of range, or not above that of the place before.
fn first_not_rising<C: Ledger>(ids: RisingIds<'_>, steps: &mut Steps<C>) -> Option<usize>
    ensures place { result ≡ first_failing (is_rising (bound_in ids.entry) (id_in ids.entry))
        (length (fields_of ids.entry.lows)) }
    ensures grows { steps.old ≤ steps.new }
    ensures cost { steps.new ≤ steps.old + length (counted ids.entry.high) + 2 * length (fields_of ids.entry.lows) }
{
    let bound = ids.id_bound();
    let bits = ids.high.bits();
    let mut place = 0;
    let mut last = 0;
    for one in 0..bits.len() {
        if bits.bit(one, steps) {
            let id = ids.id_of_one(place, one, steps);
            if id <= last || id >= bound {
                return Some(place);
            }
            place += 1;
            last = id;
        }
    }
    None
}

/// The first number that has no place, or to which the walk from its place does not come.
fn first_by_walks<C: Ledger>(inverse: Inverse<'_>, steps: &mut Steps<C>) -> Option<usize>
    ensures number { result ≡ first_failing (is_ordered (fields_of inverse.entry.places) (number_in inverse.entry))
        (length (fields_of inverse.entry.places)) }
    ensures grows { steps.old ≤ steps.new }
    ensures cost { steps.new ≤ steps.old + length (fields_of inverse.entry.places)
        * (3 * digits (length (fields_of inverse.entry.places) + 2) + 16) }
{
    let count = inverse.places.count();
    for number in 0..count {
        let place = inverse.places.field(number, steps) as usize;
        if place >= count || inverse.number(place, steps) != Some(number) {
            return Some(number);
        }
    }
    None
}

/// The first number that has no place, or to which the walk from its place does not come. Where counts show that there
/// is none, no walk is made.
fn first_not_found<C: Ledger>(inverse: Inverse<'_>, steps: &mut Steps<C>) -> Option<usize>
    ensures number { result ≡ first_failing (is_ordered (fields_of inverse.entry.places) (number_in inverse.entry))
        (length (fields_of inverse.entry.places)) }
    ensures grows { steps.old ≤ steps.new }
    ensures cost { steps.new ≤ steps.old + length (fields_of inverse.entry.places)
        * (9 * digits (length (fields_of inverse.entry.places) + 2) + 36) }
{
    if all_found(inverse, steps) {
        return None;
    }
    first_by_walks(inverse, steps)
}

/// Whether the parts are names: the ids rise and are in range, each number has a place, and from the place the walk
/// back comes to the number. Err has the first fault, in the order of `NameFault`.
pub fn check<C: Ledger>(parts: NameParts<'_>, steps: &mut Steps<C>) -> Result<(), NameFault>
    requires sizes { HasSizes parts }
    ensures checked { MatchResult result (λ _. fault_of parts.entry ≡ None)
        (λ fault. fault_of parts.entry ≡ Some fault) }
    ensures some_steps { steps.old + 1 ≤ steps.new }
    ensures cost { steps.new ≤ steps.old + 64
        * (digits (length (fields_of parts.entry.places) + 2) * (length (fields_of parts.entry.places) + 1)) }
{
    if let Err(wrong) = check_counts(parts.high, parts.high_counts, steps) {
        return Err(NameFault::HighCounts { at: wrong.at });
    }
    let high = RankView::new(parts.high, parts.high_counts);
    let ones = high.rank1(parts.high.len(), steps);
    if ones != parts.places.count() {
        return Err(NameFault::Ones { found: ones as u64 });
    }
    let ids = RisingIds {
        high,
        lows: parts.lows,
    };
    if let Some(place) = first_not_rising(ids, steps) {
        return Err(NameFault::Rising { at: place as u64 });
    }
    if let Err(wrong) = check_counts(parts.marks, parts.mark_counts, steps) {
        return Err(NameFault::MarkCounts { at: wrong.at });
    }
    let marks = RankView::new(parts.marks, parts.mark_counts);
    let marked = marks.rank1(parts.marks.len(), steps);
    if marked != parts.back.count() {
        return Err(NameFault::MarkOnes {
            found: marked as u64,
        });
    }
    let inverse = Inverse {
        places: parts.places,
        marks,
        back: parts.back,
    };
    if let Some(number) = first_not_found(inverse, steps) {
        return Err(NameFault::Order { at: number as u64 });
    }
    Ok(())
}
