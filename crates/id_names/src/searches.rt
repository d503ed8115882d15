//! Numbers that are looked for side by side: what is read for one doesn't wait for what is read for another.

ghost use Rattle.std.specs.Prelude.{ℕ, ◌≡◌, ◌≤◌, ◌+◌, ◌*◌, map, length};
ghost use Rattle.bit_words.specs.Digits.{digits};
ghost use Rattle.bit_words.specs.PackedView.{fields_of};
ghost use Rattle.id_names.specs.Searches.{number_for};

use crate::inverse::{Inverse, binary_digits};
use bit_words::Steps;
use std::sync::ledger::Ledger;

/// How far a search has come.
#[derive(Clone, Copy)]
enum State {
    UnderWay,
    Found,
    Missing,
}

/// A walk along the places to the number of one, as far as it was followed.
#[derive(Clone, Copy)]
struct Search {
    /// The place whose number is looked for.
    place: usize,
    /// The number that the walk has come to.
    number: usize,
    /// Whether the next mark may lead it back.
    may_jump: bool,
    state: State,
}

impl Search {
    ghost use Rattle.std.specs.Prelude.{ℕ, ◌≡◌, ◌≤◌, ◌+◌, length, true};
    ghost use Rattle.bit_words.specs.PackedView.{fields_of};
    ghost use Rattle.id_names.specs.Inverse.{stride};
    ghost use Rattle.id_names.specs.Searches.{number_for, found_within, jump_left};
    ghost use Rattle.id_names.specs.declared.inverse.Inverse.{Inverse};

    /// The search for the number of a place, of which no step is taken. One for no place finds nothing.
    fn begun(place: Option<usize>) -> Search
        ensures found { (inverse : Inverse) → found_within inverse (stride (length (fields_of inverse.places)) + 1) result
            ≡ number_for inverse place }
        ensures jump { jump_left result ≤ 11 }
    {
        match place {
            Some(place) => Search {
                place,
                number: place,
                may_jump: true,
                state: State::UnderWay,
            },
            None => Search {
                place: 0,
                number: 0,
                may_jump: false,
                state: State::Missing,
            },
        }
    }

    /// Goes one step on, unless the search has ended.
    #[inline]
    fn step<C: Ledger>(&mut self, inverse: &Inverse<'_>, steps: &mut Steps<C>)
        ensures found { (tests : ℕ) → found_within inverse.now tests self.new ≡ found_within inverse.now (tests + 1) self.old }
        ensures grows { steps.old ≤ steps.new }
        ensures cost { steps.new + jump_left self.new ≤ steps.old + jump_left self.old + 3 }
    {
        let State::UnderWay = self.state else {
            return;
        };
        if self.number >= inverse.places.count() {
            self.state = State::Missing;
            return;
        }
        let next = inverse.places.field(self.number, steps) as usize;
        if next == self.place {
            self.state = State::Found;
            return;
        }
        if self.may_jump && inverse.marks.bits().bit(self.number, steps) {
            let mark = inverse.marks.rank1(self.number, steps);
            self.number = inverse.back.field(mark, steps) as usize;
            self.may_jump = false;
            return;
        }
        self.number = next;
    }

    /// Whether it has ended, so that no step changes it.
    #[inline]
    fn has_ended(&self) -> bool
        ensures { result ≡ true → (inverse : Inverse) → (tests : ℕ) → found_within inverse tests self.now
            ≡ found_within inverse 0 self.now }
    {
        match self.state {
            State::UnderWay => false,
            State::Found | State::Missing => true,
        }
    }

    /// What it has found, where no step is left to take.
    fn found(&self) -> Option<usize>
        ensures { (inverse : Inverse) → result ≡ found_within inverse 0 self.now }
    {
        match self.state {
            State::Found => Some(self.number),
            State::UnderWay | State::Missing => None,
        }
    }
}

/// Four searches side by side.
#[derive(Clone, Copy)]
struct Searches {
    first: Search,
    second: Search,
    third: Search,
    fourth: Search,
}

impl Searches {
    ghost use Rattle.std.specs.Prelude.{ℕ, ◌≡◌, ◌≤◌, ◌+◌, map, length, true};
    ghost use Rattle.bit_words.specs.PackedView.{fields_of};
    ghost use Rattle.id_names.specs.Inverse.{stride};
    ghost use Rattle.id_names.specs.Searches.{number_for, each_within, jumps_left};
    ghost use Rattle.id_names.specs.declared.inverse.Inverse.{Inverse};

    /// The searches for the numbers of four places, of which no step is taken.
    fn begun(places: [Option<usize>; 4]) -> Searches
        ensures found { (inverse : Inverse) → each_within inverse (stride (length (fields_of inverse.places)) + 1) result
            ≡ map (number_for inverse) places }
        ensures jumps { jumps_left result ≤ 44 }
    {
        Searches {
            first: Search::begun(places[0]),
            second: Search::begun(places[1]),
            third: Search::begun(places[2]),
            fourth: Search::begun(places[3]),
        }
    }

    /// Goes one step on in each.
    #[inline]
    fn step<C: Ledger>(&mut self, inverse: &Inverse<'_>, steps: &mut Steps<C>)
        ensures found { (tests : ℕ) → each_within inverse.now tests self.new ≡ each_within inverse.now (tests + 1) self.old }
        ensures grows { steps.old ≤ steps.new }
        ensures cost { steps.new + jumps_left self.new ≤ steps.old + jumps_left self.old + 12 }
    {
        self.first.step(inverse, steps);
        self.second.step(inverse, steps);
        self.third.step(inverse, steps);
        self.fourth.step(inverse, steps);
    }

    /// Whether all have ended.
    #[inline]
    fn have_ended(&self) -> bool
        ensures { result ≡ true → (inverse : Inverse) → (tests : ℕ) → each_within inverse tests self.now
            ≡ each_within inverse 0 self.now }
    {
        self.first.has_ended()
            && self.second.has_ended()
            && self.third.has_ended()
            && self.fourth.has_ended()
    }

    /// What they have found, where no step is left to take.
    fn found(&self) -> [Option<usize>; 4]
        ensures { (inverse : Inverse) → result ≡ each_within inverse 0 self.now }
    {
        [
            self.first.found(),
            self.second.found(),
            self.third.found(),
            self.fourth.found(),
        ]
    }
}

/// Follows the walks from four places side by side to their ends, each where there is a place.
fn follow_four<C: Ledger>(
    inverse: &Inverse<'_>,
    places: [Option<usize>; 4],
    steps: &mut Steps<C>,
) -> [Option<usize>; 4]
    ensures numbers { result ≡ map (number_for inverse.now) places }
    ensures grows { steps.old ≤ steps.new }
    ensures cost { steps.new ≤ steps.old + 12 * digits (length (fields_of inverse.now.places) + 2) + 56 }
{
    let mut searches = Searches::begun(places);
    for _ in 0..binary_digits(inverse.places.count() + 2) + 1 {
        if searches.have_ended() {
            break;
        }
        searches.step(inverse, steps);
    }
    searches.found()
}

/// The numbers of four places, each where there is a place.
pub(crate) fn four_numbers<C: Ledger>(
    inverse: &Inverse<'_>,
    places: [Option<usize>; 4],
    steps: &mut Steps<C>,
) -> [Option<usize>; 4]
    ensures numbers { result ≡ map (number_for inverse.now) places }
    ensures grows { steps.old ≤ steps.new }
    ensures cost { steps.new ≤ steps.old + 12 * digits (length (fields_of inverse.now.places) + 2) + 56 }
{
    if let [None, None, None, None] = places {
        return [None; 4];
    }
    follow_four(inverse, places, steps)
}
