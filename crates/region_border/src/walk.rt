//! The walk round the outline of a region, step by step.

ghost use Rattle.std.specs.Prelude.{◌≤◌, ◌<◌, ◌*◌, length, slice_index};
ghost use Rattle.pemb_file.specs.Served.{contents_of_view};
ghost use Rattle.navigate.specs.Bound.{map_with};
ghost use Rattle.region_border.specs.Standing.{IsStanding};

use crate::beginnings::{first_unmarked, mark_number};
use crate::clearing::clear_below;
use crate::item::BorderItem;
use crate::looking::outline_of;
use crate::ring::Ring;
use bit_words::Steps;
use pemb_file::Served;
use scratch_region::Marks;
use std::sync::ledger::Ledger;

/// A walk round the outline of a region: ring by ring, by their smallest signed edges, each from its smallest.
#[derive(Drop)]
pub struct BorderWalk<'a> {
    served: Served<'a>,
    /// The number of the region.
    region: usize,
    /// How many signed edges, in their order, were looked at for the beginnings of rings.
    seen: usize,
    /// What is left of the ring that it goes round. None between two rings.
    ring: Option<Ring>,
    ghost region_in: { region < length (contents_of_view served).regions },
    ghost seen_in: { seen ≤ 2 * length (contents_of_view served).edges },
    ghost standing: { IsStanding (map_with (contents_of_view served))
        (slice_index (contents_of_view served).regions region) seen ring },
}

impl<'a> BorderWalk<'a> {
    ghost use Rattle.std.specs.Prelude.{◌≡◌, ◌<◌, ◌≤◌, ◌+◌, ◌*◌, ◌++◌, ◌∷◌, [], IsNone, IsTrue, IfSome, MatchOption, length, slice_index, option_to_list};
    ghost use Rattle.plane_model.specs.Border.{border};
    ghost use Rattle.scratch_region.specs.Marks.{room_of, IsEmpty};
    ghost use Rattle.pemb_file.specs.Served.{contents_of_view};
    ghost use Rattle.navigate.specs.Bound.{served_map};
    ghost use Rattle.region_border.specs.Items.{items_of, edges_in, is_edge};
    ghost use Rattle.region_border.specs.BorderWalk.{contents_in, rest, given, allowance, HoldsGiven};
    ghost use Rattle.region_border.specs.Prices.{walk_price};

    /// The walk at its beginning, round the outline of the region of a number.
    pub(crate) fn begin(served: Served<'a>, region: usize) -> BorderWalk<'a>
        requires { region < length (contents_of_view served).regions }
        ensures contents { contents_in result ≡ contents_of_view served.entry }
        ensures list { rest result ≡ items_of (border (served_map served.entry)
            (slice_index (contents_of_view served.entry).regions region)) }
        ensures given { given result ≡ [] }
        ensures paid { allowance result ≡ walk_price (contents_of_view served.entry)
            (slice_index (contents_of_view served.entry).regions region) 0 (rest result) }
    {
        BorderWalk {
            served,
            region,
            seen: 0,
            ring: None,
        }
    }

    /// Goes on to the beginning of the next ring, where it stands between two.
    fn settle<C: Ledger>(&mut self, marks: &Marks<'_>, steps: &mut Steps<C>)
        requires room { 2 * length (contents_in self.old).edges ≤ room_of marks.now }
        requires marks { HoldsGiven self.old marks.now }
        ensures contents { contents_in self.new ≡ contents_in self.old }
        ensures region { self.new.region ≡ self.old.region }
        ensures rest { rest self.new ≡ rest self.old }
        ensures ready { self.new.ring ≡ None → rest self.new ≡ [] }
        ensures grows { steps.old ≤ steps.new }
        ensures paid { steps.new + allowance self.new ≤ steps.old + allowance self.old }
    {
        if let Some(_ring) = self.ring {
            return;
        }
        let count = self.served.code().len();
        let Some(found) = first_unmarked(self.served, self.region, self.seen, marks, steps) else {
            self.seen = count;
            return;
        };
        self.seen = found.0 + 1;
        self.ring = Some(Ring::whole(found.1, count));
    }

    /// Gives the next item of the ring where it stands, or None where it stands at none.
    fn give<C: Ledger>(&mut self, marks: &mut Marks<'_>, steps: &mut Steps<C>) -> Option<BorderItem>
        requires room { 2 * length (contents_in self.old).edges ≤ room_of marks.old }
        requires marks { HoldsGiven self.old marks.old }
        requires ready { self.old.ring ≡ None → rest self.old ≡ [] }
        ensures contents { contents_in self.new ≡ contents_in self.old }
        ensures room { room_of marks.new ≡ room_of marks.old }
        ensures next { MatchOption result (rest self.old ≡ []) (λ item. rest self.old ≡ item ∷ rest self.new) }
        ensures end { IsNone result → rest self.new ≡ [] }
        ensures given { given self.new ≡ given self.old ++ edges_in (option_to_list result) }
        ensures marks { HoldsGiven self.new marks.new }
        ensures least { IfSome result (λ item. IsTrue (is_edge item) → steps.old + 1 ≤ steps.new) }
        ensures grows { steps.old ≤ steps.new }
        ensures paid { steps.new + allowance self.new ≤ steps.old + allowance self.old }
    {
        let Some(ring) = self.ring else {
            return None;
        };
        if ring.left == 0 {
            self.ring = None;
            return Some(BorderItem::RingEnd);
        }
        let number = mark_number(self.served, ring.at, steps);
        marks.set(number);
        let next = outline_of(self.served, self.region, ring.at, steps);
        self.ring = Some(Ring::from(ring.first, next, ring.left - 1));
        Some(BorderItem::Edge(ring.at))
    }

    /// The next signed edge of a ring, or that the ring ends, or None at the end. The marks are the numbers of the
    /// signed edges given so far: twice the number of the edge, and 1 more where it is backward.
    pub fn step<C: Ledger>(
        &mut self,
        marks: &mut Marks<'_>,
        steps: &mut Steps<C>,
    ) -> Option<BorderItem>
        requires room { 2 * length (contents_in self.old).edges ≤ room_of marks.old }
        requires marks { HoldsGiven self.old marks.old }
        ensures contents { contents_in self.new ≡ contents_in self.old }
        ensures room { room_of marks.new ≡ room_of marks.old }
        ensures next { MatchOption result (rest self.old ≡ []) (λ item. rest self.old ≡ item ∷ rest self.new) }
        ensures end { IsNone result → rest self.new ≡ [] }
        ensures given { given self.new ≡ given self.old ++ edges_in (option_to_list result) }
        ensures marks { HoldsGiven self.new marks.new }
        ensures least { IfSome result (λ item. IsTrue (is_edge item) → steps.old + 1 ≤ steps.new) }
        ensures grows { steps.old ≤ steps.new }
        ensures paid { steps.new + allowance self.new ≤ steps.old + allowance self.old }
    {
        self.settle(marks, steps);
        self.give(marks, steps)
    }

    /// Takes the marks of the signed edges given so far away. No word is read.
    pub fn close<C: Ledger>(self, marks: &mut Marks<'_>, _steps: &mut Steps<C>)
        requires room { 2 * length (contents_in self).edges ≤ room_of marks.old }
        requires marks { HoldsGiven self marks.old }
        ensures room { room_of marks.new ≡ room_of marks.old }
        ensures empty { IsEmpty marks.new }
        ensures free { _steps.new ≡ _steps.old }
    {
        let served = self.served;
        let end = served.code().len();
        clear_below(marks, end);
    }
}
