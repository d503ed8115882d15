//! Regions by number, over borrowed words.

ghost use Rattle.std.specs.Prelude.{◌≡◌, ◌<◌, ◌≤◌, ℕ, length, slice_index, true};
ghost use Rattle.bit_words.specs.Bits.{rank};
ghost use Rattle.bit_words.specs.PackedView.{fields_of};
ghost use Rattle.parens.specs.ParenView.{parens_of};
ghost use Rattle.id_names.specs.Views.{ids_of};

use bit_words::{PackedView, Steps};
use id_names::NamesView;
use parens::ParenView;
use std::sync::ledger::Ledger;
use topo_base::IdNumber;

/// Regions as parentheses in preorder, their ids by number, and for each face by number 0 or 1 + its region's number.
#[derive(Clone, Copy)]
pub struct RegionView<'a> {
    tree: ParenView<'a>,
    names: NamesView<'a>,
    members: PackedView<'a>,
    ghost count: { rank true (parens_of tree) (length (parens_of tree)) ≡ length (ids_of names) },
    ghost fit: { (k : ℕ) → k < length (fields_of members) → slice_index (fields_of members) k ≤ length (ids_of names) },
}

impl<'a> RegionView<'a> {
    ghost use Rattle.std.specs.Prelude.{ℕ, ◌≡◌, ◌≢◌, ◌<◌, ◌≤◌, ◌+◌, ◌*◌, length, slice_index, true, IfSome, MatchOption};
    ghost use Rattle.bit_words.specs.Bits.{rank};
    ghost use Rattle.bit_words.specs.Digits.{digits};
    ghost use Rattle.bit_words.specs.PackedView.{fields_of};
    ghost use Rattle.parens.specs.ParenView.{parens_of};
    ghost use Rattle.id_names.specs.Names.{AreDistinctIds, number_of};
    ghost use Rattle.id_names.specs.Views.{ids_of};
    ghost use Rattle.plane_model.specs.Sets.{rising};
    ghost use Rattle.topo_base.specs.declared.id.TheConstants.{LARGEST_ID};
    ghost use Rattle.parens.specs.Matching.{is_open};
    ghost use Rattle.region_tree.specs.Nesting.{common_number, opening, parent_number, region_at};
    ghost use Rattle.region_tree.specs.RegionView.{regions_of};

    /// Regions that nest as these parentheses do, with these ids, and for each face 0 or 1 + the number of its region.
    /// No word is read.
    pub fn new(tree: ParenView<'a>, names: NamesView<'a>, members: PackedView<'a>) -> RegionView<'a>
        requires count { rank true (parens_of tree) (length (parens_of tree)) ≡ length (ids_of names) }
        requires fit { (k : ℕ) → k < length (fields_of members)
            → slice_index (fields_of members) k ≤ length (ids_of names) }
        ensures { regions_of result
            ≡ record { bits = parens_of tree.entry; ids = ids_of names.entry; members = fields_of members.entry } }
    {
        RegionView {
            tree,
            names,
            members,
        }
    }

    /// How many regions there are. No word is read.
    #[inline]
    pub fn count(&self) -> usize
        ensures count { result ≡ length (regions_of self.now).ids }
        ensures open { result ≡ rank true (regions_of self.now).bits (length (regions_of self.now).bits) }
        ensures few { result ≤ 16777216 }
        ensures names { AreDistinctIds (LARGEST_ID + 1) (regions_of self.now).ids }
    {
        self.names.count()
    }

    /// The region that the face of this number is in, or None where it is in none.
    #[tactic(auto, unfolding(crate::specs::Nesting::region_at))]
    pub fn of_face<C: Ledger>(&self, face: usize, steps: &mut Steps<C>) -> Option<usize>
        requires { face < length (regions_of self.now).members }
        ensures region { result ≡ region_at (regions_of self.now).members face }
        ensures within { IfSome result (λ region. region < length (regions_of self.now).ids) }
        ensures some_steps { steps.old + 1 ≤ steps.new }
        ensures cost { steps.new ≤ steps.old + 2 }
    {
        match self.members.field(face, steps) {
            0 => None,
            number => Some(number as usize - 1),
        }
    }

    /// The place where a region opens.
    fn opening<C: Ledger>(&self, region: usize, steps: &mut Steps<C>) -> usize
        requires { region < length (regions_of self.now).ids }
        ensures place { result ≡ opening (regions_of self.now).bits region }
        ensures within { result < length (regions_of self.now).bits }
        ensures opens { is_open (regions_of self.now).bits result ≡ true }
        ensures number { rank true (regions_of self.now).bits result ≡ region }
        ensures some_steps { steps.old + 1 ≤ steps.new }
        ensures cost { steps.new ≤ steps.old + 3 * digits (length (regions_of self.now).bits + 2) + 10 }
    {
        match self.tree.open_at(region, steps) {
            Some(place) => place,
            None => unreachable!(),
        }
    }

    /// The region right round this one, or None where there is none.
    pub fn parent<C: Ledger>(&self, region: usize, steps: &mut Steps<C>) -> Option<usize>
        requires { region < length (regions_of self.now).ids }
        ensures parent { result ≡ parent_number (regions_of self.now).bits region }
        ensures lower { IfSome result (λ parent. parent < region) }
        ensures some_steps { steps.old + 1 ≤ steps.new }
        ensures cost { steps.new ≤ steps.old + 7 * digits (length (regions_of self.now).bits + 2) + 61 }
    {
        let place = self.opening(region, steps);
        let round = self.tree.enclose(place, steps)?;
        Some(self.tree.opens_before(round, steps))
    }

    /// The innermost region that is or encloses both, or None where there is none.
    pub fn common<C: Ledger>(
        &self,
        first: usize,
        second: usize,
        steps: &mut Steps<C>,
    ) -> Option<usize>
        requires first { first < length (regions_of self.now).ids }
        requires second { second < length (regions_of self.now).ids }
        ensures common { result ≡ common_number (regions_of self.now).bits first second }
        ensures within { IfSome result (λ region. region < length (regions_of self.now).ids) }
        ensures some_steps { steps.old + 1 ≤ steps.new }
        ensures cost { steps.new ≤ steps.old + 18 * digits (length (regions_of self.now).bits + 2) + 130 }
    {
        let first_place = self.opening(first, steps);
        let second_place = self.opening(second, steps);
        let round = self.tree.common(first_place, second_place, steps)?;
        Some(self.tree.opens_before(round, steps))
    }

    /// The id of a region.
    #[inline]
    pub fn id_of<C: Ledger>(&self, region: usize, steps: &mut Steps<C>) -> IdNumber
        requires { region < length (regions_of self.now).ids }
        ensures id { result ≡ slice_index (regions_of self.now).ids region }
        ensures some_steps { steps.old + 1 ≤ steps.new }
        ensures cost { steps.new ≤ steps.old + 3 * digits (length (regions_of self.now).ids + 2) + 20 }
    {
        self.names.id_of(region, steps)
    }

    /// The region that has this id, or None where no region has it.
    pub fn number_of<C: Ledger>(&self, id: IdNumber, steps: &mut Steps<C>) -> Option<usize>
        ensures number { result ≡ number_of (regions_of self.now).ids id }
        ensures found { MatchOption result ((k : ℕ) → k < length (regions_of self.now).ids
            → slice_index (regions_of self.now).ids k ≢ id) (λ region. (region < length (regions_of self.now).ids)
            × (slice_index (regions_of self.now).ids region ≡ id)) }
        ensures grows { steps.old ≤ steps.new }
        ensures cost { steps.new ≤ steps.old + 12 * digits (length (regions_of self.now).ids + 2) + 60 }
    {
        self.names.number_of(id, steps)
    }

    /// The region whose id is at this place of the ids in rising order.
    pub fn number_at<C: Ledger>(&self, place: usize, steps: &mut Steps<C>) -> usize
        requires { place < length (regions_of self.now).ids }
        ensures within { result < length (regions_of self.now).ids }
        ensures id { slice_index (regions_of self.now).ids result
            ≡ slice_index (rising (regions_of self.now).ids) place }
        ensures grows { steps.old ≤ steps.new }
        ensures cost { steps.new ≤ steps.old + 4 * digits (length (regions_of self.now).ids + 2) + 20 }
    {
        self.names.number_at(place, steps)
    }
}
