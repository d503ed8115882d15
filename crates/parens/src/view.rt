//! Balanced parentheses that are asked for their pairs.

ghost use Rattle.std.specs.Prelude.{◌≡◌, ◌≤◌, length, IsTrue};
ghost use Rattle.rank_select.specs.RankView.{counted};
ghost use Rattle.min_max_tree.specs.MinMaxView.{searched};
ghost use Rattle.parens.specs.Matching.{is_balanced};

use bit_words::Steps;
use min_max_tree::{MinMaxView, Scan};
use rank_select::RankView;
use std::sync::ledger::Ledger;

/// Balanced parentheses, with what counts and searches them.
#[derive(Clone, Copy)]
pub struct ParenView<'a> {
    ranks: RankView<'a>,
    tree: MinMaxView<'a>,
    ghost same: { counted ranks ≡ searched tree },
    ghost few: { length (searched tree) ≤ 2147483647 },
    ghost balanced: { IsTrue (is_balanced (searched tree) 0 (length (searched tree))) },
}

impl<'a> ParenView<'a> {
    ghost use Rattle.std.specs.Prelude.{ℕ, ◌≡◌, ◌<◌, ◌≤◌, ◌+◌, ◌-◌, ◌*◌, ◌↔◌, ◌-ℤ◌, length, min, max, true, false, pos, Some, IsTrue, IsNone, IfSome};
    ghost use Rattle.rank_select.specs.RankView.{counted};
    ghost use Rattle.min_max_tree.specs.MinMaxView.{searched};
    ghost use Rattle.bit_words.specs.Bits.{rank, excess, IsLast, IsSelected};
    ghost use Rattle.bit_words.specs.Digits.{digits};
    ghost use Rattle.min_max_tree.specs.Tree.{least};
    ghost use Rattle.parens.specs.Matching.{is_balanced, is_open, mate_of, innermost, common_of};
    ghost use Rattle.parens.specs.Pairs.{IsPair, IsInnermost, IsOver, IsCommon};
    ghost use Rattle.parens.specs.ParenView.{parens_of};

    /// The parentheses that both stand over, which `check_balanced` finds balanced. No word is read.
    pub fn new(ranks: RankView<'a>, tree: MinMaxView<'a>) -> ParenView<'a>
        requires same { counted ranks ≡ searched tree }
        requires few { length (searched tree) ≤ 2147483647 }
        requires balanced { IsTrue (is_balanced (searched tree) 0 (length (searched tree))) }
        ensures { parens_of result ≡ searched tree.entry }
    {
        ParenView { ranks, tree }
    }

    /// How many places there are. No word is read.
    #[inline]
    pub fn len(&self) -> usize
        ensures len { result ≡ length (parens_of self.now) }
        ensures few { result ≤ 2147483647 }
        ensures balanced { IsTrue (is_balanced (parens_of self.now) 0 (length (parens_of self.now))) }
    {
        self.ranks.bits().len()
    }

    /// The other place of the pair that place `i` is of.
    pub fn mate<C: Ledger>(&self, i: usize, steps: &mut Steps<C>) -> usize
        requires { i < length (parens_of self.now) }
        ensures mate { result ≡ mate_of (parens_of self.now) i }
        ensures back { mate_of (parens_of self.now) result ≡ i }
        ensures forward { IsTrue (is_open (parens_of self.now) i) ↔ (i < result) }
        ensures pair { IsPair (parens_of self.now) (min i result) (max i result) }
        ensures some_steps { steps.old + 1 ≤ steps.new }
        ensures cost { steps.new ≤ steps.old + 2 * digits (length (parens_of self.now) + 2) + 17 }
    {
        if self.is_open(i, steps) {
            self.close(i, steps)
        } else {
            self.open(i, steps)
        }
    }

    /// The place that closes what opens at `i`.
    fn close<C: Ledger>(&self, i: usize, steps: &mut Steps<C>) -> usize
        requires { is_open (parens_of self.now) i ≡ true }
        ensures pair { IsPair (parens_of self.now) i result }
        ensures grows { steps.old ≤ steps.new }
        ensures cost { steps.new ≤ steps.old + 2 * digits (length (parens_of self.now) + 2) + 16 }
    {
        match self.tree.forward(i + 1, 1, steps) {
            Some(end) => end - 1,
            None => unreachable!(),
        }
    }

    /// The place that opens what closes at `j`.
    fn open<C: Ledger>(&self, j: usize, steps: &mut Steps<C>) -> usize
        requires within { j < length (parens_of self.now) }
        requires closes { is_open (parens_of self.now) j ≡ false }
        ensures pair { IsPair (parens_of self.now) result j }
        ensures grows { steps.old ≤ steps.new }
        ensures cost { steps.new ≤ steps.old + 2 * digits (length (parens_of self.now) + 2) + 16 }
    {
        match self.tree.backward(j, 1, steps) {
            Some(place) => place,
            None => unreachable!(),
        }
    }

    /// Whether place `i` opens, by one step.
    pub fn is_open<C: Ledger>(&self, i: usize, steps: &mut Steps<C>) -> bool
        requires { i < length (parens_of self.now) }
        ensures open { result ≡ is_open (parens_of self.now) i }
        ensures one_step { steps.new ≡ steps.old + 1 }
    {
        self.ranks.bits().bit(i, steps)
    }

    /// The opening place of the innermost pair that opens before the gap and closes at or after it. The gap of
    /// place `gap` stands before it, and the last one after all places.
    pub fn enclose<C: Ledger>(&self, gap: usize, steps: &mut Steps<C>) -> Option<usize>
        requires { gap ≤ length (parens_of self.now) }
        ensures pair { result ≡ innermost (parens_of self.now) gap }
        ensures none { IsNone result ↔ (excess (parens_of self.now) gap ≡ pos 0) }
        ensures innermost { IfSome result (IsInnermost (parens_of self.now) gap) }
        ensures grows { steps.old ≤ steps.new }
        ensures cost { steps.new ≤ steps.old + 2 * digits (length (parens_of self.now) + 2) + 26 }
    {
        self.last_lower(gap, steps)
    }

    /// The last place before a gap where the excess is one less than there. It is looked for in the gap's word before all.
    fn last_lower<C: Ledger>(&self, gap: usize, steps: &mut Steps<C>) -> Option<usize>
        requires { gap ≤ length (parens_of self.now) }
        ensures last { IsLast (λ p. excess (parens_of self.now) p ≡ excess (parens_of self.now) gap
            -ℤ pos 1) 0 gap result }
        ensures grows { steps.old ≤ steps.new }
        ensures cost { steps.new ≤ steps.old + 2 * digits (length (parens_of self.now) + 2) + 26 }
    {
        if gap == 0 {
            return None;
        }
        match self.tree.back_in_word(gap, 1, steps) {
            Scan::Found(place) => Some(place),
            Scan::Above(need) => self.last_below(64 * ((gap - 1) / 64), need, steps),
        }
    }

    /// The last place before `i` where the excess is `drop` below that at `i`, or None where there is none, which the
    /// count of what opens before `i` tells.
    fn last_below<C: Ledger>(&self, i: usize, drop: u64, steps: &mut Steps<C>) -> Option<usize>
        requires within { i ≤ length (parens_of self.now) }
        requires some { 1 ≤ drop }
        requires small { drop ≤ 4294967296 }
        ensures last { IsLast (λ p. excess (parens_of self.now) p ≡ excess (parens_of self.now) i
            -ℤ pos drop) 0 i result }
        ensures grows { steps.old ≤ steps.new }
        ensures cost { steps.new ≤ steps.old + 2 * digits (length (parens_of self.now) + 2) + 25 }
    {
        let opens = self.ranks.rank1(i, steps);
        if 2 * (opens as u64) < i as u64 + drop {
            return None;
        }
        self.tree.backward(i, drop, steps)
    }

    /// How many places before `i` open.
    pub fn opens_before<C: Ledger>(&self, i: usize, steps: &mut Steps<C>) -> usize
        requires { i ≤ length (parens_of self.now) }
        ensures opens { result ≡ rank true (parens_of self.now) i }
        ensures some_steps { steps.old + 1 ≤ steps.new }
        ensures cost { steps.new ≤ steps.old + 9 }
    {
        self.ranks.rank1(i, steps)
    }

    /// The opening place with `j` opening places before it, or None where at most `j` places open.
    pub fn open_at<C: Ledger>(&self, j: usize, steps: &mut Steps<C>) -> Option<usize>
        ensures place { IsSelected true (parens_of self.now) j result }
        ensures some_steps { steps.old + 1 ≤ steps.new }
        ensures cost { steps.new ≤ steps.old + 3 * digits (length (parens_of self.now) + 2) + 10 }
    {
        self.ranks.select1(j, steps)
    }

    /// The opening place of the innermost pair that is or encloses the pairs that open at `i` and at `j`.
    pub fn common<C: Ledger>(&self, i: usize, j: usize, steps: &mut Steps<C>) -> Option<usize>
        requires first { is_open (parens_of self.now) i ≡ true }
        requires second { is_open (parens_of self.now) j ≡ true }
        ensures pair { result ≡ common_of (parens_of self.now) i j }
        ensures itself { i ≡ j → result ≡ Some i }
        ensures none { IsNone result ↔ ((k : ℕ) → IsOver (parens_of self.now) k i → ¬ IsOver (parens_of self.now) k j) }
        ensures common { IfSome result (IsCommon (parens_of self.now) i j) }
        ensures grows { steps.old ≤ steps.new }
        ensures cost { steps.new ≤ steps.old + 12 * digits (length (parens_of self.now) + 2) + 100 }
    {
        let low = i.min(j);
        let fall = self.fall(low + 1, i.max(j) + 1, steps);
        self.tree.backward(low + 1, fall + 1, steps)
    }

    /// How far the excess at `from` is above the least at a place from there to `to`.
    fn fall<C: Ledger>(&self, from: usize, to: usize, steps: &mut Steps<C>) -> u64
        requires order { from ≤ to }
        requires within { to ≤ length (parens_of self.now) }
        ensures fall { pos result ≡ excess (parens_of self.now) from
            -ℤ least (excess (parens_of self.now)) from (to - from) }
        ensures small { result ≤ from }
        ensures grows { steps.old ≤ steps.new }
        ensures cost { steps.new ≤ steps.old + 6 * digits (length (parens_of self.now) + 2) + 49 }
    {
        let least = self.tree.least_between(from, to, steps);
        (self.tree.excess(from, steps) - least) as u64
    }
}
