//! Bits with their directory, asked for counts and places.

ghost use Rattle.std.specs.Prelude.{◌≡◌, ◌<◌, ◌≤◌, length, true, Some};
ghost use Rattle.bit_words.specs.Bits.{rank, word_bits, IsSelected};
ghost use Rattle.bit_words.specs.BitView.{bits_of};
ghost use Rattle.bit_words.specs.PackedView.{fields_of, width_of};
ghost use Rattle.rank_select.specs.Counts.{counts_of};

use crate::counts::{count_at, ones_in_whole_words};
use bit_words::{BitView, PackedView, Steps, ones_below, place_of_one};
use std::sync::ledger::Ledger;

/// How many binary digits of a count are enough for a share of the blocks: so few that its division is a short one.
const SHARE_DIGITS: u32 = 16;

/// The parts of a block that a share is counted in: so few that its division stays a short one, and so many that the
/// share of all bits is right to less than a block.
const BLOCK_PARTS: usize = 262_144;

/// The place of the one that has `j` ones below it, where the word has more than `j` ones.
#[inline]
fn place_below(word: u64, j: u32) -> u32
    requires { j < rank true (word_bits word) 64 }
    ensures { IsSelected true (word_bits word) j (Some result) }
{
    match place_of_one(word, j) {
        Some(place) => place,
        None => unreachable!(),
    }
}

/// Blocks between which a bit is: before `low` there are `before` bits of its kind, at most as many as before the bit,
/// and before `high` more.
#[derive(Clone, Copy)]
struct Bracket {
    low: usize,
    before: usize,
    high: usize,
}

/// A block from which a bit is looked for, how many bits of its kind stand before the block, and the first stride.
#[derive(Clone, Copy)]
struct Start {
    block: usize,
    before: usize,
    stride: usize,
}

/// Bits with the count of the ones before each block of 512 bits, so that a count reads at most nine words.
#[derive(Clone, Copy)]
pub struct RankView<'a> {
    bits: BitView<'a>,
    counts: PackedView<'a>,
    ghost few: { length (bits_of bits) ≤ 2147483647 },
    ghost width: { width_of counts ≡ 32 },
    ghost right: { fields_of counts ≡ counts_of (bits_of bits) },
}

impl<'a> RankView<'a> {
    ghost use Rattle.std.specs.Prelude.{◌≡◌, ◌<◌, ◌≤◌, ◌+◌, ◌-◌, ◌*◌, ◌/◌, ◌^◌, ◌==◌, length, min, max, true, false};
    ghost use Rattle.bit_words.specs.BitView.{bits_of};
    ghost use Rattle.bit_words.specs.PackedView.{fields_of, width_of};
    ghost use Rattle.bit_words.specs.Bits.{rank, IsSelected};
    ghost use Rattle.bit_words.specs.Digits.{digits};
    ghost use Rattle.rank_select.specs.Counts.{blocks, counts_of, KindChunk, Brackets};
    ghost use Rattle.rank_select.specs.RankView.{counted};

    /// The bits with these counts, which `make_counts` makes and `check_counts` finds right.
    pub fn new(bits: BitView<'a>, counts: PackedView<'a>) -> RankView<'a>
        requires few { length (bits_of bits) ≤ 2147483647 }
        requires width { width_of counts ≡ 32 }
        requires right { fields_of counts ≡ counts_of (bits_of bits) }
        ensures { counted result ≡ bits_of bits.entry }
    {
        RankView { bits, counts }
    }

    /// The bits without their counts.
    #[inline]
    pub fn bits(&self) -> BitView<'a>
        ensures bits { bits_of result ≡ counted self.now }
        ensures few { length (counted self.now) ≤ 2147483647 }
    {
        self.bits
    }

    /// How many ones stand before place `i`.
    #[tactic(auto, using(crate::proofs::CountLaws::fronts))]
    pub fn rank1<C: Ledger>(&self, i: usize, steps: &mut Steps<C>) -> usize
        requires { i ≤ length (counted self.now) }
        ensures rank { result ≡ rank true (counted self.now) i }
        ensures some_steps { steps.old + 1 ≤ steps.new }
        ensures cost { steps.new ≤ steps.old + 9 }
    {
        let block = i / 512;
        let word = i / 64;
        let ones = count_at(&self.counts, block, steps)
            + ones_in_whole_words(&self.bits, 8 * block, word, steps);
        if i % 64 == 0 {
            ones
        } else {
            ones + ones_below(self.bits.word(word, steps), (i % 64) as u32) as usize
        }
    }

    /// How many zeros stand before place `i`.
    #[tactic(auto, using(crate::proofs::CountLaws::chunks))]
    pub fn rank0<C: Ledger>(&self, i: usize, steps: &mut Steps<C>) -> usize
        requires { i ≤ length (counted self.now) }
        ensures rank { result ≡ rank false (counted self.now) i }
        ensures some_steps { steps.old + 1 ≤ steps.new }
        ensures cost { steps.new ≤ steps.old + 9 }
    {
        i - self.rank1(i, steps)
    }

    /// How many bits of this kind stand before block `block`, by one step.
    #[tactic(auto, using(crate::proofs::CountLaws::kinds))]
    fn kind_before<C: Ledger>(&self, kind: bool, block: usize, steps: &mut Steps<C>) -> usize
        requires { block ≤ blocks (length (counted self.now)) }
        ensures rank { result ≡ rank kind (counted self.now) (512 * block) }
        ensures one_step { steps.new ≡ steps.old + 1 }
    {
        let ones = count_at(&self.counts, block, steps);
        if kind {
            ones
        } else {
            self.bits.len().min(512 * block) - ones
        }
    }

    /// About how many parts of a block have `2^coarse` bits of a kind, where all blocks have `all` of it: the one
    /// division of a search.
    #[inline]
    fn share_of(&self, all: usize, coarse: u32) -> usize
        requires { coarse ≤ 48 }
        ensures share { result ≡ blocks (length (counted self.now)) * 262144 / max (all / 2 ^ coarse) 1 }
    {
        self.bits.len().div_ceil(512) * BLOCK_PARTS / (all >> coarse).max(1)
    }

    /// About how many blocks have `count` bits of a kind, and fewer than there are, where `share` parts of a block have
    /// `2^coarse` bits. The count is taken without its lowest `coarse` digits.
    #[inline]
    fn blocks_for(&self, count: usize, coarse: u32, share: usize) -> usize
        requires coarse { coarse ≤ 48 }
        requires fits { count / 2 ^ coarse * share ≤ blocks (length (counted self.now)) * 262144 }
        requires blocks { 0 < length (counted self.now) }
        ensures share { result ≡ min (count / 2 ^ coarse * share / 262144) (blocks (length (counted self.now)) - 1) }
    {
        let last = self.bits.len().div_ceil(512) - 1;
        ((count >> coarse) * share / BLOCK_PARTS).min(last)
    }

    /// A bracket of the block of bit `j` of this kind, from a start that isn't past it upward by strides that double.
    #[tactic(auto, using(crate::proofs::CountLaws::strides))]
    fn bracket_above<C: Ledger>(
        &self,
        kind: bool,
        j: usize,
        start: Start,
        steps: &mut Steps<C>,
    ) -> Bracket
        requires within { start.block < blocks (length (counted self.now)) }
        requires before { start.before ≡ rank kind (counted self.now) (512 * start.block) }
        requires low { start.before ≤ j }
        requires some { j < rank kind (counted self.now) (length (counted self.now)) }
        requires stride { 1 ≤ start.stride }
        ensures bracket { Brackets kind (counted self.now) j result.low result.high }
        ensures before { result.before ≡ rank kind (counted self.now) (512 * result.low) }
        ensures grows { steps.old ≤ steps.new }
        ensures cost { steps.new ≤ steps.old + digits (blocks (length (counted self.now))) }
    {
        let end = self.bits.len().div_ceil(512);
        let mut low = start.block;
        let mut below = start.before;
        let mut stride = start.stride;
        while stride < end - low {
            let high = low + stride;
            let above = self.kind_before(kind, high, steps);
            if j < above {
                return Bracket {
                    low,
                    before: below,
                    high,
                };
            }
            low = high;
            below = above;
            stride *= 2;
        }
        Bracket {
            low,
            before: below,
            high: end,
        }
    }

    /// A bracket of the block of bit `j` of this kind, from a start past it downward by strides that double.
    #[tactic(auto, using(crate::proofs::CountLaws::strides))]
    fn bracket_below<C: Ledger>(
        &self,
        kind: bool,
        j: usize,
        start: Start,
        steps: &mut Steps<C>,
    ) -> Bracket
        requires within { start.block ≤ blocks (length (counted self.now)) }
        requires high { j < rank kind (counted self.now) (512 * start.block) }
        requires stride { 1 ≤ start.stride }
        ensures bracket { Brackets kind (counted self.now) j result.low result.high }
        ensures before { result.before ≡ rank kind (counted self.now) (512 * result.low) }
        ensures grows { steps.old ≤ steps.new }
        ensures cost { steps.new ≤ steps.old + digits (blocks (length (counted self.now))) }
    {
        let mut high = start.block;
        let mut stride = start.stride;
        while stride < high {
            let low = high - stride;
            let before = self.kind_before(kind, low, steps);
            if before <= j {
                return Bracket { low, before, high };
            }
            high = low;
            stride *= 2;
        }
        Bracket {
            low: 0,
            before: 0,
            high,
        }
    }

    /// The one block in a bracket that has bit `j` of this kind, by halving.
    #[tactic(auto, using(crate::proofs::CountLaws::searches))]
    fn block_in<C: Ledger>(
        &self,
        kind: bool,
        j: usize,
        bracket: Bracket,
        steps: &mut Steps<C>,
    ) -> Bracket
        requires bracket { Brackets kind (counted self.now) j bracket.low bracket.high }
        requires before { bracket.before ≡ rank kind (counted self.now) (512 * bracket.low) }
        ensures bracket { Brackets kind (counted self.now) j result.low result.high }
        ensures before { result.before ≡ rank kind (counted self.now) (512 * result.low) }
        ensures one_block { result.high ≡ result.low + 1 }
        ensures grows { steps.old ≤ steps.new }
        ensures cost { steps.new ≤ steps.old + digits (blocks (length (counted self.now))) }
    {
        let mut low = bracket.low;
        let mut before = bracket.before;
        let mut high = bracket.high;
        while high - low > 1 {
            let middle = low + (high - low) / 2;
            let count = self.kind_before(kind, middle, steps);
            if count <= j {
                low = middle;
                before = count;
            } else {
                high = middle;
            }
        }
        Bracket { low, before, high }
    }

    /// Block `block`, which has `before` bits of a kind before it, moved by `away` blocks toward that of bit `j`.
    #[inline]
    #[tactic(auto, using(crate::proofs::CountLaws::nearer))]
    fn moved_block(&self, block: usize, before: usize, j: usize, away: usize) -> usize
        requires within { block < blocks (length (counted self.now)) }
        requires near { away < blocks (length (counted self.now)) }
        ensures within { result < blocks (length (counted self.now)) }
    {
        if before <= j {
            (block + away).min(self.bits.len().div_ceil(512) - 1)
        } else {
            block.saturating_sub(away)
        }
    }

    /// Where to begin to look for bit `j` of this kind, of which there are `all`: at the block that an even share suggests,
    /// moved once where its count says that the bit is further off.
    #[tactic(auto, using(crate::proofs::CountLaws::nearer))]
    fn start_of<C: Ledger>(&self, kind: bool, j: usize, all: usize, steps: &mut Steps<C>) -> Start
        requires all { all ≡ rank kind (counted self.now) (length (counted self.now)) }
        requires some { j < all }
        ensures within { result.block < blocks (length (counted self.now)) }
        ensures before { result.before ≡ rank kind (counted self.now) (512 * result.block) }
        ensures stride { 1 ≤ result.stride }
        ensures grows { steps.old ≤ steps.new }
        ensures cost { steps.new ≤ steps.old + 2 }
    {
        let coarse = (usize::BITS - all.leading_zeros()).saturating_sub(SHARE_DIGITS);
        let share = self.share_of(all, coarse);
        let block = self.blocks_for(j, coarse, share);
        let before = self.kind_before(kind, block, steps);
        let away = self.blocks_for(j.abs_diff(before), coarse, share);
        if away == 0 {
            return Start {
                block,
                before,
                stride: 1,
            };
        }
        let nearer = self.moved_block(block, before, j, away);
        let before = self.kind_before(kind, nearer, steps);
        let first = self.blocks_for(j.abs_diff(before), coarse, share) + 1;
        Start {
            block: nearer,
            before,
            stride: first,
        }
    }

    /// A bracket of the block of bit `j` of this kind, of which there are `all`: from where the search begins toward that
    /// bit by strides that double.
    fn bracket_of<C: Ledger>(
        &self,
        kind: bool,
        j: usize,
        all: usize,
        steps: &mut Steps<C>,
    ) -> Bracket
        requires all { all ≡ rank kind (counted self.now) (length (counted self.now)) }
        requires some { j < all }
        ensures bracket { Brackets kind (counted self.now) j result.low result.high }
        ensures before { result.before ≡ rank kind (counted self.now) (512 * result.low) }
        ensures grows { steps.old ≤ steps.new }
        ensures cost { steps.new ≤ steps.old + digits (blocks (length (counted self.now))) + 2 }
    {
        let start = self.start_of(kind, j, all, steps);
        if start.before <= j {
            self.bracket_above(kind, j, start, steps)
        } else {
            self.bracket_below(kind, j, start, steps)
        }
    }

    /// The word that has a 1 where a bit is of this kind, and from the end of the list on any bits, by one step.
    fn kind_chunk<C: Ledger>(&self, kind: bool, word: usize, steps: &mut Steps<C>) -> u64
        requires { 64 * word < length (counted self.now) }
        ensures chunk { KindChunk kind (counted self.now) word result }
        ensures one_step { steps.new ≡ steps.old + 1 }
    {
        let chunk = self.bits.word(word, steps);
        if kind { chunk } else { !chunk }
    }

    /// How many bits of this kind there are, by one step.
    #[tactic(auto, using(crate::proofs::CountLaws::kinds))]
    fn all_of_kind<C: Ledger>(&self, kind: bool, steps: &mut Steps<C>) -> usize
        ensures rank { result ≡ rank kind (counted self.now) (length (counted self.now)) }
        ensures one_step { steps.new ≡ steps.old + 1 }
    {
        self.kind_before(kind, self.bits.len().div_ceil(512), steps)
    }

    /// The place in this block of the bit of this kind that has `j` of its kind before it.
    #[tactic(auto, using(crate::proofs::CountLaws::words))]
    fn select_in<C: Ledger>(
        &self,
        kind: bool,
        j: usize,
        block: usize,
        before: usize,
        steps: &mut Steps<C>,
    ) -> usize
        requires within { block < blocks (length (counted self.now)) }
        requires before { before ≡ rank kind (counted self.now) (512 * block) }
        requires low { before ≤ j }
        requires high { j < rank kind (counted self.now) (512 * (block + 1)) }
        requires some { j < rank kind (counted self.now) (length (counted self.now)) }
        ensures selected { IsSelected kind (counted self.now) j (Some result) }
        ensures some_steps { steps.old + 1 ≤ steps.new }
        ensures cost { steps.new ≤ steps.old + 8 }
    {
        let mut left = j - before;
        let end = self.bits.len().div_ceil(64).min(8 * block + 8);
        for word in 8 * block..end {
            let chunk = self.kind_chunk(kind, word, steps);
            let ones = ones_below(chunk, 64) as usize;
            if left < ones {
                return 64 * word + place_below(chunk, left as u32) as usize;
            }
            left -= ones;
        }
        unreachable!()
    }

    /// The place of the bit of this kind that has `j` of its kind before it, or None where there is none, by a search
    /// for its block.
    #[tactic(auto, using(crate::proofs::CountLaws::searches))]
    fn select_by_search<C: Ledger>(
        &self,
        kind: bool,
        j: usize,
        steps: &mut Steps<C>,
    ) -> Option<usize>
        ensures selected { IsSelected kind (counted self.now) j result }
        ensures some_steps { steps.old + 1 ≤ steps.new }
        ensures cost { steps.new ≤ steps.old + 2 * digits (blocks (length (counted self.now))) + 11 }
    {
        let all = self.all_of_kind(kind, steps);
        if all <= j {
            return None;
        }
        let bracket = self.bracket_of(kind, j, all, steps);
        let block = self.block_in(kind, j, bracket, steps);
        Some(self.select_in(kind, j, block.low, block.before, steps))
    }

    /// Whether all bits before block `block` are of this kind, by one step.
    #[inline]
    fn is_run_to<C: Ledger>(&self, kind: bool, block: usize, steps: &mut Steps<C>) -> bool
        requires within { 512 * block ≤ length (counted self.now) }
        ensures run { result ≡ (rank kind (counted self.now) (512 * block) == 512 * block) }
        ensures one_step { steps.new ≡ steps.old + 1 }
    {
        self.kind_before(kind, block, steps) == 512 * block
    }

    /// The place of the bit of this kind that has `j` of its kind before it, or None where there is none: by one step
    /// where all bits to the end of block `j / 512` are of this kind, and else by a search.
    #[tactic(auto, using(crate::proofs::CountLaws::select_costs))]
    fn select<C: Ledger>(&self, kind: bool, j: usize, steps: &mut Steps<C>) -> Option<usize>
        ensures selected { IsSelected kind (counted self.now) j result }
        ensures some_steps { steps.old + 1 ≤ steps.new }
        ensures cost { steps.new ≤ steps.old + 2 * digits (length (counted self.now) + 2) + 10 }
    {
        let block = j / 512 + 1;
        if self.bits.len() / 512 < block {
            return self.select_by_search(kind, j, steps);
        }
        if self.is_run_to(kind, block, steps) {
            return Some(j);
        }
        self.select_by_search(kind, j, steps)
    }

    /// The place of the bit of this kind that has `j` of its kind before it, or None where there is none: in the block of
    /// place `near`, where it stands there, and else by a search.
    #[tactic(auto, using(crate::proofs::CountLaws::select_costs))]
    fn select_near<C: Ledger>(
        &self,
        kind: bool,
        j: usize,
        near: usize,
        steps: &mut Steps<C>,
    ) -> Option<usize>
        ensures selected { IsSelected kind (counted self.now) j result }
        ensures some_steps { steps.old + 1 ≤ steps.new }
        ensures cost { steps.new ≤ steps.old + 2 * digits (length (counted self.now) + 2) + 12 }
    {
        let block = near / 512;
        if self.bits.len() / 512 <= block {
            return self.select_by_search(kind, j, steps);
        }
        let before = self.kind_before(kind, block, steps);
        if j < before {
            return self.select_by_search(kind, j, steps);
        }
        if j < self.kind_before(kind, block + 1, steps) {
            return Some(self.select_in(kind, j, block, before, steps));
        }
        self.select_by_search(kind, j, steps)
    }

    /// The place of the one with `j` ones before it, or None where there are at most `j` ones. It is looked for in the
    /// block of place `near` before all, which may be any number.
    pub fn select1_near<C: Ledger>(
        &self,
        j: usize,
        near: usize,
        steps: &mut Steps<C>,
    ) -> Option<usize>
        ensures selected { IsSelected true (counted self.now) j result }
        ensures some_steps { steps.old + 1 ≤ steps.new }
        ensures cost { steps.new ≤ steps.old + 2 * digits (length (counted self.now) + 2) + 12 }
    {
        self.select_near(true, j, near, steps)
    }

    /// The place of the zero with `j` zeros before it, or None where there are at most `j` zeros. It is looked for in the
    /// block of place `near` before all, which may be any number.
    pub fn select0_near<C: Ledger>(
        &self,
        j: usize,
        near: usize,
        steps: &mut Steps<C>,
    ) -> Option<usize>
        ensures selected { IsSelected false (counted self.now) j result }
        ensures some_steps { steps.old + 1 ≤ steps.new }
        ensures cost { steps.new ≤ steps.old + 2 * digits (length (counted self.now) + 2) + 12 }
    {
        self.select_near(false, j, near, steps)
    }

    /// The place of the one with `j` ones before it, or None where there are at most `j` ones.
    pub fn select1<C: Ledger>(&self, j: usize, steps: &mut Steps<C>) -> Option<usize>
        ensures selected { IsSelected true (counted self.now) j result }
        ensures some_steps { steps.old + 1 ≤ steps.new }
        ensures cost { steps.new ≤ steps.old + 2 * digits (length (counted self.now) + 2) + 10 }
    {
        self.select(true, j, steps)
    }

    /// The place of the zero with `j` zeros before it, or None where there are at most `j` zeros.
    pub fn select0<C: Ledger>(&self, j: usize, steps: &mut Steps<C>) -> Option<usize>
        ensures selected { IsSelected false (counted self.now) j result }
        ensures some_steps { steps.old + 1 ≤ steps.new }
        ensures cost { steps.new ≤ steps.old + 2 * digits (length (counted self.now) + 2) + 10 }
    {
        self.select(false, j, steps)
    }
}
