//! The nearest fall of the excess by the tree.

ghost use Rattle.std.specs.Prelude.{◌≡◌, ◌≤◌, length};
ghost use Rattle.bit_words.specs.BitView.{bits_of};
ghost use Rattle.bit_words.specs.WordView.{words_of};
ghost use Rattle.min_max_tree.specs.Tree.{nodes_of};

use crate::level::Level;
use crate::node::Node;
use crate::scan::{Scan, ones_between, run_of_bits, scan_bits, scan_bits_back, scan_word_back};
use bit_words::{BitView, Steps, WordView};
use std::sync::ledger::Ledger;

/// Bits with the tree of their least excesses, so that a fall of the excess is found by few looks.
#[derive(Clone, Copy)]
pub struct MinMaxView<'a> {
    bits: BitView<'a>,
    nodes: WordView<'a>,
    ghost few: { length (bits_of bits) ≤ 2147483647 },
    ghost right: { words_of nodes ≡ nodes_of (bits_of bits) },
}

/// A node, and how far the excess at its first place is above the one that is searched.
#[derive(Clone, Copy)]
pub(crate) struct Spot {
    level: Level,
    j: usize,
    need: u64,
}

/// What a look at a node says: the place is in it, or the need after it.
#[derive(Clone, Copy)]
pub(crate) enum Side {
    Reached,
    Passed(u64),
}

impl<'a> MinMaxView<'a> {
    ghost use Rattle.std.specs.Prelude.{◌≡◌, ◌<◌, ◌≤◌, ◌+◌, ◌-◌, ◌*◌, ◌/◌, ◌%◌, length, pos, ◌+ℤ◌, ◌-ℤ◌, IfSome, IfNone};
    ghost use Rattle.bit_words.specs.BitView.{bits_of};
    ghost use Rattle.bit_words.specs.WordView.{words_of};
    ghost use Rattle.min_max_tree.specs.Tree.{nodes_of, size_at, total_of, least_of, node_from, node_to, least};
    ghost use Rattle.min_max_tree.specs.Node.{IsRun};
    ghost use Rattle.min_max_tree.specs.Level.{IsLevel, IsSpot, LeadsTo, Passes, Sibling};
    ghost use Rattle.min_max_tree.specs.Search.{Reaches, StaysAbove};
    ghost use Rattle.min_max_tree.specs.SearchBack.{IsSpotBack, LeadsBack, PassesBack, SiblingBack, Leaves, ScannedBack, WasAbove};
    ghost use Rattle.bit_words.specs.Bits.{excess, IsNext, IsLast};
    ghost use Rattle.bit_words.specs.Digits.{digits};
    ghost use Rattle.min_max_tree.specs.MinMaxView.{searched};

    /// The bits with these words, which `make` makes and `check` finds right. No word is read.
    pub fn new(bits: BitView<'a>, nodes: WordView<'a>) -> MinMaxView<'a>
        requires few { length (bits_of bits) ≤ 2147483647 }
        requires right { words_of nodes ≡ nodes_of (bits_of bits) }
        ensures { searched result ≡ bits_of bits.entry }
    {
        MinMaxView { bits, nodes }
    }

    /// How many bits there are. No word is read.
    #[inline]
    pub fn len(&self) -> usize
        ensures len { result ≡ length (searched self.now) }
        ensures few { result ≤ 2147483647 }
    {
        self.bits.len()
    }

    fn node<C: Ledger>(&self, level: Level, j: usize, steps: &mut Steps<C>) -> Node
        requires level { IsLevel (length (searched self.now)) level }
        requires within { j < size_at (length (searched self.now)) level.height }
        ensures total { pos result.total ≡ total_of (searched self.now) level.height j +ℤ pos 2147483648 }
        ensures least { pos result.least ≡ least_of (searched self.now) level.height j +ℤ pos 2147483648 }
        ensures small_total { result.total < 4294967296 }
        ensures small_least { result.least < 4294967296 }
        ensures one_step { steps.new ≡ steps.old + 1 }
    {
        Node::of_word(self.nodes.word(level.start + j, steps))
    }

    /// Looks whether the excess falls by `need` in node `j`.
    fn pass<C: Ledger>(&self, level: Level, j: usize, need: u64, steps: &mut Steps<C>) -> Side
        requires level { IsLevel (length (searched self.now)) level }
        requires within { j < size_at (length (searched self.now)) level.height }
        requires need { 1 ≤ need }
        requires small { need ≤ 8589934592 }
        ensures passed { Passes (searched self.now) level.height j need result }
        ensures one_step { steps.new ≡ steps.old + 1 }
    {
        let node = self.node(level, j, steps);
        if node.least + need <= 2147483648 {
            Side::Reached
        } else {
            Side::Passed(need + node.total - 2147483648)
        }
    }

    /// Looks at the node after node `j`, where both have one parent.
    fn sibling<C: Ledger>(&self, level: Level, j: usize, need: u64, steps: &mut Steps<C>) -> Side
        requires level { IsLevel (length (searched self.now)) level }
        requires within { j < size_at (length (searched self.now)) level.height }
        requires need { 1 ≤ need }
        requires small { need ≤ 8589934592 }
        ensures sibling { Sibling (searched self.now) level.height j need result }
        ensures grows { steps.old ≤ steps.new }
        ensures cost { steps.new ≤ steps.old + 1 }
    {
        if j % 2 == 1 {
            return Side::Passed(need);
        }
        if j + 1 >= level.size(self.bits.len()) {
            return Side::Passed(need);
        }
        self.pass(level, j + 1, need, steps)
    }

    /// The first node after block `block` in which the place is.
    fn climb<C: Ledger>(&self, block: usize, need: u64, steps: &mut Steps<C>) -> Option<Spot>
        requires within { block < size_at (length (searched self.now)) 0 }
        requires need { 1 ≤ need }
        requires small { need ≤ 4294967296 }
        ensures found { IfSome result (LeadsTo (searched self.now) (node_to (length (searched self.now)) 0 block)
            need) }
        ensures low { IfSome result (λ spot. spot.level.height ≤ digits (length (searched self.now))) }
        ensures none { IfNone result (StaysAbove (searched self.now)
            (excess (searched self.now) (node_to (length (searched self.now)) 0 block) -ℤ pos need)
            (node_to (length (searched self.now)) 0 block) (length (searched self.now))) }
        ensures grows { steps.old ≤ steps.new }
        ensures cost { steps.new ≤ steps.old + digits (length (searched self.now)) }
    {
        let len = self.bits.len();
        let mut level = Level::lowest();
        let mut j = block;
        let mut left = need;
        while level.size(len) > 1 {
            match self.sibling(level, j, left, steps) {
                Side::Reached => {
                    return Some(Spot {
                        level,
                        j: j + 1,
                        need: left,
                    });
                }
                Side::Passed(more) => {
                    left = more;
                    j /= 2;
                    level = level.above(len);
                }
            }
        }
        None
    }

    /// The child in which the place is.
    fn child<C: Ledger>(&self, spot: Spot, steps: &mut Steps<C>) -> Spot
        requires spot { IsSpot (searched self.now) spot }
        requires more { 0 < spot.level.height }
        requires small { spot.need ≤ 8589934592 }
        ensures leads { LeadsTo (searched self.now) (node_from spot.level.height spot.j) spot.need result }
        ensures height { result.level.height + 1 ≡ spot.level.height }
        ensures one_step { steps.new ≡ steps.old + 1 }
    {
        let level = spot.level.below(self.bits.len());
        let left = 2 * spot.j;
        match self.pass(level, left, spot.need, steps) {
            Side::Reached => Spot {
                level,
                j: left,
                need: spot.need,
            },
            Side::Passed(need) => Spot {
                level,
                j: left + 1,
                need,
            },
        }
    }

    /// The block in which the place is.
    fn descend<C: Ledger>(&self, from: Spot, steps: &mut Steps<C>) -> Spot
        requires spot { IsSpot (searched self.now) from }
        requires small { from.need ≤ 6442450944 }
        ensures leads { LeadsTo (searched self.now) (node_from from.level.height from.j) from.need result }
        ensures height { result.level.height ≡ 0 }
        ensures grows { steps.old ≤ steps.new }
        ensures cost { steps.new ≤ steps.old + from.level.height }
    {
        let mut spot = from;
        while spot.level.height > 0 {
            spot = self.child(spot, steps);
        }
        spot
    }

    /// The least place after `i` where the excess is `drop` below that at `i`, or None where there is none.
    /// The excess at a place is the ones less the zeros before it.
    pub fn forward<C: Ledger>(&self, i: usize, drop: u64, steps: &mut Steps<C>) -> Option<usize>
        requires within { i ≤ length (searched self.now) }
        requires some { 1 ≤ drop }
        ensures next { IsNext (λ p. excess (searched self.now) p ≡ excess (searched self.now) i -ℤ pos drop) i
            (length (searched self.now)) result }
        ensures grows { steps.old ≤ steps.new }
        ensures cost { steps.new ≤ steps.old + 2 * digits (length (searched self.now) + 2) + 16 }
    {
        let len = self.bits.len();
        if i == len {
            return None;
        }
        if drop > len as u64 {
            return None;
        }
        let block = i / 512;
        let end = len.min(512 * (block + 1));
        match scan_bits(&self.bits, i, end, drop, steps) {
            Scan::Found(place) => Some(place),
            Scan::Above(need) => self.after(block, need, steps),
        }
    }

    /// The first place after block `block` that is `need` below its end.
    fn after<C: Ledger>(&self, block: usize, need: u64, steps: &mut Steps<C>) -> Option<usize>
        requires within { block < size_at (length (searched self.now)) 0 }
        requires need { 1 ≤ need }
        requires small { need ≤ 4294967296 }
        ensures found { IfSome result (Reaches (searched self.now) (excess (searched self.now)
            (node_to (length (searched self.now)) 0 block) -ℤ pos need) (node_to (length (searched self.now)) 0 block)
            (length (searched self.now))) }
        ensures none { IfNone result (StaysAbove (searched self.now)
            (excess (searched self.now) (node_to (length (searched self.now)) 0 block) -ℤ pos need)
            (node_to (length (searched self.now)) 0 block) (length (searched self.now))) }
        ensures grows { steps.old ≤ steps.new }
        ensures cost { steps.new ≤ steps.old + 2 * digits (length (searched self.now)) + 8 }
    {
        match self.climb(block, need, steps) {
            None => None,
            Some(spot) => {
                let lowest = self.descend(spot, steps);
                Some(self.in_block(lowest, steps))
            }
        }
    }

    /// The place in a block that has it.
    fn in_block<C: Ledger>(&self, spot: Spot, steps: &mut Steps<C>) -> usize
        requires spot { IsSpot (searched self.now) spot }
        requires height { spot.level.height ≡ 0 }
        requires small { spot.need ≤ 8589934592 }
        ensures found { Reaches (searched self.now) (excess (searched self.now) (node_from 0 spot.j) -ℤ pos spot.need)
            (node_from 0 spot.j) (length (searched self.now)) result }
        ensures grows { steps.old ≤ steps.new }
        ensures cost { steps.new ≤ steps.old + 8 }
    {
        let from = 512 * spot.j;
        let end = self.bits.len().min(from + 512);
        match scan_bits(&self.bits, from, end, spot.need, steps) {
            Scan::Found(place) => place,
            Scan::Above(_) => unreachable!(),
        }
    }

    /// Looks whether the excess was `need` lower in node `j` than at its end.
    fn pass_back<C: Ledger>(&self, level: Level, j: usize, need: u64, steps: &mut Steps<C>) -> Side
        requires level { IsLevel (length (searched self.now)) level }
        requires within { j < size_at (length (searched self.now)) level.height }
        requires need { 1 ≤ need }
        requires small { need ≤ 8589934592 }
        ensures passed { PassesBack (searched self.now) level.height j need result }
        ensures one_step { steps.new ≡ steps.old + 1 }
    {
        let node = self.node(level, j, steps);
        if node.least + need <= node.total {
            Side::Reached
        } else {
            Side::Passed(need + 2147483648 - node.total)
        }
    }

    /// Looks at the node before node `j`, where both have one parent.
    fn sibling_back<C: Ledger>(
        &self,
        level: Level,
        j: usize,
        need: u64,
        steps: &mut Steps<C>,
    ) -> Side
        requires level { IsLevel (length (searched self.now)) level }
        requires within { j < size_at (length (searched self.now)) level.height }
        requires need { 1 ≤ need }
        requires small { need ≤ 8589934592 }
        ensures sibling { SiblingBack (searched self.now) level.height j need result }
        ensures grows { steps.old ≤ steps.new }
        ensures cost { steps.new ≤ steps.old + 1 }
    {
        if j % 2 == 0 {
            return Side::Passed(need);
        }
        self.pass_back(level, j - 1, need, steps)
    }

    /// The last node before block `block` in which the place is.
    fn climb_back<C: Ledger>(&self, block: usize, need: u64, steps: &mut Steps<C>) -> Option<Spot>
        requires within { block < size_at (length (searched self.now)) 0 }
        requires need { 1 ≤ need }
        requires small { need ≤ 4294967296 }
        ensures found { IfSome result (LeadsBack (searched self.now) (node_from 0 block) need) }
        ensures low { IfSome result (λ spot. spot.level.height ≤ digits (length (searched self.now))) }
        ensures none { IfNone result (WasAbove (searched self.now) (excess (searched self.now) (node_from 0 block)
            -ℤ pos need) 0 (node_from 0 block)) }
        ensures grows { steps.old ≤ steps.new }
        ensures cost { steps.new ≤ steps.old + digits (length (searched self.now)) }
    {
        let len = self.bits.len();
        let mut level = Level::lowest();
        let mut j = block;
        let mut left = need;
        while j > 0 {
            match self.sibling_back(level, j, left, steps) {
                Side::Reached => {
                    return Some(Spot {
                        level,
                        j: j - 1,
                        need: left,
                    });
                }
                Side::Passed(more) => {
                    left = more;
                    j /= 2;
                    level = level.above(len);
                }
            }
        }
        None
    }

    /// The last child in which the place is.
    fn child_back<C: Ledger>(&self, spot: Spot, steps: &mut Steps<C>) -> Spot
        requires spot { IsSpotBack (searched self.now) spot }
        requires more { 0 < spot.level.height }
        requires small { spot.need ≤ 8589934592 }
        ensures leads { LeadsBack (searched self.now) (node_to (length (searched self.now)) spot.level.height spot.j)
            spot.need result }
        ensures height { result.level.height + 1 ≡ spot.level.height }
        ensures grows { steps.old ≤ steps.new }
        ensures cost { steps.new ≤ steps.old + 1 }
    {
        let len = self.bits.len();
        let level = spot.level.below(len);
        let left = 2 * spot.j;
        let right = left + 1;
        if right >= level.size(len) {
            return Spot {
                level,
                j: left,
                need: spot.need,
            };
        }
        match self.pass_back(level, right, spot.need, steps) {
            Side::Reached => Spot {
                level,
                j: right,
                need: spot.need,
            },
            Side::Passed(need) => Spot {
                level,
                j: left,
                need,
            },
        }
    }

    /// The block in which the last place is.
    fn descend_back<C: Ledger>(&self, from: Spot, steps: &mut Steps<C>) -> Spot
        requires spot { IsSpotBack (searched self.now) from }
        requires small { from.need ≤ 6442450944 }
        ensures leads { LeadsBack (searched self.now) (node_to (length (searched self.now)) from.level.height from.j)
            from.need result }
        ensures height { result.level.height ≡ 0 }
        ensures grows { steps.old ≤ steps.new }
        ensures cost { steps.new ≤ steps.old + from.level.height }
    {
        let mut spot = from;
        while spot.level.height > 0 {
            spot = self.child_back(spot, steps);
        }
        spot
    }

    /// The last place in a block that has it.
    fn in_block_back<C: Ledger>(&self, spot: Spot, steps: &mut Steps<C>) -> usize
        requires spot { IsSpotBack (searched self.now) spot }
        requires height { spot.level.height ≡ 0 }
        requires small { spot.need ≤ 8589934592 }
        ensures found { Leaves (searched self.now) (excess (searched self.now)
            (node_to (length (searched self.now)) 0 spot.j) -ℤ pos spot.need) 0
            (node_to (length (searched self.now)) 0 spot.j) result }
        ensures grows { steps.old ≤ steps.new }
        ensures cost { steps.new ≤ steps.old + 8 }
    {
        let from = 512 * spot.j;
        let end = self.bits.len().min(from + 512);
        match scan_bits_back(&self.bits, from, end, spot.need, steps) {
            Scan::Found(place) => place,
            Scan::Above(_) => unreachable!(),
        }
    }

    /// The last place before block `block` that is `need` below its start.
    fn earlier<C: Ledger>(&self, block: usize, need: u64, steps: &mut Steps<C>) -> Option<usize>
        requires within { block < size_at (length (searched self.now)) 0 }
        requires need { 1 ≤ need }
        requires small { need ≤ 4294967296 }
        ensures found { IfSome result (Leaves (searched self.now) (excess (searched self.now) (node_from 0 block)
            -ℤ pos need) 0 (node_from 0 block)) }
        ensures none { IfNone result (WasAbove (searched self.now) (excess (searched self.now) (node_from 0 block)
            -ℤ pos need) 0 (node_from 0 block)) }
        ensures grows { steps.old ≤ steps.new }
        ensures cost { steps.new ≤ steps.old + 2 * digits (length (searched self.now)) + 8 }
    {
        match self.climb_back(block, need, steps) {
            None => None,
            Some(spot) => {
                let lowest = self.descend_back(spot, steps);
                Some(self.in_block_back(lowest, steps))
            }
        }
    }

    /// The greatest place before `i` where the excess is `drop` below that at `i`, or None where there is none.
    pub fn backward<C: Ledger>(&self, i: usize, drop: u64, steps: &mut Steps<C>) -> Option<usize>
        requires within { i ≤ length (searched self.now) }
        requires some { 1 ≤ drop }
        ensures last { IsLast (λ p. excess (searched self.now) p ≡ excess (searched self.now) i
            -ℤ pos drop) 0 i result }
        ensures grows { steps.old ≤ steps.new }
        ensures cost { steps.new ≤ steps.old + 2 * digits (length (searched self.now) + 2) + 16 }
    {
        if i == 0 {
            return None;
        }
        if drop > self.bits.len() as u64 {
            return None;
        }
        let block = (i - 1) / 512;
        match scan_bits_back(&self.bits, 512 * block, i, drop, steps) {
            Scan::Found(place) => Some(place),
            Scan::Above(need) => self.earlier(block, need, steps),
        }
    }

    /// Looks back from place `i` to where its word begins, by one step: the last place there where the excess is `drop`
    /// below that at `i`, or how far the excess at the word's beginning is above that.
    #[inline]
    pub fn back_in_word<C: Ledger>(&self, i: usize, drop: u64, steps: &mut Steps<C>) -> Scan
        requires after { 1 ≤ i }
        requires within { i ≤ length (searched self.now) }
        requires some { 1 ≤ drop }
        requires small { drop ≤ 4294967296 }
        ensures scanned { ScannedBack (searched self.now) drop (64 * ((i - 1) / 64)) i result }
        ensures one_step { steps.new ≡ steps.old + 1 }
    {
        scan_word_back(&self.bits, 64 * ((i - 1) / 64), i, drop, steps)
    }

    /// Adds what a left sibling of node `j` sums to, where there is one.
    fn add_left<C: Ledger>(&self, level: Level, j: usize, rise: u64, steps: &mut Steps<C>) -> u64
        requires level { IsLevel (length (searched self.now)) level }
        requires within { node_from level.height j ≤ length (searched self.now) }
        requires low { 4294967296 ≤ rise }
        requires high { rise ≤ 2199023255552 }
        ensures rise { excess (searched self.now) (node_from (level.height + 1) (j / 2)) +ℤ pos result
            ≡ excess (searched self.now) (node_from level.height j) +ℤ pos rise }
        ensures grows { steps.old ≤ steps.new }
        ensures cost { steps.new ≤ steps.old + j % 2 }
    {
        if j % 2 == 0 {
            return rise;
        }
        let node = self.node(level, j - 1, steps);
        rise + node.total - 2147483648
    }

    /// 2 ^ 40 more than the excess at the first place of block `block`.
    fn before_block<C: Ledger>(&self, block: usize, steps: &mut Steps<C>) -> u64
        requires within { 512 * block ≤ length (searched self.now) }
        ensures value { pos result ≡ excess (searched self.now) (512 * block) +ℤ pos 1099511627776 }
        ensures grows { steps.old ≤ steps.new }
        ensures cost { steps.new ≤ steps.old + digits block }
    {
        let len = self.bits.len();
        let mut level = Level::lowest();
        let mut j = block;
        let mut rise: u64 = 1099511627776;
        while j > 1 {
            rise = self.add_left(level, j, rise, steps);
            j /= 2;
            level = level.above(len);
        }
        self.add_left(level, j, rise, steps)
    }

    /// The ones less the zeros before place `i`, which may be the end.
    pub fn excess<C: Ledger>(&self, i: usize, steps: &mut Steps<C>) -> i64
        requires { i ≤ length (searched self.now) }
        ensures value { result ≡ excess (searched self.now) i }
        ensures grows { steps.old ≤ steps.new }
        ensures cost { steps.new ≤ steps.old + 2 * digits (length (searched self.now) + 2) + 9 }
    {
        let block = i / 512;
        let before = self.before_block(block, steps);
        let ones = ones_between(&self.bits, 512 * block, i, steps);
        (before + 2 * ones) as i64 - (1099511627776 + (i - 512 * block) as i64)
    }

    /// The nodes from `from` to before `to` of a level, which are one at most.
    fn one_or_none<C: Ledger>(
        &self,
        level: Level,
        from: usize,
        to: usize,
        steps: &mut Steps<C>,
    ) -> Node
        requires level { IsLevel (length (searched self.now)) level }
        requires order { from ≤ to }
        requires one { to ≤ from + 1 }
        requires within { node_from level.height to ≤ length (searched self.now) }
        ensures run { IsRun (searched self.now) (node_from level.height from) (node_from level.height to) result }
        ensures cost { steps.new ≡ steps.old + (to - from) }
    {
        if from == to {
            return Node::empty();
        }
        self.node(level, from, steps)
    }

    /// The blocks from `first` to before `last`, by at most two nodes of each level: one at each end that has
    /// no sibling there.
    fn blocks<C: Ledger>(&self, first: usize, last: usize, steps: &mut Steps<C>) -> Node
        requires some { 1 ≤ first }
        requires order { first ≤ last }
        requires within { 512 * last ≤ length (searched self.now) }
        ensures run { IsRun (searched self.now) (512 * first) (512 * last) result }
        ensures grows { steps.old ≤ steps.new }
        ensures cost { steps.new ≤ steps.old + 2 * digits last }
    {
        let len = self.bits.len();
        let mut level = Level::lowest();
        let mut low = first;
        let mut high = last;
        let mut left = Node::empty();
        let mut right = Node::empty();
        while low < high {
            left = left.joined(self.one_or_none(level, low, low + low % 2, steps));
            right = self
                .one_or_none(level, high - high % 2, high, steps)
                .joined(right);
            low = low.div_ceil(2);
            high /= 2;
            level = level.above(len);
        }
        left.joined(right)
    }

    /// The bits from `from` to before `to`: the whole blocks among them by their nodes, and the rest word by word.
    fn run<C: Ledger>(&self, from: usize, to: usize, steps: &mut Steps<C>) -> Node
        requires order { from ≤ to }
        requires within { to ≤ length (searched self.now) }
        ensures run { IsRun (searched self.now) from to result }
        ensures grows { steps.old ≤ steps.new }
        ensures cost { steps.new ≤ steps.old + 2 * digits (to / 512) + 16 }
    {
        let first = from / 512 + 1;
        let last = to / 512;
        if last < first {
            return run_of_bits(&self.bits, from, to, steps);
        }
        let left = run_of_bits(&self.bits, from, 512 * first, steps);
        let blocks = self.blocks(first, last, steps);
        let right = run_of_bits(&self.bits, 512 * last, to, steps);
        left.joined(blocks).joined(right)
    }

    /// The least excess at a place from `from` to `to`, both ends included.
    pub fn least_between<C: Ledger>(&self, from: usize, to: usize, steps: &mut Steps<C>) -> i64
        requires order { from ≤ to }
        requires within { to ≤ length (searched self.now) }
        ensures least { result ≡ least (excess (searched self.now)) from (to - from) }
        ensures grows { steps.old ≤ steps.new }
        ensures cost { steps.new ≤ steps.old + 4 * digits (length (searched self.now) + 2) + 40 }
    {
        let start = self.excess(from, steps);
        let run = self.run(from, to, steps);
        start + (run.least as i64 - 2147483648)
    }
}
