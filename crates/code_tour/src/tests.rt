//! The numbers at the positions of two components, from outside.

ghost use Rattle.std.specs.Prelude.{◌≡◌, ◌<◌, ◌≤◌, length, IfSome};
ghost use Rattle.bit_words.specs.BitView.{bits_of};
ghost use Rattle.rank_select.specs.RankView.{counted};
ghost use Rattle.parens.specs.ParenView.{parens_of};
ghost use Rattle.turan_code.specs.TuranView.{code_of_view};

use crate::{Passed, Tour};
use bit_words::{BitView, PackedView, Steps, WordView};
use min_max_tree::MinMaxView;
use parens::{ParenView, check_balanced};
use rank_select::RankView;
use scratch_region::Region;
use std::alloc::Global;
use std::marker::Brand;
use std::sync::ledger::{Blank, Ledger};
use turan_code::{TuranParts, TuranView, check};

/// A word of eight bytes.
type Word = [u8; 8];

/// A sequence of at most 64 bits in a word, and the counts of its ones in another.
#[derive(Clone, Copy)]
struct Sequence {
    len: usize,
    bits: Word,
    counts: Word,
}

/// A code with at most 64 positions and one component or two.
#[derive(Clone, Copy)]
struct Small {
    a: Sequence,
    tree: Sequence,
    dual: Sequence,
    /// The starts, by 32 bits each.
    starts: [u8; 16],
    start_count: usize,
}

/// The entry of a tree of least excesses over at most 64 balanced bits.
const NO_FALL: Word = [0; 8];

impl Sequence {
    /// The bits alone. None where their size does not fit.
    fn view<'a>(&'a self) -> Option<BitView<'a>>
        ensures few { IfSome result (λ view. length (bits_of view) ≤ 64) }
    {
        let words = WordView::new(&self.bits)?;
        if self.len > 64 || self.len.div_ceil(64) > words.len() {
            return None;
        }
        Some(BitView::new(words, self.len))
    }

    /// The bits with their counts. None where a count is not right.
    fn ranks<'a, C: Ledger>(
        &'a self,
        bits: BitView<'a>,
        steps: &mut Steps<C>,
    ) -> Option<RankView<'a>>
        requires { length (bits_of bits) ≤ 64 }
        ensures { IfSome result (λ ranks. counted ranks ≡ bits_of bits.entry) }
    {
        let words = WordView::new(&self.counts)?;
        let entries = bits.len().div_ceil(512) + 1;
        if entries.div_ceil(2) > words.len() {
            return None;
        }
        let counts = PackedView::new(words, entries, 32);
        rank_select::check_counts(bits, counts, steps).ok()?;
        Some(RankView::new(bits, counts))
    }

    /// The bits as parentheses. None where they are not balanced.
    fn parens<'a, C: Ledger>(
        &'a self,
        bits: BitView<'a>,
        steps: &mut Steps<C>,
    ) -> Option<ParenView<'a>>
        requires { length (bits_of bits) ≤ 64 }
        ensures { IfSome result (λ parens. parens_of parens ≡ bits_of bits.entry) }
    {
        let ranks = self.ranks(bits, steps)?;
        let nodes = WordView::new(&NO_FALL)?;
        if nodes.len() != min_max_tree::node_count(bits.len()) {
            return None;
        }
        min_max_tree::check(bits, nodes, steps).ok()?;
        check_balanced(bits, 0, bits.len(), steps).ok()?;
        Some(ParenView::new(ranks, MinMaxView::new(bits, nodes)))
    }
}

impl Small {
    /// The view of the code. None where anything is not right.
    fn view<'a, C: Ledger>(&'a self, steps: &mut Steps<C>) -> Option<TuranView<'a>>
        ensures { IfSome result (λ view. length (code_of_view view).a ≤ 64) }
    {
        let a = self.a.view()?;
        let tree = self.tree.view()?;
        let dual = self.dual.view()?;
        let words = WordView::new(&self.starts)?;
        let count = self.start_count;
        if count == 0
            || count > 3
            || count.div_ceil(2) > words.len()
            || tree.len() + dual.len() != a.len()
        {
            return None;
        }
        let starts = PackedView::new(words, count, 32);
        check(a, tree, dual, starts, steps).ok()?;
        Some(TuranView::new(TuranParts {
            a: self.a.ranks(a, steps)?,
            tree: self.tree.parens(tree, steps)?,
            dual: self.dual.parens(dual, steps)?,
            starts,
        }))
    }
}

/// Whether a tour of a small code gives these.
fn gives<C: Ledger>(alloc: Global, small: &Small, wanted: &[Passed], blank: Blank) -> bool
    requires name { blank.name ≡ C.name }
    requires parts { blank.parts ≡ C.parts }
    requires some { 0 < blank.parts }
{
    let mut steps = Steps::<C>::new(alloc, blank);
    let Some(code) = small.view(&mut steps) else {
        return false;
    };
    let mut words = [u64::MAX; 32];
    let room = Region::new(&mut words);
    if code.len() / 2 > room.left() {
        return false;
    }
    let mut tour = Tour::new(code, room);
    for passed in wanted {
        if tour.pass(&mut steps) != Some(*passed) {
            return false;
        }
    }
    tour.pass(&mut steps) == None
}

#[test]
fn two_components_are_passed_position_by_position(rt: HostRuntime) {
    let ends = Sequence {
        len: 4,
        bits: [5, 0, 0, 0, 0, 0, 0, 0],
        counts: [0, 0, 0, 0, 2, 0, 0, 0],
    };
    let small = Small {
        a: Sequence {
            len: 8,
            bits: [197, 0, 0, 0, 0, 0, 0, 0],
            counts: [0, 0, 0, 0, 4, 0, 0, 0],
        },
        tree: ends,
        dual: ends,
        starts: [0, 0, 0, 0, 4, 0, 0, 0, 8, 0, 0, 0, 0, 0, 0, 0],
        start_count: 3,
    };
    let wanted = [
        passed(0, 0, 0, 0, true, true),
        passed(2, 2, 0, 0, true, false),
        passed(0, 2, 1, 0, false, true),
        passed(2, 0, 1, 0, false, false),
        passed(3, 1, 0, 1, true, false),
        passed(3, 1, 2, 1, false, false),
        passed(1, 1, 0, 1, true, true),
        passed(1, 3, 0, 1, false, true),
    ];
    assert!(rt; gives::<Brand>(rt.alloc(), &small, &wanted, Blank::new(1)));
}

/// What stands at a position.
fn passed(edge: u32, node: u32, ring: u32, component: u32, first: bool, tree: bool) -> Passed {
    Passed {
        edge,
        node,
        ring,
        component,
        first,
        tree,
    }
}
