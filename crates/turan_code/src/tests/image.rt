//! A code and its directories as bytes, and views over them.

ghost use Rattle.std.specs.Prelude.{◌≡◌, ◌≤◌, ◌/◌, filter, length, IfOk, IfSome, IsTrue};
ghost use Rattle.bit_words.specs.Words.{words_in};
ghost use Rattle.bit_words.specs.Bits.{same, bits_in};
ghost use Rattle.bit_words.specs.BitView.{bits_of as view_bits};
ghost use Rattle.bit_words.specs.PackedView.{width_of};
ghost use Rattle.rank_select.specs.RankView.{counted};
ghost use Rattle.parens.specs.ParenView.{parens_of};
ghost use Rattle.code_laws.specs.Tour.{code_of};
ghost use Rattle.code_laws.specs.SeqFault.{is_sound};
ghost use Rattle.turan_code.specs.Sequences.{code_of_sequences, AreFew};
ghost use Rattle.turan_code.specs.TuranView.{code_of_view};

use crate::sequences::Sequences;
use crate::{TuranParts, TuranView, check, make};
use bit_words::{BitView, PackedView, Steps, WordView};
use image_words::bytes_of;
use min_max_tree::MinMaxView;
use parens::{ParenView, check_balanced};
use rank_select::RankView;
use std::alloc::Global;
use std::marker::Model;
use std::sync::ledger::Ledger;
use std::test::Fail;

/// A walk: of each position, whether its edge is one of the trees and whether it is the first of its edge; and the
/// starts of the components.
#[derive(Clone, Copy)]
pub(super) struct Walk<'a> {
    pub(super) tree: &'a [bool],
    pub(super) first: &'a [bool],
    pub(super) starts: &'a [u32],
}

/// Bits with their counts and their tree, as bytes.
#[derive(Drop)]
pub(super) struct Bits {
    len: usize,
    bits: Vec<u8>,
    counts: Vec<u8>,
    nodes: Vec<u8>,
}

impl Model for Bits {
    ghost use Rattle.std.specs.Prelude.{◌/◌, Bool, List, length};
    ghost use Rattle.bit_words.specs.Words.{words_in};
    ghost use Rattle.bit_words.specs.Bits.{bits_in};

    ghost Value = { List Bool };

    ghost view = { λ b. bits_in (words_in (length b.bits.items / 8) b.bits.items) b.len };
}

/// A code as bytes. The bits of all positions have no tree.
#[derive(Drop)]
pub(super) struct Image {
    pub(super) a: Bits,
    tree: Bits,
    dual: Bits,
    start_count: usize,
    starts: Vec<u8>,
}

impl Model for Image {
    ghost use Rattle.std.specs.Prelude.{◌/◌, length};
    ghost use Rattle.bit_words.specs.Words.{words_in};
    ghost use Rattle.bit_words.specs.Bits.{fields_in};
    ghost use Rattle.code_laws.specs.Code.{Code, code_with};

    ghost Value = { Code };

    ghost view = { λ i. code_with i.a i.tree i.dual (fields_in (words_in (length i.starts.items / 8) i.starts.items)
        i.start_count 32) };
}

/// How many of these are this bit.
fn count_of(bits: &[bool], bit: bool) -> usize
    ensures { result ≡ length (filter (same bit) bits.now) }
{
    bits.iter().filter(|of_place| **of_place == bit).count()
}

/// The image of the code of a walk.
pub(super) fn image_of(alloc: Global, walk: Walk<'_>) -> Result<Image, Fail>
    requires same { length walk.tree.now ≡ length walk.first.now }
    requires few { length walk.tree.now ≤ 2147483647 }
    requires few_starts { length walk.starts.now ≤ 2147483647 }
    ensures { IfOk result (λ image. image ≡ code_of walk.entry.tree.now walk.entry.first.now walk.entry.starts.now) }
{
    let words = make(alloc, walk.tree, walk.first, walk.starts)?;
    Ok(Image {
        a: Bits::new(
            alloc,
            walk.tree.len(),
            words.a.as_slice(),
            words.a_counts.as_slice(),
            &[],
        )?,
        tree: Bits::new(
            alloc,
            count_of(walk.tree, true),
            words.b.as_slice(),
            words.b_counts.as_slice(),
            words.b_tree.as_slice(),
        )?,
        dual: Bits::new(
            alloc,
            count_of(walk.tree, false),
            words.dual.as_slice(),
            words.dual_counts.as_slice(),
            words.dual_tree.as_slice(),
        )?,
        start_count: walk.starts.len(),
        starts: bytes_of(alloc, words.starts.as_slice())?,
    })
}

impl Bits {
    /// The first `len` bits of words, with these counts and nodes.
    pub(super) fn new(
        alloc: Global,
        len: usize,
        bits: &[u64],
        counts: &[u64],
        nodes: &[u64],
    ) -> Result<Bits, Fail>
        ensures { IfOk result (λ made. made ≡ bits_in bits.now len) }
    {
        Ok(Bits {
            len,
            bits: bytes_of(alloc, bits)?,
            counts: bytes_of(alloc, counts)?,
            nodes: bytes_of(alloc, nodes)?,
        })
    }

    /// The bits alone. None where their size does not fit.
    pub(super) fn view<'a>(&'a self) -> Option<BitView<'a>>
        ensures few { IfSome result (λ view. length (view_bits view) ≤ 2147483647) }
        ensures bits { IfSome result (λ view. view_bits view ≡ self.now) }
    {
        let words = WordView::new(self.bits.as_slice())?;
        if self.len > 2147483647 || self.len.div_ceil(64) > words.len() {
            return None;
        }
        Some(BitView::new(words, self.len))
    }

    /// The bits with their counts. None where a count is not right.
    fn ranks<'a, C: Ledger>(
        &'a self,
        bits: BitView<'a>,
        steps: &mut Steps<C>,
    ) -> Option<RankView<'a>>
        requires { length (view_bits bits) ≤ 2147483647 }
        ensures { IfSome result (λ ranks. counted ranks ≡ view_bits bits.entry) }
    {
        let words = WordView::new(self.counts.as_slice())?;
        let entries = bits.len().div_ceil(512) + 1;
        if entries.div_ceil(2) > words.len() {
            return None;
        }
        let counts = PackedView::new(words, entries, 32);
        rank_select::check_counts(bits, counts, steps).ok()?;
        Some(RankView::new(bits, counts))
    }

    /// The bits as parentheses. None where an entry is not right or they are not balanced.
    fn parens<'a, C: Ledger>(
        &'a self,
        bits: BitView<'a>,
        steps: &mut Steps<C>,
    ) -> Option<ParenView<'a>>
        requires { length (view_bits bits) ≤ 2147483647 }
        ensures { IfSome result (λ parens. parens_of parens ≡ view_bits bits.entry) }
    {
        let ranks = self.ranks(bits, steps)?;
        let nodes = WordView::new(self.nodes.as_slice())?;
        if nodes.len() != min_max_tree::node_count(bits.len()) {
            return None;
        }
        min_max_tree::check(bits, nodes, steps).ok()?;
        check_balanced(bits, 0, bits.len(), steps).ok()?;
        Some(ParenView::new(ranks, MinMaxView::new(bits, nodes)))
    }
}

impl Image {
    /// The sequences and starts. None where sizes do not fit.
    pub(super) fn sequences<'a>(&'a self) -> Option<Sequences<'a>>
        ensures few { IfSome result (λ found. AreFew (code_of_sequences found)) }
        ensures code { IfSome result (λ found. code_of_sequences found ≡ self.now) }
        ensures width { IfSome result (λ found. width_of found.starts ≡ 32) }
    {
        let a = self.a.view()?;
        let tree = self.tree.view()?;
        let dual = self.dual.view()?;
        let words = WordView::new(self.starts.as_slice())?;
        let count = self.start_count;
        if count == 0
            || count > 2147483647
            || count.div_ceil(2) > words.len()
            || tree.len() + dual.len() != a.len()
        {
            return None;
        }
        let starts = PackedView::new(words, count, 32);
        Some(Sequences {
            a,
            tree,
            dual,
            starts,
        })
    }

    /// The view of the code. None where anything is not right.
    pub(super) fn view<'a, C: Ledger>(&'a self, steps: &mut Steps<C>) -> Option<TuranView<'a>>
        ensures code { IfSome result (λ view. code_of_view view ≡ self.now) }
        ensures sound { IfSome result (λ view. IsTrue (is_sound (code_of_view view))) }
    {
        let found = self.sequences()?;
        check(found.a, found.tree, found.dual, found.starts, steps).ok()?;
        Some(TuranView::new(TuranParts {
            a: self.a.ranks(found.a, steps)?,
            tree: self.tree.parens(found.tree, steps)?,
            dual: self.dual.parens(found.dual, steps)?,
            starts: found.starts,
        }))
    }
}
