//! Bits as they are read from words.

ghost use Rattle.std.specs.Prelude.{◌*◌, ◌≤◌, length};
ghost use Rattle.bit_words.specs.WordView.{words_of};

use crate::steps::Steps;
use crate::word_view::WordView;
use std::sync::ledger::Ledger;

/// The first `len` bits of words, the least bit of each word first.
#[derive(Clone, Copy)]
pub struct BitView<'a> {
    words: WordView<'a>,
    len: usize,
    ghost within: { len ≤ 64 * length (words_of words) },
}

#[tactic(auto, using(crate::proofs::BitLists::bit_lists))]
impl<'a> BitView<'a> {
    ghost use Rattle.std.specs.Prelude.{ℕ, ◌≡◌, ◌<◌, ◌≤◌, ◌+◌, ◌*◌, length, slice_index_or, false};
    ghost use Rattle.bit_words.specs.WordView.{words_of};
    ghost use Rattle.bit_words.specs.Bits.{bits_in, is_set};
    ghost use Rattle.bit_words.specs.BitView.{bits_of};

    /// The first `len` bits of `words`.
    pub fn new(words: WordView<'a>, len: usize) -> BitView<'a>
        requires { len ≤ 64 * length (words_of words) }
        ensures len { length (bits_of result) ≡ len }
        ensures bits { bits_of result ≡ bits_in (words_of words.entry) len }
    {
        BitView { words, len }
    }

    /// How many bits there are.
    #[inline]
    pub fn len(&self) -> usize
        ensures { result ≡ length (bits_of self.now) }
    {
        self.len
    }

    /// Bit `i`, by one step.
    #[inline]
    pub fn bit<C: Ledger>(&self, i: usize, steps: &mut Steps<C>) -> bool
        requires { i < length (bits_of self.now) }
        ensures bit { result ≡ slice_index_or (bits_of self.now) i false }
        ensures one_step { steps.new ≡ steps.old + 1 }
    {
        self.words.word(i / 64, steps) >> (i % 64) & 1 == 1
    }

    /// Word `j` as it stands: the 64 bits from `64 * j` on, and from the end of the list on any bits, by one step.
    #[inline]
    pub fn word<C: Ledger>(&self, j: usize, steps: &mut Steps<C>) -> u64
        requires { 64 * j < length (bits_of self.now) }
        ensures bits { (k : ℕ) → 64 * j + k < length (bits_of self.now) → k < 64
            → is_set result k ≡ slice_index_or (bits_of self.now) (64 * j + k) false }
        ensures one_step { steps.new ≡ steps.old + 1 }
    {
        self.words.word(j, steps)
    }

    /// Word `j`: the 64 bits from `64 * j` on, with 0 from the end of the list on, by one step.
    #[inline]
    pub fn chunk<C: Ledger>(&self, j: usize, steps: &mut Steps<C>) -> u64
        requires { 64 * j < length (bits_of self.now) }
        ensures bits { (k : ℕ) → k < 64 → is_set result k ≡ slice_index_or (bits_of self.now) (64 * j + k) false }
        ensures one_step { steps.new ≡ steps.old + 1 }
    {
        let word = self.words.word(j, steps);
        let left = self.len - 64 * j;
        if left < 64 {
            word & ((1 << left) - 1)
        } else {
            word
        }
    }
}
