//! Numbers of one width as they are read from words.

ghost use Rattle.std.specs.Prelude.{◌*◌, ◌≤◌, length};
ghost use Rattle.bit_words.specs.WordView.{words_of};

use crate::in_word::low_bits;
use crate::steps::Steps;
use crate::word_view::WordView;
use std::sync::ledger::Ledger;

/// Numbers of `width` bits, one after another, the least bit first: number `i` from bit `i * width` on.
#[derive(Clone, Copy)]
pub struct PackedView<'a> {
    words: WordView<'a>,
    count: usize,
    width: u32,
    ghost narrow: { width ≤ 64 },
    ghost some: { 1 ≤ width },
    ghost few: { count ≤ 2147483647 },
    ghost within: { count * width ≤ 64 * length (words_of words) },
}

#[tactic(auto, using(crate::proofs::Streams::fields))]
impl<'a> PackedView<'a> {
    ghost use Rattle.std.specs.Prelude.{ℕ, ◌≡◌, ◌<◌, ◌≤◌, ◌+◌, ◌*◌, ◌%◌, length, slice_index};
    ghost use Rattle.bit_words.specs.WordView.{words_of};
    ghost use Rattle.bit_words.specs.Bits.{fields_in};
    ghost use Rattle.bit_words.specs.PackedView.{fields_of, width_of};

    /// The first `count` numbers of `width` bits each in `words`.
    pub fn new(words: WordView<'a>, count: usize, width: u32) -> PackedView<'a>
        requires some { 1 ≤ width }
        requires narrow { width ≤ 64 }
        requires few { count ≤ 2147483647 }
        requires within { count * width ≤ 64 * length (words_of words) }
        ensures count { length (fields_of result) ≡ count }
        ensures fields { fields_of result ≡ fields_in (words_of words.entry) count width }
        ensures width { width_of result ≡ width }
    {
        PackedView {
            words,
            count,
            width,
        }
    }

    /// How many numbers there are.
    #[inline]
    pub fn count(&self) -> usize
        ensures { result ≡ length (fields_of self.now) }
    {
        self.count
    }

    /// How many bits each number has.
    #[inline]
    pub fn width(&self) -> u32
        ensures { result ≡ width_of self.now }
    {
        self.width
    }

    /// Number `i`, by one step where it stands in one word, else by two.
    #[inline]
    pub fn field<C: Ledger>(&self, i: usize, steps: &mut Steps<C>) -> u64
        requires { i < length (fields_of self.now) }
        ensures field { result ≡ slice_index (fields_of self.now) i }
        ensures one_word { i * width_of self.now % 64 + width_of self.now ≤ 64 → steps.new ≡ steps.old + 1 }
        ensures two_words { 64 < i * width_of self.now % 64 + width_of self.now → steps.new ≡ steps.old + 2 }
        ensures some_steps { steps.old + 1 ≤ steps.new }
        ensures few_steps { steps.new ≤ steps.old + 2 }
    {
        if self.width <= 57 {
            let from = i * self.width as usize;
            self.words.bits_from(from, self.width, steps)
        } else {
            self.wide_field(i, steps)
        }
    }

    /// Number `i`, of numbers of 32 bits, by one step.
    #[inline]
    pub fn half_word<C: Ledger>(&self, i: usize, steps: &mut Steps<C>) -> u64
        requires within { i < length (fields_of self.now) }
        requires width { width_of self.now ≡ 32 }
        ensures field { result ≡ slice_index (fields_of self.now) i }
        ensures one_step { steps.new ≡ steps.old + 1 }
    {
        self.words.half(i, steps)
    }

    /// Number `i` of any width, from the one word or the two that it stands in, read one by one.
    #[inline]
    fn wide_field<C: Ledger>(&self, i: usize, steps: &mut Steps<C>) -> u64
        requires { i < length (fields_of self.now) }
        ensures field { result ≡ slice_index (fields_of self.now) i }
        ensures one_word { i * width_of self.now % 64 + width_of self.now ≤ 64 → steps.new ≡ steps.old + 1 }
        ensures two_words { 64 < i * width_of self.now % 64 + width_of self.now → steps.new ≡ steps.old + 2 }
        ensures some_steps { steps.old + 1 ≤ steps.new }
        ensures few_steps { steps.new ≤ steps.old + 2 }
    {
        let from = i * self.width as usize;
        let place = (from % 64) as u32;
        let low = self.words.word(from / 64, steps) >> place;
        let room = 64 - place;
        let value = if self.width <= room {
            low
        } else {
            low | self.words.word(from / 64 + 1, steps) << room
        };
        low_bits(value, self.width)
    }
}
