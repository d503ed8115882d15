//! Bytes as words.

ghost use Rattle.std.specs.Prelude.{◌≡◌, ◌≤◌, ◌+◌, ◌*◌, ◌/◌, ◌%◌, length};
ghost use Rattle.bit_words.specs.Bits.{field_at};
ghost use Rattle.bit_words.specs.Words.{words_in};

use crate::in_word::low_bits;
use crate::steps::Steps;
use byteorder::{ByteOrder, LittleEndian};
use std::sync::ledger::Ledger;

/// Words of 64 bits over borrowed bytes, the lowest byte first. No call lends the bytes back.
#[derive(Clone, Copy)]
pub struct WordView<'a> {
    bytes: &'a [u8],
    ghost whole: { length bytes.now % 8 ≡ 0 },
}

#[tactic(auto, using(crate::proofs::WordLists::word_lists))]
impl<'a> WordView<'a> {
    ghost use Rattle.std.specs.Prelude.{◌≡◌, ◌<◌, ◌≤◌, ◌+◌, ◌*◌, ◌/◌, ◌%◌, ◌↔◌, length, slice_index, slice_range, IsSome, IfSome};
    ghost use Rattle.bit_words.specs.WordView.{words_of};

    /// The words of these bytes, or None where their number is no multiple of 8.
    pub fn new(bytes: &'a [u8]) -> Option<WordView<'a>>
        ensures whole { IsSome result ↔ (length bytes.now % 8 ≡ 0) }
        ensures words { IfSome result (λ v. words_of v ≡ words_in (length bytes.now / 8) bytes.now) }
    {
        if bytes.len() % 8 == 0 {
            Some(WordView { bytes })
        } else {
            None
        }
    }

    /// How many words there are.
    #[inline]
    pub fn len(&self) -> usize
        ensures { result ≡ length (words_of self.now) }
    {
        self.bytes.len() / 8
    }

    /// Word `i`. Each call is one step. Beside it only `half` and `bits_from` count steps by themselves.
    #[inline]
    pub fn word<C: Ledger>(&self, i: usize, steps: &mut Steps<C>) -> u64
        requires { i < length (words_of self.now) }
        ensures word { result ≡ slice_index (words_of self.now) i }
        ensures one_step { steps.new ≡ steps.old + 1 }
    {
        let _bytes = self.bytes.len();
        steps.tick();
        LittleEndian::read_u64(&self.bytes[8 * i..])
    }

    /// The number in the 32 bits of half word `i`. Each call is one step.
    #[inline]
    pub(crate) fn half<C: Ledger>(&self, i: usize, steps: &mut Steps<C>) -> u64
        requires { i < 2 * length (words_of self.now) }
        ensures field { result ≡ field_at (words_of self.now) (32 * i) 32 }
        ensures one_step { steps.new ≡ steps.old + 1 }
    {
        let _bytes = self.bytes.len();
        steps.tick_words(32 * (i % 2), 32);
        four_bytes(self.bytes, 4 * i) as u64
    }

    /// The number in the `width` bits from bit `from` on: by one step where they stand in one word, else by two.
    ///
    /// Eight bytes are loaded at once. They may have bytes of a word beside, whose bits are cut off and not counted.
    #[inline]
    pub(crate) fn bits_from<C: Ledger>(&self, from: usize, width: u32, steps: &mut Steps<C>) -> u64
        requires some { 1 ≤ width }
        requires narrow { width ≤ 57 }
        requires within { from + width ≤ 64 * length (words_of self.now) }
        ensures field { result ≡ field_at (words_of self.now) from width }
        ensures one_word { from % 64 + width ≤ 64 → steps.new ≡ steps.old + 1 }
        ensures two_words { 64 < from % 64 + width → steps.new ≡ steps.old + 2 }
    {
        steps.tick_words(from, width);
        let byte = (from / 8).min(self.bytes.len() - 8);
        low_bits(eight_bytes(self.bytes, byte) >> (from - 8 * byte), width)
    }

    /// The `count` words from word `from` on. No word is read.
    pub fn part(&self, from: usize, count: usize) -> WordView<'a>
        requires { from + count ≤ length (words_of self.now) }
        ensures words { words_of result ≡ slice_range (words_of self.now) from (from + count) }
        ensures len { length (words_of result) ≡ count }
    {
        let _bytes = self.bytes.len();
        WordView {
            bytes: &self.bytes[8 * from..8 * (from + count)],
        }
    }
}

/// The number in the four bytes from byte `byte` on. It counts no step: that is its caller's.
#[inline]
fn four_bytes(bytes: &[u8], byte: usize) -> u32
    requires whole { length bytes.now % 8 ≡ 0 }
    requires within { byte + 4 ≤ length bytes.now }
    ensures { result ≡ field_at (words_in (length bytes.now / 8) bytes.now) (8 * byte) 32 }
{
    LittleEndian::read_u32(&bytes[byte..])
}

/// The number in the eight bytes from byte `byte` on. It counts no step: that is its caller's.
#[inline]
fn eight_bytes(bytes: &[u8], byte: usize) -> u64
    requires whole { length bytes.now % 8 ≡ 0 }
    requires within { byte + 8 ≤ length bytes.now }
    ensures { result ≡ field_at (words_in (length bytes.now / 8) bytes.now) (8 * byte) 64 }
{
    LittleEndian::read_u64(&bytes[byte..])
}
