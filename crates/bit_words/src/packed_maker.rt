//! Numbers of one width put one after another into words.

ghost use Rattle.std.specs.Prelude.{◌≡◌, ◌<◌, ◌≤◌, ◌+◌, ◌*◌, ◌/◌, ◌^◌, length, OnOk, OnErr, [], ◌∷◌, ◌++◌, slice_index};
ghost use Rattle.bit_words.specs.Bits.{stream};

use crate::in_word::low_bits;
use crate::memory::Memory;
use std::alloc::Global;
use std::marker::Model;

/// Numbers of `width` bits that are put one after another into words, the least bit first.
/// Contracts see their width and their list.
#[derive(Drop)]
pub struct PackedMaker {
    words: Vec<u64>,
    count: usize,
    width: u32,
}

impl Model for PackedMaker {
    ghost use Rattle.bit_words.specs.Packed.{PackedList, Packs};
    ghost use Rattle.bit_words.specs.Bits.{fields_in};

    ghost Value = { PackedList };

    ghost view = { λ m. record { width = m.width; items = fields_in m.words.items m.count m.width } };

    ghost invariant = { λ m. Packs m.words.items m.count m.width };
}

/// Puts a word at the end.
fn push_word(words: &mut Vec<u64>, word: u64) -> Result<(), Memory>
    ensures ok { OnOk result (words.new.items ≡ words.old.items ++ word ∷ []) }
    ensures err { OnErr result (words.new.items ≡ words.old.items) }
{
    match words.push(word) {
        Ok(()) => Ok(()),
        Err(_) => Err(Memory),
    }
}

/// Puts `value` at the bits from `from` on, where the words end.
fn append(words: &mut Vec<u64>, from: usize, width: u32, value: u64) -> Result<(), Memory>
    requires size { length words.old.items ≡ (from + 63) / 64 }
    requires rest { stream words.old.items < 2 ^ from }
    requires some { 1 ≤ width }
    requires narrow { width ≤ 64 }
    requires fits { value < 2 ^ width }
    ensures size { OnOk result (length words.new.items ≡ (from + width + 63) / 64) }
    ensures stream { OnOk result (stream words.new.items ≡ stream words.old.items + 2 ^ from * value) }
    ensures err { OnErr result (words.new.items ≡ words.old.items) }
{
    let place = (from % 64) as u32;
    if place == 0 {
        push_word(words, value)?;
        Ok(())
    } else {
        let room = 64 - place;
        let last = words[from / 64] | value << place;
        if width <= room {
            words[from / 64] = last;
            Ok(())
        } else {
            push_word(words, value >> room)?;
            words[from / 64] = last;
            Ok(())
        }
    }
}

/// Puts a bit at `from`, where the words end.
#[inline]
fn append_bit(words: &mut Vec<u64>, from: usize, bit: u64) -> Result<(), Memory>
    requires size { length words.old.items ≡ (from + 63) / 64 }
    requires rest { stream words.old.items < 2 ^ from }
    requires fits { bit < 2 }
    ensures size { OnOk result (length words.new.items ≡ (from + 64) / 64) }
    ensures stream { OnOk result (stream words.new.items ≡ stream words.old.items + 2 ^ from * bit) }
    ensures err { OnErr result (words.new.items ≡ words.old.items) }
{
    let place = (from % 64) as u32;
    if place == 0 {
        push_word(words, bit)?;
        Ok(())
    } else {
        let last = words[from / 64] | bit << place;
        words[from / 64] = last;
        Ok(())
    }
}

#[tactic(auto, using(crate::proofs::Streams::packed))]
impl PackedMaker {
    ghost use Rattle.std.specs.Prelude.{ℕ, ◌≡◌, ◌==◌, ◌<◌, ◌≤◌, ◌+◌, ◌*◌, ◌^◌, [], ◌∷◌, ◌++◌, length, map, slice_index_or, false, IfOk, OnOk, OnErr};
    ghost use Rattle.bit_words.specs.Packed.{Packs};
    ghost use Rattle.bit_words.specs.Bits.{fields_in, is_set};

    /// No numbers yet, each to come of `width` bits. Takes no memory.
    pub fn new(alloc: Global, width: u32) -> PackedMaker
        requires some { 1 ≤ width }
        requires narrow { width ≤ 64 }
        ensures { result ≡ record { width = width; items = [] } }
    {
        PackedMaker {
            words: Vec::new(alloc),
            count: 0,
            width,
        }
    }

    /// The same with room for so many, so that none of these moves the others.
    pub fn with_room(alloc: Global, width: u32, count: usize) -> Result<PackedMaker, Memory>
        requires some { 1 ≤ width }
        requires narrow { width ≤ 64 }
        ensures { IfOk result (λ maker. maker ≡ record { width = width; items = [] }) }
    {
        match Vec::with_capacity(alloc, count.saturating_mul(width as usize).div_ceil(64)) {
            Ok(words) => Ok(PackedMaker {
                words,
                count: 0,
                width,
            }),
            Err(_) => Err(Memory),
        }
    }

    /// How many numbers there are.
    #[inline]
    pub fn count(&self) -> usize
        ensures { result ≡ length self.now.items }
    {
        self.count
    }

    /// Number `i`.
    #[inline]
    pub(crate) fn field(&self, i: usize) -> u64
        requires { i < length self.now.items }
        ensures { result ≡ slice_index self.now.items i }
    {
        let from = i * self.width as usize;
        let place = (from % 64) as u32;
        let low = self.words[from / 64] >> place;
        let room = 64 - place;
        let value = if self.width <= room {
            low
        } else {
            low | self.words[from / 64 + 1] << room
        };
        low_bits(value, self.width)
    }

    /// Word `j`, where the numbers are bits: those from `64 * j` on, with 0 from the end of the list on.
    #[inline]
    pub(crate) fn chunk(&self, j: usize) -> u64
        requires bits { self.now.width ≡ 1 }
        requires within { 64 * j < length self.now.items }
        ensures { (k : ℕ) → k < 64 → is_set result k
            ≡ slice_index_or (map (λ x. x == 1) self.now.items) (64 * j + k) false }
    {
        self.words[j]
    }

    /// Puts a number at the end. Where memory is wanting, the list stays as it was.
    pub fn push(&mut self, value: u64) -> Result<(), Memory>
        requires fits { value < 2 ^ self.old.width }
        requires room { length self.old.items < 2147483647 }
        ensures ok { OnOk result (self.new ≡ record self.old { items = self.old.items ++ value ∷ [] }) }
        ensures err { OnErr result (self.new ≡ self.old) }
    {
        append(
            &mut self.words,
            self.count * self.width as usize,
            self.width,
            value,
        )?;
        self.count += 1;
        Ok(())
    }

    /// The same where the numbers are bits.
    #[inline]
    pub(crate) fn push_bit(&mut self, value: u64) -> Result<(), Memory>
        requires bits { self.old.width ≡ 1 }
        requires fits { value < 2 }
        requires room { length self.old.items < 2147483647 }
        ensures ok { OnOk result (self.new ≡ record self.old { items = self.old.items ++ value ∷ [] }) }
        ensures err { OnErr result (self.new ≡ self.old) }
    {
        append_bit(&mut self.words, self.count, value)?;
        self.count += 1;
        Ok(())
    }

    /// The words, with bits of 0 after the last number.
    pub fn finish(self) -> Vec<u64>
        ensures packs { Packs result.items (length self.items) self.width }
        ensures fields { fields_in result.items (length self.items) self.width ≡ self.items }
    {
        self.words
    }
}
