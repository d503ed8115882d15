//! Bits put one after another into words.

use crate::memory::Memory;
use crate::packed_maker::PackedMaker;
use std::alloc::Global;
use std::marker::Model;

/// Bits that are put one after another into words, the least bit of each word first.
/// Contracts see their list.
#[derive(Drop)]
pub struct BitMaker {
    bits: PackedMaker,
}

impl Model for BitMaker {
    ghost use Rattle.std.specs.Prelude.{ℕ, ◌≡◌, ◌==◌, ◌<◌, Bool, List, map};
    ghost use Rattle.std.specs.List.{All};
    ghost use Rattle.bit_words.specs.Packed.{PackedList};

    ghost Value = { List Bool };

    ghost view = { λ m. map (λ (x : ℕ). x == 1) m.bits.items };

    ghost invariant = { λ m. m.bits.width ≡ 1 };
}

#[tactic(auto, using(crate::proofs::Streams::packed))]
impl BitMaker {
    ghost use Rattle.std.specs.Prelude.{ℕ, ◌≡◌, ◌<◌, ◌≤◌, ◌+◌, ◌*◌, ◌/◌, ◌^◌, [], ◌∷◌, ◌++◌, length, OnOk, OnErr, slice_index_or, false};
    ghost use Rattle.bit_words.specs.Bits.{HoldsBits, bits_in, is_set};

    /// No bits yet. Takes no memory.
    pub fn new(alloc: Global) -> BitMaker
        ensures { result ≡ [] }
    {
        BitMaker {
            bits: PackedMaker::new(alloc, 1),
        }
    }

    /// How many bits there are.
    #[inline]
    pub fn len(&self) -> usize
        ensures { result ≡ length self.now }
    {
        self.bits.count()
    }

    /// Bit `i`.
    #[inline]
    pub fn bit(&self, i: usize) -> bool
        requires { i < length self.now }
        ensures { result ≡ slice_index_or self.now i false }
    {
        self.bits.field(i) == 1
    }

    /// Word `j`: the 64 bits from `64 * j` on, with 0 from the end of the list on.
    #[inline]
    pub fn chunk(&self, j: usize) -> u64
        requires { 64 * j < length self.now }
        ensures { (k : ℕ) → k < 64 → is_set result k ≡ slice_index_or self.now (64 * j + k) false }
    {
        self.bits.chunk(j)
    }

    /// Puts a bit at the end. Where memory is wanting, the list stays as it was.
    pub fn push(&mut self, bit: bool) -> Result<(), Memory>
        requires { length self.old < 2147483647 }
        ensures ok { OnOk result (self.new ≡ self.old ++ bit ∷ []) }
        ensures err { OnErr result (self.new ≡ self.old) }
    {
        self.bits.push_bit(if bit { 1 } else { 0 })
    }

    /// The words, with bits of 0 after the last bit.
    pub fn finish(self) -> Vec<u64>
        ensures holds { HoldsBits result.items self }
        ensures bits { bits_in result.items (length self) ≡ self }
    {
        self.bits.finish()
    }
}
