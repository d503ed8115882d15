//! Counts and searches in one word, by its bytes.

ghost use Rattle.std.specs.Prelude.{ℕ, ◌%◌, ◌^◌, ◌≡◌, ◌<◌, ◌≤◌, true, pos, ◌+ℤ◌, ◌-ℤ◌};
ghost use Rattle.bit_words.specs.Bits.{is_set, rank, excess, word_bits, IsSelected, IsNext, IsLast};
ghost use Rattle.bit_words.specs.Bytes.{least_front};

use crate::byte::{
    byte_from, byte_up_to, excess_of_byte, first_fall_in_byte, last_rise_in_byte, least_of_byte,
    ones_of_byte, place_in_byte,
};

/// The lowest `width` bits.
#[inline]
#[tactic(auto, using(crate::proofs::Streams::masks))]
pub(crate) fn low_bits(value: u64, width: u32) -> u64
    requires { width ≤ 64 }
    ensures { result ≡ value % 2 ^ width }
{
    if width == 64 {
        value
    } else {
        value & ((1 << width) - 1)
    }
}

/// How many of the lowest `i` bits are ones.
#[inline]
pub fn ones_below(word: u64, i: u32) -> u32
    requires { i ≤ 64 }
    ensures { result ≡ rank true (word_bits word) i }
{
    low_bits(word, i).count_ones()
}

/// The place of the one that has `j` ones below it, or None where there are at most `j` ones.
#[inline]
pub fn place_of_one(word: u64, j: u32) -> Option<u32>
    ensures { IsSelected true (word_bits word) j result }
{
    let mut left = j;
    for k in 0..8 {
        let byte = byte_from(word, 8 * k);
        let ones = ones_of_byte(byte);
        if left < ones {
            return Some(8 * k + place_in_byte(byte, left));
        }
        left -= ones;
    }
    None
}

/// The least `p` after `from` and up to `to` such that the bits from `from` to before `p` sum to `-drop`,
/// where a one counts +1 and a zero -1.
#[inline]
pub fn first_excess(word: u64, from: u32, to: u32, drop: u32) -> Option<u32>
    requires order { from ≤ to }
    requires within { to ≤ 64 }
    requires some { 1 ≤ drop }
    ensures { IsNext (λ p. excess (word_bits word) p ≡ excess (word_bits word) from -ℤ pos drop) from to result }
{
    let mut need = drop as u64;
    let mut at = from;
    while at < to {
        let byte = byte_from(word, at);
        if let Some(place) = first_fall_in_byte(byte, need) {
            return if place <= to - at {
                Some(at + place)
            } else {
                None
            };
        }
        need = need + 2 * u64::from(ones_of_byte(byte)) - 8;
        at += 8;
    }
    None
}

/// The greatest `p` from `from` on and below `to` such that the bits from `p` to before `to` sum to `drop`,
/// where a one counts +1 and a zero -1.
#[inline]
pub fn last_excess(word: u64, from: u32, to: u32, drop: u32) -> Option<u32>
    requires order { from ≤ to }
    requires within { to ≤ 64 }
    requires some { 1 ≤ drop }
    ensures { IsLast (λ p. excess (word_bits word) p ≡ excess (word_bits word) to -ℤ pos drop) from to result }
{
    let mut need = drop as u64;
    let mut at = to;
    while at > from {
        let byte = byte_up_to(word, at);
        if let Some(place) = last_rise_in_byte(byte, need) {
            return if from + 8 <= at + place {
                Some(at + place - 8)
            } else {
                None
            };
        }
        need = need + 8 - 2 * u64::from(ones_of_byte(byte));
        at = at.saturating_sub(8);
    }
    None
}

/// The word with ones from place `from` on.
#[inline]
fn filled_from(word: u64, from: u32) -> u64
    requires { from ≤ 64 }
    ensures low { (i : ℕ) → i < from → is_set result i ≡ is_set word i }
    ensures high { (i : ℕ) → from ≤ i → i < 64 → is_set result i ≡ true }
{
    !low_bits(!word, from)
}

/// How far a front of the first `count` bits comes down at most, where a one counts +1 and a zero -1.
#[inline]
pub fn deepest_fall(word: u64, count: u32) -> u32
    requires { count ≤ 64 }
    ensures fall { least_front (word_bits word) count +ℤ pos result ≡ pos 0 }
    ensures few { result ≤ count }
{
    let filled = filled_from(word, count);
    let mut excess = 64;
    let mut least: u64 = 64;
    for k in 0..count.div_ceil(8) {
        let byte = byte_from(filled, 8 * k);
        least = least.min(excess + least_of_byte(byte) - 8);
        excess = excess + excess_of_byte(byte) - 8;
    }
    (64 - least) as u32
}
