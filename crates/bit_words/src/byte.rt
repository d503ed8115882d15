//! The bytes of a word: where they stand, what their bits come to, and searches in one of them.

ghost use Rattle.std.specs.Prelude.{ℕ, ◌≡◌, ◌<◌, ◌≤◌, ◌+◌, ◌-◌, ◌*◌, true, pos, ◌+ℤ◌, ◌-ℤ◌, ◌≤ℤ◌};
ghost use Rattle.bit_words.specs.Bits.{is_set, word_bits, rank, excess, IsNext, IsLast};
ghost use Rattle.bit_words.specs.Bytes.{byte_excess, byte_least, first_fall, last_rise, place_or, IsByteOne};

use crate::tables::{BYTE_EXCESSES, BYTE_LEASTS, FIRST_FALLS, LAST_RISES, PLACES_IN_BYTES};

/// The eight bits from place `at` on, with zeros from the end of the word on.
#[inline]
pub(crate) fn byte_from(word: u64, at: u32) -> u8
    requires { at < 64 }
    ensures { (i : ℕ) → i < 8 → at + i < 64 → is_set result i ≡ is_set word (at + i) }
{
    ((word >> at) % 256) as u8
}

/// The eight bits up to before place `at`, with zeros before the begin of the word.
#[inline]
pub(crate) fn byte_up_to(word: u64, at: u32) -> u8
    requires some { 1 ≤ at }
    requires within { at ≤ 64 }
    ensures { (i : ℕ) → i < 8 → 8 ≤ at + i → is_set result i ≡ is_set word (at + i - 8) }
{
    (word << (64 - at) >> 56) as u8
}

/// The entry of `BYTE_EXCESSES` for a byte.
#[inline]
fn excess_entry(byte: u8) -> i8
    ensures entry { result ≡ byte_excess byte }
    ensures low { (pos 0 -ℤ pos 8) ≤ℤ result }
    ensures high { result ≤ℤ pos 8 }
{
    BYTE_EXCESSES[byte as usize]
}

/// What the bits of a byte sum to, where a one counts +1 and a zero -1, plus 8.
#[inline]
pub(crate) fn excess_of_byte(byte: u8) -> u64
    ensures value { pos result ≡ byte_excess byte +ℤ pos 8 }
    ensures few { result ≤ 16 }
{
    (excess_entry(byte) + 8) as u64
}

/// The entry of `BYTE_LEASTS` for a byte.
#[inline]
fn least_entry(byte: u8) -> i8
    ensures entry { result ≡ byte_least byte }
    ensures low { (pos 0 -ℤ pos 8) ≤ℤ result }
    ensures high { result ≤ℤ pos 0 }
{
    BYTE_LEASTS[byte as usize]
}

/// The least that a front of the bits of a byte sums to, the empty front included, plus 8.
#[inline]
pub(crate) fn least_of_byte(byte: u8) -> u64
    ensures value { pos result ≡ byte_least byte +ℤ pos 8 }
    ensures few { result ≤ 8 }
{
    (least_entry(byte) + 8) as u64
}

/// How many ones a byte has.
#[inline]
pub(crate) fn ones_of_byte(byte: u8) -> u32
    ensures { result ≡ rank true (word_bits byte) 8 }
{
    byte.count_ones()
}

/// The entry of `FIRST_FALLS` for a byte and how far it falls.
#[inline]
fn fall_entry(byte: u8, need: u64) -> u32
    requires some { 1 ≤ need }
    requires few { need ≤ 8 }
    ensures { result ≡ place_or 9 (first_fall byte need) }
{
    u32::from(FIRST_FALLS[8 * byte as usize + (need as usize - 1)])
}

/// The least place after 0 such that the bits before it sum to `-need`, where a one counts +1 and a zero -1.
#[inline]
pub(crate) fn first_fall_in_byte(byte: u8, need: u64) -> Option<u32>
    requires { 1 ≤ need }
    ensures { IsNext (λ p. excess (word_bits byte) p +ℤ pos need ≡ pos 0) 0 8 result }
{
    if need > 8 {
        return None;
    }
    let place = fall_entry(byte, need);
    if place <= 8 { Some(place) } else { None }
}

/// The entry of `LAST_RISES` for a byte and how far it rises.
#[inline]
fn rise_entry(byte: u8, need: u64) -> u32
    requires some { 1 ≤ need }
    requires few { need ≤ 8 }
    ensures { result ≡ place_or 8 (last_rise byte need) }
{
    u32::from(LAST_RISES[8 * byte as usize + (need as usize - 1)])
}

/// The greatest place before 8 such that the bits from it on sum to `need`, where a one counts +1 and a zero -1.
#[inline]
pub(crate) fn last_rise_in_byte(byte: u8, need: u64) -> Option<u32>
    requires { 1 ≤ need }
    ensures { IsLast (λ p. excess (word_bits byte) p +ℤ pos need ≡ excess (word_bits byte) 8) 0 8 result }
{
    if need > 8 {
        return None;
    }
    let place = rise_entry(byte, need);
    if place < 8 { Some(place) } else { None }
}

/// The place of the one that has `j` ones below it.
#[inline]
pub(crate) fn place_in_byte(byte: u8, j: u32) -> u32
    requires { j < rank true (word_bits byte) 8 }
    ensures { IsByteOne byte j result }
{
    u32::from(PLACES_IN_BYTES[8 * byte as usize + j as usize])
}
