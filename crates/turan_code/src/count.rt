//! Ones between two places, without a directory.

ghost use Rattle.std.specs.Prelude.{◌≡◌, ◌≤◌, ◌+◌, ◌-◌, ◌*◌, ◌/◌, true, length};
ghost use Rattle.bit_words.specs.Bits.{rank};
ghost use Rattle.bit_words.specs.BitView.{bits_of};

use bit_words::{BitView, Steps, ones_below};
use std::sync::ledger::Ledger;

/// How many ones stand from `from` to before `to`, both in one word.
fn ones_in_word<C: Ledger>(
    bits: &BitView<'_>,
    from: usize,
    to: usize,
    steps: &mut Steps<C>,
) -> usize
    requires few { length (bits_of bits.now) ≤ 2147483647 }
    requires some { from + 1 ≤ to }
    requires within { to ≤ length (bits_of bits.now) }
    requires one_word { to ≤ 64 * (from / 64 + 1) }
    ensures ones { rank true (bits_of bits.now) from + result ≡ rank true (bits_of bits.now) to }
    ensures few { result ≤ to - from }
    ensures one_step { steps.new ≡ steps.old + 1 }
{
    let word = from / 64;
    let chunk = bits.chunk(word, steps);
    let low = ones_below(chunk, (from - 64 * word) as u32);
    let high = ones_below(chunk, (to - 64 * word) as u32);
    (high - low) as usize
}

/// How many ones stand from `from` to before `to`, word by word.
pub(crate) fn ones_between<C: Ledger>(
    bits: &BitView<'_>,
    from: usize,
    to: usize,
    steps: &mut Steps<C>,
) -> usize
    requires few { length (bits_of bits.now) ≤ 2147483647 }
    requires order { from ≤ to }
    requires within { to ≤ length (bits_of bits.now) }
    ensures ones { rank true (bits_of bits.now) from + result ≡ rank true (bits_of bits.now) to }
    ensures few { result ≤ to - from }
    ensures grows { steps.old ≤ steps.new }
    ensures cost { steps.new ≤ steps.old + (to - from) }
{
    let mut ones = 0;
    let mut at = from;
    while at < to {
        let end = to.min(64 * (at / 64 + 1));
        ones += ones_in_word(bits, at, end, steps);
        at = end;
    }
    ones
}
