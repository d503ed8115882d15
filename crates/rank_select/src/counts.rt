//! Counts of ones, in whole words and in the directory.

ghost use Rattle.std.specs.Prelude.{slice_index, ◌<◌, ◌≡◌, ◌+◌, ◌-◌, ◌*◌, ◌/◌, ◌≤◌, length, true};
ghost use Rattle.bit_words.specs.Bits.{rank};
ghost use Rattle.bit_words.specs.BitView.{bits_of};
ghost use Rattle.bit_words.specs.PackedView.{fields_of, width_of};

use bit_words::{BitView, PackedView, Steps, ones_below};
use std::sync::ledger::Ledger;

/// How many ones stand in the words `from` to before `to`.
#[tactic(auto, using(crate::proofs::CountLaws::chunks))]
pub(crate) fn ones_in_words<C: Ledger>(
    bits: &BitView<'_>,
    from: usize,
    to: usize,
    steps: &mut Steps<C>,
) -> usize
    requires few { length (bits_of bits.now) ≤ 2147483647 }
    requires order { from ≤ to }
    requires within { to ≤ (length (bits_of bits.now) + 63) / 64 }
    ensures ones { rank true (bits_of bits.now) (64 * from) + result ≡ rank true (bits_of bits.now) (64 * to) }
    ensures steps { steps.new ≡ steps.old + (to - from) }
{
    let mut ones = 0;
    for word in from..to {
        ones += ones_below(bits.chunk(word, steps), 64) as usize;
    }
    ones
}

/// How many ones stand in the words `from` to before `to`, all of whose bits are in the list.
#[tactic(auto, using(crate::proofs::CountLaws::fronts))]
pub(crate) fn ones_in_whole_words<C: Ledger>(
    bits: &BitView<'_>,
    from: usize,
    to: usize,
    steps: &mut Steps<C>,
) -> usize
    requires few { length (bits_of bits.now) ≤ 2147483647 }
    requires order { from ≤ to }
    requires within { 64 * to ≤ length (bits_of bits.now) }
    ensures ones { rank true (bits_of bits.now) (64 * from) + result ≡ rank true (bits_of bits.now) (64 * to) }
    ensures steps { steps.new ≡ steps.old + (to - from) }
{
    let mut ones = 0;
    for word in from..to {
        ones += ones_below(bits.word(word, steps), 64) as usize;
    }
    ones
}

/// The count at block `block`, by one step.
#[inline]
#[tactic(auto, using(crate::proofs::CountLaws::chunks))]
pub(crate) fn count_at<C: Ledger>(
    counts: &PackedView<'_>,
    block: usize,
    steps: &mut Steps<C>,
) -> usize
    requires width { width_of counts.now ≡ 32 }
    requires within { block < length (fields_of counts.now) }
    ensures count { result ≡ slice_index (fields_of counts.now) block }
    ensures one_step { steps.new ≡ steps.old + 1 }
{
    counts.half_word(block, steps) as usize
}
