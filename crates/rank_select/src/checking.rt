//! The check of a directory of counts.

ghost use Rattle.std.specs.Prelude.{◌≡◌, ◌+◌, ◌≤◌, length, MatchResult};
ghost use Rattle.bit_words.specs.BitView.{bits_of};
ghost use Rattle.bit_words.specs.PackedView.{fields_of, width_of};
ghost use Rattle.bit_words.specs.WrongEntry.{IsFirstWrong};
ghost use Rattle.rank_select.specs.Counts.{blocks, counts_of};

use crate::counts::{count_at, ones_in_words};
use bit_words::{BitView, PackedView, Steps, WrongEntry};
use std::sync::ledger::Ledger;

/// Whether the fields are the counts of the bits: one of 32 bits for each block of 512 bits, of the ones before it,
/// and one more of all ones. Err has the first field that is not.
#[tactic(auto, using(crate::proofs::CountLaws::chunks))]
pub fn check_counts<C: Ledger>(
    bits: BitView<'_>,
    counts: PackedView<'_>,
    steps: &mut Steps<C>,
) -> Result<(), WrongEntry>
    requires few { length (bits_of bits) ≤ 2147483647 }
    requires count { length (fields_of counts) ≡ blocks (length (bits_of bits)) + 1 }
    requires width { width_of counts ≡ 32 }
    ensures checked { MatchResult result (λ _. fields_of counts.entry ≡ counts_of (bits_of bits.entry))
        (IsFirstWrong (counts_of (bits_of bits.entry)) (fields_of counts.entry)) }
    ensures some_steps { steps.old + 1 ≤ steps.new }
    ensures cost { steps.new ≤ steps.old + length (bits_of bits.entry) + 8 }
{
    let words = bits.len().div_ceil(64);
    let mut ones = 0;
    let mut word = 0;
    for at in 0..counts.count() {
        let found = count_at(&counts, at, steps);
        if found != ones {
            return Err(WrongEntry {
                at: at as u64,
                want: ones as u64,
                found: found as u64,
            });
        }
        let end = words.min(word + 8);
        ones += ones_in_words(&bits, word, end, steps);
        word = end;
    }
    Ok(())
}
