//! The check whether bits are balanced.

ghost use Rattle.std.specs.Prelude.{◌≡◌, ◌≤◌, ◌+◌, ◌-◌, length, MatchResult, Some, IsTrue};
ghost use Rattle.bit_words.specs.BitView.{bits_of};
ghost use Rattle.parens.specs.Matching.{balance_fault, is_balanced};
ghost use Rattle.parens.specs.Pairs.{AreMated, IsFirstUnmatched};

use bit_words::{BitView, Steps};
use min_max_tree::{Scan, scan_bits};
use std::sync::ledger::Ledger;

/// Whether the bits from `from` to before `to` are balanced. Err has the first place that closes what does not open
/// from `from` on, and `to` where there is no such place and some place stays open.
pub fn check_balanced<C: Ledger>(
    bits: BitView<'_>,
    from: usize,
    to: usize,
    steps: &mut Steps<C>,
) -> Result<(), u64>
    requires few { length (bits_of bits) ≤ 2147483647 }
    requires order { from ≤ to }
    requires within { to ≤ length (bits_of bits) }
    ensures fault { MatchResult result (λ _. IsTrue (is_balanced (bits_of bits.entry) from to))
        (λ place. balance_fault (bits_of bits.entry) from to ≡ Some place) }
    ensures mates { MatchResult result (λ _. AreMated (bits_of bits.entry) from to)
        (IsFirstUnmatched (bits_of bits.entry) from to) }
    ensures grows { steps.old ≤ steps.new }
    ensures cost { steps.new ≤ steps.old + (to - from) + 8 }
{
    match scan_bits(&bits, from, to, 1, steps) {
        Scan::Found(place) => Err(place as u64 - 1),
        Scan::Above(1) => Ok(()),
        Scan::Above(_) => Err(to as u64),
    }
}
