//! The directory of counts, made of bits.

ghost use Rattle.std.specs.Prelude.{◌≡◌, ◌+◌, ◌*◌, ◌/◌, ◌≤◌, true, length, IfOk};
ghost use Rattle.bit_words.specs.Bits.{rank};
ghost use Rattle.rank_select.specs.Counts.{counts_of};

use bit_words::{BitMaker, Memory, PackedMaker, ones_below};
use std::alloc::Global;

/// How many ones stand in the words `from` to before `to`.
#[tactic(auto, using(crate::proofs::CountLaws::chunks))]
fn ones_made(bits: &BitMaker, from: usize, to: usize) -> u64
    requires few { length bits.now ≤ 2147483647 }
    requires order { from ≤ to }
    requires within { to ≤ (length bits.now + 63) / 64 }
    ensures { rank true bits.now (64 * from) + result ≡ rank true bits.now (64 * to) }
{
    let mut ones = 0;
    for word in from..to {
        ones += ones_below(bits.chunk(word), 64) as u64;
    }
    ones
}

/// The count of the ones before each block of 512 bits, and at the end of all ones, by 32 bits each.
#[tactic(auto, using(crate::proofs::CountLaws::makes))]
pub fn make_counts(alloc: Global, bits: &BitMaker) -> Result<PackedMaker, Memory>
    requires { length bits.now ≤ 2147483647 }
    ensures { IfOk result (λ counts. counts ≡ record { width = 32; items = counts_of bits.now }) }
{
    let words = bits.len().div_ceil(64);
    let mut counts = PackedMaker::new(alloc, 32);
    let mut ones = 0;
    for block in 0..bits.len().div_ceil(512) {
        counts.push(ones)?;
        ones += ones_made(bits, 8 * block, words.min(8 * (block + 1)));
    }
    counts.push(ones)?;
    Ok(counts)
}
