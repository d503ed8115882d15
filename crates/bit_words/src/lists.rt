//! Whole lists of bits and of numbers: counted, and put into words.

ghost use Rattle.std.specs.Prelude.{◌≡◌, ◌≤◌, filter, length, IfOk};

use crate::bit_maker::BitMaker;
use crate::memory::Memory;
use crate::packed_maker::PackedMaker;
use std::alloc::Global;

/// These bits, one after another.
pub fn all_bits(alloc: Global, bits: &[bool]) -> Result<BitMaker, Memory>
    requires { length bits.now ≤ 2147483647 }
    ensures { IfOk result (λ maker. maker ≡ bits.now) }
{
    let mut maker = BitMaker::new(alloc);
    for bit in bits {
        maker.push(*bit)?;
    }
    Ok(maker)
}

/// These numbers, by 32 bits each.
pub fn packed_numbers(alloc: Global, numbers: &[u32]) -> Result<PackedMaker, Memory>
    requires { length numbers.now ≤ 2147483647 }
    ensures { IfOk result (λ maker. maker ≡ record { width = 32; items = numbers.now }) }
{
    let mut maker = PackedMaker::new(alloc, 32);
    for number in numbers {
        maker.push(u64::from(*number))?;
    }
    Ok(maker)
}

/// How many of these bits are set.
pub fn ones(bits: &[bool]) -> usize
    ensures { result ≡ length (filter (λ bit. bit) bits.now) }
{
    bits.iter().filter(|bit| **bit).count()
}
