//! The rising ids in words: their high parts as ones and zeros, and their low parts.

ghost use Rattle.std.specs.Prelude.{ℕ, ◌≡◌, ◌<◌, ◌≤◌, ◌+◌, ◌^◌, map, ◌%◌, length, IfOk, slice_index};
ghost use Rattle.bit_words.specs.Bits.{HoldsBits};
ghost use Rattle.bit_words.specs.Digits.{digits};
ghost use Rattle.rank_select.specs.Counts.{counts_of};
ghost use Rattle.id_names.specs.Making.{high_bits, low_parts, HoldsFields};
ghost use Rattle.id_names.specs.Names.{AreDistinct};
ghost use Rattle.id_names.specs.Numbered.{entry_ids, AreSortedNames, ArePushed};

use crate::inverse::binary_digits;
use crate::sorted::Named;
use bit_words::{BitMaker, Memory, PackedMaker};
use rank_select::make_counts;
use std::alloc::Global;
use topo_base::IdNumber;

/// The words of the rising ids.
#[derive(Drop)]
pub(crate) struct RisingWords {
    pub(crate) high: Vec<u64>,
    pub(crate) high_counts: Vec<u64>,
    pub(crate) lows: Vec<u64>,
}

/// Puts a one for each entry from `from` on that has this high part, and gives the first place behind these.
fn push_ones(
    bits: &mut BitMaker,
    entries: &[Named],
    from: usize,
    low: u32,
    high: u64,
) -> Result<usize, Memory>
    requires from { from ≤ length entries.now }
    requires low { low < 64 }
    requires room { length bits.old + length entries.now < 2147483647 }
    ensures { IfOk result (λ to. ArePushed low high entries.now from to bits.old bits.new) }
{
    let mut place = from;
    while place < entries.len() && entries[place].id >> low == high {
        bits.push(true)?;
        place += 1;
    }
    Ok(place)
}

/// For each high part a one for each id that has it, and a zero.
fn high_parts(
    alloc: Global,
    ids: &[IdNumber],
    entries: &[Named],
    low: u32,
) -> Result<BitMaker, Memory>
    requires few { length ids.now ≤ 16777216 }
    requires distinct { AreDistinct ids.now }
    requires sorted { AreSortedNames ids.now entries.now }
    requires some { 1 ≤ low }
    requires narrow { digits (length ids.now) + low ≤ 63 }
    ensures { IfOk result (λ bits. bits ≡ high_bits low ids.now) }
{
    let mut bits = BitMaker::new(alloc);
    let mut place = 0;
    for high in 0..1 << binary_digits(ids.len()) {
        place = push_ones(&mut bits, entries, place, low, high)?;
        bits.push(false)?;
    }
    Ok(bits)
}

/// The low parts of the entries' ids.
fn lows(alloc: Global, entries: &[Named], low: u32) -> Result<PackedMaker, Memory>
    requires few { length entries.now ≤ 16777216 }
    requires some { 1 ≤ low }
    requires narrow { low < 64 }
    ensures { IfOk result (λ lows. lows ≡ record { width = low; items = map (λ n. n.id % 2 ^ low) entries.now }) }
{
    let mut lows = PackedMaker::with_room(alloc, low, entries.len())?;
    for entry in entries {
        lows.push(entry.id % (1 << low))?;
    }
    Ok(lows)
}

/// The words of the ids, rising.
pub(crate) fn rising_words(
    alloc: Global,
    ids: &[IdNumber],
    entries: &[Named],
    low: u32,
) -> Result<RisingWords, Memory>
    requires few { length ids.now ≤ 16777216 }
    requires distinct { AreDistinct ids.now }
    requires sorted { AreSortedNames ids.now entries.now }
    requires some { 1 ≤ low }
    requires narrow { digits (length ids.now) + low ≤ 63 }
    ensures high { IfOk result (λ words. HoldsBits words.high.items (high_bits low ids.now)) }
    ensures high_counts { IfOk result (λ words. HoldsFields words.high_counts.items 32
        (counts_of (high_bits low ids.now))) }
    ensures lows { IfOk result (λ words. HoldsFields words.lows.items low (low_parts low ids.now)) }
{
    let high = high_parts(alloc, ids, entries, low)?;
    let high_counts = make_counts(alloc, &high)?;
    let lows = lows(alloc, entries, low)?;
    Ok(RisingWords {
        high: high.finish(),
        high_counts: high_counts.finish(),
        lows: lows.finish(),
    })
}
