//! The nearest fall of the excess without the tree, word by word.

ghost use Rattle.std.specs.Prelude.{pos, ◌-ℤ◌, ◌≡◌, ◌≤◌, ◌+◌, ◌-◌, ◌*◌, ◌/◌, ◌%◌, true, length};
ghost use Rattle.bit_words.specs.Bits.{excess, rank, word_bits, IsNext, IsLast};
ghost use Rattle.bit_words.specs.BitView.{bits_of};
ghost use Rattle.min_max_tree.specs.Search.{Scanned};
ghost use Rattle.min_max_tree.specs.SearchBack.{ScannedBack};
ghost use Rattle.min_max_tree.specs.Node.{IsRun};

use crate::node::Node;
use bit_words::{BitView, Steps, deepest_fall, first_excess, last_excess, ones_below};
use std::sync::ledger::Ledger;

/// What a scan for a fall of the excess comes to.
#[derive(Clone, Copy)]
pub enum Scan {
    /// The nearest place that is so much lower.
    Found(usize),
    /// How much the excess at the end of the scan is above that.
    Above(u64),
}

/// The same as `first_excess`, with no search where the word has too few zeros.
#[inline]
fn first_fall(word: u64, from: u32, to: u32, drop: u32) -> Option<u32>
    requires order { from ≤ to }
    requires within { to ≤ 64 }
    requires some { 1 ≤ drop }
    requires few { drop ≤ 65 }
    ensures { IsNext (λ p. excess (word_bits word) p ≡ excess (word_bits word) from -ℤ pos drop) from to result }
{
    let ones = ones_below(word, to) - ones_below(word, from);
    if to - from < drop + ones {
        return None;
    }
    first_excess(word, from, to, drop)
}

/// The same as `last_excess`, with no search where the word has too few ones.
#[inline]
fn last_rise(word: u64, from: u32, to: u32, drop: u32) -> Option<u32>
    requires order { from ≤ to }
    requires within { to ≤ 64 }
    requires some { 1 ≤ drop }
    ensures { IsLast (λ p. excess (word_bits word) p ≡ excess (word_bits word) to -ℤ pos drop) from to result }
{
    if ones_below(word, to) - ones_below(word, from) < drop {
        return None;
    }
    last_excess(word, from, to, drop)
}

/// Looks at all bits of the word that begins at `from`, with no search where it has too few zeros.
#[inline]
fn scan_whole_word<C: Ledger>(
    bits: &BitView<'_>,
    from: usize,
    need: u64,
    steps: &mut Steps<C>,
) -> Scan
    requires few { length (bits_of bits.now) ≤ 2147483647 }
    requires word { from % 64 ≡ 0 }
    requires within { from + 64 ≤ length (bits_of bits.now) }
    requires need { 1 ≤ need }
    requires small { need ≤ 17179869184 }
    ensures scanned { Scanned (bits_of bits.now) need from (from + 64) result }
    ensures one_step { steps.new ≡ steps.old + 1 }
{
    let chunk = bits.word(from / 64, steps);
    let ones = ones_below(chunk, 64) as u64;
    if 64 < need + ones {
        return Scan::Above(need + 2 * ones - 64);
    }
    match first_excess(chunk, 0, 64, need as u32) {
        Some(place) => Scan::Found(from + place as usize),
        None => Scan::Above(need + 2 * ones - 64),
    }
}

/// Looks at some bits of one word, from `from` to before `to`.
fn scan_part<C: Ledger>(
    bits: &BitView<'_>,
    from: usize,
    to: usize,
    need: u64,
    steps: &mut Steps<C>,
) -> Scan
    requires few { length (bits_of bits.now) ≤ 2147483647 }
    requires some { from + 1 ≤ to }
    requires within { to ≤ length (bits_of bits.now) }
    requires one_word { to ≤ 64 * (from / 64 + 1) }
    requires need { 1 ≤ need }
    requires small { need ≤ 17179869184 }
    ensures scanned { Scanned (bits_of bits.now) need from to result }
    ensures one_step { steps.new ≡ steps.old + 1 }
{
    let word = from / 64;
    let chunk = bits.chunk(word, steps);
    let low = (from - 64 * word) as u32;
    let high = (to - 64 * word) as u32;
    let drop = need.min(65) as u32;
    match first_fall(chunk, low, high, drop) {
        Some(place) => Scan::Found(64 * word + place as usize),
        None => {
            let ones = ones_below(chunk, high) - ones_below(chunk, low);
            Scan::Above(need + 2 * ones as u64 - (high - low) as u64)
        }
    }
}

/// Looks at the bits of one word, from `from` to before `to`.
#[inline]
pub(crate) fn scan_word<C: Ledger>(
    bits: &BitView<'_>,
    from: usize,
    to: usize,
    need: u64,
    steps: &mut Steps<C>,
) -> Scan
    requires few { length (bits_of bits.now) ≤ 2147483647 }
    requires some { from + 1 ≤ to }
    requires within { to ≤ length (bits_of bits.now) }
    requires one_word { to ≤ 64 * (from / 64 + 1) }
    requires need { 1 ≤ need }
    requires small { need ≤ 17179869184 }
    ensures scanned { Scanned (bits_of bits.now) need from to result }
    ensures one_step { steps.new ≡ steps.old + 1 }
{
    if to == from + 64 {
        scan_whole_word(bits, from, need, steps)
    } else {
        scan_part(bits, from, to, need, steps)
    }
}

/// The first place after `from` and up to `to` where the excess is `need` lower than at `from`, word by word and
/// without a tree.
pub fn scan_bits<C: Ledger>(
    bits: &BitView<'_>,
    from: usize,
    to: usize,
    need: u64,
    steps: &mut Steps<C>,
) -> Scan
    requires few { length (bits_of bits.now) ≤ 2147483647 }
    requires order { from ≤ to }
    requires within { to ≤ length (bits_of bits.now) }
    requires need { 1 ≤ need }
    requires small { need ≤ 8589934592 }
    ensures scanned { Scanned (bits_of bits.now) need from to result }
    ensures grows { steps.old ≤ steps.new }
    ensures cost { steps.new ≤ steps.old + ((to + 63) / 64 - from / 64) }
{
    let mut at = from;
    let mut left = need;
    while at < to {
        let end = to.min(64 * (at / 64 + 1));
        match scan_word(bits, at, end, left, steps) {
            Scan::Found(place) => return Scan::Found(place),
            Scan::Above(more) => left = more,
        }
        at = end;
    }
    Scan::Above(left)
}

/// Looks back at all bits of the word that begins at `from`, with no search where it has too few ones.
#[inline]
fn scan_whole_word_back<C: Ledger>(
    bits: &BitView<'_>,
    from: usize,
    need: u64,
    steps: &mut Steps<C>,
) -> Scan
    requires few { length (bits_of bits.now) ≤ 2147483647 }
    requires word { from % 64 ≡ 0 }
    requires within { from + 64 ≤ length (bits_of bits.now) }
    requires need { 1 ≤ need }
    requires small { need ≤ 17179869184 }
    ensures scanned { ScannedBack (bits_of bits.now) need from (from + 64) result }
    ensures one_step { steps.new ≡ steps.old + 1 }
{
    let chunk = bits.word(from / 64, steps);
    let ones = ones_below(chunk, 64) as u64;
    if ones < need {
        return Scan::Above(need + 64 - 2 * ones);
    }
    match last_excess(chunk, 0, 64, need as u32) {
        Some(place) => Scan::Found(from + place as usize),
        None => Scan::Above(need + 64 - 2 * ones),
    }
}

/// Looks back at some bits of one word, from `to` down to `from`.
fn scan_part_back<C: Ledger>(
    bits: &BitView<'_>,
    from: usize,
    to: usize,
    need: u64,
    steps: &mut Steps<C>,
) -> Scan
    requires few { length (bits_of bits.now) ≤ 2147483647 }
    requires some { from + 1 ≤ to }
    requires within { to ≤ length (bits_of bits.now) }
    requires one_word { to ≤ 64 * (from / 64 + 1) }
    requires need { 1 ≤ need }
    requires small { need ≤ 17179869184 }
    ensures scanned { ScannedBack (bits_of bits.now) need from to result }
    ensures one_step { steps.new ≡ steps.old + 1 }
{
    let word = from / 64;
    let chunk = bits.chunk(word, steps);
    let low = (from - 64 * word) as u32;
    let high = (to - 64 * word) as u32;
    let drop = need.min(65) as u32;
    match last_rise(chunk, low, high, drop) {
        Some(place) => Scan::Found(64 * word + place as usize),
        None => {
            let ones = ones_below(chunk, high) - ones_below(chunk, low);
            Scan::Above(need + (high - low) as u64 - 2 * ones as u64)
        }
    }
}

/// Looks back at the bits of one word, from `to` down to `from`.
#[inline]
pub(crate) fn scan_word_back<C: Ledger>(
    bits: &BitView<'_>,
    from: usize,
    to: usize,
    need: u64,
    steps: &mut Steps<C>,
) -> Scan
    requires few { length (bits_of bits.now) ≤ 2147483647 }
    requires some { from + 1 ≤ to }
    requires within { to ≤ length (bits_of bits.now) }
    requires one_word { to ≤ 64 * (from / 64 + 1) }
    requires need { 1 ≤ need }
    requires small { need ≤ 17179869184 }
    ensures scanned { ScannedBack (bits_of bits.now) need from to result }
    ensures one_step { steps.new ≡ steps.old + 1 }
{
    if to == from + 64 {
        scan_whole_word_back(bits, from, need, steps)
    } else {
        scan_part_back(bits, from, to, need, steps)
    }
}

/// Looks back at the bits from `to` down to `from`, word by word.
pub(crate) fn scan_bits_back<C: Ledger>(
    bits: &BitView<'_>,
    from: usize,
    to: usize,
    need: u64,
    steps: &mut Steps<C>,
) -> Scan
    requires few { length (bits_of bits.now) ≤ 2147483647 }
    requires word { from % 64 ≡ 0 }
    requires order { from ≤ to }
    requires within { to ≤ length (bits_of bits.now) }
    requires need { 1 ≤ need }
    requires small { need ≤ 8589934592 }
    ensures scanned { ScannedBack (bits_of bits.now) need from to result }
    ensures grows { steps.old ≤ steps.new }
    ensures cost { steps.new ≤ steps.old + ((to + 63) / 64 - from / 64) }
{
    let mut at = to;
    let mut left = need;
    while at > from {
        let start = 64 * ((at - 1) / 64);
        match scan_word_back(bits, start, at, left, steps) {
            Scan::Found(place) => return Scan::Found(place),
            Scan::Above(more) => left = more,
        }
        at = start;
    }
    Scan::Above(left)
}

/// How many ones stand from place `from`, where a word begins, to before place `to`.
#[tactic(auto, using(crate::proofs::Rises::ones_laws))]
pub(crate) fn ones_between<C: Ledger>(
    bits: &BitView<'_>,
    from: usize,
    to: usize,
    steps: &mut Steps<C>,
) -> u64
    requires few { length (bits_of bits.now) ≤ 2147483647 }
    requires order { from ≤ to }
    requires word { from % 64 ≡ 0 }
    requires within { to ≤ length (bits_of bits.now) }
    ensures ones { rank true (bits_of bits.now) from + result ≡ rank true (bits_of bits.now) to }
    ensures grows { steps.old ≤ steps.new }
    ensures cost { steps.new ≤ steps.old + ((to + 63) / 64 - from / 64) }
{
    let mut ones: u64 = 0;
    for word in from / 64..to.div_ceil(64) {
        let chunk = bits.chunk(word, steps);
        ones += ones_below(chunk, (to - 64 * word).min(64) as u32) as u64;
    }
    ones
}

/// The first `count` bits of a word.
pub(crate) fn run_of_front(word: u64, count: u32) -> Node
    requires { count ≤ 64 }
    ensures { IsRun (word_bits word) 0 count result }
{
    let ones = ones_below(word, count) as u64;
    let fall = deepest_fall(word, count) as u64;
    Node {
        total: 2147483648 + 2 * ones - count as u64,
        least: 2147483648 - fall,
    }
}

/// The bits of one word from `from` to before `to`.
pub(crate) fn run_of_word<C: Ledger>(
    bits: &BitView<'_>,
    from: usize,
    to: usize,
    steps: &mut Steps<C>,
) -> Node
    requires few { length (bits_of bits.now) ≤ 2147483647 }
    requires some { from + 1 ≤ to }
    requires within { to ≤ length (bits_of bits.now) }
    requires one_word { to ≤ 64 * (from / 64 + 1) }
    ensures run { IsRun (bits_of bits.now) from to result }
    ensures one_step { steps.new ≡ steps.old + 1 }
{
    let word = from / 64;
    let chunk = bits.chunk(word, steps);
    run_of_front(chunk >> (from - 64 * word), (to - from) as u32)
}

/// The bits from `from` to before `to`, word by word.
pub(crate) fn run_of_bits<C: Ledger>(
    bits: &BitView<'_>,
    from: usize,
    to: usize,
    steps: &mut Steps<C>,
) -> Node
    requires few { length (bits_of bits.now) ≤ 2147483647 }
    requires order { from ≤ to }
    requires within { to ≤ length (bits_of bits.now) }
    ensures run { IsRun (bits_of bits.now) from to result }
    ensures grows { steps.old ≤ steps.new }
    ensures cost { steps.new ≤ steps.old + ((to + 63) / 64 - from / 64) }
{
    let mut at = from;
    let mut run = Node::empty();
    while at < to {
        let end = to.min(64 * (at / 64 + 1));
        run = run.joined(run_of_word(bits, at, end, steps));
        at = end;
    }
    run
}
