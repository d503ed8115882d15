//! Trees of bits of several patterns and lengths, searched and compared with plain counting.

ghost use Rattle.std.specs.Prelude.{◌≡◌, ◌<◌, ◌≤◌, length};
ghost use Rattle.min_max_tree.specs.MinMaxView.{searched};

use crate::{MinMaxView, Scan, check, make, node_count};
use bit_words::{BitMaker, BitView, Steps, WordView, WrongEntry};
use image_words::bytes_of;
use std::alloc::Global;
use std::marker::Brand;
use std::sync::ledger::{Blank, Ledger};
use std::test::Fail;

/// Bits and their tree, as bytes.
#[derive(Drop)]
struct Image {
    len: usize,
    bits: Vec<u8>,
    nodes: Vec<u8>,
}

/// Which bits are ones.
#[derive(Clone, Copy, Debug, PartialEq, Eq)]
enum Pattern {
    Ones,
    Zeros,
    EachThird,
    FirstHalf,
    /// The excess is below 0 near the end alone.
    FallAtEnd,
    /// The excess is low near the start alone.
    RiseAtStart,
}

impl Pattern {
    fn bits(self, alloc: Global, len: usize) -> Result<Vec<bool>, Fail> {
        let mut bits = Vec::new(alloc);
        for i in 0..len {
            bits.push(match self {
                Pattern::Ones => true,
                Pattern::Zeros => false,
                Pattern::EachThird => i % 3 == 0,
                Pattern::FirstHalf => i < len / 2,
                Pattern::FallAtEnd => i % 2 == 0 && i < len.saturating_sub(9),
                Pattern::RiseAtStart => i % 2 == 0 || i < 9,
            })?;
        }
        Ok(bits)
    }
}

/// The image of these bits, with the tree that is made.
fn image_of(alloc: Global, bits: &[bool]) -> Result<Image, Fail>
    requires { length bits.now ≤ 2147483647 }
{
    let mut maker = BitMaker::new(alloc);
    for bit in bits {
        maker.push(*bit)?;
    }
    let nodes = make(alloc, &maker)?;
    Ok(Image {
        len: bits.len(),
        bits: bytes_of(alloc, maker.finish().as_slice())?,
        nodes: bytes_of(alloc, nodes.as_slice())?,
    })
}

/// The ones less the zeros before each place, and before the end.
fn plain_excesses(alloc: Global, bits: &[bool]) -> Result<Vec<i64>, Fail> {
    let mut excesses = Vec::new(alloc);
    excesses.push(0)?;
    let mut excess: i64 = 0;
    for bit in bits {
        excess = if *bit {
            excess.wrapping_add(1)
        } else {
            excess.wrapping_sub(1)
        };
        excesses.push(excess)?;
    }
    Ok(excesses)
}

/// The first place after `i` where the excess is `drop` below that at `i`.
fn plain_forward(excesses: &[i64], i: usize, drop: u64) -> Option<usize>
    requires place { i < length excesses.now }
    requires few { drop ≤ 1000 }
{
    let low = excesses[i].wrapping_sub(drop as i64);
    (i + 1..excesses.len()).find(|place| excesses[*place] == low)
}

/// The last place before `i` where the excess is `drop` below that at `i`.
fn plain_backward(excesses: &[i64], i: usize, drop: u64) -> Option<usize>
    requires place { i < length excesses.now }
    requires few { drop ≤ 1000 }
{
    let low = excesses[i].wrapping_sub(drop as i64);
    (0..i).rev().find(|place| excesses[*place] == low)
}

/// The least excess at a place from `from` to `to`.
fn plain_least(excesses: &[i64], from: usize, to: usize) -> i64
    requires order { from ≤ to }
    requires place { to < length excesses.now }
{
    let mut least = excesses[from];
    for place in from..to + 1 {
        least = least.min(excesses[place]);
    }
    least
}

/// Whether the search back from place `i` finds the place where that is in the word, and else comes to the one before.
fn word_agrees<C: Ledger>(
    tree: MinMaxView<'_>,
    i: usize,
    drop: u64,
    excesses: &[i64],
    steps: &mut Steps<C>,
) -> bool
    requires after { 1 ≤ i }
    requires place { i ≤ length (searched tree) }
    requires excesses { i < length excesses.now }
    requires some { 1 ≤ drop }
    requires few { drop ≤ 900 }
{
    let want = plain_backward(excesses, i, drop);
    match tree.back_in_word(i, drop, steps) {
        Scan::Found(place) => want == Some(place),
        Scan::Above(need) => want == plain_backward(excesses, 64 * ((i - 1) / 64), need),
    }
}

/// Whether the falls from place `i` and back are what plain counting gives.
fn falls_agree<C: Ledger>(
    tree: MinMaxView<'_>,
    i: usize,
    excesses: &[i64],
    steps: &mut Steps<C>,
) -> bool
    requires place { i ≤ length (searched tree) }
    requires excesses { i < length excesses.now }
{
    for k in 0..6 {
        let drop = 1 + 60 * k;
        if tree.forward(i, drop, steps) != plain_forward(excesses, i, drop) {
            return false;
        }
        if tree.backward(i, drop, steps) != plain_backward(excesses, i, drop) {
            return false;
        }
        if i > 0 && !word_agrees(tree, i, drop, excesses, steps) {
            return false;
        }
    }
    true
}

/// Each place at a multiple of `stride`, and at and before the end of a block.
fn is_tried(place: usize, stride: usize) -> bool
    requires { 0 < stride }
{
    place % stride == 0 || place % 512 == 0 || place % 512 == 511
}

/// Whether each excess, and each fall and least excess that is tried, is what plain counting gives.
fn agrees<C: Ledger>(
    tree: MinMaxView<'_>,
    len: usize,
    excesses: &[i64],
    stride: usize,
    steps: &mut Steps<C>,
) -> bool
    requires len { length (searched tree) ≡ len }
    requires few { len ≤ 2147483647 }
    requires stride { 0 < stride }
{
    if excesses.len() != len + 1 {
        return false;
    }
    for i in 0..len + 1 {
        if tree.excess(i, steps) != excesses[i] {
            return false;
        }
        if !is_tried(i, stride) {
            continue;
        }
        if !falls_agree(tree, i, excesses, steps) {
            return false;
        }
        for to in i..len + 1 {
            if is_tried(to, stride)
                && tree.least_between(i, to, steps) != plain_least(excesses, i, to)
            {
                return false;
            }
        }
    }
    true
}

/// Whether the tree of an image agrees with plain counting, or its first wrong word. None where its sizes do not fit.
fn examined<C: Ledger>(
    alloc: Global,
    image: &Image,
    excesses: &[i64],
    stride: usize,
    blank: Blank,
) -> Option<Result<bool, WrongEntry>>
    requires stride { 0 < stride }
    requires name { blank.name ≡ C.name }
    requires parts { blank.parts ≡ C.parts }
    requires some { 0 < blank.parts }
{
    let mut steps = Steps::<C>::new(alloc, blank);
    let words = WordView::new(image.bits.as_slice())?;
    let nodes = WordView::new(image.nodes.as_slice())?;
    if image.len > 2147483647 || image.len.div_ceil(64) > words.len() {
        return None;
    }
    if nodes.len() != node_count(image.len) {
        return None;
    }
    let bits = BitView::new(words, image.len);
    if let Err(wrong) = check(bits, nodes, &mut steps) {
        return Some(Err(wrong));
    }
    let tree = MinMaxView::new(bits, nodes);
    Some(Ok(agrees(tree, image.len, excesses, stride, &mut steps)))
}

/// The fall from place 0, the fall back from place 2, and the least excess, of two bits.
fn falls_of_two<C: Ledger>(
    alloc: Global,
    image: &Image,
    blank: Blank,
) -> Option<(Option<usize>, Option<usize>, i64)>
    requires name { blank.name ≡ C.name }
    requires parts { blank.parts ≡ C.parts }
    requires some { 0 < blank.parts }
{
    let mut steps = Steps::<C>::new(alloc, blank);
    let words = WordView::new(image.bits.as_slice())?;
    let nodes = WordView::new(image.nodes.as_slice())?;
    if words.len() != 1 || nodes.len() != node_count(2) {
        return None;
    }
    let bits = BitView::new(words, 2);
    check(bits, nodes, &mut steps).ok()?;
    let tree = MinMaxView::new(bits, nodes);
    Some((
        tree.forward(0, 1, &mut steps),
        tree.backward(2, 1, &mut steps),
        tree.least_between(0, 2, &mut steps),
    ))
}

#[test]
fn a_zero_and_a_one_fall_at_place_one(rt: HostRuntime) -> Result<(), Fail> {
    let image = image_of(rt.alloc(), &[false, true])?;
    assert_eq!(rt;
        image.nodes.as_slice(),
        18446744069414584320_u64.to_le_bytes().as_slice()
    );
    let falls = falls_of_two::<Brand>(rt.alloc(), &image, Blank::new(1));
    assert_eq!(rt; falls, Some((Some(1), Some(1), -1)));
    Ok(())
}

#[test]
fn two_ones_and_two_zeros_have_a_word_of_zero(rt: HostRuntime) -> Result<(), Fail> {
    let image = image_of(rt.alloc(), &[true, true, false, false])?;
    assert_eq!(rt; image.nodes.as_slice(), [0, 0, 0, 0, 0, 0, 0, 0].as_slice());
    Ok(())
}

#[test]
fn the_first_wrong_word_is_named(rt: HostRuntime) -> Result<(), Fail> {
    let mut image = image_of(rt.alloc(), &[true, true, false, false])?;
    image.nodes = bytes_of(rt.alloc(), &[5])?;
    let want = WrongEntry {
        at: 0,
        want: 0,
        found: 5,
    };
    let outcome = examined::<Brand>(rt.alloc(), &image, &[], 1, Blank::new(1));
    assert_eq!(rt; outcome, Some(Err(want)));
    Ok(())
}

#[test]
fn excesses_falls_and_least_excesses_are_those_of_plain_counting(
    rt: HostRuntime,
) -> Result<(), Fail> {
    for len in [0, 511, 512, 513, 1024, 1536, 8704] {
        let stride = if len > 2000 { 509 } else { 61 };
        for pattern in [
            Pattern::Ones,
            Pattern::Zeros,
            Pattern::EachThird,
            Pattern::FirstHalf,
            Pattern::FallAtEnd,
            Pattern::RiseAtStart,
        ] {
            let bits = pattern.bits(rt.alloc(), len)?;
            assert!(rt; bits.len() <= 2147483647);
            let image = image_of(rt.alloc(), bits.as_slice())?;
            let excesses = plain_excesses(rt.alloc(), bits.as_slice())?;
            let outcome = examined::<Brand>(
                rt.alloc(),
                &image,
                excesses.as_slice(),
                stride,
                Blank::new(1),
            );
            assert_eq!(rt; outcome, Some(Ok(true)), "{len} bits {pattern:?}");
        }
    }
    Ok(())
}
