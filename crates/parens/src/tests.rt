//! Pairs of small, deep, long and mixed parentheses.

ghost use Rattle.std.specs.Prelude.{◌≡◌, ◌<◌, ◌≤◌, length, IfSome};
ghost use Rattle.bit_words.specs.BitView.{bits_of as view_bits};
ghost use Rattle.parens.specs.ParenView.{parens_of};

use crate::{ParenView, check_balanced};
use bit_words::{BitMaker, BitView, PackedView, Steps, WordView};
use image_words::bytes_of;
use min_max_tree::MinMaxView;
use rank_select::RankView;
use std::alloc::Global;
use std::marker::Brand;
use std::sync::ledger::{Blank, Ledger};
use std::test::Fail;

/// Bits with their counts and their tree, as bytes.
#[derive(Drop)]
struct Image {
    len: usize,
    bits: Vec<u8>,
    counts: Vec<u8>,
    nodes: Vec<u8>,
}

/// The image of these bits, with the counts and the tree that are made.
fn image_of(alloc: Global, bits: &[bool]) -> Result<Image, Fail>
    requires { length bits.now ≤ 2147483647 }
{
    let mut maker = BitMaker::new(alloc);
    for bit in bits {
        maker.push(*bit)?;
    }
    let counts = rank_select::make_counts(alloc, &maker)?;
    let nodes = min_max_tree::make(alloc, &maker)?;
    Ok(Image {
        len: bits.len(),
        bits: bytes_of(alloc, maker.finish().as_slice())?,
        counts: bytes_of(alloc, counts.finish().as_slice())?,
        nodes: bytes_of(alloc, nodes.as_slice())?,
    })
}

/// The bits of an image. None where its size does not fit.
fn bits_of<'a>(image: &'a Image) -> Option<BitView<'a>>
    ensures len { IfSome result (λ bits. length (view_bits bits) ≡ image.now.len) }
    ensures few { IfSome result (λ bits. length (view_bits bits) ≤ 2147483647) }
{
    let words = WordView::new(image.bits.as_slice())?;
    if image.len > 2147483647 || image.len.div_ceil(64) > words.len() {
        return None;
    }
    Some(BitView::new(words, image.len))
}

/// The parentheses of an image. None where a size or an entry is not right or the bits are not balanced.
fn parens_in<'a, C: Ledger>(image: &'a Image, steps: &mut Steps<C>) -> Option<ParenView<'a>>
    ensures { IfSome result (λ parens. length (parens_of parens) ≡ image.now.len) }
{
    let bits = bits_of(image)?;
    let count_words = WordView::new(image.counts.as_slice())?;
    let nodes = WordView::new(image.nodes.as_slice())?;
    let entries = bits.len().div_ceil(512) + 1;
    if entries.div_ceil(2) > count_words.len()
        || nodes.len() != min_max_tree::node_count(bits.len())
    {
        return None;
    }
    let counts = PackedView::new(count_words, entries, 32);
    rank_select::check_counts(bits, counts, steps).ok()?;
    min_max_tree::check(bits, nodes, steps).ok()?;
    check_balanced(bits, 0, bits.len(), steps).ok()?;
    Some(ParenView::new(RankView::new(bits, counts), MinMaxView::new(bits, nodes)))
}

/// What the rows of six bits ask.
#[derive(Clone, Copy, Debug, PartialEq, Eq)]
struct SixBits {
    mates: [usize; 3],
    enclosing: [Option<usize>; 3],
    common: Option<usize>,
    itself: Option<usize>,
    second_open: Option<usize>,
    fourth_open: Option<usize>,
    opens_before_four: usize,
}

fn six_bits<C: Ledger>(alloc: Global, image: &Image, blank: Blank) -> Option<SixBits>
    requires name { blank.name ≡ C.name }
    requires parts { blank.parts ≡ C.parts }
    requires some { 0 < blank.parts }
{
    let mut steps = Steps::<C>::new(alloc, blank);
    if image.len != 6 {
        return None;
    }
    let parens = parens_in(image, &mut steps)?;
    if !parens.is_open(1, &mut steps) || !parens.is_open(3, &mut steps) {
        return None;
    }
    Some(SixBits {
        mates: [
            parens.mate(0, &mut steps),
            parens.mate(1, &mut steps),
            parens.mate(3, &mut steps),
        ],
        enclosing: [
            parens.enclose(0, &mut steps),
            parens.enclose(2, &mut steps),
            parens.enclose(3, &mut steps),
        ],
        common: parens.common(1, 3, &mut steps),
        itself: parens.common(3, 3, &mut steps),
        second_open: parens.open_at(2, &mut steps),
        fourth_open: parens.open_at(3, &mut steps),
        opens_before_four: parens.opens_before(4, &mut steps),
    })
}

/// What `check_balanced` says of the bits from `from` to before `to`. None where they do not fit.
fn balance<C: Ledger>(
    alloc: Global,
    image: &Image,
    from: usize,
    to: usize,
    blank: Blank,
) -> Option<Result<(), u64>>
    requires name { blank.name ≡ C.name }
    requires parts { blank.parts ≡ C.parts }
    requires some { 0 < blank.parts }
{
    let mut steps = Steps::<C>::new(alloc, blank);
    let bits = bits_of(image)?;
    if from > to || to > bits.len() {
        return None;
    }
    Some(check_balanced(bits, from, to, &mut steps))
}

/// Whether the answers at each place are those of reading the bits with a stack of what is open.
fn agrees<C: Ledger>(
    alloc: Global,
    parens: ParenView<'_>,
    bits: &[bool],
    steps: &mut Steps<C>,
) -> Result<bool, Fail>
    requires { length (parens_of parens) ≡ length bits.now }
{
    let mut stack: Vec<usize> = Vec::new(alloc);
    let mut opens: Vec<usize> = Vec::new(alloc);
    for i in 0..bits.len() {
        if parens.enclose(i, steps) != stack.last().copied()
            || parens.is_open(i, steps) != bits[i]
            || parens.opens_before(i, steps) != opens.len()
        {
            return Ok(false);
        }
        if bits[i] {
            if parens.open_at(opens.len(), steps) != Some(i) {
                return Ok(false);
            }
            stack.push(i)?;
            opens.push(i)?;
            let middle = opens[opens.len() / 2];
            if !common_agrees(parens, stack.as_slice(), middle, i, steps) {
                return Ok(false);
            }
        } else {
            let Some(open) = stack.pop() else {
                return Ok(false);
            };
            if open >= i || parens.mate(i, steps) != open || parens.mate(open, steps) != i {
                return Ok(false);
            }
        }
    }
    Ok(parens.enclose(bits.len(), steps).is_none() && parens.open_at(opens.len(), steps).is_none())
}

/// Whether the common pair of the opening places `i` and `j` is the last one of `stack`, what is open at `j`, that
/// opens at or before `i`.
fn common_agrees<C: Ledger>(
    parens: ParenView<'_>,
    stack: &[usize],
    i: usize,
    j: usize,
    steps: &mut Steps<C>,
) -> bool
    requires { j < length (parens_of parens) }
{
    if i > j || !parens.is_open(i, steps) || !parens.is_open(j, steps) {
        return false;
    }
    let want = stack.iter().rev().find(|k| **k <= i).copied();
    parens.common(i, j, steps) == want && parens.common(j, i, steps) == want
}

/// Whether a sequence that was made is balanced, with the answers of a stack.
fn examined<C: Ledger>(alloc: Global, bits: &[bool], blank: Blank) -> Result<bool, Fail>
    requires few { length bits.now ≤ 2147483647 }
    requires name { blank.name ≡ C.name }
    requires parts { blank.parts ≡ C.parts }
    requires some { 0 < blank.parts }
{
    let mut steps = Steps::<C>::new(alloc, blank);
    let image = image_of(alloc, bits)?;
    let Some(parens) = parens_in(&image, &mut steps) else {
        return Ok(false);
    };
    if image.len != bits.len() {
        return Ok(false);
    }
    agrees(alloc, parens, bits, &mut steps)
}

/// Balanced bits that open and close as a generator of numbers says.
fn mixed(alloc: Global, pairs: usize, seed: u64) -> Result<Vec<bool>, Fail> {
    let mut bits = Vec::new(alloc);
    let mut state = seed;
    let mut depth: usize = 0;
    let mut left = pairs;
    for _ in 0..pairs.saturating_mul(2) {
        state = state
            .wrapping_mul(6364136223846793005)
            .wrapping_add(1442695040888963407);
        let opens = left > 0 && (depth == 0 || state >> 63 == 1);
        if opens {
            depth = depth.saturating_add(1);
            left = left.saturating_sub(1);
        } else {
            depth = depth.saturating_sub(1);
        }
        bits.push(opens)?;
    }
    Ok(bits)
}

#[test]
fn six_bits_have_their_mates_and_enclosing_pairs(rt: HostRuntime) -> Result<(), Fail> {
    let image = image_of(rt.alloc(), &[true, true, false, true, false, false])?;
    let want = SixBits {
        mates: [5, 2, 4],
        enclosing: [None, Some(1), Some(0)],
        common: Some(0),
        itself: Some(3),
        second_open: Some(3),
        fourth_open: None,
        opens_before_four: 3,
    };
    assert_eq!(rt;
        six_bits::<Brand>(rt.alloc(), &image, Blank::new(1)),
        Some(want)
    );
    Ok(())
}

#[test]
fn the_first_unmatched_place_is_named(rt: HostRuntime) -> Result<(), Fail> {
    let closes = image_of(rt.alloc(), &[true, false, false, true])?;
    assert_eq!(rt;
        balance::<Brand>(rt.alloc(), &closes, 0, 4, Blank::new(1)),
        Some(Err(2))
    );
    assert_eq!(rt;
        balance::<Brand>(rt.alloc(), &closes, 0, 2, Blank::new(1)),
        Some(Ok(()))
    );
    assert_eq!(rt;
        balance::<Brand>(rt.alloc(), &closes, 1, 2, Blank::new(1)),
        Some(Err(1))
    );
    assert_eq!(rt;
        balance::<Brand>(rt.alloc(), &closes, 3, 3, Blank::new(1)),
        Some(Ok(()))
    );
    let opens = image_of(rt.alloc(), &[true, true, false])?;
    assert_eq!(rt;
        balance::<Brand>(rt.alloc(), &opens, 0, 3, Blank::new(1)),
        Some(Err(3))
    );
    assert_eq!(rt;
        balance::<Brand>(rt.alloc(), &opens, 1, 3, Blank::new(1)),
        Some(Ok(()))
    );
    Ok(())
}

/// Whether places of a sequence of 100,000 pairs are as `want` says: their mate and what encloses their gap.
fn sampled<C: Ledger>(alloc: Global, image: &Image, shape: Shape, blank: Blank) -> Option<bool>
    requires name { blank.name ≡ C.name }
    requires parts { blank.parts ≡ C.parts }
    requires some { 0 < blank.parts }
{
    let mut steps = Steps::<C>::new(alloc, blank);
    let parens = parens_in(image, &mut steps)?;
    if image.len != 200000 {
        return None;
    }
    for k in 0..100 {
        let i = 1997 * k;
        if parens.mate(i, &mut steps) != shape.mate(i) {
            return Some(false);
        }
        if parens.enclose(i, &mut steps) != shape.enclosing(i) {
            return Some(false);
        }
    }
    Some(parens.enclose(image.len, &mut steps).is_none())
}

/// Which 100,000 pairs stand in a sequence.
#[derive(Clone, Copy, Debug, PartialEq, Eq)]
enum Shape {
    /// Each pair in the one before.
    Deep,
    /// Each pair after the one before.
    Row,
}

impl Shape {
    fn bits(self, alloc: Global) -> Result<Vec<bool>, Fail> {
        let mut bits = Vec::new(alloc);
        for i in 0..200000 {
            bits.push(match self {
                Shape::Deep => i < 100000,
                Shape::Row => i % 2 == 0,
            })?;
        }
        Ok(bits)
    }

    fn mate(self, i: usize) -> usize
        requires { i < 200000 }
    {
        match self {
            Shape::Deep => 199999 - i,
            Shape::Row => i ^ 1,
        }
    }

    fn enclosing(self, gap: usize) -> Option<usize>
        requires { gap < 200000 }
    {
        match self {
            Shape::Deep if gap <= 100000 => gap.checked_sub(1),
            Shape::Deep => Some(199999 - gap),
            Shape::Row => if gap % 2 == 0 { None } else { Some(gap - 1) },
        }
    }
}

#[test]
fn deep_pairs_and_a_long_row_are_found(rt: HostRuntime) -> Result<(), Fail> {
    for shape in [Shape::Deep, Shape::Row] {
        let bits = shape.bits(rt.alloc())?;
        assert!(rt; bits.len() <= 2147483647);
        let image = image_of(rt.alloc(), bits.as_slice())?;
        let found = sampled::<Brand>(rt.alloc(), &image, shape, Blank::new(1));
        assert_eq!(rt; found, Some(true), "{shape:?}");
    }
    Ok(())
}

#[test]
fn mixed_pairs_are_those_of_a_stack(rt: HostRuntime) -> Result<(), Fail> {
    for seed in 0..3 {
        let bits = mixed(rt.alloc(), 300, seed)?;
        assert!(rt; bits.len() <= 2147483647);
        let agreed = examined::<Brand>(rt.alloc(), bits.as_slice(), Blank::new(1))?;
        assert!(rt; agreed, "seed {seed}");
    }
    Ok(())
}
