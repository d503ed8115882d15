//! Counts and places of bits of several patterns and lengths, compared with plain counting.

ghost use Rattle.std.specs.Prelude.{◌≡◌, ◌<◌, ◌≤◌, length};

use crate::{RankView, check_counts, make_counts};
use bit_words::{BitMaker, BitView, PackedView, Steps, WordView, WrongEntry};
use image_words::bytes_of;
use std::alloc::Global;
use std::marker::Brand;
use std::sync::ledger::{Blank, Ledger};
use std::test::Fail;

/// Bits and their counts, as bytes.
#[derive(Drop)]
struct Image {
    len: usize,
    bits: Vec<u8>,
    counts: Vec<u8>,
}

/// Which bits are ones.
#[derive(Clone, Copy, Debug, PartialEq, Eq)]
enum Pattern {
    Ones,
    Zeros,
    EachThird,
    OnesFirst,
}

impl Pattern {
    fn bits(self, alloc: Global, len: usize) -> Result<Vec<bool>, Fail> {
        let mut bits = Vec::new(alloc);
        for i in 0..len {
            bits.push(match self {
                Pattern::Ones => true,
                Pattern::Zeros => false,
                Pattern::EachThird => i % 3 == 0,
                Pattern::OnesFirst => i < 600,
            })?;
        }
        Ok(bits)
    }
}

/// The image of these bits, with the counts that are made.
fn image_of(alloc: Global, bits: &[bool]) -> Result<Image, Fail>
    requires { length bits.now ≤ 2147483647 }
{
    let mut maker = BitMaker::new(alloc);
    for bit in bits {
        maker.push(*bit)?;
    }
    let counts = make_counts(alloc, &maker)?;
    Ok(Image {
        len: bits.len(),
        bits: bytes_of(alloc, maker.finish().as_slice())?,
        counts: bytes_of(alloc, counts.finish().as_slice())?,
    })
}

/// The bits of an image with its counts, or the first wrong count. None where its sizes do not fit.
fn open<'a, C: Ledger>(
    alloc: Global,
    image: &'a Image,
    blank: Blank,
) -> Option<Result<RankView<'a>, WrongEntry>>
    requires name { blank.name ≡ C.name }
    requires parts { blank.parts ≡ C.parts }
    requires some { 0 < blank.parts }
{
    let mut steps = Steps::<C>::new(alloc, blank);
    let words = WordView::new(image.bits.as_slice())?;
    let count_words = WordView::new(image.counts.as_slice())?;
    if image.len > 2147483647 || image.len.div_ceil(64) > words.len() {
        return None;
    }
    let entries = image.len.div_ceil(512) + 1;
    if entries.div_ceil(2) > count_words.len() {
        return None;
    }
    let bits = BitView::new(words, image.len);
    let counts = PackedView::new(count_words, entries, 32);
    match check_counts(bits, counts, &mut steps) {
        Ok(()) => Some(Ok(RankView::new(bits, counts))),
        Err(wrong) => Some(Err(wrong)),
    }
}

fn plain_count(bits: &[bool], kind: bool) -> usize {
    bits.iter().filter(|bit| **bit == kind).count()
}

/// Whether each count and each place is what plain counting gives.
fn agrees<C: Ledger>(alloc: Global, ranks: RankView<'_>, bits: &[bool], blank: Blank) -> bool
    requires name { blank.name ≡ C.name }
    requires parts { blank.parts ≡ C.parts }
    requires some { 0 < blank.parts }
{
    let mut steps = Steps::<C>::new(alloc, blank);
    let len = ranks.bits().len();
    if len != bits.len() {
        return false;
    }
    for i in 0..len {
        let ones = plain_count(&bits[..i], true);
        let zeros = plain_count(&bits[..i], false);
        if ranks.rank1(i, &mut steps) != ones || ranks.rank0(i, &mut steps) != zeros {
            return false;
        }
        let far = len - i;
        let places = if bits[i] {
            [
                ranks.select1(ones, &mut steps),
                ranks.select1_near(ones, i, &mut steps),
                ranks.select1_near(ones, far, &mut steps),
            ]
        } else {
            [
                ranks.select0(zeros, &mut steps),
                ranks.select0_near(zeros, i, &mut steps),
                ranks.select0_near(zeros, far, &mut steps),
            ]
        };
        if places != [Some(i); 3] {
            return false;
        }
    }
    let ones = plain_count(bits, true);
    let zeros = plain_count(bits, false);
    ranks.rank1(len, &mut steps) == ones
        && ranks.rank0(len, &mut steps) == zeros
        && ranks.select1(ones, &mut steps).is_none()
        && ranks.select0(zeros, &mut steps).is_none()
}

/// The counts and places that the six bits are asked for.
#[derive(Clone, Copy, Debug, PartialEq, Eq)]
struct SixBits {
    ones_before_end: usize,
    zeros_before_four: usize,
    one_three: Option<usize>,
    one_four: Option<usize>,
    zero_one: Option<usize>,
}

fn six_bits<C: Ledger>(alloc: Global, ranks: RankView<'_>, blank: Blank) -> Option<SixBits>
    requires name { blank.name ≡ C.name }
    requires parts { blank.parts ≡ C.parts }
    requires some { 0 < blank.parts }
{
    let mut steps = Steps::<C>::new(alloc, blank);
    if ranks.bits().len() < 6 {
        return None;
    }
    Some(SixBits {
        ones_before_end: ranks.rank1(6, &mut steps),
        zeros_before_four: ranks.rank0(4, &mut steps),
        one_three: ranks.select1(3, &mut steps),
        one_four: ranks.select1(4, &mut steps),
        zero_one: ranks.select0(1, &mut steps),
    })
}

#[test]
fn six_bits_are_counted_and_found(rt: HostRuntime) -> Result<(), Fail> {
    let image = image_of(rt.alloc(), &[true, true, false, true, true, false])?;
    assert_eq!(rt; image.bits.as_slice(), [27, 0, 0, 0, 0, 0, 0, 0].as_slice());
    assert_eq!(rt;
        image.counts.as_slice(),
        [0, 0, 0, 0, 4, 0, 0, 0].as_slice()
    );
    let Some(Ok(ranks)) = open::<Brand>(rt.alloc(), &image, Blank::new(1)) else {
        panic!(rt; "the counts are refused");
    };
    let want = SixBits {
        ones_before_end: 4,
        zeros_before_four: 1,
        one_three: Some(4),
        one_four: None,
        zero_one: Some(5),
    };
    assert_eq!(rt;
        six_bits::<Brand>(rt.alloc(), ranks, Blank::new(1)),
        Some(want)
    );
    Ok(())
}

#[test]
fn the_first_wrong_count_is_named(rt: HostRuntime) -> Result<(), Fail> {
    let mut image = image_of(rt.alloc(), &[true, true, false, true, true, false])?;
    image.counts = bytes_of(rt.alloc(), &[5 << 32])?;
    let Some(Err(wrong)) = open::<Brand>(rt.alloc(), &image, Blank::new(1)) else {
        panic!(rt; "the counts are taken");
    };
    let want = WrongEntry {
        at: 1,
        want: 4,
        found: 5,
    };
    assert_eq!(rt; wrong, want);
    Ok(())
}

#[test]
fn counts_and_places_are_those_of_plain_counting(rt: HostRuntime) -> Result<(), Fail> {
    for len in [0, 511, 512, 513, 1024] {
        for pattern in [
            Pattern::Ones,
            Pattern::Zeros,
            Pattern::EachThird,
            Pattern::OnesFirst,
        ] {
            let bits = pattern.bits(rt.alloc(), len)?;
            assert!(rt; bits.len() <= 2147483647);
            let image = image_of(rt.alloc(), bits.as_slice())?;
            let Some(Ok(ranks)) = open::<Brand>(rt.alloc(), &image, Blank::new(1)) else {
                panic!(rt; "the counts of {len} bits {pattern:?} are refused");
            };
            let agreed = agrees::<Brand>(rt.alloc(), ranks, bits.as_slice(), Blank::new(1));
            assert!(rt; agreed, "{len} bits {pattern:?}");
        }
    }
    Ok(())
}
