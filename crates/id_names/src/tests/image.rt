//! Names as bytes, and their parts read from these.

ghost use Rattle.std.specs.Prelude.{IfSome};
ghost use Rattle.id_names.specs.Parts.{HasSizes};

use crate::inverse::binary_digits;
use crate::{NameParts, NameWords};
use image_words::{bits_in, bytes_of, fields_in};
use std::alloc::Global;
use std::test::Fail;

/// The words of small names, one for each part and three for the low parts.
#[derive(Clone, Copy)]
pub(super) struct Words {
    pub(super) count: usize,
    pub(super) low: u32,
    pub(super) marked: usize,
    pub(super) high: u64,
    pub(super) high_counts: u64,
    pub(super) lows: [u64; 3],
    pub(super) places: u64,
    pub(super) marks: u64,
    pub(super) mark_counts: u64,
    pub(super) back: u64,
}

/// Names as bytes.
#[derive(Drop)]
pub(super) struct Image {
    count: usize,
    low: u32,
    marked: usize,
    high: Vec<u8>,
    high_counts: Vec<u8>,
    lows: Vec<u8>,
    places: Vec<u8>,
    marks: Vec<u8>,
    mark_counts: Vec<u8>,
    back: Vec<u8>,
}

/// The image of these words.
pub(super) fn image_of(alloc: Global, words: Words) -> Result<Image, Fail> {
    Ok(Image {
        count: words.count,
        low: words.low,
        marked: words.marked,
        high: bytes_of(alloc, &[words.high])?,
        high_counts: bytes_of(alloc, &[words.high_counts])?,
        lows: bytes_of(alloc, &words.lows)?,
        places: bytes_of(alloc, &[words.places])?,
        marks: bytes_of(alloc, &[words.marks])?,
        mark_counts: bytes_of(alloc, &[words.mark_counts])?,
        back: bytes_of(alloc, &[words.back])?,
    })
}

/// The parts of an image. None where its sizes do not fit.
pub(super) fn parts_of(image: &Image) -> Option<NameParts<'_>>
    ensures { IfSome result (λ parts. HasSizes parts) }
{
    let digits = binary_digits(image.count);
    if image.count > 16777216 || image.low == 0 || image.low > 63 - digits.min(63) {
        return None;
    }
    let len = image.count + (1 << digits);
    let width = digits.max(1);
    Some(NameParts {
        high: bits_in(image.high.as_slice(), len)?,
        high_counts: fields_in(image.high_counts.as_slice(), len.div_ceil(512) + 1, 32)?,
        lows: fields_in(image.lows.as_slice(), image.count, image.low)?,
        places: fields_in(image.places.as_slice(), image.count, width)?,
        marks: bits_in(image.marks.as_slice(), image.count)?,
        mark_counts: fields_in(
            image.mark_counts.as_slice(),
            image.count.div_ceil(512) + 1,
            32,
        )?,
        back: fields_in(image.back.as_slice(), image.marked, width)?,
    })
}

/// The image of what is made for so many names.
pub(super) fn image_made(
    alloc: Global,
    count: usize,
    low: u32,
    words: &NameWords,
) -> Result<Image, Fail> {
    Ok(Image {
        count,
        low,
        marked: words.marked as usize,
        high: bytes_of(alloc, &words.high)?,
        high_counts: bytes_of(alloc, &words.high_counts)?,
        lows: bytes_of(alloc, &words.lows)?,
        places: bytes_of(alloc, &words.places)?,
        marks: bytes_of(alloc, &words.marks)?,
        mark_counts: bytes_of(alloc, &words.mark_counts)?,
        back: bytes_of(alloc, &words.back)?,
    })
}
