//! The names of regions as bytes, and as they are read.

ghost use Rattle.std.specs.Prelude.{◌≡◌, ◌≤◌, ◌+◌, length, IfSome};
ghost use Rattle.bit_words.specs.Digits.{digits};
ghost use Rattle.id_names.specs.Names.{AreDistinctIds};
ghost use Rattle.id_names.specs.Parts.{HasSizes};
ghost use Rattle.topo_base.specs.declared.id.TheConstants.{LARGEST_ID};

use bit_words::Steps;
use id_names::{NameParts, NamesView, check, make};
use image_words::{bits_in, bytes_of, fields_in};
use std::alloc::Global;
use std::sync::ledger::Ledger;
use std::test::Fail;
use topo_base::IdNumber;

/// Names as bytes.
#[derive(Drop)]
pub(super) struct NamesImage {
    count: usize,
    marked: usize,
    high: Vec<u8>,
    high_counts: Vec<u8>,
    lows: Vec<u8>,
    places: Vec<u8>,
    marks: Vec<u8>,
    mark_counts: Vec<u8>,
    back: Vec<u8>,
}

/// How many binary digits a number of names has.
fn binary_digits(count: usize) -> u32
    requires { count ≤ 16777216 }
    ensures count { result ≡ digits count }
    ensures few { result ≤ 25 }
{
    usize::BITS - count.leading_zeros()
}

/// The image of the names with these ids by number.
pub(super) fn names_image(alloc: Global, ids: &[IdNumber]) -> Result<NamesImage, Fail>
    requires few { length ids.now ≤ 16777216 }
    requires names { AreDistinctIds (LARGEST_ID + 1) ids.now }
{
    let words = make(alloc, ids, 63 - binary_digits(ids.len()))?;
    Ok(NamesImage {
        count: ids.len(),
        marked: words.marked as usize,
        high: bytes_of(alloc, &words.high)?,
        high_counts: bytes_of(alloc, &words.high_counts)?,
        lows: bytes_of(alloc, &words.lows)?,
        places: bytes_of(alloc, &words.places)?,
        marks: bytes_of(alloc, &words.marks)?,
        mark_counts: bytes_of(alloc, &words.mark_counts)?,
        back: bytes_of(alloc, &words.back)?,
    })
}

/// The parts of names. None where their sizes do not fit.
fn parts_of(image: &NamesImage) -> Option<NameParts<'_>>
    ensures { IfSome result (λ parts. HasSizes parts) }
{
    if image.count > 16777216 {
        return None;
    }
    let digits = binary_digits(image.count);
    let len = image.count + (1 << digits);
    let width = digits.max(1);
    Some(NameParts {
        high: bits_in(&image.high, len)?,
        high_counts: fields_in(&image.high_counts, len.div_ceil(512) + 1, 32)?,
        lows: fields_in(&image.lows, image.count, 63 - digits)?,
        places: fields_in(&image.places, image.count, width)?,
        marks: bits_in(&image.marks, image.count)?,
        mark_counts: fields_in(&image.mark_counts, image.count.div_ceil(512) + 1, 32)?,
        back: fields_in(&image.back, image.marked, width)?,
    })
}

/// The names of an image. None where something is not right.
pub(super) fn names_in<'a, C: Ledger>(
    image: &'a NamesImage,
    steps: &mut Steps<C>,
) -> Option<NamesView<'a>> {
    let parts = parts_of(image)?;
    check(parts, steps).ok()?;
    Some(NamesView::new(parts))
}
