//! Bits and numbers as they are read from bytes.

ghost use Rattle.std.specs.Prelude.{◌≡◌, length, IfSome};
ghost use Rattle.bit_words.specs.BitView.{bits_of};
ghost use Rattle.bit_words.specs.PackedView.{fields_of, width_of};

use bit_words::{BitView, PackedView, WordView};

/// The first `len` bits of these bytes. None where there are too few.
pub fn bits_in(bytes: &[u8], len: usize) -> Option<BitView<'_>>
    ensures { IfSome result (λ bits. length (bits_of bits) ≡ len) }
{
    let words = WordView::new(bytes)?;
    if len.div_ceil(64) > words.len() {
        return None;
    }
    Some(BitView::new(words, len))
}

/// The first `count` numbers of `width` bits in these bytes. None where there are too few.
pub fn fields_in(bytes: &[u8], count: usize, width: u32) -> Option<PackedView<'_>>
    ensures count { IfSome result (λ fields. length (fields_of fields) ≡ count) }
    ensures width { IfSome result (λ fields. width_of fields ≡ width) }
{
    let words = WordView::new(bytes)?;
    if width == 0 || width > 64 || count > 2147483647 {
        return None;
    }
    if (count * width as usize).div_ceil(64) > words.len() {
        return None;
    }
    Some(PackedView::new(words, count, width))
}
