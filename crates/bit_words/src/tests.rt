//! Words, bits and packed numbers, made, read and searched.

ghost use Rattle.std.specs.Prelude.{◌≡◌, ◌<◌};

use crate::byte::{
    byte_from, excess_of_byte, first_fall_in_byte, last_rise_in_byte, least_of_byte,
};
use crate::{
    BitMaker, BitView, PackedMaker, PackedView, Steps, WordView, byte_excesses_are_right,
    byte_leasts_are_right, deepest_fall, first_excess, first_falls_are_right, last_excess,
    last_rises_are_right, ones_below, place_of_one, places_in_bytes_are_right,
};
use std::alloc::Global;
use std::marker::Brand;
use std::sync::ledger::{Blank, Ledger};
use std::test::Fail;

/// Word 1, as word 0 of a part.
fn word_of_part<C: Ledger>(alloc: Global, bytes: &[u8], blank: Blank) -> Option<u64>
    requires name { blank.name ≡ C.name }
    requires parts { blank.parts ≡ C.parts }
    requires some { 0 < blank.parts }
{
    let mut steps = Steps::<C>::new(alloc, blank);
    let words = WordView::new(bytes)?;
    if words.len() < 2 {
        return None;
    }
    Some(words.part(1, 1).word(0, &mut steps))
}

/// Bit `i` of the first `len` bits, and the 64 bits of its word.
fn bit_and_chunk<C: Ledger>(
    alloc: Global,
    bytes: &[u8],
    len: usize,
    i: usize,
    blank: Blank,
) -> Option<(bool, u64)>
    requires name { blank.name ≡ C.name }
    requires parts { blank.parts ≡ C.parts }
    requires some { 0 < blank.parts }
{
    let mut steps = Steps::<C>::new(alloc, blank);
    let words = WordView::new(bytes)?;
    if len.div_ceil(64) > words.len() {
        return None;
    }
    let bits = BitView::new(words, len);
    if i >= bits.len() {
        return None;
    }
    Some((bits.bit(i, &mut steps), bits.chunk(i / 64, &mut steps)))
}

/// The first word of the first `len` bits of these bytes, as it stands.
fn first_word<C: Ledger>(alloc: Global, bytes: &[u8], len: usize, blank: Blank) -> Option<u64>
    requires name { blank.name ≡ C.name }
    requires parts { blank.parts ≡ C.parts }
    requires some { 0 < blank.parts }
{
    let mut steps = Steps::<C>::new(alloc, blank);
    let words = WordView::new(bytes)?;
    if len == 0 || len.div_ceil(64) > words.len() {
        return None;
    }
    Some(BitView::new(words, len).word(0, &mut steps))
}

/// Number `i` of `count` numbers of `width` bits.
fn number<C: Ledger>(
    alloc: Global,
    bytes: &[u8],
    count: u16,
    width: u32,
    i: usize,
    blank: Blank,
) -> Option<u64>
    requires name { blank.name ≡ C.name }
    requires parts { blank.parts ≡ C.parts }
    requires some { 0 < blank.parts }
{
    let mut steps = Steps::<C>::new(alloc, blank);
    let words = WordView::new(bytes)?;
    if width == 0 || width > 64 {
        return None;
    }
    if (count as usize * width as usize).div_ceil(64) > words.len() {
        return None;
    }
    let numbers = PackedView::new(words, count as usize, width);
    if i >= numbers.count() {
        return None;
    }
    if numbers.width() == 32 {
        return Some(numbers.half_word(i, &mut steps));
    }
    Some(numbers.field(i, &mut steps))
}

#[test]
fn bytes_that_are_no_whole_words_are_refused(rt: HostRuntime) {
    assert!(rt; WordView::new(&[1, 2, 3, 4, 5, 6, 7]).is_none());
    assert!(rt; WordView::new(&[]).is_some());
}

#[test]
fn a_part_begins_at_its_word(rt: HostRuntime) {
    let bytes = [1, 0, 0, 0, 0, 0, 0, 0, 3, 2, 0, 0, 0, 0, 0, 1];
    assert_eq!(rt;
        word_of_part::<Brand>(rt.alloc(), &bytes, Blank::new(1)),
        Some(72057594037928451)
    );
}

#[test]
fn a_chunk_ends_with_the_bits(rt: HostRuntime) {
    let bytes = [
        2, 0, 0, 0, 0, 0, 0, 0, 255, 255, 255, 255, 255, 255, 255, 255,
    ];
    assert_eq!(rt;
        bit_and_chunk::<Brand>(rt.alloc(), &bytes, 70, 1, Blank::new(1)),
        Some((true, 2))
    );
    assert_eq!(rt;
        bit_and_chunk::<Brand>(rt.alloc(), &bytes, 70, 69, Blank::new(1)),
        Some((true, 63))
    );
}

#[test]
fn a_word_stands_as_it_is(rt: HostRuntime) {
    let bytes = [2, 0, 0, 0, 7, 0, 0, 1];
    assert_eq!(rt;
        first_word::<Brand>(rt.alloc(), &bytes, 3, Blank::new(1)),
        Some(72057624102699010)
    );
    assert_eq!(rt;
        number::<Brand>(rt.alloc(), &bytes, 2, 32, 0, Blank::new(1)),
        Some(2)
    );
    assert_eq!(rt;
        number::<Brand>(rt.alloc(), &bytes, 2, 32, 1, Blank::new(1)),
        Some(16777223)
    );
}

#[test]
fn numbers_are_read_across_words(rt: HostRuntime) {
    let sevens = [1, 193, 128, 80, 48, 28, 16, 137, 63, 0, 0, 0, 0, 0, 0, 0];
    assert_eq!(rt;
        number::<Brand>(rt.alloc(), &sevens, 10, 7, 8, Blank::new(1)),
        Some(9)
    );
    assert_eq!(rt;
        number::<Brand>(rt.alloc(), &sevens, 10, 7, 9, Blank::new(1)),
        Some(127)
    );
    let longer = [1, 0, 0, 0, 254, 255, 255, 255, 23, 0, 0, 0, 0, 0, 0, 0];
    assert_eq!(rt;
        number::<Brand>(rt.alloc(), &longer, 3, 33, 1, Blank::new(1)),
        Some(8589934591)
    );
    assert_eq!(rt;
        number::<Brand>(rt.alloc(), &longer, 3, 33, 2, Blank::new(1)),
        Some(5)
    );
    let words = [
        255, 255, 255, 255, 255, 255, 255, 255, 3, 0, 0, 0, 0, 0, 0, 0,
    ];
    assert_eq!(rt;
        number::<Brand>(rt.alloc(), &words, 2, 64, 0, Blank::new(1)),
        Some(18446744073709551615)
    );
    assert_eq!(rt;
        number::<Brand>(rt.alloc(), &words, 2, 64, 1, Blank::new(1)),
        Some(3)
    );
}

#[test]
fn numbers_of_each_width_straddle_a_word(rt: HostRuntime) {
    let bytes = [
        1, 35, 69, 103, 137, 171, 205, 239, 16, 50, 84, 118, 152, 186, 220, 254,
    ];
    let rows: [(u16, u32, usize, u64); 60] = [
        (42, 3, 21, 1),
        (25, 5, 12, 14),
        (21, 6, 10, 14),
        (18, 7, 9, 33),
        (14, 9, 7, 33),
        (12, 10, 6, 270),
        (11, 11, 5, 479),
        (10, 12, 5, 270),
        (9, 13, 4, 3836),
        (9, 14, 4, 4335),
        (8, 15, 4, 8462),
        (7, 17, 3, 7673),
        (7, 18, 3, 17343),
        (6, 19, 3, 67703),
        (6, 20, 3, 205070),
        (6, 21, 3, 549921),
        (5, 22, 2, 982234),
        (5, 23, 2, 4439862),
        (5, 24, 2, 1109965),
        (5, 25, 2, 8666099),
        (4, 26, 2, 52498172),
        (4, 27, 2, 13124543),
        (4, 28, 2, 70389999),
        (4, 29, 2, 353141819),
        (4, 30, 2, 625156366),
        (4, 31, 2, 1498466371),
        (3, 33, 1, 2011616708),
        (3, 34, 1, 1005808354),
        (3, 35, 1, 9092838769),
        (3, 36, 1, 4546419384),
        (3, 37, 1, 70992686428),
        (3, 38, 1, 35496343214),
        (3, 39, 1, 430065032023),
        (3, 40, 1, 215032516011),
        (3, 41, 1, 107516258005),
        (3, 42, 1, 1153269756778),
        (2, 43, 1, 2775658133941),
        (2, 44, 1, 5785875578074),
        (2, 45, 1, 20485123833453),
        (2, 46, 1, 27834747961142),
        (2, 47, 1, 119470490247067),
        (2, 48, 1, 130103989301197),
        (2, 49, 1, 65051994650598),
        (2, 50, 1, 595475950746611),
        (2, 51, 1, 860687928794617),
        (2, 52, 1, 2682143778082556),
        (2, 53, 1, 5844671516411774),
        (2, 54, 1, 11929535012946879),
        (2, 55, 1, 32986365270696415),
        (2, 56, 1, 52521979654312175),
        (2, 57, 1, 26260989827156087),
        (2, 58, 1, 229303277027361851),
        (2, 59, 1, 258766826589536797),
        (2, 60, 1, 994074541749903630),
        (2, 61, 1, 1649958775481798791),
        (2, 62, 1, 4283743901561440323),
        (2, 63, 1, 9059400978421802017),
        // These end with the bytes, or near their end.
        (16, 8, 15, 254),
        (4, 32, 3, 4275878552),
        (9, 14, 8, 16092),
    ];
    for (count, width, i, want) in rows {
        assert_eq!(rt;
            number::<Brand>(rt.alloc(), &bytes, count, width, i, Blank::new(1)),
            Some(want),
            "{width}"
        );
    }
}

#[test]
fn words_end_between_two_bits_and_lists_may_be_empty(rt: HostRuntime) -> Result<(), Fail> {
    let bytes = [0, 0, 0, 0, 0, 0, 0, 128, 2, 0, 0, 0, 0, 0, 0, 0];
    let word = 9223372036854775808;
    assert_eq!(rt;
        bit_and_chunk::<Brand>(rt.alloc(), &bytes, 128, 63, Blank::new(1)),
        Some((true, word))
    );
    assert_eq!(rt;
        bit_and_chunk::<Brand>(rt.alloc(), &bytes, 128, 64, Blank::new(1)),
        Some((false, 2))
    );
    assert_eq!(rt;
        bit_and_chunk::<Brand>(rt.alloc(), &[], 0, 0, Blank::new(1)),
        None
    );
    assert_eq!(rt;
        number::<Brand>(rt.alloc(), &[], 0, 7, 0, Blank::new(1)),
        None
    );
    let bits = BitMaker::new(rt.alloc());
    assert_eq!(rt; bits.len(), 0);
    assert!(rt; bits.finish().is_empty());
    assert!(rt; PackedMaker::new(rt.alloc(), 64).finish().is_empty());
    Ok(())
}

#[test]
fn bits_are_put_into_words(rt: HostRuntime) -> Result<(), Fail> {
    let mut bits = BitMaker::new(rt.alloc());
    for bit in [true, true, false, true, true, false] {
        assert!(rt; bits.len() < 6);
        bits.push(bit)?;
    }
    assert_eq!(rt; bits.len(), 6);
    assert!(rt; bits.bit(4));
    assert!(rt; !bits.bit(5));
    assert_eq!(rt; bits.chunk(0), 27);
    assert_eq!(rt; bits.finish().as_slice(), [27].as_slice());
    Ok(())
}

#[test]
fn numbers_are_put_into_words(rt: HostRuntime) -> Result<(), Fail> {
    let mut numbers = PackedMaker::new(rt.alloc(), 32);
    numbers.push(0)?;
    numbers.push(6)?;
    assert_eq!(rt; numbers.finish().as_slice(), [25769803776].as_slice());
    let mut longer = PackedMaker::new(rt.alloc(), 33);
    longer.push(1)?;
    longer.push(8589934591)?;
    longer.push(5)?;
    assert_eq!(rt;
        longer.finish().as_slice(),
        [18446744065119617025, 23].as_slice()
    );
    Ok(())
}

#[test]
fn searches_in_one_word(rt: HostRuntime) {
    let ones = 18446744073709551615;
    for (word, from, to, drop, want) in [
        (3, 0, 64, 1, Some(5)),
        (3, 0, 4, 1, None),
        (12, 0, 64, 2, Some(2)),
        (0, 0, 64, 64, Some(64)),
        (ones, 0, 64, 1, None),
    ] {
        assert!(rt; from <= to && to <= 64 && 0 < drop);
        assert_eq!(rt;
            first_excess(word, from, to, drop),
            want,
            "first in {word} to {to}"
        );
    }
    for (word, from, to, drop, want) in [
        (3, 0, 2, 2, Some(0)),
        (3, 0, 2, 1, Some(1)),
        (ones, 0, 64, 64, Some(0)),
    ] {
        assert!(rt; from <= to && to <= 64 && 0 < drop);
        assert_eq!(rt;
            last_excess(word, from, to, drop),
            want,
            "last in {word} by {drop}"
        );
    }
    assert_eq!(rt; place_of_one(ones, 63), Some(63));
    assert_eq!(rt; place_of_one(0, 0), None);
    assert_eq!(rt; ones_below(ones, 64), 64);
}

#[test]
fn a_search_goes_on_over_bytes(rt: HostRuntime) {
    for (word, from, to, drop, want) in [
        (1211386980115472, 4, 56, 8, Some(28)),
        (6745769884264228881, 13, 15, 1, None),
        (648875180931704664, 27, 30, 8, None),
        (10379671589084034081, 3, 39, 8, Some(27)),
        (2607778104304091424, 20, 49, 8, Some(44)),
        (9225908090836382214, 21, 49, 3, Some(32)),
        (16592037145037272085, 4, 52, 8, Some(24)),
        (8124667734148581397, 17, 47, 11, Some(30)),
        (1085102592571150095, 0, 64, 1, None),
        (4294967295, 0, 64, 32, None),
        (4294967295, 0, 64, 1, None),
    ] {
        assert!(rt; from <= to && to <= 64 && 0 < drop);
        assert_eq!(rt;
            first_excess(word, from, to, drop),
            want,
            "first in {word} from {from}"
        );
    }
}

#[test]
fn a_search_back_goes_on_over_bytes(rt: HostRuntime) {
    for (word, from, to, drop, want) in [
        (638277808087314, 36, 57, 5, None),
        (1176638039272210446, 1, 60, 3, None),
        (7660868490996640314, 24, 38, 2, Some(28)),
        (17577530688289088445, 32, 62, 8, Some(48)),
        (6922373081122085328, 28, 48, 1, Some(39)),
        (340045398547478816, 12, 44, 5, Some(15)),
        (13686133757887511935, 16, 43, 2, Some(27)),
        (13810567497041051006, 18, 56, 2, Some(44)),
        (18446744069414584320, 0, 64, 32, Some(32)),
        (4294967295, 0, 64, 1, None),
        (0, 0, 64, 1, None),
        (4294967295, 0, 64, 32, None),
    ] {
        assert!(rt; from <= to && to <= 64 && 0 < drop);
        assert_eq!(rt;
            last_excess(word, from, to, drop),
            want,
            "last in {word} to {to}"
        );
    }
}

#[test]
fn ones_are_counted_and_found_by_bytes(rt: HostRuntime) {
    for (word, j, want) in [
        (4685046568121828888, 13, Some(62)),
        (57704578375746564, 10, None),
        (17308881516128894982, 17, None),
        (54043269450173348, 16, None),
        (18020313329959952, 15, None),
        (387802193748690944, 14, Some(58)),
        (9223372036854775808, 0, Some(63)),
        (9223372036854775808, 1, None),
        (65280, 7, Some(15)),
    ] {
        assert_eq!(rt; place_of_one(word, j), want, "one {j} of {word}");
    }
    for (word, i, want) in [
        (9310729112920829785, 0, 0),
        (4873052053137657492, 0, 0),
        (7369680267236366492, 40, 15),
        (7267623232435040129, 0, 0),
    ] {
        assert!(rt; i <= 64);
        assert_eq!(rt; ones_below(word, i), want, "ones below {i} of {word}");
    }
}

#[test]
fn bytes_sum_and_fall_as_their_bits_do(rt: HostRuntime) {
    for (byte, excess, least) in [
        (0, 0, 0),
        (255, 16, 8),
        (1, 2, 2),
        (128, 2, 1),
        (240, 8, 4),
        (15, 8, 8),
        (85, 8, 8),
        (170, 8, 7),
    ] {
        assert_eq!(rt; excess_of_byte(byte), excess, "{byte}");
        assert_eq!(rt; least_of_byte(byte), least, "{byte}");
    }
    assert_eq!(rt; byte_from(72057594037927935, 52), 15);
    assert_eq!(rt; first_fall_in_byte(4, 3), Some(5));
    assert_eq!(rt; last_rise_in_byte(240, 2), Some(6));
    byte_excesses_are_right();
    byte_leasts_are_right();
    first_falls_are_right();
    last_rises_are_right();
    places_in_bytes_are_right();
}

#[test]
fn the_deepest_fall_is_that_of_a_front(rt: HostRuntime) {
    for (word, count, want) in [
        (0, 64, 64),
        (18446744073709551615, 64, 0),
        (0, 0, 0),
        (0, 13, 13),
        (18446744073709551600, 64, 4),
        (18446744069414584320, 64, 32),
        (4294967295, 64, 0),
        (15970126346341786989, 59, 1),
        (9367700737731084368, 24, 15),
        (14829343298631886456, 60, 3),
        (948012280686086225, 12, 5),
        (5596765429999857094, 18, 2),
        (9360680423438683429, 5, 1),
        (18118270698365290187, 50, 4),
    ] {
        assert!(rt; count <= 64);
        assert_eq!(rt; deepest_fall(word, count), want, "{count} bits of {word}");
    }
}
