//! Names of small words, asked in full, and the faults of words with one thing wrong.

ghost use Rattle.std.specs.Prelude.{◌≡◌, ◌<◌};

mod image;
mod make;

use crate::tests::image::{Image, Words, image_of, parts_of};
use crate::ways::all_found;
use crate::{NameFault, NamesView, check};
use bit_words::Steps;
use std::alloc::Global;
use std::marker::Brand;
use std::sync::ledger::{Blank, Ledger};
use std::test::Fail;
use topo_base::IdNumber;

/// Words, the ids that they name by number, and ids that they don't name.
#[derive(Clone, Copy)]
struct Named {
    shows: &'static str,
    words: Words,
    ids: &'static [IdNumber],
    others: &'static [IdNumber],
}

/// Words, and what `check` has to say of them: None where their sizes do not fit.
#[derive(Clone, Copy)]
struct Checked {
    shows: &'static str,
    words: Words,
    said: Option<Result<(), NameFault>>,
}

/// Four names in one cycle: 2, 3, 4, 1.
const FOUR: Words = Words {
    count: 4,
    low: 28,
    marked: 2,
    high: 15,
    high_counts: 4 << 32,
    lows: [216172782650654721, 4194304, 0],
    places: 209,
    marks: 9,
    mark_counts: 2 << 32,
    back: 3,
};

/// Five names in one cycle: 2, 3, 4, 5, 1.
const FIVE: Words = Words {
    count: 5,
    low: 28,
    marked: 2,
    high: 31,
    high_counts: 5 << 32,
    lows: [216172782650654721, 1407374887747584, 0],
    places: 2257,
    marks: 9,
    mark_counts: 2 << 32,
    back: 3,
};

/// Seven names in a cycle of five, which is marked, and one of two: 2, 3, 4, 5, 1 and 7, 6.
const SEVEN: Words = Words {
    count: 7,
    low: 27,
    marked: 2,
    high: 127,
    high_counts: 7 << 32,
    lows: [54043195796881409, 87960930746368, 120259085056],
    places: 1509585,
    marks: 17,
    mark_counts: 2 << 32,
    back: 4,
};

/// Nine names in one cycle, of which three are marked: 2, 3, 4, 5, 6, 7, 8, 9, 1.
const NINE: Words = Words {
    count: 9,
    low: 21,
    marked: 3,
    high: 511,
    high_counts: 9 << 32,
    lows: [13194143727617, 13835071249426939906, 9895608844289],
    places: 2271560481,
    marks: 273,
    mark_counts: 3 << 32,
    back: 1032,
};

/// Names whose high parts lie apart: 14, 3, 9.
const SPREAD: Words = Words {
    count: 3,
    low: 2,
    marked: 0,
    high: 41,
    high_counts: 3 << 32,
    lows: [39, 0, 0],
    places: 18,
    marks: 0,
    mark_counts: 0,
    back: 0,
};

/// The one name 3, whose high part is the last.
const LAST: Words = Words {
    count: 1,
    low: 1,
    marked: 0,
    high: 2,
    high_counts: 1 << 32,
    lows: [1, 0, 0],
    places: 0,
    marks: 0,
    mark_counts: 0,
    back: 0,
};

/// The greatest id of 63 bits.
const GREATEST: Words = Words {
    low: 62,
    lows: [4611686018427387903, 0, 0],
    ..LAST
};

const NAMED: [Named; 11] = [
    Named {
        shows: "three names, the last at its place",
        words: Words {
            low: 29,
            high: 7,
            lows: [864691129528877057, 0, 0],
            places: 33,
            ..SPREAD
        },
        ids: &[2, 1, 3],
        others: &[0, 4, 2147483647],
    },
    Named {
        shows: "four names in one cycle",
        words: FOUR,
        ids: &[2, 3, 4, 1],
        others: &[0, 5, 268435457],
    },
    Named {
        shows: "five names in one cycle",
        words: FIVE,
        ids: &[2, 3, 4, 5, 1],
        others: &[0, 6, 4294967295],
    },
    Named {
        shows: "a cycle of five and one of two",
        words: SEVEN,
        ids: &[2, 3, 4, 5, 1, 7, 6],
        others: &[0, 8],
    },
    Named {
        shows: "a mark without another",
        words: NINE,
        ids: &[2, 3, 4, 5, 6, 7, 8, 9, 1],
        others: &[0, 10],
    },
    Named {
        shows: "high parts that lie apart",
        words: SPREAD,
        ids: &[14, 3, 9],
        others: &[1, 5, 8, 10, 13, 15, 16, 17],
    },
    Named {
        shows: "the last high part",
        words: LAST,
        ids: &[3],
        others: &[0, 1, 2, 4, 5, 7, 9223372036854775807],
    },
    Named {
        shows: "no names",
        words: Words {
            count: 0,
            low: 63,
            high: 0,
            high_counts: 0,
            lows: [0, 0, 0],
            ..LAST
        },
        ids: &[],
        others: &[0, 1, 2147483648, 9223372036854775807, 18446744073709551615],
    },
    Named {
        shows: "the greatest id of 31 bits",
        words: Words {
            low: 30,
            lows: [1073741823, 0, 0],
            ..LAST
        },
        ids: &[2147483647],
        others: &[1073741823, 2147483646, 2147483648],
    },
    Named {
        shows: "the greatest id of 63 bits",
        words: GREATEST,
        ids: &[9223372036854775807],
        others: &[
            0,
            1,
            2147483647,
            4611686018427387903,
            9223372036854775806,
            9223372036854775808,
            18446744073709551615,
        ],
    },
    Named {
        shows: "the least id, with low parts of 62 bits",
        words: Words {
            high: 1,
            lows: [1, 0, 0],
            ..GREATEST
        },
        ids: &[1],
        others: &[0, 2, 4611686018427387905, 9223372036854775807],
    },
];

const CHECKED: [Checked; 16] = [
    Checked {
        shows: "lawful names",
        words: FOUR,
        said: Some(Ok(())),
    },
    Checked {
        shows: "sizes that do not fit",
        words: Words { low: 61, ..FOUR },
        said: None,
    },
    Checked {
        shows: "a wrong count of high bits",
        words: Words {
            high_counts: 3 << 32,
            ..FOUR
        },
        said: Some(Err(NameFault::HighCounts { at: 1 })),
    },
    Checked {
        shows: "an id too few",
        words: Words {
            high: 7,
            high_counts: 3 << 32,
            ..FOUR
        },
        said: Some(Err(NameFault::Ones { found: 3 })),
    },
    Checked {
        shows: "an id of 0",
        words: Words {
            lows: [0, 0, 0],
            ..FOUR
        },
        said: Some(Err(NameFault::Rising { at: 0 })),
    },
    Checked {
        shows: "an id twice",
        words: Words {
            lows: [268435457, 0, 0],
            ..FOUR
        },
        said: Some(Err(NameFault::Rising { at: 1 })),
    },
    Checked {
        shows: "an id that is too great",
        words: Words {
            high: 15 << 8,
            ..FOUR
        },
        said: Some(Err(NameFault::Rising { at: 0 })),
    },
    Checked {
        shows: "a high part too great",
        words: Words { high: 4, ..LAST },
        said: Some(Err(NameFault::Rising { at: 0 })),
    },
    Checked {
        shows: "an id that is not below 2 ^ 63",
        words: Words {
            high: 4,
            ..GREATEST
        },
        said: Some(Err(NameFault::Rising { at: 0 })),
    },
    Checked {
        shows: "a wrong count of marks",
        words: Words {
            mark_counts: 3 << 32,
            places: 212,
            ..FOUR
        },
        said: Some(Err(NameFault::MarkCounts { at: 1 })),
    },
    Checked {
        shows: "a mark too few",
        words: Words {
            marks: 1,
            mark_counts: 1 << 32,
            places: 212,
            ..FOUR
        },
        said: Some(Err(NameFault::MarkOnes { found: 1 })),
    },
    Checked {
        shows: "no such place",
        words: Words {
            places: 212,
            ..FOUR
        },
        said: Some(Err(NameFault::Order { at: 0 })),
    },
    Checked {
        shows: "a place of two",
        words: Words {
            places: 193,
            ..FOUR
        },
        said: Some(Err(NameFault::Order { at: 1 })),
    },
    Checked {
        shows: "a walk too far",
        words: Words {
            marked: 0,
            marks: 0,
            mark_counts: 0,
            ..FIVE
        },
        said: Some(Err(NameFault::Order { at: 0 })),
    },
    Checked {
        shows: "a pointer that does not lead back",
        words: Words { back: 24, ..FIVE },
        said: Some(Err(NameFault::Order { at: 0 })),
    },
    Checked {
        shows: "a pointer to no number",
        words: Words { back: 7, ..FIVE },
        said: Some(Err(NameFault::Order { at: 3 })),
    },
];

/// The names of an image, or the first fault. None where its sizes do not fit.
fn open<'a, C: Ledger>(
    alloc: Global,
    image: &'a Image,
    blank: Blank,
) -> Option<Result<NamesView<'a>, NameFault>>
    requires name { blank.name ≡ C.name }
    requires parts { blank.parts ≡ C.parts }
    requires some { 0 < blank.parts }
{
    let mut steps = Steps::<C>::new(alloc, blank);
    let parts = parts_of(image)?;
    match check(parts, &mut steps) {
        Ok(()) => Some(Ok(NamesView::new(parts))),
        Err(fault) => Some(Err(fault)),
    }
}

/// Whether these are the ids by number, each found, and the others are found at no number.
fn has_all<C: Ledger>(
    names: &NamesView<'_>,
    ids: &[IdNumber],
    others: &[IdNumber],
    steps: &mut Steps<C>,
) -> bool {
    if names.count() != ids.len() {
        return false;
    }
    for number in 0..names.count() {
        let id = names.id_of(number, steps);
        if id != ids[number] || names.number_of(id, steps) != Some(number) {
            return false;
        }
    }
    for id in others {
        if names.number_of(*id, steps).is_some() {
            return false;
        }
    }
    true
}

/// The same, before some of them are looked up ahead, after, and where gaps among the ids are noted, none of which are
/// found exactly where the greatest is as great as they are many.
fn has_ids<C: Ledger>(
    alloc: Global,
    names: NamesView<'_>,
    ids: &[IdNumber],
    others: &[IdNumber],
    blank: Blank,
) -> bool
    requires name { blank.name ≡ C.name }
    requires parts { blank.parts ≡ C.parts }
    requires some { 0 < blank.parts }
{
    let mut steps = Steps::<C>::new(alloc, blank);
    if !has_all(&names, ids, others, &mut steps) {
        return false;
    }
    let mut names = names;
    let ahead = [
        ids.last().copied(),
        None,
        others.first().copied(),
        ids.first().copied(),
    ];
    names.look_ahead(ahead, &mut steps);
    if !has_all(&names, ids, others, &mut steps) {
        return false;
    }
    names.note_gaps(&mut steps);
    let greatest = ids.iter().copied().max().unwrap_or(0);
    names.is_gapless() == (greatest == ids.len() as IdNumber)
        && has_all(&names, ids, others, &mut steps)
}

/// Whether the names of these words are these ids by number, and no others.
fn agrees(
    alloc: Global,
    words: Words,
    ids: &[IdNumber],
    others: &[IdNumber],
) -> Result<bool, Fail> {
    let image = image_of(alloc, words)?;
    match open::<Brand>(alloc, &image, Blank::new(1)) {
        Some(Ok(names)) => Ok(has_ids::<Brand>(alloc, names, ids, others, Blank::new(1))),
        _ => Ok(false),
    }
}

/// Whether counts show that each number of these names is found.
fn is_counted<C: Ledger>(alloc: Global, names: NamesView<'_>, blank: Blank) -> bool
    requires name { blank.name ≡ C.name }
    requires parts { blank.parts ≡ C.parts }
    requires some { 0 < blank.parts }
{
    let mut steps = Steps::<C>::new(alloc, blank);
    all_found(names.inverse(), &mut steps)
}

/// Whether counts show it of the names of these words.
fn need_no_walks(alloc: Global, words: Words) -> Result<bool, Fail> {
    let image = image_of(alloc, words)?;
    match open::<Brand>(alloc, &image, Blank::new(1)) {
        Some(Ok(names)) => Ok(is_counted::<Brand>(alloc, names, Blank::new(1))),
        _ => Ok(false),
    }
}

/// What `check` says of these words. None where their sizes do not fit.
fn told(alloc: Global, words: Words) -> Result<Option<Result<(), NameFault>>, Fail> {
    let image = image_of(alloc, words)?;
    match open::<Brand>(alloc, &image, Blank::new(1)) {
        Some(Err(fault)) => Ok(Some(Err(fault))),
        Some(Ok(_)) => Ok(Some(Ok(()))),
        None => Ok(None),
    }
}

/// What the first words show that don't name what they have to.
fn first_not_named(alloc: Global) -> Result<Option<&'static str>, Fail> {
    for named in &NAMED {
        if !agrees(alloc, named.words, named.ids, named.others)? {
            return Ok(Some(named.shows));
        }
    }
    Ok(None)
}

/// What the first words show of which `check` says something else.
fn first_not_said(alloc: Global) -> Result<Option<&'static str>, Fail> {
    for checked in &CHECKED {
        if told(alloc, checked.words)? != checked.said {
            return Ok(Some(checked.shows));
        }
    }
    Ok(None)
}

#[test]
fn names_are_asked_both_ways(rt: HostRuntime) -> Result<(), Fail> {
    assert_eq!(rt; first_not_named(rt.alloc())?, None);
    Ok(())
}

#[test]
fn each_fault_is_named(rt: HostRuntime) -> Result<(), Fail> {
    assert_eq!(rt; first_not_said(rt.alloc())?, None);
    Ok(())
}

#[test]
fn long_and_short_cycles_need_no_walks(rt: HostRuntime) -> Result<(), Fail> {
    for words in [SEVEN, NINE] {
        assert!(rt; need_no_walks(rt.alloc(), words)?);
    }
    Ok(())
}
