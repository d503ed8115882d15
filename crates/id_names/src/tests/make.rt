//! What is made of ids, word by word, and large names both ways.

ghost use Rattle.std.specs.Prelude.{◌≡◌, ◌≤◌, ◌+◌, ◌*◌, ◌/◌, ◌%◌, length, map, IfOk};
ghost use Rattle.std.specs.List.{range_with_len};
ghost use Rattle.bit_words.specs.Digits.{digits};
ghost use Rattle.id_names.specs.Names.{AreDistinctIds};
ghost use Rattle.id_names.specs.RisingNames.{bound_of};

use crate::tests::image::image_made;
use crate::tests::{has_ids, open};
use crate::{NameWords, make};
use std::alloc::{AllocError, Global};
use std::marker::Brand;
use std::sync::ledger::Blank;
use std::test::Fail;
use topo_base::IdNumber;

#[test]
fn three_names_are_made(rt: HostRuntime) -> Result<(), Fail> {
    let words = make(rt.alloc(), &[2, 1, 3], 29)?;
    assert_eq!(rt; words.high.as_slice(), [7].as_slice());
    assert_eq!(rt; words.high_counts.as_slice(), [3 << 32].as_slice());
    assert_eq!(rt; words.lows.as_slice(), [864691129528877057, 0].as_slice());
    assert_eq!(rt; words.places.as_slice(), [33].as_slice());
    assert_eq!(rt; words.marks.as_slice(), [0].as_slice());
    assert_eq!(rt; words.mark_counts.as_slice(), [0].as_slice());
    assert_eq!(rt; words.back.as_slice(), [].as_slice());
    Ok(())
}

#[test]
fn three_names_are_made_with_wide_low_parts(rt: HostRuntime) -> Result<(), Fail> {
    let words = make(rt.alloc(), &[2, 1, 3], 61)?;
    assert_eq!(rt; words.high.as_slice(), [7].as_slice());
    assert_eq!(rt; words.high_counts.as_slice(), [3 << 32].as_slice());
    assert_eq!(rt;
        words.lows.as_slice(),
        [4611686018427387905, 864691128455135232, 0].as_slice()
    );
    assert_eq!(rt; words.places.as_slice(), [33].as_slice());
    assert_eq!(rt; words.marks.as_slice(), [0].as_slice());
    assert_eq!(rt; words.mark_counts.as_slice(), [0].as_slice());
    assert_eq!(rt; words.back.as_slice(), [].as_slice());
    Ok(())
}

#[test]
fn four_names_are_made_in_one_cycle(rt: HostRuntime) -> Result<(), Fail> {
    let words = make(rt.alloc(), &[2, 3, 4, 1], 28)?;
    assert_eq!(rt; words.high.as_slice(), [15].as_slice());
    assert_eq!(rt;
        words.lows.as_slice(),
        [216172782650654721, 4194304].as_slice()
    );
    assert_eq!(rt; words.places.as_slice(), [209].as_slice());
    assert_eq!(rt; words.marks.as_slice(), [9].as_slice());
    assert_eq!(rt; words.back.as_slice(), [3].as_slice());
    assert_eq!(rt; words.marked, 2);
    Ok(())
}

#[test]
fn the_greatest_id_and_no_names_are_made(rt: HostRuntime) -> Result<(), Fail> {
    let one = make(rt.alloc(), &[2147483647], 30)?;
    assert_eq!(rt; one.high.as_slice(), [2].as_slice());
    assert_eq!(rt; one.lows.as_slice(), [1073741823].as_slice());
    assert_eq!(rt; one.places.as_slice(), [0].as_slice());
    let none = make(rt.alloc(), &[], 31)?;
    assert_eq!(rt; none.high.as_slice(), [0].as_slice());
    assert_eq!(rt; none.high_counts.as_slice(), [0].as_slice());
    assert_eq!(rt; none.mark_counts.as_slice(), [0].as_slice());
    assert_eq!(rt; none.places.as_slice(), [].as_slice());
    Ok(())
}

#[test]
fn the_greatest_id_of_63_bits_is_made(rt: HostRuntime) -> Result<(), Fail> {
    let one = make(rt.alloc(), &[9223372036854775807], 62)?;
    assert_eq!(rt; one.high.as_slice(), [2].as_slice());
    assert_eq!(rt; one.lows.as_slice(), [4611686018427387903].as_slice());
    assert_eq!(rt; one.places.as_slice(), [0].as_slice());
    let none = make(rt.alloc(), &[], 63)?;
    assert_eq!(rt; none.high.as_slice(), [0].as_slice());
    assert_eq!(rt; none.lows.as_slice(), [].as_slice());
    Ok(())
}

/// Ids whose places go round in cycles of `len` numbers, one behind the other.
fn ids_in_cycles(
    alloc: Global,
    cycles: IdNumber,
    len: IdNumber,
) -> Result<Vec<IdNumber>, AllocError>
    requires some { 1 ≤ len }
    requires few { cycles * len ≤ 100000 }
    ensures { IfOk result (λ ids. ids.items ≡ map (λ number. number / len * len + (number % len + 1) % len + 1)
        (range_with_len 0 (cycles * len))) }
{
    let mut ids = Vec::new(alloc);
    for number in 0..cycles * len {
        ids.push(number / len * len + (number % len + 1) % len + 1)?;
    }
    Ok(ids)
}

/// 400 ids in runs of 100 that lie far apart.
fn ids_in_runs(alloc: Global) -> Result<Vec<IdNumber>, AllocError>
    ensures { IfOk result (λ ids. ids.items ≡ map (λ number. number + number / 100 * 1000 + 1) (range_with_len 0 400)) }
{
    let mut ids = Vec::new(alloc);
    for number in 0..400 {
        ids.push(number + number / 100 * 1000 + 1)?;
    }
    Ok(ids)
}

/// Whether what is made of these ids is checked, and each is found by its number and each number by its id, and the
/// others are found at no number.
fn goes_both_ways(
    alloc: Global,
    ids: &[IdNumber],
    low: u32,
    others: &[IdNumber],
) -> Result<bool, Fail>
    requires few { length ids.now ≤ 16777216 }
    requires names { AreDistinctIds (bound_of (length ids.now) low) ids.now }
    requires some { 1 ≤ low }
    requires narrow { digits (length ids.now) + low ≤ 63 }
{
    let words = make(alloc, ids, low)?;
    let image = image_made(alloc, ids.len(), low, &words)?;
    match open::<Brand>(alloc, &image, Blank::new(1)) {
        Some(Ok(names)) => Ok(has_ids::<Brand>(alloc, names, ids, others, Blank::new(1))),
        _ => Ok(false),
    }
}

/// What is made of ids in so many cycles of this length.
fn words_of_cycles(alloc: Global, cycles: IdNumber, len: IdNumber) -> Result<NameWords, Fail>
    requires some { 1 ≤ len }
    requires few { cycles * len ≤ 100000 }
{
    let ids = ids_in_cycles(alloc, cycles, len)?;
    let words = make(alloc, &ids, 14)?;
    Ok(words)
}

#[test]
fn fourteen_names_are_made_in_one_cycle(rt: HostRuntime) -> Result<(), Fail> {
    let words = words_of_cycles(rt.alloc(), 1, 14)?;
    assert_eq!(rt; words.marks.as_slice(), [16383].as_slice());
    assert_eq!(rt; words.back.as_slice(), [57325819256840461].as_slice());
    assert_eq!(rt; words.marked, 14);
    Ok(())
}

/// Whether ids in so many cycles of this length go both ways.
fn cycles_go_both_ways(alloc: Global, cycles: IdNumber, len: IdNumber) -> Result<bool, Fail>
    requires some { 1 ≤ len }
    requires few { cycles * len ≤ 100000 }
{
    let ids = ids_in_cycles(alloc, cycles, len)?;
    goes_both_ways(alloc, &ids, 14, &[0, 100001])
}

#[test]
fn large_names_go_both_ways(rt: HostRuntime) -> Result<(), Fail> {
    let alloc = rt.alloc();
    assert!(rt; cycles_go_both_ways(alloc, 1, 100000)?, "one cycle");
    assert!(rt; cycles_go_both_ways(alloc, 3000, 3)?, "cycles of three");
    assert!(rt; cycles_go_both_ways(alloc, 10000, 1)?, "each at its place");
    Ok(())
}

#[test]
fn ids_that_lie_unevenly_go_both_ways(rt: HostRuntime) -> Result<(), Fail> {
    let alloc = rt.alloc();
    let ids = ids_in_runs(alloc)?;
    assert!(rt;
        goes_both_ways(
            alloc,
            &ids,
            30,
            &[0, 101, 1100, 1700, 2200, 3401, 5000000000]
        )?
    );
    Ok(())
}
