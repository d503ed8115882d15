//! The worked values, from outside.

use crate::{Region, use_in_turn};

#[test]
fn a_region_of_two_words_has_no_three(rt: HostRuntime) {
    let mut words = [u64::MAX; 2];
    let region = Region::new(&mut words);
    assert_eq!(rt; region.left(), 2);
    match region.carve(3) {
        Ok(_) => assert!(rt; false),
        Err(short) => {
            assert_eq!(rt; short.need, 3);
            assert_eq!(rt; short.left, 2);
            match short.region.carve(2) {
                Ok((marks, rest)) => {
                    assert_eq!(rt; marks.room(), 128);
                    assert_eq!(rt; rest.left(), 0);
                }
                Err(_) => assert!(rt; false),
            }
        }
    }
}

#[test]
fn a_part_is_empty_and_changes_one_number(rt: HostRuntime) {
    let mut words = [u64::MAX; 3];
    match Region::new(&mut words).carve(2) {
        Ok((mut marks, rest)) => {
            assert_eq!(rt; rest.left(), 1);
            assert!(rt; !marks.has(0) && !marks.has(63) && !marks.has(64) && !marks.has(127));
            marks.set(63);
            marks.set(64);
            assert!(rt; !marks.has(62) && marks.has(63) && marks.has(64) && !marks.has(65));
            marks.clear(63);
            assert!(rt; !marks.has(62) && !marks.has(63) && marks.has(64) && !marks.has(65));
            marks.clear_all();
            assert!(rt; !marks.has(0) && !marks.has(63) && !marks.has(64) && !marks.has(127));
        }
        Err(_) => assert!(rt; false),
    }
}

#[test]
fn two_parts_keep_their_own_numbers(rt: HostRuntime) {
    let mut words = [7; 5];
    match use_in_turn(Region::new(&mut words), 2, 63, 64) {
        Ok((first, second, rest)) => {
            assert_eq!(rt; rest.left(), 1);
            assert!(rt; first.has(63) && first.has(64) && !first.has(0));
            assert!(rt; !second.has(63) && second.has(64) && !second.has(0));
        }
        Err(_) => assert!(rt; false),
    }
}

#[test]
fn numbers_begin_at_0_and_change_one_at_a_time(rt: HostRuntime) {
    let mut words = [u64::MAX; 2];
    match Region::new(&mut words).carve_numbers(3) {
        Ok(_) => assert!(rt; false),
        Err(short) => {
            assert_eq!(rt; short.need, 3);
            assert_eq!(rt; short.left, 2);
            match short.region.carve_numbers(2) {
                Ok((mut numbers, rest)) => {
                    assert_eq!(rt; rest.left(), 0);
                    assert_eq!(rt; numbers.len(), 2);
                    assert!(rt; numbers.get(0) == 0 && numbers.get(1) == 0);
                    numbers.set(1, u64::MAX);
                    assert!(rt; numbers.get(0) == 0 && numbers.get(1) == u64::MAX);
                }
                Err(_) => assert!(rt; false),
            }
        }
    }
}
