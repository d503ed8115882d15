//! Scripts from whoever writes what he likes, of a mebibyte or a million lines.

use crate::tests::damaged_files::{answers, lines_in, sum_of};
use image_words::{bytes_of, island};
use std::alloc::{AllocError, Global};
use std::test::Fail;

/// A mebibyte of random bytes, from a fixed seed.
fn random_script(alloc: Global) -> Result<Vec<u8>, AllocError> {
    let mut script = Vec::new(alloc);
    let mut state: u64 = 5;
    for _ in 0..1_048_576 {
        state = state
            .wrapping_mul(6364136223846793005)
            .wrapping_add(1442695040888963407);
        script.push(((state >> 56) % 256) as u8)?;
    }
    Ok(script)
}

/// 2663 lines of it are bad and 1469 long, as `bench/damaged.py script` says.
#[test]
fn random_bytes_are_answered(rt: HostRuntime) -> Result<(), Fail> {
    let alloc = rt.alloc();
    let file = bytes_of(alloc, &island())?;
    let said = answers(alloc, &file, &random_script(alloc)?)?;
    assert_eq!(rt; lines_in(&said), 2663 + 1469);
    assert_eq!(rt; said.len(), 4 * 2663 + 5 * 1469);
    assert_eq!(rt; sum_of(&said), 0x252be743490ea106);
    Ok(())
}

#[test]
fn a_mebibyte_in_one_line_is_long(rt: HostRuntime) -> Result<(), Fail> {
    let alloc = rt.alloc();
    let file = bytes_of(alloc, &island())?;
    let mut script = vec![in alloc; b'1'; 1_048_576]?;
    let said = answers(alloc, &file, &script)?;
    assert_eq!(rt; said.as_slice(), b"long\n".as_slice());
    script.extend_from_slice(b"\nnext 1")?;
    let said = answers(alloc, &file, &script)?;
    assert_eq!(rt; said.as_slice(), b"long\nnext 1: 2\n".as_slice());
    Ok(())
}

#[test]
fn a_million_empty_lines_are_not_answered(rt: HostRuntime) -> Result<(), Fail> {
    let alloc = rt.alloc();
    let file = bytes_of(alloc, &island())?;
    let mut script = vec![in alloc; b'\n'; 1_000_000]?;
    script.extend_from_slice(b"next 1")?;
    let said = answers(alloc, &file, &script)?;
    assert_eq!(rt; said.as_slice(), b"next 1: 2\n".as_slice());
    Ok(())
}
