//! Lists of ids, dense and sparse, asked.

ghost use Rattle.std.specs.Prelude.{◌<◌, ◌≤◌, ◌^◌, ◌≡◌, length, vec_len, IfOk};

use crate::IdIndex;
use std::alloc::{AllocError, Global};
use std::test::Fail;
use topo_base::IdNumber;

/// What an index says of some ids: the rows of those that are asked, and the least id that stands twice.
type Said = ([Option<u32>; 6], Option<IdNumber>);

fn said(alloc: Global, ids: &[IdNumber], asked: [IdNumber; 6]) -> Result<Said, AllocError>
    requires { length ids.now < 2 ^ 32 }
{
    let index = IdIndex::new(alloc, ids)?;
    Ok((asked.map(|id| index.row_of(id)), index.repeated()))
}

#[test]
fn dense_ids_have_their_first_rows(rt: HostRuntime) -> Result<(), Fail> {
    let nothing = said(
        rt.alloc(),
        &[],
        [0, 1, 2, 1023, 1024, 18_446_744_073_709_551_615],
    )?;
    assert_eq!(rt; nothing, ([None; 6], None));
    let digits = said(
        rt.alloc(),
        &[3, 1, 4, 1, 5, 9, 2, 6, 5, 3, 5],
        [3, 1, 5, 6, 7, 10],
    )?;
    assert_eq!(rt;
        digits,
        ([Some(0), Some(1), Some(4), Some(7), None, None], Some(1))
    );
    let distinct = said(
        rt.alloc(),
        &[6, 0, 28],
        [0, 6, 28, 27, 29, 18_446_744_073_709_551_615],
    )?;
    assert_eq!(rt;
        distinct,
        ([Some(1), Some(0), Some(2), None, None, None], None)
    );
    let last_dense = said(rt.alloc(), &[1031, 0], [1031, 0, 1030, 1032, 1, 2])?;
    assert_eq!(rt;
        last_dense,
        ([Some(0), Some(1), None, None, None, None], None)
    );
    Ok(())
}

#[test]
fn sparse_ids_have_their_first_rows(rt: HostRuntime) -> Result<(), Fail> {
    let first_sparse = said(rt.alloc(), &[1032, 0], [1032, 0, 1031, 1033, 1, 2])?;
    assert_eq!(rt;
        first_sparse,
        ([Some(0), Some(1), None, None, None, None], None)
    );
    let greatest = said(
        rt.alloc(),
        &[18_446_744_073_709_551_615, 0, 18_446_744_073_709_551_614],
        [
            0,
            18_446_744_073_709_551_614,
            18_446_744_073_709_551_615,
            1,
            18_446_744_073_709_551_613,
            9_223_372_036_854_775_807,
        ],
    )?;
    assert_eq!(rt;
        greatest,
        ([Some(1), Some(2), Some(0), None, None, None], None)
    );
    let thousands = said(
        rt.alloc(),
        &[
            31_000, 14_000, 15_000, 92_000, 65_000, 35_000, 15_000, 92_000, 15_000,
        ],
        [15_000, 92_000, 31_000, 35_000, 15_001, 93_000],
    )?;
    assert_eq!(rt;
        thousands,
        (
            [Some(2), Some(3), Some(0), Some(5), None, None],
            Some(15_000)
        )
    );
    Ok(())
}

/// The number of ids in a long list.
const MANY: u32 = 100_000;

/// Each multiple below `MANY` times `apart`, in mixed order: in a row that of the remainder of 7 times the row and 3.
fn mixed_ids(alloc: Global, apart: IdNumber) -> Result<Vec<IdNumber>, AllocError>
    requires { apart ≤ 90000000000000 }
    ensures { IfOk result (λ ids. vec_len ids ≡ 100000) }
{
    let mut ids = Vec::new(alloc);
    for row in 0..MANY {
        ids.push(IdNumber::from((7 * row + 3) % MANY) * apart)?;
    }
    Ok(ids)
}

/// The row of a multiple, since 57,143 times 7 leaves 1.
fn row_of_multiple(number: u32) -> u32
    requires { number < 100000 }
{
    ((u64::from(number) + 99_997) * 57_143 % 100_000) as u32
}

/// How many of the ids have their row in the index, and how many that stand beside them have none.
fn found(alloc: Global, apart: IdNumber) -> Result<(u32, u32), AllocError>
    requires { apart ≤ 90000000000000 }
{
    let ids = mixed_ids(alloc, apart)?;
    let index = IdIndex::new(alloc, &ids)?;
    let mut right = 0;
    let mut missing = 0;
    for number in 0..MANY {
        let multiple = IdNumber::from(number) * apart;
        if index.row_of(multiple) == Some(row_of_multiple(number)) {
            right += 1;
        }
        if index.row_of(multiple + 1).is_none() {
            missing += 1;
        }
    }
    Ok((right, missing))
}

#[test]
fn long_lists_are_asked_in_full(rt: HostRuntime) -> Result<(), Fail> {
    assert_eq!(rt; found(rt.alloc(), 1)?, (100_000, 1));
    for apart in [2, 4, 5, 40_000, 90_000_000_000_000] {
        assert_eq!(rt;
            found(rt.alloc(), apart)?,
            (100_000, 100_000),
            "{apart} apart"
        );
    }
    Ok(())
}
