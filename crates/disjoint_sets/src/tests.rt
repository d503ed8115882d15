//! The numbers of small sets.

ghost use Rattle.std.specs.Prelude.{◌≤◌, length};

use crate::{DisjointSets, SetNumbers};
use std::alloc::{AllocError, Global};
use std::test::Fail;

/// The numbers of the first so many members.
fn numbers(alloc: Global, sets: &SetNumbers, members: u32) -> Result<Vec<u32>, AllocError>
    requires { members ≤ length sets.now.of_members }
{
    let mut numbers = Vec::new(alloc);
    for member in 0..members {
        numbers.push(sets.number(member))?;
    }
    Ok(numbers)
}

#[test]
fn joined_members_have_one_number(rt: HostRuntime) -> Result<(), Fail> {
    let mut sets = DisjointSets::new(rt.alloc(), 6)?;
    sets.join(4, 1);
    sets.join(1, 3);
    sets.join(5, 0);
    let found = sets.into_numbers();
    assert_eq!(rt; found.count(), 3);
    let expected: [u32; 6] = [0, 1, 2, 1, 1, 0];
    assert_eq!(rt;
        numbers(rt.alloc(), &found, 6)?.as_slice(),
        expected.as_slice()
    );
    Ok(())
}

#[test]
fn a_long_way_to_the_least_member(rt: HostRuntime) -> Result<(), Fail> {
    let mut sets = DisjointSets::new(rt.alloc(), 7)?;
    sets.join(3, 4);
    sets.join(2, 3);
    sets.join(1, 2);
    sets.join(4, 6);
    sets.join(6, 3);
    let found = sets.into_numbers();
    assert_eq!(rt; found.count(), 3);
    let expected: [u32; 7] = [0, 1, 1, 1, 1, 2, 1];
    assert_eq!(rt;
        numbers(rt.alloc(), &found, 7)?.as_slice(),
        expected.as_slice()
    );
    Ok(())
}

#[test]
fn no_members_have_no_sets(rt: HostRuntime) -> Result<(), Fail> {
    let sets = DisjointSets::new(rt.alloc(), 0)?;
    assert_eq!(rt; sets.into_numbers().count(), 0);
    Ok(())
}
