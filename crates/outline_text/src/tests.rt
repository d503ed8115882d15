//! The outline of regions of a small file, told.

ghost use Rattle.std.specs.Prelude.{◌≡◌, ◌<◌};

use crate::border_text;
use bit_words::Steps;
use image_words::{bytes_of, island};
use pemb_file::{Served, open};
use std::alloc::{AllocError, Global};
use std::marker::Brand;
use std::sync::ledger::{Blank, Ledger};
use std::test::Fail;
use topo_base::RegionId;

/// Whether the texts of the outlines of regions 2, 1 and 9 of the file that these bytes are, are those of the nested
/// island.
fn are_told<C: Ledger>(alloc: Global, bytes: &[u8], blank: Blank) -> Result<bool, AllocError>
    requires name { blank.name ≡ C.name }
    requires parts { blank.parts ≡ C.parts }
    requires some { 0 < blank.parts }
{
    let mut steps = Steps::<C>::new(alloc, blank);
    let Ok(file) = open(bytes, &mut steps) else {
        return Ok(false);
    };
    let served = Served::of(&file);
    let inner = border_text(alloc, served, RegionId(2), &mut steps)?;
    let outer = border_text(alloc, served, RegionId(1), &mut steps)?;
    let unknown = border_text(alloc, served, RegionId(9), &mut steps)?;
    Ok(
        inner.as_slice() == b"ring: 1 2 3\nring: -4\nborder 2: 2 4\n".as_slice()
            && outer.as_slice() == b"ring: 1 2 3\nborder 1: 1 3\n".as_slice()
            && unknown.as_slice() == b"border 9: unknown\n".as_slice(),
    )
}

#[test]
fn outlines_on_the_nested_island(rt: HostRuntime) -> Result<(), Fail> {
    let alloc = rt.alloc();
    let bytes = bytes_of(alloc, &island())?;
    assert!(rt; are_told::<Brand>(alloc, &bytes, Blank::new(1))?);
    Ok(())
}
