//! Files of form 1, as parts and in form 2.

ghost use Rattle.std.specs.Prelude.{◌≡◌, ◌<◌};

use crate::{parts_of, upgraded};
use bit_words::Steps;
use image_words::{bytes_of, island, old_island, old_triangle, triangle};
use pemb_file::{Served, open, write_image};
use std::alloc::Global;
use std::marker::Brand;
use std::sync::ledger::{Blank, Ledger};
use std::test::Fail;

/// The parts of a file, written in form 2.
fn rewritten_counted<C: Ledger>(alloc: Global, bytes: &[u8], blank: Blank) -> Option<Vec<u8>>
    requires name { blank.name ≡ C.name }
    requires parts { blank.parts ≡ C.parts }
    requires some { 0 < blank.parts }
{
    let mut steps = Steps::<C>::new(alloc, blank);
    let file = open(bytes, &mut steps).ok()?;
    let served = Served::of(&file);
    let parts = parts_of(alloc, served, &mut steps).ok()?;
    write_image(alloc, &parts).ok()
}

/// A file in form 2.
fn upgraded_counted<C: Ledger>(alloc: Global, bytes: &[u8], blank: Blank) -> Option<Vec<u8>>
    requires name { blank.name ≡ C.name }
    requires parts { blank.parts ≡ C.parts }
    requires some { 0 < blank.parts }
{
    let mut steps = Steps::<C>::new(alloc, blank);
    let file = open(bytes, &mut steps).ok()?;
    let served = Served::of(&file);
    upgraded(alloc, served, &mut steps).ok()
}

#[test]
fn the_parts_of_an_old_triangle_are_written_in_form_2(rt: HostRuntime) -> Result<(), Fail> {
    let alloc = rt.alloc();
    let old = bytes_of(alloc, &old_triangle())?;
    let new = bytes_of(alloc, &triangle())?;
    assert_eq!(rt;
        rewritten_counted::<Brand>(alloc, &old, Blank::new(1)),
        Some(new)
    );
    Ok(())
}

#[test]
fn an_old_island_is_upgraded(rt: HostRuntime) -> Result<(), Fail> {
    let alloc = rt.alloc();
    let old = bytes_of(alloc, &old_island())?;
    let new = bytes_of(alloc, &island())?;
    assert_eq!(rt;
        upgraded_counted::<Brand>(alloc, &old, Blank::new(1)),
        Some(new)
    );
    Ok(())
}
