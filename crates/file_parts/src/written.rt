//! Worked files, written in both forms, word by word.

ghost use Rattle.std.specs.Prelude.{◌≡◌, ◌<◌, length, IfOk, IsTrue};
ghost use Rattle.pemb_file.specs.Parts.{contents_of_parts};
ghost use Rattle.file_laws.specs.Lawful.{is_lawful, is_whole, has_room_for};

use bit_words::Steps;
use image_words::{bytes_of, old_island, old_triangle};
use pemb_file::{ImageParts, Served, open_lawful, write_image, write_old_image};
use std::alloc::Global;
use std::marker::Brand;
use std::sync::ledger::{Blank, Ledger};
use std::test::Fail;

/// Whether these are the bytes of these words, the lowest byte of each first.
fn is_image(alloc: Global, image: &[u8], words: &[u64]) -> Result<bool, Fail> {
    let bytes = bytes_of(alloc, words)?;
    Ok(image == bytes.as_slice())
}

/// What the file of a triangle holds.
fn triangle(alloc: Global) -> Result<ImageParts, Fail>
    ensures walk { IfOk result (λ parts. length parts.tree.items ≡ length parts.first.items) }
    ensures whole { IfOk result (λ parts. IsTrue (is_whole (contents_of_parts parts))) }
    ensures room { IfOk result (λ parts. IsTrue (has_room_for 1 (contents_of_parts parts))) }
{
    Ok(ImageParts {
        tree: vec![in alloc; true, true, false, true, true, false]?,
        first: vec![in alloc; true, true, true, false, false, false]?,
        starts: vec![in alloc; 0, 6]?,
        forward: vec![in alloc; false, false, false]?,
        nodes: vec![in alloc; 2, 1, 3]?,
        edges: vec![in alloc; 1, 3, 2]?,
        faces: vec![in alloc; 1]?,
        places: vec![in alloc; 0]?,
        place_order: vec![in alloc; 0]?,
        isolated: Vec::new(alloc),
        region_bits: Vec::new(alloc),
        regions: Vec::new(alloc),
        members: vec![in alloc; 0, 0]?,
    })
}

/// What the file of a triangle with a closed edge and a node inside it holds, with a region round the triangle and one
/// in it round the closed edge.
fn island(alloc: Global) -> Result<ImageParts, Fail>
    ensures walk { IfOk result (λ parts. length parts.tree.items ≡ length parts.first.items) }
    ensures whole { IfOk result (λ parts. IsTrue (is_whole (contents_of_parts parts))) }
    ensures room { IfOk result (λ parts. IsTrue (has_room_for 1 (contents_of_parts parts))) }
{
    Ok(ImageParts {
        tree: vec![in alloc; true, true, false, true, true, false, false, false]?,
        first: vec![in alloc; true, true, true, false, false, false, true, false]?,
        starts: vec![in alloc; 0, 6, 8]?,
        forward: vec![in alloc; false, false, false, false]?,
        nodes: vec![in alloc; 2, 4, 1, 3, 5]?,
        edges: vec![in alloc; 1, 3, 2, 4]?,
        faces: vec![in alloc; 1, 2]?,
        places: vec![in alloc; 0, 1]?,
        place_order: vec![in alloc; 0, 1]?,
        isolated: vec![in alloc; 2]?,
        region_bits: vec![in alloc; true, true, false, false]?,
        regions: vec![in alloc; 1, 2]?,
        members: vec![in alloc; 0, 2, 1]?,
    })
}

/// How many edges a file has that is opened with no check.
fn edges_of_lawful<C: Ledger>(alloc: Global, image: &[u8], blank: Blank) -> u32
    requires lawful { IsTrue (is_lawful image.now) }
    requires name { blank.name ≡ C.name }
    requires parts { blank.parts ≡ C.parts }
    requires some { 0 < blank.parts }
{
    let mut steps = Steps::<C>::new(alloc, blank);
    let file = open_lawful(image, &mut steps);
    Served::of(&file).counts().edges
}

#[test]
fn a_triangle_is_written_in_form_1(rt: HostRuntime) -> Result<(), Fail> {
    let alloc = rt.alloc();
    let parts = triangle(alloc)?;
    let image = write_old_image(alloc, &parts)?;
    assert!(rt; is_image(alloc, &image, &old_triangle())?);
    Ok(())
}

#[test]
fn a_triangle_is_written_in_form_2(rt: HostRuntime) -> Result<(), Fail> {
    let alloc = rt.alloc();
    let parts = triangle(alloc)?;
    let image = write_image(alloc, &parts)?;
    assert!(rt; is_image(alloc, &image, &image_words::triangle())?);
    assert_eq!(rt; edges_of_lawful::<Brand>(alloc, &image, Blank::new(1)), 3);
    Ok(())
}

#[test]
fn an_island_is_written_in_form_1(rt: HostRuntime) -> Result<(), Fail> {
    let alloc = rt.alloc();
    let parts = island(alloc)?;
    let image = write_old_image(alloc, &parts)?;
    assert!(rt; is_image(alloc, &image, &old_island())?);
    Ok(())
}
