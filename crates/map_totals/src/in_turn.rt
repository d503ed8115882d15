//! A node walk, a face walk and a ring's iterator over one file, stepped in turn.

ghost use Rattle.std.specs.Prelude.{◌≡◌, ◌<◌};

use crate::maps::web_image;
use bit_words::Steps;
use navigate::{face_walk, node_walk, ring_edges};
use pemb_file::{Served, open};
use std::alloc::Global;
use std::marker::Brand;
use std::sync::ledger::{Blank, Ledger};
use std::test::Fail;
use topo_base::{FaceId, NodeId, Signed, SignedNumber};

/// The signed edges round node 21 of the web.
const NODE: [SignedNumber; 3] = [21, -40, -41];

/// Those along face 1.
const FACE: [SignedNumber; 20] = [
    1, 2, 3, 4, 5, 6, 7, 8, 9, 10, 11, 12, 13, 14, 15, 16, 17, 18, 19, 20,
];

/// Those of the outer ring, from -21 on.
const RING: [SignedNumber; 20] = [
    -21, -40, -39, -38, -37, -36, -35, -34, -33, -32, -31, -30, -29, -28, -27, -26, -25, -24, -23,
    -22,
];

/// The signed edge in a place of a list, or None behind its end.
fn edge_at(list: &[SignedNumber], k: usize) -> Option<Signed> {
    match list.get(k) {
        Some(number) => Signed::new(*number),
        None => None,
    }
}

/// Whether each gives its own list.
fn give_their_lists<C: Ledger, D: Ledger>(
    alloc: Global,
    bytes: &[u8],
    blank: Blank,
    other: Blank,
) -> bool
    requires name { blank.name ≡ C.name }
    requires parts { blank.parts ≡ C.parts }
    requires some { 0 < blank.parts }
    requires other_name { other.name ≡ D.name }
    requires other_parts { other.parts ≡ D.parts }
    requires other_some { 0 < other.parts }
{
    let mut steps = Steps::<C>::new(alloc, blank);
    let Ok(file) = open(bytes, &mut steps) else {
        return false;
    };
    let served = Served::of(&file);
    let Some(edge) = Signed::new(-21) else {
        return false;
    };
    let Some(mut ring) = ring_edges(served, edge, Steps::<D>::new(alloc, other)) else {
        return false;
    };
    let Some(mut node) = node_walk(served, NodeId(21), &mut steps) else {
        return false;
    };
    let Some(mut face) = face_walk(served, FaceId(1), &mut steps) else {
        return false;
    };
    for k in 0..22 {
        if node.step(&mut steps) != edge_at(&NODE, k) {
            return false;
        }
        if face.step(&mut steps) != edge_at(&FACE, k) {
            return false;
        }
        if ring.next() != edge_at(&RING, k) {
            return false;
        }
    }
    true
}

#[test]
fn each_gives_its_own_list(rt: HostRuntime) -> Result<(), Fail> {
    let alloc = rt.alloc();
    let image = web_image(alloc)?;
    assert!(rt; give_their_lists::<Brand, Brand>(alloc, &image, Blank::new(1), Blank::new(1)));
    Ok(())
}
