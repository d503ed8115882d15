//! A face with 10,000 holes.

ghost use Rattle.std.specs.Prelude.{◌≡◌, ◌<◌};

use crate::maps::holes_image;
use bit_words::Steps;
use navigate::{Island, face_walk, island_walk};
use pemb_file::{Served, open};
use std::alloc::Global;
use std::marker::Brand;
use std::sync::ledger::{Blank, Ledger};
use std::test::Fail;
use topo_base::{FaceId, NodeId, Signed, SignedNumber};

/// The closed edge with this id, walked back, which is the outer ring of a hole.
fn hole(id: u16) -> Option<Signed> {
    Signed::new(-(id as SignedNumber))
}

/// Whether the walk along face 1 gives its shell and then all holes.
fn walks_along_holes<C: Ledger>(served: Served<'_>, steps: &mut Steps<C>) -> bool {
    let Some(mut walk) = face_walk(served, FaceId(1), steps) else {
        return false;
    };
    if walk.step(steps) != Signed::new(1) {
        return false;
    }
    for id in 2..=10_001 {
        if walk.step(steps) != hole(id) {
            return false;
        }
    }
    walk.step(steps) == None
}

/// Whether the walk over what lies in face 1 gives all holes and then the isolated node.
fn walks_over_holes<C: Ledger>(served: Served<'_>, steps: &mut Steps<C>) -> bool {
    let Some(mut walk) = island_walk(served, FaceId(1), steps) else {
        return false;
    };
    for id in 2..=10_001 {
        let Some(edge) = hole(id) else {
            return false;
        };
        if walk.step(steps) != Some(Island::Edge(edge)) {
            return false;
        }
    }
    walk.step(steps) == Some(Island::Node(NodeId(10_002))) && walk.step(steps) == None
}

fn has_ten_thousand_holes<C: Ledger>(alloc: Global, bytes: &[u8], blank: Blank) -> bool
    requires name { blank.name ≡ C.name }
    requires parts { blank.parts ≡ C.parts }
    requires some { 0 < blank.parts }
{
    let mut steps = Steps::<C>::new(alloc, blank);
    let Ok(file) = open(bytes, &mut steps) else {
        return false;
    };
    let served = Served::of(&file);
    walks_along_holes(served, &mut steps) && walks_over_holes(served, &mut steps)
}

#[test]
fn ten_thousand_holes_come_by_their_edges(rt: HostRuntime) -> Result<(), Fail> {
    let alloc = rt.alloc();
    let image = holes_image(alloc)?;
    assert!(rt; has_ten_thousand_holes::<Brand>(alloc, &image, Blank::new(1)));
    Ok(())
}
