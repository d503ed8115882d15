//! Outlines of regions, told over files that are built of tables.

ghost use Rattle.std.specs.Prelude.{◌≡◌, ◌<◌};

use crate::Status;
use crate::tests::{Folder, TRIANGLE, Told, all_told_well, build, shelf_of};
use bit_words::Steps;
use std::alloc::Global;
use std::marker::Brand;
use std::sync::ledger::{Blank, Ledger};
use std::test::Fail;

/// A map with regions, and what is told of the outlines of these.
#[derive(Clone, Copy)]
struct Outlined {
    folder: Folder<'static>,
    regions: &'static str,
    members: &'static str,
    told: &'static [Told],
}

/// Three edges from node 1 to node 2, one above the other.
const THETA: Folder<'static> = Folder {
    nodes: "node_id,containing_face\n1,\n2,\n",
    edges: "edge_id,start_node,end_node,next_left_edge,next_right_edge,left_face,right_face\n\
            1,1,2,-3,2,0,1\n2,1,2,-1,3,1,2\n3,1,2,-2,1,2,0\n",
    faces: Some("face_id\n1\n2\n"),
};

/// Two rows of three cells each, faces 1, 2 and 3 below faces 4, 5 and 6.
const STRIP: Folder<'static> = Folder {
    nodes: "node_id,containing_face\n\
            1,\n2,\n3,\n4,\n5,\n6,\n7,\n8,\n9,\n10,\n11,\n12,\n",
    edges: "edge_id,start_node,end_node,next_left_edge,next_right_edge,left_face,right_face\n\
            1,1,2,11,10,1,0\n2,2,3,12,-1,2,0\n3,3,4,13,-2,3,0\n4,5,6,15,-10,4,1\n5,6,7,16,-11,5,2\n\
            6,7,8,17,-12,6,3\n7,9,10,8,-14,0,4\n8,10,11,9,-15,0,5\n9,11,12,-17,-16,0,6\n10,1,5,14,1,0,1\n\
            11,2,6,-4,2,1,2\n12,3,7,-5,3,2,3\n13,4,8,-6,-3,3,0\n14,5,9,7,4,0,4\n15,6,10,-7,5,4,5\n\
            16,7,11,-8,6,5,6\n17,8,12,-9,-13,6,0\n",
    faces: Some("face_id\n0\n1\n2\n3\n4\n5\n6\n"),
};

/// Regions that cover all faces but one: face 0, or face 2 of the strip, which is a hole. Of the strip's other regions
/// one has two faces that meet in a node alone, and one has two parts.
const OUTLINED: [Outlined; 3] = [
    Outlined {
        folder: THETA,
        regions: "region_id,parent\n1,\n",
        members: "region_id,face_id\n1,1\n1,2\n",
        told: &[Told {
            words: &["border", "map.pemb", "1"],
            status: Status::Done,
            out: "ring: -1 3\nborder 1: 1 2\n",
        }],
    },
    Outlined {
        folder: STRIP,
        regions: "region_id,parent\n1,3\n2,3\n3,\n",
        members: "region_id,face_id\n1,1\n1,5\n2,3\n2,4\n3,0\n3,6\n",
        told: &[
            Told {
                words: &["border", "map.pemb", "1"],
                status: Status::Done,
                out: "ring: 1 11 -4 -10\nring: 5 16 -8 -15\nborder 1: 2 8\n",
            },
            Told {
                words: &["border", "map.pemb", "2"],
                status: Status::Done,
                out: "ring: 3 13 -6 -12\nring: 4 15 -7 -14\nborder 2: 2 8\n",
            },
            Told {
                words: &["border", "map.pemb", "3"],
                status: Status::Done,
                out: "ring: -2 11 5 -12\nborder 3: 1 4\n",
            },
        ],
    },
    Outlined {
        folder: TRIANGLE,
        regions: "region_id,parent\n1,\n",
        members: "region_id,face_id\n",
        told: &[Told {
            words: &["border", "map.pemb", "1"],
            status: Status::Done,
            out: "border 1: 0 0\n",
        }],
    },
];

/// Whether the outlines of a map's regions are told as they have to be.
fn outlines_well<L: Ledger>(
    alloc: Global,
    outlined: &Outlined,
    steps: &mut Steps<L>,
) -> Result<bool, Fail> {
    let mut shelf = shelf_of(alloc, &outlined.folder, &[])?;
    shelf.add("maps/region.csv", outlined.regions.as_bytes())?;
    shelf.add("maps/member.csv", outlined.members.as_bytes())?;
    if build(alloc, &mut shelf, steps)? != Status::Done {
        return Ok(false);
    }
    all_told_well(alloc, outlined.told, &mut shelf, steps)
}

/// Whether all of them are.
fn all_outlined_well<L: Ledger>(alloc: Global, blank: Blank) -> Result<bool, Fail>
    requires name { blank.name ≡ L.name }
    requires parts { blank.parts ≡ L.parts }
    requires some { 0 < blank.parts }
{
    let mut steps = Steps::<L>::new(alloc, blank);
    for outlined in &OUTLINED {
        if !outlines_well(alloc, outlined, &mut steps)? {
            return Ok(false);
        }
    }
    Ok(true)
}

#[test]
fn outlines_are_told_ring_by_ring(rt: HostRuntime) -> Result<(), Fail> {
    assert!(rt; all_outlined_well::<Brand>(rt.alloc(), Blank::new(1))?);
    Ok(())
}
