//! One ring of a million edges.

ghost use Rattle.std.specs.Prelude.{◌≡◌, ◌<◌};

use crate::Status;
use crate::tests::{Case, Folder, add_row, answers_well, shelf_of};
use bit_words::Steps;
use std::alloc::{AllocError, Global};
use std::marker::Brand;
use std::sync::ledger::{Blank, Ledger};
use std::test::Fail;

/// The node and the edge table of a ring.
#[derive(Drop)]
struct RingTables {
    nodes: String,
    edges: String,
}

/// Edge k goes from node k to node k + 1, and edge 1,000,000 to node 1, round face 1.
fn ring(alloc: Global) -> Result<RingTables, AllocError> {
    let mut nodes = String::from_str(alloc, "node_id,containing_face\n")?;
    let mut edges = String::from_str(
        alloc,
        "edge_id,start_node,end_node,next_left_edge,next_right_edge,left_face,right_face\n",
    )?;
    for k in 1..1_000_001 {
        let after = k % 1_000_000 + 1;
        let before = (k + 999_998) % 1_000_000 + 1;
        add_row(&mut nodes, format!(in alloc; "{k},\n"))?;
        add_row(
            &mut edges,
            format!(in alloc; "{k},{k},{after},{after},-{before},1,0\n"),
        )?;
    }
    Ok(RingTables { nodes, edges })
}

/// Whether the ring is answered as it has to be.
fn answers_ring<L: Ledger>(alloc: Global, blank: Blank) -> Result<bool, Fail>
    requires name { blank.name ≡ L.name }
    requires parts { blank.parts ≡ L.parts }
    requires some { 0 < blank.parts }
{
    let tables = ring(alloc)?;
    let case = Case {
        shows: "a ring of a million edges",
        folder: Folder {
            nodes: tables.nodes.as_str(),
            edges: tables.edges.as_str(),
            faces: Some("face_id\n1\n"),
        },
        script: b"next 1\nnext -1\nnext 1000000\nnext 1000001\nends 1000000\nsides -500000\nnode 1\nnode 500000\n\
        adjacent 1\nislands 0\ncontains 500000\ncounts\n",
        status: Status::Done,
        out: "next 1: 2\nnext -1: -1000000\nnext 1000000: 1\nnext 1000001: unknown\nends 1000000: 1000000 1\n\
        sides -500000: 0 1\nnode 1: 1 -1000000\nnode 500000: -499999 500000\nadjacent 1: 0\nislands 0: -1\n\
        contains 500000: 0\ncounts: 1000000 1000000 1 1 0\n",
    };
    let mut shelf = shelf_of(alloc, &case.folder, &[])?;
    let mut steps = Steps::<L>::new(alloc, blank);
    let words = ["ask", "maps"];
    answers_well(alloc, &words, &case, &mut shelf, &mut steps)
}

#[test]
fn a_ring_of_a_million_edges_is_answered(rt: HostRuntime) -> Result<(), Fail> {
    assert!(rt; answers_ring::<Brand>(rt.alloc(), Blank::new(1))?);
    Ok(())
}
