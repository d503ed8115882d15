//! Whole runs over tables and scripts, with answers from outside.

ghost use Rattle.std.specs.Prelude.{◌≡◌, ◌<◌, ◌≤◌};

mod long_cycle;
mod outlines;

use crate::trial::grid_draft;
use crate::{Status, run};
use bit_words::Steps;
use image_words::{bytes_of, old_island, old_triangle, triangle};
use ports::{
    FileShelf, MemoryShelf, MemorySink, MemorySource, Shelf, Sink, Source, StdSink, StdSource,
};
use std::alloc::{AllocError, Global};
use std::fs;
use std::marker::Brand;
use std::sync::ledger::{Blank, Ledger};
use std::test::Fail;

/// The node, edge and face tables of a folder; the last may be missing.
#[derive(Clone, Copy)]
struct Folder<'a> {
    nodes: &'a str,
    edges: &'a str,
    faces: Option<&'a str>,
}

/// What a script over a folder has to end in.
#[derive(Clone, Copy)]
struct Case<'a> {
    shows: &'static str,
    folder: Folder<'a>,
    script: &'static [u8],
    status: Status,
    out: &'static str,
}

const TRIANGLE_NODES: &str = "node_id,containing_face\n1,\n2,\n3,\n";

const TRIANGLE_EDGES: &str =
    "edge_id,start_node,end_node,next_left_edge,next_right_edge,left_face,right_face\n\
            1,1,2,2,-3,1,0\n2,2,3,3,-1,1,0\n3,3,1,1,-2,1,0\n";

const TRIANGLE: Folder<'static> = Folder {
    nodes: TRIANGLE_NODES,
    edges: TRIANGLE_EDGES,
    faces: Some("face_id\n0\n1\n"),
};

const ISLE: Folder<'static> = Folder {
    nodes: "node_id,containing_face\n1,\n2,\n3,\n4,\n5,2\n",
    edges: "edge_id,start_node,end_node,next_left_edge,next_right_edge,left_face,right_face\n\
            1,1,2,2,-3,1,0\n2,2,3,3,-1,1,0\n3,3,1,1,-2,1,0\n4,4,4,4,-4,2,1\n",
    faces: Some("face_id\n0\n1\n2\n"),
};

/// A lens of two edges with the ids at the ends of the range, and a closed edge and a node in it with ids past 31 bits.
const WIDE: Folder<'static> = Folder {
    nodes: "node_id,containing_face\n9223372036854775807,\n1,\n2147483649,\n2147483648,9223372036854775807\n",
    edges: "edge_id,start_node,end_node,next_left_edge,next_right_edge,left_face,right_face\n\
            9223372036854775807,9223372036854775807,1,1,-1,9223372036854775807,0\n\
            1,1,9223372036854775807,9223372036854775807,-9223372036854775807,9223372036854775807,0\n\
            2147483648,2147483649,2147483649,2147483648,-2147483648,1,9223372036854775807\n",
    faces: Some("face_id\n9223372036854775807\n1\n"),
};

/// What is asked of the island with two regions, and what is answered.
const ISLE_WITH_REGIONS: Case<'static> = Case {
    shows: "regions that nest, and a face without one",
    folder: ISLE,
    script: b"regions 1\nregions 2\nregions 0\ncommon 1 2\ncommon 2 1\ncommon 0 1\n\
            common 1 9\nregions 3\ncounts\n",
    status: Status::Done,
    out: "regions 1: 2 1\nregions 2: 1\nregions 0:\ncommon 1 2: 1\ncommon 2 1: 1\ncommon 0 1:\n\
            common 1 9: unknown\nregions 3: unknown\ncounts: 5 4 2 2 2\n",
};

const CASES: [Case<'static>; 32] = [
    Case {
        shows: "rings, faces and islands of the triangle",
        folder: TRIANGLE,
        script: b"ring 1\nring -2\nring 9\nface 1\nface 0\nadjacent 0\nislands 0\nface 2\n",
        status: Status::Done,
        out: "ring 1: 1 2 3\nring -2: -2 -1 -3\nring 9: unknown\nface 1: 1 2 3\nface 0: -1 -3 -2\nadjacent 0: 1\nislands 0: -1\nface 2: unknown\n",
    },
    Case {
        shows: "nodes, nexts, ends, sides, the containing face and the counts of the triangle",
        folder: TRIANGLE,
        script: b"node 1\nnode 2\nnode 3\nnext -1\nends -1\nsides 1\ncontains 1\ncounts\n",
        status: Status::Done,
        out: "node 1: 1 -3\nnode 2: -1 2\nnode 3: -2 3\nnext -1: -3\nends -1: 2 1\nsides 1: 1 0\ncontains 1: 0\ncounts: 3 3 1 1 0\n",
    },
    Case {
        shows: "rounds go clockwise from the smallest",
        folder: Folder {
            nodes: "node_id,containing_face\n1,\n2,\n",
            edges: "edge_id,start_node,end_node,next_left_edge,next_right_edge,left_face,right_face\n\
            1,1,2,-3,2,0,1\n2,1,2,-1,3,1,2\n3,1,2,-2,1,2,0\n",
            faces: Some("face_id\n1\n2\n"),
        },
        script: b"node 1\nnode 2\nring -3\n",
        status: Status::Done,
        out: "node 1: 1 2 3\nnode 2: -1 -3 -2\nring -3: -3 1\n",
    },
    Case {
        shows: "an isolated node and a closed edge in a face",
        folder: ISLE,
        script: b"face 1\nadjacent 1\nadjacent 1\nislands 1\nislands 2\nnode 5\nnode 4\nring -4\nsides 4\ncontains 4\ncontains 5\ncontains 6\nregions 1\ncommon 1 2\ncommon 1 9\ncounts\n",
        status: Status::Done,
        out: "face 1: 1 2 3 -4\nadjacent 1: 0 2\nadjacent 1: 0 2\nislands 1: -4\nislands 2: n5\nnode 5:\nnode 4: 4 -4\nring -4: -4\nsides 4: 2 1\ncontains 4: 1\ncontains 5: 2\ncontains 6: unknown\nregions 1:\ncommon 1 2:\ncommon 1 9: unknown\ncounts: 5 4 2 2 0\n",
    },
    Case {
        shows: "closed edges that are nested three deep, two of them in one face",
        folder: Folder {
            nodes: "node_id,containing_face\n1,\n2,\n3,\n4,\n5,3\n",
            edges: "edge_id,start_node,end_node,next_left_edge,next_right_edge,left_face,right_face\n\
            4,4,4,4,-4,4,1\n3,3,3,3,-3,3,2\n2,2,2,2,-2,2,1\n1,1,1,1,-1,1,0\n",
            faces: Some("face_id\n4\n3\n2\n1\n"),
        },
        script: b"contains 1\ncontains 2\ncontains 3\ncontains 4\ncontains 5\ncounts\n",
        status: Status::Done,
        out: "contains 1: 0\ncontains 2: 1\ncontains 3: 2\ncontains 4: 1\ncontains 5: 3\ncounts: 5 4 4 4 0\n",
    },
    Case {
        shows: "an edge with one face on both sides",
        folder: Folder {
            nodes: "node_id,containing_face\n1,\n2,\n",
            edges: "edge_id,start_node,end_node,next_left_edge,next_right_edge,left_face,right_face\n\
            1,1,2,-1,1,0,0\n",
            faces: Some("face_id\n"),
        },
        script: b"ring 1\nnode 2\nadjacent 0\n",
        status: Status::Done,
        out: "ring 1: 1 -1\nnode 2: -1\nadjacent 0:\n",
    },
    Case {
        shows: "a closed edge",
        folder: Folder {
            nodes: "node_id,containing_face\n1,\n",
            edges: "edge_id,start_node,end_node,next_left_edge,next_right_edge,left_face,right_face\n\
            1,1,1,1,-1,1,0\n",
            faces: Some("face_id\n1\n"),
        },
        script: b"ring 1\nnode 1\nface 0\n",
        status: Status::Done,
        out: "ring 1: 1\nnode 1: 1 -1\nface 0: -1\n",
    },
    Case {
        shows: "two triangles side by side",
        folder: Folder {
            nodes: "node_id,containing_face\n1,\n2,\n3,\n4,\n5,\n6,\n",
            edges: "edge_id,start_node,end_node,next_left_edge,next_right_edge,left_face,right_face\n\
            1,1,2,2,-3,1,0\n2,2,3,3,-1,1,0\n3,3,1,1,-2,1,0\n4,4,5,5,-6,2,0\n5,5,6,6,-4,2,0\n6,6,4,4,-5,2,0\n",
            faces: Some("face_id\n1\n2\n"),
        },
        script: b"ring -2\nnode 2\nface 0\nislands 0\ncounts\n",
        status: Status::Done,
        out: "ring -2: -2 -1 -3\nnode 2: -1 2\nface 0: -1 -3 -2 -4 -6 -5\nislands 0: -1 -4\ncounts: 6 6 2 2 0\n",
    },
    Case {
        shows: "tables without rows",
        folder: Folder {
            nodes: "node_id,containing_face\n",
            edges: "edge_id,start_node,end_node,next_left_edge,next_right_edge,left_face,right_face\n",
            faces: Some("face_id\n"),
        },
        script: b"contains 1\nface 0\ncounts\nislands 0\n",
        status: Status::Done,
        out: "contains 1: unknown\nface 0:\ncounts: 0 0 0 0 0\nislands 0:\n",
    },
    Case {
        shows: "the columns of edge_data, in another order, all in quotes, with CR LF",
        folder: Folder {
            edges: "\"geom\",\"right_face\",\"edge_id\",\"start_node\",\"end_node\",\"next_left_edge\",\"abs_next_left_edge\",\"next_right_edge\",\"abs_next_right_edge\",\"left_face\"\r\n\
            \"0102\",\"0\",\"1\",\"1\",\"2\",\"2\",\"2\",\"-3\",\"3\",\"1\"\r\n\
            \"0102\",\"0\",\"2\",\"2\",\"3\",\"3\",\"3\",\"-1\",\"1\",\"1\"\r\n\
            \"\",\"0\",\"3\",\"3\",\"1\",\"1\",\"1\",\"-2\",\"2\",\"1\"\r\n",
            faces: Some("mbr,face_id\r\n0103,0\r\n,1\r\n"),
            ..TRIANGLE
        },
        script: b"ring 1\nnode 1\nnode 2\nnode 3\nnext -1\nends -1\nsides 1\n",
        status: Status::Done,
        out: "ring 1: 1 2 3\nnode 1: 1 -3\nnode 2: -1 2\nnode 3: -2 3\nnext -1: -3\nends -1: 2 1\nsides 1: 1 0\n",
    },
    Case {
        shows: "lines that are no query, and a last line without a line feed",
        folder: TRIANGLE,
        script: b"\n# x\nnode 99\nnode x\nnode 0\naaaaaaaaaaaaaaaaaaaaaaaaaaaaaaaaaaaaaaaaaaaaaaaaaaaaaaaaaaaaaaaaaaaaaaaaaaaaaaaaaaaaaaaaaaaaaaaaaaaaaaaaaaaaaaaaaaaaaaaaaaaaaaaaaaaaaaaaaaaaaaaaaaaaaaaaaaaaaaaaaaaaaaaaaaaaaaaaaaaaaaaaaaaaaaaaaaaaaaaaaaaaaaaaaaaaaaaaaaaaaaaaaaaaaaaaaaaaaaaaaaaaaaaaaaaaaaaa\n\xff\nring 1 \nnext 1",
        status: Status::Done,
        out: "node 99: unknown\nbad\nbad\nlong\nbad\nbad\nnext 1: 2\n",
    },
    Case {
        shows: "an empty script",
        folder: TRIANGLE,
        script: b"",
        status: Status::Done,
        out: "",
    },
    Case {
        shows: "the greatest id",
        folder: Folder {
            nodes: "node_id,containing_face\n1,\n",
            edges: "edge_id,start_node,end_node,next_left_edge,next_right_edge,left_face,right_face\n\
            9223372036854775807,1,1,9223372036854775807,-9223372036854775807,1,0\n",
            ..TRIANGLE
        },
        script: b"ring -9223372036854775807\nring 9223372036854775808\n",
        status: Status::Done,
        out: "ring -9223372036854775807: -9223372036854775807\nbad\n",
    },
    Case {
        shows: "an id past 31 bits",
        folder: Folder {
            nodes: "node_id,containing_face\n1,\n",
            edges: "edge_id,start_node,end_node,next_left_edge,next_right_edge,left_face,right_face\n\
            2147483648,1,1,2147483648,-2147483648,1,0\n",
            ..TRIANGLE
        },
        script: b"ring -2147483648\n",
        status: Status::Done,
        out: "ring -2147483648: -2147483648\n",
    },
    Case {
        shows: "an id that is too great",
        folder: Folder {
            nodes: "node_id,containing_face\n1,\n",
            edges: "edge_id,start_node,end_node,next_left_edge,next_right_edge,left_face,right_face\n\
            9223372036854775808,1,1,1,-1,1,0\n",
            ..TRIANGLE
        },
        script: b"ring 1\n",
        status: Status::TablesRefused,
        out: "refused F4 table=edge row=1 column=edge_id\n",
    },
    Case {
        shows: "a missing column",
        folder: Folder {
            edges: "edge_id\n",
            ..TRIANGLE
        },
        script: b"ring 1\n",
        status: Status::TablesRefused,
        out: "refused F1 table=edge column=start_node\n",
    },
    Case {
        shows: "an empty end node",
        folder: Folder {
            edges: "edge_id,start_node,end_node,next_left_edge,next_right_edge,left_face,right_face\n\
            1,1,2,2,-3,1,0\n2,2,,3,-1,1,0\n",
            ..TRIANGLE
        },
        script: b"ring 1\n",
        status: Status::TablesRefused,
        out: "refused F5 table=edge row=2 column=end_node\n",
    },
    Case {
        shows: "two rows for a node",
        folder: Folder {
            nodes: "node_id,containing_face\n1,\n2,\n3,\n2,\n",
            ..TRIANGLE
        },
        script: b"ring 1\n",
        status: Status::TablesRefused,
        out: "refused F7 table=node id=2\n",
    },
    Case {
        shows: "two rows for an edge",
        folder: Folder {
            edges: "edge_id,start_node,end_node,next_left_edge,next_right_edge,left_face,right_face\n\
            1,1,2,2,-3,1,0\n2,2,3,3,-1,1,0\n2,3,1,1,-2,1,0\n",
            ..TRIANGLE
        },
        script: b"ring 1\n",
        status: Status::TablesRefused,
        out: "refused F7 table=edge id=2\n",
    },
    Case {
        shows: "a face without a row",
        folder: Folder {
            edges: "edge_id,start_node,end_node,next_left_edge,next_right_edge,left_face,right_face\n\
            1,1,2,2,-3,1,0\n2,2,3,3,-1,1,0\n3,3,1,1,-2,7,0\n",
            ..TRIANGLE
        },
        script: b"ring 1\n",
        status: Status::TablesRefused,
        out: "refused F10 table=edge id=3 face=7\n",
    },
    Case {
        shows: "a next that does not leave the head",
        folder: Folder {
            edges: "edge_id,start_node,end_node,next_left_edge,next_right_edge,left_face,right_face\n\
            1,1,2,3,-3,1,0\n2,2,3,3,-1,1,0\n3,3,1,1,-2,1,0\n",
            ..TRIANGLE
        },
        script: b"ring 1\n",
        status: Status::TablesRefused,
        out: "refused F11 edge=1 next=3\n",
    },
    Case {
        shows: "a signed edge that is the next of two",
        folder: Folder {
            nodes: "node_id,containing_face\n1,\n",
            edges: "edge_id,start_node,end_node,next_left_edge,next_right_edge,left_face,right_face\n\
            1,1,1,1,-1,0,0\n2,1,1,1,-2,0,0\n",
            ..TRIANGLE
        },
        script: b"ring 1\n",
        status: Status::TablesRefused,
        out: "refused F12 next=1\n",
    },
    Case {
        shows: "a node with two rounds",
        folder: Folder {
            nodes: "node_id,containing_face\n1,\n",
            edges: "edge_id,start_node,end_node,next_left_edge,next_right_edge,left_face,right_face\n\
            1,1,1,1,-1,0,0\n2,1,1,2,-2,0,0\n",
            ..TRIANGLE
        },
        script: b"ring 1\n",
        status: Status::TablesRefused,
        out: "refused F13 node=1\n",
    },
    Case {
        shows: "a node with edges that names a face",
        folder: Folder {
            nodes: "node_id,containing_face\n1,0\n2,\n3,\n",
            ..TRIANGLE
        },
        script: b"ring 1\n",
        status: Status::TablesRefused,
        out: "refused F14 node=1\n",
    },
    Case {
        shows: "a ring with one wrong side",
        folder: Folder {
            edges: "edge_id,start_node,end_node,next_left_edge,next_right_edge,left_face,right_face\n\
            1,1,2,2,-3,1,0\n2,2,3,3,-1,0,0\n3,3,1,1,-2,1,0\n",
            ..TRIANGLE
        },
        script: b"ring 1\n",
        status: Status::TablesRefused,
        out: "refused F15 edge=1 next=2\n",
    },
    Case {
        shows: "two closed edges that cross at their node",
        folder: Folder {
            nodes: "node_id,containing_face\n1,\n",
            edges: "edge_id,start_node,end_node,next_left_edge,next_right_edge,left_face,right_face\n\
            1,1,1,-2,2,0,0\n2,1,1,1,-1,0,0\n",
            ..TRIANGLE
        },
        script: b"ring 1\n",
        status: Status::TablesRefused,
        out: "refused F16 edge=1 nodes=1 edges=2 rings=1\n",
    },
    Case {
        shows: "a node that names a face, before a ring with two faces on a torus",
        folder: Folder {
            nodes: "node_id,containing_face\n1,1\n",
            edges: "edge_id,start_node,end_node,next_left_edge,next_right_edge,left_face,right_face\n\
            1,1,1,-2,2,0,0\n2,1,1,1,-1,0,1\n",
            ..TRIANGLE
        },
        script: b"ring 1\n",
        status: Status::TablesRefused,
        out: "refused F14 node=1\n",
    },
    Case {
        shows: "two closed edges that hold each other",
        folder: Folder {
            nodes: "node_id,containing_face\n1,\n2,\n",
            edges: "edge_id,start_node,end_node,next_left_edge,next_right_edge,left_face,right_face\n\
            1,1,1,1,-1,1,2\n2,2,2,2,-2,2,1\n",
            faces: Some("face_id\n1\n2\n"),
        },
        script: b"ring 1\n",
        status: Status::TablesRefused,
        out: "refused F18 edge=1\n",
    },
    Case {
        shows: "a face on no ring",
        folder: Folder {
            nodes: "node_id,containing_face\n1,\n",
            edges: "edge_id,start_node,end_node,next_left_edge,next_right_edge,left_face,right_face\n\
            1,1,1,1,-1,1,0\n",
            faces: Some("face_id\n1\n5\n"),
        },
        script: b"ring 1\n",
        status: Status::TablesRefused,
        out: "refused F19 face=5\n",
    },
    Case {
        shows: "a closed edge with one face on both sides",
        folder: Folder {
            nodes: "node_id,containing_face\n1,\n",
            edges: "edge_id,start_node,end_node,next_left_edge,next_right_edge,left_face,right_face\n\
            1,1,1,1,-1,0,0\n",
            faces: Some("face_id\n"),
        },
        script: b"ring 1\n",
        status: Status::TablesRefused,
        out: "refused F17 rings=2 faces=1 components=1\n",
    },
    Case {
        shows: "the node table is read before the face table is missed",
        folder: Folder {
            nodes: "node_id\n1\n",
            faces: None,
            ..TRIANGLE
        },
        script: b"ring 1\n",
        status: Status::TablesRefused,
        out: "refused F1 table=node column=containing_face\n",
    },
    Case {
        shows: "no face table",
        folder: Folder {
            faces: None,
            ..TRIANGLE
        },
        script: b"ring 1\n",
        status: Status::Missing,
        out: "missing maps/face.csv\n",
    },
];

/// The region and the member table of a folder, which may be missing, and what a script over it has to end in.
#[derive(Clone, Copy)]
struct RegionCase<'a> {
    regions: Option<&'a str>,
    members: Option<&'a str>,
    case: Case<'a>,
}

const REGION_CASES: [RegionCase<'static>; 15] = [
    RegionCase {
        regions: Some("region_id,parent\n1,\n2,1\n"),
        members: Some("region_id,face_id\n2,1\n1,2\n"),
        case: ISLE_WITH_REGIONS,
    },
    RegionCase {
        regions: Some("region_id,parent\n1,\n2,\n"),
        members: Some("region_id,face_id\n1,0\n2,1\n"),
        case: Case {
            shows: "two roots, one of them with face 0",
            folder: TRIANGLE,
            script: b"common 0 1\nregions 0\nregions 1\ncommon 0 0\ncounts\n",
            status: Status::Done,
            out: "common 0 1:\nregions 0: 1\nregions 1: 2\ncommon 0 0: 1\ncounts: 3 3 1 1 2\n",
        },
    },
    RegionCase {
        regions: Some("parent,name,region_id\n7,a,9223372036854775807\n,\"b, c\",7\n"),
        members: None,
        case: Case {
            shows: "regions without a member table, named with gaps",
            folder: TRIANGLE,
            script: b"regions 1\ncounts\n",
            status: Status::Done,
            out: "regions 1:\ncounts: 3 3 1 1 2\n",
        },
    },
    RegionCase {
        regions: Some("region_id,parent\n1,1\n"),
        members: None,
        case: Case {
            shows: "a region that is its own parent",
            folder: TRIANGLE,
            script: b"regions 1\n",
            status: Status::TablesRefused,
            out: "refused F21 region=1\n",
        },
    },
    RegionCase {
        regions: Some("region_id,parent\n1,2\n2,1\n"),
        members: Some("region_id,face_id\n2,1\n1,2\n"),
        case: Case {
            shows: "regions that are parents of each other",
            folder: ISLE,
            script: b"regions 1\n",
            status: Status::TablesRefused,
            out: "refused F21 region=1\n",
        },
    },
    RegionCase {
        regions: Some("region_id,parent\n1,\n1,\n"),
        members: None,
        case: Case {
            shows: "two rows for a region",
            folder: TRIANGLE,
            script: b"regions 1\n",
            status: Status::TablesRefused,
            out: "refused F7 table=region id=1\n",
        },
    },
    RegionCase {
        regions: Some("region_id,parent\n1,9\n"),
        members: None,
        case: Case {
            shows: "a parent without a row",
            folder: TRIANGLE,
            script: b"regions 1\n",
            status: Status::TablesRefused,
            out: "refused F20 table=region id=1 region=9\n",
        },
    },
    RegionCase {
        regions: None,
        members: Some("region_id,face_id\n1,1\n"),
        case: Case {
            shows: "a member of a region without a row, with no region table",
            folder: TRIANGLE,
            script: b"regions 1\n",
            status: Status::TablesRefused,
            out: "refused F20 table=member id=1 region=1\n",
        },
    },
    RegionCase {
        regions: Some("region_id,parent\n1,\n"),
        members: Some("region_id,face_id\n1,9\n"),
        case: Case {
            shows: "a member whose face has no row",
            folder: TRIANGLE,
            script: b"regions 1\n",
            status: Status::TablesRefused,
            out: "refused F10 table=member id=1 face=9\n",
        },
    },
    RegionCase {
        regions: Some("region_id,parent\n1,\n"),
        members: Some("region_id,face_id\n1,1\n1,1\n"),
        case: Case {
            shows: "a face that is a member twice",
            folder: TRIANGLE,
            script: b"regions 1\n",
            status: Status::TablesRefused,
            out: "refused F22 face=1\n",
        },
    },
    RegionCase {
        regions: Some("region_id,parent\n1,\n"),
        members: Some("region_id,face_id\n1,x\n"),
        case: Case {
            shows: "a face that is no number in the member table",
            folder: TRIANGLE,
            script: b"regions 1\n",
            status: Status::TablesRefused,
            out: "refused F4 table=member row=1 column=face_id\n",
        },
    },
    RegionCase {
        regions: Some("region_id\n"),
        members: Some("face_id\n"),
        case: Case {
            shows: "the region table is read before the member table",
            folder: TRIANGLE,
            script: b"regions 1\n",
            status: Status::TablesRefused,
            out: "refused F1 table=region column=parent\n",
        },
    },
    RegionCase {
        regions: Some("region_id,parent\n9223372036854775807,1\n1,\n"),
        members: Some("region_id,face_id\n9223372036854775807,9223372036854775807\n1,1\n"),
        case: Case {
            shows: "ids at both ends of the range, and past 31 bits",
            folder: WIDE,
            script: b"node 1\nnode 9223372036854775807\nring 1\nring -9223372036854775807\n\
            face 9223372036854775807\nadjacent 9223372036854775807\nislands 9223372036854775807\n\
            ends 9223372036854775807\nsides -9223372036854775807\nnext 9223372036854775807\n\
            contains 9223372036854775807\ncontains 2147483649\ncontains 2147483648\n\
            ring -2147483648\nregions 9223372036854775807\ncommon 1 9223372036854775807\n\
            node 9223372036854775806\nedge 1\nface 9223372036854775808\nring -9223372036854775808\ncounts\n",
            status: Status::Done,
            out: "node 1: 1 -9223372036854775807\n\
            node 9223372036854775807: -1 9223372036854775807\n\
            ring 1: 1 9223372036854775807\nring -9223372036854775807: -9223372036854775807 -1\n\
            face 9223372036854775807: 1 9223372036854775807 -2147483648\n\
            adjacent 9223372036854775807: 0 1\nislands 9223372036854775807: -2147483648 n2147483648\n\
            ends 9223372036854775807: 9223372036854775807 1\nsides -9223372036854775807: 0 9223372036854775807\n\
            next 9223372036854775807: 1\ncontains 9223372036854775807: 0\n\
            contains 2147483649: 9223372036854775807\ncontains 2147483648: 9223372036854775807\n\
            ring -2147483648: -2147483648\nregions 9223372036854775807: 9223372036854775807 1\n\
            common 1 9223372036854775807: 1\nnode 9223372036854775806: unknown\n\
            bad\nbad\nbad\ncounts: 4 3 2 2 2\n",
        },
    },
    RegionCase {
        regions: None,
        members: None,
        case: Case {
            shows: "a next without a row, at the end of the range",
            folder: Folder {
                edges: "edge_id,start_node,end_node,next_left_edge,next_right_edge,left_face,right_face\n\
            9223372036854775807,1,1,9223372036854775807,-9223372036854775806,1,0\n",
                ..TRIANGLE
            },
            script: b"ring 1\n",
            status: Status::TablesRefused,
            out: "refused F9 edge=9223372036854775807 next=-9223372036854775806\n",
        },
    },
    RegionCase {
        regions: None,
        members: Some("region_id,face_id\n9223372036854775807,9223372036854775807\n"),
        case: Case {
            shows: "a member of a region without a row, at the end of the range",
            folder: WIDE,
            script: b"ring 1\n",
            status: Status::TablesRefused,
            out: "refused F20 table=member id=9223372036854775807 region=9223372036854775807\n",
        },
    },
];

/// These words as strings.
fn strings(alloc: Global, words: &[&str]) -> Result<Vec<String>, AllocError> {
    let mut strings = Vec::new(alloc);
    for word in words {
        strings.push(String::from_str(alloc, word)?)?;
    }
    Ok(strings)
}

/// A run of these words over these objects.
fn run_words<H: Shelf, S: Source, K: Sink, L: Ledger>(
    alloc: Global,
    words: &[&str],
    shelf: &mut H,
    script: &mut S,
    out: &mut K,
    steps: &mut Steps<L>,
) -> Result<Status, AllocError> {
    let words = strings(alloc, words)?;
    Ok(run(alloc, &words, shelf, script, out, steps))
}

/// A shelf that holds a folder's tables under `maps`.
fn shelf_of<'a>(
    alloc: Global,
    folder: &Folder<'_>,
    failing: &'a [u64],
) -> Result<MemoryShelf<'a>, Fail> {
    let mut shelf = MemoryShelf::new(alloc, failing);
    shelf.add("maps/node.csv", folder.nodes.as_bytes())?;
    shelf.add("maps/edge.csv", folder.edges.as_bytes())?;
    if let Some(faces) = folder.faces {
        shelf.add("maps/face.csv", faces.as_bytes())?;
    }
    Ok(shelf)
}

/// The same with the region and the member table.
fn shelf_with_regions(alloc: Global, case: &RegionCase<'_>) -> Result<MemoryShelf<'static>, Fail> {
    let mut shelf = shelf_of(alloc, &case.case.folder, &[])?;
    if let Some(regions) = case.regions {
        shelf.add("maps/region.csv", regions.as_bytes())?;
    }
    if let Some(members) = case.members {
        shelf.add("maps/member.csv", members.as_bytes())?;
    }
    Ok(shelf)
}

/// Whether these words, over the shelf and the script of a case, end as it has to.
fn answers_well<L: Ledger>(
    alloc: Global,
    words: &[&str],
    case: &Case<'_>,
    shelf: &mut MemoryShelf<'_>,
    steps: &mut Steps<L>,
) -> Result<bool, Fail> {
    let mut script = MemorySource::new(case.script, 7, &[]);
    let mut out = MemorySink::new(alloc, &[]);
    let status = run_words(alloc, words, shelf, &mut script, &mut out, steps)?;
    Ok(status == case.status && out.bytes() == case.out.as_bytes())
}

/// Builds the folder into a file.
fn build<L: Ledger>(
    alloc: Global,
    shelf: &mut MemoryShelf<'_>,
    steps: &mut Steps<L>,
) -> Result<Status, Fail> {
    let mut script = MemorySource::new(b"", 1, &[]);
    let mut out = MemorySink::new(alloc, &[]);
    let words = ["build", "maps", "map.pemb"];
    Ok(run_words(alloc, &words, shelf, &mut script, &mut out, steps)?)
}

/// Whether a case ends as it has to, from the tables and from the file that is built of them.
fn ends_well<L: Ledger>(
    alloc: Global,
    case: &Case<'_>,
    shelf: &mut MemoryShelf<'_>,
    steps: &mut Steps<L>,
) -> Result<bool, Fail> {
    let asked = answers_well(alloc, &["ask", "maps"], case, shelf, steps)?;
    if build(alloc, shelf, steps)? != case.status {
        return Ok(false);
    }
    if case.status != Status::Done {
        return Ok(asked);
    }
    let words = ["query", "map.pemb"];
    Ok(asked && answers_well(alloc, &words, case, shelf, steps)?)
}

/// What the first case shows that doesn't end as it has to.
fn first_wrong<L: Ledger>(alloc: Global, blank: Blank) -> Result<Option<&'static str>, Fail>
    requires name { blank.name ≡ L.name }
    requires parts { blank.parts ≡ L.parts }
    requires some { 0 < blank.parts }
{
    let mut steps = Steps::<L>::new(alloc, blank);
    for case in &CASES {
        let mut shelf = shelf_of(alloc, &case.folder, &[])?;
        if !ends_well(alloc, case, &mut shelf, &mut steps)? {
            return Ok(Some(case.shows));
        }
    }
    Ok(None)
}

#[test]
fn scripts_over_folders_end_as_they_have_to(rt: HostRuntime) -> Result<(), Fail> {
    let wrong = first_wrong::<Brand>(rt.alloc(), Blank::new(1))?;
    assert_eq!(rt; wrong, None);
    Ok(())
}

/// What the first case of regions shows that doesn't end as it has to.
fn first_wrong_region<L: Ledger>(alloc: Global, blank: Blank) -> Result<Option<&'static str>, Fail>
    requires name { blank.name ≡ L.name }
    requires parts { blank.parts ≡ L.parts }
    requires some { 0 < blank.parts }
{
    let mut steps = Steps::<L>::new(alloc, blank);
    for case in &REGION_CASES {
        let mut shelf = shelf_with_regions(alloc, case)?;
        if !ends_well(alloc, &case.case, &mut shelf, &mut steps)? {
            return Ok(Some(case.case.shows));
        }
    }
    Ok(None)
}

#[test]
fn regions_are_read_and_answered(rt: HostRuntime) -> Result<(), Fail> {
    let wrong = first_wrong_region::<Brand>(rt.alloc(), Blank::new(1))?;
    assert_eq!(rt; wrong, None);
    Ok(())
}

/// The tables of 1,000 closed edges side by side in face 0, and of 1,000 regions.
#[derive(Drop)]
struct ManyRegions {
    nodes: String,
    edges: String,
    faces: String,
    regions: String,
    members: String,
}

/// The id of a region: no two from 1 to 1,000 have the same.
fn region_id(number: u32) -> u32
    requires { number ≤ 1000 }
{
    number * 617 % 1009
}

/// The parent of region k is region k / 10.
fn region_row(alloc: Global, k: u32) -> Result<String, AllocError>
    requires { k ≤ 1000 }
{
    let region = region_id(k);
    if k < 10 {
        return format!(in alloc; "{region},\n");
    }
    let parent = region_id(k / 10);
    format!(in alloc; "{region},{parent}\n")
}

/// Some region that face k is in.
fn member_row(alloc: Global, k: u32) -> Result<String, AllocError>
    requires { k ≤ 1000 }
{
    let region = region_id(k * 391 % 1000 + 1);
    format!(in alloc; "{region},{k}\n")
}

fn add_row(table: &mut String, row: Result<String, AllocError>) -> Result<(), AllocError> {
    table.push_str(row?.as_str())
}

/// Tables of one face that is in a region.
fn one_member(alloc: Global) -> Result<ManyRegions, AllocError> {
    Ok(ManyRegions {
        nodes: String::from_str(alloc, "node_id,containing_face\n")?,
        edges: String::from_str(
            alloc,
            "edge_id,start_node,end_node,next_left_edge,next_right_edge,left_face,right_face\n",
        )?,
        faces: String::from_str(alloc, "face_id\n")?,
        regions: String::from_str(alloc, "region_id,parent\n")?,
        members: String::from_str(alloc, "region_id,face_id\n631,0\n")?,
    })
}

/// Edge k goes round face k. Most faces are in a region.
fn add_rows(alloc: Global, tables: &mut ManyRegions, k: u32) -> Result<(), AllocError>
    requires { k ≤ 1000 }
{
    add_row(&mut tables.nodes, format!(in alloc; "{k},\n"))?;
    add_row(
        &mut tables.edges,
        format!(in alloc; "{k},{k},{k},{k},-{k},{k},0\n"),
    )?;
    add_row(&mut tables.faces, format!(in alloc; "{k}\n"))?;
    add_row(&mut tables.regions, region_row(alloc, k))?;
    if k % 11 != 0 {
        add_row(&mut tables.members, member_row(alloc, k))?;
    }
    Ok(())
}

fn many_regions(alloc: Global) -> Result<ManyRegions, AllocError> {
    let mut tables = one_member(alloc)?;
    for k in 1..1001 {
        add_rows(alloc, &mut tables, k)?;
    }
    Ok(tables)
}

/// Whether a map of many regions is answered as it has to be.
fn answers_many_regions<L: Ledger>(alloc: Global, blank: Blank) -> Result<bool, Fail>
    requires name { blank.name ≡ L.name }
    requires parts { blank.parts ≡ L.parts }
    requires some { 0 < blank.parts }
{
    let tables = many_regions(alloc)?;
    let case = RegionCase {
        regions: Some(tables.regions.as_str()),
        members: Some(tables.members.as_str()),
        case: Case {
            shows: "many regions",
            folder: Folder {
                nodes: tables.nodes.as_str(),
                edges: tables.edges.as_str(),
                faces: Some(tables.faces.as_str()),
            },
            script: b"regions 0\nregions 1\nregions 11\nregions 500\nregions 999\nregions 1000\nregions 289\n\
            regions 1001\ncommon 133 284\ncommon 844 266\ncommon 596 0\ncommon 1000 289\ncommon 952 642\n\
            common 386 545\ncommon 125 606\ncommon 592 881\ncommon 289 389\ncommon 289 100\ncommon 289 821\n\
            common 0 0\ncommon 11 1\ncommon 500 1001\ncounts\n",
            status: Status::Done,
            out: "regions 0: 631 842\nregions 1: 713 856 842\nregions 11:\nregions 500: 363 580 58\n\
            regions 999: 13 304 675\nregions 1000: 617\nregions 289: 501 151 116 617\nregions 1001: unknown\n\
            common 133 284: 450\ncommon 844 266:\ncommon 596 0: 631\ncommon 1000 289: 617\ncommon 952 642: 65\n\
            common 386 545: 508\ncommon 125 606:\ncommon 592 881: 747\ncommon 289 389: 151\n\
            common 289 100: 116\ncommon 289 821: 617\ncommon 0 0: 631\ncommon 11 1:\ncommon 500 1001: unknown\n\
            counts: 1000 1000 1000 1000 1000\n",
        },
    };
    let mut shelf = shelf_with_regions(alloc, &case)?;
    let mut steps = Steps::<L>::new(alloc, blank);
    ends_well(alloc, &case.case, &mut shelf, &mut steps)
}

#[test]
fn many_regions_are_answered(rt: HostRuntime) -> Result<(), Fail> {
    assert!(rt; answers_many_regions::<Brand>(rt.alloc(), Blank::new(1))?);
    Ok(())
}

/// How a run over the triangle ends whose shelf, script or output fails at some call, and how much it wrote.
fn ends_failing<L: Ledger>(
    alloc: Global,
    shelf: &[u64],
    script: &[u64],
    out: &[u64],
    blank: Blank,
) -> Result<(Status, usize), Fail>
    requires name { blank.name ≡ L.name }
    requires parts { blank.parts ≡ L.parts }
    requires some { 0 < blank.parts }
{
    let mut shelf = shelf_of(alloc, &TRIANGLE, shelf)?;
    let mut script = MemorySource::new(b"ring 1\nring 2\n", 7, script);
    let mut out = MemorySink::new(alloc, out);
    let mut steps = Steps::<L>::new(alloc, blank);
    let words = ["ask", "maps"];
    let status = run_words(alloc, &words, &mut shelf, &mut script, &mut out, &mut steps)?;
    Ok((status, out.bytes().len()))
}

#[test]
fn faults_of_the_outside_end_the_run(rt: HostRuntime) -> Result<(), Fail> {
    let alloc = rt.alloc();
    let shelf = ends_failing::<Brand>(alloc, &[4], &[], &[], Blank::new(1))?;
    assert_eq!(rt; shelf, (Status::ReadFault, 0));
    let script = ends_failing::<Brand>(alloc, &[], &[2], &[], Blank::new(1))?;
    assert_eq!(rt; script, (Status::ReadFault, 14));
    let out = ends_failing::<Brand>(alloc, &[], &[], &[1], Blank::new(1))?;
    assert_eq!(rt; out, (Status::WriteFault, 7));
    Ok(())
}

const FOLDER: &str = "topo_cli_test_folder";

/// The tables of the triangle in a region, in that folder.
const IN_REGION: [(&str, &str); 5] = [
    ("topo_cli_test_folder/node.csv", TRIANGLE_NODES),
    ("topo_cli_test_folder/edge.csv", TRIANGLE_EDGES),
    ("topo_cli_test_folder/face.csv", "face_id\n0\n1\n"),
    ("topo_cli_test_folder/region.csv", "region_id,parent\n1,\n"),
    (
        "topo_cli_test_folder/member.csv",
        "region_id,face_id\n1,1\n",
    ),
];

/// Writes these texts under these paths of the system.
fn write_files(rt: &HostRuntime, files: &[(&str, &str)]) -> Result<(), Fail> {
    for &(path, text) in files {
        fs::write(rt, path, text)?;
    }
    Ok(())
}

/// The triangle's answer from a folder of the system.
fn answers_from_files<L: Ledger>(rt: &HostRuntime, blank: Blank) -> Result<(Status, Vec<u8>), Fail>
    requires name { blank.name ≡ L.name }
    requires parts { blank.parts ≡ L.parts }
    requires some { 0 < blank.parts }
{
    let mut shelf = FileShelf::new(rt);
    let mut script = StdSource::new(b"ring 1\nring -2\nring 9\nface 1\nregions 1\n".as_slice());
    let mut out = StdSink::new(Vec::new(rt.alloc()));
    let mut steps = Steps::<L>::new(rt.alloc(), blank);
    let words = ["ask", FOLDER];
    let status = run_words(
        rt.alloc(),
        &words,
        &mut shelf,
        &mut script,
        &mut out,
        &mut steps,
    )?;
    Ok((status, out.into_inner()))
}

#[test]
fn files_of_the_system_are_answered(rt: HostRuntime) -> Result<(), Fail> {
    let _ = fs::remove_dir_all(&rt, FOLDER);
    fs::create_dir(&rt, FOLDER)?;
    write_files(&rt, &IN_REGION)?;
    let (status, out) = answers_from_files::<Brand>(&rt, Blank::new(1))?;
    fs::remove_dir_all(&rt, FOLDER)?;
    let wanted =
        b"ring 1: 1 2 3\nring -2: -2 -1 -3\nring 9: unknown\nface 1: 1 2 3\nregions 1: 1\n";
    assert_eq!(rt; (status, out.as_slice()), (Status::Done, wanted.as_slice()));
    Ok(())
}

/// A run of these words over a script that can't be read.
fn run_unasked<H: Shelf, K: Sink, L: Ledger>(
    alloc: Global,
    words: &[&str],
    shelf: &mut H,
    out: &mut K,
    steps: &mut Steps<L>,
) -> Result<Status, AllocError> {
    let mut script = MemorySource::new(b"ring 1\n", 7, &[1]);
    run_words(alloc, words, shelf, &mut script, out, steps)
}

/// A build of the triangle's folder into `map.pemb`.
const BUILD: [&str; 3] = ["build", "maps", "map.pemb"];

/// An upgrade of the triangle's file in form 1, and one of that file in place.
const UPGRADE: [&str; 3] = ["upgrade", "old.pemb", "map.pemb"];

const UPGRADE_IN_PLACE: [&str; 3] = ["upgrade", "old.pemb", "old.pemb"];

/// The calls that fail while the triangle's file is written, and how that has to end: `held` is how many bytes of the
/// image stand in the file, which may be missing, or of the file in form 1 where that was not replaced.
#[derive(Clone, Copy)]
struct BuildCase {
    shows: &'static str,
    words: [&'static str; 3],
    shelf: &'static [u64],
    sink: &'static [u64],
    status: Status,
    out: &'static str,
    held: Option<usize>,
}

const BUILDS: [BuildCase; 20] = [
    BuildCase {
        shows: "a build",
        words: BUILD,
        shelf: &[],
        sink: &[],
        status: Status::Done,
        out: "built 3 3 1 1 0\n",
        held: Some(432),
    },
    BuildCase {
        shows: "a build whose line is written in part",
        words: BUILD,
        shelf: &[],
        sink: &[1],
        status: Status::WriteFault,
        out: "built 3 ",
        held: Some(432),
    },
    BuildCase {
        shows: "a failing first read of the node table",
        words: BUILD,
        shelf: &[1],
        sink: &[],
        status: Status::ReadFault,
        out: "",
        held: None,
    },
    BuildCase {
        shows: "a failing second read of the node table",
        words: BUILD,
        shelf: &[2],
        sink: &[],
        status: Status::ReadFault,
        out: "",
        held: None,
    },
    BuildCase {
        shows: "a failing first read of the edge table",
        words: BUILD,
        shelf: &[3],
        sink: &[],
        status: Status::ReadFault,
        out: "",
        held: None,
    },
    BuildCase {
        shows: "a failing second read of the edge table",
        words: BUILD,
        shelf: &[4],
        sink: &[],
        status: Status::ReadFault,
        out: "",
        held: None,
    },
    BuildCase {
        shows: "a failing first read of the face table",
        words: BUILD,
        shelf: &[5],
        sink: &[],
        status: Status::ReadFault,
        out: "",
        held: None,
    },
    BuildCase {
        shows: "a failing second read of the face table",
        words: BUILD,
        shelf: &[6],
        sink: &[],
        status: Status::ReadFault,
        out: "",
        held: None,
    },
    BuildCase {
        shows: "a failing read of the region table",
        words: BUILD,
        shelf: &[7],
        sink: &[],
        status: Status::ReadFault,
        out: "",
        held: None,
    },
    BuildCase {
        shows: "a failing read of the member table",
        words: BUILD,
        shelf: &[8],
        sink: &[],
        status: Status::ReadFault,
        out: "",
        held: None,
    },
    BuildCase {
        shows: "a failing start of the file",
        words: BUILD,
        shelf: &[9],
        sink: &[],
        status: Status::WriteFault,
        out: "",
        held: None,
    },
    BuildCase {
        shows: "an image that is written in part",
        words: BUILD,
        shelf: &[10],
        sink: &[],
        status: Status::WriteFault,
        out: "",
        held: Some(216),
    },
    BuildCase {
        shows: "a call that is not made",
        words: BUILD,
        shelf: &[11],
        sink: &[],
        status: Status::Done,
        out: "built 3 3 1 1 0\n",
        held: Some(432),
    },
    BuildCase {
        shows: "a failing second read of the old file",
        words: UPGRADE,
        shelf: &[2],
        sink: &[],
        status: Status::ReadFault,
        out: "",
        held: None,
    },
    BuildCase {
        shows: "a failing start of the new file",
        words: UPGRADE,
        shelf: &[3],
        sink: &[],
        status: Status::WriteFault,
        out: "",
        held: None,
    },
    BuildCase {
        shows: "an upgrade that is written in part",
        words: UPGRADE,
        shelf: &[4],
        sink: &[],
        status: Status::WriteFault,
        out: "",
        held: Some(216),
    },
    BuildCase {
        shows: "an upgrade",
        words: UPGRADE,
        shelf: &[5],
        sink: &[],
        status: Status::Done,
        out: "upgraded 3 3 1 1 0\n",
        held: Some(432),
    },
    BuildCase {
        shows: "a failing start of a file that is upgraded in place",
        words: UPGRADE_IN_PLACE,
        shelf: &[3],
        sink: &[],
        status: Status::WriteFault,
        out: "",
        held: Some(416),
    },
    BuildCase {
        shows: "an upgrade in place that is written in part",
        words: UPGRADE_IN_PLACE,
        shelf: &[4],
        sink: &[],
        status: Status::WriteFault,
        out: "",
        held: Some(216),
    },
    BuildCase {
        shows: "an upgrade in place whose line is written in part",
        words: UPGRADE_IN_PLACE,
        shelf: &[],
        sink: &[1],
        status: Status::WriteFault,
        out: "upgraded ",
        held: Some(432),
    },
];

/// Whether a file is missing, or holds so many bytes of the triangle's image, or of its file in form 1 where these are
/// all.
fn holds_front(alloc: Global, file: Option<&[u8]>, count: Option<usize>) -> Result<bool, Fail> {
    let image = bytes_of(alloc, &triangle())?;
    let old = bytes_of(alloc, &old_triangle())?;
    Ok(match (file, count) {
        (None, None) => true,
        (Some(bytes), Some(416)) => bytes == old.as_slice(),
        (Some(bytes), Some(count)) => bytes.len() == count && image.starts_with(bytes),
        _ => false,
    })
}

/// Whether a build or an upgrade of the triangle ends as it has to.
fn builds_well<L: Ledger>(
    alloc: Global,
    case: &BuildCase,
    steps: &mut Steps<L>,
) -> Result<bool, Fail> {
    let mut shelf = shelf_of(alloc, &TRIANGLE, case.shelf)?;
    shelf.add("old.pemb", &bytes_of(alloc, &old_triangle())?)?;
    let mut out = MemorySink::new(alloc, case.sink);
    let status = run_unasked(alloc, &case.words, &mut shelf, &mut out, steps)?;
    let held = holds_front(alloc, shelf.file(case.words[2]), case.held)?;
    Ok(held && status == case.status && out.bytes() == case.out.as_bytes())
}

/// A dump of the triangle's file.
const DUMP: [&str; 3] = ["dump", "old.pemb", "maps"];

/// What is told of it, and of the build of what it wrote.
const DUMPED_AND_BUILT: [Told; 2] = [
    Told {
        words: &DUMP,
        status: Status::Done,
        out: "dumped 3 3 1 1 0\n",
    },
    Told {
        words: &BUILD,
        status: Status::Done,
        out: "built 3 3 1 1 0\n",
    },
];

/// The tables that it writes.
const DUMPED: [(&str, &str); 5] = [
    ("maps/node.csv", TRIANGLE_NODES),
    ("maps/edge.csv", TRIANGLE_EDGES),
    ("maps/face.csv", "face_id\n1\n"),
    ("maps/region.csv", "region_id,parent\n"),
    ("maps/member.csv", "region_id,face_id\n"),
];

/// A shelf that holds the triangle's file in form 1.
fn shelf_of_old_file(alloc: Global, failing: &[u64]) -> Result<MemoryShelf<'_>, Fail> {
    let mut shelf = MemoryShelf::new(alloc, failing);
    shelf.add("old.pemb", &bytes_of(alloc, &old_triangle())?)?;
    Ok(shelf)
}

/// Whether a shelf holds these texts under these paths.
fn holds_files(shelf: &MemoryShelf<'_>, files: &[(&str, &str)]) -> bool {
    for &(path, text) in files {
        if shelf.file(path) != Some(text.as_bytes()) {
            return false;
        }
    }
    true
}

/// Whether a file holds a front of this text, and not all of it.
fn is_cut(file: Option<&[u8]>, text: &str) -> bool {
    match file {
        Some(part) => part.len() < text.len() && text.as_bytes().starts_with(part),
        None => false,
    }
}

/// Whether the triangle's tables are written as they were, and built into its file again.
fn dumps_well<L: Ledger>(alloc: Global, steps: &mut Steps<L>) -> Result<bool, Fail> {
    let mut shelf = shelf_of_old_file(alloc, &[])?;
    Ok(
        all_told_well(alloc, &DUMPED_AND_BUILT, &mut shelf, steps)?
            && holds_files(&shelf, &DUMPED)
            && holds_front(alloc, shelf.file("map.pemb"), Some(432))?,
    )
}

/// Whether a dump whose second table is written in part leaves the first one whole, and starts no third.
fn dumps_in_part<L: Ledger>(alloc: Global, steps: &mut Steps<L>) -> Result<bool, Fail> {
    let mut shelf = shelf_of_old_file(alloc, &[6])?;
    let told = Told {
        words: &DUMP,
        status: Status::WriteFault,
        out: "",
    };
    Ok(
        tells_well(alloc, &told, &mut shelf, steps)?
            && is_cut(shelf.file("maps/edge.csv"), TRIANGLE_EDGES)
            && holds_files(&shelf, &DUMPED[..1])
            && shelf.file("maps/face.csv").is_none(),
    )
}

/// What the first build shows that doesn't end as it has to.
fn first_wrong_build<L: Ledger>(alloc: Global, blank: Blank) -> Result<Option<&'static str>, Fail>
    requires name { blank.name ≡ L.name }
    requires parts { blank.parts ≡ L.parts }
    requires some { 0 < blank.parts }
{
    let mut steps = Steps::<L>::new(alloc, blank);
    for case in &BUILDS {
        if !builds_well(alloc, case, &mut steps)? {
            return Ok(Some(case.shows));
        }
    }
    if !dumps_well(alloc, &mut steps)? {
        return Ok(Some("tables that are dumped"));
    }
    if !dumps_in_part(alloc, &mut steps)? {
        return Ok(Some("tables that are dumped in part"));
    }
    Ok(None)
}

#[test]
fn builds_end_as_they_have_to(rt: HostRuntime) -> Result<(), Fail> {
    let wrong = first_wrong_build::<Brand>(rt.alloc(), Blank::new(1))?;
    assert_eq!(rt; wrong, None);
    Ok(())
}

/// A triangle's file with some words changed and its end cut off, and what `check` has to tell of it.
#[derive(Clone, Copy)]
struct FileCase {
    shows: &'static str,
    changes: &'static [(usize, u64)],
    bytes: usize,
    status: Status,
    out: &'static str,
}

const OLD_FILES: [FileCase; 21] = [
    FileCase {
        shows: "the file of the triangle in form 1",
        changes: &[],
        bytes: 416,
        status: Status::Done,
        out: "lawful 3 3 1 1 0\n",
    },
    FileCase {
        shows: "a byte less than 35 words",
        changes: &[],
        bytes: 279,
        status: Status::FileRefused,
        out: "refused G1 bytes=279\n",
    },
    FileCase {
        shows: "ten words",
        changes: &[],
        bytes: 80,
        status: Status::FileRefused,
        out: "refused G2 words=10\n",
    },
    FileCase {
        shows: "eleven words",
        changes: &[],
        bytes: 88,
        status: Status::FileRefused,
        out: "refused G4 want=15 have=11\n",
    },
    FileCase {
        shows: "all words of the header but the last",
        changes: &[],
        bytes: 112,
        status: Status::FileRefused,
        out: "refused G4 want=15 have=14\n",
    },
    FileCase {
        shows: "the header alone",
        changes: &[],
        bytes: 120,
        status: Status::FileRefused,
        out: "refused G4 want=52 have=15\n",
    },
    FileCase {
        shows: "all words but the last",
        changes: &[],
        bytes: 408,
        status: Status::FileRefused,
        out: "refused G4 want=52 have=51\n",
    },
    FileCase {
        shows: "form 0",
        changes: &[(1, 0)],
        bytes: 416,
        status: Status::FileRefused,
        out: "refused G3 form=0\n",
    },
    FileCase {
        shows: "form 3",
        changes: &[(1, 3)],
        bytes: 416,
        status: Status::FileRefused,
        out: "refused G3 form=3\n",
    },
    FileCase {
        shows: "the words of form 1 as form 2",
        changes: &[(1, 2)],
        bytes: 416,
        status: Status::FileRefused,
        out: "refused G4 want=54 have=52\n",
    },
    FileCase {
        shows: "as many edges as a word can tell",
        changes: &[(6, 18446744073709551615)],
        bytes: 416,
        status: Status::FileRefused,
        out: "refused G4 want=50188114247416807456 have=52\n",
    },
    FileCase {
        shows: "a code with the old digest",
        changes: &[(17, 6)],
        bytes: 416,
        status: Status::FileRefused,
        out: "refused G5 at=0\n",
    },
    FileCase {
        shows: "a code with one edge fewer in its tree",
        changes: &[
            (2, 0x768b3e1b2e2ab965),
            (3, 0x086aa9f1e9105289),
            (4, 0xc51f5f6f0dd233b6),
            (5, 0x8e749feeb6ec87fd),
            (15, 26),
        ],
        bytes: 416,
        status: Status::FileRefused,
        out: "refused G7 ones found=3\n",
    },
    FileCase {
        shows: "a tree that closes before it opens",
        changes: &[
            (2, 0xec404f8fff7e3b70),
            (3, 0x06151949de7e8ecc),
            (4, 0x5b8181c96a038692),
            (5, 0x618f938c47651412),
            (17, 6),
        ],
        bytes: 416,
        status: Status::FileRefused,
        out: "refused G7 tree component=0\n",
    },
    FileCase {
        shows: "a wrong count",
        changes: &[
            (2, 0xc9c588e2319aabb5),
            (3, 0x328a2292425649c0),
            (4, 0x8e1c88b00ed4ecb5),
            (5, 0xb0e12726fee2f097),
            (16, 21474836480),
        ],
        bytes: 416,
        status: Status::FileRefused,
        out: "refused G8 section=2 at=1 want=4 found=5\n",
    },
    FileCase {
        shows: "a node with the id 0",
        changes: &[
            (2, 0xeab2f6eaa9fa12e9),
            (3, 0xcbb4dc7da5f512c6),
            (4, 0x557d4db886a07743),
            (5, 0x5bb4096b52b235be),
            (27, 864691129528877056),
        ],
        bytes: 416,
        status: Status::FileRefused,
        out: "refused G9 section=33 at=0\n",
    },
    FileCase {
        shows: "an order of nodes that names one twice",
        changes: &[
            (2, 0x7618432905950eae),
            (3, 0x181e1bdd27628d42),
            (4, 0xfa9ad40a7fd9ba02),
            (5, 0xa5de6232ee3deb8c),
            (29, 32),
        ],
        bytes: 416,
        status: Status::FileRefused,
        out: "refused G9 section=34 at=1\n",
    },
    FileCase {
        shows: "an outer component in a face",
        changes: &[
            (2, 0xc5ae8cd249f61673),
            (3, 0xe0a48320e9e57073),
            (4, 0x2cf4dcd8d15cb0c3),
            (5, 0x009407b9226c8d21),
            (45, 1),
        ],
        bytes: 416,
        status: Status::FileRefused,
        out: "refused G10 section=17 at=0\n",
    },
    FileCase {
        shows: "a component that starts at another edge",
        changes: &[
            (2, 0xa3507c94dbc9dd26),
            (3, 0x0406e0f23c6dd264),
            (4, 0x726c2f086784d56e),
            (5, 0x2ae9e4886c5f2321),
            (17, 5),
        ],
        bytes: 416,
        status: Status::FileRefused,
        out: "refused G11 component=0\n",
    },
    FileCase {
        shows: "a bit past the end of the code",
        changes: &[
            (2, 0xe4d808ec748812f8),
            (3, 0x0eb91854834a734f),
            (4, 0x4d00150a6d408e9f),
            (5, 0x80cad0e97fe2cb0a),
            (15, 91),
        ],
        bytes: 416,
        status: Status::FileRefused,
        out: "refused G13 word=15\n",
    },
    FileCase {
        shows: "a node whose id has 32 bits",
        changes: &[
            (2, 0xb28310deec3feae1),
            (3, 0xa0e5fc15b3973cac),
            (4, 0x0f50c8ce982f056a),
            (5, 0x612229f56c102b71),
            (25, 67),
        ],
        bytes: 416,
        status: Status::FileRefused,
        out: "refused G9 section=33 at=2\n",
    },
];

/// The number of the refusal of the triangle's file in form 1 with the lowest bit of one word flipped, by that word.
const OLD_FLIPPED: &str = "2355554444444445555555555555555555555555555555555555";

const FILES: [FileCase; 9] = [
    FileCase {
        shows: "the image of the triangle",
        changes: &[],
        bytes: 432,
        status: Status::Done,
        out: "lawful 3 3 1 1 0\n",
    },
    FileCase {
        shows: "a byte less",
        changes: &[],
        bytes: 431,
        status: Status::FileRefused,
        out: "refused G1 bytes=431\n",
    },
    FileCase {
        shows: "all words but the last",
        changes: &[],
        bytes: 424,
        status: Status::FileRefused,
        out: "refused G4 want=54 have=53\n",
    },
    FileCase {
        shows: "form 3",
        changes: &[(1, 3)],
        bytes: 432,
        status: Status::FileRefused,
        out: "refused G3 form=3\n",
    },
    FileCase {
        shows: "the words of form 2 as form 1",
        changes: &[(1, 1)],
        bytes: 432,
        status: Status::FileRefused,
        out: "refused G4 want=52 have=54\n",
    },
    FileCase {
        shows: "as many edges as a word can tell",
        changes: &[(6, 18446744073709551615)],
        bytes: 432,
        status: Status::FileRefused,
        out: "refused G4 want=50188114247416807457 have=54\n",
    },
    FileCase {
        shows: "a node with the id 0",
        changes: &[
            (2, 0xed8d3d96eca0da0d),
            (3, 0xfef78902e6cb25a6),
            (4, 0xbbadb2cfb605aa11),
            (5, 0x0c8d265e86e1faf4),
            (27, 4611686018427387904),
        ],
        bytes: 432,
        status: Status::FileRefused,
        out: "refused G9 section=33 at=0\n",
    },
    FileCase {
        shows: "a node whose id has 64 bits",
        changes: &[
            (2, 0x62beb3e768d354d1),
            (3, 0x60b8728d2fce9093),
            (4, 0xb7b9953a3b21789c),
            (5, 0xdf031bf19d498e53),
            (25, 67),
        ],
        bytes: 432,
        status: Status::FileRefused,
        out: "refused G9 section=33 at=2\n",
    },
    FileCase {
        shows: "an order of nodes that names one twice",
        changes: &[
            (2, 0x6a73a07ccad0b24f),
            (3, 0xeed242dbbac6f865),
            (4, 0xb41939cf86f01f6a),
            (5, 0x34009fda13d58148),
            (30, 32),
        ],
        bytes: 432,
        status: Status::FileRefused,
        out: "refused G9 section=34 at=1\n",
    },
];

/// The same of its image.
const FLIPPED: &str = "235555444444444555555555555555555555555555555555555555";

/// The bytes of these words, some of them changed.
fn changed_bytes(alloc: Global, image: &[u64], changes: &[(usize, u64)]) -> Result<Vec<u8>, Fail> {
    let mut words = Vec::new(alloc);
    words.extend_from_slice(image)?;
    for &(at, word) in changes {
        if at < words.len() {
            words[at] = word;
        }
    }
    Ok(bytes_of(alloc, &words)?)
}

/// How `check` ends of a file of these bytes, and what it tells.
fn checked<L: Ledger>(
    alloc: Global,
    bytes: &[u8],
    steps: &mut Steps<L>,
) -> Result<(Status, Vec<u8>), Fail> {
    let mut shelf = MemoryShelf::new(alloc, &[]);
    shelf.add("map.pemb", bytes)?;
    let mut out = MemorySink::new(alloc, &[]);
    let status = run_unasked(alloc, &["check", "map.pemb"], &mut shelf, &mut out, steps)?;
    let mut told = Vec::new(alloc);
    told.extend_from_slice(out.bytes())?;
    Ok((status, told))
}

/// Whether `check` tells of a file what it has to.
fn checks_well<L: Ledger>(
    alloc: Global,
    image: &[u64],
    case: &FileCase,
    steps: &mut Steps<L>,
) -> Result<bool, Fail> {
    let mut bytes = changed_bytes(alloc, image, case.changes)?;
    bytes.truncate(case.bytes);
    let (status, told) = checked(alloc, &bytes, steps)?;
    Ok(status == case.status && told.as_slice() == case.out.as_bytes())
}

/// Whether a file with the lowest bit of one word flipped is refused with the number of that word, each by itself.
fn flips_well<L: Ledger>(
    alloc: Global,
    image: &[u64],
    numbers: &str,
    steps: &mut Steps<L>,
) -> Result<bool, Fail> {
    for (at, &number) in numbers.as_bytes().iter().enumerate() {
        let word = image.get(at).copied().unwrap_or(0);
        let bytes = changed_bytes(alloc, image, &[(at, word ^ 1)])?;
        let (status, told) = checked(alloc, &bytes, steps)?;
        if status != Status::FileRefused || told.get(9) != Some(&number) {
            return Ok(false);
        }
    }
    Ok(true)
}

/// What the first file shows of which `check` tells something else.
fn first_wrong_check<L: Ledger>(
    alloc: Global,
    image: &[u64],
    files: &[FileCase],
    flipped: &str,
    blank: Blank,
) -> Result<Option<&'static str>, Fail>
    requires name { blank.name ≡ L.name }
    requires parts { blank.parts ≡ L.parts }
    requires some { 0 < blank.parts }
{
    let mut steps = Steps::<L>::new(alloc, blank);
    for case in files {
        if !checks_well(alloc, image, case, &mut steps)? {
            return Ok(Some(case.shows));
        }
    }
    if !flips_well(alloc, image, flipped, &mut steps)? {
        return Ok(Some("a flipped bit"));
    }
    Ok(None)
}

/// What a file of form 2 shows of which `check` tells something else.
fn first_wrong_file<L: Ledger>(alloc: Global, blank: Blank) -> Result<Option<&'static str>, Fail>
    requires name { blank.name ≡ L.name }
    requires parts { blank.parts ≡ L.parts }
    requires some { 0 < blank.parts }
{
    first_wrong_check::<L>(alloc, &triangle(), &FILES, FLIPPED, blank)
}

/// The same of a file of form 1.
fn first_wrong_old_file<L: Ledger>(
    alloc: Global,
    blank: Blank,
) -> Result<Option<&'static str>, Fail>
    requires name { blank.name ≡ L.name }
    requires parts { blank.parts ≡ L.parts }
    requires some { 0 < blank.parts }
{
    first_wrong_check::<L>(alloc, &old_triangle(), &OLD_FILES, OLD_FLIPPED, blank)
}

#[test]
fn files_are_checked(rt: HostRuntime) -> Result<(), Fail> {
    let wrong = first_wrong_file::<Brand>(rt.alloc(), Blank::new(1))?;
    assert_eq!(rt; wrong, None);
    Ok(())
}

#[test]
fn old_files_are_checked(rt: HostRuntime) -> Result<(), Fail> {
    let wrong = first_wrong_old_file::<Brand>(rt.alloc(), Blank::new(1))?;
    assert_eq!(rt; wrong, None);
    Ok(())
}

/// What words over the files of a shelf have to tell.
#[derive(Clone, Copy)]
struct Told {
    words: &'static [&'static str],
    status: Status,
    out: &'static str,
}

/// Walks and outlines in the island's file and in that of a grid, an upgrade of that file, its tables, the file of these,
/// and words that are of no form.
const TOLD: [Told; 24] = [
    Told {
        words: &["hops", "map.pemb", "0", "2"],
        status: Status::Done,
        out: "hops 0 2: 2 0 1 2\n",
    },
    Told {
        words: &["hops", "map.pemb", "1", "1"],
        status: Status::Done,
        out: "hops 1 1: 0 1\n",
    },
    Told {
        words: &["hops", "map.pemb", "0", "9"],
        status: Status::Done,
        out: "hops 0 9: unknown\n",
    },
    Told {
        words: &["hops", "map.pemb", "9", "0"],
        status: Status::Done,
        out: "hops 9 0: unknown\n",
    },
    Told {
        words: &["hops", "grid.pemb", "1", "16"],
        status: Status::Done,
        out: "hops 1 16: 2 1 0 16\n",
    },
    Told {
        words: &["hops", "no.pemb", "1", "1"],
        status: Status::Missing,
        out: "missing no.pemb\n",
    },
    Told {
        words: &["hops", "map.pemb", "0"],
        status: Status::Usage,
        out: "usage\n",
    },
    Told {
        words: &["hops", "map.pemb", "0", "-1"],
        status: Status::Usage,
        out: "usage\n",
    },
    Told {
        words: &["hops", "map.pemb", "00", "1"],
        status: Status::Usage,
        out: "usage\n",
    },
    Told {
        words: &["hops", "", "0", "1"],
        status: Status::Usage,
        out: "usage\n",
    },
    Told {
        words: &["hops", "map.pemb", "0", "1", "2"],
        status: Status::Usage,
        out: "usage\n",
    },
    Told {
        words: &["border", "map.pemb", "2"],
        status: Status::Done,
        out: "ring: 1 2 3\nring: -4\nborder 2: 2 4\n",
    },
    Told {
        words: &["border", "map.pemb", "1"],
        status: Status::Done,
        out: "ring: 1 2 3\nborder 1: 1 3\n",
    },
    Told {
        words: &["border", "map.pemb", "9"],
        status: Status::Done,
        out: "border 9: unknown\n",
    },
    Told {
        words: &["border", "no.pemb", "1"],
        status: Status::Missing,
        out: "missing no.pemb\n",
    },
    Told {
        words: &["border", "map.pemb", "0"],
        status: Status::Usage,
        out: "usage\n",
    },
    Told {
        words: &["border", "map.pemb"],
        status: Status::Usage,
        out: "usage\n",
    },
    Told {
        words: &["upgrade", "map.pemb"],
        status: Status::Usage,
        out: "usage\n",
    },
    Told {
        words: &["upgrade", "map.pemb", ""],
        status: Status::Usage,
        out: "usage\n",
    },
    Told {
        words: &["upgrade", "no.pemb", "new.pemb"],
        status: Status::Missing,
        out: "missing no.pemb\n",
    },
    Told {
        words: &["upgrade", "map.pemb", "new.pemb"],
        status: Status::Done,
        out: "upgraded 5 4 2 2 2\n",
    },
    Told {
        words: &["dump", "map.pemb", ""],
        status: Status::Usage,
        out: "usage\n",
    },
    Told {
        words: &["dump", "map.pemb", "maps"],
        status: Status::Done,
        out: "dumped 5 4 2 2 2\n",
    },
    Told {
        words: &["build", "maps", "again.pemb"],
        status: Status::Done,
        out: "built 5 4 2 2 2\n",
    },
];

/// Whether words over a shelf tell what they have to.
fn tells_well<L: Ledger>(
    alloc: Global,
    told: &Told,
    shelf: &mut MemoryShelf<'_>,
    steps: &mut Steps<L>,
) -> Result<bool, Fail> {
    let mut out = MemorySink::new(alloc, &[]);
    let status = run_unasked(alloc, told.words, shelf, &mut out, steps)?;
    Ok(status == told.status && out.bytes() == told.out.as_bytes())
}

/// Whether all of these words tell what they have to.
fn all_told_well<L: Ledger>(
    alloc: Global,
    all: &[Told],
    shelf: &mut MemoryShelf<'_>,
    steps: &mut Steps<L>,
) -> Result<bool, Fail> {
    for told in all {
        if !tells_well(alloc, told, shelf, steps)? {
            return Ok(false);
        }
    }
    Ok(true)
}

/// A shelf that holds the island's file in form 1, and that of a grid.
fn shelf_of_files(alloc: Global) -> Result<Option<MemoryShelf<'static>>, Fail> {
    let mut shelf = MemoryShelf::new(alloc, &[]);
    shelf.add("map.pemb", &bytes_of(alloc, &old_island())?)?;
    match grid_draft(alloc, 4) {
        Ok(draft) => shelf.add("grid.pemb", &draft.seal())?,
        Err(_) => return Ok(None),
    }
    Ok(Some(shelf))
}

/// Whether the file of the tables that were dumped is that of which they were dumped.
fn is_built_again(shelf: &MemoryShelf<'_>) -> bool {
    match (shelf.file("again.pemb"), shelf.file("new.pemb")) {
        (Some(again), Some(new)) => again == new,
        _ => false,
    }
}

/// Whether the island is answered as it has to be by each of these words.
fn answers_isle<L: Ledger>(
    alloc: Global,
    words: &[[&str; 2]],
    shelf: &mut MemoryShelf<'_>,
    steps: &mut Steps<L>,
) -> Result<bool, Fail> {
    for words in words {
        if !answers_well(alloc, words, &ISLE_WITH_REGIONS, shelf, steps)? {
            return Ok(false);
        }
    }
    Ok(true)
}

/// Whether the island's file in form 1 is answered as its tables are, walked as it has to be, and answered the same
/// once it is upgraded; and whether its tables are dumped, answered and built again.
fn answers_old_isle<L: Ledger>(alloc: Global, blank: Blank) -> Result<bool, Fail>
    requires name { blank.name ≡ L.name }
    requires parts { blank.parts ≡ L.parts }
    requires some { 0 < blank.parts }
{
    let Some(mut shelf) = shelf_of_files(alloc)? else {
        return Ok(false);
    };
    let mut steps = Steps::<L>::new(alloc, blank);
    let before = [["query", "map.pemb"]];
    let after = [["query", "new.pemb"], ["ask", "maps"]];
    Ok(
        answers_isle(alloc, &before, &mut shelf, &mut steps)?
            && all_told_well(alloc, &TOLD, &mut shelf, &mut steps)?
            && answers_isle(alloc, &after, &mut shelf, &mut steps)?
            && is_built_again(&shelf),
    )
}

#[test]
fn old_files_are_answered(rt: HostRuntime) -> Result<(), Fail> {
    assert!(rt; answers_old_isle::<Brand>(rt.alloc(), Blank::new(1))?);
    Ok(())
}

const BUILD_FOLDER: &str = "topo_cli_test_build";

const BUILT_FILE: &str = "topo_cli_test_build/map.pemb";

/// The tables of the triangle in that folder.
const ALONE: [(&str, &str); 3] = [
    ("topo_cli_test_build/node.csv", TRIANGLE_NODES),
    ("topo_cli_test_build/edge.csv", TRIANGLE_EDGES),
    ("topo_cli_test_build/face.csv", "face_id\n0\n1\n"),
];

/// How words over files of the system end, and what they tell.
fn told_of_files<L: Ledger>(
    rt: &HostRuntime,
    words: &[&str],
    steps: &mut Steps<L>,
) -> Result<(Status, Vec<u8>), Fail> {
    let mut shelf = FileShelf::new(rt);
    let mut out = StdSink::new(Vec::new(rt.alloc()));
    let status = run_unasked(rt.alloc(), words, &mut shelf, &mut out, steps)?;
    Ok((status, out.into_inner()))
}

/// Whether the triangle is built from a folder of the system into a file of the system, which is lawful.
fn built_and_checked<L: Ledger>(rt: &HostRuntime, blank: Blank) -> Result<bool, Fail>
    requires name { blank.name ≡ L.name }
    requires parts { blank.parts ≡ L.parts }
    requires some { 0 < blank.parts }
{
    let mut steps = Steps::<L>::new(rt.alloc(), blank);
    let (built, line) = told_of_files(rt, &["build", BUILD_FOLDER, BUILT_FILE], &mut steps)?;
    let (checked, lawful) = told_of_files(rt, &["check", BUILT_FILE], &mut steps)?;
    Ok(
        (built, checked) == (Status::Done, Status::Done)
            && line.as_slice() == b"built 3 3 1 1 0\n".as_slice()
            && lawful.as_slice() == b"lawful 3 3 1 1 0\n".as_slice(),
    )
}

#[test]
fn files_of_the_system_are_built_and_checked(rt: HostRuntime) -> Result<(), Fail> {
    let _ = fs::remove_dir_all(&rt, BUILD_FOLDER);
    fs::create_dir(&rt, BUILD_FOLDER)?;
    write_files(&rt, &ALONE)?;
    assert!(rt; built_and_checked::<Brand>(&rt, Blank::new(1))?);
    let image = fs::read(&rt, BUILT_FILE)?;
    fs::remove_dir_all(&rt, BUILD_FOLDER)?;
    assert!(rt; holds_front(rt.alloc(), Some(&image), Some(432))?);
    Ok(())
}

/// A run of `query` over the triangle's file whose script or output fails at some call: its status, and what it wrote.
fn queries_failing<L: Ledger>(
    alloc: Global,
    script: &[u64],
    out: &[u64],
    steps: &mut Steps<L>,
) -> Result<(Status, Vec<u8>), Fail> {
    let mut shelf = MemoryShelf::new(alloc, &[]);
    shelf.add("map.pemb", &bytes_of(alloc, &triangle())?)?;
    let mut script = MemorySource::new(b"node 1\nnode 2\nnode 3\n", 7, script);
    let mut out = MemorySink::new(alloc, out);
    let words = ["query", "map.pemb"];
    let status = run_words(alloc, &words, &mut shelf, &mut script, &mut out, steps)?;
    let mut bytes = Vec::new(alloc);
    bytes.extend_from_slice(out.bytes())?;
    Ok((status, bytes))
}

/// Whether the script's third call that fails leaves the first two answers.
fn keeps_answers_at_a_failed_read<L: Ledger>(
    alloc: Global,
    steps: &mut Steps<L>,
) -> Result<bool, Fail> {
    let (status, out) = queries_failing(alloc, &[3], &[], steps)?;
    Ok(status == Status::ReadFault && out.as_slice() == b"node 1: 1 -3\nnode 2: -1 2\n".as_slice())
}

/// Whether each failing write leaves a front of the answers, and a call that is not made all of them.
fn keeps_fronts_at_failed_writes<L: Ledger>(
    alloc: Global,
    steps: &mut Steps<L>,
) -> Result<bool, Fail> {
    let (status, all) = queries_failing(alloc, &[], &[4], steps)?;
    let mut fine = status == Status::Done
        && all.as_slice() == b"node 1: 1 -3\nnode 2: -1 2\nnode 3: -2 3\n".as_slice();
    for call in 1..4 {
        let (status, out) = queries_failing(alloc, &[], &[call], steps)?;
        fine = fine && status == Status::WriteFault && all.starts_with(&out);
    }
    Ok(fine)
}

/// Whether a file is queried as it has to be whose script or output fails.
fn fails_well<L: Ledger>(alloc: Global, blank: Blank) -> Result<bool, Fail>
    requires name { blank.name ≡ L.name }
    requires parts { blank.parts ≡ L.parts }
    requires some { 0 < blank.parts }
{
    let mut steps = Steps::<L>::new(alloc, blank);
    let reads = keeps_answers_at_a_failed_read(alloc, &mut steps)?;
    Ok(reads && keeps_fronts_at_failed_writes(alloc, &mut steps)?)
}

#[test]
fn queries_leave_fronts_of_answers(rt: HostRuntime) -> Result<(), Fail> {
    assert!(rt; fails_well::<Brand>(rt.alloc(), Blank::new(1))?);
    Ok(())
}

/// Sizes of grids, and what `trial` writes of them.
const TRIALS: [(&str, &str); 3] = [
    (
        "1",
        "trial 1\ncounts 4 4 1 1 0\nface 8\nnode 8\nadjacent 2\n",
    ),
    (
        "300",
        "trial 300\ncounts 111639 193457 102857 12858 0\nface 386914\nnode 386914\nadjacent 386906\n",
    ),
    ("1001", "usage\n"),
];

/// Whether `trial` writes this of the grid of a size.
fn tries<L: Ledger>(
    alloc: Global,
    size: &str,
    wanted: &str,
    steps: &mut Steps<L>,
) -> Result<bool, Fail> {
    let mut shelf = MemoryShelf::new(alloc, &[]);
    let mut out = MemorySink::new(alloc, &[]);
    let _status = run_unasked(alloc, &["trial", size], &mut shelf, &mut out, steps)?;
    Ok(out.bytes() == wanted.as_bytes())
}

/// Whether `trial` writes what it has to.
fn tries_well<L: Ledger>(alloc: Global, blank: Blank) -> Result<bool, Fail>
    requires name { blank.name ≡ L.name }
    requires parts { blank.parts ≡ L.parts }
    requires some { 0 < blank.parts }
{
    let mut steps = Steps::<L>::new(alloc, blank);
    for &(size, wanted) in &TRIALS {
        if !tries(alloc, size, wanted, &mut steps)? {
            return Ok(false);
        }
    }
    Ok(true)
}

#[test]
fn grids_are_tried(rt: HostRuntime) -> Result<(), Fail> {
    assert!(rt; tries_well::<Brand>(rt.alloc(), Blank::new(1))?);
    Ok(())
}
