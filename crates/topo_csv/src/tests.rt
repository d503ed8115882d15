//! Tables that are read, and the first wrong row of those that are not.

mod cut_tables;

use crate::{CsvFault, read_edges, read_faces, read_members, read_nodes, read_regions};
use plane_model::{EdgeRow, FaceRow, MemberRow, NodeRow, RegionRow};
use std::test::Fail;
use topo_base::{Column, Refusal, Table};

const TRIANGLE: [EdgeRow; 3] = [
    EdgeRow {
        id: 1,
        start: 1,
        end: 2,
        next_left: 2,
        next_right: -3,
        left_face: 1,
        right_face: 0,
    },
    EdgeRow {
        id: 2,
        start: 2,
        end: 3,
        next_left: 3,
        next_right: -1,
        left_face: 1,
        right_face: 0,
    },
    EdgeRow {
        id: 3,
        start: 3,
        end: 1,
        next_left: 1,
        next_right: -2,
        left_face: 1,
        right_face: 0,
    },
];

#[test]
fn spellings_of_one_edge_table_give_its_rows(rt: HostRuntime) -> Result<(), Fail> {
    let texts = [
        "edge_id,start_node,end_node,next_left_edge,next_right_edge,left_face,right_face\n1,1,2,2,-3,1,0\n2,2,3,3,-1,1,0\n3,3,1,1,-2,1,0\n",
        "edge_id,start_node,end_node,next_left_edge,next_right_edge,left_face,right_face\n1,1,2,2,-3,1,0\n2,2,3,3,-1,1,0\n3,3,1,1,-2,1,0",
        "edge_id,start_node,end_node,next_left_edge,next_right_edge,left_face,right_face\r\n1,1,2,2,-3,1,0\r\n2,2,3,3,-1,1,0\r\n3,3,1,1,-2,1,0\r\n",
        "edge_id,start_node,end_node,next_left_edge,next_right_edge,left_face,right_face\r1,1,2,2,-3,1,0\r2,2,3,3,-1,1,0\r3,3,1,1,-2,1,0\r",
        "\n\r\nedge_id,start_node,end_node,next_left_edge,next_right_edge,left_face,right_face\n\n1,1,2,2,-3,1,0\n\r\n\n2,2,3,3,-1,1,0\n3,3,1,1,-2,1,0\n\n",
        "\u{feff}edge_id,start_node,end_node,next_left_edge,next_right_edge,left_face,right_face\n1,1,2,2,-3,1,0\n2,2,3,3,-1,1,0\n3,3,1,1,-2,1,0\n",
        "\"edge_id\",start_node,end_node,next_left_edge,\"next_right_edge\",left_face,right_face\n\"1\",1,2,2,\"-3\",1,0\n2,2,3,3,-1,1,\"0\"\n3,3,1,1,-2,1,0\n",
        "right_face,name,left_face,next_right_edge,next_left_edge,end_node,start_node,edge_id\n0,\"a \"\"b\"\",\nc\",1,-3,2,2,1,1\n0,,1,-1,3,3,2,2\n0,x,1,-2,1,1,3,3\n",
        "edge_id,start_node,end_node,next_left_edge,abs_next_left_edge,next_right_edge,abs_next_right_edge,left_face,right_face,geom\n1,1,2,2,2,-3,3,1,0,0102000000020000000000000000000000\n2,2,3,3,3,-1,1,1,0,\n3,3,1,1,1,-2,2,1,0,0102000000020000000000000000001040\n",
    ];
    for text in texts {
        let rows = read_edges(rt.alloc(), text.as_bytes())?;
        assert_eq!(rt; rows.len(), TRIANGLE.len(), "{text}");
        for (place, row) in TRIANGLE.into_iter().enumerate() {
            assert_eq!(rt; rows.row(place), row, "{text}");
        }
    }
    Ok(())
}

#[test]
fn empty_fields_are_null_where_they_may_be(rt: HostRuntime) -> Result<(), Fail> {
    let nodes = read_nodes(
        rt.alloc(),
        b"node_id,containing_face,geom\n1,,0101\n9223372036854775807,0,\n7,2147483648,x\n",
    )?;
    let regions = read_regions(rt.alloc(), b"parent,region_id\n,1\n1,2\n\"\",3\n")?;
    let want_nodes = [
        NodeRow { id: 1, face: None },
        NodeRow {
            id: 9_223_372_036_854_775_807,
            face: Some(0),
        },
        NodeRow {
            id: 7,
            face: Some(2_147_483_648),
        },
    ];
    let want_regions = [
        RegionRow {
            id: 1,
            parent: None,
        },
        RegionRow {
            id: 2,
            parent: Some(1),
        },
        RegionRow {
            id: 3,
            parent: None,
        },
    ];
    assert_eq!(rt; nodes.len(), want_nodes.len());
    for (place, row) in want_nodes.into_iter().enumerate() {
        assert_eq!(rt; nodes.row(place), row);
    }
    assert_eq!(rt; regions.as_slice(), want_regions.as_slice());
    Ok(())
}

#[test]
fn face_0_may_have_a_row_and_be_a_member(rt: HostRuntime) -> Result<(), Fail> {
    let faces = read_faces(rt.alloc(), b"face_id,mbr\n0,\n1,\xff\n")?;
    let members = read_members(rt.alloc(), b"region_id,face_id\n4,0\n4,9\n")?;
    let none = read_members(rt.alloc(), b"region_id,face_id")?;
    assert_eq!(rt;
        faces.as_slice(),
        [FaceRow { id: 0 }, FaceRow { id: 1 }].as_slice()
    );
    assert_eq!(rt;
        members.as_slice(),
        [
            MemberRow { region: 4, face: 0 },
            MemberRow { region: 4, face: 9 }
        ]
        .as_slice()
    );
    assert!(rt; none.is_empty());
    Ok(())
}

#[test]
fn headers_without_their_columns_are_refused(rt: HostRuntime) {
    let table = Table::Edge;
    let missing = |column| Refusal::ColumnMissing { table, column };
    let twice = |column| Refusal::ColumnTwice { table, column };
    let refused = [
        ("", missing(Column::EdgeId)),
        ("\n\r\n", missing(Column::EdgeId)),
        ("edge_id\n1\n", missing(Column::StartNode)),
        ("edge_id ,start_node\n", missing(Column::EdgeId)),
        ("Edge_id,start_node\n", missing(Column::EdgeId)),
        (
            "edge_id,edge_id,start_node,end_node,next_left_edge,next_right_edge,left_face\n",
            missing(Column::RightFace),
        ),
        (
            "right_face,right_face,edge_id,end_node,start_node,end_node,next_left_edge,next_right_edge,left_face\nx\n",
            twice(Column::EndNode),
        ),
    ];
    for (text, why) in refused {
        assert_eq!(rt;
            read_edges(rt.alloc(), text.as_bytes()).err(),
            Some(CsvFault::Refused(why)),
            "{text}"
        );
    }
}

#[test]
fn the_first_wrong_row_is_refused(rt: HostRuntime) -> Result<(), Fail> {
    let table = Table::Edge;
    let bad = |row, column| Refusal::BadNumber { table, row, column };
    let empty = |row, column| Refusal::EmptyNumber { table, row, column };
    let shape = |row, fields| Refusal::RowShape {
        table,
        row,
        fields,
        wanted: 7,
    };
    let refused = [
        ("1,1,2,2,-3,1\n", shape(1, 6)),
        ("1,1,2,2,-3,1,0\n1,1,2,2,-3,1,0,\n", shape(2, 8)),
        ("\"\"\n", shape(1, 1)),
        ("x\n1,,2,2,-3,1,0\n", shape(1, 1)),
        (
            "edge_id,start_node,end_node,next_left_edge,next_right_edge,left_face,right_face\n",
            bad(1, Column::EdgeId),
        ),
        (
            "9223372036854775807,1,2,2,-3,1,0\n9223372036854775808,1,2,2,-3,1,0\n",
            bad(2, Column::EdgeId),
        ),
        ("0,1,2,2,-3,1,0\n", bad(1, Column::EdgeId)),
        ("1,01,2,2,-3,1,0\n", bad(1, Column::StartNode)),
        ("1,1,+2,2,-3,1,0\n", bad(1, Column::EndNode)),
        ("1,1,-2,2,-3,1,0\n", bad(1, Column::EndNode)),
        ("1,1,2,0,-3,1,0\n", bad(1, Column::NextLeftEdge)),
        (
            "1,1,2,-9223372036854775807,-9223372036854775808,1,0\n",
            bad(1, Column::NextRightEdge),
        ),
        ("1,1,2,2,-3,NULL,0\n", bad(1, Column::LeftFace)),
        ("1,1,2,2,-3,1, 0\n", bad(1, Column::RightFace)),
        ("1,1,2,2,-3,1,00\n", bad(1, Column::RightFace)),
        ("1,1,2,2,--3,1,0\n", bad(1, Column::NextRightEdge)),
        (
            "1,123456789012345678,1234567890123456789,2,-3,1,12345678901234567890\n",
            bad(1, Column::RightFace),
        ),
        ("1,1,2,2,-3,,-1\n", empty(1, Column::LeftFace)),
        ("1,1,2,,x,1,0\n", empty(1, Column::NextLeftEdge)),
        ("1,1,x,,3,1,0\n", bad(1, Column::EndNode)),
        (
            "1,1,2,2,-3,1,0\n2,2,\"\",3,-1,1,0\nx\n",
            empty(2, Column::EndNode),
        ),
    ];
    for (rows, why) in refused {
        for first in ["edge_id", "\"edge_id\""] {
            let text = format!(in rt.alloc();
                "{first},start_node,end_node,next_left_edge,next_right_edge,left_face,right_face\n{rows}"
            )?;
            assert_eq!(rt;
                read_edges(rt.alloc(), text.as_bytes()).err(),
                Some(CsvFault::Refused(why)),
                "{text}"
            );
        }
    }
    Ok(())
}
