//! Lines of each form and of none, the first lines of scripts, and the printed items.

use crate::{FirstLine, Query, first_line, head, node_item, number_item, read_line, signed_item};
use std::test::Fail;
use topo_base::{FaceId, IdNumber, NodeId, Signed, SignedNumber};

const LARGEST: IdNumber = 9_223_372_036_854_775_807;

fn edge(number: SignedNumber) -> Result<Signed, Fail> {
    Ok(Signed::new(number).ok_or("no signed edge")?)
}

#[test]
fn reads_each_form_with_its_least_and_greatest_ids(rt: HostRuntime) -> Result<(), Fail> {
    let rows = [
        ("node 1", Query::Node(NodeId(1))),
        ("node 9223372036854775807", Query::Node(NodeId(LARGEST))),
        ("ring 1", Query::Ring(edge(1)?)),
        (
            "ring -9223372036854775807",
            Query::Ring(edge(-9_223_372_036_854_775_807)?),
        ),
        ("next -1", Query::Next(edge(-1)?)),
        (
            "next 9223372036854775807",
            Query::Next(edge(9_223_372_036_854_775_807)?),
        ),
        ("ends -1", Query::Ends(edge(-1)?)),
        (
            "ends 9223372036854775807",
            Query::Ends(edge(9_223_372_036_854_775_807)?),
        ),
        ("sides 1", Query::Sides(edge(1)?)),
        (
            "sides -9223372036854775807",
            Query::Sides(edge(-9_223_372_036_854_775_807)?),
        ),
        ("face 0", Query::Face(FaceId(0))),
        ("face 9223372036854775807", Query::Face(FaceId(LARGEST))),
        ("adjacent 0", Query::Adjacent(FaceId(0))),
        (
            "adjacent 9223372036854775807",
            Query::Adjacent(FaceId(LARGEST)),
        ),
        ("contains 1", Query::Contains(NodeId(1))),
        (
            "contains 9223372036854775807",
            Query::Contains(NodeId(LARGEST)),
        ),
        ("islands 0", Query::Islands(FaceId(0))),
        (
            "islands 9223372036854775807",
            Query::Islands(FaceId(LARGEST)),
        ),
        ("regions 0", Query::Regions(FaceId(0))),
        (
            "regions 9223372036854775807",
            Query::Regions(FaceId(LARGEST)),
        ),
        (
            "common 0 9223372036854775807",
            Query::Common(FaceId(0), FaceId(LARGEST)),
        ),
        (
            "common 9223372036854775807 0",
            Query::Common(FaceId(LARGEST), FaceId(0)),
        ),
        (
            "common 9223372036854775807 9223372036854775807",
            Query::Common(FaceId(LARGEST), FaceId(LARGEST)),
        ),
        ("counts", Query::Counts),
    ];
    for (line, query) in rows {
        assert_eq!(rt; read_line(line.as_bytes()), query, "{line}");
    }
    Ok(())
}

#[test]
fn tells_lines_that_ask_nothing(rt: HostRuntime) -> Result<(), Fail> {
    let spaces = [b' '; 257];
    let letters = [b'a'; 257];
    let mut comment = [b'x'; 257];
    comment[0] = b'#';
    let mut ended = [b' '; 257];
    ended[255] = b'\r';
    ended[256] = b'\r';
    let rows: [(&[u8], Query); 53] = [
        (b"", Query::Blank),
        (b"\r", Query::Blank),
        (b" ", Query::Blank),
        (b"   ", Query::Blank),
        (b"  \r", Query::Blank),
        (b"#", Query::Blank),
        (b"# node 1", Query::Blank),
        (b"#\r", Query::Blank),
        (&spaces[..255], Query::Blank),
        (&comment[..255], Query::Blank),
        (&ended[..256], Query::Blank),
        (&letters[..255], Query::Bad),
        (&letters[..256], Query::Long),
        (&spaces[..256], Query::Long),
        (&comment[..256], Query::Long),
        (&ended, Query::Long),
        (b"node 7\r", Query::Node(NodeId(7))),
        (b"counts\r", Query::Counts),
        (b"\r\r", Query::Bad),
        (b"node 7\r\r", Query::Bad),
        (b"node\r7", Query::Bad),
        (b"node 7\r ", Query::Bad),
        (b" #", Query::Bad),
        (b"\t", Query::Bad),
        (b" node 7", Query::Bad),
        (b"node 7 ", Query::Bad),
        (b"node  7", Query::Bad),
        (b"node\t7", Query::Bad),
        (b"node", Query::Bad),
        (b"node ", Query::Bad),
        (b"node 7 8", Query::Bad),
        (b"node 0", Query::Bad),
        (b"node -1", Query::Bad),
        (b"node x", Query::Bad),
        (b"node 9223372036854775808", Query::Bad),
        (b"contains 0", Query::Bad),
        (b"ring 0", Query::Bad),
        (b"ring -0", Query::Bad),
        (b"ring +1", Query::Bad),
        (b"ring -9223372036854775808", Query::Bad),
        (b"next 01", Query::Bad),
        (b"next --1", Query::Bad),
        (b"face 00", Query::Bad),
        (b"face -1", Query::Bad),
        (b"common 1", Query::Bad),
        (b"common 1 ", Query::Bad),
        (b"common 1  2", Query::Bad),
        (b"common 1 2 3", Query::Bad),
        (b"counts ", Query::Bad),
        (b"counts 1", Query::Bad),
        (b"NODE 7", Query::Bad),
        (b"Counts", Query::Bad),
        (b"node \xef\xbc\x97", Query::Bad),
    ];
    for (line, query) in rows {
        assert_eq!(rt; read_line(line), query, "{line:?}");
    }
    Ok(())
}

#[test]
fn tells_each_word_of_a_first_line(rt: HostRuntime) -> Result<(), Fail> {
    let rows = [
        ("node 3\n", 6, Query::Node(NodeId(3))),
        ("ring 3\n", 6, Query::Ring(edge(3)?)),
        ("next 3\n", 6, Query::Next(edge(3)?)),
        ("ends 3\n", 6, Query::Ends(edge(3)?)),
        ("sides 3\n", 7, Query::Sides(edge(3)?)),
        ("face 3\n", 6, Query::Face(FaceId(3))),
        ("adjacent 3\n", 10, Query::Adjacent(FaceId(3))),
        ("contains 3\n", 10, Query::Contains(NodeId(3))),
        ("islands 3\n", 9, Query::Islands(FaceId(3))),
        ("regions 3\n", 9, Query::Regions(FaceId(3))),
        ("common 3 4\n", 10, Query::Common(FaceId(3), FaceId(4))),
        ("counts\n", 6, Query::Counts),
    ];
    for (script, end, query) in rows {
        assert!(rt; first_line(script.as_bytes()) == Some(FirstLine { end, query }));
    }
    Ok(())
}

#[test]
fn reads_first_lines_to_their_line_feeds(rt: HostRuntime) -> Result<(), Fail> {
    let rows = [
        ("next -12\nnode 1\n", 8, Query::Next(edge(-12)?)),
        ("face 12\nface 34", 7, Query::Face(FaceId(12))),
        (
            "node 123456789012345678\n",
            23,
            Query::Node(NodeId(123_456_789_012_345_678)),
        ),
        (
            "node 9223372036854775807\n",
            24,
            Query::Node(NodeId(LARGEST)),
        ),
        ("node 9223372036854775808\n", 24, Query::Bad),
        (
            "ring -123456789012345678\n",
            24,
            Query::Ring(edge(-123_456_789_012_345_678)?),
        ),
        (
            "ring -9223372036854775807\n",
            25,
            Query::Ring(edge(-9_223_372_036_854_775_807)?),
        ),
        ("ring -9223372036854775808\n", 25, Query::Bad),
        ("face 0\n", 6, Query::Face(FaceId(0))),
        ("node 0\n", 6, Query::Bad),
        ("node 01\n", 7, Query::Bad),
        ("node -1\n", 7, Query::Bad),
        ("node \n", 5, Query::Bad),
        ("node 7 \n", 7, Query::Bad),
        ("ring --1\n", 8, Query::Bad),
        ("ring -\n", 6, Query::Bad),
        ("node 7\r\n", 7, Query::Node(NodeId(7))),
        ("\nnode 7\n", 0, Query::Blank),
    ];
    for (script, end, query) in rows {
        assert!(rt; first_line(script.as_bytes()) == Some(FirstLine { end, query }));
    }
    Ok(())
}

#[test]
fn finds_no_first_line_without_a_line_feed(rt: HostRuntime) -> Result<(), Fail> {
    let scripts = [
        "",
        "\r",
        "node",
        "node ",
        "node 7",
        "next -12",
        "node 9223372036854775807",
        "counts",
    ];
    for script in scripts {
        assert!(rt; first_line(script.as_bytes()) == None);
    }
    Ok(())
}

#[test]
fn prints_heads_and_items(rt: HostRuntime) -> Result<(), Fail> {
    let rows = [
        (Query::Node(NodeId(LARGEST)), "node 9223372036854775807:"),
        (
            Query::Ring(edge(-9_223_372_036_854_775_807)?),
            "ring -9223372036854775807:",
        ),
        (Query::Next(edge(7)?), "next 7:"),
        (Query::Ends(edge(-7)?), "ends -7:"),
        (Query::Sides(edge(7)?), "sides 7:"),
        (Query::Face(FaceId(0)), "face 0:"),
        (Query::Adjacent(FaceId(10)), "adjacent 10:"),
        (Query::Contains(NodeId(7)), "contains 7:"),
        (Query::Islands(FaceId(0)), "islands 0:"),
        (Query::Regions(FaceId(0)), "regions 0:"),
        (Query::Common(FaceId(2), FaceId(1)), "common 2 1:"),
        (
            Query::Common(FaceId(LARGEST), FaceId(LARGEST)),
            "common 9223372036854775807 9223372036854775807:",
        ),
        (Query::Counts, "counts:"),
    ];
    for (query, text) in &rows {
        match query {
            Query::Blank | Query::Bad | Query::Long => continue,
            asked => assert_eq!(rt; head(asked).as_slice(), text.as_bytes(), "{text}"),
        }
    }
    assert_eq!(rt; signed_item(edge(-3)?).as_slice(), b" -3".as_slice());
    assert_eq!(rt;
        signed_item(edge(-9_223_372_036_854_775_807)?).as_slice(),
        b" -9223372036854775807".as_slice()
    );
    assert_eq!(rt; number_item(0).as_slice(), b" 0".as_slice());
    assert_eq!(rt;
        number_item(LARGEST).as_slice(),
        b" 9223372036854775807".as_slice()
    );
    assert_eq!(rt; node_item(NodeId(5)).as_slice(), b" n5".as_slice());
    assert_eq!(rt;
        node_item(NodeId(LARGEST)).as_slice(),
        b" n9223372036854775807".as_slice()
    );
    Ok(())
}
