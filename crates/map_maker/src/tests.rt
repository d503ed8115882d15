//! Small grids against rows written by hand, and counts from outside.

use crate::grid;
use plane_model::{EdgeRow, NodeRow};
use std::test::Fail;
use topo_base::{IdNumber, SignedNumber};

/// An edge of the grid of size 1.
const fn edge(
    id: IdNumber,
    ends: (IdNumber, IdNumber),
    nexts: (SignedNumber, SignedNumber),
    faces: (IdNumber, IdNumber),
) -> EdgeRow {
    EdgeRow {
        id,
        start: ends.0,
        end: ends.1,
        next_left: nexts.0,
        next_right: nexts.1,
        left_face: faces.0,
        right_face: faces.1,
    }
}

#[test]
fn one_cell_has_four_edges(rt: HostRuntime) -> Result<(), Fail> {
    let Ok(tables) = grid(rt.alloc(), 1) else {
        panic!(rt; "want of memory");
    };
    let edges = [
        edge(1, (1, 2), (4, 3), (1, 0)),
        edge(2, (3, 4), (-4, -3), (0, 1)),
        edge(3, (1, 3), (2, 1), (0, 1)),
        edge(4, (2, 4), (-2, -1), (1, 0)),
    ];
    assert_eq!(rt; tables.edges.len(), edges.len());
    for (place, &edge) in edges.iter().enumerate() {
        assert_eq!(rt; tables.edges.row(place), edge);
    }
    assert_eq!(rt; tables.nodes.len(), 4);
    assert_eq!(rt; tables.faces.len(), 1);
    Ok(())
}

#[test]
fn sixteen_cells_have_two_closed_edges_and_one_isolated_node(rt: HostRuntime) -> Result<(), Fail> {
    let Ok(tables) = grid(rt.alloc(), 4) else {
        panic!(rt; "want of memory");
    };
    assert_eq!(rt;
        (tables.nodes.len(), tables.edges.len(), tables.faces.len()),
        (28, 42, 18)
    );
    assert_eq!(rt;
        tables.edges.row(41),
        edge(42, (27, 27), (42, -42), (18, 14))
    );
    assert_eq!(rt;
        tables.nodes.row(27),
        NodeRow {
            id: 28,
            face: Some(11)
        }
    );
    Ok(())
}
