//! How many items the questions on all faces, or on all nodes, have together.

ghost use Rattle.std.specs.Prelude.{◌≡◌, ◌<◌, ◌≤◌, ◌+◌, length};
ghost use Rattle.scratch_region.specs.Marks.{room_of, IsEmpty};
ghost use Rattle.pemb_file.specs.Served.{contents_of_view};
ghost use Rattle.navigate.specs.Bound.{served_map};
ghost use Rattle.map_totals.specs.Totals.{face_total, node_total, adjacent_total, most_face_words, most_node_words, most_adjacent_words};

use crate::items::{adjacent_items, face_items, node_items};
use bit_words::Steps;
use pemb_file::Served;
use scratch_region::Marks;
use std::sync::ledger::Ledger;
use topo_base::{FaceId, NodeId};

/// How many items the questions on all faces and nodes of a map have.
#[derive(Clone, Copy, Debug, PartialEq, Eq)]
pub struct Totals {
    /// Signed edges along all faces, face 0 among them.
    pub face: u64,
    /// Signed edges round all nodes.
    pub node: u64,
    /// Faces across the edges of all faces, face 0 among them.
    pub adjacent: u64,
}

/// The signed edges along all faces, face 0 among them.
pub(crate) fn sum_faces<C: Ledger>(served: Served<'_>, steps: &mut Steps<C>) -> u64
    ensures sum { result ≡ face_total (served_map served.entry) }
    ensures least { steps.old + result ≤ steps.new }
    ensures paid { steps.new ≤ steps.old + most_face_words (served_map served.entry) }
{
    let faces = served.faces();
    let count = faces.count();
    let mut total = face_items(served, FaceId(0), steps);
    for number in 0..count {
        let face = FaceId(faces.id_of(number, steps));
        total += face_items(served, face, steps);
    }
    total
}

/// The signed edges round all nodes.
pub(crate) fn sum_nodes<C: Ledger>(served: Served<'_>, steps: &mut Steps<C>) -> u64
    ensures sum { result ≡ node_total (served_map served.entry) }
    ensures least { steps.old + result ≤ steps.new }
    ensures paid { steps.new ≤ steps.old + most_node_words (served_map served.entry) }
{
    let nodes = served.nodes();
    let count = nodes.count();
    let mut total = 0;
    for number in 0..count {
        let node = NodeId(nodes.id_of(number, steps));
        total += node_items(served, node, steps);
    }
    total
}

/// The faces across the edges of all faces, face 0 among them.
pub(crate) fn sum_adjacent<C: Ledger>(
    served: Served<'_>,
    marks: &mut Marks<'_>,
    steps: &mut Steps<C>,
) -> u64
    requires room { length (contents_of_view served).faces < room_of marks.old }
    requires empty { IsEmpty marks.old }
    ensures sum { result ≡ adjacent_total (served_map served.entry) }
    ensures room { room_of marks.new ≡ room_of marks.old }
    ensures empty { IsEmpty marks.new }
    ensures least { steps.old + result ≤ steps.new }
    ensures paid { steps.new ≤ steps.old + most_adjacent_words (served_map served.entry) }
{
    let faces = served.faces();
    let count = faces.count();
    let mut total = adjacent_items(served, FaceId(0), marks, steps);
    for number in 0..count {
        let face = FaceId(faces.id_of(number, steps));
        total += adjacent_items(served, face, marks, steps);
    }
    total
}
