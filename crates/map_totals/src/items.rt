//! How many items one question has.

ghost use Rattle.std.specs.Prelude.{◌≡◌, ◌<◌, ◌≤◌, ◌+◌, ◌^◌, length, IsTrue};
ghost use Rattle.plane_model.specs.Answers.{has_node};
ghost use Rattle.plane_model.specs.Rotation.{is_face};
ghost use Rattle.plane_model.specs.Lists.{node_edges, face_edges, adjacent};
ghost use Rattle.scratch_region.specs.Marks.{room_of, IsEmpty};
ghost use Rattle.pemb_file.specs.Served.{contents_of_view};
ghost use Rattle.navigate.specs.Bound.{served_map};
ghost use Rattle.navigate.specs.OrbitWalk as orbits;
ghost use Rattle.navigate.specs.FaceWalk as rings;
ghost use Rattle.navigate.specs.AdjacentWalk as across;
ghost use Rattle.map_totals.specs.Totals.{face_words, node_words, adjacent_words};

use bit_words::Steps;
use navigate::{AdjacentWalk, FaceWalk, NodeWalk, adjacent_walk, face_walk, node_walk};
use pemb_file::Served;
use scratch_region::Marks;
use std::sync::ledger::Ledger;
use topo_base::{FaceId, NodeId};

/// How many signed edges a walk along a face gives.
fn count_face<C: Ledger>(mut walk: FaceWalk<'_>, steps: &mut Steps<C>) -> u64
    requires { length (rings.rest walk) < 2 ^ 63 }
    ensures count { result ≡ length (rings.rest walk.entry) }
    ensures least { steps.old + result ≤ steps.new }
    ensures paid { steps.new ≤ steps.old + rings.allowance walk.entry }
{
    let mut count = 0;
    while let Some(_edge) = walk.step(steps) {
        count += 1;
    }
    count
}

/// How many signed edges a walk round a node gives.
fn count_node<C: Ledger>(mut walk: NodeWalk<'_>, steps: &mut Steps<C>) -> u64
    requires { length (orbits.rest walk) < 2 ^ 63 }
    ensures count { result ≡ length (orbits.rest walk.entry) }
    ensures least { steps.old + result ≤ steps.new }
    ensures paid { steps.new ≤ steps.old + orbits.allowance walk.entry }
{
    let mut count = 0;
    while let Some(_edge) = walk.step(steps) {
        count += 1;
    }
    count
}

/// How many faces a walk to adjacent faces gives. The marks are those of the faces that it gave.
fn count_adjacent<C: Ledger>(
    walk: &mut AdjacentWalk<'_>,
    marks: &mut Marks<'_>,
    steps: &mut Steps<C>,
) -> u64
    requires few { length (across.rest walk.old) < 2 ^ 63 }
    requires room { length (across.contents_in walk.old).faces < room_of marks.old }
    requires marks { across.HoldsGiven walk.old marks.old }
    ensures count { result ≡ length (across.rest walk.old) }
    ensures contents { across.contents_in walk.new ≡ across.contents_in walk.old }
    ensures room { room_of marks.new ≡ room_of marks.old }
    ensures marks { across.HoldsGiven walk.new marks.new }
    ensures least { steps.old + result ≤ steps.new }
    ensures paid { steps.new + across.allowance walk.new ≤ steps.old + across.allowance walk.old }
{
    let mut count = 0;
    while let Some(_face) = walk.step(marks, steps) {
        count += 1;
    }
    count
}

/// How many signed edges are along a face of the map.
pub(crate) fn face_items<C: Ledger>(served: Served<'_>, face: FaceId, steps: &mut Steps<C>) -> u64
    requires { IsTrue (is_face (served_map served) face.0) }
    ensures count { result ≡ length (face_edges (served_map served.entry) face.0) }
    ensures least { steps.old + result ≤ steps.new }
    ensures paid { steps.new ≤ steps.old + face_words (served_map served.entry) face.0 }
{
    match face_walk(served, face, steps) {
        Some(walk) => count_face(walk, steps),
        None => unreachable!(),
    }
}

/// How many signed edges leave a node of the map.
pub(crate) fn node_items<C: Ledger>(served: Served<'_>, node: NodeId, steps: &mut Steps<C>) -> u64
    requires { IsTrue (has_node (served_map served) node.0) }
    ensures count { result ≡ length (node_edges (served_map served.entry) node.0) }
    ensures least { steps.old + result ≤ steps.new }
    ensures paid { steps.new ≤ steps.old + node_words (served_map served.entry) node.0 }
{
    match node_walk(served, node, steps) {
        Some(walk) => count_node(walk, steps),
        None => unreachable!(),
    }
}

/// How many faces are across the edges of a face of the map. The marks are empty again where it ends.
pub(crate) fn adjacent_items<C: Ledger>(
    served: Served<'_>,
    face: FaceId,
    marks: &mut Marks<'_>,
    steps: &mut Steps<C>,
) -> u64
    requires face { IsTrue (is_face (served_map served) face.0) }
    requires room { length (contents_of_view served).faces < room_of marks.old }
    requires empty { IsEmpty marks.old }
    ensures count { result ≡ length (adjacent (served_map served.entry) face.0) }
    ensures room { room_of marks.new ≡ room_of marks.old }
    ensures empty { IsEmpty marks.new }
    ensures least { steps.old + result ≤ steps.new }
    ensures paid { steps.new ≤ steps.old + adjacent_words (served_map served.entry) face.0 }
{
    match adjacent_walk(served, face, steps) {
        Some(mut walk) => {
            let count = count_adjacent(&mut walk, marks, steps);
            walk.close(marks, steps);
            count
        }
        None => unreachable!(),
    }
}
