//! Nodes and faces by their ids.

ghost use Rattle.std.specs.Prelude.{◌≡◌, ◌<◌, ◌≤◌, ◌+◌, ◌*◌, length, slice_index, is_some, IfSome, Some};
ghost use Rattle.code_laws.specs.Code.{mate};
ghost use Rattle.plane_model.specs.Answers.{has_node};
ghost use Rattle.plane_model.specs.Rotation.{is_face};
ghost use Rattle.file_laws.specs.MapOfFile.{face_at_place, face_at, node_at};
ghost use Rattle.plane_model.specs.Lists.{containing};
ghost use Rattle.file_laws.specs.Faults.{isolated_id};
ghost use Rattle.pemb_file.specs.Served.{contents_of_view};
ghost use Rattle.navigate.specs.Bound.{served_map, line_digits};

use crate::positions::{place_across, place_beside};
use bit_words::Steps;
use pemb_file::Served;
use std::sync::ledger::Ledger;
use topo_base::{FaceId, NodeId};

/// The number of a node, or None where the map lacks it.
pub fn node_number<C: Ledger>(
    served: Served<'_>,
    node: NodeId,
    steps: &mut Steps<C>,
) -> Option<usize>
    ensures known { is_some result ≡ has_node (served_map served.entry) node.0 }
    ensures found { IfSome result (λ x. (x < length (contents_of_view served.entry).nodes)
        × (slice_index (contents_of_view served.entry).nodes x ≡ node.0)) }
    ensures grows { steps.old ≤ steps.new }
    ensures cost { steps.new ≤ steps.old + (12 * line_digits (contents_of_view served.entry) + 60) }
{
    served.nodes().number_of(node.0, steps)
}

/// The place of a face: 0 for face 0, and else 1 + its number. None where the map lacks the face.
pub fn place_of<C: Ledger>(served: Served<'_>, face: FaceId, steps: &mut Steps<C>) -> Option<usize>
    ensures known { is_some result ≡ is_face (served_map served.entry) face.0 }
    ensures found { IfSome result (λ place. (place ≤ length (contents_of_view served.entry).faces)
        × (face_at_place (contents_of_view served.entry) place ≡ face.0)) }
    ensures grows { steps.old ≤ steps.new }
    ensures cost { steps.new ≤ steps.old + (12 * line_digits (contents_of_view served.entry) + 60) }
{
    if face.0 == 0 {
        return Some(0);
    }
    let faces = served.faces();
    let _count = faces.count();
    match faces.number_of(face.0, steps) {
        Some(number) => Some(number + 1),
        None => None,
    }
}

/// The face at a place.
pub fn face_in<C: Ledger>(served: Served<'_>, place: usize, steps: &mut Steps<C>) -> FaceId
    requires { place ≤ length (contents_of_view served).faces }
    ensures face { result.0 ≡ face_at_place (contents_of_view served.entry) place }
    ensures grows { steps.old ≤ steps.new }
    ensures cost { steps.new ≤ steps.old + (3 * line_digits (contents_of_view served.entry) + 20) }
{
    if place == 0 {
        return FaceId(0);
    }
    let faces = served.faces();
    FaceId(faces.id_of(place - 1, steps))
}

/// The node that the signed edge of a position leaves.
pub fn node_left<C: Ledger>(served: Served<'_>, p: usize, steps: &mut Steps<C>) -> NodeId
    requires { p < length (contents_of_view served).code.a }
    ensures node { result.0 ≡ node_at (contents_of_view served.entry) p }
    ensures some_steps { steps.old + 1 ≤ steps.new }
    ensures cost { steps.new ≤ steps.old + (8 * line_digits (contents_of_view served.entry) + 79) }
{
    let code = served.code();
    let number = code.node_of(p, steps) as usize;
    NodeId(served.nodes().id_of(number, steps))
}

/// The face on the left of the signed edge of a position.
pub fn face_beside<C: Ledger>(served: Served<'_>, p: usize, steps: &mut Steps<C>) -> FaceId
    requires { p < length (contents_of_view served).code.a }
    ensures face { result.0 ≡ face_at (contents_of_view served.entry) p }
    ensures some_steps { steps.old + 1 ≤ steps.new }
    ensures cost { steps.new ≤ steps.old + (8 * line_digits (contents_of_view served.entry) + 80) }
{
    let place = place_beside(served, p, steps);
    face_in(served, place, steps)
}

/// The node that the signed edge of a position reaches.
pub fn node_reached<C: Ledger>(served: Served<'_>, p: usize, steps: &mut Steps<C>) -> NodeId
    requires { p < length (contents_of_view served).code.a }
    ensures node { result.0 ≡ node_at (contents_of_view served.entry) (mate (contents_of_view served.entry).code p) }
    ensures some_steps { steps.old + 1 ≤ steps.new }
    ensures cost { steps.new ≤ steps.old + (15 * line_digits (contents_of_view served.entry) + 140) }
{
    let number = served.code().node_reached(p, steps) as usize;
    NodeId(served.nodes().id_of(number, steps))
}

/// The face on the right of the signed edge of a position.
pub fn face_across<C: Ledger>(served: Served<'_>, p: usize, steps: &mut Steps<C>) -> FaceId
    requires { p < length (contents_of_view served).code.a }
    ensures face { result.0 ≡ face_at (contents_of_view served.entry) (mate (contents_of_view served.entry).code p) }
    ensures some_steps { steps.old + 1 ≤ steps.new }
    ensures cost { steps.new ≤ steps.old + (15 * line_digits (contents_of_view served.entry) + 141) }
{
    let place = place_across(served, p, 0, steps);
    face_in(served, place, steps)
}

/// The isolated node of a number among the isolated ones.
pub fn isolated_node<C: Ledger>(served: Served<'_>, number: usize, steps: &mut Steps<C>) -> NodeId
    requires { number < length (contents_of_view served).isolated }
    ensures node { result.0 ≡ isolated_id (contents_of_view served.entry) number }
    ensures some_steps { steps.old + 1 ≤ steps.new }
    ensures cost { steps.new ≤ steps.old + (3 * line_digits (contents_of_view served.entry) + 20) }
{
    let counts = served.counts();
    let nodes = served.nodes();
    NodeId(nodes.id_of((counts.nodes - counts.isolated) as usize + number, steps))
}

/// The place of the face that contains an isolated node, or else a node's component.
pub fn place_of_node<C: Ledger>(served: Served<'_>, number: usize, steps: &mut Steps<C>) -> usize
    requires { number < length (contents_of_view served).nodes }
    ensures within { result ≤ length (contents_of_view served.entry).faces }
    ensures face { containing (served_map served.entry) (slice_index (contents_of_view served.entry).nodes number)
        ≡ Some (face_at_place (contents_of_view served.entry) result) }
    ensures some_steps { steps.old + 1 ≤ steps.new }
    ensures cost { steps.new ≤ steps.old + (7 * line_digits (contents_of_view served.entry) + 26) }
{
    let code = served.code();
    let counts = served.counts();
    let joined = (counts.nodes - counts.isolated) as usize;
    if number >= joined {
        return served.isolated(number - joined, steps) as usize;
    }
    match code.first_of_node(number as u32, steps) {
        Some(p) => served.place(code.component_of(p, steps) as usize, steps) as usize,
        None => unreachable!(),
    }
}
