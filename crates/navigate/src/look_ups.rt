//! Look-ups of one signed edge or one node.

ghost use Rattle.std.specs.Prelude.{◌≡◌, ◌≤◌, ◌+◌, is_some, IfSome, Some, MatchOption};
ghost use Rattle.topo_base.specs.SignedEdge.{reverse};
ghost use Rattle.plane_model.specs.PlaneMap.{next as next_edge, origin, head, side};
ghost use Rattle.plane_model.specs.Answers.{has_node, has_signed_edge};
ghost use Rattle.plane_model.specs.Lists.{containing as containing_face};
ghost use Rattle.navigate.specs.Bound.{served_map, most_words};

use crate::{names, positions};
use bit_words::Steps;
use pemb_file::Served;
use std::sync::ledger::Ledger;
use topo_base::{FaceId, NodeId, Signed};

/// The signed edge that follows on the ring. None where the map has no such edge.
pub fn next<C: Ledger>(served: Served<'_>, edge: Signed, steps: &mut Steps<C>) -> Option<Signed>
    ensures known { is_some result ≡ has_signed_edge (served_map served.entry) edge }
    ensures next { IfSome result (λ d. d ≡ next_edge (served_map served.entry) edge) }
    ensures grows { steps.old ≤ steps.new }
    ensures least { IfSome result (λ _. steps.old + 1 ≤ steps.new) }
    ensures paid { MatchOption result (steps.new ≤ steps.old + most_words (served_map served.entry) 0 0)
        (λ _. steps.new ≤ steps.old + most_words (served_map served.entry) 0 1) }
{
    let Some((first, is_own)) = positions::first_position(served, edge, steps) else {
        return None;
    };
    // what follows the edge's other position is what follows the first one round its node
    let next = positions::step_from(served, !is_own, first, steps);
    Some(positions::edge_at(served, next, steps))
}

/// The nodes that a signed edge leaves and reaches. None where the map has no such edge.
pub fn ends<C: Ledger>(
    served: Served<'_>,
    edge: Signed,
    steps: &mut Steps<C>,
) -> Option<(NodeId, NodeId)>
    ensures known { is_some result ≡ has_signed_edge (served_map served.entry) edge }
    ensures ends { IfSome result (λ pair. (pair.0.0 ≡ origin (served_map served.entry) edge)
        × (pair.1.0 ≡ head (served_map served.entry) edge)) }
    ensures grows { steps.old ≤ steps.new }
    ensures least { IfSome result (λ _. steps.old + 2 ≤ steps.new) }
    ensures paid { MatchOption result (steps.new ≤ steps.old + most_words (served_map served.entry) 0 0)
        (λ _. steps.new ≤ steps.old + most_words (served_map served.entry) 0 2) }
{
    let Some((first, is_own)) = positions::first_position(served, edge, steps) else {
        return None;
    };
    let left = names::node_left(served, first, steps);
    let reached = names::node_reached(served, first, steps);
    if is_own {
        Some((left, reached))
    } else {
        Some((reached, left))
    }
}

/// The faces on the left and on the right of a signed edge. None where the map has no such edge.
pub fn sides<C: Ledger>(
    served: Served<'_>,
    edge: Signed,
    steps: &mut Steps<C>,
) -> Option<(FaceId, FaceId)>
    ensures known { is_some result ≡ has_signed_edge (served_map served.entry) edge }
    ensures sides { IfSome result (λ pair. (pair.0.0 ≡ side (served_map served.entry) edge)
        × (pair.1.0 ≡ side (served_map served.entry) (reverse edge))) }
    ensures grows { steps.old ≤ steps.new }
    ensures least { IfSome result (λ _. steps.old + 2 ≤ steps.new) }
    ensures paid { MatchOption result (steps.new ≤ steps.old + most_words (served_map served.entry) 0 0)
        (λ _. steps.new ≤ steps.old + most_words (served_map served.entry) 0 2) }
{
    let Some((first, is_own)) = positions::first_position(served, edge, steps) else {
        return None;
    };
    let left = names::face_beside(served, first, steps);
    let right = names::face_across(served, first, steps);
    if is_own {
        Some((left, right))
    } else {
        Some((right, left))
    }
}

/// The face that contains an isolated node, or else the one that contains the node's component. None where the map has
/// no such node.
pub fn containing<C: Ledger>(
    served: Served<'_>,
    node: NodeId,
    steps: &mut Steps<C>,
) -> Option<FaceId>
    ensures known { is_some result ≡ has_node (served_map served.entry) node.0 }
    ensures face { IfSome result (λ f. containing_face (served_map served.entry) node.0 ≡ Some f.0) }
    ensures grows { steps.old ≤ steps.new }
    ensures least { IfSome result (λ _. steps.old + 1 ≤ steps.new) }
    ensures paid { MatchOption result (steps.new ≤ steps.old + most_words (served_map served.entry) 0 0)
        (λ _. steps.new ≤ steps.old + most_words (served_map served.entry) 0 1) }
{
    let Some(number) = names::node_number(served, node, steps) else {
        return None;
    };
    let place = names::place_of_node(served, number, steps);
    Some(names::face_in(served, place, steps))
}
