//! The walks round a node and round a ring.

ghost use Rattle.std.specs.Prelude.{◌≡◌, ◌<◌, ◌≤◌, ◌+◌, ◌*◌, ◌++◌, [], length, is_some, IfSome, MatchOption};
ghost use Rattle.plane_model.specs.Answers.{has_node, has_signed_edge};
ghost use Rattle.plane_model.specs.Lists.{node_edges, ring_edges};
ghost use Rattle.pemb_file.specs.Served.{contents_of_view};
ghost use Rattle.navigate.specs.Bound.{served_map, most_words};
ghost use Rattle.navigate.specs.FirstEdges.{edges_in};
ghost use Rattle.navigate.specs.Least.{smallest_of, from_smallest};
ghost use Rattle.navigate.specs.OrbitWalk.{contents_in, rest, price, rank_price, allowance};

use crate::first_edges::FirstEdges;
use crate::orbit_walk::{NodeWalk, OrbitWalk, RingWalk};
use crate::search::{begun_at_smallest, edges_from_smallest};
use crate::{names, positions};
use bit_words::Steps;
use pemb_file::Served;
use std::sync::ledger::Ledger;
use topo_base::{NodeId, Signed};

/// The walk round the orbit of `p`, from the smallest signed edge on.
fn walk_from_smallest<'a, C: Ledger>(
    served: Served<'a>,
    kind: bool,
    p: usize,
    steps: &mut Steps<C>,
) -> OrbitWalk<'a>
    requires { p < length (contents_of_view served).code.a }
    ensures contents { contents_in result ≡ contents_of_view served.entry }
    ensures list { rest result ≡ from_smallest (contents_of_view served.entry) kind p }
    ensures within { smallest_of (contents_of_view served.entry) kind p
        < length (contents_of_view served.entry).code.a }
    ensures grows { steps.old ≤ steps.new }
    ensures paid { steps.new + allowance result
        ≤ steps.old + (rank_price (contents_of_view served.entry) + price (contents_of_view served.entry))
        * length (rest result) }
{
    begun_at_smallest(served, kind, p, steps)
}

/// The walk round a node, from the smallest signed edge that leaves it on: none round an isolated node. None where the
/// map has no such node.
pub fn node_walk<'a, C: Ledger>(
    served: Served<'a>,
    node: NodeId,
    steps: &mut Steps<C>,
) -> Option<NodeWalk<'a>>
    ensures known { is_some result ≡ has_node (served_map served.entry) node.0 }
    ensures list { IfSome result (λ w. rest w ≡ node_edges (served_map served.entry) node.0) }
    ensures grows { steps.old ≤ steps.new }
    ensures paid { MatchOption result (steps.new ≤ steps.old + most_words (served_map served.entry) 0 0)
        (λ w. steps.new + allowance w ≤ steps.old + most_words (served_map served.entry) (length (rest w))
        (length (rest w))) }
{
    let Some(number) = names::node_number(served, node, steps) else {
        return None;
    };
    match served.code().first_of_node(number as u32, steps) {
        Some(p) => Some(walk_from_smallest(served, true, p, steps)),
        None => Some(OrbitWalk::over(served)),
    }
}

/// The same, with the signed edges put down before all others, where they are fewer than there is room for, and else
/// none. The walk gives the rest. None are put down where the map has no such node.
pub fn node_walk_begun<'a, C: Ledger>(
    served: Served<'a>,
    node: NodeId,
    edges: &mut FirstEdges,
    steps: &mut Steps<C>,
) -> Option<NodeWalk<'a>>
    ensures known { is_some result ≡ has_node (served_map served.entry) node.0 }
    ensures list { MatchOption result (edges_in edges.new ≡ [])
        (λ w. edges_in edges.new ++ rest w ≡ node_edges (served_map served.entry) node.0) }
    ensures least { steps.old + length (edges_in edges.new) ≤ steps.new }
    ensures paid { MatchOption result (steps.new ≤ steps.old + most_words (served_map served.entry) 0 0)
        (λ w. steps.new + allowance w ≤ steps.old + most_words (served_map served.entry)
        (length (edges_in edges.new ++ rest w)) (length (edges_in edges.new ++ rest w))) }
{
    edges.clear();
    let Some(number) = names::node_number(served, node, steps) else {
        return None;
    };
    match served.code().first_of_node(number as u32, steps) {
        Some(p) => Some(edges_from_smallest(served, true, p, edges, steps)),
        None => Some(OrbitWalk::over(served)),
    }
}

/// The walk round the ring of a signed edge, from that edge on. None where the map has no such edge.
pub fn ring_walk<'a, C: Ledger>(
    served: Served<'a>,
    edge: Signed,
    steps: &mut Steps<C>,
) -> Option<RingWalk<'a>>
    ensures known { is_some result ≡ has_signed_edge (served_map served.entry) edge }
    ensures list { IfSome result (λ w. rest w ≡ ring_edges (served_map served.entry) edge) }
    ensures grows { steps.old ≤ steps.new }
    ensures paid { MatchOption result (steps.new ≤ steps.old + most_words (served_map served.entry) 0 0)
        (λ w. steps.new + allowance w ≤ steps.old + most_words (served_map served.entry) (length (rest w))
        (length (rest w))) }
{
    match positions::position_of(served, edge, steps) {
        Some(p) => Some(OrbitWalk::from(served, false, p, 0)),
        None => None,
    }
}
