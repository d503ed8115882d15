//! Walks as iterators, each with a counter of its own.

ghost use Rattle.std.specs.Prelude.{◌≡◌, is_some, IfSome};
ghost use Rattle.plane_model.specs.Answers.{has_node, has_signed_edge};
ghost use Rattle.plane_model.specs.Rotation.{is_face};
ghost use Rattle.plane_model.specs.Lists.{node_edges as edges_of_node, ring_edges as edges_of_ring, face_edges as edges_of_face};
ghost use Rattle.navigate.specs.Bound.{served_map};
ghost use Rattle.navigate.specs.OrbitWalk.{rest};
ghost use Rattle.navigate.specs.FaceWalk as rings;

use crate::face_rings::FaceWalk;
use crate::faces::face_walk;
use crate::orbit_walk::OrbitWalk;
use crate::rounds::{node_walk, ring_walk};
use bit_words::Steps;
use pemb_file::Served;
use std::sync::ledger::Ledger;
use topo_base::{FaceId, NodeId, Signed};

/// The signed edges of a walk round a node or a ring.
#[derive(Drop)]
pub struct OrbitEdges<'a, C: Ledger> {
    walk: OrbitWalk<'a>,
    counter: Steps<C>,
}

/// The signed edges that leave a node, clockwise.
pub type NodeEdges<'a, C> = OrbitEdges<'a, C>;

/// The signed edges of a ring.
pub type RingEdges<'a, C> = OrbitEdges<'a, C>;

/// The signed edges of a face.
#[derive(Drop)]
pub struct FaceEdges<'a, C: Ledger> {
    walk: FaceWalk<'a>,
    counter: Steps<C>,
}

impl<'a, C: Ledger> Iterator for OrbitEdges<'a, C> {
    ghost use Rattle.std.specs.Iterator.{YieldsFirst, item_count};
    ghost use Rattle.navigate.specs.OrbitWalk.{rest};

    type Item = Signed;

    ghost next_gives = { YieldsFirst (λ s. rest s.walk) };

    ghost remaining = { item_count (λ s. rest s.walk) };

    fn next(&mut self) -> Option<Signed> {
        self.walk.step(&mut self.counter)
    }
}

impl<'a, C: Ledger> Iterator for FaceEdges<'a, C> {
    ghost use Rattle.std.specs.Iterator.{YieldsFirst, item_count};
    ghost use Rattle.navigate.specs.FaceWalk as rings;

    type Item = Signed;

    ghost next_gives = { YieldsFirst (λ s. rings.rest s.walk) };

    ghost remaining = { item_count (λ s. rings.rest s.walk) };

    fn next(&mut self) -> Option<Signed> {
        self.walk.step(&mut self.counter)
    }
}

/// The signed edges round a node, in the order of its walk. On None the counter ends with the call.
pub fn node_edges<'a, C: Ledger>(
    served: Served<'a>,
    node: NodeId,
    mut counter: Steps<C>,
) -> Option<NodeEdges<'a, C>>
    ensures known { is_some result ≡ has_node (served_map served.entry) node.0 }
    ensures list { IfSome result (λ edges. rest edges.walk ≡ edges_of_node (served_map served.entry) node.0) }
{
    match node_walk(served, node, &mut counter) {
        Some(walk) => Some(OrbitEdges { walk, counter }),
        None => None,
    }
}

/// The signed edges of a ring, in the order of its walk. On None the counter ends with the call.
pub fn ring_edges<'a, C: Ledger>(
    served: Served<'a>,
    edge: Signed,
    mut counter: Steps<C>,
) -> Option<RingEdges<'a, C>>
    ensures known { is_some result ≡ has_signed_edge (served_map served.entry) edge }
    ensures list { IfSome result (λ edges. rest edges.walk ≡ edges_of_ring (served_map served.entry) edge) }
{
    match ring_walk(served, edge, &mut counter) {
        Some(walk) => Some(OrbitEdges { walk, counter }),
        None => None,
    }
}

/// The signed edges of a face, in the order of its walk. On None the counter ends with the call.
pub fn face_edges<'a, C: Ledger>(
    served: Served<'a>,
    face: FaceId,
    mut counter: Steps<C>,
) -> Option<FaceEdges<'a, C>>
    ensures known { is_some result ≡ is_face (served_map served.entry) face.0 }
    ensures list { IfSome result (λ edges. rings.rest edges.walk ≡ edges_of_face (served_map served.entry) face.0) }
{
    match face_walk(served, face, &mut counter) {
        Some(walk) => Some(FaceEdges { walk, counter }),
        None => None,
    }
}
