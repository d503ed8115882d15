//! The walk over what lies in a face, from its beginning.

ghost use Rattle.std.specs.Prelude.{◌≡◌, ◌≤◌, ◌+◌, ◌++◌, map, length, is_some, IfSome, MatchOption};
ghost use Rattle.topo_base.specs.Script.{Item};
ghost use Rattle.plane_model.specs.Rotation.{is_face};
ghost use Rattle.plane_model.specs.Lists.{holes, isolated_nodes};
ghost use Rattle.navigate.specs.Bound.{served_map, most_words};
ghost use Rattle.navigate.specs.IslandWalk.{rest, allowance};

use crate::inside::IslandWalk;
use crate::names;
use crate::places::{components_below, components_to, isolated_below, isolated_to};
use bit_words::Steps;
use pemb_file::Served;
use std::sync::ledger::Ledger;
use topo_base::FaceId;

/// The walk over what lies in a face: components by the smallest signed edge of their outer ring, rising, and then
/// isolated nodes, rising. None where the map has no such face.
pub fn island_walk<'a, C: Ledger>(
    served: Served<'a>,
    face: FaceId,
    steps: &mut Steps<C>,
) -> Option<IslandWalk<'a>>
    ensures known { is_some result ≡ is_face (served_map served.entry) face.0 }
    ensures list { IfSome result (λ w. rest w ≡ map Item.Signed_edge (holes (served_map served.entry) face.0)
        ++ map Item.Island_node (isolated_nodes (served_map served.entry) face.0)) }
    ensures grows { steps.old ≤ steps.new }
    ensures paid { MatchOption result (steps.new ≤ steps.old + most_words (served_map served.entry) 0 0)
        (λ w. steps.new + allowance w ≤ steps.old + most_words (served_map served.entry) 0 (length (rest w))) }
{
    let Some(place) = names::place_of(served, face, steps) else {
        return None;
    };
    let hole = components_below(served, place, steps);
    let end = components_to(served, place, hole, steps);
    let node = isolated_below(served, place, steps);
    let last = isolated_to(served, place, node, steps);
    Some(IslandWalk::between(served, hole, end, node, last))
}
