//! The darts of tables, each edge forward and backward, by the row of the edge; and what is wrong with their nexts and
//! with the nodes that they leave: a next that does not leave the head, two darts with one next, a node whose darts are
//! more than one orbit, and a node with both a containing face and edges, or neither.

ghost use Rattle.std.specs.Prelude.{◌≡◌, ◌+◌, ◌<◌, ◌^◌, min};
ghost use Rattle.std.specs.Option.{option_map_or};
ghost use Rattle.plane_model.specs.PlaneMap.{smaller};
ghost use Rattle.rotation_check.specs.Darts.{reverse_dart};

use crate::signed::signed_of_dart;
use plane_model::Tables;
use topo_base::{IdNumber, Refusal, Signed};

/// The darts of tables: the edge of row `i`, from 0, has the dart `2 * i` forward and `2 * i + 1` backward.
#[derive(Drop)]
pub struct Darts<'a> {
    pub tables: &'a Tables,
    /// The dart after each dart round the face on its left.
    pub next: Vec<u32>,
    /// The row of the node that each dart leaves.
    pub node: Vec<u32>,
}

/// The same edge the other way.
pub fn reversed(dart: u32) -> u32
    ensures { result ≡ reverse_dart dart }
{
    dart ^ 1
}

/// The smaller of two signed edges, the one of which may be none.
pub fn smaller_of(smallest: Option<Signed>, other: Signed) -> Signed
    ensures { result ≡ option_map_or (λ d. smaller d other) smallest other }
{
    match smallest {
        Some(signed) if !other.key_less(signed) => signed,
        _ => other,
    }
}

/// The lesser of two ids, the one of which may be none.
pub fn lesser_of(least: Option<IdNumber>, other: IdNumber) -> IdNumber
    ensures { result ≡ option_map_or (λ id. min id other) least other }
{
    match least {
        Some(id) => id.min(other),
        None => other,
    }
}

impl<'a> Darts<'a> {
    ghost use Rattle.std.specs.Prelude.{◌≡◌, ◌*◌, ◌<◌, length, not, slice_index, None};
    ghost use Rattle.plane_model.specs.PlaneMap.{leaving, round, signed_edges, turn};
    ghost use Rattle.plane_model.specs.Rotation.{is_one_orbit};
    ghost use Rattle.plane_model.specs.Orders.{Permutes};
    ghost use Rattle.plane_model.specs.Faults.{either_way, first_in, next_twice, node_with_face, split_node, wrong_end};
    ghost use Rattle.rotation_check.specs.Counts.{AreCountsOfEach, ArePlacesOfEach};
    ghost use Rattle.rotation_check.specs.Darts.{node_id, reverse_dart, signed_edge};
    ghost use Rattle.rotation_check.specs.Numbered.{IsNumbered, map_of_darts};

    /// How many darts there are.
    pub fn count(&self) -> u32
        requires { IsNumbered self.now }
        ensures { result ≡ 2 * length self.now.tables.now.edges }
    {
        self.next.len() as u32
    }

    /// The signed edge of a dart.
    pub fn signed(&self, dart: u32) -> Signed
        requires numbered { IsNumbered self.now }
        requires within { dart < 2 * length self.now.tables.now.edges }
        ensures { result ≡ signed_edge self.now.tables.now.edges dart }
    {
        signed_of_dart(&self.tables.edges, dart)
    }

    /// The dart after a dart round the node that it leaves.
    pub fn turn(&self, dart: u32) -> u32
        requires numbered { IsNumbered self.now }
        requires within { dart < 2 * length self.now.tables.now.edges }
        ensures { result ≡ slice_index self.now.next.items (reverse_dart dart) }
    {
        self.next[reversed(dart) as usize]
    }

    /// What is wrong where the next of a dart does not leave its head.
    pub fn wrong_end(&self, dart: u32) -> Option<Refusal>
        requires numbered { IsNumbered self.now }
        requires within { dart < 2 * length self.now.tables.now.edges }
        ensures { result ≡ wrong_end (map_of_darts self.now) (signed_edge self.now.tables.now.edges dart) }
    {
        let next = self.next[dart as usize];
        if self.node[next as usize] == self.node[reversed(dart) as usize] {
            return None;
        }
        Some(Refusal::WrongEnd {
            edge: self.signed(dart).value(),
            next: self.signed(next).value(),
        })
    }

    /// The first dart whose next does not leave its head.
    pub fn first_wrong_end(&self) -> Option<Refusal>
        requires { IsNumbered self.now }
        ensures { result ≡ first_in (either_way (wrong_end (map_of_darts self.now))) self.now.tables.now.edges }
    {
        for dart in 0..self.count() {
            let fault = self.wrong_end(dart);
            if fault.is_some() {
                return fault;
            }
        }
        None
    }

    /// The smallest signed edge that is the next of two; `befores` says of how many each dart is the next.
    pub fn smallest_next_of_two(&self, befores: &[u32]) -> Option<Refusal>
        requires numbered { IsNumbered self.now }
        requires counts { AreCountsOfEach self.now.next.items (2 * length self.now.tables.now.edges) befores.now }
        ensures { result ≡ next_twice (map_of_darts self.now) }
    {
        let mut smallest: Option<Signed> = None;
        for dart in 0..self.count() {
            if befores[dart as usize] > 1 {
                smallest = Some(smaller_of(smallest, self.signed(dart)));
            }
        }
        let next = smallest?.value();
        Some(Refusal::NextTwice { next })
    }

    /// How many darts there are in the round of a dart.
    pub fn round_length(&self, dart: u32) -> u32
        requires numbered { IsNumbered self.now }
        requires permutes { Permutes (signed_edges (map_of_darts self.now)) (turn (map_of_darts self.now)) }
        requires within { dart < 2 * length self.now.tables.now.edges }
        ensures { result ≡ length (round (map_of_darts self.now) (signed_edge self.now.tables.now.edges dart)) }
    {
        let mut length = 1;
        let mut at = self.turn(dart);
        while at != dart {
            at = self.turn(at);
            length += 1;
        }
        length
    }

    /// Whether the darts that leave the node of a row are more than one orbit.
    pub fn is_split(&self, row: usize, counts: &[u32], places: &[u32]) -> bool
        requires numbered { IsNumbered self.now }
        requires ends { first_in (either_way (wrong_end (map_of_darts self.now))) self.now.tables.now.edges
            ≡ None }
        requires once { next_twice (map_of_darts self.now) ≡ None }
        requires row { row < length self.now.tables.now.nodes }
        requires counts { AreCountsOfEach self.now.node.items (length self.now.tables.now.nodes) counts.now }
        requires places { ArePlacesOfEach self.now.node.items (length self.now.tables.now.nodes) places.now }
        ensures { result ≡ not (is_one_orbit (map_of_darts self.now)
            (leaving (map_of_darts self.now) (node_id self.now.tables.now.nodes row))) }
    {
        counts[row] > 0 && self.round_length(places[row]) != counts[row]
    }

    /// The least node whose darts are more than one orbit; `counts` says how many leave each node, `places` names one
    /// of them.
    pub fn least_split_node(&self, counts: &[u32], places: &[u32]) -> Option<Refusal>
        requires numbered { IsNumbered self.now }
        requires ends { first_in (either_way (wrong_end (map_of_darts self.now))) self.now.tables.now.edges
            ≡ None }
        requires once { next_twice (map_of_darts self.now) ≡ None }
        requires counts { AreCountsOfEach self.now.node.items (length self.now.tables.now.nodes) counts.now }
        requires places { ArePlacesOfEach self.now.node.items (length self.now.tables.now.nodes) places.now }
        ensures { result ≡ split_node (map_of_darts self.now) }
    {
        let mut least: Option<IdNumber> = None;
        let nodes = &self.tables.nodes;
        for row in 0..nodes.len() {
            if self.is_split(row, counts, places) {
                least = Some(lesser_of(least, nodes.row(row).id));
            }
        }
        let node = least?;
        Some(Refusal::SplitNode { node })
    }

    /// The first node with a containing face that darts leave, or without one that none leaves; `counts` says how many
    /// leave each node.
    pub fn first_node_with_face(&self, counts: &[u32]) -> Option<Refusal>
        requires numbered { IsNumbered self.now }
        requires counts { AreCountsOfEach self.now.node.items (length self.now.tables.now.nodes) counts.now }
        ensures { result ≡ first_in (node_with_face (map_of_darts self.now)) self.now.tables.now.nodes }
    {
        let nodes = &self.tables.nodes;
        for row in 0..nodes.len() {
            let node = nodes.row(row);
            if node.face.is_some() == (counts[row] > 0) {
                return Some(Refusal::NodeFace { node: node.id });
            }
        }
        None
    }
}
