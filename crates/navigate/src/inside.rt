//! What lies in a face without touching its shell: components and isolated nodes.

ghost use Rattle.std.specs.Prelude.{◌≤◌, length};
ghost use Rattle.pemb_file.specs.Served.{contents_of_view};

use crate::places::start_at;
use crate::{names, positions};
use bit_words::Steps;
use pemb_file::Served;
use std::sync::ledger::Ledger;
use topo_base::{NodeId, Signed};

/// Something that lies in a face: a component, by the smallest signed edge of its outer ring, or an isolated node.
#[derive(Clone, Copy, Debug, PartialEq, Eq)]
pub enum Island {
    Edge(Signed),
    Node(NodeId),
}

/// A walk over what lies in a face: components from one entry of their order to before another, and then isolated nodes
/// in the same way.
#[derive(Clone, Copy)]
pub struct IslandWalk<'a> {
    served: Served<'a>,
    hole: usize,
    end: usize,
    node: usize,
    last: usize,
    ghost holes: { end ≤ length (contents_of_view served).place_order },
    ghost nodes: { last ≤ length (contents_of_view served).isolated },
}

impl<'a> IslandWalk<'a> {
    ghost use Rattle.std.specs.Prelude.{◌≡◌, ◌≤◌, ◌+◌, ◌∷◌, [], IsSome, IsNone, MatchOption};
    ghost use Rattle.std.specs.Prelude.{length};
    ghost use Rattle.pemb_file.specs.Served.{contents_of_view};
    ghost use Rattle.navigate.specs.IslandWalk.{contents_in, item_of, items_between, rest, allowance};

    /// The walk over these components and nodes.
    pub(crate) fn between(
        served: Served<'a>,
        hole: usize,
        end: usize,
        node: usize,
        last: usize,
    ) -> IslandWalk<'a>
        requires holes { end ≤ length (contents_of_view served).place_order }
        requires nodes { last ≤ length (contents_of_view served).isolated }
        ensures contents { contents_in result ≡ contents_of_view served.entry }
        ensures rest { rest result ≡ items_between (contents_of_view served.entry) hole end node last }
    {
        IslandWalk {
            served,
            hole,
            end,
            node,
            last,
        }
    }

    /// The next component or node, or None at the end.
    pub fn step<C: Ledger>(&mut self, steps: &mut Steps<C>) -> Option<Island>
        ensures contents { contents_in self.new ≡ contents_in self.old }
        ensures next { MatchOption result (rest self.old ≡ []) (λ island. rest self.old
            ≡ item_of island ∷ rest self.new) }
        ensures end { IsNone result → rest self.new ≡ [] }
        ensures least { IsSome result → steps.old + 1 ≤ steps.new }
        ensures free { IsNone result → steps.new ≡ steps.old }
        ensures paid { steps.new + allowance self.new ≤ steps.old + allowance self.old }
    {
        if self.hole < self.end {
            let (start, _component) = start_at(self.served, self.hole, steps);
            self.hole += 1;
            return Some(Island::Edge(positions::edge_at(self.served, start, steps)));
        }
        if self.node < self.last {
            let node = names::isolated_node(self.served, self.node, steps);
            self.node += 1;
            return Some(Island::Node(node));
        }
        None
    }
}
