//! Walks as lists of items.

ghost use Rattle.std.specs.Prelude.{◌≡◌, map};
ghost use Rattle.topo_base.specs.Script as script;
ghost use Rattle.navigate.specs.IslandWalk.{item_of as island_said};
ghost use Rattle.topo_serve.specs.Items.{item_of};

use crate::item::Item;
use crate::items::Items;
use crate::next_items::NextItems;
use bit_words::Steps;
use navigate::{FaceWalk, Island, IslandWalk, NodeWalk, RegionWalk, Several};
use std::sync::ledger::Ledger;

impl Items for NodeWalk<'_> {
    ghost use Rattle.navigate.specs.OrbitWalk as orbits;

    ghost items = { λ w. map script.Signed_edge (orbits.rest w) };

    ghost allowance = { λ w. orbits.allowance w };

    #[inline(always)]
    fn next_items<C: Ledger>(&mut self, steps: &mut Steps<C>) -> NextItems {
        if self.is_over() {
            return NextItems::End;
        }
        let mut edges = Several::none();
        self.several(&mut edges, steps);
        NextItems::Edges(edges)
    }
}

impl Items for FaceWalk<'_> {
    ghost use Rattle.navigate.specs.FaceWalk as rings;

    ghost items = { λ w. map script.Signed_edge (rings.rest w) };

    ghost allowance = { λ w. rings.allowance w };

    #[inline(always)]
    fn next_items<C: Ledger>(&mut self, steps: &mut Steps<C>) -> NextItems {
        if self.is_over() {
            return NextItems::End;
        }
        let mut edges = Several::none();
        self.several(&mut edges, steps);
        NextItems::Edges(edges)
    }
}

impl Items for IslandWalk<'_> {
    ghost use Rattle.navigate.specs.IslandWalk as islands;

    ghost items = { λ w. islands.rest w };

    ghost allowance = { λ w. islands.allowance w };

    #[inline(always)]
    fn next_items<C: Ledger>(&mut self, steps: &mut Steps<C>) -> NextItems {
        match self.step(steps) {
            Some(island) => NextItems::One(island_item(island)),
            None => NextItems::End,
        }
    }
}

/// What lies in a face, as an item.
fn island_item(island: Island) -> Item
    ensures { item_of result ≡ island_said island }
{
    match island {
        Island::Edge(edge) => Item::Edge(edge),
        Island::Node(node) => Item::Node(node),
    }
}

impl Items for RegionWalk<'_> {
    ghost use Rattle.navigate.specs.RegionWalk as regions;

    ghost items = { λ w. map script.Number (regions.rest w) };

    ghost allowance = { λ w. regions.allowance w };

    #[inline(always)]
    fn next_items<C: Ledger>(&mut self, steps: &mut Steps<C>) -> NextItems {
        match self.step(steps) {
            Some(region) => NextItems::One(Item::Number(region.0)),
            None => NextItems::End,
        }
    }
}
