//! Sets of numbers, joined two by two.

use crate::links::{join_sets, number_sets, own_links};
use crate::numbers::SetNumbers;
use std::alloc::{AllocError, Global};
use std::marker::Model;

/// Sets of the numbers below some count, each number in one, in 4 bytes a number. Contracts see the list that has, for
/// each number, the least number of its set. (A forest of links, with paths that are halved as they are gone; Tarjan
/// and van Leeuwen, 1984.)
#[derive(Drop)]
pub struct DisjointSets {
    /// of each number a lesser one of its set, and of the least number itself
    links: Vec<u32>,
}

impl Model for DisjointSets {
    ghost use Rattle.std.specs.Prelude.{ℕ, ◌<◌, List, length};
    ghost use Rattle.disjoint_sets.specs.Links.{AreLinks, leasts};

    ghost Value = { List ℕ };

    ghost view = { λ s. leasts s.links.items };

    ghost invariant = { λ s. AreLinks s.links.items × length s.links.items < 4294967296 };
}

impl DisjointSets {
    ghost use Rattle.std.specs.Prelude.{◌≡◌, ◌<◌, IfOk, length};
    ghost use Rattle.std.specs.List.{range_with_len};
    ghost use Rattle.disjoint_sets.specs.Sets.{AreSets, joined, numbered};

    /// The numbers below a count, each in a set of its own.
    pub fn new(alloc: Global, count: u32) -> Result<DisjointSets, AllocError>
        ensures alone { IfOk result (λ sets. sets ≡ range_with_len 0 count) }
        ensures sets { IfOk result (λ sets. AreSets sets) }
    {
        Ok(DisjointSets {
            links: own_links(alloc, count)?,
        })
    }

    /// Makes one set of those of two members.
    pub fn join(&mut self, a: u32, b: u32)
        requires a { a < length self.old }
        requires b { b < length self.old }
        ensures joined { self.new ≡ joined self.old a b }
        ensures sets { AreSets self.new }
    {
        join_sets(&mut self.links, a, b);
    }

    /// The sets, numbered by their least members, in the same memory.
    pub fn into_numbers(self) -> SetNumbers
        ensures numbered { result ≡ numbered self }
        ensures sets { AreSets self }
    {
        let mut links = self.links;
        let count = number_sets(&mut links);
        SetNumbers::new(count, links)
    }
}
