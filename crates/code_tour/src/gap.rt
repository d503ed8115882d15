//! What stands round the gap before a position.

ghost use Rattle.std.specs.Prelude.{◌≡◌, ◌<◌, ◌≤◌, ◌+◌, true, false, length};
ghost use Rattle.scratch_region.specs.Numbers.{numbers_of};
ghost use Rattle.code_laws.specs.Code.{component_of, is_first, is_tree};
ghost use Rattle.code_laws.specs.Numbers.{edge_of, node_of, ring_of, shell_count, tree_edges};
ghost use Rattle.code_laws.specs.Tour.{ring_code};
ghost use Rattle.turan_code.specs.TuranView.{code_of_parts};
ghost use Rattle.code_tour.specs.Gap.{AreOpen, AreShort, IsGap};
ghost use Rattle.code_tour.specs.Passed.{IsPassed};

use crate::begun::{Begun, begun_with};
use crate::open_pairs::OpenPairs;
use crate::passed::Passed;
use bit_words::Steps;
use scratch_region::Numbers;
use std::sync::ledger::Ledger;
use turan_code::TuranParts;

/// What stands round the gap before a position.
#[derive(Drop)]
pub(crate) struct Gap<'r> {
    tree: OpenPairs<'r>,
    dual: OpenPairs<'r>,
    begun: Begun,
}

/// The number of the edge at a position, and whether the position is its first.
#[derive(Clone, Copy)]
struct End {
    edge: u32,
    first: bool,
}

/// The number of the node that position `p` leaves, which is in this component.
fn node<'r>(parts: TuranParts<'_>, tree: &OpenPairs<'r>, component: usize, p: usize) -> u32
    requires short { AreShort parts }
    requires within { p < length (code_of_parts parts).a }
    requires component { component ≡ component_of (code_of_parts parts) p }
    requires tree { AreOpen (code_of_parts parts) true p tree.now }
    ensures { result ≡ node_of (code_of_parts parts.entry) p }
{
    match tree.innermost() {
        Some(pair) => (parts.starts.count() - 1 + pair as usize) as u32,
        None => component as u32,
    }
}

/// The ring of a position: 0 for an outer ring, and else one more than the number of its shell.
fn ring<'r>(parts: TuranParts<'_>, dual: &OpenPairs<'r>, p: usize) -> u32
    requires short { AreShort parts }
    requires within { p < length (code_of_parts parts).a }
    requires dual { AreOpen (code_of_parts parts) false p dual.now }
    ensures { result ≡ ring_code (ring_of (code_of_parts parts.entry) p) }
{
    match dual.innermost() {
        Some(pair) => pair as u32 + 1,
        None => 0,
    }
}

impl<'r> Gap<'r> {
    /// The gap before the first position of a code, with room for the pairs of each kind.
    pub(crate) fn new(parts: TuranParts<'_>, tree: Numbers<'r>, dual: Numbers<'r>) -> Gap<'r>
        requires short { AreShort parts }
        requires tree { tree_edges (code_of_parts parts) ≤ length (numbers_of tree) }
        requires dual { shell_count (code_of_parts parts) ≤ length (numbers_of dual) }
        ensures { IsGap (code_of_parts parts.entry) 0 result }
    {
        Gap {
            tree: OpenPairs::new(tree),
            dual: OpenPairs::new(dual),
            begun: Begun { count: 0, next: 0 },
        }
    }

    /// Passes position `p` among the positions of its kind.
    fn pass_edge<C: Ledger>(
        &mut self,
        parts: TuranParts<'_>,
        tree: bool,
        p: usize,
        steps: &mut Steps<C>,
    ) -> End
        requires short { AreShort parts }
        requires within { p < length (code_of_parts parts).a }
        requires kind { is_tree (code_of_parts parts) p ≡ tree }
        requires tree { AreOpen (code_of_parts parts) true p self.old.tree }
        requires dual { AreOpen (code_of_parts parts) false p self.old.dual }
        ensures edge { result.edge ≡ edge_of (code_of_parts parts.entry) p }
        ensures first { result.first ≡ is_first (code_of_parts parts.entry) p }
        ensures tree { AreOpen (code_of_parts parts.entry) true (p + 1) self.new.tree }
        ensures dual { AreOpen (code_of_parts parts.entry) false (p + 1) self.new.dual }
        ensures begun { self.new.begun ≡ self.old.begun }
        ensures one_step { steps.new ≡ steps.old + 1 }
    {
        if tree {
            let first = parts.tree.is_open(self.tree.place(), steps);
            let number = self.tree.pass(first);
            End {
                edge: number as u32,
                first,
            }
        } else {
            let first = parts.dual.is_open(self.dual.place(), steps);
            let number = self.dual.pass(first) as usize;
            End {
                edge: (parts.tree.len() / 2 + number) as u32,
                first,
            }
        }
    }

    /// Passes position `p`, and gives its numbers.
    pub(crate) fn pass<C: Ledger>(
        &mut self,
        parts: TuranParts<'_>,
        p: usize,
        steps: &mut Steps<C>,
    ) -> Passed
        requires short { AreShort parts }
        requires within { p < length (code_of_parts parts).a }
        requires gap { IsGap (code_of_parts parts) p self.old }
        ensures numbers { IsPassed (code_of_parts parts.entry) p result }
        ensures gap { IsGap (code_of_parts parts.entry) (p + 1) self.new }
        ensures some_steps { steps.old + 1 ≤ steps.new }
        ensures cost { steps.new ≤ steps.old + 4 }
    {
        let tree = parts.a.bits().bit(p, steps);
        self.begun = begun_with(parts, p, self.begun, steps);
        let component = self.begun.count - 1;
        let node = node(parts, &self.tree, component, p);
        let ring = ring(parts, &self.dual, p);
        let End { edge, first } = self.pass_edge(parts, tree, p, steps);
        Passed {
            edge,
            node,
            ring,
            component: component as u32,
            first,
            tree,
        }
    }
}
