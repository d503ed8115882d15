//! The numbers of a code at all its positions, by reading it once with two stacks.

ghost use Rattle.std.specs.Prelude.{◌≡◌, ◌<◌, ◌≤◌, ◌+◌, ◌⊎◌, true, false, [], ◌∷◌, ◌++◌, length, IfOk, OnOk, IsTrue};
ghost use Rattle.code_laws.specs.Code.{component_of, component_count};
ghost use Rattle.code_laws.specs.Numbers.{tree_edges, edge_of, node_of, ring_of};
ghost use Rattle.code_laws.specs.Enclosing.{IsLastOf};
ghost use Rattle.code_laws.specs.SeqFault.{is_sound};
ghost use Rattle.code_laws.specs.Tour.{code_of, ring_code, edge_numbers, node_numbers, ring_numbers};
ghost use Rattle.turan_code.specs.Numbering.{code_of_walk, IsWalk, Passes, AreEnclosing, HaveBegun, IsGap, AreNumbersAt, HasLists};

use bit_words::{Memory, ones};
use std::alloc::Global;

/// The numbers of a code, one entry for each position.
#[derive(Drop)]
pub struct CodeNumbering {
    /// The number of the edge at the position.
    pub edge: Vec<u32>,
    /// The number of the node that the position leaves.
    pub node: Vec<u32>,
    /// 0 where the ring of the position is an outer ring, and else one more than the number of its shell.
    pub ring: Vec<u32>,
}

/// A walk: for each position whether its edge is one of the trees, and whether it is the first of its edge; and the
/// starts of the components.
#[derive(Clone, Copy)]
struct Walk<'a> {
    tree: &'a [bool],
    first: &'a [bool],
    starts: &'a [u32],
}

/// The numbers at one position.
#[derive(Clone, Copy)]
struct Numbers {
    edge: u32,
    node: u32,
    ring: u32,
}

/// The pairs of one kind that stand round a gap, by their numbers, the innermost one last.
#[derive(Drop)]
struct OpenPairs {
    numbers: Vec<u32>,
    /// How many pairs have opened before the gap.
    opened: u32,
}

/// What stands round the gap before a position.
#[derive(Drop)]
struct Gap {
    tree: OpenPairs,
    dual: OpenPairs,
    /// How many components have begun before the gap.
    begun: usize,
}

/// Room for so many numbers.
fn with_room(alloc: Global, count: usize) -> Result<Vec<u32>, Memory>
    ensures { IfOk result (λ numbers. numbers.items ≡ []) }
{
    match Vec::with_capacity(alloc, count) {
        Ok(numbers) => Ok(numbers),
        Err(_) => Err(Memory),
    }
}

/// Puts a number at the end.
fn push(numbers: &mut Vec<u32>, number: u32) -> Result<(), Memory>
    ensures { OnOk result (numbers.new.items ≡ numbers.old.items ++ number ∷ []) }
{
    match numbers.push(number) {
        Ok(()) => Ok(()),
        Err(_) => Err(Memory),
    }
}

impl<'a> Walk<'a> {
    /// How many edges the trees have.
    fn tree_edges(self) -> u32
        requires { IsWalk self }
        ensures { result ≡ tree_edges (code_of_walk self.entry) }
    {
        (ones(self.tree) / 2) as u32
    }

    /// How many components there are.
    fn components(self) -> usize
        requires { IsWalk self }
        ensures { result ≡ component_count (code_of_walk self.entry) }
    {
        self.starts.len() - 1
    }

    /// How many components have begun with position `p`, where `begun` have before it.
    fn begun_with(self, p: usize, begun: usize) -> usize
        requires walk { IsWalk self }
        requires within { p < length self.tree.now }
        requires begun { HaveBegun (code_of_walk self) p begun }
        ensures begun { HaveBegun (code_of_walk self.entry) (p + 1) result }
        ensures component { result ≡ component_of (code_of_walk self.entry) p + 1 }
    {
        if self.starts[begun] as usize == p {
            begun + 1
        } else {
            begun
        }
    }
}

impl OpenPairs {
    /// No pairs yet.
    fn new(alloc: Global) -> OpenPairs
        ensures numbers { result.numbers.items ≡ [] }
        ensures opened { result.opened ≡ 0 }
    {
        OpenPairs {
            numbers: Vec::new(alloc),
            opened: 0,
        }
    }

    /// The number of the innermost pair.
    fn innermost(&self) -> Option<u32>
        ensures { IsLastOf self.now.numbers.items result }
    {
        self.numbers.last().copied()
    }

    /// Passes a place that opens or closes a pair, and gives the number of the pair.
    fn pass(&mut self, opens: bool) -> Result<u32, Memory>
        requires room { self.old.opened < 4294967295 }
        requires open { IsTrue opens ⊎ (0 < length self.old.numbers.items) }
        ensures { IfOk result (Passes opens self.old self.new) }
    {
        if opens {
            let number = self.opened;
            push(&mut self.numbers, number)?;
            self.opened += 1;
            Ok(number)
        } else {
            match self.numbers.pop() {
                Some(number) => Ok(number),
                None => unreachable!(),
            }
        }
    }
}

impl Gap {
    /// The gap before the first position.
    fn new(alloc: Global) -> Gap
        ensures tree { (result.tree.numbers.items ≡ []) × (result.tree.opened ≡ 0) }
        ensures dual { (result.dual.numbers.items ≡ []) × (result.dual.opened ≡ 0) }
        ensures begun { result.begun ≡ 0 }
    {
        Gap {
            tree: OpenPairs::new(alloc),
            dual: OpenPairs::new(alloc),
            begun: 0,
        }
    }

    /// Passes position `p` among the positions of its kind, and gives the number of its edge.
    fn pass_edge(&mut self, walk: Walk<'_>, of_trees: u32, p: usize) -> Result<u32, Memory>
        requires walk { IsWalk walk }
        requires within { p < length walk.tree.now }
        requires of_trees { of_trees ≡ tree_edges (code_of_walk walk) }
        requires tree { AreEnclosing (code_of_walk walk) true p self.old.tree }
        requires dual { AreEnclosing (code_of_walk walk) false p self.old.dual }
        ensures edge { IfOk result (λ edge. edge ≡ edge_of (code_of_walk walk.entry) p) }
        ensures tree { OnOk result (AreEnclosing (code_of_walk walk.entry) true (p + 1) self.new.tree) }
        ensures dual { OnOk result (AreEnclosing (code_of_walk walk.entry) false (p + 1) self.new.dual) }
        ensures begun { self.new.begun ≡ self.old.begun }
    {
        let first = walk.first[p];
        if walk.tree[p] {
            self.tree.pass(first)
        } else {
            Ok(of_trees + self.dual.pass(first)?)
        }
    }

    /// The number of the node that position `p` leaves, which is in this component.
    fn node(&self, walk: Walk<'_>, component: usize, p: usize) -> u32
        requires walk { IsWalk walk }
        requires within { p < length walk.tree.now }
        requires component { component ≡ component_of (code_of_walk walk) p }
        requires tree { AreEnclosing (code_of_walk walk) true p self.now.tree }
        ensures { result ≡ node_of (code_of_walk walk.entry) p }
    {
        match self.tree.innermost() {
            Some(pair) => (walk.components() + pair as usize) as u32,
            None => component as u32,
        }
    }

    /// The ring of position `p`: 0 for an outer ring, and else one more than the number of its shell.
    fn ring(&self, walk: Walk<'_>, p: usize) -> u32
        requires walk { IsWalk walk }
        requires within { p < length walk.tree.now }
        requires dual { AreEnclosing (code_of_walk walk) false p self.now.dual }
        ensures { result ≡ ring_code (ring_of (code_of_walk walk.entry) p) }
    {
        match self.dual.innermost() {
            Some(pair) => pair + 1,
            None => 0,
        }
    }

    /// Passes position `p`, and gives its numbers.
    fn pass(&mut self, walk: Walk<'_>, of_trees: u32, p: usize) -> Result<Numbers, Memory>
        requires walk { IsWalk walk }
        requires within { p < length walk.tree.now }
        requires of_trees { of_trees ≡ tree_edges (code_of_walk walk) }
        requires gap { IsGap (code_of_walk walk) p self.old }
        ensures numbers { IfOk result (AreNumbersAt (code_of_walk walk.entry) p) }
        ensures gap { OnOk result (IsGap (code_of_walk walk.entry) (p + 1) self.new) }
    {
        self.begun = walk.begun_with(p, self.begun);
        let node = self.node(walk, self.begun - 1, p);
        let ring = self.ring(walk, p);
        let edge = self.pass_edge(walk, of_trees, p)?;
        Ok(Numbers { edge, node, ring })
    }
}

impl CodeNumbering {
    /// Room for the numbers of so many positions.
    fn with_room(alloc: Global, positions: usize) -> Result<CodeNumbering, Memory>
        ensures { IfOk result (λ numbering. HasLists [] [] [] numbering) }
    {
        Ok(CodeNumbering {
            edge: with_room(alloc, positions)?,
            node: with_room(alloc, positions)?,
            ring: with_room(alloc, positions)?,
        })
    }

    /// Puts the numbers of the next position at the end.
    fn push(&mut self, numbers: Numbers) -> Result<(), Memory>
        ensures { OnOk result (HasLists (self.old.edge.items ++ numbers.edge ∷ [])
            (self.old.node.items ++ numbers.node ∷ []) (self.old.ring.items ++ numbers.ring ∷ []) self.new) }
    {
        push(&mut self.edge, numbers.edge)?;
        push(&mut self.node, numbers.node)?;
        push(&mut self.ring, numbers.ring)
    }
}

/// The numbers at each position of a walk with a sound code, in one pass with a stack for each kind of edges.
pub fn number(
    alloc: Global,
    tree: &[bool],
    first: &[bool],
    starts: &[u32],
) -> Result<CodeNumbering, Memory>
    requires same { length tree.now ≡ length first.now }
    requires few { length tree.now ≤ 2147483647 }
    requires sound { IsTrue (is_sound (code_of tree.now first.now starts.now)) }
    ensures edge { IfOk result (λ numbering. numbering.edge.items
        ≡ edge_numbers (code_of tree.now first.now starts.now)) }
    ensures node { IfOk result (λ numbering. numbering.node.items
        ≡ node_numbers (code_of tree.now first.now starts.now)) }
    ensures ring { IfOk result (λ numbering. numbering.ring.items
        ≡ ring_numbers (code_of tree.now first.now starts.now)) }
{
    let walk = Walk {
        tree,
        first,
        starts,
    };
    let of_trees = walk.tree_edges();
    let mut gap = Gap::new(alloc);
    let mut numbering = CodeNumbering::with_room(alloc, tree.len())?;
    for p in 0..tree.len() {
        let numbers = gap.pass(walk, of_trees, p)?;
        numbering.push(numbers)?;
    }
    Ok(numbering)
}
