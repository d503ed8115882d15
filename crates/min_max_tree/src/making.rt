//! The words of the tree, made of bits.

ghost use Rattle.std.specs.Prelude.{◌≡◌, ◌<◌, ◌≤◌, ◌+◌, ◌*◌, [], ◌∷◌, ◌++◌, length, min, OnOk, OnErr, IfOk};
ghost use Rattle.min_max_tree.specs.Tree.{size_at, start_at, node_from, node_to, nodes_of};
ghost use Rattle.min_max_tree.specs.Node.{IsRun};
ghost use Rattle.min_max_tree.specs.Level.{IsLevel};
ghost use Rattle.min_max_tree.specs.Built.{HoldsFirst, Built};

use crate::level::Level;
use crate::node::Node;
use crate::scan::run_of_front;
use bit_words::{BitMaker, Memory};
use std::alloc::Global;

/// The bits of block `block`, word by word.
fn run_of_block(bits: &BitMaker, block: usize) -> Node
    requires few { length bits.now ≤ 2147483647 }
    requires within { 512 * block < length bits.now }
    ensures { IsRun bits.now (512 * block) (min (length bits.now) (512 * (block + 1))) result }
{
    let len = bits.len();
    let mut run = Node::empty();
    for word in 8 * block..len.div_ceil(64).min(8 * (block + 1)) {
        let count = (len - 64 * word).min(64) as u32;
        run = run.joined(run_of_front(bits.chunk(word), count));
    }
    run
}

/// Node `j` of the level above `level`, from the nodes below it.
fn parent_of(bits: &BitMaker, nodes: &[u64], level: Level, j: usize) -> Node
    requires few { length bits.now ≤ 2147483647 }
    requires level { IsLevel (length bits.now) level }
    requires more { 1 < size_at (length bits.now) level.height }
    requires within { j < size_at (length bits.now) (level.height + 1) }
    requires size { start_at (length bits.now) (level.height + 1) ≤ length nodes.now }
    requires holds { HoldsFirst (nodes_of bits.now) nodes.now (start_at (length bits.now) (level.height + 1)) }
    ensures { IsRun bits.now (node_from (level.height + 1) j) (node_to (length bits.now) (level.height + 1) j) result }
{
    let at = level.start + 2 * j;
    let left = Node::of_word(nodes[at]);
    if 2 * j + 1 >= level.size(bits.len()) {
        return left;
    }
    left.joined(Node::of_word(nodes[at + 1]))
}

/// Puts a word at the end.
fn push_word(nodes: &mut Vec<u64>, word: u64) -> Result<(), Memory>
    ensures ok { OnOk result (nodes.new.items ≡ nodes.old.items ++ word ∷ []) }
{
    match nodes.push(word) {
        Ok(()) => Ok(()),
        Err(_) => Err(Memory),
    }
}

/// The lowest level, of one node for each block of 512 bits.
fn lowest_nodes(alloc: Global, bits: &BitMaker) -> Result<Vec<u64>, Memory>
    requires few { length bits.now ≤ 2147483647 }
    ensures { IfOk result (λ nodes. Built (nodes_of bits.now) nodes.items (start_at (length bits.now) 1)) }
{
    let len = bits.len();
    let mut nodes = Vec::new(alloc);
    for block in 0..len.div_ceil(512) {
        push_word(&mut nodes, run_of_block(bits, block).word())?;
    }
    Ok(nodes)
}

/// Puts the nodes of the level above `level` at the end.
fn push_parents(bits: &BitMaker, nodes: &mut Vec<u64>, level: Level) -> Result<(), Memory>
    requires few { length bits.now ≤ 2147483647 }
    requires level { IsLevel (length bits.now) level }
    requires more { 1 < size_at (length bits.now) level.height }
    requires built { Built (nodes_of bits.now) nodes.old.items (start_at (length bits.now) (level.height + 1)) }
    ensures built { OnOk result (Built (nodes_of bits.now) nodes.new.items
        (start_at (length bits.now) (level.height + 2))) }
{
    let len = bits.len();
    for j in 0..level.above(len).size(len) {
        let run = parent_of(bits, nodes.as_slice(), level, j);
        push_word(nodes, run.word())?;
    }
    Ok(())
}

/// The tree of these bits: the words of its levels, from the lowest, which has one for each block of
/// 512 bits, to the one of one word. No word where there are no bits.
pub fn make(alloc: Global, bits: &BitMaker) -> Result<Vec<u64>, Memory>
    requires { length bits.now ≤ 2147483647 }
    ensures { IfOk result (λ nodes. nodes.items ≡ nodes_of bits.now) }
{
    let len = bits.len();
    let mut nodes = lowest_nodes(alloc, bits)?;
    let mut level = Level::lowest();
    while level.size(len) > 1 {
        push_parents(bits, &mut nodes, level)?;
        level = level.above(len);
    }
    Ok(nodes)
}
