//! How many words the tree has, and the check of words that may be no tree.

ghost use Rattle.std.specs.Prelude.{◌≡◌, ◌<◌, ◌≤◌, ◌+◌, ◌*◌, ◌-◌, length, MatchResult};
ghost use Rattle.bit_words.specs.BitView.{bits_of};
ghost use Rattle.bit_words.specs.WordView.{words_of};
ghost use Rattle.bit_words.specs.WrongEntry.{IsFirstWrong};
ghost use Rattle.min_max_tree.specs.Tree.{size_at, start_at, node_from, node_to, nodes_of, tree_size};
ghost use Rattle.min_max_tree.specs.Node.{IsRun};
ghost use Rattle.min_max_tree.specs.Level.{IsLevel};
ghost use Rattle.min_max_tree.specs.Built.{HoldsFirst};

use crate::level::Level;
use crate::node::Node;
use crate::scan::run_of_bits;
use bit_words::{BitView, Steps, WordView, WrongEntry};
use std::sync::ledger::Ledger;

/// How many words the tree of so many bits has, which is what `check` and `MinMaxView::new` ask of them.
pub fn node_count(len: usize) -> usize
    requires { len ≤ 2147483647 }
    ensures { result ≡ tree_size len }
{
    let mut level = Level::lowest();
    while level.size(len) > 1 {
        level = level.above(len);
    }
    level.start + level.size(len)
}

/// Node `j` of the level above `level`, from the nodes below it, by at most two steps.
fn parent_seen<C: Ledger>(
    bits: &BitView<'_>,
    nodes: &WordView<'_>,
    level: Level,
    j: usize,
    steps: &mut Steps<C>,
) -> Node
    requires few { length (bits_of bits.now) ≤ 2147483647 }
    requires level { IsLevel (length (bits_of bits.now)) level }
    requires within { j < size_at (length (bits_of bits.now)) (level.height + 1) }
    requires size { start_at (length (bits_of bits.now)) (level.height + 1) ≤ length (words_of nodes.now) }
    requires holds { HoldsFirst (nodes_of (bits_of bits.now)) (words_of nodes.now)
        (start_at (length (bits_of bits.now)) (level.height + 1)) }
    ensures run { IsRun (bits_of bits.now) (node_from (level.height + 1) j)
        (node_to (length (bits_of bits.now)) (level.height + 1) j) result }
    ensures some_steps { steps.old + 1 ≤ steps.new }
    ensures cost { steps.new ≤ steps.old + 2 }
{
    let at = level.start + 2 * j;
    let left = Node::of_word(nodes.word(at, steps));
    if 2 * j + 1 >= level.size(bits.len()) {
        return left;
    }
    left.joined(Node::of_word(nodes.word(at + 1, steps)))
}

/// Whether the nodes of the lowest level are right, or the first that is not.
fn check_lowest<C: Ledger>(
    bits: &BitView<'_>,
    nodes: &WordView<'_>,
    steps: &mut Steps<C>,
) -> Result<(), WrongEntry>
    requires few { length (bits_of bits.now) ≤ 2147483647 }
    requires size { length (words_of nodes.now) ≡ tree_size (length (bits_of bits.now)) }
    ensures checked { MatchResult result (λ _. HoldsFirst (nodes_of (bits_of bits.now)) (words_of nodes.now)
        (start_at (length (bits_of bits.now)) 1)) (IsFirstWrong (nodes_of (bits_of bits.now)) (words_of nodes.now)) }
    ensures grows { steps.old ≤ steps.new }
    ensures cost { steps.new ≤ steps.old + length (bits_of bits.now) + start_at (length (bits_of bits.now)) 1 }
{
    let len = bits.len();
    for block in 0..len.div_ceil(512) {
        let want = run_of_bits(bits, 512 * block, len.min(512 * (block + 1)), steps).word();
        let found = nodes.word(block, steps);
        if found != want {
            return Err(WrongEntry {
                at: block as u64,
                want,
                found,
            });
        }
    }
    Ok(())
}

/// Whether the nodes of the level above `level` are right, or the first that is not.
fn check_parents<C: Ledger>(
    bits: &BitView<'_>,
    nodes: &WordView<'_>,
    level: Level,
    steps: &mut Steps<C>,
) -> Result<(), WrongEntry>
    requires few { length (bits_of bits.now) ≤ 2147483647 }
    requires size { length (words_of nodes.now) ≡ tree_size (length (bits_of bits.now)) }
    requires level { IsLevel (length (bits_of bits.now)) level }
    requires more { 1 < size_at (length (bits_of bits.now)) level.height }
    requires holds { HoldsFirst (nodes_of (bits_of bits.now)) (words_of nodes.now)
        (start_at (length (bits_of bits.now)) (level.height + 1)) }
    ensures checked { MatchResult result (λ _. HoldsFirst (nodes_of (bits_of bits.now)) (words_of nodes.now)
        (start_at (length (bits_of bits.now)) (level.height + 2)))
        (IsFirstWrong (nodes_of (bits_of bits.now)) (words_of nodes.now)) }
    ensures grows { steps.old ≤ steps.new }
    ensures cost { steps.new + 3 * start_at (length (bits_of bits.now)) (level.height + 1)
        ≤ steps.old + 3 * start_at (length (bits_of bits.now)) (level.height + 2) }
{
    let len = bits.len();
    let above = level.above(len);
    for j in 0..above.size(len) {
        let want = parent_seen(bits, nodes, level, j, steps).word();
        let at = above.start + j;
        let found = nodes.word(at, steps);
        if found != want {
            return Err(WrongEntry {
                at: at as u64,
                want,
                found,
            });
        }
    }
    Ok(())
}

/// Whether all nodes are right, level by level, or the first that is not.
fn check_levels<C: Ledger>(
    bits: &BitView<'_>,
    nodes: &WordView<'_>,
    steps: &mut Steps<C>,
) -> Result<(), WrongEntry>
    requires few { length (bits_of bits.now) ≤ 2147483647 }
    requires size { length (words_of nodes.now) ≡ tree_size (length (bits_of bits.now)) }
    ensures checked { MatchResult result (λ _. words_of nodes.now ≡ nodes_of (bits_of bits.now))
        (IsFirstWrong (nodes_of (bits_of bits.now)) (words_of nodes.now)) }
    ensures grows { steps.old ≤ steps.new }
    ensures cost { steps.new ≤ steps.old + 4 * length (bits_of bits.now) + 16 }
{
    let len = bits.len();
    check_lowest(bits, nodes, steps)?;
    let mut level = Level::lowest();
    while level.size(len) > 1 {
        check_parents(bits, nodes, level, steps)?;
        level = level.above(len);
    }
    Ok(())
}

/// Whether the words are the tree of the bits, as `make` makes it. Err has the first word that is not.
pub fn check<C: Ledger>(
    bits: BitView<'_>,
    nodes: WordView<'_>,
    steps: &mut Steps<C>,
) -> Result<(), WrongEntry>
    requires few { length (bits_of bits) ≤ 2147483647 }
    requires size { length (words_of nodes) ≡ tree_size (length (bits_of bits)) }
    ensures checked { MatchResult result (λ _. words_of nodes.entry ≡ nodes_of (bits_of bits.entry))
        (IsFirstWrong (nodes_of (bits_of bits.entry)) (words_of nodes.entry)) }
    ensures grows { steps.old ≤ steps.new }
    ensures cost { steps.new ≤ steps.old + 4 * length (bits_of bits.entry) + 16 }
{
    check_levels(&bits, &nodes, steps)
}
