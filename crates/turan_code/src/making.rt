//! The words of a code, made of a walk.

ghost use Rattle.std.specs.Prelude.{◌≡◌, ◌≤◌, length, IfOk};
ghost use Rattle.code_laws.specs.Tour.{picked, code_of};
ghost use Rattle.turan_code.specs.CodeWords.{AreWordsOf};

use bit_words::{BitMaker, Memory, all_bits, packed_numbers};
use rank_select::make_counts;
use std::alloc::Global;

/// A code in words: each sequence with the least bit of a word first, each count and each start by 32 bits.
#[derive(Drop)]
pub struct CodeWords {
    /// One bit for each position: whether its edge is one of the spanning trees.
    pub a: Vec<u64>,
    /// The ones of `a` before each block of 512 bits.
    pub a_counts: Vec<u64>,
    /// One bit for each position of an edge of the trees: whether it is the first of its edge.
    pub b: Vec<u64>,
    /// The ones of `b` before each block.
    pub b_counts: Vec<u64>,
    /// The least excesses of `b`.
    pub b_tree: Vec<u64>,
    /// One bit for each other position: whether it is the first of its edge.
    pub dual: Vec<u64>,
    /// The ones of `dual` before each block.
    pub dual_counts: Vec<u64>,
    /// The least excesses of `dual`.
    pub dual_tree: Vec<u64>,
    /// The first position of each component, and in the end the number of positions.
    pub starts: Vec<u64>,
}

/// For each position of one kind, whether it is the first of its edge.
fn bits_of_kind(
    alloc: Global,
    kind: bool,
    tree: &[bool],
    first: &[bool],
) -> Result<BitMaker, Memory>
    requires same { length tree.now ≡ length first.now }
    requires few { length tree.now ≤ 2147483647 }
    ensures { IfOk result (λ maker. maker ≡ picked kind tree.now first.now) }
{
    let mut maker = BitMaker::new(alloc);
    for p in 0..tree.len() {
        if tree[p] == kind {
            maker.push(first[p])?;
        }
    }
    Ok(maker)
}

/// The words of the code of a walk: for each position whether its edge is one of the trees, and whether it is the
/// first of its edge; and the starts of the components.
#[tactic(auto, using(crate::proofs::Picked::length_picked))]
pub fn make(
    alloc: Global,
    tree: &[bool],
    first: &[bool],
    starts: &[u32],
) -> Result<CodeWords, Memory>
    requires same { length tree.now ≡ length first.now }
    requires few { length tree.now ≤ 2147483647 }
    requires few_starts { length starts.now ≤ 2147483647 }
    ensures { IfOk result (λ words. AreWordsOf (code_of tree.now first.now starts.now) words) }
{
    let a = all_bits(alloc, tree)?;
    let b = bits_of_kind(alloc, true, tree, first)?;
    let dual = bits_of_kind(alloc, false, tree, first)?;
    let a_counts = make_counts(alloc, &a)?;
    let b_counts = make_counts(alloc, &b)?;
    let dual_counts = make_counts(alloc, &dual)?;
    let b_tree = min_max_tree::make(alloc, &b)?;
    let dual_tree = min_max_tree::make(alloc, &dual)?;
    let starts = packed_numbers(alloc, starts)?;
    Ok(CodeWords {
        a: a.finish(),
        a_counts: a_counts.finish(),
        b: b.finish(),
        b_counts: b_counts.finish(),
        b_tree,
        dual: dual.finish(),
        dual_counts: dual_counts.finish(),
        dual_tree,
        starts: starts.finish(),
    })
}
