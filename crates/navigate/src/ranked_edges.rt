//! The edges at some positions of a walk, whose ids are read together.

ghost use Rattle.std.specs.Prelude.{ℤ, List, ◌≡◌, ◌≤◌, ◌+◌, ◌*◌, ◌++◌, [], drop, take, length, map};
ghost use Rattle.bit_words.specs.Digits.{digits};
ghost use Rattle.id_names.specs.RisingNames.{HasNoGap};
ghost use Rattle.id_names.specs.Views.{ids_of, names_in};
ghost use Rattle.navigate.specs.Ranked.{AreRanksOf, low_of};
ghost use Rattle.navigate.specs.FirstEdges.{edges_in as first_in};
ghost use Rattle.navigate.specs.Several.{edges_in};
ghost use Rattle.navigate.specs.declared.first_edges.TheConstants.{FIRST};
ghost use Rattle.navigate.specs.declared.several.TheConstants.{SEVERAL};

use crate::directed::with_direction;
use crate::first_edges::FirstEdges;
use crate::ranked::RankedEdge;
use crate::several::{SEVERAL, Several};
use arrayvec::ArrayVec;
use bit_words::Steps;
use id_names::NamesView;
use std::sync::ledger::Ledger;

/// The signed edges at some positions by the ranks of their ids, one after the other.
pub(crate) type RankedEdges = ArrayVec<RankedEdge, SEVERAL>;

/// The low parts of some ids, one by one.
type LowParts = ArrayVec<u64, SEVERAL>;

/// The low parts of the ids at some ranks. No read of one waits for that of another.
#[inline(always)]
fn low_parts<C: Ledger>(
    names: &NamesView<'_>,
    ranks: &[RankedEdge],
    steps: &mut Steps<C>,
) -> LowParts
    requires few { length ranks.now ≤ SEVERAL }
    requires ranks { (edges : List ℤ) × AreRanksOf (names_in names.now) ranks.now edges }
    ensures lows { result.items ≡ map (low_of (names_in names.now)) ranks.now }
    ensures grows { steps.old ≤ steps.new }
    ensures cost { steps.new ≤ steps.old + 2 * length ranks.now }
{
    let mut lows = LowParts::new();
    for ranked in ranks {
        lows.push(names.low_at(ranked.rank as usize, steps));
    }
    lows
}

/// Puts down the signed edges of these ranks among names without gaps, in the place of those that stood there. No word is
/// read.
#[inline(always)]
fn edges_without_gaps(names: &NamesView<'_>, ranks: &[RankedEdge], edges: &mut Several)
    requires few { length ranks.now ≤ SEVERAL }
    requires gapless { HasNoGap (names_in names.now) }
    requires ranks { (edges : List ℤ) × AreRanksOf (names_in names.now) ranks.now edges }
    ensures edges { (given : List ℤ) → AreRanksOf (names_in names.now) ranks.now given → edges_in edges.new ≡ given }
{
    edges.clear();
    for edge in ranks {
        let id = names.id_without_gaps(edge.rank as usize);
        edges.push(with_direction(id, edge.is_forward));
    }
}

/// Puts down the signed edges of these ranks among the names, in the place of those that stood there. The low parts of
/// their ids, which stand far from one another, are read before all else.
#[inline(always)]
fn edges_by_reading<C: Ledger>(
    names: &NamesView<'_>,
    ranks: &[RankedEdge],
    edges: &mut Several,
    steps: &mut Steps<C>,
)
    requires few { length ranks.now ≤ SEVERAL }
    requires ranks { (edges : List ℤ) × AreRanksOf (names_in names.now) ranks.now edges }
    ensures edges { (given : List ℤ) → AreRanksOf (names_in names.now) ranks.now given → edges_in edges.new ≡ given }
    ensures least { steps.old + length ranks.now ≤ steps.new }
    ensures cost { steps.new ≤ steps.old + (3 * digits (length (ids_of names.now) + 2) + 18) * length ranks.now }
{
    edges.clear();
    let lows = low_parts(names, ranks, steps);
    for (place, ranked) in ranks.iter().enumerate() {
        let low = lows.as_slice()[place];
        let id = names.id_with(ranked.rank as usize, low, steps);
        edges.push(with_direction(id, ranked.is_forward));
    }
}

/// Puts down the signed edges of these ranks among the names, in the place of those that stood there.
#[inline(always)]
pub(crate) fn edges_of<C: Ledger>(
    names: &NamesView<'_>,
    ranks: &[RankedEdge],
    edges: &mut Several,
    steps: &mut Steps<C>,
)
    requires few { length ranks.now ≤ SEVERAL }
    requires ranks { (edges : List ℤ) × AreRanksOf (names_in names.now) ranks.now edges }
    ensures edges { (given : List ℤ) → AreRanksOf (names_in names.now) ranks.now given → edges_in edges.new ≡ given }
    ensures grows { steps.old ≤ steps.new }
    ensures cost { steps.new ≤ steps.old + (3 * digits (length (ids_of names.now) + 2) + 18) * length ranks.now }
{
    if names.is_gapless() {
        edges_without_gaps(names, ranks, edges);
    } else {
        edges_by_reading(names, ranks, edges, steps);
    }
}

/// Puts down the signed edges of these ranks among the names behind those that stand there, several at once.
pub(crate) fn put_down<C: Ledger>(
    names: &NamesView<'_>,
    ranks: &[RankedEdge],
    edges: &mut FirstEdges,
    steps: &mut Steps<C>,
)
    requires room { length (first_in edges.old) + length ranks.now ≤ FIRST }
    requires ranks { (edges : List ℤ) × AreRanksOf (names_in names.now) ranks.now edges }
    ensures edges { (given : List ℤ) → AreRanksOf (names_in names.now) ranks.now given
        → first_in edges.new ≡ first_in edges.old ++ given }
    ensures grows { steps.old ≤ steps.new }
    ensures cost { steps.new ≤ steps.old + (3 * digits (length (ids_of names.now) + 2) + 18) * length ranks.now }
{
    let mut several = Several::none();
    let mut left = ranks;
    while !left.is_empty() {
        let (now, later) = left.split_at(left.len().min(SEVERAL));
        edges_of(names, now, &mut several, steps);
        edges.extend(several.as_slice());
        left = later;
    }
}

/// Puts down the signed edges of these ranks from one of them on, and then those before it, where none stand there yet.
pub(crate) fn put_down_turned<C: Ledger>(
    names: &NamesView<'_>,
    ranks: &[RankedEdge],
    before: usize,
    edges: &mut FirstEdges,
    steps: &mut Steps<C>,
)
    requires none { first_in edges.old ≡ [] }
    requires room { length ranks.now ≤ FIRST }
    requires before { before ≤ length ranks.now }
    requires ranks { (edges : List ℤ) × AreRanksOf (names_in names.now) ranks.now edges }
    ensures edges { (given : List ℤ) → AreRanksOf (names_in names.now) ranks.now given
        → first_in edges.new ≡ drop before given ++ take before given }
    ensures grows { steps.old ≤ steps.new }
    ensures cost { steps.new ≤ steps.old + (3 * digits (length (ids_of names.now) + 2) + 18) * length ranks.now }
{
    let (front, back) = ranks.split_at(before);
    put_down(names, back, edges, steps);
    put_down(names, front, edges, steps);
}
