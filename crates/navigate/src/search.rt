//! The walk round an orbit from its smallest signed edge on.

ghost use Rattle.std.specs.Prelude.{◌≡◌, ◌<◌, ◌≤◌, ◌+◌, ◌*◌, ◌++◌, false, length, map, drop, take};
ghost use Rattle.code_laws.specs.Orbits.{orbit};
ghost use Rattle.pemb_file.specs.Served.{contents_of_view};
ghost use Rattle.navigate.specs.FirstEdges.{edges_in};
ghost use Rattle.file_laws.specs.MapOfFile.{signed_at};
ghost use Rattle.navigate.specs.Beside.{place_across};
ghost use Rattle.navigate.specs.Least.{least, smallest_of, from_smallest};
ghost use Rattle.navigate.specs.OrbitWalk.{contents_in, edge_names, positions_left, rest, price, rank_price, across_price, allowance};
ghost use Rattle.navigate.specs.Ranked.{IsRankOf};

use crate::first_edges::{FIRST, FirstEdges};
use crate::orbit_walk::OrbitWalk;
use crate::ranked::RankedEdge;
use crate::ranked_edges::put_down_turned;
use arrayvec::ArrayVec;
use bit_words::Steps;
use pemb_file::Served;
use std::sync::ledger::Ledger;

/// The signed edges at the positions that a walk came by, by the ranks of their ids.
type Ranks = ArrayVec<RankedEdge, FIRST>;

/// The places of the faces across them.
pub(crate) type Places = ArrayVec<u32, FIRST>;

/// The walk round the orbit of `p` from its smallest signed edge on, which is that at `best` or one of those that `walk`
/// is still to come by.
fn searched<'a, C: Ledger>(
    served: Served<'a>,
    kind: bool,
    p: usize,
    walk: OrbitWalk<'a>,
    best: (usize, RankedEdge),
    steps: &mut Steps<C>,
) -> OrbitWalk<'a>
    requires contents { contents_in walk ≡ contents_of_view served }
    requires kind { walk.kind ≡ kind }
    requires within { best.0 < length (contents_of_view served).code.a }
    requires edge { IsRankOf (edge_names walk) best.1 (signed_at (contents_of_view served) best.0) }
    requires smallest { least (contents_of_view served) best.0 (positions_left walk)
        ≡ smallest_of (contents_of_view served) kind p }
    ensures contents { contents_in result ≡ contents_of_view served.entry }
    ensures kind { result.kind ≡ kind }
    ensures positions { positions_left result ≡ orbit (contents_of_view served.entry).code kind
        (smallest_of (contents_of_view served.entry) kind p) }
    ensures within { smallest_of (contents_of_view served.entry) kind p
        < length (contents_of_view served.entry).code.a }
    ensures grows { steps.old ≤ steps.new }
    ensures cost { steps.new ≤ steps.old + rank_price (contents_of_view served.entry)
        * length (positions_left walk.entry) }
{
    let (mut walk, mut best) = (walk, best);
    let edges = walk.edges();
    let _count = edges.count();
    while let Some(found) = walk.ranked(steps) {
        if found.1.is_less(best.1) {
            best = found;
        }
    }
    walk.begin_at(best.0);
    walk
}

/// The walk round the orbit of `p` from its smallest signed edge on, which a first walk round finds.
pub(crate) fn begun_at_smallest<'a, C: Ledger>(
    served: Served<'a>,
    kind: bool,
    p: usize,
    steps: &mut Steps<C>,
) -> OrbitWalk<'a>
    requires { p < length (contents_of_view served).code.a }
    ensures contents { contents_in result ≡ contents_of_view served.entry }
    ensures positions { positions_left result ≡ orbit (contents_of_view served.entry).code kind
        (smallest_of (contents_of_view served.entry) kind p) }
    ensures within { smallest_of (contents_of_view served.entry) kind p
        < length (contents_of_view served.entry).code.a }
    ensures some_steps { steps.old + 1 ≤ steps.new }
    ensures cost { steps.new ≤ steps.old + rank_price (contents_of_view served.entry)
        * length (orbit (contents_of_view served.entry).code kind p) }
{
    let mut walk = OrbitWalk::from(served, kind, p, 0);
    let Some(best) = walk.ranked(steps) else {
        unreachable!()
    };
    searched(served, kind, p, walk, best, steps)
}

/// Puts down the signed edges of the orbit of `p` from the smallest on, where they are fewer than there is room for, and
/// gives the walk over the rest of them: over none then, and else over all.
pub(crate) fn edges_from_smallest<'a, C: Ledger>(
    served: Served<'a>,
    kind: bool,
    p: usize,
    edges: &mut FirstEdges,
    steps: &mut Steps<C>,
) -> OrbitWalk<'a>
    requires { p < length (contents_of_view served).code.a }
    ensures contents { contents_in result ≡ contents_of_view served.entry }
    ensures list { edges_in edges.new ++ rest result ≡ from_smallest (contents_of_view served.entry) kind p }
    ensures within { smallest_of (contents_of_view served.entry) kind p
        < length (contents_of_view served.entry).code.a }
    ensures least { steps.old + length (edges_in edges.new) ≤ steps.new }
    ensures paid { steps.new + allowance result
        ≤ steps.old + (rank_price (contents_of_view served.entry) + price (contents_of_view served.entry))
        * length (orbit (contents_of_view served.entry).code kind p) }
{
    edges.clear();
    let mut walk = OrbitWalk::from(served, kind, p, 0);
    let names = walk.edges();
    let _count = names.count();
    let Some(mut best) = walk.ranked_once(steps) else {
        unreachable!()
    };
    let mut ranks = Ranks::new();
    let mut before = 0;
    ranks.push(best.1);
    while !ranks.is_full() {
        let Some(next) = walk.ranked_once(steps) else {
            put_down_turned(names, ranks.as_slice(), before, edges, steps);
            return walk;
        };
        let count = ranks.len();
        ranks.push(next.1);
        if next.1.is_less(best.1) {
            best = next;
            before = count;
        }
    }
    searched(served, kind, p, walk, best, steps)
}

/// Puts down the places of the faces across the edges of the ring of `p`, where they are fewer than there is room for,
/// from `p` on, and else none. Gives the walk round the ring from its smallest signed edge on, and how many of the places
/// stand before that one's.
pub(crate) fn places_from_smallest<'a, C: Ledger>(
    served: Served<'a>,
    p: usize,
    places: &mut Places,
    steps: &mut Steps<C>,
) -> (OrbitWalk<'a>, usize)
    requires { p < length (contents_of_view served).code.a }
    ensures contents { contents_in result.0 ≡ contents_of_view served.entry }
    ensures positions { positions_left result.0 ≡ orbit (contents_of_view served.entry).code false
        (smallest_of (contents_of_view served.entry) false p) }
    ensures within { smallest_of (contents_of_view served.entry) false p
        < length (contents_of_view served.entry).code.a }
    ensures before { result.1 ≤ length places.new.items }
    ensures places { 0 < length places.new.items → drop result.1 places.new.items ++ take result.1 places.new.items
        ≡ map (place_across (contents_of_view served.entry)) (positions_left result.0) }
    ensures least { steps.old + length places.new.items ≤ steps.new }
    ensures some_steps { steps.old + 1 ≤ steps.new }
    ensures cost { steps.new ≤ steps.old + across_price (contents_of_view served.entry)
        * length (orbit (contents_of_view served.entry).code false p) }
{
    places.clear();
    let mut walk = OrbitWalk::from(served, false, p, 0);
    let names = walk.edges();
    let _count = names.count();
    let Some(first) = walk.across_once(steps) else {
        unreachable!()
    };
    let mut best = (first.0, first.1.edge);
    let mut before = 0;
    places.push(first.1.across as u32);
    while !places.is_full() {
        let Some(found) = walk.across_once(steps) else {
            walk.begin_at(best.0);
            return (walk, before);
        };
        let count = places.len();
        places.push(found.1.across as u32);
        if found.1.edge.is_less(best.1) {
            best = (found.0, found.1.edge);
            before = count;
        }
    }
    places.clear();
    (searched(served, false, p, walk, best, steps), 0)
}
