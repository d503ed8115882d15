//! What a walk finds at a position.

ghost use Rattle.std.specs.Prelude.{◌≡◌, ◌<◌, ◌≤◌, ◌+◌, length};
ghost use Rattle.code_laws.specs.Code.{step, next};
ghost use Rattle.id_names.specs.Views.{ids_of, names_in};
ghost use Rattle.file_laws.specs.MapOfFile.{signed_at};
ghost use Rattle.pemb_file.specs.Served.{contents_of_view};
ghost use Rattle.navigate.specs.Beside.{place_across};
ghost use Rattle.navigate.specs.KeptStops.{IsSeen};
ghost use Rattle.navigate.specs.OrbitWalk.{rank_price, across_price};
ghost use Rattle.navigate.specs.Ranked.{IsRankOf};

use crate::positions::place_of_ring;
use crate::ranked::{RankedEdge, ranked_with};
use bit_words::Steps;
use id_names::NamesView;
use pemb_file::Served;
use std::sync::ledger::Ledger;

/// What a walk finds at a position: the signed edge there, by its rank, and the position after it.
#[derive(Clone, Copy)]
pub(crate) struct RankedStop {
    pub(crate) edge: RankedEdge,
    /// The position itself, or its mate where the walk goes over its edge.
    pub(crate) over: usize,
    pub(crate) next: usize,
}

/// What a walk round a ring finds at a position: the signed edge there, by its rank, the place of the face across it, and
/// the position after it.
#[derive(Clone, Copy)]
pub(crate) struct AcrossStop {
    pub(crate) edge: RankedEdge,
    pub(crate) across: usize,
    pub(crate) next: usize,
}

/// The signed edge at a position by its rank among the names of the edges, and the position after it, round its node where
/// `kind` is true, and else round its ring.
#[inline(always)]
pub(crate) fn look_at<C: Ledger>(
    served: Served<'_>,
    edges: &NamesView<'_>,
    kind: bool,
    p: usize,
    component: &mut usize,
    steps: &mut Steps<C>,
) -> RankedStop
    requires within { p < length (contents_of_view served).code.a }
    requires ids { ids_of edges.now ≡ (contents_of_view served).edges }
    ensures seen { IsSeen (names_in edges.now) (contents_of_view served.entry) kind p result.over result.edge }
    ensures next { result.next ≡ step (contents_of_view served.entry).code kind p }
    ensures within { result.next < length (contents_of_view served.entry).code.a }
    ensures some_steps { steps.old + 1 ≤ steps.new }
    ensures cost { steps.new ≤ steps.old + rank_price (contents_of_view served.entry) }
{
    let stop = served.code().stop(kind, p, component, steps);
    let edge = ranked_with(served, edges, stop.edge as usize, stop.is_first, steps);
    RankedStop {
        edge,
        over: stop.over,
        next: stop.next,
    }
}

/// The signed edge at a position by its rank among the names of the edges, the place of the face across it, and the position
/// after it round its ring.
#[inline(always)]
pub(crate) fn look_across<C: Ledger>(
    served: Served<'_>,
    edges: &NamesView<'_>,
    p: usize,
    component: &mut usize,
    steps: &mut Steps<C>,
) -> AcrossStop
    requires within { p < length (contents_of_view served).code.a }
    requires ids { ids_of edges.now ≡ (contents_of_view served).edges }
    ensures edge { IsRankOf (names_in edges.now) result.edge (signed_at (contents_of_view served.entry) p) }
    ensures across { result.across ≡ place_across (contents_of_view served.entry) p }
    ensures low { result.across ≤ length (contents_of_view served.entry).faces }
    ensures next { result.next ≡ next (contents_of_view served.entry).code p }
    ensures within { result.next < length (contents_of_view served.entry).code.a }
    ensures some_steps { steps.old + 1 ≤ steps.new }
    ensures cost { steps.new ≤ steps.old + across_price (contents_of_view served.entry) }
{
    let stop = served.code().ring_stop(p, component, steps);
    let edge = ranked_with(served, edges, stop.edge as usize, stop.is_first, steps);
    AcrossStop {
        edge,
        across: place_of_ring(served, stop.across, steps),
        next: stop.next,
    }
}
