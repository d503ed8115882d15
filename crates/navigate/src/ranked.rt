//! Signed edges that are compared by the places of their ids, so that no id is read for it.

ghost use Rattle.std.specs.Prelude.{ℕ, ◌≡◌, ◌<◌, ◌≤◌, ◌+◌, length};
ghost use Rattle.id_names.specs.Views.{ids_of, names_in};
ghost use Rattle.code_laws.specs.Numbers.{edge_of};
ghost use Rattle.code_laws.specs.Code.{is_first};
ghost use Rattle.file_laws.specs.MapOfFile.{signed_at};
ghost use Rattle.pemb_file.specs.Served.{contents_of_view};
ghost use Rattle.navigate.specs.Ranked.{IsRankOf};

use bit_words::Steps;
use id_names::NamesView;
use pemb_file::Served;
use std::sync::ledger::Ledger;

/// A signed edge by the rank of its edge's id: its place in the list of ids that rises. No map has more edges than a rank
/// has room for.
#[derive(Clone, Copy, Default)]
pub(crate) struct RankedEdge {
    pub(crate) rank: u32,
    pub(crate) is_forward: bool,
}

impl RankedEdge {
    ghost use Rattle.std.specs.Prelude.{◌≡◌};
    ghost use Rattle.navigate.specs.Ranked.{ranks_before};

    /// Whether this one is the smaller of the two: by the edge's rank, and of one edge the forward one first.
    pub(crate) fn is_less(self, other: RankedEdge) -> bool
        ensures { result ≡ ranks_before self other }
    {
        self.rank < other.rank || (self.rank == other.rank && self.is_forward && !other.is_forward)
    }
}

/// The signed edge of the edge of a number, by its rank: that of its first position, or that of the other one.
pub(crate) fn ranked_with<C: Ledger>(
    served: Served<'_>,
    edges: &NamesView<'_>,
    number: usize,
    first: bool,
    steps: &mut Steps<C>,
) -> RankedEdge
    requires number { number < length (contents_of_view served).edges }
    requires names { ids_of edges.now ≡ (contents_of_view served).edges }
    ensures edge { (p : ℕ) → number ≡ edge_of (contents_of_view served.entry).code p
        → first ≡ is_first (contents_of_view served.entry).code p
        → IsRankOf (names_in edges.now) result (signed_at (contents_of_view served.entry) p) }
    ensures some_steps { steps.old + 1 ≤ steps.new }
    ensures cost { steps.new ≤ steps.old + 3 }
{
    let forward = served.forward(number, steps);
    let _count = edges.count();
    RankedEdge {
        rank: edges.rank_of(number, steps) as u32,
        is_forward: first == forward,
    }
}
