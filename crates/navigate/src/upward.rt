//! The walk from a region to its parents, step by step.

ghost use Rattle.std.specs.Prelude.{ℕ, ◌≡◌, ◌<◌, length, Some};
ghost use Rattle.pemb_file.specs.Served.{contents_of_view};

use bit_words::Steps;
use pemb_file::Served;
use std::sync::ledger::Ledger;
use topo_base::RegionId;

/// A walk from a region to its parent, and so on.
#[derive(Clone, Copy)]
pub struct RegionWalk<'a> {
    served: Served<'a>,
    /// The number of the next region: none at the end.
    next: Option<usize>,
    ghost within: { (region : ℕ) → next ≡ Some region → region < length (contents_of_view served).regions },
}

impl<'a> RegionWalk<'a> {
    ghost use Rattle.std.specs.Prelude.{ℕ, ◌≡◌, ◌<◌, ◌≤◌, ◌+◌, ◌∷◌, [], length, Some, IsSome, IsNone, MatchOption};
    ghost use Rattle.pemb_file.specs.Served.{contents_of_view};
    ghost use Rattle.navigate.specs.RegionWalk.{contents_in, ids_up, rest, allowance};

    /// The walk from the region of this number, or a walk at its end where there is none.
    pub(crate) fn from(served: Served<'a>, next: Option<usize>) -> RegionWalk<'a>
        requires { (region : ℕ) → next ≡ Some region → region < length (contents_of_view served).regions }
        ensures contents { contents_in result ≡ contents_of_view served.entry }
        ensures rest { rest result ≡ ids_up (contents_of_view served.entry) next }
    {
        RegionWalk { served, next }
    }

    /// The file over which it goes.
    pub fn served(&self) -> Served<'a>
        ensures { result ≡ self.now.served }
    {
        self.served
    }

    /// The next region, or None at the end.
    pub fn step<C: Ledger>(&mut self, steps: &mut Steps<C>) -> Option<RegionId>
        ensures next { MatchOption result (rest self.old ≡ []) (λ r. rest self.old ≡ r.0 ∷ rest self.new) }
        ensures end { IsNone result → rest self.new ≡ [] }
        ensures least { IsSome result → steps.old + 1 ≤ steps.new }
        ensures free { IsNone result → steps.new ≡ steps.old }
        ensures paid { steps.new + allowance self.new ≤ steps.old + allowance self.old }
    {
        let region = self.next?;
        let regions = self.served.regions();
        let id = regions.id_of(region, steps);
        self.next = regions.parent(region, steps);
        Some(RegionId(id))
    }
}
