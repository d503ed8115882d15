//! What stands at the first positions of a walk, kept for when it comes by again.

ghost use Rattle.std.specs.Prelude.{◌≤◌};
ghost use Rattle.navigate.specs.declared.kept_stops.TheConstants.{KEPT};

use crate::ranked::RankedEdge;

/// So many positions are kept.
const KEPT: usize = 8;

/// What stands at a position, without the next one.
#[derive(Clone, Copy)]
pub(crate) struct KeptStop {
    at: u32,
    /// The position itself, or its mate where the walk goes over its edge.
    pub(crate) over: u32,
    pub(crate) edge: RankedEdge,
}

impl KeptStop {
    ghost use Rattle.std.specs.Prelude.{Bool, IfSome};
    ghost use Rattle.id_names.specs.RisingNames.{RisingNames};
    ghost use Rattle.file_laws.specs.Contents.{Contents};
    ghost use Rattle.navigate.specs.KeptStops.{IsSeen, IsKept};

    /// What is kept of a position. None where it is too far on.
    #[inline(always)]
    fn of(at: usize, over: usize, edge: RankedEdge) -> Option<KeptStop>
        ensures { (names : RisingNames) → (contents : Contents) → (kind : Bool)
            → IsSeen names contents kind at over edge → IfSome result (IsKept names contents kind) }
    {
        Some(KeptStop {
            at: u32::try_from(at).ok()?,
            over: u32::try_from(over).ok()?,
            edge,
        })
    }
}

/// What stands at the first positions of a walk, as many as there is room for.
#[derive(Clone, Copy)]
pub(crate) struct KeptStops {
    stops: [KeptStop; KEPT],
    count: usize,
    /// The place of the one that the walk comes by next.
    turn: usize,
    ghost room: { count ≤ KEPT },
}

impl KeptStops {
    ghost use Rattle.std.specs.Prelude.{Bool, ◌≡◌, IfSome};
    ghost use Rattle.id_names.specs.RisingNames.{RisingNames};
    ghost use Rattle.file_laws.specs.Contents.{Contents};
    ghost use Rattle.navigate.specs.KeptStops.{IsSeen, IsKept, AreKept};

    /// Nothing yet.
    pub(crate) fn none() -> KeptStops
        ensures { (names : RisingNames) → (contents : Contents) → (kind : Bool) → AreKept names contents kind result }
    {
        KeptStops {
            stops: [KeptStop {
                at: 0,
                over: 0,
                edge: RankedEdge {
                    rank: 0,
                    is_forward: false,
                },
            }; KEPT],
            count: 0,
            turn: 0,
        }
    }

    /// Keeps what stands at a position, where there is room for it.
    #[inline(always)]
    pub(crate) fn keep(&mut self, at: usize, over: usize, edge: RankedEdge)
        ensures { (names : RisingNames) → (contents : Contents) → (kind : Bool) → AreKept names contents kind self.old
            → IsSeen names contents kind at over edge → AreKept names contents kind self.new }
    {
        let Some(kept) = KeptStop::of(at, over, edge) else {
            return;
        };
        if self.count < KEPT {
            self.stops[self.count] = kept;
            self.count += 1;
            self.turn = self.count;
        }
    }

    /// What stands at a position, if it is the one whose turn it is.
    #[inline(always)]
    pub(crate) fn pass(&mut self, at: usize) -> Option<KeptStop>
        ensures kept { (names : RisingNames) → (contents : Contents) → (kind : Bool)
            → AreKept names contents kind self.old → AreKept names contents kind self.new }
        ensures stop { (names : RisingNames) → (contents : Contents) → (kind : Bool)
            → AreKept names contents kind self.old → IfSome result (IsKept names contents kind) }
        ensures at { IfSome result (λ kept. kept.at ≡ at) }
    {
        if self.turn >= self.count {
            return None;
        }
        let kept = self.stops[self.turn];
        if kept.at as usize != at {
            return None;
        }
        self.turn = if self.turn + 1 == self.count {
            0
        } else {
            self.turn + 1
        };
        Some(kept)
    }

    /// Makes it the turn of a position that is kept, or of the first one.
    pub(crate) fn turn_to(&mut self, at: usize)
        ensures { (names : RisingNames) → (contents : Contents) → (kind : Bool)
            → AreKept names contents kind self.old → AreKept names contents kind self.new }
    {
        self.turn = 0;
        for place in 0..self.count {
            if self.stops[place].at as usize == at {
                self.turn = place;
            }
        }
    }
}
