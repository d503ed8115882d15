//! The walk along the rings of a face, step by step.

ghost use Rattle.std.specs.Prelude.{◌≡◌, ◌≤◌, ◌+◌, ◌++◌, [], length};
ghost use Rattle.pemb_file.specs.Served.{contents_of_view};
ghost use Rattle.navigate.specs.Holes.{components_between, outer_positions};
ghost use Rattle.navigate.specs.OrbitWalk as orbits;

use crate::orbit_walk::OrbitWalk;
use crate::places::start_at;
use crate::several::Several;
use crate::{names, positions};
use bit_words::Steps;
use pemb_file::Served;
use std::sync::ledger::Ledger;
use topo_base::{FaceId, Signed};

/// Where nothing is left of a ring and another hole comes before `end`, goes on to the outer ring of that one.
#[inline(always)]
fn settle<'a, C: Ledger>(
    served: Served<'a>,
    ring: &mut OrbitWalk<'a>,
    hole: &mut usize,
    end: usize,
    steps: &mut Steps<C>,
)
    requires same { orbits.contents_in ring.old ≡ contents_of_view served }
    requires ends { end ≤ length (contents_of_view served).place_order }
    ensures contents { orbits.contents_in ring.new ≡ contents_of_view served.entry }
    ensures positions { orbits.positions_left ring.new ++ outer_positions (contents_of_view served.entry)
        (components_between (contents_of_view served.entry) hole.new end) ≡ orbits.positions_left ring.old
        ++ outer_positions (contents_of_view served.entry)
        (components_between (contents_of_view served.entry) hole.old end) }
    ensures ready { orbits.positions_left ring.new ≡ [] → end ≤ hole.new }
    ensures grows { steps.old ≤ steps.new }
    ensures cost { steps.new ≤ steps.old + 2 }
{
    if *hole >= end {
        return;
    }
    if let Some(_next) = ring.peek() {
        return;
    }
    let (start, component) = start_at(served, *hole, steps);
    *ring = OrbitWalk::from(served, false, start, component);
    *hole += 1;
}

/// A walk along the rings of a face: what is left of one ring, and then the outer rings of the components in the face,
/// from one entry of the order of components to before another. Where a ring ends and another comes, the walk stands at
/// the beginning of that one.
#[derive(Clone, Copy)]
pub struct FaceWalk<'a> {
    served: Served<'a>,
    ring: OrbitWalk<'a>,
    hole: usize,
    end: usize,
    ghost same: { orbits.contents_in ring ≡ contents_of_view served },
    ghost ends: { end ≤ length (contents_of_view served).place_order },
    ghost ready: { orbits.positions_left ring ≡ [] → end ≤ hole },
}

impl<'a> FaceWalk<'a> {
    ghost use Rattle.std.specs.Prelude.{◌≡◌, ◌<◌, ◌≤◌, ◌+◌, ◌*◌, ◌∷◌, ◌++◌, ◌↔◌, [], drop, length, IsSome, IsNone, IsTrue, MatchOption};
    ghost use Rattle.std.specs.Iterator.{YieldsFirst};
    ghost use Rattle.pemb_file.specs.Served.{contents_of_view};
    ghost use Rattle.navigate.specs.Bound.{line_digits};
    ghost use Rattle.navigate.specs.Holes.{components_between, outer_positions};
    ghost use Rattle.navigate.specs.OrbitWalk as orbits;
    ghost use Rattle.navigate.specs.FaceWalk.{contents_in, face_positions, rest, allowance};
    ghost use Rattle.navigate.specs.Beside.{place_across};
    ghost use Rattle.file_laws.specs.MapOfFile.{face_at_place};
    ghost use Rattle.navigate.specs.Several.{edges_in};

    /// What is left of a ring, and then the outer rings of components from one entry of the order to before another.
    pub(crate) fn settled<C: Ledger>(
        served: Served<'a>,
        ring: OrbitWalk<'a>,
        hole: usize,
        end: usize,
        steps: &mut Steps<C>,
    ) -> FaceWalk<'a>
        requires same { orbits.contents_in ring ≡ contents_of_view served }
        requires ends { end ≤ length (contents_of_view served).place_order }
        ensures contents { contents_in result ≡ contents_of_view served.entry }
        ensures positions { face_positions result ≡ orbits.positions_left ring.entry
            ++ outer_positions (contents_of_view served.entry)
            (components_between (contents_of_view served.entry) hole end) }
        ensures grows { steps.old ≤ steps.new }
        ensures cost { steps.new ≤ steps.old + 2 }
    {
        let (mut ring, mut hole) = (ring, hole);
        settle(served, &mut ring, &mut hole, end, steps);
        FaceWalk {
            served,
            ring,
            hole,
            end,
        }
    }

    /// The next position, which stays the next one, or None at the end.
    pub(crate) fn peek(&self) -> Option<usize>
        ensures within { MatchOption result (face_positions self.now ≡ [])
            (λ p. p < length (contents_in self.now).code.a) }
        ensures next { MatchOption result (face_positions self.now ≡ [])
            (λ p. face_positions self.now ≡ p ∷ drop 1 (face_positions self.now)) }
    {
        match self.ring.peek() {
            Some(p) => Some(p),
            None => None,
        }
    }

    /// Whether nothing is left of it.
    pub fn is_over(&self) -> bool
        ensures { IsTrue result ↔ (rest self.now ≡ []) }
    {
        self.peek().is_none()
    }

    /// The next position, or None at the end.
    #[inline(always)]
    pub fn pass<C: Ledger>(&mut self, steps: &mut Steps<C>) -> Option<usize>
        ensures contents { contents_in self.new ≡ contents_in self.old }
        ensures next { MatchOption result (face_positions self.old ≡ [])
            (λ p. face_positions self.old ≡ p ∷ face_positions self.new) }
        ensures within { MatchOption result (face_positions self.new ≡ [])
            (λ p. p < length (contents_in self.old).code.a) }
        ensures cost { MatchOption result (steps.new ≡ steps.old) (λ _. (steps.old + 1 ≤ steps.new)
            × (steps.new ≤ steps.old + (8 * line_digits (contents_in self.old) + 66))) }
    {
        match self.ring.pass(steps) {
            Some(p) => {
                settle(self.served, &mut self.ring, &mut self.hole, self.end, steps);
                Some(p)
            }
            None => None,
        }
    }

    /// The place of the face across the edge at a position.
    pub fn place_across<C: Ledger>(&self, p: usize, steps: &mut Steps<C>) -> usize
        requires { p < length (contents_in self.now).code.a }
        ensures place { result ≡ place_across (contents_in self.now) p }
        ensures within { result ≤ length (contents_in self.now).faces }
        ensures some_steps { steps.old + 1 ≤ steps.new }
        ensures cost { steps.new ≤ steps.old + (12 * line_digits (contents_in self.now) + 121) }
    {
        positions::place_across(self.served, p, self.ring.component(), steps)
    }

    /// The face at a place.
    pub(crate) fn face_in<C: Ledger>(&self, place: usize, steps: &mut Steps<C>) -> FaceId
        requires { place ≤ length (contents_in self.now).faces }
        ensures face { result.0 ≡ face_at_place (contents_in self.now) place }
        ensures grows { steps.old ≤ steps.new }
        ensures cost { steps.new ≤ steps.old + (3 * line_digits (contents_in self.now) + 20) }
    {
        names::face_in(self.served, place, steps)
    }

    /// The next signed edge, or None at the end.
    pub fn step<C: Ledger>(&mut self, steps: &mut Steps<C>) -> Option<Signed>
        ensures contents { contents_in self.new ≡ contents_in self.old }
        ensures gives { YieldsFirst rest self.old result self.new }
        ensures least { IsSome result → steps.old + 1 ≤ steps.new }
        ensures free { IsNone result → steps.new ≡ steps.old }
        ensures paid { steps.new + allowance self.new ≤ steps.old + allowance self.old }
    {
        match self.ring.stop(steps) {
            Some(found) => {
                settle(self.served, &mut self.ring, &mut self.hole, self.end, steps);
                Some(found.1)
            }
            None => None,
        }
    }

    /// Puts down the next signed edges, in the place of those that stood there: as many as are given at once, or fewer,
    /// and none at the end alone.
    #[inline(always)]
    pub fn several<C: Ledger>(&mut self, edges: &mut Several, steps: &mut Steps<C>)
        ensures contents { contents_in self.new ≡ contents_in self.old }
        ensures gives { rest self.old ≡ edges_in edges.new ++ rest self.new }
        ensures end { edges_in edges.new ≡ [] → rest self.old ≡ [] }
        ensures least { steps.old + length (edges_in edges.new) ≤ steps.new }
        ensures free { edges_in edges.new ≡ [] → steps.new ≡ steps.old }
        ensures paid { steps.new + allowance self.new ≤ steps.old + allowance self.old }
    {
        let Some(_p) = self.ring.peek() else {
            edges.clear();
            return;
        };
        self.ring.several(edges, steps);
        settle(self.served, &mut self.ring, &mut self.hole, self.end, steps);
    }
}
