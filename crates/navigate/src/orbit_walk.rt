//! Walks round an orbit of positions, by signed edges.

ghost use Rattle.std.specs.Prelude.{◌≡◌, ◌<◌, length};
ghost use Rattle.id_names.specs.Views.{ids_of, names_in};
ghost use Rattle.pemb_file.specs.Served.{contents_of_view};
ghost use Rattle.navigate.specs.KeptStops.{AreKept};

use crate::directed::with_direction;
use crate::kept_stops::KeptStops;
use crate::looks::{AcrossStop, RankedStop, look_across, look_at};
use crate::ranked::RankedEdge;
use crate::ranked_edges::{RankedEdges, edges_of};
use crate::several::Several;
use bit_words::Steps;
use id_names::NamesView;
use pemb_file::Served;
use std::sync::ledger::Ledger;
use topo_base::Signed;

/// A walk round a node or a ring: what is left of it, from a position on until it comes back to the first.
#[derive(Clone, Copy)]
pub struct OrbitWalk<'a> {
    served: Served<'a>,
    /// The ids of the edges by number.
    edges: &'a NamesView<'a>,
    /// Whether it goes round a node.
    kind: bool,
    /// The position at which it ends.
    first: usize,
    /// The next position.
    at: usize,
    /// How many positions may be left: none at the end.
    left: usize,
    /// Where its component is looked for first: a walk stays in one.
    component: usize,
    /// What stands at the first positions that it came by.
    kept: KeptStops,
    ghost within: { 0 < left → at < length (contents_of_view served).code.a },
    ghost ids: { ids_of edges.now ≡ (contents_of_view served).edges },
    ghost right: { AreKept (names_in edges.now) (contents_of_view served) kind kept },
}

/// The signed edges that leave a node, clockwise.
pub type NodeWalk<'a> = OrbitWalk<'a>;

/// The signed edges of a ring.
pub type RingWalk<'a> = OrbitWalk<'a>;

impl<'a> OrbitWalk<'a> {
    ghost use Rattle.std.specs.Prelude.{ℤ, List, false, ◌≡◌, ◌<◌, ◌≤◌, ◌+◌, ◌*◌, ◌++◌, ◌↔◌, [], ◌∷◌, drop, length, IsSome, IsNone, IsTrue, IfSome, MatchOption};
    ghost use Rattle.std.specs.Iterator.{YieldsFirst};
    ghost use Rattle.code_laws.specs.Code as codes;
    ghost use Rattle.code_laws.specs.Orbits.{orbit};
    ghost use Rattle.file_laws.specs.MapOfFile.{signed_at};
    ghost use Rattle.pemb_file.specs.Served.{contents_of_view};
    ghost use Rattle.navigate.specs.Bound.{line_digits};
    ghost use Rattle.id_names.specs.Views.{names_in};
    ghost use Rattle.navigate.specs.OrbitWalk.{contents_in, edge_names, positions_left, rest, price, rank_price, across_price, allowance};
    ghost use Rattle.navigate.specs.Beside.{place_across};
    ghost use Rattle.navigate.specs.Ranked.{IsRankOf, AreRanksOf};
    ghost use Rattle.navigate.specs.Several.{edges_in};

    /// The walk that begins at a position, which may be in this component, and ends before it.
    pub(crate) fn from(served: Served<'a>, kind: bool, p: usize, component: usize) -> OrbitWalk<'a>
        requires { p < length (contents_of_view served).code.a }
        ensures contents { contents_in result ≡ contents_of_view served.entry }
        ensures kind { result.kind ≡ kind }
        ensures positions { positions_left result ≡ orbit (contents_of_view served.entry).code kind p }
    {
        OrbitWalk {
            served,
            edges: served.edges(),
            kind,
            first: p,
            at: p,
            left: served.code().len(),
            component,
            kept: KeptStops::none(),
        }
    }

    /// Begins anew, at a position.
    pub(crate) fn begin_at(&mut self, p: usize)
        requires { p < length (contents_in self.old).code.a }
        ensures contents { contents_in self.new ≡ contents_in self.old }
        ensures kind { self.new.kind ≡ self.old.kind }
        ensures positions { positions_left self.new ≡ orbit (contents_in self.old).code self.old.kind p }
    {
        self.kept.turn_to(p);
        self.first = p;
        self.at = p;
        self.left = self.served.code().len();
    }

    /// A walk at its end.
    pub(crate) fn over(served: Served<'a>) -> OrbitWalk<'a>
        ensures contents { contents_in result ≡ contents_of_view served.entry }
        ensures positions { positions_left result ≡ [] }
    {
        OrbitWalk {
            served,
            edges: served.edges(),
            kind: false,
            first: 0,
            at: 0,
            left: 0,
            component: 0,
            kept: KeptStops::none(),
        }
    }

    /// The next position, which stays the next one, or None at the end.
    pub(crate) fn peek(&self) -> Option<usize>
        ensures within { MatchOption result (positions_left self.now ≡ [])
            (λ p. p < length (contents_in self.now).code.a) }
        ensures next { MatchOption result (positions_left self.now ≡ [])
            (λ p. positions_left self.now ≡ p ∷ drop 1 (positions_left self.now)) }
    {
        if self.left == 0 { None } else { Some(self.at) }
    }

    /// Whether nothing is left of it.
    pub fn is_over(&self) -> bool
        ensures { IsTrue result ↔ (rest self.now ≡ []) }
    {
        self.peek().is_none()
    }

    /// The ids of the edges by number, of which it finds the ranks.
    pub(crate) fn edges(&self) -> &'a NamesView<'a>
        ensures { names_in result.now ≡ edge_names self.now }
    {
        self.edges
    }

    /// The component in which the next position may be.
    #[inline]
    pub(crate) fn component(&self) -> usize
        ensures { result ≡ self.now.component }
    {
        self.component
    }

    /// Goes on to this position, which comes after the next one, or to the end where it is the first again.
    #[inline(always)]
    fn go_on(&mut self, next: usize)
        requires some { 0 < self.old.left }
        requires within { next < length (contents_in self.old).code.a }
        requires next { next ≡ codes.step (contents_in self.old).code self.old.kind self.old.at }
        ensures contents { contents_in self.new ≡ contents_in self.old }
        ensures names { edge_names self.new ≡ edge_names self.old }
        ensures kind { self.new.kind ≡ self.old.kind }
        ensures left { positions_left self.old ≡ self.old.at ∷ positions_left self.new }
    {
        if next == self.first {
            self.left = 0;
        } else {
            self.at = next;
            self.left -= 1;
        }
    }

    /// The position after the next one: by what is kept of that one, or by a step.
    #[inline(always)]
    fn following<C: Ledger>(&mut self, steps: &mut Steps<C>) -> usize
        requires { 0 < self.old.left }
        ensures same { (self.new.at ≡ self.old.at) × (self.new.left ≡ self.old.left) }
        ensures positions { positions_left self.new ≡ positions_left self.old }
        ensures contents { contents_in self.new ≡ contents_in self.old }
        ensures kind { self.new.kind ≡ self.old.kind }
        ensures step { result ≡ codes.step (contents_in self.old).code self.old.kind self.old.at }
        ensures within { result < length (contents_in self.old).code.a }
        ensures some_steps { steps.old + 1 ≤ steps.new }
        ensures cost { steps.new ≤ steps.old + (8 * line_digits (contents_in self.old) + 64) }
    {
        let p = self.at;
        let code = self.served.code();
        match self.kept.pass(p) {
            Some(kept) => code.after(kept.over as usize, &mut self.component, steps),
            None => code.step(self.kind, p, &mut self.component, steps),
        }
    }

    /// The next position, or None at the end.
    #[inline(always)]
    pub(crate) fn pass<C: Ledger>(&mut self, steps: &mut Steps<C>) -> Option<usize>
        ensures contents { contents_in self.new ≡ contents_in self.old }
        ensures next { MatchOption result (positions_left self.old ≡ [])
            (λ p. positions_left self.old ≡ p ∷ positions_left self.new) }
        ensures within { MatchOption result (positions_left self.new ≡ [])
            (λ p. p < length (contents_in self.old).code.a) }
        ensures cost { MatchOption result (steps.new ≡ steps.old) (λ _. (steps.old + 1 ≤ steps.new)
            × (steps.new ≤ steps.old + (8 * line_digits (contents_in self.old) + 64))) }
    {
        if self.left == 0 {
            return None;
        }
        let p = self.at;
        let next = self.following(steps);
        self.go_on(next);
        Some(p)
    }

    /// The signed edge at the next position by its rank among the names of the edges, and the position after that one: by
    /// what is kept of that position, or else by a look at it, which is kept.
    #[inline(always)]
    fn look<C: Ledger>(&mut self, steps: &mut Steps<C>) -> RankedStop
        requires { 0 < self.old.left }
        ensures same { (self.new.at ≡ self.old.at) × (self.new.left ≡ self.old.left) }
        ensures positions { positions_left self.new ≡ positions_left self.old }
        ensures contents { contents_in self.new ≡ contents_in self.old }
        ensures names { edge_names self.new ≡ edge_names self.old }
        ensures kind { self.new.kind ≡ self.old.kind }
        ensures edge { IsRankOf (edge_names self.old) result.edge (signed_at (contents_in self.old) self.old.at) }
        ensures next { result.next ≡ codes.step (contents_in self.old).code self.old.kind self.old.at }
        ensures within { result.next < length (contents_in self.old).code.a }
        ensures some_steps { steps.old + 1 ≤ steps.new }
        ensures cost { steps.new ≤ steps.old + rank_price (contents_in self.old) }
    {
        let p = self.at;
        if let Some(kept) = self.kept.pass(p) {
            let over = kept.over as usize;
            return RankedStop {
                edge: kept.edge,
                over,
                next: self.served.code().after(over, &mut self.component, steps),
            };
        }
        let stop = look_at(
            self.served,
            self.edges,
            self.kind,
            p,
            &mut self.component,
            steps,
        );
        self.kept.keep(p, stop.over, stop.edge);
        stop
    }

    /// The next position and its signed edge, or None at the end.
    pub(crate) fn stop<C: Ledger>(&mut self, steps: &mut Steps<C>) -> Option<(usize, Signed)>
        ensures contents { contents_in self.new ≡ contents_in self.old }
        ensures kind { self.new.kind ≡ self.old.kind }
        ensures next { MatchOption result (positions_left self.old ≡ [])
            (λ found. positions_left self.old ≡ found.0 ∷ positions_left self.new) }
        ensures edge { IfSome result (λ found. found.1 ≡ signed_at (contents_in self.old) found.0) }
        ensures within { MatchOption result (positions_left self.new ≡ [])
            (λ found. found.0 < length (contents_in self.old).code.a) }
        ensures cost { MatchOption result (steps.new ≡ steps.old) (λ _. (steps.old + 1 ≤ steps.new)
            × (steps.new ≤ steps.old + price (contents_in self.old))) }
    {
        if self.left == 0 {
            return None;
        }
        let p = self.at;
        let names = self.edges;
        let stop = self.look(steps);
        let id = names.id_at(stop.edge.rank as usize, steps);
        self.go_on(stop.next);
        Some((p, with_direction(id, stop.edge.is_forward)))
    }

    /// The next position and the rank of its signed edge among the names of the edges, or None at the end.
    #[inline(always)]
    pub(crate) fn ranked<C: Ledger>(&mut self, steps: &mut Steps<C>) -> Option<(usize, RankedEdge)>
        ensures contents { contents_in self.new ≡ contents_in self.old }
        ensures names { edge_names self.new ≡ edge_names self.old }
        ensures kind { self.new.kind ≡ self.old.kind }
        ensures next { MatchOption result (positions_left self.old ≡ [])
            (λ found. positions_left self.old ≡ found.0 ∷ positions_left self.new) }
        ensures edge { IfSome result (λ found. IsRankOf (edge_names self.old) found.1
            (signed_at (contents_in self.old) found.0)) }
        ensures within { MatchOption result (positions_left self.new ≡ [])
            (λ found. found.0 < length (contents_in self.old).code.a) }
        ensures cost { MatchOption result (steps.new ≡ steps.old) (λ _. (steps.old + 1 ≤ steps.new)
            × (steps.new ≤ steps.old + rank_price (contents_in self.old))) }
    {
        if self.left == 0 {
            return None;
        }
        let p = self.at;
        let stop = self.look(steps);
        self.go_on(stop.next);
        Some((p, stop.edge))
    }

    /// The same, for a walk that doesn't come by again: nothing is kept.
    #[inline(always)]
    pub(crate) fn ranked_once<C: Ledger>(
        &mut self,
        steps: &mut Steps<C>,
    ) -> Option<(usize, RankedEdge)>
        ensures contents { contents_in self.new ≡ contents_in self.old }
        ensures names { edge_names self.new ≡ edge_names self.old }
        ensures kind { self.new.kind ≡ self.old.kind }
        ensures next { MatchOption result (positions_left self.old ≡ [])
            (λ found. positions_left self.old ≡ found.0 ∷ positions_left self.new) }
        ensures edge { IfSome result (λ found. IsRankOf (edge_names self.old) found.1
            (signed_at (contents_in self.old) found.0)) }
        ensures within { MatchOption result (positions_left self.new ≡ [])
            (λ found. found.0 < length (contents_in self.old).code.a) }
        ensures cost { MatchOption result (steps.new ≡ steps.old) (λ _. (steps.old + 1 ≤ steps.new)
            × (steps.new ≤ steps.old + rank_price (contents_in self.old))) }
    {
        if self.left == 0 {
            return None;
        }
        let p = self.at;
        let stop = look_at(
            self.served,
            self.edges,
            self.kind,
            p,
            &mut self.component,
            steps,
        );
        self.go_on(stop.next);
        Some((p, stop.edge))
    }

    /// The same of a walk round a ring, with the place of the face across the edge.
    #[inline(always)]
    pub(crate) fn across_once<C: Ledger>(
        &mut self,
        steps: &mut Steps<C>,
    ) -> Option<(usize, AcrossStop)>
        requires { self.old.kind ≡ false }
        ensures contents { contents_in self.new ≡ contents_in self.old }
        ensures names { edge_names self.new ≡ edge_names self.old }
        ensures kind { self.new.kind ≡ false }
        ensures next { MatchOption result (positions_left self.old ≡ [])
            (λ found. positions_left self.old ≡ found.0 ∷ positions_left self.new) }
        ensures edge { IfSome result (λ found. IsRankOf (edge_names self.old) found.1.edge
            (signed_at (contents_in self.old) found.0)) }
        ensures across { IfSome result (λ found. found.1.across ≡ place_across (contents_in self.old) found.0) }
        ensures low { IfSome result (λ found. found.1.across ≤ length (contents_in self.old).faces) }
        ensures within { MatchOption result (positions_left self.new ≡ [])
            (λ found. found.0 < length (contents_in self.old).code.a) }
        ensures cost { MatchOption result (steps.new ≡ steps.old) (λ _. (steps.old + 1 ≤ steps.new)
            × (steps.new ≤ steps.old + across_price (contents_in self.old))) }
    {
        if self.left == 0 {
            return None;
        }
        let p = self.at;
        let stop = look_across(self.served, self.edges, p, &mut self.component, steps);
        self.go_on(stop.next);
        Some((p, stop))
    }

    /// The next signed edge, or None at the end.
    pub fn step<C: Ledger>(&mut self, steps: &mut Steps<C>) -> Option<Signed>
        ensures contents { contents_in self.new ≡ contents_in self.old }
        ensures gives { YieldsFirst rest self.old result self.new }
        ensures least { IsSome result → steps.old + 1 ≤ steps.new }
        ensures free { IsNone result → steps.new ≡ steps.old }
        ensures paid { steps.new + allowance self.new ≤ steps.old + allowance self.old }
    {
        match self.stop(steps) {
            Some(found) => Some(found.1),
            None => None,
        }
    }

    /// Puts down the signed edges at the next positions by their ranks among the names of the edges, as many as are given
    /// at once, or fewer: none at the end alone.
    #[inline(always)]
    fn several_ranked<C: Ledger>(&mut self, ranks: &mut RankedEdges, steps: &mut Steps<C>)
        requires { ranks.old.items ≡ [] }
        ensures contents { contents_in self.new ≡ contents_in self.old }
        ensures gives { (given : List ℤ) × (rest self.old ≡ given ++ rest self.new)
            × AreRanksOf (edge_names self.old) ranks.new.items given }
        ensures end { ranks.new.items ≡ [] → rest self.old ≡ [] }
        ensures least { steps.old + length ranks.new.items ≤ steps.new }
        ensures free { ranks.new.items ≡ [] → steps.new ≡ steps.old }
        ensures cost { steps.new ≤ steps.old + rank_price (contents_in self.old) * length ranks.new.items }
    {
        while !ranks.is_full() {
            match self.ranked_once(steps) {
                Some(found) => ranks.push(found.1),
                None => return,
            }
        }
    }

    /// Puts down the next signed edges, in the place of those that stood there: as many as are given at once, or fewer,
    /// and none at the end alone.
    #[inline(always)]
    pub fn several<C: Ledger>(&mut self, edges: &mut Several, steps: &mut Steps<C>)
        ensures contents { contents_in self.new ≡ contents_in self.old }
        ensures gives { rest self.old ≡ edges_in edges.new ++ rest self.new }
        ensures end { edges_in edges.new ≡ [] → rest self.old ≡ [] }
        ensures least { steps.old + length (edges_in edges.new) ≤ steps.new }
        ensures free { edges_in edges.new ≡ [] → steps.new ≡ steps.old }
        ensures paid { steps.new + allowance self.new ≤ steps.old + allowance self.old }
    {
        let names = self.edges;
        let mut ranks = RankedEdges::new();
        self.several_ranked(&mut ranks, steps);
        edges_of(names, ranks.as_slice(), edges, steps);
    }
}
