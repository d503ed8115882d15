//! A sound code that is asked for mates, steps and numbers.

ghost use Rattle.std.specs.Prelude.{◌≡◌, ◌≤◌, length, IsTrue};
ghost use Rattle.rank_select.specs.RankView.{counted};
ghost use Rattle.parens.specs.ParenView.{parens_of};
ghost use Rattle.bit_words.specs.PackedView.{fields_of, width_of};
ghost use Rattle.code_laws.specs.Code.{code_with};
ghost use Rattle.code_laws.specs.SeqFault.{is_sound};

use bit_words::{PackedView, Steps};
use code_laws::RingNumber;
use parens::ParenView;
use rank_select::RankView;
use std::sync::ledger::Ledger;

/// The sequences of a code, and the starts of its components.
#[derive(Clone, Copy)]
pub struct TuranParts<'a> {
    /// One bit for each position: whether its edge is one of the spanning trees.
    pub a: RankView<'a>,
    /// One bit for each position of an edge of the trees: whether it is the first of its edge.
    pub tree: ParenView<'a>,
    /// The same for each other position.
    pub dual: ParenView<'a>,
    /// The first position of each component, and in the end the number of positions.
    pub starts: PackedView<'a>,
}

/// What stands at a position of a walk round a node or a ring, and where the walk goes on.
#[derive(Clone, Copy)]
pub struct Stop {
    /// The number of the edge.
    pub edge: u32,
    /// Whether this is the edge's first position.
    pub is_first: bool,
    /// The position itself, or its mate where the walk goes over its edge.
    pub over: usize,
    /// The next position: the one after that.
    pub next: usize,
}

/// What stands at a position of a walk round a ring, what lies across its edge, and where the walk goes on.
#[derive(Clone, Copy)]
pub struct RingStop {
    /// The number of the edge.
    pub edge: u32,
    /// Whether this is the edge's first position.
    pub is_first: bool,
    /// The ring across the edge.
    pub across: RingNumber,
    /// The next position.
    pub next: usize,
}

/// A position, and its place among the parentheses of its kind.
#[derive(Clone, Copy)]
pub(crate) struct Mate {
    position: usize,
    place: usize,
}

/// What is found of a position's edge.
#[derive(Clone, Copy)]
pub(crate) struct Seen {
    /// Whether it is one of the trees.
    tree: bool,
    /// The position's place among the parentheses of its kind.
    place: usize,
    /// The place that opens its pair.
    opening: usize,
    /// Whether that is the position's own.
    is_first: bool,
    /// The number of the edge.
    edge: u32,
}

/// A sound code: a plane map without its ids, with one position for each signed edge.
#[derive(Clone, Copy)]
pub struct TuranView<'a> {
    parts: TuranParts<'a>,
    ghost few: { length (counted parts.a) ≤ 2147483647 },
    ghost width: { width_of parts.starts ≡ 32 },
    ghost sound: { IsTrue (is_sound (code_with (counted parts.a) (parens_of parts.tree) (parens_of parts.dual)
        (fields_of parts.starts))) },
}

impl<'a> TuranView<'a> {
    ghost use Rattle.std.specs.Prelude.{ℕ, ◌≡◌, ◌≢◌, ◌<◌, ◌≤◌, ◌+◌, ◌-◌, ◌*◌, ◌==◌, ◌↔◌, length, true, false, Bool, IsTrue, IsNone, IfSome, Some, None, nat_lt, if◌then◌else◌, slice_index, option_map};
    ghost use Rattle.bit_words.specs.Digits.{digits};
    ghost use Rattle.bit_words.specs.Bits.{rank, select};
    ghost use Rattle.bit_words.specs.PackedView.{width_of};
    ghost use Rattle.parens.specs.Matching.{mate_of, is_open, innermost};
    ghost use Rattle.code_laws.specs.Code.{is_tree, is_first, parens, place, mate, component_of, component_count, start_of, end_of, after, before, turn, next, turn_back, next_back, over, step, step_back};
    ghost use Rattle.code_laws.specs.Numbers.{tree_edges, edge_of, node_of, ring_of, enclosing_pair, first_of_edge, first_of_node, first_of_shell, opening_position, one_on, edge_count, node_count, shell_count, has_ring};
    ghost use Rattle.code_laws.specs.SeqFault.{is_sound};
    ghost use Rattle.turan_code.specs.TuranView.{code_of_parts, code_of_view};
    ghost use Rattle.turan_code.specs.Seen.{IsSeen};

    /// The code of these parts, which `check` finds sound. No word is read.
    pub fn new(parts: TuranParts<'a>) -> TuranView<'a>
        requires few { length (code_of_parts parts).a ≤ 2147483647 }
        requires width { width_of parts.starts ≡ 32 }
        requires sound { IsTrue (is_sound (code_of_parts parts)) }
        ensures { code_of_view result ≡ code_of_parts parts.entry }
    {
        TuranView { parts }
    }

    /// Whether the edge at a position is one of the trees.
    fn is_tree<C: Ledger>(&self, p: usize, steps: &mut Steps<C>) -> bool
        requires { p < length (code_of_view self.now).a }
        ensures kind { result ≡ is_tree (code_of_view self.now) p }
        ensures one_step { steps.new ≡ steps.old + 1 }
    {
        self.parts.a.bits().bit(p, steps)
    }

    /// The parentheses of one kind of edges: those of the trees, or the others.
    fn parens(&self, kind: bool) -> &ParenView<'a>
        ensures parens { parens_of result.now ≡ parens (code_of_view self.now) kind }
        ensures fewer { digits (length (parens_of result.now) + 2) ≤ digits (length (code_of_view self.now).a + 2) }
    {
        if kind {
            &self.parts.tree
        } else {
            &self.parts.dual
        }
    }

    /// How many positions of one kind stand before position `p`.
    fn place<C: Ledger>(&self, kind: bool, p: usize, steps: &mut Steps<C>) -> usize
        requires { p ≤ length (code_of_view self.now).a }
        ensures place { result ≡ place (code_of_view self.now) kind p }
        ensures within { result ≤ length (parens (code_of_view self.now) kind) }
        ensures some_steps { steps.old + 1 ≤ steps.new }
        ensures cost { steps.new ≤ steps.old + 9 }
    {
        if kind {
            self.parts.a.rank1(p, steps)
        } else {
            self.parts.a.rank0(p, steps)
        }
    }

    /// The place of position `p`, which is of this kind, among the parentheses of the kind.
    fn place_of<C: Ledger>(&self, kind: bool, p: usize, steps: &mut Steps<C>) -> usize
        requires within { p < length (code_of_view self.now).a }
        requires kind { is_tree (code_of_view self.now) p ≡ kind }
        ensures place { result ≡ place (code_of_view self.now) kind p }
        ensures within { result < length (parens (code_of_view self.now) kind) }
        ensures some_steps { steps.old + 1 ≤ steps.new }
        ensures cost { steps.new ≤ steps.old + 9 }
    {
        self.place(kind, p, steps)
    }

    /// The position of place `q` of one kind, or None where there is no such place.
    fn position<C: Ledger>(&self, kind: bool, q: usize, steps: &mut Steps<C>) -> Option<usize>
        ensures position { result ≡ select kind (code_of_view self.now).a q }
        ensures within { IfSome result (λ p. p < length (code_of_view self.now).a) }
        ensures some_steps { steps.old + 1 ≤ steps.new }
        ensures cost { steps.new ≤ steps.old + 3 * digits (length (code_of_view self.now).a + 2) + 10 }
    {
        if kind {
            self.parts.a.select1(q, steps)
        } else {
            self.parts.a.select0(q, steps)
        }
    }

    /// The position of place `q` of one kind, which is looked for near another position before all, or None where there is
    /// no such place.
    fn position_near<C: Ledger>(
        &self,
        kind: bool,
        q: usize,
        near: usize,
        steps: &mut Steps<C>,
    ) -> Option<usize>
        ensures position { result ≡ select kind (code_of_view self.now).a q }
        ensures within { IfSome result (λ p. p < length (code_of_view self.now).a) }
        ensures place { IfSome result (λ p. place (code_of_view self.now) kind p ≡ q) }
        ensures some_steps { steps.old + 1 ≤ steps.new }
        ensures cost { steps.new ≤ steps.old + 2 * digits (length (code_of_view self.now).a + 2) + 12 }
    {
        if kind {
            self.parts.a.select1_near(q, near, steps)
        } else {
            self.parts.a.select0_near(q, near, steps)
        }
    }

    /// The position that opens pair `pair` of one kind, or None where there is no such pair.
    fn opening_position<C: Ledger>(
        &self,
        kind: bool,
        pair: usize,
        steps: &mut Steps<C>,
    ) -> Option<usize>
        ensures position { result ≡ opening_position (code_of_view self.now) kind pair }
        ensures within { IfSome result (λ p. p < length (code_of_view self.now).a) }
        ensures some_steps { steps.old + 1 ≤ steps.new }
        ensures cost { steps.new ≤ steps.old + 6 * digits (length (code_of_view self.now).a + 2) + 20 }
    {
        match self.parens(kind).open_at(pair, steps) {
            Some(place) => self.position(kind, place, steps),
            None => None,
        }
    }

    /// The position after the one that opens pair `pair` of one kind, or None where there is no such pair.
    fn reached_from<C: Ledger>(
        &self,
        kind: bool,
        pair: usize,
        steps: &mut Steps<C>,
    ) -> Option<usize>
        ensures position { result ≡ one_on (opening_position (code_of_view self.now) kind pair) }
        ensures some_steps { steps.old + 1 ≤ steps.new }
        ensures cost { steps.new ≤ steps.old + 6 * digits (length (code_of_view self.now).a + 2) + 20 }
    {
        match self.opening_position(kind, pair, steps) {
            Some(position) => Some(position + 1),
            None => None,
        }
    }

    /// How many edges the trees have. No word is read.
    fn tree_edges(&self) -> usize
        ensures { result ≡ tree_edges (code_of_view self.now) }
    {
        self.parts.tree.len() / 2
    }

    /// How many components there are. No word is read.
    fn components(&self) -> usize
        ensures { result ≡ component_count (code_of_view self.now) }
    {
        self.parts.starts.count() - 1
    }

    /// Entry `component` of the starts, by one step.
    #[inline]
    fn start<C: Ledger>(&self, component: usize, steps: &mut Steps<C>) -> usize
        requires { component ≤ component_count (code_of_view self.now) }
        ensures start { result ≡ start_of (code_of_view self.now) component }
        ensures one_step { steps.new ≡ steps.old + 1 }
    {
        self.parts.starts.half_word(component, steps) as usize
    }

    /// The component that position `p` is in, by halving.
    #[tactic(auto, using(crate::proofs::Views::halving))]
    fn component_by_halving<C: Ledger>(&self, p: usize, steps: &mut Steps<C>) -> usize
        requires { p < length (code_of_view self.now).a }
        ensures component { result ≡ component_of (code_of_view self.now) p }
        ensures within { result < component_count (code_of_view self.now) }
        ensures grows { steps.old ≤ steps.new }
        ensures cost { steps.new ≤ steps.old + digits (component_count (code_of_view self.now)) }
    {
        let mut low = 0;
        let mut high = self.components();
        while high - low > 1 {
            let middle = low + (high - low) / 2;
            if self.start(middle, steps) <= p {
                low = middle;
            } else {
                high = middle;
            }
        }
        low
    }

    /// The component that position `p` is in, which is looked for in component `near` before all.
    fn component<C: Ledger>(&self, p: usize, near: usize, steps: &mut Steps<C>) -> usize
        requires { p < length (code_of_view self.now).a }
        ensures component { result ≡ component_of (code_of_view self.now) p }
        ensures within { result < component_count (code_of_view self.now) }
        ensures some_steps { steps.old + 1 ≤ steps.new }
        ensures cost { steps.new ≤ steps.old + digits (length (code_of_view self.now).a + 2) + 1 }
    {
        let near = near.min(self.components() - 1);
        if self.start(near, steps) <= p && p < self.start(near + 1, steps) {
            return near;
        }
        self.component_by_halving(p, steps)
    }

    /// The position after `p`, round its component. A walk stays in one component: it is looked for in `near` before
    /// all, and stands there in the end.
    #[inline(always)]
    pub fn after<C: Ledger>(&self, p: usize, near: &mut usize, steps: &mut Steps<C>) -> usize
        requires { p < length (code_of_view self.now).a }
        ensures after { result ≡ after (code_of_view self.now) p }
        ensures within { result < length (code_of_view self.now).a }
        ensures component { near.new ≡ component_of (code_of_view self.now) p }
        ensures some_steps { steps.old + 1 ≤ steps.new }
        ensures cost { steps.new ≤ steps.old + digits (length (code_of_view self.now).a + 2) + 3 }
    {
        let component = self.component(p, *near, steps);
        *near = component;
        let end = self.start(component + 1, steps);
        if p + 1 == end {
            self.start(component, steps)
        } else {
            p + 1
        }
    }

    /// The position before `p`, round its component.
    fn before<C: Ledger>(&self, p: usize, steps: &mut Steps<C>) -> usize
        requires { p < length (code_of_view self.now).a }
        ensures before { result ≡ before (code_of_view self.now) p }
        ensures within { result < length (code_of_view self.now).a }
        ensures some_steps { steps.old + 1 ≤ steps.new }
        ensures cost { steps.new ≤ steps.old + digits (length (code_of_view self.now).a + 2) + 3 }
    {
        let component = self.component(p, 0, steps);
        let start = self.start(component, steps);
        if p == start {
            self.start(component + 1, steps) - 1
        } else {
            p - 1
        }
    }

    /// The other position of the edge of position `p`, which is of this kind, and its place among the parentheses of the
    /// kind.
    fn mated<C: Ledger>(&self, kind: bool, p: usize, steps: &mut Steps<C>) -> Mate
        requires within { p < length (code_of_view self.now).a }
        requires kind { is_tree (code_of_view self.now) p ≡ kind }
        ensures mate { result.position ≡ mate (code_of_view self.now) p }
        ensures within { result.position < length (code_of_view self.now).a }
        ensures place { result.place ≡ place (code_of_view self.now) kind result.position }
        ensures some_steps { steps.old + 1 ≤ steps.new }
        ensures cost { steps.new ≤ steps.old + 7 * digits (length (code_of_view self.now).a + 2) + 60 }
    {
        let own = self.place_of(kind, p, steps);
        let place = self.parens(kind).mate(own, steps);
        match self.position_near(kind, place, p, steps) {
            Some(position) => Mate { position, place },
            None => unreachable!(),
        }
    }

    /// The other position of the edge of position `p`, which is of this kind.
    fn mate_of_kind<C: Ledger>(&self, kind: bool, p: usize, steps: &mut Steps<C>) -> usize
        requires within { p < length (code_of_view self.now).a }
        requires kind { is_tree (code_of_view self.now) p ≡ kind }
        ensures mate { result ≡ mate (code_of_view self.now) p }
        ensures within { result < length (code_of_view self.now).a }
        ensures some_steps { steps.old + 1 ≤ steps.new }
        ensures cost { steps.new ≤ steps.old + 7 * digits (length (code_of_view self.now).a + 2) + 60 }
    {
        self.mated(kind, p, steps).position
    }

    /// The mate of a position of this kind, and any other position as it is.
    fn over<C: Ledger>(&self, kind: bool, p: usize, steps: &mut Steps<C>) -> usize
        requires { p < length (code_of_view self.now).a }
        ensures over { result ≡ over (code_of_view self.now) kind p }
        ensures within { result < length (code_of_view self.now).a }
        ensures some_steps { steps.old + 1 ≤ steps.new }
        ensures cost { steps.new ≤ steps.old + 7 * digits (length (code_of_view self.now).a + 2) + 61 }
    {
        if self.is_tree(p, steps) == kind {
            self.mate_of_kind(kind, p, steps)
        } else {
            p
        }
    }

    /// The next position of the orbit of `p` by steps of one kind: the one after its mate, where its edge is of that
    /// kind, and else the one after it. The component is looked for in `near` before all, and stands there in the end.
    pub fn step<C: Ledger>(
        &self,
        kind: bool,
        p: usize,
        near: &mut usize,
        steps: &mut Steps<C>,
    ) -> usize
        requires { p < length (code_of_view self.now).a }
        ensures step { result ≡ step (code_of_view self.now) kind p }
        ensures within { result < length (code_of_view self.now).a }
        ensures component { near.new ≡ component_of (code_of_view self.now) p }
        ensures some_steps { steps.old + 1 ≤ steps.new }
        ensures cost { steps.new ≤ steps.old + 8 * digits (length (code_of_view self.now).a + 2) + 64 }
    {
        let over = self.over(kind, p, steps);
        self.after(over, near, steps)
    }

    /// The position from which a step of one kind goes to `p`.
    fn step_back<C: Ledger>(&self, kind: bool, p: usize, steps: &mut Steps<C>) -> usize
        requires { p < length (code_of_view self.now).a }
        ensures back { result ≡ step_back (code_of_view self.now) kind p }
        ensures within { result < length (code_of_view self.now).a }
        ensures undone { step (code_of_view self.now) kind result ≡ p }
        ensures some_steps { steps.old + 1 ≤ steps.new }
        ensures cost { steps.new ≤ steps.old + 8 * digits (length (code_of_view self.now).a + 2) + 64 }
    {
        let before = self.before(p, steps);
        self.over(kind, before, steps)
    }

    /// The sequences and the starts, which the code is read from position by position. No word is read.
    #[inline]
    pub fn parts(&self) -> TuranParts<'a>
        ensures code { code_of_parts result ≡ code_of_view self.now }
    {
        self.parts
    }

    /// How many positions there are: two for each edge. No word is read.
    #[inline]
    pub fn len(&self) -> usize
        ensures len { result ≡ length (code_of_view self.now).a }
        ensures few { result ≤ 2147483647 }
        ensures sound { IsTrue (is_sound (code_of_view self.now)) }
    {
        self.parts.a.bits().len()
    }

    /// The other position of the edge at position `p`.
    pub fn mate<C: Ledger>(&self, p: usize, steps: &mut Steps<C>) -> usize
        requires { p < length (code_of_view self.now).a }
        ensures mate { result ≡ mate (code_of_view self.now) p }
        ensures within { result < length (code_of_view self.now).a }
        ensures some_steps { steps.old + 1 ≤ steps.new }
        ensures cost { steps.new ≤ steps.old + 7 * digits (length (code_of_view self.now).a + 2) + 61 }
    {
        let kind = self.is_tree(p, steps);
        self.mate_of_kind(kind, p, steps)
    }

    /// The next position round the node that position `p` leaves: the one after its mate, where its edge is one of the
    /// trees, and else the one after it.
    pub fn turn<C: Ledger>(&self, p: usize, steps: &mut Steps<C>) -> usize
        requires { p < length (code_of_view self.now).a }
        ensures turn { result ≡ turn (code_of_view self.now) p }
        ensures within { result < length (code_of_view self.now).a }
        ensures some_steps { steps.old + 1 ≤ steps.new }
        ensures cost { steps.new ≤ steps.old + 8 * digits (length (code_of_view self.now).a + 2) + 64 }
    {
        self.step(true, p, &mut 0, steps)
    }

    /// The next position of the ring of position `p`: the one after its mate, where its edge is none of the trees, and
    /// else the one after it.
    pub fn next<C: Ledger>(&self, p: usize, steps: &mut Steps<C>) -> usize
        requires { p < length (code_of_view self.now).a }
        ensures next { result ≡ next (code_of_view self.now) p }
        ensures within { result < length (code_of_view self.now).a }
        ensures some_steps { steps.old + 1 ≤ steps.new }
        ensures cost { steps.new ≤ steps.old + 8 * digits (length (code_of_view self.now).a + 2) + 64 }
    {
        self.step(false, p, &mut 0, steps)
    }

    /// The position from which `turn` goes to `p`.
    pub fn turn_back<C: Ledger>(&self, p: usize, steps: &mut Steps<C>) -> usize
        requires { p < length (code_of_view self.now).a }
        ensures turn_back { result ≡ turn_back (code_of_view self.now) p }
        ensures within { result < length (code_of_view self.now).a }
        ensures undone { turn (code_of_view self.now) result ≡ p }
        ensures some_steps { steps.old + 1 ≤ steps.new }
        ensures cost { steps.new ≤ steps.old + 8 * digits (length (code_of_view self.now).a + 2) + 64 }
    {
        self.step_back(true, p, steps)
    }

    /// The position from which `next` goes to `p`.
    pub fn next_back<C: Ledger>(&self, p: usize, steps: &mut Steps<C>) -> usize
        requires { p < length (code_of_view self.now).a }
        ensures next_back { result ≡ next_back (code_of_view self.now) p }
        ensures within { result < length (code_of_view self.now).a }
        ensures undone { next (code_of_view self.now) result ≡ p }
        ensures some_steps { steps.old + 1 ≤ steps.new }
        ensures cost { steps.new ≤ steps.old + 8 * digits (length (code_of_view self.now).a + 2) + 64 }
    {
        self.step_back(false, p, steps)
    }

    /// Whether position `p` is the first of its edge.
    pub fn is_first<C: Ledger>(&self, p: usize, steps: &mut Steps<C>) -> bool
        requires { p < length (code_of_view self.now).a }
        ensures first { result ≡ is_first (code_of_view self.now) p }
        ensures some_steps { steps.old + 1 ≤ steps.new }
        ensures cost { steps.new ≤ steps.old + 11 }
    {
        let kind = self.is_tree(p, steps);
        let place = self.place_of(kind, p, steps);
        self.parens(kind).is_open(place, steps)
    }

    /// The number of the component that position `p` is in.
    pub fn component_of<C: Ledger>(&self, p: usize, steps: &mut Steps<C>) -> u32
        requires { p < length (code_of_view self.now).a }
        ensures component { result ≡ component_of (code_of_view self.now) p }
        ensures within { result < component_count (code_of_view self.now) }
        ensures some_steps { steps.old + 1 ≤ steps.new }
        ensures cost { steps.new ≤ steps.old + digits (length (code_of_view self.now).a + 2) + 1 }
    {
        self.component(p, 0, steps) as u32
    }

    /// The number, among the pairs of one kind, of the innermost pair round the gap of a place of the kind.
    #[inline(always)]
    fn pair_round<C: Ledger>(&self, kind: bool, place: usize, steps: &mut Steps<C>) -> Option<usize>
        requires { place ≤ length (parens (code_of_view self.now) kind) }
        ensures pair { result ≡ option_map (rank true (parens (code_of_view self.now) kind))
            (innermost (parens (code_of_view self.now) kind) place) }
        ensures grows { steps.old ≤ steps.new }
        ensures cost { steps.new ≤ steps.old + 2 * digits (length (code_of_view self.now).a + 2) + 35 }
    {
        let parens = self.parens(kind);
        match parens.enclose(place, steps) {
            Some(opening) => Some(parens.opens_before(opening, steps)),
            None => None,
        }
    }

    /// The number, among the pairs of one kind, of the innermost pair round the gap before position `p`.
    fn enclosing_pair<C: Ledger>(&self, kind: bool, p: usize, steps: &mut Steps<C>) -> Option<usize>
        requires { p < length (code_of_view self.now).a }
        ensures pair { result ≡ enclosing_pair (code_of_view self.now) kind p }
        ensures some_steps { steps.old + 1 ≤ steps.new }
        ensures cost { steps.new ≤ steps.old + 2 * digits (length (code_of_view self.now).a + 2) + 44 }
    {
        let place = self.place(kind, p, steps);
        self.pair_round(kind, place, steps)
    }

    /// The same of the mate of position `p`, whose edge is of this kind: the pair of `p`, where `p` opens it, and else the
    /// one round the gap after `p`. So no mate is looked for.
    #[inline(always)]
    fn pair_round_mate<C: Ledger>(
        &self,
        kind: bool,
        p: usize,
        steps: &mut Steps<C>,
    ) -> Option<usize>
        requires within { p < length (code_of_view self.now).a }
        requires kind { is_tree (code_of_view self.now) p ≡ kind }
        ensures pair { result ≡ enclosing_pair (code_of_view self.now) kind (mate (code_of_view self.now) p) }
        ensures some_steps { steps.old + 1 ≤ steps.new }
        ensures cost { steps.new ≤ steps.old + 2 * digits (length (code_of_view self.now).a + 2) + 45 }
    {
        let place = self.place_of(kind, p, steps);
        let parens = self.parens(kind);
        if parens.is_open(place, steps) {
            Some(parens.opens_before(place, steps))
        } else {
            self.pair_round(kind, place + 1, steps)
        }
    }

    /// The same of the mate of position `p`, whatever its kind: where it is the other one, the positions of this kind before
    /// the mate are those that the mate's place leaves, so they aren't counted.
    #[inline(always)]
    fn pair_across<C: Ledger>(&self, kind: bool, p: usize, steps: &mut Steps<C>) -> Option<usize>
        requires { p < length (code_of_view self.now).a }
        ensures pair { result ≡ enclosing_pair (code_of_view self.now) kind (mate (code_of_view self.now) p) }
        ensures some_steps { steps.old + 1 ≤ steps.new }
        ensures cost { steps.new ≤ steps.old + 9 * digits (length (code_of_view self.now).a + 2) + 96 }
    {
        let own = self.is_tree(p, steps);
        if own == kind {
            return self.pair_round_mate(kind, p, steps);
        }
        let mate = self.mated(own, p, steps);
        self.pair_round(kind, mate.position - mate.place, steps)
    }

    /// The number of a node round which this pair of the trees stands, or, where none does, of the root of the component
    /// that position `p` is in.
    fn node_of_pair<C: Ledger>(&self, pair: Option<usize>, p: usize, steps: &mut Steps<C>) -> u32
        requires within { p < length (code_of_view self.now).a }
        requires small { IfSome pair (λ n. n < length (code_of_view self.now).a) }
        ensures node { (q : ℕ) → pair ≡ enclosing_pair (code_of_view self.now) true q
            → component_of (code_of_view self.now) q ≡ component_of (code_of_view self.now) p
            → result ≡ node_of (code_of_view self.now) q }
        ensures grows { steps.old ≤ steps.new }
        ensures cost { steps.new ≤ steps.old + digits (length (code_of_view self.now).a + 2) + 1 }
    {
        match pair {
            Some(pair) => (self.components() + pair) as u32,
            None => self.component_of(p, steps),
        }
    }

    /// The number of the node that position `p` leaves: that of its component's root, or the number of components and
    /// then the number of the edge of the tree that first reaches it.
    pub fn node_of<C: Ledger>(&self, p: usize, steps: &mut Steps<C>) -> u32
        requires { p < length (code_of_view self.now).a }
        ensures node { result ≡ node_of (code_of_view self.now) p }
        ensures within { result < node_count (code_of_view self.now) }
        ensures some_steps { steps.old + 1 ≤ steps.new }
        ensures cost { steps.new ≤ steps.old + 5 * digits (length (code_of_view self.now).a + 2) + 59 }
    {
        let pair = self.enclosing_pair(true, p, steps);
        self.node_of_pair(pair, p, steps)
    }

    /// The ring round which this pair of the other edges stands: its shell, or, where there is no such pair, the outer ring
    /// of the component that position `p` is in, which is looked for in `near` before all.
    #[inline(always)]
    fn ring_of_pair<C: Ledger>(
        &self,
        pair: Option<usize>,
        p: usize,
        near: usize,
        steps: &mut Steps<C>,
    ) -> RingNumber
        requires within { p < length (code_of_view self.now).a }
        requires small { IfSome pair (λ n. n < shell_count (code_of_view self.now)) }
        ensures ring { (q : ℕ) → pair ≡ enclosing_pair (code_of_view self.now) false q
            → component_of (code_of_view self.now) q ≡ component_of (code_of_view self.now) p
            → result ≡ ring_of (code_of_view self.now) q }
        ensures within { IsTrue (has_ring (code_of_view self.now) result) }
        ensures grows { steps.old ≤ steps.new }
        ensures cost { steps.new ≤ steps.old + digits (length (code_of_view self.now).a + 2) + 1 }
    {
        match pair {
            Some(pair) => RingNumber::Shell(pair as u32),
            None => RingNumber::Outer(self.component(p, near, steps) as u32),
        }
    }

    /// The ring of position `p`: its component's outer ring, or the shell of an edge that is none of the trees.
    pub fn ring_of<C: Ledger>(&self, p: usize, steps: &mut Steps<C>) -> RingNumber
        requires { p < length (code_of_view self.now).a }
        ensures ring { result ≡ ring_of (code_of_view self.now) p }
        ensures within { IsTrue (has_ring (code_of_view self.now) result) }
        ensures some_steps { steps.old + 1 ≤ steps.new }
        ensures cost { steps.new ≤ steps.old + 5 * digits (length (code_of_view self.now).a + 2) + 59 }
    {
        let pair = self.enclosing_pair(false, p, steps);
        self.ring_of_pair(pair, p, 0, steps)
    }

    /// The number of the node that the edge at position `p` reaches: the one that its mate leaves.
    pub fn node_reached<C: Ledger>(&self, p: usize, steps: &mut Steps<C>) -> u32
        requires { p < length (code_of_view self.now).a }
        ensures node { result ≡ node_of (code_of_view self.now) (mate (code_of_view self.now) p) }
        ensures within { result < node_count (code_of_view self.now) }
        ensures some_steps { steps.old + 1 ≤ steps.new }
        ensures cost { steps.new ≤ steps.old + 12 * digits (length (code_of_view self.now).a + 2) + 120 }
    {
        let pair = self.pair_across(true, p, steps);
        self.node_of_pair(pair, p, steps)
    }

    /// The ring across the edge at position `p`: that of its mate. Their component is looked for in `near` before all.
    pub fn ring_across<C: Ledger>(&self, p: usize, near: usize, steps: &mut Steps<C>) -> RingNumber
        requires { p < length (code_of_view self.now).a }
        ensures ring { result ≡ ring_of (code_of_view self.now) (mate (code_of_view self.now) p) }
        ensures within { IsTrue (has_ring (code_of_view self.now) result) }
        ensures some_steps { steps.old + 1 ≤ steps.new }
        ensures cost { steps.new ≤ steps.old + 12 * digits (length (code_of_view self.now).a + 2) + 120 }
    {
        let pair = self.pair_across(false, p, steps);
        self.ring_of_pair(pair, p, near, steps)
    }

    /// The place that opens the pair of place `place` of one kind, and whether it is that one.
    fn opening<C: Ledger>(&self, kind: bool, place: usize, steps: &mut Steps<C>) -> (usize, bool)
        requires { place < length (parens (code_of_view self.now) kind) }
        ensures opening { result.0 ≡ (if is_open (parens (code_of_view self.now) kind) place then place
            else mate_of (parens (code_of_view self.now) kind) place) }
        ensures open { result.1 ≡ is_open (parens (code_of_view self.now) kind) place }
        ensures within { result.0 < length (parens (code_of_view self.now) kind) }
        ensures some_steps { steps.old + 1 ≤ steps.new }
        ensures cost { steps.new ≤ steps.old + 4 * digits (length (code_of_view self.now).a + 2) + 42 }
    {
        let parens = self.parens(kind);
        if parens.is_open(place, steps) {
            (place, true)
        } else {
            (parens.mate(place, steps), false)
        }
    }

    /// The number of the edge of a pair of one kind.
    fn edge_number(&self, kind: bool, pair: usize) -> u32
        requires tree { kind ≡ true → pair ≤ 4294967295 }
        requires other { kind ≡ false → tree_edges (code_of_view self.now) + pair ≤ 4294967295 }
        ensures { result ≡ (if kind then pair else tree_edges (code_of_view self.now) + pair) }
    {
        if kind {
            pair as u32
        } else {
            (self.tree_edges() + pair) as u32
        }
    }

    /// A position, with what is found of its edge.
    #[inline(always)]
    fn see<C: Ledger>(&self, p: usize, steps: &mut Steps<C>) -> Seen
        requires { p < length (code_of_view self.now).a }
        ensures seen { IsSeen (code_of_view self.now) p result }
        ensures some_steps { steps.old + 1 ≤ steps.new }
        ensures cost { steps.new ≤ steps.old + 4 * digits (length (code_of_view self.now).a + 2) + 61 }
    {
        let tree = self.is_tree(p, steps);
        let place = self.place_of(tree, p, steps);
        let (opening, is_first) = self.opening(tree, place, steps);
        let pair = self.parens(tree).opens_before(opening, steps);
        let edge = self.edge_number(tree, pair);
        Seen {
            tree,
            place,
            opening,
            is_first,
            edge,
        }
    }

    /// The number of the edge at position `p`, as `edge_of` tells it, and whether `p` is the first of its edge.
    pub fn edge_and_side<C: Ledger>(&self, p: usize, steps: &mut Steps<C>) -> (u32, bool)
        requires { p < length (code_of_view self.now).a }
        ensures edge { result.0 ≡ edge_of (code_of_view self.now) p }
        ensures within { result.0 < edge_count (code_of_view self.now) }
        ensures first { result.1 ≡ is_first (code_of_view self.now) p }
        ensures some_steps { steps.old + 1 ≤ steps.new }
        ensures cost { steps.new ≤ steps.old + 4 * digits (length (code_of_view self.now).a + 2) + 61 }
    {
        let seen = self.see(p, steps);
        (seen.edge, seen.is_first)
    }

    /// The mate of position `p`, of which this was seen, and its place among the parentheses of its kind.
    fn mated_of_seen<C: Ledger>(&self, p: usize, seen: Seen, steps: &mut Steps<C>) -> Mate
        requires within { p < length (code_of_view self.now).a }
        requires seen { IsSeen (code_of_view self.now) p seen }
        ensures mate { result.position ≡ mate (code_of_view self.now) p }
        ensures within { result.position < length (code_of_view self.now).a }
        ensures place { result.place ≡ place (code_of_view self.now) seen.tree result.position }
        ensures some_steps { steps.old + 1 ≤ steps.new }
        ensures cost { steps.new ≤ steps.old + 7 * digits (length (code_of_view self.now).a + 2) + 51 }
    {
        let place = if seen.is_first {
            self.parens(seen.tree).mate(seen.place, steps)
        } else {
            seen.opening
        };
        match self.position_near(seen.tree, place, p, steps) {
            Some(position) => Mate { position, place },
            None => unreachable!(),
        }
    }

    /// The mate of position `p`, of which this was seen.
    fn mate_of_seen<C: Ledger>(&self, p: usize, seen: Seen, steps: &mut Steps<C>) -> usize
        requires within { p < length (code_of_view self.now).a }
        requires seen { IsSeen (code_of_view self.now) p seen }
        ensures mate { result ≡ mate (code_of_view self.now) p }
        ensures within { result < length (code_of_view self.now).a }
        ensures some_steps { steps.old + 1 ≤ steps.new }
        ensures cost { steps.new ≤ steps.old + 7 * digits (length (code_of_view self.now).a + 2) + 51 }
    {
        self.mated_of_seen(p, seen, steps).position
    }

    /// The innermost pair of the edges that are none of the trees round the gap before the mate of position `p`, of which
    /// this was seen. Where the edge is such a one itself no mate is looked for.
    #[inline(always)]
    fn pair_across_seen<C: Ledger>(
        &self,
        p: usize,
        seen: Seen,
        steps: &mut Steps<C>,
    ) -> Option<usize>
        requires within { p < length (code_of_view self.now).a }
        requires seen { IsSeen (code_of_view self.now) p seen }
        ensures pair { result ≡ enclosing_pair (code_of_view self.now) false (mate (code_of_view self.now) p) }
        ensures grows { steps.old ≤ steps.new }
        ensures cost { steps.new ≤ steps.old + (if seen.tree then 9 * digits (length (code_of_view self.now).a + 2) + 86
            else 2 * digits (length (code_of_view self.now).a + 2) + 35) }
    {
        if seen.tree {
            let mate = self.mated_of_seen(p, seen, steps);
            return self.pair_round(false, mate.position - mate.place, steps);
        }
        if seen.is_first {
            let parens = self.parens(false);
            return Some(parens.opens_before(seen.place, steps));
        }
        self.pair_round(false, seen.place + 1, steps)
    }

    /// The edge at position `p`, and the next position of its orbit: round its node where `kind` is true, else round
    /// its ring. Their component is looked for in `near` before all, and stands there in the end.
    #[inline(always)]
    pub fn stop<C: Ledger>(
        &self,
        kind: bool,
        p: usize,
        near: &mut usize,
        steps: &mut Steps<C>,
    ) -> Stop
        requires { p < length (code_of_view self.now).a }
        ensures edge { result.edge ≡ edge_of (code_of_view self.now) p }
        ensures edge_within { result.edge < edge_count (code_of_view self.now) }
        ensures first { result.is_first ≡ is_first (code_of_view self.now) p }
        ensures over { result.over ≡ over (code_of_view self.now) kind p }
        ensures over_within { result.over < length (code_of_view self.now).a }
        ensures next { result.next ≡ step (code_of_view self.now) kind p }
        ensures within { result.next < length (code_of_view self.now).a }
        ensures component { near.new ≡ component_of (code_of_view self.now) p }
        ensures some_steps { steps.old + 1 ≤ steps.new }
        ensures cost { steps.new ≤ steps.old + 12 * digits (length (code_of_view self.now).a + 2) + 115 }
    {
        let seen = self.see(p, steps);
        let over = if seen.tree == kind {
            self.mate_of_seen(p, seen, steps)
        } else {
            p
        };
        Stop {
            edge: seen.edge,
            is_first: seen.is_first,
            over,
            next: self.after(over, near, steps),
        }
    }

    /// The edge at position `p`, the ring across it, and the next position of its ring. Their component is looked for in
    /// `near` before all, and stands there in the end.
    #[inline(always)]
    pub fn ring_stop<C: Ledger>(&self, p: usize, near: &mut usize, steps: &mut Steps<C>) -> RingStop
        requires { p < length (code_of_view self.now).a }
        ensures edge { result.edge ≡ edge_of (code_of_view self.now) p }
        ensures edge_within { result.edge < edge_count (code_of_view self.now) }
        ensures first { result.is_first ≡ is_first (code_of_view self.now) p }
        ensures across { result.across ≡ ring_of (code_of_view self.now) (mate (code_of_view self.now) p) }
        ensures across_within { IsTrue (has_ring (code_of_view self.now) result.across) }
        ensures next { result.next ≡ next (code_of_view self.now) p }
        ensures within { result.next < length (code_of_view self.now).a }
        ensures component { near.new ≡ component_of (code_of_view self.now) p }
        ensures some_steps { steps.old + 1 ≤ steps.new }
        ensures cost { steps.new ≤ steps.old + 15 * digits (length (code_of_view self.now).a + 2) + 151 }
    {
        let seen = self.see(p, steps);
        let over = if seen.tree {
            p
        } else {
            self.mate_of_seen(p, seen, steps)
        };
        let next = self.after(over, near, steps);
        let pair = self.pair_across_seen(p, seen, steps);
        RingStop {
            edge: seen.edge,
            is_first: seen.is_first,
            across: self.ring_of_pair(pair, p, *near, steps),
            next,
        }
    }

    /// The number of the edge at position `p`: the edges of the trees come first, and those of one kind in the order
    /// of their first positions.
    pub fn edge_of<C: Ledger>(&self, p: usize, steps: &mut Steps<C>) -> u32
        requires { p < length (code_of_view self.now).a }
        ensures edge { result ≡ edge_of (code_of_view self.now) p }
        ensures within { result < edge_count (code_of_view self.now) }
        ensures some_steps { steps.old + 1 ≤ steps.new }
        ensures cost { steps.new ≤ steps.old + 4 * digits (length (code_of_view self.now).a + 2) + 61 }
    {
        let (edge, _is_first) = self.edge_and_side(p, steps);
        edge
    }

    /// The first position of an edge, or None where no edge has the number.
    pub fn first_of_edge<C: Ledger>(&self, edge: u32, steps: &mut Steps<C>) -> Option<usize>
        ensures position { result ≡ first_of_edge (code_of_view self.now) edge }
        ensures within { IfSome result (λ p. p < length (code_of_view self.now).a) }
        ensures none { IsNone result ↔ (edge_count (code_of_view self.now) ≤ edge) }
        ensures some_steps { steps.old + 1 ≤ steps.new }
        ensures cost { steps.new ≤ steps.old + 6 * digits (length (code_of_view self.now).a + 2) + 24 }
    {
        let edge = edge as usize;
        let tree_edges = self.tree_edges();
        if edge < tree_edges {
            self.opening_position(true, edge, steps)
        } else {
            self.opening_position(false, edge - tree_edges, steps)
        }
    }

    /// The first position that leaves a node, or None where no node has the number.
    pub fn first_of_node<C: Ledger>(&self, node: u32, steps: &mut Steps<C>) -> Option<usize>
        ensures position { result ≡ first_of_node (code_of_view self.now) node }
        ensures within { IfSome result (λ p. p < length (code_of_view self.now).a) }
        ensures none { IsNone result ↔ (node_count (code_of_view self.now) ≤ node) }
        ensures some_steps { steps.old + 1 ≤ steps.new }
        ensures cost { steps.new ≤ steps.old + 6 * digits (length (code_of_view self.now).a + 2) + 24 }
    {
        let node = node as usize;
        let components = self.components();
        if node < components {
            Some(self.start(node, steps))
        } else {
            self.reached_from(true, node - components, steps)
        }
    }

    /// The first position of a shell, or None where no shell has the number.
    pub fn first_of_shell<C: Ledger>(&self, shell: u32, steps: &mut Steps<C>) -> Option<usize>
        ensures position { result ≡ first_of_shell (code_of_view self.now) shell }
        ensures within { IfSome result (λ p. p < length (code_of_view self.now).a) }
        ensures none { IsNone result ↔ (shell_count (code_of_view self.now) ≤ shell) }
        ensures some_steps { steps.old + 1 ≤ steps.new }
        ensures cost { steps.new ≤ steps.old + 6 * digits (length (code_of_view self.now).a + 2) + 24 }
    {
        self.reached_from(false, shell as usize, steps)
    }

    /// The first position of a component, or None where no component has the number.
    pub fn start_of<C: Ledger>(&self, component: u32, steps: &mut Steps<C>) -> Option<usize>
        ensures start { IfSome result (λ p. p ≡ start_of (code_of_view self.now) component) }
        ensures within { IfSome result (λ p. p < length (code_of_view self.now).a) }
        ensures none { IsNone result ↔ (component_count (code_of_view self.now) ≤ component) }
        ensures grows { steps.old ≤ steps.new }
        ensures cost { steps.new ≤ steps.old + 1 }
    {
        let component = component as usize;
        if component < self.components() {
            Some(self.start(component, steps))
        } else {
            None
        }
    }
}
