//! The checks of places, of their order, and of the starts of components.

ghost use Rattle.std.specs.Prelude.{◌≡◌, [], option_map};
ghost use Rattle.topo_base.specs.SignedEdge.{comes_before};
ghost use Rattle.pemb_file.specs.Checked.{Finds};
ghost use Rattle.bit_words.specs.BitView.{bits_of};
ghost use Rattle.bit_words.specs.PackedView.{fields_of};
ghost use Rattle.turan_code.specs.TuranView.{code_of_view};
ghost use Rattle.id_names.specs.Views.{ids_of};
ghost use Rattle.file_laws.specs.Contents.{contents_with};
ghost use Rattle.pemb_file.specs.PlacedFits.{PlacedFits};

use bit_words::{BitView, PackedView, Steps};
use file_laws::FileFault;
use id_names::NamesView;
use std::sync::ledger::Ledger;
use topo_base::SignedNumber;
use turan_code::TuranView;

/// The gap before a position, among the edges that are none of the trees.
#[derive(Clone, Copy)]
struct Gap {
    /// How many of their places stand before it.
    place: usize,
    /// How many of their pairs stand round it: none exactly where the position is in an outer ring.
    depth: usize,
}

impl Gap {
    ghost use Rattle.std.specs.Prelude.{◌≡◌, ◌<◌, ◌≤◌, ◌+◌, length};
    ghost use Rattle.turan_code.specs.TuranView.{code_of_view};
    ghost use Rattle.pemb_file.specs.Gap.{IsGap};

    /// Passes position `p`.
    fn pass<C: Ledger>(&mut self, code: &TuranView<'_>, p: usize, steps: &mut Steps<C>)
        requires within { p < length (code_of_view code.now).a }
        requires gap { IsGap (code_of_view code.now) p self.old }
        ensures gap { IsGap (code_of_view code.now) (p + 1) self.new }
        ensures some_steps { steps.old + 1 ≤ steps.new }
        ensures cost { steps.new ≤ steps.old + 2 }
    {
        let parts = code.parts();
        if parts.a.bits().bit(p, steps) {
            return;
        }
        let opens = parts.dual.is_open(self.place, steps);
        self.place += 1;
        if opens {
            self.depth += 1;
        } else {
            self.depth -= 1;
        }
    }
}

/// A sound code with the ids of its edges, and the places of components and isolated nodes.
#[derive(Clone, Copy)]
pub(crate) struct Placed<'a> {
    pub(crate) code: TuranView<'a>,
    pub(crate) forward: BitView<'a>,
    pub(crate) nodes: NamesView<'a>,
    pub(crate) edges: NamesView<'a>,
    pub(crate) places: PackedView<'a>,
    pub(crate) place_order: PackedView<'a>,
    pub(crate) isolated: PackedView<'a>,
    pub(crate) faces: NamesView<'a>,
    ghost fits: { PlacedFits (contents_with (code_of_view code) (bits_of forward) (ids_of nodes) (ids_of edges)
        (ids_of faces) [] (fields_of places) (fields_of place_order) (fields_of isolated) [] []) },
}

impl<'a> Placed<'a> {
    ghost use Rattle.std.specs.Prelude.{ℕ, ◌≡◌, ◌<◌, ◌≤◌, ◌+◌, ◌-◌, ◌*◌, ◌&&◌, length, slice_index, IsTrue};
    ghost use Rattle.bit_words.specs.Digits.{digits};
    ghost use Rattle.code_laws.specs.Code.{start_of, end_of, component_of, component_count as components_of_code};
    ghost use Rattle.code_laws.specs.Numbers.{ring_of, is_outer};
    ghost use Rattle.topo_base.specs.SignedEdge.{comes_before};
    ghost use Rattle.file_laws.specs.MapOfFile.{signed_at};
    ghost use Rattle.file_laws.specs.Faults.{is_place, begins_before, place_fault, precedes, is_ordered, order_fault, isolated_id, is_isolated, isolated_fault, places_fault, is_smallest, start_fault};
    ghost use Rattle.pemb_file.specs.Checked.{Finds};
    ghost use Rattle.pemb_file.specs.Gap.{IsGap};
    ghost use Rattle.pemb_file.specs.PlacedView.{contents_of_placed};

    /// The signed edge at position `p`.
    fn signed_at<C: Ledger>(&self, p: usize, steps: &mut Steps<C>) -> SignedNumber
        requires { p < length (contents_of_placed self.now).code.a }
        ensures value { result ≡ signed_at (contents_of_placed self.now) p }
        ensures grows { steps.old ≤ steps.new }
        ensures cost { steps.new ≤ steps.old + 7 * digits (length (contents_of_placed self.now).code.a + 2) + 82 }
    {
        let (edge, is_first) = self.code.edge_and_side(p, steps);
        let edge = edge as usize;
        let _count = self.edges.count();
        let id = self.edges.id_of(edge, steps) as SignedNumber;
        if is_first == self.forward.bit(edge, steps) {
            id
        } else {
            -id
        }
    }

    /// The first position of a component.
    fn start<C: Ledger>(&self, component: usize, steps: &mut Steps<C>) -> usize
        requires { component < components_of_code (contents_of_placed self.now).code }
        ensures start { result ≡ start_of (contents_of_placed self.now).code component }
        ensures grows { steps.old ≤ steps.new }
        ensures cost { steps.new ≤ steps.old + 2 }
    {
        match self.code.start_of(component as u32, steps) {
            Some(start) => start,
            None => unreachable!(),
        }
    }

    /// Whether the shell of the face at a place begins before position `p`.
    fn begins_before<C: Ledger>(&self, place: u64, p: usize, steps: &mut Steps<C>) -> bool
        requires { place ≤ length (contents_of_placed self.now).faces }
        ensures begins { result ≡ begins_before (contents_of_placed self.now) place p }
        ensures grows { steps.old ≤ steps.new }
        ensures cost { steps.new ≤ steps.old + 6 * digits (length (contents_of_placed self.now).code.a + 2) + 24 }
    {
        if place == 0 {
            return true;
        }
        let edge = self.edges.count() - self.faces.count() + (place - 1) as usize;
        match self.code.first_of_edge(edge as u32, steps) {
            Some(first) => first < p,
            None => 0 < p,
        }
    }

    /// Whether the place of a component is one, and no shell of an edge that does not begin before the component.
    fn is_placed<C: Ledger>(&self, component: usize, steps: &mut Steps<C>) -> bool
        requires { component < length (contents_of_placed self.now).places }
        ensures placed { result ≡ (is_place (contents_of_placed self.now)
            (slice_index (contents_of_placed self.now).places component)
            && begins_before (contents_of_placed self.now) (slice_index (contents_of_placed self.now).places component)
            (start_of (contents_of_placed self.now).code component)) }
        ensures grows { steps.old ≤ steps.new }
        ensures cost { steps.new ≤ steps.old + 12 * digits (length (contents_of_placed self.now).code.a + 2) + 50 }
    {
        let place = self.places.field(component, steps);
        if place > self.faces.count() as u64 {
            return false;
        }
        let start = self.start(component, steps);
        self.begins_before(place, start, steps)
    }

    /// The first component whose place is none, or is the shell of an edge that does not begin before the component.
    fn wrong_place<C: Ledger>(&self, steps: &mut Steps<C>) -> Option<usize>
        ensures place { result ≡ place_fault (contents_of_placed self.now) }
        ensures grows { steps.old ≤ steps.new }
        ensures cost { steps.new ≤ steps.old + length (contents_of_placed self.now).places
            * (12 * digits (length (contents_of_placed self.now).code.a + 2) + 50) }
    {
        for component in 0..self.places.count() {
            if !self.is_placed(component, steps) {
                return Some(component);
            }
        }
        None
    }

    /// Whether component `j` stands in the order before component `i`.
    fn precedes<C: Ledger>(&self, i: usize, j: usize, steps: &mut Steps<C>) -> bool
        requires first { i < length (contents_of_placed self.now).places }
        requires second { j < length (contents_of_placed self.now).places }
        ensures precedes { result ≡ precedes (contents_of_placed self.now) i j }
        ensures grows { steps.old ≤ steps.new }
        ensures cost { steps.new ≤ steps.old + 26 * digits (length (contents_of_placed self.now).code.a + 2) + 238 }
    {
        let (p, q) = (self.places.field(i, steps), self.places.field(j, steps));
        if p != q {
            return p < q;
        }
        let (start, next) = (self.start(i, steps), self.start(j, steps));
        comes_before(self.signed_at(start, steps), self.signed_at(next, steps))
    }

    /// Whether entry `j` of the order is a component, and follows the entry before it.
    fn is_ordered<C: Ledger>(&self, j: usize, steps: &mut Steps<C>) -> bool
        requires within { j < length (contents_of_placed self.now).place_order }
        requires before { (k : ℕ) → k < j → slice_index (contents_of_placed self.now).place_order k
            < length (contents_of_placed self.now).places }
        ensures ordered { result ≡ is_ordered (contents_of_placed self.now) j }
        ensures grows { steps.old ≤ steps.new }
        ensures cost { steps.new ≤ steps.old + 26 * digits (length (contents_of_placed self.now).code.a + 2) + 242 }
    {
        let component = self.place_order.field(j, steps);
        if component >= self.places.count() as u64 {
            return false;
        }
        if j == 0 {
            return true;
        }
        let before = self.place_order.field(j - 1, steps);
        self.precedes(before as usize, component as usize, steps)
    }

    /// The first entry of the order that is no component, or does not follow the entry before it.
    fn wrong_order<C: Ledger>(&self, steps: &mut Steps<C>) -> Option<usize>
        ensures order { result ≡ order_fault (contents_of_placed self.now) }
        ensures grows { steps.old ≤ steps.new }
        ensures cost { steps.new ≤ steps.old + length (contents_of_placed self.now).places
            * (26 * digits (length (contents_of_placed self.now).code.a + 2) + 242) }
    {
        for j in 0..self.place_order.count() {
            if !self.is_ordered(j, steps) {
                return Some(j);
            }
        }
        None
    }

    /// The id of an isolated node.
    fn isolated_id<C: Ledger>(&self, j: usize, steps: &mut Steps<C>) -> u64
        requires { j < length (contents_of_placed self.now).isolated }
        ensures id { result ≡ isolated_id (contents_of_placed self.now) j }
        ensures grows { steps.old ≤ steps.new }
        ensures cost { steps.new ≤ steps.old + 3 * digits (length (contents_of_placed self.now).nodes + 2) + 20 }
    {
        self.nodes
            .id_of(self.nodes.count() - self.isolated.count() + j, steps)
    }

    /// Whether isolated node `j` has a place, and follows the one before it.
    fn is_isolated<C: Ledger>(&self, j: usize, steps: &mut Steps<C>) -> bool
        requires { j < length (contents_of_placed self.now).isolated }
        ensures isolated { result ≡ is_isolated (contents_of_placed self.now) j }
        ensures grows { steps.old ≤ steps.new }
        ensures cost { steps.new ≤ steps.old + 6 * digits (length (contents_of_placed self.now).nodes + 2) + 44 }
    {
        let place = self.isolated.field(j, steps);
        if place > self.faces.count() as u64 {
            return false;
        }
        if j == 0 {
            return true;
        }
        let before = self.isolated.field(j - 1, steps);
        if before != place {
            return before < place;
        }
        self.isolated_id(j - 1, steps) < self.isolated_id(j, steps)
    }

    /// The first isolated node that has no place, or does not follow the one before it.
    fn wrong_isolated<C: Ledger>(&self, steps: &mut Steps<C>) -> Option<usize>
        ensures isolated { result ≡ isolated_fault (contents_of_placed self.now) }
        ensures grows { steps.old ≤ steps.new }
        ensures cost { steps.new ≤ steps.old + length (contents_of_placed self.now).isolated
            * (6 * digits (length (contents_of_placed self.now).nodes + 2) + 44) }
    {
        for j in 0..self.isolated.count() {
            if !self.is_isolated(j, steps) {
                return Some(j);
            }
        }
        None
    }

    /// Whether places and their order are right.
    pub(crate) fn check_places<C: Ledger>(&self, steps: &mut Steps<C>) -> Result<(), FileFault>
        ensures fault { Finds (places_fault (contents_of_placed self.now)) result }
        ensures grows { steps.old ≤ steps.new }
        ensures cost { steps.new ≤ steps.old + length (contents_of_placed self.now).places
            * (38 * digits (length (contents_of_placed self.now).code.a + 2) + 292)
            + length (contents_of_placed self.now).isolated
            * (6 * digits (length (contents_of_placed self.now).nodes + 2) + 44) }
    {
        place(17, self.wrong_place(steps))?;
        place(18, self.wrong_order(steps))?;
        place(19, self.wrong_isolated(steps))
    }

    /// Whether position `p`, which this gap stands before, is in its component's outer ring and its signed edge is
    /// before this one.
    fn is_smaller<C: Ledger>(
        &self,
        than: SignedNumber,
        p: usize,
        gap: Gap,
        steps: &mut Steps<C>,
    ) -> bool
        requires within { p < length (contents_of_placed self.now).code.a }
        requires gap { IsGap (contents_of_placed self.now).code p gap }
        ensures smaller { result ≡ (is_outer (component_of (contents_of_placed self.now).code p)
            (ring_of (contents_of_placed self.now).code p)
            && comes_before (signed_at (contents_of_placed self.now) p) than) }
        ensures grows { steps.old ≤ steps.new }
        ensures cost { steps.new ≤ steps.old + 7 * digits (length (contents_of_placed self.now).code.a + 2) + 82 }
    {
        gap.depth == 0 && comes_before(self.signed_at(p, steps), than)
    }

    /// Where a component's positions end.
    fn end<C: Ledger>(&self, component: usize, steps: &mut Steps<C>) -> usize
        requires { component < components_of_code (contents_of_placed self.now).code }
        ensures end { result ≡ end_of (contents_of_placed self.now).code component }
        ensures grows { steps.old ≤ steps.new }
        ensures cost { steps.new ≤ steps.old + 2 }
    {
        if component + 1 == self.places.count() {
            2 * self.edges.count()
        } else {
            self.start(component + 1, steps)
        }
    }

    /// Whether the signed edge at a component's start is the smallest of its outer ring, with the gap before the start.
    /// Where it is, the gap is then the one at the component's end, where the next one starts.
    fn is_smallest<C: Ledger>(&self, component: usize, gap: &mut Gap, steps: &mut Steps<C>) -> bool
        requires within { component < components_of_code (contents_of_placed self.now).code }
        requires gap { IsGap (contents_of_placed self.now).code
            (start_of (contents_of_placed self.now).code component) gap.old }
        ensures smallest { result ≡ is_smallest (contents_of_placed self.now) component }
        ensures gap { IsTrue result → IsGap (contents_of_placed self.now).code
            (end_of (contents_of_placed self.now).code component) gap.new }
        ensures grows { steps.old ≤ steps.new }
        ensures cost { steps.new ≤ steps.old + (end_of (contents_of_placed self.now).code component
            - start_of (contents_of_placed self.now).code component)
            * (7 * digits (length (contents_of_placed self.now).code.a + 2) + 84) + 4 }
    {
        let from = self.start(component, steps);
        let to = self.end(component, steps);
        let start = self.signed_at(from, steps);
        gap.pass(&self.code, from, steps);
        for p in from + 1..to {
            if self.is_smaller(start, p, *gap, steps) {
                return false;
            }
            gap.pass(&self.code, p, steps);
        }
        true
    }

    /// Whether the signed edge at each component's start is the smallest of its outer ring, by one pass over all
    /// positions.
    pub(crate) fn check_starts<C: Ledger>(&self, steps: &mut Steps<C>) -> Result<(), FileFault>
        ensures fault { Finds (start_fault (contents_of_placed self.now)) result }
        ensures grows { steps.old ≤ steps.new }
        ensures cost { steps.new ≤ steps.old + length (contents_of_placed self.now).code.a
            * (7 * digits (length (contents_of_placed self.now).code.a + 2) + 84)
            + length (contents_of_placed self.now).places * 4 }
    {
        let mut gap = Gap { place: 0, depth: 0 };
        for component in 0..self.places.count() {
            if !self.is_smallest(component, &mut gap, steps) {
                return Err(FileFault::Start {
                    component: component as u64,
                });
            }
        }
        Ok(())
    }
}

/// Whether the first of two signed edges is the smaller.
fn comes_before(first: SignedNumber, second: SignedNumber) -> bool
    ensures { result ≡ comes_before first second }
{
    let (edge, other) = (first.unsigned_abs(), second.unsigned_abs());
    edge < other || (edge == other && first >= 0 && second < 0)
}

/// A fault of places.
fn place(section: u64, found: Option<usize>) -> Result<(), FileFault>
    ensures { Finds (option_map (λ at. FileFault.Place section at) found) result }
{
    match found {
        Some(at) => Err(FileFault::Place {
            section,
            at: at as u64,
        }),
        None => Ok(()),
    }
}
