//! The ends of all edges, filled by one tour of the code.

ghost use Rattle.std.specs.Prelude.{ℕ, ◌≡◌, ◌<◌, ◌≤◌, ◌+◌, ◌*◌, length};
ghost use Rattle.scratch_region.specs.Numbers.{numbers_of};
ghost use Rattle.code_tour.specs.Passed.{IsPassed};
ghost use Rattle.code_tour.specs.Tour.{code_in, position_of};
ghost use Rattle.id_names.specs.Views.{ids_of};
ghost use Rattle.code_laws.specs.Numbers.{ring_of};
ghost use Rattle.file_laws.specs.MapOfFile.{face_at, place_of_ring};
ghost use Rattle.pemb_file.specs.Served.{contents_of_view};
ghost use Rattle.table_dump.specs.AtEnds.{AreEnds};
ghost use Rattle.table_dump.specs.Ids.{AreIds};
ghost use Rattle.table_dump.specs.Sweep.{AreSwept, IsPut, IsSomewhere};

use crate::ends::{end_at, put_next, put_sides};
use crate::ids::Ids;
use bit_words::Steps;
use code_tour::{Passed, Tour};
use id_names::NamesView;
use navigate::number_with;
use pemb_file::Served;
use scratch_region::Numbers;
use std::sync::ledger::Ledger;
use topo_base::{IdNumber, SignedNumber};

/// What a sweep keeps of the positions that it has passed.
#[derive(Clone, Copy)]
pub(crate) struct Behind {
    /// The component of the last position.
    component: u32,
    /// The signed edge at the first position of that component.
    first: SignedNumber,
    /// The end whose signed edge the one at the next position of the component follows on its ring.
    end: usize,
}

/// The place of the face on the left of a position: 0 for face 0, and else 1 + the number of the face.
fn place_beside<C: Ledger>(served: Served<'_>, passed: Passed, steps: &mut Steps<C>) -> u32
    requires { IsSomewhere (contents_of_view served) passed }
    ensures place { (p : ℕ) → IsPassed (contents_of_view served.entry).code p passed
        → result ≡ place_of_ring (contents_of_view served.entry) (ring_of (contents_of_view served.entry).code p) }
    ensures within { result ≤ length (contents_of_view served.entry).faces }
    ensures grows { steps.old ≤ steps.new }
    ensures cost { steps.new ≤ steps.old + 2 }
{
    if passed.ring == 0 {
        served.place(passed.component as usize, steps)
    } else {
        passed.ring
    }
}

/// The id of the face on the left of a position.
fn face_beside<C: Ledger>(
    served: Served<'_>,
    ids: &Ids<'_>,
    passed: Passed,
    steps: &mut Steps<C>,
) -> IdNumber
    requires ids { AreIds (contents_of_view served) ids.now }
    requires passed { IsSomewhere (contents_of_view served) passed }
    ensures face { (p : ℕ) → IsPassed (contents_of_view served.entry).code p passed
        → result ≡ face_at (contents_of_view served.entry) p }
    ensures grows { steps.old ≤ steps.new }
    ensures cost { steps.new ≤ steps.old + 2 }
{
    let place = place_beside(served, passed, steps);
    ids.face(place as usize)
}

/// Puts what stands at a position to its end. What a sweep keeps of it, if its component begins with it.
fn put_position<C: Ledger>(
    served: Served<'_>,
    edges: &NamesView<'_>,
    ids: &Ids<'_>,
    passed: Passed,
    ends: &mut Numbers<'_>,
    steps: &mut Steps<C>,
) -> Behind
    requires edges { ids_of edges.now ≡ (contents_of_view served).edges }
    requires ids { AreIds (contents_of_view served) ids.now }
    requires passed { IsSomewhere (contents_of_view served) passed }
    requires room { length (numbers_of ends.old) ≡ 6 * length (contents_of_view served).edges }
    ensures put { (p : ℕ) → p < length (contents_of_view served.entry).code.a
        → IsPassed (contents_of_view served.entry).code p passed
        → IsPut (contents_of_view served.entry) edges.now p (numbers_of ends.old) (numbers_of ends.new) result }
    ensures within { result.end < 2 * length (contents_of_view served.entry).edges }
    ensures room { length (numbers_of ends.new) ≡ length (numbers_of ends.old) }
    ensures some_steps { steps.old + 1 ≤ steps.new }
    ensures cost { steps.new ≤ steps.old + 5 }
{
    let edge = passed.edge as usize;
    let place = edges.rank_of(edge, steps);
    let forward = passed.first == served.forward(edge, steps);
    let node = ids.node(passed.node as usize);
    let face = face_beside(served, ids, passed, steps);
    put_sides(ends, end_at(place, forward), node, face);
    Behind {
        component: passed.component,
        first: number_with(ids.edge(edge), forward),
        end: end_at(place, forward == passed.tree),
    }
}

/// Puts what stands at a position that others stand before, and that its signed edge follows the one before it.
fn put_next_position<C: Ledger>(
    served: Served<'_>,
    edges: &NamesView<'_>,
    ids: &Ids<'_>,
    passed: Passed,
    behind: Behind,
    ends: &mut Numbers<'_>,
    steps: &mut Steps<C>,
) -> Behind
    requires edges { ids_of edges.now ≡ (contents_of_view served).edges }
    requires ids { AreIds (contents_of_view served) ids.now }
    requires passed { IsSomewhere (contents_of_view served) passed }
    requires room { length (numbers_of ends.old) ≡ 6 * length (contents_of_view served).edges }
    requires within { behind.end < 2 * length (contents_of_view served).edges }
    ensures swept { (p : ℕ) → p < length (contents_of_view served.entry).code.a
        → IsPassed (contents_of_view served.entry).code p passed
        → AreSwept (contents_of_view served.entry) edges.now p (numbers_of ends.old) behind
        → AreSwept (contents_of_view served.entry) edges.now (p + 1) (numbers_of ends.new) result }
    ensures within { result.end < 2 * length (contents_of_view served.entry).edges }
    ensures room { length (numbers_of ends.new) ≡ length (numbers_of ends.old) }
    ensures grows { steps.old ≤ steps.new }
    ensures cost { steps.new ≤ steps.old + 5 }
{
    let _count = edges.count();
    let here = put_position(served, edges, ids, passed, ends, steps);
    if here.component == behind.component {
        put_next(ends, behind.end, here.first);
        Behind {
            component: here.component,
            first: behind.first,
            end: here.end,
        }
    } else {
        put_next(ends, behind.end, behind.first);
        here
    }
}

/// Fills the ends of all edges by a tour of the code from its first position on, over ids that were read ahead.
pub(crate) fn fill_ends<C: Ledger>(
    served: Served<'_>,
    ids: &Ids<'_>,
    tour: &mut Tour<'_, '_>,
    ends: &mut Numbers<'_>,
    steps: &mut Steps<C>,
)
    requires ids { AreIds (contents_of_view served) ids.now }
    requires code { code_in tour.old ≡ (contents_of_view served).code }
    requires first { position_of tour.old ≡ 0 }
    requires room { length (numbers_of ends.old) ≡ 6 * length (contents_of_view served).edges }
    ensures ends { AreEnds (contents_of_view served.entry) (numbers_of ends.new) }
    ensures grows { steps.old ≤ steps.new }
    ensures cost { steps.new ≤ steps.old + 18 * length (contents_of_view served.entry).edges }
{
    let edges = served.edges();
    let Some(first) = tour.pass(steps) else {
        return;
    };
    let mut behind = put_position(served, edges, ids, first, ends, steps);
    while let Some(passed) = tour.pass(steps) {
        behind = put_next_position(served, edges, ids, passed, behind, ends, steps);
    }
    put_next(ends, behind.end, behind.first);
}
