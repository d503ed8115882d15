//! The milestones among the places of components and of isolated nodes.

ghost use Rattle.std.specs.Prelude.{ℕ, ◌<◌, ◌≤◌, ◌+◌, ◌*◌, length, slice_index};
ghost use Rattle.pemb_file.specs.Milestones.{AreMilestones, IsMilestone, place_at};
ghost use Rattle.pemb_file.specs.Served.{contents_of_view};

use crate::milestones::Milestones;
use crate::served::Served;
use bit_words::Steps;
use std::sync::ledger::Ledger;

/// How many components lie at places below this one, where the first so many do.
fn components_from<C: Ledger>(
    served: Served<'_>,
    from: usize,
    place: u64,
    steps: &mut Steps<C>,
) -> usize
    requires within { from ≤ length (contents_of_view served).place_order }
    requires before { (j : ℕ) → j < from → place_at (contents_of_view served) j < place }
    ensures milestone { IsMilestone (place_at (contents_of_view served.entry))
        (length (contents_of_view served.entry).place_order) place result }
    ensures grows { steps.old ≤ steps.new }
    ensures cost { steps.new + 2 * from ≤ steps.old + 2 * result + 2 }
{
    let count = served.counts().components as usize;
    let mut below = from;
    while below < count {
        let component = served.place_order(below, steps) as usize;
        if u64::from(served.place(component, steps)) >= place {
            return below;
        }
        below += 1;
    }
    below
}

/// The milestones among the places of components, in the order of places.
pub(crate) fn among_components<C: Ledger>(served: Served<'_>, steps: &mut Steps<C>) -> Milestones
    ensures milestones { AreMilestones (place_at (contents_of_view served.entry))
        (length (contents_of_view served.entry).place_order) result }
    ensures grows { steps.old ≤ steps.new }
    ensures cost { steps.new ≤ steps.old + 2 * length (contents_of_view served.entry).place_order + 2048 }
{
    let mut milestones = Milestones::up_to(served.counts().faces);
    let mut below = 0;
    while let Some(place) = milestones.next() {
        below = components_from(served, below, place, steps);
        milestones.put(below as u32);
    }
    milestones
}

/// How many isolated nodes lie at places below this one, where the first so many do.
fn isolated_from<C: Ledger>(
    served: Served<'_>,
    from: usize,
    place: u64,
    steps: &mut Steps<C>,
) -> usize
    requires within { from ≤ length (contents_of_view served).isolated }
    requires before { (j : ℕ) → j < from → slice_index (contents_of_view served).isolated j < place }
    ensures milestone { IsMilestone (slice_index (contents_of_view served.entry).isolated)
        (length (contents_of_view served.entry).isolated) place result }
    ensures grows { steps.old ≤ steps.new }
    ensures cost { steps.new + from ≤ steps.old + result + 1 }
{
    let count = served.counts().isolated as usize;
    let mut below = from;
    while below < count {
        if u64::from(served.isolated(below, steps)) >= place {
            return below;
        }
        below += 1;
    }
    below
}

/// The milestones among the places of isolated nodes.
pub(crate) fn among_isolated<C: Ledger>(served: Served<'_>, steps: &mut Steps<C>) -> Milestones
    ensures milestones { AreMilestones (slice_index (contents_of_view served.entry).isolated)
        (length (contents_of_view served.entry).isolated) result }
    ensures grows { steps.old ≤ steps.new }
    ensures cost { steps.new ≤ steps.old + length (contents_of_view served.entry).isolated + 1024 }
{
    let mut milestones = Milestones::up_to(served.counts().faces);
    let mut below = 0;
    while let Some(place) = milestones.next() {
        below = isolated_from(served, below, place, steps);
        milestones.put(below as u32);
    }
    milestones
}
