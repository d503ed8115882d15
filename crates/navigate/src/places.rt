//! What lies in a face: components and isolated nodes in the order of their places, found by halving.

ghost use Rattle.std.specs.Prelude.{ℕ, ◌≡◌, ◌<◌, ◌≤◌, ◌+◌, ◌*◌, length, slice_index};
ghost use Rattle.bit_words.specs.Digits.{digits};
ghost use Rattle.code_laws.specs.Code.{start_of};
ghost use Rattle.file_laws.specs.Contents.{component_count};
ghost use Rattle.pemb_file.specs.Served.{contents_of_view};
ghost use Rattle.pemb_file.specs.Milestones.{place_at};

use bit_words::Steps;
use pemb_file::Served;
use std::sync::ledger::Ledger;

/// How many components lie at places below this one.
pub fn components_below<C: Ledger>(served: Served<'_>, place: usize, steps: &mut Steps<C>) -> usize
    ensures within { result ≤ length (contents_of_view served.entry).place_order }
    ensures before { (i : ℕ) → i < result → place_at (contents_of_view served.entry) i < place }
    ensures from { (i : ℕ) → result ≤ i → i < length (contents_of_view served.entry).place_order
        → place ≤ place_at (contents_of_view served.entry) i }
    ensures grows { steps.old ≤ steps.new }
    ensures cost { steps.new ≤ steps.old + 2 * digits (component_count (contents_of_view served.entry)) }
{
    let (mut low, mut high) = served.components_around(place);
    while low < high {
        let middle = low + (high - low) / 2;
        let component = served.place_order(middle, steps) as usize;
        if (served.place(component, steps) as usize) < place {
            low = middle + 1;
        } else {
            high = middle;
        }
    }
    low
}

/// How many components lie at this place or at one below it, where so many lie below it. Most places have none, which
/// the first of them tells.
pub fn components_to<C: Ledger>(
    served: Served<'_>,
    place: usize,
    below: usize,
    steps: &mut Steps<C>,
) -> usize
    requires place { place ≤ length (contents_of_view served).faces }
    requires below { below ≤ length (contents_of_view served).place_order }
    requires before { (i : ℕ) → i < below → place_at (contents_of_view served) i < place }
    ensures within { result ≤ length (contents_of_view served.entry).place_order }
    ensures before { (i : ℕ) → i < result → place_at (contents_of_view served.entry) i < place + 1 }
    ensures from { (i : ℕ) → result ≤ i → i < length (contents_of_view served.entry).place_order
        → place + 1 ≤ place_at (contents_of_view served.entry) i }
    ensures grows { steps.old ≤ steps.new }
    ensures cost { steps.new ≤ steps.old + (2 * digits (component_count (contents_of_view served.entry)) + 2) }
{
    if below == served.counts().components as usize {
        return below;
    }
    let component = served.place_order(below, steps) as usize;
    if served.place(component, steps) as usize > place {
        return below;
    }
    components_below(served, place + 1, steps)
}

/// How many isolated nodes lie at places below this one.
pub fn isolated_below<C: Ledger>(served: Served<'_>, place: usize, steps: &mut Steps<C>) -> usize
    ensures within { result ≤ length (contents_of_view served.entry).isolated }
    ensures before { (i : ℕ) → i < result → slice_index (contents_of_view served.entry).isolated i < place }
    ensures from { (i : ℕ) → result ≤ i → i < length (contents_of_view served.entry).isolated
        → place ≤ slice_index (contents_of_view served.entry).isolated i }
    ensures grows { steps.old ≤ steps.new }
    ensures cost { steps.new ≤ steps.old + digits (length (contents_of_view served.entry).isolated) }
{
    let (mut low, mut high) = served.isolated_around(place);
    while low < high {
        let middle = low + (high - low) / 2;
        if (served.isolated(middle, steps) as usize) < place {
            low = middle + 1;
        } else {
            high = middle;
        }
    }
    low
}

/// How many isolated nodes lie at this place or at one below it, where so many lie below it.
pub fn isolated_to<C: Ledger>(
    served: Served<'_>,
    place: usize,
    below: usize,
    steps: &mut Steps<C>,
) -> usize
    requires place { place ≤ length (contents_of_view served).faces }
    requires below { below ≤ length (contents_of_view served).isolated }
    requires before { (i : ℕ) → i < below → slice_index (contents_of_view served).isolated i < place }
    ensures within { result ≤ length (contents_of_view served.entry).isolated }
    ensures before { (i : ℕ) → i < result → slice_index (contents_of_view served.entry).isolated i < place + 1 }
    ensures from { (i : ℕ) → result ≤ i → i < length (contents_of_view served.entry).isolated
        → place + 1 ≤ slice_index (contents_of_view served.entry).isolated i }
    ensures grows { steps.old ≤ steps.new }
    ensures cost { steps.new ≤ steps.old + (digits (length (contents_of_view served.entry).isolated) + 1) }
{
    if below == served.counts().isolated as usize {
        return below;
    }
    if served.isolated(below, steps) as usize > place {
        return below;
    }
    isolated_below(served, place + 1, steps)
}

/// The first position of the component at entry `j` of the order, and which component it is.
pub fn start_at<C: Ledger>(served: Served<'_>, j: usize, steps: &mut Steps<C>) -> (usize, usize)
    requires { j < length (contents_of_view served).place_order }
    ensures start { result.0 ≡ start_of (contents_of_view served.entry).code
        (slice_index (contents_of_view served.entry).place_order j) }
    ensures within { result.0 < length (contents_of_view served.entry).code.a }
    ensures component { result.1 ≡ slice_index (contents_of_view served.entry).place_order j }
    ensures some_steps { steps.old + 1 ≤ steps.new }
    ensures cost { steps.new ≤ steps.old + 2 }
{
    let code = served.code();
    let component = served.place_order(j, steps);
    match code.start_of(component, steps) {
        Some(start) => (start, component as usize),
        None => unreachable!(),
    }
}
