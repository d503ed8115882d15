//! The outline of a region of an opened file, told as lines.

ghost use Rattle.std.specs.Prelude.{◌≡◌, ◌≤◌, ◌+◌, ◌*◌, [], ◌∷◌, ◌++◌, codes, length, IfOk, OnOk};
ghost use Rattle.scratch_region.specs.Marks.{room_of, IsEmpty};
ghost use Rattle.pemb_file.specs.Served.{contents_of_view};
ghost use Rattle.navigate.specs.Bound.{served_map};
ghost use Rattle.region_border.specs.BorderWalk.{allowance, contents_in, rest, HoldsGiven};
ghost use Rattle.region_border.specs.Prices.{most_border_words};
ghost use Rattle.outline_text.specs.Lines.{border_text, edges_told, region_text};
ghost use Rattle.outline_text.specs.Told.{counts_text, edges_among, outline_text};

use crate::marking::words_for_marks;
use crate::ring_lines::{RingCounts, append_rings};
use bit_words::Steps;
use pemb_file::Served;
use query_text::number_item;
use region_border::{BorderWalk, border_walk};
use scratch_region::Marks;
use std::alloc::{AllocError, Global};
use std::sync::ledger::Ledger;
use topo_base::RegionId;

/// Appends the beginning of the last line: the region that was asked for, and a colon.
fn append_region(text: &mut Vec<u8>, region: RegionId) -> Result<(), AllocError>
    ensures { OnOk result (text.new.items ≡ text.old.items ++ region_text region.0) }
{
    text.extend_from_slice(b"border")?;
    text.extend_from_slice(number_item(region.0).as_slice())?;
    text.push(b':')?;
    Ok(())
}

/// Appends the last line of a region that the map has.
fn append_counts(text: &mut Vec<u8>, region: RegionId, counts: RingCounts) -> Result<(), AllocError>
    ensures { OnOk result (text.new.items ≡ text.old.items ++ region_text region.0
        ++ counts_text counts.rings counts.edges ++ 10 ∷ []) }
{
    append_region(text, region)?;
    text.extend_from_slice(number_item(counts.rings).as_slice())?;
    text.extend_from_slice(number_item(counts.edges).as_slice())?;
    text.push(b'\n')?;
    Ok(())
}

/// Appends the one line of a region that the map lacks.
fn append_unknown(text: &mut Vec<u8>, region: RegionId) -> Result<(), AllocError>
    ensures { OnOk result (text.new.items ≡ text.old.items ++ region_text region.0 ++ codes " unknown" ++ 10 ∷ []) }
{
    append_region(text, region)?;
    text.extend_from_slice(b" unknown\n")?;
    Ok(())
}

/// Appends the lines of the rings that a walk still gives, and the last line behind them.
fn append_outline<L: Ledger>(
    text: &mut Vec<u8>,
    region: RegionId,
    walk: &mut BorderWalk<'_>,
    marks: &mut Marks<'_>,
    steps: &mut Steps<L>,
) -> Result<(), AllocError>
    requires room { 2 * length (contents_in walk.old).edges ≤ room_of marks.old }
    requires marks { HoldsGiven walk.old marks.old }
    ensures text { OnOk result (text.new.items ≡ text.old.items ++ outline_text region.0 (rest walk.old)) }
    ensures least { OnOk result (steps.old + edges_among (rest walk.old) ≤ steps.new) }
    ensures most { steps.new ≤ steps.old + allowance walk.old }
    ensures grows { steps.old ≤ steps.new }
{
    let counts = append_rings(text, walk, marks, steps)?;
    append_counts(text, region, counts)
}

/// Appends the outline of a region, or that the map lacks it. The marks of its signed edges stay.
fn append_border<L: Ledger>(
    text: &mut Vec<u8>,
    served: Served<'_>,
    region: RegionId,
    marks: &mut Marks<'_>,
    steps: &mut Steps<L>,
) -> Result<(), AllocError>
    requires room { 2 * length (contents_of_view served).edges ≤ room_of marks.old }
    requires empty { IsEmpty marks.old }
    ensures text { OnOk result (text.new.items ≡ text.old.items ++ border_text (served_map served.entry) region.0) }
    ensures least { OnOk result (steps.old + edges_told (served_map served.entry) region.0 ≤ steps.new) }
    ensures most { steps.new ≤ steps.old + most_border_words (served_map served.entry) }
    ensures grows { steps.old ≤ steps.new }
{
    match border_walk(served, region, steps) {
        Some(mut walk) => append_outline(text, region, &mut walk, marks, steps),
        None => append_unknown(text, region),
    }
}

/// The lines of the outline of a region of an opened file: its rings, and how many there are, or that the map lacks
/// it. The words for the marks are taken before the walk.
pub fn border_text<L: Ledger>(
    alloc: Global,
    served: Served<'_>,
    region: RegionId,
    steps: &mut Steps<L>,
) -> Result<Vec<u8>, AllocError>
    ensures text { IfOk result (λ text. text.items ≡ border_text (served_map served.entry) region.0) }
    ensures least { OnOk result (steps.old + edges_told (served_map served.entry) region.0 ≤ steps.new) }
    ensures most { steps.new ≤ steps.old + most_border_words (served_map served.entry) }
    ensures grows { steps.old ≤ steps.new }
{
    let mut words = words_for_marks(alloc, &served)?;
    let mut marks = Marks::none(&mut words);
    let mut text = Vec::new(alloc);
    append_border(&mut text, served, region, &mut marks, steps)?;
    Ok(text)
}
