//! A grid, built, opened, walked and summed.

ghost use Rattle.std.specs.Prelude.{◌≡◌, ◌≤◌, ◌+◌, ◌++◌, IfErr, IfOk, Ok, codes};
ghost use Rattle.plane_model.specs.PlaneMap.{map_of};
ghost use Rattle.map_totals.specs.Totals.{adjacent_total, face_total, most_total_words, node_total};
ghost use Rattle.navigate.specs.Bound.{served_map};
ghost use Rattle.pemb_file.specs.Draft.{file_of_draft};
ghost use Rattle.topo_cli.specs.Loading.{BuildsGrid, IsMet, NamesNothing};
ghost use Rattle.topo_cli.specs.Tables.{checked};
ghost use Rattle.topo_cli.specs.Text.{trial_text};
ghost use Rattle.map_maker.specs.Grid.{grid_of};

use crate::counting::{line_of_counts, line_of_number};
use crate::image::words_for_marks;
use crate::load::LoadFault;
use bit_words::Steps;
use map_build::draft;
use map_maker::grid;
use map_totals::{Totals, totals};
use pemb_file::{Draft, Served};
use scratch_region::Marks;
use std::alloc::{AllocError, Global};
use std::sync::ledger::Ledger;

/// A draft of the image of the grid of a size.
pub fn grid_draft(alloc: Global, size: u32) -> Result<Draft, LoadFault>
    requires some { 1 ≤ size }
    requires size { size ≤ 1000 }
    ensures built { IfOk result (λ draft. BuildsGrid size (file_of_draft draft)) }
    ensures ends { IfErr result (λ e. IsMet e (checked (grid_of size))) }
    ensures named { IfErr result NamesNothing }
{
    let tables = match grid(alloc, size) {
        Ok(tables) => tables,
        Err(_) => return Err(LoadFault::Memory),
    };
    Ok(draft(alloc, tables)?)
}

/// The lines of a grid's size, counts and sums.
fn text_of(
    alloc: Global,
    size: u32,
    served: &Served<'_>,
    sums: Totals,
) -> Result<Vec<u8>, AllocError>
    requires face { sums.face ≡ face_total (served_map served.now) }
    requires node { sums.node ≡ node_total (served_map served.now) }
    requires adjacent { sums.adjacent ≡ adjacent_total (served_map served.now) }
    ensures { IfOk result (λ text. text.items ≡ trial_text size (served_map served.now)) }
{
    let mut text = Vec::new(alloc);
    text.extend_from_slice(line_of_number(alloc, "trial", u64::from(size))?.as_bytes())?;
    text.extend_from_slice(&line_of_counts(alloc, "counts", served)?)?;
    text.extend_from_slice(line_of_number(alloc, "face", sums.face)?.as_bytes())?;
    text.extend_from_slice(line_of_number(alloc, "node", sums.node)?.as_bytes())?;
    text.extend_from_slice(line_of_number(alloc, "adjacent", sums.adjacent)?.as_bytes())?;
    Ok(text)
}

/// What `trial` tells of an opened grid, by the walks over it.
pub fn trial_lines<L: Ledger>(
    alloc: Global,
    size: u32,
    served: Served<'_>,
    steps: &mut Steps<L>,
) -> Result<Vec<u8>, AllocError>
    ensures text { IfOk result (λ text. text.items ≡ trial_text size (served_map served.entry)) }
    ensures least { IfOk result (λ _. steps.old + (face_total (served_map served.entry)
        + node_total (served_map served.entry) + adjacent_total (served_map served.entry)) ≤ steps.new) }
    ensures most { steps.new ≤ steps.old + most_total_words (served_map served.entry) }
    ensures grows { steps.old ≤ steps.new }
{
    let mut words = words_for_marks(alloc, &served)?;
    let mut marks = Marks::none(&mut words);
    let sums = totals(served, &mut marks, steps);
    text_of(alloc, size, &served, sums)
}
