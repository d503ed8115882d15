//! Regions as parentheses, from the parent of each, and the region of each face.

ghost use Rattle.std.specs.Prelude.{◌≡◌, ◌≤◌, ◌<◌, ◌+◌, IfOk, IfSome, length, map, option_map, unwrap_or, replicate, false};
ghost use Rattle.std.specs.List.{range_with_len};
ghost use Rattle.region_tree.specs.Nesting.{opening};
ghost use Rattle.region_tree.specs.RegionView.{regions_of};
ghost use Rattle.pemb_file.specs.Served.{contents_of_view};
ghost use Rattle.file_parts.specs.Opened.{opened_by};

use bit_words::Steps;
use pemb_file::Served;
use region_tree::RegionView;
use std::alloc::{AllocError, Global};
use std::sync::ledger::Ledger;
use topo_base::IdNumber;

/// Where a region opens, whose parent is this one, if any, from where those before it open.
fn opening_place(region: usize, parent: Option<usize>, openings: &[usize]) -> usize
    requires before { length openings.now ≡ region }
    requires lower { IfSome parent (λ p. p < region) }
    requires few { opened_by openings.now region parent ≤ 2147483647 }
    ensures { result ≡ opened_by openings.now region parent }
{
    match parent {
        Some(parent) => openings[parent] + 2 * (region - parent) - 1,
        None => 2 * region,
    }
}

/// Where each region opens.
fn openings<C: Ledger>(
    alloc: Global,
    regions: RegionView<'_>,
    steps: &mut Steps<C>,
) -> Result<Vec<usize>, AllocError>
    ensures openings { IfOk result (λ openings. openings.items ≡ map (opening (regions_of regions.entry).bits)
        (range_with_len 0 (length (regions_of regions.entry).ids))) }
    ensures grows { steps.old ≤ steps.new }
{
    let count = regions.count();
    let mut openings = Vec::with_capacity(alloc, count)?;
    for region in 0..count {
        let parent = regions.parent(region, steps);
        let place = opening_place(region, parent, &openings);
        openings.push(place)?;
    }
    Ok(openings)
}

/// So many bits, none of them set.
fn no_bits(alloc: Global, len: usize) -> Result<Vec<bool>, AllocError>
    ensures { IfOk result (λ bits. bits.items ≡ replicate len false) }
{
    vec![in alloc; false; len]
}

/// The parentheses of regions.
pub(crate) fn region_bits<C: Ledger>(
    alloc: Global,
    regions: RegionView<'_>,
    steps: &mut Steps<C>,
) -> Result<Vec<bool>, AllocError>
    ensures bits { IfOk result (λ bits. bits.items ≡ (regions_of regions.entry).bits) }
    ensures grows { steps.old ≤ steps.new }
{
    let openings = openings(alloc, regions, steps)?;
    let count = regions.count();
    let mut bits = no_bits(alloc, 2 * count)?;
    for place in &openings {
        bits[*place] = true;
    }
    Ok(bits)
}

/// The ids of regions by number.
pub(crate) fn region_ids<C: Ledger>(
    alloc: Global,
    regions: RegionView<'_>,
    steps: &mut Steps<C>,
) -> Result<Vec<IdNumber>, AllocError>
    ensures ids { IfOk result (λ ids. ids.items ≡ (regions_of regions.entry).ids) }
    ensures grows { steps.old ≤ steps.new }
{
    let count = regions.count();
    let mut ids = Vec::with_capacity(alloc, count)?;
    for region in 0..count {
        let id = regions.id_of(region, steps);
        ids.push(id)?;
    }
    Ok(ids)
}

/// A region as a member's number: 0 for none, and else one more than its own.
fn member_number(region: Option<usize>) -> u32
    requires { IfSome region (λ r. r < 4294967295) }
    ensures { result ≡ unwrap_or (option_map (λ r. r + 1) region) 0 }
{
    match region {
        Some(region) => region as u32 + 1,
        None => 0,
    }
}

/// For face 0 and each face by number, the number of its region.
pub(crate) fn members<C: Ledger>(
    alloc: Global,
    served: Served<'_>,
    steps: &mut Steps<C>,
) -> Result<Vec<u32>, AllocError>
    ensures members { IfOk result (λ members. members.items ≡ (contents_of_view served.entry).members) }
    ensures grows { steps.old ≤ steps.new }
{
    let regions = served.regions();
    let faces = served.counts().faces as usize;
    let mut members = Vec::with_capacity(alloc, faces + 1)?;
    for place in 0..faces + 1 {
        let region = regions.of_face(place, steps);
        let number = member_number(region);
        members.push(number)?;
    }
    Ok(members)
}
