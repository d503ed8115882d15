//! Rows of regions by their ids, and the places of ids in rising order.

ghost use Rattle.std.specs.Prelude.{◌≡◌, ◌<◌, ◌≤◌, false, length, map, slice_index, IfOk, IsPermutation, MatchOption};
ghost use Rattle.std.specs.List.Sorted.{IsNonDecreasing, IsNonDecreasingBy};
ghost use Rattle.plane_model.specs.Sets.{has};

use plane_model::RegionRow;
use std::alloc::{AllocError, Global};
use topo_base::IdNumber;

/// The rows rising by id.
pub fn rows_by_id(alloc: Global, regions: &[RegionRow]) -> Result<Vec<RegionRow>, AllocError>
    ensures same { IfOk result (λ rows. IsPermutation regions.now rows.items) }
    ensures rising { IfOk result (λ rows. IsNonDecreasingBy (λ r. r.id) rows.items) }
{
    let mut rows = Vec::from_slice(alloc, regions)?;
    rows.sort_unstable_by_key(|row| row.id);
    Ok(rows)
}

/// The ids of rows.
pub fn region_ids(alloc: Global, rows: &[RegionRow]) -> Result<Vec<IdNumber>, AllocError>
    ensures { IfOk result (λ ids. ids.items ≡ map (λ r. r.id) rows.now) }
{
    rows.iter().map(|row| row.id).collect(alloc)
}

/// A place where an id stands among rising ids, or None where it isn't there.
pub fn place_of(ids: &[IdNumber], id: IdNumber) -> Option<u32>
    requires few { length ids.now ≤ 16777216 }
    requires rising { IsNonDecreasing ids.now }
    ensures { MatchOption result (has ids.now id ≡ false) (λ place. (place < length ids.now)
        × (slice_index ids.now place ≡ id)) }
{
    match ids.binary_search(&id) {
        Ok(place) => Some(place as u32),
        Err(_) => None,
    }
}

/// Whether an id stands among rising ids.
pub fn has_id(ids: &[IdNumber], id: IdNumber) -> bool
    requires few { length ids.now ≤ 16777216 }
    requires rising { IsNonDecreasing ids.now }
    ensures { result ≡ has ids.now id }
{
    place_of(ids, id).is_some()
}
