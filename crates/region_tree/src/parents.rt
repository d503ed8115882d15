//! The places of parents.

ghost use Rattle.std.specs.Prelude.{◌≡◌, ◌≤◌, length, IfOk};
ghost use Rattle.std.specs.List.Sorted.{IsNonDecreasing};
ghost use Rattle.region_tree.specs.Places.{AreParentPlaces, IsParentPlace};

use crate::rows::place_of;
use plane_model::RegionRow;
use std::alloc::{AllocError, Global};
use topo_base::IdNumber;

/// The place of a row's parent.
fn parent_place(ids: &[IdNumber], row: &RegionRow) -> Option<u32>
    requires few { length ids.now ≤ 16777216 }
    requires rising { IsNonDecreasing ids.now }
    ensures { IsParentPlace ids.now row.now.parent result }
{
    place_of(ids, row.parent?)
}

/// The places of the parents of rows.
pub fn parent_places(
    alloc: Global,
    ids: &[IdNumber],
    rows: &[RegionRow],
) -> Result<Vec<Option<u32>>, AllocError>
    requires few { length ids.now ≤ 16777216 }
    requires rising { IsNonDecreasing ids.now }
    ensures { IfOk result (λ parents. AreParentPlaces ids.now rows.now parents.items) }
{
    let mut parents = Vec::new(alloc);
    for row in rows {
        parents.push(parent_place(ids, row))?;
    }
    Ok(parents)
}
