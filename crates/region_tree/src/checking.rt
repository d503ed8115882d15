//! What is wrong with rows of regions.

ghost use Rattle.std.specs.Prelude.{◌≡◌, ◌≤◌, IfErr, IfOk, IsTrue, List, [], None, OnOk, length, option_map};
ghost use Rattle.std.specs.List.Sorted.{IsNonDecreasing};
ghost use Rattle.topo_base.specs.declared.refusal.Table.TheVariants as table;
ghost use Rattle.plane_model.specs.InRange.{is_in_range};
ghost use Rattle.plane_model.specs.Orders.{first_pair};
ghost use Rattle.plane_model.specs.Faults.{first_in};
ghost use Rattle.rotation_check.specs.Checked.{Names};
ghost use Rattle.topo_base.specs.declared.refusal.Refusal.TheVariants.{IdTwice, RegionCycle};
ghost use Rattle.region_tree.specs.ByPlace.{AreByPlace};
ghost use Rattle.region_tree.specs.Checked.{missing_parent, nesting_fault};
ghost use Rattle.region_tree.specs.Tables.{region_map, region_tables};

use crate::cycles::least_on_cycle;
use crate::parents::parent_places;
use crate::rows::{has_id, region_ids, rows_by_id};
use plane_model::RegionRow;
use plane_model::ids::first_twice;
use rotation_check::CheckFault;
use std::alloc::Global;
use topo_base::{IdNumber, Refusal, Table};

/// Regions by their places among the rising ids.
#[derive(Drop)]
pub struct Hierarchy {
    pub ids: Vec<IdNumber>,
    /// The places of the parents.
    pub parents: Vec<Option<u32>>,
}

/// Nothing, or the refusal of a fault.
pub fn refuse(fault: Option<Refusal>) -> Result<(), CheckFault>
    ensures fine { OnOk result (fault ≡ None) }
    ensures refused { IfErr result (λ e. Names e fault) }
{
    match fault {
        Some(refusal) => Err(CheckFault::Refused(refusal)),
        None => Ok(()),
    }
}

/// The first of rising ids that stands twice.
fn repeated_id(ids: &[IdNumber]) -> Option<Refusal>
    ensures { result ≡ option_map (IdTwice table.Region) (first_pair ids.now) }
{
    first_twice(ids).map(|id| Refusal::IdTwice {
        table: Table::Region,
        id,
    })
}

/// What is wrong where a row's parent is not there.
fn missing_parent(ids: &[IdNumber], row: &RegionRow) -> Option<Refusal>
    requires few { length ids.now ≤ 16777216 }
    requires rising { IsNonDecreasing ids.now }
    ensures { result ≡ missing_parent ids.now row.now }
{
    let parent = row.parent?;
    if has_id(ids, parent) {
        return None;
    }
    Some(Refusal::NoRegion {
        table: Table::Region,
        id: row.id,
        region: parent,
    })
}

/// The first row whose parent is not there.
fn first_missing_parent(ids: &[IdNumber], rows: &[RegionRow]) -> Option<Refusal>
    requires few { length ids.now ≤ 16777216 }
    requires rising { IsNonDecreasing ids.now }
    ensures { result ≡ first_in (missing_parent ids.now) rows.now }
{
    for row in rows {
        let fault = missing_parent(ids, row);
        if fault.is_some() {
            return fault;
        }
    }
    None
}

/// The regions of rows by place, or what is first wrong with the rows: an id that stands twice, a parent that is not
/// there, or a region that its own parents lead back to.
pub fn check_regions(alloc: Global, regions: &[RegionRow]) -> Result<Hierarchy, CheckFault>
    requires { IsTrue (is_in_range (region_tables regions.now [] [])) }
    ensures regions { IfOk result (λ h. AreByPlace (region_map regions.now [] []) h.ids.items h.parents.items) }
    ensures fine { OnOk result (nesting_fault (region_tables regions.now [] []) ≡ None) }
    ensures refused { IfErr result (λ e. Names e (nesting_fault (region_tables regions.now [] []))) }
{
    let rows = rows_by_id(alloc, regions)?;
    let ids = region_ids(alloc, &rows)?;
    refuse(repeated_id(&ids))?;
    refuse(first_missing_parent(&ids, regions))?;
    let parents = parent_places(alloc, &ids, &rows)?;
    if let Some(place) = least_on_cycle(alloc, &parents)? {
        return Err(CheckFault::Refused(Refusal::RegionCycle {
            region: ids[place as usize],
        }));
    }
    Ok(Hierarchy { ids, parents })
}
