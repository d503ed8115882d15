//! The regions of tables by number.

ghost use Rattle.std.specs.Prelude.{IfErr, IfOk, IsTrue, OnOk};
ghost use Rattle.plane_model.specs.InRange.{is_in_range};
ghost use Rattle.plane_model.specs.Rows.{rows_of};
ghost use Rattle.plane_model.specs.Consistent.{is_consistent};
ghost use Rattle.plane_model.specs.Faults.{first_fault};
ghost use Rattle.map_build.specs.BuildFaults.{Names};
ghost use Rattle.map_build.specs.Placed.{AreRegionsOf};
ghost use Rattle.map_build.specs.Starts.{without_regions};

use crate::fault::BuildFault;
use plane_model::Tables;
use region_tree::{RegionParts, build};
use std::alloc::Global;

/// The regions of tables that are consistent but for these, or what is first wrong with regions and members.
pub(crate) fn number_regions(alloc: Global, tables: &Tables) -> Result<RegionParts, BuildFault>
    requires in_range { IsTrue (is_in_range (rows_of tables.now)) }
    requires consistent { IsTrue (is_consistent (without_regions (rows_of tables.now))) }
    ensures consistent { OnOk result (IsTrue (is_consistent (rows_of tables.now))) }
    ensures regions { IfOk result (AreRegionsOf (rows_of tables.now)) }
    ensures refused { IfErr result (λ e. Names e (first_fault (rows_of tables.now))) }
{
    let parts = build(alloc, &tables.regions, &tables.members, &tables.faces)?;
    Ok(parts)
}
