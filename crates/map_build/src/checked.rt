//! The walk round the components of tables that are consistent, whatever their regions are.

ghost use Rattle.std.specs.Prelude.{◌≡◌, IfErr, IfOk, IsTrue, OnOk, map};
ghost use Rattle.plane_model.specs.InRange.{is_in_range};
ghost use Rattle.plane_model.specs.Rows.{rows_of};
ghost use Rattle.plane_model.specs.PlaneMap.{map_of, side};
ghost use Rattle.plane_model.specs.Rotation.{is_rotation_system};
ghost use Rattle.plane_model.specs.Consistent.{is_consistent};
ghost use Rattle.plane_model.specs.Faces.{outer_rings};
ghost use Rattle.plane_model.specs.Faults.{first_fault};
ghost use Rattle.rotation_check.specs.Checked.{Names as CheckNames};
ghost use Rattle.map_build.specs.BuildFaults.{Names};
ghost use Rattle.map_build.specs.Starts.{AreOuterDarts, without_regions};
ghost use Rattle.map_build.specs.Tours.{IsWalkOf};

use crate::fault::BuildFault;
use euler_check::parts;
use islands::{Placement, place};
use plane_model::Tables;
use rotation_check::{CheckFault, Rotation, check};
use spanning_pair::{Tour, plane_tour};
use std::alloc::Global;

/// Where the components of tables are, and the walk round each from its start.
#[derive(Drop)]
pub(crate) struct Walked {
    pub(crate) placement: Placement,
    pub(crate) tour: Tour,
}

/// Where the components of tables are, by their rotation, or what is first wrong with its rings and faces.
fn place_components(
    alloc: Global,
    rotation: &Rotation,
    tables: &Tables,
) -> Result<Placement, CheckFault>
    requires in_range { IsTrue (is_in_range (rows_of tables.now)) }
    requires system { IsTrue (is_rotation_system (rows_of tables.now)) }
    requires nodes { rotation.now.nodes ≡ (rows_of tables.now).nodes }
    requires edges { rotation.now.edges ≡ (rows_of tables.now).edges }
    ensures consistent { OnOk result (IsTrue (is_consistent (without_regions (rows_of tables.now)))) }
    ensures starts { IfOk result (λ p. AreOuterDarts (rows_of tables.now) p.starts) }
    ensures faces { IfOk result (λ p. p.faces ≡ map (side (map_of (rows_of tables.now)))
        (outer_rings (map_of (rows_of tables.now)))) }
    ensures refused { IfErr result (λ e. CheckNames e (first_fault (rows_of tables.now))) }
{
    let parts = parts(alloc, rotation)?;
    let placement = place(alloc, rotation, &parts, &tables.faces)?;
    Ok(placement)
}

/// Where the components of tables are and the walk round them, or what is first wrong with nodes, edges and faces.
pub(crate) fn walk(alloc: Global, tables: &Tables) -> Result<Walked, BuildFault>
    requires in_range { IsTrue (is_in_range (rows_of tables.now)) }
    ensures consistent { OnOk result (IsTrue (is_consistent (without_regions (rows_of tables.now)))) }
    ensures walk { IfOk result (IsWalkOf (rows_of tables.now)) }
    ensures refused { IfErr result (λ e. Names e (first_fault (rows_of tables.now))) }
{
    let rotation = check(alloc, tables)?;
    let placement = place_components(alloc, &rotation, tables)?;
    let tour = plane_tour(alloc, &rotation, placement.starts())?;
    Ok(Walked { placement, tour })
}
