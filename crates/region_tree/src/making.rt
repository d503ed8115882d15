//! From rows to the parts of a hierarchy.

ghost use Rattle.std.specs.Prelude.{◌≡◌, IfErr, IfOk, IsTrue, None, OnOk, is_none};
ghost use Rattle.plane_model.specs.InRange.{is_in_range};
ghost use Rattle.plane_model.specs.Regions.{is_region_forest};
ghost use Rattle.plane_model.specs.Faults.{region_fault};
ghost use Rattle.rotation_check.specs.Checked.{Names};
ghost use Rattle.region_tree.specs.Numbering.{AreMembers, RegionsAreNumbered};
ghost use Rattle.region_tree.specs.Parts.{member_places, region_bits, region_ids};
ghost use Rattle.region_tree.specs.Tables.{region_map, region_tables};

use crate::checking::check_regions;
use crate::members::check_members;
use crate::numbering::number;
use crate::parts::RegionParts;
use plane_model::{FaceRow, MemberRow, RegionRow};
use rotation_check::CheckFault;
use std::alloc::Global;

/// The regions of rows, numbered in preorder, with the faces that are in them; or what is first wrong: a region's id
/// that stands twice (F7), a parent that is not there (F20), a region that its own parents lead back to (F21), a
/// member's region (F20) or face (F10) that is not there, or a face that is a member twice (F22). The order of the
/// rows makes no difference.
pub fn build(
    alloc: Global,
    regions: &[RegionRow],
    members: &[MemberRow],
    faces: &[FaceRow],
) -> Result<RegionParts, CheckFault>
    requires { IsTrue (is_in_range (region_tables regions.now members.now faces.now)) }
    ensures forest { OnOk result (IsTrue (is_region_forest (region_tables regions.now members.now faces.now))) }
    ensures fine { OnOk result (region_fault (region_tables regions.now members.now faces.now) ≡ None) }
    ensures bits { IfOk result (λ p. p.bits.items ≡ region_bits (region_map regions.now members.now faces.now)) }
    ensures ids { IfOk result (λ p. p.ids.items ≡ region_ids (region_map regions.now members.now faces.now)) }
    ensures members { IfOk result (λ p. p.members.items ≡ member_places
        (region_map regions.now members.now faces.now)) }
    ensures numbered { IfOk result (λ p. RegionsAreNumbered (region_map regions.now members.now faces.now) p.bits.items
        p.ids.items) }
    ensures faces { IfOk result (λ p. AreMembers (region_map regions.now members.now faces.now) p.ids.items
        p.members.items) }
    ensures refused { IfErr result (λ e. Names e (region_fault (region_tables regions.now members.now faces.now))) }
    ensures exactly { is_none (region_fault (region_tables regions.now members.now faces.now))
        ≡ is_region_forest (region_tables regions.now members.now faces.now) }
{
    let hierarchy = check_regions(alloc, regions)?;
    check_members(alloc, &hierarchy.ids, members, faces)?;
    Ok(number(alloc, &hierarchy, members)?)
}
