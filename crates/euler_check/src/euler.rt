//! The rings and components of a rotation whose rings have one face each, and whose components are plane.

ghost use Rattle.std.specs.Prelude.{◌≡◌, ◌&&◌, IfErr, IfOk, None, OnOk, is_none};
ghost use Rattle.plane_model.specs.Component.{component, is_plane};
ghost use Rattle.plane_model.specs.Faces.{is_labelled};
ghost use Rattle.plane_model.specs.Faults.{not_plane};
ghost use Rattle.plane_model.specs.PlaneMap.{ring};
ghost use Rattle.rotation_check.specs.Checked.{Names};
ghost use Rattle.rotation_check.specs.Darts.{map_of_rotation};
ghost use Rattle.euler_check.specs.Numbers.{ArePartNumbers};
ghost use Rattle.euler_check.specs.Parts.{AreParts, parts_fault};

use crate::components::number_components;
use crate::euler_counts::EulerCounts;
use crate::labels::mixed_ring_of;
use crate::numbering::PartNumbering;
use crate::part_numbers::Parts;
use crate::rings::number_rings;
use rotation_check::{CheckFault, Rotation};
use std::alloc::{AllocError, Global};
use topo_base::Refusal;

/// The component that isn't plane and has the least edge id of such components.
fn first_not_plane(
    alloc: Global,
    rotation: &Rotation,
    rings: &PartNumbering,
    components: &PartNumbering,
) -> Result<Option<Refusal>, AllocError>
    requires rings { ArePartNumbers rotation.now.edges (ring (map_of_rotation rotation.now)) rings.now }
    requires components { ArePartNumbers rotation.now.edges (component (map_of_rotation rotation.now)) components.now }
    ensures { IfOk result (λ fault. fault ≡ not_plane (map_of_rotation rotation.now)) }
{
    let counts = EulerCounts::of_components(alloc, rotation, rings, components)?;
    Ok(counts.first_not_plane())
}

/// The rings and components of a rotation with one face on each ring and plane components, or what is first wrong.
pub fn parts(alloc: Global, rotation: &Rotation) -> Result<Parts, CheckFault>
    ensures parts { IfOk result (AreParts rotation.now) }
    ensures fine { OnOk result (parts_fault rotation.now ≡ None) }
    ensures refused { IfErr result (λ e. Names e (parts_fault rotation.now)) }
    ensures exactly { is_none (parts_fault rotation.now)
        ≡ (is_labelled (map_of_rotation rotation.now) && is_plane (map_of_rotation rotation.now)) }
{
    let rings = number_rings(alloc, rotation)?;
    if let Some(refusal) = mixed_ring_of(alloc, rotation, &rings)? {
        return Err(CheckFault::Refused(refusal));
    }
    let components = number_components(alloc, rotation, &rings)?;
    if let Some(refusal) = first_not_plane(alloc, rotation, &rings, &components)? {
        return Err(CheckFault::Refused(refusal));
    }
    Ok(Parts::new(rings, components))
}
