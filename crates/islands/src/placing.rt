//! Placing the components of a rotation in its faces.

ghost use Rattle.std.specs.Prelude.{◌≡◌, ℕ, ◌*◌, ◌<◌, IfErr, IfOk, IsTrue, List, None, OnOk, is_none, length, map, slice_index};
ghost use Rattle.plane_model.specs.declared.rows.FaceRow.{FaceRow};
ghost use Rattle.plane_model.specs.Sets.{has};
ghost use Rattle.plane_model.specs.PlaneMap.{ring, side};
ghost use Rattle.plane_model.specs.Component.{component};
ghost use Rattle.plane_model.specs.Faces.{is_labelled, is_placed, outer_rings};
ghost use Rattle.plane_model.specs.Faults.{placement_fault};
ghost use Rattle.rotation_check.specs.Checked.{Names};
ghost use Rattle.rotation_check.specs.Darts.{map_of_rotation, signed_edge};
ghost use Rattle.euler_check.specs.Numbers.{ArePartNumbers};
ghost use Rattle.islands.specs.Darts.{AreDartsOf};
ghost use Rattle.islands.specs.Numbered.{ring_at};
ghost use Rattle.islands.specs.MapNumbers.{IsNumberedMap};
ghost use Rattle.islands.specs.Placed.{AreFacesOf, map_with_faces};

use crate::faults::first_fault;
use crate::numbers::{NumberedMap, number_map};
use crate::placement::Placement;
use crate::rounds::outer_rings;
use euler_check::Parts;
use plane_model::FaceRow;
use rotation_check::{CheckFault, Rotation};
use std::alloc::{AllocError, Global};

/// The outer rings of these numbers, and the faces on their left.
fn places(
    alloc: Global,
    rotation: &Rotation,
    rings: &[u32],
    starts: &[u32],
) -> Result<Placement, AllocError>
    requires rings { (k : ℕ) → k < length rings.now → slice_index rings.now k < 2 * length rotation.now.edges }
    requires starts { (k : ℕ) → k < length starts.now → slice_index starts.now k < length rings.now }
    ensures starts { IfOk result (λ p. p.starts ≡ map (slice_index rings.now) starts.now) }
    ensures faces { IfOk result (λ p. p.faces ≡ map (λ dart. side (map_of_rotation rotation.now)
        (signed_edge rotation.now.edges dart)) p.starts) }
{
    let mut darts = Vec::new(alloc);
    let mut faces = Vec::new(alloc);
    for start in starts {
        let dart = rings[*start as usize];
        darts.push(dart)?;
        faces.push(rotation.side(dart))?;
    }
    Ok(Placement::new(darts, faces))
}

/// For each component the smallest dart of its outer ring, and the face that contains it; or what is first wrong,
/// F18, F19 and F17 in this order. `parts` are the rings and components of the rotation.
pub fn place(
    alloc: Global,
    rotation: &Rotation,
    parts: &Parts,
    faces: &[FaceRow],
) -> Result<Placement, CheckFault>
    requires rings { ArePartNumbers rotation.now.edges (ring (map_of_rotation rotation.now)) parts.now.rings }
    requires components { ArePartNumbers rotation.now.edges (component (map_of_rotation rotation.now))
        parts.now.components }
    requires labelled { IsTrue (is_labelled (map_of_rotation rotation.now)) }
    requires faces { AreFacesOf rotation.now faces.now }
    ensures placed { OnOk result (IsTrue (is_placed (map_with_faces rotation.now faces.now))) }
    ensures fine { OnOk result (placement_fault (map_with_faces rotation.now faces.now) ≡ None) }
    ensures starts { IfOk result (λ p. AreDartsOf rotation.now.edges
        (outer_rings (map_with_faces rotation.now faces.now)) p.starts) }
    ensures containing { IfOk result (λ p. p.faces ≡ map (side (map_with_faces rotation.now faces.now))
        (outer_rings (map_with_faces rotation.now faces.now))) }
    ensures refused { IfErr result (λ e. Names e (placement_fault (map_with_faces rotation.now faces.now))) }
    ensures exactly { is_none (placement_fault (map_with_faces rotation.now faces.now))
        ≡ is_placed (map_with_faces rotation.now faces.now) }
{
    let map = number_map(alloc, rotation, parts, faces)?;
    let starts = outer_rings(
        alloc,
        &map.face_of,
        &map.component_of,
        map.face_ids.len(),
        parts.components() as usize,
    )?;
    if let Some(refusal) = first_fault(alloc, rotation, parts, &map, &starts)? {
        return Err(CheckFault::Refused(refusal));
    }
    Ok(places(alloc, rotation, &map.rings, &starts)?)
}
