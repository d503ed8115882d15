//! Rings with more than one face on their left.

ghost use Rattle.std.specs.Prelude.{◌≡◌, ◌*◌, ◌<◌, IfOk, is_none, length};
ghost use Rattle.plane_model.specs.Faces.{is_labelled};
ghost use Rattle.plane_model.specs.Faults.{mixed_ring};
ghost use Rattle.plane_model.specs.PlaneMap.{ring};
ghost use Rattle.rotation_check.specs.Darts.{IsRotation, map_of_rotation, signed_edge};
ghost use Rattle.euler_check.specs.Labels.{label_fault};
ghost use Rattle.euler_check.specs.Numbers.{ArePartNumbers};

use crate::numbering::PartNumbering;
use rotation_check::Rotation;
use std::alloc::{AllocError, Global};
use topo_base::{IdNumber, Refusal};

/// What is wrong where the next of a dart has another face on its left.
fn mixed_ring(rotation: &Rotation, dart: u32) -> Option<Refusal>
    requires { dart < 2 * length rotation.now.edges }
    ensures { result ≡ mixed_ring (map_of_rotation rotation.now) (signed_edge rotation.now.edges dart) }
{
    let next = rotation.next(dart);
    if rotation.side(next) == rotation.side(dart) {
        return None;
    }
    Some(Refusal::MixedRing {
        edge: rotation.id(dart).value(),
        next: rotation.id(next).value(),
    })
}

/// The first dart, in the order of the rows of edges, whose next has another face on its left.
pub fn first_mixed_ring(rotation: &Rotation) -> Option<Refusal>
    ensures fault { result ≡ label_fault rotation.now }
    ensures labelled { is_none result ≡ is_labelled (map_of_rotation rotation.now) }
{
    for dart in 0..2 * rotation.edges() {
        let fault = mixed_ring(rotation, dart);
        if fault.is_some() {
            return fault;
        }
    }
    None
}

/// Whether each ring has one face on its left.
fn have_one_face(
    alloc: Global,
    rotation: &Rotation,
    rings: &PartNumbering,
) -> Result<bool, AllocError>
    requires { ArePartNumbers rotation.now.edges (ring (map_of_rotation rotation.now)) rings.now }
    ensures { IfOk result (λ one. one ≡ is_labelled (map_of_rotation rotation.now)) }
{
    // the faces of the rings so far; a ring that isn't among these is the next by its number
    let mut faces: Vec<IdNumber> = Vec::with_capacity(alloc, rings.count() as usize)?;
    for dart in 0..2 * rotation.edges() {
        let face = rotation.side(dart);
        if let Some(known) = faces.get(rings.number(dart) as usize) {
            if *known != face {
                return Ok(false);
            }
        } else {
            faces.push(face)?;
        }
    }
    Ok(true)
}

/// The first dart, in the order of the rows of edges, whose next has another face on its left. It is looked for only
/// where a ring has more than one face.
pub fn mixed_ring_of(
    alloc: Global,
    rotation: &Rotation,
    rings: &PartNumbering,
) -> Result<Option<Refusal>, AllocError>
    requires { ArePartNumbers rotation.now.edges (ring (map_of_rotation rotation.now)) rings.now }
    ensures fault { IfOk result (λ fault. fault ≡ label_fault rotation.now) }
    ensures labelled { IfOk result (λ fault. is_none fault ≡ is_labelled (map_of_rotation rotation.now)) }
{
    if have_one_face(alloc, rotation, rings)? {
        return Ok(None);
    }
    Ok(first_mixed_ring(rotation))
}
