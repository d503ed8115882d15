//! The numbers of a map's rings, faces and components.

ghost use Rattle.std.specs.Prelude.{◌≡◌, ◌≤◌, ℕ, ◌*◌, ◌<◌, ◌^◌, not, ◌==◌, IfOk, IsTrue, [], ◌∷◌, length, filter, is_some, map, slice_index, Some};
ghost use Rattle.id_index.specs.Index.{IsIndex, row_in};
ghost use Rattle.plane_model.specs.Sets.{has, rising};
ghost use Rattle.plane_model.specs.Orders.{is_strictly_rising};
ghost use Rattle.plane_model.specs.PlaneMap.{ring, side};
ghost use Rattle.plane_model.specs.Component.{component};
ghost use Rattle.plane_model.specs.Faces.{is_labelled};
ghost use Rattle.rotation_check.specs.Darts.{map_of_rotation, signed_edge};
ghost use Rattle.euler_check.specs.Numbers.{ArePartNumbers};
ghost use Rattle.islands.specs.MapNumbers.{IsNumberedMap};
ghost use Rattle.islands.specs.Placed.{AreFacesOf};

use crate::least::{LeastDarts, least_darts};
use euler_check::Parts;
use id_index::IdIndex;
use plane_model::FaceRow;
use plane_model::ids::rising_ids;
use rotation_check::Rotation;
use std::alloc::{AllocError, Global};
use topo_base::IdNumber;

/// A map's rings and components by number, each by its smallest dart, in the order of signed edges; the faces
/// by number, rising, face 0 first; and of each ring the numbers of its face and its component.
#[derive(Drop)]
pub struct NumberedMap {
    pub rings: Vec<u32>,
    pub components: Vec<u32>,
    pub face_ids: Vec<IdNumber>,
    pub face_of: Vec<u32>,
    /// By the numbers that the components have as parts, not by their places in `components`.
    pub component_of: Vec<u32>,
}

/// The ids of face 0 and the other faces, rising.
fn face_ids(alloc: Global, faces: &[FaceRow]) -> Result<Vec<IdNumber>, AllocError>
    ensures { IfOk result (λ ids. ids.items ≡ 0 ∷ rising (filter (λ f. not (f == 0)) (map (λ r. r.id) faces.now))) }
{
    let mut ids = vec![in alloc; 0; 1]?;
    for face in faces {
        if face.id != 0 {
            ids.push(face.id)?;
        }
    }
    Ok(rising_ids(ids))
}

/// How many numbers there are for faces.
const FACE_NUMBERS: usize = 4_294_967_296;

/// The index of the ids of faces. As many as there are numbers are one more than it takes, and want of memory.
fn face_index(alloc: Global, ids: &[IdNumber]) -> Result<IdIndex, AllocError>
    requires { length ids.now ≤ 2 ^ 32 }
    ensures { IfOk result (IsIndex ids.now) }
{
    if ids.len() == FACE_NUMBERS {
        return Err(AllocError);
    }
    IdIndex::new(alloc, ids)
}

/// The number of a face: its row among the ids.
fn face_number(ids: &IdIndex, face: IdNumber) -> u32
    requires { IsTrue (is_some (row_in ids.now face)) }
    ensures { row_in ids.now face ≡ Some result }
{
    match ids.row_of(face) {
        Some(row) => row,
        None => unreachable!(),
    }
}

/// The numbers of the faces on the left of darts.
fn face_numbers(
    alloc: Global,
    rotation: &Rotation,
    ids: &[IdNumber],
    darts: &[u32],
) -> Result<Vec<u32>, AllocError>
    requires few { length ids.now ≤ 2 ^ 32 }
    requires rising { IsTrue (is_strictly_rising ids.now) }
    requires within { (k : ℕ) → k < length darts.now → slice_index darts.now k < 2 * length rotation.now.edges }
    requires there { (k : ℕ) → k < length darts.now
        → IsTrue (has ids.now (side (map_of_rotation rotation.now)
        (signed_edge rotation.now.edges (slice_index darts.now k)))) }
    ensures many { IfOk result (λ numbers. length numbers.items ≡ length darts.now) }
    ensures below { IfOk result (λ numbers. (k : ℕ) → k < length numbers.items
        → slice_index numbers.items k < length ids.now) }
    ensures sides { IfOk result (λ numbers. (k : ℕ) → k < length numbers.items
        → slice_index ids.now (slice_index numbers.items k)
        ≡ side (map_of_rotation rotation.now) (signed_edge rotation.now.edges (slice_index darts.now k))) }
{
    let index = face_index(alloc, ids)?;
    let mut numbers = Vec::new(alloc);
    for dart in darts {
        numbers.push(face_number(&index, rotation.side(*dart)))?;
    }
    Ok(numbers)
}

/// The numbers of the components that darts belong to.
fn component_numbers(alloc: Global, parts: &Parts, darts: &[u32]) -> Result<Vec<u32>, AllocError>
    requires { (k : ℕ) → k < length darts.now → slice_index darts.now k < length parts.now.components.of_darts }
    ensures { IfOk result (λ numbers. numbers.items ≡ map (slice_index parts.now.components.of_darts) darts.now) }
{
    let mut numbers = Vec::new(alloc);
    for dart in darts {
        numbers.push(parts.component_of(*dart))?;
    }
    Ok(numbers)
}

/// Numbers the rings, faces and components of a rotation with faces. As many faces as there are numbers, or more, are
/// want of memory.
pub fn number_map(
    alloc: Global,
    rotation: &Rotation,
    parts: &Parts,
    faces: &[FaceRow],
) -> Result<NumberedMap, AllocError>
    requires rings { ArePartNumbers rotation.now.edges (ring (map_of_rotation rotation.now)) parts.now.rings }
    requires components { ArePartNumbers rotation.now.edges (component (map_of_rotation rotation.now))
        parts.now.components }
    requires labelled { IsTrue (is_labelled (map_of_rotation rotation.now)) }
    requires faces { AreFacesOf rotation.now faces.now }
    ensures { IfOk result (IsNumberedMap rotation.now faces.now parts.now.components) }
{
    let LeastDarts { rings, components } = least_darts(alloc, rotation, parts)?;
    let face_ids = face_ids(alloc, faces)?;
    if face_ids.len() > FACE_NUMBERS {
        return Err(AllocError);
    }
    let face_of = face_numbers(alloc, rotation, &face_ids, &rings)?;
    let component_of = component_numbers(alloc, parts, &rings)?;
    Ok(NumberedMap {
        rings,
        components,
        face_ids,
        face_of,
        component_of,
    })
}
