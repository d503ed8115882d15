//! What is wrong with the places of components.

ghost use Rattle.std.specs.Prelude.{◌≡◌, ℕ, ◌+◌, ◌-◌, ◌*◌, ◌<◌, ◌==◌, IfOk, IsTrue, List, [], ◌∷◌, length, map, slice_index};
ghost use Rattle.topo_base.specs.declared.refusal.Refusal.TheVariants.{FaceCycle};
ghost use Rattle.plane_model.specs.Sets.{has};
ghost use Rattle.plane_model.specs.PlaneMap.{PlaneMap};
ghost use Rattle.plane_model.specs.Component.{components};
ghost use Rattle.plane_model.specs.Faces.{outer_rings};
ghost use Rattle.plane_model.specs.Faults.{bare_face, placement_fault, unless, unplaced};
ghost use Rattle.rotation_check.specs.Darts.{signed_edge};
ghost use Rattle.islands.specs.Numbered.{ring_at};
ghost use Rattle.islands.specs.MapNumbers.{AreOnRingMarked, AreReachedMarked, IsNumberedMap};
ghost use Rattle.islands.specs.Placed.{map_with_faces};
ghost use Rattle.islands.specs.Rounds.{is_marked};
ghost use Rattle.plane_model.specs.declared.rows.FaceRow.{FaceRow};

use crate::numbers::NumberedMap;
use euler_check::Parts;
use rotation_check::Rotation;
use std::alloc::{AllocError, Global};
use topo_base::{IdNumber, Refusal};

/// Marks of so many numbers: those that are among these.
fn marks(alloc: Global, numbers: &[u32], count: usize) -> Result<Vec<bool>, AllocError>
    requires { (k : ℕ) → k < length numbers.now → slice_index numbers.now k < count }
    ensures size { IfOk result (λ marks. length marks.items ≡ count) }
    ensures marked { IfOk result (λ marks. (x : ℕ) → is_marked marks.items x ≡ has numbers.now x) }
{
    let mut marks = vec![in alloc; false; count]?;
    for number in numbers {
        marks[*number as usize] = true;
    }
    Ok(marks)
}

/// The numbers at these places.
fn at_places(alloc: Global, numbers: &[u32], places: &[u32]) -> Result<Vec<u32>, AllocError>
    requires { (k : ℕ) → k < length places.now → slice_index places.now k < length numbers.now }
    ensures { IfOk result (λ found. found.items ≡ map (slice_index numbers.now) places.now) }
{
    let mut found = Vec::new(alloc);
    for place in places {
        found.push(numbers[*place as usize])?;
    }
    Ok(found)
}

/// The first component, each given by its smallest dart, that is not reached.
fn first_unreached(
    rotation: &Rotation,
    parts: &Parts,
    darts: &[u32],
    reached: &[bool],
) -> Option<Refusal>
    requires within { (k : ℕ) → k < length darts.now → slice_index darts.now k < 2 * length rotation.now.edges }
    requires numbers { (k : ℕ) → k < length darts.now → slice_index darts.now k < length parts.now.components.of_darts }
    requires below { (k : ℕ) → k < length darts.now
        → slice_index parts.now.components.of_darts (slice_index darts.now k) < length reached.now }
    ensures { (m : PlaneMap) → map (signed_edge rotation.now.edges) darts.now ≡ components m
        → AreReachedMarked m rotation.now.edges (slice_index parts.now.components.of_darts) darts.now reached.now
        → result ≡ unplaced m }
{
    for dart in darts {
        if !reached[parts.component_of(*dart) as usize] {
            return Some(Refusal::Unplaced {
                edge: rotation.id(*dart).edge().0,
            });
        }
    }
    None
}

/// The least face other than 0 that is on no ring.
fn first_bare_face(ids: &[IdNumber], on_ring: &[bool]) -> Option<Refusal>
    requires { length on_ring.now ≡ length ids.now }
    ensures { (m : PlaneMap) → ids.now ≡ (0 ∷ m.faces) → AreOnRingMarked m ids.now on_ring.now → result ≡ bare_face m }
{
    for number in 1..ids.len() {
        if !on_ring[number] {
            return Some(Refusal::BareFace { face: ids[number] });
        }
    }
    None
}

/// What is wrong where there are not as many rings as faces other than 0 and components; `faces` counts face 0.
fn wrong_count(rings: usize, faces: usize, components: usize) -> Option<Refusal>
    requires { 0 < faces }
    ensures { result ≡ unless (rings == faces - 1 + components) (FaceCycle rings faces components) }
{
    if rings.checked_sub(components) == Some(faces - 1) {
        return None;
    }
    Some(Refusal::FaceCycle {
        rings: rings as u64,
        faces: faces as u64,
        components: components as u64,
    })
}

/// What is first wrong with the places of a map's components, where its outer rings are those of these numbers.
pub fn first_fault(
    alloc: Global,
    rotation: &Rotation,
    parts: &Parts,
    numbered: &NumberedMap,
    starts: &[u32],
) -> Result<Option<Refusal>, AllocError>
    requires numbered { (faces : List FaceRow) × IsNumberedMap rotation.now faces parts.now.components numbered.now }
    requires starts { (s : ℕ) → IsTrue (has starts.now s) → s < length numbered.now.face_of.items }
    ensures { IfOk result (λ fault. (faces : List FaceRow) → IsNumberedMap rotation.now faces parts.now.components
        numbered.now → map (ring_at (map_with_faces rotation.now faces)) starts.now
        ≡ outer_rings (map_with_faces rotation.now faces)
        → fault ≡ placement_fault (map_with_faces rotation.now faces)) }
{
    let count = parts.components() as usize;
    let reached = marks(
        alloc,
        &at_places(alloc, &numbered.component_of, starts)?,
        count,
    )?;
    let unreached = first_unreached(rotation, parts, &numbered.components, &reached);
    if unreached.is_some() {
        return Ok(unreached);
    }
    let on_ring = marks(alloc, &numbered.face_of, numbered.face_ids.len())?;
    let bare = first_bare_face(&numbered.face_ids, &on_ring);
    if bare.is_some() {
        return Ok(bare);
    }
    Ok(wrong_count(
        numbered.rings.len(),
        numbered.face_ids.len(),
        numbered.components.len(),
    ))
}
