//! The components of a rotation.

ghost use Rattle.std.specs.Prelude.{◌≡◌, ℕ, ◌<◌, IfOk, OnOk, length, map, slice_index};
ghost use Rattle.plane_model.specs.Component.{component, components};
ghost use Rattle.plane_model.specs.PlaneMap.{ring};
ghost use Rattle.rotation_check.specs.Darts.{IsRotation, map_of_rotation};
ghost use Rattle.euler_check.specs.Joined.{AreJoined};
ghost use Rattle.euler_check.specs.Numbers.{ArePartNumbers};

use crate::numbering::PartNumbering;
use disjoint_sets::{DisjointSets, SetNumbers};
use rotation_check::Rotation;
use std::alloc::{AllocError, Global};

/// The rings joined by edges: the rings of an edge's two darts are in one set.
fn joined_rings(
    alloc: Global,
    rotation: &Rotation,
    rings: &PartNumbering,
) -> Result<DisjointSets, AllocError>
    requires { ArePartNumbers rotation.now.edges (ring (map_of_rotation rotation.now)) rings.now }
    ensures joined { IfOk result (AreJoined rotation.now rings.now) }
    ensures rotation { OnOk result (IsRotation rotation.now) }
{
    let mut sets = DisjointSets::new(alloc, rings.count())?;
    for row in 0..rotation.edges() {
        sets.join(rings.number(2 * row), rings.number(2 * row + 1));
    }
    Ok(sets)
}

/// The number of the set that has each dart's ring.
fn sets_of_darts(
    alloc: Global,
    rings: &PartNumbering,
    sets: &SetNumbers,
) -> Result<Vec<u32>, AllocError>
    requires { (d : ℕ) → d < length rings.now.of_darts
        → slice_index rings.now.of_darts d < length sets.now.of_members }
    ensures { IfOk result (λ numbers. numbers.items ≡ map (slice_index sets.now.of_members) rings.now.of_darts) }
{
    let rings = rings.of_darts();
    let mut numbers = Vec::with_capacity(alloc, rings.len())?;
    for ring in rings {
        numbers.push(sets.number(*ring))?;
    }
    Ok(numbers)
}

/// Numbers the components, from 0 by the first dart that belongs to each. These are the sets of rings that edges join.
pub fn number_components(
    alloc: Global,
    rotation: &Rotation,
    rings: &PartNumbering,
) -> Result<PartNumbering, AllocError>
    requires { ArePartNumbers rotation.now.edges (ring (map_of_rotation rotation.now)) rings.now }
    ensures numbers { IfOk result (λ numbering. ArePartNumbers rotation.now.edges
        (component (map_of_rotation rotation.now)) numbering) }
    ensures count { IfOk result (λ numbering. numbering.count ≡ length (components (map_of_rotation rotation.now))) }
{
    let sets = joined_rings(alloc, rotation, rings)?.into_numbers();
    let numbers = sets_of_darts(alloc, rings, &sets)?;
    Ok(PartNumbering::new(sets.count(), numbers))
}
