//! The component of each ring, and of each node.

ghost use Rattle.std.specs.Prelude.{◌*◌, ◌<◌, ◌^◌, ◌≡◌, IfOk, None, OnOk, length, replicate};
ghost use Rattle.plane_model.specs.PlaneMap.{ring};
ghost use Rattle.rotation_check.specs.Darts.{IsRotation, map_of_rotation};
ghost use Rattle.euler_check.specs.Counts.{AreLabelParts, HasNumber, LeavesRow};
ghost use Rattle.euler_check.specs.Numbers.{ArePartNumbers};

use crate::numbering::PartNumbering;
use rotation_check::Rotation;
use std::alloc::{AllocError, Global};

/// No component yet for each of so many rings or nodes.
fn no_components(alloc: Global, count: u32) -> Result<Vec<Option<u32>>, AllocError>
    ensures { IfOk result (λ numbers. numbers.items ≡ replicate count None) }
{
    vec![in alloc; None; count as usize]
}

/// The number of the component that each ring is in, by the ring's number.
pub fn components_of_rings(
    alloc: Global,
    rotation: &Rotation,
    rings: &PartNumbering,
    components: &PartNumbering,
) -> Result<Vec<Option<u32>>, AllocError>
    requires rings { ArePartNumbers rotation.now.edges (ring (map_of_rotation rotation.now)) rings.now }
    requires components { length components.now.of_darts ≡ 2 * length rotation.now.edges }
    ensures places { IfOk result (λ numbers. AreLabelParts components.now (HasNumber rings.now) rings.now.count
        (2 * length rotation.now.edges) numbers.items) }
    ensures few { IfOk result (λ numbers. length numbers.items < 2 ^ 32) }
    ensures rotation { OnOk result (IsRotation rotation.now) }
{
    let mut numbers = no_components(alloc, rings.count())?;
    for dart in 0..2 * rotation.edges() {
        numbers[rings.number(dart) as usize] = Some(components.number(dart));
    }
    Ok(numbers)
}

/// The number of the component that each node is in, by the node's row; an isolated node is in none.
pub fn components_of_nodes(
    alloc: Global,
    rotation: &Rotation,
    components: &PartNumbering,
) -> Result<Vec<Option<u32>>, AllocError>
    requires { length components.now.of_darts ≡ 2 * length rotation.now.edges }
    ensures places { IfOk result (λ numbers. AreLabelParts components.now (LeavesRow rotation.now)
        (length rotation.now.nodes) (2 * length rotation.now.edges) numbers.items) }
    ensures few { IfOk result (λ numbers. length numbers.items < 2 ^ 32) }
    ensures rotation { OnOk result (IsRotation rotation.now) }
{
    let mut numbers = no_components(alloc, rotation.nodes())?;
    for dart in 0..2 * rotation.edges() {
        numbers[rotation.node(dart) as usize] = Some(components.number(dart));
    }
    Ok(numbers)
}
