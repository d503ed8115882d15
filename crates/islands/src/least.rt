//! The smallest dart of each ring and of each component.

ghost use Rattle.std.specs.Prelude.{◌≡◌, ◌<◌, IfOk, OnOk, length};
ghost use Rattle.plane_model.specs.PlaneMap.{ring, rings};
ghost use Rattle.plane_model.specs.Component.{component, components};
ghost use Rattle.rotation_check.specs.Darts.{IsRotation, map_of_rotation};
ghost use Rattle.euler_check.specs.Numbers.{ArePartNumbers};
ghost use Rattle.islands.specs.Darts.{AreDartsOf};
ghost use Rattle.islands.specs.Rising.{IsFirstAdded};

use crate::rising::rising_rings;
use euler_check::Parts;
use rotation_check::Rotation;
use std::alloc::{AllocError, Global};

/// The smallest dart of each ring and of each component, in the order of their signed edges.
#[derive(Drop)]
pub struct LeastDarts {
    pub rings: Vec<u32>,
    pub components: Vec<u32>,
}

/// Appends a dart where nothing with its number was seen.
fn add_first(
    dart: u32,
    number: u32,
    seen: &mut Vec<bool>,
    firsts: &mut Vec<u32>,
) -> Result<(), AllocError>
    requires { number < length seen.old.items }
    ensures { OnOk result (IsFirstAdded dart number seen.old.items seen.new.items firsts.old.items firsts.new.items) }
{
    if !seen[number as usize] {
        firsts.push(dart)?;
        seen[number as usize] = true;
    }
    Ok(())
}

/// The smallest darts of rings and of components: a component's is the first among those of its rings.
pub fn least_darts(
    alloc: Global,
    rotation: &Rotation,
    parts: &Parts,
) -> Result<LeastDarts, AllocError>
    requires rings { ArePartNumbers rotation.now.edges (ring (map_of_rotation rotation.now)) parts.now.rings }
    requires components { ArePartNumbers rotation.now.edges (component (map_of_rotation rotation.now))
        parts.now.components }
    ensures rotation { OnOk result (IsRotation rotation.now) }
    ensures rings { IfOk result (λ least. AreDartsOf rotation.now.edges
        (rings (map_of_rotation rotation.now)) least.rings.items) }
    ensures components { IfOk result (λ least. AreDartsOf rotation.now.edges
        (components (map_of_rotation rotation.now)) least.components.items) }
{
    let rings = rising_rings(alloc, rotation, parts)?;
    let mut seen = vec![in alloc; false; parts.components() as usize]?;
    let mut components = Vec::new(alloc);
    for dart in &rings {
        add_first(*dart, parts.component_of(*dart), &mut seen, &mut components)?;
    }
    Ok(LeastDarts { rings, components })
}
