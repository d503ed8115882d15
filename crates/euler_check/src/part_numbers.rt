//! The rings and components that a rotation has.

use crate::numbering::PartNumbering;
use std::marker::Model;

/// The rings and the components of a rotation, each numbered from 0 by the first dart that belongs to it.
#[derive(Drop)]
pub struct Parts {
    rings: PartNumbering,
    components: PartNumbering,
}

impl Model for Parts {
    ghost use Rattle.euler_check.specs.Parts.{PartNumbers};

    ghost Value = { PartNumbers };

    ghost view = { λ p. record { rings = p.rings; components = p.components } };
}

impl Parts {
    ghost use Rattle.std.specs.Prelude.{◌≡◌, ◌<◌, length, slice_index};

    /// The parts with these numbers.
    pub(crate) fn new(rings: PartNumbering, components: PartNumbering) -> Self
        ensures rings { result.rings ≡ rings }
        ensures components { result.components ≡ components }
    {
        Parts { rings, components }
    }

    /// How many rings there are.
    pub fn rings(&self) -> u32
        ensures { result ≡ self.now.rings.count }
    {
        self.rings.count()
    }

    /// How many components there are; an isolated node belongs to none.
    pub fn components(&self) -> u32
        ensures { result ≡ self.now.components.count }
    {
        self.components.count()
    }

    /// The number of the ring that a dart is on.
    pub fn ring_of(&self, dart: u32) -> u32
        requires { dart < length self.now.rings.of_darts }
        ensures { result ≡ slice_index self.now.rings.of_darts dart }
    {
        self.rings.number(dart)
    }

    /// The number of the component that a dart is in.
    pub fn component_of(&self, dart: u32) -> u32
        requires { dart < length self.now.components.of_darts }
        ensures { result ≡ slice_index self.now.components.of_darts dart }
    {
        self.components.number(dart)
    }
}
