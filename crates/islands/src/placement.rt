//! Where the components of a map are.

use std::marker::Model;
use topo_base::IdNumber;

/// For each component its start, the smallest dart of its outer ring, and the id of the face that contains it.
/// Components come by the rounds in which they are reached from face 0, and in a round by the signed edge of the start.
#[derive(Drop)]
pub struct Placement {
    starts: Vec<u32>,
    face: Vec<IdNumber>,
}

impl Model for Placement {
    ghost use Rattle.islands.specs.Places.{Places};

    ghost Value = { Places };

    ghost view = { λ p. record { starts = p.starts.items; faces = p.face.items } };
}

impl Placement {
    ghost use Rattle.std.specs.Prelude.{◌≡◌};

    /// The placement with these starts and containing faces.
    pub(crate) fn new(starts: Vec<u32>, face: Vec<IdNumber>) -> Self
        ensures starts { result.starts ≡ starts.items }
        ensures faces { result.faces ≡ face.items }
    {
        Placement { starts, face }
    }

    /// The smallest dart of each component's outer ring.
    pub fn starts(&self) -> &[u32]
        ensures { result.now ≡ self.now.starts }
    {
        &self.starts
    }

    /// The face that contains each component.
    pub fn faces(&self) -> &[IdNumber]
        ensures { result.now ≡ self.now.faces }
    {
        &self.face
    }
}
