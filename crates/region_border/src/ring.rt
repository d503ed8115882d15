//! Where a walk stands on a ring of an outline.

ghost use Rattle.std.specs.Prelude.{◌≡◌};
ghost use Rattle.region_border.specs.Rings.{ring_whole, ring_from};

use topo_base::Signed;

/// What is left of a ring: from a signed edge on until it comes back to the first.
#[derive(Clone, Copy)]
pub(crate) struct Ring {
    /// The signed edge before which it ends.
    pub first: Signed,
    /// The next signed edge.
    pub at: Signed,
    /// How many signed edges may be left: none at the end.
    pub left: usize,
}

impl Ring {
    /// A ring from its first signed edge on, where so many may be left.
    pub fn whole(first: Signed, left: usize) -> Ring
        ensures { result ≡ ring_whole first left }
    {
        Ring {
            first,
            at: first,
            left,
        }
    }

    /// What is left from a signed edge on, where so many may be left: nothing where it is the first again.
    pub fn from(first: Signed, at: Signed, left: usize) -> Ring
        ensures { result ≡ ring_from first at left }
    {
        Ring {
            first,
            at,
            left: if at == first { 0 } else { left },
        }
    }
}
