//! What a walk round the outline of a region gives.

use topo_base::Signed;

/// A signed edge of the outline of a region, or the end of one of its rings.
#[derive(Clone, Copy, Debug, PartialEq, Eq)]
pub enum BorderItem {
    /// The next signed edge of a ring.
    Edge(Signed),
    /// A ring was given whole.
    RingEnd,
}
