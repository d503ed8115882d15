//! What came of looking for a shortest walk.

use crate::walk::HopWalk;
use scratch_region::Short;

/// What came of looking for a shortest walk between two faces.
#[derive(Drop)]
pub enum Found<'a, 'r> {
    /// The walk.
    Walk(HopWalk<'a, 'r>),
    /// The map lacks one of the faces.
    Unknown,
    /// The region has too few words for the map's faces.
    Short(Short<'r>),
}
