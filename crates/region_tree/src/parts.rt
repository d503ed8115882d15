//! The regions of tables by number.

use topo_base::IdNumber;

/// A face that is in a region, and the region's number.
#[derive(Clone, Copy, Debug, PartialEq, Eq)]
pub struct MemberPlace {
    pub face: IdNumber,
    pub region: u32,
}

/// Regions numbered in preorder, with roots and children rising by id, and the faces that are in them.
#[derive(Drop)]
pub struct RegionParts {
    /// The regions as parentheses: true where one opens and false where it closes.
    pub bits: Vec<bool>,
    /// The ids of the regions, by number.
    pub ids: Vec<IdNumber>,
    /// The faces that are in regions, rising.
    pub members: Vec<MemberPlace>,
}
