//! What a file holds, as plain lists.

use topo_base::IdNumber;

/// What a file's sections hold, as plain lists.
#[derive(Debug, Drop)]
pub struct ImageParts {
    /// For each position, whether its edge is one of the spanning trees.
    pub tree: Vec<bool>,
    /// For each position, whether it is the first of its edge.
    pub first: Vec<bool>,
    /// The first position of each component, and in the end the number of positions.
    pub starts: Vec<u32>,
    /// For each edge number, whether its first position is the forward one.
    pub forward: Vec<bool>,
    /// The ids of nodes by number: the roots of components, then the others with edges, then the isolated ones.
    pub nodes: Vec<IdNumber>,
    /// The ids of edges by number.
    pub edges: Vec<IdNumber>,
    /// The ids of faces by the number of their shell.
    pub faces: Vec<IdNumber>,
    /// The place of each component: 0 for face 0, and else 1 + the number of the face.
    pub places: Vec<u32>,
    /// The components, rising by place and then by the signed edge at their start.
    pub place_order: Vec<u32>,
    /// The place of each isolated node.
    pub isolated: Vec<u32>,
    /// Regions as parentheses.
    pub region_bits: Vec<bool>,
    /// The ids of regions by number.
    pub regions: Vec<IdNumber>,
    /// For face 0 and each face by number: 0 for no region, and else 1 + the number of its region.
    pub members: Vec<u32>,
}
