//! What stands at a position.

/// The numbers at one position.
#[derive(Clone, Copy, Debug, PartialEq, Eq)]
pub struct Passed {
    /// The number of the edge at the position.
    pub edge: u32,
    /// The number of the node that the position leaves.
    pub node: u32,
    /// 0 where the ring of the position is an outer ring, and else one more than the number of its shell.
    pub ring: u32,
    /// The number of the component that the position is in.
    pub component: u32,
    /// Whether the position is the first of its edge.
    pub first: bool,
    /// Whether its edge is one of the trees.
    pub tree: bool,
}
