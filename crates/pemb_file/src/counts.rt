//! How many of each a map has.

/// How many of each there are. Faces are counted without face 0, nodes with the isolated ones.
#[derive(Clone, Copy, Debug, PartialEq, Eq)]
pub struct Counts {
    pub nodes: u32,
    pub edges: u32,
    pub tree_edges: u32,
    pub faces: u32,
    pub components: u32,
    pub isolated: u32,
    pub regions: u32,
}
