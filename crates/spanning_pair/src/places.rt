//! What a tour lists.

/// The walks of all components, place by place.
#[derive(Drop)]
pub struct Tour {
    /// The dart at each place.
    pub darts: Vec<u32>,
    /// Whether the edge at each place is a tree edge.
    pub tree: Vec<bool>,
    /// Whether the edge at each place is new there.
    pub first: Vec<bool>,
    /// The place where each component's walk begins, and the number of all places at the end.
    pub starts: Vec<u32>,
}
