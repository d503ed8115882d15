//! Ids that are looked up ahead of the questions that name them.

use topo_base::IdNumber;

/// Ids that are going to be asked for, up to four of each kind. What is read for one doesn't wait for what is read for
/// another, so it takes less time to look them up together.
#[derive(Clone, Copy, Debug, PartialEq, Eq)]
pub struct IdsAhead {
    pub nodes: [Option<IdNumber>; 4],
    pub edges: [Option<IdNumber>; 4],
    pub faces: [Option<IdNumber>; 4],
}
