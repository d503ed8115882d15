//! Whether tables are a rotation system, and the rotation of those that are.
#![tactic(auto)]

pub mod checking;
mod counts;
mod darts;
mod missing_edges;
mod missing_faces;
mod missing_nodes;
mod repeated_ids;
pub mod rotation;
mod signed;
#[cfg(test)]
mod tests;

pub use checking::{CheckFault, check};
pub use darts::reversed;
pub use repeated_ids::{face_ids, node_ids};
pub use rotation::Rotation;
