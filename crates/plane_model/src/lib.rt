//! The tables of a plane map, and what they mean.
#![tactic(auto)]

pub mod edge_table;
pub mod ids;
pub mod laws;
pub mod node_table;
pub mod rows;
pub mod worked;

pub use edge_table::EdgeTable;
pub use node_table::NodeTable;
pub use rows::{EdgeRow, FaceRow, MemberRow, NodeRow, RegionRow, Tables};
