//! Maps for tests: tables of rows that are written short, and whether their numbers are within the limits.
#![tactic(auto)]

mod in_range;
mod rows;

pub use in_range::{are_faces_in_range, are_members_in_range, are_regions_in_range, within_limits};
pub use rows::{Edge, Member, Node, Region, TRIANGLE, tables, tables_with_regions};
