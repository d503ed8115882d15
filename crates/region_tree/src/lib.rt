//! Regions that lie in one another, and the faces that are in them: numbered in preorder from the rows of regions and
//! members, and seen as a view that answers which regions enclose a face.
#![tactic(auto)]

mod checking;
mod cycles;
mod faces;
pub mod laws;
mod making;
mod members;
mod numbering;
mod parents;
mod parts;
mod rows;
mod siblings;
mod view;
mod walk;

pub use making::build;
pub use parts::{MemberPlace, RegionParts};
pub use view::RegionView;
