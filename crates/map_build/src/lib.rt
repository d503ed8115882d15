//! From consistent tables to the image of their map: what its file holds is made of the map alone, by the walk round a
//! spanning tree of each component, and by its regions in preorder.
#![tactic(auto)]

mod building;
mod by_number;
mod checked;
mod fault;
pub mod laws;
mod names;
mod places;
mod regions;
mod rows;
mod standing;
#[cfg(test)]
mod tests;
pub mod worked;

pub use building::{build, draft};
pub use fault::BuildFault;
