//! Laws on the places of the components of a plane map: which rings are outer rings, and which are shells.
#![tactic(auto)]

pub mod laws;
