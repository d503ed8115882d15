//! A shortest walk over the faces of a borrowed file, on lent words alone: no call takes memory.
//!
//! A search by breadth from the face where the walk ends gives each face its distance. A step looks across the edges of
//! the face where the walk stands for the first that is one move nearer.
#![tactic(auto)]

mod breadth;
mod found;
mod hops;
mod laws;
mod walk;

pub use found::Found;
pub use hops::hop_walk;
pub use laws::{distance_is_least, paths_between_faces};
pub use walk::HopWalk;

#[cfg(test)]
mod tests;
