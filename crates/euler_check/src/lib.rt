//! The rings and the components of a rotation, numbered by their first darts; rings with more than one face, and
//! components that aren't plane by Euler's count.
#![tactic(auto)]

mod components;
mod euler;
mod euler_counts;
mod labels;
pub mod laws;
mod marks;
mod numbering;
mod part_numbers;
mod places;
mod rings;
#[cfg(test)]
mod tests;

pub use components::number_components;
pub use euler::parts;
pub use labels::first_mixed_ring;
pub use numbering::PartNumbering;
pub use part_numbers::Parts;
pub use rings::number_rings;
