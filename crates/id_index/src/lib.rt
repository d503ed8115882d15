//! The rows of a table by their ids.
//!
//! Where ids are dense, an array over them has the first row of each, made in one pass. Else the ids stand with their
//! rows, rising, and are found by halving.
#![tactic(auto)]

mod dense;
mod index;
pub mod laws;
mod repeated;
mod sparse;

pub use index::IdIndex;

#[cfg(test)]
mod tests;
