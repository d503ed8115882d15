//! Sets of numbers that can be joined two by two, and numbered by their least members.
#![tactic(auto)]

pub mod laws;
mod links;
mod numbers;
mod sets;
#[cfg(test)]
mod tests;

pub use numbers::SetNumbers;
pub use sets::DisjointSets;
