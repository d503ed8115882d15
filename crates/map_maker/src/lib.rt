//! Maps of any size, made from a number: a square grid with closed edges and isolated nodes in some of its cells.
#![tactic(auto)]

mod direction;
mod place;
mod rows;

pub use direction::Direction;
pub use place::Place;
pub use rows::grid;

#[cfg(test)]
mod tests;
