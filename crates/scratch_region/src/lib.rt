//! Sets and lists of numbers over lent words: a region is cut into parts, each a set with room for 64 numbers a word,
//! or a list with a number a word.
//!
//! No call takes memory. Clearing a part costs what was carved; all other calls cost a constant.
#![tactic(auto)]

mod marks;
mod numbers;
mod region;
mod two_parts;

pub use marks::Marks;
pub use numbers::Numbers;
pub use region::{Region, Short};
pub use two_parts::use_in_turn;

#[cfg(test)]
mod tests;
