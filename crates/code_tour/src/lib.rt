//! A sound code read position by position, with the numbers at each, over two stacks in lent words.
//!
//! No call takes memory. Passing a position reads at most four words.
#![tactic(auto)]

mod begun;
mod gap;
mod open_pairs;
mod passed;
mod tour;
mod two_lists;

pub use passed::Passed;
pub use tour::Tour;

#[cfg(test)]
mod tests;
