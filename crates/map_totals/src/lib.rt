//! Sums over a whole map: how many items the questions on all its faces and nodes have, counted by walks over one
//! borrowed file. No call takes memory.
#![tactic(auto)]

mod items;
pub mod laws;
mod sums;
mod whole;

pub use sums::Totals;
pub use whole::totals;

#[cfg(test)]
mod early_close;
#[cfg(test)]
mod hop_counts;
#[cfg(test)]
mod in_turn;
#[cfg(test)]
mod long_walks;
#[cfg(test)]
mod many_holes;
#[cfg(test)]
mod maps;
#[cfg(test)]
mod tests;
#[cfg(test)]
mod walks;
