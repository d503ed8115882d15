//! The nearest place where an excess has fallen, and the least excess between two places, by a tree of least excesses.
//!
//! The excess at a place is the ones less the zeros before it. The tree has a word for each block of 512 bits and,
//! level by level above, for each two words below it: what its bits sum to in the low 32 bits, and the least that a
//! front of them sums to in the high 32, both in two's complement.
#![tactic(auto)]

mod checking;
mod level;
mod making;
mod node;
mod scan;
mod view;

pub use checking::{check, node_count};
pub use making::make;
pub use scan::{Scan, scan_bits};
pub use view::MinMaxView;

#[cfg(test)]
mod tests;
