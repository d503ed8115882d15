//! A plane map as three sequences of bits and the starts of its components: made from a walk, numbered, and checked;
//! and seen as a view, with mates, steps and numbers of its positions by rank, select and matching parentheses, and a
//! bound on the words that each call reads.
#![tactic(auto)]

mod checking;
mod count;
mod making;
mod numbering;
mod sequences;
mod view;

pub use checking::check;
pub use code_laws::{RingNumber, SeqFault};
pub use making::{CodeWords, make};
pub use numbering::{CodeNumbering, number};
pub use view::{RingStop, Stop, TuranParts, TuranView};

#[cfg(test)]
mod tests;
