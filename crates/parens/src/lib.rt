//! Matching of parentheses, where a 1 opens and a 0 closes.
//!
//! There is no table of mates. The excess at a place is the ones less the zeros before it, and mates, enclosing and
//! common pairs are found by searches for the nearest place where it has fallen.
#![tactic(auto)]

mod checking;
mod view;

pub use checking::check_balanced;
pub use view::ParenView;

#[cfg(test)]
mod tests;
