//! A walk round the outline of a region, over a borrowed file: the signed edges between its faces and the others, ring
//! by ring. No call takes memory. Lent marks hold the signed edges that were given, so that each ring is walked once.
#![tactic(auto)]

mod beginnings;
mod clearing;
mod item;
mod laws;
mod looking;
mod ring;
mod walk;
mod walks;

pub use item::BorderItem;
pub use laws::{border_is_all, outline_permutes};
pub use walk::BorderWalk;
pub use walks::border_walk;

#[cfg(test)]
mod tests;
