//! The outer ring of each component, and the face that contains it.
#![tactic(auto)]

mod collect;
mod enter;
mod faults;
mod gather;
pub mod laws;
mod least;
mod numbers;
mod placement;
mod placing;
mod rising;
mod rounds;
#[cfg(test)]
mod tests;

pub use placement::Placement;
pub use placing::place;
