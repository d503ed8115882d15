//! What an opened file holds as plain lists, and the file of form 2 of the same map.
#![tactic(auto)]

mod by_number;
mod gathering;
mod laws;
mod places;
mod regions;
mod upgrade;
mod walk;

pub use gathering::parts_of;
pub use laws::walk_of_a_code;
pub use upgrade::upgraded;

#[cfg(test)]
mod opened;
#[cfg(test)]
mod placed_regions;
#[cfg(test)]
mod tests;
#[cfg(test)]
mod written;
