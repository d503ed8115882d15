//! The lines of a script, and the texts that answers are made of.
#![tactic(auto)]

mod first;
mod form;
pub mod laws;
mod printing;
mod query;
mod reading;
#[cfg(test)]
mod tests;

pub use first::{FirstLine, first_line};
pub use printing::{head, node_item, number_item, signed_item};
pub use query::Query;
pub use reading::read_line;
