//! Ids, signed edges, their spelling, and why tables are refused.
#![tactic(auto)]

pub mod id;
pub mod laws;
pub mod refusal;
pub mod signed;
pub mod spelling;
#[cfg(test)]
mod tests;

pub use id::{EdgeId, FaceId, IdNumber, LARGEST_ID, NodeId, RegionId, SignedNumber};
pub use refusal::{Column, Refusal, Table};
pub use signed::Signed;
pub use spelling::{read_id, read_positive, read_signed};
