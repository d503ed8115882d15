//! A plane map as three sequences of bits: one position for each signed edge, in the order of a walk round a spanning
//! tree of each component. Definitions by counting, and what they say of each other.
#![tactic(auto)]

pub mod laws;
mod ring_number;
mod seq_fault;

pub use ring_number::RingNumber;
pub use seq_fault::SeqFault;
