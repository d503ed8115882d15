//! Answers a script from a served file, as it arrives, without an allocator.
#![tactic(auto)]

mod ahead;
mod answer;
mod fault;
mod gathered;
mod item;
mod items;
mod line;
mod next_items;
mod piece;
mod serving;
mod unknown;
mod walks;

pub use fault::ServeFault;
pub use serving::serve;

#[cfg(test)]
mod tests;
