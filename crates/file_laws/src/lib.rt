//! The file of a plane map as lists of bytes: its layout, what is wrong with bytes that are no such file, and the
//! tables that it stands for, with their laws: any two balanced sequences interleaved, with lawful names and places,
//! are a plane map.
#![tactic(auto)]

mod fault;
pub mod laws;
pub mod worked;

pub use fault::FileFault;
