//! The tables of an opened file, written to a shelf: rows rising by id, without an allocator.
#![tactic(auto)]

mod ahead;
mod by_rank;
mod dumping;
mod ends;
mod fault;
mod file_names;
mod gathered;
mod ids;
mod line;
mod rows;
mod sweep;
mod table;

pub use ahead::words_to_dump;
pub use dumping::dump;
pub use fault::DumpFault;
pub use file_names::DumpNames;
