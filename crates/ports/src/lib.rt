//! The outside: where bytes come from, where they go, and files by name.
//!
//! A program is written over the traits `Source`, `Sink` and `Shelf`. Over
//! memory their objects tell all that they hold, and fail where they are told
//! to; over the real thing they tell counts alone.
#![tactic(auto)]

mod failing_calls;
mod file_shelf;
mod kept_file;
mod memory_shelf;
mod memory_sink;
mod memory_source;
mod std_sink;
mod std_source;
mod traits;

pub use file_shelf::FileShelf;
pub use memory_shelf::MemoryShelf;
pub use memory_sink::MemorySink;
pub use memory_source::MemorySource;
pub use std_sink::StdSink;
pub use std_source::StdSource;
pub use traits::Failed;
pub use traits::shelf::{Shelf, ShelfFault};
pub use traits::sink::Sink;
pub use traits::source::Source;

#[cfg(test)]
mod tests;
