//! Want of memory.

/// There is no memory: the answer of a call that can fail for nothing else.
#[derive(Clone, Copy, Debug, PartialEq, Eq)]
pub struct Memory;
