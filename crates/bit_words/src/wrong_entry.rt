//! What a check of a table of numbers finds.

/// An entry of a table of numbers that is not what it should be.
#[derive(Clone, Copy, Debug, PartialEq, Eq)]
pub struct WrongEntry {
    /// The index of the entry.
    pub at: u64,
    /// What it should be.
    pub want: u64,
    /// What it is.
    pub found: u64,
}
