//! Why tables were not written.

/// Why tables were not written.
#[derive(Clone, Copy, Debug, PartialEq, Eq)]
pub enum DumpFault {
    /// A write failed: the shelf's count of failed writes rose.
    WriteFault,
}
