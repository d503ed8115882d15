//! Why serving stopped.

/// Why serving stopped before the end of the script.
#[derive(Clone, Copy, Debug, PartialEq, Eq)]
pub enum ServeFault {
    /// A call of the script failed.
    ReadFault,
    /// A call of the sink failed.
    WriteFault,
    /// The script has more than 1,073,741,824 bytes.
    ScriptTooLong,
}
