//! What a program asks of the outside.

pub(crate) mod shelf;
pub(crate) mod sink;
pub(crate) mod source;

/// A read or a write failed. The count of faults of the object that answers
/// this rose in the call.
#[derive(Clone, Copy, Debug, PartialEq, Eq)]
pub struct Failed;
