//! What can be wrong with the parts of names, in the order in which it is looked for.

/// What is first wrong with the parts of names.
#[derive(Clone, Copy, Debug, PartialEq, Eq)]
pub enum NameFault {
    /// An entry of the directory of the high parts is not the count that it should be.
    HighCounts { at: u64 },
    /// The high parts have another number of ones than there are names.
    Ones { found: u64 },
    /// The id at a place is out of range, or not above that of the place before.
    Rising { at: u64 },
    /// An entry of the directory of the marks is not the count that it should be.
    MarkCounts { at: u64 },
    /// There are not as many marks as back pointers.
    MarkOnes { found: u64 },
    /// The place of a number is none, or from it the walk back does not come to the number.
    Order { at: u64 },
}
