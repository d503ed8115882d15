//! The parts of names as they are read.

use bit_words::{BitView, PackedView};

/// The parts that names are kept in, which `make` makes.
#[derive(Clone, Copy)]
pub struct NameParts<'a> {
    /// For each high part from 0 on a one for each id that has it, and a zero.
    pub high: BitView<'a>,
    /// The ones of `high` before each block, by 32 bits each.
    pub high_counts: PackedView<'a>,
    /// The low parts of the ids, rising by id.
    pub lows: PackedView<'a>,
    /// The place of each number in the rising list of ids.
    pub places: PackedView<'a>,
    /// Which numbers have a back pointer.
    pub marks: BitView<'a>,
    /// The ones of `marks` before each block, by 32 bits each.
    pub mark_counts: PackedView<'a>,
    /// The back pointers, by rising number.
    pub back: PackedView<'a>,
}
