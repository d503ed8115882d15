//! The readers of the five tables.
//!
//! The bytes of a table are records of CSV as the `csv` crate reads them by default, and the first
//! is the header. The columns that a table needs are found by their exact names, in any order, and
//! no other column is looked at. An empty field is NULL. Row 1 is the first record below the header.
//!
//! A table is refused for the first thing that is wrong with it. The header comes first: a column
//! that is missing (F1), and then one that stands twice (F2). Then come the rows in turn: one beyond
//! the table's limit (F6), one with another number of fields than the header (F3), and then its
//! numbers, column by column, as an empty one (F5) or a wrong one (F4).
#![tactic(auto)]

pub mod fault;
mod field;
mod header;
mod line;
mod plain;
mod record;
mod row;
mod row_list;
pub mod table;

pub use fault::CsvFault;
pub use table::{read_edges, read_faces, read_members, read_nodes, read_regions};

#[cfg(test)]
mod tests;
