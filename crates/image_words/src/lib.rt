//! Images for tests: words and files as bytes, and bits and numbers as they are read from bytes.
#![tactic(auto)]

mod bytes;
mod files;
mod parts;

pub use bytes::bytes_of;
pub use files::{island, old_island, old_triangle, triangle};
pub use parts::{bits_in, fields_in};
