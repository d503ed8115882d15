//! Words, bits and packed numbers over borrowed bytes, with a count of the words read.
//!
//! A step is one word that a `WordView` gives bits of: `word` gives one word, and `bits_from` bits of one or of two.
//! It loads them with eight bytes at once, and cuts off what is of a word beside. The view keeps its bytes to itself,
//! `Steps` has no other call that raises it, and a new counter asks for the allocator. So whoever holds views and a
//! counter, and no allocator, gets bits of no word that this counter doesn't count.
#![tactic(auto)]

mod bit_maker;
mod bit_view;
mod byte;
mod in_word;
mod lists;
mod memory;
mod packed_maker;
mod packed_view;
mod steps;
mod tables;
mod word_view;
mod wrong_entry;

pub use bit_maker::BitMaker;
pub use bit_view::BitView;
pub use in_word::{deepest_fall, first_excess, last_excess, ones_below, place_of_one};
pub use lists::{all_bits, ones, packed_numbers};
pub use memory::Memory;
pub use packed_maker::PackedMaker;
pub use packed_view::PackedView;
pub use steps::Steps;
pub use tables::{
    BYTE_EXCESSES, BYTE_LEASTS, FIRST_FALLS, LAST_RISES, PLACES_IN_BYTES, byte_excesses_are_right,
    byte_leasts_are_right, first_falls_are_right, last_rises_are_right, places_in_bytes_are_right,
};
pub use word_view::WordView;
pub use wrong_entry::WrongEntry;

#[cfg(test)]
mod tests;
