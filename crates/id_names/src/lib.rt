//! Names: which id each number from 0 on has, and which number has an id.
//!
//! The ids stand as a rising list, by their high parts as ones and zeros and their low parts packed, and beside
//! it the place of each number in the list. The number of a place is found by following the places, with marks
//! on long cycles and a pointer back from each, so that few places are read.
#![tactic(auto)]

mod at_once;
mod checking;
mod cycles;
mod fault;
mod inverse;
mod known;
pub mod laws;
pub mod made;
mod making;
mod name_parts;
mod packing;
mod place_words;
mod range_counts;
mod rising_ids;
mod rising_words;
mod searches;
mod sorted;
mod span;
mod view;
mod ways;
pub mod worked;

pub use checking::check;
pub use fault::NameFault;
pub use making::{NameWords, make};
pub use name_parts::NameParts;
pub use view::NamesView;

#[cfg(test)]
mod tests;
