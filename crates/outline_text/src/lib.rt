//! What is told of the outline of a region of an opened file: a line for each of its rings, and how many they are.
#![tactic(auto)]

mod border_lines;
mod marking;
mod ring_lines;

pub use border_lines::border_text;

#[cfg(test)]
mod tests;
