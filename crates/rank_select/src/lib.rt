//! Counts of ones and zeros before a place, and the place of a one or a zero by its number.
//!
//! The bits stand beside a directory of counts, one for each block of 512 bits: a count reads the directory
//! once and at most eight words of the block. In bits that begin with whole blocks of one kind, a place in these is
//! known by one count. Any other is looked for from the entry of the directory that an even share suggests, outward
//! by strides that double, and then by halving.
#![tactic(auto)]

mod checking;
mod counts;
mod making;
mod view;

pub use checking::check_counts;
pub use making::make_counts;
pub use view::RankView;

#[cfg(test)]
mod tests;
