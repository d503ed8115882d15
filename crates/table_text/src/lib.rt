//! The tables of a map as text, and that reading the five texts gives the same map.
#![tactic(auto)]

pub mod laws;
pub mod worked;
