//! How a set is divided among the stars of a pattern.
#![tactic(auto)]

pub mod laws;
