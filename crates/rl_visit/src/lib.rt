//! Walks over the nodes of a value.
#![tactic(auto)]

pub mod examples;
pub mod laws;
