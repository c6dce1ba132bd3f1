//! The table by which the phrases of modules are found.
#![tactic(auto)]

pub mod laws;
pub mod rules;
