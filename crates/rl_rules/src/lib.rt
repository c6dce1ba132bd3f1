//! The rules of the language.
#![tactic(auto)]

pub mod examples;
pub mod laws;
