//! What a module sees of others.
#![tactic(auto)]

mod built_in;
pub mod examples;

pub use built_in::is_built_in;
