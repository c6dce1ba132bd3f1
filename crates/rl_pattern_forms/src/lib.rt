//! Patterns, from what the parts of their phrases say.
#![tactic(auto)]

mod elements;
mod literals;
mod named;
mod plain;
mod rule;

pub use rule::pattern_form;
