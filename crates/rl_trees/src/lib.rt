//! The library functions over syntax trees.
#![tactic(auto)]

mod counts;
mod order;
mod rows;
mod walk;

pub use rows::{spans, unparse};
