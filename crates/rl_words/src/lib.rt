//! The words of the command line: what job they ask for, read with `clap`.
#![tactic(auto)]

mod name;
#[cfg(test)]
mod tests;
mod words;

pub use words::{Asked, asked_of};
