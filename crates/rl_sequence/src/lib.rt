//! Persistent sequences: an edit copies a short path, and shares the rest.
#![tactic(auto)]

mod children;
mod chunk;
mod leaf;
mod level;
mod sequence;

pub use chunk::Share;
pub use sequence::Sequence;

#[cfg(test)]
mod tests;
