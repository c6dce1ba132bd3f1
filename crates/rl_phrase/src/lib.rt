//! Phrases of a table of rules, found by one loop.
#![tactic(auto)]

mod arena;
mod build;
mod firsts;
pub mod laws;
mod lookahead;
mod machine;
mod memory;
pub mod phrase;
#[cfg(test)]
mod phrase_tests;
mod search;
mod stack;
mod steps;
pub mod table;
mod terminals;
pub mod tree;
mod turn;
mod unfold;
