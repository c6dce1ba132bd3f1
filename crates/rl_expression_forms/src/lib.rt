//! Expressions, from what the parts of their phrases say.
#![tactic(auto)]

mod argument;
mod chain;
mod collection;
mod literal;
mod operation;
mod pair;
mod parenthesized;
mod rule;
mod suffix;
mod visit;

pub use rule::expression_form;
