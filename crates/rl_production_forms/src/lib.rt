//! Syntax definitions, from what the parts of their phrases say.
#![tactic(auto)]

mod atom;
mod definition;
mod production;
mod rule;
mod symbol;

pub use rule::grammar_form;
