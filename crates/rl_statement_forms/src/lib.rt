//! Statements, from what the parts of their phrases say.
#![tactic(auto)]

mod assignment;
mod case;
mod control;
mod right_side;
mod rule;
mod simple;
mod trying;

pub use rule::statement_form;
