//! Programs, and the machine that runs them by the rules of the language.
#![tactic(auto)]

mod form;
mod frame;
mod literal;
mod machine;
mod preparation;
mod program;
mod stack;
mod steps;

pub use machine::{End, Machine};
pub use preparation::{PrepareEnd, prepare};
pub use program::Program;
