//! The text by which values are printed and shown.
#![tactic(auto)]

mod atoms;
mod escape;
mod leaves;
mod print;

pub use print::{append_shown, printed, shown};
