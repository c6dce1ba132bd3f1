//! The operators of the language on values.
#![tactic(auto)]

mod apply;
mod arithmetic;
mod comparison;
mod lists;
mod locations;
mod logic;
mod maps;
mod membership;
mod operator;
mod products;
mod sets;
mod sums;

pub use apply::{binary, unary};
pub use operator::{BinOp, UnOp};
