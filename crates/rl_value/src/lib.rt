//! Shared, immutable values.
#![tactic(auto)]

mod build;
mod build_end;
mod collect;
mod kids;
mod kind;
mod leaves;
mod open;
mod order;
mod rank;
pub mod readers;
mod renew;
mod same;
mod shape;
mod value;

pub use build::{MAX_HEIGHT, MAX_SIZE, int, leaf, list, location, node, text, tree, truth, tuple};
pub use build_end::BuildEnd;
pub use collect::{map, set};
pub use kind::Kind;
pub use open::Opened;
pub use shape::{Role, Scheme, Shape};
pub use value::{Entry, Value};

#[cfg(test)]
mod tests;
