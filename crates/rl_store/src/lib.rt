//! The variables of a running program, with marks to which the program can go back.
#![tactic(auto)]

mod calls;
mod journal;
mod scopes;
mod slots;
mod store;

pub use calls::{Call, make_call, replay};
pub use store::Store;

#[cfg(test)]
mod tests;
