//! Modules, read from the bytes of their files.
#![tactic(auto)]

mod node;
mod phrase;
pub mod read;
mod source;
mod token;

pub use read::{ReadFault, read_module};
