//! The arguments that library functions take, each by its kind.
#![tactic(auto)]

mod arguments;
mod sharing;

pub use arguments::{entries_in, list_in, set_in, str_in};
pub use sharing::shares;
