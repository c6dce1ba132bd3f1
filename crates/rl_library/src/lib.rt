//! The functions of the library, called by their names.
#![tactic(auto)]

mod calls;
pub mod domains;
mod functions;

pub use calls::library;
pub use functions::Lib;
